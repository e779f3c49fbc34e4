//! What the credentials of a request are worth, row by row, and how it is answered where they do not do.
use crate::answers::{Wanted, is_answer};
use crate::holds::holds;
use crate::passwords::{BOBS, Password, line_if_any};
use crate::requests::request;
use crate::world::{SECOND, realm, users};
use authentication::{Challenger, RealmSecrets, Standing, standing_of, turned_away};
use sip_text::Message;
use std::alloc::Global;

/// What is known of a sender, the name in credentials whose nonce is good included.
#[derive(Clone, Copy)]
enum KnownSender {
    Unasked,
    Anonymous,
    Unusable,
    Stale,
    Wrong(&'static [u8]),
    Right(&'static [u8]),
}

/// A REGISTER request with the credentials of this password, if any; whether anybody looks at them, and in a realm; what they are worth; and
/// the status and the lines of the answer where they do not do.
#[derive(Clone, Copy)]
struct StandingRow {
    challenger: Challenger,
    password: Option<Password>,
    wanted: bool,
    has_realm: bool,
    known: KnownSender,
    status: u16,
    lines: Wanted,
    what: &'static str,
}

/// Without credentials, of which a registrar in its realm asks.
const PLAIN: StandingRow = StandingRow {
    challenger: Challenger::Server,
    password: None,
    wanted: true,
    has_realm: true,
    known: KnownSender::Anonymous,
    status: 401,
    lines: Wanted::Challenges(b"WWW-Authenticate", false),
    what: "without credentials",
};

const ROWS: &[StandingRow] = &[
    PLAIN,
    StandingRow {
        wanted: false,
        known: KnownSender::Unasked,
        what: "where nobody looks",
        ..PLAIN
    },
    StandingRow {
        password: Some(BOBS),
        has_realm: false,
        status: 403,
        lines: Wanted::Lines(&[]),
        what: "without a realm",
        ..PLAIN
    },
    StandingRow {
        password: Some(BOBS),
        known: KnownSender::Right(b"bob"),
        status: 403,
        lines: Wanted::Lines(&[]),
        what: "the right password, where the request is for another user",
        ..PLAIN
    },
    StandingRow {
        challenger: Challenger::Proxy,
        password: Some(Password {
            password: b"wonder",
            ..BOBS
        }),
        known: KnownSender::Wrong(b"bob"),
        status: 407,
        lines: Wanted::Challenges(b"Proxy-Authenticate", false),
        what: "a wrong password, by a proxy",
        ..PLAIN
    },
    StandingRow {
        password: Some(Password { age: 300, ..BOBS }),
        known: KnownSender::Stale,
        lines: Wanted::Challenges(b"WWW-Authenticate", true),
        what: "an old nonce",
        ..PLAIN
    },
    StandingRow {
        password: Some(Password {
            uri: b"sip:elsewhere.example",
            ..BOBS
        }),
        known: KnownSender::Unusable,
        status: 400,
        lines: Wanted::Lines(&[]),
        what: "credentials for another URI",
        ..PLAIN
    },
];

/// Where each request comes from.
const SOURCE: [u8; 4] = [198, 51, 100, 7];

const LINES: &[u8] = b"Via: SIP/2.0/UDP 198.51.100.7;branch=z9hG4bKr\r\n\
From: <sip:bob@example.com>;tag=1\r\nTo: <sip:bob@example.com>\r\nCall-ID: r1\r\nCSeq: 1 REGISTER\r\n";

fn message_of(alloc: Global, row: &StandingRow) -> Option<Message<Global>> {
    let field: &[u8] = match row.challenger {
        Challenger::Server => b"Authorization",
        Challenger::Proxy => b"Proxy-Authorization",
    };
    let line = line_if_any(alloc, field, row.password, b"REGISTER")?;
    request(alloc, b"REGISTER sip:example.com SIP/2.0\r\n", LINES, &line)
}

fn is_name(name: Option<&[u8]>, wanted: &[u8]) -> bool {
    match name {
        Some(name) => name == wanted,
        None => false,
    }
}

/// Whether this is known.
fn is_known(standing: &Standing<'_, Global>, wanted: KnownSender) -> bool {
    match (standing, wanted) {
        (Standing::Unasked, KnownSender::Unasked)
        | (Standing::Anonymous, KnownSender::Anonymous)
        | (Standing::Unusable, KnownSender::Unusable)
        | (Standing::Stale, KnownSender::Stale) => standing.noted().is_none(),
        (Standing::Wrong(_), KnownSender::Wrong(name))
        | (Standing::Right(_), KnownSender::Right(name)) => { is_name(standing.noted(), name) }
        _ => false,
    }
}

/// Whether the answer to one who stands so is the wanted one.
fn is_turned_away(
    alloc: Global,
    realm: Option<&RealmSecrets<'_>>,
    row: &StandingRow,
    standing: &Standing<'_, Global>,
) -> bool {
    match turned_away(alloc, row.challenger, realm, SOURCE, SECOND, standing) {
        Ok(answer) => is_answer(alloc, &answer, row.status, row.lines, SOURCE),
        Err(_) => false,
    }
}

fn is_judged(
    alloc: Global,
    realm: Option<&RealmSecrets<'_>>,
    row: &StandingRow,
    message: &Message<Global>,
) -> bool {
    match standing_of(
        &alloc,
        row.wanted,
        row.challenger,
        realm,
        message,
        SOURCE,
        SECOND,
    ) {
        Ok(standing) => {
            is_known(&standing, row.known) && is_turned_away(alloc, realm, row, &standing)
        }
        Err(_) => false,
    }
}

/// Whether a row is judged and answered as it has to be.
fn is_right(alloc: Global, realm: &RealmSecrets<'_>, row: &StandingRow) -> bool {
    let Some(message) = message_of(alloc, row) else {
        return false;
    };
    if row.has_realm {
        is_judged(alloc, Some(realm), row, &message)
    } else {
        is_judged(alloc, None, row, &message)
    }
}

fn is_row(alloc: Global, row: &StandingRow) -> bool {
    let Some(users) = users(alloc) else {
        return false;
    };
    let Some(realm) = realm(&users) else {
        return false;
    };
    is_right(alloc, &realm, row)
}

#[test]
fn credentials_have_their_worth(rt: HostRuntime) {
    for row in ROWS {
        holds(&rt, is_row(rt.alloc(), row), row.what);
    }
}
