//! Who may open a call, row by row.
use crate::answers::Wanted;
use crate::calling::{CallRow, Decided, Token, decides, is_of_dialog_by};
use crate::holds::holds;
use crate::passwords::{BOBS, Password};
use authentication::{Rule, requests_are_decided_in_one_way, strangers_open_nothing_else};
use sip_build::OwnStatus;

const NOTHING: Wanted = Wanted::Lines(&[]);

const FORBIDDEN: Decided = Decided::Turned(403, NOTHING, None);

const CHALLENGED: Decided = Decided::Turned(
    407,
    Wanted::Challenges(b"Proxy-Authenticate", false),
    None,
);

const FROM_BOB: &[u8] =
    b"Via: SIP/2.0/UDP 198.51.100.7;branch=z9hG4bKc1\r\nFrom: Bob <sip:bob@example.com>;tag=1\r\nTo: <sip:x@203.0.113.1>\r\nCall-ID: c1\r\nCSeq: 1 INVITE\r\n";

const FROM_NOBODY: &[u8] =
    b"Via: SIP/2.0/UDP 198.51.100.7;branch=z9hG4bKc2\r\nFrom: <sip:anonymous@anonymous.invalid>;tag=1\r\nTo: <sip:x@203.0.113.1>\r\nCall-ID: c2\r\nCSeq: 1 INVITE\r\n";

const FROM_EVE: &[u8] =
    b"Via: SIP/2.0/UDP 198.51.100.7;branch=z9hG4bKc3\r\nFrom: sip:eve@elsewhere.example;tag=1\r\nTo: <sip:bob@example.com>\r\nCall-ID: c3\r\nCSeq: 1 INVITE\r\n";

const BYE: &[u8] =
    b"Via: SIP/2.0/UDP 198.51.100.7;branch=z9hG4bKc4\r\nFrom: <sip:eve@elsewhere.example>;tag=1\r\nTo: <sip:bob@example.com>;tag=2\r\nCall-ID: c4\r\nCSeq: 2 BYE\r\n";

const REGISTER: &[u8] =
    b"Via: SIP/2.0/UDP 198.51.100.7;branch=z9hG4bKc5\r\nFrom: <sip:bob@example.com>;tag=1\r\nTo: <sip:bob@example.com>\r\nCall-ID: c5\r\nCSeq: 2 REGISTER\r\n";

/// bob's, for a call to elsewhere.
const PASSWORD: Password = Password {
    uri: b"sip:x@203.0.113.1",
    ..BOBS
};

const ALICES: Password = Password {
    name: b"alice",
    password: b"wonder",
    ..PASSWORD
};

/// An INVITE from bob to elsewhere.
const CALL: CallRow = CallRow {
    method: b"INVITE",
    uri: b"sip:x@203.0.113.1",
    lines: FROM_BOB,
    token: None,
    password: None,
    trusted: false,
    refusal: None,
    strangers: false,
    has_place: false,
    decided: CHALLENGED,
};

/// The end of a dialog, from elsewhere.
const END: CallRow = CallRow {
    method: b"BYE",
    lines: BYE,
    decided: FORBIDDEN,
    ..CALL
};

/// A call from elsewhere to bob.
const TO_BOB: CallRow = CallRow {
    uri: b"sip:bob@example.com",
    lines: FROM_EVE,
    decided: FORBIDDEN,
    ..CALL
};

/// Requests, and what each shows.
const ROWS: &[(CallRow, &str)] = &[
    (CALL, "a call without credentials is challenged"),
    (
        CallRow {
            password: Some(PASSWORD),
            decided: Decided::Opens(Rule::Password),
            ..CALL
        },
        "a call with the password is opened",
    ),
    (
        CallRow {
            password: Some(ALICES),
            decided: Decided::Turned(403, NOTHING, Some(b"alice")),
            ..CALL
        },
        "the password of another user",
    ),
    (
        CallRow {
            password: Some(Password {
                uri: b"sip:y@203.0.113.1",
                ..BOBS
            }),
            decided: Decided::Turned(400, NOTHING, None),
            ..CALL
        },
        "credentials for another URI",
    ),
    (
        CallRow {
            password: Some(Password {
                password: b"wrong",
                ..PASSWORD
            }),
            decided: Decided::Turned(
                407,
                Wanted::Challenges(b"Proxy-Authenticate", false),
                Some(b"bob"),
            ),
            ..CALL
        },
        "a wrong password is noted",
    ),
    (
        CallRow {
            password: Some(Password {
                age: 300,
                ..PASSWORD
            }),
            decided: Decided::Turned(407, Wanted::Challenges(b"Proxy-Authenticate", true), None),
            ..CALL
        },
        "an old nonce",
    ),
    (
        CallRow {
            lines: FROM_NOBODY,
            ..CALL
        },
        "one who does not say who he is",
    ),
    (
        CallRow {
            lines: FROM_NOBODY,
            password: Some(PASSWORD),
            decided: Decided::Opens(Rule::Password),
            ..CALL
        },
        "the same with a password",
    ),
    (
        CallRow {
            lines: FROM_EVE,
            decided: FORBIDDEN,
            ..CALL
        },
        "a stranger to elsewhere",
    ),
    (
        CallRow {
            lines: FROM_EVE,
            strangers: true,
            has_place: true,
            decided: FORBIDDEN,
            ..CALL
        },
        "a stranger to elsewhere, where strangers are served",
    ),
    (TO_BOB, "a stranger to bob"),
    (
        CallRow {
            has_place: true,
            ..TO_BOB
        },
        "a stranger to bob, where strangers are not served",
    ),
    (
        CallRow {
            strangers: true,
            ..TO_BOB
        },
        "a stranger to bob, who has no place",
    ),
    (
        CallRow {
            strangers: true,
            has_place: true,
            decided: Decided::Opens(Rule::Stranger),
            ..TO_BOB
        },
        "a stranger to bob, where strangers are served",
    ),
    (END, "the end of a dialog without a token"),
    (
        CallRow {
            token: Some(Token(b"c4", 86_399)),
            decided: Decided::Opens(Rule::InDialog),
            ..END
        },
        "the end of a dialog with its token",
    ),
    (
        CallRow {
            token: Some(Token(b"c4", 86_400)),
            ..END
        },
        "a token that is a day old",
    ),
    (
        CallRow {
            token: Some(Token(b"c3", 10)),
            ..END
        },
        "the token of another dialog",
    ),
    (
        CallRow {
            token: Some(Token(b"c3", 10)),
            ..TO_BOB
        },
        "a token outside of a dialog",
    ),
    (
        CallRow {
            trusted: true,
            decided: Decided::Opens(Rule::Trusted),
            ..CALL
        },
        "a trusted source",
    ),
    (
        CallRow {
            trusted: true,
            refusal: Some(OwnStatus::TooManyHops),
            decided: Decided::Turned(483, NOTHING, None),
            ..CALL
        },
        "the checks come first",
    ),
    (
        CallRow {
            method: b"REGISTER",
            uri: b"sip:EXAMPLE.com",
            lines: REGISTER,
            trusted: true,
            refusal: Some(OwnStatus::TooManyHops),
            decided: Decided::Registers,
            ..CALL
        },
        "a REGISTER for the domain, from a trusted source",
    ),
    (
        CallRow {
            method: b"REGISTER",
            lines: REGISTER,
            ..CALL
        },
        "a REGISTER for elsewhere",
    ),
];

#[test]
fn each_row_is_decided(rt: HostRuntime) {
    strangers_open_nothing_else();
    requests_are_decided_in_one_way();
    for (row, what) in ROWS {
        holds(&rt, decides(rt.alloc(), true, row), what);
    }
}

/// Whether a call of bob's is refused where nobody has a password, also with credentials.
#[test]
fn nobody_has_a_password_without_a_realm(rt: HostRuntime) {
    let plain = CallRow {
        decided: FORBIDDEN,
        ..CALL
    };
    let given = CallRow {
        password: Some(PASSWORD),
        ..plain
    };
    holds(&rt, decides(rt.alloc(), false, &plain), "no credentials");
    holds(&rt, decides(rt.alloc(), false, &given), "credentials");
}

#[test]
fn a_dialog_is_known_by_either_address(rt: HostRuntime) {
    let rows: [(&[u8], bool, &str); 3] = [
        (b"Route: <sip:192.0.2.9:5060;lr;d=", true, "the own one"),
        (
            b"Route: <sip:192.0.2.10:5061;lr;d=",
            true,
            "the one that Record-Route lines name",
        ),
        (b"Route: <sip:192.0.2.10:5060;lr;d=", false, "another port"),
    ];
    for (front, is, what) in rows {
        holds(&rt, is_of_dialog_by(rt.alloc(), front) == Some(is), what);
    }
}
