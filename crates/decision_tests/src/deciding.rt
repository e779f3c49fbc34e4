//! What a service decides of a request (RFC 3261 sections 10, 16.3 and 22.3).
use crate::holds::holds;
use crate::texts::{bindings_of, request_from, settings_from};
use binding_table::BindingTable;
use bindings::UserBindings;
use proxy_dispatch::Decision;
use service_config::ServiceSettings;
use service_decisions::{Decided, ServiceView};
use sip_digest::{Algorithms, UserList};
use sip_uri::{Hop, Transport};
use std::alloc::{AllocError, Global};
use std::sync::Wait;

/// A service with a realm, which serves strangers or does not.
const REALM: &[u8] =
    b"own 192.0.2.9 5060\ndomain example.com\nrealm example.com\ntrust 192.0.2.128/25\ngateway 1000 sip:192.0.2.20\n";

const OPEN: &[u8] =
    b"own 192.0.2.9 5060\ndomain example.com\nrealm example.com\nstrangers\ntrust 192.0.2.128/25\ngateway 1000 sip:192.0.2.20\n";

/// Its users: bob and carol.
const USERS: &[u8] =
    b"bob e4d909c290d0fb1ca068ffaddf22cbd0 -\ncarol e4d909c290d0fb1ca068ffaddf22cbd0 -\n";

const SECRET: &[u8; 32] = &[7; 32];

/// Who may send as he likes, a gateway, and a stranger.
const INSIDE: Hop = Hop {
    addr: [192, 0, 2, 130],
    port: 5060,
    transport: Transport::Udp,
};

const GATEWAY: Hop = Hop {
    addr: [192, 0, 2, 20],
    port: 5060,
    transport: Transport::Udp,
};

const OUTSIDE: Hop = Hop {
    addr: [198, 51, 100, 7],
    port: 41_000,
    transport: Transport::Udp,
};

/// What is decided, as far as it is told: the setup as it stands, with a token or without; another with so many targets, whether it has a
/// token; or a status.
#[derive(Clone, Copy, PartialEq, Eq)]
enum Verdict {
    Stands,
    StandsWith,
    Targets(usize, bool),
    Status(u16),
    Leaves,
    Nothing,
}

fn verdict_of(decided: &Decided<Global>) -> Verdict {
    match &decided.decision {
        Decision::Opens => Verdict::Stands,
        Decision::OpensWith(_) => Verdict::StandsWith,
        Decision::OpensBy(setup) => {
            Verdict::Targets(setup.locations().len(), setup.token().is_some())
        }
        Decision::Answers(answer) => Verdict::Status(answer.status().code()),
        Decision::Leaves => Verdict::Leaves,
    }
}

/// A table in which carol has two bindings.
fn table_of<R: Wait>(rt: &R, alloc: Global) -> Option<BindingTable<UserBindings<Global>, Global>> {
    let bindings = bindings_of(alloc, &[(OUTSIDE, 2_000), (INSIDE, 2_000)])?;
    let table = BindingTable::new(alloc, 10).ok()?;
    match table.insert(rt, b"carol", bindings) {
        Ok(()) => Some(table),
        Err(AllocError) => None,
    }
}

/// By which settings a service goes, from where a request comes, its start line, its From and its To, and what is decided.
type Row<'a> = (&'a [u8], Hop, &'a [u8], &'a [u8], &'a [u8], Verdict);

/// What is decided of the request of a row at 1,000 ms, by these settings, users and bindings.
fn decides_by<'v, R: Wait>(
    rt: &R,
    alloc: Global,
    settings: &'v ServiceSettings<Global>,
    users: &'v UserList<Global>,
    table: &'v BindingTable<UserBindings<Global>, Global>,
    row: &Row<'_>,
) -> Option<Verdict> {
    let request = request_from(alloc, row.2, row.3, row.4)?;
    let view = ServiceView {
        settings,
        users: Some(users),
        secret: SECRET,
        bindings: table,
        has_bindings: true,
        second: 1_764_400_000,
        moment: 1_000,
    };
    match view.decide(rt, &alloc, settings.setup(), &request, row.1) {
        Ok(decided) => Some(verdict_of(&decided)),
        Err(AllocError) => Some(Verdict::Nothing),
    }
}

/// What is decided of it by the users and the bindings that there are.
fn decides_with<R: Wait>(
    rt: &R,
    alloc: Global,
    settings: &ServiceSettings<Global>,
    row: &Row<'_>,
) -> Option<Verdict> {
    let table = table_of(rt, alloc)?;
    match UserList::read(alloc, USERS, Algorithms::Md5) {
        Ok(users) => decides_by(rt, alloc, settings, &users, &table, row),
        Err(_) => None,
    }
}

/// Whether it is decided of the request of a row what has to be.
fn is_decided<R: Wait>(rt: &R, alloc: Global, row: &Row<'_>) -> bool {
    match settings_from(alloc, row.0) {
        Some(settings) => decides_with(rt, alloc, &settings, row) == Some(row.5),
        None => false,
    }
}

const BOB: &[u8] = b"f: <sip:bob@example.com>;tag=1";

const EVE: &[u8] = b"f: <sip:eve@elsewhere.example>;tag=1";

const CAROL: &[u8] = b"t: <sip:carol@example.com>";

const FOR_CAROL: &[u8] = b"INVITE sip:carol@example.com SIP/2.0";

const FOR_BOB: &[u8] = b"INVITE sip:bob@example.com SIP/2.0";

const ABROAD: &[u8] = b"INVITE sip:+15550100@example.com SIP/2.0";

const ELSEWHERE: &[u8] = b"INVITE sip:x@203.0.113.1 SIP/2.0";

const ROWS: &[Row<'static>] = &[
    // who is trusted opens all
    (
        REALM,
        INSIDE,
        FOR_CAROL,
        EVE,
        CAROL,
        Verdict::Targets(2, true),
    ),
    (REALM, INSIDE, ABROAD, EVE, CAROL, Verdict::Targets(1, true)),
    (
        REALM,
        INSIDE,
        ELSEWHERE,
        EVE,
        CAROL,
        Verdict::Targets(0, true),
    ),
    // to the gateway itself, and to a user without a binding, there is no further target
    (REALM, GATEWAY, ABROAD, EVE, CAROL, Verdict::StandsWith),
    (REALM, INSIDE, FOR_BOB, EVE, CAROL, Verdict::StandsWith),
    // who says to be of the domain is asked for a password
    (REALM, OUTSIDE, ELSEWHERE, BOB, CAROL, Verdict::Status(407)),
    (REALM, OUTSIDE, FOR_CAROL, BOB, CAROL, Verdict::Status(407)),
    // strangers
    (REALM, OUTSIDE, FOR_CAROL, EVE, CAROL, Verdict::Status(403)),
    (
        OPEN,
        OUTSIDE,
        FOR_CAROL,
        EVE,
        CAROL,
        Verdict::Targets(2, true),
    ),
    (OPEN, OUTSIDE, FOR_BOB, EVE, CAROL, Verdict::Status(403)),
    (OPEN, OUTSIDE, ELSEWHERE, EVE, CAROL, Verdict::Status(403)),
    (
        REALM,
        INSIDE,
        b"REGISTER sip:example.com SIP/2.0",
        BOB,
        CAROL,
        Verdict::Leaves,
    ),
];

/// They stand in a function of their own: a proof reads a constant wherever it is named, once for each call beside it.
fn rows() -> &'static [Row<'static>] {
    ROWS
}

#[test]
fn requests_are_decided(rt: HostRuntime) {
    for row in rows() {
        let well = is_decided(&rt, rt.alloc(), row);
        holds(&rt, well, "what is decided of a request");
    }
}

/// A service without a realm, whose user has a location.
const PLAIN: &[u8] =
    b"own 192.0.2.9 5060\ndomain example.com\nlocation bob 1000 sip:bob@192.0.2.4\n";

const HERE: Hop = Hop {
    addr: [127, 0, 0, 1],
    port: 5070,
    transport: Transport::Udp,
};

const TO_BOB: &[u8] = b"t: <sip:bob@example.com>";

fn plain_row() -> Row<'static> {
    (PLAIN, HERE, FOR_BOB, EVE, TO_BOB, Verdict::Stands)
}

#[test]
fn without_a_realm_nothing_changes_for_who_is_trusted(rt: HostRuntime) {
    let well = is_decided(&rt, rt.alloc(), &plain_row());
    holds(&rt, well, "a user with a location");
}
