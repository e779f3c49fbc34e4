//! REGISTERs for the domain, and requests behind them (RFC 3261 section 10.3).
use crate::holds::holds;
use crate::texts::{register_of, settings_from};
use binding_table::BindingTable;
use bindings::UserBindings;
use service_config::ServiceSettings;
use service_decisions::{Registered, ServiceView};
use sip_uri::{Hop, Transport};
use std::alloc::{AllocError, Global};
use std::sync::Wait;

const SETTINGS: &[u8] =
    b"own 192.0.2.9 5060\ndomain example.com\nrealm example.com\ntrust 192.0.2.128/25\n";

const SECRET: &[u8; 32] = &[7; 32];

const INSIDE: Hop = Hop {
    addr: [192, 0, 2, 130],
    port: 5070,
    transport: Transport::Udp,
};

const OUTSIDE: Hop = Hop {
    addr: [198, 51, 100, 7],
    port: 41_000,
    transport: Transport::Udp,
};

/// From where a REGISTER of bob comes, its CSeq and its further line, its status, and how many bindings of his are there then.
type Step<'a> = (Hop, &'a [u8], &'a [u8], u16, usize);

const STEPS: &[Step<'static>] = &[
    (
        OUTSIDE,
        b"CSeq: 1 REGISTER",
        b"m: <sip:bob@10.0.0.2:5070>",
        403,
        0,
    ),
    (
        INSIDE,
        b"CSeq: 2 REGISTER",
        b"m: <sip:bob@10.0.0.2:5070>;expires=30",
        423,
        0,
    ),
    (
        INSIDE,
        b"CSeq: 3 REGISTER",
        b"m: <sip:bob@10.0.0.2:5070>;expires=600",
        200,
        1,
    ),
    // again, and with a smaller number
    (
        INSIDE,
        b"CSeq: 3 REGISTER",
        b"m: <sip:bob@10.0.0.2:5070>;expires=600",
        200,
        1,
    ),
    (
        INSIDE,
        b"CSeq: 2 REGISTER",
        b"m: <sip:bob@10.0.0.2:5070>;expires=600;q=0.5",
        500,
        1,
    ),
    (
        INSIDE,
        b"CSeq: 4 REGISTER",
        b"m: <sip:bob@10.0.0.3>",
        200,
        2,
    ),
    (INSIDE, b"CSeq: 5 REGISTER", b"Require: x", 420, 2),
];

/// They stand in a function of their own: a proof reads a constant wherever it is named, once for each call beside it.
fn steps() -> &'static [Step<'static>] {
    STEPS
}

/// The status of an answer, where the change that it tells is made.
fn status_of<R: Wait>(
    rt: &R,
    table: &BindingTable<UserBindings<Global>, Global>,
    registered: Registered<Global>,
) -> Option<u16> {
    match registered {
        Registered::Answered(answer, _noted) => Some(answer.status().code()),
        Registered::Changes(change, answer) => {
            table.commit(rt, change);
            Some(answer.status().code())
        }
        Registered::Waits => None,
    }
}

/// The status by which a REGISTER is answered, where the change that the answer tells is made.
fn registers<'v, R: Wait>(
    rt: &R,
    alloc: Global,
    settings: &'v ServiceSettings<Global>,
    table: &'v BindingTable<UserBindings<Global>, Global>,
    step: &Step<'_>,
) -> Option<u16> {
    let request = register_of(alloc, step.1, step.2)?;
    let view = ServiceView {
        settings,
        users: None,
        secret: SECRET,
        bindings: table,
        has_bindings: true,
        second: 1_764_400_000,
        moment: 1_000,
    };
    match view.register(rt, &alloc, settings.setup(), &request, step.0) {
        Ok(registered) => status_of(rt, table, registered),
        Err(AllocError) => None,
    }
}

/// How many bindings of bob are there.
fn count<R: Wait>(rt: &R, table: &BindingTable<UserBindings<Global>, Global>) -> Option<usize> {
    match table.there(rt, b"bob", 1_000) {
        Ok(held) => Some(held.len()),
        Err(AllocError) => None,
    }
}

/// Whether each step is answered by its status, and leaves so many bindings.
fn plays_on<R: Wait>(
    rt: &R,
    alloc: Global,
    settings: &ServiceSettings<Global>,
    table: &BindingTable<UserBindings<Global>, Global>,
    steps: &[Step<'_>],
) -> bool {
    let mut well = true;
    for step in steps {
        let status = registers(rt, alloc, settings, table, step);
        well = well && status == Some(step.3) && count(rt, table) == Some(step.4);
    }
    well
}

/// The same where nothing is bound.
fn plays<R: Wait>(rt: &R, alloc: Global, steps: &[Step<'_>]) -> bool {
    let settings = settings_from(alloc, SETTINGS);
    let table = BindingTable::new(alloc, 10);
    match (&settings, &table) {
        (Some(settings), Ok(table)) => plays_on(rt, alloc, settings, table, steps),
        _ => false,
    }
}

#[test]
fn telephones_register(rt: HostRuntime) {
    let well = plays(&rt, rt.alloc(), steps());
    holds(&rt, well, "each REGISTER");
}
