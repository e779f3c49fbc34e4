//! What an operator is told of the contacts that are bound to users, and of requests that were refused.
use crate::credentials::{ALICE, BOB};
use crate::holds::holds;
use crate::turns::{Asked, Goes, missed, service_of};
use proxy_service::Service;
use sip_uri::{Hop, Transport};
use std::alloc::{AllocError, Global};
use std::sync::Wait;
use std::time::Clock;

const REALM: &[u8] = b"own 192.0.2.9 5060\ninstance 7\ndomain example.com\nrealm example.com\n";

/// Who has a password, by MD5.
const USERS: &[u8] =
    b"bob 2664cba6663a734ef3a6fefc0c0d0821 -\nalice 2ea68a710b96a2d11cb42c2b3758287a -\n";

const AWAY: Hop = Hop {
    addr: [198, 51, 100, 7],
    port: 41_000,
    transport: Transport::Udp,
};

/// A REGISTER of bob with two contacts.
const REGISTER: Asked = Asked {
    at: 0,
    source: AWAY,
    method: "REGISTER",
    uri: "sip:example.com",
    from: "sip:bob@example.com",
    to: "<sip:bob@example.com>",
    call: "r1",
    cseq: 1,
    lines: "Contact: <sip:bob@10.0.0.2:5070>;expires=600, <sip:bob@198.51.100.7>;q=0.5;expires=60\r\n",
    password: None,
};

/// What goes to the telephone.
const ANSWER: Goes = Goes {
    to: AWAY,
    front: "",
    part: "",
};

/// It is challenged, refused with alice's password, and taken with bob's; a stranger's call is refused, and an ACK goes nowhere.
const TURNS: &[(Asked, Goes)] = &[
    (
        REGISTER,
        Goes {
            front: "SIP/2.0 401 ",
            ..ANSWER
        },
    ),
    (
        Asked {
            at: 10,
            cseq: 2,
            password: Some(ALICE),
            ..REGISTER
        },
        Goes {
            front: "SIP/2.0 403 ",
            ..ANSWER
        },
    ),
    (
        Asked {
            at: 20,
            cseq: 3,
            password: Some(BOB),
            ..REGISTER
        },
        Goes {
            front: "SIP/2.0 200 ",
            ..ANSWER
        },
    ),
    (
        Asked {
            at: 30,
            method: "INVITE",
            uri: "sip:x@203.0.113.1",
            from: "sip:eve@elsewhere.example",
            to: "<sip:x@203.0.113.1>",
            call: "e1",
            lines: "",
            ..REGISTER
        },
        Goes {
            front: "SIP/2.0 403 ",
            ..ANSWER
        },
    ),
];

const ACK: &[(Asked, Goes)] = &[(
    Asked {
        at: 40,
        method: "ACK",
        uri: "sip:x@203.0.113.1",
        from: "sip:eve@elsewhere.example",
        to: "<sip:x@203.0.113.1>;tag=9",
        call: "e2",
        lines: "",
        ..REGISTER
    },
    Goes {
        front: "nothing",
        ..ANSWER
    },
)];

const BOTH: &str =
    "user bob sip:bob@10.0.0.2:5070 q 1000 at 198.51.100.7:41000 left 599020\nuser bob sip:bob@198.51.100.7 q 500 at 198.51.100.7:5060 left 59020\nno more\n";

const ONE: &str =
    "user bob sip:bob@10.0.0.2:5070 q 1000 at 198.51.100.7:41000 left 540000\nno more\n";

const REFUSED: &str =
    "990 198.51.100.7:41000 REGISTER sip:example.com 403 wrong credentials for alice\n970 198.51.100.7:41000 INVITE sip:x@203.0.113.1 403 Forbidden\n960 198.51.100.7:41000 ACK sip:x@203.0.113.1 - neither trusted nor of a dialog\nno more\n";

const UNBOUND: &str = "unknown user alice\n";

const UNKNOWN: &str = "unknown user bob\n";

/// Each table stands in a function of its own: a proof reads a constant wherever it is named, once for each call beside it.
fn turns() -> &'static [(Asked, Goes)] {
    TURNS
}

fn ack() -> &'static [(Asked, Goes)] {
    ACK
}

/// What is told of all bindings at this moment.
fn all_bindings<R: Wait>(rt: &R, alloc: Global, service: &Service, now: u64) -> Option<Vec<u8>> {
    let mut text = Vec::new(alloc);
    match service.users().registry.append_bindings(rt, now, &mut text) {
        Ok(()) => Some(text),
        Err(AllocError) => None,
    }
}

/// What is told of those of a user at this moment.
fn bindings_of<R: Wait>(
    rt: &R,
    alloc: Global,
    service: &Service,
    user: &[u8],
    now: u64,
) -> Option<Vec<u8>> {
    let mut text = Vec::new(alloc);
    let registry = &service.users().registry;
    match registry.append_bindings_of(rt, user, now, &mut text) {
        Ok(()) => Some(text),
        Err(AllocError) => None,
    }
}

/// What is told of what was refused.
fn all_refused<R: Wait>(rt: &R, alloc: Global, service: &Service, now: u64) -> Option<Vec<u8>> {
    let mut text = Vec::new(alloc);
    match service.users().last_refused.append(rt, now, &mut text) {
        Ok(()) => Some(text),
        Err(AllocError) => None,
    }
}

/// What is told once a user is forgotten.
fn forgotten<R: Wait>(rt: &R, alloc: Global, service: &Service, user: &[u8]) -> Option<Vec<u8>> {
    let mut text = Vec::new(alloc);
    match service
        .users()
        .registry
        .forget_user(rt, alloc, None, user, &mut text)
    {
        Ok(()) => Some(text),
        Err(AllocError) => None,
    }
}

/// Whether this is told.
fn is(text: Option<Vec<u8>>, expected: &str) -> bool {
    match text {
        Some(text) => text.as_slice() == expected.as_bytes(),
        None => false,
    }
}

/// What is told otherwise than it should be.
fn fault_of<R: Wait>(rt: &R, alloc: Global, service: &Service) -> &'static str {
    if !is(all_bindings(rt, alloc, service, 1_000), BOTH) {
        return "all bindings";
    }
    if !is(bindings_of(rt, alloc, service, b"bob", 60_020), ONE) {
        return "those of a user that are there";
    }
    if !is(bindings_of(rt, alloc, service, b"alice", 1_000), UNBOUND) {
        return "a user without a binding";
    }
    if !is(all_refused(rt, alloc, service, 1_000), REFUSED) {
        return "what was refused";
    }
    if !is(forgotten(rt, alloc, service, b"bob"), "forgotten 2\n") {
        return "a user is forgotten";
    }
    if !is(forgotten(rt, alloc, service, b"bob"), UNKNOWN) {
        return "a user who was forgotten";
    }
    if !is(all_bindings(rt, alloc, service, 1_000), "no more\n") {
        return "nothing is bound";
    }
    "none"
}

/// The same behind the turns.
fn fault_by<R: Wait + Clock>(rt: &R, alloc: Global, service: &Service) -> &'static str {
    if missed(rt, alloc, service, turns()).is_some() {
        return "the turns";
    }
    if missed(rt, alloc, service, ack()).is_none() {
        return "an ACK is answered";
    }
    fault_of(rt, alloc, service)
}

fn fault_behind<R: Wait + Clock>(rt: &R, alloc: Global) -> &'static str {
    match service_of(alloc, REALM, Some(USERS), 100) {
        Some(service) => fault_by(rt, alloc, &service),
        None => "a service",
    }
}

#[test]
fn an_operator_is_told_of_bindings_and_refusals(rt: HostRuntime) {
    let fault = fault_behind(&rt, rt.alloc());
    holds(&rt, fault == "none", fault);
}
