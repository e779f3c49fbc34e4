//! Telephones register and are called, and strangers are not (RFC 3261 sections 10, 16 and 22).
use crate::credentials::{ALICE, BOB};
use crate::holds::holds;
use crate::outgoing::Outgoing;
use crate::turns::{Asked, Goes, missed, service_of};
use sip_uri::{Hop, Transport};
use std::alloc::Global;
use std::sync::Wait;
use std::time::Clock;

pub const REALM: &[u8] =
    b"own 192.0.2.9 5060\ninstance 7\ndomain example.com\nrealm example.com\ntrust 192.0.2.128/25\ngateway 1000 sip:192.0.2.20\n";

/// The same, where strangers may call the users of the domain.
const OPEN: &[u8] =
    b"own 192.0.2.9 5060\ninstance 7\ndomain example.com\nrealm example.com\nstrangers\ntrust 192.0.2.128/25\ngateway 1000 sip:192.0.2.20\n";

/// Who has a password, by MD5.
pub const USERS: &[u8] =
    b"bob 2664cba6663a734ef3a6fefc0c0d0821 -\nalice 2ea68a710b96a2d11cb42c2b3758287a -\n";

/// Where bob's telephone is behind a translated address, another one of his, one that is trusted, a gateway, and a stranger.
pub const AWAY: Hop = Hop {
    addr: [198, 51, 100, 7],
    port: 41_000,
    transport: Transport::Udp,
};

pub const ELSEWHERE: Hop = Hop {
    addr: [203, 0, 113, 5],
    port: 5060,
    transport: Transport::Udp,
};

pub const INSIDE: Hop = Hop {
    addr: [192, 0, 2, 130],
    port: 5060,
    transport: Transport::Udp,
};

pub const GATEWAY: Hop = Hop {
    addr: [192, 0, 2, 20],
    port: 5060,
    transport: Transport::Udp,
};

const BOB_URI: &str = "sip:bob@example.com";

const BOB_TO: &str = "<sip:bob@example.com>";

/// A REGISTER of bob with the contact of his telephone.
pub const REGISTER: Asked = Asked {
    at: 0,
    source: AWAY,
    method: "REGISTER",
    uri: "sip:example.com",
    from: BOB_URI,
    to: BOB_TO,
    call: "r1",
    cseq: 1,
    lines: "Contact: <sip:bob@10.0.0.2:5070>;expires=600\r\n",
    password: None,
};

/// An INVITE for bob from one who is trusted.
pub const INVITE: Asked = Asked {
    at: 1_000,
    source: INSIDE,
    method: "INVITE",
    uri: BOB_URI,
    from: "sip:carol@elsewhere.example",
    to: BOB_TO,
    call: "c1",
    cseq: 1,
    lines: "Contact: <sip:carol@192.0.2.130>\r\n",
    password: None,
};

/// A telephone behind a translated address registers, rings until its binding ends, and is not there behind that.
const REGISTERED: &[(Asked, Goes)] = &[
    (
        REGISTER,
        Goes {
            to: AWAY,
            front: "SIP/2.0 401 ",
            part: "WWW-Authenticate: Digest realm=\"example.com\"",
        },
    ),
    (
        Asked {
            at: 10,
            cseq: 2,
            password: Some(ALICE),
            ..REGISTER
        },
        Goes {
            to: AWAY,
            front: "SIP/2.0 403 ",
            part: "",
        },
    ),
    (
        Asked {
            at: 20,
            cseq: 3,
            password: Some(BOB),
            ..REGISTER
        },
        Goes {
            to: AWAY,
            front: "SIP/2.0 200 ",
            part: "\r\nContact: <sip:bob@10.0.0.2:5070>;expires=600\r\n",
        },
    ),
    (
        INVITE,
        Goes {
            to: AWAY,
            front: "INVITE sip:bob@10.0.0.2:5070 SIP/2.0\r\n",
            part: "\r\nRecord-Route: <sip:192.0.2.9:5060;lr;d=",
        },
    ),
    // an ACK of the dialog goes to the telephone by the way that it came
    (
        Asked {
            at: 2_000,
            method: "ACK",
            uri: "sip:bob@10.0.0.2:5070",
            to: "<sip:bob@example.com>;tag=9",
            call: "c2",
            lines: "",
            ..INVITE
        },
        Goes {
            to: AWAY,
            front: "ACK sip:bob@10.0.0.2:5070 SIP/2.0\r\n",
            part: "",
        },
    ),
    (
        Asked {
            at: 3_000,
            source: ELSEWHERE,
            call: "r2",
            password: Some(BOB),
            ..REGISTER
        },
        Goes {
            to: ELSEWHERE,
            front: "SIP/2.0 200 ",
            part: "\r\nContact: <sip:bob@10.0.0.2:5070>;expires=600\r\n",
        },
    ),
    (
        Asked {
            at: 4_000,
            call: "c3",
            ..INVITE
        },
        Goes {
            to: ELSEWHERE,
            front: "INVITE sip:bob@10.0.0.2:5070 SIP/2.0\r\n",
            part: "",
        },
    ),
    (
        Asked {
            at: 600_020,
            call: "c4",
            ..INVITE
        },
        Goes {
            to: ELSEWHERE,
            front: "INVITE sip:bob@10.0.0.2:5070 SIP/2.0\r\n",
            part: "",
        },
    ),
    (
        Asked {
            at: 603_000,
            call: "c5",
            ..INVITE
        },
        Goes {
            to: INSIDE,
            front: "SIP/2.0 480 ",
            part: "",
        },
    ),
];

/// Each table stands in a function of its own: a proof reads a constant wherever it is named, once for each call beside it.
fn registered() -> &'static [(Asked, Goes)] {
    REGISTERED
}

/// An INVITE of somebody whose address is not trusted.
const OUTSIDE: Asked = Asked {
    source: AWAY,
    from: BOB_URI,
    uri: "sip:x@203.0.113.1",
    to: "<sip:x@203.0.113.1>",
    call: "s1",
    ..INVITE
};

/// Who may call: those with a password, from wherever they are, those that are trusted, and nobody else.
const CALLING: &[(Asked, Goes)] = &[
    (
        OUTSIDE,
        Goes {
            to: AWAY,
            front: "SIP/2.0 407 ",
            part: "Proxy-Authenticate: Digest realm=\"example.com\"",
        },
    ),
    (
        Asked {
            call: "s2",
            password: Some(BOB),
            ..OUTSIDE
        },
        Goes {
            to: Hop {
                addr: [203, 0, 113, 1],
                port: 5060,
                transport: Transport::Udp,
            },
            front: "INVITE sip:x@203.0.113.1 SIP/2.0\r\n",
            part: "",
        },
    ),
    (
        Asked {
            call: "s3",
            password: Some(ALICE),
            ..OUTSIDE
        },
        Goes {
            to: AWAY,
            front: "SIP/2.0 403 ",
            part: "",
        },
    ),
    (
        Asked {
            call: "s4",
            from: "sip:eve@elsewhere.example",
            ..OUTSIDE
        },
        Goes {
            to: AWAY,
            front: "SIP/2.0 403 ",
            part: "",
        },
    ),
    // the gateway is for those inside, and for no gateway
    (
        Asked {
            uri: "sip:+15550100@example.com",
            to: "<sip:+15550100@example.com>",
            call: "g1",
            ..INVITE
        },
        Goes {
            to: GATEWAY,
            front: "INVITE sip:+15550100@192.0.2.20 SIP/2.0\r\n",
            part: "",
        },
    ),
    (
        Asked {
            source: GATEWAY,
            uri: "sip:+15550100@example.com",
            to: "<sip:+15550100@example.com>",
            call: "g2",
            ..INVITE
        },
        Goes {
            to: GATEWAY,
            front: "SIP/2.0 480 ",
            part: "",
        },
    ),
    (
        Asked {
            source: GATEWAY,
            call: "g3",
            ..REGISTER
        },
        Goes {
            to: GATEWAY,
            front: "SIP/2.0 401 ",
            part: "",
        },
    ),
];

fn calling() -> &'static [(Asked, Goes)] {
    CALLING
}

/// Where strangers are served, they reach users who have registered, and no others.
const STRANGERS: &[(Asked, Goes)] = &[
    (
        Asked {
            source: INSIDE,
            ..REGISTER
        },
        Goes {
            to: INSIDE,
            front: "SIP/2.0 200 ",
            part: "",
        },
    ),
    (
        Asked {
            source: ELSEWHERE,
            call: "e1",
            ..INVITE
        },
        Goes {
            to: Hop {
                addr: [192, 0, 2, 130],
                port: 5060,
                transport: Transport::Udp,
            },
            front: "INVITE sip:bob@10.0.0.2:5070 SIP/2.0\r\n",
            part: "",
        },
    ),
    (
        Asked {
            source: ELSEWHERE,
            uri: "sip:nobody@example.com",
            to: "<sip:nobody@example.com>",
            call: "e2",
            ..INVITE
        },
        Goes {
            to: ELSEWHERE,
            front: "SIP/2.0 403 ",
            part: "",
        },
    ),
];

fn strangers() -> &'static [(Asked, Goes)] {
    STRANGERS
}

/// Whether a service by this configuration follows each of the turns.
fn follows<R: Wait + Clock>(rt: &R, alloc: Global, text: &[u8], turns: &[(Asked, Goes)]) -> bool {
    match service_of(alloc, text, Some(USERS), 100) {
        Some(service) => missed(rt, alloc, &service, turns).is_none(),
        None => false,
    }
}

#[test]
fn telephones_register_and_are_called(rt: HostRuntime) {
    let well = follows(&rt, rt.alloc(), REALM, registered());
    holds(&rt, well, "a telephone");
}

#[test]
fn who_may_call_is_called_for(rt: HostRuntime) {
    let well = follows(&rt, rt.alloc(), REALM, calling());
    holds(&rt, well, "each who calls");
}

#[test]
fn strangers_reach_who_has_registered(rt: HostRuntime) {
    let well = follows(&rt, rt.alloc(), OPEN, strangers());
    holds(&rt, well, "strangers");
}

/// What waits to be written once alice's password has come for bob.
fn warned<R: Wait + Clock>(rt: &R, alloc: Global) -> Option<Vec<u8>> {
    let service = service_of(alloc, REALM, Some(USERS), 100)?;
    let _ = missed(rt, alloc, &service, registered());
    Some(service.users().warnings.take(rt).text)
}

#[test]
fn wrong_credentials_are_told(rt: HostRuntime) {
    let well = match warned(&rt, rt.alloc()) {
        Some(text) => text.as_slice()
            == b"wrong credentials for alice from 198.51.100.7:41000\n".as_slice(),
        None => false,
    };
    holds(&rt, well, "the line of wrong credentials");
}

// ---- room for bindings

/// A REGISTER of alice, who is inside.
pub const ALICES: Asked = Asked {
    at: 30_000,
    source: INSIDE,
    from: "sip:alice@example.com",
    to: "<sip:alice@example.com>",
    call: "r9",
    lines: "Contact: <sip:alice@10.0.0.9>;expires=60\r\n",
    ..REGISTER
};

/// A binding is made, or there is no room for it.
const MADE: Goes = Goes {
    to: INSIDE,
    front: "SIP/2.0 200 ",
    part: "",
};

const NO_ROOM: Goes = Goes {
    to: INSIDE,
    front: "SIP/2.0 503 ",
    part: "",
};

/// Bob has the one binding that there is room for, for a minute.
const FULL: &[(Asked, Goes)] = &[
    (
        Asked {
            source: INSIDE,
            lines: "Contact: <sip:bob@10.0.0.2:5070>;expires=60\r\n",
            ..REGISTER
        },
        MADE,
    ),
    (ALICES, NO_ROOM),
];

fn full() -> &'static [(Asked, Goes)] {
    FULL
}

/// Alice asks again while it is there, and when it has ended.
const AGAIN: &[(Asked, Goes)] = &[(
    Asked {
        at: 59_999,
        cseq: 2,
        ..ALICES
    },
    NO_ROOM,
)];

fn again() -> &'static [(Asked, Goes)] {
    AGAIN
}

const AFTERWARDS: &[(Asked, Goes)] = &[(
    Asked {
        at: 60_000,
        cseq: 3,
        ..ALICES
    },
    MADE,
)];

fn afterwards() -> &'static [(Asked, Goes)] {
    AFTERWARDS
}

/// Whether a binding leaves its room once the time is looked at behind its end, and no sooner.
fn leaves_room<R: Wait + Clock>(rt: &R, alloc: Global) -> Option<bool> {
    let service = service_of(alloc, REALM, Some(USERS), 1)?;
    let mut port = Outgoing::new(alloc);
    let is_idle = service.next_look(rt, 0) == u64::MAX;
    let is_full = missed(rt, alloc, &service, full()).is_none();
    service.tick(rt, &mut port, 49_999);
    let is_kept = missed(rt, alloc, &service, again()).is_none();
    let looks = service.next_look(rt, 49_999) == 59_999;
    service.tick(rt, &mut port, 60_000);
    let has_room = missed(rt, alloc, &service, afterwards()).is_none();
    Some(is_idle && is_full && is_kept && looks && has_room)
}

#[test]
fn a_binding_that_has_ended_leaves_its_room(rt: HostRuntime) {
    let well = leaves_room(&rt, rt.alloc()) == Some(true);
    holds(&rt, well, "the room of a binding");
}
