//! A service whose configuration says nothing of trust, of a realm or of gateways: this machine and the locations are served, and nobody else is
//! (RFC 3261 sections 10, 11 and 16).
use crate::holds::holds;
use crate::turns::{Asked, Goes, missed, service_of};
use proxy_service::Service;
use sip_uri::{Hop, Transport};
use std::alloc::Global;
use std::sync::Wait;
use std::time::Clock;

const PLAIN: &[u8] =
    b"own 192.0.2.9 5060\ninstance 7\ndomain example.com\nlocation bob 1000 sip:bob@192.0.2.4\n";

/// This machine, bob's location, whom it calls, and a stranger.
const HERE: Hop = Hop {
    addr: [127, 0, 0, 1],
    port: 5060,
    transport: Transport::Udp,
};

const LOCATION: Hop = Hop {
    addr: [192, 0, 2, 4],
    port: 5060,
    transport: Transport::Udp,
};

const CALLED: Hop = Hop {
    addr: [203, 0, 113, 1],
    port: 5060,
    transport: Transport::Udp,
};

const STRANGER: Hop = Hop {
    addr: [203, 0, 113, 5],
    port: 5060,
    transport: Transport::Udp,
};

/// An INVITE of a user for bob, from this machine.
const INVITE: Asked = Asked {
    at: 0,
    source: HERE,
    method: "INVITE",
    uri: "sip:bob@example.com",
    from: "sip:alice@example.com",
    to: "<sip:bob@example.com>",
    call: "c1",
    cseq: 1,
    lines: "Contact: <sip:alice@127.0.0.1>\r\n",
    password: None,
};

/// What is refused goes back to the stranger.
const REFUSED: Goes = Goes {
    to: STRANGER,
    front: "SIP/2.0 403 ",
    part: "",
};

/// Who is trusted calls without a password, and strangers are refused, but for what is asked of the proxy itself.
const CALLS: &[(Asked, Goes)] = &[
    (
        INVITE,
        Goes {
            to: LOCATION,
            front: "INVITE sip:bob@192.0.2.4 SIP/2.0\r\nVia: SIP/2.0/UDP 192.0.2.9:5060;branch=",
            part: "\r\nMax-Forwards: 69\r\nFrom: <sip:alice@example.com>;tag=1\r\nTo: <sip:bob@example.com>\r\nCall-ID: c1\r\nCSeq: 1 INVITE\r\nContact: <sip:alice@127.0.0.1>\r\nContent-Length: 0\r\n\r\n",
        },
    ),
    (
        Asked {
            at: 10,
            source: LOCATION,
            uri: "sip:carol@203.0.113.1",
            to: "<sip:carol@203.0.113.1>",
            call: "c2",
            ..INVITE
        },
        Goes {
            to: CALLED,
            front: "INVITE sip:carol@203.0.113.1 SIP/2.0\r\n",
            part: "",
        },
    ),
    (
        Asked {
            at: 20,
            source: STRANGER,
            call: "c3",
            ..INVITE
        },
        REFUSED,
    ),
    (
        Asked {
            at: 30,
            source: STRANGER,
            from: "sip:carol@elsewhere.example",
            call: "c4",
            ..INVITE
        },
        REFUSED,
    ),
    (
        Asked {
            at: 40,
            source: STRANGER,
            method: "OPTIONS",
            uri: "sip:192.0.2.9:5060",
            to: "<sip:192.0.2.9:5060>",
            call: "c5",
            lines: "",
            ..INVITE
        },
        Goes {
            to: STRANGER,
            front: "SIP/2.0 200 ",
            part: "",
        },
    ),
];

/// An ACK that no call has.
const ACK: Asked = Asked {
    at: 50,
    method: "ACK",
    uri: "sip:bob@192.0.2.4",
    to: "<sip:bob@example.com>;tag=9",
    call: "c6",
    lines: "",
    ..INVITE
};

const GOES_ON: Goes = Goes {
    to: LOCATION,
    front: "ACK sip:bob@192.0.2.4 SIP/2.0\r\n",
    part: "",
};

/// A REGISTER of bob is taken from this machine, and from nobody else.
const REGISTERS: &[(Asked, Goes)] = &[
    (
        Asked {
            at: 60,
            source: STRANGER,
            method: "REGISTER",
            uri: "sip:example.com",
            call: "r1",
            lines: "Contact: <sip:bob@203.0.113.5>\r\n",
            ..INVITE
        },
        REFUSED,
    ),
    (
        Asked {
            at: 70,
            method: "REGISTER",
            uri: "sip:example.com",
            call: "r2",
            lines: "Contact: <sip:bob@127.0.0.1>\r\n",
            ..INVITE
        },
        Goes {
            to: HERE,
            front: "SIP/2.0 200 ",
            part: "\r\nContact: <sip:bob@127.0.0.1>;expires=3600\r\n",
        },
    ),
];

/// Each table stands in a function of its own: a proof reads a constant wherever it is named, once for each call beside it.
fn calls() -> &'static [(Asked, Goes)] {
    CALLS
}

fn registers() -> &'static [(Asked, Goes)] {
    REGISTERS
}

/// The ACK from there, and where one goes that goes on.
fn ack_from(source: Hop) -> (Asked, Goes) {
    (Asked { source, ..ACK }, GOES_ON)
}

/// Whether an ACK from there goes on.
fn goes_on<R: Wait + Clock>(rt: &R, alloc: Global, service: &Service, source: Hop) -> bool {
    missed(rt, alloc, service, &[ack_from(source)]).is_none()
}

/// What does not hold of this service.
fn fault_by<R: Wait + Clock>(rt: &R, alloc: Global, service: &Service) -> &'static str {
    if missed(rt, alloc, service, calls()).is_some() {
        return "who is trusted calls";
    }
    if !goes_on(rt, alloc, service, HERE) {
        return "an ACK from this machine goes on";
    }
    if goes_on(rt, alloc, service, STRANGER) {
        return "an ACK of a stranger goes nowhere";
    }
    if missed(rt, alloc, service, registers()).is_some() {
        return "who is inside registers";
    }
    "nothing"
}

/// What does not hold of such a service.
fn fault_of<R: Wait + Clock>(rt: &R, alloc: Global) -> &'static str {
    match service_of(alloc, PLAIN, None, 100) {
        Some(service) => fault_by(rt, alloc, &service),
        None => "it serves without users",
    }
}

#[test]
fn this_machine_and_the_locations_alone_are_served(rt: HostRuntime) {
    let fault = fault_of(&rt, rt.alloc());
    holds(&rt, fault == "nothing", fault);
}
