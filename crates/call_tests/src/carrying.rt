//! What a call sends through a port, and what becomes of a send that fails (RFC 3261 sections 16.9 and 18).
use crate::holds::holds;
use crate::requests::{Change, SETUP, SOURCE, message_of, request_with, setup_of};
use fork_call::{Call, Carried, Datagram, Port, Setup, carry, is_openable};
use sip_uri::{Hop, Transport};
use std::alloc::{Allocator, Global};

/// Where the request of the one branch goes.
const TARGET: Hop = Hop {
    addr: [192, 0, 2, 4],
    port: 5060,
    transport: Transport::Udp,
};

/// The request as it is, and as an INVITE.
const OPTIONS: &[Change] = &[];

const INVITE: &[Change] = &[
    (0, b"INVITE sip:bob@example.com SIP/2.0"),
    (6, b"CSeq: 1 INVITE"),
];

/// The 180 of its branch, where the call has number 3.
const RINGING: [&[u8]; 9] = [
    b"SIP/2.0 180 Ringing",
    b"Via: SIP/2.0/UDP 192.0.2.9:5060;branch=z9hG4bK8c31e71e0ddbf1a0e56f5f0279990857.7.3.0",
    b"v: SIP/2.0/UDP 192.0.2.1:5060;branch=z9hG4bKa;rport=40000;received=192.0.2.1",
    b"f: <sip:alice@example.com>;tag=1",
    b"t: <sip:bob@example.com>;tag=2",
    b"i: c1",
    b"CSeq: 1 INVITE",
    b"l: 0",
    b"",
];

// ---- a port in memory

/// How many bytes of a datagram are kept.
const KEPT: usize = 12;

/// A port that fails one send, and keeps how the datagram begins that it was given last.
#[derive(Drop)]
struct Memory {
    /// The number of the send that fails, from 1 on; 0 where none does.
    fails: u64,
    sends: u64,
    failures: u64,
    start: [u8; KEPT],
}

impl Memory {
    fn failing(fails: u64) -> Self {
        Memory {
            fails,
            sends: 0,
            failures: 0,
            start: [0; KEPT],
        }
    }
}

impl Port for Memory {
    ghost count = { λ port. port.failures };

    fn send<A: Allocator>(&mut self, datagram: &Datagram<A>) -> bool {
        self.sends = self.sends.saturating_add(1);
        for (kept, byte) in self.start.iter_mut().zip(&datagram.bytes) {
            *kept = *byte;
        }
        if self.sends != self.fails {
            return true;
        }
        self.failures = self.failures.saturating_add(1);
        false
    }

    fn failures(&self) -> u64 {
        self.failures
    }
}

// ---- calls

/// The call that the request with these changes opens under number 3, by a setup.
fn opened_by(alloc: Global, setup: &Setup<Global>, changes: &[Change]) -> Option<Call<Global>> {
    let request = request_with(alloc, changes)?;
    if !is_openable(&request) {
        return None;
    }
    match Call::open(alloc, setup, 3, request, SOURCE, 0) {
        Ok(call) => Some(call),
        Err(_) => None,
    }
}

/// The same by the setup with one location.
fn opened(alloc: Global, changes: &[Change]) -> Option<Call<Global>> {
    let setup = setup_of(alloc, SETUP)?;
    opened_by(alloc, &setup, changes)
}

/// Whether the call sends so many datagrams at this moment and so many fail, and whether more is due then.
fn carries(call: &mut Call<Global>, port: &mut Memory, now: u64, wanted: Carried) -> bool {
    match carry(call, port, now) {
        Ok(carried) => carried == wanted,
        Err(_) => false,
    }
}

/// What a call sends as it opens, where the send of this number fails.
#[derive(Clone, Copy)]
struct Opening {
    changes: &'static [Change],
    fails: u64,
    sent: u32,
    failed: u32,
    last: &'static [u8; KEPT],
}

/// Whether a call opens so.
fn opens_so(alloc: Global, opening: Opening) -> bool {
    let mut port = Memory::failing(opening.fails);
    let wanted = Carried {
        sent: opening.sent,
        failed: opening.failed,
        more: false,
    };
    match opened(alloc, opening.changes) {
        Some(mut call) => carries(&mut call, &mut port, 0, wanted) && port.start == *opening.last,
        None => false,
    }
}

// a request that cannot be sent ends its branch with a fault, and a 500 goes up; an answer that cannot be sent ends the
// caller's transaction
#[test]
fn a_send_that_fails_is_told_to_its_transaction(rt: HostRuntime) {
    let openings = [
        Opening {
            changes: OPTIONS,
            fails: 0,
            sent: 1,
            failed: 0,
            last: b"OPTIONS sip:",
        },
        Opening {
            changes: OPTIONS,
            fails: 1,
            sent: 1,
            failed: 1,
            last: b"SIP/2.0 500 ",
        },
        Opening {
            changes: INVITE,
            fails: 0,
            sent: 2,
            failed: 0,
            last: b"INVITE sip:b",
        },
        Opening {
            changes: INVITE,
            fails: 1,
            sent: 1,
            failed: 1,
            last: b"INVITE sip:b",
        },
        Opening {
            changes: INVITE,
            fails: 2,
            sent: 2,
            failed: 1,
            last: b"SIP/2.0 500 ",
        },
    ];
    for opening in openings {
        holds(
            &rt,
            opens_so(rt.alloc(), opening),
            "what is sent as a call opens",
        );
    }
}

// ---- more steps than are made at a time

/// Whether the branch takes a 180.
fn rings(alloc: Global, call: &mut Call<Global>) -> bool {
    match message_of(alloc, &RINGING) {
        Some(response) => call.take(response, TARGET, 20).is_ok(),
        None => false,
    }
}

/// Whether it takes so many of them.
fn rings_often(alloc: Global, call: &mut Call<Global>, times: u32) -> bool {
    let mut well = true;
    for _ in 0..times {
        well = well && rings(alloc, call);
    }
    well
}

/// Whether the call sends so many datagrams, none of which fails.
fn sends(call: &mut Call<Global>, port: &mut Memory, sent: u32, more: bool) -> bool {
    let wanted = Carried {
        sent,
        failed: 0,
        more,
    };
    carries(call, port, 20, wanted)
}

/// Whether 1,030 answers that are owed go out by 1,024 and by 6.
fn sends_by_parts(alloc: Global, call: &mut Call<Global>) -> bool {
    let mut port = Memory::failing(0);
    sends(call, &mut port, 2, false)
        && rings_often(alloc, call, 1030)
        && sends(call, &mut port, 1024, true)
        && sends(call, &mut port, 6, false)
        && sends(call, &mut port, 0, false)
        && port.start == *b"SIP/2.0 180 "
}

#[test]
fn a_carry_makes_1024_steps_at_most(rt: HostRuntime) {
    let alloc = rt.alloc();
    match opened(alloc, INVITE) {
        Some(mut call) => holds(
            &rt,
            sends_by_parts(alloc, &mut call),
            "1,030 answers by two carries",
        ),
        None => holds(&rt, false, "an INVITE opens a call"),
    }
}
