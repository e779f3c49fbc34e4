//! What becomes of datagrams where a send fails (RFC 3261 sections 16.9, 17.1.4 and 17.2.4).
use crate::carrying::{posted, serves_lines};
use crate::holds::holds;
use crate::texts::{setup_of, shelf_of};
use call_messages::lines::{CALL_ID, FROM, MARKED, TO, VIA};
use call_table::Shelf;
use fork_call::{Call, Cause, Datagram, Port, Setup};
use proxy_dispatch::Handled;
use std::alloc::{Allocator, Global};
use std::process::Abort;
use std::sync::Wait;

/// A port whose send of one number fails.
#[derive(Drop)]
struct Lossy {
    /// The number of the send that fails, from 1 on.
    fails: u64,
    /// Whether it is counted as a failure.
    counts: bool,
    sends: u64,
    failures: u64,
    /// What the datagram was for that failed.
    lost: Option<Cause>,
}

impl Port for Lossy {
    ghost count = { λ port. port.failures };

    fn send<A: Allocator>(&mut self, datagram: &Datagram<A>) -> bool {
        self.sends = self.sends.saturating_add(1);
        if self.sends != self.fails {
            return true;
        }
        if self.counts {
            self.failures = self.failures.saturating_add(1);
        }
        self.lost = Some(datagram.cause);
        false
    }

    fn failures(&self) -> u64 {
        self.failures
    }
}

impl Lossy {
    fn failing(fails: u64, counts: bool) -> Lossy {
        Lossy {
            fails,
            counts,
            sends: 0,
            failures: 0,
            lost: None,
        }
    }
}

/// A datagram of a history: when it comes, its lines, and what becomes of it.
type Step<'a> = (u64, &'a [&'a [u8]], Handled);

/// The Via line of the branch of call 0.
const OWN_VIA: &[u8] =
    b"Via: SIP/2.0/UDP 192.0.2.9:5060;branch=z9hG4bK8c31e71e0ddbf1a0e56f5f0279990857.7.0.0";

const ANSWERED: &[u8] = b"t: <sip:bob@example.com>;tag=9";

const SEVENTY: &[u8] = b"Max-Forwards: 70";

/// An OPTIONS request and its answer, each twice, and the answer of a target that it does not have.
const OPTIONS: [Step<'static>; 5] = [
    (0, &ASKED, Handled::Opened(0)),
    (20, &NOT_FOUND, Handled::Delivered(0)),
    (30, &NOT_FOUND, Handled::Delivered(0)),
    (30, &NOT_FOUND_OF_FIVE, Handled::Dropped),
    (40, &ASKED, Handled::Delivered(0)),
];

const ASKED: [&[u8]; 8] = [
    b"OPTIONS sip:bob@example.com SIP/2.0",
    VIA,
    SEVENTY,
    FROM,
    TO,
    CALL_ID,
    b"CSeq: 1 OPTIONS",
    b"",
];

const NOT_FOUND: [&[u8]; 8] = [
    b"SIP/2.0 404 Not Found",
    OWN_VIA,
    MARKED,
    FROM,
    ANSWERED,
    CALL_ID,
    b"CSeq: 1 OPTIONS",
    b"",
];

const NOT_FOUND_OF_FIVE: [&[u8]; 8] = [
    b"SIP/2.0 404 Not Found",
    b"Via: SIP/2.0/UDP 192.0.2.9:5060;branch=z9hG4bK8c31e71e0ddbf1a0e56f5f0279990857.7.0.5",
    MARKED,
    FROM,
    ANSWERED,
    CALL_ID,
    b"CSeq: 1 OPTIONS",
    b"",
];

/// An INVITE that is cancelled before it rings.
const INVITE: [Step<'static>; 4] = [
    (0, &INVITED, Handled::Opened(0)),
    (10, &CANCELLED, Handled::Delivered(0)),
    (20, &RINGING, Handled::Delivered(0)),
    (30, &TERMINATED, Handled::Delivered(0)),
];

const INVITED: [&[u8]; 8] = [
    b"INVITE sip:bob@example.com SIP/2.0",
    VIA,
    SEVENTY,
    FROM,
    TO,
    CALL_ID,
    b"CSeq: 1 INVITE",
    b"",
];

const CANCELLED: [&[u8]; 8] = [
    b"CANCEL sip:bob@example.com SIP/2.0",
    VIA,
    SEVENTY,
    FROM,
    TO,
    CALL_ID,
    b"CSeq: 1 CANCEL",
    b"",
];

const RINGING: [&[u8]; 8] = [
    b"SIP/2.0 180 Ringing",
    OWN_VIA,
    MARKED,
    FROM,
    ANSWERED,
    CALL_ID,
    b"CSeq: 1 INVITE",
    b"",
];

const TERMINATED: [&[u8]; 8] = [
    b"SIP/2.0 487 Request Terminated",
    OWN_VIA,
    MARKED,
    FROM,
    ANSWERED,
    CALL_ID,
    b"CSeq: 1 INVITE",
    b"",
];

/// Whether each datagram becomes what it is to become by a setup, and its call is carried, over that port.
fn plays_by<R: Abort + Wait>(
    rt: &R,
    alloc: Global,
    shelf: &Shelf<Call<Global>>,
    setup: &Setup<Global>,
    steps: &[Step<'_>],
    port: &mut Lossy,
) -> bool {
    let mut well = true;
    for step in steps {
        let handled = serves_lines(rt, alloc, shelf, setup, step.1, step.0, port);
        well = well && handled == Some(step.2);
    }
    well
}

/// The same by the setup.
fn plays<R: Abort + Wait>(
    rt: &R,
    alloc: Global,
    shelf: &Shelf<Call<Global>>,
    steps: &[Step<'_>],
    port: &mut Lossy,
) -> bool {
    match setup_of(alloc) {
        Some(setup) => plays_by(rt, alloc, shelf, &setup, steps, port),
        None => false,
    }
}

/// Which send of a history fails, what it was for, how many there are, and how many events and faults were posted then.
#[derive(Clone, Copy)]
struct Losing {
    fails: u64,
    lost: Option<Cause>,
    sends: u64,
    posted: (usize, usize),
}

/// Whether a history goes so on this shelf.
fn goes_so_on<R: Abort + Wait>(
    rt: &R,
    alloc: Global,
    shelf: &Shelf<Call<Global>>,
    steps: &[Step<'_>],
    losing: Losing,
) -> bool {
    let mut port = Lossy::failing(losing.fails, true);
    plays(rt, alloc, shelf, steps, &mut port)
        && port.lost == losing.lost
        && port.sends == losing.sends
        && posted(rt, shelf, 0) == Some(losing.posted)
}

/// Whether it goes so where no call stands.
fn goes_so<R: Abort + Wait>(rt: &R, alloc: Global, steps: &[Step<'_>], losing: Losing) -> bool {
    match shelf_of(alloc) {
        Some(shelf) => goes_so_on(rt, alloc, &shelf, steps, losing),
        None => false,
    }
}

// the request; its answer, and that again
#[test]
fn a_lost_datagram_of_a_request_is_told(rt: HostRuntime) {
    let losings = [
        // the branch ends with a fault, and a 500 goes up, twice; the answer comes too late
        Losing {
            fails: 1,
            lost: Some(Cause::Request(0)),
            sends: 3,
            posted: (1, 1),
        },
        // the caller's transaction ends (RFC 3261 section 17.2.4)
        Losing {
            fails: 2,
            lost: Some(Cause::Answer),
            sends: 2,
            posted: (1, 0),
        },
        Losing {
            fails: 3,
            lost: Some(Cause::Answer),
            sends: 3,
            posted: (1, 0),
        },
        Losing {
            fails: 4,
            lost: None,
            sends: 3,
            posted: (1, 0),
        },
    ];
    for losing in losings {
        holds(
            &rt,
            goes_so(&rt, rt.alloc(), &OPTIONS, losing),
            "a send of an OPTIONS call",
        );
    }
}

// the 100 and the request; the 200 to the CANCEL; the 180 and the CANCEL; the 487 and the ACK
#[test]
fn a_lost_datagram_of_an_invite_is_told(rt: HostRuntime) {
    let causes = [
        Some(Cause::Answer),
        None,
        Some(Cause::CancelOk),
        Some(Cause::Answer),
        Some(Cause::Cancel(0)),
        Some(Cause::Answer),
        Some(Cause::Ack(0)),
    ];
    for (fails, lost) in (1..).zip(causes) {
        let losing = match lost {
            Some(_) => Losing {
                fails,
                lost,
                sends: 7,
                posted: (3, 0),
            },
            // the branch ends with a fault, and a 500 goes up; the CANCEL is posted, and what the target answers is late
            None => Losing {
                fails,
                lost: Some(Cause::Request(0)),
                sends: 4,
                posted: (2, 1),
            },
        };
        holds(
            &rt,
            goes_so(&rt, rt.alloc(), &INVITE, losing),
            "a send of an INVITE call",
        );
    }
}

/// Whether nothing is told of a send of this number that the port does not count, on this shelf.
fn is_not_told_on<R: Abort + Wait>(
    rt: &R,
    alloc: Global,
    shelf: &Shelf<Call<Global>>,
    fails: u64,
) -> bool {
    let mut port = Lossy::failing(fails, false);
    plays(rt, alloc, shelf, &INVITE, &mut port)
        && port.lost.is_some() == (fails <= 7)
        && port.sends == 7
        && posted(rt, shelf, 0) == Some((3, 0))
}

/// Whether nothing is told of it where no call stands.
fn is_not_told<R: Abort + Wait>(rt: &R, alloc: Global, fails: u64) -> bool {
    match shelf_of(alloc) {
        Some(shelf) => is_not_told_on(rt, alloc, &shelf, fails),
        None => false,
    }
}

#[test]
fn what_no_port_counts_is_not_told(rt: HostRuntime) {
    for fails in 1..=8u64 {
        holds(
            &rt,
            is_not_told(&rt, rt.alloc(), fails),
            "a send that fails without being counted",
        );
    }
}

/// A request whose body is cut short.
const CUT_SHORT: [&[u8]; 9] = [
    b"OPTIONS sip:bob@example.com SIP/2.0",
    VIA,
    SEVENTY,
    FROM,
    TO,
    CALL_ID,
    b"CSeq: 1 OPTIONS",
    b"l: 5",
    b"",
];

/// An ACK that goes on.
const GOING_ON: [&[u8]; 8] = [
    b"ACK sip:bob@192.0.2.4 SIP/2.0",
    VIA,
    SEVENTY,
    FROM,
    ANSWERED,
    CALL_ID,
    b"CSeq: 1 ACK",
    b"",
];

/// A request to a user without a location.
const NOBODY: [&[u8]; 8] = [
    b"OPTIONS sip:carol@example.com SIP/2.0",
    VIA,
    SEVENTY,
    FROM,
    TO,
    CALL_ID,
    b"CSeq: 1 OPTIONS",
    b"",
];

/// Whether these lines become that though the one send for them fails, and no call is put on this shelf.
fn is_lost_on<R: Abort + Wait>(
    rt: &R,
    alloc: Global,
    shelf: &Shelf<Call<Global>>,
    lines: &[&[u8]],
    wanted: Handled,
) -> bool {
    let mut port = Lossy::failing(1, true);
    plays(rt, alloc, shelf, &[(0, lines, wanted)], &mut port)
        && port.sends == 1
        && port.failures == 1
        && shelf.count(rt) == 0
}

/// The same where no call stands.
fn is_lost<R: Abort + Wait>(rt: &R, alloc: Global, lines: &[&[u8]], wanted: Handled) -> bool {
    match shelf_of(alloc) {
        Some(shelf) => is_lost_on(rt, alloc, &shelf, lines, wanted),
        None => false,
    }
}

/// What is sent without a call, once.
const WITHOUT_A_CALL: [(&[&[u8]], Handled); 4] = [
    (&CUT_SHORT, Handled::Answered(400)),
    (&CANCELLED, Handled::Answered(481)),
    (&NOBODY, Handled::Answered(480)),
    (&GOING_ON, Handled::Forwarded),
];

#[test]
fn what_is_sent_without_a_call_may_be_lost(rt: HostRuntime) {
    for (lines, handled) in WITHOUT_A_CALL {
        holds(
            &rt,
            is_lost(&rt, rt.alloc(), lines, handled),
            "a send without a call",
        );
    }
}
