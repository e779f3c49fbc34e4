//! Calls to one target, from the first datagram to the last: with a failure, with a CANCEL, and with strays.
use crate::histories::playing::{Entry, Posted, goes_so, has_entries, opened, plays, taken};
use crate::holds::holds;
use crate::requests::SETUP;
use call_messages::histories::{CANCELLED, FAILING, Moment, Turn};
use call_messages::one_target::{
    ACK, ACK_SENT, CALLER, CANCEL_SENT, CANCEL_TAKEN, INVITE, INVITE_SENT, NOT_FOUND, NOT_FOUND_UP,
    OPTIONS, RINGING, RINGING_UP, TARGET, TERMINATED, TERMINATED_UP, TRYING,
};
use fork_call::{Call, TakeFault, Taken};
use fork_context::{Choice, Up};
use std::alloc::Global;

// ---- a failure

/// The events of an OPTIONS request whose target answers 404.
pub const FAILED: &[Entry] = &[Entry {
    event: Posted::Answer(0, 404),
    started: &[],
    cancelled: &[],
    up: Up::Final(Choice::Stored(0)),
}];

#[test]
fn a_failure_goes_up(rt: HostRuntime) {
    holds(
        &rt,
        goes_so(rt.alloc(), SETUP, OPTIONS, FAILING, FAILED),
        "a call whose target answers 404",
    );
}

// ---- a CANCEL

/// The INVITE that is cancelled, where each datagram is sent again at its time: the CANCEL is never answered, nor is the 487
/// acknowledged.
const AGAIN: &[Moment] = &[
    (520, Turn::Sends(&CANCEL_SENT)),
    (520, Turn::Waits(Some(530))),
    (530, Turn::Sends(&TERMINATED_UP)),
    (530, Turn::Waits(Some(1520))),
    (1520, Turn::Sends(&CANCEL_SENT)),
    (1530, Turn::Sends(&TERMINATED_UP)),
    (1530, Turn::Waits(Some(3520))),
    (3520, Turn::Sends(&CANCEL_SENT)),
    (3530, Turn::Sends(&TERMINATED_UP)),
    (3530, Turn::Waits(Some(7520))),
    (7520, Turn::Sends(&CANCEL_SENT)),
    (7530, Turn::Sends(&TERMINATED_UP)),
    (7530, Turn::Waits(Some(11_520))),
    (11_520, Turn::Sends(&CANCEL_SENT)),
    (11_530, Turn::Sends(&TERMINATED_UP)),
    (15_520, Turn::Sends(&CANCEL_SENT)),
    (15_530, Turn::Sends(&TERMINATED_UP)),
    (19_520, Turn::Sends(&CANCEL_SENT)),
    (19_530, Turn::Sends(&TERMINATED_UP)),
    (23_520, Turn::Sends(&CANCEL_SENT)),
    (23_530, Turn::Sends(&TERMINATED_UP)),
    (27_520, Turn::Sends(&CANCEL_SENT)),
    (27_530, Turn::Sends(&TERMINATED_UP)),
    (31_520, Turn::Sends(&CANCEL_SENT)),
    (31_530, Turn::Sends(&TERMINATED_UP)),
    (31_530, Turn::Waits(Some(32_020))),
    (32_020, Turn::Does),
    (32_020, Turn::Waits(Some(32_030))),
    (32_030, Turn::Does),
    (32_030, Turn::Does),
    (32_030, Turn::Waits(None)),
];

/// The same, where the target answers the CANCEL and the caller acknowledges the 487.
const ACKNOWLEDGED: &[Moment] = &[
    (40, Turn::Takes(TARGET, CANCEL_TAKEN, Ok(Taken::Absorbed))),
    (40, Turn::Waits(Some(530))),
    (50, Turn::Takes(CALLER, ACK, Ok(Taken::Absorbed))),
    (50, Turn::Waits(Some(5040))),
    (60, Turn::Takes(TARGET, TERMINATED, Ok(Taken::Absorbed))),
    (60, Turn::Sends(&ACK_SENT)),
    (5040, Turn::Does),
    (5040, Turn::Waits(Some(5050))),
    (5050, Turn::Does),
    (5050, Turn::Waits(Some(32_030))),
    (32_030, Turn::Does),
    (32_030, Turn::Waits(None)),
];

/// The events of each.
pub const CANCELLATION: &[Entry] = &[
    Entry {
        event: Posted::Cancel,
        started: &[],
        cancelled: &[],
        up: Up::Nothing,
    },
    Entry {
        event: Posted::Ring(0, 180),
        started: &[],
        cancelled: &[0],
        up: Up::Provisional(0),
    },
    Entry {
        event: Posted::Answer(0, 487),
        started: &[],
        cancelled: &[],
        up: Up::Final(Choice::Stored(0)),
    },
];

/// The INVITE that is cancelled, until the target has ended.
fn until_the_end() -> &'static [Moment] {
    CANCELLED.get(..14).unwrap_or(CANCELLED)
}

/// Whether it goes on so, and its book has three entries then.
fn goes_on(alloc: Global, rest: &[Moment]) -> bool {
    match opened(alloc, SETUP, 3, INVITE) {
        Some(mut call) => {
            plays(alloc, &mut call, until_the_end())
                && plays(alloc, &mut call, rest)
                && has_entries(&call, CANCELLATION)
        }
        None => false,
    }
}

#[test]
fn the_caller_cancels(rt: HostRuntime) {
    let alloc = rt.alloc();
    holds(
        &rt,
        goes_so(alloc, SETUP, INVITE, CANCELLED, CANCELLATION),
        "no moment but the last",
    );
    holds(&rt, goes_on(alloc, AGAIN), "each moment");
    holds(
        &rt,
        goes_on(alloc, ACKNOWLEDGED),
        "an ACK and a 200 to the CANCEL",
    );
}

// ---- strays

/// A 180 to the same branch of another instance, of another request, and one that only the proxy was to see.
const OTHER_INSTANCE: &[u8] = b"SIP/2.0 180 Ringing\r\n\
Via: SIP/2.0/UDP 192.0.2.9:5060;branch=z9hG4bK8c31e71e0ddbf1a0e56f5f0279990857.8.3.0\r\n\
v: SIP/2.0/UDP 192.0.2.1:5060;branch=z9hG4bKa;rport=40000;received=192.0.2.1\r\n\
f: <sip:alice@example.com>;tag=1\r\n\
t: <sip:bob@example.com>;tag=9\r\n\
i: c1\r\n\
CSeq: 1 INVITE\r\n\
l: 0\r\n\
\r\n";

const OTHER_KEY: &[u8] = b"SIP/2.0 180 Ringing\r\n\
Via: SIP/2.0/UDP 192.0.2.9:5060;branch=z9hG4bK8c31e71e0ddbf1a0e56f5f0279990858.7.3.0\r\n\
v: SIP/2.0/UDP 192.0.2.1:5060;branch=z9hG4bKa;rport=40000;received=192.0.2.1\r\n\
f: <sip:alice@example.com>;tag=1\r\n\
t: <sip:bob@example.com>;tag=9\r\n\
i: c1\r\n\
CSeq: 1 INVITE\r\n\
l: 0\r\n\
\r\n";

const ONE_VIA: &[u8] = b"SIP/2.0 180 Ringing\r\n\
Via: SIP/2.0/UDP 192.0.2.9:5060;branch=z9hG4bK8c31e71e0ddbf1a0e56f5f0279990857.7.3.0\r\n\
f: <sip:alice@example.com>;tag=1\r\n\
t: <sip:bob@example.com>;tag=9\r\n\
i: c1\r\n\
CSeq: 1 INVITE\r\n\
l: 0\r\n\
\r\n";

/// An INVITE that is answered before it was sent, and then by strays.
const STRAYS: &[Moment] = &[
    (0, Turn::Takes(TARGET, RINGING, Err(TakeFault::Stray))),
    (0, Turn::Sends(&TRYING)),
    (0, Turn::Takes(TARGET, RINGING, Err(TakeFault::Stray))),
    (0, Turn::Sends(&INVITE_SENT)),
    (
        10,
        Turn::Takes(TARGET, OTHER_INSTANCE, Err(TakeFault::Stray)),
    ),
    (10, Turn::Takes(TARGET, OTHER_KEY, Err(TakeFault::Stray))),
    (10, Turn::Takes(TARGET, ONE_VIA, Err(TakeFault::Stray))),
    (10, Turn::Waits(Some(500))),
];

#[test]
fn a_stray_changes_nothing(rt: HostRuntime) {
    holds(
        &rt,
        goes_so(rt.alloc(), SETUP, INVITE, STRAYS, &[]),
        "responses that belong to nothing",
    );
}

// ---- more than a book takes

/// How an INVITE begins.
const BEGINNING: &[Moment] = &[
    (0, Turn::Sends(&TRYING)),
    (0, Turn::Sends(&INVITE_SENT)),
    (0, Turn::Waits(Some(500))),
];

/// What comes of a 180.
const RINGING_ONCE: &[Moment] = &[
    (20, Turn::Sends(&RINGING_UP)),
    (20, Turn::Waits(Some(181_020))),
];

/// What comes of the 180 after that: it is not taken, and timer C is not set again; a 404 is taken.
const FULL: &[Moment] = &[
    (30, Turn::Takes(TARGET, RINGING, Err(TakeFault::Full))),
    (30, Turn::Waits(Some(181_020))),
    (40, Turn::Takes(TARGET, NOT_FOUND, Ok(Taken::Posted(4096)))),
    (40, Turn::Sends(&NOT_FOUND_UP)),
    (40, Turn::Sends(&ACK_SENT)),
    (40, Turn::Waits(Some(540))),
];

/// Whether a 180 is taken at this position, and goes up.
fn rings(alloc: Global, call: &mut Call<Global>, at: u32) -> bool {
    taken(alloc, call, 20, TARGET, RINGING) == Some(Ok(Taken::Posted(at)))
        && plays(alloc, call, RINGING_ONCE)
}

/// How many of 4,096 times it is taken so, before it is not.
fn ringing(alloc: Global, call: &mut Call<Global>) -> u32 {
    for at in 0..4096 {
        if !rings(alloc, call, at) {
            return at;
        }
    }
    4096
}

/// How many events the book has.
fn count_of(call: &Call<Global>) -> usize {
    call.book().history().len()
}

#[test]
fn a_book_takes_4096_of_a_kind(rt: HostRuntime) {
    let alloc = rt.alloc();
    let Some(mut call) = opened(alloc, SETUP, 3, INVITE) else {
        return holds(&rt, false, "an INVITE opens a call");
    };
    holds(
        &rt,
        plays(alloc, &mut call, BEGINNING),
        "the first datagrams",
    );
    holds(
        &rt,
        ringing(alloc, &mut call) == 4096,
        "each of 4,096 times the 180",
    );
    holds(&rt, count_of(&call) == 4096, "each is an event");
    holds(&rt, plays(alloc, &mut call, FULL), "then none but the 404");
    holds(&rt, count_of(&call) == 4097, "it is an event, too");
}
