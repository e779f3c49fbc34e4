//! Calls to one target that falls silent: what is sent again, and when the branch ends (RFC 3261 sections 16.6, 16.8, 17.1.1
//! and 17.1.2).
use crate::histories::playing::{Entry, Posted, goes_so};
use crate::holds::holds;
use crate::requests::SETUP;
use call_messages::Sent;
use call_messages::histories::{Moment, Turn};
use call_messages::one_target::{
    CALLER, CANCEL_SENT, INVITE, INVITE_SENT, OPTIONS, OPTIONS_SENT, OWN_ACK, RINGING, RINGING_UP,
    TARGET, TRYING,
};
use fork_call::{Cause, Taken};
use fork_context::{Choice, Up};

/// The 408 of a call whose target has not answered.
const INVITE_TIMEOUT_UP: Sent = Sent {
    cause: Cause::Answer,
    to: CALLER,
    text: b"SIP/2.0 408 Request Timeout\r\n\
v: SIP/2.0/UDP 192.0.2.1:5060;branch=z9hG4bKa;rport=40000;received=192.0.2.1\r\n\
f: <sip:alice@example.com>;tag=1\r\n\
t: <sip:bob@example.com>;tag=fpa54465d48fc852fc\r\n\
i: c1\r\n\
CSeq: 1 INVITE\r\n\
Content-Length: 0\r\n\
\r\n",
};

/// The same for an OPTIONS request.
const OPTIONS_TIMEOUT_UP: Sent = Sent {
    cause: Cause::Answer,
    to: CALLER,
    text: b"SIP/2.0 408 Request Timeout\r\n\
v: SIP/2.0/UDP 192.0.2.1:5060;branch=z9hG4bKa;rport=40000;received=192.0.2.1\r\n\
f: <sip:alice@example.com>;tag=1\r\n\
t: <sip:bob@example.com>;tag=fpa54465d48fc852fc\r\n\
i: c1\r\n\
CSeq: 1 OPTIONS\r\n\
Content-Length: 0\r\n\
\r\n",
};

/// An INVITE that is never answered: it is sent again at longer and longer intervals.
const SILENT_INVITE: &[Moment] = &[
    (0, Turn::Sends(&TRYING)),
    (0, Turn::Sends(&INVITE_SENT)),
    (0, Turn::Waits(Some(500))),
    (500, Turn::Sends(&INVITE_SENT)),
    (500, Turn::Waits(Some(1500))),
    (1500, Turn::Sends(&INVITE_SENT)),
    (1500, Turn::Waits(Some(3500))),
    (3500, Turn::Sends(&INVITE_SENT)),
    (3500, Turn::Waits(Some(7500))),
    (7500, Turn::Sends(&INVITE_SENT)),
    (7500, Turn::Waits(Some(15_500))),
    (15_500, Turn::Sends(&INVITE_SENT)),
    (15_500, Turn::Waits(Some(31_500))),
    (31_500, Turn::Sends(&INVITE_SENT)),
    (31_500, Turn::Waits(Some(32_000))),
    (32_000, Turn::Does),
    (32_000, Turn::Sends(&INVITE_TIMEOUT_UP)),
    (32_000, Turn::Waits(Some(32_500))),
    (32_100, Turn::Takes(CALLER, OWN_ACK, Ok(Taken::Absorbed))),
    (32_100, Turn::Waits(Some(37_100))),
    (37_100, Turn::Does),
    (37_100, Turn::Waits(None)),
];

/// An OPTIONS request that is never answered: from 4 seconds on the intervals are equal.
const SILENT_OPTIONS: &[Moment] = &[
    (0, Turn::Sends(&OPTIONS_SENT)),
    (0, Turn::Waits(Some(500))),
    (500, Turn::Sends(&OPTIONS_SENT)),
    (500, Turn::Waits(Some(1500))),
    (1500, Turn::Sends(&OPTIONS_SENT)),
    (1500, Turn::Waits(Some(3500))),
    (3500, Turn::Sends(&OPTIONS_SENT)),
    (3500, Turn::Waits(Some(7500))),
    (7500, Turn::Sends(&OPTIONS_SENT)),
    (7500, Turn::Waits(Some(11_500))),
    (11_500, Turn::Sends(&OPTIONS_SENT)),
    (11_500, Turn::Waits(Some(15_500))),
    (15_500, Turn::Sends(&OPTIONS_SENT)),
    (19_500, Turn::Sends(&OPTIONS_SENT)),
    (23_500, Turn::Sends(&OPTIONS_SENT)),
    (27_500, Turn::Sends(&OPTIONS_SENT)),
    (31_500, Turn::Sends(&OPTIONS_SENT)),
    (31_500, Turn::Waits(Some(32_000))),
    (32_000, Turn::Does),
    (32_000, Turn::Sends(&OPTIONS_TIMEOUT_UP)),
    (32_000, Turn::Waits(Some(64_000))),
    (64_000, Turn::Does),
    (64_000, Turn::Waits(None)),
];

/// The event of both.
const TIMED_OUT: &[Entry] = &[Entry {
    event: Posted::Timeout(0),
    started: &[],
    cancelled: &[],
    up: Up::Final(Choice::Stored(0)),
}];

/// An INVITE whose target rings and says no more, not even to its CANCEL.
const RUNG: &[Moment] = &[
    (0, Turn::Sends(&TRYING)),
    (0, Turn::Sends(&INVITE_SENT)),
    (20, Turn::Takes(TARGET, RINGING, Ok(Taken::Posted(0)))),
    (20, Turn::Sends(&RINGING_UP)),
    (20, Turn::Waits(Some(181_020))),
    (30, Turn::Fails(Cause::Request(0))),
    (30, Turn::Waits(Some(181_020))),
    (181_020, Turn::Does),
    (181_020, Turn::Sends(&CANCEL_SENT)),
    (181_020, Turn::Waits(Some(181_520))),
    (181_520, Turn::Sends(&CANCEL_SENT)),
    (181_520, Turn::Waits(Some(182_520))),
    (213_020, Turn::Does),
    (213_020, Turn::Sends(&INVITE_TIMEOUT_UP)),
    (213_020, Turn::Does),
    (213_020, Turn::Waits(Some(213_520))),
    (213_100, Turn::Takes(CALLER, OWN_ACK, Ok(Taken::Absorbed))),
    (213_100, Turn::Waits(Some(218_100))),
    (218_100, Turn::Does),
    (218_100, Turn::Waits(None)),
];

/// Its events.
const GIVEN_UP: &[Entry] = &[
    Entry {
        event: Posted::Ring(0, 180),
        started: &[],
        cancelled: &[],
        up: Up::Provisional(0),
    },
    Entry {
        event: Posted::TimerC(0),
        started: &[],
        cancelled: &[0],
        up: Up::Nothing,
    },
    Entry {
        event: Posted::GiveUp(0),
        started: &[],
        cancelled: &[],
        up: Up::Final(Choice::NoAnswer408),
    },
];

#[test]
fn a_target_that_is_silent_is_not_waited_for(rt: HostRuntime) {
    let alloc = rt.alloc();
    holds(
        &rt,
        goes_so(alloc, SETUP, INVITE, SILENT_INVITE, TIMED_OUT),
        "an INVITE",
    );
    holds(
        &rt,
        goes_so(alloc, SETUP, OPTIONS, SILENT_OPTIONS, TIMED_OUT),
        "an OPTIONS request",
    );
}

#[test]
fn a_target_that_has_rung_is_cancelled(rt: HostRuntime) {
    holds(
        &rt,
        goes_so(rt.alloc(), SETUP, INVITE, RUNG, GIVEN_UP),
        "an INVITE that has rung",
    );
}
