//! A call to two targets that both accept: each 200 goes up, also one that comes again (RFC 3261 sections 13.2.2.4, 16.7 and
//! 17.1.1, as RFC 6026 has them).
use crate::histories::playing::{Entry, Posted, goes_so};
use crate::holds::holds;
use call_messages::Sent;
use call_messages::five_targets::{
    SECOND, SECOND_ACCEPTS, SECOND_CANCEL, SECOND_RINGS, SECOND_RINGS_UP, SECOND_SENT,
};
use call_messages::histories::{Moment, Turn};
use call_messages::one_target::{CALLER, INVITE, INVITE_SENT, TARGET, TRYING};
use fork_call::{Cause, TakeFault, Taken};
use fork_context::Up;

/// The targets of bob, both tried at once.
pub const ONE_GROUP: &[u8] = b"own 192.0.2.9 5060\ninstance 7\ndomain example.com\n\
location bob 1000 sip:bob@192.0.2.4\nlocation bob 1000 sip:bob@192.0.2.5\n";

// ---- the first target

/// Its 200, with a body.
const FIRST_ACCEPTS: &[u8] = b"SIP/2.0 200 OK\r\n\
Via: SIP/2.0/UDP 192.0.2.9:5060;branch=z9hG4bK8c31e71e0ddbf1a0e56f5f0279990857.7.3.0\r\n\
v: SIP/2.0/UDP 192.0.2.1:5060;branch=z9hG4bKa;rport=40000;received=192.0.2.1\r\n\
f: <sip:alice@example.com>;tag=1\r\n\
t: <sip:bob@example.com>;tag=4\r\n\
i: c1\r\n\
CSeq: 1 INVITE\r\n\
m: <sip:bob@192.0.2.4:5080>\r\n\
c: application/sdp\r\n\
l: 5\r\n\
\r\nv=0\r\n";

/// The same as it goes up.
const FIRST_ACCEPTS_UP: Sent = Sent {
    cause: Cause::Answer,
    to: CALLER,
    text: b"SIP/2.0 200 OK\r\n\
v: SIP/2.0/UDP 192.0.2.1:5060;branch=z9hG4bKa;rport=40000;received=192.0.2.1\r\n\
f: <sip:alice@example.com>;tag=1\r\n\
t: <sip:bob@example.com>;tag=4\r\n\
i: c1\r\n\
CSeq: 1 INVITE\r\n\
m: <sip:bob@192.0.2.4:5080>\r\n\
c: application/sdp\r\n\
l: 5\r\n\
\r\nv=0\r\n",
};

// ---- the second

/// Its 200 as it goes up, which crosses the CANCEL.
const SECOND_ACCEPTS_UP: Sent = Sent {
    cause: Cause::Answer,
    to: CALLER,
    text: b"SIP/2.0 200 OK\r\n\
v: SIP/2.0/UDP 192.0.2.1:5060;branch=z9hG4bKa;rport=40000;received=192.0.2.1\r\n\
f: <sip:alice@example.com>;tag=1\r\n\
t: <sip:bob@example.com>;tag=5\r\n\
i: c1\r\n\
CSeq: 1 INVITE\r\n\
l: 0\r\n\
\r\n",
};

/// Its 481 to the CANCEL.
const SECOND_CANCELLED: &[u8] = b"SIP/2.0 481 Call/Transaction Does Not Exist\r\n\
Via: SIP/2.0/UDP 192.0.2.9:5060;branch=z9hG4bK8c31e71e0ddbf1a0e56f5f0279990857.7.3.1\r\n\
f: <sip:alice@example.com>;tag=1\r\n\
t: <sip:bob@example.com>;tag=5\r\n\
i: c1\r\n\
CSeq: 1 CANCEL\r\n\
l: 0\r\n\
\r\n";

// ---- the caller

/// Its ACK to the first 200, which is a transaction of its own.
const ACK_OF_ITS_OWN: &[u8] = b"ACK sip:bob@192.0.2.4:5080 SIP/2.0\r\n\
v: SIP/2.0/UDP 192.0.2.1:5060;branch=z9hG4bKb;rport\r\n\
Max-Forwards: 70\r\n\
f: <sip:alice@example.com>;tag=1\r\n\
t: <sip:bob@example.com>;tag=4\r\n\
i: c1\r\n\
CSeq: 1 ACK\r\n\
l: 0\r\n\
\r\n";

/// An ACK that has the branch of the INVITE.
const ACK: &[u8] = b"ACK sip:bob@example.com SIP/2.0\r\n\
v: SIP/2.0/UDP 192.0.2.1:5060;branch=z9hG4bKa;rport\r\n\
Max-Forwards: 70\r\n\
f: <sip:alice@example.com>;tag=1\r\n\
t: <sip:bob@example.com>;tag=4\r\n\
i: c1\r\n\
CSeq: 1 ACK\r\n\
l: 0\r\n\
\r\n";

// ---- the call

/// The second target rings, the first accepts, and so does the second before its CANCEL is there; the first 200 comes again.
const TWO_SUCCESSES: &[Moment] = &[
    (0, Turn::Sends(&TRYING)),
    (0, Turn::Sends(&INVITE_SENT)),
    (0, Turn::Sends(&SECOND_SENT)),
    (0, Turn::Waits(Some(500))),
    (10, Turn::Takes(SECOND, SECOND_RINGS, Ok(Taken::Posted(0)))),
    (10, Turn::Sends(&SECOND_RINGS_UP)),
    (10, Turn::Waits(Some(500))),
    (20, Turn::Takes(TARGET, FIRST_ACCEPTS, Ok(Taken::Posted(1)))),
    (20, Turn::Sends(&FIRST_ACCEPTS_UP)),
    (20, Turn::Sends(&SECOND_CANCEL)),
    (20, Turn::Waits(Some(520))),
    (
        30,
        Turn::Takes(SECOND, SECOND_ACCEPTS, Ok(Taken::Posted(2))),
    ),
    (30, Turn::Sends(&SECOND_ACCEPTS_UP)),
    (30, Turn::Waits(Some(520))),
    (40, Turn::Takes(TARGET, FIRST_ACCEPTS, Ok(Taken::Posted(3)))),
    (40, Turn::Sends(&FIRST_ACCEPTS_UP)),
    (
        50,
        Turn::Takes(CALLER, ACK_OF_ITS_OWN, Err(TakeFault::Stray)),
    ),
    (50, Turn::Takes(CALLER, ACK, Ok(Taken::Absorbed))),
    (50, Turn::Waits(Some(520))),
    (
        60,
        Turn::Takes(SECOND, SECOND_CANCELLED, Ok(Taken::Absorbed)),
    ),
    (60, Turn::Waits(Some(5060))),
    (5060, Turn::Does),
    (5060, Turn::Waits(Some(32_020))),
    (32_020, Turn::Does),
    (32_020, Turn::Does),
    (32_020, Turn::Waits(Some(32_030))),
    (32_030, Turn::Does),
    (32_030, Turn::Waits(None)),
];

/// Its events.
const SUCCESSES: &[Entry] = &[
    Entry {
        event: Posted::Ring(1, 180),
        started: &[],
        cancelled: &[],
        up: Up::Provisional(1),
    },
    Entry {
        event: Posted::Answer(0, 200),
        started: &[],
        cancelled: &[1],
        up: Up::Success(0),
    },
    Entry {
        event: Posted::Answer(1, 200),
        started: &[],
        cancelled: &[],
        up: Up::Success(1),
    },
    Entry {
        event: Posted::Answer(0, 200),
        started: &[],
        cancelled: &[],
        up: Up::Success(0),
    },
];

#[test]
fn each_200_goes_up(rt: HostRuntime) {
    holds(
        &rt,
        goes_so(rt.alloc(), ONE_GROUP, INVITE, TWO_SUCCESSES, SUCCESSES),
        "a call that two targets accept",
    );
}
