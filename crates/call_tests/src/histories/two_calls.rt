//! Two calls of the same request: each is sent the responses to the other's branch (RFC 3261 section 17.1.3).
use crate::histories::playing::{Entry, Posted, has_entries, opened, plays};
use crate::holds::holds;
use crate::requests::SETUP;
use call_messages::Sent;
use call_messages::histories::{Moment, Turn};
use call_messages::one_target::{
    INVITE, INVITE_SENT, NOT_FOUND, NOT_FOUND_UP, RINGING, RINGING_UP, TARGET, TRYING,
};
use fork_call::{Call, Cause, TakeFault, Taken};
use fork_context::{Choice, Up};
use std::alloc::Global;
use std::process::Abort;

/// A 180 and a 404 to the branch of the call of number 4.
const RINGING_OF_FOUR: &[u8] = b"SIP/2.0 180 Ringing\r\n\
Via: SIP/2.0/UDP 192.0.2.9:5060;branch=z9hG4bK8c31e71e0ddbf1a0e56f5f0279990857.7.4.0\r\n\
v: SIP/2.0/UDP 192.0.2.1:5060;branch=z9hG4bKa;rport=40000;received=192.0.2.1\r\n\
f: <sip:alice@example.com>;tag=1\r\n\
t: <sip:bob@example.com>;tag=9\r\n\
i: c1\r\n\
CSeq: 1 INVITE\r\n\
l: 0\r\n\
\r\n";

const NOT_FOUND_OF_FOUR: &[u8] = b"SIP/2.0 404 Not Found\r\n\
Via: SIP/2.0/UDP 192.0.2.9:5060;branch=z9hG4bK8c31e71e0ddbf1a0e56f5f0279990857.7.4.0\r\n\
v: SIP/2.0/UDP 192.0.2.1:5060;branch=z9hG4bKa;rport=40000;received=192.0.2.1\r\n\
f: <sip:alice@example.com>;tag=1\r\n\
t: <sip:bob@example.com>;tag=9\r\n\
i: c1\r\n\
CSeq: 1 INVITE\r\n\
l: 0\r\n\
\r\n";

/// The INVITE as that call sends it.
const SENT_BY_FOUR: Sent = Sent {
    cause: Cause::Request(0),
    to: TARGET,
    text: b"INVITE sip:bob@192.0.2.4 SIP/2.0\r\n\
Via: SIP/2.0/UDP 192.0.2.9:5060;branch=z9hG4bK8c31e71e0ddbf1a0e56f5f0279990857.7.4.0\r\n\
v: SIP/2.0/UDP 192.0.2.1:5060;branch=z9hG4bKa;rport=40000;received=192.0.2.1\r\n\
Max-Forwards: 69\r\n\
f: <sip:alice@example.com>;tag=1\r\n\
t: <sip:bob@example.com>\r\n\
i: c1\r\n\
CSeq: 1 INVITE\r\n\
l: 0\r\n\
\r\n",
};

/// Its ACK.
const ACK_SENT_BY_FOUR: Sent = Sent {
    cause: Cause::Ack(0),
    to: TARGET,
    text: b"ACK sip:bob@192.0.2.4 SIP/2.0\r\n\
Via: SIP/2.0/UDP 192.0.2.9:5060;branch=z9hG4bK8c31e71e0ddbf1a0e56f5f0279990857.7.4.0\r\n\
Max-Forwards: 70\r\n\
From: <sip:alice@example.com>;tag=1\r\n\
To: <sip:bob@example.com>;tag=9\r\n\
Call-ID: c1\r\n\
CSeq: 1 ACK\r\n\
Content-Length: 0\r\n\
\r\n",
};

/// How the call of number 3 begins.
const THREE_BEGINS: &[Moment] = &[
    (0, Turn::Sends(&TRYING)),
    (0, Turn::Sends(&INVITE_SENT)),
    (0, Turn::Waits(Some(500))),
];

/// How that of number 4 does.
const FOUR_BEGINS: &[Moment] = &[
    (0, Turn::Sends(&TRYING)),
    (0, Turn::Sends(&SENT_BY_FOUR)),
    (0, Turn::Waits(Some(500))),
];

/// The call of number 3 is sent the responses to the other.
const THREE_IS_SENT: &[Moment] = &[
    (
        10,
        Turn::Takes(TARGET, RINGING_OF_FOUR, Err(TakeFault::Stray)),
    ),
    (
        10,
        Turn::Takes(TARGET, NOT_FOUND_OF_FOUR, Err(TakeFault::Stray)),
    ),
    (10, Turn::Waits(Some(500))),
];

/// That of number 4 is, too.
const FOUR_IS_SENT: &[Moment] = &[
    (10, Turn::Takes(TARGET, RINGING, Err(TakeFault::Stray))),
    (10, Turn::Takes(TARGET, NOT_FOUND, Err(TakeFault::Stray))),
    (10, Turn::Waits(Some(500))),
];

/// Each takes its own; then the responses to the other are as stray as before.
const THREE_GOES_ON: &[Moment] = &[
    (20, Turn::Takes(TARGET, RINGING, Ok(Taken::Posted(0)))),
    (20, Turn::Sends(&RINGING_UP)),
    (
        20,
        Turn::Takes(TARGET, RINGING_OF_FOUR, Err(TakeFault::Stray)),
    ),
    (20, Turn::Waits(Some(181_020))),
];

const FOUR_GOES_ON: &[Moment] = &[
    (
        20,
        Turn::Takes(TARGET, NOT_FOUND_OF_FOUR, Ok(Taken::Posted(0))),
    ),
    (20, Turn::Sends(&NOT_FOUND_UP)),
    (20, Turn::Sends(&ACK_SENT_BY_FOUR)),
    (20, Turn::Takes(TARGET, NOT_FOUND, Err(TakeFault::Stray))),
    (20, Turn::Waits(Some(520))),
];

/// Their events.
const THREE_RINGS: &[Entry] = &[Entry {
    event: Posted::Ring(0, 180),
    started: &[],
    cancelled: &[],
    up: Up::Provisional(0),
}];

const FOUR_FAILS: &[Entry] = &[Entry {
    event: Posted::Answer(0, 404),
    started: &[],
    cancelled: &[],
    up: Up::Final(Choice::Stored(0)),
}];

/// Checks that each of two calls takes its own messages alone.
fn go_apart(rt: &impl Abort, alloc: Global, three: &mut Call<Global>, four: &mut Call<Global>) {
    holds(rt, plays(alloc, three, THREE_BEGINS), "one begins");
    holds(rt, plays(alloc, four, FOUR_BEGINS), "the other begins");
    holds(
        rt,
        plays(alloc, three, THREE_IS_SENT) && has_entries(three, &[]),
        "nothing of the other is for the one",
    );
    holds(
        rt,
        plays(alloc, four, FOUR_IS_SENT) && has_entries(four, &[]),
        "nothing of the one is for the other",
    );
    holds(
        rt,
        plays(alloc, three, THREE_GOES_ON) && has_entries(three, THREE_RINGS),
        "the one takes its own",
    );
    holds(
        rt,
        plays(alloc, four, FOUR_GOES_ON) && has_entries(four, FOUR_FAILS),
        "the other takes its own",
    );
}

/// Checks that of this call and of that of number 4.
fn goes_apart(rt: &impl Abort, alloc: Global, three: &mut Call<Global>) {
    match opened(alloc, SETUP, 4, INVITE) {
        Some(mut four) => go_apart(rt, alloc, three, &mut four),
        None => holds(rt, false, "the other opens"),
    }
}

#[test]
fn a_response_belongs_to_one_call(rt: HostRuntime) {
    let alloc = rt.alloc();
    match opened(alloc, SETUP, 3, INVITE) {
        Some(mut three) => goes_apart(&rt, alloc, &mut three),
        None => holds(&rt, false, "the one opens"),
    }
}
