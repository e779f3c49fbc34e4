//! A call to three groups of targets, one after another, the second of which is one target that answers with two contacts
//! (RFC 3261 sections 16.5 to 16.7).
use crate::histories::playing::{Entry, Posted, goes_so};
use crate::holds::holds;
use call_messages::Sent;
use call_messages::five_targets::{THIRD, THIRD_ACK, THIRD_RINGS, THIRD_RINGS_UP, THIRD_SENT};
use call_messages::histories::{Moment, Turn};
use call_messages::one_target::{CALLER, INVITE, INVITE_SENT, TARGET, TRYING};
use fork_call::{Cause, Taken};
use fork_context::{Choice, Up};
use sip_uri::{Hop, Transport};

/// The targets of bob, each tried after that before it.
const THREE_GROUPS: &[u8] = b"own 192.0.2.9 5060\ninstance 7\ndomain example.com\n\
location bob 1000 sip:bob@192.0.2.4\nlocation bob 700 sip:bob@192.0.2.5:5062\nlocation bob 500 sip:bob@192.0.2.6\n";

/// Where the request goes to the second, and to each contact.
const SECOND: Hop = Hop {
    addr: [192, 0, 2, 5],
    port: 5062,
    transport: Transport::Udp,
};

const CAROL: Hop = Hop {
    addr: [192, 0, 2, 8],
    port: 5070,
    transport: Transport::Udp,
};

const DESK: Hop = Hop {
    addr: [192, 0, 2, 7],
    port: 5060,
    transport: Transport::Udp,
};

// ---- the first target

/// What it answers.
const FIRST_ANSWER: &[u8] = b"SIP/2.0 404 Not Found\r\n\
Via: SIP/2.0/UDP 192.0.2.9:5060;branch=z9hG4bK8c31e71e0ddbf1a0e56f5f0279990857.7.3.0\r\n\
v: SIP/2.0/UDP 192.0.2.1:5060;branch=z9hG4bKa;rport=40000;received=192.0.2.1\r\n\
f: <sip:alice@example.com>;tag=1\r\n\
t: <sip:bob@example.com>;tag=4\r\n\
i: c1\r\n\
CSeq: 1 INVITE\r\n\
l: 0\r\n\
\r\n";

/// The ACK to that.
const FIRST_ACK: Sent = Sent {
    cause: Cause::Ack(0),
    to: TARGET,
    text: b"ACK sip:bob@192.0.2.4 SIP/2.0\r\n\
Via: SIP/2.0/UDP 192.0.2.9:5060;branch=z9hG4bK8c31e71e0ddbf1a0e56f5f0279990857.7.3.0\r\n\
Max-Forwards: 70\r\n\
From: <sip:alice@example.com>;tag=1\r\n\
To: <sip:bob@example.com>;tag=4\r\n\
Call-ID: c1\r\n\
CSeq: 1 ACK\r\n\
Content-Length: 0\r\n\
\r\n",
};

/// The same as it goes up.
const FIRST_UP: Sent = Sent {
    cause: Cause::Answer,
    to: CALLER,
    text: b"SIP/2.0 404 Not Found\r\n\
v: SIP/2.0/UDP 192.0.2.1:5060;branch=z9hG4bKa;rport=40000;received=192.0.2.1\r\n\
f: <sip:alice@example.com>;tag=1\r\n\
t: <sip:bob@example.com>;tag=4\r\n\
i: c1\r\n\
CSeq: 1 INVITE\r\n\
l: 0\r\n\
\r\n",
};

// ---- the second

/// The INVITE as it goes there.
const SECOND_SENT: Sent = Sent {
    cause: Cause::Request(1),
    to: SECOND,
    text: b"INVITE sip:bob@192.0.2.5:5062 SIP/2.0\r\n\
Via: SIP/2.0/UDP 192.0.2.9:5060;branch=z9hG4bK8c31e71e0ddbf1a0e56f5f0279990857.7.3.1\r\n\
v: SIP/2.0/UDP 192.0.2.1:5060;branch=z9hG4bKa;rport=40000;received=192.0.2.1\r\n\
Max-Forwards: 69\r\n\
f: <sip:alice@example.com>;tag=1\r\n\
t: <sip:bob@example.com>\r\n\
i: c1\r\n\
CSeq: 1 INVITE\r\n\
l: 0\r\n\
\r\n",
};

/// What it answers.
const SECOND_ANSWER: &[u8] = b"SIP/2.0 302 Moved Temporarily\r\n\
Via: SIP/2.0/UDP 192.0.2.9:5060;branch=z9hG4bK8c31e71e0ddbf1a0e56f5f0279990857.7.3.1\r\n\
v: SIP/2.0/UDP 192.0.2.1:5060;branch=z9hG4bKa;rport=40000;received=192.0.2.1\r\n\
f: <sip:alice@example.com>;tag=1\r\n\
t: <sip:bob@example.com>;tag=5\r\n\
i: c1\r\n\
CSeq: 1 INVITE\r\n\
m: <sip:bob@192.0.2.7>;q=0.3, <sip:carol@192.0.2.8:5070>\r\n\
l: 0\r\n\
\r\n";

/// The ACK to that.
const SECOND_ACK: Sent = Sent {
    cause: Cause::Ack(1),
    to: SECOND,
    text: b"ACK sip:bob@192.0.2.5:5062 SIP/2.0\r\n\
Via: SIP/2.0/UDP 192.0.2.9:5060;branch=z9hG4bK8c31e71e0ddbf1a0e56f5f0279990857.7.3.1\r\n\
Max-Forwards: 70\r\n\
From: <sip:alice@example.com>;tag=1\r\n\
To: <sip:bob@example.com>;tag=5\r\n\
Call-ID: c1\r\n\
CSeq: 1 ACK\r\n\
Content-Length: 0\r\n\
\r\n",
};

// ---- its contact of the higher q

/// The INVITE as it goes there.
const CAROL_SENT: Sent = Sent {
    cause: Cause::Request(3),
    to: CAROL,
    text: b"INVITE sip:carol@192.0.2.8:5070 SIP/2.0\r\n\
Via: SIP/2.0/UDP 192.0.2.9:5060;branch=z9hG4bK8c31e71e0ddbf1a0e56f5f0279990857.7.3.3\r\n\
v: SIP/2.0/UDP 192.0.2.1:5060;branch=z9hG4bKa;rport=40000;received=192.0.2.1\r\n\
Max-Forwards: 69\r\n\
f: <sip:alice@example.com>;tag=1\r\n\
t: <sip:bob@example.com>\r\n\
i: c1\r\n\
CSeq: 1 INVITE\r\n\
l: 0\r\n\
\r\n",
};

/// What it answers.
const CAROL_ANSWER: &[u8] = b"SIP/2.0 486 Busy Here\r\n\
Via: SIP/2.0/UDP 192.0.2.9:5060;branch=z9hG4bK8c31e71e0ddbf1a0e56f5f0279990857.7.3.3\r\n\
v: SIP/2.0/UDP 192.0.2.1:5060;branch=z9hG4bKa;rport=40000;received=192.0.2.1\r\n\
f: <sip:alice@example.com>;tag=1\r\n\
t: <sip:bob@example.com>;tag=8\r\n\
i: c1\r\n\
CSeq: 1 INVITE\r\n\
l: 0\r\n\
\r\n";

/// The ACK to that.
const CAROL_ACK: Sent = Sent {
    cause: Cause::Ack(3),
    to: CAROL,
    text: b"ACK sip:carol@192.0.2.8:5070 SIP/2.0\r\n\
Via: SIP/2.0/UDP 192.0.2.9:5060;branch=z9hG4bK8c31e71e0ddbf1a0e56f5f0279990857.7.3.3\r\n\
Max-Forwards: 70\r\n\
From: <sip:alice@example.com>;tag=1\r\n\
To: <sip:bob@example.com>;tag=8\r\n\
Call-ID: c1\r\n\
CSeq: 1 ACK\r\n\
Content-Length: 0\r\n\
\r\n",
};

// ---- its other contact

/// The INVITE as it goes there.
const DESK_SENT: Sent = Sent {
    cause: Cause::Request(4),
    to: DESK,
    text: b"INVITE sip:bob@192.0.2.7 SIP/2.0\r\n\
Via: SIP/2.0/UDP 192.0.2.9:5060;branch=z9hG4bK8c31e71e0ddbf1a0e56f5f0279990857.7.3.4\r\n\
v: SIP/2.0/UDP 192.0.2.1:5060;branch=z9hG4bKa;rport=40000;received=192.0.2.1\r\n\
Max-Forwards: 69\r\n\
f: <sip:alice@example.com>;tag=1\r\n\
t: <sip:bob@example.com>\r\n\
i: c1\r\n\
CSeq: 1 INVITE\r\n\
l: 0\r\n\
\r\n",
};

/// What it answers.
const DESK_ANSWER: &[u8] = b"SIP/2.0 480 Temporarily Unavailable\r\n\
Via: SIP/2.0/UDP 192.0.2.9:5060;branch=z9hG4bK8c31e71e0ddbf1a0e56f5f0279990857.7.3.4\r\n\
v: SIP/2.0/UDP 192.0.2.1:5060;branch=z9hG4bKa;rport=40000;received=192.0.2.1\r\n\
f: <sip:alice@example.com>;tag=1\r\n\
t: <sip:bob@example.com>;tag=7\r\n\
i: c1\r\n\
CSeq: 1 INVITE\r\n\
l: 0\r\n\
\r\n";

/// The ACK to that.
const DESK_ACK: Sent = Sent {
    cause: Cause::Ack(4),
    to: DESK,
    text: b"ACK sip:bob@192.0.2.7 SIP/2.0\r\n\
Via: SIP/2.0/UDP 192.0.2.9:5060;branch=z9hG4bK8c31e71e0ddbf1a0e56f5f0279990857.7.3.4\r\n\
Max-Forwards: 70\r\n\
From: <sip:alice@example.com>;tag=1\r\n\
To: <sip:bob@example.com>;tag=7\r\n\
Call-ID: c1\r\n\
CSeq: 1 ACK\r\n\
Content-Length: 0\r\n\
\r\n",
};

// ---- the third target

/// What it answers.
const THIRD_ANSWER: &[u8] = b"SIP/2.0 503 Service Unavailable\r\n\
Via: SIP/2.0/UDP 192.0.2.9:5060;branch=z9hG4bK8c31e71e0ddbf1a0e56f5f0279990857.7.3.2\r\n\
v: SIP/2.0/UDP 192.0.2.1:5060;branch=z9hG4bKa;rport=40000;received=192.0.2.1\r\n\
f: <sip:alice@example.com>;tag=1\r\n\
t: <sip:bob@example.com>;tag=6\r\n\
i: c1\r\n\
CSeq: 1 INVITE\r\n\
l: 0\r\n\
\r\n";

// ---- the caller

/// Its ACK to the 404.
const ACK: &[u8] = b"ACK sip:bob@example.com SIP/2.0\r\n\
v: SIP/2.0/UDP 192.0.2.1:5060;branch=z9hG4bKa;rport\r\n\
Max-Forwards: 70\r\n\
f: <sip:alice@example.com>;tag=1\r\n\
t: <sip:bob@example.com>;tag=4\r\n\
i: c1\r\n\
CSeq: 1 ACK\r\n\
l: 0\r\n\
\r\n";

// ---- the call

/// A target of each group fails, and then the next group is tried; the 404 of the first goes up at the end.
const THREE_FAILURES: &[Moment] = &[
    (0, Turn::Sends(&TRYING)),
    (0, Turn::Sends(&INVITE_SENT)),
    (0, Turn::Waits(Some(500))),
    (20, Turn::Takes(TARGET, FIRST_ANSWER, Ok(Taken::Posted(0)))),
    (20, Turn::Sends(&FIRST_ACK)),
    (20, Turn::Sends(&SECOND_SENT)),
    (20, Turn::Waits(Some(520))),
    (30, Turn::Takes(SECOND, SECOND_ANSWER, Ok(Taken::Posted(1)))),
    (30, Turn::Sends(&SECOND_ACK)),
    (30, Turn::Sends(&CAROL_SENT)),
    (30, Turn::Waits(Some(530))),
    (40, Turn::Takes(CAROL, CAROL_ANSWER, Ok(Taken::Posted(2)))),
    (40, Turn::Sends(&CAROL_ACK)),
    (40, Turn::Sends(&DESK_SENT)),
    (40, Turn::Waits(Some(540))),
    (50, Turn::Takes(DESK, DESK_ANSWER, Ok(Taken::Posted(3)))),
    (50, Turn::Sends(&THIRD_SENT)),
    (50, Turn::Sends(&DESK_ACK)),
    (50, Turn::Waits(Some(550))),
    (60, Turn::Takes(THIRD, THIRD_RINGS, Ok(Taken::Posted(4)))),
    (60, Turn::Sends(&THIRD_RINGS_UP)),
    (60, Turn::Waits(Some(32_020))),
    (70, Turn::Takes(THIRD, THIRD_ANSWER, Ok(Taken::Posted(5)))),
    (70, Turn::Sends(&FIRST_UP)),
    (70, Turn::Sends(&THIRD_ACK)),
    (70, Turn::Waits(Some(570))),
    (80, Turn::Takes(CALLER, ACK, Ok(Taken::Absorbed))),
    (80, Turn::Waits(Some(5080))),
    (5080, Turn::Does),
    (5080, Turn::Waits(Some(32_020))),
    (32_020, Turn::Does),
    (32_020, Turn::Waits(Some(32_030))),
    (32_030, Turn::Does),
    (32_030, Turn::Waits(Some(32_040))),
    (32_040, Turn::Does),
    (32_040, Turn::Waits(Some(32_050))),
    (32_050, Turn::Does),
    (32_050, Turn::Waits(Some(32_070))),
    (32_070, Turn::Does),
    (32_070, Turn::Waits(None)),
];

/// Its events: the contacts are rows 3 and 4, by their q.
const FAILURES: &[Entry] = &[
    Entry {
        event: Posted::Answer(0, 404),
        started: &[1],
        cancelled: &[],
        up: Up::Nothing,
    },
    Entry {
        event: Posted::Answer(1, 302),
        started: &[3],
        cancelled: &[],
        up: Up::Nothing,
    },
    Entry {
        event: Posted::Answer(3, 486),
        started: &[4],
        cancelled: &[],
        up: Up::Nothing,
    },
    Entry {
        event: Posted::Answer(4, 480),
        started: &[2],
        cancelled: &[],
        up: Up::Nothing,
    },
    Entry {
        event: Posted::Ring(2, 180),
        started: &[],
        cancelled: &[],
        up: Up::Provisional(2),
    },
    Entry {
        event: Posted::Answer(2, 503),
        started: &[],
        cancelled: &[],
        up: Up::Final(Choice::Stored(0)),
    },
];

#[test]
fn groups_are_tried_one_after_another(rt: HostRuntime) {
    holds(
        &rt,
        goes_so(rt.alloc(), THREE_GROUPS, INVITE, THREE_FAILURES, FAILURES),
        "a call to three groups",
    );
}
