//! A call to four targets that all fail, and what its book says of it (RFC 3261 section 16.7 step 6).
use crate::histories::playing::{Entry, Posted, goes_so};
use crate::holds::holds;
use call_messages::Sent;
use call_messages::histories::{Moment, Turn};
use call_messages::one_target::{CALLER, INVITE};
use fork_call::{Cause, Taken};
use fork_context::{Choice, Up};
use sip_uri::{Hop, Transport};

/// The targets of bob, all tried at once.
const FOUR: &[u8] = b"own 192.0.2.9 5060\ninstance 7\ndomain example.com\n\
location bob 1000 sip:bob@192.0.2.4\nlocation bob 1000 sip:bob@192.0.2.5\n\
location bob 1000 sip:bob@192.0.2.6\nlocation bob 1000 sip:bob@192.0.2.7\n";

/// Where the request goes to each.
const FIRST: Hop = Hop {
    addr: [192, 0, 2, 4],
    port: 5060,
    transport: Transport::Udp,
};

const SECOND: Hop = Hop {
    addr: [192, 0, 2, 5],
    port: 5060,
    transport: Transport::Udp,
};

const THIRD: Hop = Hop {
    addr: [192, 0, 2, 6],
    port: 5060,
    transport: Transport::Udp,
};

const FOURTH: Hop = Hop {
    addr: [192, 0, 2, 7],
    port: 5060,
    transport: Transport::Udp,
};

/// What each answers.
const FIRST_ANSWER: &[u8] = b"SIP/2.0 503 Service Unavailable\r\n\
Via: SIP/2.0/UDP 192.0.2.9:5060;branch=z9hG4bK8c31e71e0ddbf1a0e56f5f0279990857.7.3.0\r\n\
v: SIP/2.0/UDP 192.0.2.1:5060;branch=z9hG4bKa;rport=40000;received=192.0.2.1\r\n\
f: <sip:alice@example.com>;tag=1\r\n\
t: <sip:bob@example.com>;tag=4\r\n\
i: c1\r\n\
CSeq: 1 INVITE\r\n\
l: 0\r\n\
\r\n";

const SECOND_ANSWER: &[u8] = b"SIP/2.0 407 Proxy Authentication Required\r\n\
Via: SIP/2.0/UDP 192.0.2.9:5060;branch=z9hG4bK8c31e71e0ddbf1a0e56f5f0279990857.7.3.1\r\n\
v: SIP/2.0/UDP 192.0.2.1:5060;branch=z9hG4bKa;rport=40000;received=192.0.2.1\r\n\
f: <sip:alice@example.com>;tag=1\r\n\
t: <sip:bob@example.com>;tag=5\r\n\
i: c1\r\n\
CSeq: 1 INVITE\r\n\
l: 0\r\n\
\r\n";

const THIRD_ANSWER: &[u8] = b"SIP/2.0 501 Not Implemented\r\n\
Via: SIP/2.0/UDP 192.0.2.9:5060;branch=z9hG4bK8c31e71e0ddbf1a0e56f5f0279990857.7.3.2\r\n\
v: SIP/2.0/UDP 192.0.2.1:5060;branch=z9hG4bKa;rport=40000;received=192.0.2.1\r\n\
f: <sip:alice@example.com>;tag=1\r\n\
t: <sip:bob@example.com>;tag=6\r\n\
i: c1\r\n\
CSeq: 1 INVITE\r\n\
l: 0\r\n\
\r\n";

const FOURTH_ANSWER: &[u8] = b"SIP/2.0 404 Not Found\r\n\
Via: SIP/2.0/UDP 192.0.2.9:5060;branch=z9hG4bK8c31e71e0ddbf1a0e56f5f0279990857.7.3.3\r\n\
v: SIP/2.0/UDP 192.0.2.1:5060;branch=z9hG4bKa;rport=40000;received=192.0.2.1\r\n\
f: <sip:alice@example.com>;tag=1\r\n\
t: <sip:bob@example.com>;tag=7\r\n\
i: c1\r\n\
CSeq: 1 INVITE\r\n\
l: 0\r\n\
\r\n";

/// The 407 as it goes up.
const SECOND_UP: Sent = Sent {
    cause: Cause::Answer,
    to: CALLER,
    text: b"SIP/2.0 407 Proxy Authentication Required\r\n\
v: SIP/2.0/UDP 192.0.2.1:5060;branch=z9hG4bKa;rport=40000;received=192.0.2.1\r\n\
f: <sip:alice@example.com>;tag=1\r\n\
t: <sip:bob@example.com>;tag=5\r\n\
i: c1\r\n\
CSeq: 1 INVITE\r\n\
l: 0\r\n\
\r\n",
};

// ---- the call

/// Each fails in turn; then the 407 goes up.
const FOUR_FAILURES: &[Moment] = &[
    (0, Turn::SendsFor(Cause::Answer)),
    (0, Turn::SendsFor(Cause::Request(0))),
    (0, Turn::SendsFor(Cause::Request(1))),
    (0, Turn::SendsFor(Cause::Request(2))),
    (0, Turn::SendsFor(Cause::Request(3))),
    (0, Turn::Waits(Some(500))),
    (10, Turn::Takes(FIRST, FIRST_ANSWER, Ok(Taken::Posted(0)))),
    (10, Turn::SendsFor(Cause::Ack(0))),
    (10, Turn::Waits(Some(500))),
    (20, Turn::Takes(SECOND, SECOND_ANSWER, Ok(Taken::Posted(1)))),
    (20, Turn::SendsFor(Cause::Ack(1))),
    (30, Turn::Takes(THIRD, THIRD_ANSWER, Ok(Taken::Posted(2)))),
    (30, Turn::SendsFor(Cause::Ack(2))),
    (30, Turn::Waits(Some(500))),
    (40, Turn::Takes(FOURTH, FOURTH_ANSWER, Ok(Taken::Posted(3)))),
    (40, Turn::Sends(&SECOND_UP)),
    (40, Turn::SendsFor(Cause::Ack(3))),
    (40, Turn::Waits(Some(540))),
];

/// Its events.
const FAILURES: &[Entry] = &[
    Entry {
        event: Posted::Answer(0, 503),
        started: &[],
        cancelled: &[],
        up: Up::Nothing,
    },
    Entry {
        event: Posted::Answer(1, 407),
        started: &[],
        cancelled: &[],
        up: Up::Nothing,
    },
    Entry {
        event: Posted::Answer(2, 501),
        started: &[],
        cancelled: &[],
        up: Up::Nothing,
    },
    Entry {
        event: Posted::Answer(3, 404),
        started: &[],
        cancelled: &[],
        up: Up::Final(Choice::Stored(1)),
    },
];

#[test]
fn a_book_is_read_back(rt: HostRuntime) {
    holds(
        &rt,
        goes_so(rt.alloc(), FOUR, INVITE, FOUR_FAILURES, FAILURES),
        "the book of a call to four targets",
    );
}
