//! A call to a target over TCP (RFC 3261 sections 17.1.1.2, 17.1.1.3, 9.1 and 18.1.1): nothing is sent again, and the ACK and the CANCEL go as
//! the request went.
use crate::histories::playing::goes_by;
use crate::holds::holds;
use crate::requests::{SETUP, setup_of};
use call_messages::Sent;
use call_messages::histories::{Moment, Turn};
use call_messages::one_target::{CALLER, CANCEL, CANCEL_OK, NOT_FOUND_UP, RINGING_UP, TRYING};
use fork_call::{Cause, Setup, Taken};
use sip_uri::{Hop, Transport};
use std::alloc::Global;

/// A request to a URI that asks for TCP.
const REQUEST: &[u8] = b"INVITE sip:bob@192.0.2.4;transport=tcp SIP/2.0\r\n\
v: SIP/2.0/UDP 192.0.2.1:5060;branch=z9hG4bKa;rport\r\n\
Max-Forwards: 70\r\n\
f: <sip:alice@example.com>;tag=1\r\n\
t: <sip:bob@example.com>\r\n\
i: c1\r\n\
CSeq: 1 INVITE\r\n\
l: 0\r\n\
\r\n";

/// Where the request goes.
const TARGET: Hop = Hop {
    addr: [192, 0, 2, 4],
    port: 5060,
    transport: Transport::Tcp,
};

/// The INVITE as it goes there.
const SENT: Sent = Sent {
    cause: Cause::Request(0),
    to: TARGET,
    text: b"INVITE sip:bob@192.0.2.4;transport=tcp SIP/2.0\r\n\
Via: SIP/2.0/TCP 192.0.2.9:5060;branch=z9hG4bK3ad1e5c99da7b70ce833800aa1c820a4.7.3.0\r\n\
v: SIP/2.0/UDP 192.0.2.1:5060;branch=z9hG4bKa;rport=40000;received=192.0.2.1\r\n\
Max-Forwards: 69\r\n\
f: <sip:alice@example.com>;tag=1\r\n\
t: <sip:bob@example.com>\r\n\
i: c1\r\n\
CSeq: 1 INVITE\r\n\
l: 0\r\n\
\r\n",
};

/// Its 180.
const RINGS: &[u8] = b"SIP/2.0 180 Ringing\r\n\
Via: SIP/2.0/TCP 192.0.2.9:5060;branch=z9hG4bK3ad1e5c99da7b70ce833800aa1c820a4.7.3.0\r\n\
v: SIP/2.0/UDP 192.0.2.1:5060;branch=z9hG4bKa;rport=40000;received=192.0.2.1\r\n\
f: <sip:alice@example.com>;tag=1\r\n\
t: <sip:bob@example.com>;tag=9\r\n\
i: c1\r\n\
CSeq: 1 INVITE\r\n\
l: 0\r\n\
\r\n";

/// Its 404.
const FAILS: &[u8] = b"SIP/2.0 404 Not Found\r\n\
Via: SIP/2.0/TCP 192.0.2.9:5060;branch=z9hG4bK3ad1e5c99da7b70ce833800aa1c820a4.7.3.0\r\n\
v: SIP/2.0/UDP 192.0.2.1:5060;branch=z9hG4bKa;rport=40000;received=192.0.2.1\r\n\
f: <sip:alice@example.com>;tag=1\r\n\
t: <sip:bob@example.com>;tag=9\r\n\
i: c1\r\n\
CSeq: 1 INVITE\r\n\
l: 0\r\n\
\r\n";

/// Its 487.
const ENDS: &[u8] = b"SIP/2.0 487 Request Terminated\r\n\
Via: SIP/2.0/TCP 192.0.2.9:5060;branch=z9hG4bK3ad1e5c99da7b70ce833800aa1c820a4.7.3.0\r\n\
v: SIP/2.0/UDP 192.0.2.1:5060;branch=z9hG4bKa;rport=40000;received=192.0.2.1\r\n\
f: <sip:alice@example.com>;tag=1\r\n\
t: <sip:bob@example.com>;tag=9\r\n\
i: c1\r\n\
CSeq: 1 INVITE\r\n\
l: 0\r\n\
\r\n";

/// The ACK to each.
const ACKNOWLEDGED: Sent = Sent {
    cause: Cause::Ack(0),
    to: TARGET,
    text: b"ACK sip:bob@192.0.2.4;transport=tcp SIP/2.0\r\n\
Via: SIP/2.0/TCP 192.0.2.9:5060;branch=z9hG4bK3ad1e5c99da7b70ce833800aa1c820a4.7.3.0\r\n\
Max-Forwards: 70\r\n\
From: <sip:alice@example.com>;tag=1\r\n\
To: <sip:bob@example.com>;tag=9\r\n\
Call-ID: c1\r\n\
CSeq: 1 ACK\r\n\
Content-Length: 0\r\n\
\r\n",
};

/// The CANCEL.
const CANCELLED: Sent = Sent {
    cause: Cause::Cancel(0),
    to: TARGET,
    text: b"CANCEL sip:bob@192.0.2.4;transport=tcp SIP/2.0\r\n\
Via: SIP/2.0/TCP 192.0.2.9:5060;branch=z9hG4bK3ad1e5c99da7b70ce833800aa1c820a4.7.3.0\r\n\
Max-Forwards: 70\r\n\
From: <sip:alice@example.com>;tag=1\r\n\
To: <sip:bob@example.com>\r\n\
Call-ID: c1\r\n\
CSeq: 1 CANCEL\r\n\
Content-Length: 0\r\n\
\r\n",
};

/// A call that fails: the transaction of the branch ends with its ACK.
const FAILURE: &[Moment] = &[
    (0, Turn::Sends(&TRYING)),
    (0, Turn::Sends(&SENT)),
    (0, Turn::Waits(Some(32_000))),
    (10, Turn::Takes(TARGET, FAILS, Ok(Taken::Posted(0)))),
    (10, Turn::Sends(&NOT_FOUND_UP)),
    (10, Turn::Sends(&ACKNOWLEDGED)),
    (10, Turn::Does),
    (10, Turn::Waits(Some(510))),
    (510, Turn::Sends(&NOT_FOUND_UP)),
];

/// A call that the caller cancels.
const CANCELLING: &[Moment] = &[
    (0, Turn::Sends(&TRYING)),
    (0, Turn::Sends(&SENT)),
    (10, Turn::Takes(TARGET, RINGS, Ok(Taken::Posted(0)))),
    (10, Turn::Sends(&RINGING_UP)),
    (20, Turn::Takes(CALLER, CANCEL, Ok(Taken::Posted(1)))),
    (20, Turn::Sends(&CANCEL_OK)),
    (20, Turn::Sends(&CANCELLED)),
    (20, Turn::Waits(Some(32_020))),
    (30, Turn::Takes(TARGET, ENDS, Ok(Taken::Posted(2)))),
    (30, Turn::SendsFor(Cause::Answer)),
    (30, Turn::Sends(&ACKNOWLEDGED)),
    (30, Turn::Does),
    (30, Turn::Waits(Some(530))),
];

/// The setup of a proxy that has streams, or has none.
fn setup_with(alloc: Global, streams: bool) -> Option<Setup<Global>> {
    let setup = setup_of(alloc, SETUP)?;
    Some(if streams { setup.with_streams() } else { setup })
}

/// Whether the call that the request opens by such a setup goes so.
fn goes(alloc: Global, streams: bool, history: &[Moment]) -> bool {
    match setup_with(alloc, streams) {
        Some(setup) => goes_by(alloc, &setup, REQUEST, history),
        None => false,
    }
}

#[test]
fn a_target_is_called_over_tcp(rt: HostRuntime) {
    let alloc = rt.alloc();
    holds(&rt, goes(alloc, true, FAILURE), "a call that fails");
    holds(
        &rt,
        goes(alloc, true, CANCELLING),
        "a call that is cancelled",
    );
    holds(
        &rt,
        !goes(alloc, false, &[]),
        "a proxy without streams opens none",
    );
}
