//! Calls of a proxy that stays on the path of each dialog, and that gives the time of a request back (RFC 3261 sections 8.2.6.1 and
//! 16.6 step 4).
use crate::histories::playing::goes_by;
use crate::holds::holds;
use crate::requests::{SETUP, setup_of};
use call_messages::Sent;
use call_messages::histories::{Moment, Turn};
use call_messages::one_target::{
    ACK_SENT, CALLER, INVITE, INVITE_SENT, NOT_FOUND, OPTIONS, OPTIONS_SENT, TARGET, TRYING,
};
use fork_call::{Cause, Setup, Taken};
use sip_via::Own;
use std::alloc::Global;

/// An INVITE that says when it was sent.
const INVITE_AT: &[u8] = b"INVITE sip:bob@example.com SIP/2.0\r\n\
v: SIP/2.0/UDP 192.0.2.1:5060;branch=z9hG4bKa;rport\r\n\
Max-Forwards: 70\r\n\
f: <sip:alice@example.com>;tag=1\r\n\
t: <sip:bob@example.com>\r\n\
i: c1\r\n\
CSeq: 1 INVITE\r\n\
Timestamp: 54.21\r\n\
l: 0\r\n\
\r\n";

/// The 100 that gives this back.
const TRYING_AT: Sent = Sent {
    cause: Cause::Answer,
    to: CALLER,
    text: b"SIP/2.0 100 Trying\r\n\
v: SIP/2.0/UDP 192.0.2.1:5060;branch=z9hG4bKa;rport=40000;received=192.0.2.1\r\n\
f: <sip:alice@example.com>;tag=1\r\n\
t: <sip:bob@example.com>\r\n\
i: c1\r\n\
CSeq: 1 INVITE\r\n\
Timestamp: 54.21\r\n\
Content-Length: 0\r\n\
\r\n",
};

/// The INVITE as it goes to the target, with the proxy on the path.
const RECORDED_AT: Sent = Sent {
    cause: Cause::Request(0),
    to: TARGET,
    text: b"INVITE sip:bob@192.0.2.4 SIP/2.0\r\n\
Via: SIP/2.0/UDP 192.0.2.9:5060;branch=z9hG4bK8c31e71e0ddbf1a0e56f5f0279990857.7.3.0\r\n\
Record-Route: <sip:192.0.2.9:5060;lr>\r\n\
v: SIP/2.0/UDP 192.0.2.1:5060;branch=z9hG4bKa;rport=40000;received=192.0.2.1\r\n\
Max-Forwards: 69\r\n\
f: <sip:alice@example.com>;tag=1\r\n\
t: <sip:bob@example.com>\r\n\
i: c1\r\n\
CSeq: 1 INVITE\r\n\
Timestamp: 54.21\r\n\
l: 0\r\n\
\r\n",
};

/// The same of the INVITE that does not say when.
const RECORDED: Sent = Sent {
    cause: Cause::Request(0),
    to: TARGET,
    text: b"INVITE sip:bob@192.0.2.4 SIP/2.0\r\n\
Via: SIP/2.0/UDP 192.0.2.9:5060;branch=z9hG4bK8c31e71e0ddbf1a0e56f5f0279990857.7.3.0\r\n\
Record-Route: <sip:192.0.2.9:5060;lr>\r\n\
v: SIP/2.0/UDP 192.0.2.1:5060;branch=z9hG4bKa;rport=40000;received=192.0.2.1\r\n\
Max-Forwards: 69\r\n\
f: <sip:alice@example.com>;tag=1\r\n\
t: <sip:bob@example.com>\r\n\
i: c1\r\n\
CSeq: 1 INVITE\r\n\
l: 0\r\n\
\r\n",
};

/// One within a dialog.
const INVITE_WITHIN: &[u8] = b"INVITE sip:bob@example.com SIP/2.0\r\n\
v: SIP/2.0/UDP 192.0.2.1:5060;branch=z9hG4bKa;rport\r\n\
Max-Forwards: 70\r\n\
f: <sip:alice@example.com>;tag=1\r\n\
t: <sip:bob@example.com>;tag=9\r\n\
i: c1\r\n\
CSeq: 1 INVITE\r\n\
l: 0\r\n\
\r\n";

/// The same as it goes to the target.
const WITHIN_SENT: Sent = Sent {
    cause: Cause::Request(0),
    to: TARGET,
    text: b"INVITE sip:bob@192.0.2.4 SIP/2.0\r\n\
Via: SIP/2.0/UDP 192.0.2.9:5060;branch=z9hG4bK3397120bd92ee6e0113deb379e830f07.7.3.0\r\n\
v: SIP/2.0/UDP 192.0.2.1:5060;branch=z9hG4bKa;rport=40000;received=192.0.2.1\r\n\
Max-Forwards: 69\r\n\
f: <sip:alice@example.com>;tag=1\r\n\
t: <sip:bob@example.com>;tag=9\r\n\
i: c1\r\n\
CSeq: 1 INVITE\r\n\
l: 0\r\n\
\r\n",
};

/// Both are on; the ACK of a failure is on the path as it is.
const BOTH: &[Moment] = &[
    (0, Turn::Sends(&TRYING_AT)),
    (0, Turn::Sends(&RECORDED_AT)),
    (500, Turn::Sends(&RECORDED_AT)),
    (510, Turn::Takes(TARGET, NOT_FOUND, Ok(Taken::Posted(0)))),
    (510, Turn::SendsFor(Cause::Answer)),
    (510, Turn::Sends(&ACK_SENT)),
];

/// Whether a setup has the proxy on the path, and gives times back; a request, its history, and what it shows.
type Run = (bool, bool, &'static [u8], &'static [Moment], &'static str);

const RUNS: [Run; 6] = [
    (true, true, INVITE_AT, BOTH, "an INVITE that says when"),
    (
        true,
        true,
        INVITE,
        &[(0, Turn::Sends(&TRYING)), (0, Turn::Sends(&RECORDED))],
        "one that does not",
    ),
    (
        true,
        true,
        INVITE_WITHIN,
        &[
            (0, Turn::SendsFor(Cause::Answer)),
            (0, Turn::Sends(&WITHIN_SENT)),
        ],
        "one within a dialog",
    ),
    (
        true,
        true,
        OPTIONS,
        &[(0, Turn::Sends(&OPTIONS_SENT))],
        "a request that opens none",
    ),
    (
        true,
        false,
        INVITE_AT,
        &[(0, Turn::Sends(&TRYING)), (0, Turn::Sends(&RECORDED_AT))],
        "a proxy on the path alone",
    ),
    (
        false,
        false,
        INVITE,
        &[(0, Turn::Sends(&TRYING)), (0, Turn::Sends(&INVITE_SENT))],
        "neither",
    ),
];

/// The setup with these two as they are told.
fn setup_with(alloc: Global, records: bool, stamps: bool) -> Option<Setup<Global>> {
    let setup = setup_of(alloc, SETUP)?;
    let setup = if records { setup.recording() } else { setup };
    Some(if stamps { setup.stamping() } else { setup })
}

/// Whether the call that a request opens by such a setup goes so.
fn goes(alloc: Global, records: bool, stamps: bool, request: &[u8], history: &[Moment]) -> bool {
    match setup_with(alloc, records, stamps) {
        Some(setup) => goes_by(alloc, &setup, request, history),
        None => false,
    }
}

#[test]
fn a_proxy_stays_on_the_path_and_gives_times_back(rt: HostRuntime) {
    for (records, stamps, request, history, what) in RUNS {
        holds(
            &rt,
            goes(rt.alloc(), records, stamps, request, history),
            what,
        );
    }
}

/// The INVITE with the address of a front on the path.
const RECORDED_AS: Sent = Sent {
    cause: Cause::Request(0),
    to: TARGET,
    text: b"INVITE sip:bob@192.0.2.4 SIP/2.0\r\n\
Via: SIP/2.0/UDP 192.0.2.9:5060;branch=z9hG4bK8c31e71e0ddbf1a0e56f5f0279990857.7.3.0\r\n\
Record-Route: <sip:192.0.2.1:5070;lr>\r\n\
v: SIP/2.0/UDP 192.0.2.1:5060;branch=z9hG4bKa;rport=40000;received=192.0.2.1\r\n\
Max-Forwards: 69\r\n\
f: <sip:alice@example.com>;tag=1\r\n\
t: <sip:bob@example.com>\r\n\
i: c1\r\n\
CSeq: 1 INVITE\r\n\
Timestamp: 54.21\r\n\
l: 0\r\n\
\r\n",
};

/// Whether an INVITE goes by a setup whose Record-Route line names a front.
fn goes_by_front(alloc: Global) -> bool {
    let Some(setup) = setup_with(alloc, true, true) else {
        return false;
    };
    let setup = setup.recording_as(Own::over_udp([192, 0, 2, 1], 5070));
    let history = [(0, Turn::Sends(&TRYING_AT)), (0, Turn::Sends(&RECORDED_AS))];
    goes_by(alloc, &setup, INVITE_AT, &history)
}

#[test]
fn a_proxy_stays_on_the_path_by_the_address_of_a_front(rt: HostRuntime) {
    holds(&rt, goes_by_front(rt.alloc()), "the front's address");
}
