//! What the CANCEL of a branch says of why it is sent, by what closed the table (RFC 3326): a 2xx, a 6xx, or the caller's CANCEL;
//! and nothing where timer C fired.
use crate::histories::accepting::ONE_GROUP;
use crate::histories::playing::goes_by;
use crate::holds::holds;
use crate::requests::{SETUP, setup_of};
use call_messages::Sent;
use call_messages::five_targets::{SECOND, SECOND_ACCEPTS, SECOND_RINGS};
use call_messages::histories::{Moment, Turn};
use call_messages::one_target::{
    CALLER, CANCEL, CANCEL_OK, CANCEL_SENT, INVITE, RINGING, RINGING_UP, TARGET, TRYING,
};
use fork_call::{Cause, Taken};
use std::alloc::Global;

/// The 603 of the first.
const DECLINED: &[u8] = b"SIP/2.0 603 Decline\r\n\
Via: SIP/2.0/UDP 192.0.2.9:5060;branch=z9hG4bK8c31e71e0ddbf1a0e56f5f0279990857.7.3.0\r\n\
v: SIP/2.0/UDP 192.0.2.1:5060;branch=z9hG4bKa;rport=40000;received=192.0.2.1\r\n\
f: <sip:alice@example.com>;tag=1\r\n\
t: <sip:bob@example.com>;tag=9\r\n\
i: c1\r\n\
CSeq: 1 INVITE\r\n\
l: 0\r\n\
\r\n";

/// The CANCEL of the first, where the second accepted.
const CANCEL_SINCE_ACCEPTED: Sent = Sent {
    cause: Cause::Cancel(0),
    to: TARGET,
    text: b"CANCEL sip:bob@192.0.2.4 SIP/2.0\r\n\
Via: SIP/2.0/UDP 192.0.2.9:5060;branch=z9hG4bK8c31e71e0ddbf1a0e56f5f0279990857.7.3.0\r\n\
Max-Forwards: 70\r\n\
From: <sip:alice@example.com>;tag=1\r\n\
To: <sip:bob@example.com>\r\n\
Call-ID: c1\r\n\
CSeq: 1 CANCEL\r\n\
Reason: SIP;cause=200;text=\"Call completed elsewhere\"\r\n\
Content-Length: 0\r\n\
\r\n",
};

/// The CANCEL of the second, where the first declined.
const CANCEL_SINCE_DECLINED: Sent = Sent {
    cause: Cause::Cancel(1),
    to: SECOND,
    text: b"CANCEL sip:bob@192.0.2.5 SIP/2.0\r\n\
Via: SIP/2.0/UDP 192.0.2.9:5060;branch=z9hG4bK8c31e71e0ddbf1a0e56f5f0279990857.7.3.1\r\n\
Max-Forwards: 70\r\n\
From: <sip:alice@example.com>;tag=1\r\n\
To: <sip:bob@example.com>\r\n\
Call-ID: c1\r\n\
CSeq: 1 CANCEL\r\n\
Reason: SIP;cause=603\r\n\
Content-Length: 0\r\n\
\r\n",
};

/// The caller's CANCEL, which says why.
const CANCEL_WITH_REASONS: &[u8] = b"CANCEL sip:bob@example.com SIP/2.0\r\n\
v: SIP/2.0/UDP 192.0.2.1:5060;branch=z9hG4bKa;rport\r\n\
Reason: SIP;cause=487;text=\"x\"\r\n\
Max-Forwards: 70\r\n\
f: <sip:alice@example.com>;tag=1\r\n\
t: <sip:bob@example.com>\r\n\
i: c1\r\n\
CSeq: 1 CANCEL\r\n\
REASON: Q.850;cause=16\r\n\
l: 0\r\n\
\r\n";

/// That of the branch then.
const CANCEL_SINCE_CANCELLED: Sent = Sent {
    cause: Cause::Cancel(0),
    to: TARGET,
    text: b"CANCEL sip:bob@192.0.2.4 SIP/2.0\r\n\
Via: SIP/2.0/UDP 192.0.2.9:5060;branch=z9hG4bK8c31e71e0ddbf1a0e56f5f0279990857.7.3.0\r\n\
Max-Forwards: 70\r\n\
From: <sip:alice@example.com>;tag=1\r\n\
To: <sip:bob@example.com>\r\n\
Call-ID: c1\r\n\
CSeq: 1 CANCEL\r\n\
Reason: SIP;cause=487;text=\"x\"\r\n\
REASON: Q.850;cause=16\r\n\
Content-Length: 0\r\n\
\r\n",
};

/// Both ring, and the second accepts.
const ACCEPTED: &[Moment] = &[
    (0, Turn::Sends(&TRYING)),
    (0, Turn::SendsFor(Cause::Request(0))),
    (0, Turn::SendsFor(Cause::Request(1))),
    (10, Turn::Takes(TARGET, RINGING, Ok(Taken::Posted(0)))),
    (10, Turn::Sends(&RINGING_UP)),
    (10, Turn::Takes(SECOND, SECOND_RINGS, Ok(Taken::Posted(1)))),
    (10, Turn::SendsFor(Cause::Answer)),
    (
        20,
        Turn::Takes(SECOND, SECOND_ACCEPTS, Ok(Taken::Posted(2))),
    ),
    (20, Turn::SendsFor(Cause::Answer)),
    (20, Turn::Sends(&CANCEL_SINCE_ACCEPTED)),
    (20, Turn::Waits(Some(520))),
    (520, Turn::Sends(&CANCEL_SINCE_ACCEPTED)),
];

/// The same of a proxy that gives no reasons.
const ACCEPTED_UNSAID: &[Moment] = &[
    (0, Turn::Sends(&TRYING)),
    (0, Turn::SendsFor(Cause::Request(0))),
    (0, Turn::SendsFor(Cause::Request(1))),
    (10, Turn::Takes(TARGET, RINGING, Ok(Taken::Posted(0)))),
    (10, Turn::Sends(&RINGING_UP)),
    (
        20,
        Turn::Takes(SECOND, SECOND_ACCEPTS, Ok(Taken::Posted(1))),
    ),
    (20, Turn::SendsFor(Cause::Answer)),
    (20, Turn::Sends(&CANCEL_SENT)),
];

/// The second accepts before the first rings: the first is cancelled once it does, for the same reason.
const ACCEPTED_BEFORE: &[Moment] = &[
    (0, Turn::Sends(&TRYING)),
    (0, Turn::SendsFor(Cause::Request(0))),
    (0, Turn::SendsFor(Cause::Request(1))),
    (
        20,
        Turn::Takes(SECOND, SECOND_ACCEPTS, Ok(Taken::Posted(0))),
    ),
    (20, Turn::SendsFor(Cause::Answer)),
    (20, Turn::Waits(Some(500))),
    (30, Turn::Takes(TARGET, RINGING, Ok(Taken::Posted(1)))),
    (30, Turn::Sends(&CANCEL_SINCE_ACCEPTED)),
];

/// The second rings, and the first declines.
const FAILED: &[Moment] = &[
    (0, Turn::Sends(&TRYING)),
    (0, Turn::SendsFor(Cause::Request(0))),
    (0, Turn::SendsFor(Cause::Request(1))),
    (10, Turn::Takes(SECOND, SECOND_RINGS, Ok(Taken::Posted(0)))),
    (10, Turn::SendsFor(Cause::Answer)),
    (20, Turn::Takes(TARGET, DECLINED, Ok(Taken::Posted(1)))),
    (20, Turn::SendsFor(Cause::Ack(0))),
    (20, Turn::Sends(&CANCEL_SINCE_DECLINED)),
    (20, Turn::Waits(Some(520))),
];

/// Timer C of the first fires, and the second accepts before the CANCEL is sent.
const TOO_LONG: &[Moment] = &[
    (0, Turn::Sends(&TRYING)),
    (0, Turn::SendsFor(Cause::Request(0))),
    (0, Turn::SendsFor(Cause::Request(1))),
    (10, Turn::Takes(TARGET, RINGING, Ok(Taken::Posted(0)))),
    (10, Turn::Sends(&RINGING_UP)),
    (
        100_000,
        Turn::Takes(SECOND, SECOND_RINGS, Ok(Taken::Posted(1))),
    ),
    (100_000, Turn::SendsFor(Cause::Answer)),
    (100_000, Turn::Waits(Some(181_010))),
    (181_010, Turn::Does),
    (
        181_010,
        Turn::Takes(SECOND, SECOND_ACCEPTS, Ok(Taken::Posted(3))),
    ),
    (181_010, Turn::SendsFor(Cause::Answer)),
    (181_010, Turn::Sends(&CANCEL_SENT)),
];

/// The caller cancels, and says why.
const CANCELLED_WITH_REASONS: &[Moment] = &[
    (0, Turn::Sends(&TRYING)),
    (0, Turn::SendsFor(Cause::Request(0))),
    (10, Turn::Takes(TARGET, RINGING, Ok(Taken::Posted(0)))),
    (10, Turn::Sends(&RINGING_UP)),
    (
        20,
        Turn::Takes(CALLER, CANCEL_WITH_REASONS, Ok(Taken::Posted(1))),
    ),
    (20, Turn::Sends(&CANCEL_OK)),
    (20, Turn::Sends(&CANCEL_SINCE_CANCELLED)),
    (20, Turn::Waits(Some(520))),
    (520, Turn::Sends(&CANCEL_SINCE_CANCELLED)),
];

/// It cancels, and says nothing.
const CANCELLED: &[Moment] = &[
    (0, Turn::Sends(&TRYING)),
    (0, Turn::SendsFor(Cause::Request(0))),
    (10, Turn::Takes(TARGET, RINGING, Ok(Taken::Posted(0)))),
    (10, Turn::Sends(&RINGING_UP)),
    (20, Turn::Takes(CALLER, CANCEL, Ok(Taken::Posted(1)))),
    (20, Turn::Sends(&CANCEL_OK)),
    (20, Turn::Sends(&CANCEL_SENT)),
    (20, Turn::Waits(Some(520))),
];

/// Whether the call that the INVITE opens by the setup of that text goes so, where CANCELs say why they are sent.
fn goes(alloc: Global, setup: &[u8], history: &[Moment]) -> bool {
    match setup_of(alloc, setup) {
        Some(setup) => goes_by(alloc, &setup.giving_reasons(), INVITE, history),
        None => false,
    }
}

/// The same where they do not.
fn goes_unsaid(alloc: Global, setup: &[u8], history: &[Moment]) -> bool {
    match setup_of(alloc, setup) {
        Some(setup) => goes_by(alloc, &setup, INVITE, history),
        None => false,
    }
}

#[test]
fn a_cancel_says_what_closed_the_table(rt: HostRuntime) {
    let alloc = rt.alloc();
    holds(
        &rt,
        goes(alloc, ONE_GROUP, ACCEPTED),
        "the call was completed elsewhere",
    );
    holds(
        &rt,
        goes(alloc, ONE_GROUP, ACCEPTED_BEFORE),
        "it was, before the branch rang",
    );
    holds(
        &rt,
        goes(alloc, ONE_GROUP, FAILED),
        "another target declined for all",
    );
    holds(
        &rt,
        goes(alloc, SETUP, CANCELLED_WITH_REASONS),
        "the caller said why",
    );
}

#[test]
fn a_cancel_says_nothing_where_nothing_is_said(rt: HostRuntime) {
    let alloc = rt.alloc();
    holds(&rt, goes(alloc, ONE_GROUP, TOO_LONG), "timer C fired first");
    holds(
        &rt,
        goes(alloc, SETUP, CANCELLED),
        "the caller said nothing",
    );
    holds(
        &rt,
        goes_unsaid(alloc, ONE_GROUP, ACCEPTED_UNSAID),
        "the proxy gives no reasons",
    );
}
