//! A call whose target sends it elsewhere, and one that a redirection ends, each of whose steps is made again until it meets no
//! refusal: contacts become rows, challenges are added to the final answer, and contacts that were not tried are left in it (RFC
//! 3261 sections 16.5 and 16.7 steps 4 and 7).
use crate::calls::goes;
use call_messages::Sent;
use call_messages::histories::{Moment, Turn};
use call_messages::one_target::{ACK_SENT, CALLER, INVITE, INVITE_SENT, TARGET, TRYING};
use call_messages::redirecting::{
    CONTACT, CONTACT_SENT, MOVED, OTHER, OTHER_ACK_SENT, OTHER_INVITE, OTHER_MOVED, OTHER_MOVED_UP,
    OTHER_SENT, OTHER_TRYING,
};
use fork_call::{Cause, Taken};
use sip_uri::{Hop, Transport};

// ---- an INVITE for the domain: two contacts are tried, and each asks for credentials

/// Where the other contact leads.
const SECOND: Hop = Hop {
    addr: [192, 0, 2, 7],
    port: 5060,
    transport: Transport::Udp,
};

/// The 401 of the contact of the higher q.
const CONTACT_ASKS: &[u8] = b"SIP/2.0 401 Unauthorized\r\n\
Via: SIP/2.0/UDP 192.0.2.9:5060;branch=z9hG4bK8c31e71e0ddbf1a0e56f5f0279990857.7.3.1\r\n\
v: SIP/2.0/UDP 192.0.2.1:5060;branch=z9hG4bKa;rport=40000;received=192.0.2.1\r\n\
f: <sip:alice@example.com>;tag=1\r\n\
t: <sip:bob@example.com>;tag=11\r\n\
i: c1\r\n\
CSeq: 1 INVITE\r\n\
WWW-Authenticate: Digest realm=\"a\", nonce=\"1\"\r\n\
l: 0\r\n\
\r\n";

/// The ACK to that.
const CONTACT_ACK: Sent = Sent {
    cause: Cause::Ack(1),
    to: CONTACT,
    text: b"ACK sip:dave@192.0.2.8:5070 SIP/2.0\r\n\
Via: SIP/2.0/UDP 192.0.2.9:5060;branch=z9hG4bK8c31e71e0ddbf1a0e56f5f0279990857.7.3.1\r\n\
Max-Forwards: 70\r\n\
From: <sip:alice@example.com>;tag=1\r\n\
To: <sip:bob@example.com>;tag=11\r\n\
Call-ID: c1\r\n\
CSeq: 1 ACK\r\n\
Content-Length: 0\r\n\
\r\n",
};

/// The INVITE as it goes to the other contact.
const SECOND_SENT: Sent = Sent {
    cause: Cause::Request(2),
    to: SECOND,
    text: b"INVITE sip:dave@192.0.2.7 SIP/2.0\r\n\
Via: SIP/2.0/UDP 192.0.2.9:5060;branch=z9hG4bK8c31e71e0ddbf1a0e56f5f0279990857.7.3.2\r\n\
v: SIP/2.0/UDP 192.0.2.1:5060;branch=z9hG4bKa;rport=40000;received=192.0.2.1\r\n\
Max-Forwards: 69\r\n\
f: <sip:alice@example.com>;tag=1\r\n\
t: <sip:bob@example.com>\r\n\
i: c1\r\n\
CSeq: 1 INVITE\r\n\
l: 0\r\n\
\r\n",
};

/// That one's 407.
const SECOND_ASKS: &[u8] = b"SIP/2.0 407 Proxy Authentication Required\r\n\
Via: SIP/2.0/UDP 192.0.2.9:5060;branch=z9hG4bK8c31e71e0ddbf1a0e56f5f0279990857.7.3.2\r\n\
v: SIP/2.0/UDP 192.0.2.1:5060;branch=z9hG4bKa;rport=40000;received=192.0.2.1\r\n\
f: <sip:alice@example.com>;tag=1\r\n\
t: <sip:bob@example.com>;tag=12\r\n\
i: c1\r\n\
CSeq: 1 INVITE\r\n\
Proxy-Authenticate: Digest realm=\"b\", nonce=\"2\"\r\n\
l: 0\r\n\
\r\n";

/// The ACK to that.
const SECOND_ACK: Sent = Sent {
    cause: Cause::Ack(2),
    to: SECOND,
    text: b"ACK sip:dave@192.0.2.7 SIP/2.0\r\n\
Via: SIP/2.0/UDP 192.0.2.9:5060;branch=z9hG4bK8c31e71e0ddbf1a0e56f5f0279990857.7.3.2\r\n\
Max-Forwards: 70\r\n\
From: <sip:alice@example.com>;tag=1\r\n\
To: <sip:bob@example.com>;tag=12\r\n\
Call-ID: c1\r\n\
CSeq: 1 ACK\r\n\
Content-Length: 0\r\n\
\r\n",
};

/// The 401 as it goes up, with the challenge of the 407 (RFC 3261 section 16.7 step 7).
const ASKS_UP: Sent = Sent {
    cause: Cause::Answer,
    to: CALLER,
    text: b"SIP/2.0 401 Unauthorized\r\n\
v: SIP/2.0/UDP 192.0.2.1:5060;branch=z9hG4bKa;rport=40000;received=192.0.2.1\r\n\
f: <sip:alice@example.com>;tag=1\r\n\
t: <sip:bob@example.com>;tag=11\r\n\
i: c1\r\n\
CSeq: 1 INVITE\r\n\
WWW-Authenticate: Digest realm=\"a\", nonce=\"1\"\r\n\
l: 0\r\n\
Proxy-Authenticate: Digest realm=\"b\", nonce=\"2\"\r\n\
\r\n",
};

/// What happens to that call.
const ASKED: &[Moment] = &[
    (0, Turn::Sends(&TRYING)),
    (0, Turn::Sends(&INVITE_SENT)),
    (20, Turn::Takes(TARGET, MOVED, Ok(Taken::Posted(0)))),
    (20, Turn::Sends(&ACK_SENT)),
    (20, Turn::Sends(&CONTACT_SENT)),
    (20, Turn::Waits(Some(520))),
    (30, Turn::Takes(CONTACT, CONTACT_ASKS, Ok(Taken::Posted(1)))),
    (30, Turn::Sends(&CONTACT_ACK)),
    (30, Turn::Sends(&SECOND_SENT)),
    (30, Turn::Waits(Some(530))),
    (40, Turn::Takes(SECOND, SECOND_ASKS, Ok(Taken::Posted(2)))),
    (40, Turn::Sends(&ASKS_UP)),
    (40, Turn::Sends(&SECOND_ACK)),
    (40, Turn::Waits(Some(540))),
];

// ---- an INVITE for another URI: its contacts are left

/// What happens to that call.
const LEFT: &[Moment] = &[
    (0, Turn::Sends(&OTHER_TRYING)),
    (0, Turn::Sends(&OTHER_SENT)),
    (20, Turn::Takes(OTHER, OTHER_MOVED, Ok(Taken::Posted(0)))),
    (20, Turn::Sends(&OTHER_MOVED_UP)),
    (20, Turn::Sends(&OTHER_ACK_SENT)),
    (20, Turn::Waits(Some(520))),
];

#[test]
fn a_redirection_adds_rows_and_challenges_go_up(rt: HostRuntime) {
    goes(
        &rt,
        INVITE,
        ASKED,
        "an INVITE whose contacts ask for credentials",
    );
}

#[test]
fn contacts_that_are_left_go_up(rt: HostRuntime) {
    goes(&rt, OTHER_INVITE, LEFT, "an INVITE that a redirection ends");
}
