//! The messages of an INVITE that is forked to five targets, byte for byte, where they are not those of a call to the first
//! alone.
use crate::one_target::CALLER;
use crate::sent::Sent;
use fork_call::Cause;
use sip_uri::{Hop, Transport};

/// What the proxy is set up with: five targets, all tried at once.
pub const FORK_SETUP: &[u8] = b"own 192.0.2.9 5060\ninstance 7\ndomain example.com\n\
location bob 1000 sip:bob@192.0.2.4\nlocation bob 1000 sip:bob@192.0.2.5\n\
location bob 1000 sip:bob@192.0.2.6\nlocation bob 1000 sip:bob@192.0.2.7\n\
location bob 1000 sip:bob@192.0.2.8\n";

/// Where the request goes to the second and each later target.
pub const SECOND: Hop = Hop {
    addr: [192, 0, 2, 5],
    port: 5060,
    transport: Transport::Udp,
};

pub const THIRD: Hop = Hop {
    addr: [192, 0, 2, 6],
    port: 5060,
    transport: Transport::Udp,
};

pub const FOURTH: Hop = Hop {
    addr: [192, 0, 2, 7],
    port: 5060,
    transport: Transport::Udp,
};

pub const FIFTH: Hop = Hop {
    addr: [192, 0, 2, 8],
    port: 5060,
    transport: Transport::Udp,
};

// ---- the second target

/// The INVITE as it goes there.
pub const SECOND_SENT: Sent = Sent {
    cause: Cause::Request(1),
    to: SECOND,
    text: b"INVITE sip:bob@192.0.2.5 SIP/2.0\r\n\
Via: SIP/2.0/UDP 192.0.2.9:5060;branch=z9hG4bK8c31e71e0ddbf1a0e56f5f0279990857.7.3.1\r\n\
v: SIP/2.0/UDP 192.0.2.1:5060;branch=z9hG4bKa;rport=40000;received=192.0.2.1\r\n\
Max-Forwards: 69\r\n\
f: <sip:alice@example.com>;tag=1\r\n\
t: <sip:bob@example.com>\r\n\
i: c1\r\n\
CSeq: 1 INVITE\r\n\
l: 0\r\n\
\r\n",
};

/// That it rings.
pub const SECOND_RINGS: &[u8] = b"SIP/2.0 180 Ringing\r\n\
Via: SIP/2.0/UDP 192.0.2.9:5060;branch=z9hG4bK8c31e71e0ddbf1a0e56f5f0279990857.7.3.1\r\n\
v: SIP/2.0/UDP 192.0.2.1:5060;branch=z9hG4bKa;rport=40000;received=192.0.2.1\r\n\
f: <sip:alice@example.com>;tag=1\r\n\
t: <sip:bob@example.com>;tag=5\r\n\
i: c1\r\n\
CSeq: 1 INVITE\r\n\
l: 0\r\n\
\r\n";

/// The same as it goes up.
pub const SECOND_RINGS_UP: Sent = Sent {
    cause: Cause::Answer,
    to: CALLER,
    text: b"SIP/2.0 180 Ringing\r\n\
v: SIP/2.0/UDP 192.0.2.1:5060;branch=z9hG4bKa;rport=40000;received=192.0.2.1\r\n\
f: <sip:alice@example.com>;tag=1\r\n\
t: <sip:bob@example.com>;tag=5\r\n\
i: c1\r\n\
CSeq: 1 INVITE\r\n\
l: 0\r\n\
\r\n",
};

/// Its CANCEL.
pub const SECOND_CANCEL: Sent = Sent {
    cause: Cause::Cancel(1),
    to: SECOND,
    text: b"CANCEL sip:bob@192.0.2.5 SIP/2.0\r\n\
Via: SIP/2.0/UDP 192.0.2.9:5060;branch=z9hG4bK8c31e71e0ddbf1a0e56f5f0279990857.7.3.1\r\n\
Max-Forwards: 70\r\n\
From: <sip:alice@example.com>;tag=1\r\n\
To: <sip:bob@example.com>\r\n\
Call-ID: c1\r\n\
CSeq: 1 CANCEL\r\n\
Content-Length: 0\r\n\
\r\n",
};

/// Its 200.
pub const SECOND_ACCEPTS: &[u8] = b"SIP/2.0 200 OK\r\n\
Via: SIP/2.0/UDP 192.0.2.9:5060;branch=z9hG4bK8c31e71e0ddbf1a0e56f5f0279990857.7.3.1\r\n\
v: SIP/2.0/UDP 192.0.2.1:5060;branch=z9hG4bKa;rport=40000;received=192.0.2.1\r\n\
f: <sip:alice@example.com>;tag=1\r\n\
t: <sip:bob@example.com>;tag=5\r\n\
i: c1\r\n\
CSeq: 1 INVITE\r\n\
l: 0\r\n\
\r\n";

/// Its 487.
pub const SECOND_TERMINATED: &[u8] = b"SIP/2.0 487 Request Terminated\r\n\
Via: SIP/2.0/UDP 192.0.2.9:5060;branch=z9hG4bK8c31e71e0ddbf1a0e56f5f0279990857.7.3.1\r\n\
v: SIP/2.0/UDP 192.0.2.1:5060;branch=z9hG4bKa;rport=40000;received=192.0.2.1\r\n\
f: <sip:alice@example.com>;tag=1\r\n\
t: <sip:bob@example.com>;tag=5\r\n\
i: c1\r\n\
CSeq: 1 INVITE\r\n\
l: 0\r\n\
\r\n";

/// The ACK to that.
pub const SECOND_ACK: Sent = Sent {
    cause: Cause::Ack(1),
    to: SECOND,
    text: b"ACK sip:bob@192.0.2.5 SIP/2.0\r\n\
Via: SIP/2.0/UDP 192.0.2.9:5060;branch=z9hG4bK8c31e71e0ddbf1a0e56f5f0279990857.7.3.1\r\n\
Max-Forwards: 70\r\n\
From: <sip:alice@example.com>;tag=1\r\n\
To: <sip:bob@example.com>;tag=5\r\n\
Call-ID: c1\r\n\
CSeq: 1 ACK\r\n\
Content-Length: 0\r\n\
\r\n",
};

// ---- the third target

/// The INVITE as it goes there.
pub const THIRD_SENT: Sent = Sent {
    cause: Cause::Request(2),
    to: THIRD,
    text: b"INVITE sip:bob@192.0.2.6 SIP/2.0\r\n\
Via: SIP/2.0/UDP 192.0.2.9:5060;branch=z9hG4bK8c31e71e0ddbf1a0e56f5f0279990857.7.3.2\r\n\
v: SIP/2.0/UDP 192.0.2.1:5060;branch=z9hG4bKa;rport=40000;received=192.0.2.1\r\n\
Max-Forwards: 69\r\n\
f: <sip:alice@example.com>;tag=1\r\n\
t: <sip:bob@example.com>\r\n\
i: c1\r\n\
CSeq: 1 INVITE\r\n\
l: 0\r\n\
\r\n",
};

/// That it rings.
pub const THIRD_RINGS: &[u8] = b"SIP/2.0 180 Ringing\r\n\
Via: SIP/2.0/UDP 192.0.2.9:5060;branch=z9hG4bK8c31e71e0ddbf1a0e56f5f0279990857.7.3.2\r\n\
v: SIP/2.0/UDP 192.0.2.1:5060;branch=z9hG4bKa;rport=40000;received=192.0.2.1\r\n\
f: <sip:alice@example.com>;tag=1\r\n\
t: <sip:bob@example.com>;tag=6\r\n\
i: c1\r\n\
CSeq: 1 INVITE\r\n\
l: 0\r\n\
\r\n";

/// The same as it goes up.
pub const THIRD_RINGS_UP: Sent = Sent {
    cause: Cause::Answer,
    to: CALLER,
    text: b"SIP/2.0 180 Ringing\r\n\
v: SIP/2.0/UDP 192.0.2.1:5060;branch=z9hG4bKa;rport=40000;received=192.0.2.1\r\n\
f: <sip:alice@example.com>;tag=1\r\n\
t: <sip:bob@example.com>;tag=6\r\n\
i: c1\r\n\
CSeq: 1 INVITE\r\n\
l: 0\r\n\
\r\n",
};

/// Its CANCEL.
pub const THIRD_CANCEL: Sent = Sent {
    cause: Cause::Cancel(2),
    to: THIRD,
    text: b"CANCEL sip:bob@192.0.2.6 SIP/2.0\r\n\
Via: SIP/2.0/UDP 192.0.2.9:5060;branch=z9hG4bK8c31e71e0ddbf1a0e56f5f0279990857.7.3.2\r\n\
Max-Forwards: 70\r\n\
From: <sip:alice@example.com>;tag=1\r\n\
To: <sip:bob@example.com>\r\n\
Call-ID: c1\r\n\
CSeq: 1 CANCEL\r\n\
Content-Length: 0\r\n\
\r\n",
};

/// Its 487.
pub const THIRD_TERMINATED: &[u8] = b"SIP/2.0 487 Request Terminated\r\n\
Via: SIP/2.0/UDP 192.0.2.9:5060;branch=z9hG4bK8c31e71e0ddbf1a0e56f5f0279990857.7.3.2\r\n\
v: SIP/2.0/UDP 192.0.2.1:5060;branch=z9hG4bKa;rport=40000;received=192.0.2.1\r\n\
f: <sip:alice@example.com>;tag=1\r\n\
t: <sip:bob@example.com>;tag=6\r\n\
i: c1\r\n\
CSeq: 1 INVITE\r\n\
l: 0\r\n\
\r\n";

/// The ACK to that.
pub const THIRD_ACK: Sent = Sent {
    cause: Cause::Ack(2),
    to: THIRD,
    text: b"ACK sip:bob@192.0.2.6 SIP/2.0\r\n\
Via: SIP/2.0/UDP 192.0.2.9:5060;branch=z9hG4bK8c31e71e0ddbf1a0e56f5f0279990857.7.3.2\r\n\
Max-Forwards: 70\r\n\
From: <sip:alice@example.com>;tag=1\r\n\
To: <sip:bob@example.com>;tag=6\r\n\
Call-ID: c1\r\n\
CSeq: 1 ACK\r\n\
Content-Length: 0\r\n\
\r\n",
};

// ---- the fourth target

/// The INVITE as it goes there.
pub const FOURTH_SENT: Sent = Sent {
    cause: Cause::Request(3),
    to: FOURTH,
    text: b"INVITE sip:bob@192.0.2.7 SIP/2.0\r\n\
Via: SIP/2.0/UDP 192.0.2.9:5060;branch=z9hG4bK8c31e71e0ddbf1a0e56f5f0279990857.7.3.3\r\n\
v: SIP/2.0/UDP 192.0.2.1:5060;branch=z9hG4bKa;rport=40000;received=192.0.2.1\r\n\
Max-Forwards: 69\r\n\
f: <sip:alice@example.com>;tag=1\r\n\
t: <sip:bob@example.com>\r\n\
i: c1\r\n\
CSeq: 1 INVITE\r\n\
l: 0\r\n\
\r\n",
};

/// That it rings.
pub const FOURTH_RINGS: &[u8] = b"SIP/2.0 180 Ringing\r\n\
Via: SIP/2.0/UDP 192.0.2.9:5060;branch=z9hG4bK8c31e71e0ddbf1a0e56f5f0279990857.7.3.3\r\n\
v: SIP/2.0/UDP 192.0.2.1:5060;branch=z9hG4bKa;rport=40000;received=192.0.2.1\r\n\
f: <sip:alice@example.com>;tag=1\r\n\
t: <sip:bob@example.com>;tag=7\r\n\
i: c1\r\n\
CSeq: 1 INVITE\r\n\
l: 0\r\n\
\r\n";

/// The same as it goes up.
pub const FOURTH_RINGS_UP: Sent = Sent {
    cause: Cause::Answer,
    to: CALLER,
    text: b"SIP/2.0 180 Ringing\r\n\
v: SIP/2.0/UDP 192.0.2.1:5060;branch=z9hG4bKa;rport=40000;received=192.0.2.1\r\n\
f: <sip:alice@example.com>;tag=1\r\n\
t: <sip:bob@example.com>;tag=7\r\n\
i: c1\r\n\
CSeq: 1 INVITE\r\n\
l: 0\r\n\
\r\n",
};

/// Its CANCEL.
pub const FOURTH_CANCEL: Sent = Sent {
    cause: Cause::Cancel(3),
    to: FOURTH,
    text: b"CANCEL sip:bob@192.0.2.7 SIP/2.0\r\n\
Via: SIP/2.0/UDP 192.0.2.9:5060;branch=z9hG4bK8c31e71e0ddbf1a0e56f5f0279990857.7.3.3\r\n\
Max-Forwards: 70\r\n\
From: <sip:alice@example.com>;tag=1\r\n\
To: <sip:bob@example.com>\r\n\
Call-ID: c1\r\n\
CSeq: 1 CANCEL\r\n\
Content-Length: 0\r\n\
\r\n",
};

/// Its 487.
pub const FOURTH_TERMINATED: &[u8] = b"SIP/2.0 487 Request Terminated\r\n\
Via: SIP/2.0/UDP 192.0.2.9:5060;branch=z9hG4bK8c31e71e0ddbf1a0e56f5f0279990857.7.3.3\r\n\
v: SIP/2.0/UDP 192.0.2.1:5060;branch=z9hG4bKa;rport=40000;received=192.0.2.1\r\n\
f: <sip:alice@example.com>;tag=1\r\n\
t: <sip:bob@example.com>;tag=7\r\n\
i: c1\r\n\
CSeq: 1 INVITE\r\n\
l: 0\r\n\
\r\n";

/// The ACK to that.
pub const FOURTH_ACK: Sent = Sent {
    cause: Cause::Ack(3),
    to: FOURTH,
    text: b"ACK sip:bob@192.0.2.7 SIP/2.0\r\n\
Via: SIP/2.0/UDP 192.0.2.9:5060;branch=z9hG4bK8c31e71e0ddbf1a0e56f5f0279990857.7.3.3\r\n\
Max-Forwards: 70\r\n\
From: <sip:alice@example.com>;tag=1\r\n\
To: <sip:bob@example.com>;tag=7\r\n\
Call-ID: c1\r\n\
CSeq: 1 ACK\r\n\
Content-Length: 0\r\n\
\r\n",
};

// ---- the fifth target

/// The INVITE as it goes there.
pub const FIFTH_SENT: Sent = Sent {
    cause: Cause::Request(4),
    to: FIFTH,
    text: b"INVITE sip:bob@192.0.2.8 SIP/2.0\r\n\
Via: SIP/2.0/UDP 192.0.2.9:5060;branch=z9hG4bK8c31e71e0ddbf1a0e56f5f0279990857.7.3.4\r\n\
v: SIP/2.0/UDP 192.0.2.1:5060;branch=z9hG4bKa;rport=40000;received=192.0.2.1\r\n\
Max-Forwards: 69\r\n\
f: <sip:alice@example.com>;tag=1\r\n\
t: <sip:bob@example.com>\r\n\
i: c1\r\n\
CSeq: 1 INVITE\r\n\
l: 0\r\n\
\r\n",
};

/// Its 404, which says what that of the first says, so that either may go up.
pub const FIFTH_NOT_FOUND: &[u8] = b"SIP/2.0 404 Not Found\r\n\
Via: SIP/2.0/UDP 192.0.2.9:5060;branch=z9hG4bK8c31e71e0ddbf1a0e56f5f0279990857.7.3.4\r\n\
v: SIP/2.0/UDP 192.0.2.1:5060;branch=z9hG4bKa;rport=40000;received=192.0.2.1\r\n\
f: <sip:alice@example.com>;tag=1\r\n\
t: <sip:bob@example.com>;tag=9\r\n\
i: c1\r\n\
CSeq: 1 INVITE\r\n\
l: 0\r\n\
\r\n";

/// The ACK to that.
pub const FIFTH_ACK: Sent = Sent {
    cause: Cause::Ack(4),
    to: FIFTH,
    text: b"ACK sip:bob@192.0.2.8 SIP/2.0\r\n\
Via: SIP/2.0/UDP 192.0.2.9:5060;branch=z9hG4bK8c31e71e0ddbf1a0e56f5f0279990857.7.3.4\r\n\
Max-Forwards: 70\r\n\
From: <sip:alice@example.com>;tag=1\r\n\
To: <sip:bob@example.com>;tag=9\r\n\
Call-ID: c1\r\n\
CSeq: 1 ACK\r\n\
Content-Length: 0\r\n\
\r\n",
};
