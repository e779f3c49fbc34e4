//! The messages of two calls whose target answers 302, byte for byte: of one for the domain, and of one for a URI that the proxy is not
//! responsible for (RFC 3261 section 16.5).
use crate::one_target::CALLER;
use crate::sent::Sent;
use fork_call::Cause;
use sip_uri::{Hop, Transport};

// ---- an INVITE for the domain

/// The 302 of the target.
pub const MOVED: &[u8] = b"SIP/2.0 302 Moved Temporarily\r\n\
Via: SIP/2.0/UDP 192.0.2.9:5060;branch=z9hG4bK8c31e71e0ddbf1a0e56f5f0279990857.7.3.0\r\n\
v: SIP/2.0/UDP 192.0.2.1:5060;branch=z9hG4bKa;rport=40000;received=192.0.2.1\r\n\
f: <sip:alice@example.com>;tag=1\r\n\
t: <sip:bob@example.com>;tag=9\r\n\
i: c1\r\n\
CSeq: 1 INVITE\r\n\
Contact: <sip:dave@192.0.2.7>;q=0.3\r\n\
Contact: <sip:dave@192.0.2.8:5070>\r\n\
l: 0\r\n\
\r\n";

/// Where the contact of the higher q leads.
pub const CONTACT: Hop = Hop {
    addr: [192, 0, 2, 8],
    port: 5070,
    transport: Transport::Udp,
};

/// The INVITE as it goes there.
pub const CONTACT_SENT: Sent = Sent {
    cause: Cause::Request(1),
    to: CONTACT,
    text: b"INVITE sip:dave@192.0.2.8:5070 SIP/2.0\r\n\
Via: SIP/2.0/UDP 192.0.2.9:5060;branch=z9hG4bK8c31e71e0ddbf1a0e56f5f0279990857.7.3.1\r\n\
v: SIP/2.0/UDP 192.0.2.1:5060;branch=z9hG4bKa;rport=40000;received=192.0.2.1\r\n\
Max-Forwards: 69\r\n\
f: <sip:alice@example.com>;tag=1\r\n\
t: <sip:bob@example.com>\r\n\
i: c1\r\n\
CSeq: 1 INVITE\r\n\
l: 0\r\n\
\r\n",
};

// ---- an INVITE for another URI

/// The request.
pub const OTHER_INVITE: &[u8] = b"INVITE sip:carol@198.51.100.7 SIP/2.0\r\n\
v: SIP/2.0/UDP 192.0.2.1:5060;branch=z9hG4bKa;rport\r\n\
Max-Forwards: 70\r\n\
f: <sip:alice@example.com>;tag=1\r\n\
t: <sip:carol@198.51.100.7>\r\n\
i: c1\r\n\
CSeq: 1 INVITE\r\n\
l: 0\r\n\
\r\n";

/// The 100 to it.
pub const OTHER_TRYING: Sent = Sent {
    cause: Cause::Answer,
    to: CALLER,
    text: b"SIP/2.0 100 Trying\r\n\
v: SIP/2.0/UDP 192.0.2.1:5060;branch=z9hG4bKa;rport=40000;received=192.0.2.1\r\n\
f: <sip:alice@example.com>;tag=1\r\n\
t: <sip:carol@198.51.100.7>\r\n\
i: c1\r\n\
CSeq: 1 INVITE\r\n\
Content-Length: 0\r\n\
\r\n",
};

/// Where it goes.
pub const OTHER: Hop = Hop {
    addr: [198, 51, 100, 7],
    port: 5060,
    transport: Transport::Udp,
};

/// The request as it goes there.
pub const OTHER_SENT: Sent = Sent {
    cause: Cause::Request(0),
    to: OTHER,
    text: b"INVITE sip:carol@198.51.100.7 SIP/2.0\r\n\
Via: SIP/2.0/UDP 192.0.2.9:5060;branch=z9hG4bK481874b252d79036b982196cfdf6fd8f.7.3.0\r\n\
v: SIP/2.0/UDP 192.0.2.1:5060;branch=z9hG4bKa;rport=40000;received=192.0.2.1\r\n\
Max-Forwards: 69\r\n\
f: <sip:alice@example.com>;tag=1\r\n\
t: <sip:carol@198.51.100.7>\r\n\
i: c1\r\n\
CSeq: 1 INVITE\r\n\
l: 0\r\n\
\r\n",
};

/// The same 302.
pub const OTHER_MOVED: &[u8] = b"SIP/2.0 302 Moved Temporarily\r\n\
Via: SIP/2.0/UDP 192.0.2.9:5060;branch=z9hG4bK481874b252d79036b982196cfdf6fd8f.7.3.0\r\n\
v: SIP/2.0/UDP 192.0.2.1:5060;branch=z9hG4bKa;rport=40000;received=192.0.2.1\r\n\
f: <sip:alice@example.com>;tag=1\r\n\
t: <sip:carol@198.51.100.7>;tag=9\r\n\
i: c1\r\n\
CSeq: 1 INVITE\r\n\
Contact: <sip:dave@192.0.2.7>;q=0.3\r\n\
Contact: <sip:dave@192.0.2.8:5070>\r\n\
l: 0\r\n\
\r\n";

/// The 302 as it goes up: as it came, but for the proxy's own Via line.
pub const OTHER_MOVED_UP: Sent = Sent {
    cause: Cause::Answer,
    to: CALLER,
    text: b"SIP/2.0 302 Moved Temporarily\r\n\
v: SIP/2.0/UDP 192.0.2.1:5060;branch=z9hG4bKa;rport=40000;received=192.0.2.1\r\n\
f: <sip:alice@example.com>;tag=1\r\n\
t: <sip:carol@198.51.100.7>;tag=9\r\n\
i: c1\r\n\
CSeq: 1 INVITE\r\n\
Contact: <sip:dave@192.0.2.7>;q=0.3\r\n\
Contact: <sip:dave@192.0.2.8:5070>\r\n\
l: 0\r\n\
\r\n",
};

/// The ACK to it.
pub const OTHER_ACK_SENT: Sent = Sent {
    cause: Cause::Ack(0),
    to: OTHER,
    text: b"ACK sip:carol@198.51.100.7 SIP/2.0\r\n\
Via: SIP/2.0/UDP 192.0.2.9:5060;branch=z9hG4bK481874b252d79036b982196cfdf6fd8f.7.3.0\r\n\
Max-Forwards: 70\r\n\
From: <sip:alice@example.com>;tag=1\r\n\
To: <sip:carol@198.51.100.7>;tag=9\r\n\
Call-ID: c1\r\n\
CSeq: 1 ACK\r\n\
Content-Length: 0\r\n\
\r\n",
};
