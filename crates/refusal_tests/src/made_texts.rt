//! Messages and texts that are made of others, byte for byte.

/// The request with its source, which its Via value asks for (RFC 3581 section 4).
pub const MARKED: &[u8] = b"OPTIONS sip:bob@example.com SIP/2.0\r\n\
v: SIP/2.0/UDP 192.0.2.1:5060;branch=z9hG4bKa;rport=40000;received=192.0.2.1\r\nMax-Forwards: 70\r\n\
f: <sip:alice@example.com>;tag=1\r\nt: <sip:bob@example.com>\r\ni: c1\r\nCSeq: 1 OPTIONS\r\nl: 0\r\n\r\n";

/// The request with a long Via line, with its source in that line.
pub const LONG_MARKED: &[u8] = b"OPTIONS sip:bob@example.com SIP/2.0\r\n\
v: SIP/2.0/UDP 192.0.2.1:5060;branch=z9hG4bKa;x=\
aaaaaaaaaaaaaaaaaaaaaaaaaaaaaaaaaaaaaaaaaaaaaaaaaaaaaaaaaaaaaaaa\
aaaaaaaaaaaaaaaaaaaaaaaaaaaaaaaaaaaaaaaaaaaaaaaaaaaaaaaaaaaaaaaa\
aaaaaaaaaaaaaaaaaaaaaaaaaaaaaaaaaaaaaaaaaaaaaaaaaaaaaaaaaaaaaaaa\
aaaaaaaaaaaaaaaaaaaaaaaaaaaaaaaaaaaaaaaaaaaaaaaaaaaaaaaaaaaaaaaa\
;rport=40000;received=192.0.2.1\r\nMax-Forwards: 70\r\n\
f: <sip:alice@example.com>;tag=1\r\nt: <sip:bob@example.com>\r\ni: c1\r\nCSeq: 1 OPTIONS\r\nl: 0\r\n\r\n";

/// The request without the Route of the proxy's own (RFC 3261 section 16.4).
pub const STRIPPED: &[u8] = b"OPTIONS sip:bob@example.com SIP/2.0\r\n\
v: SIP/2.0/UDP 192.0.2.1:5060;branch=z9hG4bKa;rport\r\n\
f: <sip:alice@example.com>;tag=1\r\nt: <sip:bob@example.com>\r\ni: c1\r\nCSeq: 1 OPTIONS\r\nl: 0\r\n\r\n";

/// The request as it goes to the target (section 16.6).
pub const FORWARDED: &[u8] = b"OPTIONS sip:bob@192.0.2.4:5062;transport=udp SIP/2.0\r\n\
Via: SIP/2.0/UDP 192.0.2.9:5060;branch=z9hG4bK00000000000000000000000000000000.7.3.0\r\n\
v: SIP/2.0/UDP 192.0.2.1:5060;branch=z9hG4bKa;rport\r\nMax-Forwards: 69\r\n\
f: <sip:alice@example.com>;tag=1\r\nt: <sip:bob@example.com>\r\ni: c1\r\nCSeq: 1 OPTIONS\r\nl: 0\r\n\r\n";

/// The ACK and the CANCEL on the way of that (sections 17.1.1.3 and 9.1).
pub const FORWARDED_ACK: &[u8] = b"ACK sip:bob@192.0.2.4:5062;transport=udp SIP/2.0\r\n\
Via: SIP/2.0/UDP 192.0.2.9:5060;branch=z9hG4bK00000000000000000000000000000000.7.3.0\r\nMax-Forwards: 70\r\n\
From: <sip:alice@example.com>;tag=1\r\nTo: <sip:bob@example.com>;tag=2\r\nCall-ID: c1\r\nCSeq: 1 ACK\r\n\
Content-Length: 0\r\n\r\n";

pub const FORWARDED_CANCEL: &[u8] = b"CANCEL sip:bob@192.0.2.4:5062;transport=udp SIP/2.0\r\n\
Via: SIP/2.0/UDP 192.0.2.9:5060;branch=z9hG4bK00000000000000000000000000000000.7.3.0\r\nMax-Forwards: 70\r\n\
From: <sip:alice@example.com>;tag=1\r\nTo: <sip:bob@example.com>\r\nCall-ID: c1\r\nCSeq: 1 CANCEL\r\n\
Content-Length: 0\r\n\r\n";

/// The ACK and the CANCEL on the way of the request itself.
pub const ACK: &[u8] = b"ACK sip:bob@example.com SIP/2.0\r\n\
Via: SIP/2.0/UDP 192.0.2.1:5060;branch=z9hG4bKa;rport\r\nMax-Forwards: 70\r\n\
From: <sip:alice@example.com>;tag=1\r\nTo: <sip:bob@example.com>;tag=2\r\nCall-ID: c1\r\nCSeq: 1 ACK\r\n\
Content-Length: 0\r\n\r\n";

pub const CANCEL: &[u8] = b"CANCEL sip:bob@example.com SIP/2.0\r\n\
Via: SIP/2.0/UDP 192.0.2.1:5060;branch=z9hG4bKa;rport\r\nMax-Forwards: 70\r\n\
From: <sip:alice@example.com>;tag=1\r\nTo: <sip:bob@example.com>\r\nCall-ID: c1\r\nCSeq: 1 CANCEL\r\n\
Content-Length: 0\r\n\r\n";

/// The response as it goes up (section 16.7), and so with another contact in the place of its own.
pub const UPWARD: &[u8] = b"SIP/2.0 302 Moved Temporarily\r\n\
v: SIP/2.0/UDP 192.0.2.1:5060;branch=z9hG4bKa\r\nm: <sip:b@192.0.2.5>\r\nf: <sip:alice@example.com>;tag=1\r\n\
t: <sip:bob@example.com>;tag=2\r\ni: c1\r\nCSeq: 1 OPTIONS\r\nl: 0\r\n\r\n";

pub const UPWARD_WITH_ANOTHER: &[u8] = b"SIP/2.0 302 Moved Temporarily\r\n\
v: SIP/2.0/UDP 192.0.2.1:5060;branch=z9hG4bKa\r\nContact: <sip:d@192.0.2.7>\r\nf: <sip:alice@example.com>;tag=1\r\n\
t: <sip:bob@example.com>;tag=2\r\ni: c1\r\nCSeq: 1 OPTIONS\r\nl: 0\r\n\r\n";

/// A 100 and a 400 of the proxy's own to the request (section 8.2.6).
pub const TRYING: &[u8] = b"SIP/2.0 100 Trying\r\n\
v: SIP/2.0/UDP 192.0.2.1:5060;branch=z9hG4bKa;rport\r\nf: <sip:alice@example.com>;tag=1\r\n\
t: <sip:bob@example.com>\r\ni: c1\r\nCSeq: 1 OPTIONS\r\nContent-Length: 0\r\n\r\n";

pub const BAD_REQUEST: &[u8] = b"SIP/2.0 400 Bad Request\r\n\
v: SIP/2.0/UDP 192.0.2.1:5060;branch=z9hG4bKa;rport\r\nf: <sip:alice@example.com>;tag=1\r\n\
t: <sip:bob@example.com>;tag=fpa54465d48fc852fc\r\ni: c1\r\nCSeq: 1 OPTIONS\r\nContent-Length: 0\r\n\r\n";

/// The target as it stands in a request (section 19.1.1), and what tells it from others (section 16.5).
pub const REQUEST_URI: &[u8] = b"sip:bob@192.0.2.4:5062;transport=udp";

pub const TARGET_KEY: &[u8] = b"bob@192.0.2.4:5062;transport=udp";

/// The branch of the request as it goes to the target.
pub const BRANCH_TEXT: &[u8] = b"z9hG4bK00000000000000000000000000000000.7.3.0";

/// The value of the proxy's own Record-Route line (section 20.30).
pub const OWN_ROUTE: &[u8] = b"<sip:192.0.2.9:5060;lr>";

/// What tells the transaction of the request from others (section 17.2.3).
pub const REQUEST_KEY: &[u8] = b"192.0.2.1:5060 z9hG4bKa";
