//! The request of a call that is refused, byte for byte.

/// An INVITE that may be sent no further (RFC 3261 section 16.3).
pub const INVITE_AT_ITS_END: &[u8] = b"INVITE sip:bob@example.com SIP/2.0\r\n\
v: SIP/2.0/UDP 192.0.2.1:5060;branch=z9hG4bKa;rport\r\n\
Max-Forwards: 0\r\n\
f: <sip:alice@example.com>;tag=1\r\n\
t: <sip:bob@example.com>\r\n\
i: c1\r\n\
CSeq: 1 INVITE\r\n\
l: 0\r\n\
\r\n";
