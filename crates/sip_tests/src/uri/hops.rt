//! Where a request to a URI is sent.
use crate::bytes::holds_of;
use sip_uri::{Hop, SipUri, Transport, read_hop};
use std::alloc::Global;

/// Where a request to 10.0.0.255 goes that is sent over UDP.
const OVER_UDP: Hop = Hop {
    addr: [10, 0, 0, 255],
    port: 5060,
    transport: Transport::Udp,
};

/// Where one goes that is sent over TCP.
const OVER_TCP: Hop = Hop {
    addr: [10, 0, 0, 255],
    port: 5060,
    transport: Transport::Tcp,
};

/// URIs, and the next hop of each.
const HOPS: [(&[u8], Option<Hop>); 17] = [
    (b"sip:10.0.0.255", Some(OVER_UDP)),
    (b"sip:bob@10.0.0.255;lr", Some(OVER_UDP)),
    (b"SIP:10.0.0.255:05060", Some(OVER_UDP)),
    (b"sip:10.000.0.255;Transport=UDP;x", Some(OVER_UDP)),
    (b"sip:10.0.0.255;transport=tcp", Some(OVER_TCP)),
    (b"sip:bob@10.0.0.255:5060;x;TRANSPORT=tCp", Some(OVER_TCP)),
    (
        b"sip:10.0.0.255;transport=TCP;lr;transport=tcp",
        Some(OVER_TCP),
    ),
    (b"sip:10.0.0.255;transport=udp;transport=tcp", None),
    (b"sip:10.0.0.255;transport=tcp;transport=udp", None),
    (b"sip:10.0.0.255;transport=tls", None),
    (b"sip:10.0.0.255;transport=tcp;transport=sctp", None),
    (b"sip:10.0.0.255;transport", None),
    (b"sip:10.0.0.1;maddr=10.0.0.2", None),
    (b"sip:10.0.0.1;transport=tcp;maddr=10.0.0.2", None),
    (b"sip:10.0.0.256", None),
    (b"sip:10.0.0.0001", None),
    (b"sip:h.example;transport=tcp", None),
];

/// Texts that are not IPv4 addresses of four numbers, or no SIP URIs: requests to them are sent nowhere.
const NO_HOPS: [&[u8]; 4] = [
    b"sip:10.0.0",
    b"sip:10.0.0.1.2",
    b"sip:10.0.0.255;",
    b"sips:10.0.0.255",
];

/// Whether a text is a URI, and a request to it goes to this hop, or to none.
fn has_hop(alloc: Global, text: &[u8], hop: Option<Hop>) -> bool {
    match SipUri::read(alloc, text) {
        Ok(uri) => uri.next_hop() == hop,
        Err(_) => false,
    }
}

#[test]
fn finds_the_next_hop(rt: HostRuntime) {
    for (text, hop) in HOPS {
        let found = has_hop(rt.alloc(), text, hop);
        holds_of(&rt, found, "the next hop of a URI", text);
        holds_of(&rt, read_hop(text) == hop, "the next hop", text);
    }
    for text in NO_HOPS {
        holds_of(&rt, read_hop(text).is_none(), "no next hop", text);
    }
}

#[test]
fn a_hop_is_made_over_udp(rt: HostRuntime) {
    let hop = Hop::over_udp([10, 0, 0, 255], 5060);
    holds_of(&rt, hop == OVER_UDP, "the hop over UDP", b"10.0.0.255");
}
