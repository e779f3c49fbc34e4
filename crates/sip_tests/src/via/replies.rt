//! Where a response goes: by the Via value of its request, and by how the request came.
use crate::holds::holds;
use crate::messages::{SOURCE, request_with_via};
use crate::rows::holds_in_row;
use sip_builders::reply_hop;
use sip_uri::{Hop, Transport};
use sip_via::{Sender, TopVia, Via, add_source, read_top, reply_hop_of};
use std::alloc::Global;

/// A Via line, how its request came, and where a response goes from there: the port and the transport.
type Reply = (&'static [u8], Transport, u16, Transport);

/// Responses to requests from port 40000.
const REPLIES: [Reply; 11] = [
    (
        b"Via: SIP/2.0/UDP h:5070;rport=40000",
        Transport::Udp,
        40_000,
        Transport::Udp,
    ),
    (
        b"Via: SIP/2.0/UDP h:5070;rport=40001",
        Transport::Udp,
        5070,
        Transport::Udp,
    ),
    (
        b"Via: SIP/2.0/UDP h:5070;rport",
        Transport::Udp,
        5070,
        Transport::Udp,
    ),
    (
        b"Via: SIP/2.0/UDP h, SIP/2.0/UDP i:5070",
        Transport::Udp,
        5060,
        Transport::Udp,
    ),
    (
        b"Via: SIP/2.0/UDP h:5071\r\nVia: SIP/2.0/UDP i:5070;rport=40000",
        Transport::Udp,
        5071,
        Transport::Udp,
    ),
    (
        b"Via: SIP/2.0/TCP h:5070;rport=40000",
        Transport::Tcp,
        40_000,
        Transport::Back(5070),
    ),
    (
        b"Via: SIP/2.0/TCP h:5070",
        Transport::Tcp,
        40_000,
        Transport::Back(5070),
    ),
    (
        b"Via: SIP/2.0/TCP h;rport=40000",
        Transport::Tcp,
        40_000,
        Transport::Back(5060),
    ),
    (
        b"Via: SIP/2.0/TCP h",
        Transport::Tcp,
        40_000,
        Transport::Back(5060),
    ),
    (
        b"Via: SIP/2.0/TCP h:5071, SIP/2.0/TCP i:5070",
        Transport::Back(5072),
        40_000,
        Transport::Back(5071),
    ),
    (
        b"Via: SIP/2.0/UDP h:5070",
        Transport::Tcp,
        40_000,
        Transport::Back(5070),
    ),
];

/// A hop at the source's address.
fn at_source(port: u16, transport: Transport) -> Hop {
    let addr = SOURCE.addr;
    Hop {
        addr,
        port,
        transport,
    }
}

/// Where a response goes to the request with this Via line, which came so.
fn reply_with(alloc: Global, via: &[u8], came: Transport) -> Option<Hop> {
    match request_with_via(alloc, via) {
        Some(request) => Some(reply_hop_of(&request, at_source(SOURCE.port, came))),
        None => None,
    }
}

#[test]
fn replies_by_the_top_value(rt: HostRuntime) {
    let alloc = rt.alloc();
    for (row, (via, came, port, transport)) in REPLIES.iter().enumerate() {
        holds_in_row(
            &rt,
            reply_with(alloc, via, *came) == Some(at_source(*port, *transport)),
            "where a response goes",
            row,
        );
    }
}

/// Whether the response to a request with this Via value, which came over TCP, goes back by the connection,
/// and else to this port.
fn goes_back(alloc: Global, value: &[u8], sent_by: u16) -> bool {
    let source = at_source(SOURCE.port, Transport::Tcp);
    match Via::read(alloc, value) {
        Ok(via) => reply_hop(&via, source) == at_source(SOURCE.port, Transport::Back(sent_by)),
        Err(_) => false,
    }
}

#[test]
fn replies_by_the_connection(rt: HostRuntime) {
    let well = goes_back(rt.alloc(), b"SIP/2.0/TCP h:5070;rport=40000", 5070);
    holds(&rt, well, "a response to a request over TCP");
}

/// Whether what is read of a request that came so tells where the response goes as the request says it once it is marked.
fn tells_the_reply(alloc: Global, via: &[u8], source: Hop) -> bool {
    let Some(request) = request_with_via(alloc, via) else {
        return false;
    };
    let Ok(top) = TopVia::of(&alloc, &request, source) else {
        return false;
    };
    match add_source(request, source, &top) {
        Ok(marked) => reply_hop_of(&marked, source) == top.reply_hop(source),
        Err(_) => false,
    }
}

#[test]
fn what_was_read_tells_the_reply(rt: HostRuntime) {
    let alloc = rt.alloc();
    for (row, (via, came, _, _)) in REPLIES.iter().enumerate() {
        holds_in_row(
            &rt,
            tells_the_reply(alloc, via, at_source(SOURCE.port, *came)),
            "where a response goes, by the value as it came",
            row,
        );
    }
}

/// Whether a sender was read, and it has this host.
fn has_host(sender: Option<Sender<'_>>, host: &[u8]) -> bool {
    match sender {
        Some(sender) => sender.host == host,
        None => false,
    }
}

/// Whether the top Via value of the request with this line is read with that host, has the cookie, and sends a response over UDP there.
fn reads_top(alloc: Global, via: &[u8], host: &[u8], port: u16) -> bool {
    let Some(request) = request_with_via(alloc, via) else {
        return false;
    };
    let source = at_source(SOURCE.port, Transport::Udp);
    match read_top(&alloc, &request, source) {
        Ok((top, sender)) => {
            top.has_cookie()
                && top.reply_hop(source) == at_source(port, Transport::Udp)
                && has_host(sender, host)
        }
        Err(_) => false,
    }
}

#[test]
fn a_top_value_is_read_once(rt: HostRuntime) {
    let alloc = rt.alloc();
    let asks = b"Via: SIP/2.0/UDP h:5070;rport;branch=z9hG4bKa, SIP/2.0/UDP i";
    let names = b"Via: SIP/2.0/UDP h:5070;branch=z9hG4bKa";
    holds(
        &rt,
        reads_top(alloc, asks, b"h", SOURCE.port) && reads_top(alloc, names, b"h", 5070),
        "its host, its branch and where the response goes",
    );
}
