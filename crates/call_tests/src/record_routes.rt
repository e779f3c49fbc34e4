//! The Record-Route line of a request that came over one transport and goes on over another (RFC 5658).
use crate::holds::holds;
use crate::requests::{Change, SOURCE, request_with, setup_of};
use call_model::Datagram;
use fork_call::{OpeningRequest, is_openable, open_to, prepare};
use proxy_config::{BoundContact, Setup};
use sip_uri::{Hop, Transport};
use std::alloc::Global;

/// A setup without a location, of a proxy that stays on the path of dialogs.
const SETUP: &[u8] = b"own 192.0.2.9 5060\ninstance 7\ndomain example.com\n";

/// An INVITE.
const INVITE: [Change; 2] = [
    (0, b"INVITE sip:bob@example.com SIP/2.0"),
    (6, b"CSeq: 1 INVITE"),
];

/// The same, that came by a connection.
const STREAMED: [Change; 3] = [
    (0, b"INVITE sip:bob@example.com SIP/2.0"),
    (6, b"CSeq: 1 INVITE"),
    (1, b"Via: SIP/2.0/TCP 192.0.2.1:5060;branch=z9hG4bKa;rport"),
];

/// By a connection, from where the request came by default.
const BY_STREAM: Hop = Hop {
    addr: [192, 0, 2, 1],
    port: 40_000,
    transport: Transport::Tcp,
};

/// A telephone that is reached over UDP, and one that is reached by a connection.
const BY_UDP: Hop = Hop {
    addr: [192, 0, 2, 4],
    port: 5060,
    transport: Transport::Udp,
};

const CONNECTED: Hop = Hop {
    addr: [192, 0, 2, 4],
    port: 33_000,
    transport: Transport::Back(5060),
};

/// The setup for a request to bob, whose telephone is reached by this hop.
fn setup_for(alloc: Global, hop: Hop) -> Option<Setup<Global>> {
    let setup = setup_of(alloc, SETUP)?.recording().with_streams();
    let contact = BoundContact::new(b"sip:bob@10.0.0.2", b"bob@10.0.0.2", 500, hop);
    setup.at_moment(alloc, b"bob", &[contact]).ok()
}

/// The request with these changes as it goes to the telephone, where it came from this hop.
fn sent(alloc: Global, setup: &Setup<Global>, changes: &[Change], source: Hop) -> Option<Datagram> {
    let request = request_with(alloc, changes)?;
    if !is_openable(&request) {
        return None;
    }
    let opening = OpeningRequest {
        alloc,
        request,
        source,
        now: 0,
    };
    let Ok(prepared) = prepare(setup, opening) else {
        return None;
    };
    let Ok(mut state) = open_to(setup, None, prepared) else {
        return None;
    };
    if state.book().context().count() == 0 {
        return None;
    }
    state.send_request(0, 0).ok()
}

/// Whether this stands in a text.
fn stands_in(text: &[u8], part: &[u8]) -> bool {
    let len = part.len();
    len > 0 && text.windows(len).any(|found| found == part)
}

/// Whether the request that came from there has this line as it goes to a telephone that is reached by this hop.
fn has(alloc: Global, changes: &[Change], source: Hop, hop: Hop, line: &[u8]) -> Option<bool> {
    let setup = setup_for(alloc, hop)?;
    let sent = sent(alloc, &setup, changes, source)?;
    Some(sent.to == hop && stands_in(&sent.bytes, line))
}

#[test]
fn one_value_stands_where_the_transports_are_one(rt: HostRuntime) {
    let alloc = rt.alloc();
    let line = b"\r\nRecord-Route: <sip:192.0.2.9:5060;lr>\r\n";
    let is = has(alloc, &INVITE, SOURCE, BY_UDP, line) == Some(true);
    holds(&rt, is, "over UDP");
    let line = b"\r\nRecord-Route: <sip:192.0.2.9:5060;transport=tcp;lr>\r\n";
    let is = has(alloc, &STREAMED, BY_STREAM, CONNECTED, line) == Some(true);
    holds(&rt, is, "over TCP");
}

#[test]
fn two_values_stand_where_the_transports_differ(rt: HostRuntime) {
    let alloc = rt.alloc();
    let line =
        b"\r\nRecord-Route: <sip:192.0.2.9:5060;transport=tcp;lr>, <sip:192.0.2.9:5060;lr>\r\n";
    let is = has(alloc, &INVITE, SOURCE, CONNECTED, line) == Some(true);
    holds(&rt, is, "from UDP to TCP");
    let line =
        b"\r\nRecord-Route: <sip:192.0.2.9:5060;lr>, <sip:192.0.2.9:5060;transport=tcp;lr>\r\n";
    let is = has(alloc, &STREAMED, BY_STREAM, BY_UDP, line) == Some(true);
    holds(&rt, is, "from TCP to UDP");
}
