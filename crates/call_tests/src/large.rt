//! Requests that are too large for datagrams go over connections, where a setup says so (RFC 3261 section 18.1.1).
use crate::holds::holds;
use crate::requests::{SETUP, opened, read_message, sent_to, setup_of};
use call_messages::lines::{REQUEST, text_of};
use proxy_config::Setup;
use sip_uri::Transport;
use std::alloc::Global;

/// How many bytes of a Subject make the request one of 1,300 bytes as it goes on to its Request-URI over UDP.
const FITS: usize = 978;

/// The text of the request with a Subject of so many bytes.
fn text_with(alloc: Global, count: usize) -> Option<Vec<u8>> {
    let mut text = text_of(alloc, &REQUEST[..8])?;
    text.extend_from_slice(b"Subject: ").ok()?;
    for _ in 0..count {
        text.push(b'x').ok()?;
    }
    text.extend_from_slice(b"\r\n\r\n").ok()?;
    Some(text)
}

/// By which transport the request with such a Subject goes to the location of its user, and whether its Via value says TCP.
fn goes_by(alloc: Global, setup: &Setup<Global>, count: usize) -> Option<(Transport, bool)> {
    let request = read_message(alloc, &text_with(alloc, count)?)?;
    let mut state = match opened(alloc, setup, request)? {
        Ok(state) => state,
        Err(_) => return None,
    };
    let sent = sent_to(&mut state, 0)?;
    let front = b"OPTIONS sip:bob@192.0.2.4 SIP/2.0\r\nVia: SIP/2.0/TCP ".as_slice();
    Some((sent.to.transport, sent.bytes.starts_with(front)))
}

#[test]
fn a_large_request_goes_over_tcp_where_a_setup_says_so(rt: HostRuntime) {
    let alloc = rt.alloc();
    let Some(setup) = setup_of(alloc, SETUP) else {
        return holds(&rt, false, "a setup");
    };
    let by_udp = Some((Transport::Udp, false));
    let by_tcp = Some((Transport::Tcp, true));
    holds(&rt, !setup.is_large_by_streams(), "as it is read");
    let setup = setup.with_streams();
    let is = goes_by(alloc, &setup, FITS + 1) == by_udp;
    holds(&rt, is, "a large one where nothing is said");
    let setup = setup.with_large_by_streams();
    holds(&rt, setup.is_large_by_streams(), "it is said");
    let is = goes_by(alloc, &setup, FITS) == by_udp;
    holds(&rt, is, "one of 1,300 bytes");
    let is = goes_by(alloc, &setup, FITS + 1) == by_tcp;
    holds(&rt, is, "one of a byte more");
}

#[test]
fn a_large_request_goes_over_udp_without_connections(rt: HostRuntime) {
    let alloc = rt.alloc();
    let Some(setup) = setup_of(alloc, SETUP) else {
        return holds(&rt, false, "a setup");
    };
    let setup = setup.with_large_by_streams();
    holds(
        &rt,
        goes_by(alloc, &setup, FITS + 1) == Some((Transport::Udp, false)),
        "a large one",
    );
}
