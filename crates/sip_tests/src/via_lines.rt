//! Header lines by the place of the first of a name, and what a message says of its start line and its Via values.
use crate::bytes::is;
use crate::holds::holds;
use crate::messages::read;
use sip_branch::BranchName;
use sip_route::{headers_around, request_uri};
use sip_text::HeaderLines;
use sip_uri::Transport;
use sip_via::{Own, first_is, has_second_via, header_index, own_via, top_and_second, top_via};
use std::alloc::Global;

const REQUEST: &[u8] =
    b"OPTIONS sip:bob@example.com SIP/2.0\r\nv: SIP/2.0/UDP 192.0.2.1\r\nRoute: <sip:a>\r\nf: <sip:alice@example.com>;tag=1\r\nt: <sip:bob@example.com>\r\ni: c1\r\nCSeq: 1 OPTIONS\r\nl: 2\r\n\r\nhi";

const TWICE: &[u8] =
    b"OPTIONS sip:bob@example.com SIP/2.0\r\nv: SIP/2.0/UDP 192.0.2.1, SIP/2.0/UDP 192.0.2.2\r\nf: <sip:alice@example.com>;tag=1\r\nt: <sip:bob@example.com>\r\ni: c1\r\nCSeq: 1 OPTIONS\r\n\r\n";

/// The place of that name among the lines behind the Route line.
fn place_behind_route(headers: HeaderLines<'_>, name: &[u8]) -> Option<usize> {
    match headers_around(headers, b"route") {
        Some((_, behind)) => Some(header_index(behind, name)),
        None => None,
    }
}

/// The place of that name among the lines of the request, or those behind its Route line.
fn place_in(alloc: Global, name: &[u8], whole: bool) -> Option<usize> {
    match read(alloc, REQUEST) {
        Some(request) if whole => Some(header_index(request.headers(), name)),
        Some(request) => place_behind_route(request.headers(), name),
        None => None,
    }
}

/// Whether there are lines, and they begin with that name; nothing where there are none.
fn any_begin(lines: HeaderLines<'_>, name: &[u8]) -> Option<bool> {
    if lines.is_empty() {
        None
    } else {
        Some(first_is(lines, name))
    }
}

/// Whether the lines of the request begin with that name.
fn begins(alloc: Global, name: &[u8]) -> Option<bool> {
    match read(alloc, REQUEST) {
        Some(request) => any_begin(request.headers(), name),
        None => None,
    }
}

/// How many lines of the request stand behind the first of that name.
fn lines_behind(alloc: Global, name: &[u8]) -> Option<usize> {
    match read(alloc, REQUEST) {
        Some(request) => match headers_around(request.headers(), name) {
            Some((_, after)) => Some(after.len()),
            None => None,
        },
        None => None,
    }
}

/// Whether the proxy's own Via value over this transport is that text.
fn is_own_via(alloc: Global, transport: Transport, text: &[u8]) -> bool {
    let own = Own::over_udp([192, 0, 2, 9], 5070).over(transport);
    let branch = BranchName {
        key: [171; 16],
        instance: 7,
        context: 8,
        target: 9,
    };
    match own_via(alloc, own, &branch) {
        Ok(value) => is(&value, text),
        Err(_) => false,
    }
}

fn has_second(alloc: Global, text: &[u8]) -> Option<bool> {
    match read(alloc, text) {
        Some(request) => {
            let (top, second) = top_and_second(&request);
            if top == top_via(&request) && second == has_second_via(&request) {
                Some(second)
            } else {
                None
            }
        }
        None => None,
    }
}

/// Whether that is the Request-URI.
fn is_request_uri(alloc: Global, uri: &[u8]) -> bool {
    match read(alloc, REQUEST) {
        Some(request) => is(request_uri(&request), uri),
        None => false,
    }
}

#[test]
fn header_lines_are_found(rt: HostRuntime) {
    let alloc = rt.alloc();
    holds(
        &rt,
        place_in(alloc, b"from", true) == Some(2),
        "From stands in its compact form",
    );
    holds(
        &rt,
        place_in(alloc, b"from", false) == Some(0),
        "it stands right behind the Route line",
    );
    holds(&rt, begins(alloc, b"via") == Some(true), "Via stands first");
    holds(
        &rt,
        begins(alloc, b"route") == Some(false),
        "Route does not stand first",
    );
    holds(
        &rt,
        lines_behind(alloc, b"from") == Some(4),
        "four lines stand behind From",
    );
}

#[test]
fn messages_are_looked_at(rt: HostRuntime) {
    let alloc = rt.alloc();
    holds(
        &rt,
        is_own_via(
            alloc,
            Transport::Udp,
            b"SIP/2.0/UDP 192.0.2.9:5070;branch=z9hG4bKabababababababababababababababab.7.8.9",
        ),
        "the own Via value has the address, the port and the branch",
    );
    for transport in [Transport::Tcp, Transport::Back(5080)] {
        holds(
            &rt,
            is_own_via(
                alloc,
                transport,
                b"SIP/2.0/TCP 192.0.2.9:5070;branch=z9hG4bKabababababababababababababababab.7.8.9",
            ),
            "the own Via value over TCP",
        );
    }
    holds(
        &rt,
        has_second(alloc, REQUEST) == Some(false),
        "one Via value is no two",
    );
    holds(
        &rt,
        has_second(alloc, TWICE) == Some(true),
        "a second Via value stands in the same line",
    );
    holds(
        &rt,
        is_request_uri(alloc, b"sip:bob@example.com"),
        "the Request-URI is that of the start line",
    );
}
