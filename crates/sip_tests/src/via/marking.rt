//! Requests that are marked with where they came from, and their first Via values.
use crate::bytes::{has, is};
use crate::holds::holds;
use crate::messages::{REQUEST, SOURCE, is_written_as, message_of, request_with_via};
use crate::rows::holds_in_row;
use sip_builders::mark_received;
use sip_text::Message;
use sip_via::{ViaFault, top_via};
use std::alloc::Global;

/// The marked copy of a request.
fn marked_copy(alloc: Global, request: &Message<Global>) -> Option<Message<Global>> {
    match mark_received(alloc, request, SOURCE) {
        Ok(marked) => Some(marked),
        Err(_) => None,
    }
}

/// The request with this Via line, marked.
fn marked(alloc: Global, via: &[u8]) -> Option<Message<Global>> {
    match request_with_via(alloc, via) {
        Some(request) => marked_copy(alloc, &request),
        None => None,
    }
}

fn has_top_value(alloc: Global, via: &[u8], value: &[u8]) -> bool {
    match request_with_via(alloc, via) {
        None => false,
        Some(request) => is(top_via(&request), value),
    }
}

#[test]
fn marks_the_source(rt: HostRuntime) {
    let alloc = rt.alloc();
    holds(
        &rt,
        has_top_value(
            alloc,
            REQUEST[1],
            b"SIP/2.0/UDP 192.0.2.1:5060;branch=z9hG4bKa;rport",
        ),
        "the top Via value is the first line's",
    );
    let mut lines = REQUEST;
    lines[1] = b"v: SIP/2.0/UDP 192.0.2.1:5060;branch=z9hG4bKa;rport=40000;received=192.0.2.1";
    holds(
        &rt,
        is_written_as(alloc, marked(alloc, REQUEST[1]), &lines),
        "a marked request differs in its first Via line alone",
    );
}

/// Via lines, each with what stands in it once it is marked.
const MARKED: [(&[u8], &[u8]); 6] = [
    // The host is the source, and nothing is asked.
    (
        b"Via: SIP/2.0/UDP 192.0.2.1;branch=a",
        b"SIP/2.0/UDP 192.0.2.1;branch=a",
    ),
    (
        b"Via: SIP/2.0/UDP h;branch=a",
        b"SIP/2.0/UDP h;branch=a;received=192.0.2.1",
    ),
    // A value of `rport` stays.
    (
        b"Via: SIP/2.0/UDP 192.0.2.1;rport=7",
        b"SIP/2.0/UDP 192.0.2.1;rport=7",
    ),
    (
        b"Via: SIP/2.0/UDP 192.0.2.1 ;received=192.0.2.7",
        b"SIP/2.0/UDP 192.0.2.1",
    ),
    (
        b"Via: SIP/2.0/UDP h; rport ;x=\"a;b\",SIP/2.0/UDP i;rport",
        b"SIP/2.0/UDP h; rport=40000 ;x=\"a;b\";received=192.0.2.1,SIP/2.0/UDP i;rport",
    ),
    (
        b"Via: SIP/2.0/UDP h;RPORT;Received=x;rport",
        b"SIP/2.0/UDP h;RPORT=40000;rport=40000;received=192.0.2.1",
    ),
];

/// Whether the request with this Via line has that value in the line once it is marked.
fn is_marked_as(alloc: Global, via: &[u8], value: &[u8]) -> bool {
    match marked(alloc, via) {
        None => false,
        Some(request) => has(request.values(b"via").next(), value),
    }
}

#[test]
fn marks_each_kind_of_value(rt: HostRuntime) {
    let alloc = rt.alloc();
    for (row, (via, value)) in MARKED.iter().enumerate() {
        holds_in_row(
            &rt,
            is_marked_as(alloc, via, value),
            "a Via line is marked",
            row,
        );
    }
}

/// Whether the request with this Via line is read, but not marked, since the value is none.
fn is_refused(alloc: Global, via: &[u8]) -> bool {
    match request_with_via(alloc, via) {
        None => false,
        Some(request) => matches!(
            mark_received(alloc, &request, SOURCE),
            Err(ViaFault::BadVia)
        ),
    }
}

#[test]
fn marks_no_other_text(rt: HostRuntime) {
    let alloc = rt.alloc();
    holds(
        &rt,
        is_refused(alloc, b"Via: SIP/2.0/UDP"),
        "a line that is no Via value is a BadVia",
    );
}
