//! Requests that open a dialog, and the URI by which the proxy stays on its path.
use crate::bytes::is;
use crate::holds::holds;
use crate::messages::{OWN, REQUEST, message_of};
use crate::rows::holds_in_row;
use sip_build::{opens_dialog, write_own_route};
use sip_via::Own;
use std::alloc::Global;

/// The first line, the CSeq line and the To line of a message, and whether it opens a dialog.
const ROWS: [(&[u8], &[u8], &[u8], bool); 9] = [
    (
        b"INVITE sip:bob@example.com SIP/2.0",
        b"CSeq: 1 INVITE",
        b"t: <sip:bob@example.com>",
        true,
    ),
    (
        b"SUBSCRIBE sip:bob@example.com SIP/2.0",
        b"CSeq: 1 SUBSCRIBE",
        b"t: <sip:bob@example.com>",
        true,
    ),
    (
        b"REFER sip:bob@example.com SIP/2.0",
        b"CSeq: 1 REFER",
        b"t: <sip:bob@example.com>",
        true,
    ),
    (
        b"INVITE sip:bob@example.com SIP/2.0",
        b"CSeq: 1 INVITE",
        b"t: <sip:bob@example.com>;tag=9",
        false,
    ),
    (
        b"SUBSCRIBE sip:bob@example.com SIP/2.0",
        b"CSeq: 1 SUBSCRIBE",
        b"t: <sip:bob@example.com>;tag=9",
        false,
    ),
    (
        b"REFER sip:bob@example.com SIP/2.0",
        b"CSeq: 1 REFER",
        b"t: <sip:bob@example.com>;tag=9",
        false,
    ),
    (
        b"OPTIONS sip:bob@example.com SIP/2.0",
        b"CSeq: 1 OPTIONS",
        b"t: <sip:bob@example.com>",
        false,
    ),
    (
        b"invite sip:bob@example.com SIP/2.0",
        b"CSeq: 1 invite",
        b"t: <sip:bob@example.com>",
        false,
    ),
    (
        b"SIP/2.0 408 Request Timeout",
        b"CSeq: 1 INVITE",
        b"t: <sip:bob@example.com>",
        false,
    ),
];

/// Whether the message with these lines opens a dialog; nothing where it is none.
fn opens(
    alloc: Global,
    start: &'static [u8],
    cseq: &'static [u8],
    to: &'static [u8],
) -> Option<bool> {
    let mut lines = REQUEST;
    lines[0] = start;
    lines[4] = to;
    lines[6] = cseq;
    match message_of(alloc, &lines) {
        Some(message) => Some(opens_dialog(&message)),
        None => None,
    }
}

#[test]
fn three_methods_open_a_dialog(rt: HostRuntime) {
    let alloc = rt.alloc();
    for (row, (start, cseq, to, opening)) in ROWS.iter().enumerate() {
        holds_in_row(
            &rt,
            opens(alloc, start, cseq, to) == Some(*opening),
            "a request that opens a dialog",
            row,
        );
    }
}

/// Whether the URI of that address is this text.
fn is_own_route(alloc: Global, own: Own, text: &[u8]) -> bool {
    let mut out = Vec::new(alloc);
    write_own_route(own, &mut out).is_ok() && is(&out, text)
}

#[test]
fn the_own_uri_is_written(rt: HostRuntime) {
    let alloc = rt.alloc();
    holds(
        &rt,
        is_own_route(alloc, OWN, b"<sip:192.0.2.9:5060;lr>"),
        "the URI of the proxy's address",
    );
    let longest = Own::over_udp([255; 4], 65_535);
    holds(
        &rt,
        is_own_route(alloc, longest, b"<sip:255.255.255.255:65535;lr>"),
        "the URI of the longest address",
    );
}
