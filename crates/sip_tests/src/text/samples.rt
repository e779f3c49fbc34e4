//! A good request, and texts made of it by one change.
use crate::messages::{message_with, text_with};
use sip_text::Message;
use std::alloc::Global;

/// The lines of a good request, without their ends.
pub const LINES: [&[u8]; 9] = [
    b"OPTIONS sip:bob@example.com SIP/2.0",
    b"v: SIP/2.0/UDP 192.0.2.1:5060;branch=z9hG4bKa;rport",
    b"Max-Forwards: 70",
    b"f: <sip:alice@example.com>;tag=1",
    b"t: <sip:bob@example.com>",
    b"i: c1",
    b"CSeq: 1 OPTIONS",
    b"l: 0",
    b"",
];

/// The lines of a response with that length.
pub fn busy(length: &[u8]) -> [&[u8]; 8] {
    let status: &[u8] = b"SIP/2.0 486 Busy Here";
    [
        status, LINES[1], LINES[3], LINES[4], LINES[5], LINES[6], length, b"",
    ]
}

/// The lines of the request with another in the place of one.
pub fn lines_with(at: usize, line: &[u8]) -> [&[u8]; 9] {
    let mut lines: [&[u8]; 9] = LINES;
    if at < 9 {
        lines[at] = line;
    }
    lines
}

/// The request with another text in the place of one line, and that body.
pub fn changed(alloc: Global, at: usize, line: &[u8], body: &[u8]) -> Option<Vec<u8>> {
    text_with(alloc, &lines_with(at, line), body)
}

/// The message of the request with another text in the place of one line, and that body.
pub fn message_changed(
    alloc: Global,
    at: usize,
    line: &[u8],
    body: &[u8],
) -> Option<Message<Global>> {
    message_with(alloc, &lines_with(at, line), body)
}
