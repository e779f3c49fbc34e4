//! Messages that are given as their lines, without the ends of these.
ghost use Rattle.std.specs.Prelude.{IfSome, IsTrue};
ghost use Rattle.sip_text.specs.Name.{first_value};
ghost use Rattle.sip_route.specs.Hops.{IsHops, MayPass, hops_name};

use crate::bytes::is;
use sip_route::{MaxForwards, max_forwards};
use sip_text::Message;
use sip_uri::{Hop, Transport};
use sip_via::Own;
use std::alloc::Global;

/// Where the requests came from.
pub const SOURCE: Hop = Hop {
    addr: [192, 0, 2, 1],
    port: 40_000,
    transport: Transport::Udp,
};

/// The proxy's own address.
pub const OWN: Own = Own {
    addr: [192, 0, 2, 9],
    port: 5060,
    transport: Transport::Udp,
};

/// A request.
pub const REQUEST: [&[u8]; 9] = [
    b"OPTIONS sip:bob@example.com SIP/2.0",
    b"v: SIP/2.0/UDP 192.0.2.1:5060;branch=z9hG4bKa;rport",
    b"Max-Forwards: 70",
    b"f: <sip:alice@example.com>;tag=1",
    b"t: <sip:bob@example.com>",
    b"i: c1",
    b"CSeq: 1 OPTIONS",
    b"l: 0",
    b"",
];

/// The request with a route, fields for proxies, a To tag and another spelling of its CSeq.
pub const ROUTED: [&[u8]; 9] = [
    b"OPTIONS sip:bob@example.com SIP/2.0",
    b"v: SIP/2.0/UDP 192.0.2.1:5060;branch=z9hG4bKa;rport",
    b"Route: <sip:a;lr>,<sip:b;lr>\r\nProxy-Require: x\r\nROUTE: <sip:c;lr>\r\nproxy-require: y\r\nProxy-Authorization: z",
    b"f: <sip:alice@example.com>;tag=1",
    b"t: <sip:bob@example.com>;tag=9",
    b"i: c1",
    b"CSeq: 001 OPTIONS",
    b"l: 0",
    b"",
];

/// Adds a line and its end; whether there was memory for them.
fn adds_line(text: &mut Vec<u8>, line: &[u8]) -> bool {
    text.extend_from_slice(line).is_ok() && text.extend_from_slice(b"\r\n").is_ok()
}

/// Adds these lines; whether there was memory for them.
fn adds_lines(text: &mut Vec<u8>, lines: &[&[u8]]) -> bool {
    for line in lines {
        if !adds_line(text, line) {
            return false;
        }
    }
    true
}

/// The text of these lines with that body.
pub fn text_with(alloc: Global, lines: &[&[u8]], body: &[u8]) -> Option<Vec<u8>> {
    let mut text = Vec::new(alloc);
    if adds_lines(&mut text, lines) && text.extend_from_slice(body).is_ok() {
        Some(text)
    } else {
        None
    }
}

/// The text of these lines.
pub fn text_of(alloc: Global, lines: &[&[u8]]) -> Option<Vec<u8>> {
    text_with(alloc, lines, b"")
}

/// The message that a text spells.
pub fn read(alloc: Global, text: &[u8]) -> Option<Message<Global>> {
    match Message::read(alloc, text) {
        Ok(message) => Some(message),
        Err(_) => None,
    }
}

/// The message that these lines and that body spell.
pub fn message_with(alloc: Global, lines: &[&[u8]], body: &[u8]) -> Option<Message<Global>> {
    match text_with(alloc, lines, body) {
        Some(text) => read(alloc, &text),
        None => None,
    }
}

/// The message that these lines spell.
pub fn message_of(alloc: Global, lines: &[&[u8]]) -> Option<Message<Global>> {
    message_with(alloc, lines, b"")
}

/// The request with this line in place of its Via line.
pub fn request_with_via(alloc: Global, via: &[u8]) -> Option<Message<Global>> {
    let mut lines = REQUEST;
    lines[1] = via;
    message_of(alloc, &lines)
}

/// What a message is written as.
pub fn written(alloc: Global, message: &Message<Global>) -> Option<Vec<u8>> {
    let mut text = Vec::new(alloc);
    match message.write(&mut text) {
        Ok(()) => Some(text),
        Err(_) => None,
    }
}

/// Whether a message is written as this text.
pub fn writes(alloc: Global, message: &Message<Global>, text: &[u8]) -> bool {
    match written(alloc, message) {
        Some(out) => is(&out, text),
        None => false,
    }
}

/// Whether a message is there, and is written as this text.
pub fn is_written_so(alloc: Global, message: Option<Message<Global>>, text: &[u8]) -> bool {
    match message {
        Some(message) => writes(alloc, &message, text),
        None => false,
    }
}

/// Whether a message is there, and is written as these lines.
pub fn is_written_as(alloc: Global, message: Option<Message<Global>>, lines: &[&[u8]]) -> bool {
    match message {
        Some(message) => spells(alloc, &message, lines),
        None => false,
    }
}

/// Whether a message is written as these lines.
pub fn spells(alloc: Global, message: &Message<Global>, lines: &[&[u8]]) -> bool {
    match text_of(alloc, lines) {
        Some(text) => writes(alloc, message, &text),
        None => false,
    }
}

/// Whether the message that these lines spell is written as them.
pub fn is_written_as_read(alloc: Global, lines: &[&[u8]]) -> bool {
    is_written_as(alloc, message_of(alloc, lines), lines)
}

/// Whether a message is there, and its text is read as a message that is written as this text.
pub fn is_read_back(alloc: Global, message: Option<Message<Global>>) -> bool {
    match message {
        Some(message) => reads_back(alloc, &message),
        None => false,
    }
}

fn reads_back(alloc: Global, message: &Message<Global>) -> bool {
    match written(alloc, message) {
        Some(text) => is_written_so(alloc, read(alloc, &text), &text),
        None => false,
    }
}

/// Whether a request that says this of hops may be passed on.
fn lets_pass(hops: MaxForwards) -> bool
    ensures { IsTrue result → MayPass hops }
{
    match hops {
        MaxForwards::Unsaid => true,
        MaxForwards::Said(more) => more >= 1,
        MaxForwards::Wrong => false,
    }
}

/// Whether a request may be passed on by what it says of hops.
pub fn may_pass(request: &Message<Global>) -> bool
    ensures { IsTrue result → IfSome (first_value hops_name request.now.headers) IsHops }
{
    let hops = max_forwards(request);
    lets_pass(hops)
}
