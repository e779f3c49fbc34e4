//! The requests of a caller, and the answers of telephones.
use sip_lex::cut_at;
use sip_uri::{Hop, Transport};
use std::alloc::{AllocError, Global};

/// Where the caller is.
pub const CALLER: Hop = Hop {
    addr: [192, 0, 2, 1],
    port: 5060,
    transport: Transport::Udp,
};

/// Where bob's telephone is.
pub const BOB: Hop = Hop {
    addr: [192, 0, 2, 4],
    port: 5060,
    transport: Transport::Udp,
};

/// Where carol's telephones are: the first is tried before the second.
pub const CAROL: Hop = Hop {
    addr: [192, 0, 2, 5],
    port: 5060,
    transport: Transport::Udp,
};

pub const CAROL_AFTERWARDS: Hop = Hop {
    addr: [192, 0, 2, 6],
    port: 5060,
    transport: Transport::Udp,
};

/// One that no line names.
pub const CAROL_ELSEWHERE: Hop = Hop {
    addr: [192, 0, 2, 7],
    port: 5060,
    transport: Transport::Udp,
};

/// A telephone at the proxy's own address.
pub const BESIDE: Hop = Hop {
    addr: [192, 0, 2, 9],
    port: 5081,
    transport: Transport::Udp,
};

/// What the proxy is set up with.
pub const CONFIGURATION: &[u8] =
    b"own 192.0.2.9 5060\ninstance 7\ndomain example.com\ntrust 192.0.2.0/24\nlocation bob 1000 sip:bob@192.0.2.4\nlocation carol 1000 sip:carol@192.0.2.5\nlocation carol 500 sip:carol@192.0.2.6\n";

/// A request of the caller. Its branch and its Call-ID are the call's name.
#[derive(Clone, Copy)]
pub struct Request {
    pub method: &'static str,
    pub uri: &'static str,
    pub call: &'static str,
    /// What stands behind the URI of To.
    pub tag: &'static str,
    /// Header lines beside those of each request.
    pub lines: &'static str,
}

/// An INVITE to bob.
pub const INVITE: Request = Request {
    method: "INVITE",
    uri: "sip:bob@example.com",
    call: "one",
    tag: "",
    lines: "",
};

/// An OPTIONS request to bob.
pub const OPTIONS: Request = Request {
    method: "OPTIONS",
    ..INVITE
};

/// An OPTIONS request to the proxy itself.
pub const ASKED: Request = Request {
    method: "OPTIONS",
    uri: "sip:example.com",
    call: "asked",
    ..INVITE
};

/// An ACK and a CANCEL of the INVITE.
pub const ACK: Request = Request {
    method: "ACK",
    ..INVITE
};

pub const CANCEL: Request = Request {
    method: "CANCEL",
    ..INVITE
};

/// A request of a dialog with bob.
pub const BYE: Request = Request {
    method: "BYE",
    uri: "sip:bob@192.0.2.4",
    call: "bye",
    tag: ";tag=9",
    ..INVITE
};

/// The text of a request, where this stands behind the URI of To.
pub fn request_text(alloc: Global, request: &Request, tag: &str) -> Result<String, AllocError> {
    let Request {
        method,
        uri,
        call,
        lines,
        ..
    } = *request;
    format!(in alloc;
        "{method} {uri} SIP/2.0\r\nVia: SIP/2.0/UDP 192.0.2.1:5060;branch=z9hG4bK{call}\r\nMax-Forwards: 70\r\nFrom: <sip:alice@example.com>;tag=1\r\nTo: <sip:bob@example.com>{tag}\r\nCall-ID: {call}\r\nCSeq: 1 {method}\r\n{lines}Content-Length: 0\r\n\r\n"
    )
}

/// The answer to a request: this status line, and the header fields of the request (RFC 3261 section 8.2.6).
pub fn answer_text(alloc: Global, line: &str, request: &[u8]) -> Option<Vec<u8>> {
    let (_, fields) = cut_at(request, b'\n');
    let mut answer = Vec::from_slice(alloc, line.as_bytes()).ok()?;
    answer.extend_from_slice(b"\r\n").ok()?;
    answer.extend_from_slice(fields?).ok()?;
    Some(answer)
}

/// Where a text stands first in another one.
pub fn place_of(text: &[u8], part: &[u8]) -> Option<usize> {
    let len = part.len();
    if len == 0 {
        return None;
    }
    text.windows(len).position(|window| window == part)
}

/// Whether a text stands in another one.
pub fn has(text: &[u8], part: &[u8]) -> bool {
    place_of(text, part).is_some()
}

/// What stands behind a text in another one.
pub fn behind<'a>(text: &'a [u8], part: &[u8]) -> Option<&'a [u8]> {
    let place = place_of(text, part)?;
    text.get(place.saturating_add(part.len())..)
}

/// What stands behind the URI of To in an answer.
pub fn tag_of(alloc: Global, answer: &[u8]) -> Option<String> {
    let (tag, _) = cut_at(behind(answer, b"\r\nTo: <sip:bob@example.com>")?, b'\r');
    String::from_utf8(Vec::from_slice(alloc, tag).ok()?).ok()
}
