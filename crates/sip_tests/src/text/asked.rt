//! A message written part by part, questions to it, and tags.
use crate::bytes::{has, holds_of, is};
use crate::holds::holds;
use crate::messages::{REQUEST, message_of};
use sip_lex::{append_pieces, whole_or_nothing};
use sip_text::{
    Message, Method, append_request_line, append_status_line, header_values_are_values,
    request_line_len, status_line_len, trimmed_part_is_a_value,
};
use std::alloc::{AllocError, Global};
use std::process::Abort;

/// A response.
const RESPONSE: [&[u8]; 7] = [
    b"SIP/2.0 486 Busy Here",
    b"Via: SIP/2.0/UDP 192.0.2.1:5060;branch=z9hG4bKa",
    b"From: <sip:alice@example.com>;tag=1",
    b"To: <sip:bob@example.com>;tag=2",
    b"Call-ID: c1",
    b"CSeq: 1 OPTIONS",
    b"",
];

/// A request line and a header line.
const BEGUN: &[u8] = b"OPTIONS sip:bob@example.com SIP/2.0\r\nSubject: x\r\n";

/// Appends these, the header line in pieces.
fn append_request(out: &mut Vec<u8>) -> Result<(), AllocError> {
    append_request_line(out, b"OPTIONS", b"sip:bob@example.com")?;
    append_pieces(out, &[b"Subject", b": ", b"x\r\n"])
}

/// Whether they are written so, the request line in as many bytes as was said.
fn is_appended(alloc: Global) -> bool {
    let mut out = Vec::new(alloc);
    let line = request_line_len(b"OPTIONS", b"sip:bob@example.com");
    append_request(&mut out).is_ok() && is(&out, BEGUN) && line.saturating_add(12) == out.len()
}

#[test]
fn appends_a_request(rt: HostRuntime) {
    let well = is_appended(rt.alloc());
    holds(&rt, well, "a request line and a header line in pieces");
}

/// Whether a status line of that status is this with its end, in as many bytes as was said.
fn has_status_line(alloc: Global, status: u16, reason: &[u8], wanted: &[u8]) -> bool {
    if !(status < 1000) {
        return false;
    }
    let mut out = Vec::new(alloc);
    append_status_line(&mut out, status, reason).is_ok()
        && out.len() == status_line_len(reason)
        && is(&out, wanted)
}

#[test]
fn appends_status_lines(rt: HostRuntime) {
    let busy = has_status_line(rt.alloc(), 486, b"Busy Here", b"SIP/2.0 486 Busy Here\r\n");
    holds(&rt, busy, "a reason");
    let ok = has_status_line(rt.alloc(), 200, b"", b"SIP/2.0 200 \r\n");
    holds(&rt, ok, "no reason");
    let low = has_status_line(rt.alloc(), 7, b"x", b"SIP/2.0 007 x\r\n");
    holds(&rt, low, "three digits");
}

/// Names, and whether the Via of the request, in its compact form, has each.
const NAMES: [(&[u8], bool); 6] = [
    (b"Via", true),
    (b"VIA", true),
    (b"v", true),
    (b"V", true),
    (b"Vi", false),
    (b"Via ", false),
];

#[test]
fn names_its_headers(rt: HostRuntime) {
    let message = message_of(rt.alloc(), &REQUEST);
    for (name, wanted) in NAMES {
        holds_of(
            &rt,
            via_is_named(&message, name) == Some(wanted),
            "the name",
            name,
        );
    }
}

fn via_is_named(message: &Option<Message<Global>>, name: &[u8]) -> Option<bool> {
    match message {
        None => None,
        Some(message) => match message.headers().get(0) {
            None => None,
            Some(first) => Some(first.is_named(name)),
        },
    }
}

#[test]
fn tells_requests_from_responses(rt: HostRuntime) {
    let request = message_of(rt.alloc(), &REQUEST);
    let well = match &request {
        None => false,
        Some(request) => has(request.method(), b"OPTIONS") && request.status().is_none(),
    };
    holds(&rt, well, "a request");
    let response = message_of(rt.alloc(), &RESPONSE);
    let well = match &response {
        None => false,
        Some(response) => response.method().is_none() && response.status() == Some(486),
    };
    holds(&rt, well, "a response");
}

#[test]
fn tells_methods_apart(rt: HostRuntime) {
    let request = message_of(rt.alloc(), &REQUEST);
    let well = match &request {
        None => false,
        Some(request) => {
            request.known_method() == Some(Method::Options)
                && request.stands_alone()
                && !request.is_invite()
        }
    };
    holds(&rt, well, "a request");
    holds(
        &rt,
        Method::named(b"CANCEL") == Method::Cancel,
        "the name of a method",
    );
    holds(
        &rt,
        Method::named(b"cancel") == Method::Other,
        "a name in lower case",
    );
}

/// From lines, and the tag of each.
const TAGS: [(&[u8], Option<&[u8]>); 17] = [
    (b"From: a;tag=0 <sip:x>;tag=1", Some(b"1")),
    (b"From: \"a;tag=0\" <sip:x>;tag=1", Some(b"1")),
    (b"From: \"<;tag=0\" <sip:x>;tag=1", Some(b"1")),
    (b"From: \"\\\"<\" <sip:x>;tag=1", Some(b"1")),
    (b"From: <sip:x;tag=0>;tag=1", Some(b"1")),
    (b"From: <sip:\"x>;tag=1", Some(b"1")),
    (b"From: <sip:x> y z;tag=1", Some(b"1")),
    (b"From: <sip:x>;a=\"b;tag=0\";TAG = 1", Some(b"1")),
    (b"From: <sip:x>;a=<b;tag=0>;tag=1;tag=2", Some(b"1")),
    (b"From: sip:x;tag=1", Some(b"1")),
    (b"From: a;tag=0 <sip:x>", None),
    (b"From: a;tag=0 <sip:x", None),
    (b"From: sip:x;tag=0<y>", None),
    (b"From: <sip:x;tag=0", None),
    (b"From: <sip:x>;tag=;tag=0", None),
    (b"From: <sip:x>;tag", None),
    (b"From: <sip:x>", None),
];

/// Whether a part is this text, or there is none where none is wanted.
fn is_if_any(part: Option<&[u8]>, wanted: Option<&[u8]>) -> bool {
    match wanted {
        Some(wanted) => has(part, wanted),
        None => part.is_none(),
    }
}

/// Whether the request has that tag with this From line.
fn has_tag(alloc: Global, line: &[u8], wanted: Option<&[u8]>) -> bool {
    let mut lines: [&[u8]; 9] = REQUEST;
    lines[3] = line;
    match message_of(alloc, &lines) {
        Some(message) => is_if_any(message.from_tag(), wanted),
        None => false,
    }
}

fn tags_are_found(rt: &impl Abort, alloc: Global) {
    for (line, wanted) in TAGS {
        let well = has_tag(alloc, line, wanted);
        holds_of(rt, well, "the tag", line);
    }
}

#[test]
fn finds_tags(rt: HostRuntime) {
    tags_are_found(&rt, rt.alloc());
}

#[test]
fn values_may_be_given_on(_rt: HostRuntime) {
    header_values_are_values();
    trimmed_part_is_a_value();
}

/// What is left of three bytes, the last two of which were added, where that ended so.
fn is_left(alloc: Global, done: Result<(), AllocError>, wanted: &[u8]) -> bool {
    let mut out = Vec::new(alloc);
    let added = out.extend_from_slice(b"abc").is_ok();
    let refused = done.is_err();
    added && whole_or_nothing(&mut out, 1, done).is_err() == refused && is(&out, wanted)
}

#[test]
fn a_list_grows_whole_or_not_at_all(rt: HostRuntime) {
    holds(&rt, is_left(rt.alloc(), Ok(()), b"abc"), "all was added");
    holds(
        &rt,
        is_left(rt.alloc(), Err(AllocError), b"a"),
        "memory was refused halfway",
    );
}
