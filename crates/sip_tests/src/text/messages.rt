//! Messages that are read and written.
use crate::bytes::{has, holds_of, is};
use crate::holds::holds;
use crate::messages::{is_written_so, read, spells, text_of, text_with, written};
use crate::text::samples::{LINES, busy, lines_with, message_changed};
use sip_text::{MandatoryHeader, Message, ReadFault, StartLine};
use std::alloc::Global;
use std::process::Abort;

/// The value at that place among those of the header lines of that name.
fn value_at<'a>(message: &'a Message<Global>, name: &[u8], place: usize) -> Option<&'a [u8]> {
    let mut values = message.values(name);
    for _ in 0..place {
        let _ = values.next();
    }
    values.next()
}

fn has_method(message: &Message<Global>, wanted: &[u8]) -> bool {
    match message.start() {
        StartLine::Request { method, .. } => is(method, wanted),
        StartLine::Response { .. } => false,
    }
}

fn has_uri(message: &Message<Global>, wanted: &[u8]) -> bool {
    match message.start() {
        StartLine::Request { uri, .. } => is(uri, wanted),
        StartLine::Response { .. } => false,
    }
}

/// Ends the test where these are not the fields of the request.
fn are_the_fields(rt: &impl Abort, message: &Message<Global>) {
    let via = value_at(message, b"VIA", 0);
    let wanted = b"SIP/2.0/UDP 192.0.2.1:5060;branch=z9hG4bKa;rport";
    holds(rt, has(via, wanted), "the Via");
    holds(rt, value_at(message, b"VIA", 1).is_none(), "one Via alone");
    holds(rt, message.cseq().number == 1, "the number of the CSeq");
    holds(
        rt,
        is(message.cseq().method, b"OPTIONS"),
        "the method of the CSeq",
    );
    holds(
        rt,
        is(message.cseq_method(), b"OPTIONS"),
        "the method alone",
    );
    holds(rt, is(message.call_id(), b"c1"), "the Call-ID");
    holds(rt, has(message.from_tag(), b"1"), "the tag of From");
    holds(rt, message.to_tag().is_none(), "no tag of To");
}

/// Ends the test where this is not the request.
fn is_the_request(rt: &impl Abort, message: &Message<Global>) {
    holds(rt, has_method(message, b"OPTIONS"), "the method");
    holds(
        rt,
        has_uri(message, b"sip:bob@example.com"),
        "the request URI",
    );
    holds(rt, message.headers().len() == 7, "each header line");
    holds(rt, message.body().is_empty(), "no body");
    are_the_fields(rt, message);
}

#[test]
fn reads_a_request(rt: HostRuntime) {
    match message_changed(rt.alloc(), 0, LINES[0], b"") {
        Some(message) => is_the_request(&rt, &message),
        None => holds(&rt, false, "the request is read"),
    }
}

/// Whether a text is the same once it is read and written.
fn is_the_same(alloc: Global, text: &[u8]) -> bool {
    is_written_so(alloc, read(alloc, text), text)
}

/// What the message of a text is written as.
fn read_and_written(alloc: Global, text: &[u8]) -> Option<Vec<u8>> {
    match read(alloc, text) {
        Some(message) => written(alloc, &message),
        None => None,
    }
}

/// Whether a text is the same once it is read and written, and that again.
fn is_the_same_twice(alloc: Global, text: &[u8]) -> bool {
    match read_and_written(alloc, text) {
        Some(out) => is_written_so(alloc, read(alloc, &out), text),
        None => false,
    }
}

/// Ends the test where the text is not the same once it is read and written.
fn stays_the_same(rt: &impl Abort, alloc: Global, text: &[u8]) {
    holds(rt, is_the_same(alloc, text), "written as it was read");
    holds(
        rt,
        is_the_same_twice(alloc, text),
        "written as it was, read again",
    );
}

#[test]
fn writes_and_reads_again(rt: HostRuntime) {
    match text_of(rt.alloc(), &LINES) {
        Some(text) => stays_the_same(&rt, rt.alloc(), &text),
        None => holds(&rt, false, "there is memory for the text"),
    }
}

/// The head that the fault of a short body carries.
fn head_of(alloc: Global, text: &[u8]) -> Option<Message<Global>> {
    match Message::read(alloc, text) {
        Ok(_message) => None,
        Err(fault) => match fault {
            ReadFault::ShortBody(head) => Some(head),
            _other => None,
        },
    }
}

/// Whether a text is refused for a short body, with the head that is written as these lines.
fn carries(alloc: Global, text: &[u8], head_lines: &[&[u8]]) -> bool {
    match head_of(alloc, text) {
        Some(head) => spells(alloc, &head, head_lines),
        None => false,
    }
}

/// Whether these lines and too short a body are refused with the head that has those lines.
fn lines_carry(alloc: Global, lines: &[&[u8]], head_lines: &[&[u8]]) -> bool {
    match text_with(alloc, lines, b"body") {
        Some(text) => carries(alloc, &text, head_lines),
        None => false,
    }
}

#[test]
fn a_short_body_carries_the_head(rt: HostRuntime) {
    let found = lines_carry(rt.alloc(), &busy(b"l: 5"), &busy(b"l: 0"));
    holds(&rt, found, "the head of a response");
    let found = lines_carry(rt.alloc(), &lines_with(7, b"l: 5"), &LINES);
    holds(&rt, found, "the head of a request");
}

/// Lines of which some continue the ones before them.
const CONTINUED: &[u8] = b"Subject:\r\n a \r\n\t\r\n  b\t\r\nSUBJECT : \tc\r\nContact: d\r\nm: e";

/// Which value it is, the name, the place, and the value.
const JOINED: [(&str, &[u8], usize, &[u8]); 4] = [
    ("the first Subject", b"subject", 0, b"a  b"),
    ("the second Subject", b"subject", 1, b"c"),
    ("the first Contact", b"M", 0, b"d"),
    ("the second Contact", b"M", 1, b"e"),
];

/// Ends the test where these are not the values of those lines.
fn are_joined(rt: &impl Abort, message: &Message<Global>) {
    for (what, name, place, wanted) in &JOINED {
        holds(rt, has(value_at(message, name, *place), wanted), what);
    }
    holds(
        rt,
        value_at(message, b"subject", 2).is_none(),
        "no third Subject",
    );
    holds(rt, value_at(message, b"M", 2).is_none(), "no third Contact");
}

#[test]
fn joins_continued_lines(rt: HostRuntime) {
    match message_changed(rt.alloc(), 2, CONTINUED, b"") {
        Some(message) => are_joined(&rt, &message),
        None => holds(&rt, false, "the lines are read"),
    }
}

#[test]
fn names_needed_fields(rt: HostRuntime) {
    holds(
        &rt,
        is(MandatoryHeader::CallId.name(), b"call-id"),
        "the name of Call-ID",
    );
}

/// Whether the message with that line for its length has this body.
fn has_body(alloc: Global, line: &[u8], wanted: &[u8]) -> bool {
    match message_changed(alloc, 7, line, b"abc") {
        Some(message) => is(message.body(), wanted),
        None => false,
    }
}

#[test]
fn takes_the_body_that_is_said(rt: HostRuntime) {
    let found = has_body(rt.alloc(), b"l: 2\r\nContent-Length: 02", b"ab");
    holds(&rt, found, "as much as the length says");
    let found = has_body(rt.alloc(), b"Subject: no length", b"abc");
    holds(&rt, found, "all that there is without a length");
}

/// Whether the message with this To has this tag.
fn has_tag(alloc: Global, to: &[u8], wanted: &[u8]) -> bool {
    match message_changed(alloc, 4, to, b"") {
        Some(message) => has(message.to_tag(), wanted),
        None => false,
    }
}

/// Whether the message with this To has no tag.
fn has_no_tag(alloc: Global, to: &[u8]) -> bool {
    match message_changed(alloc, 4, to, b"") {
        Some(message) => message.to_tag().is_none(),
        None => false,
    }
}

/// Fields To, and the tag of each.
const TAGS: [(&[u8], &[u8]); 2] = [
    (b"To: \"a;tag=x\" <sip:b;tag=y> ; TAG = z ;tag=w", b"z"),
    (b"To: sip:b;tag=q", b"q"),
];

#[test]
fn finds_tags(rt: HostRuntime) {
    for (to, tag) in TAGS {
        holds_of(&rt, has_tag(rt.alloc(), to, tag), "the tag", to);
    }
    let found = has_no_tag(rt.alloc(), b"To: sip:b;tag;tag=q");
    holds(&rt, found, "a tag without a value is none");
}
