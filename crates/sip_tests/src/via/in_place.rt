//! Requests and Via lines that are marked in place, and what marking leaves as it is.
use crate::bytes::{has, is};
use crate::holds::holds;
use crate::messages::{REQUEST, SOURCE, message_of, request_with_via, spells, writes, written};
use crate::rows::holds_in_row;
use sip_builders::{
    mark_received, marked_value_is_read, marking_changes_the_top_value, marking_keeps_the_sender,
};
use sip_route::first_value;
use sip_text::Message;
use sip_via::{
    ViaFault, ViaValues, add_received, marked_line, marking_keeps_the_rest, readable_is_marked,
    top_via,
};
use std::alloc::Global;

/// Via lines, each with what stands in it once it is marked.
const MARKED: [(&[u8], &[u8]); 6] = [
    (
        b"Via: SIP/2.0/UDP h , SIP/2.0/UDP i",
        b"SIP/2.0/UDP h;received=192.0.2.1 , SIP/2.0/UDP i",
    ),
    (
        b"Via: SIP/2.0/UDP h\t ,\tSIP/2.0/UDP i ,x",
        b"SIP/2.0/UDP h;received=192.0.2.1\t ,\tSIP/2.0/UDP i ,x",
    ),
    (
        b"Via: SIP/2.0/UDP h ;received=x ,SIP/2.0/UDP i",
        b"SIP/2.0/UDP h ;received=192.0.2.1 ,SIP/2.0/UDP i",
    ),
    (
        b"Via: SIP/2.0/UDP 192.0.2.1 ;received=x ,SIP/2.0/UDP i",
        b"SIP/2.0/UDP 192.0.2.1 ,SIP/2.0/UDP i",
    ),
    (
        b"Via: SIP/2.0/UDP 192.0.2.1;rport ,SIP/2.0/UDP i",
        b"SIP/2.0/UDP 192.0.2.1;rport=40000;received=192.0.2.1 ,SIP/2.0/UDP i",
    ),
    (
        b"Via: SIP/2.0/UDP 192.0.2.10",
        b"SIP/2.0/UDP 192.0.2.10;received=192.0.2.1",
    ),
];

/// A request once it is marked in place.
fn marked(alloc: Global, request: Message<Global>) -> Option<Message<Global>> {
    match add_received(alloc, request, SOURCE) {
        Ok(marked) => Some(marked),
        Err(_) => None,
    }
}

/// The request with this Via line once it is marked in place.
fn marked_with(alloc: Global, via: &[u8]) -> Option<Message<Global>> {
    match request_with_via(alloc, via) {
        Some(request) => marked(alloc, request),
        None => None,
    }
}

/// What the marked copy of a request is written as.
fn copy_text(alloc: Global, request: &Message<Global>) -> Option<Vec<u8>> {
    match mark_received(alloc, request, SOURCE) {
        Ok(copy) => written(alloc, &copy),
        Err(_) => None,
    }
}

/// What the marked copy of the request with this Via line is written as.
fn copy_text_with(alloc: Global, via: &[u8]) -> Option<Vec<u8>> {
    match request_with_via(alloc, via) {
        Some(request) => copy_text(alloc, &request),
        None => None,
    }
}

/// Whether a request has that value in its first Via line, and is written as this text.
fn is_so(alloc: Global, request: &Message<Global>, value: &[u8], text: &[u8]) -> bool {
    is(first_value(request, b"via"), value) && writes(alloc, request, text)
}

/// Whether the request with this Via line has that value in the line once it is marked in place, and all else as
/// `mark_received` gives it.
fn is_marked_as(alloc: Global, via: &[u8], value: &[u8]) -> bool {
    match (marked_with(alloc, via), copy_text_with(alloc, via)) {
        (Some(request), Some(text)) => is_so(alloc, &request, value, &text),
        _ => false,
    }
}

#[test]
fn marks_in_place(rt: HostRuntime) {
    let alloc = rt.alloc();
    for (row, (via, value)) in MARKED.iter().enumerate() {
        holds_in_row(
            &rt,
            is_marked_as(alloc, via, value),
            "a Via line is marked in place",
            row,
        );
    }
}

/// Whether a Via line is this one with its first value marked.
fn line_is_marked_as(alloc: Global, line: &[u8], marked: &[u8]) -> bool {
    match marked_line(&alloc, line, SOURCE) {
        Ok(text) => is(&text, marked),
        Err(_) => false,
    }
}

#[test]
fn marks_a_line(rt: HostRuntime) {
    holds(
        &rt,
        line_is_marked_as(
            rt.alloc(),
            b"SIP/2.0/UDP h , SIP/2.0/UDP i",
            b"SIP/2.0/UDP h;received=192.0.2.1 , SIP/2.0/UDP i",
        ),
        "the first value of the line",
    );
}

/// Whether a request comes back as these lines, with a `BadVia`.
fn comes_back_as(alloc: Global, request: Message<Global>, lines: &[&[u8]]) -> bool {
    match add_received(alloc, request, SOURCE) {
        Ok(_) => false,
        Err(unmarked) => {
            unmarked.fault == ViaFault::BadVia && spells(alloc, &unmarked.message, lines)
        }
    }
}

/// Whether the request comes back as it was, with a `BadVia`.
fn comes_back(alloc: Global, via: &[u8]) -> bool {
    let mut lines = REQUEST;
    lines[1] = via;
    match message_of(alloc, &lines) {
        Some(request) => comes_back_as(alloc, request, &lines),
        None => false,
    }
}

#[test]
fn gives_back_what_it_cannot_mark(rt: HostRuntime) {
    let alloc = rt.alloc();
    holds(
        &rt,
        comes_back(alloc, b"Via: SIP/2.0/UDP, SIP/2.0/UDP h"),
        "a request whose top value is none",
    );
}

/// Whether a request has two Via values, its top one and this.
fn has_second(request: &Message<Global>, value: &[u8]) -> bool {
    let mut values = ViaValues::of(request);
    let top = has(values.next(), top_via(request));
    let second = has(values.next(), value);
    top && second && values.next().is_none()
}

/// Whether the request with this line has two Via values once it is marked, and this is its second one.
fn second_once_marked(alloc: Global, via: &[u8], value: &[u8]) -> bool {
    match marked_with(alloc, via) {
        Some(request) => has_second(&request, value),
        None => false,
    }
}

/// The laws, called once.
fn laws() {
    readable_is_marked();
    marking_changes_the_top_value();
    marked_value_is_read();
    marking_keeps_the_sender();
    marking_keeps_the_rest();
}

#[test]
fn marking_leaves_the_other_values(rt: HostRuntime) {
    laws();
    let alloc = rt.alloc();
    holds(
        &rt,
        second_once_marked(
            alloc,
            b"Via: SIP/2.0/UDP h;x=\"a,b\" , SIP/2.0/UDP i",
            b"SIP/2.0/UDP i",
        ),
        "the second value of the line stays",
    );
    holds(
        &rt,
        second_once_marked(
            alloc,
            b"Via: SIP/2.0/UDP h\r\nv: SIP/2.0/UDP i",
            b"SIP/2.0/UDP i",
        ),
        "the value of the second line stays",
    );
}
