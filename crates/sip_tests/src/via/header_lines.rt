//! Header lines that are found by their names.
use crate::bytes::is;
use crate::holds::holds;
use crate::messages::request_with_via;
use sip_route::{first_header, first_value};
use sip_text::Message;
use std::alloc::Global;

const TWO_SUBJECTS: &[u8] = b"Via: SIP/2.0/UDP h\r\nSubject: a\r\nsubject: b";

/// Whether the first line of a name that some have is found.
fn finds_the_first(request: &Message<Global>) -> bool {
    match first_header(request, b"subject") {
        Some(first) => is(first.value, b"a"),
        None => false,
    }
}

/// Whether the first lines and values of names are found, and none of a name that no line has.
fn finds_each(request: &Message<Global>) -> bool {
    finds_the_first(request)
        && first_header(request, b"route").is_none()
        && is(first_value(request, b"call-id"), b"c1")
        && first_value(request, b"route").is_empty()
}

/// Whether they are found in the request with two named Subject.
fn finds_lines(alloc: Global) -> bool {
    match request_with_via(alloc, TWO_SUBJECTS) {
        Some(request) => finds_each(&request),
        None => false,
    }
}

#[test]
fn lines_are_found_by_their_names(rt: HostRuntime) {
    let alloc = rt.alloc();
    holds(&rt, finds_lines(alloc), "the first line of a name is found");
}
