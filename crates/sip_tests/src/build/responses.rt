//! The proxy's own responses, and their tags.
use crate::behind::if_built;
use crate::holds::holds;
use crate::messages::{
    REQUEST, ROUTED, is_read_back, is_written_as, is_written_as_read, message_of, read, written,
};
use crate::rows::holds_in_row;
use sip_build::{OwnStatus, has_tag_added, own_tag};
use sip_builders::{generated, generated_is_message};
use sip_text::Message;
use std::alloc::Global;

/// The proxy's own tag for the request of these lines.
fn tag_of(alloc: Global, lines: &[&[u8]]) -> Option<[u8; 18]> {
    match message_of(alloc, lines) {
        Some(request) => Some(own_tag(&request)),
        None => None,
    }
}

#[test]
fn tags_of_known_requests(rt: HostRuntime) {
    let alloc = rt.alloc();
    let tag = *b"fpa54465d48fc852fc";
    holds(
        &rt,
        tag_of(alloc, &REQUEST) == Some(tag),
        "the tag for a request",
    );
    holds(
        &rt,
        tag_of(alloc, &ROUTED) == Some(tag),
        "a route and a To tag change no tag",
    );
}

/// The response of this status to a request.
pub fn answer_to(
    alloc: Global,
    request: &Message<Global>,
    status: OwnStatus,
) -> Option<Message<Global>> {
    if_built(generated(alloc, request, status))
}

/// The response of this status to the request of these lines.
fn response(alloc: Global, lines: &[&[u8]], status: OwnStatus) -> Option<Message<Global>> {
    match message_of(alloc, lines) {
        Some(request) => answer_to(alloc, &request, status),
        None => None,
    }
}

#[test]
fn trying_has_the_lines_of_the_request(rt: HostRuntime) {
    let alloc = rt.alloc();
    let expected: [&[u8]; 8] = [
        b"SIP/2.0 100 Trying",
        REQUEST[1],
        REQUEST[3],
        REQUEST[4],
        REQUEST[5],
        REQUEST[6],
        b"Content-Length: 0",
        b"",
    ];
    holds(
        &rt,
        is_written_as(
            alloc,
            response(alloc, &REQUEST, OwnStatus::Trying),
            &expected,
        ),
        "the 100 to a request",
    );
    holds(
        &rt,
        is_written_as_read(alloc, &expected),
        "the text of a 100 is written as it is read",
    );
}

/// The statuses of the proxy's own, each with the line that a response begins with.
pub const STATUSES: [(OwnStatus, &[u8]); 17] = [
    (OwnStatus::Trying, b"SIP/2.0 100 Trying\r\n"),
    (OwnStatus::Okay, b"SIP/2.0 200 OK\r\n"),
    (OwnStatus::BadRequest, b"SIP/2.0 400 Bad Request\r\n"),
    (OwnStatus::Unauthorized, b"SIP/2.0 401 Unauthorized\r\n"),
    (OwnStatus::Forbidden, b"SIP/2.0 403 Forbidden\r\n"),
    (OwnStatus::NotFound, b"SIP/2.0 404 Not Found\r\n"),
    (
        OwnStatus::ProxyAuthenticationRequired,
        b"SIP/2.0 407 Proxy Authentication Required\r\n",
    ),
    (
        OwnStatus::RequestTimeout,
        b"SIP/2.0 408 Request Timeout\r\n",
    ),
    (
        OwnStatus::UnsupportedUriScheme,
        b"SIP/2.0 416 Unsupported URI Scheme\r\n",
    ),
    (OwnStatus::BadExtension, b"SIP/2.0 420 Bad Extension\r\n"),
    (
        OwnStatus::IntervalTooBrief,
        b"SIP/2.0 423 Interval Too Brief\r\n",
    ),
    (
        OwnStatus::TemporarilyUnavailable,
        b"SIP/2.0 480 Temporarily Unavailable\r\n",
    ),
    (
        OwnStatus::CallDoesNotExist,
        b"SIP/2.0 481 Call/Transaction Does Not Exist\r\n",
    ),
    (OwnStatus::LoopDetected, b"SIP/2.0 482 Loop Detected\r\n"),
    (OwnStatus::TooManyHops, b"SIP/2.0 483 Too Many Hops\r\n"),
    (
        OwnStatus::ServerInternalError,
        b"SIP/2.0 500 Server Internal Error\r\n",
    ),
    (
        OwnStatus::ServiceUnavailable,
        b"SIP/2.0 503 Service Unavailable\r\n",
    ),
];

/// What the response of this status to the request is written as.
fn response_text(alloc: Global, status: OwnStatus) -> Option<Vec<u8>> {
    match response(alloc, &REQUEST, status) {
        Some(response) => written(alloc, &response),
        None => None,
    }
}

fn begins_with(alloc: Global, status: OwnStatus, line: &[u8]) -> bool {
    match response_text(alloc, status) {
        None => false,
        Some(text) => text.starts_with(line),
    }
}

fn is_longer(alloc: Global, status: OwnStatus, line: &[u8]) -> bool {
    match response_text(alloc, status) {
        None => false,
        Some(text) => text.len() > line.len(),
    }
}

fn has_reason(status: OwnStatus) -> bool {
    !status.reason().is_empty()
}

/// Whether a text is read as a message with a To tag; nothing where it is none.
fn is_read_with_tag(alloc: Global, text: &[u8]) -> Option<bool> {
    match read(alloc, text) {
        Some(again) => Some(again.to_tag().is_some()),
        None => None,
    }
}

/// Whether the response of this status to a request without a To tag is read with one.
fn has_tag(alloc: Global, status: OwnStatus) -> Option<bool> {
    match response_text(alloc, status) {
        Some(text) => is_read_with_tag(alloc, &text),
        None => None,
    }
}

#[test]
fn each_status_has_its_line(rt: HostRuntime) {
    let alloc = rt.alloc();
    for (row, (status, line)) in STATUSES.iter().enumerate() {
        holds_in_row(
            &rt,
            begins_with(alloc, *status, line),
            "a response begins with its status line",
            row,
        );
        holds_in_row(
            &rt,
            is_longer(alloc, *status, line),
            "a response has more than its status line",
            row,
        );
        holds_in_row(
            &rt,
            has_reason(*status),
            "a status has a reason phrase",
            row,
        );
    }
}

#[test]
fn each_response_but_a_100_has_a_tag(rt: HostRuntime) {
    let alloc = rt.alloc();
    for (row, (status, _)) in STATUSES.iter().enumerate() {
        holds_in_row(
            &rt,
            has_tag(alloc, *status) == Some(status.code() != 100),
            "a response has a To tag but for a 100",
            row,
        );
    }
}

#[test]
fn are_read_as_they_were_written(rt: HostRuntime) {
    let alloc = rt.alloc();
    generated_is_message();
    for (row, (status, _)) in STATUSES.iter().enumerate() {
        holds_in_row(
            &rt,
            is_read_back(alloc, response(alloc, &ROUTED, *status)),
            "a response is read as it was written",
            row,
        );
    }
}

/// The request with fields for proxies and a second Via line between them.
fn with_extensions() -> [&'static [u8]; 9] {
    let mut lines = REQUEST;
    lines[2] = b"Proxy-Require: x, y\r\nVia: SIP/2.0/UDP 192.0.2.2\r\nproxy-require: z";
    lines
}

#[test]
fn an_extension_is_named(rt: HostRuntime) {
    let alloc = rt.alloc();
    let expected: [&[u8]; 11] = [
        b"SIP/2.0 420 Bad Extension",
        REQUEST[1],
        b"Via: SIP/2.0/UDP 192.0.2.2",
        REQUEST[3],
        b"t: <sip:bob@example.com>;tag=fpa54465d48fc852fc",
        REQUEST[5],
        REQUEST[6],
        b"Unsupported: x, y",
        b"Unsupported: z",
        b"Content-Length: 0",
        b"",
    ];
    holds(
        &rt,
        is_written_as(
            alloc,
            response(alloc, &with_extensions(), OwnStatus::BadExtension),
            &expected,
        ),
        "the 420 to a request with extensions",
    );
}

/// Whether a response of that status to the request has a tag added.
fn tag_added(alloc: Global, status: OwnStatus) -> Option<bool> {
    match message_of(alloc, &REQUEST) {
        Some(request) => Some(has_tag_added(status, &request)),
        None => None,
    }
}

#[test]
fn responses_but_a_100_get_a_tag(rt: HostRuntime) {
    let alloc = rt.alloc();
    holds(
        &rt,
        tag_added(alloc, OwnStatus::Okay) == Some(true),
        "a 200 gets a tag",
    );
    holds(
        &rt,
        tag_added(alloc, OwnStatus::Trying) == Some(false),
        "a 100 gets none",
    );
}

/// Whether the 482 to a request with this To line has this To tag.
fn is_tagged(alloc: Global, to: &'static [u8], tag: &[u8]) -> bool {
    let mut lines = with_extensions();
    lines[4] = to;
    match response(alloc, &lines, OwnStatus::LoopDetected) {
        None => false,
        Some(refused) => refused.to_tag() == Some(tag),
    }
}

#[test]
fn a_tag_stays(rt: HostRuntime) {
    let alloc = rt.alloc();
    holds(
        &rt,
        is_tagged(alloc, b"t: <sip:bob@example.com>;tag=9", b"9"),
        "the To tag of the request is the response's",
    );
}
