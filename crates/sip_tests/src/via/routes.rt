//! Requests whose first Route value is the proxy's own, and others.
use crate::holds::holds;
use crate::messages::{OWN, REQUEST, is_written_as, message_of};
use sip_builders::strip_route;
use sip_route::leads_to_proxy;
use sip_text::Message;
use std::alloc::Global;

/// A request, less the proxy's own Route value.
fn stripped_copy(alloc: Global, request: &Message<Global>) -> Option<Message<Global>> {
    match strip_route(alloc, request, OWN) {
        Ok(stripped) => Some(stripped),
        Err(_) => None,
    }
}

/// The request with this Route line, less the proxy's own Route value.
fn stripped(alloc: Global, route: &[u8]) -> Option<Message<Global>> {
    let lines = [
        REQUEST[0], REQUEST[1], route, REQUEST[2], REQUEST[3], REQUEST[4], REQUEST[5], REQUEST[6],
        REQUEST[7], REQUEST[8],
    ];
    match message_of(alloc, &lines) {
        Some(request) => stripped_copy(alloc, &request),
        None => None,
    }
}

/// Whether that is left in the first Route line of the request with this Route line; None: whether no such line is.
fn is_left(alloc: Global, route: &[u8], left: Option<&[u8]>) -> bool {
    match stripped(alloc, route) {
        None => false,
        Some(request) => request.values(b"route").next() == left,
    }
}

#[test]
fn strips_its_own_route(rt: HostRuntime) {
    let alloc = rt.alloc();
    holds(
        &rt,
        is_left(alloc, b"Route: \"a, b\" <sip:192.0.2.9:5060;lr>", None),
        "a line of the own value alone goes",
    );
    holds(
        &rt,
        is_left(
            alloc,
            b"Route: <sip:192.0.2.9;lr> , <sip:b@192.0.2.10>",
            Some(b"<sip:b@192.0.2.10>"),
        ),
        "the value behind the own one stays",
    );
    holds(
        &rt,
        is_left(
            alloc,
            b"Route: <sip:192.0.2.8;lr>",
            Some(b"<sip:192.0.2.8;lr>"),
        ),
        "a value of another address stays",
    );
    holds(
        &rt,
        is_left(
            alloc,
            b"Route: <sip:192.0.2.9:5070>",
            Some(b"<sip:192.0.2.9:5070>"),
        ),
        "a value of another port stays",
    );
    holds(
        &rt,
        is_left(alloc, b"Route: sip:192.0.2.9", Some(b"sip:192.0.2.9")),
        "a value without angle brackets stays",
    );
}

/// The request without a Route line, less the proxy's own Route value.
fn stripped_of_none(alloc: Global) -> Option<Message<Global>> {
    match message_of(alloc, &REQUEST) {
        Some(request) => stripped_copy(alloc, &request),
        None => None,
    }
}

#[test]
fn leaves_a_request_without_a_route(rt: HostRuntime) {
    let alloc = rt.alloc();
    holds(
        &rt,
        is_written_as(alloc, stripped_of_none(alloc), &REQUEST),
        "a request without a Route line is left as it is",
    );
}

#[test]
fn knows_its_own_route(rt: HostRuntime) {
    holds(
        &rt,
        leads_to_proxy(OWN, b"<sip:192.0.2.9:5060;lr>"),
        "a value with the address and port of the proxy",
    );
    holds(
        &rt,
        !leads_to_proxy(OWN, b"<sip:192.0.2.9:5070>"),
        "a value with another port",
    );
}
