//! A message of which one header line gets another value, keeps a part of its value, or goes.
ghost use Rattle.std.specs.Prelude.{◌≡◌, ◌<◌, IfSome, IsTrue, Some, codes, length};
ghost use Rattle.std.proofs.Common.{slice_get};
ghost use Rattle.sip_text.specs.Seen.{views};
ghost use Rattle.sip_text.specs.Text.{HeaderText};
ghost use Rattle.sip_via.specs.Edits.{place_of};

use crate::holds::holds;
use crate::messages::{REQUEST, message_of, spells};
use sip_text::{HeaderLines, Message};
use sip_via::header_index;
use std::alloc::Global;

/// The request with a Route line of two values.
const TWO_ROUTES: [&[u8]; 10] = [
    b"OPTIONS sip:bob@example.com SIP/2.0",
    b"v: SIP/2.0/UDP 192.0.2.1:5060;branch=z9hG4bKa;rport",
    b"Route: <sip:a;lr>, <sip:b;lr>",
    b"Max-Forwards: 70",
    b"f: <sip:alice@example.com>;tag=1",
    b"t: <sip:bob@example.com>",
    b"i: c1",
    b"CSeq: 1 OPTIONS",
    b"l: 0",
    b"",
];

/// Where the first Route line stands, if there is one.
fn route_place(headers: HeaderLines<'_>) -> Option<usize>
    ensures at { IfSome result (λ place. place ≡ place_of (codes "route") (views headers.entry)) }
    ensures within { IfSome result (λ place. place < length (views headers.entry)) }
{
    let place = header_index(headers, b"route");
    if place < headers.len() {
        Some(place)
    } else {
        None
    }
}

/// Whether the line at a place has these two values.
fn has_two_routes(headers: HeaderLines<'_>, place: usize) -> bool
    ensures { IsTrue result → (line : HeaderText) × (slice_get (views headers.entry) place ≡ Some line) × (line.value ≡ codes "<sip:a;lr>, <sip:b;lr>") }
{
    match headers.get(place) {
        Some(line) => line.value == b"<sip:a;lr>, <sip:b;lr>".as_slice(),
        None => false,
    }
}

/// Puts another value into the Route line, and says whether it did.
fn put_route(message: &mut Message<Global>) -> bool {
    message.is_message();
    match route_place(message.headers()) {
        Some(place) => message.set_value(place, b"<sip:c;lr>").is_ok(),
        None => false,
    }
}

/// Keeps the second value of the Route line, and says whether it did.
fn keep_route_part(message: &mut Message<Global>) -> bool {
    message.is_message();
    match route_place(message.headers()) {
        Some(place) if has_two_routes(message.headers(), place) => {
            message.keep_value_part(place, 12, 10);
            true
        }
        Some(_) | None => false,
    }
}

/// Takes the Route line away, and says whether it did.
fn remove_route(message: &mut Message<Global>) -> bool {
    message.is_message();
    match route_place(message.headers()) {
        Some(place) => {
            message.remove_header(place);
            true
        }
        None => false,
    }
}

/// A change of the Route line.
#[derive(Clone, Copy)]
enum RouteChange {
    Put,
    KeepPart,
    Remove,
}

/// Makes a change, and says whether it did.
fn make(change: RouteChange, message: &mut Message<Global>) -> bool {
    match change {
        RouteChange::Put => put_route(message),
        RouteChange::KeepPart => keep_route_part(message),
        RouteChange::Remove => remove_route(message),
    }
}

/// The lines of the request with another Route line.
fn lines_with<'a>(route: &'a [u8]) -> [&'a [u8]; 10] {
    let mut lines: [&'a [u8]; 10] = TWO_ROUTES;
    lines[2] = route;
    lines
}

/// Whether a message is written as the request with this Route line, or without any.
fn has_route(alloc: Global, message: &Message<Global>, route: Option<&[u8]>) -> bool {
    match route {
        Some(route) => spells(alloc, message, &lines_with(route)),
        None => spells(alloc, message, &REQUEST),
    }
}

/// Whether the request has this Route line behind a change, or none, and still so once it gave back the memory in which nothing stands.
fn has_behind(alloc: Global, change: RouteChange, route: Option<&[u8]>) -> bool {
    let Some(mut message) = message_of(alloc, &TWO_ROUTES) else {
        return false;
    };
    let well = make(change, &mut message) && has_route(alloc, &message, route);
    message.shrink();
    well && has_route(alloc, &message, route)
}

/// Changes, and the Route line behind each.
const CHANGES: &[(RouteChange, Option<&[u8]>, &str)] = &[
    (
        RouteChange::Put,
        Some(b"Route: <sip:c;lr>"),
        "another value",
    ),
    (
        RouteChange::KeepPart,
        Some(b"Route: <sip:b;lr>"),
        "a part of the value",
    ),
    (RouteChange::Remove, None, "no line"),
];

#[test]
fn a_header_line_is_changed(rt: HostRuntime) {
    for (change, route, what) in CHANGES {
        holds(&rt, has_behind(rt.alloc(), *change, *route), *what);
    }
}
