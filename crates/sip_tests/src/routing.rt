//! Questions about how a request is routed, and the proxy's own Route value taken away where it stands.
use crate::bytes::holds_of;
use crate::messages::{OWN, REQUEST, message_of, spells};
use crate::rows::holds_in_row;
use sip_builders::strip_route;
use sip_route::{
    FirstRoute, MaxForwards, first_route, is_own, keys_tell_senders, max_forwards,
    routes_are_readable, strip, stripping_keeps_the_rest,
};
use sip_text::Message;
use sip_uri::{Hop, Transport};
use std::alloc::Global;

/// The request with these lines for its Max-Forwards.
fn request_with(alloc: Global, given: &[u8]) -> Option<Message<Global>> {
    let mut lines = REQUEST;
    lines[2] = given;
    message_of(alloc, &lines)
}

/// Lines, and what they say of hops.
const HOPS: [(&[u8], MaxForwards); 16] = [
    (b"Subject: x", MaxForwards::Unsaid),
    (b"Max-Forward: 70", MaxForwards::Unsaid),
    (b"Max-Forwards: 70", MaxForwards::Said(70)),
    (b"MAX-FORWARDS:0", MaxForwards::Said(0)),
    (b"max-forwards: 255", MaxForwards::Said(255)),
    (b"Max-Forwards: 007", MaxForwards::Said(7)),
    (b"Max-Forwards: 1\r\nMax-Forwards: x", MaxForwards::Said(1)),
    (b"Max-Forwards: x\r\nMax-Forwards: 1", MaxForwards::Wrong),
    (b"Max-Forwards:", MaxForwards::Wrong),
    (b"Max-Forwards: 256", MaxForwards::Wrong),
    (b"Max-Forwards: 0070", MaxForwards::Wrong),
    (b"Max-Forwards: +7", MaxForwards::Wrong),
    (b"Max-Forwards: -1", MaxForwards::Wrong),
    (b"Max-Forwards: 7 0", MaxForwards::Wrong),
    (b"Max-Forwards: 7,7", MaxForwards::Wrong),
    (b"Max-Forwards: 7x", MaxForwards::Wrong),
];

fn hops_with(alloc: Global, given: &[u8]) -> Option<MaxForwards> {
    match request_with(alloc, given) {
        Some(request) => Some(max_forwards(&request)),
        None => None,
    }
}

#[test]
fn says_its_hops(rt: HostRuntime) {
    for (given, hops) in HOPS {
        holds_of(
            &rt,
            hops_with(rt.alloc(), given) == Some(hops),
            "what is said of hops",
            given,
        );
    }
}

/// Where a value leads that has a hop.
const HOP: Hop = Hop {
    addr: [192, 0, 2, 10],
    port: 5060,
    transport: Transport::Udp,
};

/// The same over TCP.
const OVER_TCP: Hop = Hop {
    addr: [192, 0, 2, 10],
    port: 5060,
    transport: Transport::Tcp,
};

/// Lines, and where the first Route value leads.
const FIRST_ROUTES: [(&[u8], FirstRoute); 17] = [
    (b"Subject: x", FirstRoute::Absent),
    (b"Routes: <sip:192.0.2.10>", FirstRoute::Absent),
    (b"Route: <sip:192.0.2.10;lr>", FirstRoute::To(HOP)),
    (
        b"ROUTE:\"a, <b>\" <sip:x@192.0.2.10:5060> , <sip:b>",
        FirstRoute::To(HOP),
    ),
    (b"Route: <sip:a,b@192.0.2.10>", FirstRoute::To(HOP)),
    (
        b"Route: <SIP:192.0.2.10>\r\nRoute: <sip:192.0.2.11>",
        FirstRoute::To(HOP),
    ),
    (
        b"Route: <sip:example.com;lr>, <sip:192.0.2.10>",
        FirstRoute::NoHop,
    ),
    (b"Route: sip:192.0.2.10", FirstRoute::NoHop),
    (b"Route: <sip:192.0.2.10", FirstRoute::NoHop),
    (b"Route: <sips:192.0.2.10>", FirstRoute::NoHop),
    (b"Route: < sip:192.0.2.10>", FirstRoute::NoHop),
    (b"Route: <sip:192.0.2.10;maddr=h>", FirstRoute::NoHop),
    (
        b"Route: <sip:192.0.2.10;transport=tcp;lr>",
        FirstRoute::To(OVER_TCP),
    ),
    (b"Route: <sip:192.0.2.10;transport=tls>", FirstRoute::NoHop),
    (b"Route: \"<sip:192.0.2.10>\"", FirstRoute::NoHop),
    (b"Route: ,<sip:192.0.2.10>", FirstRoute::NoHop),
    (b"Route:", FirstRoute::NoHop),
];

fn first_route_with(alloc: Global, given: &[u8]) -> Option<FirstRoute> {
    match request_with(alloc, given) {
        Some(request) => Some(first_route(&request)),
        None => None,
    }
}

#[test]
fn finds_the_first_route(rt: HostRuntime) {
    for (given, route) in FIRST_ROUTES {
        holds_of(
            &rt,
            first_route_with(rt.alloc(), given) == Some(route),
            "where the first Route value leads",
            given,
        );
    }
}

/// Lines, and whether each Route value in them has a SIP URI in angle brackets.
const READABLE: [(&[u8], bool); 15] = [
    (b"Subject: x", true),
    (b"Route: <sip:a;lr>", true),
    (
        b"Route: <sip:a>, \"b, c\" <sip:b@h:5060;lr>;x=\"1,2\"\r\nroute: <SIP:[::1]>",
        true,
    ),
    (b"Route: <sip:a,b@h>,<sip:c>", true),
    (b"Route: sip:a", false),
    (b"Route: <sip:a>,", false),
    (b"Route: ,<sip:a>", false),
    (b"Route: <sip:a>,,<sip:b>", false),
    (b"Route: <sip:a>,<tel:1>", false),
    (b"Route: <sip:a>\r\nRoute: <sip:>", false),
    (b"Route: <sip:a", false),
    (b"Route: \"<sip:a>\"", false),
    (b"Route: < sip:a>", false),
    (b"Route: <sip:a b>", false),
    (b"Route:", false),
];

fn are_readable(alloc: Global, given: &[u8]) -> Option<bool> {
    match request_with(alloc, given) {
        Some(request) => Some(routes_are_readable(&request)),
        None => None,
    }
}

#[test]
fn reads_all_routes(rt: HostRuntime) {
    for (given, readable) in READABLE {
        holds_of(
            &rt,
            are_readable(rt.alloc(), given) == Some(readable),
            "whether each Route value is readable",
            given,
        );
    }
}

/// Lines with the proxy's own Route value first, and what is left of them.
const STRIPPED: [(&[u8], &[u8]); 8] = [
    (b"Subject: x\r\nRoute: <sip:192.0.2.9;lr>", b"Subject: x"),
    (b"Route: <sip:192.0.2.9;lr> , <sip:b>", b"Route: <sip:b>"),
    (
        b"Route: <sip:192.0.2.9;transport=tcp;lr>, <sip:b>",
        b"Route: <sip:b>",
    ),
    (
        b"ROUTE: \"a, b\" <sip:192.0.2.9:5060>,\t<sip:b> ,<sip:c>",
        b"ROUTE: <sip:b> ,<sip:c>",
    ),
    (
        b"Route: <sip:192.0.2.9>\r\nRoute: <sip:192.0.2.9>",
        b"Route: <sip:192.0.2.9>",
    ),
    (
        b"Subject: x\r\nRoute: <sip:192.0.2.9>\r\nroute: <sip:b>",
        b"Subject: x\r\nroute: <sip:b>",
    ),
    (b"Route: <sip:192.0.2.9>,", b"Route: "),
    (b"Route: <sip:192.0.2.9>,<x", b"Route: <x"),
];

/// Lines that stay as they are.
const KEPT: [&[u8]; 9] = [
    b"Subject: x",
    b"Routes: <sip:192.0.2.9>",
    b"Route: <sip:192.0.2.8>, <sip:192.0.2.9>",
    b"Route: <sip:192.0.2.9:5061>",
    b"Route: <sip:192.0.2.9;transport=sctp>",
    b"Route: sip:192.0.2.9",
    b"Route: <sip:192.0.2.9",
    b"Route: ,<sip:192.0.2.9>",
    b"Route: <sip:b>\r\nRoute: <sip:192.0.2.9>",
];

/// The proxy itself.
const ITSELF: Hop = Hop {
    addr: [192, 0, 2, 9],
    port: 5060,
    transport: Transport::Udp,
};

/// Hops, and whether each leads to the proxy itself.
const LED: [(Option<Hop>, bool); 6] = [
    (None, false),
    (Some(ITSELF), true),
    (Some(HOP), false),
    (
        Some(Hop {
            port: 5061,
            ..ITSELF
        }),
        false,
    ),
    (
        Some(Hop {
            transport: Transport::Tcp,
            ..ITSELF
        }),
        true,
    ),
    (
        Some(Hop {
            transport: Transport::Back(5060),
            ..ITSELF
        }),
        true,
    ),
];

#[test]
fn knows_itself(rt: HostRuntime) {
    for (row, (hop, own)) in LED.iter().enumerate() {
        holds_in_row(
            &rt,
            is_own(OWN, *hop) == *own,
            "whether a hop leads to the proxy",
            row,
        );
    }
}

/// Whether a request is changed to these lines in a copy.
fn is_copied_as(alloc: Global, request: &Message<Global>, lines: &[&[u8]]) -> bool {
    match strip_route(alloc, request, OWN) {
        Ok(copy) => spells(alloc, &copy, lines),
        Err(_) => false,
    }
}

/// Whether a request is changed to these lines, where they stand and in a copy.
fn is_changed_to(alloc: Global, request: Message<Global>, lines: &[&[u8]]) -> bool {
    let copied = is_copied_as(alloc, &request, lines);
    let changed = strip(request, OWN);
    copied && spells(alloc, &changed, lines)
}

/// Whether the lines are changed to these, where they stand and in a copy.
fn leaves(alloc: Global, given: &[u8], left: &[u8]) -> bool {
    let mut lines = REQUEST;
    lines[2] = left;
    match request_with(alloc, given) {
        Some(request) => is_changed_to(alloc, request, &lines),
        None => false,
    }
}

#[test]
fn takes_its_own_route_away(rt: HostRuntime) {
    stripping_keeps_the_rest();
    keys_tell_senders();
    for (given, left) in STRIPPED {
        holds_of(
            &rt,
            leaves(rt.alloc(), given, left),
            "the own Route value is taken away",
            given,
        );
    }
}

#[test]
fn leaves_other_routes(rt: HostRuntime) {
    for given in KEPT {
        holds_of(
            &rt,
            leaves(rt.alloc(), given, given),
            "a request keeps its Route values",
            given,
        );
    }
}
