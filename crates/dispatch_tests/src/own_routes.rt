//! Requests with Route values that lead to the proxy itself.
use crate::carrying::serves_lines;
use crate::holds::holds;
use crate::outbox::Outbox;
use crate::texts::{setup_of, shelf_of};
use call_messages::lines::{CALL_ID, FROM, VIA};
use call_table::Shelf;
use fork_call::{Call, Setup};
use proxy_dispatch::Handled;
use sip_uri::{Hop, Transport};
use sip_via::Own;
use std::alloc::Global;
use std::process::Abort;
use std::sync::Wait;

/// The target, which is none of the domain.
const TARGET: Hop = Hop {
    addr: [192, 0, 2, 4],
    port: 5060,
    transport: Transport::Udp,
};

/// The proxy itself.
const HOME: Hop = Hop {
    addr: [192, 0, 2, 9],
    port: 5060,
    transport: Transport::Udp,
};

/// A To line with the tag of who answered.
const ANSWERED: &[u8] = b"t: <sip:bob@example.com>;tag=9";

const ROUTES: &[u8] = b"Route: <sip:192.0.2.9;lr>, <sip:192.0.2.9;lr>";

const BYE: [&[u8]; 9] = [
    b"BYE sip:bob@192.0.2.4 SIP/2.0",
    VIA,
    b"Max-Forwards: 70",
    ROUTES,
    FROM,
    ANSWERED,
    CALL_ID,
    b"CSeq: 2 BYE",
    b"",
];

const ACK: [&[u8]; 9] = [
    b"ACK sip:bob@192.0.2.4 SIP/2.0",
    VIA,
    b"Max-Forwards: 70",
    ROUTES,
    FROM,
    ANSWERED,
    CALL_ID,
    b"CSeq: 1 ACK",
    b"",
];

/// One that a front's address leads to, between two that lead to the own one.
const ROUTES_BY_FRONT: &[u8] =
    b"Route: <sip:192.0.2.9;lr>, <sip:192.0.2.1:5070;lr>, <sip:192.0.2.9;lr>";

/// The BYE by these.
const BYE_BY_FRONT: [&[u8]; 9] = [
    b"BYE sip:bob@192.0.2.4 SIP/2.0",
    VIA,
    b"Max-Forwards: 70",
    ROUTES_BY_FRONT,
    FROM,
    ANSWERED,
    CALL_ID,
    b"CSeq: 2 BYE",
    b"",
];

/// The front.
const FRONT: Hop = Hop {
    addr: [192, 0, 2, 1],
    port: 5070,
    transport: Transport::Udp,
};

/// Where the lines go by a setup, if that becomes of them.
fn way_from<R: Abort + Wait>(
    rt: &R,
    alloc: Global,
    shelf: &Shelf<Call<Global>>,
    setup: &Setup<Global>,
    lines: &[&[u8]],
    handled: Handled,
) -> Option<Hop> {
    let mut outbox = Outbox::new(alloc);
    if serves_lines(rt, alloc, shelf, setup, lines, 0, &mut outbox) == Some(handled) {
        outbox.to()
    } else {
        None
    }
}

/// The same where no call stands.
fn way<R: Abort + Wait>(
    rt: &R,
    alloc: Global,
    setup: &Setup<Global>,
    lines: &[&[u8]],
    handled: Handled,
) -> Option<Hop> {
    match shelf_of(alloc) {
        Some(shelf) => way_from(rt, alloc, &shelf, setup, lines, handled),
        None => None,
    }
}

/// Whether the BYE and the ACK go there.
fn both_go<R: Abort + Wait>(rt: &R, alloc: Global, setup: &Setup<Global>, to: Hop) -> bool {
    way(rt, alloc, setup, &BYE, Handled::Opened(0)) == Some(to)
        && way(rt, alloc, setup, &ACK, Handled::Forwarded) == Some(to)
}

#[test]
fn a_service_takes_them_all_away(rt: HostRuntime) {
    let well = match setup_of(rt.alloc()) {
        Some(setup) => both_go(&rt, rt.alloc(), &setup.for_a_service(), TARGET),
        None => false,
    };
    holds(&rt, well, "a BYE and an ACK to the target");
}

#[test]
fn another_proxy_takes_the_first_away(rt: HostRuntime) {
    let well = match setup_of(rt.alloc()) {
        Some(setup) => both_go(&rt, rt.alloc(), &setup, HOME),
        None => false,
    };
    holds(&rt, well, "a BYE and an ACK to the proxy itself");
}

/// Where the BYE by a front's address goes, of a service whose Record-Route line names that, or not.
fn way_by_front<R: Abort + Wait>(rt: &R, alloc: Global, is_named: bool) -> Option<Hop> {
    let setup = setup_of(alloc)?.for_a_service();
    let setup = if is_named {
        setup.recording_as(Own::over_udp(FRONT.addr, FRONT.port))
    } else {
        setup
    };
    way(rt, alloc, &setup, &BYE_BY_FRONT, Handled::Opened(0))
}

#[test]
fn a_service_takes_those_away_that_its_record_route_line_names(rt: HostRuntime) {
    let to = way_by_front(&rt, rt.alloc(), true);
    holds(&rt, to == Some(TARGET), "to the target");
    let to = way_by_front(&rt, rt.alloc(), false);
    holds(
        &rt,
        to == Some(FRONT),
        "to the front, which is none of its own",
    );
}
