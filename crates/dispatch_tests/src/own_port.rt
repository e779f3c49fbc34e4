//! Requests of a dialog to a telephone at the proxy's own address: they reach it where the own port alone counts.
use crate::carrying::serves_lines;
use crate::holds::holds;
use crate::outbox::Outbox;
use crate::texts::{setup_of, shelf_of};
use call_messages::lines::{CALL_ID, FROM, VIA};
use call_table::Shelf;
use fork_call::{Call, Setup};
use proxy_dispatch::Handled;
use sip_uri::{Hop, Transport};
use std::alloc::Global;
use std::process::Abort;
use std::sync::Wait;

/// The telephone.
const TELEPHONE: Hop = Hop {
    addr: [192, 0, 2, 9],
    port: 5081,
    transport: Transport::Udp,
};

/// The location of its user.
const LOCATION: Hop = Hop {
    addr: [192, 0, 2, 4],
    port: 5060,
    transport: Transport::Udp,
};

/// A To line with the tag of who answered.
const ANSWERED: &[u8] = b"t: <sip:bob@example.com>;tag=9";

const BYE: [&[u8]; 8] = [
    b"BYE sip:bob@192.0.2.9:5081 SIP/2.0",
    VIA,
    b"Max-Forwards: 70",
    FROM,
    ANSWERED,
    CALL_ID,
    b"CSeq: 2 BYE",
    b"",
];

const ACK: [&[u8]; 8] = [
    b"ACK sip:bob@192.0.2.9:5081 SIP/2.0",
    VIA,
    b"Max-Forwards: 70",
    FROM,
    ANSWERED,
    CALL_ID,
    b"CSeq: 1 ACK",
    b"",
];

/// What becomes of a request, and where it goes.
type Way = (Handled, Option<Hop>);

/// Whether a request goes that way by a setup.
fn goes_from<R: Abort + Wait>(
    rt: &R,
    alloc: Global,
    shelf: &Shelf<Call<Global>>,
    setup: &Setup<Global>,
    lines: &[&[u8]],
    way: Way,
) -> bool {
    let mut outbox = Outbox::new(alloc);
    let handled = serves_lines(rt, alloc, shelf, setup, lines, 0, &mut outbox);
    handled == Some(way.0) && outbox.to() == way.1
}

/// The same where no call stands.
fn goes<R: Abort + Wait>(
    rt: &R,
    alloc: Global,
    setup: &Setup<Global>,
    lines: &[&[u8]],
    way: Way,
) -> bool {
    match shelf_of(alloc) {
        Some(shelf) => goes_from(rt, alloc, &shelf, setup, lines, way),
        None => false,
    }
}

/// Whether the BYE and the ACK go these ways.
fn both_go<R: Abort + Wait>(
    rt: &R,
    alloc: Global,
    setup: &Setup<Global>,
    bye: Way,
    ack: Way,
) -> bool {
    goes(rt, alloc, setup, &BYE, bye) && goes(rt, alloc, setup, &ACK, ack)
}

#[test]
fn with_the_own_port_alone_they_reach_the_telephone(rt: HostRuntime) {
    let bye = (Handled::Opened(0), Some(TELEPHONE));
    let ack = (Handled::Forwarded, Some(TELEPHONE));
    let well = match setup_of(rt.alloc()) {
        Some(setup) => both_go(&rt, rt.alloc(), &setup.with_own_port(), bye, ack),
        None => false,
    };
    holds(&rt, well, "a BYE and an ACK to another port");
}

#[test]
fn with_any_port_they_are_for_the_domain(rt: HostRuntime) {
    let bye = (Handled::Opened(0), Some(LOCATION));
    let ack = (Handled::Dropped, None);
    let well = match setup_of(rt.alloc()) {
        Some(setup) => both_go(&rt, rt.alloc(), &setup, bye, ack),
        None => false,
    };
    holds(&rt, well, "a BYE and an ACK for the domain");
}
