//! The CANCEL of a request that was sent, and the ACK for a response to it.
use crate::behind::if_built;
use crate::build::forwarding::{VIA_LINE, invite_sent};
use crate::holds::holds;
use crate::messages::{REQUEST, is_read_back, is_written_as, is_written_as_read, message_of};
use sip_builders::{ack_is_message, ack_of, cancel_is_message, cancel_of};
use sip_text::{Message, StartLine};
use std::alloc::Global;

/// An INVITE as it was sent on.
pub const SENT: [&[u8]; 10] = [
    b"INVITE sip:bob@192.0.2.4 SIP/2.0",
    b"Via: SIP/2.0/UDP 192.0.2.9:5060;branch=z9hG4bK00000000000000000000000000000000.7.3.0",
    b"v: SIP/2.0/UDP 192.0.2.1:5060;branch=z9hG4bKa;rport=40000;received=192.0.2.1",
    b"Max-Forwards: 69",
    b"f: <sip:alice@example.com>;tag=1",
    b"t: <sip:bob@example.com>",
    b"i: c1",
    b"CSeq: 1 INVITE",
    b"l: 0",
    b"",
];

/// The CANCEL of a request.
pub fn cancelled(alloc: Global, sent: &Message<Global>) -> Option<Message<Global>> {
    match sent.start() {
        StartLine::Request { .. } => if_built(cancel_of(alloc, sent)),
        StartLine::Response { .. } => None,
    }
}

/// The ACK for a response to a request.
pub fn acknowledged(
    alloc: Global,
    sent: &Message<Global>,
    response: &Message<Global>,
) -> Option<Message<Global>> {
    match sent.start() {
        StartLine::Request { .. } => if_built(ack_of(alloc, sent, response)),
        StartLine::Response { .. } => None,
    }
}

/// The CANCEL of the request of these lines.
fn cancel(alloc: Global, lines: &[&[u8]]) -> Option<Message<Global>> {
    match message_of(alloc, lines) {
        Some(sent) => cancelled(alloc, &sent),
        None => None,
    }
}

#[test]
fn cancels_on_the_way_of_the_request(rt: HostRuntime) {
    let alloc = rt.alloc();
    let expected: [&[u8]; 9] = [
        b"CANCEL sip:bob@192.0.2.4 SIP/2.0",
        SENT[1],
        b"Max-Forwards: 70",
        b"From: <sip:alice@example.com>;tag=1",
        b"To: <sip:bob@example.com>",
        b"Call-ID: c1",
        b"CSeq: 1 CANCEL",
        b"Content-Length: 0",
        b"",
    ];
    holds(
        &rt,
        is_written_as(alloc, cancel(alloc, &SENT), &expected),
        "the CANCEL of an INVITE",
    );
    holds(
        &rt,
        is_written_as_read(alloc, &expected),
        "the text of a CANCEL is written as it is read",
    );
}

/// The request as it was sent on, with a route.
pub fn routed() -> [&'static [u8]; 10] {
    let mut lines = SENT;
    lines[3] = b"Route: <sip:a;lr>\r\nRoute: <sip:b;lr>,<sip:c;lr>";
    lines
}

/// The ACK for the response of these lines to a request, if one is there.
fn ack_of_any(
    alloc: Global,
    sent: Option<Message<Global>>,
    lines: &[&[u8]],
) -> Option<Message<Global>> {
    match (sent, message_of(alloc, lines)) {
        (Some(sent), Some(response)) => acknowledged(alloc, &sent, &response),
        _ => None,
    }
}

/// The ACK for a 486 to the request with a route.
fn ack_on_the_route(alloc: Global) -> Option<Message<Global>> {
    let mut lines = routed();
    lines[0] = b"SIP/2.0 486 Busy Here";
    lines[5] = b"t: <sip:bob@example.com>;tag=9";
    ack_of_any(alloc, message_of(alloc, &routed()), &lines)
}

#[test]
fn acknowledges_with_the_to_of_the_response(rt: HostRuntime) {
    let alloc = rt.alloc();
    let expected: [&[u8]; 11] = [
        b"ACK sip:bob@192.0.2.4 SIP/2.0",
        SENT[1],
        b"Max-Forwards: 70",
        b"Route: <sip:a;lr>",
        b"Route: <sip:b;lr>,<sip:c;lr>",
        b"From: <sip:alice@example.com>;tag=1",
        b"To: <sip:bob@example.com>;tag=9",
        b"Call-ID: c1",
        b"CSeq: 1 ACK",
        b"Content-Length: 0",
        b"",
    ];
    holds(
        &rt,
        is_written_as(alloc, ack_on_the_route(alloc), &expected),
        "the ACK for a 486 to an INVITE with a route",
    );
}

/// The CANCEL of the INVITE that was forwarded.
fn cancel_of_forwarded(alloc: Global) -> Option<Message<Global>> {
    match invite_sent(alloc) {
        Some(sent) => cancelled(alloc, &sent),
        None => None,
    }
}

/// The ACK for a 486 to the INVITE that was forwarded.
fn ack_of_forwarded(alloc: Global) -> Option<Message<Global>> {
    let mut lines = REQUEST;
    lines[0] = b"SIP/2.0 486 Busy Here";
    lines[4] = b"t: <sip:bob@example.com>;tag=9";
    lines[6] = b"CSeq: 1 INVITE";
    ack_of_any(alloc, invite_sent(alloc), &lines)
}

#[test]
fn cancels_and_acknowledges_what_it_forwarded(rt: HostRuntime) {
    let alloc = rt.alloc();
    let mut expected: [&[u8]; 9] = [
        b"CANCEL sip:bob@192.0.2.4 SIP/2.0",
        VIA_LINE,
        b"Max-Forwards: 70",
        b"From: <sip:alice@example.com>;tag=1",
        b"To: <sip:bob@example.com>",
        b"Call-ID: c1",
        b"CSeq: 1 CANCEL",
        b"Content-Length: 0",
        b"",
    ];
    holds(
        &rt,
        is_written_as(alloc, cancel_of_forwarded(alloc), &expected),
        "the CANCEL of an INVITE that was forwarded",
    );
    expected[0] = b"ACK sip:bob@192.0.2.4 SIP/2.0";
    expected[4] = b"To: <sip:bob@example.com>;tag=9";
    expected[6] = b"CSeq: 1 ACK";
    holds(
        &rt,
        is_written_as(alloc, ack_of_forwarded(alloc), &expected),
        "the ACK for a 486 to an INVITE that was forwarded",
    );
}

#[test]
fn are_read_as_they_were_written(rt: HostRuntime) {
    let alloc = rt.alloc();
    cancel_is_message();
    ack_is_message();
    holds(
        &rt,
        is_read_back(alloc, cancel(alloc, &routed())),
        "a CANCEL is read as it was written",
    );
    holds(
        &rt,
        is_read_back(alloc, ack_on_the_route(alloc)),
        "an ACK is read as it was written",
    );
}
