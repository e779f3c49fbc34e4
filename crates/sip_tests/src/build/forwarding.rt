//! Requests that were forwarded, byte for byte.
use crate::behind::if_built;
use crate::holds::holds;
use crate::messages::{
    OWN, REQUEST, SOURCE, is_written_as, is_written_as_read, may_pass, message_of,
};
use crate::rows::holds_in_row;
use sip_branch::{BranchName, read_branch};
use sip_builders::{forward, mark_received};
use sip_route::{is_loop, loop_key};
use sip_text::{Message, StartLine};
use sip_uri::SipUri;
use sip_via::{Via, top_via};
use std::alloc::Global;

const BRANCH: BranchName = BranchName {
    key: [0; 16],
    instance: 7,
    context: 3,
    target: 0,
};

const TARGET: &[u8] = b"sip:bob@192.0.2.4";

/// The Via line that the proxy puts first with that branch.
pub const VIA_LINE: &[u8] =
    b"Via: SIP/2.0/UDP 192.0.2.9:5060;branch=z9hG4bK00000000000000000000000000000000.7.3.0";

/// A request on its way to a target.
pub fn forwarded(
    alloc: Global,
    message: &Message<Global>,
    target: &SipUri<Global>,
    branch: &BranchName,
) -> Option<Message<Global>> {
    if !may_pass(message) {
        return None;
    }
    match message.start() {
        StartLine::Request { .. } => if_built(forward(alloc, message, target, OWN, branch)),
        StartLine::Response { .. } => None,
    }
}

/// A request on its way to the target of this text.
fn forwarded_to(
    alloc: Global,
    message: &Message<Global>,
    target: &[u8],
    branch: &BranchName,
) -> Option<Message<Global>> {
    match SipUri::read(alloc, target) {
        Ok(target) => forwarded(alloc, message, &target, branch),
        Err(_) => None,
    }
}

/// A request, marked and on its way to a target.
fn marked_and_sent(
    alloc: Global,
    request: &Message<Global>,
    target: &[u8],
) -> Option<Message<Global>> {
    match mark_received(alloc, request, SOURCE) {
        Ok(marked) => forwarded_to(alloc, &marked, target, &BRANCH),
        Err(_) => None,
    }
}

/// The request of these lines, marked and on its way to a target.
fn sent(alloc: Global, lines: &[&[u8]], target: &[u8]) -> Option<Message<Global>> {
    match message_of(alloc, lines) {
        Some(request) => marked_and_sent(alloc, &request, target),
        None => None,
    }
}

/// An INVITE, marked and on its way.
pub fn invite_sent(alloc: Global) -> Option<Message<Global>> {
    let mut lines = REQUEST;
    lines[0] = b"INVITE sip:bob@example.com SIP/2.0";
    lines[6] = b"CSeq: 1 INVITE";
    sent(alloc, &lines, TARGET)
}

/// The branch of a Via value.
fn branch_in(alloc: Global, value: &[u8]) -> Option<BranchName> {
    match Via::read(alloc, value) {
        Ok(via) => read_branch(via.branch().unwrap_or(b"")),
        Err(_) => None,
    }
}

/// The branch of the top Via value of the message of these lines.
fn branch_of(alloc: Global, lines: &[&[u8]]) -> Option<BranchName> {
    match message_of(alloc, lines) {
        Some(message) => branch_in(alloc, top_via(&message)),
        None => None,
    }
}

#[test]
fn forwards_to_a_target(rt: HostRuntime) {
    let alloc = rt.alloc();
    let expected: [&[u8]; 10] = [
        b"OPTIONS sip:bob@192.0.2.4 SIP/2.0",
        VIA_LINE,
        b"v: SIP/2.0/UDP 192.0.2.1:5060;branch=z9hG4bKa;rport=40000;received=192.0.2.1",
        b"Max-Forwards: 69",
        REQUEST[3],
        REQUEST[4],
        REQUEST[5],
        REQUEST[6],
        REQUEST[7],
        b"",
    ];
    let target = b"sip:bob@192.0.2.4;method=INVITE?Subject=x";
    holds(
        &rt,
        is_written_as(alloc, sent(alloc, &REQUEST, target), &expected),
        "a request goes to a target",
    );
    holds(
        &rt,
        is_written_as_read(alloc, &expected),
        "the text of a request on its way is written as it is read",
    );
    holds(
        &rt,
        branch_of(alloc, &expected) == Some(BRANCH),
        "the top branch of a request on its way is the proxy's",
    );
}

/// The request with other lines in the place of its Max-Forwards.
fn request_with(alloc: Global, hops: &[u8]) -> Option<Message<Global>> {
    let mut lines = REQUEST;
    lines[2] = hops;
    message_of(alloc, &lines)
}

/// That request on its way.
fn sent_with(alloc: Global, hops: &[u8]) -> Option<Message<Global>> {
    match request_with(alloc, hops) {
        Some(request) => forwarded_to(alloc, &request, TARGET, &BRANCH),
        None => None,
    }
}

/// Whether the request with `hops` in the place of its Max-Forwards goes on its way with `lowered` there, and with `first` in
/// front of its Via line.
fn is_sent_as(alloc: Global, hops: &[u8], first: &[u8], lowered: &[u8]) -> bool {
    let expected: [&[u8]; 10] = [
        b"OPTIONS sip:bob@192.0.2.4 SIP/2.0",
        first,
        REQUEST[1],
        lowered,
        REQUEST[3],
        REQUEST[4],
        REQUEST[5],
        REQUEST[6],
        REQUEST[7],
        b"",
    ];
    is_written_as(alloc, sent_with(alloc, hops), &expected)
}

/// Lines with a Max-Forwards, each with what stands in their place on the way.
const LOWERED: [(&[u8], &[u8]); 4] = [
    (b"Max-Forwards: 255", b"Max-Forwards: 254"),
    (b"MAX-FORWARDS:  1", b"MAX-FORWARDS: 0"),
    (b"Max-Forwards: 010", b"Max-Forwards: 9"),
    (
        b"Max-Forwards: 5\r\nMax-Forwards: 9",
        b"Max-Forwards: 4\r\nMax-Forwards: 9",
    ),
];

#[test]
fn lowers_the_first_max_forwards(rt: HostRuntime) {
    let alloc = rt.alloc();
    for (row, (hops, lowered)) in LOWERED.iter().enumerate() {
        holds_in_row(
            &rt,
            is_sent_as(alloc, hops, VIA_LINE, lowered),
            "the first Max-Forwards is lowered",
            row,
        );
    }
}

/// The proxy's Via line, and the Max-Forwards line that is put behind it.
const VIA_AND_SEVENTY: &[u8] =
    b"Via: SIP/2.0/UDP 192.0.2.9:5060;branch=z9hG4bK00000000000000000000000000000000.7.3.0\r\nMax-Forwards: 70";

#[test]
fn gives_seventy_hops_where_none_are_named(rt: HostRuntime) {
    let alloc = rt.alloc();
    holds(
        &rt,
        is_sent_as(alloc, b"Subject: x", VIA_AND_SEVENTY, b"Subject: x"),
        "a request without a Max-Forwards gets seventy hops",
    );
}

/// Lines with a Max-Forwards with which no request is forwarded.
const NOT_SENT: [&[u8]; 4] = [
    b"Max-Forwards: 0",
    b"Max-Forwards: 256",
    b"Max-Forwards: 0001",
    b"Max-Forwards: x",
];

/// Whether the request with `hops` in the place of its Max-Forwards goes on its way.
fn is_sent(alloc: Global, hops: &[u8]) -> Option<bool> {
    match request_with(alloc, hops) {
        Some(request) => Some(forwarded_to(alloc, &request, TARGET, &BRANCH).is_some()),
        None => None,
    }
}

#[test]
fn other_hops_are_not_forwarded(rt: HostRuntime) {
    let alloc = rt.alloc();
    for (row, hops) in NOT_SENT.iter().enumerate() {
        holds_in_row(
            &rt,
            is_sent(alloc, hops) == Some(false),
            "a request with other hops is not forwarded",
            row,
        );
    }
}

/// Whether a request is a loop; nothing where there is none.
fn is_any_loop(request: Option<Message<Global>>) -> Option<bool> {
    match request {
        Some(request) => Some(is_loop(&request, OWN)),
        None => None,
    }
}

/// Whether the request is a loop before it passed.
fn is_loop_at_first(alloc: Global) -> Option<bool> {
    is_any_loop(message_of(alloc, &REQUEST))
}

/// A request on its way to this target, with its loop key in the branch.
fn passed_on(alloc: Global, request: &Message<Global>, target: &[u8]) -> Option<Message<Global>> {
    let branch = BranchName {
        key: loop_key(request),
        ..BRANCH
    };
    forwarded_to(alloc, request, target, &branch)
}

/// Whether the request is a loop once it passed on its way to this target.
fn is_loop_on_the_way(alloc: Global, target: &[u8]) -> Option<bool> {
    match message_of(alloc, &REQUEST) {
        Some(request) => is_any_loop(passed_on(alloc, &request, target)),
        None => None,
    }
}

#[test]
fn a_spiral_is_no_loop(rt: HostRuntime) {
    let alloc = rt.alloc();
    holds(
        &rt,
        is_loop_at_first(alloc) == Some(false),
        "a request that never passed is no loop",
    );
    holds(
        &rt,
        is_loop_on_the_way(alloc, b"sip:bob@example.com") == Some(true),
        "a request that comes again with the same target is a loop",
    );
    holds(
        &rt,
        is_loop_on_the_way(alloc, TARGET) == Some(false),
        "a request that comes again with another target is none",
    );
}
