//! Messages that are written straight to a text, against those that are built and then written.
use crate::behind::{begins, if_built, is_behind, rest_behind};
use crate::build::forwarding::forwarded;
use crate::build::requests::{acknowledged, cancelled};
use crate::holds::holds;
use crate::messages::{OWN, REQUEST, ROUTED, is_written_so, may_pass, message_of};
use crate::rows::holds_in_row;
use sip_branch::BranchName;
use sip_build::{write_forwarded, write_forwarded_ack, write_forwarded_cancel};
use sip_builders::forward;
use sip_text::{Message, StartLine};
use sip_uri::SipUri;
use std::alloc::Global;

const BRANCH: BranchName = BranchName {
    key: [171; 16],
    instance: 4_294_967_295,
    context: 10,
    target: 65_535,
};

const TARGET: &[u8] = b"sip:bob@192.0.2.4:5062;method=INVITE;transport=udp?Subject=x";

/// Whether the request is written as what is built of it, behind what stood there.
fn goes_so(alloc: Global, request: &Message<Global>, target: &SipUri<Global>) -> bool {
    if !may_pass(request) {
        return false;
    }
    let StartLine::Request { .. } = request.start() else {
        return false;
    };
    let mut out = Vec::new(alloc);
    begins(&mut out)
        && write_forwarded(request, target, OWN, &BRANCH, None, &mut out).is_ok()
        && is_behind(
            alloc,
            &out,
            if_built(forward(alloc, request, target, OWN, &BRANCH)),
        )
}

/// Whether the ACK and the CANCEL of what was sent stand in a text, the one behind the other.
fn are_of(alloc: Global, out: &[u8], sent: &Message<Global>, response: &Message<Global>) -> bool {
    match rest_behind(alloc, out, acknowledged(alloc, sent, response)) {
        Some(rest) => is_written_so(alloc, cancelled(alloc, sent), rest),
        None => false,
    }
}

/// Whether those of what was sent, if something was, do.
fn are_behind(
    alloc: Global,
    out: &[u8],
    sent: Option<Message<Global>>,
    response: &Message<Global>,
) -> bool {
    match sent {
        Some(sent) => are_of(alloc, out, &sent, response),
        None => false,
    }
}

/// Whether the ACK and the CANCEL of the request that goes to that target are written as what is built of the
/// request as it goes, the one behind the other.
fn are_written_along_to(
    alloc: Global,
    request: &Message<Global>,
    target: &SipUri<Global>,
    response: &Message<Global>,
) -> bool {
    let StartLine::Request { .. } = request.start() else {
        return false;
    };
    let mut out = Vec::new(alloc);
    begins(&mut out)
        && write_forwarded_ack(request, target, OWN, &BRANCH, response, &mut out).is_ok()
        && write_forwarded_cancel(request, target, OWN, &BRANCH, &[], &mut out).is_ok()
        && are_behind(
            alloc,
            &out,
            forwarded(alloc, request, target, &BRANCH),
            response,
        )
}

/// Whether they are for the request and a response of these lines.
fn are_written_along_with(alloc: Global, request: &Message<Global>, answer: &[&[u8]]) -> bool {
    match (SipUri::read(alloc, TARGET), message_of(alloc, answer)) {
        (Ok(target), Some(response)) => are_written_along_to(alloc, request, &target, &response),
        _ => false,
    }
}

/// Whether they are for the request of these lines and a 486 with another tag.
fn are_written_along(alloc: Global, lines: &[&[u8]; 9]) -> bool {
    let mut answer = *lines;
    answer[0] = b"SIP/2.0 486 Busy Here";
    answer[4] = b"t: <sip:bob@example.com>;tag=7";
    match message_of(alloc, lines) {
        Some(request) => are_written_along_with(alloc, &request, &answer),
        None => false,
    }
}

/// Whether the request is written as what is built of it, on its way to that target.
fn goes_to_the_target(alloc: Global, request: &Message<Global>) -> bool {
    match SipUri::read(alloc, TARGET) {
        Ok(target) => goes_so(alloc, request, &target),
        Err(_) => false,
    }
}

/// Whether the request of these lines is.
fn are_written_so(alloc: Global, lines: &[&[u8]]) -> bool {
    match message_of(alloc, lines) {
        Some(request) => goes_to_the_target(alloc, &request),
        None => false,
    }
}

#[test]
fn requests_are_written_as_they_are_built(rt: HostRuntime) {
    let alloc = rt.alloc();
    holds(&rt, are_written_so(alloc, &REQUEST), "seventy hops");
    holds(
        &rt,
        are_written_so(alloc, &ROUTED),
        "no Max-Forwards, and routes",
    );
    for value in [
        b"Max-Forwards: 1".as_slice(),
        b"max-forwards: 010",
        b"MAX-FORWARDS: 255",
    ] {
        let mut lines = REQUEST;
        lines[2] = value;
        holds(&rt, are_written_so(alloc, &lines), "other hops");
    }
    let mut lines = REQUEST;
    lines[7] = b"Content-Length: 4\r\n\r\nbody";
    lines[8] = b"dropped";
    holds(&rt, are_written_so(alloc, &lines), "a body");
}

#[test]
fn requests_along_are_written_as_they_are_built(rt: HostRuntime) {
    let alloc = rt.alloc();
    for (row, lines) in [REQUEST, ROUTED].iter().enumerate() {
        holds_in_row(
            &rt,
            are_written_along(alloc, lines),
            "an ACK and a CANCEL",
            row,
        );
    }
}
