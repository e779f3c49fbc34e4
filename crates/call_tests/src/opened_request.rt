//! What a call is opened with, and what is sent of it to a target: the request, the ACK and the CANCEL (RFC 3261 sections 9.1, 16.6
//! and 17.1.1.3).
use crate::holds::holds;
use crate::looking::SECOND_NAME;
use crate::one_branch::first_target;
use crate::state::{
    ACK, CALLER, CANCEL_FIRST, INVITE, NOT_FOUND, OWN, TO_FIRST, message_of, opened_of,
};
use call_branch::{Destination, OpenedRequest, ReasonLines};
use call_messages::lines::text_of;
use call_model::TriedContacts;
use sip_text::Message;
use sip_txn::TxSend;
use std::alloc::{AllocError, Global};
use std::process::Abort;

/// Checks that what a call was opened with is what was said.
fn check_opened(rt: &impl Abort, opened: &OpenedRequest) {
    holds(rt, opened.own() == OWN, "the own address");
    holds(rt, opened.caller() == CALLER, "where the answers go");
    holds(rt, opened.route().is_none(), "no Route value");
    let tried = opened.tried() == TriedContacts::OverUdp;
    holds(rt, tried, "which contacts are tried");
    holds(rt, !opened.stamps(), "the 100 takes no Timestamp line");
    holds(rt, opened.reasons(), "the CANCELs say why");
    holds(rt, opened.ring() == 181_000, "how long contacts ring");
    holds(rt, opened.is_invite(), "the request is an INVITE");
    holds(rt, opened.branch(1) == SECOND_NAME, "the second branch");
}

#[test]
fn a_call_knows_what_it_was_opened_with(rt: HostRuntime) {
    match opened_of(rt.alloc(), &INVITE) {
        Some(opened) => {
            check_opened(&rt, &opened);
            let given_back = opened.into_request();
            holds(&rt, given_back.is_invite(), "the INVITE is given back");
        }
        None => holds(&rt, false, "an INVITE opens a call"),
    }
}

// ---- what is sent to a target

/// Whether bytes that were made spell these lines.
fn spell(alloc: Global, made: Result<Vec<u8>, AllocError>, lines: &[&[u8]]) -> bool {
    match (made, text_of(alloc, lines)) {
        (Ok(bytes), Some(text)) => *bytes == *text,
        _ => false,
    }
}

/// Whether an ACK was made that spells these lines.
fn spells_ack(alloc: Global, made: Result<Option<Vec<u8>>, AllocError>, lines: &[&[u8]]) -> bool {
    match made {
        Ok(Some(bytes)) => spell(alloc, Ok(bytes), lines),
        Ok(None) | Err(_) => false,
    }
}

/// Whether no ACK was made.
fn is_no_ack(made: Result<Option<Vec<u8>>, AllocError>) -> bool {
    match made {
        Ok(None) => true,
        Ok(Some(_)) | Err(_) => false,
    }
}

/// Whether the 404 of the first target gets its ACK where one is asked for.
fn is_acknowledged(
    alloc: Global,
    opened: &OpenedRequest,
    target: &Destination,
    response: &Message<Global>,
) -> bool {
    let made = opened.ack_if(&alloc, target, 0, TxSend::Ack, response);
    let none = opened.ack_if(&alloc, target, 0, TxSend::Nothing, response);
    spells_ack(alloc, made, &ACK) && is_no_ack(none)
}

/// Whether the CANCEL to the first target gives these reasons: it has no line of them.
fn is_cancelled_for(
    alloc: Global,
    opened: &OpenedRequest,
    target: &Destination,
    reasons: &ReasonLines<Global>,
) -> bool {
    match reasons.further(alloc) {
        Ok(lines) => spell(
            alloc,
            opened.cancel_bytes(&alloc, target, 0, &lines),
            &CANCEL_FIRST,
        ),
        Err(_) => false,
    }
}

/// Whether the CANCEL to the first target gives the reasons of a message without any.
fn is_cancelled(
    alloc: Global,
    opened: &OpenedRequest,
    target: &Destination,
    message: &Message<Global>,
) -> bool {
    match ReasonLines::of(&alloc, message) {
        Ok(reasons) => is_cancelled_for(alloc, opened, target, &reasons),
        Err(_) => false,
    }
}

/// Checks what is sent to the first target.
fn check_sent(
    rt: &impl Abort,
    alloc: Global,
    opened: &OpenedRequest,
    target: &Destination,
    response: &Message<Global>,
) {
    let request = opened.request_bytes(&alloc, target, 0);
    holds(rt, spell(alloc, request, &TO_FIRST), "the request");
    let acknowledged = is_acknowledged(alloc, opened, target, response);
    holds(rt, acknowledged, "the ACK for a 404");
    let cancelled = is_cancelled(alloc, opened, target, response);
    holds(rt, cancelled, "the CANCEL");
}

#[test]
fn a_target_is_sent_request_ack_and_cancel(rt: HostRuntime) {
    let alloc = rt.alloc();
    let made = (
        opened_of(alloc, &INVITE),
        first_target(alloc),
        message_of(alloc, &NOT_FOUND),
    );
    match &made {
        (Some(opened), Some(target), Some(response)) => {
            check_sent(&rt, alloc, opened, target, response)
        }
        _ => holds(&rt, false, "a call, its target and a 404"),
    }
}

// ---- the reasons of a CANCEL

/// A CANCEL that says why it is sent.
const WITH_REASON: [&[u8]; 9] = [
    b"CANCEL sip:bob@example.com SIP/2.0",
    b"v: SIP/2.0/UDP 192.0.2.1:5060;branch=z9hG4bKa",
    b"Max-Forwards: 70",
    b"f: <sip:alice@example.com>;tag=1",
    b"t: <sip:bob@example.com>",
    b"i: c1",
    b"CSeq: 1 CANCEL",
    b"Reason: SIP;cause=200",
    b"",
];

/// Whether the one Reason line is that.
fn is_the_reason(alloc: Global, reasons: &ReasonLines<Global>) -> bool {
    match reasons.further(alloc) {
        Ok(lines) => match lines.as_slice() {
            [line] => {
                line.name == b"Reason".as_slice() && line.value == b"SIP;cause=200".as_slice()
            }
            _ => false,
        },
        Err(_) => false,
    }
}

/// Whether a message has that one Reason line.
fn has_the_reason(alloc: Global, message: &Message<Global>) -> bool {
    match ReasonLines::of(&alloc, message) {
        Ok(reasons) => is_the_reason(alloc, &reasons),
        Err(_) => false,
    }
}

#[test]
fn the_reasons_of_a_message_are_its_reason_lines(rt: HostRuntime) {
    let alloc = rt.alloc();
    match message_of(alloc, &WITH_REASON) {
        Some(message) => holds(&rt, has_the_reason(alloc, &message), "its Reason line"),
        None => holds(&rt, false, "a CANCEL"),
    }
}
