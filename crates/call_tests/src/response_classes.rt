//! What a response is to a transaction, and what is done with it as its transaction says (RFC 3261 sections 16.7, 17 and 21).
use crate::holds::holds;
use crate::state::{NOT_FOUND, RINGING, message_of};
use call_branch::{
    answer_event, is_fault, is_passed, is_request, is_response, is_timeout, keep_if_best,
    reliability_of, response_event, split_response,
};
use sip_text::Message;
use sip_txn::{Reliability, TxEvent, TxPass, TxSend};
use sip_uri::Transport;
use std::alloc::Global;

/// A status, what a client transaction is fed for a response that has it, and what a server transaction is for such an answer.
const CLASSES: [(u16, TxEvent, TxEvent); 6] = [
    (180, TxEvent::Provisional, TxEvent::AnswerProvisional),
    (200, TxEvent::Success, TxEvent::AnswerSuccess),
    (302, TxEvent::Failure, TxEvent::AnswerFailure),
    (404, TxEvent::Failure, TxEvent::AnswerFailure),
    (503, TxEvent::Failure, TxEvent::AnswerFailure),
    (603, TxEvent::Failure, TxEvent::AnswerFailure),
];

#[test]
fn a_status_has_its_class(rt: HostRuntime) {
    for (status, to_client, to_server) in CLASSES {
        holds(&rt, response_event(status) == to_client, "to a client");
        holds(&rt, answer_event(status) == to_server, "to a server");
    }
}

/// What a transaction sends, and whether that is its response, or its request.
const SENT: [(TxSend, bool, bool); 4] = [
    (TxSend::Nothing, false, false),
    (TxSend::Request, false, true),
    (TxSend::Ack, false, false),
    (TxSend::Response, true, false),
];

/// What a transaction hands up, and whether that is the response that came, its timeout, or its failure.
const PASSED: [(TxPass, [bool; 3]); 5] = [
    (TxPass::Nothing, [false, false, false]),
    (TxPass::Response, [true, false, false]),
    (TxPass::Timeout, [false, true, false]),
    (TxPass::Fault, [false, false, true]),
    (TxPass::Ack, [false, false, false]),
];

#[test]
fn a_transaction_says_what_is_sent_and_handed_up(rt: HostRuntime) {
    for (send, response, request) in SENT {
        holds(&rt, is_response(send) == response, "its response is sent");
        holds(&rt, is_request(send) == request, "its request is sent");
    }
    for (pass, [response, timeout, fault]) in PASSED {
        holds(&rt, is_passed(pass) == response, "the response goes up");
        holds(&rt, is_timeout(pass) == timeout, "it has timed out");
        holds(&rt, is_fault(pass) == fault, "it has failed");
    }
}

#[test]
fn udp_alone_may_lose_a_message(rt: HostRuntime) {
    let udp = reliability_of(Transport::Udp);
    holds(&rt, udp == Reliability::Unreliable, "UDP");
    let tcp = reliability_of(Transport::Tcp);
    holds(&rt, tcp == Reliability::Reliable, "TCP");
}

/// Whether a response may go up at once, and whether it is kept.
fn sides_of(status: u16, message: Message<Global>) -> (bool, bool) {
    let (up, kept) = split_response(status, message);
    (up.is_some(), kept.is_some())
}

/// The same of the response of these lines.
fn sides(alloc: Global, status: u16, lines: &[&[u8]]) -> Option<(bool, bool)> {
    match message_of(alloc, lines) {
        Some(message) => Some(sides_of(status, message)),
        None => None,
    }
}

/// Whether a failure is kept where no stored answer ranks before it, and where one does.
fn is_kept(alloc: Global) -> (bool, bool) {
    let best = keep_if_best(true, message_of(alloc, &NOT_FOUND)).is_some();
    let other = keep_if_best(false, message_of(alloc, &NOT_FOUND)).is_some();
    (best, other)
}

#[test]
fn a_failure_is_kept_and_others_go_up(rt: HostRuntime) {
    let alloc = rt.alloc();
    let ringing = sides(alloc, 180, &RINGING);
    holds(&rt, ringing == Some((true, false)), "a 180 goes up");
    let failed = sides(alloc, 404, &NOT_FOUND);
    holds(&rt, failed == Some((false, true)), "a 404 is kept");
    holds(&rt, is_kept(alloc) == (true, false), "the best alone is");
}
