//! The side of a call's caller: its server transaction, what is owed to it, and what a response says to the fork (RFC 3261 sections
//! 16.7 and 17.2).
use crate::branches::MOVED;
use crate::holds::holds;
use crate::state::{INVITE, RINGING, message_of, opened_of};
use call_branch::{OpenedRequest, response_status};
use call_caller::{
    OwedAnswer, PendingResponse, PendingResponses, ResponseEvent, ResponseQueue, ServerTransaction,
    initial_queue, resend_if, response_for,
};
use fork_context::{Choice, Event, Up};
use fork_rank::Kind;
use sip_text::Message;
use sip_txn::{TxEvent, TxSend};
use sip_uri::Transport;
use std::alloc::Global;
use std::process::Abort;

// ---- the server transaction

/// Checks that a 2xx to an INVITE is sent at 20, and ends its transaction in 64 times T1.
fn check_accepting(rt: &impl Abort, served: &ServerTransaction) {
    holds(rt, served.due().is_none(), "no timer runs yet");
    let (accepted, out) = served.on_event(TxEvent::AnswerSuccess, 20);
    holds(rt, out.send == TxSend::Response, "the 200 is sent");
    holds(rt, accepted.due() == Some(32_020), "timer L runs");
    holds(rt, !accepted.is_over(), "it goes on");
    let (ended, _) = accepted.on_event(TxEvent::Tick, 32_020);
    holds(rt, ended.is_over(), "timer L fires");
}

#[test]
fn a_server_transaction_ends_behind_a_success(rt: HostRuntime) {
    let served = ServerTransaction::start(Kind::Invite, 0, Transport::Udp);
    check_accepting(&rt, &served);
}

// ---- what is owed

/// An answer that is owed, in a word.
fn word_of(owed: Option<PendingResponse<'_>>) -> &'static str {
    match owed {
        None => "nothing",
        Some(PendingResponse::Trying) => "trying",
        Some(PendingResponse::Passed(_)) => "passed",
        Some(PendingResponse::Final(_)) => "final",
        Some(PendingResponse::Again) => "again",
        Some(PendingResponse::CancelOk(..)) => "cancelled",
    }
}

/// The answer behind the first, in a word.
fn second_word(owed: &PendingResponses<'_>) -> &'static str {
    if owed.is_empty() {
        "nothing"
    } else {
        word_of(owed.rest().first())
    }
}

/// Whether so many answers are owed, of which the first two are these.
fn are_owed(queue: &ResponseQueue<Global>, count: usize, first: &str, second: &str) -> bool {
    let owed = queue.answers();
    owed.len() == count && *word_of(owed.first()) == *first && *second_word(&owed) == *second
}

/// Whether an answer is owed behind the others: there was memory for it.
fn owes(queue: &mut ResponseQueue<Global>, answer: OwedAnswer<Global>) -> bool {
    match queue.reserve(1) {
        Ok(()) => {
            queue.enqueue(answer);
            true
        }
        Err(_) => false,
    }
}

/// The same of an answer that may be there.
fn owes_if(queue: &mut ResponseQueue<Global>, answer: Option<OwedAnswer<Global>>) -> bool {
    match queue.reserve(1) {
        Ok(()) => {
            queue.enqueue_if(answer);
            true
        }
        Err(_) => false,
    }
}

/// Whether an answer was owed, which is owed no more.
fn pays(queue: &mut ResponseQueue<Global>) -> bool {
    if queue.answers().is_empty() {
        return false;
    }
    queue.dequeue();
    true
}

/// Checks how answers come to be owed, and are paid.
fn check_queue(rt: &impl Abort, queue: &mut ResponseQueue<Global>) {
    holds(rt, are_owed(queue, 1, "trying", "nothing"), "the 100");
    holds(rt, owes_if(queue, resend_if(true)), "the last one again");
    holds(rt, owes_if(queue, resend_if(false)), "nothing");
    let timeout = OwedAnswer::Final(Choice::NoAnswer408);
    holds(rt, owes(queue, timeout), "the 408");
    holds(rt, are_owed(queue, 3, "trying", "again"), "three answers");
    holds(rt, pays(queue), "the 100 is sent");
    holds(rt, are_owed(queue, 2, "again", "final"), "two are left");
}

#[test]
fn answers_are_owed_in_their_order(rt: HostRuntime) {
    match initial_queue(rt.alloc(), Kind::Invite) {
        Ok(mut queue) => check_queue(&rt, &mut queue),
        Err(_) => holds(&rt, false, "there is memory"),
    }
    match initial_queue(rt.alloc(), Kind::Other) {
        Ok(queue) => {
            let none = are_owed(&queue, 0, "nothing", "nothing");
            holds(&rt, none, "no 100 to another request");
        }
        Err(_) => holds(&rt, false, "there is memory"),
    }
}

/// Whether the 180 goes up as it came.
fn passes(alloc: Global) -> bool {
    match response_for(Up::Provisional(0), message_of(alloc, &RINGING)) {
        Some(OwedAnswer::Passed(response)) => response_status(&response) == 180,
        _ => false,
    }
}

/// Whether a final answer of this choice is what goes up.
fn ends(choice: Choice) -> bool {
    match response_for::<Global>(Up::Final(choice), None) {
        Some(OwedAnswer::Final(up)) => up == choice,
        _ => false,
    }
}

#[test]
fn what_goes_up_is_owed(rt: HostRuntime) {
    holds(&rt, passes(rt.alloc()), "the 180");
    holds(&rt, ends(Choice::Stored(1)), "the answer of a row");
    let none = response_for::<Global>(Up::Nothing, None).is_none();
    holds(&rt, none, "nothing");
}

// ---- what a response says to the fork

/// Whether a 180 says that the first branch rings.
fn rings(alloc: Global, opened: &OpenedRequest, response: &Message<Global>) -> bool {
    match ResponseEvent::of(&alloc, opened, 0, 180, response) {
        Ok(said) => match &said.event {
            Event::Ring(0, _) => said.destinations.is_empty(),
            _ => false,
        },
        Err(_) => false,
    }
}

/// Whether a 302 says that the first branch has answered, with two contacts that may be tried behind one that may not.
fn redirects(alloc: Global, opened: &OpenedRequest, response: &Message<Global>) -> bool {
    match ResponseEvent::of(&alloc, opened, 0, 302, response) {
        Ok(said) => match (&said.event, said.destinations.as_slice()) {
            (Event::Answer(0, _), [None, Some(_), Some(_)]) => true,
            _ => false,
        },
        Err(_) => false,
    }
}

#[test]
fn a_response_is_an_event_of_its_branch(rt: HostRuntime) {
    let alloc = rt.alloc();
    let made = (
        opened_of(alloc, &INVITE),
        message_of(alloc, &RINGING),
        message_of(alloc, &MOVED),
    );
    match &made {
        (Some(opened), Some(ringing), Some(moved)) => {
            holds(&rt, rings(alloc, opened, ringing), "the branch rings");
            holds(&rt, redirects(alloc, opened, moved), "it redirects");
        }
        _ => holds(&rt, false, "a call, a 180 and a 302"),
    }
}
