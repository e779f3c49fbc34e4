//! The server of another request.
use crate::holds::holds;
use crate::txn::answer::*;
use crate::txn::machine::{Machine, State, due, other_server, state_of};
use crate::txn::table::{Line, Way, answers, lines_hold, ticks, unlisted_change_nothing};
use State::{Completed, Proceeding, Terminated, Trying};
use sip_txn::Reliability::{Reliable, Unreliable};
use sip_txn::TxEvent::*;

/// Every line of the table.
const LINES: [Line; 11] = [
    (Trying, AnswerProvisional, 7, Proceeding, RESEND, None),
    (Trying, AnswerSuccess, 7, Completed, RESEND, Some(32007)),
    (Trying, AnswerFailure, 7, Completed, RESEND, Some(32007)),
    (Proceeding, AnswerProvisional, 7, Proceeding, RESEND, None),
    (Proceeding, AnswerSuccess, 7, Completed, RESEND, Some(32007)),
    (Proceeding, AnswerFailure, 7, Completed, RESEND, Some(32007)),
    (Proceeding, Request, 7, Proceeding, RESEND, None),
    (Completed, Request, 7, Completed, RESEND, Some(32000)),
    (Proceeding, TransportError, 7, Terminated, FAULT, None),
    (Completed, TransportError, 7, Terminated, FAULT, None),
    (Completed, Tick, 32000, Terminated, SILENT, None),
];

/// Every line of the table over a reliable transport: timer J lasts no time (RFC 3261 section 17.2.2).
const RELIABLE_LINES: [Line; 11] = [
    (Trying, AnswerProvisional, 7, Proceeding, RESEND, None),
    (Trying, AnswerSuccess, 7, Completed, RESEND, Some(7)),
    (Trying, AnswerFailure, 7, Completed, RESEND, Some(7)),
    (Proceeding, AnswerProvisional, 7, Proceeding, RESEND, None),
    (Proceeding, AnswerSuccess, 7, Completed, RESEND, Some(7)),
    (Proceeding, AnswerFailure, 7, Completed, RESEND, Some(7)),
    (Proceeding, Request, 7, Proceeding, RESEND, None),
    (Completed, Request, 7, Completed, RESEND, Some(0)),
    (Proceeding, TransportError, 7, Terminated, FAULT, None),
    (Completed, TransportError, 7, Terminated, FAULT, None),
    (Completed, Tick, 0, Terminated, SILENT, None),
];

/// The way to each state.
const WAYS: [Way; 4] = [
    (Trying, &[]),
    (Proceeding, &[(AnswerProvisional, 0)]),
    (Completed, &[(AnswerSuccess, 0)]),
    (Terminated, &[(AnswerSuccess, 0), (TransportError, 0)]),
];

#[test]
fn lines(rt: HostRuntime) {
    lines_hold(&rt, &other_server(0, Unreliable), &WAYS, &LINES);
}

#[test]
fn unlisted(rt: HostRuntime) {
    unlisted_change_nothing(&rt, &other_server(0, Unreliable), &WAYS, &LINES);
}

#[test]
fn lines_over_a_reliable_transport(rt: HostRuntime) {
    let start = other_server(0, Reliable);
    lines_hold(&rt, &start, &WAYS, &RELIABLE_LINES);
    unlisted_change_nothing(&rt, &start, &WAYS, &RELIABLE_LINES);
}

#[test]
fn answered(rt: HostRuntime) {
    let mut machine = other_server(0, Unreliable);
    holds(&rt, due(&machine).is_none(), "nothing is due");
    answers(&rt, &mut machine, AnswerFailure, 10, RESEND);
    answers(&rt, &mut machine, Request, 20, RESEND);
    ticks(&rt, &mut machine, &[32010], SILENT);
    holds(&rt, state_of(&machine) == Terminated, "it has ended");
}

#[test]
fn answered_over_a_reliable_transport(rt: HostRuntime) {
    let mut machine = other_server(0, Reliable);
    answers(&rt, &mut machine, AnswerFailure, 10, RESEND);
    ticks(&rt, &mut machine, &[10], SILENT);
    holds(&rt, state_of(&machine) == Terminated, "it has ended");
}
