//! The server of an INVITE.
use crate::holds::holds;
use crate::txn::answer::*;
use crate::txn::machine::{Machine, State, due, invite_server, state_of};
use crate::txn::table::{Line, Way, answers, lines_hold, ticks, unlisted_change_nothing};
use State::{Accepted, Completed, Confirmed, Proceeding, Terminated};
use sip_txn::Reliability::{Reliable, Unreliable};
use sip_txn::TxEvent::*;

/// Every line of the table.
const LINES: [Line; 12] = [
    (Proceeding, Request, 7, Proceeding, RESEND, None),
    (Proceeding, AnswerProvisional, 7, Proceeding, RESEND, None),
    (Proceeding, AnswerSuccess, 7, Accepted, RESEND, Some(32007)),
    (Proceeding, AnswerFailure, 7, Completed, RESEND, Some(507)),
    (Completed, Request, 7, Completed, RESEND, Some(500)),
    (Completed, Tick, 500, Completed, RESEND, Some(1500)),
    (Completed, Ack, 7, Confirmed, SILENT, Some(5007)),
    (Completed, Tick, 32000, Terminated, TIMEOUT, None),
    (Confirmed, Tick, 5000, Terminated, SILENT, None),
    (Accepted, AnswerSuccess, 7, Accepted, RESEND, Some(32000)),
    (Accepted, Ack, 7, Accepted, PASS_ACK, Some(32000)),
    (Accepted, Tick, 32000, Terminated, SILENT, None),
];

/// Every line of the table over a reliable transport: timer G does not run, and timer I lasts no time (RFC 3261
/// section 17.2.1).
const RELIABLE_LINES: [Line; 11] = [
    (Proceeding, Request, 7, Proceeding, RESEND, None),
    (Proceeding, AnswerProvisional, 7, Proceeding, RESEND, None),
    (Proceeding, AnswerSuccess, 7, Accepted, RESEND, Some(32007)),
    (Proceeding, AnswerFailure, 7, Completed, RESEND, Some(32007)),
    (Completed, Request, 7, Completed, RESEND, Some(32000)),
    (Completed, Ack, 7, Confirmed, SILENT, Some(7)),
    (Completed, Tick, 32000, Terminated, TIMEOUT, None),
    (Confirmed, Tick, 0, Terminated, SILENT, None),
    (Accepted, AnswerSuccess, 7, Accepted, RESEND, Some(32000)),
    (Accepted, Ack, 7, Accepted, PASS_ACK, Some(32000)),
    (Accepted, Tick, 32000, Terminated, SILENT, None),
];

/// The way to each state.
const WAYS: [Way; 5] = [
    (Proceeding, &[]),
    (Completed, &[(AnswerFailure, 0)]),
    (Confirmed, &[(AnswerFailure, 0), (Ack, 0)]),
    (Accepted, &[(AnswerSuccess, 0)]),
    (Terminated, &[(AnswerSuccess, 0), (Tick, 32000)]),
];

#[test]
fn lines(rt: HostRuntime) {
    lines_hold(&rt, &invite_server(0, Unreliable), &WAYS, &LINES);
}

#[test]
fn unlisted(rt: HostRuntime) {
    unlisted_change_nothing(&rt, &invite_server(0, Unreliable), &WAYS, &LINES);
}

#[test]
fn lines_over_a_reliable_transport(rt: HostRuntime) {
    let start = invite_server(0, Reliable);
    lines_hold(&rt, &start, &WAYS, &RELIABLE_LINES);
    unlisted_change_nothing(&rt, &start, &WAYS, &RELIABLE_LINES);
}

#[test]
fn unacknowledged(rt: HostRuntime) {
    let mut machine = invite_server(0, Unreliable);
    answers(&rt, &mut machine, AnswerFailure, 0, RESEND);
    let again = [
        500, 1500, 3500, 7500, 11500, 15500, 19500, 23500, 27500, 31500,
    ];
    ticks(&rt, &mut machine, &again, RESEND);
    ticks(&rt, &mut machine, &[32000], TIMEOUT);
    holds(&rt, state_of(&machine) == Terminated, "it has ended");
    holds(&rt, due(&machine).is_none(), "nothing is due");
}

#[test]
fn unacknowledged_over_a_reliable_transport(rt: HostRuntime) {
    let mut machine = invite_server(0, Reliable);
    answers(&rt, &mut machine, AnswerFailure, 0, RESEND);
    ticks(&rt, &mut machine, &[32000], TIMEOUT);
    holds(&rt, state_of(&machine) == Terminated, "it has ended");
    holds(&rt, due(&machine).is_none(), "nothing is due");
}
