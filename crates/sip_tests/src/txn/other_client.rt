//! The client of another request.
use crate::holds::holds;
use crate::txn::answer::*;
use crate::txn::machine::{Machine, State, due, other_client, state_of};
use crate::txn::table::{Line, Way, answers, lines_hold, ticks, unlisted_change_nothing};
use State::{Completed, Proceeding, Terminated, Trying};
use sip_txn::Reliability::{Reliable, Unreliable};
use sip_txn::TxEvent::*;

/// Every line of the table.
const LINES: [Line; 17] = [
    (Trying, Tick, 500, Trying, REQUEST, Some(1500)),
    (Proceeding, Tick, 500, Proceeding, REQUEST, Some(4500)),
    (Trying, Tick, 32000, Terminated, TIMEOUT, None),
    (Trying, TransportError, 7, Terminated, FAULT, None),
    (Trying, Provisional, 7, Proceeding, RESPONSE, Some(500)),
    (Trying, Success, 7, Completed, RESPONSE, Some(5007)),
    (Trying, Failure, 7, Completed, RESPONSE, Some(5007)),
    (Proceeding, Tick, 32000, Terminated, TIMEOUT, None),
    (Proceeding, TransportError, 7, Terminated, FAULT, None),
    (Proceeding, Provisional, 7, Proceeding, RESPONSE, Some(500)),
    (Proceeding, Success, 7, Completed, RESPONSE, Some(5007)),
    (Proceeding, Failure, 7, Completed, RESPONSE, Some(5007)),
    (Completed, Tick, 5000, Terminated, SILENT, None),
    (Trying, Stop, 7, Terminated, SILENT, None),
    (Proceeding, Stop, 7, Terminated, SILENT, None),
    (Completed, Stop, 7, Terminated, SILENT, None),
    (Terminated, Stop, 7, Terminated, SILENT, None),
];

/// Every line of the table over a reliable transport: timer E does not run, and timer K lasts no time (RFC 3261
/// section 17.1.2.2).
const RELIABLE_LINES: [Line; 15] = [
    (Trying, Tick, 32000, Terminated, TIMEOUT, None),
    (Trying, TransportError, 7, Terminated, FAULT, None),
    (Trying, Provisional, 7, Proceeding, RESPONSE, Some(32000)),
    (Trying, Success, 7, Completed, RESPONSE, Some(7)),
    (Trying, Failure, 7, Completed, RESPONSE, Some(7)),
    (Proceeding, Tick, 32000, Terminated, TIMEOUT, None),
    (Proceeding, TransportError, 7, Terminated, FAULT, None),
    (
        Proceeding,
        Provisional,
        7,
        Proceeding,
        RESPONSE,
        Some(32000),
    ),
    (Proceeding, Success, 7, Completed, RESPONSE, Some(7)),
    (Proceeding, Failure, 7, Completed, RESPONSE, Some(7)),
    (Completed, Tick, 0, Terminated, SILENT, None),
    (Trying, Stop, 7, Terminated, SILENT, None),
    (Proceeding, Stop, 7, Terminated, SILENT, None),
    (Completed, Stop, 7, Terminated, SILENT, None),
    (Terminated, Stop, 7, Terminated, SILENT, None),
];

/// The way to each state.
const WAYS: [Way; 4] = [
    (Trying, &[]),
    (Proceeding, &[(Provisional, 0)]),
    (Completed, &[(Success, 0)]),
    (Terminated, &[(Stop, 0)]),
];

#[test]
fn lines(rt: HostRuntime) {
    lines_hold(&rt, &other_client(0, Unreliable), &WAYS, &LINES);
}

#[test]
fn unlisted(rt: HostRuntime) {
    unlisted_change_nothing(&rt, &other_client(0, Unreliable), &WAYS, &LINES);
}

#[test]
fn lines_over_a_reliable_transport(rt: HostRuntime) {
    let start = other_client(0, Reliable);
    lines_hold(&rt, &start, &WAYS, &RELIABLE_LINES);
    unlisted_change_nothing(&rt, &start, &WAYS, &RELIABLE_LINES);
}

#[test]
fn unanswered(rt: HostRuntime) {
    let mut machine = other_client(0, Unreliable);
    let again = [
        500, 1500, 3500, 7500, 11500, 15500, 19500, 23500, 27500, 31500,
    ];
    ticks(&rt, &mut machine, &again, REQUEST);
    ticks(&rt, &mut machine, &[32000], TIMEOUT);
    holds(&rt, state_of(&machine) == Terminated, "it has ended");
    holds(&rt, due(&machine).is_none(), "nothing is due");
}

#[test]
fn provisional(rt: HostRuntime) {
    let mut machine = other_client(0, Unreliable);
    ticks(&rt, &mut machine, &[500], REQUEST);
    answers(&rt, &mut machine, Provisional, 600, RESPONSE);
    let again = [1500, 5500, 9500, 13500, 17500, 21500, 25500, 29500];
    ticks(&rt, &mut machine, &again, REQUEST);
    ticks(&rt, &mut machine, &[32000], TIMEOUT);
    holds(&rt, state_of(&machine) == Terminated, "it has ended");
}

#[test]
fn unanswered_over_a_reliable_transport(rt: HostRuntime) {
    let mut machine = other_client(0, Reliable);
    answers(&rt, &mut machine, Provisional, 100, RESPONSE);
    ticks(&rt, &mut machine, &[32000], TIMEOUT);
    holds(&rt, state_of(&machine) == Terminated, "it has ended");
    holds(&rt, due(&machine).is_none(), "nothing is due");
}
