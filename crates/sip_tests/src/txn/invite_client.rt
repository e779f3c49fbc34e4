//! The client of an INVITE.
use crate::holds::holds;
use crate::txn::answer::*;
use crate::txn::machine::{Machine, State, due, invite_client, state_of};
use crate::txn::table::{Line, Way, answers, lines_hold, ticks, unlisted_change_nothing};
use State::{Accepted, Calling, Completed, Proceeding, Terminated};
use sip_txn::Reliability::{Reliable, Unreliable};
use sip_txn::TxEvent::*;

/// Every line of the table.
const LINES: [Line; 19] = [
    (Calling, Tick, 500, Calling, REQUEST, Some(1500)),
    (Calling, Tick, 32000, Terminated, TIMEOUT, None),
    (Calling, TransportError, 7, Terminated, FAULT, None),
    (Calling, Provisional, 7, Proceeding, RESPONSE, None),
    (Calling, Success, 7, Accepted, RESPONSE, Some(32007)),
    (Calling, Failure, 7, Completed, ACKNOWLEDGED, Some(32007)),
    (Proceeding, Provisional, 7, Proceeding, RESPONSE, None),
    (Proceeding, Success, 7, Accepted, RESPONSE, Some(32007)),
    (Proceeding, Failure, 7, Completed, ACKNOWLEDGED, Some(32007)),
    (Completed, Failure, 7, Completed, ACK, Some(32000)),
    (Completed, TransportError, 7, Terminated, SILENT, None),
    (Completed, Tick, 32000, Terminated, SILENT, None),
    (Accepted, Success, 7, Accepted, RESPONSE, Some(32000)),
    (Accepted, Tick, 32000, Terminated, SILENT, None),
    (Calling, Stop, 7, Terminated, SILENT, None),
    (Proceeding, Stop, 7, Terminated, SILENT, None),
    (Completed, Stop, 7, Terminated, SILENT, None),
    (Accepted, Stop, 7, Terminated, SILENT, None),
    (Terminated, Stop, 7, Terminated, SILENT, None),
];

/// Every line of the table over a reliable transport: timer A does not run, and timer D lasts no time (RFC 3261
/// section 17.1.1.2).
const RELIABLE_LINES: [Line; 18] = [
    (Calling, Tick, 32000, Terminated, TIMEOUT, None),
    (Calling, TransportError, 7, Terminated, FAULT, None),
    (Calling, Provisional, 7, Proceeding, RESPONSE, None),
    (Calling, Success, 7, Accepted, RESPONSE, Some(32007)),
    (Calling, Failure, 7, Completed, ACKNOWLEDGED, Some(7)),
    (Proceeding, Provisional, 7, Proceeding, RESPONSE, None),
    (Proceeding, Success, 7, Accepted, RESPONSE, Some(32007)),
    (Proceeding, Failure, 7, Completed, ACKNOWLEDGED, Some(7)),
    (Completed, Failure, 7, Completed, ACK, Some(0)),
    (Completed, TransportError, 7, Terminated, SILENT, None),
    (Completed, Tick, 0, Terminated, SILENT, None),
    (Accepted, Success, 7, Accepted, RESPONSE, Some(32000)),
    (Accepted, Tick, 32000, Terminated, SILENT, None),
    (Calling, Stop, 7, Terminated, SILENT, None),
    (Proceeding, Stop, 7, Terminated, SILENT, None),
    (Completed, Stop, 7, Terminated, SILENT, None),
    (Accepted, Stop, 7, Terminated, SILENT, None),
    (Terminated, Stop, 7, Terminated, SILENT, None),
];

/// The way to each state.
const WAYS: [Way; 5] = [
    (Calling, &[]),
    (Proceeding, &[(Provisional, 0)]),
    (Completed, &[(Failure, 0)]),
    (Accepted, &[(Success, 0)]),
    (Terminated, &[(Stop, 0)]),
];

#[test]
fn lines(rt: HostRuntime) {
    lines_hold(&rt, &invite_client(0, Unreliable), &WAYS, &LINES);
}

#[test]
fn unlisted(rt: HostRuntime) {
    unlisted_change_nothing(&rt, &invite_client(0, Unreliable), &WAYS, &LINES);
}

#[test]
fn lines_over_a_reliable_transport(rt: HostRuntime) {
    let start = invite_client(0, Reliable);
    lines_hold(&rt, &start, &WAYS, &RELIABLE_LINES);
    unlisted_change_nothing(&rt, &start, &WAYS, &RELIABLE_LINES);
}

#[test]
fn unanswered(rt: HostRuntime) {
    let mut machine = invite_client(0, Unreliable);
    ticks(
        &rt,
        &mut machine,
        &[500, 1500, 3500, 7500, 15500, 31500],
        REQUEST,
    );
    ticks(&rt, &mut machine, &[32000], TIMEOUT);
    holds(&rt, state_of(&machine) == Terminated, "it has ended");
    holds(&rt, due(&machine).is_none(), "nothing is due");
}

#[test]
fn accepted(rt: HostRuntime) {
    let mut machine = invite_client(0, Unreliable);
    answers(&rt, &mut machine, Provisional, 100, RESPONSE);
    answers(&rt, &mut machine, Success, 200, RESPONSE);
    answers(&rt, &mut machine, Success, 300, RESPONSE);
    ticks(&rt, &mut machine, &[32200], SILENT);
    holds(&rt, state_of(&machine) == Terminated, "it has ended");
}

/// Of two timers that are due, the one that ends the state goes first.
#[test]
fn end_goes_first(rt: HostRuntime) {
    let mut machine = invite_client(0, Unreliable);
    answers(&rt, &mut machine, Tick, 40_000, TIMEOUT);
    holds(&rt, state_of(&machine) == Terminated, "it has ended");
}

/// A moment past the greatest stays there.
#[test]
fn last_moment(rt: HostRuntime) {
    let mut machine = invite_client(u64::MAX - 600, Unreliable);
    ticks(&rt, &mut machine, &[u64::MAX - 100], REQUEST);
    ticks(&rt, &mut machine, &[u64::MAX], TIMEOUT);
    holds(&rt, due(&machine).is_none(), "nothing is due");
}

#[test]
fn unanswered_over_a_reliable_transport(rt: HostRuntime) {
    let mut machine = invite_client(0, Reliable);
    ticks(&rt, &mut machine, &[32000], TIMEOUT);
    holds(&rt, state_of(&machine) == Terminated, "it has ended");
    holds(&rt, due(&machine).is_none(), "nothing is due");
}
