//! Plays the table of a machine, and whole runs of one.
use crate::txn::answer::SILENT;
use crate::txn::machine::{Machine, State, due, feed, state_of};
use sip_txn::{TxEvent, TxOut};
use std::process::Abort;

/// A line of a table: in this state since moment 0, this event at this moment brings the next
/// state, this answer, and what is due then.
pub type Line = (State, TxEvent, u64, State, TxOut, Option<u64>);

/// What leads a machine that starts at moment 0 to a state at moment 0.
pub type Way = (State, &'static [(TxEvent, u64)]);

/// Every event but a tick.
const EVENTS: [TxEvent; 10] = [
    TxEvent::Request,
    TxEvent::Provisional,
    TxEvent::Success,
    TxEvent::Failure,
    TxEvent::AnswerProvisional,
    TxEvent::AnswerSuccess,
    TxEvent::AnswerFailure,
    TxEvent::Ack,
    TxEvent::TransportError,
    TxEvent::Stop,
];

/// Ends the test where this does not hold of this event, fed in this state at this moment.
fn holds_at(rt: &impl Abort, well: bool, what: &str, state: State, event: TxEvent, now: u64) {
    assert!(rt; well, "{state:?}: {event:?} at {now}: {what}");
}

/// A machine that went this way.
fn gone(start: &Machine, way: &[(TxEvent, u64)]) -> Machine {
    let mut machine = *start;
    for (event, now) in way {
        let _ = feed(&mut machine, *event, *now);
    }
    machine
}

/// The machine that went the way to this state; as it starts where none leads there.
fn at(start: &Machine, ways: &[Way], state: State) -> Machine {
    for (end, way) in ways {
        if *end == state {
            return gone(start, way);
        }
    }
    *start
}

/// Each line of a table is what the machine does.
pub fn lines_hold(rt: &impl Abort, start: &Machine, ways: &[Way], lines: &[Line]) {
    for line in lines {
        line_holds(rt, &at(start, ways, line.0), line);
    }
}

/// In the state of this line, the machine does what the line says.
fn line_holds(rt: &impl Abort, before: &Machine, line: &Line) {
    let (from, event, now, to, answer, then) = *line;
    let mut machine = *before;
    holds_at(
        rt,
        state_of(&machine) == from,
        "the state before",
        from,
        event,
        now,
    );
    let out = feed(&mut machine, event, now);
    holds_at(rt, out == answer, "the answer", from, event, now);
    holds_at(
        rt,
        state_of(&machine) == to,
        "the next state",
        from,
        event,
        now,
    );
    holds_at(
        rt,
        due(&machine) == then,
        "what is due then",
        from,
        event,
        now,
    );
}

/// What no line lists changes nothing, nor does a tick at which nothing is due.
pub fn unlisted_change_nothing(rt: &impl Abort, start: &Machine, ways: &[Way], lines: &[Line]) {
    for (end, way) in ways {
        let machine = gone(start, way);
        let is_there = state_of(&machine) == *end;
        holds_at(rt, is_there, "the way leads here", *end, TxEvent::Tick, 0);
        unlisted_events_change_nothing(rt, &machine, *end, lines);
        if let Some(now) = too_early(&machine) {
            changes_nothing(rt, &machine, *end, TxEvent::Tick, now);
        }
    }
}

/// No event changes this machine that no line lists for its state.
fn unlisted_events_change_nothing(
    rt: &impl Abort,
    machine: &Machine,
    state: State,
    lines: &[Line],
) {
    for event in EVENTS {
        if !is_listed(lines, state, event) {
            changes_nothing(rt, machine, state, event, 100);
        }
    }
}

/// Whether a line is about this event in this state.
fn is_listed(lines: &[Line], state: State, event: TxEvent) -> bool {
    for line in lines {
        if line.0 == state && line.1 == event {
            return true;
        }
    }
    false
}

/// A moment at which nothing is due, if there is one.
fn too_early(machine: &Machine) -> Option<u64> {
    match due(machine) {
        None => Some(u64::MAX),
        Some(due) => due.checked_sub(1),
    }
}

/// This event at this moment leaves the machine as it is, and silent.
fn changes_nothing(rt: &impl Abort, before: &Machine, from: State, event: TxEvent, now: u64) {
    let mut machine = *before;
    let out = feed(&mut machine, event, now);
    holds_at(rt, out == SILENT, "nothing is answered", from, event, now);
    holds_at(rt, machine == *before, "nothing changes", from, event, now);
}

/// Feeds an event at this moment, and wants this answer.
pub fn answers(rt: &impl Abort, machine: &mut Machine, event: TxEvent, now: u64, answer: TxOut) {
    let from = state_of(machine);
    let out = feed(machine, event, now);
    holds_at(rt, out == answer, "the answer", from, event, now);
}

/// Feeds ticks at these moments, each of which has to be due, and wants this answer to each.
pub fn ticks(rt: &impl Abort, machine: &mut Machine, moments: &[u64], answer: TxOut) {
    for now in moments {
        let is_due = due(machine) == Some(*now);
        holds_at(
            rt,
            is_due,
            "it is due",
            state_of(machine),
            TxEvent::Tick,
            *now,
        );
        answers(rt, machine, TxEvent::Tick, *now, answer);
    }
}
