//! Histories of a context as tables, and how one is played.
use crate::context::happening::{Aim, Contact, Happening, context, event, key_of, text_of};
use crate::holds::{holds, holds_at};
use fork_context::{Challenge, Choice, Context, End, Event, Kind, Offer, Reply, State, Up};
use fork_rank::Status;
use std::alloc::Global;
use std::process::Abort;

/// Challenges that are added to a final answer, each a proxy's or a server's, with its digit: a digit 0 ends the list.
pub type Added = [(bool, u8); 3];

pub const NOTHING: Added = [(false, 0); 3];

/// What happens and how it is replied to, or what is to hold of the context then. The first number of the others is the
/// row's.
#[derive(Clone, Copy)]
pub enum Step {
    /// This happens and this goes up; no row is started or cancelled.
    Comes(Happening, Up),
    /// This happens, and from this row on so many are started; none is cancelled, and nothing goes up.
    Starts(Happening, u16, u16),
    /// This happens, this row is cancelled and this goes up; none is started.
    Cancels(Happening, u16, Up),
    HasRows(u16),
    IsOf(Kind),
    HasDepth(u16),
    IsClosed(bool),
    HasFinished(bool),
    HasSucceeded(bool),
    HasChoice(Option<Choice>),
    /// The row has a stored answer that no stored answer ranks before, or not.
    IsFirst(u16, bool),
    /// The key of the row's target is that of this number; None: there is no such row.
    HasKey(u16, Option<u16>),
    /// The row is in this state.
    IsIn(u16, State),
    /// The row's target stood at this place, and it is in this group, with this q.
    StandsAt(u16, usize, u16, u16),
    HasParent(u16, Option<u16>),
    /// The row has stored an answer of this status, at this arrival, that came from its branch.
    HasReceived(u16, u16, u32),
    /// The row has stored an answer of this status, at this arrival, that the proxy assumes.
    HasAssumed(u16, u16, u32),
    /// The contact of this number alone is left of the row's answer; None: the row leaves nothing.
    Leaves(u16, Option<u16>),
    /// These challenges are added to the final answer.
    Adds(Added),
}

/// What a reply is to say: its position, the first row that is started and how many are, the row that is cancelled, and
/// what goes up.
#[derive(Clone, Copy)]
pub struct Told {
    pub at: u32,
    pub started: (u16, u16),
    pub cancelled: Option<u16>,
    pub up: Up,
}

/// What a reply is to say, of these parts.
fn told_at(at: u32, started: (u16, u16), cancelled: Option<u16>, up: Up) -> Told {
    Told {
        at,
        started,
        cancelled,
        up,
    }
}

/// Whether the rows are so many from the first on.
fn is_run(rows: &[u16], first: u16, count: u16) -> bool {
    for i in 0..rows.len() {
        if rows[i] as usize != first as usize + i {
            return false;
        }
    }
    rows.len() == count as usize
}

/// Whether the rows are this one alone.
fn is_only(rows: &[u16], wanted: Option<u16>) -> bool {
    match (rows, wanted) {
        ([], None) => true,
        ([row], Some(wanted)) => *row == wanted,
        _ => false,
    }
}

fn tells(reply: &Reply, told: Told) -> bool {
    let (first, count) = told.started;
    reply.at() == told.at
        && is_run(reply.started(), first, count)
        && is_only(reply.cancelled(), told.cancelled)
        && reply.up() == told.up
}

/// Takes the event; whether the reply is so.
pub fn comes(fork: &mut Context, event: Event, told: Told) -> bool {
    match fork.post(event) {
        Ok(reply) => tells(&reply, told),
        Err(_) => false,
    }
}

/// Takes the event, if one is there; whether the reply is so.
fn comes_if_any(fork: &mut Context, event: Option<Event>, told: Told) -> bool {
    match event {
        Some(event) => comes(fork, event, told),
        None => false,
    }
}

/// The copy of an event, if one is there.
fn copy_of_any(alloc: Global, event: Option<Event>) -> Option<Event> {
    match event {
        Some(event) => copy_of(alloc, &event),
        None => None,
    }
}

fn copy_of(alloc: Global, event: &Event) -> Option<Event> {
    match event.copy(&alloc) {
        Ok(copy) => Some(copy),
        Err(_) => None,
    }
}

/// The event of what happens, or a copy of it.
fn event_or_copy(
    alloc: Global,
    happening: Happening,
    contacts: &[Contact],
    copied: bool,
) -> Option<Event> {
    if copied {
        copy_of_any(alloc, event(alloc, happening, contacts))
    } else {
        event(alloc, happening, contacts)
    }
}

/// What happens at the step, and what the reply is to say; nothing where the step only asks.
fn happens_at(step: &Step, at: u32) -> Option<(Happening, Told)> {
    match *step {
        Step::Comes(happening, up) => Some((happening, told_at(at, (0, 0), None, up))),
        Step::Starts(happening, first, count) => {
            Some((happening, told_at(at, (first, count), None, Up::Nothing)))
        }
        Step::Cancels(happening, row, up) => Some((happening, told_at(at, (0, 0), Some(row), up))),
        _ => None,
    }
}

fn has_key(fork: &Context, n: u16, number: Option<u16>) -> bool {
    match (fork.key(n), number) {
        (Some(key), Some(number)) => key == key_of(number).as_slice(),
        (None, None) => true,
        _ => false,
    }
}

fn is_in(fork: &Context, n: u16, state: State) -> bool {
    match fork.look(n) {
        Some(view) => view.row.state == state,
        None => false,
    }
}

fn stands_at(fork: &Context, n: u16, place: usize, group: u16, q: u16) -> bool {
    match fork.look(n) {
        Some(view) => view.place == place && view.row.group == group && view.row.q == q,
        None => false,
    }
}

fn has_parent(fork: &Context, n: u16, parent: Option<u16>) -> bool {
    match fork.look(n) {
        Some(view) => view.row.parent == parent,
        None => false,
    }
}

/// Whether the row has stored this answer, from its branch or assumed.
fn has_stored(fork: &Context, n: u16, code: u16, arrival: u32, received: bool) -> bool {
    let Some(status) = Status::of(code) else {
        return false;
    };
    let stored = End::Stored {
        status,
        arrival,
        received,
    };
    is_in(fork, n, State::Ended(stored))
}

/// Whether the contact of this number stands there alone.
fn is_contact(offers: &[Offer], number: u16) -> bool {
    match offers {
        [offer] => offer.text() == text_of(number).as_slice(),
        _ => false,
    }
}

/// Whether the contact of this number alone is left of the row's answer; None: the row leaves nothing.
pub fn leaves(fork: &Context, n: u16, number: Option<u16>) -> bool {
    match (fork.left(n), number) {
        (Some(offers), Some(number)) => is_contact(offers, number),
        (None, None) => true,
        _ => false,
    }
}

/// How many challenges these are.
fn count_of(added: Added) -> usize {
    for i in 0..3 {
        if added[i].1 == 0 {
            return i;
        }
    }
    3
}

fn is_challenge(challenge: &Challenge, wanted: (bool, u8)) -> bool {
    challenge.proxy() == wanted.0 && challenge.value() == [wanted.1].as_slice()
}

/// Whether these are the challenges behind the first.
fn are_behind(challenges: &[Challenge], wanted: Added) -> bool {
    for i in 0..3 {
        match challenges.get(i + 1) {
            Some(challenge) if !is_challenge(challenge, wanted[i]) => return false,
            _ => {}
        }
    }
    challenges.len() == count_of(wanted).saturating_add(1)
}

/// Whether these challenges are added behind one that stands there before.
fn adds(alloc: Global, fork: &Context, wanted: Added) -> bool {
    let mut out = Vec::new(alloc);
    out.push(Challenge::new(true, Vec::new(alloc))).is_ok()
        && fork.challenges(&mut out).is_ok()
        && are_behind(&out, wanted)
}

/// Whether what the step asks for holds.
fn is_so(fork: &Context, step: Step) -> bool {
    match step {
        Step::HasRows(wanted) => fork.count() == wanted,
        Step::IsOf(wanted) => fork.kind() == wanted,
        Step::HasDepth(wanted) => fork.rules().depth() == wanted,
        Step::IsClosed(wanted) => fork.closed() == wanted,
        Step::HasFinished(wanted) => fork.finished() == wanted,
        Step::HasSucceeded(wanted) => fork.succeeded() == wanted,
        Step::HasChoice(wanted) => fork.choice() == wanted,
        step => row_is_so(fork, step),
    }
}

/// The same for a step that asks for a row.
fn row_is_so(fork: &Context, step: Step) -> bool {
    match step {
        Step::HasKey(n, number) => has_key(fork, n, number),
        Step::IsIn(n, state) => is_in(fork, n, state),
        Step::StandsAt(n, place, group, q) => stands_at(fork, n, place, group, q),
        Step::HasParent(n, parent) => has_parent(fork, n, parent),
        Step::HasReceived(n, code, at) => has_stored(fork, n, code, at, true),
        Step::HasAssumed(n, code, at) => has_stored(fork, n, code, at, false),
        Step::Leaves(n, number) => leaves(fork, n, number),
        Step::IsFirst(n, wanted) => fork.is_first(n) == wanted,
        _ => false,
    }
}

/// Whether what the step asks for holds.
fn asks(alloc: Global, fork: &Context, step: Step) -> bool {
    match step {
        Step::Adds(wanted) => adds(alloc, fork, wanted),
        step => is_so(fork, step),
    }
}

/// Does the step; whether the reply, or the context, is so.
fn does(
    alloc: Global,
    fork: &mut Context,
    step: Step,
    at: u32,
    contacts: &[Contact],
    copied: bool,
) -> bool {
    let Some((happening, told)) = happens_at(&step, at) else {
        return asks(alloc, fork, step);
    };
    let event = event_or_copy(alloc, happening, contacts, copied);
    comes_if_any(fork, event, told)
}

/// How many events the step has: one where something happens.
fn events_at(step: Step) -> u32 {
    match step {
        Step::Comes(..) | Step::Starts(..) | Step::Cancels(..) => 1,
        _ => 0,
    }
}

/// Plays the history on this context, which has taken no event.
fn play_steps(
    rt: &(impl Abort + AllocGlobal),
    fork: &mut Context,
    name: &str,
    contacts: &[Contact],
    copied: bool,
    steps: &[Step],
) {
    let mut at = 0u32;
    for number in 0..steps.len() {
        let well = does(rt.alloc(), fork, steps[number], at, contacts, copied);
        holds_at(rt, well, name, number);
        at = at.saturating_add(events_at(steps[number]));
    }
}

/// Plays the history on this context, which was made and has taken no event.
pub fn play_on(
    rt: &(impl Abort + AllocGlobal),
    fork: Option<Context>,
    name: &str,
    contacts: &[Contact],
    copied: bool,
    steps: &[Step],
) {
    match fork {
        Some(mut fork) => play_steps(rt, &mut fork, name, contacts, copied, steps),
        None => holds(rt, false, "the context is made"),
    }
}

/// Plays the history on the context of such a request to these targets, under the usual rules.
pub fn play(
    rt: &(impl Abort + AllocGlobal),
    name: &str,
    kind: Kind,
    targets: &[Aim],
    steps: &[Step],
) {
    let fork = context(rt.alloc(), kind, targets);
    play_on(rt, fork, name, &[], false, steps);
}

/// The same of an INVITE, with these contacts in its redirection.
pub fn play_redirected(
    rt: &(impl Abort + AllocGlobal),
    name: &str,
    targets: &[Aim],
    contacts: &[Contact],
    steps: &[Step],
) {
    let fork = context(rt.alloc(), Kind::Invite, targets);
    play_on(rt, fork, name, contacts, false, steps);
}
