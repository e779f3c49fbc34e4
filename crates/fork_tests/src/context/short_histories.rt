//! Every short history, one after the other (RFC 3261 section 16.7).
use crate::context::happening::{Aim, Happening, context, event};
use crate::holds::holds;
use fork_context::{Context, Event, Kind, Up};
use std::alloc::Global;
use std::thread::{Threads, join};

/// So many things may happen to each row.
const EACH: u32 = 9;

/// What may happen to a row, by its number among them.
fn of_row(n: u16, number: u32) -> Happening {
    match number {
        0 => Happening::Rings(n, 180),
        1 => Happening::Answers(n, 200),
        2 => Happening::Answers(n, 404),
        3 => Happening::Answers(n, 603),
        4 => Happening::Redirects(n),
        5 => Happening::TimesOut(n),
        6 => Happening::Fails(n),
        7 => Happening::TimerC(n),
        _ => Happening::GivesUp(n),
    }
}

/// What may happen, by its number: a CANCEL, or something to a row.
fn happening(number: u32) -> Happening {
    if number == 0 {
        return Happening::Cancel;
    }
    let among_rows = number - 1;
    match u16::try_from(among_rows / EACH) {
        Ok(n) => of_row(n, among_rows % EACH),
        Err(_) => Happening::Cancel,
    }
}

/// Whether a final answer goes up; nothing where the event is refused.
fn sends_final(fork: &mut Context, event: Event) -> Option<bool> {
    match fork.post(event) {
        Ok(reply) => Some(matches!(reply.up(), Up::Final(_))),
        Err(_) => None,
    }
}

/// Whether a final answer has to have gone up.
fn is_final_due(fork: &Context) -> bool {
    fork.finished() && !fork.succeeded()
}

/// Whether a final answer goes up with the event exactly where one comes to be due, and none that was due is due no more.
fn goes_on_with(fork: &mut Context, event: Event) -> bool {
    let was_due = is_final_due(fork);
    let goes_up = sends_final(fork, event);
    let is_due = is_final_due(fork);
    goes_up == Some(is_due && !was_due) && (is_due || !was_due)
}

/// Whether it does with what happens; a redirection names one contact, the same from each row.
fn goes_on_right(alloc: Global, fork: &mut Context, number: u32) -> bool {
    match event(alloc, happening(number), &[(100, true)]) {
        Some(event) => goes_on_with(fork, event),
        None => false,
    }
}

/// Whether after each of these four events one final answer has gone up where the fork has finished without a 2xx, and
/// none else.
fn goes_right(alloc: Global, fork: &mut Context, history: [u32; 4]) -> bool {
    let mut right = !is_final_due(fork);
    for number in history {
        right = goes_on_right(alloc, fork, number) && right;
    }
    right
}

/// Whether that is so of an INVITE to these targets.
fn history_goes_right(alloc: Global, list: &[Aim], history: [u32; 4]) -> bool {
    match context(alloc, Kind::Invite, list) {
        Some(mut fork) => goes_right(alloc, &mut fork, history),
        None => false,
    }
}

/// The numbers of what happens in the history of this number, where so many things may happen.
fn digits(history: u32, count: u32) -> [u32; 4] {
    let count = count.max(1);
    let (first, rest) = (history % count, history / count);
    let (second, rest) = (rest % count, rest / count);
    [first, second, rest % count, rest / count]
}

/// A part of the histories of four events on so many rows.
#[derive(Clone, Copy)]
struct Part {
    rows: u32,
    from: u32,
    to: u32,
}

impl Part {
    /// So many things may happen.
    fn count(self) -> u32 {
        self.rows.saturating_mul(EACH).saturating_add(1)
    }

    /// All of them.
    fn of_rows(rows: u32) -> Part {
        let all = Part {
            rows,
            from: 0,
            to: 0,
        };
        Part {
            to: all.count().saturating_pow(4),
            ..all
        }
    }

    /// Its halves.
    fn halves(self) -> (Part, Part) {
        let middle = self.from / 2 + self.to / 2;
        (
            Part { to: middle, ..self },
            Part {
                from: middle,
                ..self
            },
        )
    }
}

/// How many histories of this part, and with them the shorter ones, go right before one does not, if one does not.
fn walk(alloc: Global, list: &[Aim], part: Part) -> u32 {
    let count = part.count();
    let mut right = 0u32;
    for history in part.from..part.to {
        if !history_goes_right(alloc, list, digits(history, count)) {
            return right;
        }
        right = right.saturating_add(1);
    }
    right
}

/// The same of a part in two halves, which two threads walk.
fn walk_halves<R: Threads + Sync>(rt: &R, alloc: Global, list: &[Aim], part: Part) -> u32 {
    let (one, other) = part.halves();
    let (here, there) = join(rt, || walk(alloc, list, one), || walk(alloc, list, other));
    here.saturating_add(there)
}

/// The same of all, which four threads walk.
fn walk_all<R: Threads + Sync>(rt: &R, alloc: Global, list: &[Aim], rows: u32) -> u32 {
    let (one, other) = Part::of_rows(rows).halves();
    let (here, there) = join(
        rt,
        || walk_halves(rt, alloc, list, one),
        || walk_halves(rt, alloc, list, other),
    );
    here.saturating_add(there)
}

#[test]
fn one_target_and_a_contact(rt: HostRuntime) {
    let walked = walk_all(&rt, rt.alloc(), &[(1, 1000)], 2);
    holds(&rt, walked == 130_321, "one target and a contact");
}

#[test]
fn two_targets_in_series_and_a_contact(rt: HostRuntime) {
    let walked = walk_all(&rt, rt.alloc(), &[(1, 1000), (2, 500)], 3);
    holds(
        &rt,
        walked == 614_656,
        "two targets in series and a contact",
    );
}

#[test]
fn three_targets_of_two_groups(rt: HostRuntime) {
    let walked = walk_all(&rt, rt.alloc(), &[(1, 1000), (2, 1000), (3, 500)], 3);
    holds(&rt, walked == 614_656, "three targets of two groups");
}
