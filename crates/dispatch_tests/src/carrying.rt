//! Calls on a shelf: what they are fed, what they send, and what was posted to them.
ghost use Rattle.std.specs.Prelude.{◌≡◌};

use crate::texts::SOURCE;
use call_messages::lines::text_of;
use call_table::Shelf;
use fork_call::{Call, Port, Setup, carry};
use fork_context::Event;
use proxy_dispatch::{Handled, Received, SharedCalls, Unlimited, handle};
use std::alloc::Global;
use std::process::Abort;
use std::sync::Wait;

/// Carries a call, and says whether that was not refused memory.
fn is_carried<R: Abort, P: Port>(rt: &R, call: &mut Call<Global>, port: &mut P, now: u64) -> bool
    ensures { call.new.opened.number ≡ call.old.opened.number }
{
    let number = call.number();
    let carried = carry(call, port, now);
    assert!(rt; call.number() == number, "a call keeps its number");
    carried.is_ok()
}

/// Carries the call of that number. False where there is none, or it was refused memory.
pub fn carries<R: Abort + Wait, P: Port>(
    rt: &R,
    shelf: &Shelf<Call<Global>>,
    number: u64,
    port: &mut P,
    now: u64,
) -> bool {
    shelf.with(rt, number, |call| is_carried(rt, call, port, now)) == Some(true)
}

/// What becomes of a datagram, as of that moment; the call that it opens or that takes it is carried.
pub fn serves<R: Abort + Wait, P: Port>(
    rt: &R,
    alloc: Global,
    shelf: &Shelf<Call<Global>>,
    setup: &Setup<Global>,
    text: &[u8],
    now: u64,
    port: &mut P,
) -> Option<Handled> {
    let received = Received {
        bytes: text,
        source: SOURCE,
        now,
    };
    let handled = handle(
        rt,
        alloc,
        &mut SharedCalls::new(shelf),
        setup,
        &Unlimited,
        received,
        port,
    )
    .ok()?;
    match handled {
        Handled::Opened(number) | Handled::Delivered(number) => {
            if carries(rt, shelf, number, port, now) {
                Some(handled)
            } else {
                None
            }
        }
        Handled::Dropped
        | Handled::Absorbed
        | Handled::Answered(_)
        | Handled::TurnedAway
        | Handled::Forwarded
        | Handled::Left => Some(handled),
    }
}

/// The same of the text of these lines.
pub fn serves_lines<R: Abort + Wait, P: Port>(
    rt: &R,
    alloc: Global,
    shelf: &Shelf<Call<Global>>,
    setup: &Setup<Global>,
    lines: &[&[u8]],
    now: u64,
    port: &mut P,
) -> Option<Handled> {
    let text = text_of(alloc, lines)?;
    serves(rt, alloc, shelf, setup, &text, now, port)
}

/// How many events were posted to a call, and how many of them say that a request could not be sent.
fn posted_to(call: &Call<Global>) -> (usize, usize) {
    let history = call.book().history();
    let faults = history
        .iter()
        .filter(|posted| matches!(posted.event(), Event::Fault(_)));
    (history.len(), faults.count())
}

/// The same of the call of that number.
pub fn posted<R: Wait>(rt: &R, shelf: &Shelf<Call<Global>>, number: u64) -> Option<(usize, usize)> {
    shelf.with(rt, number, |call| posted_to(call))
}
