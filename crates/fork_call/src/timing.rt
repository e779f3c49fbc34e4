//! From when on something is to be done on the rows of a call.
ghost use Rattle.std.specs.Prelude.{◌≡◌, IfOk};
ghost use Rattle.fork_call.specs.Scheduled.{if_runs, scheduled};
ghost use Rattle.fork_call.specs.inner.Timing.{row_moment, retimed, timed, timed_at};

use crate::schedule::{BranchTimers, earlier};
use call_state::CallState;
use std::alloc::{AllocError, Allocator};

/// The moment `at`, where the timer of that moment runs.
fn if_runs(runs: bool, at: Option<u64>) -> Option<u64>
    ensures { result ≡ if_runs runs at }
{
    if runs { at } else { None }
}

/// From when on something is to be done on row n: a request, an ACK or a CANCEL that is owed is to be sent at any
/// moment.
fn row_moment<A: Allocator + Clone>(state: &CallState<A>, n: u16) -> Option<u64>
    ensures { result ≡ row_moment state.now n }
{
    let branch = state.branch_view(n);
    if !branch.sent {
        return if_runs(branch.trying, Some(0));
    }
    if branch.ack_owed {
        return Some(0);
    }
    if branch.cancelled && !branch.cancel_sent {
        return Some(0);
    }
    let timer_c = if_runs(branch.timer_c_runs, branch.timer_c_due);
    let give_up = if_runs(branch.cancelled, branch.give_up_due);
    let ends = earlier(timer_c, give_up);
    earlier(branch.client_due, earlier(branch.cancel_due, ends))
}

/// The schedule in which each row has its moment.
///
/// # Errors
///
/// Only where the allocator refuses.
#[tactic(auto, using(crate::proofs::Timed::take_more, crate::proofs::Timed::take_whole))]
pub(crate) fn schedule_of<A: Allocator + Clone>(
    alloc: A,
    state: &CallState<A>,
) -> Result<BranchTimers<A>, AllocError>
    ensures { IfOk result (λ schedule. schedule ≡ scheduled state.now) }
{
    let mut schedule = BranchTimers::new(alloc);
    for n in 0..state.book().context().count() {
        schedule.push(row_moment(state, n))?;
    }
    Ok(schedule)
}

/// Sets the moment of row n anew.
fn time_row<A: Allocator + Clone>(schedule: &mut BranchTimers<A>, state: &CallState<A>, n: u16)
    ensures { schedule.new ≡ timed_at state.now schedule.old n }
{
    schedule.set(n, row_moment(state, n));
}

/// Sets the moments of these rows anew.
fn time_rows<A: Allocator + Clone>(
    schedule: &mut BranchTimers<A>,
    state: &CallState<A>,
    rows: &[u16],
)
    ensures { schedule.new ≡ timed state.now rows.now schedule.old }
{
    for n in rows {
        time_row(schedule, state, *n);
    }
}

/// Sets the moments anew of the rows that a step touched: the row of the step, and those that the event at this
/// position started or cancelled, if one was posted there. Each row has its moment then.
pub(crate) fn time_step<A: Allocator + Clone>(
    schedule: &mut BranchTimers<A>,
    state: &CallState<A>,
    row: Option<u16>,
    at: u32,
)
    ensures { schedule.new ≡ retimed state.now row at schedule.old }
{
    schedule.truncate(state.book().context().count());
    if let Some(n) = row {
        time_row(schedule, state, n);
    }
    if let Some(reply) = state.book().reply(at) {
        time_rows(schedule, state, reply.started());
        time_rows(schedule, state, reply.cancelled());
    }
}
