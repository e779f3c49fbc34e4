//! Which calls are carried at a moment, and what is to be done with one that was carried.
ghost use Rattle.std.specs.Prelude.{◌≡◌, ◌≤◌, true, false, IfOk, IfSome, OnErr};
ghost use Rattle.fork_model.specs.Log.{core_of};
ghost use Rattle.proxy_threads.specs.Next.{EndsBy, IsNext};

use call_table::{Schedule, Shelf};
use fork_call::{Call, Carried};
use std::alloc::{AllocError, Allocator};
use std::sync::Wait;

/// How many calls are carried before the time is read anew.
const MOST_CARRIED: u32 = 4_096;

/// What is to be done with a call next.
#[derive(Clone, Copy, PartialEq, Eq, Debug)]
pub enum NextStep {
    /// It is carried at this moment, in milliseconds.
    At(u64),
    Nothing,
    /// It is over: the status with which it failed; None where it was answered with a 2xx.
    Over(Option<u16>),
    /// It lacked memory.
    Refused,
}

/// The status with which a call that is over failed; None where it was answered with a 2xx.
fn failure_of<A: Allocator + Clone>(call: &Call<A>) -> Option<u16>
    ensures { EndsBy (core_of call.now.log) result }
{
    match call.book().context().choice_with_status() {
        Some((_, status)) => Some(status),
        None => None,
    }
}

/// What is to be done next with a call of which all was sent that was due.
fn after_carry<A: Allocator + Clone>(call: &Call<A>) -> NextStep
    ensures { IsNext call.now result }
{
    match call.due() {
        Some(due) => NextStep::At(due),
        None if call.over() => NextStep::Over(failure_of(call)),
        None => NextStep::Nothing,
    }
}

/// What is to be done next with a call that was carried at this moment, in milliseconds, by what `carry` answered. One that has more to send than
/// is sent at a time is carried again at once.
pub fn next_step<A: Allocator + Clone>(
    call: &Call<A>,
    carried: Result<Carried, AllocError>,
    now: u64,
) -> NextStep
    ensures refused { OnErr carried (result ≡ NextStep.Refused) }
    ensures more { IfOk carried (λ c. c.more ≡ true → result ≡ NextStep.At now) }
    ensures done { IfOk carried (λ c. c.more ≡ false → IsNext call.now result) }
{
    match carried {
        Ok(carried) if !carried.more => after_carry(call),
        Ok(_) => NextStep::At(now),
        Err(AllocError) => NextStep::Refused,
    }
}

/// Has the calls carried that are due by now, in milliseconds, at most 4,096 of them: `carry` is called with the number of each. The others wait until
/// the time is read anew.
pub fn carry_due<A: Allocator + Clone, R: Wait, F: FnMut(u64)>(
    rt: &R,
    schedule: &Schedule<A>,
    now: u64,
    mut carry: F,
)
    requires { F.IsAlwaysCallable carry }
{
    for _ in 0..MOST_CARRIED {
        let Some(number) = schedule.take_due(rt, now) else {
            return;
        };
        carry(number);
    }
}

/// Has calls carried in the order of their numbers, from this number on, at most 4,096 of them: `carry` is called with the number of each. Answers from
/// which number on calls are left; None where none is.
pub fn carry_from<A: Allocator + Clone, R: Wait, F: FnMut(u64)>(
    rt: &R,
    calls: &Shelf<Call<A>, A>,
    from: u64,
    mut carry: F,
) -> Option<u64>
    requires { F.IsAlwaysCallable carry }
    ensures { IfSome result (λ next. from ≤ next) }
{
    let mut next = from;
    for _ in 0..MOST_CARRIED {
        let Some(number) = calls.next_from(rt, next) else {
            return None;
        };
        carry(number);
        next = number.saturating_add(1);
    }
    Some(next)
}
