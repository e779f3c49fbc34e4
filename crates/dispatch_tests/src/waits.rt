//! Until when calls wait: one that lacked memory, and all of them where the deadline of one could not be added.
use crate::holds::holds;
use proxy_threads::{CallWalk, Refusals};
use std::alloc::Global;
use std::sync::Wait;

/// How long a call waits that lacks memory so many times, one after another.
fn waits_of<R: Wait>(rt: &R, refusals: &Refusals, number: u64) -> [u64; 11] {
    [0u64; 11].map(|_| refusals.refuse(rt, number))
}

/// Whether the wait of a call is doubled up to five seconds, that of each by itself, and begins anew once the call had memory.
fn is_doubled<R: Wait>(rt: &R, alloc: Global) -> Option<bool> {
    let refusals = Refusals::new(alloc).ok()?;
    let waits = waits_of(rt, &refusals, 7);
    let first = refusals.refuse(rt, 8);
    refusals.clear(rt, 7);
    let anew = refusals.refuse(rt, 7);
    let second = refusals.refuse(rt, 8);
    Some(
        waits == [10, 20, 40, 80, 160, 320, 640, 1_280, 2_560, 5_000, 5_000]
            && first == 10
            && anew == 10
            && second == 20,
    )
}

#[test]
fn a_call_that_lacks_memory_waits_longer_each_time(rt: HostRuntime) {
    holds(&rt, is_doubled(&rt, rt.alloc()) == Some(true), "up to 5 s");
}

/// Whether a walk begins ten milliseconds behind a deadline that was missed, goes on where it stood, is followed by another one behind a longer
/// wait where one was missed meanwhile, and ends.
fn is_walked() -> bool {
    let mut walk = CallWalk::new();
    let is_idle = walk.due(5).is_none() && walk.next() == u64::MAX;
    walk.note(true, 5);
    let begins = walk.next() == 15 && walk.due(14).is_none() && walk.due(15) == Some(0);
    walk.pass(4_096);
    walk.note(true, 16);
    let goes_on = walk.due(16) == Some(4_096);
    walk.finish(17);
    let follows = walk.due(36).is_none() && walk.due(37) == Some(0);
    walk.finish(40);
    is_idle && begins && goes_on && follows && walk.next() == u64::MAX
}

#[test]
fn calls_are_walked_over_where_a_deadline_was_missed(rt: HostRuntime) {
    holds(&rt, is_walked(), "behind a wait, and once more");
}
