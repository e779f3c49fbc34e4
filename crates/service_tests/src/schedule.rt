//! A schedule gives each call whose deadline has come, once, and wakes who sleeps.
use crate::holds::holds;
use call_table::{Epoch, Schedule, ThreadClock};
use std::alloc::Global;
use std::sync::Wait;
use std::test::Fail;
use std::thread;
use std::thread::join;
use std::time::{Clock, Duration};

/// A moment, in milliseconds, that no test comes to.
const LATE: u64 = 1_000_000;

#[test]
fn what_is_due_comes_first_and_once(rt: HostRuntime) -> Result<(), Fail> {
    let schedule = Schedule::new(rt.alloc())?;
    for (number, deadline) in [(3, 500), (1, 200), (3, 700), (1, 100)] {
        let _ = schedule.add(&rt, number, deadline);
    }
    for (now, due) in [
        (99, None),
        (600, Some(1)),
        (499, None),
        (600, Some(3)),
        (LATE, None),
    ] {
        let taken = schedule.take_due(&rt, now);
        holds(&rt, taken == due, "the earliest, once its time has come");
    }
    let _ = schedule.add(&rt, 3, 900);
    let again = schedule.take_due(&rt, 900);
    holds(&rt, again == Some(3), "a number may have a deadline again");
    holds(&rt, !schedule.take_missed(), "none was missed");
    Ok(())
}

/// Whether a sleep until a late moment ends within a second.
fn wakes<R: Wait + Clock>(rt: &R, schedule: &Schedule<Global>, watch: &mut ThreadClock) -> bool {
    let before = watch.micros(rt);
    schedule.sleep_until(rt, before, LATE);
    watch.micros(rt).saturating_sub(before) < 1_000_000
}

#[test]
fn a_sleep_ends_where_it_must(rt: HostRuntime) -> Result<(), Fail> {
    let epoch = Epoch::now(&rt).ok_or("no clock")?;
    let schedule = Schedule::new(rt.alloc())?;
    let mut watch = ThreadClock::new(epoch);
    schedule.sleep_until(&rt, watch.micros(&rt), 20);
    holds(&rt, watch.micros(&rt) >= 20_000, "it lasts as long as that");
    schedule.wake();
    let woken = wakes(&rt, &schedule, &mut watch);
    holds(&rt, woken, "it ends where it was woken before it began");
    let _ = schedule.add(&rt, 1, 5);
    let past = wakes(&rt, &schedule, &mut watch);
    holds(&rt, past, "a deadline that has come ends it at once");
    Ok(())
}

/// Adds a deadline a little later.
fn adds<R: Wait + Clock>(rt: &R, schedule: &Schedule<Global>) -> bool {
    thread::sleep(rt, Duration::from_millis(20));
    let _ = schedule.add(rt, 1, 5);
    true
}

#[test]
fn an_earlier_deadline_ends_the_sleep(rt: HostRuntime) -> Result<(), Fail> {
    let epoch = Epoch::now(&rt).ok_or("no clock")?;
    let schedule = Schedule::new(rt.alloc())?;
    let mut watch = ThreadClock::new(epoch);
    let _ = schedule.add(&rt, 2, LATE);
    let both = join(
        &rt,
        || wakes(&rt, &schedule, &mut watch),
        || adds(&rt, &schedule),
    );
    holds(&rt, both.0 && both.1, "the sleep ended when it was added");
    Ok(())
}
