//! Deadlines that are added while memory is refused.
use crate::plays::{holds, plays};
use crate::sources::Alloc;
use call_table::{Epoch, Schedule, ThreadClock};
use failing_allocator::{Attempt, Heap, Play, Refusing, Repeated};
use std::sync::Wait;
use std::test::Fail;

/// How many deadlines are added.
const COUNT: u64 = 40;

/// A moment, in milliseconds, that no test comes to.
const LATE: u64 = 1_000_000;

/// A deadline is added. Where that is refused it is missed, and some call may be due at any moment.
#[derive(Drop)]
struct Adding<'s, 'a, R> {
    rt: &'s R,
    schedule: &'s Schedule<Alloc<'a>>,
    number: u64,
}

/// The deadline of a number: the later the number, the earlier.
fn deadline_of(number: u64) -> u64 {
    LATE.saturating_sub(number)
}

impl<R: Wait> Repeated for Adding<'_, '_, R> {
    fn attempt(&mut self) -> Attempt {
        let added = self
            .schedule
            .add(self.rt, self.number, deadline_of(self.number));
        let is_due = self.schedule.is_due(0);
        let is_missed = self.schedule.take_missed();
        match added {
            Ok(()) => Attempt::of(!is_missed && !is_due),
            Err(_) => Attempt::failed(is_missed && is_due),
        }
    }
}

/// Whether each deadline can be added, and comes once then, the earliest first.
fn all_added<R: Wait>(heap: Heap<'_>, rt: &R, schedule: &Schedule<Alloc<'_>>) -> bool {
    let mut adding = Adding {
        rt,
        schedule,
        number: 0,
    };
    let mut well = true;
    for number in 0..COUNT {
        adding.number = number;
        well = well && heap.insist(&mut adding);
    }
    for number in (0..COUNT).rev() {
        well = well && schedule.take_due(rt, LATE) == Some(number);
    }
    well && schedule.take_due(rt, LATE).is_none()
}

/// Deadlines of many calls.
#[derive(Drop)]
struct Deadlines<'r, R> {
    rt: &'r R,
}

impl<R: Wait> Play for Deadlines<'_, R> {
    fn play(&self, heap: Heap<'_>) -> bool {
        // (a new schedule grows nothing)
        match Schedule::new(heap.scarce) {
            Ok(schedule) => all_added(heap, self.rt, &schedule),
            Err(_) => false,
        }
    }
}

#[test]
fn deadlines_are_added(rt: HostRuntime) {
    plays(&rt, &Deadlines { rt: &rt }, 0, "deadlines of calls");
}

#[test]
fn who_missed_a_deadline_does_not_sleep_for_long(rt: HostRuntime) -> Result<(), Fail> {
    let heap = Refusing::new(rt.alloc());
    let epoch = Epoch::now(&rt).ok_or("no clock")?;
    let schedule = Schedule::new(&heap)?;
    let mut watch = ThreadClock::new(epoch);
    heap.refuse_from(1);
    let added = schedule.add(&rt, 1, LATE);
    holds(&rt, added.is_err(), "the deadline cannot be added");
    let before = watch.micros(&rt);
    schedule.sleep_until(&rt, before, LATE);
    let slept = watch.micros(&rt).saturating_sub(before);
    holds(&rt, slept < 1_000_000, "ten milliseconds are the longest");
    Ok(())
}
