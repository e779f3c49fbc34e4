//! A schedule gives each number that is due, once.
use crate::holds::holds;
use call_table::Schedule;
use std::alloc::Global;
use std::sync::Wait;
use std::test::Fail;
use std::thread::join;

/// How many numbers two threads add.
const NUMBERS: u64 = 200;

#[test]
fn each_number_that_is_due_comes_once(rt: HostRuntime) -> Result<(), Fail> {
    let schedule = Schedule::new(rt.alloc())?;
    holds(&rt, !schedule.is_due(1_000), "no call has a deadline");
    let _ = schedule.add(&rt, 3, 500);
    let _ = schedule.add(&rt, 1, 200);
    let _ = schedule.add(&rt, 3, 700);
    let _ = schedule.add(&rt, 1, 100);
    holds(&rt, !schedule.is_due(99), "nothing is due before 100");
    holds(&rt, schedule.is_due(100), "at 100 something is");
    let early = schedule.take_due(&rt, 99);
    holds(&rt, early.is_none(), "nothing is taken before its time");
    let first = schedule.take_due(&rt, 600);
    holds(&rt, first == Some(1), "the earlier of two moments counts");
    let second = schedule.take_due(&rt, 600);
    holds(&rt, second == Some(3), "a later moment changes nothing");
    let third = schedule.take_due(&rt, 1_000);
    holds(&rt, third.is_none(), "each is taken once");
    holds(&rt, !schedule.is_due(600), "then nothing is due");
    holds(&rt, !schedule.take_missed(), "none was missed");
    Ok(())
}

#[test]
fn the_last_deadline_that_was_set_counts(rt: HostRuntime) -> Result<(), Fail> {
    let schedule = Schedule::new(rt.alloc())?;
    let _ = schedule.add(&rt, 7, 10);
    let _ = schedule.set(&rt, 7, 30);
    let early = schedule.take_due(&rt, 20);
    holds(&rt, early.is_none(), "the earlier moment counts no more");
    let due = schedule.take_due(&rt, 30);
    holds(&rt, due == Some(7), "the later one does");
    Ok(())
}

#[test]
fn a_number_can_be_added_again(rt: HostRuntime) -> Result<(), Fail> {
    let schedule = Schedule::new(rt.alloc())?;
    let _ = schedule.add(&rt, 7, 10);
    let once = schedule.take_due(&rt, 10);
    holds(&rt, once == Some(7), "it is due");
    let _ = schedule.add(&rt, 7, 30);
    holds(&rt, !schedule.is_due(29), "it is due later");
    let twice = schedule.take_due(&rt, 30);
    holds(&rt, twice == Some(7), "it is due again");
    Ok(())
}

/// Adds every second number from this one on, the later ones earlier.
fn add_half<R: Wait>(rt: &R, schedule: &Schedule, odd: bool) {
    for number in 0..NUMBERS {
        if (number & 1 == 1) == odd {
            let _ = schedule.add(rt, number, NUMBERS - number);
        }
    }
}

/// Whether the numbers come as they are due, the last one first.
fn come_in_order<R: Wait>(rt: &R, schedule: &Schedule) -> bool {
    let mut is_well = true;
    for gone in 0..NUMBERS {
        let due = NUMBERS - 1 - gone;
        is_well = is_well && schedule.take_due(rt, NUMBERS) == Some(due);
    }
    is_well && schedule.take_due(rt, NUMBERS).is_none()
}

#[test]
fn what_two_threads_add_is_all_given(rt: HostRuntime) -> Result<(), Fail> {
    let schedule = Schedule::new(rt.alloc())?;
    let _both = join(
        &rt,
        || add_half(&rt, &schedule, false),
        || add_half(&rt, &schedule, true),
    );
    holds(&rt, come_in_order(&rt, &schedule), "all come in order");
    Ok(())
}
