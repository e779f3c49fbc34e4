//! A watch shows the time, and never an earlier one.
use crate::holds::holds;
use call_table::{Epoch, ThreadClock};
use std::test::Fail;
use std::thread;
use std::time::Duration;

/// How many times the time is read.
const READINGS: u32 = 1_000;

#[test]
fn the_time_rises(rt: HostRuntime) -> Result<(), Fail> {
    let epoch = Epoch::now(&rt).ok_or("no clock")?;
    let mut watch = ThreadClock::new(epoch);
    let mut last = 0u64;
    let mut rises = true;
    for _ in 0..READINGS {
        let time = watch.micros(&rt);
        rises = rises && last <= time;
        last = time;
    }
    holds(&rt, rises, "no reading is before an earlier one");
    thread::sleep(&rt, Duration::from_millis(5));
    let later = watch.micros(&rt);
    holds(&rt, later >= 5_000, "the sleep is within the time");
    holds(&rt, later < 600_000_000, "the time is in microseconds");
    Ok(())
}
