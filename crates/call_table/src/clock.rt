//! The time since a program began, as each of its threads reads it.
ghost use Rattle.std.specs.Prelude.{◌≡◌, ◌≤◌};

use std::time::{Clock, Instant};

/// How many microseconds a second has.
const MICROS: u64 = 1_000_000;

/// The moment from which a program counts its time.
#[derive(Clone, Copy)]
pub struct Epoch {
    start: Instant,
}

impl Epoch {
    /// Now. None where the clock cannot be read.
    pub fn now<R: Clock>(rt: &R) -> Option<Epoch> {
        match Instant::now(rt) {
            Ok(start) => Some(Epoch { start }),
            Err(_) => None,
        }
    }

    /// How many microseconds have passed since then, as the clock says; None where it cannot be read. Nothing is known of two
    /// readings: a clock may go back.
    fn micros<R: Clock>(&self, rt: &R) -> Option<u64> {
        match self.start.elapsed(rt) {
            Ok(passed) => Some(
                passed
                    .as_secs()
                    .saturating_mul(MICROS)
                    .saturating_add(u64::from(passed.subsec_micros())),
            ),
            Err(_) => None,
        }
    }
}

/// The time as one thread reads it: it never falls, whatever the clock says. Each thread has its own, made from the one epoch
/// of the program.
#[derive(Clone, Copy)]
pub struct ThreadClock {
    epoch: Epoch,
    /// The last time that was read, in microseconds since the epoch.
    last: u64,
}

impl ThreadClock {
    /// A clock that was not read yet: the last time that it showed is 0.
    pub fn new(epoch: Epoch) -> ThreadClock
        ensures { result.last ≡ 0 }
    {
        ThreadClock { epoch, last: 0 }
    }

    /// How many microseconds have passed since the epoch, and no fewer than at the reading before; where the clock cannot be
    /// read, as many as then.
    pub fn micros<R: Clock>(&mut self, rt: &R) -> u64
        ensures rises { self.old.last ≤ result }
        ensures kept { self.new.last ≡ result }
    {
        if let Some(passed) = self.epoch.micros(rt) {
            self.last = self.last.max(passed);
        }
        self.last
    }
}
