//! Calls that lacked memory, and how long each waits until it is carried again.
ghost use Rattle.std.specs.Prelude.{◌≡◌, ◌≤◌};
ghost use Rattle.proxy_threads.specs.Waits.{wait_behind};

use std::alloc::{AllocError, Global};
use std::sync::atomic::{AtomicU64, Ordering};
use std::sync::{Mutex, Wait};

/// The first wait, in milliseconds.
const FIRST: u64 = 10;

/// No wait is longer, in milliseconds.
const LONGEST: u64 = 5_000;

/// For how many calls at once the wait is known; all others wait for the longest time.
const MOST_CALLS: usize = 4_096;

/// The wait behind one of so many milliseconds: 10, 20, 40 and so on, up to 5,000. No wait before is one of 0.
pub(crate) fn wait_behind(before: u64) -> u64
    ensures { result ≡ wait_behind before }
{
    before.saturating_mul(2).max(FIRST).min(LONGEST)
}

/// A call that lacks memory, and its last wait in milliseconds.
#[derive(Clone, Copy, Drop)]
struct RefusedCall {
    number: u64,
    wait: u64,
}

/// The calls that lack memory now. The room for them is taken at the start, so that none is needed where there is none.
#[derive(Drop)]
struct RefusedCalls {
    calls: Vec<RefusedCall>,
}

impl RefusedCalls {
    /// How long the call of this number waits, which lacked memory once more.
    fn refuse(&mut self, number: u64) -> u64
        ensures least { 10 ≤ result }
        ensures most { result ≤ 5000 }
    {
        for refused in self.calls.iter_mut() {
            if refused.number == number {
                refused.wait = wait_behind(refused.wait);
                return refused.wait;
            }
        }
        let wait = wait_behind(0);
        if self.calls.len() < MOST_CALLS && self.calls.push(RefusedCall { number, wait }).is_ok() {
            wait
        } else {
            LONGEST
        }
    }

    /// The call of this number lacks none any more.
    fn clear(&mut self, number: u64) {
        self.calls.retain(|refused| refused.number != number);
    }
}

/// The calls that lack memory now, for all threads.
#[derive(Drop)]
pub struct Refusals {
    /// How many there are, so that where there is none no lock is taken.
    count: AtomicU64,
    refused: Mutex<RefusedCalls>,
}

impl Refusals {
    /// No call lacks memory.
    ///
    /// # Errors
    ///
    /// Only where the allocator refuses.
    pub fn new(alloc: Global) -> Result<Refusals, AllocError> {
        Ok(Refusals {
            count: AtomicU64::new(0),
            refused: Mutex::new(RefusedCalls {
                calls: Vec::with_capacity(alloc, MOST_CALLS)?,
            }),
        })
    }

    /// How many milliseconds the call of this number waits, which lacked memory once more: 10, 20, 40 and so on, up to 5,000. Where 4,096 others
    /// lack it, it waits for the longest time.
    pub fn refuse<R: Wait>(&self, rt: &R, number: u64) -> u64 {
        let mut refused = self.refused.lock(rt);
        let wait = refused.refuse(number);
        self.count
            .store(refused.calls.len() as u64, Ordering::SeqCst);
        wait
    }

    /// The call of this number lacks none any more.
    pub fn clear<R: Wait>(&self, rt: &R, number: u64) {
        if self.count.load(Ordering::SeqCst) == 0 {
            return;
        }
        let mut refused = self.refused.lock(rt);
        refused.clear(number);
        self.count
            .store(refused.calls.len() as u64, Ordering::SeqCst);
    }
}
