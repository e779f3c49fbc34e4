//! When each call is next due, as all threads know it, and the sleep until the first is.
ghost use Rattle.std.specs.Prelude.{◌≡◌, ◌*◌, ◌-◌, ◌^◌, min, if◌then◌else◌};

use crate::deadlines::DeadlineHeap;
use std::alloc::{AllocError, Allocator, Global};
use std::sync::atomic::{AtomicBool, AtomicU64, Ordering};
use std::sync::{Mutex, Wait};
use std::thread::Parker;
use std::time::Duration;

/// What `earliest` holds where no call has a deadline.
const NEVER: u64 = u64::MAX;

/// How many microseconds a millisecond has.
const MICROS: u64 = 1_000;

/// No sleep is longer, in microseconds: ten seconds.
const LONGEST: u64 = 10_000_000;

/// No sleep is longer where a deadline was missed, in microseconds: ten milliseconds.
const LONGEST_MISSED: u64 = 10_000;

/// How long to sleep from `now`, in microseconds, until a deadline in milliseconds: not at all where it has come, and ten
/// seconds at most; ten milliseconds where a deadline was missed, which may be any.
fn pause(deadline: u64, now: u64, is_missed: bool) -> u64
    ensures { result ≡ min (min (deadline * 1000) (2 ^ 64 - 1) - now) (if is_missed then 10000 else 10000000) }
{
    let longest = if is_missed { LONGEST_MISSED } else { LONGEST };
    deadline
        .saturating_mul(MICROS)
        .saturating_sub(now)
        .min(longest)
}

/// When each call is next due, by its number, and what the one thread that keeps the time sleeps on. Deadlines are in
/// milliseconds since the program's epoch. A call that is due later than its deadline says is looked at once too often; none is
/// forgotten: where memory ran out while one was added, the schedule knows that it missed one.
///
/// What lies under the lock is proved of `DeadlineHeap`. What the methods answer while other threads add is shown by tests alone.
#[derive(Drop)]
pub struct Schedule<A: Allocator = Global> {
    earliest: AtomicU64,
    missed: AtomicBool,
    deadlines: Mutex<DeadlineHeap<A>>,
    parker: Parker,
}

impl<A: Allocator + Clone> Schedule<A> {
    /// A schedule in which no call has a deadline.
    ///
    /// # Errors
    ///
    /// Only where the allocator refuses.
    pub fn new(alloc: A) -> Result<Schedule<A>, AllocError> {
        let deadlines = alloc.clone()?;
        Ok(Schedule {
            earliest: AtomicU64::new(NEVER),
            missed: AtomicBool::new(false),
            deadlines: Mutex::new(DeadlineHeap::new(alloc, deadlines)),
            parker: Parker::new(),
        })
    }

    /// Adds the deadline of a call, in milliseconds; of two of one call the earlier stays. Where it is the earliest of all now,
    /// the thread that sleeps wakes.
    ///
    /// # Errors
    ///
    /// Only where the allocator refuses. Then the deadline counts as missed, and the thread that sleeps wakes.
    pub fn add<R: Wait>(&self, rt: &R, number: u64, deadline: u64) -> Result<(), AllocError> {
        let (added, is_earliest) = {
            let mut deadlines = self.deadlines.lock(rt);
            let added = deadlines.add(number, deadline);
            (added, added.is_ok() && self.leads(deadline))
        };
        self.wake_for(added, is_earliest);
        added
    }

    /// Sets the deadline of a call, in milliseconds, in the place of the one that it has, if it has one. Where it is the earliest of all
    /// now, the thread that sleeps wakes; where the one before was, it may wake once too often. Whoever sets it keeps others from looking
    /// at the call meanwhile: so the last one set is that of the call as it is.
    ///
    /// # Errors
    ///
    /// Only where the allocator refuses. Then the deadline counts as missed, and the thread that sleeps wakes.
    pub fn set<R: Wait>(&self, rt: &R, number: u64, deadline: u64) -> Result<(), AllocError> {
        let (set, is_earliest) = {
            let mut deadlines = self.deadlines.lock(rt);
            let set = deadlines.set(number, deadline);
            (set, set.is_ok() && self.leads(deadline))
        };
        self.wake_for(set, is_earliest);
        set
    }

    /// Whether a deadline is the earliest of all, which is noted then. The lock of the deadlines is held alone meanwhile.
    fn leads(&self, deadline: u64) -> bool {
        let is_earliest = deadline < self.earliest.load(Ordering::SeqCst);
        if is_earliest {
            self.earliest.store(deadline, Ordering::SeqCst);
        }
        is_earliest
    }

    /// Wakes the thread that sleeps where a deadline is the earliest of all now, or was missed, which is noted then.
    fn wake_for(&self, listed: Result<(), AllocError>, is_earliest: bool) {
        let is_missed = listed.is_err();
        if is_missed {
            self.missed.store(true, Ordering::SeqCst);
        }
        if is_missed || is_earliest {
            self.parker.unpark();
        }
    }

    /// Whether some call may be due at `now`, in milliseconds. The look takes no lock.
    pub fn is_due(&self, now: u64) -> bool {
        self.missed.load(Ordering::SeqCst) || self.earliest.load(Ordering::SeqCst) <= now
    }

    /// Takes the number of a call whose deadline has come at `now`, in milliseconds, the earliest of all. It has none then.
    /// None where no deadline has come.
    pub fn take_due<R: Wait>(&self, rt: &R, now: u64) -> Option<u64> {
        let mut deadlines = self.deadlines.lock(rt);
        let number = deadlines.take_due(now);
        self.earliest
            .store(deadlines.earliest().unwrap_or(NEVER), Ordering::SeqCst);
        number
    }

    /// Whether a deadline could not be added since this was last asked. Then each call has to be looked at.
    pub fn take_missed(&self) -> bool {
        self.missed.swap(false, Ordering::SeqCst)
    }

    /// Sleeps until the earliest deadline comes, or this moment in milliseconds, or `wake` is called, or an earlier deadline is
    /// added or missed, and ten seconds at most; ten milliseconds where one was missed that nobody asked for yet. `now` is in
    /// microseconds. One thread alone may sleep. What wakes it between its last look and the sleep is not lost: then it does not
    /// sleep, but where a deadline was missed: who missed it may be the thread that sleeps, and would then never rest.
    pub fn sleep_until<R: Wait>(&self, rt: &R, now: u64, until: u64) {
        let is_missed = self.missed.load(Ordering::SeqCst);
        let deadline = self.earliest.load(Ordering::SeqCst).min(until);
        let wait = pause(deadline, now, is_missed);
        if wait == 0 {
            return;
        }
        if is_missed {
            self.parker.park_timeout(rt, Duration::from_micros(0));
        }
        self.parker.park_timeout(rt, Duration::from_micros(wait));
    }

    /// Wakes the thread that sleeps, or that will sleep next.
    pub fn wake(&self) {
        self.parker.unpark();
    }
}
