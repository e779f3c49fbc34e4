//! Workers that are idle while another one receives.
use std::sync::Wait;
use std::sync::atomic::{AtomicBool, AtomicU64, Ordering};
use std::time::Duration;

/// How long the worker that watches sleeps, in milliseconds: then it looks whether nobody receives, as where the worker that received last is
/// held up by what it handles.
const WATCH: u64 = 30;

/// How long any other worker is idle at most, in milliseconds.
const LONGEST: u64 = 1_000;

/// How often workers were woken, so far as it fits into what they sleep on.
#[derive(Clone, Copy)]
pub(crate) struct Woken(u32);

/// Workers that are idle until one is woken. Who enters, then finds another worker receiving, and then sleeps, is woken by whoever has let
/// the receiving go and wakes one behind that: none is missed. One at a time is being woken: it looks itself whether more waits, and a wake
/// is a call of the system each.
///
/// One of them watches: it sleeps for a short time only, since a worker is not woken for each datagram so that another one receives while
/// it is handled. The others are woken before it. Who is about to handle a datagram wakes one where workers are idle and none watches; that
/// one receives, or watches.
#[derive(Drop)]
pub(crate) struct IdleWorkers {
    /// How often workers were woken: on the one the worker sleeps that watches, on the other all others do.
    watch: AtomicU64,
    others: AtomicU64,
    /// How many are idle, or are about to be.
    count: AtomicU64,
    /// Whether one was woken that does not run yet.
    is_waking: AtomicBool,
    /// Whether one watches.
    is_watched: AtomicBool,
}

impl IdleWorkers {
    /// No worker is idle.
    pub(crate) fn new() -> IdleWorkers {
        IdleWorkers {
            watch: AtomicU64::new(0),
            others: AtomicU64::new(0),
            count: AtomicU64::new(0),
            is_waking: AtomicBool::new(false),
            is_watched: AtomicBool::new(false),
        }
    }

    /// Counts a worker that is about to be idle, and answers how often workers were woken before. A wake that found none idle is forgotten here,
    /// so it keeps nobody from waking this one.
    pub(crate) fn enter(&self) -> Woken {
        self.count.fetch_add(1, Ordering::SeqCst);
        let woken = self.others.load(Ordering::SeqCst);
        self.is_waking.store(false, Ordering::SeqCst);
        Woken((woken % (1 << 32)) as u32)
    }

    /// Sleeps until a worker is woken, a second at most, unless one was woken since workers had been woken so often. It may also end for no
    /// reason. Where no worker watches this one does, and sleeps for 30 milliseconds at most.
    pub(crate) fn sleep<R: Wait>(&self, rt: &R, woken: Woken) {
        if self.is_watched.swap(true, Ordering::SeqCst) {
            self.others
                .park_timeout(rt, woken.0, Duration::from_millis(LONGEST));
            return;
        }
        self.watch
            .park_timeout(rt, woken.0, Duration::from_millis(WATCH));
        self.is_watched.store(false, Ordering::SeqCst);
    }

    /// Counts a worker that is idle no more.
    pub(crate) fn leave(&self) {
        self.count.fetch_sub(1, Ordering::SeqCst);
        self.is_waking.store(false, Ordering::SeqCst);
    }

    /// Whether a worker is idle, or about to be, and none is being woken.
    pub(crate) fn has_any(&self) -> bool {
        self.count.load(Ordering::SeqCst) > 0 && !self.is_waking.load(Ordering::SeqCst)
    }

    /// Whether one watches.
    pub(crate) fn is_watched(&self) -> bool {
        self.is_watched.load(Ordering::SeqCst)
    }

    /// Counts a wake, so that who is about to sleep does not.
    fn count_wake(&self) {
        self.watch.fetch_add(1, Ordering::SeqCst);
        self.others.fetch_add(1, Ordering::SeqCst);
    }

    /// Wakes a worker, if one is idle and none is being woken: the one that watches only where there is no other.
    pub(crate) fn wake_one(&self) {
        if self.is_waking.swap(true, Ordering::SeqCst) {
            return;
        }
        self.count_wake();
        let is_alone = self.is_watched() && self.count.load(Ordering::SeqCst) == 1;
        if is_alone {
            self.watch.wake_one();
        } else {
            self.others.wake_one();
        }
    }

    /// Wakes all workers that are idle.
    pub(crate) fn wake_all(&self) {
        self.count_wake();
        self.watch.wake_all();
        self.others.wake_all();
    }
}
