//! Where a service stands, and since when.
use crate::draining::Draining;
use proxy_dispatch::Opener;
use std::sync::atomic::{AtomicU64, Ordering};

/// What `since` and `last_success` hold where there is no such moment.
const NEVER: u64 = u64::MAX;

/// How many milliseconds a second has.
const MILLIS: u64 = 1_000;

/// Where a service stands.
#[derive(Clone, Copy, PartialEq, Eq, Debug)]
pub enum ServiceState {
    /// It opens calls.
    Serving,
    /// It opens none for requests outside of dialogs, and ends once nothing is open, or its time is over.
    Draining,
    Ended,
}

impl ServiceState {
    fn code(self) -> u64 {
        match self {
            ServiceState::Serving => 0,
            ServiceState::Draining => 1,
            ServiceState::Ended => 2,
        }
    }
}

/// Where a service stands, and the moments by which it ends, in milliseconds. All threads share it without a lock.
#[derive(Drop)]
pub struct Lifetime {
    state: AtomicU64,
    /// When it was first told to stop.
    since: AtomicU64,
    /// When it ends at the latest.
    until: AtomicU64,
    /// When the last 2xx to an INVITE went up.
    last_success: AtomicU64,
}

/// The moment, if there is one.
fn moment(held: u64) -> Option<u64> {
    if held == NEVER { None } else { Some(held) }
}

impl Lifetime {
    /// That of a service that serves.
    pub fn new() -> Lifetime {
        Lifetime {
            state: AtomicU64::new(ServiceState::Serving.code()),
            since: AtomicU64::new(NEVER),
            until: AtomicU64::new(NEVER),
            last_success: AtomicU64::new(NEVER),
        }
    }

    /// Whether the service stands there at this moment.
    pub fn is_in(&self, state: ServiceState) -> bool {
        self.state.load(Ordering::SeqCst) == state.code()
    }

    /// Whether it opens calls for such requests: those within dialogs go on until the end.
    pub fn opens(&self, opener: Opener) -> bool {
        match opener {
            Opener::OutsideDialog | Opener::Registering => self.is_in(ServiceState::Serving),
            Opener::WithinDialog => !self.is_in(ServiceState::Ended),
        }
    }

    /// Begins the end, so many seconds before it comes at the latest. Where it has begun before, it comes by what is said now.
    pub fn drain(&self, now: u64, seconds: u64) {
        let _ = self
            .since
            .compare_exchange(NEVER, now, Ordering::SeqCst, Ordering::SeqCst);
        let until = now.saturating_add(seconds.saturating_mul(MILLIS));
        self.until.store(until, Ordering::SeqCst);
        let _ = self.state.compare_exchange(
            ServiceState::Serving.code(),
            ServiceState::Draining.code(),
            Ordering::SeqCst,
            Ordering::SeqCst,
        );
    }

    /// Notes that the service has ended, wherever it stood: it opens no call any more.
    pub fn end(&self) {
        self.state
            .store(ServiceState::Ended.code(), Ordering::SeqCst);
    }

    /// How the service drains, if it does.
    pub fn draining(&self, records: bool) -> Option<Draining> {
        if !self.is_in(ServiceState::Draining) {
            return None;
        }
        Some(Draining {
            since: self.since.load(Ordering::SeqCst),
            until: self.until.load(Ordering::SeqCst),
            records,
        })
    }

    /// Notes that a 2xx to an INVITE went up.
    pub fn note_success(&self, now: u64) {
        self.last_success.store(now, Ordering::SeqCst);
    }

    /// When the last 2xx to an INVITE went up.
    pub fn last_success(&self) -> Option<u64> {
        moment(self.last_success.load(Ordering::SeqCst))
    }
}
