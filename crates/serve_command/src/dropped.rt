//! Notes of what is dropped.
use fork_call::Cause;
use log::{Log, warn};
use proxy_threads::SendCounter;
use sockets::SendOutcome;
use std::sync::atomic::{AtomicU64, Ordering};

/// How much of one kind was dropped.
#[derive(Drop)]
pub(crate) struct Dropped {
    count: AtomicU64,
}

impl Dropped {
    /// The count before anything was dropped.
    pub(crate) fn new() -> Dropped {
        Dropped {
            count: AtomicU64::new(0),
        }
    }

    /// Counts one more that was dropped. A line is logged where the count is a power of two: a line for each would cost
    /// most when there is least time.
    pub(crate) fn note<R: Log>(&self, rt: &R, what: &str) {
        let count = self.count.fetch_add(1, Ordering::SeqCst).wrapping_add(1);
        if count.is_power_of_two() {
            warn!(rt; "{what}: {count} so far");
        }
    }
}

/// Notes the datagrams that the system refuses to send.
#[derive(Drop)]
pub(crate) struct RefusedSends<'a, R> {
    pub(crate) rt: &'a R,
    pub(crate) unsent: &'a Dropped,
}

impl<R: Log> SendCounter for RefusedSends<'_, R> {
    fn count(&self, _cause: Cause, outcome: SendOutcome) {
        if outcome == SendOutcome::Refused {
            self.unsent
                .note(self.rt, "datagrams that the system refused to send");
        }
    }
}
