//! One counter that all threads share.
use crate::family::Labelled;
use crate::metric::{Metric, MetricKind};
use std::sync::atomic::{AtomicU64, Ordering};

/// One counter.
#[derive(Drop)]
pub struct Count {
    value: AtomicU64,
}

impl Count {
    /// Nothing was counted.
    pub(crate) fn new() -> Count {
        Count {
            value: AtomicU64::new(0),
        }
    }

    /// Counts so many more.
    pub fn add(&self, more: u64) {
        self.value.fetch_add(more, Ordering::SeqCst);
    }

    pub(crate) fn value(&self) -> u64 {
        self.value.load(Ordering::SeqCst)
    }
}

/// A counter with its name and what it counts.
pub(crate) fn counter(name: &'static [u8], help: &'static [u8], count: &Count) -> Metric<'static> {
    Metric {
        name,
        help,
        kind: MetricKind::Counter,
        value: count.value(),
    }
}

/// A value that rises and falls, with its name and what it is.
pub(crate) fn gauge(name: &'static [u8], help: &'static [u8], value: u64) -> Metric<'static> {
    Metric {
        name,
        help,
        kind: MetricKind::Gauge,
        value,
    }
}

/// A counter with what its label says.
pub(crate) fn labelled(says: &'static [u8], count: &Count) -> Labelled<'static> {
    Labelled {
        says,
        value: count.value(),
    }
}
