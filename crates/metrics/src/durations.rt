//! How long what is done again and again took.
use crate::count::Count;
use crate::histogram::{Histogram, HistogramClass, append_histogram, class_of};
use std::alloc::AllocError;

/// The ends of the classes, in microseconds; what is longer has a class of its own.
const CLASSES: [u64; 5] = [100, 500, 1_000, 10_000, 100_000];

/// How long it took each time, in microseconds.
#[derive(Drop)]
pub struct Durations {
    within: [Count; 6],
    sum: Count,
}

impl Durations {
    pub(crate) fn new() -> Durations {
        Durations {
            within: [
                Count::new(),
                Count::new(),
                Count::new(),
                Count::new(),
                Count::new(),
                Count::new(),
            ],
            sum: Count::new(),
        }
    }

    /// Counts a time at which it took so many microseconds.
    pub fn add(&self, micros: u64) {
        self.sum.add(micros);
        if let Some(class) = self.within.get(class_of(&CLASSES, micros)) {
            class.add(1);
        }
    }

    /// How many were in the class of this number.
    fn count(&self, class: usize) -> u64 {
        match self.within.get(class) {
            Some(count) => count.value(),
            None => 0,
        }
    }

    fn bucket(&self, class: usize) -> HistogramClass {
        HistogramClass {
            bound: CLASSES.get(class).copied().unwrap_or(0),
            count: self.count(class),
        }
    }

    /// Appends the histogram, by this name and with what took so long.
    pub(crate) fn append(
        &self,
        text: &mut Vec<u8>,
        name: &[u8],
        help: &[u8],
    ) -> Result<(), AllocError> {
        let buckets = [
            self.bucket(0),
            self.bucket(1),
            self.bucket(2),
            self.bucket(3),
            self.bucket(4),
        ];
        let histogram = Histogram {
            name,
            help,
            buckets: &buckets,
            beyond: self.count(5),
            sum: self.sum.value(),
        };
        append_histogram(text, &histogram)
    }
}
