//! What a proxy counts of its calls.
use crate::count::{Count, counter, labelled};
use crate::family::{Family, append_family};
use crate::metric::{MetricKind, append_metrics};
use std::alloc::AllocError;

/// Calls that failed, by the class of the status that went up (RFC 3261 section 7.2).
#[derive(Drop)]
pub struct FailedCounts {
    redirected: Count,
    client: Count,
    server: Count,
    global: Count,
}

impl FailedCounts {
    fn new() -> FailedCounts {
        FailedCounts {
            redirected: Count::new(),
            client: Count::new(),
            server: Count::new(),
            global: Count::new(),
        }
    }

    /// Counts a call that failed with this status, from 300 to 699.
    pub fn add(&self, status: u16) {
        match status / 100 {
            3 => self.redirected.add(1),
            4 => self.client.add(1),
            5 => self.server.add(1),
            _ => self.global.add(1),
        }
    }

    fn append(&self, text: &mut Vec<u8>) -> Result<(), AllocError> {
        let values = [
            labelled(b"3xx", &self.redirected),
            labelled(b"4xx", &self.client),
            labelled(b"5xx", &self.server),
            labelled(b"6xx", &self.global),
        ];
        let family = Family {
            name: b"forkproxy_calls_failed_total",
            help: b"Calls that were forgotten without a 2xx, by the class of the status that went up.",
            kind: MetricKind::Counter,
            label: b"class",
            values: &values,
        };
        append_family(text, &family)
    }
}

/// What a proxy counts of its calls.
#[derive(Drop)]
pub struct CallCounts {
    pub opened: Count,
    /// Calls of which every branch has ended.
    pub finished: Count,
    pub answered: Count,
    pub failed: FailedCounts,
    pub forgotten: Count,
    /// Calls that were written to the journal, and that could not be.
    pub journaled: Count,
    pub unwritten: Count,
    /// Calls that were looked at since they were due.
    pub timers: Count,
    /// Deadlines that were not kept for want of memory: the call is looked at with the next one that is due.
    pub missed: Count,
}

impl CallCounts {
    pub(crate) fn new() -> CallCounts {
        CallCounts {
            opened: Count::new(),
            finished: Count::new(),
            answered: Count::new(),
            failed: FailedCounts::new(),
            forgotten: Count::new(),
            journaled: Count::new(),
            unwritten: Count::new(),
            timers: Count::new(),
            missed: Count::new(),
        }
    }

    /// How many calls are open: a branch has not ended.
    pub(crate) fn open(&self) -> u64 {
        let finished = self.finished.value();
        self.opened.value().saturating_sub(finished)
    }

    pub(crate) fn append(&self, text: &mut Vec<u8>) -> Result<(), AllocError> {
        let metrics = [
            counter(
                b"forkproxy_calls_opened_total",
                b"Calls that were opened.",
                &self.opened,
            ),
            counter(
                b"forkproxy_calls_answered_total",
                b"Calls that were forgotten after a 2xx.",
                &self.answered,
            ),
            counter(
                b"forkproxy_calls_forgotten_total",
                b"Calls that were forgotten.",
                &self.forgotten,
            ),
            counter(
                b"forkproxy_calls_journaled_total",
                b"Calls that were written to the journal.",
                &self.journaled,
            ),
            counter(
                b"forkproxy_calls_unwritten_total",
                b"Calls that could not be written to the journal.",
                &self.unwritten,
            ),
            counter(
                b"forkproxy_timers_total",
                b"Calls that were looked at since something was due.",
                &self.timers,
            ),
            counter(
                b"forkproxy_deadlines_missed_total",
                b"Moments at which a call is due that there was no memory to note.",
                &self.missed,
            ),
        ];
        append_metrics(text, &metrics)?;
        self.failed.append(text)
    }
}
