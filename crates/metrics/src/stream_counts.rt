//! What a proxy counts of its connections, and of the messages that come and go by them.
use crate::count::{Count, counter, gauge, labelled};
use crate::family::{Family, append_family};
use crate::metric::{MetricKind, append_metrics};
use std::alloc::AllocError;

/// What a proxy counts of its connections, and of the messages that come and go by them. Messages count among all others, too.
#[derive(Drop)]
pub struct StreamCounts {
    /// Connections that peers opened, and that the proxy did.
    pub accepted: Count,
    pub begun: Count,
    /// Those that were closed at once, as there were too many.
    pub refused: Count,
    /// Those that were closed: their peers ended them; they failed; their peers read too slowly; what came by them cannot be read, or did not
    /// come whole; nothing came by them for too long; the proxy ended.
    pub ended: Count,
    pub failed: Count,
    pub slow: Count,
    pub unreadable: Count,
    pub idle: Count,
    pub stopped: Count,
    /// Messages that came by connections.
    pub received: Count,
    /// Messages that were written, or wait to be, and that were not.
    pub sent: Count,
    pub unsent: Count,
    /// Keep-alives that were answered.
    pub pings: Count,
}

impl StreamCounts {
    pub(crate) fn new() -> StreamCounts {
        StreamCounts {
            accepted: Count::new(),
            begun: Count::new(),
            refused: Count::new(),
            ended: Count::new(),
            failed: Count::new(),
            slow: Count::new(),
            unreadable: Count::new(),
            idle: Count::new(),
            stopped: Count::new(),
            received: Count::new(),
            sent: Count::new(),
            unsent: Count::new(),
            pings: Count::new(),
        }
    }

    /// How many were closed.
    fn closed(&self) -> u64 {
        let mut count = 0u64;
        let causes = [
            &self.ended,
            &self.failed,
            &self.slow,
            &self.unreadable,
            &self.idle,
            &self.stopped,
        ];
        for cause in causes {
            count = count.saturating_add(cause.value());
        }
        count
    }

    /// How many there are. What is counted meanwhile may be counted in part.
    pub fn open(&self) -> u64 {
        let closed = self.closed();
        let opened = self.accepted.value().saturating_add(self.begun.value());
        opened.saturating_sub(closed)
    }

    /// Appends how many connections were opened, by whom.
    fn append_opened(&self, text: &mut Vec<u8>) -> Result<(), AllocError> {
        let values = [
            labelled(b"in", &self.accepted),
            labelled(b"out", &self.begun),
        ];
        let family = Family {
            name: b"forkproxy_connections_opened_total",
            help: b"Connections that peers opened, and that the proxy did.",
            kind: MetricKind::Counter,
            label: b"way",
            values: &values,
        };
        append_family(text, &family)
    }

    /// Appends how many connections were closed, and why.
    fn append_closed(&self, text: &mut Vec<u8>) -> Result<(), AllocError> {
        let values = [
            labelled(b"peer", &self.ended),
            labelled(b"failed", &self.failed),
            labelled(b"slow", &self.slow),
            labelled(b"unreadable", &self.unreadable),
            labelled(b"idle", &self.idle),
            labelled(b"stop", &self.stopped),
        ];
        let family = Family {
            name: b"forkproxy_connections_closed_total",
            help: b"Connections that were closed, by the cause.",
            kind: MetricKind::Counter,
            label: b"cause",
            values: &values,
        };
        append_family(text, &family)
    }

    pub(crate) fn append(&self, text: &mut Vec<u8>) -> Result<(), AllocError> {
        append_metrics(
            text,
            &[gauge(
                b"forkproxy_connections",
                b"Connections that there are.",
                self.open(),
            )],
        )?;
        self.append_opened(text)?;
        self.append_closed(text)?;
        let metrics = [
            counter(
                b"forkproxy_connections_refused_total",
                b"Connections that were closed at once, as there were too many.",
                &self.refused,
            ),
            counter(
                b"forkproxy_stream_received_total",
                b"Messages that came by connections.",
                &self.received,
            ),
            counter(
                b"forkproxy_stream_sent_total",
                b"Messages that were written to connections, or wait to be.",
                &self.sent,
            ),
            counter(
                b"forkproxy_stream_unsent_total",
                b"Messages for connections that were not written.",
                &self.unsent,
            ),
            counter(
                b"forkproxy_stream_pings_total",
                b"Keep-alives that were answered on connections.",
                &self.pings,
            ),
        ];
        append_metrics(text, &metrics)
    }
}
