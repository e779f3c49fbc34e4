//! What a proxy counts of the datagrams that come, and of those that it sends.
use crate::count::{Count, counter, labelled};
use crate::family::{Family, Labelled, append_family};
use crate::metric::{MetricKind, append_metrics};
use std::alloc::AllocError;

/// Requests that the proxy answered without a call, by the status.
#[derive(Drop)]
pub struct AnsweredCounts {
    okay: Count,
    bad_request: Count,
    uri_scheme: Count,
    extension: Count,
    unavailable: Count,
    no_transaction: Count,
    hop_loop: Count,
    too_many_hops: Count,
    server_error: Count,
    others: Count,
}

impl AnsweredCounts {
    fn new() -> AnsweredCounts {
        AnsweredCounts {
            okay: Count::new(),
            bad_request: Count::new(),
            uri_scheme: Count::new(),
            extension: Count::new(),
            unavailable: Count::new(),
            no_transaction: Count::new(),
            hop_loop: Count::new(),
            too_many_hops: Count::new(),
            server_error: Count::new(),
            others: Count::new(),
        }
    }

    /// Counts a request that was answered with this status.
    pub fn add(&self, status: u16) {
        match status {
            200 => self.okay.add(1),
            400 => self.bad_request.add(1),
            416 => self.uri_scheme.add(1),
            420 => self.extension.add(1),
            480 => self.unavailable.add(1),
            481 => self.no_transaction.add(1),
            482 => self.hop_loop.add(1),
            483 => self.too_many_hops.add(1),
            500 => self.server_error.add(1),
            _ => self.others.add(1),
        }
    }

    fn append(&self, text: &mut Vec<u8>) -> Result<(), AllocError> {
        let values = [
            labelled(b"200", &self.okay),
            labelled(b"400", &self.bad_request),
            labelled(b"416", &self.uri_scheme),
            labelled(b"420", &self.extension),
            labelled(b"480", &self.unavailable),
            labelled(b"481", &self.no_transaction),
            labelled(b"482", &self.hop_loop),
            labelled(b"483", &self.too_many_hops),
            labelled(b"500", &self.server_error),
            labelled(b"other", &self.others),
        ];
        let family = Family {
            name: b"forkproxy_answered_total",
            help: b"Requests that the proxy answered without a call, by the status.",
            kind: MetricKind::Counter,
            label: b"status",
            values: &values,
        };
        append_family(text, &family)
    }
}

/// Datagrams that were sent, by what they are.
#[derive(Drop)]
pub struct SentCounts {
    pub requests: Count,
    pub cancels: Count,
    pub acks: Count,
    /// Answers to a caller, those to its CANCEL among them.
    pub answers: Count,
}

impl SentCounts {
    fn new() -> SentCounts {
        SentCounts {
            requests: Count::new(),
            cancels: Count::new(),
            acks: Count::new(),
            answers: Count::new(),
        }
    }

    fn values(&self) -> [Labelled<'static>; 4] {
        [
            labelled(b"request", &self.requests),
            labelled(b"cancel", &self.cancels),
            labelled(b"ack", &self.acks),
            labelled(b"answer", &self.answers),
        ]
    }

    /// Appends them under this name, with what it counts.
    fn append(
        &self,
        text: &mut Vec<u8>,
        name: &'static [u8],
        help: &'static [u8],
    ) -> Result<(), AllocError> {
        let values = self.values();
        let family = Family {
            name,
            help,
            kind: MetricKind::Counter,
            label: b"message",
            values: &values,
        };
        append_family(text, &family)
    }
}

/// What a proxy counts of the datagrams that come, and of those that it sends.
#[derive(Drop)]
pub struct DatagramCounts {
    pub received: Count,
    /// Those that a call took, that were answered without a call, that were sent on without one.
    pub delivered: Count,
    pub answered: AnsweredCounts,
    pub forwarded: Count,
    /// Those that cannot be read, or that no call takes.
    pub dropped: Count,
    /// Those that only keep a path open (see [`service_admission::is_keep_alive`]).
    pub keep_alives: Count,
    /// ACKs for answers of the proxy's own.
    pub absorbed: Count,
    /// Requests that were answered 503.
    pub turned_away: Count,
    /// Those that were more than one source may send.
    pub limited: Count,
    /// Those for whose worker as many waited as may, and that were left for want of memory.
    pub crowded_out: Count,
    pub no_memory: Count,
    /// Those that were sent for a datagram that came.
    pub sent: SentCounts,
    /// Those that were sent since a timer fired.
    pub timed: SentCounts,
    /// Those that the system had no room for, and that it refused to send.
    pub lost: Count,
    pub unsent: Count,
}

impl DatagramCounts {
    pub(crate) fn new() -> DatagramCounts {
        DatagramCounts {
            received: Count::new(),
            delivered: Count::new(),
            answered: AnsweredCounts::new(),
            forwarded: Count::new(),
            dropped: Count::new(),
            keep_alives: Count::new(),
            absorbed: Count::new(),
            turned_away: Count::new(),
            limited: Count::new(),
            crowded_out: Count::new(),
            no_memory: Count::new(),
            sent: SentCounts::new(),
            timed: SentCounts::new(),
            lost: Count::new(),
            unsent: Count::new(),
        }
    }

    /// Appends what became of those that came.
    fn append_received(&self, text: &mut Vec<u8>) -> Result<(), AllocError> {
        let metrics = [
            counter(
                b"forkproxy_received_total",
                b"Datagrams and messages that came.",
                &self.received,
            ),
            counter(
                b"forkproxy_delivered_total",
                b"Datagrams that a call took that was open before.",
                &self.delivered,
            ),
            counter(
                b"forkproxy_forwarded_total",
                b"Datagrams that were sent on without a call.",
                &self.forwarded,
            ),
            counter(
                b"forkproxy_dropped_total",
                b"Datagrams that cannot be read, or that no call takes.",
                &self.dropped,
            ),
            counter(
                b"forkproxy_keepalives_total",
                b"Datagrams that only keep an address translation open.",
                &self.keep_alives,
            ),
            counter(
                b"forkproxy_absorbed_total",
                b"ACKs for answers of the proxy's own.",
                &self.absorbed,
            ),
            counter(
                b"forkproxy_turned_away_total",
                b"Requests that the proxy itself answered 503.",
                &self.turned_away,
            ),
            counter(
                b"forkproxy_limited_total",
                b"Datagrams that were more than one source may send.",
                &self.limited,
            ),
            counter(
                b"forkproxy_crowded_out_total",
                b"Datagrams that were left as too many waited for a worker.",
                &self.crowded_out,
            ),
            counter(
                b"forkproxy_no_memory_total",
                b"Datagrams that were left for want of memory.",
                &self.no_memory,
            ),
        ];
        append_metrics(text, &metrics)?;
        self.answered.append(text)
    }

    /// Appends what became of those that were to be sent.
    fn append_sent(&self, text: &mut Vec<u8>) -> Result<(), AllocError> {
        let metrics = [
            counter(
                b"forkproxy_lost_total",
                b"Datagrams that the system had no room for.",
                &self.lost,
            ),
            counter(
                b"forkproxy_unsent_total",
                b"Datagrams that the system refused to send.",
                &self.unsent,
            ),
        ];
        append_metrics(text, &metrics)?;
        self.sent.append(
            text,
            b"forkproxy_sent_total",
            b"Datagrams that were sent for one that came, by what they are.",
        )?;
        self.timed.append(
            text,
            b"forkproxy_timer_sent_total",
            b"Datagrams that were sent since a timer fired, by what they are.",
        )
    }

    pub(crate) fn append(&self, text: &mut Vec<u8>) -> Result<(), AllocError> {
        self.append_received(text)?;
        self.append_sent(text)
    }
}
