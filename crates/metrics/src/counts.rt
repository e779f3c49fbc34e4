//! Counters that all threads share.
use crate::call_counts::CallCounts;
use crate::count::gauge;
use crate::datagram_counts::DatagramCounts;
use crate::durations::Durations;
use crate::metric::append_metrics;
use crate::sender_counts::SenderCounts;
use crate::stream_counts::StreamCounts;
use std::alloc::{AllocError, Global};

/// What a proxy counts. Who counts does nothing but additions.
#[derive(Drop)]
pub struct Counts {
    pub calls: CallCounts,
    pub datagrams: DatagramCounts,
    pub senders: SenderCounts,
    pub streams: StreamCounts,
    /// How long datagrams took to be handled.
    pub latencies: Durations,
    /// How long it took to keep changes of bindings elsewhere, all that waited at once.
    pub commits: Durations,
}

/// What is looked up at the moment in which the counters are asked for.
#[derive(Clone, Copy)]
pub struct Gauges {
    /// For how many seconds the proxy serves.
    pub seconds: u64,
    /// How many calls it keeps.
    pub held: u64,
    /// How many contacts are bound to its users.
    pub bindings: u64,
    /// How many bytes of memory its process has, if the system says so.
    pub resident: Option<u64>,
}

/// Appends how much memory the process has, if that is known.
fn append_resident(text: &mut Vec<u8>, resident: Option<u64>) -> Result<(), AllocError> {
    match resident {
        Some(bytes) => append_metrics(
            text,
            &[gauge(
                b"process_resident_memory_bytes",
                b"Memory of the process, in bytes.",
                bytes,
            )],
        ),
        None => Ok(()),
    }
}

impl Counts {
    /// Nothing was counted.
    pub fn new() -> Counts {
        Counts {
            calls: CallCounts::new(),
            datagrams: DatagramCounts::new(),
            senders: SenderCounts::new(),
            streams: StreamCounts::new(),
            latencies: Durations::new(),
            commits: Durations::new(),
        }
    }

    /// All counters as Prometheus text, behind what is looked up at this moment.
    ///
    /// # Errors
    ///
    /// Only where the allocator refuses.
    pub fn text(&self, alloc: Global, gauges: Gauges) -> Result<Vec<u8>, AllocError> {
        let mut text = Vec::new(alloc);
        let metrics = [
            gauge(
                b"forkproxy_uptime_seconds",
                b"For how many seconds the proxy serves.",
                gauges.seconds,
            ),
            gauge(b"forkproxy_calls", b"Calls that are kept now.", gauges.held),
            gauge(
                b"forkproxy_bindings",
                b"Contacts that are bound to users.",
                gauges.bindings,
            ),
            gauge(
                b"forkproxy_calls_open",
                b"Calls with a branch that has not ended.",
                self.calls.open(),
            ),
        ];
        append_metrics(&mut text, &metrics)?;
        append_resident(&mut text, gauges.resident)?;
        self.calls.append(&mut text)?;
        self.datagrams.append(&mut text)?;
        self.senders.append(&mut text)?;
        self.streams.append(&mut text)?;
        self.latencies.append(
            &mut text,
            b"forkproxy_handling_seconds",
            b"How long datagrams took to be handled.",
        )?;
        self.commits.append(
            &mut text,
            b"forkproxy_store_seconds",
            b"How long it took to keep the changes of bindings that waited, all at once.",
        )?;
        Ok(text)
    }
}
