//! What a worker does with the datagrams that it receives, and with those that are handed over to it.
ghost use Rattle.std.specs.Prelude.{◌≤◌, length, IfErr, IfOk, IfSome};
ghost use Rattle.service_files.specs.Faults.{IsSocketFault};

use crate::listening::ProxySockets;
use crate::port::ServicePort;
use crate::receiving::Receiving;
use crate::transport::ServiceTransport;
use call_table::ThreadClock;
use proxy_dispatch::Received;
use proxy_service::Service;
use proxy_threads::{ReadyMemory, group_of};
use service_admission::{ServiceState, SourceLimits, admits};
use service_files::{DaemonFault, socket_fault};
use sip_uri::Hop;
use std::alloc::Global;
use std::hint::spin_loop;
use std::sync::Wait;
use std::time::Clock;
use stream_sockets::ConnectionSockets;

/// How often a worker looks whether another one still receives before it is idle. Together the looks take as long as a receive does where a
/// datagram waits.
const LOOKS: u32 = 9;

/// Lets less than a microsecond pass.
fn pause() {
    for _ in 0..10u32 {
        spin_loop();
    }
}

/// A datagram in a worker's buffer, whose group of calls the worker has entered.
#[derive(Clone, Copy)]
struct ClaimedDatagram {
    /// How many bytes of the buffer it has.
    count: usize,
    source: Hop,
    /// The number of its group; None where it has no Call-ID.
    group: Option<u8>,
}

/// A worker: what it works for, and what it keeps from one datagram to the next.
#[derive(Drop)]
pub(crate) struct DatagramWorker<'a, R> {
    alloc: Global,
    pub(crate) service: &'a Service,
    receiving: &'a Receiving,
    sockets: &'a ProxySockets,
    pub(crate) port: ServicePort<'a, R>,
    watch: ThreadClock,
    ready: ReadyMemory,
}

impl<'a, R: Wait + ConnectionSockets + Clock> DatagramWorker<'a, R> {
    /// One that has handled nothing yet.
    pub(crate) fn new(
        rt: &'a R,
        transport: &'a ServiceTransport,
        sockets: &'a ProxySockets,
    ) -> DatagramWorker<'a, R> {
        DatagramWorker {
            alloc: transport.alloc,
            service: &transport.service,
            receiving: &transport.receiving,
            sockets,
            port: transport.answering_port(rt, sockets),
            watch: ThreadClock::new(transport.epoch),
            ready: ReadyMemory::new(),
        }
    }

    /// Milliseconds since the beginning.
    pub(crate) fn millis(&mut self, rt: &R) -> u64 {
        self.watch.micros(rt) / 1_000
    }

    /// Handles a message that came by a connection, and those that are handed over to its group of calls meanwhile; where another thread is
    /// on the group the message is left to that one.
    pub(crate) fn take_message(&mut self, rt: &R, bytes: &[u8], source: Hop) {
        self.ready.hold(&self.alloc);
        let group = group_of(bytes);
        let counts = &self.service.counts().datagrams;
        if self.receiving.enters(rt, counts, group, bytes, source) {
            self.handle_timed(rt, bytes, source);
            self.drain_group(rt, group);
        }
    }

    /// Handles a datagram, and notes how long that took. The moment is read as it begins.
    fn handle_timed(&mut self, rt: &R, bytes: &[u8], source: Hop) {
        let began = self.watch.micros(rt);
        let received = Received {
            bytes,
            source,
            now: began / 1_000,
        };
        self.service.take(rt, &mut self.port, received);
        let took = self.watch.micros(rt).saturating_sub(began);
        self.service.counts().latencies.add(took);
    }

    /// Handles what was handed over meanwhile in a group that this worker is on, and leaves the group.
    fn drain_group(&mut self, rt: &R, group: Option<u8>) {
        for _ in rt.forever() {
            match self.receiving.groups.next(rt, group) {
                Some(packet) => self.handle_timed(rt, packet.bytes.as_slice(), packet.source),
                None => return,
            }
        }
        unreachable!()
    }

    /// Handles a datagram whose group of calls this worker has entered, and those that are handed over to it meanwhile.
    fn handle_claimed(&mut self, rt: &R, buffer: &[u8], entered: ClaimedDatagram)
        requires { entered.count ≤ length buffer.now }
    {
        self.ready.hold(&self.alloc);
        self.handle_timed(rt, &buffer[..entered.count], entered.source);
        self.drain_group(rt, entered.group);
    }

    /// Counts a datagram that came, and says whether its source may send it now.
    pub(crate) fn admits(
        &mut self,
        rt: &R,
        limits: &mut Option<SourceLimits<Global>>,
        source: Hop,
    ) -> bool {
        let counts = &self.service.counts().datagrams;
        if self.receiving.is_unlimited(source.addr) {
            counts.received.add(1);
            return true;
        }
        let now = match limits {
            Some(_) => self.watch.micros(rt) / 1_000,
            None => 0,
        };
        admits(counts, limits, source.addr, now)
    }

    /// The next datagram that this worker is to handle, while no other worker receives. None where none comes within a second, or it is
    /// for another worker, or is dropped, or the proxy has ended.
    ///
    /// # Errors
    ///
    /// `Socket` where the receive failed.
    fn receive(
        &mut self,
        rt: &R,
        limits: &mut Option<SourceLimits<Global>>,
        buffer: &mut [u8],
    ) -> Result<Option<ClaimedDatagram>, DaemonFault>
        ensures fits { IfOk result (λ came. IfSome came (λ entered. entered.count ≤ length buffer.new)) }
        ensures fault { IfErr result IsSocketFault }
    {
        let came = match self.sockets.udp.receive(buffer) {
            Ok(came) => came,
            Err(error) => return Err(socket_fault(error)),
        };
        if self.service.is_in(ServiceState::Ended) {
            return Ok(None);
        }
        let Some((count, source)) = came else {
            return Ok(None);
        };
        if !self.admits(rt, limits, source) {
            return Ok(None);
        }
        let bytes = &buffer[..count];
        let group = group_of(bytes);
        let counts = &self.service.counts().datagrams;
        if !self.receiving.enters(rt, counts, group, bytes, source) {
            return Ok(None);
        }
        Ok(Some(ClaimedDatagram {
            count,
            source,
            group,
        }))
    }

    /// The next datagram that this worker is to handle; None where there is none, or where another worker received until this one was woken.
    ///
    /// # Errors
    ///
    /// `Socket` where a receive failed.
    fn receive_or_wait(
        &mut self,
        rt: &R,
        buffer: &mut [u8],
    ) -> Result<Option<ClaimedDatagram>, DaemonFault>
        ensures fits { IfOk result (λ came. IfSome came (λ entered. entered.count ≤ length buffer.new)) }
        ensures fault { IfErr result IsSocketFault }
    {
        let receiving = self.receiving;
        for _ in 0..LOOKS {
            if let Some(mut limits) = receiving.limits.try_lock() {
                return self.receive(rt, &mut *limits, buffer);
            }
            pause();
        }
        receiving.wait_idle(rt);
        Ok(None)
    }

    /// Receives and handles datagrams until the end.
    ///
    /// # Errors
    ///
    /// `Socket` where a receive failed.
    fn work_until_end(&mut self, rt: &R, buffer: &mut [u8]) -> Result<(), DaemonFault>
        ensures { IfErr result IsSocketFault }
    {
        for _ in rt.forever() {
            if self.service.is_in(ServiceState::Ended) {
                return Ok(());
            }
            let came = self.receive_or_wait(rt, buffer)?;
            if let Some(entered) = came {
                self.receiving.hand_over(&self.sockets.udp);
                self.handle_claimed(rt, buffer, entered);
            }
        }
        unreachable!()
    }
}

impl ServiceTransport {
    /// Receives and handles datagrams until the end. Where a receive failed the proxy ends. Behind this worker the others leave.
    ///
    /// # Errors
    ///
    /// `Socket` where a receive failed.
    pub fn work<R: Wait + ConnectionSockets + Clock>(
        &self,
        rt: &R,
        sockets: &ProxySockets,
        buffer: &mut [u8],
    ) -> Result<(), DaemonFault>
        ensures { IfErr result IsSocketFault }
    {
        let mut worker = DatagramWorker::new(rt, self, sockets);
        let ended = worker.work_until_end(rt, buffer);
        if ended.is_err() {
            self.service.end();
        }
        self.receiving.wake_all();
        ended
    }
}
