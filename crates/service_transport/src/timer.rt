//! The thread that keeps the time of calls.
use crate::listening::ProxySockets;
use crate::port::{CauseCounter, ServicePort};
use crate::transport::ServiceTransport;
use call_table::ThreadClock;
use service_admission::ServiceState;
use std::sync::Wait;
use std::time::Clock;
use stream_sockets::ConnectionSockets;

impl ServiceTransport {
    /// Does what is due, when it is, until the end.
    fn keep_time_until_end<'a, R: Wait + ConnectionSockets + Clock>(
        &'a self,
        rt: &'a R,
        sockets: &'a ProxySockets,
    ) {
        let service = &self.service;
        let counts = service.counts();
        let counter = CauseCounter::new(
            &counts.datagrams,
            &counts.streams,
            &counts.datagrams.timed,
        );
        let mut port = ServicePort::new(rt, sockets, self.epoch, counter);
        let mut watch = ThreadClock::new(self.epoch);
        for _ in rt.forever() {
            let now = watch.micros(rt) / 1_000;
            service.tick(rt, &mut port, now);
            let until = service.next_look(rt, now);
            if service.is_in(ServiceState::Ended) {
                return;
            }
            service
                .calls()
                .schedule()
                .sleep_until(rt, watch.micros(rt), until);
        }
        unreachable!()
    }

    /// Does what is due, when it is, until the end. Then it wakes the thread of connections, and the worker that receives, by a datagram from
    /// the proxy to itself; without it that one would wake within a second.
    pub fn keep_time<R: Wait + ConnectionSockets + Clock>(&self, rt: &R, sockets: &ProxySockets) {
        self.keep_time_until_end(rt, sockets);
        if let Some(streams) = &sockets.streams {
            streams.wake();
        }
        sockets.udp.wake(self.own);
        self.receiving.wake_all();
    }
}
