//! What a service does with a datagram.
use crate::service::Service;
use crate::visit::Visit;
use fork_call::Port;
use proxy_dispatch::{Handled, Received, SharedCalls, handle};
use service_admission::is_keep_alive;
use service_users::ServedAt;
use std::alloc::{AllocError, Allocator};
use std::sync::Wait;
use std::time::Clock;

impl<A: Allocator + Copy> Service<A> {
    /// Handles a datagram as the configuration says that stands now.
    fn handled<R: Wait, P: Port>(
        &self,
        rt: &R,
        port: &mut P,
        received: Received<'_>,
    ) -> Result<Handled, AllocError> {
        let standing = self.settings.configuration.read(rt);
        let configuration = &*standing;
        let served = ServedAt {
            places: self.admission.at(received.now),
            view: self.users.registry.view(configuration, received.now),
            users: &self.users,
            schedule: self.calls.schedule(),
            heap: self.heap,
            counts: &self.counts.senders,
        };
        let setup = configuration.settings.setup();
        let mut calls = SharedCalls::new(&self.calls.shelf);
        handle(rt, self.alloc, &mut calls, setup, &served, received, port)
    }

    /// Counts what became of a datagram, and carries the call that it opened or that took it.
    fn settle<R: Wait + Clock, P: Port>(&self, rt: &R, port: &mut P, handled: Handled, now: u64) {
        match handled {
            Handled::Opened(number) => {
                self.admission.quota.settle();
                self.counts.calls.opened.add(1);
                let is_first = true;
                let visit = Visit {
                    is_first,
                    ..self.visit(now)
                };
                self.calls.carry(rt, port, number, &visit);
            }
            Handled::Delivered(number) => {
                self.counts.datagrams.delivered.add(1);
                self.calls.carry(rt, port, number, &self.visit(now));
            }
            Handled::Answered(status) => self.counts.datagrams.answered.add(status),
            Handled::TurnedAway => self.counts.datagrams.turned_away.add(1),
            Handled::Forwarded => self.counts.datagrams.forwarded.add(1),
            Handled::Dropped => self.counts.datagrams.dropped.add(1),
            Handled::Absorbed => self.counts.datagrams.absorbed.add(1),
            // it is counted by whoever answers it
            Handled::Left => {}
        }
    }

    /// Takes a datagram that came at `received.now`, in milliseconds: the call that it belongs to takes it, or it opens one, or it is
    /// answered, sent on or dropped without one (RFC 3261 sections 11, 16 and 18). A request that would open a call for which there is no
    /// place is answered 503 with Retry-After (section 21.5.4): one outside of dialogs needs one of the first places, while the service
    /// opens calls; one within a dialog may have one of the others, also while the service drains. What is due behind that is sent by the
    /// port. All of it is counted.
    pub fn take<R: Wait + Clock, P: Port>(&self, rt: &R, port: &mut P, received: Received<'_>) {
        if is_keep_alive(received.bytes) {
            self.counts.datagrams.keep_alives.add(1);
            return;
        }
        match self.handled(rt, port, received) {
            Ok(handled) => self.settle(rt, port, handled, received.now),
            Err(AllocError) => {
                self.counts.datagrams.no_memory.add(1);
                self.admission.quota.close(received.now);
            }
        }
    }
}
