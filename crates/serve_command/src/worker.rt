//! What the workers of a proxy do: two handle datagrams, one does what is due.
ghost use Rattle.std.specs.Prelude.{◌≡◌};

use crate::dropped::{Dropped, RefusedSends};
use crate::job::Job;
use crate::jobs::JobReceiver;
use call_table::{Schedule, Shelf};
use fork_call::{Call, Port, Setup, carry};
use log::Log;
use proxy_dispatch::{Handled, Received, SharedCalls, Unlimited, handle};
use proxy_threads::{NextStep, ReadyMemory, SocketPort, carry_due, carry_from, next_step};
use sockets::Socket;
use std::alloc::{AllocError, Allocator, Global};
use std::sync::Wait;

/// How many milliseconds pass until a call that lacked memory is carried again.
const AGAIN: u64 = 1;

/// What the threads of a proxy share.
#[derive(Drop)]
pub(crate) struct TurnProxy<A: Allocator + Clone = Global> {
    pub(crate) alloc: A,
    pub(crate) setup: Setup<A>,
    pub(crate) socket: Socket,
    pub(crate) calls: Shelf<Call<A>, A>,
    pub(crate) schedule: Schedule<A>,
    /// Datagrams that a full inbox refused.
    pub(crate) crowded_out: Dropped,
    /// Datagrams that were left for want of memory.
    pub(crate) refused: Dropped,
    /// Datagrams that the system refused to send.
    pub(crate) unsent: Dropped,
}

/// Carries a call, and answers when it is to be carried next; None where it is not.
fn carried<A: Allocator + Clone, P: Port>(call: &mut Call<A>, port: &mut P, now: u64) -> Option<u64>
    ensures { call.new.opened.number ≡ call.old.opened.number }
{
    let carried = carry(call, port, now);
    match next_step(call, carried, now) {
        NextStep::At(due) => Some(due),
        NextStep::Refused => Some(now.saturating_add(AGAIN)),
        NextStep::Nothing | NextStep::Over(_) => None,
    }
}

impl<A: Allocator + Clone> TurnProxy<A> {
    /// A proxy without a call.
    ///
    /// # Errors
    ///
    /// Only where the allocator refuses.
    pub(crate) fn new(
        alloc: A,
        setup: Setup<A>,
        socket: Socket,
    ) -> Result<TurnProxy<A>, AllocError> {
        let calls = Shelf::new(alloc.clone()?)?;
        let schedule = Schedule::new(alloc.clone()?)?;
        Ok(TurnProxy {
            alloc,
            setup,
            socket,
            calls,
            schedule,
            crowded_out: Dropped::new(),
            refused: Dropped::new(),
            unsent: Dropped::new(),
        })
    }

    /// Carries the call of this number. The moment at which the call is due next is added to the schedule once the call's lock is let go.
    fn carry<R: Wait, P: Port>(&self, rt: &R, port: &mut P, number: u64, now: u64) {
        let due = self.calls.with(rt, number, |call| carried(call, port, now));
        if let Some(Some(due)) = due {
            let _ = self.schedule.add(rt, number, due);
        }
    }

    /// Handles a datagram, and carries the call that it opened or that took it.
    fn take<R: Wait + Log, P: Port>(&self, rt: &R, port: &mut P, received: Received<'_>) {
        let Ok(alloc) = self.alloc.clone() else {
            return self.refused.note(rt, "datagrams left for want of memory");
        };
        let mut calls = SharedCalls::new(&self.calls);
        let setup = &self.setup;
        match handle(rt, alloc, &mut calls, setup, &Unlimited, received, port) {
            Ok(Handled::Opened(number) | Handled::Delivered(number)) => {
                self.carry(rt, port, number, received.now);
            }
            Ok(_) => {}
            Err(AllocError) => self.refused.note(rt, "datagrams left for want of memory"),
        }
    }

    /// Carries every call: the moment of one could not be added to the schedule.
    fn carry_all<R: Wait, P: Port>(&self, rt: &R, port: &mut P, now: u64) {
        let mut from = 0;
        for _ in rt.forever() {
            let left = carry_from(rt, &self.calls, from, |number| {
                self.carry(rt, port, number, now)
            });
            match left {
                Some(next) => from = next,
                None => return,
            }
        }
        unreachable!()
    }

    /// Carries the calls that are due by now; those that are too many for one tick wait for the next one.
    fn tick<R: Wait, P: Port>(&self, rt: &R, port: &mut P, now: u64) {
        if self.schedule.take_missed() {
            self.carry_all(rt, port, now);
        }
        carry_due(rt, &self.schedule, now, |number| {
            self.carry(rt, port, number, now)
        });
    }

    /// A worker's way to the socket.
    fn port<'a, R: Log>(&'a self, rt: &'a R) -> SocketPort<'a, RefusedSends<'a, R>> {
        let unsent = &self.unsent;
        SocketPort::new(&self.socket, RefusedSends { rt, unsent })
    }

    /// Does the jobs that a worker is given, until the end job.
    pub(crate) fn work<R: Wait + Log>(&self, rt: &R, mut jobs: JobReceiver<'_, Job<A>, A>) {
        let mut port = self.port(rt);
        let mut ready = ReadyMemory::new();
        for _ in rt.forever() {
            ready.hold(&self.alloc);
            match jobs.receive(rt) {
                Job::Packet { bytes, source, now } => {
                    let received = Received {
                        bytes: bytes.as_slice(),
                        source,
                        now,
                    };
                    self.take(rt, &mut port, received);
                }
                Job::Tick(now) => self.tick(rt, &mut port, now),
                Job::Finish => return,
            }
        }
        unreachable!()
    }
}
