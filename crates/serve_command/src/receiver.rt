//! The turns of a proxy: what comes in is given to the workers.
ghost use Rattle.std.specs.Prelude.{◌≤◌, IfErr, IfOk, IfSome, length};
ghost use Rattle.serve_command.specs.inner.Faults.{IsSystemFault};

use crate::fault::{ServeFault, of_system};
use crate::job::Job;
use crate::jobs::JobSender;
use crate::worker::TurnProxy;
use log::Log;
use proxy_threads::group_of;
use sip_uri::Hop;
use sockets::Socket;
use std::alloc::Allocator;
use std::sync::Wait;

/// How long a receive waits at most for a datagram, in milliseconds.
const TURN: u16 = 10;

/// A worker that holds so many jobs has enough to do: the next datagram is for the other worker.
const ENOUGH_JOBS: u64 = 4;

/// Which workers run: those whose threads could be made.
#[derive(Clone, Copy)]
pub(crate) struct Running {
    pub(crate) first: bool,
    pub(crate) second: bool,
    pub(crate) timer: bool,
}

/// Which of the two workers that handle datagrams the last datagram of a group of calls was for, and the number of its
/// job there.
#[derive(Clone, Copy)]
struct Last {
    is_first: bool,
    number: u64,
}

/// What came of a receive.
#[derive(Clone, Copy)]
struct TurnReceived {
    /// A datagram's length and source.
    datagram: Option<(usize, Hop)>,
    /// Whether nothing came for as long as a receive waits.
    is_quiet: bool,
}

/// The ways to the workers.
#[derive(Drop)]
pub(crate) struct Senders<'a, A: Allocator> {
    first: JobSender<'a, Job<A>, A>,
    second: JobSender<'a, Job<A>, A>,
    timer: JobSender<'a, Job<A>, A>,
    /// Whether the last datagram was for the first of the two that handle datagrams.
    is_first: bool,
    /// The last datagram of each group of calls.
    last: [Last; 256],
}

/// Gives a datagram's job to this worker. Where it has no room it is tried once more, as soon as it has few jobs left or some
/// hundred milliseconds are over, in which datagrams wait in the socket. Says whether it was taken.
fn give_to<R: Wait, A: Allocator>(
    rt: &R,
    worker: &mut JobSender<'_, Job<A>, A>,
    job: Job<A>,
) -> bool {
    let Err(job) = worker.give(rt, job) else {
        return true;
    };
    worker.make_room(rt);
    worker.give(rt, job).is_ok()
}

impl<'a, A: Allocator> Senders<'a, A> {
    /// The ways to two workers that handle datagrams, and to the one that does what is due.
    pub(crate) fn new(
        first: JobSender<'a, Job<A>, A>,
        second: JobSender<'a, Job<A>, A>,
        timer: JobSender<'a, Job<A>, A>,
    ) -> Senders<'a, A> {
        let none = Last {
            is_first: true,
            number: 0,
        };
        Senders {
            first,
            second,
            timer,
            is_first: true,
            last: [none; 256],
        }
    }

    /// One of the two workers that handle datagrams.
    fn worker(&self, is_first: bool) -> &JobSender<'a, Job<A>, A> {
        if is_first { &self.first } else { &self.second }
    }

    /// Whether the first of the two workers is the one for the next datagram of any call that has none waiting: that is the
    /// worker that the last datagram was for, or the other one where the former has enough to do and the latter less. So
    /// one worker stays awake while there is little to do, and the other asleep.
    fn is_first_free(&self) -> bool {
        let held = self.worker(self.is_first).held();
        let has_less = self.worker(!self.is_first).held() < held;
        self.is_first != (held >= ENOUGH_JOBS && has_less)
    }

    /// Whether the first of the two workers is the one for a datagram of this group of calls: the last datagram of the
    /// group binds the group to its worker until that datagram is done.
    fn is_for_first(&self, group: Option<u8>) -> bool {
        let Some(group) = group else {
            return self.is_first_free();
        };
        let last = self.last[usize::from(group)];
        if self.worker(last.is_first).has_done(last.number) {
            self.is_first_free()
        } else {
            last.is_first
        }
    }

    /// Gives a datagram's job to the worker that it is for and to no other, and says whether it was taken. So the datagrams
    /// of one call are handled in the order in which they came.
    fn give_packet<R: Wait>(&mut self, rt: &R, group: Option<u8>, job: Job<A>) -> bool {
        let is_first = self.is_for_first(group);
        self.is_first = is_first;
        let taken = if is_first {
            give_to(rt, &mut self.first, job)
        } else {
            give_to(rt, &mut self.second, job)
        };
        if let Some(group) = group {
            let number = self.worker(is_first).last();
            self.last[usize::from(group)] = Last { is_first, number };
        }
        taken
    }

    /// Tells the timer's worker the time. Where the inbox of that worker is full, it is told again after the next turn.
    fn give_tick<R: Wait>(&mut self, rt: &R, now: u64) {
        let _ = self.timer.give(rt, Job::Tick(now));
    }

    /// Ends the workers that run.
    pub(crate) fn finish<R: Wait>(&mut self, rt: &R, running: Running) {
        if running.first {
            self.first.finish(rt, Job::Finish);
        }
        if running.second {
            self.second.finish(rt, Job::Finish);
        }
        if running.timer {
            self.timer.finish(rt, Job::Finish);
        }
    }
}

/// Gives a datagram to a worker. Where that is not possible it is dropped, and counted.
fn pass_on<R: Wait + Log, A: Allocator + Clone>(
    rt: &R,
    proxy: &TurnProxy<A>,
    senders: &mut Senders<'_, A>,
    bytes: &[u8],
    source: Hop,
    now: u64,
) {
    let Ok(alloc) = proxy.alloc.clone() else {
        return proxy.refused.note(rt, "datagrams left for want of memory");
    };
    match Job::packet(alloc, bytes, source, now) {
        Ok(job) => {
            if !senders.give_packet(rt, group_of(bytes), job) {
                proxy
                    .crowded_out
                    .note(rt, "datagrams dropped at a full inbox");
            }
        }
        Err(_) => proxy.refused.note(rt, "datagrams left for want of memory"),
    }
}

/// The length and the source of a datagram that waits in the socket, or None where none does.
///
/// # Errors
///
/// `Socket` where the receive failed.
fn take_waiting(socket: &Socket, buffer: &mut [u8]) -> Result<Option<(usize, Hop)>, ServeFault>
    ensures fits { IfOk result (λ came. IfSome came (λ packet. packet.0 ≤ length buffer.new)) }
    ensures fault { IfErr result IsSystemFault }
{
    match socket.receive(buffer) {
        Ok(came) => Ok(came),
        Err(error) => Err(of_system(error)),
    }
}

/// A datagram that waits in the socket or comes within 10 ms. A datagram that waits costs one call of the system. What comes and is no
/// datagram, as with a wrong checksum, ends the wait, and does not make the turn a quiet one.
///
/// # Errors
///
/// `Socket` where the receive failed.
fn receive(socket: &Socket, buffer: &mut [u8]) -> Result<TurnReceived, ServeFault>
    ensures fits { IfOk result
        (λ received. IfSome received.datagram (λ packet. packet.0 ≤ length buffer.new)) }
    ensures fault { IfErr result IsSystemFault }
{
    let waiting = take_waiting(socket, buffer)?;
    if waiting.is_some() {
        return Ok(TurnReceived {
            datagram: waiting,
            is_quiet: false,
        });
    }
    match socket.await_datagram(TURN) {
        Ok(true) => Ok(TurnReceived {
            datagram: take_waiting(socket, buffer)?,
            is_quiet: false,
        }),
        Ok(false) => Ok(TurnReceived {
            datagram: None,
            is_quiet: true,
        }),
        Err(error) => Err(of_system(error)),
    }
}

/// One turn: a receive of at most 10 ms, and then a tick where something is due. Says whether nothing came in these 10 ms.
fn turn<R: Wait + Log, A: Allocator + Clone>(
    rt: &R,
    proxy: &TurnProxy<A>,
    senders: &mut Senders<'_, A>,
    buffer: &mut [u8],
    now: u64,
) -> Result<bool, ServeFault>
    ensures { IfErr result IsSystemFault }
{
    let received = receive(&proxy.socket, buffer)?;
    if let Some((count, source)) = received.datagram {
        pass_on(rt, proxy, senders, &buffer[..count], source, now);
    }
    if proxy.schedule.is_due(now) {
        senders.give_tick(rt, now);
    }
    Ok(received.is_quiet)
}

/// Makes `turns` turns. The time is 10 ms for each turn before in which nothing came.
///
/// # Errors
///
/// `Socket` where a receive failed; no turn follows it.
pub(crate) fn receive_all<R: Wait + Log, A: Allocator + Clone>(
    rt: &R,
    proxy: &TurnProxy<A>,
    senders: &mut Senders<'_, A>,
    buffer: &mut [u8],
    turns: u32,
) -> Result<(), ServeFault>
    ensures { IfErr result IsSystemFault }
{
    let mut now = 0u64;
    for _ in 0..turns {
        if turn(rt, proxy, senders, buffer, now)? {
            now = now.saturating_add(u64::from(TURN));
        }
    }
    Ok(())
}
