//! A proxy serves: it is set up, its workers run for the turns that it was asked for, and what came of its calls is
//! printed.
ghost use denote.Param.Send.{IsSync};
ghost use Rattle.serve_command.specs.contracts.serving.TurnServer.{the_row as server_row};
ghost use Rattle.std.specs.Prelude.{◌↔◌, ◌<◌, length, IfErr, OnOk, IsErrOf};
ghost use Rattle.serve_command.specs.Faults.{most_text, IsFaultOf, Spells};
ghost use Rattle.serve_command.specs.inner.Faults.{IsSystemFault};

use crate::ending::print_listings;
use crate::fault::{ServeFault, of_system};
use crate::job::Job;
use crate::jobs::{JobReceiver, JobSender, Waker};
use crate::receiver::{Running, Senders, receive_all};
use crate::worker::TurnProxy;
use call_table::Inbox;
use fork_call::Setup;
use log::Log;
use proxy_threads::own_of;
use sockets::{Socket, SocketWaits, datagram_buffer, is_shared, print_listening};
use std::alloc::Global;
use std::io::Print;
use std::net::Net;
use std::sync::Wait;
use std::thread;
use std::thread::Threads;

/// How many bytes a configuration has at most.
const MOST_TEXT: usize = 1_048_576;

/// The receiving ends of the workers.
#[derive(Drop)]
struct Receivers<'a> {
    first: JobReceiver<'a, Job>,
    second: JobReceiver<'a, Job>,
    timer: JobReceiver<'a, Job>,
}

/// What the threads of a proxy do: the calling one receives, and three work.
trait TurnThreads {
    /// Does the jobs that a worker is given, until the end job.
    fn do_jobs<R: Wait + Log>(&self, rt: &R, jobs: JobReceiver<'_, Job>);

    /// Receives for `turns` turns.
    fn receive<R: Wait + Log>(
        &self,
        rt: &R,
        senders: &mut Senders<'_, Global>,
        buffer: &mut [u8],
        turns: u32,
    ) -> Result<(), ServeFault>
        ensures { IfErr result IsSystemFault };
}

/// A proxy over the heap's own allocator: that threads may share it is proved for this one.
#[derive(Drop)]
struct TurnServer {
    proxy: TurnProxy<Global>,
}

impl TurnThreads for TurnServer {
    fn do_jobs<R: Wait + Log>(&self, rt: &R, jobs: JobReceiver<'_, Job>) {
        self.proxy.work(rt, jobs);
    }

    fn receive<R: Wait + Log>(
        &self,
        rt: &R,
        senders: &mut Senders<'_, Global>,
        buffer: &mut [u8],
        turns: u32,
    ) -> Result<(), ServeFault> {
        receive_all(rt, &self.proxy, senders, buffer, turns)
    }
}

/// Starts the workers, receives for `turns` turns, and ends the workers.
fn run<C: TurnThreads + Sync, R: Threads + Wait + Log + Sync>(
    rt: &R,
    crew: &C,
    senders: &mut Senders<'_, Global>,
    receivers: Receivers<'_>,
    buffer: &mut [u8],
    turns: u32,
) -> Result<(), ServeFault>
    ensures { IfErr result IsSystemFault }
{
    let Receivers {
        first,
        second,
        timer,
    } = receivers;
    thread::scope(
        thread::scope_env(),
        rt,
        |scope| -> Result<(), ServeFault>
            ensures { IfErr result IsSystemFault }
        {
            let running = Running {
                first: scope.spawn(move || crew.do_jobs(rt, first)).is_ok(),
                second: scope.spawn(move || crew.do_jobs(rt, second)).is_ok(),
                timer: scope.spawn(move || crew.do_jobs(rt, timer)).is_ok(),
            };
            let ran = if running.first && running.second && running.timer {
                crew.receive(rt, senders, buffer, turns)
            } else {
                Err(ServeFault::NoMemory)
            };
            senders.finish(rt, running);
            ran
        },
    )
}

/// Shows that threads may share a server.
fn server_is_shared(server: &TurnServer)
    ensures { IsSync server_row }
{
    is_shared(server);
}

/// Makes the ways to the workers, tells where the proxy listens, and lets the workers run for `turns` turns.
fn run_workers<R: Threads + Wait + Log + Sync, P: Print>(
    rt: &R,
    out: &P,
    alloc: Global,
    server: &TurnServer,
    turns: u32,
) -> Result<(), ServeFault>
    ensures { IfErr result IsSystemFault }
{
    let mut buffer = datagram_buffer(alloc)?;
    let first = Waker::new();
    let second = Waker::new();
    let timer = Waker::new();
    let (first_in, first_out) = Inbox::new(alloc)?;
    let (second_in, second_out) = Inbox::new(alloc)?;
    let (timer_in, timer_out) = Inbox::new(alloc)?;
    let mut senders = Senders::new(
        JobSender::new(first_in, &first),
        JobSender::new(second_in, &second),
        JobSender::new(timer_in, &timer),
    );
    let receivers = Receivers {
        first: JobReceiver::new(first_out, &first),
        second: JobReceiver::new(second_out, &second),
        timer: JobReceiver::new(timer_out, &timer),
    };
    server_is_shared(server);
    tell_listening(out, &server.proxy.setup)?;
    run(
        rt,
        server,
        &mut senders,
        receivers,
        buffer.as_mut_slice(),
        turns,
    )
}

/// Binds the address of a setup, and makes a proxy without a call.
fn server_of<R: Net>(rt: &R, alloc: Global, setup: Setup) -> Result<TurnServer, ServeFault>
    ensures { IfErr result IsSystemFault }
{
    let socket = match Socket::bind(rt, own_of(&setup), SocketWaits::BetweenCalls) {
        Ok(socket) => socket,
        Err(error) => return Err(of_system(error)),
    };
    let proxy = TurnProxy::new(alloc, setup, socket)?;
    Ok(TurnServer { proxy })
}

/// Tells where a proxy listens.
fn tell_listening<P: Print>(out: &P, setup: &Setup) -> Result<(), ServeFault>
    ensures { IfErr result IsSystemFault }
{
    match print_listening(out, own_of(setup)) {
        Ok(()) => Ok(()),
        Err(error) => Err(of_system(error)),
    }
}

/// Serves as a setup says.
fn serve_setup<R: Threads + Wait + Net + Log + Sync, P: Print>(
    rt: &R,
    out: &P,
    alloc: Global,
    setup: Setup,
    turns: u32,
) -> Result<(), ServeFault>
    ensures { IfErr result IsSystemFault }
{
    let server = server_of(rt, alloc, setup)?;
    let ran = run_workers(rt, out, alloc, &server, turns);
    let printed = print_listings(rt, out, &server.proxy);
    ran?;
    printed?;
    match out.println(format_args!("turns {turns}")) {
        Ok(()) => Ok(()),
        Err(error) => Err(of_system(error)),
    }
}

/// Serves as [`serve`] does, and prints to `out` in place of standard output.
///
/// # Errors
///
/// Those of [`serve`].
pub fn serve_to<R: Threads + Wait + Net + Log + Sync, P: Print>(
    rt: &R,
    out: &P,
    alloc: Global,
    text: &[u8],
    turns: u32,
) -> Result<(), ServeFault>
    ensures served { OnOk result (Spells text.now) }
    ensures too_long { IsErrOf result ServeFault.TooLong ↔ (most_text < length text.now) }
    ensures fault { IfErr result (IsFaultOf text.now) }
{
    if text.len() > MOST_TEXT {
        return Err(ServeFault::TooLong);
    }
    let setup = Setup::read(alloc, text)?;
    serve_setup(rt, out, alloc, setup, turns)
}

/// Sets a proxy up by a configuration (see [`Setup::read`]), binds its address, and serves for so many turns: a turn is one
/// receive of at most 10 ms. The time that its timers go by is 10 ms for each turn before in which nothing came.
///
/// The proxy prints `listening ADDRESS PORT` as soon as it can receive; after the last turn, or a receive that failed,
/// the listing of each call that has finished without success, by number; and after the last turn `turns TURNS`. What
/// is dropped is noted on standard error. What the threads of the proxy do is proved call by call
/// (`proxy_dispatch::handle`, `fork_call::carry`); no clause says what they do together.
///
/// # Errors
///
/// In this order, but for want of memory: `TooLong` over 1,048,576 bytes; `Line` with the first malformed line; `Socket` where
/// the address cannot be bound, a receive fails or standard output cannot be written. `NoMemory` where the allocator refuses
/// while no worker runs yet or no longer; a datagram or a step that is refused memory in a worker is left, and the proxy serves on.
pub fn serve<R: Threads + Wait + Net + Print + Log + Sync>(
    rt: &R,
    alloc: Global,
    text: &[u8],
    turns: u32,
) -> Result<(), ServeFault>
    ensures served { OnOk result (Spells text.now) }
    ensures too_long { IsErrOf result ServeFault.TooLong ↔ (most_text < length text.now) }
    ensures fault { IfErr result (IsFaultOf text.now) }
{
    serve_to(rt, rt, alloc, text, turns)
}
