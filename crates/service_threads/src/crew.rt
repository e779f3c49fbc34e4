//! The threads of a proxy, how they begin, and in which order they end.
ghost use denote.Param.Send.{IsSync};
ghost use Rattle.service_transport.specs.contracts.listening.ProxySockets.{the_row as sockets_row};
ghost use Rattle.std.specs.Prelude.{IfErr};
ghost use Rattle.service_threads.specs.Faults.{IsSystemFault};

use binding_table::Keeper;
use metrics::PageSockets;
use service_files::{DaemonFault, ProxyFiles};
use service_transport::{BoundSockets, ProxySockets};
use sockets::is_shared;
use std::alloc::Global;
use std::io::{Eprint, Print};
use std::sync::Wait;
use std::thread;
use std::thread::{Promise, PromisedHandle, Threads};
use std::time::Clock;
use stream_sockets::{ConnectionSockets, StreamFront};

/// What the threads of a proxy do that has such sockets.
pub(crate) trait ServerThreads<S> {
    /// Receives datagrams in this buffer and handles them, until the end. Where a receive failed the proxy ends.
    fn work<R: Wait + ConnectionSockets + Clock>(
        &self,
        rt: &R,
        sockets: &S,
        buffer: Vec<u8>,
    ) -> Result<(), DaemonFault>
        ensures { IfErr result IsSystemFault };

    /// Keeps changes of bindings as they come, and answers the requests that make them, until the end.
    fn keep<R: Wait + ConnectionSockets + Clock, K: Keeper>(
        &self,
        rt: &R,
        sockets: &S,
        keeper: &mut K,
    );

    /// Keeps the changes that came until the end.
    fn keep_left<R: Wait + ConnectionSockets + Clock, K: Keeper>(
        &self,
        rt: &R,
        sockets: &S,
        keeper: &mut K,
    );

    /// Takes connections and what comes by them, until the end.
    fn connect<R: Wait + ConnectionSockets + Clock>(&self, rt: &R, sockets: &S, front: StreamFront);

    /// Does what is due, when it is, until the end.
    fn keep_time<R: Wait + ConnectionSockets + Clock>(&self, rt: &R, sockets: &S);

    /// Answers at the control socket until it is closed.
    fn answer<R: Wait + ProxyFiles + Clock>(&self, rt: &R);

    /// Answers those who scrape the counters, if there is an address for them, until it is closed.
    fn show<R: Wait + ProxyFiles + Clock + PageSockets>(&self, rt: &R);

    /// Writes the journal, if there is one, until it is whole.
    fn write<R: Wait + ProxyFiles + Clock>(&self, rt: &R);

    /// Writes the warnings, until all that will be written waits.
    fn warn<R: Wait + Eprint>(&self, rt: &R);

    /// Ends: the threads that work return.
    fn end(&self);

    /// Lets the threads return that show the counters and write the journal and the warnings, once no thread works any more: the calls that are left are
    /// written down.
    fn finish<R: Wait + Clock>(&self, rt: &R);

    /// Takes the control socket's file away, and tells of the end.
    fn leave<R: Wait + ProxyFiles + Print>(&self, rt: &R);

    /// Closes the control socket. Whoever waits for the end there knows then that it has come.
    fn close(&self);
}

/// What a worker's thread ends with, if it is a fault: one of the system's.
#[derive(Clone, Copy)]
struct SystemFaults;

impl Promise<Result<(), DaemonFault>> for SystemFaults {
    ghost kept_by = { λ _ ended. IfErr ended IsSystemFault };
}

/// The thread of a worker.
type Worker = PromisedHandle<Result<(), DaemonFault>, SystemFaults>;

/// Waits until the workers have ended, and answers the first fault that one ended with.
fn join_all<R: Threads>(rt: &R, workers: Vec<Worker>) -> Result<(), DaemonFault>
    ensures { IfErr result IsSystemFault }
{
    let mut all = Ok(());
    for worker in workers {
        let ended = worker.join(rt);
        if all.is_ok() {
            all = ended;
        }
    }
    all
}

/// Starts the threads that work, a worker for each buffer and one for connections, if there are to be any, and waits until they have ended;
/// meanwhile this thread keeps changes of bindings, if there is a keeper. Where one could not be made all end.
fn work_all<
    S: Sync,
    C: ServerThreads<S> + Sync,
    R: Threads + Wait + ConnectionSockets + Clock + Sync,
    K: Keeper,
>(
    rt: &R,
    alloc: Global,
    crew: &C,
    sockets: &S,
    front: Option<StreamFront>,
    buffers: Vec<Vec<u8>>,
    keeper: &mut Option<K>,
) -> Result<(), DaemonFault>
    ensures { IfErr result IsSystemFault }
{
    thread::scope(
        thread::scope_env(),
        rt,
        |scope| -> Result<(), DaemonFault>
            ensures { IfErr result IsSystemFault }
        {
            let mut are_running = scope.spawn(move || crew.keep_time(rt, sockets)).is_ok();
            if let Some(front) = front {
                are_running = scope
                    .spawn(move || crew.connect(rt, sockets, front))
                    .is_ok()
                    && are_running;
            }
            let mut workers: Vec<Worker> = Vec::new(alloc);
            for buffer in buffers {
                match scope.spawn_with(SystemFaults, move || crew.work(rt, sockets, buffer)) {
                    Ok(worker) => are_running = workers.push(worker).is_ok() && are_running,
                    Err(_) => are_running = false,
                }
            }
            if !are_running {
                crew.end();
            }
            if let Some(keeper) = &mut *keeper {
                crew.keep(rt, sockets, keeper);
            }
            let ended = join_all(rt, workers);
            crew.end();
            if let Some(keeper) = &mut *keeper {
                crew.keep_left(rt, sockets, keeper);
            }
            if are_running {
                ended
            } else {
                Err(DaemonFault::NoMemory)
            }
        },
    )
}

/// Shows that threads may share the sockets.
fn sockets_are_shared(sockets: &ProxySockets)
    ensures { IsSync sockets_row }
{
    is_shared(sockets);
}

/// Works until the end, and closes the sockets, so that another proxy may have its address.
fn work_and_close<
    C: ServerThreads<ProxySockets> + Sync,
    R: Threads + Wait + ConnectionSockets + Clock + Sync,
    K: Keeper,
>(
    rt: &R,
    alloc: Global,
    crew: &C,
    bound: BoundSockets,
    buffers: Vec<Vec<u8>>,
    keeper: &mut Option<K>,
) -> Result<(), DaemonFault>
    ensures { IfErr result IsSystemFault }
{
    let BoundSockets { sockets, front } = bound;
    sockets_are_shared(&sockets);
    let ran = work_all(rt, alloc, crew, &sockets, front, buffers, keeper);
    drop(sockets);
    ran
}

/// Works until the end, while others show the counters and write the journal and the warnings; it returns once they have ended, too.
fn work_beside<
    C: ServerThreads<ProxySockets> + Sync,
    R: Threads + Wait + ConnectionSockets + ProxyFiles + PageSockets + Clock + Eprint + Sync,
    K: Keeper,
>(
    rt: &R,
    alloc: Global,
    crew: &C,
    bound: BoundSockets,
    buffers: Vec<Vec<u8>>,
    keeper: &mut Option<K>,
) -> Result<(), DaemonFault>
    ensures { IfErr result IsSystemFault }
{
    thread::scope(
        thread::scope_env(),
        rt,
        |scope| -> Result<(), DaemonFault>
            ensures { IfErr result IsSystemFault }
        {
            let shows = scope.spawn(move || crew.show(rt)).is_ok();
            let writes = scope.spawn(move || crew.write(rt)).is_ok();
            let warns = scope.spawn(move || crew.warn(rt)).is_ok();
            let ran = if shows && writes && warns {
                work_and_close(rt, alloc, crew, bound, buffers, keeper)
            } else {
                Err(DaemonFault::NoMemory)
            };
            crew.end();
            crew.finish(rt);
            ran
        },
    )
}

/// Answers at the control socket while the proxy works, and changes of bindings are kept, if there is a keeper, and ends in good order: who waits for the end there hears of it last, when all is
/// closed and written.
pub(crate) fn run<
    C: ServerThreads<ProxySockets> + Sync,
    R: Threads
        + Wait
        + ConnectionSockets
        + ProxyFiles
        + PageSockets
        + Clock
        + Print
        + Eprint
        + Sync,
    K: Keeper,
>(
    rt: &R,
    alloc: Global,
    crew: &C,
    bound: BoundSockets,
    buffers: Vec<Vec<u8>>,
    keeper: &mut Option<K>,
) -> Result<(), DaemonFault>
    ensures { IfErr result IsSystemFault }
{
    thread::scope(
        thread::scope_env(),
        rt,
        |scope| -> Result<(), DaemonFault>
            ensures { IfErr result IsSystemFault }
        {
            let ran = if scope.spawn(move || crew.answer(rt)).is_ok() {
                work_beside(rt, alloc, crew, bound, buffers, keeper)
            } else {
                Err(DaemonFault::NoMemory)
            };
            crew.end();
            crew.leave(rt);
            crew.close();
            ran
        },
    )
}
