//! What a proxy takes of the system before it serves: its address, its store, its journal, the address for scrapers, and the control socket,
//! last of all, so that a proxy that is refused has taken nothing of one that serves.
ghost use Rattle.std.specs.Prelude.{IfErr};
ghost use Rattle.service_threads.specs.Faults.{IsSystemFault};

use crate::proxy::StartOptions;
use metrics::PageSockets;
use service_files::{
    ConnectionOptions, DaemonFault, Options, ProxyFiles, control_fault, journal_fault,
    metrics_fault,
};
use service_transport::{BoundSockets, bound_all};
use service_writers::{OpenedStore, ProxyStores, open_named};
use sip_uri::Hop;
use sockets::datagram_buffer;
use std::alloc::{AllocError, Global};
use std::io::Eprint;
use std::net::{Net, TcpListener};
use std::os::unix::net::UnixListener;

/// The sockets at which a proxy tells of itself.
#[derive(Drop)]
pub(crate) struct Listeners {
    pub(crate) control: UnixListener,
    /// For those who scrape the counters, if there is an address for them.
    pub(crate) metrics: Option<TcpListener>,
}

/// Binds an address, over UDP and, if options say so, over TCP.
#[tactic(auto, using(crate::proofs::Faults::socket_is_system))]
pub(crate) fn bound_sockets<R: Net>(
    rt: &R,
    alloc: Global,
    own: Hop,
    options: Option<ConnectionOptions>,
) -> Result<BoundSockets, DaemonFault>
    ensures { IfErr result IsSystemFault }
{
    match bound_all(rt, alloc, own, options) {
        Ok(bound) => Ok(bound),
        Err(fault) => Err(fault),
    }
}

/// Sees that the journal can be written, if there is one.
#[tactic(auto, using(crate::proofs::Faults::journal_is_system))]
fn open_journal<R: ProxyFiles>(rt: &R, path: Option<&str>) -> Result<(), DaemonFault>
    ensures { IfErr result IsSystemFault }
{
    let Some(path) = path else {
        return Ok(());
    };
    match rt.open_journal(path) {
        Ok(()) => Ok(()),
        Err(error) => Err(journal_fault(error)),
    }
}

/// Listens at the address for those who scrape the counters, if there is one.
#[tactic(auto, using(crate::proofs::Faults::metrics_is_system))]
fn open_metrics<R: PageSockets>(
    rt: &R,
    address: Option<&str>,
) -> Result<Option<TcpListener>, DaemonFault>
    ensures { IfErr result IsSystemFault }
{
    let Some(address) = address else {
        return Ok(None);
    };
    match rt.listen_on(address) {
        Ok(listener) => Ok(Some(listener)),
        Err(error) => Err(metrics_fault(error)),
    }
}

/// Listens at the control socket's file, where no other proxy does.
#[tactic(auto, using(crate::proofs::Faults::control_is_system))]
fn open_control<R: ProxyFiles>(rt: &R, path: &str) -> Result<UnixListener, DaemonFault>
    ensures { IfErr result IsSystemFault }
{
    match rt.listen_at(path) {
        Ok(listener) => Ok(listener),
        Err(error) => Err(control_fault(error)),
    }
}

/// Opens the store that a start names, if it names one.
#[tactic(auto, using(crate::proofs::Faults::store_is_system))]
pub(crate) fn open_store<R: ProxyStores + Eprint>(
    rt: &R,
    alloc: Global,
    start: StartOptions<'_>,
) -> Result<OpenedStore<R::Store>, DaemonFault>
    ensures { IfErr result IsSystemFault }
{
    match open_named(rt, alloc, start.options.store, start.secret) {
        Ok(opened) => Ok(opened),
        Err(fault) => Err(fault),
    }
}

/// Opens what options name: the journal, then the address for scrapers, then the control socket.
///
/// # Errors
///
/// `Journal`, `Metrics` and `Control` where the system refuses the one or the other, and `NoMemory`. Then the control socket's file is as it
/// was.
pub(crate) fn open_all<R: ProxyFiles + PageSockets>(
    rt: &R,
    options: Options<'_>,
) -> Result<Listeners, DaemonFault>
    ensures { IfErr result IsSystemFault }
{
    open_journal(rt, options.journal)?;
    let metrics = open_metrics(rt, options.metrics)?;
    let control = open_control(rt, options.control)?;
    Ok(Listeners { control, metrics })
}

/// A buffer for each of so many workers.
pub(crate) fn buffers_of(alloc: Global, workers: usize) -> Result<Vec<Vec<u8>>, AllocError> {
    let mut buffers = Vec::new(alloc);
    for _ in 0..workers {
        let buffer = datagram_buffer(alloc)?;
        if buffers.push(buffer).is_err() {
            return Err(AllocError);
        }
    }
    Ok(buffers)
}
