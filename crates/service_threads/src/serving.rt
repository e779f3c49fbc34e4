//! A proxy serves until it is told to stop.
ghost use denote.Param.Send.{IsSync};
ghost use Rattle.service_threads.specs.contracts.serving.Server.{the_row as server_row};
ghost use Rattle.std.specs.Prelude.{◌≡◌, ◌/◌, ◌%◌, ◌^◌, ◌↔◌, ◌<◌, is_some, length, IfErr, OnOk, IsErrOf};
ghost use Rattle.std.specs.Duration.{as_nanos};
ghost use Rattle.std.specs.Option.{option_copied};
ghost use Rattle.service_files.specs.declared.fault.DaemonFault.TheVariants as faults;
ghost use Rattle.service_files.specs.Faults.{most_text, IsConfigurationFault};
ghost use Rattle.service_threads.specs.Faults.{IsServeFault, IsServeFaultOf, IsSystemFault, Spells};

use crate::control::Control;
use crate::crew::{ServerThreads, run};
use crate::opening::{Listeners, bound_sockets, buffers_of, open_all, open_store};
use crate::proxy::{ServiceProxy, StartOptions};
use binding_table::{Keeper, KeptUser};
use call_table::Epoch;
use control_socket::listen;
use libc::net;
use libc::types::pollfd;
use metrics::{PageSockets, answer_scrapers};
use proxy_threads::own_of;
use service_config::ServiceSettings;
use service_files::{
    Configuration, DaemonFault, Options, ProxyFiles, check_files, read_config, read_secret,
    read_text, read_users,
};
use service_transport::{BoundSockets, ProxySockets};
use service_writers::{OpenedStore, ProxyStores, close_opened};
use sip_uri::Hop;
use sip_via::Own;
use sockets::{is_shared, print_listening};
use std::alloc::Global;
use std::io::{Eprint, Print};
use std::net::Net;
use std::os::fd::AsRawFd;
use std::random::RandomSource;
use std::sync::Wait;
use std::thread::Threads;
use std::time::{Clock, Duration, SystemTime};
use stream_sockets::{ConnectionSockets, StreamFront};

/// The descriptor of the standard output.
const STANDARD_OUTPUT: i32 = 1;

/// A proxy, and the sockets at which it tells of itself.
#[derive(Drop)]
struct Server {
    proxy: ServiceProxy,
    listeners: Listeners,
}

/// Whether the standard output takes a line at this moment: a pipe that nobody reads may be full, and would keep the end.
fn can_print() -> bool {
    let mut asked = [pollfd {
        fd: STANDARD_OUTPUT,
        events: net::POLLOUT,
        revents: 0,
    }];
    net::poll(&mut asked, 0) > 0
}

impl ServerThreads<ProxySockets> for Server {
    #[tactic(auto, using(crate::proofs::Faults::socket_is_system))]
    fn work<R: Wait + ConnectionSockets + Clock>(
        &self,
        rt: &R,
        sockets: &ProxySockets,
        mut buffer: Vec<u8>,
    ) -> Result<(), DaemonFault> {
        self.proxy
            .transport
            .work(rt, sockets, buffer.as_mut_slice())
    }

    fn keep<R: Wait + ConnectionSockets + Clock, K: Keeper>(
        &self,
        rt: &R,
        sockets: &ProxySockets,
        keeper: &mut K,
    ) {
        self.proxy.keep_changes(rt, sockets, keeper);
    }

    fn keep_left<R: Wait + ConnectionSockets + Clock, K: Keeper>(
        &self,
        rt: &R,
        sockets: &ProxySockets,
        keeper: &mut K,
    ) {
        self.proxy.keep_left(rt, sockets, keeper);
    }

    fn connect<R: Wait + ConnectionSockets + Clock>(
        &self,
        rt: &R,
        sockets: &ProxySockets,
        front: StreamFront,
    ) {
        self.proxy.transport.serve_connections(rt, sockets, front);
    }

    fn keep_time<R: Wait + ConnectionSockets + Clock>(&self, rt: &R, sockets: &ProxySockets) {
        self.proxy.transport.keep_time(rt, sockets);
    }

    fn answer<R: Wait + ProxyFiles + Clock>(&self, rt: &R) {
        let control = Control {
            rt,
            proxy: &self.proxy,
        };
        listen(
            rt,
            self.proxy.transport.alloc,
            &control,
            &self.listeners.control,
        );
    }

    fn show<R: Wait + ProxyFiles + Clock + PageSockets>(&self, rt: &R) {
        let control = Control {
            rt,
            proxy: &self.proxy,
        };
        if let Some(listener) = &self.listeners.metrics {
            answer_scrapers(rt, self.proxy.transport.alloc, &control, listener);
        }
    }

    fn write<R: Wait + ProxyFiles + Clock>(&self, rt: &R) {
        self.proxy.journal.write(rt, &self.proxy.transport.service);
    }

    fn warn<R: Wait + Eprint>(&self, rt: &R) {
        self.proxy.warnings.write(rt, &self.proxy.transport.service);
    }

    fn end(&self) {
        self.proxy.transport.service.end();
    }

    fn finish<R: Wait + Clock>(&self, rt: &R) {
        let service = &self.proxy.transport.service;
        service.write_down_left(rt);
        self.proxy.journal.end(service.journal());
        self.proxy.warnings.end(&service.users().warnings);
        if let Some(listener) = &self.listeners.metrics {
            let _ = net::shutdown(listener.as_raw_fd(), net::SHUT_RDWR);
        }
    }

    fn leave<R: Wait + ProxyFiles + Print>(&self, rt: &R) {
        rt.take_file_away(self.proxy.paths.control.as_str());
        let calls = self.proxy.transport.service.calls();
        let opened = calls.opened(rt);
        let left = calls.held(rt);
        if can_print() {
            let _ = rt.println(format_args!("ended, {opened} calls, {left} left"));
        }
    }

    fn close(&self) {
        let _ = net::shutdown(self.listeners.control.as_raw_fd(), net::SHUT_RDWR);
    }
}

/// Shows that threads may share a server.
fn server_is_shared(server: &Server)
    ensures { IsSync server_row }
{
    is_shared(server);
}

/// Where a proxy receives: its address, the sockets there, and a buffer for each worker.
#[derive(Drop)]
struct Receivers {
    own: Hop,
    bound: BoundSockets,
    buffers: Vec<Vec<u8>>,
}

/// Takes the address of a configuration, over the transports and for so many workers as options say.
fn receivers_of<R: Net>(
    rt: &R,
    alloc: Global,
    configuration: &Configuration,
    options: Options<'_>,
) -> Result<Receivers, DaemonFault>
    ensures { IfErr result IsSystemFault }
{
    let own = own_of(configuration.settings.setup());
    let bound = bound_sockets(rt, alloc, own, options.connections)?;
    match buffers_of(alloc, options.workers.max(1)) {
        Ok(buffers) => Ok(Receivers {
            own,
            bound,
            buffers,
        }),
        Err(_) => Err(DaemonFault::NoMemory),
    }
}

/// Tells where the proxy listens, and lets it run until the end; changes of its bindings are kept meanwhile, if there is a keeper.
fn run_server<
    R: Threads
        + Wait
        + ConnectionSockets
        + ProxyFiles
        + PageSockets
        + Clock
        + Print
        + Eprint
        + Sync,
    K: Keeper,
>(rt: &R, server: &Server, receivers: Receivers, keeper: &mut Option<K>) -> Result<(), DaemonFault>
    ensures { IfErr result IsSystemFault }
{
    server_is_shared(server);
    let Receivers {
        own,
        bound,
        buffers,
    } = receivers;
    let _ = print_listening(rt, own);
    let alloc = server.proxy.transport.alloc;
    run(rt, alloc, server, bound, buffers, keeper)
}

/// A proxy without a call at this address, with what is kept of its users, its control socket, the address for scrapers and the journal: what
/// options name is opened last, and the control socket behind all that may be refused.
fn server_of<R: Wait + Clock + ProxyFiles + PageSockets>(
    rt: &R,
    alloc: Global,
    configuration: Configuration,
    start: StartOptions<'_>,
    own: Hop,
    users: Vec<KeptUser>,
) -> Result<Server, DaemonFault>
    ensures { IfErr result IsSystemFault }
{
    let Some(epoch) = Epoch::now(rt) else {
        return Err(DaemonFault::Clock);
    };
    let Ok(proxy) = ServiceProxy::new(rt, alloc, start, configuration, own, epoch) else {
        return Err(DaemonFault::NoMemory);
    };
    if proxy.transport.service.users().restore(rt, users).is_err() {
        return Err(DaemonFault::NoMemory);
    }
    match open_all(rt, start.options) {
        Ok(listeners) => Ok(Server { proxy, listeners }),
        Err(fault) => Err(fault),
    }
}

/// Tells on the standard error that only this machine is served, where no line says of others that they are trusted, or who they are.
fn tell_whom_it_serves<R: Eprint>(rt: &R, settings: &ServiceSettings<Global>) {
    if settings.nets().is_empty() && settings.realm().is_none() {
        let _ = rt.eprintln(
            "neither trust nor realm stands in the configuration: requests from other machines are refused",
        );
    }
}

/// The secret of a run: that of the file that options name, or 32 random bytes.
#[tactic(auto, using(crate::proofs::Faults::secret_is_system))]
fn secret_of<R: ProxyFiles + RandomSource>(
    rt: &R,
    alloc: Global,
    options: Options<'_>,
) -> Result<[u8; 32], DaemonFault>
    ensures { IfErr result IsSystemFault }
{
    match read_secret(rt, alloc, options.secret) {
        Ok(Some(secret)) => Ok(secret),
        Ok(None) => {
            let mut secret = [0u8; 32];
            if rt.fill_bytes(&mut secret).is_err() {
                return Err(DaemonFault::Random);
            }
            Ok(secret)
        }
        Err(fault) => Err(fault),
    }
}

/// How a run begins: with these options and this number, at this moment, with the secret of the options, or one of its own.
fn start_of<'a, R: Clock + ProxyFiles + RandomSource>(
    rt: &R,
    alloc: Global,
    options: Options<'a>,
    number: u32,
) -> Result<StartOptions<'a>, DaemonFault>
    ensures { IfErr result IsSystemFault }
{
    let secret = secret_of(rt, alloc, options)?;
    Ok(StartOptions {
        options,
        number,
        began: millis_since_1970(rt),
        secret,
    })
}

/// How a run begins with what a store has: its secret is that of the store, where there is one, and no file of a secret is named.
fn with_secret<'a>(start: StartOptions<'a>, secret: Option<[u8; 32]>) -> StartOptions<'a> {
    match secret {
        Some(secret) if start.options.secret.is_none() => StartOptions { secret, ..start },
        _ => start,
    }
}

/// Serves as a configuration says, with what a store has, if there is one, which is closed at the end.
fn serve_opened<
    R: Threads
        + Wait
        + ConnectionSockets
        + ProxyFiles
        + PageSockets
        + ProxyStores
        + Clock
        + Print
        + Eprint
        + Sync,
>(
    rt: &R,
    alloc: Global,
    configuration: Configuration,
    start: StartOptions<'_>,
    receivers: Receivers,
    opened: OpenedStore<R::Store>,
) -> Result<(), DaemonFault>
    ensures { IfErr result IsSystemFault }
{
    let OpenedStore {
        mut store,
        secret,
        users,
    } = opened;
    let start = with_secret(start, secret);
    let ran = match server_of(rt, alloc, configuration, start, receivers.own, users) {
        Ok(server) => run_server(rt, &server, receivers, &mut store),
        Err(fault) => Err(fault),
    };
    close_opened(rt, store);
    ran
}

/// Serves as a configuration says, in a run with this number, at its address, which is taken first, and then its store, if it has one.
fn serve_configuration<
    R: Threads
        + Wait
        + Net
        + ConnectionSockets
        + ProxyFiles
        + PageSockets
        + ProxyStores
        + Clock
        + Print
        + Eprint
        + RandomSource
        + Sync,
>(
    rt: &R,
    alloc: Global,
    configuration: Configuration,
    number: u32,
    options: Options<'_>,
) -> Result<(), DaemonFault>
    ensures { IfErr result IsSystemFault }
{
    let start = start_of(rt, alloc, options, number)?;
    tell_whom_it_serves(rt, &configuration.settings);
    let receivers = receivers_of(rt, alloc, &configuration, start.options)?;
    match open_store(rt, alloc, start) {
        Ok(opened) => serve_opened(rt, alloc, configuration, start, receivers, opened),
        Err(fault) => Err(fault),
    }
}

/// Reads a configuration's file and that of its users, and answers whether a proxy would serve by them; where no file of users is named,
/// whether the configuration alone is well-formed; a proxy that has connections (`streams`) or none. Where it has no line of an instance, none
/// is missing, and no line of an address where the address is said here.
///
/// # Errors
///
/// `Unreadable` where the system refuses; `TooLong` over 1,048,576 bytes; `Line` with the first malformed line; `Users` where the users
/// cannot be had; `NoMemory`.
pub fn check_config<R: ProxyFiles>(
    rt: &R,
    alloc: Global,
    config: &str,
    users: Option<&str>,
    own: Option<Own>,
    streams: bool,
) -> Result<(), DaemonFault>
    ensures { IfErr result IsConfigurationFault }
{
    check_files(rt, alloc, config, users, own, streams)
}

/// Serves as [`serve`] does, by these texts of a configuration and of its users, if there are any; `reload` reads their files. Where a
/// configuration has no line of an instance, this number of the run is its instance. Its locations and gateways are reached over TCP only
/// where the options ask for connections.
///
/// # Errors
///
/// Those of [`serve`] but for `Unreadable`.
#[tactic(auto, using(crate::proofs::Faults::configured_spells, crate::proofs::Faults::read_is_serve, crate::proofs::Faults::system_ends_serve))]
pub fn serve_text<
    R: Threads
        + Wait
        + Net
        + ConnectionSockets
        + ProxyFiles
        + PageSockets
        + ProxyStores
        + Clock
        + Print
        + Eprint
        + RandomSource
        + Sync,
>(
    rt: &R,
    alloc: Global,
    text: &[u8],
    users: Option<&[u8]>,
    number: u32,
    options: Options<'_>,
) -> Result<(), DaemonFault>
    ensures served { OnOk result (Spells text.now (option_copied users.entry) number (is_some options.entry.connections)) }
    ensures too_long { IsErrOf result faults.TooLong ↔ (most_text < length text.now) }
    ensures fault { IfErr result (IsServeFaultOf text.now (option_copied users.entry) number (is_some options.entry.connections)) }
{
    let streams = options.connections.is_some();
    let configuration = read_text(alloc, text, users, number, streams)?;
    serve_configuration(rt, alloc, configuration, number, options)
}

/// How many milliseconds have passed since the beginning of 1970; 0 where the clock cannot be read.
fn millis_since_1970<R: Clock>(rt: &R) -> u64 {
    match SystemTime::UNIX_EPOCH.elapsed(rt) {
        Ok(passed) => passed.as_millis().min(u128::from(u64::MAX)) as u64,
        Err(_) => 0,
    }
}

/// The number of a run that begins so long after the beginning of 1970: the milliseconds, without what is beyond 32 bits. Two runs have the
/// same where they begin 49.7 days apart, to the millisecond.
fn number_at(passed: Duration) -> u32
    ensures { result ≡ (as_nanos passed / 1_000_000) % 2 ^ 32 }
{
    (passed.as_millis() % 4_294_967_296) as u32
}

/// The number of a run that begins now; 0 where the clock cannot be read.
fn number_of_run<R: Clock>(rt: &R) -> u32 {
    match SystemTime::UNIX_EPOCH.elapsed(rt) {
        Ok(passed) => number_at(passed),
        Err(_) => 0,
    }
}

/// Serves until it is told to stop, at the control socket. It tells where it listens, and at the end how many calls it had and how
/// many were left. Where the configuration has no line of an instance, that is the time of the start, in milliseconds since 1970, without
/// what is beyond 32 bits. What its threads do is proved call by call (`proxy_service`, `proxy_dispatch::handle`, `fork_call::carry`); no
/// clause says what they do together.
///
/// # Errors
///
/// The configuration's faults as [`check_config`] finds them, and `Users` for a realm without a file of users; `Secret` where the secret that
/// is named cannot be had; `Random` where the system has no random bytes; `Socket` where the address cannot be bound or a receive failed; `Clock` where the clock cannot be read; `Store`
/// where the store cannot be used; `Journal` where the journal cannot be opened; `Metrics` where the address for scrapers cannot be bound;
/// `Control` where the control socket cannot be made, or another proxy has it; `NoMemory` where the allocator refuses or a thread could
/// not be made. A proxy that is refused has taken nothing of another one.
#[tactic(auto, using(crate::proofs::Faults::configuration_is_serve, crate::proofs::Faults::text_is_serve, crate::proofs::Faults::in_file_is_serve))]
pub fn serve<
    R: Threads
        + Wait
        + Net
        + ConnectionSockets
        + ProxyFiles
        + PageSockets
        + ProxyStores
        + Clock
        + Print
        + Eprint
        + RandomSource
        + Sync,
>(rt: &R, alloc: Global, options: Options<'_>) -> Result<(), DaemonFault>
    ensures { IfErr result IsServeFault }
{
    let number = number_of_run(rt);
    let text = read_config(rt, alloc, options.config, options.own)?;
    let users = read_users(rt, alloc, options.users)?;
    let served = serve_text(
        rt,
        alloc,
        text.as_slice(),
        users.as_deref(),
        number,
        options,
    );
    match served {
        Ok(()) => Ok(()),
        Err(fault) => Err(fault.in_file(options.own)),
    }
}
