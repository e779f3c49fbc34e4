//! What the threads of a proxy share.
use call_table::Epoch;
use proxy_service::{RunSettings, Service};
use service_files::{Configuration, Identity, Options, ProxyFiles, most_calls_here};
use service_transport::ServiceTransport;
use service_writers::{JournalWriter, WarningWriter};
use sip_uri::Hop;
use sip_via::Own;
use std::alloc::{AllocError, Global};

/// The files of a proxy, beside its journal, and what of its configuration is said elsewhere.
#[derive(Drop)]
pub(crate) struct Paths {
    pub(crate) config: String,
    /// The file of the users, if there is one.
    pub(crate) users: Option<String>,
    pub(crate) control: String,
    /// The address that the proxy receives at, where it is not that of the configuration.
    pub(crate) own: Option<Own>,
}

/// How a proxy is started: as these options say, at this millisecond since 1970, with this number of the run for a configuration that has
/// no line of an instance, and with bytes that nobody else has.
#[derive(Clone, Copy)]
pub(crate) struct StartOptions<'a> {
    pub(crate) options: Options<'a>,
    pub(crate) number: u32,
    pub(crate) began: u64,
    pub(crate) secret: [u8; 32],
}

/// What the threads of a proxy share, beside its sockets.
#[derive(Drop)]
pub(crate) struct ServiceProxy {
    pub(crate) transport: ServiceTransport,
    pub(crate) journal: JournalWriter,
    pub(crate) warnings: WarningWriter,
    pub(crate) paths: Paths,
}

/// A path, if there is one.
fn path_of(alloc: Global, path: Option<&str>) -> Result<Option<String>, AllocError> {
    match path {
        Some(path) => Ok(Some(String::from_str(alloc, path)?)),
        None => Ok(None),
    }
}

/// The paths that options name.
fn paths_of(alloc: Global, options: Options<'_>) -> Result<Paths, AllocError> {
    Ok(Paths {
        config: String::from_str(alloc, options.config)?,
        users: path_of(alloc, options.users)?,
        control: String::from_str(alloc, options.control)?,
        own: options.own,
    })
}

/// What a proxy keeps to as long as it runs.
fn terms_of<R: ProxyFiles>(
    rt: &R,
    alloc: Global,
    start: StartOptions<'_>,
    configuration: &Configuration,
) -> RunSettings {
    let options = start.options;
    RunSettings {
        identity: Identity::of(configuration.settings.setup()),
        number: start.number,
        records: options.records,
        route: options.route,
        own_port: options.own_port,
        streams: options.connections.is_some(),
        most_calls: match options.most_calls {
            Some(most) => most,
            None => most_calls_here(rt, alloc),
        },
        most_bindings: options.most_bindings,
        has_journal: options.journal.is_some(),
        has_store: options.store.is_some(),
        began: start.began,
        secret: start.secret,
    }
}

impl ServiceProxy {
    /// A proxy without a call, at this address.
    ///
    /// # Errors
    ///
    /// Only where the allocator refuses.
    pub(crate) fn new<R: ProxyFiles>(
        rt: &R,
        alloc: Global,
        start: StartOptions<'_>,
        configuration: Configuration,
        own: Hop,
        epoch: Epoch,
    ) -> Result<ServiceProxy, AllocError> {
        let options = start.options;
        let terms = terms_of(rt, alloc, start, &configuration);
        let service = Service::new(alloc, alloc, configuration, terms)?;
        let transport = ServiceTransport::new(alloc, service, own, epoch, options)?;
        let journal = JournalWriter::new(alloc, options.journal)?;
        let paths = paths_of(alloc, options)?;
        Ok(ServiceProxy {
            transport,
            journal,
            warnings: WarningWriter::new(),
            paths,
        })
    }
}
