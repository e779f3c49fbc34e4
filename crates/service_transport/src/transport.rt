//! What the threads of a service share that receive and send.
use crate::receiving::Receiving;
use call_table::{Epoch, ThreadClock};
use proxy_service::Service;
use service_files::Options;
use sip_uri::Hop;
use std::alloc::{AllocError, Global};
use std::time::Clock;

/// What the threads of a service share that receive, handle and send its messages, beside its sockets: the service, and which of them
/// receives.
#[derive(Drop)]
pub struct ServiceTransport {
    pub alloc: Global,
    pub service: Service,
    /// The address that it receives at.
    pub own: Hop,
    pub epoch: Epoch,
    pub(crate) receiving: Receiving,
}

impl ServiceTransport {
    /// That of a service at this address, whose moments begin there. Options say how many messages a source may send in a second, if there is a
    /// limit, and which sources have none.
    ///
    /// # Errors
    ///
    /// Only where the allocator refuses.
    pub fn new(
        alloc: Global,
        service: Service,
        own: Hop,
        epoch: Epoch,
        options: Options<'_>,
    ) -> Result<ServiceTransport, AllocError> {
        Ok(ServiceTransport {
            alloc,
            receiving: Receiving::new(alloc, options.most_per_source, options.unlimited)?,
            service,
            own,
            epoch,
        })
    }

    /// Milliseconds since the beginning.
    pub fn millis<R: Clock>(&self, rt: &R) -> u64 {
        ThreadClock::new(self.epoch).micros(rt) / 1_000
    }
}
