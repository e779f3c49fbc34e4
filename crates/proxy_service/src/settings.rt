//! By what a service goes now.
use crate::setup::service_configuration;
use crate::terms::RunSettings;
use service_files::Configuration;
use std::alloc::{AllocError, Allocator};
use std::sync::RwLock;

/// By what a service goes now: the configuration, which a reload replaces, and what it keeps to as long as it runs.
#[derive(Drop)]
pub(crate) struct CurrentSettings<A: Allocator + Copy> {
    pub(crate) configuration: RwLock<Configuration<A>>,
    pub(crate) terms: RunSettings,
}

impl<A: Allocator + Copy> CurrentSettings<A> {
    /// Those of a service that is started with this configuration, on these terms.
    ///
    /// # Errors
    ///
    /// Only where the allocator refuses.
    pub(crate) fn new(
        alloc: A,
        configuration: Configuration<A>,
        terms: RunSettings,
    ) -> Result<CurrentSettings<A>, AllocError> {
        let configuration = service_configuration(alloc, configuration, &terms)?;
        Ok(CurrentSettings {
            configuration: RwLock::new(configuration),
            terms,
        })
    }
}
