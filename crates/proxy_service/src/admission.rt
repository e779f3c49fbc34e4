//! For which requests a service opens calls, and until when it serves.
use service_admission::{Lifetime, Quota, QuotaAt};

/// For which requests a service opens calls: how many there may be, and until when it serves.
#[derive(Drop)]
pub(crate) struct ServiceAdmission {
    pub(crate) quota: Quota,
    pub(crate) lifetime: Lifetime,
}

impl ServiceAdmission {
    /// That of a service that begins to serve, with so many places for calls that requests outside of dialogs open.
    pub(crate) fn new(most_calls: u64) -> ServiceAdmission {
        ServiceAdmission {
            quota: Quota::new(most_calls),
            lifetime: Lifetime::new(),
        }
    }

    /// As a datagram finds it that came at this moment, in milliseconds.
    pub(crate) fn at(&self, now: u64) -> QuotaAt<'_> {
        QuotaAt {
            quota: &self.quota,
            lifetime: &self.lifetime,
            now,
        }
    }
}
