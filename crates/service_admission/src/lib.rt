//! What a service lets in, and until when: how many datagrams a source may send, which datagrams only keep a connection alive (RFC 5626 section 4.4.1),
//! for which requests a call may be opened, and when a service that is told to stop ends.
#![tactic(auto)]

mod admission;
mod bucket;
mod draining;
mod keep_alive;
mod kept;
mod law;
mod lifetime;
mod limits;
mod places;
mod quota;

pub use admission::admits;
pub use draining::Seen;
pub use keep_alive::is_keep_alive;
pub use law::{no_address_exceeds_its_rate, no_run_exceeds_its_rate};
pub use lifetime::{Lifetime, ServiceState};
pub use limits::SourceLimits;
pub use places::CallQuota;
pub use quota::{Quota, QuotaAt};
