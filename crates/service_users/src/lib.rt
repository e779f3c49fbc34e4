//! What a service knows of its users while it runs, for all of its threads: what is bound to them ([`Registry`]), what is decided of a request by
//! that ([`ServedAt`]), with all that is counted and noted of it, and which requests were refused last ([`LastRefused`]), all in one value
//! ([`ServiceUsers`]); and what an operator is told of it. There is no clock, no socket and no thread here.
#![tactic(auto)]

mod bound;
mod keeping;
mod last_refused;
mod registry;
mod serving;
mod stored;
mod sweeping;
mod users;

pub use keeping::ChangeQueue;
pub use last_refused::LastRefused;
pub use registry::Registry;
pub use serving::ServedAt;
pub use stored::Hearing;
pub use users::ServiceUsers;
