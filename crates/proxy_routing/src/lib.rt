//! What a proxy asks of a request before it opens a call for it, and where it then sends it: the validation of the
//! request and the status by which it is refused, the Route values that lead to the proxy itself, the credentials for its own
//! realm, the target set, which is the locations of a user of the domain or the Request-URI, and the next hop that leads to
//! each target (RFC 3261 sections 16.3 to 16.6 and 22.3).
//!
//! Nothing is known of calls here.
#![tactic(auto)]

mod admission;
mod checks;
mod fault;
mod law;
mod own_credentials;
mod own_routes;
mod targets;
mod unrouted;

pub use admission::{validate_read, validate_request};
pub use checks::{asks_extension, has_via};
pub use fault::RequestRejection;
pub use law::{
    taking_credentials_keeps_the_rest, taking_own_routes_keeps_the_rest,
    what_was_read_tells_the_reply,
};
pub use targets::{
    CandidateTarget, candidates, have_hops, hop_if_any, hop_to, is_responsible_for, targets_of,
};
pub use unrouted::Unrouted;
