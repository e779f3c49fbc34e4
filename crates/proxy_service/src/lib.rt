//! What a proxy that runs as a service does with a datagram, at a moment, and with what its control socket asks: which datagrams may open a
//! call, what is due behind each, which calls are forgotten and written down, and when a service that is told to stop ends. It sends by
//! whichever port it is handed; there is no socket, no thread and no file here.
//!
//! A [`Service`] has four parts: by what it goes (`settings`), for which requests it opens calls, and until when it serves (`admission`), what it
//! knows of its users (`users`), and the calls that it keeps ([`ServiceCalls`]), each of which is looked at by a `Visit`. What it decides of a
//! request by the first three stands in `service_users`.
//!
//! Begin with `Service::take` and `Service::tick`.
#![tactic(auto)]

mod admission;
mod answers;
mod calls;
mod carrying;
mod failing;
mod journal;
mod leaving;
mod notes;
mod service;
mod settings;
mod setup;
mod shown;
mod taking;
mod targets;
mod terms;
mod timing;
mod visit;

pub use calls::ServiceCalls;
pub use journal::append_block;
pub use service::Service;
pub use terms::RunSettings;
