//! A proxy that serves until it is told to stop: the threads of its transport (`service_transport`), its files, and the sockets at which it tells
//! of itself.
#![tactic(auto)]

mod control;
mod crew;
mod keeping;
mod opening;
mod proxy;
mod serving;

pub use serving::{check_config, serve, serve_text};
