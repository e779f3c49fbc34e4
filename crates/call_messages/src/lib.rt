//! The messages of calls, byte for byte, that several crates of tests play: what a call takes, and what it sends; and calls of them.
#![tactic(auto)]

pub mod five_targets;
pub mod histories;
pub mod lines;
pub mod one_target;
pub mod redirecting;
mod sent;

pub use sent::{Sent, is_sent};
