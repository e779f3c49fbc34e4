//! Tests of the calls that build messages.
mod dialogs;
pub mod forwarding;
mod further;
pub mod requests;
mod responses;
mod upstream;
mod written;
