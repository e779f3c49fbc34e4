//! Bindings that survive a service: a file that is an SQLite database, and a keeper over it.
//!
//! Nothing is proved here of what the file has, but that each call returns and is safe: a disk is no value. That what was committed is
//! there is shown by tests. Each function makes one call of the database at most, since the proof of one carries all that the call says.
#![tactic(auto)]

mod database;
mod fault;
mod file;
mod rows;
mod store;

pub use fault::StoreFault;
pub use store::BindingStore;
