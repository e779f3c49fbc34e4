//! The bindings of all users of a domain, for all threads of a service: found by the user, changed by one request at a time, and kept
//! elsewhere before a change is seen, where they are to survive the service.
//!
//! Users stand in 64 shards, each behind a lock of its own, which is held while a function over values runs and never while anything is
//! read from a disk or written to one. Of what stands behind a lock no clause can say how it is: what each call says is what it made of
//! some bindings that were there.
#![tactic(auto)]

mod change;
mod fault;
mod holding;
mod keeper;
mod room;
mod shards;
mod table;
mod there;
mod users;
mod walk;

pub use change::PreparedChange;
pub use fault::ChangeFault;
pub use holding::Holding;
pub use keeper::{Change, KeepFault, Keeper, Kept, KeptUser};
pub use table::BindingTable;
pub use walk::Walk;
