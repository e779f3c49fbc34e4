//! What a service writes while it runs, each by a thread of its own: its journal, its warnings, and the changes of bindings, into its store.
//! These threads alone wait for a disk or for a pipe: no worker does, and not the thread that keeps the time of calls.
#![tactic(auto)]

mod journal;
mod keeping;
mod pieces;
mod store;
mod warnings;

pub use journal::JournalWriter;
pub use keeping::{keep_until_end, keep_waiting};
pub use store::{OpenedStore, ProxyStores, close_opened, open_named};
pub use warnings::WarningWriter;
