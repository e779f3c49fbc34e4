//! The response context of a forked request (RFC 3261 section 16.7): a table with a row for each branch of the target set, and
//! what each event does to it, as a response of a branch, a timeout or the caller's CANCEL: which branches start or are
//! cancelled, what is stored, and which response is forwarded upstream.
#![tactic(auto)]

mod challenges;
mod closing;
mod contacts;
mod context;
mod effect;
mod fork;
mod new_rows;
mod opening;
mod row;
mod step;
mod targets;

pub use context::{Context, NewFault, PostError, Refusal};
pub use context_values::{Answer, Choice, Event, Offer, Reply, Target, Up};
pub use fork_rank::{Challenge, Kind};
pub use fork_tree::{End, RowRef, State};
pub use row::RowView;
