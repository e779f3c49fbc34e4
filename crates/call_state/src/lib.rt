//! The state of a call: what it was opened with, its response context with the log of events, what closed that, each branch
//! whose request was sent, with its client transactions, and the side of its caller, with the server transaction and the answers that
//! are owed (RFC 3261 sections 16 and 17).
//!
//! Each public call that changes the state makes one change: a branch is sent its request, its ACK or its CANCEL, one of its
//! timers fires, a response comes to it, an answer goes to the caller. The others show it. Which transaction a message belongs to, and what is to be done
//! at a moment, is for a layer above: no message is read here, and nothing is looked for.
#![tactic(auto)]

mod answers;
mod branch;
mod closing;
mod failed;
mod fault;
mod look;
mod matching;
mod state;
mod states;
mod timers;
mod transaction;

pub use fault::PostFault;
pub use look::BranchView;
pub use matching::{match_request, match_response, match_transaction};
pub use state::CallState;
pub use transaction::MatchedTransaction;
