//! The side of a call's caller: its server transaction, and the queue of responses that are owed to it, in the order in which they go out (RFC 3261
//! sections 16.7 and 17.2). And what a response of a branch says to the response context: its status; the contacts of a 3xx, which may join the target
//! set as new branches, and where their requests go (section 16.5); the challenges of a 401 or a 407.
#![tactic(auto)]

mod contacts;
mod owed;
mod queue;
mod response_event;
mod rows;
mod served;

pub use owed::{initial_queue, resend_if, response_for};
pub use queue::{OwedAnswer, PendingResponse, PendingResponses, ResponseQueue};
pub use response_event::ResponseEvent;
pub use rows::{add_rows, row_place};
pub use served::ServerTransaction;
