//! One branch of a forked call: the client transaction of the request that was sent to a target, with that of its CANCEL, the Reason lines that this
//! takes along, its ACK and its timer C; and the request that the call was opened with, of which the request, the ACK and the CANCEL of each branch are
//! made (RFC 3261 sections 9.1, 16.6 and 17). What a response is to a branch is told here, too: its class, its status, and whether it redirects
//! (section 21).
//!
//! No branch knows another here, and nothing is known of the fork: which answer goes up is for the crates above.
#![tactic(auto)]

mod branch;
mod branches;
mod client;
mod destination;
mod opened;
mod reasons;
mod reliability;
mod responses;

pub use branch::{Branch, CancelTransaction};
pub use branches::{branch_in, destination_at, no_branches, put_branch};
pub use client::ClientTransaction;
pub use destination::Destination;
pub use opened::{OpenedRequest, Opening};
pub use reasons::ReasonLines;
pub use reliability::reliability_of;
pub use responses::{
    answer_event, is_fault, is_passed, is_redirection, is_request, is_response, is_timeout,
    keep_if_best, response_event, response_status, split_response,
};
