//! What a call is, in definitions: a request that was forked, its response context with the log of events, the client
//! transaction of each branch and the server transaction of its caller; which datagrams it sends; what a message, a
//! timer or a send that failed does to it (RFC 3261 sections 16 and 17).
//!
//! Beside the definitions stand the words for what a call does, as a datagram and its cause, and what holds of every call
//! as laws, with nothing to run: a branch keeps its request and its CANCEL as they were made, what is sent again is what was
//! sent first, a call stays sound, and a branch keeps the failure that its stored answer stands for; a call knows what closed its
//! table, and no branch is waited for longer than it may be.
#![tactic(auto)]

mod cause;
mod datagram;
mod law;
mod step;
mod taken;
mod tried_contacts;

pub use cause::Cause;
pub use datagram::Datagram;
pub use law::{
    branches_keep_their_answers, branches_keep_what_they_send, calls_know_what_closed_them,
    calls_stay_sound, own_events_are_taken, parts_go_on, repeats_are_the_same, shorter_times_stay,
};
pub use step::Step;
pub use taken::Taken;
pub use tried_contacts::TriedContacts;
