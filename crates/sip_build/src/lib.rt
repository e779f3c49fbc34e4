//! The messages that a proxy sends for a call: the request to each branch, responses forwarded upstream, its own responses
//! with their To tag, and the ACK and the CANCEL of a branch (RFC 3261 sections 8.2.6, 9.1, 16.6, 16.7 and 17.1.1.3).
//!
//! What is built is a definition in `specs/`: its start line and its header lines, in order, as a function of the message
//! that it is built from.
#![tactic(auto)]

mod challenges;
mod dialogs;
mod forwarded_text;
mod further;
mod generated_text;
mod hop_by_hop;
mod law;
mod made_text;
mod own_line;
mod own_route;
mod parts;
mod place;
mod responses;
mod run_lens;
mod runs;
mod spelled_lines;
mod tag;
mod to_target;
mod upward_text;

pub use challenges::challenge_name;
pub use dialogs::opens_dialog;
pub use forwarded_text::write_forwarded;
pub use further::{first_timestamp, reason_lines};
pub use generated_text::write_own_response;
pub use hop_by_hop::{write_forwarded_ack, write_forwarded_cancel};
pub use law::{
    ack_of_a_forwarded_request, cancel_of_a_forwarded_request, stripping_keeps_answers,
    stripping_keeps_timestamps,
};
pub use own_route::write_own_route;
pub use responses::{OwnStatus, has_tag_added};
pub use tag::own_tag;
pub use upward_text::write_forwarded_response;
