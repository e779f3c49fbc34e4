//! Messages as values: the requests, responses, ACK and CANCEL that `sip_build` writes straight to bytes, each as a `Message`
//! (RFC 3261 sections 8.2.6, 9.1, 16.6, 16.7 and 17.1.1.3); and a request with its source in the top Via value, or without the
//! Route value that names the proxy, as copies (sections 16.4 and 18.2).
//!
//! Each is written, and what was written is read: by the round trip of `sip_text` it is read as what was spelled. No program has a
//! part of this crate. What is built is a definition in the `specs/` of `sip_via`, `sip_route` and `sip_build`, the same that the
//! bytes are written by.
#![tactic(auto)]

mod forwarding;
mod marking;
mod received;
mod requests;
mod responses;
mod routes;
mod upstream;
mod via_laws;
mod written;

pub use forwarding::forward;
pub use marking::{marked_value_is_read, marking_changes_the_top_value, marking_keeps_the_sender};
pub use received::{mark_received, reply_hop};
pub use requests::{ack_is_message, ack_of, cancel_is_message, cancel_of};
pub use responses::{generated, generated_is_message};
pub use routes::strip_route;
pub use upstream::upward;
pub use via_laws::{forwarding_puts_the_own_via_first, own_via_is_read, upward_loses_the_top_via};
