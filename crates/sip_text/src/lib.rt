//! SIP messages, read and written (RFC 3261 sections 7 and 25).
//!
//! `Message::read` takes exactly the texts of `specs/Grammar.antt`, and names the first fault of any
//! other, as `specs/Refusal.antt` says it. A message keeps its start line, its header lines as received and its body; `write` spells
//! it so that reading gives it back.
#![tactic(auto)]

mod fault;
mod fields;
mod found;
mod head;
mod header_lines;
mod law;
mod message;
mod method;
mod name;
mod needed;
mod parts;
mod place;
mod read;
mod start;
mod write;
mod written;

pub use fault::ReadFault;
pub use header_lines::HeaderLines;
pub use law::{
    faults_are_of_the_text, header_values_are_values, round_trip, spelling_is_text,
    text_is_message, trimmed_part_is_a_value,
};
pub use message::Message;
pub use method::Method;
pub use name::HeaderValues;
pub use needed::MandatoryHeader;
pub use parts::{CSeqLine, HeaderLine, StartLine};
pub use write::{append_request_line, append_status_line, request_line_len, status_line_len};
