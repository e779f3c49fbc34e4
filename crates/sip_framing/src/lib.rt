//! Where a message ends in a stream of bytes (RFC 3261 sections 7.5, 18.3 and 20.14), and the line ends between messages that keep a
//! connection alive (RFC 5626 section 3.5.1): in whatever pieces the bytes come, they are the same messages.
#![tactic(auto)]

mod frame;
mod head;
mod laws;
mod length;

pub use frame::{Frame, first_frame};
pub use laws::{frames_stay, reads_change_nothing, texts_are_framed};
