//! The Via values of a message (RFC 3261 sections 16.3, 16.6, 18.2 and 20.42, RFC 3581): the branch parameter that the proxy
//! puts on top of each request that it forwards, and by which a response finds its client transaction; where a request came
//! from, in `received` and `rport`; where its response goes; and the header lines of a message, found by their names.
#![tactic(auto)]

mod address;
mod cut;
mod edits;
mod first_line;
mod marking;
mod marks;
mod own;
mod own_pass;
mod own_value;
mod params;
mod received;
mod reply;
mod sender;
mod top;
mod values;
mod via;

pub use address::is_address;
pub use edits::{first_is, header_index};
pub use first_line::marked_line;
pub use marking::{marking_keeps_the_rest, readable_is_marked};
pub use own::{BuildFault, Own, ViaFault};
pub use own_pass::{own_branch, own_branch_of};
pub use own_value::own_via;
pub use received::{ReceivedFault, add_received, add_source};
pub use reply::reply_hop_of;
pub use sender::{Sender, sender_of, top_branch};
pub use top::{TopVia, read_top};
pub use values::{ViaValues, has_second_via, top_and_second, top_via};
pub use via::Via;
