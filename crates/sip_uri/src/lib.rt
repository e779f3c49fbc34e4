//! SIP URIs and contacts (RFC 3261 sections 19.1 and 20.10), in the profile of a proxy over UDP and
//! TCP, and IPv4.
//!
//! `SipUri::read` takes exactly the texts of `specs/Grammar.antt`, and names the first fault of any
//! other. A URI keeps its text as written, and the key by which targets are told apart.
#![tactic(auto)]

mod checks;
mod contact;
mod cut;
mod fault;
mod form;
mod hop;
mod host;
mod key;
mod next;
mod text;
mod texts;
mod uri;
mod write;

pub use contact::{Contact, read_contacts};
pub use fault::UriFault;
pub use form::{are_contact_params, form_of, q_of};
pub use hop::{Hop, Transport};
pub use host::{cut_host, is_host, read_address, read_port};
pub use text::{read_hop, uri_fault};
pub use uri::SipUri;
