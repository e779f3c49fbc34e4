//! What a proxy is set up with, and the text that sets it up: the address it receives at, the number of this run, the domain it answers for, the rules
//! of its forks, and where the users of the domain may be reached (RFC 3261 sections 16.5 and 16.6). What it is while contacts are bound to a user by
//! registrations. And what a malformed line of such a text should be.
//!
//! Each line of such a text ends in LF, words are separated by one space, and numbers are decimal without leading zeros.
#![tactic(auto)]

mod address;
mod bound_contact;
mod dialog_token;
mod draft;
mod fault;
mod form;
mod hops;
mod law;
mod line;
mod listed;
mod location;
mod moment;
mod parts;
mod setup;
mod target_key;
mod text_lines;
mod user_locations;
mod user_places;
mod way;

pub use address::append_address;
pub use bound_contact::BoundContact;
pub use dialog_token::DialogToken;
pub use fault::SetupFault;
pub use form::{Form, Malformed, form_at};
pub use hops::is_reached;
pub use law::locations_are_targets;
pub use line::{SetupLine, read_address, read_octets, read_setup_line};
pub use location::Location;
pub use parts::{SetupParts, uri_if};
pub use setup::Setup;
pub use text_lines::line_at;
pub use user_locations::UserLocations;
