//! The lexical base of SIP texts (RFC 3261 section 25.1): what the readers of messages, URIs and
//! header values share. Each datagram of a call is read through it.
//!
//! Classes of bytes, cutting a text in two at its first mark, lines, space at the ends of a text,
//! decimal and hexadecimal numbers, quoted text, marks that quotes and angle brackets shelter, parameters, texts
//! in pieces, and places in a text. No function but `lowered`, `copy_with_room` and those that append takes memory.
#![tactic(auto)]

mod bytes;
mod cut;
mod growing;
mod growth;
mod hex;
mod hex_pairs;
mod line;
mod number;
mod params;
mod pieces;
mod place;
mod quoted;
mod sheltered;
mod space;
mod tag;
mod token;

pub use bytes::{are_digits, are_printed, is_space, is_token, lowered};
pub use cut::{cut_at, cut_at_space, cut_near};
pub use growing::{Growing, Short};
pub use growth::{copy_with_room, whole_or_nothing};
pub use hex::{hex_digit, hex_value};
pub use hex_pairs::{hex_pair, read_pair};
pub use line::{first_line, skip_line_ends};
pub use number::{append_decimal, length_number, read_number, read_plain_number};
pub use params::{is_param_named, param_name, param_parts, param_value};
pub use pieces::{append_pieces, pieces_len};
pub use place::{PartPlace, part_at, part_within, place_at_end};
pub use quoted::cut_quoted;
pub use sheltered::{Shelter, cut_outside, is_closed};
pub use space::{begins_with_space, trim, trim_end, trim_start};
pub use tag::tag_of;
pub use token::cut_token;
