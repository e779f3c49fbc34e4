//! How the final responses rank that a response context has stored, so that the best one goes up to the caller (RFC 3261 section 16.7 step 6): statuses,
//! the rules an operator may set, with the lines that spell them, ranks, and challenges. And how a target set is tried: in groups by q; and the kinds of
//! request that are forked.
#![tactic(auto)]

mod challenge;
mod depth;
mod grouping;
mod kind;
mod preferred;
mod preferred_text;
mod rank;
mod ring_status;
mod rules;
mod rules_text;
mod small_number;
mod status;
mod status_class;

pub use challenge::Challenge;
pub use depth::{Depth, read_depth, with_depth};
pub use grouping::groups;
pub use kind::Kind;
pub use preferred::{MOST_PREFERRED, Preferred};
pub use preferred_text::{read_preferred, with_preferred};
pub use rank::{Rank, before, compare, rank_class, rank_part, ranks_before};
pub use ring_status::RingStatus;
pub use rules::{MOST_TARGETS, Rules};
pub use rules_text::{append, append_depth, append_list, append_preferred};
pub use small_number::{read_small_number, read_small_number_before};
pub use status::Status;
pub use status_class::StatusClass;
