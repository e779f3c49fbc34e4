//! The listing of a forked request that has failed, as an operator reads it: its branches, its stored answers in order
//! of rank, and the answer that went up; and a check that such a text is right, which `forkproxy check` runs (RFC 3261
//! section 16.7 step 6).
#![tactic(auto)]

mod choice;
mod draft;
mod law;
mod line;
mod lister;
mod print;
mod ranks;
mod refusal;
mod targets;

pub use law::{
    a_fork_has_one_listing, accepted_listing_tells_the_choice, listing_is_read_exactly,
    listings_of_forks_are_right, right_texts_are_accepted, the_choice_is_listed_first,
};
pub use lister::{ListFault, listing, status_at};
pub use refusal::{CheckFault, Verdict, check};
