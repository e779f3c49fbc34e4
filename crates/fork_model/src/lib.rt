//! What a forked request is to the proxy core, in the definitions that every contract of it cites: the response
//! context, a table with a row for each branch of the target set; what an event does to it, as a response of a branch,
//! a timeout, a transport error or the caller's CANCEL; and which answer goes up to the caller (RFC 3261 sections 16.5
//! to 16.10). A fork is short for such a request; laws over the definitions stand beside them.
//!
//! The definitions stand in `specs/`. The functions here have nothing to run: the contract of each is a law that
//! holds of every fork, or a worked history.
#![tactic(auto)]

mod branches;
mod headline;
mod order;
mod replies;
mod series;
mod sources;
mod steps;
mod worked;

pub use branches::{open_branches_take_events, others_stay_open};
pub use headline::{
    exactly_one_final, exactly_one_final_of_context, final_at_the_end, finished_stays,
    opening_is_unfinished,
};
pub use order::{first_can_be_kept, order_is_strict_and_total};
pub use replies::{arrivals_differ, each_event_has_one_reply, each_history_has_one_choice};
pub use series::{groups_start_whole, groups_wait_in_series, one_group_starts_at_a_time};
pub use sources::{new_rows_are_contacts, replies_list_all_that_became, stored_answers_came};
pub use steps::{
    branches_go_on, events_make_progress, positions_are_bounded, rows_keep_their_numbers,
    targets_are_bounded,
};
pub use worked::{worked_choices, worked_closings, worked_contacts, worked_series, worked_strays};
