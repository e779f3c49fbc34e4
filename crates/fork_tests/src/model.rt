//! The laws of `fork_model`, each called once.

use fork_model::{
    arrivals_differ, branches_go_on, each_event_has_one_reply, each_history_has_one_choice,
    events_make_progress, exactly_one_final, exactly_one_final_of_context, final_at_the_end,
    finished_stays, first_can_be_kept, groups_start_whole, groups_wait_in_series,
    new_rows_are_contacts, one_group_starts_at_a_time, open_branches_take_events,
    opening_is_unfinished, order_is_strict_and_total, others_stay_open, positions_are_bounded,
    replies_list_all_that_became, rows_keep_their_numbers, stored_answers_came,
    targets_are_bounded, worked_choices, worked_closings, worked_contacts, worked_series,
    worked_strays,
};

#[test]
fn laws_can_be_called() {
    order_is_strict_and_total();
    first_can_be_kept();
    opening_is_unfinished();
    exactly_one_final();
    final_at_the_end();
    finished_stays();
    exactly_one_final_of_context();
    arrivals_differ();
    each_history_has_one_choice();
    each_event_has_one_reply();
}

#[test]
fn laws_of_steps_can_be_called() {
    rows_keep_their_numbers();
    branches_go_on();
    events_make_progress();
    targets_are_bounded();
    positions_are_bounded();
    new_rows_are_contacts();
    stored_answers_came();
    replies_list_all_that_became();
}

#[test]
fn laws_of_branches_can_be_called() {
    open_branches_take_events();
    others_stay_open();
}

#[test]
fn laws_of_series_can_be_called() {
    groups_wait_in_series();
    one_group_starts_at_a_time();
    groups_start_whole();
}

#[test]
fn worked_histories_can_be_called() {
    worked_choices();
    worked_closings();
    worked_series();
    worked_contacts();
    worked_strays();
}
