//! The laws of calls can be called: they are the contracts of functions with nothing to run.
use call_laws::{
    calls_pay_in_order, calls_send_right, calls_that_are_over_are_quiet, what_is_sent_is_right,
};
use call_model::{
    branches_keep_their_answers, branches_keep_what_they_send, calls_know_what_closed_them,
    calls_stay_sound, own_events_are_taken, parts_go_on, repeats_are_the_same, shorter_times_stay,
};
use fork_call::{
    calls_have_stages, datagrams_go_back_to_the_request, each_datagram_is_right,
    each_success_goes_up, one_final_answer_goes_up, opened_calls_pay_in_order,
};
use proxy_routing::{taking_own_routes_keeps_the_rest, what_was_read_tells_the_reply};

#[test]
fn laws_can_be_called() {
    branches_keep_what_they_send();
    repeats_are_the_same();
    branches_keep_their_answers();
    calls_stay_sound();
    own_events_are_taken();
    calls_know_what_closed_them();
    shorter_times_stay();
    parts_go_on();
    calls_send_right();
    what_is_sent_is_right();
    calls_pay_in_order();
    call_laws::one_final_answer_goes_up();
    call_laws::each_success_goes_up();
    call_laws::each_datagram_is_right();
    calls_that_are_over_are_quiet();
    calls_have_stages();
    opened_calls_pay_in_order();
    one_final_answer_goes_up();
    each_success_goes_up();
    each_datagram_is_right();
    datagrams_go_back_to_the_request();
    taking_own_routes_keeps_the_rest();
    what_was_read_tells_the_reply();
}
