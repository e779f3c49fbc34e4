//! The laws of scripts and replays can be called: they are the contracts of functions with nothing to run.
use fork_program::{
    a_script_has_one_replay, replays_are_answered_yes, script_is_read_exactly,
    texts_of_one_script_say_the_same,
};

#[test]
fn laws_can_be_called() {
    script_is_read_exactly();
    texts_of_one_script_say_the_same();
    a_script_has_one_replay();
    replays_are_answered_yes();
}
