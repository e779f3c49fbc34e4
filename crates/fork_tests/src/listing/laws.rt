//! The laws of listings can be called: each is a contract of a function with nothing to run.
use fork_listing::{
    a_fork_has_one_listing, accepted_listing_tells_the_choice, listing_is_read_exactly,
    listings_of_forks_are_right, right_texts_are_accepted, the_choice_is_listed_first,
};

#[test]
fn laws_can_be_called() {
    accepted_listing_tells_the_choice();
    listing_is_read_exactly();
    right_texts_are_accepted();
    listings_of_forks_are_right();
    the_choice_is_listed_first();
    a_fork_has_one_listing();
}
