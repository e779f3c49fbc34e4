//! Worked histories: small forks with all that is answered, event by event.
ghost use Rattle.fork_model.specs.Worked.{Goes, preferred_status_first, operators_preferred_first, earliest_of_equals, unavailable_last, unavailable_alone, ServerErrorForUnavailable, asked_twice, ChallengesOfOthersAdded, decline_waits_for_branches, success_after_decline, each_success_of_invite, first_success_of_other, provisional_until_success, cancelled_and_silent, ring_after_cancel, timer_ends_silent_branch, timer_cancels_rung_branch, lower_q_waits, lower_q_never_tried, contacts_before_lower_q, contacts_are_tried, contact_left_to_caller, contact_known_already, redirection_without_contact, no_contact_at_depth_zero, one_step_at_depth_one, strays_take_positions, FullForStrays};

/// Which answer goes up, worked out (RFC 3261 section 16.7 steps 6 and 7).
///
/// Theorems over the definitions, with nothing to run.
pub fn worked_choices()
    ensures preferred_status_first { Goes preferred_status_first }
    ensures operators_preferred_first { Goes operators_preferred_first }
    ensures earliest_of_equals { Goes earliest_of_equals }
    ensures unavailable_last { Goes unavailable_last }
    ensures unavailable_alone { Goes unavailable_alone }
    ensures server_error { ServerErrorForUnavailable }
    ensures asked_twice { Goes asked_twice }
    ensures challenges_added { ChallengesOfOthersAdded }
{}

/// How a fork closes, worked out: by a 6xx, a 2xx, a CANCEL or timer C (RFC 3261 sections 9.1, 16.7, 16.8 and 16.10).
///
/// Theorems over the definitions, with nothing to run.
pub fn worked_closings()
    ensures decline_waits_for_branches { Goes decline_waits_for_branches }
    ensures success_after_decline { Goes success_after_decline }
    ensures each_success_of_invite { Goes each_success_of_invite }
    ensures first_success_of_other { Goes first_success_of_other }
    ensures provisional_until_success { Goes provisional_until_success }
    ensures cancelled_and_silent { Goes cancelled_and_silent }
    ensures ring_after_cancel { Goes ring_after_cancel }
    ensures timer_ends_silent_branch { Goes timer_ends_silent_branch }
    ensures timer_cancels_rung_branch { Goes timer_cancels_rung_branch }
{}

/// The order in which targets are tried, worked out (RFC 3261 section 16.6).
///
/// Theorems over the definitions, with nothing to run.
pub fn worked_series()
    ensures lower_q_waits { Goes lower_q_waits }
    ensures lower_q_never_tried { Goes lower_q_never_tried }
    ensures contacts_before_lower_q { Goes contacts_before_lower_q }
{}

/// What becomes of the contacts of a 3xx, worked out (RFC 3261 sections 16.5 and 16.7 step 4).
///
/// Theorems over the definitions, with nothing to run.
pub fn worked_contacts()
    ensures contacts_are_tried { Goes contacts_are_tried }
    ensures contact_left_to_caller { Goes contact_left_to_caller }
    ensures contact_known_already { Goes contact_known_already }
    ensures redirection_without_contact { Goes redirection_without_contact }
    ensures no_contact_at_depth_zero { Goes no_contact_at_depth_zero }
    ensures one_step_at_depth_one { Goes one_step_at_depth_one }
{}

/// Events that fit no case, worked out: they change nothing, take a position, and are refused past a limit.
///
/// Theorems over the definitions, with nothing to run.
pub fn worked_strays()
    ensures strays_take_positions { Goes strays_take_positions }
    ensures full_for_strays { FullForStrays }
{}
