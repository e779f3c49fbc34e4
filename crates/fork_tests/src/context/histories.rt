//! Worked histories (RFC 3261 sections 16.6, 16.7 and 16.10).
use crate::context::happening::{Happening, context, context_under};
use crate::context::play::{NOTHING, Step, play, play_on, play_redirected};
use fork_context::{Choice, Context, End, Kind, State, Up};
use fork_rank::Rules;
use std::alloc::Global;

#[test]
fn a_preferred_4xx_goes_first(rt: HostRuntime) {
    let steps = [
        Step::HasChoice(None),
        Step::IsFirst(0, false),
        Step::Comes(Happening::Answers(0, 503), Up::Nothing),
        Step::IsFirst(0, true),
        Step::Comes(Happening::Answers(1, 407), Up::Nothing),
        Step::IsFirst(0, false),
        Step::IsFirst(1, true),
        Step::Comes(Happening::Answers(2, 501), Up::Nothing),
        Step::IsFirst(1, true),
        Step::IsFirst(2, false),
        Step::HasFinished(false),
        Step::Comes(Happening::Answers(3, 404), Up::Final(Choice::Stored(1))),
        Step::HasFinished(true),
        Step::IsClosed(false),
        Step::HasChoice(Some(Choice::Stored(1))),
        Step::HasReceived(1, 407, 1),
        // whatever comes then changes nothing, and nothing final goes up again
        Step::Comes(Happening::Answers(1, 603), Up::Nothing),
        Step::HasChoice(Some(Choice::Stored(1))),
    ];
    play(
        &rt,
        "a preferred 4xx goes first",
        Kind::Invite,
        &[(1, 1000), (2, 1000), (3, 1000), (4, 1000)],
        &steps,
    );
}

#[test]
fn the_earliest_of_equals_goes_first(rt: HostRuntime) {
    let steps = [
        Step::Comes(Happening::Answers(1, 486), Up::Nothing),
        Step::Comes(Happening::Answers(0, 404), Up::Final(Choice::Stored(1))),
    ];
    play(
        &rt,
        "the earliest of equals goes first",
        Kind::Other,
        &[(1, 1000), (2, 1000)],
        &steps,
    );
}

#[test]
fn a_503_goes_up_as_a_500(rt: HostRuntime) {
    let steps = [
        Step::Comes(Happening::Answers(1, 503), Up::Nothing),
        Step::Comes(Happening::Fails(0), Up::Final(Choice::Only503(1))),
        Step::HasAssumed(0, 503, 1),
    ];
    play(
        &rt,
        "a 503 goes up as a 500",
        Kind::Invite,
        &[(1, 1000), (2, 1000)],
        &steps,
    );
}

#[test]
fn a_6xx_waits_for_the_others(rt: HostRuntime) {
    let steps = [
        Step::Comes(Happening::Rings(0, 100), Up::Nothing),
        Step::Comes(Happening::Rings(0, 183), Up::Provisional(0)),
        Step::Cancels(Happening::Answers(1, 603), 0, Up::Nothing),
        Step::IsClosed(true),
        Step::IsIn(2, State::Ended(End::Never)),
        Step::Comes(Happening::Answers(0, 487), Up::Final(Choice::Stored(1))),
    ];
    play(
        &rt,
        "a 6xx waits for the others",
        Kind::Invite,
        &[(1, 1000), (2, 1000), (3, 500)],
        &steps,
    );
}

#[test]
fn groups_are_tried_in_series(rt: HostRuntime) {
    let steps = [
        Step::HasRows(4),
        Step::HasKey(0, Some(2)),
        Step::HasKey(3, Some(1)),
        Step::HasKey(4, None),
        Step::StandsAt(1, 2, 1, 500),
        Step::IsIn(1, State::Idle),
        Step::Starts(Happening::TimesOut(0), 1, 2),
        Step::Comes(Happening::Answers(2, 200), Up::Success(2)),
        Step::HasSucceeded(true),
        Step::IsIn(3, State::Ended(End::Never)),
        // the later 2xx of a request that is no INVITE stays
        Step::Comes(Happening::Answers(1, 200), Up::Nothing),
        Step::HasFinished(true),
        Step::HasChoice(None),
    ];
    play(
        &rt,
        "groups are tried in series",
        Kind::Other,
        &[(1, 300), (2, 700), (3, 500), (4, 500)],
        &steps,
    );
}

#[test]
fn contacts_are_taken_or_left(rt: HostRuntime) {
    let steps = [
        Step::Starts(Happening::Redirects(0), 1, 1),
        Step::HasReceived(0, 302, 0),
        Step::Leaves(0, Some(3)),
        Step::HasParent(1, Some(0)),
        Step::Leaves(1, None),
        // a 3xx goes before any 4xx
        Step::Comes(Happening::Answers(1, 404), Up::Final(Choice::Stored(0))),
    ];
    play_redirected(
        &rt,
        "contacts are taken or left",
        &[(1, 1000)],
        &[(2, true), (3, false), (1, true)],
        &steps,
    );
}

#[test]
fn a_3xx_of_taken_contacts_is_spent(rt: HostRuntime) {
    let steps = [
        Step::Starts(Happening::Redirects(0), 1, 1),
        Step::IsIn(0, State::Ended(End::Taken { arrival: 0 })),
        Step::Leaves(0, None),
        Step::Comes(Happening::Answers(1, 200), Up::Success(1)),
    ];
    play_redirected(
        &rt,
        "a 3xx of taken contacts is spent",
        &[(1, 1000)],
        &[(2, true)],
        &steps,
    );
}

#[test]
fn a_cancel_ends_what_waits(rt: HostRuntime) {
    let steps = [
        Step::IsOf(Kind::Invite),
        Step::HasDepth(256),
        Step::Comes(Happening::Rings(0, 180), Up::Provisional(0)),
        Step::Cancels(Happening::Cancel, 0, Up::Nothing),
        Step::IsIn(0, State::Rung { cancelled: true }),
        Step::IsIn(2, State::Ended(End::Never)),
        Step::Cancels(Happening::Rings(1, 180), 1, Up::Provisional(1)),
        Step::Comes(Happening::GivesUp(0), Up::Nothing),
        Step::IsIn(0, State::Ended(End::Silent { arrival: 3 })),
        Step::Comes(Happening::GivesUp(1), Up::Final(Choice::NoAnswer408)),
    ];
    play(
        &rt,
        "a CANCEL ends what waits",
        Kind::Invite,
        &[(1, 1000), (2, 1000), (3, 500)],
        &steps,
    );
}

#[test]
fn timer_c_cancels_a_branch_that_rings(rt: HostRuntime) {
    let steps = [
        Step::Comes(Happening::Rings(0, 180), Up::Provisional(0)),
        Step::Cancels(Happening::TimerC(0), 0, Up::Nothing),
        Step::IsClosed(false),
        Step::Comes(Happening::TimerC(1), Up::Nothing),
        Step::Comes(Happening::Answers(0, 487), Up::Final(Choice::Stored(1))),
    ];
    play(
        &rt,
        "timer C cancels a branch that rings",
        Kind::Invite,
        &[(1, 1000), (2, 1000)],
        &steps,
    );
}

#[test]
fn copies_do_what_their_events_do(rt: HostRuntime) {
    let steps = [
        Step::Starts(Happening::Redirects(0), 1, 2),
        Step::Comes(Happening::Answers(1, 404), Up::Nothing),
        Step::Comes(Happening::TimesOut(2), Up::Final(Choice::Stored(1))),
    ];
    let fork = context(rt.alloc(), Kind::Invite, &[(1, 1000)]);
    let name = "copies do what their events do";
    play_on(&rt, fork, name, &[(2, true), (3, true)], true, &steps);
}

/// The context of one target, whose contacts are tried to this depth.
fn of_depth(alloc: Global, depth: u16) -> Option<Context> {
    match Rules::of(Rules::usual().preferred(), depth) {
        Some(rules) => context_under(alloc, Kind::Invite, rules, &[(1, 1000)]),
        None => None,
    }
}

#[test]
fn depth_zero_leaves_each_contact(rt: HostRuntime) {
    let steps = [
        Step::Comes(Happening::Redirects(0), Up::Final(Choice::Stored(0))),
        Step::Leaves(0, Some(2)),
    ];
    let fork = of_depth(rt.alloc(), 0);
    let name = "depth 0 leaves each contact";
    play_on(&rt, fork, name, &[(2, true)], false, &steps);
}

/// The numbers 0 to 254, each at q 1.
fn numbered_targets() -> [(u16, u16); 255] {
    let mut list = [(0, 1000); 255];
    for n in 0..255u16 {
        list[n as usize] = (n, 1000);
    }
    list
}

#[test]
fn the_257th_target_is_left(rt: HostRuntime) {
    let steps = [
        Step::Starts(Happening::Redirects(0), 255, 1),
        Step::HasReceived(0, 302, 0),
        Step::Leaves(0, Some(301)),
        Step::HasRows(256),
    ];
    play_redirected(
        &rt,
        "the 257th target is left",
        &numbered_targets(),
        &[(300, true), (301, true)],
        &steps,
    );
}

#[test]
fn others_challenges_are_added(rt: HostRuntime) {
    // one is busy, a server's challenge is chosen, and a proxy's goes up beside it
    let steps = [
        Step::Adds(NOTHING),
        Step::Comes(Happening::Answers(0, 486), Up::Nothing),
        Step::Adds(NOTHING),
        Step::Comes(Happening::Asks(1, 401, b'1', 1), Up::Nothing),
        Step::Adds(NOTHING),
        Step::Comes(
            Happening::Asks(2, 407, b'2', 1),
            Up::Final(Choice::Stored(1)),
        ),
        Step::Adds([(true, b'2'), (false, 0), (false, 0)]),
    ];
    for copied in [false, true] {
        let fork = context(rt.alloc(), Kind::Invite, &[(1, 1000), (2, 1000), (3, 1000)]);
        play_on(
            &rt,
            fork,
            "others' challenges are added",
            &[],
            copied,
            &steps,
        );
    }
}

#[test]
fn challenges_stand_by_arrival(rt: HostRuntime) {
    let steps = [
        Step::Comes(Happening::Asks(3, 407, b'1', 1), Up::Nothing),
        Step::Comes(Happening::Asks(2, 407, b'2', 2), Up::Nothing),
        Step::Comes(Happening::Answers(1, 404), Up::Nothing),
        Step::Comes(
            Happening::Asks(0, 401, b'4', 1),
            Up::Final(Choice::Stored(3)),
        ),
        Step::Adds([(true, b'2'), (true, b'3'), (false, b'4')]),
    ];
    play(
        &rt,
        "challenges stand by arrival",
        Kind::Other,
        &[(1, 1000), (2, 1000), (3, 1000), (4, 1000)],
        &steps,
    );
}

#[test]
fn another_choice_has_no_challenges(rt: HostRuntime) {
    let steps = [
        Step::Comes(Happening::Asks(0, 401, b'1', 1), Up::Nothing),
        Step::Comes(Happening::Answers(1, 603), Up::Final(Choice::Stored(1))),
        Step::Adds(NOTHING),
    ];
    play(
        &rt,
        "another choice has no challenges",
        Kind::Invite,
        &[(1, 1000), (2, 1000)],
        &steps,
    );
}
