//! Calls whose branches have a longest time (RFC 3261 sections 16.6 step 11, 16.7 step 2 and 16.8).
use crate::histories::playing::goes_by;
use crate::holds::holds;
use crate::requests::setup_of;
use call_messages::five_targets::SECOND_SENT;
use call_messages::histories::{Moment, Turn};
use call_messages::one_target::{
    ACK_SENT, CANCEL_SENT, CANCEL_TAKEN, INVITE, INVITE_SENT, RINGING, RINGING_UP, TARGET,
    TERMINATED, TRYING,
};
use fork_call::{Setup, Taken};
use std::alloc::Global;

/// Two targets of bob, one after the other.
const TWO_GROUPS: &[u8] = b"own 192.0.2.9 5060\ninstance 7\ndomain example.com\n\
location bob 1000 sip:bob@192.0.2.4\nlocation bob 500 sip:bob@192.0.2.5\n";

/// The first rings twice and is cancelled 15 s after it was called; then the second is called, and has its own 15 s.
const SHORT: &[Moment] = &[
    (0, Turn::Sends(&TRYING)),
    (0, Turn::Sends(&INVITE_SENT)),
    (0, Turn::Waits(Some(500))),
    (500, Turn::Sends(&INVITE_SENT)),
    (1_000, Turn::Takes(TARGET, RINGING, Ok(Taken::Posted(0)))),
    (1_000, Turn::Sends(&RINGING_UP)),
    (1_000, Turn::Waits(Some(15_000))),
    (10_000, Turn::Takes(TARGET, RINGING, Ok(Taken::Posted(1)))),
    (10_000, Turn::Sends(&RINGING_UP)),
    (10_000, Turn::Waits(Some(15_000))),
    (15_000, Turn::Does),
    (15_000, Turn::Sends(&CANCEL_SENT)),
    (15_000, Turn::Waits(Some(15_500))),
    (
        15_020,
        Turn::Takes(TARGET, CANCEL_TAKEN, Ok(Taken::Absorbed)),
    ),
    (
        15_020,
        Turn::Takes(TARGET, TERMINATED, Ok(Taken::Posted(3))),
    ),
    (15_020, Turn::Sends(&ACK_SENT)),
    (15_020, Turn::Sends(&SECOND_SENT)),
    (15_020, Turn::Waits(Some(15_520))),
];

/// The first falls silent: it is not waited for as long as its transaction would.
const SILENT: &[Moment] = &[
    (0, Turn::Sends(&TRYING)),
    (0, Turn::Sends(&INVITE_SENT)),
    (500, Turn::Sends(&INVITE_SENT)),
    (1_500, Turn::Sends(&INVITE_SENT)),
    (3_500, Turn::Sends(&INVITE_SENT)),
    (7_500, Turn::Sends(&INVITE_SENT)),
    (7_500, Turn::Waits(Some(15_000))),
    (15_000, Turn::Does),
    (15_000, Turn::Sends(&SECOND_SENT)),
];

/// With the usual longest time each 180 starts timer C anew.
const USUAL: &[Moment] = &[
    (0, Turn::Sends(&TRYING)),
    (0, Turn::Sends(&INVITE_SENT)),
    (10, Turn::Takes(TARGET, RINGING, Ok(Taken::Posted(0)))),
    (10, Turn::Sends(&RINGING_UP)),
    (10, Turn::Waits(Some(181_010))),
    (10_000, Turn::Takes(TARGET, RINGING, Ok(Taken::Posted(1)))),
    (10_000, Turn::Sends(&RINGING_UP)),
    (10_000, Turn::Waits(Some(191_000))),
];

/// The setup of both targets, each of which may ring so long.
fn ringing(alloc: Global, longest: u64) -> Option<Setup<Global>> {
    Some(setup_of(alloc, TWO_GROUPS)?.ringing(longest))
}

/// Whether the call that the INVITE opens by that setup goes so.
fn goes(alloc: Global, longest: u64, history: &[Moment]) -> bool {
    match ringing(alloc, longest) {
        Some(setup) => goes_by(alloc, &setup, INVITE, history),
        None => false,
    }
}

/// Longest times, histories, and what they show.
const HISTORIES: [(u64, &[Moment], &str); 4] = [
    (15_000, SHORT, "a target that rings is cancelled in time"),
    (15_000, SILENT, "a target that is silent ends in time"),
    (181_000, USUAL, "the usual longest time"),
    (
        180_999,
        &[(0, Turn::Sends(&TRYING))],
        "the longest one that is short",
    ),
];

#[test]
fn no_branch_goes_on_past_its_longest_time(rt: HostRuntime) {
    for (longest, history, what) in HISTORIES {
        holds(&rt, goes(rt.alloc(), longest, history), what);
    }
}
