//! Calls that are carried while memory is refused and sends fail: the steps before a refusal stand, and a carry goes on where
//! it was refused.
use crate::calls::History;
use crate::plays::{holds, plays};
use crate::wanted;
use call_messages::five_targets::{
    FIFTH, FIFTH_NOT_FOUND, FORK_SETUP, FOURTH, FOURTH_RINGS, FOURTH_TERMINATED, SECOND,
    SECOND_RINGS, SECOND_TERMINATED, THIRD, THIRD_RINGS, THIRD_TERMINATED,
};
use call_messages::histories::{Moment, Turn};
use call_messages::one_target::{
    ACK, CALLER, CANCEL, INVITE, NOT_FOUND, OPTIONS, OPTIONS_NOT_FOUND, OPTIONS_NOT_FOUND_OF_FIVE,
    RINGING, SETUP, TARGET, TERMINATED,
};
use failing_allocator::{refused_always, refused_never};
use fork_call::{TakeFault, Taken};

/// An INVITE to five targets: the first and the fifth answer 404, and the first once more; the second and the third ring; the
/// caller cancels; then the fourth rings, too. Each of the three is cancelled and answers 487, and the first 404 goes up,
/// once more until the caller acknowledges it.
const FORK: &[Moment] = &[
    (0, Turn::Carries(6)),
    (0, Turn::Carries(0)),
    (100, Turn::Comes(Some(0), TARGET, NOT_FOUND)),
    (100, Turn::Carries(1)),
    (200, Turn::Comes(Some(4), FIFTH, FIFTH_NOT_FOUND)),
    (200, Turn::Carries(1)),
    (250, Turn::Takes(TARGET, NOT_FOUND, Ok(Taken::Absorbed))),
    (250, Turn::Carries(1)),
    (300, Turn::Comes(Some(1), SECOND, SECOND_RINGS)),
    (300, Turn::Carries(1)),
    (500, Turn::Carries(2)),
    (600, Turn::Comes(Some(2), THIRD, THIRD_RINGS)),
    (600, Turn::Carries(1)),
    (700, Turn::Comes(None, CALLER, CANCEL)),
    (700, Turn::Carries(3)),
    (800, Turn::Comes(Some(1), SECOND, SECOND_TERMINATED)),
    (800, Turn::Carries(1)),
    (1200, Turn::Carries(2)),
    (1350, Turn::Comes(Some(3), FOURTH, FOURTH_RINGS)),
    (1350, Turn::Carries(2)),
    (1450, Turn::Comes(Some(2), THIRD, THIRD_TERMINATED)),
    (1450, Turn::Comes(Some(3), FOURTH, FOURTH_TERMINATED)),
    (1450, Turn::Carries(3)),
    (1850, Turn::Carries(1)),
    (1950, Turn::Carries(1)),
    (2000, Turn::Takes(CALLER, ACK, Ok(Taken::Absorbed))),
    (40_000, Turn::Carries(0)),
    (40_000, Turn::Waits(None)),
];

/// An OPTIONS request whose target answers 404, and that again, as does one that the call does not have; then the caller asks
/// again.
const FAILING: &[Moment] = &[
    (0, Turn::Carries(2)),
    (20, Turn::Comes(Some(0), TARGET, OPTIONS_NOT_FOUND)),
    (20, Turn::Carries(1)),
    (
        30,
        Turn::Takes(TARGET, OPTIONS_NOT_FOUND, Ok(Taken::Absorbed)),
    ),
    (
        30,
        Turn::Takes(TARGET, OPTIONS_NOT_FOUND_OF_FIVE, Err(TakeFault::Stray)),
    ),
    (30, Turn::Carries(0)),
    (40, Turn::Takes(CALLER, OPTIONS, Ok(Taken::Absorbed))),
    (40, Turn::Carries(2)),
    (40_000, Turn::Carries(0)),
    (40_000, Turn::Waits(None)),
];

/// An INVITE to one target that is sent again, and that the caller cancels before the target rings; the target's 487 comes
/// twice.
const CANCELLED: &[Moment] = &[
    (0, Turn::Carries(2)),
    (500, Turn::Carries(1)),
    (600, Turn::Comes(None, CALLER, CANCEL)),
    (600, Turn::Carries(1)),
    (700, Turn::Comes(Some(0), TARGET, RINGING)),
    (700, Turn::Carries(2)),
    (1200, Turn::Carries(1)),
    (1300, Turn::Comes(Some(0), TARGET, TERMINATED)),
    (1300, Turn::Carries(2)),
    (1400, Turn::Takes(TARGET, TERMINATED, Ok(Taken::Absorbed))),
    (1400, Turn::Carries(1)),
    (1800, Turn::Carries(1)),
];

/// The call to five targets whose send of this number fails; where that is 0, none does.
fn to_five(fails: u64) -> History {
    History {
        setup: FORK_SETUP,
        request: INVITE,
        moments: FORK,
        begins: wanted::FORK,
        fails,
    }
}

/// The call of an OPTIONS request whose send of this number fails; where that is 0, none does.
fn asked(fails: u64) -> History {
    History {
        setup: SETUP,
        request: OPTIONS,
        moments: FAILING,
        begins: wanted::OPTIONS,
        fails,
    }
}

/// The call to one target.
fn to_one() -> History {
    History {
        setup: SETUP,
        request: INVITE,
        moments: CANCELLED,
        begins: wanted::INVITE,
        fails: 0,
    }
}

#[test]
fn a_carry_goes_on_where_it_was_refused(rt: HostRuntime) {
    plays(&rt, &to_five(0), 0, "an INVITE to five targets");
    plays(&rt, &asked(0), 0, "an OPTIONS request that is carried");
    plays(&rt, &to_one(), 0, "an INVITE that is carried");
}

#[test]
fn a_send_that_fails_loses_that_datagram_alone(rt: HostRuntime) {
    // (with memory enough the call is told of the loss; where memory ends at each growth it is not told of a request's)
    for fails in 1..=wanted::FORK_SENDS {
        let history = to_five(fails);
        let is_right = refused_never(rt.alloc(), &history);
        let well = is_right && refused_always(rt.alloc(), &history);
        holds(&rt, well, "an INVITE to five targets of which a send fails");
    }
    for fails in 1..=wanted::OPTIONS_SENDS {
        let history = asked(fails);
        plays(&rt, &history, 0, "an OPTIONS request of which a send fails");
    }
}
