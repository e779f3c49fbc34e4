//! A service that is refused memory: what becomes of a datagram, when it opens calls again, when a call is looked at again, and when a service
//! ends whose call owes an answer.
use crate::holds::holds;
use crate::played::{Moment, PLAIN, Played, Served, Turn};
use crate::texts::{BOB, CALLER, CONFIGURATION, INVITE, OPTIONS, Request};
use failing_allocator::Refusing;
use service_admission::ServiceState;
use std::alloc::Global;
use std::sync::Wait;
use std::time::Clock;

/// A service of two places.
const TWO: Served = Served {
    most_calls: 2,
    ..PLAIN
};

/// INVITEs of other calls.
const SECOND: Request = Request {
    call: "two",
    ..INVITE
};

const THIRD: Request = Request {
    call: "three",
    ..INVITE
};

/// No datagram grows something so often.
const MOST_GROWTHS: u64 = 100_000;

/// A service whose memory may be refused.
type Scarce<'a> = Played<&'a Refusing<Global>>;

/// A service whose calls have their memory from there, and all else from `alloc`.
fn scarce<'a>(alloc: Global, heap: &'a Refusing<Global>) -> Option<Scarce<'a>> {
    Played::new(heap, alloc, CONFIGURATION, TWO)
}

/// Whether a service goes as a history tells.
fn goes<R: Wait + Clock>(rt: &R, service: &mut Scarce<'_>, history: &[Moment]) -> bool {
    service.played(rt, history) == history.len()
}

/// Whether it does while all memory is refused.
fn goes_without<R: Wait + Clock>(
    rt: &R,
    heap: &Refusing<Global>,
    service: &mut Scarce<'_>,
    history: &[Moment],
) -> bool {
    heap.refuse_from(1);
    let goes = goes(rt, service, history);
    heap.refuse_none();
    goes
}

// ---- one growth of a datagram

/// A datagram that opens a call.
const COMES: &[Moment] = &[(0, Turn::Asks(INVITE))];

/// All of it is done.
const WHOLE: &[Moment] = &[
    (0, Turn::Sends(CALLER, "SIP/2.0 100 ", "one")),
    (0, Turn::Sends(BOB, "INVITE ", "one")),
    (0, Turn::SendsNothing),
    (0, Turn::Keeps(1, 1)),
    (0, Turn::Counts("forkproxy_no_memory_total 0")),
    (0, Turn::Counts("forkproxy_deadlines_missed_total 0")),
];

/// It opened no call.
const OPENS_NONE: &[Moment] = &[(0, Turn::Keeps(0, 0))];

/// It is as one that was lost on the way. No call is opened for a second; then both places are there.
const LOST: &[Moment] = &[
    (0, Turn::SendsNothing),
    (0, Turn::Counts("forkproxy_no_memory_total 1")),
    (0, Turn::Counts("forkproxy_calls_opened_total 0")),
    (999, Turn::Asks(INVITE)),
    (999, Turn::Sends(CALLER, "SIP/2.0 503 ", "one")),
    (1_000, Turn::Asks(INVITE)),
    (1_000, Turn::Sends(CALLER, "SIP/2.0 100 ", "one")),
    (1_000, Turn::Sends(BOB, "INVITE ", "one")),
    (1_000, Turn::Asks(SECOND)),
    (1_000, Turn::Sends(CALLER, "SIP/2.0 100 ", "two")),
    (1_000, Turn::Sends(BOB, "INVITE ", "two")),
    (1_000, Turn::Keeps(2, 2)),
    (1_000, Turn::Asks(THIRD)),
    (1_000, Turn::Sends(CALLER, "SIP/2.0 503 ", "three")),
    (1_000, Turn::SendsNothing),
];

/// It opened a call: within ten milliseconds that sends what it has to, and what it has to send later when it is due. No other one is
/// opened for a second.
const OPENED: &[Moment] = &[
    (0, Turn::Ticks),
    (10, Turn::Ticks),
    (10, Turn::Sends(CALLER, "SIP/2.0 100 ", "one")),
    (10, Turn::Sends(BOB, "INVITE ", "one")),
    (499, Turn::Passes(10)),
    (499, Turn::SendsNothing),
    (510, Turn::Ticks),
    (510, Turn::Sends(BOB, "INVITE ", "one")),
    (999, Turn::Asks(SECOND)),
    (999, Turn::Sends(CALLER, "SIP/2.0 503 ", "two")),
    (1_000, Turn::Asks(SECOND)),
    (1_000, Turn::Sends(CALLER, "SIP/2.0 100 ", "two")),
    (1_000, Turn::Sends(BOB, "INVITE ", "two")),
    (1_000, Turn::Keeps(2, 2)),
    (1_000, Turn::Asks(THIRD)),
    (1_000, Turn::Sends(CALLER, "SIP/2.0 503 ", "three")),
    (1_000, Turn::SendsNothing),
];

/// The deadline of the call that it opened could not be added.
const MISSED: &[Moment] = &[(0, Turn::Counts("forkproxy_deadlines_missed_total 1"))];

/// The thread that keeps the time looks at all calls ten milliseconds later.
const LOOKS: &[Moment] = &[(0, Turn::Ticks), (0, Turn::Sleeps(10))];

/// What a datagram comes to of which one growth is refused.
#[derive(Clone, Copy, PartialEq, Eq)]
enum Came {
    /// There is no such growth.
    Whole,
    /// It was done without.
    Unneeded,
    Lost,
    Opened,
    Missed,
}

/// What it came to, where a growth was refused.
fn what_came<R: Wait + Clock>(rt: &R, service: &mut Scarce<'_>) -> Came {
    if goes(rt, service, OPENS_NONE) {
        Came::Lost
    } else if goes(rt, service, MISSED) {
        Came::Missed
    } else {
        Came::Opened
    }
}

/// Whether the service does behind that what it should.
fn goes_on<R: Wait + Clock>(rt: &R, service: &mut Scarce<'_>, came: Came) -> bool {
    match came {
        Came::Whole | Came::Unneeded => goes(rt, service, WHOLE),
        Came::Lost => goes(rt, service, LOST),
        Came::Opened => goes(rt, service, OPENED),
        Came::Missed => goes(rt, service, LOOKS) && goes(rt, service, OPENED),
    }
}

/// Whether all is done where the growth of this number is refused, as the one is by which a request that is kept gives memory back.
fn is_unneeded<R: Wait + Clock>(rt: &R, alloc: Global, growth: u64) -> bool {
    let heap = Refusing::new(alloc);
    let Some(mut service) = scarce(alloc, &heap) else {
        return false;
    };
    heap.refuse_one(growth);
    let comes = goes(rt, &mut service, COMES);
    heap.refuse_none();
    comes && goes_on(rt, &mut service, Came::Unneeded)
}

/// What a datagram comes to of which the growth of this number is refused; None where the service does not go as it should.
fn refused_at<R: Wait + Clock>(rt: &R, alloc: Global, growth: u64) -> Option<Came> {
    let heap = Refusing::new(alloc);
    let mut service = scarce(alloc, &heap)?;
    heap.refuse_one(growth);
    let comes = goes(rt, &mut service, COMES);
    let is_refused = heap.refused() > 0;
    heap.refuse_none();
    let came = if is_refused {
        what_came(rt, &mut service)
    } else {
        Came::Whole
    };
    if comes && goes_on(rt, &mut service, came) {
        Some(came)
    } else if is_unneeded(rt, alloc, growth) {
        Some(Came::Unneeded)
    } else {
        None
    }
}

/// How often a growth was done without, and a datagram was lost, opened a call, and opened one whose deadline could not be added.
#[derive(Clone, Copy)]
struct Tally {
    unneeded: u64,
    lost: u64,
    opened: u64,
    missed: u64,
}

/// What a datagram comes to of which growth 1, 2, 3 and so on is refused, until none is; None where a service does not go as it should.
fn each_refused<R: Wait + Clock>(rt: &R, alloc: Global) -> Option<Tally> {
    let mut tally = Tally {
        unneeded: 0,
        lost: 0,
        opened: 0,
        missed: 0,
    };
    for growth in 1..MOST_GROWTHS {
        match refused_at(rt, alloc, growth)? {
            Came::Whole => return Some(tally),
            Came::Unneeded => tally.unneeded = tally.unneeded.saturating_add(1),
            Came::Lost => tally.lost = tally.lost.saturating_add(1),
            Came::Opened => tally.opened = tally.opened.saturating_add(1),
            Came::Missed => tally.missed = tally.missed.saturating_add(1),
        }
    }
    None
}

#[test]
fn a_datagram_that_lacks_memory_keeps_nothing_or_opens_its_call(rt: HostRuntime) {
    let tally = each_refused(&rt, rt.alloc());
    holds(&rt, tally.is_some(), "each growth of an INVITE");
    if let Some(tally) = tally {
        holds(
            &rt,
            tally.unneeded == 2,
            "the text and the places of the request give memory back",
        );
        holds(&rt, tally.lost > 0, "the datagram is lost at some");
        holds(&rt, tally.opened > 0, "the call waits at some");
        holds(&rt, tally.missed > 0, "a deadline is missed at some");
    }
}

// ---- a call that lacks memory

/// Two calls to a telephone that does not answer.
const TWO_CALLS: &[Moment] = &[
    (0, Turn::Asks(INVITE)),
    (100, Turn::Asks(SECOND)),
    (499, Turn::Passes(100)),
    (499, Turn::Counts("forkproxy_timers_total 0")),
    (499, Turn::Skips),
];

/// The INVITE of the first is due once more, and lacks memory: it is tried again after 10, 20 and 40 milliseconds.
const WAITS: &[Moment] = &[
    (500, Turn::Ticks),
    (509, Turn::Ticks),
    (509, Turn::Counts("forkproxy_timers_total 1")),
    (510, Turn::Ticks),
    (529, Turn::Ticks),
    (529, Turn::Counts("forkproxy_timers_total 2")),
    (530, Turn::Ticks),
    (569, Turn::Ticks),
    (569, Turn::Counts("forkproxy_timers_total 3")),
    (569, Turn::SendsNothing),
    (569, Turn::Counts("forkproxy_deadlines_missed_total 0")),
];

/// There is memory again: it is sent when it is tried next. The other call has waited for nothing.
const GOES_ON: &[Moment] = &[
    (569, Turn::Ticks),
    (569, Turn::SendsNothing),
    (570, Turn::Ticks),
    (570, Turn::Sends(BOB, "INVITE ", "one")),
    (599, Turn::Ticks),
    (599, Turn::SendsNothing),
    (600, Turn::Ticks),
    (600, Turn::Sends(BOB, "INVITE ", "two")),
    (600, Turn::SendsNothing),
];

#[test]
fn a_call_that_lacks_memory_is_tried_again(rt: HostRuntime) {
    let heap = Refusing::new(rt.alloc());
    let mut goes_well = false;
    if let Some(mut service) = scarce(rt.alloc(), &heap) {
        goes_well = goes(&rt, &mut service, TWO_CALLS)
            && goes_without(&rt, &heap, &mut service, WAITS)
            && goes(&rt, &mut service, GOES_ON);
    }
    holds(&rt, goes_well, "after 10, 20 and 40 milliseconds");
}

// ---- an answer that is owed at the end

/// A telephone rings, and the service is told to end.
const RINGS: &[Moment] = &[
    (0, Turn::Asks(INVITE)),
    (
        20,
        Turn::Answers(BOB, "INVITE", "one", "SIP/2.0 180 Ringing"),
    ),
    (20, Turn::Skips),
    (20, Turn::Stops(60)),
];

/// The telephone declines, when the two seconds are over in which the service answers that it ends.
const DECLINES: &[Moment] = &[(
    3_000,
    Turn::Answers(BOB, "INVITE", "one", "SIP/2.0 486 Busy Here"),
)];

/// That went up.
const GOES_UP: &[Moment] = &[(3_000, Turn::Sends(CALLER, "SIP/2.0 486 ", "one"))];

/// It is as one that was lost on the way: the call stays open.
const UNHEARD: &[Moment] = &[
    (3_000, Turn::Counts("forkproxy_no_memory_total 1")),
    (3_000, Turn::Ticks),
    (3_000, Turn::SendsNothing),
    (3_000, Turn::Is(ServiceState::Draining)),
];

/// The call has ended, and owes its answer: the service ends behind that.
const OWED: &[Moment] = &[
    (3_000, Turn::Counts("forkproxy_no_memory_total 0")),
    (3_000, Turn::Ticks),
    (3_000, Turn::SendsNothing),
    (3_000, Turn::Is(ServiceState::Draining)),
    (3_010, Turn::Ticks),
    (3_010, Turn::Sends(CALLER, "SIP/2.0 486 ", "one")),
    (3_010, Turn::Sends(BOB, "ACK ", "one")),
    (3_010, Turn::SendsNothing),
    (3_010, Turn::Is(ServiceState::Ended)),
];

/// What becomes of a telephone's answer for which memory ends.
#[derive(Clone, Copy, PartialEq, Eq)]
enum Heard {
    Unheard,
    Owed,
    GoesUp,
}

/// What becomes of it where its growth of this number and all behind it are refused; None where the service does not go as it should.
fn heard_before<R: Wait + Clock>(rt: &R, alloc: Global, growth: u64) -> Option<Heard> {
    let heap = Refusing::new(alloc);
    let mut service = scarce(alloc, &heap)?;
    let rings = goes(rt, &mut service, RINGS);
    heap.refuse_from(growth);
    let declines = goes(rt, &mut service, DECLINES);
    heap.refuse_none();
    if !rings || !declines {
        None
    } else if goes(rt, &mut service, GOES_UP) {
        Some(Heard::GoesUp)
    } else if goes(rt, &mut service, UNHEARD) {
        Some(Heard::Unheard)
    } else if goes(rt, &mut service, OWED) {
        Some(Heard::Owed)
    } else {
        None
    }
}

/// At how many growths memory ends so that the answer is owed; None where a service does not go as it should.
fn owed_at<R: Wait + Clock>(rt: &R, alloc: Global) -> Option<u64> {
    let mut owed = 0u64;
    for growth in 1..MOST_GROWTHS {
        match heard_before(rt, alloc, growth)? {
            Heard::Unheard => {}
            Heard::Owed => owed = owed.saturating_add(1),
            Heard::GoesUp => return Some(owed),
        }
    }
    None
}

#[test]
fn a_service_ends_behind_the_answer_that_a_call_owes_for_want_of_memory(rt: HostRuntime) {
    let owed = owed_at(&rt, rt.alloc());
    holds(&rt, owed.is_some(), "each growth of a 486");
    holds(&rt, owed.unwrap_or(0) > 0, "the answer is owed at some");
}

// ---- a call that is over

/// A call that failed, and is over at 32,020 milliseconds.
const FAILS: &[Moment] = &[
    (0, Turn::Asks(OPTIONS)),
    (
        20,
        Turn::Answers(BOB, "OPTIONS", "one", "SIP/2.0 404 Not Found"),
    ),
    (32_019, Turn::Passes(20)),
    (32_019, Turn::Keeps(1, 1)),
];

/// It is forgotten and counted, and there is no memory for its block.
const UNWRITTEN: &[Moment] = &[
    (32_020, Turn::Ticks),
    (32_020, Turn::Keeps(0, 1)),
    (
        32_020,
        Turn::Counts("forkproxy_calls_failed_total{class=\"4xx\"} 1"),
    ),
    (32_020, Turn::Counts("forkproxy_calls_unwritten_total 1")),
    (32_020, Turn::WritesNothing),
];

#[test]
fn a_call_is_forgotten_without_memory(rt: HostRuntime) {
    let heap = Refusing::new(rt.alloc());
    let mut goes_well = false;
    if let Some(mut service) = scarce(rt.alloc(), &heap) {
        goes_well = goes(&rt, &mut service, FAILS)
            && goes_without(&rt, &heap, &mut service, UNWRITTEN);
    }
    holds(&rt, goes_well, "what is not written is counted");
}
