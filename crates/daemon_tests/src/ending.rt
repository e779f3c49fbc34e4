//! How a service ends.
use crate::played::{Moment, PLAIN, Served, Turn, plays};
use crate::texts::{ACK, ASKED, BOB, BYE, CALLER, CANCEL, INVITE, OPTIONS, Request};
use service_admission::ServiceState;

/// A new INVITE, and the ACK of its 503.
const NEW: Request = Request {
    call: "new",
    ..INVITE
};

const NEW_ACK: Request = Request { call: "new", ..ACK };

const RECORDS: Served = Served {
    records: true,
    ..PLAIN
};

// ---- what is served while it drains

/// While a call rings, a service that ends turns away what begins something new, and serves all else.
const DRAINING: &[Moment] = &[
    (0, Turn::Asks(INVITE)),
    (
        20,
        Turn::Answers(BOB, "INVITE", "one", "SIP/2.0 180 Ringing"),
    ),
    (30, Turn::Skips),
    (100, Turn::Is(ServiceState::Serving)),
    (100, Turn::Stops(60)),
    (100, Turn::Is(ServiceState::Draining)),
    (110, Turn::Asks(NEW)),
    (
        110,
        Turn::Sends(CALLER, "SIP/2.0 503 Service Unavailable\r\n", "new"),
    ),
    (110, Turn::Has("\r\nRetry-After: 10\r\n")),
    (120, Turn::Acknowledges(NEW_ACK)),
    (120, Turn::SendsNothing),
    (130, Turn::Asks(ASKED)),
    (130, Turn::Sends(CALLER, "SIP/2.0 503 ", "asked")),
    (130, Turn::Has("\r\nRetry-After: 10\r\n")),
    (140, Turn::Asks(INVITE)),
    (140, Turn::Sends(CALLER, "SIP/2.0 180 ", "one")),
    (150, Turn::Asks(BYE)),
    (150, Turn::Sends(BOB, "BYE ", "bye")),
    (160, Turn::Answers(BOB, "BYE", "bye", "SIP/2.0 200 OK")),
    (160, Turn::Sends(CALLER, "SIP/2.0 200 ", "bye")),
    (170, Turn::Asks(CANCEL)),
    (170, Turn::Sends(CALLER, "SIP/2.0 200 ", "one")),
    (170, Turn::Sends(BOB, "CANCEL ", "one")),
    (170, Turn::SendsNothing),
    (170, Turn::Counts("forkproxy_turned_away_total 2")),
    (180, Turn::Answers(BOB, "CANCEL", "one", "SIP/2.0 200 OK")),
    (
        190,
        Turn::Answers(BOB, "INVITE", "one", "SIP/2.0 487 Request Terminated"),
    ),
    (190, Turn::Sends(CALLER, "SIP/2.0 487 ", "one")),
    (190, Turn::Sends(BOB, "ACK ", "one")),
    (200, Turn::Asks(ACK)),
    (2_099, Turn::Passes(200)),
    (2_099, Turn::SendsNothing),
    (2_099, Turn::Is(ServiceState::Draining)),
    (2_100, Turn::Ticks),
    (2_100, Turn::Is(ServiceState::Ended)),
    (2_100, Turn::Keeps(2, 2)),
];

#[test]
fn a_service_that_ends_serves_what_has_begun(rt: HostRuntime) {
    plays(&rt, rt.alloc(), PLAIN, DRAINING, "what is served meanwhile");
}

// ---- when it ends

/// Nothing is open: it ends two seconds behind `stop`, for which it answers 503.
const NOTHING_OPEN: &[Moment] = &[
    (500, Turn::Stops(60)),
    (500, Turn::Ticks),
    (2_499, Turn::Passes(500)),
    (2_499, Turn::Asks(ASKED)),
    (2_499, Turn::Sends(CALLER, "SIP/2.0 503 ", "asked")),
    (2_499, Turn::Is(ServiceState::Draining)),
    (2_500, Turn::Ticks),
    (2_500, Turn::Is(ServiceState::Ended)),
];

/// A call rings: it ends when SECONDS are over, not before and not later. Nobody is told, and the call is written down as open.
const RINGING: &[Moment] = &[
    (0, Turn::Asks(INVITE)),
    (
        20,
        Turn::Answers(BOB, "INVITE", "one", "SIP/2.0 180 Ringing"),
    ),
    (30, Turn::Ticks),
    (30, Turn::Sleeps(u64::MAX)),
    (100, Turn::Skips),
    (100, Turn::Stops(1)),
    (100, Turn::Ticks),
    (100, Turn::Sleeps(200)),
    (1_050, Turn::Ticks),
    (1_050, Turn::Sleeps(1_100)),
    (1_099, Turn::Ticks),
    (1_099, Turn::Is(ServiceState::Draining)),
    (1_100, Turn::Ticks),
    (1_100, Turn::Is(ServiceState::Ended)),
    (1_100, Turn::WritesNothing),
    (1_100, Turn::Leaves),
    (1_100, Turn::SendsNothing),
    (
        1_100,
        Turn::Writes(
            "0 INVITE sip:bob@example.com from <sip:alice@example.com>;tag=1 call-id one open\n",
        ),
    ),
    (1_100, Turn::WritesNothing),
    (1_100, Turn::Keeps(1, 1)),
];

/// It waits for a call that rings for as long as that rings, and ends once its answer has gone up.
const ANSWERED: &[Moment] = &[
    (0, Turn::Asks(INVITE)),
    (
        20,
        Turn::Answers(BOB, "INVITE", "one", "SIP/2.0 180 Ringing"),
    ),
    (100, Turn::Stops(60)),
    (40_000, Turn::Passes(100)),
    (40_000, Turn::Is(ServiceState::Draining)),
    (40_000, Turn::Skips),
    (
        40_050,
        Turn::Answers(BOB, "INVITE", "one", "SIP/2.0 486 Busy Here"),
    ),
    (40_050, Turn::Sends(CALLER, "SIP/2.0 486 ", "one")),
    (40_050, Turn::Sends(BOB, "ACK ", "one")),
    (40_100, Turn::Ticks),
    (40_100, Turn::Is(ServiceState::Ended)),
];

/// `stop 0` ends it at once, whatever is open.
const AT_ONCE: &[Moment] = &[
    (0, Turn::Asks(INVITE)),
    (100, Turn::Stops(0)),
    (100, Turn::Ticks),
    (100, Turn::Is(ServiceState::Ended)),
];

/// An OPTIONS request that is out is open, too; a call that only waits for its last timers is not.
const TIMERS_LEFT: &[Moment] = &[
    (0, Turn::Asks(OPTIONS)),
    (100, Turn::Stops(60)),
    (5_000, Turn::Passes(100)),
    (5_000, Turn::Is(ServiceState::Draining)),
    (
        5_050,
        Turn::Answers(BOB, "OPTIONS", "one", "SIP/2.0 404 Not Found"),
    ),
    (5_100, Turn::Ticks),
    (5_100, Turn::Is(ServiceState::Ended)),
    (5_100, Turn::Keeps(1, 1)),
    (5_100, Turn::Leaves),
    (
        5_100,
        Turn::Writes(
            "0 OPTIONS sip:bob@example.com from <sip:alice@example.com>;tag=1 call-id one failed 404 from sip:bob@192.0.2.4, the only answer\ntarget 0 404 at 5050\nfork ",
        ),
    ),
    (5_100, Turn::WritesNothing),
];

/// Targets that never answer: the 408 goes up before the end.
const SILENT: &[Moment] = &[
    (0, Turn::Asks(OPTIONS)),
    (100, Turn::Stops(60)),
    (31_950, Turn::Passes(100)),
    (31_950, Turn::Is(ServiceState::Draining)),
    (31_950, Turn::Skips),
    (32_000, Turn::Ticks),
    (32_000, Turn::Sends(CALLER, "SIP/2.0 408 ", "one")),
    (32_000, Turn::Is(ServiceState::Ended)),
];

#[test]
fn a_service_ends_once_nothing_is_open_or_its_time_is_over(rt: HostRuntime) {
    let alloc = rt.alloc();
    plays(&rt, alloc, PLAIN, NOTHING_OPEN, "nothing is open");
    plays(&rt, alloc, PLAIN, RINGING, "a call rings");
    plays(&rt, alloc, PLAIN, ANSWERED, "a call rings and is answered");
    plays(&rt, alloc, PLAIN, AT_ONCE, "stop 0");
    plays(&rt, alloc, PLAIN, TIMERS_LEFT, "timers are left");
    plays(&rt, alloc, PLAIN, SILENT, "a target is silent");
}

// ---- once more

/// A second `stop` sets the time anew: shorter, at once, and longer.
const SHORTER: &[Moment] = &[
    (0, Turn::Asks(INVITE)),
    (
        20,
        Turn::Answers(BOB, "INVITE", "one", "SIP/2.0 180 Ringing"),
    ),
    (100, Turn::Stops(3_600)),
    (10_000, Turn::Passes(100)),
    (10_000, Turn::Is(ServiceState::Draining)),
    (10_000, Turn::Stops(1)),
    (10_999, Turn::Passes(10_000)),
    (10_999, Turn::Is(ServiceState::Draining)),
    (11_000, Turn::Ticks),
    (11_000, Turn::Is(ServiceState::Ended)),
];

const HASTENED: &[Moment] = &[
    (0, Turn::Asks(INVITE)),
    (100, Turn::Stops(60)),
    (100, Turn::Ticks),
    (150, Turn::Stops(0)),
    (150, Turn::Ticks),
    (150, Turn::Is(ServiceState::Ended)),
];

const LONGER: &[Moment] = &[
    (0, Turn::Asks(INVITE)),
    (
        20,
        Turn::Answers(BOB, "INVITE", "one", "SIP/2.0 180 Ringing"),
    ),
    (100, Turn::Stops(1)),
    (1_000, Turn::Passes(100)),
    (1_000, Turn::Stops(10)),
    (10_999, Turn::Passes(1_000)),
    (10_999, Turn::Is(ServiceState::Draining)),
    (11_000, Turn::Ticks),
    (11_000, Turn::Is(ServiceState::Ended)),
];

#[test]
fn a_second_stop_sets_the_time_anew(rt: HostRuntime) {
    let alloc = rt.alloc();
    plays(&rt, alloc, PLAIN, SHORTER, "a shorter time");
    plays(&rt, alloc, PLAIN, HASTENED, "at once");
    plays(&rt, alloc, PLAIN, LONGER, "a longer time");
}

// ---- with Record-Route

/// The ACK of the 200, which comes by the proxy.
const SUCCESS_ACK: Request = Request {
    method: "ACK",
    uri: "sip:bob@192.0.2.4",
    call: "acknowledged",
    tag: ";tag=9",
    lines: "Route: <sip:192.0.2.9:5060;lr>\r\n",
};

/// A 200 has gone up: the proxy stays on the path of its ACK for 32 seconds.
const RECORDED: &[Moment] = &[
    (0, Turn::Asks(INVITE)),
    (1_000, Turn::Answers(BOB, "INVITE", "one", "SIP/2.0 200 OK")),
    (2_000, Turn::Stops(60)),
    (32_999, Turn::Passes(2_000)),
    (32_999, Turn::Is(ServiceState::Draining)),
    (32_999, Turn::Skips),
    (32_999, Turn::Asks(SUCCESS_ACK)),
    (
        32_999,
        Turn::Sends(BOB, "ACK sip:bob@192.0.2.4 SIP/2.0\r\n", "acknowledged"),
    ),
    (33_000, Turn::Ticks),
    (33_000, Turn::Is(ServiceState::Ended)),
];

/// Within SECONDS.
const RECORDED_SHORTLY: &[Moment] = &[
    (0, Turn::Asks(INVITE)),
    (1_000, Turn::Answers(BOB, "INVITE", "one", "SIP/2.0 200 OK")),
    (2_000, Turn::Stops(5)),
    (6_999, Turn::Passes(2_000)),
    (6_999, Turn::Is(ServiceState::Draining)),
    (7_000, Turn::Ticks),
    (7_000, Turn::Is(ServiceState::Ended)),
];

/// A call that failed needs no such time, nor does one whose dialog goes past the proxy.
const FAILED: &[Moment] = &[
    (0, Turn::Asks(INVITE)),
    (
        1_000,
        Turn::Answers(BOB, "INVITE", "one", "SIP/2.0 486 Busy Here"),
    ),
    (2_000, Turn::Stops(60)),
    (3_999, Turn::Passes(2_000)),
    (3_999, Turn::Is(ServiceState::Draining)),
    (4_000, Turn::Ticks),
    (4_000, Turn::Is(ServiceState::Ended)),
];

const NOT_RECORDED: &[Moment] = &[
    (0, Turn::Asks(INVITE)),
    (1_000, Turn::Answers(BOB, "INVITE", "one", "SIP/2.0 200 OK")),
    (2_000, Turn::Stops(60)),
    (3_999, Turn::Passes(2_000)),
    (3_999, Turn::Is(ServiceState::Draining)),
    (4_000, Turn::Ticks),
    (4_000, Turn::Is(ServiceState::Ended)),
];

#[test]
fn a_service_on_the_path_waits_for_the_ack(rt: HostRuntime) {
    let alloc = rt.alloc();
    plays(&rt, alloc, RECORDS, RECORDED, "a 200 has gone up");
    plays(&rt, alloc, RECORDS, RECORDED_SHORTLY, "within its time");
    plays(&rt, alloc, RECORDS, FAILED, "a 486 has gone up");
    plays(&rt, alloc, PLAIN, NOT_RECORDED, "without Record-Route");
}
