//! When a call is forgotten, how it is counted, and what is written of it; and when what is due is done.
use crate::played::{Moment, PLAIN, Served, Turn, plays};
use crate::texts::{ACK, BOB, CALLER, CAROL, CAROL_AFTERWARDS, INVITE, OPTIONS, Request};

// ---- moments

/// An INVITE that comes 250 ms behind a second is sent again half a second later, to the millisecond, and after a second more.
const MILLISECONDS: &[Moment] = &[
    (3_250, Turn::Asks(INVITE)),
    (3_250, Turn::Sends(CALLER, "SIP/2.0 100 ", "one")),
    (3_250, Turn::Sends(BOB, "INVITE ", "one")),
    (3_749, Turn::Passes(3_250)),
    (3_749, Turn::SendsNothing),
    (3_750, Turn::Ticks),
    (3_750, Turn::Sends(BOB, "INVITE ", "one")),
    (4_749, Turn::Passes(3_750)),
    (4_749, Turn::SendsNothing),
    (4_750, Turn::Ticks),
    (4_750, Turn::Sends(BOB, "INVITE ", "one")),
    (4_750, Turn::SendsNothing),
    (4_750, Turn::Counts("forkproxy_timers_total 2")),
    (
        4_750,
        Turn::Counts("forkproxy_sent_total{message=\"request\"} 0"),
    ),
];

#[test]
fn what_is_due_is_done_to_the_millisecond(rt: HostRuntime) {
    plays(&rt, rt.alloc(), PLAIN, MILLISECONDS, "a silent target");
}

// ---- how a call ends

/// A call is forgotten 32 seconds after its last answer: answered, and counted as such.
const SUCCESS: &[Moment] = &[
    (0, Turn::Asks(INVITE)),
    (0, Turn::Counts("forkproxy_calls 1")),
    (0, Turn::Counts("forkproxy_calls_open 1")),
    (
        20,
        Turn::Answers(BOB, "INVITE", "one", "SIP/2.0 180 Ringing"),
    ),
    (20, Turn::Counts("forkproxy_calls_open 1")),
    (100, Turn::Answers(BOB, "INVITE", "one", "SIP/2.0 200 OK")),
    (100, Turn::Counts("forkproxy_calls_open 0")),
    (100, Turn::Counts("forkproxy_calls 1")),
    (32_099, Turn::Passes(100)),
    (32_099, Turn::Counts("forkproxy_calls 1")),
    (32_099, Turn::Counts("forkproxy_calls_forgotten_total 0")),
    (32_099, Turn::WritesNothing),
    (32_100, Turn::Ticks),
    (32_100, Turn::Counts("forkproxy_calls 0")),
    (32_100, Turn::Counts("forkproxy_calls_open 0")),
    (32_100, Turn::Counts("forkproxy_calls_opened_total 1")),
    (32_100, Turn::Counts("forkproxy_calls_forgotten_total 1")),
    (32_100, Turn::Counts("forkproxy_calls_answered_total 1")),
    (
        32_100,
        Turn::Counts("forkproxy_calls_failed_total{class=\"4xx\"} 0"),
    ),
    (
        32_100,
        Turn::Writes(
            "0 INVITE sip:bob@example.com from <sip:alice@example.com>;tag=1 call-id one answered\ntarget 0 rang 180 at 20, answered 200 at 100\n",
        ),
    ),
    (32_100, Turn::Lacks("fork ")),
    (32_100, Turn::WritesNothing),
    (32_100, Turn::Keeps(0, 1)),
];

/// A call that failed, whose request then opens another one.
const FAILURE: &[Moment] = &[
    (0, Turn::Asks(INVITE)),
    (
        20,
        Turn::Answers(BOB, "INVITE", "one", "SIP/2.0 486 Busy Here"),
    ),
    (20, Turn::Counts("forkproxy_calls_open 0")),
    (30, Turn::Asks(ACK)),
    (32_019, Turn::Passes(30)),
    (32_019, Turn::Keeps(1, 1)),
    (32_019, Turn::WritesNothing),
    (32_019, Turn::Skips),
    (32_019, Turn::Asks(INVITE)),
    (32_019, Turn::SendsNothing),
    (32_020, Turn::Ticks),
    (32_020, Turn::Keeps(0, 1)),
    (
        32_020,
        Turn::Counts("forkproxy_calls_failed_total{class=\"4xx\"} 1"),
    ),
    (32_020, Turn::Counts("forkproxy_calls_answered_total 0")),
    (32_020, Turn::Counts("forkproxy_calls_forgotten_total 1")),
    (
        32_020,
        Turn::Writes(
            "0 INVITE sip:bob@example.com from <sip:alice@example.com>;tag=1 call-id one failed 486 from sip:bob@192.0.2.4, the only answer\ntarget 0 486 at 20\nfork 3 1\n",
        ),
    ),
    (
        32_020,
        Turn::Has("\ntarget 0 - 1000 stored 486 0 received\n"),
    ),
    (32_020, Turn::Has("\nfinal 486 0\n")),
    (32_020, Turn::WritesNothing),
    (32_100, Turn::Asks(INVITE)),
    (32_100, Turn::Sends(CALLER, "SIP/2.0 100 ", "one")),
    (32_100, Turn::Sends(BOB, "INVITE ", "one")),
    (32_100, Turn::Keeps(1, 2)),
];

/// No target has answered, and the caller's ACK came: forgotten 5 seconds after that.
const TIMEOUT: &[Moment] = &[
    (0, Turn::Asks(INVITE)),
    (32_000, Turn::Passes(0)),
    (32_100, Turn::Asks(ACK)),
    (37_099, Turn::Passes(32_100)),
    (37_099, Turn::Keeps(1, 1)),
    (37_100, Turn::Ticks),
    (37_100, Turn::Keeps(0, 1)),
    (
        37_100,
        Turn::Counts("forkproxy_calls_failed_total{class=\"4xx\"} 1"),
    ),
    (
        37_100,
        Turn::Writes(
            "0 INVITE sip:bob@example.com from <sip:alice@example.com>;tag=1 call-id one failed 408 assumed for sip:bob@192.0.2.4, the only answer\ntarget 0 timed out at 32000\nfork 3 1\n",
        ),
    ),
];

/// A call of which each branch has ended is looked at in steps of 20 milliseconds, and where it is no INVITE once. What is sent again
/// behind timer K of its branch, five seconds after the answer, is treated as before it.
const STEPS: &[Moment] = &[
    (0, Turn::Asks(OPTIONS)),
    (
        25,
        Turn::Answers(BOB, "OPTIONS", "one", "SIP/2.0 404 Not Found"),
    ),
    (4_000, Turn::Skips),
    (
        4_000,
        Turn::Answers(BOB, "OPTIONS", "one", "SIP/2.0 404 Not Found"),
    ),
    (4_000, Turn::SendsNothing),
    (10_000, Turn::Passes(4_000)),
    (
        10_000,
        Turn::Answers(BOB, "OPTIONS", "one", "SIP/2.0 404 Not Found"),
    ),
    (10_000, Turn::SendsNothing),
    (10_100, Turn::Asks(OPTIONS)),
    (10_100, Turn::Sends(CALLER, "SIP/2.0 404 ", "one")),
    (10_100, Turn::SendsNothing),
    (32_025, Turn::Passes(10_100)),
    (32_039, Turn::Ticks),
    (32_039, Turn::Keeps(1, 1)),
    (32_039, Turn::Counts("forkproxy_timers_total 0")),
    (32_040, Turn::Ticks),
    (32_040, Turn::Keeps(0, 1)),
    (32_040, Turn::Counts("forkproxy_timers_total 1")),
    (32_040, Turn::SendsNothing),
];

/// Requests to bob, each of a call of its own.
const SECOND: Request = Request {
    call: "two",
    ..OPTIONS
};

const THIRD: Request = Request {
    call: "three",
    ..OPTIONS
};

const FOURTH: Request = Request {
    call: "four",
    ..OPTIONS
};

const FIFTH: Request = Request {
    call: "five",
    ..OPTIONS
};

/// Calls that end in each way at the same moment: each is counted by its class, and its block tells of its own answer.
const CLASSES: &[Moment] = &[
    (0, Turn::Asks(OPTIONS)),
    (0, Turn::Asks(SECOND)),
    (0, Turn::Asks(THIRD)),
    (0, Turn::Asks(FOURTH)),
    (0, Turn::Asks(FIFTH)),
    (
        20,
        Turn::Answers(BOB, "OPTIONS", "one", "SIP/2.0 302 Moved Temporarily"),
    ),
    (
        20,
        Turn::Answers(BOB, "OPTIONS", "two", "SIP/2.0 404 Not Found"),
    ),
    (
        20,
        Turn::Answers(BOB, "OPTIONS", "three", "SIP/2.0 500 Server Internal Error"),
    ),
    (
        20,
        Turn::Answers(BOB, "OPTIONS", "four", "SIP/2.0 603 Decline"),
    ),
    (20, Turn::Answers(BOB, "OPTIONS", "five", "SIP/2.0 200 OK")),
    (32_019, Turn::Passes(20)),
    (32_019, Turn::Keeps(5, 5)),
    (32_020, Turn::Ticks),
    (32_020, Turn::Keeps(0, 5)),
    (
        32_020,
        Turn::Counts("forkproxy_calls_failed_total{class=\"3xx\"} 1"),
    ),
    (
        32_020,
        Turn::Counts("forkproxy_calls_failed_total{class=\"4xx\"} 1"),
    ),
    (
        32_020,
        Turn::Counts("forkproxy_calls_failed_total{class=\"5xx\"} 1"),
    ),
    (
        32_020,
        Turn::Counts("forkproxy_calls_failed_total{class=\"6xx\"} 1"),
    ),
    (32_020, Turn::Counts("forkproxy_calls_answered_total 1")),
    (32_020, Turn::Counts("forkproxy_calls_forgotten_total 5")),
    (
        32_020,
        Turn::Writes(
            "0 OPTIONS sip:bob@example.com from <sip:alice@example.com>;tag=1 call-id one failed 302 from sip:bob@192.0.2.4, the only answer\ntarget 0 302 at 20\nfork ",
        ),
    ),
    (
        32_020,
        Turn::Writes(
            "1 OPTIONS sip:bob@example.com from <sip:alice@example.com>;tag=1 call-id two failed 404 from sip:bob@192.0.2.4, the only answer\ntarget 0 404 at 20\nfork ",
        ),
    ),
    (
        32_020,
        Turn::Writes(
            "2 OPTIONS sip:bob@example.com from <sip:alice@example.com>;tag=1 call-id three failed 500 from sip:bob@192.0.2.4, the only answer\ntarget 0 500 at 20\nfork ",
        ),
    ),
    (
        32_020,
        Turn::Writes(
            "3 OPTIONS sip:bob@example.com from <sip:alice@example.com>;tag=1 call-id four failed 603 from sip:bob@192.0.2.4, the only answer\ntarget 0 603 at 20\nfork ",
        ),
    ),
    (
        32_020,
        Turn::Writes(
            "4 OPTIONS sip:bob@example.com from <sip:alice@example.com>;tag=1 call-id five answered\n",
        ),
    ),
    (32_020, Turn::WritesNothing),
];

/// Two calls whose whys differ: one to two telephones, the other to one.
const TO_CAROL: Request = Request {
    uri: "sip:carol@example.com",
    call: "two",
    ..OPTIONS
};

const WHYS: &[Moment] = &[
    (0, Turn::Asks(OPTIONS)),
    (0, Turn::Asks(TO_CAROL)),
    (
        10,
        Turn::Answers(CAROL, "OPTIONS", "two", "SIP/2.0 404 Not Found"),
    ),
    (
        20,
        Turn::Answers(CAROL_AFTERWARDS, "OPTIONS", "two", "SIP/2.0 486 Busy Here"),
    ),
    (
        20,
        Turn::Answers(BOB, "OPTIONS", "one", "SIP/2.0 480 Temporarily Unavailable"),
    ),
    (33_000, Turn::Passes(20)),
    (33_000, Turn::Keeps(0, 2)),
    (
        33_000,
        Turn::Writes(
            "0 OPTIONS sip:bob@example.com from <sip:alice@example.com>;tag=1 call-id one failed 480 from sip:bob@192.0.2.4, the only answer\ntarget 0 480 at 20\nfork 3 1\n",
        ),
    ),
    (
        33_000,
        Turn::Writes(
            "1 OPTIONS sip:carol@example.com from <sip:alice@example.com>;tag=1 call-id two failed 404 from sip:carol@192.0.2.5, earliest among 4xx, 1 other stored\ntarget 0 404 at 10\ntarget 1 486 at 20\nfork 3 2\n",
        ),
    ),
    (33_000, Turn::WritesNothing),
];

/// Without a journal nothing is written.
const UNWRITTEN: Served = Served {
    has_journal: false,
    ..PLAIN
};

const NO_JOURNAL: &[Moment] = &[
    (0, Turn::Asks(OPTIONS)),
    (0, Turn::Asks(SECOND)),
    (
        20,
        Turn::Answers(BOB, "OPTIONS", "one", "SIP/2.0 404 Not Found"),
    ),
    (32_020, Turn::Passes(20)),
    (32_020, Turn::Keeps(1, 2)),
    (
        32_020,
        Turn::ToldOf(
            1,
            "1 32020 192.0.2.1:5060 OPTIONS bob 408\ntarget 0 408 since - left - sip:bob@192.0.2.4\n",
        ),
    ),
    (32_020, Turn::Leaves),
    (32_020, Turn::WritesNothing),
    (32_020, Turn::Counts("forkproxy_calls_journaled_total 0")),
    (32_020, Turn::Counts("forkproxy_calls_unwritten_total 0")),
];

#[test]
fn a_call_that_is_over_is_forgotten_and_written_down(rt: HostRuntime) {
    let alloc = rt.alloc();
    plays(&rt, alloc, PLAIN, SUCCESS, "a call that was answered");
    plays(&rt, alloc, PLAIN, FAILURE, "a call that failed");
    plays(&rt, alloc, PLAIN, TIMEOUT, "a call that timed out");
    plays(&rt, alloc, PLAIN, STEPS, "a call between two steps");
    plays(&rt, alloc, PLAIN, CLASSES, "each class");
    plays(&rt, alloc, PLAIN, WHYS, "two whys");
    plays(&rt, alloc, UNWRITTEN, NO_JOURNAL, "no journal");
}
