//! A service that is full.
use crate::played::{Moment, PLAIN, Served, Turn, plays};
use crate::texts::{ACK, ASKED, BOB, BYE, CALLER, CANCEL, INVITE, OPTIONS, Request};

/// The service keeps one call, and one within a dialog.
const ONE: Served = Served {
    most_calls: 1,
    ..PLAIN
};

/// A new INVITE, and what belongs to it.
const NEW: Request = Request {
    call: "new",
    ..INVITE
};

const NEW_ACK: Request = Request { call: "new", ..ACK };

const NEW_CANCEL: Request = Request {
    call: "new",
    ..CANCEL
};

/// A second request within a dialog, and an ACK of one.
const SECOND_BYE: Request = Request {
    call: "second",
    ..BYE
};

const DIALOG_ACK: Request = Request {
    method: "ACK",
    call: "acknowledged",
    ..BYE
};

/// While a call is kept that is the only one: what begins something new is turned away, and nothing else is.
const FULL: &[Moment] = &[
    (0, Turn::Asks(INVITE)),
    (0, Turn::Sends(CALLER, "SIP/2.0 100 ", "one")),
    (0, Turn::Sends(BOB, "INVITE ", "one")),
    (10, Turn::Asks(NEW)),
    (
        10,
        Turn::Sends(CALLER, "SIP/2.0 503 Service Unavailable\r\n", "new"),
    ),
    (10, Turn::Has("\r\nRetry-After: 10\r\n")),
    (10, Turn::SendsNothing),
    (20, Turn::Acknowledges(NEW_ACK)),
    (20, Turn::SendsNothing),
    (20, Turn::Counts("forkproxy_absorbed_total 1")),
    (30, Turn::Asks(NEW_CANCEL)),
    (30, Turn::Sends(CALLER, "SIP/2.0 481 ", "new")),
    (40, Turn::Asks(INVITE)),
    (40, Turn::Sends(CALLER, "SIP/2.0 100 ", "one")),
    (50, Turn::Asks(DIALOG_ACK)),
    (50, Turn::Sends(BOB, "ACK ", "acknowledged")),
    (60, Turn::Asks(BYE)),
    (60, Turn::Sends(BOB, "BYE ", "bye")),
    (70, Turn::Asks(SECOND_BYE)),
    (70, Turn::Sends(CALLER, "SIP/2.0 503 ", "second")),
    (80, Turn::Asks(DIALOG_ACK)),
    (80, Turn::Sends(BOB, "ACK ", "acknowledged")),
    (85, Turn::Asks(BYE)),
    (85, Turn::SendsNothing),
    (
        90,
        Turn::Answers(BOB, "INVITE", "one", "SIP/2.0 180 Ringing"),
    ),
    (90, Turn::Sends(CALLER, "SIP/2.0 180 ", "one")),
    (100, Turn::Asks(CANCEL)),
    (100, Turn::Sends(CALLER, "SIP/2.0 200 ", "one")),
    (100, Turn::Sends(BOB, "CANCEL ", "one")),
    (100, Turn::SendsNothing),
    (100, Turn::Counts("forkproxy_turned_away_total 2")),
    (100, Turn::Counts("forkproxy_calls 2")),
    (100, Turn::Counts("forkproxy_calls_opened_total 2")),
    (100, Turn::Counts("forkproxy_forwarded_total 2")),
    (
        100,
        Turn::Counts("forkproxy_answered_total{status=\"481\"} 1"),
    ),
    (
        100,
        Turn::Counts("forkproxy_answered_total{status=\"other\"} 0"),
    ),
];

/// An OPTIONS request that is answered 404.
const REFUSED: Request = Request {
    call: "refused",
    ..OPTIONS
};

/// A place is given back exactly when its call is forgotten: 32 seconds after its last answer.
const PLACE: &[Moment] = &[
    (0, Turn::Asks(REFUSED)),
    (0, Turn::Sends(BOB, "OPTIONS ", "refused")),
    (
        20,
        Turn::Answers(BOB, "OPTIONS", "refused", "SIP/2.0 404 Not Found"),
    ),
    (20, Turn::Sends(CALLER, "SIP/2.0 404 ", "refused")),
    (32_019, Turn::Passes(20)),
    (32_019, Turn::Keeps(1, 1)),
    (32_019, Turn::Asks(NEW)),
    (32_019, Turn::Sends(CALLER, "SIP/2.0 503 ", "new")),
    (32_020, Turn::Ticks),
    (32_020, Turn::Keeps(0, 1)),
    (32_020, Turn::Counts("forkproxy_calls_forgotten_total 1")),
    (32_020, Turn::Asks(NEW)),
    (32_020, Turn::Sends(CALLER, "SIP/2.0 100 ", "new")),
    (32_020, Turn::Sends(BOB, "INVITE ", "new")),
    (32_020, Turn::Keeps(1, 2)),
    (32_030, Turn::Asks(OPTIONS)),
    (32_030, Turn::Sends(CALLER, "SIP/2.0 503 ", "one")),
    (32_030, Turn::SendsNothing),
];

/// What opens no call gives its place back at once.
const NO_CALL: &[Moment] = &[
    (0, Turn::Brings(CALLER, "no message")),
    (0, Turn::Brings(CALLER, "\r\n\r\n")),
    (
        10,
        Turn::Asks(Request {
            uri: "sip:eve@example.com",
            ..INVITE
        }),
    ),
    (10, Turn::Sends(CALLER, "SIP/2.0 480 ", "one")),
    (
        20,
        Turn::Asks(Request {
            uri: "tel:1",
            ..INVITE
        }),
    ),
    (20, Turn::Sends(CALLER, "SIP/2.0 416 ", "one")),
    (30, Turn::Asks(NEW_CANCEL)),
    (30, Turn::Sends(CALLER, "SIP/2.0 481 ", "new")),
    (40, Turn::Asks(ASKED)),
    (40, Turn::Sends(CALLER, "SIP/2.0 200 ", "asked")),
    (50, Turn::Asks(DIALOG_ACK)),
    (50, Turn::Sends(BOB, "ACK ", "acknowledged")),
    (60, Turn::Asks(INVITE)),
    (60, Turn::Sends(CALLER, "SIP/2.0 100 ", "one")),
    (60, Turn::Sends(BOB, "INVITE ", "one")),
    (70, Turn::Asks(INVITE)),
    (70, Turn::Sends(CALLER, "SIP/2.0 100 ", "one")),
    (80, Turn::Asks(NEW)),
    (80, Turn::Sends(CALLER, "SIP/2.0 503 ", "new")),
    (80, Turn::Counts("forkproxy_dropped_total 1")),
    (80, Turn::Counts("forkproxy_keepalives_total 1")),
    (
        80,
        Turn::Counts("forkproxy_answered_total{status=\"416\"} 1"),
    ),
    (
        80,
        Turn::Counts("forkproxy_answered_total{status=\"480\"} 1"),
    ),
    (
        80,
        Turn::Counts("forkproxy_answered_total{status=\"200\"} 1"),
    ),
    (80, Turn::Counts("forkproxy_delivered_total 1")),
    (80, Turn::Counts("forkproxy_turned_away_total 1")),
    (80, Turn::Keeps(1, 1)),
];

#[test]
fn a_full_service_turns_away_what_begins_something_new(rt: HostRuntime) {
    plays(&rt, rt.alloc(), ONE, FULL, "a full service");
}

#[test]
fn a_place_is_given_back_as_its_call_is_forgotten(rt: HostRuntime) {
    plays(&rt, rt.alloc(), ONE, PLACE, "a call that is over");
    plays(&rt, rt.alloc(), ONE, NO_CALL, "what opens no call");
}
