//! What a service counts of the datagrams that come.
use crate::played::{Moment, PLAIN, Turn, plays};
use crate::texts::{ACK, ASKED, BOB, BYE, CALLER, CANCEL, INVITE, OPTIONS, Request};

/// A request that may go no further.
const TOO_FAR: &str =
    "OPTIONS sip:bob@example.com SIP/2.0\r\nVia: SIP/2.0/UDP 192.0.2.1:5060;branch=z9hG4bKfar\r\nMax-Forwards: 0\r\nFrom: <sip:alice@example.com>;tag=1\r\nTo: <sip:bob@example.com>\r\nCall-ID: far\r\nCSeq: 1 OPTIONS\r\nContent-Length: 0\r\n\r\n";

/// Requests that are answered without a call, each by a status of its own.
const BAD_ROUTE: Request = Request {
    call: "route",
    lines: "Route: none\r\n",
    ..OPTIONS
};

const OTHER_SCHEME: Request = Request {
    uri: "tel:1",
    call: "scheme",
    ..OPTIONS
};

const REQUIRING: Request = Request {
    call: "requiring",
    lines: "Proxy-Require: wings\r\n",
    ..OPTIONS
};

const UNKNOWN: Request = Request {
    uri: "sip:eve@example.com",
    call: "unknown",
    ..OPTIONS
};

const NO_HOP: Request = Request {
    call: "hop",
    lines: "Route: <sip:proxy.example.org;lr>\r\n",
    ..OPTIONS
};

const STRAY_CANCEL: Request = Request {
    call: "stray",
    ..CANCEL
};

/// An ACK of a dialog.
const DIALOG_ACK: Request = Request {
    method: "ACK",
    call: "acknowledged",
    ..BYE
};

/// An INVITE that the proxy answers 480, the ACK of that, and an ACK of nothing.
const UNKNOWN_INVITE: Request = Request {
    method: "INVITE",
    call: "invited",
    ..UNKNOWN
};

const UNKNOWN_ACK: Request = Request {
    method: "ACK",
    call: "invited",
    ..UNKNOWN
};

const STRAY_ACK: Request = Request {
    call: "stray",
    ..ACK
};

const STATUSES: &[Moment] = &[
    (0, Turn::Asks(ASKED)),
    (0, Turn::Sends(CALLER, "SIP/2.0 200 ", "asked")),
    (0, Turn::Asks(BAD_ROUTE)),
    (0, Turn::Sends(CALLER, "SIP/2.0 400 ", "route")),
    (0, Turn::Asks(OTHER_SCHEME)),
    (0, Turn::Sends(CALLER, "SIP/2.0 416 ", "scheme")),
    (0, Turn::Asks(REQUIRING)),
    (0, Turn::Sends(CALLER, "SIP/2.0 420 ", "requiring")),
    (0, Turn::Asks(UNKNOWN)),
    (0, Turn::Sends(CALLER, "SIP/2.0 480 ", "unknown")),
    (0, Turn::Asks(STRAY_CANCEL)),
    (0, Turn::Sends(CALLER, "SIP/2.0 481 ", "stray")),
    (0, Turn::Brings(CALLER, TOO_FAR)),
    (0, Turn::Sends(CALLER, "SIP/2.0 483 ", "far")),
    (0, Turn::Asks(NO_HOP)),
    (0, Turn::Sends(CALLER, "SIP/2.0 500 ", "hop")),
    (0, Turn::SendsNothing),
    (0, Turn::Keeps(0, 0)),
    (0, Turn::Asks(OPTIONS)),
    (0, Turn::Sends(BOB, "OPTIONS ", "one")),
    (0, Turn::Returns(BOB, "OPTIONS", "one")),
    (0, Turn::Sends(BOB, "OPTIONS ", "one")),
    (0, Turn::Returns(BOB, "OPTIONS", "one")),
    (0, Turn::Sends(BOB, "SIP/2.0 482 ", "one")),
    (0, Turn::SendsNothing),
    (5_400, Turn::Counts("forkproxy_uptime_seconds 5")),
    (5_400, Turn::Has("\nprocess_resident_memory_bytes 4096\n")),
    (5_400, Turn::Has("\nforkproxy_calls 2\n")),
    (
        5_400,
        Turn::Has("\nforkproxy_answered_total{status=\"200\"} 1\n"),
    ),
    (
        5_400,
        Turn::Has("\nforkproxy_answered_total{status=\"400\"} 1\n"),
    ),
    (
        5_400,
        Turn::Has("\nforkproxy_answered_total{status=\"416\"} 1\n"),
    ),
    (
        5_400,
        Turn::Has("\nforkproxy_answered_total{status=\"420\"} 1\n"),
    ),
    (
        5_400,
        Turn::Has("\nforkproxy_answered_total{status=\"480\"} 1\n"),
    ),
    (
        5_400,
        Turn::Has("\nforkproxy_answered_total{status=\"481\"} 1\n"),
    ),
    (
        5_400,
        Turn::Has("\nforkproxy_answered_total{status=\"482\"} 1\n"),
    ),
    (
        5_400,
        Turn::Has("\nforkproxy_answered_total{status=\"483\"} 1\n"),
    ),
    (
        5_400,
        Turn::Has("\nforkproxy_answered_total{status=\"500\"} 1\n"),
    ),
    (
        5_400,
        Turn::Has("\nforkproxy_answered_total{status=\"other\"} 0\n"),
    ),
    (5_400, Turn::Has("\nforkproxy_turned_away_total 0\n")),
];

/// What a call takes, what is sent on without one, what is absorbed, and what is dropped.
const FATES: &[Moment] = &[
    (0, Turn::Asks(INVITE)),
    (0, Turn::Counts("forkproxy_delivered_total 0")),
    (0, Turn::Has("\nforkproxy_calls_opened_total 1\n")),
    (0, Turn::Asks(INVITE)),
    (
        10,
        Turn::Answers(BOB, "INVITE", "one", "SIP/2.0 180 Ringing"),
    ),
    (20, Turn::Asks(CANCEL)),
    (30, Turn::Answers(BOB, "CANCEL", "one", "SIP/2.0 200 OK")),
    (
        40,
        Turn::Answers(BOB, "INVITE", "one", "SIP/2.0 487 Request Terminated"),
    ),
    (50, Turn::Asks(ACK)),
    (50, Turn::Counts("forkproxy_delivered_total 6")),
    (50, Turn::Has("\nforkproxy_dropped_total 0\n")),
    (60, Turn::Asks(DIALOG_ACK)),
    (60, Turn::Counts("forkproxy_forwarded_total 1")),
    (60, Turn::Has("\nforkproxy_absorbed_total 0\n")),
    (70, Turn::Skips),
    (70, Turn::Asks(UNKNOWN_INVITE)),
    (70, Turn::Sends(CALLER, "SIP/2.0 480 ", "invited")),
    (80, Turn::Acknowledges(UNKNOWN_ACK)),
    (80, Turn::Counts("forkproxy_absorbed_total 1")),
    (80, Turn::Has("\nforkproxy_dropped_total 0\n")),
    (80, Turn::Asks(STRAY_ACK)),
    (80, Turn::Counts("forkproxy_absorbed_total 1")),
    (80, Turn::Has("\nforkproxy_dropped_total 1\n")),
    (80, Turn::SendsNothing),
    (90, Turn::Brings(CALLER, "\r\n\r\n")),
    (90, Turn::Brings(BOB, "SIP/2.0 200 OK\r\n\r\n")),
    (90, Turn::Brings(CALLER, "\0\0\0\0")),
    (90, Turn::Counts("forkproxy_dropped_total 2")),
    (90, Turn::Has("\nforkproxy_keepalives_total 2\n")),
    (90, Turn::Has("\nforkproxy_no_memory_total 0\n")),
];

#[test]
fn what_comes_is_counted_by_what_becomes_of_it(rt: HostRuntime) {
    let alloc = rt.alloc();
    plays(&rt, alloc, PLAIN, STATUSES, "answers without a call");
    plays(&rt, alloc, PLAIN, FATES, "all else");
}
