//! What a service answers by itself, what it adds to requests and to a 100, and for which addresses it is the domain.
use crate::played::{Moment, PLAIN, Served, Turn, plays};
use crate::texts::{
    ASKED, BESIDE, BOB, BYE, CALLER, CANCEL, CONFIGURATION, INVITE, OPTIONS, Request,
};

// ---- Record-Route

const RECORDS: Served = Served {
    records: true,
    ..PLAIN
};

/// The proxy's own line.
const OWN_LINE: &str = "\r\nRecord-Route: <sip:192.0.2.9:5060;lr>\r\n";

/// An INVITE that another proxy has recorded itself in.
const RECORDED_BEFORE: Request = Request {
    call: "before",
    lines: "Record-Route: <sip:192.0.2.8;lr>\r\n",
    ..INVITE
};

/// An INVITE in a dialog.
const REINVITE: Request = Request {
    uri: "sip:bob@192.0.2.4",
    call: "again",
    tag: ";tag=9",
    ..INVITE
};

/// With Record-Route: an INVITE outside of a dialog has the line, and no request within a dialog or of another method has it.
const RECORDING: &[Moment] = &[
    (0, Turn::Asks(INVITE)),
    (0, Turn::Sends(CALLER, "SIP/2.0 100 ", "one")),
    (0, Turn::Lacks("Record-Route")),
    (
        0,
        Turn::Sends(BOB, "INVITE sip:bob@192.0.2.4 SIP/2.0\r\n", "one"),
    ),
    (0, Turn::Has(OWN_LINE)),
    (0, Turn::SendsNothing),
    (10, Turn::Asks(INVITE)),
    (10, Turn::Sends(CALLER, "SIP/2.0 100 ", "one")),
    (10, Turn::SendsNothing),
    (20, Turn::Asks(RECORDED_BEFORE)),
    (20, Turn::Sends(CALLER, "SIP/2.0 100 ", "before")),
    (20, Turn::Sends(BOB, "INVITE ", "before")),
    (20, Turn::Has("Record-Route: <sip:192.0.2.9:5060;lr>\r\n")),
    (30, Turn::Asks(REINVITE)),
    (30, Turn::Sends(CALLER, "SIP/2.0 100 ", "again")),
    (30, Turn::Sends(BOB, "INVITE ", "again")),
    (30, Turn::Lacks("Record-Route")),
    (40, Turn::Asks(BYE)),
    (40, Turn::Sends(BOB, "BYE ", "bye")),
    (40, Turn::Lacks("Record-Route")),
    (
        50,
        Turn::Asks(Request {
            call: "options",
            ..OPTIONS
        }),
    ),
    (50, Turn::Sends(BOB, "OPTIONS ", "options")),
    (50, Turn::Lacks("Record-Route")),
];

/// Without it no request has the line.
const NOT_RECORDING: &[Moment] = &[
    (0, Turn::Asks(INVITE)),
    (0, Turn::Sends(CALLER, "SIP/2.0 100 ", "one")),
    (0, Turn::Sends(BOB, "INVITE ", "one")),
    (0, Turn::Lacks("Record-Route")),
];

#[test]
fn an_invite_is_recorded_where_that_is_asked_for(rt: HostRuntime) {
    let alloc = rt.alloc();
    plays(&rt, alloc, RECORDS, RECORDING, "with Record-Route");
    plays(&rt, alloc, PLAIN, NOT_RECORDING, "without Record-Route");
}

// ---- Timestamp

/// An INVITE with two Timestamp lines.
const STAMPED: Request = Request {
    lines: "Timestamp: 54.1\r\nTimestamp: 7\r\n",
    ..INVITE
};

/// A 100 has the first Timestamp line of its request, and so has the 100 to a repeat; a 100 to a request without one has none.
const STAMPING: &[Moment] = &[
    (0, Turn::Asks(STAMPED)),
    (0, Turn::Sends(CALLER, "SIP/2.0 100 ", "one")),
    (
        0,
        Turn::Has("\r\nTimestamp: 54.1\r\nContent-Length: 0\r\n\r\n"),
    ),
    (0, Turn::Lacks("Timestamp: 7")),
    (0, Turn::Sends(BOB, "INVITE ", "one")),
    (20, Turn::Asks(STAMPED)),
    (20, Turn::Sends(CALLER, "SIP/2.0 100 ", "one")),
    (
        20,
        Turn::Has("\r\nTimestamp: 54.1\r\nContent-Length: 0\r\n\r\n"),
    ),
    (
        30,
        Turn::Asks(Request {
            call: "two",
            ..INVITE
        }),
    ),
    (30, Turn::Sends(CALLER, "SIP/2.0 100 ", "two")),
    (30, Turn::Lacks("Timestamp")),
];

#[test]
fn a_100_has_the_timestamp_of_its_request(rt: HostRuntime) {
    plays(&rt, rt.alloc(), PLAIN, STAMPING, "a Timestamp");
}

// ---- Reason

const REASON: &str = "\r\nReason: SIP;cause=487;text=\"hung up\"\r\n";

/// A CANCEL that says why.
const REASONED: Request = Request {
    lines: "Reason: SIP;cause=487;text=\"hung up\"\r\n",
    ..CANCEL
};

/// The CANCEL of a branch says what the caller's has said.
const GIVING_REASONS: &[Moment] = &[
    (0, Turn::Asks(INVITE)),
    (0, Turn::Sends(CALLER, "SIP/2.0 100 ", "one")),
    (0, Turn::Sends(BOB, "INVITE ", "one")),
    (
        10,
        Turn::Answers(BOB, "INVITE", "one", "SIP/2.0 180 Ringing"),
    ),
    (10, Turn::Sends(CALLER, "SIP/2.0 180 ", "one")),
    (20, Turn::Asks(REASONED)),
    (20, Turn::Sends(CALLER, "SIP/2.0 200 ", "one")),
    (20, Turn::Sends(BOB, "CANCEL ", "one")),
    (20, Turn::Has(REASON)),
];

#[test]
fn a_cancel_says_why(rt: HostRuntime) {
    plays(&rt, rt.alloc(), PLAIN, GIVING_REASONS, "a Reason");
}

// ---- OPTIONS

/// The service has one place for a call.
const ONE: Served = Served {
    most_calls: 1,
    ..PLAIN
};

/// An OPTIONS request to the proxy's own address, one in a dialog, and one to another user.
const ASKED_AT_ADDRESS: Request = Request {
    uri: "sip:192.0.2.9:5060",
    call: "address",
    ..ASKED
};

const ASKED_IN_DIALOG: Request = Request {
    call: "inside",
    tag: ";tag=9",
    ..ASKED
};

/// The proxy answers an OPTIONS request to itself, counts it as answered, and keeps no place for it.
const ASKING: &[Moment] = &[
    (0, Turn::Asks(ASKED)),
    (0, Turn::Sends(CALLER, "SIP/2.0 200 OK\r\n", "asked")),
    (
        0,
        Turn::Has("\r\nAllow: INVITE, ACK, CANCEL, OPTIONS, BYE\r\n"),
    ),
    (0, Turn::Has("\r\nAccept: application/sdp\r\n")),
    (10, Turn::Asks(ASKED_AT_ADDRESS)),
    (10, Turn::Sends(CALLER, "SIP/2.0 200 OK\r\n", "address")),
    (20, Turn::Asks(ASKED_IN_DIALOG)),
    (20, Turn::Sends(CALLER, "SIP/2.0 480 ", "inside")),
    (30, Turn::Asks(ASKED)),
    (30, Turn::Sends(CALLER, "SIP/2.0 200 OK\r\n", "asked")),
    (30, Turn::SendsNothing),
    (
        30,
        Turn::Counts("forkproxy_answered_total{status=\"200\"} 3"),
    ),
    (
        30,
        Turn::Counts("forkproxy_answered_total{status=\"480\"} 1"),
    ),
    (30, Turn::Counts("forkproxy_turned_away_total 0")),
    (30, Turn::Keeps(0, 0)),
    (40, Turn::Asks(INVITE)),
    (40, Turn::Sends(CALLER, "SIP/2.0 100 ", "one")),
    (40, Turn::Sends(BOB, "INVITE ", "one")),
    (50, Turn::Asks(ASKED)),
    (50, Turn::Sends(CALLER, "SIP/2.0 503 ", "asked")),
    (
        50,
        Turn::Counts("forkproxy_answered_total{status=\"200\"} 3"),
    ),
    (50, Turn::Counts("forkproxy_turned_away_total 1")),
];

#[test]
fn the_proxy_answers_what_is_asked_of_itself_while_it_has_room(rt: HostRuntime) {
    plays(&rt, rt.alloc(), ONE, ASKING, "OPTIONS to the proxy");
}

// ---- the own address

const OWN_PORT: Served = Served {
    own_port: true,
    ..PLAIN
};

/// A request to another port of the own address.
const TO_BESIDE: Request = Request {
    uri: "sip:bob@192.0.2.9:5081",
    call: "beside",
    ..OPTIONS
};

/// With the own port alone, another port of the own address is a telephone's, also once the configuration was read anew.
const BY_OWN_PORT: &[Moment] = &[
    (0, Turn::Asks(TO_BESIDE)),
    (
        0,
        Turn::Sends(
            BESIDE,
            "OPTIONS sip:bob@192.0.2.9:5081 SIP/2.0\r\n",
            "beside",
        ),
    ),
    (0, Turn::SendsNothing),
    (
        10,
        Turn::Asks(Request {
            uri: "sip:bob@192.0.2.9",
            ..OPTIONS
        }),
    ),
    (10, Turn::Sends(BOB, "OPTIONS sip:bob@192.0.2.4 ", "one")),
    (20, Turn::Reloads(CONFIGURATION, Ok(()))),
    (
        30,
        Turn::Asks(Request {
            call: "anew",
            ..TO_BESIDE
        }),
    ),
    (30, Turn::Sends(BESIDE, "OPTIONS ", "anew")),
    (30, Turn::SendsNothing),
];

/// Else each port of it is the domain's.
const BY_ANY_PORT: &[Moment] = &[
    (0, Turn::Asks(TO_BESIDE)),
    (0, Turn::Sends(BOB, "OPTIONS sip:bob@192.0.2.4 ", "beside")),
    (0, Turn::SendsNothing),
];

#[test]
fn a_telephone_at_the_own_address_is_reached_by_its_port(rt: HostRuntime) {
    let alloc = rt.alloc();
    plays(&rt, alloc, OWN_PORT, BY_OWN_PORT, "with the own port");
    plays(&rt, alloc, PLAIN, BY_ANY_PORT, "with any port");
}

// ---- own Route values

/// A request by the proxy, three times over.
const ROUTED: Request = Request {
    lines: "Route: <sip:192.0.2.9:5060;lr>, <sip:192.0.2.9;lr>\r\nRoute: <sip:192.0.2.9:5060;lr>\r\n",
    ..OPTIONS
};

const ROUTED_ANEW: Request = Request {
    call: "anew",
    ..ROUTED
};

/// It opens one call, which is sent to bob.
const ROUTES: &[Moment] = &[
    (0, Turn::Asks(ROUTED)),
    (0, Turn::Sends(BOB, "OPTIONS sip:bob@192.0.2.4 ", "one")),
    (0, Turn::Lacks("\r\nRoute:")),
    (0, Turn::SendsNothing),
    (0, Turn::Keeps(1, 1)),
    (10, Turn::Reloads(CONFIGURATION, Ok(()))),
    (20, Turn::Asks(ROUTED_ANEW)),
    (20, Turn::Sends(BOB, "OPTIONS sip:bob@192.0.2.4 ", "anew")),
    (20, Turn::Lacks("\r\nRoute:")),
    (20, Turn::SendsNothing),
    (20, Turn::Keeps(2, 2)),
];

#[test]
fn a_request_by_the_proxy_itself_opens_one_call(rt: HostRuntime) {
    plays(&rt, rt.alloc(), PLAIN, ROUTES, "own Route values");
}
