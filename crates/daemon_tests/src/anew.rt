//! A configuration that is read anew.
use crate::played::{Moment, PLAIN, Served, Turn, plays, plays_by};
use crate::texts::{
    ASKED, BESIDE, BOB, CALLER, CAROL, CAROL_AFTERWARDS, CONFIGURATION, INVITE, OPTIONS, Request,
};
use service_admission::ServiceState;
use service_files::DaemonFault;

/// Keeps to all that an option asks for.
const ALL: Served = Served {
    records: true,
    own_port: true,
    most_calls: 2,
    has_journal: true,
    has_store: false,
};

/// Bob has another telephone, and carol has none.
const MOVED: &[u8] =
    b"own 192.0.2.9 5060\ninstance 7\ndomain example.com\ntrust 192.0.2.0/24\nlocation bob 1000 sip:bob@192.0.2.5\n";

/// Another line is malformed, and another one is missing.
const MALFORMED: &[u8] = b"own 192.0.2.9 5060\ninstance 7\ndomain example.com\nlocation bob\n";

/// The same without a line of an instance: the malformed line is told by its number in the file.
const MALFORMED_TOO: &[u8] = b"own 192.0.2.9 5060\ndomain example.com\nlocation bob\n";

const EMPTY: &[u8] = b"";

/// Another instance, another port, no line of an instance, and no line of the own address.
const OTHER_INSTANCE: &[u8] =
    b"own 192.0.2.9 5060\ninstance 8\ndomain example.com\nlocation bob 1000 sip:bob@192.0.2.5\n";

const OTHER_PORT: &[u8] =
    b"own 192.0.2.9 5061\ninstance 7\ndomain example.com\nlocation bob 1000 sip:bob@192.0.2.5\n";

const NO_INSTANCE: &[u8] =
    b"own 192.0.2.9 5060\ndomain example.com\ntrust 192.0.2.0/24\nlocation bob 1000 sip:bob@192.0.2.5\n";

/// A request to carol, whose telephones are tried one after the other.
const TO_CAROL: Request = Request {
    uri: "sip:carol@example.com",
    call: "carol",
    ..OPTIONS
};

const TO_CAROL_AGAIN: Request = Request {
    call: "again",
    ..TO_CAROL
};

/// What is refused leaves the configuration before; what is taken holds for requests that come later, and calls keep what they have.
const TAKING: &[Moment] = &[
    (0, Turn::Reloads(MALFORMED, Err(DaemonFault::Line(4)))),
    (0, Turn::Reloads(EMPTY, Err(DaemonFault::Line(1)))),
    (0, Turn::Reloads(OTHER_INSTANCE, Err(DaemonFault::Identity))),
    (0, Turn::Reloads(OTHER_PORT, Err(DaemonFault::Identity))),
    (0, Turn::Reloads(NO_INSTANCE, Err(DaemonFault::Identity))),
    (10, Turn::Asks(TO_CAROL)),
    (
        10,
        Turn::Sends(CAROL, "OPTIONS sip:carol@192.0.2.5 ", "carol"),
    ),
    (20, Turn::Reloads(MOVED, Ok(()))),
    (
        30,
        Turn::Answers(CAROL, "OPTIONS", "carol", "SIP/2.0 404 Not Found"),
    ),
    (
        30,
        Turn::Sends(CAROL_AFTERWARDS, "OPTIONS sip:carol@192.0.2.6 ", "carol"),
    ),
    (40, Turn::Asks(TO_CAROL)),
    (40, Turn::SendsNothing),
    (50, Turn::Asks(TO_CAROL_AGAIN)),
    (50, Turn::Sends(CALLER, "SIP/2.0 480 ", "again")),
    (60, Turn::Asks(OPTIONS)),
    (60, Turn::Sends(CAROL, "OPTIONS sip:bob@192.0.2.5 ", "one")),
    (70, Turn::Reloads(MALFORMED, Err(DaemonFault::Line(4)))),
    (80, Turn::Counts("forkproxy_calls 2")),
    (80, Turn::SendsNothing),
];

/// A request to a telephone at the own address.
const TO_BESIDE: Request = Request {
    uri: "sip:bob@192.0.2.9:5081",
    call: "beside",
    ..OPTIONS
};

/// Each limit and each option holds as before, and a service that ends goes on to do so.
const LIMITS: &[Moment] = &[
    (0, Turn::Reloads(CONFIGURATION, Ok(()))),
    (10, Turn::Asks(INVITE)),
    (10, Turn::Sends(CALLER, "SIP/2.0 100 ", "one")),
    (10, Turn::Sends(BOB, "INVITE ", "one")),
    (
        10,
        Turn::Has("\r\nRecord-Route: <sip:192.0.2.9:5060;lr>\r\n"),
    ),
    (20, Turn::Asks(TO_BESIDE)),
    (20, Turn::Sends(BESIDE, "OPTIONS ", "beside")),
    (30, Turn::Reloads(CONFIGURATION, Ok(()))),
    (40, Turn::Asks(TO_CAROL)),
    (40, Turn::Sends(CALLER, "SIP/2.0 503 ", "carol")),
    (40, Turn::Keeps(2, 2)),
    (50, Turn::Stops(10)),
    (50, Turn::Reloads(CONFIGURATION, Ok(()))),
    (50, Turn::Is(ServiceState::Draining)),
    (60, Turn::Asks(ASKED)),
    (60, Turn::Sends(CALLER, "SIP/2.0 503 ", "asked")),
    (10_049, Turn::Passes(60)),
    (10_049, Turn::Is(ServiceState::Draining)),
    (10_050, Turn::Ticks),
    (10_050, Turn::Is(ServiceState::Ended)),
    (10_050, Turn::Reloads(CONFIGURATION, Ok(()))),
    (10_050, Turn::Is(ServiceState::Ended)),
    (10_050, Turn::Leaves),
    (10_050, Turn::Writes("0 INVITE ")),
    (10_050, Turn::Writes("1 OPTIONS ")),
    (10_050, Turn::WritesNothing),
];

/// A configuration without a line of an instance has the number of the run; one that has the line is another one then.
const NUMBERED: &[Moment] = &[
    (0, Turn::Reloads(NO_INSTANCE, Ok(()))),
    (10, Turn::Asks(OPTIONS)),
    (10, Turn::Sends(CAROL, "OPTIONS sip:bob@192.0.2.5 ", "one")),
    (10, Turn::Reloads(CONFIGURATION, Err(DaemonFault::Identity))),
    (10, Turn::Reloads(MALFORMED_TOO, Err(DaemonFault::Line(3)))),
    (10, Turn::Answers(CAROL, "OPTIONS", "one", "SIP/2.0 200 OK")),
    (10, Turn::Sends(CALLER, "SIP/2.0 200 ", "one")),
];

#[test]
fn a_configuration_is_read_anew_by_whole_ones_alone(rt: HostRuntime) {
    let alloc = rt.alloc();
    plays(&rt, alloc, PLAIN, TAKING, "what is taken");
    plays_by(
        &rt,
        alloc,
        NO_INSTANCE,
        PLAIN,
        NUMBERED,
        "without an instance",
    );
}

#[test]
fn a_configuration_that_is_read_anew_changes_no_limit(rt: HostRuntime) {
    plays(&rt, rt.alloc(), ALL, LIMITS, "what stays");
}
