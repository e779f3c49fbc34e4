//! What a text sets a proxy up with, and which of its lines is malformed.
use crate::holds::holds;
use fork_rank::Rules;
use proxy_config::{Location, Setup, SetupFault, locations_are_targets, read_address};
use sip_lex::append_decimal;
use sip_uri::{Hop, Transport};
use sip_via::Own;
use std::alloc::Global;
use std::process::Abort;

/// The lines of one setup.
const LINES: [&[u8]; 4] = [
    b"own 192.0.2.9 5060",
    b"instance 7",
    b"domain example.com",
    b"location bob 1000 sip:bob@192.0.2.4",
];

/// What has to stand before any rule or location.
const HEAD: &[u8] = b"own 192.0.2.9 5060\ninstance 7\ndomain example.com\n";

/// Puts a line behind a text, and says whether there was memory for it.
fn add_line(text: &mut Vec<u8>, line: &[u8]) -> bool {
    text.extend_from_slice(line).is_ok() && text.push(b'\n').is_ok()
}

/// The same of these lines, but with this one in the place of that of a number from 1.
fn add_lines(text: &mut Vec<u8>, lines: &[&[u8]], number: usize, other: &[u8]) -> bool {
    let mut well = true;
    for (n, line) in lines.iter().enumerate() {
        well = well && add_line(text, if n + 1 == number { other } else { *line });
    }
    well
}

/// The text of such lines.
fn lines_with(alloc: Global, lines: &[&[u8]], number: usize, other: &[u8]) -> Option<Vec<u8>> {
    let mut text = Vec::new(alloc);
    if add_lines(&mut text, lines, number, other) {
        Some(text)
    } else {
        None
    }
}

/// A text behind another.
fn joined(alloc: Global, front: &[u8], rest: &[u8]) -> Option<Vec<u8>> {
    let mut text = Vec::new(alloc);
    if text.extend_from_slice(front).is_ok() && text.extend_from_slice(rest).is_ok() {
        Some(text)
    } else {
        None
    }
}

/// The fault that a text has, if any.
fn fault_of(alloc: Global, text: &[u8]) -> Option<SetupFault> {
    match Setup::read(alloc, text) {
        Ok(_) => None,
        Err(fault) => Some(fault),
    }
}

/// The number of the first malformed line, 0 where there is none; None where there was no memory.
fn malformed(alloc: Global, text: &[u8]) -> Option<usize> {
    match fault_of(alloc, text) {
        None => Some(0),
        Some(SetupFault::Line(number)) => Some(number),
        Some(_) => None,
    }
}

/// The same for the lines of one setup, but with this one in the place of that of a number from 1.
fn malformed_with(alloc: Global, number: usize, other: &[u8]) -> Option<usize> {
    match lines_with(alloc, &LINES, number, other) {
        Some(text) => malformed(alloc, &text),
        None => None,
    }
}

/// The same for these lines behind the first three.
fn malformed_behind(alloc: Global, rest: &[u8]) -> Option<usize> {
    match joined(alloc, HEAD, rest) {
        Some(text) => malformed(alloc, &text),
        None => None,
    }
}

/// What a text sets up.
fn setup_of(alloc: Global, text: &[u8]) -> Option<Setup<Global>> {
    match Setup::read(alloc, text) {
        Ok(setup) => Some(setup),
        Err(_) => None,
    }
}

/// Whether a location is this user's, at this q, and a request to it goes to this place.
fn is_location(location: &Location, user: &[u8], q: u16, hop: Hop) -> bool {
    location.user() == user
        && location.q() == q
        && location.uri().next_hop() == Some(hop)
        && location.next_hop() == Some(hop)
}

/// Checks all that the lines of one setup say.
fn check(rt: &impl Abort, setup: &Setup<Global>) {
    let own = Own::over_udp([192, 0, 2, 9], 5060);
    holds(rt, setup.own() == own, "the own address");
    holds(rt, setup.instance() == 7, "the instance");
    holds(
        rt,
        setup.domain() == b"example.com".as_slice(),
        "the domain",
    );
    holds(rt, setup.rules() == Rules::usual(), "the usual rules");
    let hop = Hop::over_udp([192, 0, 2, 4], 5060);
    match setup.locations() {
        [location] => holds(rt, is_location(location, b"bob", 1000, hop), "the location"),
        _ => holds(rt, false, "one location"),
    }
}

/// Checks that any port counts, and all that the lines of one setup say.
fn check_any_port(rt: &impl Abort, setup: &Setup<Global>) {
    holds(rt, !setup.by_port(), "any port counts");
    check(rt, setup);
}

/// What the lines of one setup set up.
fn setup_of_lines(alloc: Global) -> Option<Setup<Global>> {
    let text = lines_with(alloc, &LINES, 0, b"")?;
    setup_of(alloc, &text)
}

#[test]
fn four_lines_set_a_proxy_up(rt: HostRuntime) {
    match setup_of_lines(rt.alloc()) {
        Some(setup) => check_any_port(&rt, &setup),
        None => holds(&rt, false, "four lines are a setup"),
    }
    locations_are_targets();
}

/// Checks that the own port alone counts, and that all else is as the lines say.
fn check_own_port(rt: &impl Abort, setup: &Setup<Global>) {
    holds(rt, setup.by_port(), "the own port alone counts");
    check(rt, setup);
}

#[test]
fn the_own_port_alone_may_count(rt: HostRuntime) {
    match setup_of_lines(rt.alloc()) {
        Some(setup) => check_own_port(&rt, &setup.with_own_port()),
        None => holds(&rt, false, "four lines are a setup"),
    }
}

/// Texts, and the number of the malformed line of each, 0 where there is none.
const TEXTS: [(&[u8], usize); 11] = [
    (b"", 1),
    (b"\n", 1),
    (b"own 192.0.2.9 5060", 1),
    (b"own 192.0.2.9 5060\n", 2),
    (b"own 192.0.2.9 5060\ninstance 7\n", 3),
    (b"own 192.0.2.9 5060\ninstance 7\ndomain example.com", 3),
    (HEAD, 0),
    (
        b"own 192.0.2.9 5060\ninstance 7\nlocation bob 1000 sip:bob@192.0.2.4\n",
        3,
    ),
    (b"instance 7\nown 192.0.2.9 5060\ndomain example.com\n", 1),
    (b"own 192.0.2.9 5060\ndomain example.com\ninstance 7\n", 2),
    (b"own 192.0.2.9 5060\nown 192.0.2.9 5060\n", 2),
];

#[test]
fn each_line_has_its_place(rt: HostRuntime) {
    for (text, number) in TEXTS {
        holds(
            &rt,
            malformed(rt.alloc(), text) == Some(number),
            "the lines in their order",
        );
    }
}

/// Lines in the place of that of a number, each of which says something else.
const OTHERS: [(usize, &[u8]); 9] = [
    (1, b"own 0.0.0.1 1"),
    (1, b"own 255.255.255.255 65535"),
    (2, b"instance 0"),
    (2, b"instance 4294967295"),
    (3, b"domain [2001:db8::1]"),
    (3, b"domain 192.0.2.9"),
    (4, b"location ~ 0 SIP:192.0.2.4:5062;transport=UDP"),
    (4, b"location <\"> 7 sip:a@192.0.2.4"),
    (4, b"depth 0"),
];

/// Lines in the place of that of a number, each of which is malformed.
const WRONG: [(usize, &[u8]); 31] = [
    (1, b"own 0.0.0.0 5060"),
    (1, b"own 192.0.2.9 0"),
    (1, b"own 192.0.2.9 65536"),
    (1, b"own 192.0.2.9 05060"),
    (1, b"own 192.0.2.09 5060"),
    (1, b"own 192.0.2.256 5060"),
    (1, b"own 192.0.2 5060"),
    (1, b"own 192.0.2.9.1 5060"),
    (1, b"own 192.0.2.9"),
    (1, b"own 192.0.2.9  5060"),
    (1, b"own\t192.0.2.9 5060"),
    (1, b"Own 192.0.2.9 5060"),
    (1, b"own 192.0.2.9 5060\r"),
    (2, b"instance 07"),
    (2, b"instance 4294967296"),
    (2, b"instance -7"),
    (2, b"instance 7 "),
    (2, b"instance"),
    (3, b"domain "),
    (3, b"domain example_com"),
    (3, b"domain example.com "),
    (3, b"domain example.com:5060"),
    (4, b"location bob 1001 sip:bob@192.0.2.4"),
    (4, b"location bob 01 sip:bob@192.0.2.4"),
    (4, b"location  1000 sip:bob@192.0.2.4"),
    (4, b"location b\x7fb 1000 sip:bob@192.0.2.4"),
    (4, b"location bob 1000 tel:1"),
    (4, b"location bob 1000 sip:bob@example.com"),
    (4, b"location bob 1000 sip:bob@192.0.2.4;transport=tcp"),
    (4, b"location bob 1000 sip:bob@192.0.2.4 "),
    (4, b"location bob 1000"),
];

#[test]
fn each_line_has_its_form(rt: HostRuntime) {
    for (number, line) in OTHERS {
        holds(
            &rt,
            malformed_with(rt.alloc(), number, line) == Some(0),
            "a line that says something else",
        );
    }
    for (number, line) in WRONG {
        holds(
            &rt,
            malformed_with(rt.alloc(), number, line) == Some(number),
            "a malformed line",
        );
    }
}

/// One line of each kind, in their order.
const ALL: [&[u8]; 6] = [
    b"own 192.0.2.9 5060",
    b"instance 7",
    b"domain example.com",
    b"prefer 401,407",
    b"depth 3",
    b"location bob 1000 sip:bob@192.0.2.4;transport=udp",
];

/// Puts a NUL byte at this place of a text, and says whether there is such a place.
fn spoil(text: &mut Vec<u8>, place: usize) -> bool {
    match text.get_mut(place) {
        Some(byte) => {
            *byte = 0;
            true
        }
        None => false,
    }
}

/// A line with a NUL byte at this place.
fn spoilt(alloc: Global, line: &[u8], place: usize) -> Option<Vec<u8>> {
    let mut other = joined(alloc, line, b"")?;
    if spoil(&mut other, place) {
        Some(other)
    } else {
        None
    }
}

/// The fault of all lines with this one in the place of that of a number from 1.
fn fault_with(alloc: Global, number: usize, other: &[u8]) -> Option<SetupFault> {
    match lines_with(alloc, &ALL, number, other) {
        Some(text) => fault_of(alloc, &text),
        None => None,
    }
}

/// The fault of all lines with such a byte in that of a number from 1.
fn fault_at(alloc: Global, number: usize, line: &[u8], place: usize) -> Option<SetupFault> {
    match spoilt(alloc, line, place) {
        Some(other) => fault_with(alloc, number, &other),
        None => None,
    }
}

/// Whether a NUL byte makes the line of a number malformed, wherever it stands there.
fn is_told(alloc: Global, number: usize, line: &[u8]) -> bool {
    for place in 0..line.len() {
        if fault_at(alloc, number, line, place) != Some(SetupFault::Line(number)) {
            return false;
        }
    }
    true
}

/// Whether the lines as they are set a proxy up.
fn is_well(alloc: Global) -> bool {
    match lines_with(alloc, &ALL, 0, b"") {
        Some(text) => malformed(alloc, &text) == Some(0),
        None => false,
    }
}

#[test]
fn a_wrong_byte_is_told_by_its_line(rt: HostRuntime) {
    let alloc = rt.alloc();
    holds(&rt, is_well(alloc), "all lines as they are");
    for (n, line) in ALL.iter().enumerate() {
        holds(&rt, is_told(alloc, n + 1, line), "a NUL byte in a line");
    }
}

/// Lines behind the first three, and the number of the malformed one, 0 where there is none.
const BEHIND: [(&[u8], usize); 16] = [
    (b"prefer 401\ndepth 3\nlocation bob 1000 sip:192.0.2.4\n", 0),
    (b"depth 3\nprefer 401\n", 5),
    (b"prefer 401\nprefer 401\n", 5),
    (b"depth 3\ndepth 3\n", 5),
    (b"location bob 1000 sip:192.0.2.4\nprefer 401\n", 5),
    (b"location bob 1000 sip:192.0.2.4\ndepth 3\n", 5),
    (b"prefer 407,401\n", 4),
    (b"prefer 401,402,\n", 4),
    (b"depth 257\n", 4),
    (b"depth 03\n", 4),
    (b"location bob 1000 sip:192.0.2.4", 4),
    (b"location bob 1000 sip:192.0.2.4\n\n", 5),
    (
        b"location bob 1000 sip:bob@192.0.2.4\nlocation bob 1000 sip:bob@192.0.2.4\n",
        5,
    ),
    (
        b"location bob 9 sip:192.0.2.4\nlocation bob 8 SIP:192.0.2.4;method=INVITE?a=b\n",
        5,
    ),
    (
        b"location bob 9 sip:192.0.2.4\nlocation bob 9 sip:192.0.2.4:5060\n",
        0,
    ),
    (
        b"location bob 9 sip:192.0.2.4\nlocation Bob 9 sip:192.0.2.4\n",
        0,
    ),
];

#[test]
fn rules_and_locations_stand_behind(rt: HostRuntime) {
    for (rest, number) in BEHIND {
        holds(
            &rt,
            malformed_behind(rt.alloc(), rest) == Some(number),
            "lines behind the domain",
        );
    }
}

/// How many statuses go first in the rules, and their depth.
fn shown(rules: Rules) -> (usize, u16) {
    (rules.preferred().statuses().len(), rules.depth())
}

/// The same of the rules of a text.
fn rules_of(alloc: Global, text: &[u8]) -> Option<(usize, u16)> {
    match setup_of(alloc, text) {
        Some(setup) => Some(shown(setup.rules())),
        None => None,
    }
}

/// The same for these lines behind the first three.
fn rules_behind(alloc: Global, rest: &[u8]) -> Option<(usize, u16)> {
    match joined(alloc, HEAD, rest) {
        Some(text) => rules_of(alloc, &text),
        None => None,
    }
}

#[test]
fn a_rule_that_is_left_out_is_the_usual_one(rt: HostRuntime) {
    let alloc = rt.alloc();
    holds(&rt, rules_behind(alloc, b"") == Some((5, 256)), "no rule");
    holds(
        &rt,
        rules_behind(alloc, b"prefer -\n") == Some((0, 256)),
        "a list",
    );
    holds(
        &rt,
        rules_behind(alloc, b"depth 3\n") == Some((5, 3)),
        "a depth",
    );
    holds(
        &rt,
        rules_behind(alloc, b"prefer 401,499\ndepth 0\n") == Some((2, 0)),
        "both",
    );
}

/// Puts a location of bob at this port behind a text, and says whether there was memory for it.
fn add_location(text: &mut Vec<u8>, port: u16) -> bool {
    text.extend_from_slice(b"location bob 1000 sip:bob@192.0.2.4:")
        .is_ok()
        && append_decimal(text, u64::from(port)).is_ok()
        && text.push(b'\n').is_ok()
}

/// The same of so many locations, each at another port, and of one of eve.
fn add_locations(text: &mut Vec<u8>, count: u16) -> bool {
    let mut well = true;
    for port in 1..=count {
        well = well && add_location(text, port);
    }
    well && add_line(text, b"location eve 1000 sip:bob@192.0.2.4:1")
}

/// The first three lines, and this many locations of bob, each at another port; then one of eve.
fn crowd(alloc: Global, count: u16) -> Option<Vec<u8>> {
    let mut text = joined(alloc, HEAD, b"")?;
    if add_locations(&mut text, count) {
        Some(text)
    } else {
        None
    }
}

/// How many locations a crowd of this many of bob sets up.
fn locations_of_crowd(alloc: Global, count: u16) -> Option<usize> {
    let text = crowd(alloc, count)?;
    match setup_of(alloc, &text) {
        Some(setup) => Some(setup.locations().len()),
        None => None,
    }
}

/// The fault of such a crowd.
fn fault_of_crowd(alloc: Global, count: u16) -> Option<SetupFault> {
    match crowd(alloc, count) {
        Some(text) => fault_of(alloc, &text),
        None => None,
    }
}

#[test]
fn a_user_has_no_more_locations_than_may_be_tried(rt: HostRuntime) {
    let alloc = rt.alloc();
    holds(
        &rt,
        locations_of_crowd(alloc, 256) == Some(257),
        "256 of one, one of another",
    );
    holds(
        &rt,
        fault_of_crowd(alloc, 257) == Some(SetupFault::Line(260)),
        "the 257th of one",
    );
}

// ---- the locations of a user

/// How many users the crowded setup has, each with three locations.
const USERS: u64 = 9000;

/// Appends the line of a location: the user has this number, and the location this port.
fn add_location_of(text: &mut Vec<u8>, user: u64, port: u64) -> bool {
    text.extend_from_slice(b"location u").is_ok()
        && append_decimal(text, user).is_ok()
        && text.extend_from_slice(b" 1000 sip:x@192.0.2.4:").is_ok()
        && append_decimal(text, port).is_ok()
        && text.push(b'\n').is_ok()
}

/// Appends a location of each user at this port.
fn add_locations_at(text: &mut Vec<u8>, port: u64) -> bool {
    let mut well = true;
    for user in 0..USERS {
        well = well && add_location_of(text, user, port);
    }
    well
}

/// The text of 27,000 locations, those of a user apart from one another.
fn crowded_text(alloc: Global) -> Option<Vec<u8>> {
    let mut text = joined(alloc, HEAD, b"")?;
    let well = add_locations_at(&mut text, 7)
        && add_locations_at(&mut text, 5)
        && add_locations_at(&mut text, 9);
    if well { Some(text) } else { None }
}

/// The setup of them.
fn crowded(alloc: Global) -> Option<Setup<Global>> {
    match crowded_text(alloc) {
        Some(text) => setup_of(alloc, &text),
        None => None,
    }
}

/// The port of a location; 0 where there is none.
fn port_of(location: Option<&Location>) -> u16 {
    match location {
        Some(location) => match location.uri().next_hop() {
            Some(hop) => hop.port,
            None => 0,
        },
        None => 0,
    }
}

/// The ports of the first four locations of a user.
fn ports_of(setup: &Setup<Global>, user: &[u8]) -> [u16; 4] {
    let mut locations = setup.locations_of(user);
    let first = port_of(locations.next());
    let second = port_of(locations.next());
    let third = port_of(locations.next());
    [first, second, third, port_of(locations.next())]
}

/// Users, and the ports of their locations, in the order of the text.
const PORTS: [(&[u8], [u16; 4]); 7] = [
    (b"u0", [7, 5, 9, 0]),
    (b"u1", [7, 5, 9, 0]),
    (b"u4999", [7, 5, 9, 0]),
    (b"u8999", [7, 5, 9, 0]),
    (b"u9000", [0, 0, 0, 0]),
    (b"U1", [0, 0, 0, 0]),
    (b"", [0, 0, 0, 0]),
];

/// Checks the locations of each user.
fn check_ports(rt: &impl Abort, setup: &Setup<Global>) {
    holds(rt, setup.locations().len() == 27_000, "all locations");
    for (user, ports) in PORTS {
        holds(
            rt,
            ports_of(setup, user) == ports,
            "the locations of a user",
        );
    }
}

#[test]
fn the_locations_of_a_user_are_looked_up(rt: HostRuntime) {
    match crowded(rt.alloc()) {
        Some(setup) => check_ports(&rt, &setup),
        None => holds(&rt, false, "27,000 locations are a setup"),
    }
}

#[test]
fn a_setup_is_for_a_service_where_that_is_said(rt: HostRuntime) {
    match setup_of_lines(rt.alloc()) {
        Some(setup) => {
            holds(&rt, !setup.is_for_a_service(), "as it is read");
            holds(
                &rt,
                setup.for_a_service().is_for_a_service(),
                "as it is said",
            );
        }
        None => holds(&rt, false, "four lines are a setup"),
    }
}

/// How long the one location rings at most, and any other target.
fn times_of(setup: &Setup<Global>) -> Option<(u64, u64)> {
    match setup.locations() {
        [location] => Some((location.longest(), setup.ring())),
        _ => None,
    }
}

#[test]
fn a_setup_rings_as_long_as_is_said(rt: HostRuntime) {
    match setup_of_lines(rt.alloc()) {
        Some(setup) => {
            let read = times_of(&setup);
            holds(&rt, read == Some((181_000, 181_000)), "as it is read");
            let said = times_of(&setup.ringing(15_000));
            holds(&rt, said == Some((15_000, 15_000)), "as it is said");
        }
        None => holds(&rt, false, "four lines are a setup"),
    }
}

/// Whether a setup adds Record-Route lines, Timestamp lines and Reason lines, and whether it has streams.
fn switches(setup: &Setup<Global>) -> [bool; 4] {
    [
        setup.records(),
        setup.stamps(),
        setup.gives_reasons(),
        setup.has_streams(),
    ]
}

#[test]
fn a_setup_does_more_where_that_is_said(rt: HostRuntime) {
    match setup_of_lines(rt.alloc()) {
        Some(setup) => {
            let none = [false, false, false, false];
            holds(&rt, switches(&setup) == none, "as it is read");
            let setup = setup.recording();
            let one = [true, false, false, false];
            holds(&rt, switches(&setup) == one, "Record-Route lines");
            let setup = setup.stamping();
            let two = [true, true, false, false];
            holds(&rt, switches(&setup) == two, "Timestamp lines");
            let setup = setup.giving_reasons();
            let three = [true, true, true, false];
            holds(&rt, switches(&setup) == three, "Reason lines");
            let setup = setup.with_streams();
            let four = [true, true, true, true];
            holds(&rt, switches(&setup) == four, "streams");
        }
        None => holds(&rt, false, "four lines are a setup"),
    }
}

/// Where a front stands, or what several proxies share.
const FRONT: Own = Own {
    addr: [192, 0, 2, 1],
    port: 5070,
    transport: Transport::Udp,
};

#[test]
fn a_record_route_line_names_the_own_address_or_another(rt: HostRuntime) {
    match setup_of_lines(rt.alloc()) {
        Some(setup) => {
            holds(&rt, setup.route() == setup.own(), "the own one");
            let setup = setup.recording_as(FRONT);
            holds(&rt, setup.route() == FRONT, "another one");
            holds(&rt, !setup.records(), "no line is added by that");
        }
        None => holds(&rt, false, "four lines are a setup"),
    }
}

#[test]
fn an_address_is_read_with_its_port(rt: HostRuntime) {
    let read = read_address(b"192.0.2.1:5070", b':');
    holds(&rt, read == Some(FRONT), "behind a colon");
    for text in [
        "192.0.2.1 5070",
        "0.0.0.0:5070",
        "192.0.2.1:0",
        "192.0.2.1:65536",
        "192.0.2.01:5070",
        "192.0.2.1:",
    ] {
        let read = read_address(text.as_bytes(), b':');
        holds(&rt, read.is_none(), text);
    }
}
