//! Texts that are Via values, texts that are none by one change, and what a value says.
use crate::bytes::is;
use crate::holds::holds;
use crate::messages::SOURCE;
use crate::rows::holds_in_row;
use sip_builders::reply_hop;
use sip_uri::Hop;
use sip_via::{Via, ViaFault};
use std::alloc::Global;

/// Texts that are no Via value.
const NEAR_MISSES: [&[u8]; 54] = [
    b"",
    b"SIP/2.0/UDP",
    b"SIP/2.0/UDP ",
    b" SIP/2.0/UDP h",
    b"\tSIP/2.0/UDP h",
    b"SIP/2.0/UDP h ",
    b"SIP/2.0/UDP h\t",
    b"SIP/2.0/UDPh",
    b"SIP/2.0 UDP h",
    b"SIP 2.0/UDP h",
    b"SIP/2/UDP h",
    b"SIP/2.00/UDP h",
    b"SIP/3.0/UDP h",
    b"SIPS/2.0/UDP h",
    b"SI/2.0/UDP h",
    b"S IP/2.0/UDP h",
    b"SIP/2. 0/UDP h",
    b"/2.0/UDP h",
    b"SIP//UDP h",
    b"SIP/2.0/ h",
    b"SIP/2.0//UDP h",
    b"SIP/2.0/UD P h",
    b"SIP/2.0/U@P h",
    b"SIP/2.0/UDP/ h",
    b"SIP/2.0/UDP ;branch=a",
    b"SIP/2.0/UDP :5060",
    b"SIP/2.0/UDP h_x",
    b"SIP/2.0/UDP h h",
    b"SIP/2.0/UDP h, h",
    b"SIP/2.0/UDP h?x",
    b"SIP/2.0/UDP [::1",
    b"SIP/2.0/UDP []",
    b"SIP/2.0/UDP [g]",
    b"SIP/2.0/UDP h:",
    b"SIP/2.0/UDP h:;a",
    b"SIP/2.0/UDP h:0",
    b"SIP/2.0/UDP h:65536",
    b"SIP/2.0/UDP h:123456",
    b"SIP/2.0/UDP h:5x",
    b"SIP/2.0/UDP h:50 60",
    b"SIP/2.0/UDP h::5060",
    b"SIP/2.0/UDP h;",
    b"SIP/2.0/UDP h;;a",
    b"SIP/2.0/UDP h; ;a",
    b"SIP/2.0/UDP h;=a",
    b"SIP/2.0/UDP h;a=",
    b"SIP/2.0/UDP h;a=b c",
    b"SIP/2.0/UDP h;a b",
    b"SIP/2.0/UDP h;a=b,c",
    b"SIP/2.0/UDP h;a=\"b",
    b"SIP/2.0/UDP h;a=\"b\"c",
    b"SIP/2.0/UDP h;a=\"b\\\"",
    b"SIP/2.0/UDP h;\"a\"=b",
    b"SIP/2.0/UDP h;a@b",
];

/// Texts that are Via values.
const VALUES: [&[u8]; 9] = [
    b"SIP/2.0/UDP h",
    b"sip/2.0/udp h",
    b"SIP / 2.0\t/ UDP  h : 5060 ; a = b ; c",
    b"SIP/2.0/UDP [::1]:5060;branch=z",
    b"SIP/2.0/TCP 192.0.2.1:05060",
    b"SIP/2.0/UDP h;a=\"b;c,d\\\"\";e",
    b"SIP/2.0/UDP h;a=b=c",
    b"SIP/2.0/UDP h ;a",
    b"SIP/2.0/UDP h;maddr=[::1];ttl=1",
];

/// What a text is read as.
fn outcome(alloc: Global, text: &[u8]) -> &'static str {
    match Via::read(alloc, text) {
        Ok(_) => "a value",
        Err(ViaFault::BadVia) => "BadVia",
        Err(ViaFault::NoMemory) => "NoMemory",
    }
}

#[test]
fn near_misses(rt: HostRuntime) {
    let alloc = rt.alloc();
    for (row, text) in NEAR_MISSES.iter().enumerate() {
        holds_in_row(
            &rt,
            outcome(alloc, text) == "BadVia",
            "a near-miss is a BadVia",
            row,
        );
    }
}

#[test]
fn values(rt: HostRuntime) {
    let alloc = rt.alloc();
    for (row, text) in VALUES.iter().enumerate() {
        holds_in_row(
            &rt,
            outcome(alloc, text) == "a value",
            "a Via value is read",
            row,
        );
    }
}

fn value_of(alloc: Global, text: &[u8]) -> Option<Via<Global>> {
    match Via::read(alloc, text) {
        Ok(via) => Some(via),
        Err(_) => None,
    }
}

fn has_host(alloc: Global, text: &[u8], host: &[u8]) -> bool {
    match value_of(alloc, text) {
        None => false,
        Some(via) => is(via.host(), host),
    }
}

fn has_port(alloc: Global, text: &[u8], port: Option<u16>) -> bool {
    match value_of(alloc, text) {
        None => false,
        Some(via) => via.port() == port,
    }
}

fn has_branch(alloc: Global, text: &[u8], branch: Option<&[u8]>) -> bool {
    match value_of(alloc, text) {
        None => false,
        Some(via) => via.branch() == branch,
    }
}

#[test]
fn parts_of_a_value(rt: HostRuntime) {
    let alloc = rt.alloc();
    let full = b"SIP / 2.0 / UDP  Host : 05060 ; BRANCH = z9 ; branch = b";
    holds(
        &rt,
        has_host(alloc, full, b"Host"),
        "the host is spelled as it stands",
    );
    holds(
        &rt,
        has_port(alloc, full, Some(5060)),
        "a port with a zero in front is read",
    );
    holds(
        &rt,
        has_branch(alloc, full, Some(b"z9")),
        "the first branch, in any case, is the value's",
    );
    let bare = b"SIP/2.0/UDP h;branch;branch=b";
    holds(
        &rt,
        has_port(alloc, bare, None),
        "a value without a port has none",
    );
    holds(
        &rt,
        has_branch(alloc, bare, None),
        "a first branch without a value is none",
    );
}

fn has_rport(alloc: Global, text: &[u8], port: u16) -> bool {
    match value_of(alloc, text) {
        None => false,
        Some(via) => via.has_rport(port),
    }
}

/// Whether the reply to a request with this Via value goes to this port of its source.
fn is_replied_at(alloc: Global, text: &[u8], port: u16) -> bool {
    let addr = SOURCE.addr;
    match value_of(alloc, text) {
        None => false,
        Some(via) => reply_hop(&via, SOURCE) == Hop::over_udp(addr, port),
    }
}

#[test]
fn replies_to_the_source(rt: HostRuntime) {
    let alloc = rt.alloc();
    let filled = b"SIP/2.0/UDP h:5070;rport=40000";
    holds(
        &rt,
        has_rport(alloc, filled, 40_000),
        "an rport has its number",
    );
    holds(
        &rt,
        is_replied_at(alloc, filled, 40_000),
        "a reply goes to the rport that is the source's",
    );
    let other = b"SIP/2.0/UDP h:5070;rport=40001";
    holds(
        &rt,
        is_replied_at(alloc, other, 5070),
        "a reply goes to the port of the value where the rport is another",
    );
    holds(
        &rt,
        is_replied_at(alloc, b"SIP/2.0/UDP h", 5060),
        "a reply goes to 5060 where no port is named",
    );
}
