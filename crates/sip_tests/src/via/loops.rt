//! Loop keys of known requests, and requests that come again.
use crate::holds::holds;
use crate::messages::{OWN, REQUEST, ROUTED, message_of};
use crate::rows::holds_in_row;
use sip_route::{is_loop, loop_key};
use sip_via::Own;
use std::alloc::Global;

/// The loop key of the request of these lines.
fn key_of(alloc: Global, lines: &[&[u8]]) -> Option<[u8; 16]> {
    match message_of(alloc, lines) {
        Some(request) => Some(loop_key(&request)),
        None => None,
    }
}

#[test]
fn keys_of_known_requests(rt: HostRuntime) {
    let alloc = rt.alloc();
    let key = [
        0x8c, 0x31, 0xe7, 0x1e, 0x0d, 0xdb, 0xf1, 0xa0, 0xe5, 0x6f, 0x5f, 0x02, 0x79, 0x99, 0x08,
        0x57,
    ];
    holds(
        &rt,
        key_of(alloc, &REQUEST) == Some(key),
        "the loop key of a request",
    );
    let routed = [
        0x1b, 0x62, 0x57, 0x94, 0xec, 0xbc, 0x17, 0xcc, 0x03, 0x70, 0xe9, 0x5b, 0x50, 0x47, 0x62,
        0x96,
    ];
    holds(
        &rt,
        key_of(alloc, &ROUTED) == Some(routed),
        "the loop key of a request with a route and fields for proxies",
    );
}

/// Via lines of a request that passed before.
const PASSED: [&[u8]; 5] = [
    b"Via: SIP/2.0/UDP 192.0.2.9:5060;branch=z9hG4bK8c31e71e0ddbf1a0e56f5f0279990857.7.3.0",
    b"v: SIP/2.0/UDP 192.0.2.9;received=h;BRANCH = z9hG4bK8c31e71e0ddbf1a0e56f5f0279990857.1.2.3",
    b"Via: SIP/2.0/TCP 192.0.2.9 : 05060 ;branch=z9hG4bK8c31e71e0ddbf1a0e56f5f0279990857.7.3.0",
    b"Via: SIP/2.0/UDP h, SIP/2.0/UDP 192.0.2.9;branch=z9hG4bK8c31e71e0ddbf1a0e56f5f0279990857.7.3.0",
    b"Via: x\r\nVia: ,SIP/2.0/UDP 192.0.2.9;branch=z9hG4bK8c31e71e0ddbf1a0e56f5f0279990857.7.3.0",
];

/// The same with one change each.
const NOT_PASSED: [&[u8]; 14] = [
    b"Subject: x",
    b"Via: SIP/2.0/UDP 192.0.2.9:5061;branch=z9hG4bK8c31e71e0ddbf1a0e56f5f0279990857.7.3.0",
    b"Via: SIP/2.0/UDP 192.0.2.8:5060;branch=z9hG4bK8c31e71e0ddbf1a0e56f5f0279990857.7.3.0",
    b"Via: SIP/2.0/UDP 192.0.02.9:5060;branch=z9hG4bK8c31e71e0ddbf1a0e56f5f0279990857.7.3.0",
    b"Via: SIP/2.0/UDP 192.0.2.9.:5060;branch=z9hG4bK8c31e71e0ddbf1a0e56f5f0279990857.7.3.0",
    b"Via: SIP/2.0/UDP 192.0.2:5060;branch=z9hG4bK8c31e71e0ddbf1a0e56f5f0279990857.7.3.0",
    b"Via: SIP/2.0/UDP 192.0.2.90:5060;branch=z9hG4bK8c31e71e0ddbf1a0e56f5f0279990857.7.3.0",
    b"Via: SIP/2.0/UDP 192.0.2.9:5060;branch=z9hG4bK8c31e71e0ddbf1a0e56f5f0279990858.7.3.0",
    b"Via: SIP/2.0/UDP 192.0.2.9:5060;branch=z9hG4bK8C31e71e0ddbf1a0e56f5f0279990857.7.3.0",
    b"Via: SIP/2.0/UDP 192.0.2.9:5060;branch=z9hG4bK8c31e71e0ddbf1a0e56f5f0279990857.7.3",
    b"Via: SIP/2.0/UDP 192.0.2.9:5060;branch=z9hG4bKa;branch=z9hG4bK8c31e71e0ddbf1a0e56f5f0279990857.7.3.0",
    b"Via: SIP/2.0/UDP 192.0.2.9:5060;brand=z9hG4bK8c31e71e0ddbf1a0e56f5f0279990857.7.3.0",
    b"Via: SIP/2.0/UDP 192.0.2.9:5060",
    b"Via: SIP/3.0/UDP 192.0.2.9:5060;branch=z9hG4bK8c31e71e0ddbf1a0e56f5f0279990857.7.3.0",
];

/// Whether the request is a loop with that Via line behind its own.
fn loops_with(alloc: Global, via: &[u8], own: Own) -> Option<bool> {
    let mut lines = REQUEST;
    lines[2] = via;
    match message_of(alloc, &lines) {
        Some(request) => Some(is_loop(&request, own)),
        None => None,
    }
}

#[test]
fn finds_its_own_passes(rt: HostRuntime) {
    let alloc = rt.alloc();
    for (row, via) in PASSED.iter().enumerate() {
        holds_in_row(
            &rt,
            loops_with(alloc, via, OWN) == Some(true),
            "a request that passed before",
            row,
        );
    }
}

#[test]
fn finds_no_other_passes(rt: HostRuntime) {
    let alloc = rt.alloc();
    for (row, via) in NOT_PASSED.iter().enumerate() {
        holds_in_row(
            &rt,
            loops_with(alloc, via, OWN) == Some(false),
            "a request that did not pass before",
            row,
        );
    }
    let addr = OWN.addr;
    let other = Own::over_udp(addr, 5070);
    holds(
        &rt,
        loops_with(alloc, PASSED[1], other) == Some(false),
        "a request that passed a proxy at another port",
    );
}
