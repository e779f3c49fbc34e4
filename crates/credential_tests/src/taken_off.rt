//! Which lines with credentials do not go on.
use crate::holds::holds_of;
use sip_digest::is_taken_off;
use std::alloc::Global;

/// Whether a line does not go on.
fn takes_off(alloc: Global, name: &[u8], value: &[u8]) -> bool {
    match is_taken_off(alloc, b"example.com", name, value) {
        Ok(taken) => taken,
        Err(_) => false,
    }
}

/// Lines, and whether they do not go on.
const LINES: &[(&[u8], &[u8], bool)] = &[
    (
        b"Proxy-Authorization",
        b"Digest realm=\"example.com\"",
        true,
    ),
    (
        b"PROXY-authorization",
        b"digest username=\"bob\", realm = example.com, x",
        true,
    ),
    (
        b"Proxy-Authorization",
        b"Digest realm=\"elsewhere.example\"",
        false,
    ),
    (
        b"Proxy-Authorization",
        b"Basic realm=\"example.com\"",
        false,
    ),
    (b"Authorization", b"Digest realm=\"example.com\"", false),
];

#[test]
fn own_credentials_do_not_go_on(rt: HostRuntime) {
    for (name, value, taken) in LINES {
        let well = takes_off(rt.alloc(), name, value) == *taken;
        holds_of(&rt, well, "credentials", value);
    }
}
