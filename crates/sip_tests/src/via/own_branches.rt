//! Branches of the proxy's own, found in Via values and in the top value of a message.
use crate::holds::holds;
use crate::messages::{OWN, request_with_via};
use crate::rows::holds_in_row;
use sip_branch::BranchName;
use sip_via::{own_branch, own_branch_of};
use std::alloc::Global;

/// A branch of the proxy's own.
const BRANCH: BranchName = BranchName {
    key: [0, 1, 2, 3, 4, 5, 6, 7, 8, 9, 10, 11, 12, 13, 14, 15],
    instance: 7,
    context: 3,
    target: 1,
};

/// Via values that the proxy put with that branch.
const OWN_VALUES: [&[u8]; 4] = [
    b"SIP/2.0/UDP 192.0.2.9:5060;branch=z9hG4bK000102030405060708090a0b0c0d0e0f.7.3.1",
    b"SIP/2.0/UDP 192.0.2.9;received=h;BRANCH = z9hG4bK000102030405060708090a0b0c0d0e0f.7.3.1",
    b"SIP/2.0/TCP 192.0.2.9:5060;branch=z9hG4bK000102030405060708090a0b0c0d0e0f.7.3.1",
    b"sip/2.0/tcp 192.0.2.9 : 05060;branch=z9hG4bK000102030405060708090a0b0c0d0e0f.7.3.1",
];

/// The same with one change each.
const OTHER_VALUES: [&[u8]; 11] = [
    b"",
    b"SIP/2.0/UDP 192.0.2.9:5061;branch=z9hG4bK000102030405060708090a0b0c0d0e0f.7.3.1",
    b"SIP/2.0/UDP 192.0.2.8:5060;branch=z9hG4bK000102030405060708090a0b0c0d0e0f.7.3.1",
    b"SIP/2.0/UDP 192.0.2.09:5060;branch=z9hG4bK000102030405060708090a0b0c0d0e0f.7.3.1",
    b"SIP/2.0/UDP 192.0.2.90:5060;branch=z9hG4bK000102030405060708090a0b0c0d0e0f.7.3.1",
    b"SIP/2.0/UDP 192.0.2.9:5060;branch=z9hG4bK000102030405060708090A0b0c0d0e0f.7.3.1",
    b"SIP/2.0/UDP 192.0.2.9:5060;branch=z9hG4bK000102030405060708090a0b0c0d0e0f.7.3",
    b"SIP/2.0/UDP 192.0.2.9:5060;branch=z9hG4bK000102030405060708090a0b0c0d0e0f.7.03.1",
    b"SIP/2.0/UDP 192.0.2.9:5060;brand=z9hG4bK000102030405060708090a0b0c0d0e0f.7.3.1",
    b"SIP/3.0/UDP 192.0.2.9:5060;branch=z9hG4bK000102030405060708090a0b0c0d0e0f.7.3.1",
    b"SIP/2.0/UDP 192.0.2.9:5060;branch=z9hG4bK000102030405060708090a0b0c0d0e0f.7.3.1, SIP/2.0/UDP h",
];

/// The same with another digit in the branch.
const OTHER_TARGET: &[u8] =
    b"SIP/2.0/UDP 192.0.2.9:5060;branch=z9hG4bK000102030405060708090a0b0c0d0e0f.7.3.2";

#[test]
fn finds_its_own_branch(rt: HostRuntime) {
    for (row, value) in OWN_VALUES.iter().enumerate() {
        holds_in_row(
            &rt,
            own_branch_of(value, OWN) == Some(BRANCH),
            "a value of the proxy's own",
            row,
        );
    }
    for (row, value) in OTHER_VALUES.iter().enumerate() {
        holds_in_row(
            &rt,
            own_branch_of(value, OWN).is_none(),
            "a value that is not the proxy's own",
            row,
        );
    }
    let target = 2;
    holds(
        &rt,
        own_branch_of(OTHER_TARGET, OWN) == Some(BranchName { target, ..BRANCH }),
        "one other digit is another branch",
    );
}

/// Via lines, and whether the top value is the proxy's own.
const TOP_VALUES: [(&[u8], bool); 4] = [
    (
        b"Via: SIP/2.0/UDP 192.0.2.9;branch=z9hG4bK000102030405060708090a0b0c0d0e0f.7.3.1 , SIP/2.0/UDP h",
        true,
    ),
    (
        b"v: SIP/2.0/UDP 192.0.2.9;branch=z9hG4bK000102030405060708090a0b0c0d0e0f.7.3.1\r\nVia: SIP/2.0/UDP h",
        true,
    ),
    (
        b"Via: SIP/2.0/UDP h, SIP/2.0/UDP 192.0.2.9;branch=z9hG4bK000102030405060708090a0b0c0d0e0f.7.3.1",
        false,
    ),
    (
        b"Via: SIP/2.0/UDP h\r\nv: SIP/2.0/UDP 192.0.2.9;branch=z9hG4bK000102030405060708090a0b0c0d0e0f.7.3.1",
        false,
    ),
];

fn top_branch(alloc: Global, via: &[u8]) -> Option<BranchName> {
    match request_with_via(alloc, via) {
        Some(request) => own_branch(&request, OWN),
        None => None,
    }
}

#[test]
fn looks_at_the_top_value(rt: HostRuntime) {
    let alloc = rt.alloc();
    for (row, (via, own)) in TOP_VALUES.iter().enumerate() {
        let branch = if *own { Some(BRANCH) } else { None };
        holds_in_row(
            &rt,
            top_branch(alloc, via) == branch,
            "the branch of the top value",
            row,
        );
    }
}
