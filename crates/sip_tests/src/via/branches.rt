//! Branches that are written and read, and texts that are no branch.
use crate::bytes::has;
use crate::holds::holds;
use crate::rows::holds_in_row;
use sip_branch::{BranchName, read_branch, write_branch};
use sip_lex::is_token;
use std::alloc::Global;

/// A branch with the largest numbers, and its text.
const LARGEST: BranchName = BranchName {
    key: [0, 1, 2, 3, 4, 5, 6, 7, 8, 9, 10, 127, 128, 160, 240, 255],
    instance: 4_294_967_295,
    context: 18_446_744_073_709_551_615,
    target: 65_535,
};

const LARGEST_TEXT: &[u8] =
    b"z9hG4bK000102030405060708090a7f80a0f0ff.4294967295.18446744073709551615.65535";

/// `branch=`, with the branch behind it; whether there was memory for them.
fn adds_branch(name: &BranchName, text: &mut Vec<u8>) -> bool {
    text.extend_from_slice(b"branch=").is_ok() && write_branch(name, text).is_ok()
}

fn is_written_as(alloc: Global, name: &BranchName, branch: &[u8]) -> bool {
    let mut text = Vec::new(alloc);
    adds_branch(name, &mut text) && has(text.strip_prefix(b"branch="), branch)
}

/// Whether a token stands behind `branch=`.
fn has_token(text: &[u8]) -> bool {
    match text.strip_prefix(b"branch=") {
        Some(branch) => is_token(branch),
        None => false,
    }
}

fn is_written_as_token(alloc: Global, name: &BranchName) -> bool {
    let mut text = Vec::new(alloc);
    adds_branch(name, &mut text) && has_token(&text)
}

fn is_read_as(text: &[u8], name: BranchName) -> bool {
    read_branch(text) == Some(name)
}

#[test]
fn reads_what_it_writes(rt: HostRuntime) {
    let alloc = rt.alloc();
    holds(
        &rt,
        is_written_as(alloc, &LARGEST, LARGEST_TEXT),
        "a branch is written behind what stands there",
    );
    holds(
        &rt,
        is_read_as(LARGEST_TEXT, LARGEST),
        "a branch is read as it was written",
    );
    holds(
        &rt,
        is_written_as_token(alloc, &LARGEST),
        "a branch is written as a token",
    );
}

#[test]
fn reads_a_branch(rt: HostRuntime) {
    let name = BranchName {
        key: [160, 0, 0, 0, 0, 0, 0, 0, 0, 0, 0, 0, 0, 0, 0, 0],
        instance: 7,
        context: 3,
        target: 0,
    };
    holds(
        &rt,
        is_read_as(b"z9hG4bKa0000000000000000000000000000000.7.3.0", name),
        "a branch has its key, instance, context and target",
    );
}

/// Texts that are no branch by one change.
const NO_BRANCHES: [&[u8]; 16] = [
    b"",
    b"z9hG4bK",
    b"z9hg4bK00000000000000000000000000000000.7.3.0",
    b"z9hG4bKA0000000000000000000000000000000.7.3.0",
    b"z9hG4bKg0000000000000000000000000000000.7.3.0",
    b"z9hG4bK0000000000000000000000000000000.7.3.0",
    b"z9hG4bK000000000000000000000000000000000.7.3.0",
    b"z9hG4bK00000000000000000000000000000000.7.3",
    b"z9hG4bK00000000000000000000000000000000.7.3.",
    b"z9hG4bK00000000000000000000000000000000.07.3.0",
    b"z9hG4bK00000000000000000000000000000000.7.3.00",
    b"z9hG4bK00000000000000000000000000000000.4294967296.3.0",
    b"z9hG4bK00000000000000000000000000000000.7.18446744073709551616.0",
    b"z9hG4bK00000000000000000000000000000000.7.3.65536",
    b"z9hG4bK00000000000000000000000000000000.7.3.0.0",
    b"z9hG4bK00000000000000000000000000000000.7.-3.0",
];

fn is_no_branch(text: &[u8]) -> bool {
    read_branch(text).is_none()
}

#[test]
fn other_texts_are_no_branches(rt: HostRuntime) {
    for (row, text) in NO_BRANCHES.iter().enumerate() {
        holds_in_row(&rt, is_no_branch(text), "a text that is no branch", row);
    }
}
