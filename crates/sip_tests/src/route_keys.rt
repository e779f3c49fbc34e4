//! Senders of messages, and the keys of requests.
use crate::bytes::{has, holds_of};
use crate::holds::holds;
use crate::messages::{REQUEST, message_of};
use crate::rows::holds_in_row;
use md5::{Digest, Md5};
use sip_route::{
    add_field, add_number, add_optional, append_request_key, append_sender_key, has_key,
    has_same_key,
};
use sip_text::Message;
use sip_via::{Sender, sender_of, top_branch, top_via};
use std::alloc::Global;

/// The request with this line in place of its Via line.
fn request_with(alloc: Global, via: &[u8]) -> Option<Message<Global>> {
    let mut lines = REQUEST;
    lines[1] = via;
    message_of(alloc, &lines)
}

/// Via values, and their senders.
const SENDERS: [(&[u8], Option<Sender<'static>>); 5] = [
    (
        b"SIP/2.0/UDP Host.example:5061;x=y;BRANCH=z9hG4bKa",
        Some(Sender {
            host: b"Host.example",
            port: 5061,
            branch: Some(b"z9hG4bKa"),
        }),
    ),
    (
        b"SIP/2.0/UDP 192.0.2.1;rport",
        Some(Sender {
            host: b"192.0.2.1",
            port: 5060,
            branch: None,
        }),
    ),
    (b"SIP/2.0/UDP 192.0.2.1:0;branch=z9hG4bKa", None),
    (b"SIP/3.0/UDP 192.0.2.1;branch=z9hG4bKa", None),
    (b"", None),
];

#[test]
fn names_the_sender(rt: HostRuntime) {
    for (row, (value, sender)) in SENDERS.iter().enumerate() {
        holds_in_row(
            &rt,
            sender_of(value) == *sender,
            "the sender of a value",
            row,
        );
    }
}

/// Via lines, and the branches that their first values name, those that can't be read among them.
const BRANCHES: [(&[u8], Option<&'static [u8]>); 5] = [
    (
        b"Via: SIP/2.0/UDP host.example;x=y;BRANCH=z9hG4bKa, SIP/2.0/UDP other;branch=z9hG4bKb",
        Some(b"z9hG4bKa"),
    ),
    (
        b"v: sip / 2.0 / TCP HOST ; received=192.0.2.1 ; Branch = z9hG4bKa1 ; branch=z9hG4bKb",
        Some(b"z9hG4bKa1"),
    ),
    (
        b"Via: SIP/3.0/UDP 192.0.2.1:0;branch=z9hG4bKa",
        Some(b"z9hG4bKa"),
    ),
    (b"Via: SIP/2.0/UDP 192.0.2.1;rport", None),
    (b"Via: SIP/2.0/UDP 192.0.2.1;branch", None),
];

/// Whether the top value of the request with that Via line names this branch.
fn has_branch(alloc: Global, via: &[u8], branch: Option<&[u8]>) -> bool {
    match request_with(alloc, via) {
        Some(request) => top_branch(&request) == branch,
        None => false,
    }
}

#[test]
fn names_the_branch(rt: HostRuntime) {
    for (via, branch) in BRANCHES {
        holds_of(
            &rt,
            has_branch(rt.alloc(), via, branch),
            "the branch of a top value",
            via,
        );
    }
}

/// Via lines of one sender and one branch, and the key of all of them.
const KEY: &[u8] = b"host.example:5060 z9hG4bKa1";

const SAME: [&[u8]; 6] = [
    b"Via: SIP/2.0/UDP host.example:5060;branch=z9hG4bKa1",
    b"Via: SIP/2.0/UDP host.example;branch=z9hG4bKa1",
    b"v: sip / 2.0 / TCP HOST.Example ; received=192.0.2.1 ; Branch = z9hG4bKa1",
    b"Via: SIP/2.0/UDP host.example:05060;rport=9;branch=z9hG4bKa1;branch=z9hG4bKa2",
    b"Via: SIP/2.0/UDP host.example;branch=z9hG4bKa1, SIP/2.0/UDP other;branch=z9hG4bKb",
    b"Via: SIP/2.0/UDP host.example;branch=z9hG4bKa1\r\nVia: SIP/2.0/UDP other;branch=z9hG4bKb",
];

/// Via lines with one change each, and their keys.
const OTHERS: [(&[u8], &[u8]); 9] = [
    (
        b"Via: SIP/2.0/UDP host.example:5061;branch=z9hG4bKa1",
        b"host.example:5061 z9hG4bKa1",
    ),
    (
        b"Via: SIP/2.0/UDP 192.0.2.1;branch=z9hG4bKa1",
        b"192.0.2.1:5060 z9hG4bKa1",
    ),
    (
        b"Via: SIP/2.0/UDP 192.0.2.01;branch=z9hG4bKa1",
        b"192.0.2.01:5060 z9hG4bKa1",
    ),
    (
        b"Via: SIP/2.0/UDP host.example;branch=z9hG4bKa2",
        b"host.example:5060 z9hG4bKa2",
    ),
    (
        b"Via: SIP/2.0/UDP host.example;branch=z9hG4bKA1",
        b"host.example:5060 z9hG4bKA1",
    ),
    (
        b"Via: SIP/2.0/UDP host.example;branch=z9hG4bKa",
        b"host.example:5060 z9hG4bKa",
    ),
    (
        b"Via: SIP/2.0/UDP host.example;branch=z9hG4bKa11",
        b"host.example:5060 z9hG4bKa11",
    ),
    (
        b"Via: SIP/2.0/UDP other;branch=z9hG4bKb, SIP/2.0/UDP host.example;branch=z9hG4bKa1",
        b"other:5060 z9hG4bKb",
    ),
    (
        b"Via: SIP/2.0/UDP other;branch=z9hG4bKb\r\nVia: SIP/2.0/UDP host.example;branch=z9hG4bKa1",
        b"other:5060 z9hG4bKb",
    ),
];

/// Via lines of requests without a key.
const KEYLESS: [&[u8]; 4] = [
    b"Via: SIP/2.0/UDP host.example:5060",
    b"Via: SIP/2.0/UDP host.example:5060;branch",
    b"Via: SIP/2.0/UDP host.example:65536;branch=z9hG4bKa1",
    b"Via: , SIP/2.0/UDP host.example;branch=z9hG4bKa1",
];

/// Whether this is the key of the sender that a value names.
fn is_sender_key(alloc: Global, value: &[u8], key: &[u8]) -> bool {
    let mut out = Vec::new(alloc);
    match sender_of(value) {
        Some(sender) => append_sender_key(&mut out, sender) == Ok(true) && out.as_slice() == key,
        None => false,
    }
}

/// Whether a request has this key.
fn has_its_key(alloc: Global, request: &Message<Global>, key: &[u8]) -> bool {
    let mut out = Vec::new(alloc);
    out.push(b'>').is_ok()
        && append_request_key(&mut out, request) == Ok(true)
        && has(out.strip_prefix(b">"), key)
        && has_key(request, key)
        && is_sender_key(alloc, top_via(request), key)
}

/// Whether a request with that Via line has this key.
fn is_keyed(alloc: Global, via: &[u8], key: &[u8]) -> bool {
    match request_with(alloc, via) {
        Some(request) => has_its_key(alloc, &request, key),
        None => false,
    }
}

#[test]
fn spells_keys(rt: HostRuntime) {
    for via in SAME {
        holds_of(
            &rt,
            is_keyed(rt.alloc(), via, KEY),
            "the key of one sender",
            via,
        );
    }
    for (via, key) in OTHERS {
        holds_of(&rt, is_keyed(rt.alloc(), via, key), "another key", via);
    }
}

/// Whether nothing is appended for a request, behind a byte.
fn appends_nothing(alloc: Global, request: &Message<Global>) -> bool {
    let mut out = Vec::new(alloc);
    out.push(b'>').is_ok() && append_request_key(&mut out, request) == Ok(false) && out.len() == 1
}

/// Whether nothing is appended for a request with that Via line, which has no key in common with itself.
fn is_keyless(alloc: Global, via: &[u8]) -> bool {
    match request_with(alloc, via) {
        Some(request) => appends_nothing(alloc, &request) && !has_same_key(&request, &request),
        None => false,
    }
}

#[test]
fn finds_no_key(rt: HostRuntime) {
    for via in KEYLESS {
        holds_of(
            &rt,
            is_keyless(rt.alloc(), via),
            "a request without a key",
            via,
        );
    }
}

/// Whether requests with these Via lines have one key.
fn are_same(alloc: Global, via: &[u8], other: &[u8]) -> Option<bool> {
    match (request_with(alloc, via), request_with(alloc, other)) {
        (Some(request), Some(other)) => Some(has_same_key(&request, &other)),
        _ => None,
    }
}

#[test]
fn compares_keys(rt: HostRuntime) {
    for via in SAME {
        holds_of(
            &rt,
            are_same(rt.alloc(), SAME[0], via) == Some(true),
            "one key",
            via,
        );
    }
    for (via, _) in OTHERS {
        holds_of(
            &rt,
            are_same(rt.alloc(), SAME[0], via) == Some(false),
            "two keys",
            via,
        );
    }
}

/// The digest of a field, of one that is missing, and of a number.
fn digest_of_fields() -> [u8; 16] {
    let mut hasher = Md5::new();
    add_field(&mut hasher, b"c1");
    add_optional(&mut hasher, None);
    add_number(&mut hasher, 70);
    hasher.finalize()
}

/// The digest of a text.
fn digest_of(text: &[u8]) -> [u8; 16] {
    let mut hasher = Md5::new();
    hasher.update(text);
    hasher.finalize()
}

#[test]
fn each_field_of_a_digest_ends_its_line(rt: HostRuntime) {
    holds(
        &rt,
        digest_of_fields() == digest_of(b"c1\n\n70\n"),
        "a field, none, and a number",
    );
}
