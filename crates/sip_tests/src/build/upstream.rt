//! Responses as they go upstream, byte for byte.
ghost use Rattle.std.specs.Prelude.{◌≡◌, true, IfSome};
ghost use Rattle.sip_build.specs.Upward.{is_challenge};

use crate::behind::if_built;
use crate::bytes::is;
use crate::holds::holds;
use crate::messages::{is_written_as, message_of};
use fork_rank::Challenge;
use sip_build::challenge_name;
use sip_builders::upward;
use sip_text::Message;
use sip_via::BuildFault;
use std::alloc::Global;

/// A 302 that came with two Via lines and two Contact lines.
pub const MOVED: [&[u8]; 11] = [
    b"SIP/2.0 302 Moved Temporarily",
    b"Via: SIP/2.0/UDP 192.0.2.9:5060;branch=z9hG4bK1",
    b"v: SIP/2.0/UDP 192.0.2.1:5060;branch=z9hG4bKa",
    b"m: <sip:b@192.0.2.5>",
    b"f: <sip:alice@example.com>;tag=1",
    b"t: <sip:bob@example.com>;tag=2",
    b"Contact: <sip:c@192.0.2.6>",
    b"i: c1",
    b"CSeq: 1 INVITE",
    b"l: 0",
    b"",
];

/// A 401 with its Via values in one line.
pub const ASKED: [&[u8]; 9] = [
    b"SIP/2.0 401 Unauthorized",
    b"v: SIP/2.0/UDP 192.0.2.9;a=\",\" , SIP/2.0/UDP 192.0.2.1, SIP/2.0/UDP h",
    b"f: <sip:alice@example.com>;tag=1",
    b"t: <sip:bob@example.com>;tag=2",
    b"i: c1",
    b"CSeq: 1 INVITE",
    b"WWW-Authenticate: Digest realm=\"a\"",
    b"l: 0",
    b"",
];

/// A 200 with one Via value.
pub const ALONE: [&[u8]; 8] = [
    b"SIP/2.0 200 OK",
    b"v: SIP/2.0/UDP 192.0.2.9;a=\",\"",
    b"f: <sip:alice@example.com>;tag=1",
    b"t: <sip:bob@example.com>;tag=2",
    b"i: c1",
    b"CSeq: 1 INVITE",
    b"l: 0",
    b"",
];

/// The 302 as it goes upstream with two contacts that were kept.
fn moved_upward(alloc: Global) -> Option<Message<Global>> {
    let kept: [&[u8]; 2] = [b"<sip:d@192.0.2.7>", b"<sip:e@192.0.2.8>;q=0.1"];
    match message_of(alloc, &MOVED) {
        Some(response) => if_built(upward(alloc, &response, Some(&kept), &[])),
        None => None,
    }
}

#[test]
fn kept_contacts_replace_the_others(rt: HostRuntime) {
    let alloc = rt.alloc();
    let expected: [&[u8]; 10] = [
        MOVED[0],
        MOVED[2],
        b"Contact: <sip:d@192.0.2.7>",
        b"Contact: <sip:e@192.0.2.8>;q=0.1",
        MOVED[4],
        MOVED[5],
        MOVED[7],
        MOVED[8],
        MOVED[9],
        MOVED[10],
    ];
    holds(
        &rt,
        is_written_as(alloc, moved_upward(alloc), &expected),
        "a 302 goes upstream with the contacts that were kept",
    );
}

/// A proxy's challenge.
pub fn of_proxy(alloc: Global) -> Option<Challenge<Global>>
    ensures { IfSome result (λ challenge. is_challenge challenge ≡ true) }
{
    match Vec::from_slice(alloc, b"Digest realm=\"b\"") {
        Ok(value) => Some(Challenge::new(true, value)),
        Err(_) => None,
    }
}

/// A server's challenge.
pub fn of_server(alloc: Global) -> Option<Challenge<Global>>
    ensures { IfSome result (λ challenge. is_challenge challenge ≡ true) }
{
    match Vec::from_slice(alloc, b"Digest realm=\"c\"") {
        Ok(value) => Some(Challenge::new(false, value)),
        Err(_) => None,
    }
}

/// A response as it goes upstream with two challenges more.
fn upward_with_challenges(alloc: Global, response: &Message<Global>) -> Option<Message<Global>> {
    match (of_proxy(alloc), of_server(alloc)) {
        (Some(proxy), Some(server)) => { if_built(upward(alloc, response, None, &[proxy, server])) }
        _ => None,
    }
}

/// The 401 as it goes upstream with these challenges.
fn asked_upward(alloc: Global) -> Option<Message<Global>> {
    match message_of(alloc, &ASKED) {
        Some(response) => upward_with_challenges(alloc, &response),
        None => None,
    }
}

#[test]
fn challenges_stand_last(rt: HostRuntime) {
    let alloc = rt.alloc();
    let expected: [&[u8]; 11] = [
        ASKED[0],
        b"v: SIP/2.0/UDP 192.0.2.1, SIP/2.0/UDP h",
        ASKED[2],
        ASKED[3],
        ASKED[4],
        ASKED[5],
        ASKED[6],
        ASKED[7],
        b"Proxy-Authenticate: Digest realm=\"b\"",
        b"WWW-Authenticate: Digest realm=\"c\"",
        ASKED[8],
    ];
    holds(
        &rt,
        is_written_as(alloc, asked_upward(alloc), &expected),
        "a 401 goes upstream with the challenges of others last",
    );
}

/// Whether the 200 does not go upstream, since no other Via value is there.
fn is_refused(alloc: Global) -> bool {
    match message_of(alloc, &ALONE) {
        None => false,
        Some(response) => match upward(alloc, &response, None, &[]) {
            Ok(_) => false,
            Err(fault) => fault == BuildFault::LastVia,
        },
    }
}

#[test]
fn the_last_via_value_stays(rt: HostRuntime) {
    let alloc = rt.alloc();
    holds(
        &rt,
        is_refused(alloc),
        "a response with one Via value is a LastVia",
    );
}

#[test]
fn challenges_are_named(rt: HostRuntime) {
    holds(
        &rt,
        is(challenge_name(true), b"Proxy-Authenticate"),
        "the challenge of a proxy",
    );
    holds(
        &rt,
        is(challenge_name(false), b"WWW-Authenticate"),
        "the challenge of a server",
    );
}
