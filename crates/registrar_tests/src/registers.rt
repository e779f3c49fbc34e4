//! REGISTER requests, from the first of a table to its last.
use crate::answers::{Wanted, is_answer};
use crate::holds::holds;
use crate::passwords::{BOBS, Password};
use crate::registering::{DATE, Row, plays};
use registrar::{bindings_need_their_users_password, changes_are_of_the_request, full_answer};
use sip_digest::Algorithm;
use std::alloc::Global;

const ADDRESS: ([u8; 4], u16) = ([198, 51, 100, 7], 41000);

const OTHER: ([u8; 4], u16) = ([203, 0, 113, 5], 5060);

const CHALLENGED: Wanted = Wanted::Challenges(b"WWW-Authenticate", false);

const STALE: Wanted = Wanted::Challenges(b"WWW-Authenticate", true);

const NOTHING: Wanted = Wanted::Lines(&[]);

const DATED: Wanted = Wanted::Lines(&[(b"Date", DATE)]);

pub const FIRST: &[u8] =
    b"Via: SIP/2.0/UDP 10.0.0.2:5070;branch=z9hG4bK1\r\nFrom: <sip:bob@example.com>;tag=1\r\nTo: <sip:bob@example.com>\r\nCall-ID: r1\r\nCSeq: 1 REGISTER\r\nContact: <sip:bob@10.0.0.2:5070>;expires=600\r\n";

pub const SECOND_ONE: &[u8] =
    b"Via: SIP/2.0/UDP 10.0.0.2:5070;branch=z9hG4bK2\r\nFrom: <sip:bob@example.com>;tag=1\r\nTo: <sip:bob@example.com>\r\nCall-ID: r1\r\nCSeq: 2 REGISTER\r\nContact: <sip:bob@10.0.0.2:5070>;expires=600\r\n";

const ANOTHER_BRANCH: &[u8] =
    b"Via: SIP/2.0/UDP 10.0.0.2:5070;branch=z9hG4bK3\r\nFrom: <sip:bob@example.com>;tag=1\r\nTo: <sip:bob@example.com>\r\nCall-ID: r1\r\nCSeq: 2 REGISTER\r\nContact: <sip:bob@10.0.0.2:5070>;expires=600\r\n";

const LOWER: &[u8] =
    b"Via: SIP/2.0/UDP 10.0.0.2:5070;branch=z9hG4bK4\r\nFrom: <sip:bob@example.com>;tag=1\r\nTo: <sip:bob@example.com>\r\nCall-ID: r1\r\nCSeq: 1 REGISTER\r\nContact: <sip:bob@10.0.0.2:5070>;expires=600\r\n";

const STAR_LATER: &[u8] =
    b"Via: SIP/2.0/UDP 10.0.0.2:5070;branch=z9hG4bK5\r\nFrom: <sip:bob@example.com>;tag=1\r\nTo: <sip:bob@example.com>\r\nCall-ID: r1\r\nCSeq: 3 REGISTER\r\nContact: *\r\nExpires: 60\r\n";

const STAR_BESIDE: &[u8] =
    b"Via: SIP/2.0/UDP 10.0.0.2:5070;branch=z9hG4bK6\r\nFrom: <sip:bob@example.com>;tag=1\r\nTo: <sip:bob@example.com>\r\nCall-ID: r1\r\nCSeq: 3 REGISTER\r\nContact: *\r\nContact: <sip:bob@10.0.0.3>\r\nExpires: 0\r\n";

const STAR: &[u8] =
    b"Via: SIP/2.0/UDP 10.0.0.2:5070;branch=z9hG4bK7\r\nFrom: <sip:bob@example.com>;tag=1\r\nTo: <sip:bob@example.com>\r\nCall-ID: r1\r\nCSeq: 3 REGISTER\r\nContact: *\r\nExpires: 0\r\n";

const FROM_OTHER: &[u8] =
    b"Via: SIP/2.0/UDP 10.0.0.2:5070;branch=z9hG4bK8\r\nFrom: <sip:bob@example.com>;tag=1\r\nTo: <sip:bob@example.com>\r\nCall-ID: r2\r\nCSeq: 2 REGISTER\r\nContact: <sip:bob@10.0.0.2:5070>;expires=600\r\n";

const BRIEF: &[u8] =
    b"Via: SIP/2.0/UDP 10.0.0.2:5070;branch=z9hG4bK9\r\nFrom: <sip:bob@example.com>;tag=1\r\nTo: <sip:bob@example.com>\r\nCall-ID: r1\r\nCSeq: 2 REGISTER\r\nContact: <sip:bob@10.0.0.2>, <sip:bob@10.0.0.3>;expires=30\r\n";

const TIMES: &[u8] =
    b"Via: SIP/2.0/UDP 198.51.100.7:41000;branch=z9hG4bKa\r\nFrom: <sip:bob@example.com>;tag=1\r\nTo: <sip:bob@example.com>\r\nCall-ID: r1\r\nCSeq: 2 REGISTER\r\nContact: <sip:bob@198.51.100.7:5070>;expires=x;q=0.5 ;+sip.instance=\"<urn:1>\"\r\nm: \"Bob\" <sip:bob@198.51.100.7>;EXPIRES = 999999\r\nContact: sip:b@198.51.100.7:5072\r\nExpires: 120\r\n";

const EXTENSION: &[u8] =
    b"Via: SIP/2.0/UDP 10.0.0.2:5070;branch=z9hG4bKb\r\nFrom: <sip:bob@example.com>;tag=1\r\nTo: <sip:bob@elsewhere.example>\r\nCall-ID: r1\r\nCSeq: 2 REGISTER\r\nRequire: path\r\nRequire: gruu, outbound\r\n";

const ELSEWHERE: &[u8] =
    b"Via: SIP/2.0/UDP 10.0.0.2:5070;branch=z9hG4bKc\r\nFrom: <sip:bob@example.com>;tag=1\r\nTo: <sip:bob@elsewhere.example>\r\nCall-ID: r1\r\nCSeq: 2 REGISTER\r\n";

const NOBODY: &[u8] =
    b"Via: SIP/2.0/UDP 10.0.0.2:5070;branch=z9hG4bKd\r\nFrom: <sip:bob@example.com>;tag=1\r\nTo: <sip:example.com>\r\nCall-ID: r1\r\nCSeq: 2 REGISTER\r\n";

const BY_TCP: &[u8] =
    b"Via: SIP/2.0/UDP 10.0.0.2:5070;branch=z9hG4bKe\r\nFrom: <sip:bob@example.com>;tag=1\r\nTo: <sip:bob@example.com>\r\nCall-ID: r1\r\nCSeq: 2 REGISTER\r\nContact: <sip:bob@10.0.0.2;transport=tcp>\r\n";

const TELEPHONE_NUMBER: &[u8] =
    b"Via: SIP/2.0/UDP 10.0.0.2:5070;branch=z9hG4bKf\r\nFrom: <sip:bob@example.com>;tag=1\r\nTo: <sip:bob@example.com>\r\nCall-ID: r1\r\nCSeq: 2 REGISTER\r\nContact: <tel:+15550100>\r\n";

const UNCLOSED: &[u8] =
    b"Via: SIP/2.0/UDP 10.0.0.2:5070;branch=z9hG4bKg\r\nFrom: <sip:bob@example.com>;tag=1\r\nTo: <sip:bob@example.com>\r\nCall-ID: r1\r\nCSeq: 2 REGISTER\r\nContact: <sip:bob@10.0.0.2>\r\nContact: \"bob\r\n";

const TWICE: &[u8] =
    b"Via: SIP/2.0/UDP 10.0.0.2:5070;branch=z9hG4bKh\r\nFrom: <sip:bob@example.com>;tag=1\r\nTo: <sip:bob@example.com>\r\nCall-ID: r1\r\nCSeq: 2 REGISTER\r\nContact: <sip:bob@10.0.0.2>, <sip:bob@10.0.0.2>;expires=30\r\n";

/// A request without Authorization.
const PLAIN: Row = Row {
    from: ADDRESS,
    inside: false,
    at: 1000,
    lines: FIRST,
    password: None,
    status: 401,
    wanted: CHALLENGED,
    noted: None,
    others: 0,
    ports: &[],
};

/// One of bob's with his password.
const OF_BOB: Row = Row {
    password: Some(BOBS),
    lines: SECOND_ONE,
    status: 200,
    ..PLAIN
};

const BINDING: Wanted = Wanted::Lines(&[
    (b"Contact", b"<sip:bob@10.0.0.2:5070>;expires=600"),
    (b"Date", DATE),
]);

/// One telephone: the challenge, its binding, its repeats, and `*`.
const ONE: &[Row] = &[
    PLAIN,
    Row {
        wanted: BINDING,
        ports: &[41000],
        ..OF_BOB
    },
    Row {
        at: 1500,
        wanted: BINDING,
        ports: &[41000],
        ..OF_BOB
    },
    Row {
        lines: ANOTHER_BRANCH,
        status: 500,
        wanted: NOTHING,
        ports: &[41000],
        ..OF_BOB
    },
    Row {
        lines: LOWER,
        status: 500,
        wanted: NOTHING,
        ports: &[41000],
        ..OF_BOB
    },
    Row {
        lines: STAR_LATER,
        status: 400,
        wanted: NOTHING,
        ports: &[41000],
        ..OF_BOB
    },
    Row {
        lines: STAR_BESIDE,
        status: 400,
        wanted: NOTHING,
        ports: &[41000],
        ..OF_BOB
    },
    Row {
        lines: STAR,
        wanted: DATED,
        ..OF_BOB
    },
];

/// The same private contact behind two translated addresses; each is there until its end.
const TWO: &[Row] = &[
    Row {
        wanted: BINDING,
        ports: &[41000],
        ..OF_BOB
    },
    Row {
        from: OTHER,
        at: 2500,
        lines: FROM_OTHER,
        password: Some(Password {
            address: b"203.0.113.5",
            ..BOBS
        }),
        wanted: Wanted::Lines(&[
            (b"Contact", b"<sip:bob@10.0.0.2:5070>;expires=599"),
            (b"Contact", b"<sip:bob@10.0.0.2:5070>;expires=600"),
            (b"Date", DATE),
        ]),
        ports: &[41000, 5060],
        ..OF_BOB
    },
    Row {
        at: 601_000,
        lines: ELSEWHERE,
        status: 404,
        wanted: NOTHING,
        ports: &[5060],
        ..OF_BOB
    },
];

/// What is looked at, in its order.
const ORDER: &[Row] = &[
    Row {
        lines: EXTENSION,
        status: 420,
        wanted: Wanted::Lines(&[
            (b"Unsupported", b"path"),
            (b"Unsupported", b"gruu, outbound"),
        ]),
        ..PLAIN
    },
    Row {
        lines: ELSEWHERE,
        status: 404,
        wanted: NOTHING,
        ..PLAIN
    },
    Row {
        lines: NOBODY,
        status: 404,
        wanted: NOTHING,
        ..PLAIN
    },
    Row {
        lines: BY_TCP,
        status: 400,
        wanted: NOTHING,
        ..OF_BOB
    },
    Row {
        lines: TELEPHONE_NUMBER,
        status: 400,
        wanted: NOTHING,
        ..OF_BOB
    },
    Row {
        lines: UNCLOSED,
        status: 400,
        wanted: NOTHING,
        ..OF_BOB
    },
    Row {
        lines: TWICE,
        status: 400,
        wanted: NOTHING,
        ..OF_BOB
    },
    Row {
        lines: BRIEF,
        status: 423,
        wanted: Wanted::Lines(&[(b"Min-Expires", b"60")]),
        ..OF_BOB
    },
    Row {
        others: 1_000_000,
        status: 503,
        wanted: Wanted::Lines(&[(b"Retry-After", b"60")]),
        ..OF_BOB
    },
    Row {
        others: 999_999,
        wanted: BINDING,
        ports: &[41000],
        ..OF_BOB
    },
];

/// Times, parameters, and the ports by which the contacts are reached.
const CONTACTS: &[Row] = &[Row {
    lines: TIMES,
    wanted: Wanted::Lines(&[
        (
            b"Contact",
            b"<sip:bob@198.51.100.7:5070>;q=0.5 ;+sip.instance=\"<urn:1>\";expires=3600",
        ),
        (b"Contact", b"\"Bob\" <sip:bob@198.51.100.7>;expires=86400"),
        (b"Contact", b"sip:b@198.51.100.7:5072;expires=120"),
        (b"Date", DATE),
    ]),
    ports: &[5070, 5060, 5072],
    ..OF_BOB
}];

/// Passwords that do not do.
const PASSWORDS: &[Row] = &[
    Row {
        password: Some(Password {
            name: b"alice",
            password: b"wonder",
            ..BOBS
        }),
        status: 403,
        wanted: NOTHING,
        noted: Some(b"alice"),
        ..OF_BOB
    },
    Row {
        password: Some(Password { age: 300, ..BOBS }),
        status: 401,
        wanted: STALE,
        ..OF_BOB
    },
    Row {
        password: Some(Password {
            address: b"203.0.113.5",
            ..BOBS
        }),
        status: 401,
        wanted: STALE,
        ..OF_BOB
    },
    Row {
        password: Some(Password {
            quality: b", qop=auth, cnonce=\"c\"",
            ..BOBS
        }),
        status: 400,
        wanted: NOTHING,
        ..OF_BOB
    },
    Row {
        password: Some(Password {
            uri: b"sip:elsewhere.example",
            ..BOBS
        }),
        status: 400,
        wanted: NOTHING,
        ..OF_BOB
    },
    Row {
        password: Some(Password {
            name: b"nobody",
            ..BOBS
        }),
        status: 401,
        wanted: CHALLENGED,
        noted: Some(b"nobody"),
        ..OF_BOB
    },
    Row {
        password: Some(Password {
            password: b"wrong",
            ..BOBS
        }),
        status: 401,
        wanted: CHALLENGED,
        noted: Some(b"bob"),
        ..OF_BOB
    },
    Row {
        password: Some(Password {
            algorithm: Algorithm::Md5,
            age: 299,
            ..BOBS
        }),
        wanted: BINDING,
        ports: &[41000],
        ..OF_BOB
    },
];

/// Where nobody has a password.
const CLOSED: &[Row] = &[
    Row {
        status: 403,
        wanted: NOTHING,
        ..PLAIN
    },
    Row {
        status: 403,
        wanted: NOTHING,
        ..OF_BOB
    },
    Row {
        inside: true,
        status: 200,
        wanted: BINDING,
        ports: &[41000],
        ..PLAIN
    },
];

#[test]
fn one_telephone(rt: HostRuntime) {
    changes_are_of_the_request();
    holds(&rt, plays(rt.alloc(), true, ONE), "its repeats and its `*`");
}

#[test]
fn two_telephones(rt: HostRuntime) {
    holds(
        &rt,
        plays(rt.alloc(), true, TWO),
        "behind two translated addresses",
    );
}

#[test]
fn refusals_have_an_order(rt: HostRuntime) {
    holds(&rt, plays(rt.alloc(), true, ORDER), "each refusal");
}

/// Whether the answer for want of a place says when the request may come again.
fn is_told_when(alloc: Global) -> bool {
    match full_answer(alloc) {
        Ok(answer) => is_answer(
            alloc,
            &answer,
            503,
            Wanted::Lines(&[(b"Retry-After", b"60")]),
            [198, 51, 100, 7],
        ),
        Err(_) => false,
    }
}

#[test]
fn too_many_bindings_may_come_again(rt: HostRuntime) {
    holds(&rt, is_told_when(rt.alloc()), "in a minute");
}

#[test]
fn contacts_are_shown(rt: HostRuntime) {
    holds(
        &rt,
        plays(rt.alloc(), true, CONTACTS),
        "times and parameters",
    );
}

#[test]
fn passwords_have_to_be_right(rt: HostRuntime) {
    bindings_need_their_users_password();
    holds(&rt, plays(rt.alloc(), true, PASSWORDS), "each password");
}

#[test]
fn without_a_realm_only_the_inside_registers(rt: HostRuntime) {
    holds(&rt, plays(rt.alloc(), false, CLOSED), "no realm");
}
