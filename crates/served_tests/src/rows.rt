//! One telephone and another of the same user, whom a proxy challenges by both algorithms: what each REGISTER, call and request of a dialog gets
//! (RFC 3261 sections 10.3, 16 and 22).
use crate::credentials::{ALICE, BOB, Password};
use crate::histories::{AWAY, ELSEWHERE, INSIDE, INVITE, REGISTER};
use crate::holds::holds;
use crate::outgoing::Outgoing;
use crate::turns::{Asked, Goes, missed, sent_for, service_of};
use sip_uri::{Hop, Transport};
use std::alloc::Global;
use std::sync::Wait;
use std::time::Clock;

pub const REALM: &[u8] =
    b"own 192.0.2.9 5060\ninstance 7\ndomain example.com\nrealm example.com SHA-256,MD5\ntrust 192.0.2.128/25\n";

/// Who has a password, by both algorithms.
pub const USERS: &[u8] =
    b"bob 2664cba6663a734ef3a6fefc0c0d0821 baf9ceb3dcf070665c835868f20bd230ca09393a0c44efca3690ee35eaebee0b\nalice 2ea68a710b96a2d11cb42c2b3758287a aef00b0c72d1333f4e221e71543980dc183f9772cf5f3606b5c304116cccb89a\n";

/// The SHA-256 of `bob:example.com:secret`.
const BOB_SHA256: Password = Password {
    hash: "baf9ceb3dcf070665c835868f20bd230ca09393a0c44efca3690ee35eaebee0b",
    ..BOB
};

/// What goes to the telephone.
const ANSWER: Goes = Goes {
    to: AWAY,
    front: "",
    part: "",
};

const OKAY: Goes = Goes {
    front: "SIP/2.0 200 ",
    part: "\r\nContact: <sip:bob@10.0.0.2:5070>;expires=600\r\nDate: ",
    ..ANSWER
};

const REFUSED: Goes = Goes {
    front: "SIP/2.0 400 ",
    ..ANSWER
};

const STALE: Goes = Goes {
    front: "SIP/2.0 401 ",
    part: "algorithm=MD5, stale=true\r\n",
    ..ANSWER
};

const LATE: Goes = Goes {
    front: "SIP/2.0 500 ",
    ..ANSWER
};

/// The second REGISTER of bob's telephone, by SHA-256.
const BOUND: Asked = Asked {
    at: 1_000,
    cseq: 2,
    password: Some(BOB_SHA256),
    ..REGISTER
};

/// It is challenged by both algorithms, bound by the response to one, knows its repeat, and takes no smaller or equal number; `*` takes all away,
/// with `Expires: 0` alone.
const ONE: &[(Asked, Goes)] = &[
    (
        REGISTER,
        Goes {
            front: "SIP/2.0 401 ",
            part: "\r\nWWW-Authenticate: Digest realm=\"example.com\", qop=\"auth\", nonce=\"692a9b80c27c1c5e011756125c6c64359af62591\", algorithm=SHA-256\r\nWWW-Authenticate: Digest realm=\"example.com\", qop=\"auth\", nonce=\"692a9b80c27c1c5e011756125c6c64359af62591\", algorithm=MD5\r\nContent-Length: 0\r\n",
            ..ANSWER
        },
    ),
    (BOUND, OKAY),
    (BOUND, OKAY),
    (Asked { at: 1_001, ..BOUND }, LATE),
    (
        Asked {
            at: 1_002,
            cseq: 1,
            ..BOUND
        },
        LATE,
    ),
    (
        Asked {
            at: 1_003,
            cseq: 3,
            lines: "Contact: *\r\nExpires: 60\r\n",
            ..BOUND
        },
        REFUSED,
    ),
    (
        Asked {
            at: 1_004,
            cseq: 3,
            lines: "Contact: *\r\nExpires: 0\r\n",
            ..BOUND
        },
        Goes {
            front: "SIP/2.0 200 ",
            part: "\r\nCSeq: 3 REGISTER\r\nDate: ",
            ..ANSWER
        },
    ),
    (
        Asked {
            at: 1_005,
            ..INVITE
        },
        Goes {
            to: INSIDE,
            front: "SIP/2.0 480 ",
            part: "",
        },
    ),
];

/// Each table stands in a function of its own: a proof reads a constant wherever it is named, once for each call beside it.
fn one() -> &'static [(Asked, Goes)] {
    ONE
}

/// A request within a dialog to the private address that both telephones have.
const WITHIN: Asked = Asked {
    at: 5_000,
    method: "ACK",
    uri: "sip:bob@10.0.0.2:5070",
    to: "<sip:bob@example.com>;tag=9",
    call: "c9",
    lines: "Route: <sip:192.0.2.9:5060;lr;d=692a9b80fd17cf3055dc3043>\r\n",
    ..INVITE
};

/// Two with the same private address, behind two addresses that translate it: both ring, and what is sent within a dialog goes to the last one.
const TWO: &[(Asked, Goes)] = &[
    (BOUND, OKAY),
    (
        Asked {
            source: ELSEWHERE,
            call: "r2",
            ..BOUND
        },
        Goes {
            to: ELSEWHERE,
            front: "SIP/2.0 200 ",
            part: "\r\nContact: <sip:bob@10.0.0.2:5070>;expires=600\r\nContact: <sip:bob@10.0.0.2:5070>;expires=600\r\n",
        },
    ),
    (
        Asked {
            at: 2_000,
            ..INVITE
        },
        Goes {
            to: AWAY,
            front: "INVITE sip:bob@10.0.0.2:5070 SIP/2.0\r\n",
            part: "",
        },
    ),
    (
        Asked {
            at: 3_000,
            call: "c2",
            ..INVITE
        },
        Goes {
            to: ELSEWHERE,
            front: "INVITE sip:bob@10.0.0.2:5070 SIP/2.0\r\n",
            part: "",
        },
    ),
    (
        WITHIN,
        Goes {
            to: ELSEWHERE,
            front: "ACK sip:bob@10.0.0.2:5070 SIP/2.0\r\n",
            part: "",
        },
    ),
];

fn two() -> &'static [(Asked, Goes)] {
    TWO
}

/// For how long contacts are bound: too short a time refuses all of a request; of more than sixteen the one goes that would end first.
const TIMES: &[(Asked, Goes)] = &[
    (
        Asked {
            lines: "Contact: <sip:bob@10.0.0.3>, <sip:bob@10.0.0.2:5070>;expires=30\r\n",
            ..BOUND
        },
        Goes {
            front: "SIP/2.0 423 ",
            part: "\r\nMin-Expires: 60\r\n",
            ..ANSWER
        },
    ),
    (
        Asked {
            cseq: 3,
            lines: "Contact: <sip:bob@10.0.0.2:5070>;expires=x\r\n",
            ..BOUND
        },
        Goes {
            front: "SIP/2.0 200 ",
            part: "\r\nCSeq: 3 REGISTER\r\nContact: <sip:bob@10.0.0.2:5070>;expires=3600\r\nDate: ",
            ..ANSWER
        },
    ),
    (
        Asked {
            cseq: 4,
            lines: "Contact: <sip:bob@10.0.0.2:5070>;expires=999999\r\n",
            ..BOUND
        },
        Goes {
            front: "SIP/2.0 200 ",
            part: "\r\nContact: <sip:bob@10.0.0.2:5070>;expires=86400\r\n",
            ..ANSWER
        },
    ),
    (
        Asked {
            cseq: 5,
            lines: "Contact: <sip:bob@10.0.0.2:5071>, <sip:bob@10.0.0.2:5072>;expires=100, <sip:bob@10.0.0.2:5073>, <sip:bob@10.0.0.2:5074>, <sip:bob@10.0.0.2:5075>, <sip:bob@10.0.0.2:5076>, <sip:bob@10.0.0.2:5077>, <sip:bob@10.0.0.2:5078>\r\nContact: <sip:bob@10.0.0.2:5079>, <sip:bob@10.0.0.2:5080>, <sip:bob@10.0.0.2:5081>, <sip:bob@10.0.0.2:5082>, <sip:bob@10.0.0.2:5083>, <sip:bob@10.0.0.2:5084>, <sip:bob@10.0.0.2:5085>\r\n",
            ..BOUND
        },
        Goes {
            front: "SIP/2.0 200 ",
            part: "\r\nContact: <sip:bob@10.0.0.2:5071>;expires=3600\r\nContact: <sip:bob@10.0.0.2:5072>;expires=100\r\n",
            ..ANSWER
        },
    ),
    (
        Asked {
            cseq: 6,
            lines: "Contact: <sip:bob@10.0.0.2:5086>;expires=60\r\n",
            ..BOUND
        },
        Goes {
            front: "SIP/2.0 200 ",
            part: "\r\nContact: <sip:bob@10.0.0.2:5071>;expires=3600\r\nContact: <sip:bob@10.0.0.2:5073>;expires=3600\r\n",
            ..ANSWER
        },
    ),
];

fn times() -> &'static [(Asked, Goes)] {
    TIMES
}

/// Passwords of others, and credentials that do not do.
const PASSWORDS: &[(Asked, Goes)] = &[
    (
        Asked {
            password: Some(ALICE),
            ..BOUND
        },
        Goes {
            front: "SIP/2.0 403 ",
            ..ANSWER
        },
    ),
    (
        Asked {
            cseq: 3,
            password: Some(Password {
                age: 300,
                ..BOB_SHA256
            }),
            ..BOUND
        },
        STALE,
    ),
    (
        Asked {
            cseq: 4,
            password: Some(Password {
                address: Some([203, 0, 113, 5]),
                ..BOB_SHA256
            }),
            ..BOUND
        },
        STALE,
    ),
    (
        Asked {
            cseq: 5,
            password: Some(Password {
                more: ", qop=auth, cnonce=\"c\"",
                ..BOB_SHA256
            }),
            ..BOUND
        },
        REFUSED,
    ),
    (
        Asked {
            cseq: 6,
            password: Some(Password {
                uri: Some("sip:elsewhere.example"),
                ..BOB_SHA256
            }),
            ..BOUND
        },
        REFUSED,
    ),
];

fn passwords() -> &'static [(Asked, Goes)] {
    PASSWORDS
}

/// A call of bob's to elsewhere, from an address that is not trusted.
const CALL: Asked = Asked {
    source: AWAY,
    from: "sip:bob@example.com",
    uri: "sip:x@203.0.113.1",
    to: "<sip:x@203.0.113.1>",
    call: "s1",
    ..INVITE
};

const NAMELESS: Asked = Asked {
    from: "sip:anonymous@anonymous.invalid",
    ..CALL
};

const EVES: Asked = Asked {
    from: "sip:eve@elsewhere.example",
    ..CALL
};

const ASKED: Goes = Goes {
    front: "SIP/2.0 407 ",
    part: "\r\nProxy-Authenticate: Digest realm=\"example.com\", qop=\"auth\", nonce=\"",
    ..ANSWER
};

const FORWARDED: Goes = Goes {
    to: Hop {
        addr: [203, 0, 113, 1],
        port: 5060,
        transport: Transport::Udp,
    },
    front: "INVITE sip:x@203.0.113.1 SIP/2.0\r\n",
    part: "\r\nRecord-Route: <sip:192.0.2.9:5060;lr;d=692a9b81",
};

const FORBIDDEN: Goes = Goes {
    front: "SIP/2.0 403 ",
    ..ANSWER
};

/// Who calls to elsewhere is asked for his password, and a stranger is refused, whomever he calls.
const CALLS: &[(Asked, Goes)] = &[
    (CALL, ASKED),
    (
        Asked {
            call: "s2",
            password: Some(BOB_SHA256),
            ..CALL
        },
        FORWARDED,
    ),
    (
        Asked {
            call: "s3",
            password: Some(ALICE),
            ..CALL
        },
        FORBIDDEN,
    ),
    (
        Asked {
            call: "s4",
            ..NAMELESS
        },
        ASKED,
    ),
    (
        Asked {
            call: "s5",
            password: Some(BOB),
            ..NAMELESS
        },
        FORWARDED,
    ),
    (Asked { call: "s6", ..EVES }, FORBIDDEN),
    (
        Asked {
            call: "s7",
            uri: "sip:bob@example.com",
            to: "<sip:bob@example.com>",
            ..EVES
        },
        FORBIDDEN,
    ),
];

fn calls() -> &'static [(Asked, Goes)] {
    CALLS
}

/// Whether a service by this configuration follows each of the turns.
fn follows<R: Wait + Clock>(rt: &R, alloc: Global, turns: &[(Asked, Goes)]) -> bool {
    match service_of(alloc, REALM, Some(USERS), 100) {
        Some(service) => missed(rt, alloc, &service, turns).is_none(),
        None => false,
    }
}

#[test]
fn a_telephone_is_bound_by_either_algorithm(rt: HostRuntime) {
    holds(&rt, follows(&rt, rt.alloc(), one()), "one telephone");
}

#[test]
fn two_telephones_have_the_same_private_address(rt: HostRuntime) {
    holds(&rt, follows(&rt, rt.alloc(), two()), "two telephones");
}

#[test]
fn contacts_are_bound_for_a_time(rt: HostRuntime) {
    holds(&rt, follows(&rt, rt.alloc(), times()), "times of contacts");
}

#[test]
fn credentials_have_to_be_right(rt: HostRuntime) {
    holds(&rt, follows(&rt, rt.alloc(), passwords()), "credentials");
}

#[test]
fn callers_are_asked_who_they_are(rt: HostRuntime) {
    holds(&rt, follows(&rt, rt.alloc(), calls()), "callers");
}

/// A password of nobody, and a wrong one of bob.
const UNKNOWN: Password = Password {
    name: "nobody",
    hash: "00000000000000000000000000000000",
    ..BOB
};

const WRONG: Password = Password {
    hash: "00000000000000000000000000000000",
    ..BOB
};

/// What goes out for a REGISTER with such a password.
fn answer_for<R: Wait + Clock>(rt: &R, alloc: Global, password: Password) -> Option<Outgoing> {
    let service = service_of(alloc, REALM, Some(USERS), 100)?;
    let asked = Asked {
        password: Some(password),
        ..BOUND
    };
    sent_for(rt, alloc, &service, &asked)
}

/// Whether the same one answer goes out of both, and asks for a password.
fn are_alike(one: &Outgoing, other: &Outgoing) -> bool {
    match (one.sent(), other.sent()) {
        ([one], [other]) => {
            let bytes = one.bytes.as_slice();
            bytes.starts_with(b"SIP/2.0 401 ") && bytes == other.bytes.as_slice()
        }
        _ => false,
    }
}

#[test]
fn an_unknown_user_is_answered_as_a_wrong_password(rt: HostRuntime) {
    let unknown = answer_for(&rt, rt.alloc(), UNKNOWN);
    let wrong = answer_for(&rt, rt.alloc(), WRONG);
    let well = match (&unknown, &wrong) {
        (Some(unknown), Some(wrong)) => are_alike(unknown, wrong),
        _ => false,
    };
    holds(&rt, well, "each byte");
}
