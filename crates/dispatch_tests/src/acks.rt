//! ACKs that no call takes.
use crate::holds::holds;
use crate::outbox::Outbox;
use crate::texts::lines_become_alone;
use call_messages::lines::{CALL_ID, FROM, MARKED, TAGGED, VIA, text_of};
use proxy_dispatch::Handled;
use sip_uri::{Hop, Transport};
use std::alloc::Global;
use std::sync::Wait;

const CSEQ: &[u8] = b"CSeq: 1 ACK";

/// A To line with the tag of who answered.
const ANSWERED: &[u8] = b"t: <sip:bob@example.com>;tag=9";

const SEVENTY: &[u8] = b"Max-Forwards: 70";

/// What becomes of an ACK of these lines, where nothing is to be sent.
fn becomes_silently<R: Wait>(rt: &R, alloc: Global, lines: &[&[u8]]) -> Option<Handled> {
    let mut outbox = Outbox::new(alloc);
    let handled = lines_become_alone(rt, alloc, lines, &mut outbox);
    if outbox.is_empty() { handled } else { None }
}

#[test]
fn an_ack_for_the_proxys_own_answer_is_absorbed(rt: HostRuntime) {
    // also where it could not go on
    let lines: [&[&[u8]]; 3] = [
        &[
            b"ACK sip:bob@192.0.2.4 SIP/2.0",
            VIA,
            SEVENTY,
            FROM,
            TAGGED,
            CALL_ID,
            CSEQ,
            b"",
        ],
        &[
            b"ACK sip:bob@example.com SIP/2.0",
            VIA,
            b"Max-Forwards: 0",
            FROM,
            TAGGED,
            CALL_ID,
            CSEQ,
            b"",
        ],
        &[
            b"ACK sip:bob@192.0.2.4 SIP/2.0",
            b"v: nonsense",
            FROM,
            TAGGED,
            CALL_ID,
            CSEQ,
            b"",
        ],
    ];
    for ack in lines {
        holds(
            &rt,
            becomes_silently(&rt, rt.alloc(), ack) == Some(Handled::Absorbed),
            "an ACK with the proxy's own tag",
        );
    }
}

/// The Via line that the ACK below goes on with.
const OWN_VIA: &[u8] =
    b"Via: SIP/2.0/UDP 192.0.2.9:5060;branch=z9hG4bKb2d0abfaf1e08f4822d9c3aa7e678aa5.7.0.65535";

/// A line that says nothing of the way.
const PLAIN: &[u8] = b"s: a call";

/// ACKs that cannot go on: their start lines, their Via and Max-Forwards lines, and one line more.
const CANNOT_GO_ON: [[&[u8]; 4]; 13] = [
    // for the domain, and for the proxy's own address
    [b"ACK sip:bob@Example.com SIP/2.0", VIA, SEVENTY, PLAIN],
    [b"ACK sip:bob@192.0.2.9 SIP/2.0", VIA, SEVENTY, PLAIN],
    // no hop leads further
    [b"ACK sip:bob@example.org SIP/2.0", VIA, SEVENTY, PLAIN],
    [
        b"ACK sip:bob@192.0.2.4 SIP/2.0",
        VIA,
        SEVENTY,
        b"Route: <sip:example.org;lr>",
    ],
    // no more proxy may pass it on
    [
        b"ACK sip:bob@192.0.2.4 SIP/2.0",
        VIA,
        b"Max-Forwards: 0",
        PLAIN,
    ],
    // of another scheme
    [b"ACK tel:1 SIP/2.0", VIA, SEVENTY, PLAIN],
    // its top Via value cannot be read
    [
        b"ACK sip:bob@192.0.2.4 SIP/2.0",
        b"v: nonsense",
        SEVENTY,
        PLAIN,
    ],
    // its branch is none of RFC 3261
    [
        b"ACK sip:bob@192.0.2.4 SIP/2.0",
        b"v: SIP/2.0/UDP 192.0.2.1;branch=a",
        SEVENTY,
        PLAIN,
    ],
    // so many proxies may not pass it on
    [
        b"ACK sip:bob@192.0.2.4 SIP/2.0",
        VIA,
        b"Max-Forwards: 256",
        PLAIN,
    ],
    // its Route value, or its URI, cannot be read
    [
        b"ACK sip:bob@192.0.2.4 SIP/2.0",
        VIA,
        SEVENTY,
        b"Route: sip:192.0.2.5",
    ],
    [b"ACK sip:bob@ SIP/2.0", VIA, SEVENTY, PLAIN],
    // the proxy sent it on before
    [
        b"ACK sip:bob@192.0.2.4;method=ACK SIP/2.0",
        OWN_VIA,
        SEVENTY,
        b"Route: <sip:192.0.2.5:5062;lr>",
    ],
    // its body is cut short
    [b"ACK sip:bob@192.0.2.4 SIP/2.0", VIA, SEVENTY, b"l: 5"],
];

#[test]
fn an_ack_that_cannot_go_on_is_dropped(rt: HostRuntime) {
    for [start, via, forwards, more] in CANNOT_GO_ON {
        let ack: [&[u8]; 9] = [
            start, via, forwards, more, FROM, ANSWERED, CALL_ID, CSEQ, b"",
        ];
        holds(
            &rt,
            becomes_silently(&rt, rt.alloc(), &ack) == Some(Handled::Dropped),
            "an ACK that cannot go on",
        );
    }
}

/// An ACK for the answer of another, which leads out of the domain.
const ACK: [&[u8]; 9] = [
    b"ACK sip:bob@192.0.2.4;method=ACK SIP/2.0",
    VIA,
    SEVENTY,
    b"Route: <sip:192.0.2.9;lr>, <sip:192.0.2.5:5062;lr>",
    FROM,
    ANSWERED,
    CALL_ID,
    CSEQ,
    b"",
];

/// The same as it goes on.
const GONE_ON: [&[u8]; 10] = [
    b"ACK sip:bob@192.0.2.4 SIP/2.0",
    OWN_VIA,
    MARKED,
    b"Max-Forwards: 69",
    b"Route: <sip:192.0.2.5:5062;lr>",
    FROM,
    ANSWERED,
    CALL_ID,
    CSEQ,
    b"",
];

/// The hop of its second Route value.
const FURTHER: Hop = Hop {
    addr: [192, 0, 2, 5],
    port: 5062,
    transport: Transport::Udp,
};

/// Whether that was sent last.
fn has_gone_on(alloc: Global, outbox: &Outbox) -> bool {
    match text_of(alloc, &GONE_ON) {
        Some(text) => outbox.has_sent(FURTHER, &text),
        None => false,
    }
}

/// Whether the ACK goes on so.
fn goes_on<R: Wait>(rt: &R, alloc: Global) -> bool {
    let mut outbox = Outbox::new(alloc);
    let handled = lines_become_alone(rt, alloc, &ACK, &mut outbox);
    handled == Some(Handled::Forwarded) && has_gone_on(alloc, &outbox)
}

#[test]
fn an_ack_for_the_answer_of_another_goes_on(rt: HostRuntime) {
    holds(
        &rt,
        goes_on(&rt, rt.alloc()),
        "an ACK that leads out of the domain",
    );
}
