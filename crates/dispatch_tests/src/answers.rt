//! Which requests are answered without a call, and with which datagram; and which texts are dropped.
use crate::holds::holds;
use crate::outbox::Outbox;
use crate::texts::{Edit, SOURCE, becomes_alone, lines_become_alone};
use call_messages::lines::{CALL_ID, FROM, MARKED, TAGGED, text_of};
use proxy_dispatch::Handled;
use sip_uri::{Hop, Transport};
use std::alloc::Global;
use std::sync::Wait;

/// A request by its edits, the status that it is answered with, what the answer does not have in common with the others, and
/// where it goes.
#[derive(Drop)]
struct Answered<'a> {
    edits: &'a [Edit<'a>],
    status: u16,
    line: &'a [u8],
    via: &'a [u8],
    cseq: &'a [u8],
    to: Hop,
}

const OPTIONS: &[u8] = b"CSeq: 1 OPTIONS";

/// A Via line that the proxy gave the request when it passed before, and the same with its source.
const OWN_VIA: &[u8] =
    b"v: SIP/2.0/UDP 192.0.2.9:5060;branch=z9hG4bK8c31e71e0ddbf1a0e56f5f0279990857.7.3.0";

const OWN_MARKED: &[u8] =
    b"v: SIP/2.0/UDP 192.0.2.9:5060;branch=z9hG4bK8c31e71e0ddbf1a0e56f5f0279990857.7.3.0;received=192.0.2.1";

/// Whether these lines were sent last, to that hop.
fn has_sent(alloc: Global, outbox: &Outbox, to: Hop, lines: &[&[u8]]) -> bool {
    match text_of(alloc, lines) {
        Some(answer) => outbox.has_sent(to, &answer),
        None => false,
    }
}

/// Whether the answer was sent last.
fn has_answered(alloc: Global, outbox: &Outbox, case: &Answered<'_>) -> bool {
    let lines = [
        case.line,
        case.via,
        FROM,
        TAGGED,
        CALL_ID,
        case.cseq,
        b"Content-Length: 0",
        b"",
    ];
    has_sent(alloc, outbox, case.to, &lines)
}

/// Whether the request is answered so.
fn is_answered<R: Wait>(rt: &R, alloc: Global, case: &Answered<'_>) -> bool {
    let mut outbox = Outbox::new(alloc);
    let handled = becomes_alone(rt, alloc, case.edits, &mut outbox);
    handled == Some(Handled::Answered(case.status)) && has_answered(alloc, &outbox, case)
}

#[test]
fn a_request_that_opens_no_call_is_answered(rt: HostRuntime) {
    let cases: [Answered<'_>; 10] = [
        Answered {
            edits: &[(2, b"Max-Forwards: 256")],
            status: 400,
            line: b"SIP/2.0 400 Bad Request",
            via: MARKED,
            cseq: OPTIONS,
            to: SOURCE,
        },
        Answered {
            edits: &[(0, b"OPTIONS tel:1 SIP/2.0")],
            status: 416,
            line: b"SIP/2.0 416 Unsupported URI Scheme",
            via: MARKED,
            cseq: OPTIONS,
            to: SOURCE,
        },
        Answered {
            edits: &[(2, b"Max-Forwards: 0")],
            status: 483,
            line: b"SIP/2.0 483 Too Many Hops",
            via: MARKED,
            cseq: OPTIONS,
            to: SOURCE,
        },
        Answered {
            edits: &[(0, b"OPTIONS sip:carol@example.com SIP/2.0")],
            status: 480,
            line: b"SIP/2.0 480 Temporarily Unavailable",
            via: MARKED,
            cseq: OPTIONS,
            to: SOURCE,
        },
        Answered {
            edits: &[(0, b"OPTIONS sip:bob@example.org SIP/2.0")],
            status: 500,
            line: b"SIP/2.0 500 Server Internal Error",
            via: MARKED,
            cseq: OPTIONS,
            to: SOURCE,
        },
        Answered {
            edits: &[
                (0, b"CANCEL sip:bob@example.com SIP/2.0"),
                (6, b"CSeq: 1 CANCEL"),
            ],
            status: 481,
            line: b"SIP/2.0 481 Call/Transaction Does Not Exist",
            via: MARKED,
            cseq: b"CSeq: 1 CANCEL",
            to: SOURCE,
        },
        Answered {
            edits: &[(7, b"l: 9")],
            status: 400,
            line: b"SIP/2.0 400 Bad Request",
            via: MARKED,
            cseq: OPTIONS,
            to: SOURCE,
        },
        Answered {
            edits: &[
                (0, b"CANCEL sip:bob@example.com SIP/2.0"),
                (6, b"CSeq: 1 CANCEL"),
                (7, b"l: 9"),
            ],
            status: 400,
            line: b"SIP/2.0 400 Bad Request",
            via: MARKED,
            cseq: b"CSeq: 1 CANCEL",
            to: SOURCE,
        },
        Answered {
            edits: &[(7, b"Route: sip:192.0.2.5")],
            status: 400,
            line: b"SIP/2.0 400 Bad Request",
            via: MARKED,
            cseq: OPTIONS,
            to: SOURCE,
        },
        Answered {
            edits: &[(0, b"OPTIONS sip:bob@ SIP/2.0")],
            status: 400,
            line: b"SIP/2.0 400 Bad Request",
            via: MARKED,
            cseq: OPTIONS,
            to: SOURCE,
        },
    ];
    for case in &cases {
        holds(
            &rt,
            is_answered(&rt, rt.alloc(), case),
            "a request that opens no call",
        );
    }
}

#[test]
fn an_answer_goes_back_by_the_top_via_value(rt: HostRuntime) {
    let cases: [Answered<'_>; 6] = [
        // it cannot be read
        Answered {
            edits: &[(1, b"v: nonsense")],
            status: 400,
            line: b"SIP/2.0 400 Bad Request",
            via: b"v: nonsense",
            cseq: OPTIONS,
            to: SOURCE,
        },
        Answered {
            edits: &[
                (0, b"CANCEL sip:bob@example.com SIP/2.0"),
                (6, b"CSeq: 1 CANCEL"),
                (1, b"v: nonsense"),
            ],
            status: 481,
            line: b"SIP/2.0 481 Call/Transaction Does Not Exist",
            via: b"v: nonsense",
            cseq: b"CSeq: 1 CANCEL",
            to: SOURCE,
        },
        Answered {
            edits: &[(1, b"v: nonsense"), (7, b"l: 9")],
            status: 400,
            line: b"SIP/2.0 400 Bad Request",
            via: b"v: nonsense",
            cseq: OPTIONS,
            to: SOURCE,
        },
        // it has no branch, and so the request has no key
        Answered {
            edits: &[(1, b"v: SIP/2.0/UDP 192.0.2.1;rport")],
            status: 400,
            line: b"SIP/2.0 400 Bad Request",
            via: b"v: SIP/2.0/UDP 192.0.2.1;rport=40000;received=192.0.2.1",
            cseq: OPTIONS,
            to: SOURCE,
        },
        // it has a branch that is none of RFC 3261, by which it has a key
        Answered {
            edits: &[(1, b"v: SIP/2.0/UDP 192.0.2.1;rport;branch=a")],
            status: 400,
            line: b"SIP/2.0 400 Bad Request",
            via: b"v: SIP/2.0/UDP 192.0.2.1;rport=40000;branch=a;received=192.0.2.1",
            cseq: OPTIONS,
            to: SOURCE,
        },
        // the proxy put it when the request passed before
        Answered {
            edits: &[(1, OWN_VIA)],
            status: 482,
            line: b"SIP/2.0 482 Loop Detected",
            via: OWN_MARKED,
            cseq: OPTIONS,
            to: Hop {
                addr: [192, 0, 2, 1],
                port: 5060,
                transport: Transport::Udp,
            },
        },
    ];
    for case in &cases {
        holds(
            &rt,
            is_answered(&rt, rt.alloc(), case),
            "an answer by the top Via value",
        );
    }
}

/// A request that asks for an extension, and its answer.
const EXTENDED: [Edit<'static>; 1] = [(7, b"Proxy-Require: foo")];

const BAD_EXTENSION: [&[u8]; 9] = [
    b"SIP/2.0 420 Bad Extension",
    MARKED,
    FROM,
    TAGGED,
    CALL_ID,
    OPTIONS,
    b"Unsupported: foo",
    b"Content-Length: 0",
    b"",
];

/// Whether a 420 says what is not supported.
fn names_the_extension<R: Wait>(rt: &R, alloc: Global) -> bool {
    let mut outbox = Outbox::new(alloc);
    let handled = becomes_alone(rt, alloc, &EXTENDED, &mut outbox);
    handled == Some(Handled::Answered(420)) && has_sent(alloc, &outbox, SOURCE, &BAD_EXTENSION)
}

#[test]
fn a_420_names_the_extension(rt: HostRuntime) {
    holds(
        &rt,
        names_the_extension(&rt, rt.alloc()),
        "a request that asks for an extension",
    );
}

/// Whether a text is dropped, and nothing is sent.
fn is_dropped<R: Wait>(rt: &R, alloc: Global, lines: &[&[u8]]) -> bool {
    let mut outbox = Outbox::new(alloc);
    let handled = lines_become_alone(rt, alloc, lines, &mut outbox);
    handled == Some(Handled::Dropped) && outbox.is_empty()
}

#[test]
fn what_cannot_be_read_is_dropped(rt: HostRuntime) {
    let texts: [&[&[u8]]; 10] = [
        &[b""],
        &[b"OPTIONS sip:bob@example.com", b""],
        // a request without a Via line
        &[b"OPTIONS sip:bob@example.com SIP/2.0", FROM, b""],
        // a header line without a colon
        &[
            b"OPTIONS sip:bob@example.com SIP/2.0",
            MARKED,
            FROM,
            TAGGED,
            CALL_ID,
            OPTIONS,
            b"Subject",
            b"",
        ],
        // the CSeq of another method
        &[
            b"OPTIONS sip:bob@example.com SIP/2.0",
            MARKED,
            FROM,
            TAGGED,
            CALL_ID,
            b"CSeq: 1 INVITE",
            b"",
        ],
        // no length of a body, and two
        &[
            b"OPTIONS sip:bob@example.com SIP/2.0",
            MARKED,
            FROM,
            TAGGED,
            CALL_ID,
            OPTIONS,
            b"l: x",
            b"",
        ],
        &[
            b"OPTIONS sip:bob@example.com SIP/2.0",
            MARKED,
            FROM,
            TAGGED,
            CALL_ID,
            OPTIONS,
            b"l: 0",
            b"l: 1",
            b"",
        ],
        // a response of no class
        &[
            b"SIP/2.0 700 Out of range",
            MARKED,
            FROM,
            TAGGED,
            CALL_ID,
            OPTIONS,
            b"",
        ],
        // a response of another version
        &[
            b"SIP/3.0 200 OK",
            MARKED,
            FROM,
            TAGGED,
            CALL_ID,
            OPTIONS,
            b"",
        ],
        // a response whose body is cut short
        &[
            b"SIP/2.0 486 Busy Here",
            MARKED,
            FROM,
            TAGGED,
            CALL_ID,
            OPTIONS,
            b"l: 5",
            b"",
        ],
    ];
    for lines in texts {
        holds(
            &rt,
            is_dropped(&rt, rt.alloc(), lines),
            "a text that cannot be read",
        );
    }
}
