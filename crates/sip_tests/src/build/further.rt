//! Lines that a message gets where they are asked for: a Record-Route line of a request, further lines of the proxy's own answers,
//! and Reason lines of a CANCEL; byte for byte.
ghost use Rattle.std.specs.Prelude.{◌≡◌, true};
ghost use Rattle.std.specs.List.{list_all};
ghost use Rattle.sip_text.specs.Message.{is_header};
ghost use Rattle.sip_text.specs.Seen.{view_lines};

use crate::build::forwarding::VIA_LINE;
use crate::bytes::is;
use crate::holds::holds;
use crate::messages::{OWN, may_pass, message_of, text_of};
use sip_branch::BranchName;
use sip_build::{
    OwnStatus, first_timestamp, reason_lines, stripping_keeps_answers, stripping_keeps_timestamps,
    write_forwarded, write_forwarded_cancel, write_own_response,
};
use sip_text::{HeaderLine, Message, StartLine};
use sip_uri::SipUri;
use std::alloc::Global;

const BRANCH: BranchName = BranchName {
    key: [0; 16],
    instance: 7,
    context: 3,
    target: 0,
};

const TARGET: &[u8] = b"sip:bob@192.0.2.4";

/// An INVITE with a Timestamp.
const INVITE: [&[u8]; 10] = [
    b"INVITE sip:bob@example.com SIP/2.0",
    b"v: SIP/2.0/UDP 192.0.2.1:5060;branch=z9hG4bKa;rport",
    b"Max-Forwards: 70",
    b"f: <sip:alice@example.com>;tag=1",
    b"t: <sip:bob@example.com>",
    b"i: c1",
    b"CSeq: 1 INVITE",
    b"TIMESTAMP: 54.2",
    b"l: 0",
    b"",
];

/// Whether these lines are the text.
fn are(alloc: Global, text: &[u8], lines: &[&[u8]]) -> bool {
    match text_of(alloc, lines) {
        Some(expected) => is(text, &expected),
        None => false,
    }
}

// ---- a request

/// The INVITE as it goes to the target with that Record-Route line.
fn recorded(alloc: Global, request: &Message<Global>, target: &SipUri<Global>) -> Option<Vec<u8>> {
    if !may_pass(request) {
        return None;
    }
    let StartLine::Request { .. } = request.start() else {
        return None;
    };
    let mut out = Vec::new(alloc);
    let value = Some(b"<sip:192.0.2.9:5060;lr>".as_slice());
    match write_forwarded(request, target, OWN, &BRANCH, value, &mut out) {
        Ok(()) => Some(out),
        Err(_) => None,
    }
}

fn is_recorded_as(alloc: Global, lines: &[&[u8]], expected: &[&[u8]]) -> bool {
    let (Some(request), Ok(target)) = (message_of(alloc, lines), SipUri::read(alloc, TARGET)) else {
        return false;
    };
    match recorded(alloc, &request, &target) {
        Some(text) => are(alloc, &text, expected),
        None => false,
    }
}

#[test]
fn a_record_route_stands_behind_the_own_via(rt: HostRuntime) {
    let alloc = rt.alloc();
    let mut expected: [&[u8]; 12] = [
        b"INVITE sip:bob@192.0.2.4 SIP/2.0",
        VIA_LINE,
        b"Record-Route: <sip:192.0.2.9:5060;lr>",
        INVITE[1],
        b"Max-Forwards: 69",
        INVITE[3],
        INVITE[4],
        INVITE[5],
        INVITE[6],
        INVITE[7],
        INVITE[8],
        b"",
    ];
    holds(
        &rt,
        is_recorded_as(alloc, &INVITE, &expected),
        "an INVITE with a Record-Route line",
    );
    let mut lines = INVITE;
    lines[2] = b"Record-Route: <sip:192.0.2.8;lr>";
    expected[3] = b"Max-Forwards: 70";
    expected[4] = INVITE[1];
    expected[5] = lines[2];
    expected[6] = INVITE[3];
    expected[7] = INVITE[4];
    expected[8] = INVITE[5];
    expected[9] = INVITE[6];
    expected[10] = b"TIMESTAMP: 54.2\r\nl: 0";
    holds(
        &rt,
        is_recorded_as(alloc, &lines, &expected),
        "before the seventy hops and the line of another proxy",
    );
}

// ---- the proxy's own answers

/// The answer of that status to a request, with further lines.
fn answered(
    alloc: Global,
    request: &Message<Global>,
    status: OwnStatus,
    further: &[HeaderLine<'_>],
) -> Option<Vec<u8>>
    requires { list_all is_header (view_lines further.now) ≡ true }
{
    let mut out = Vec::new(alloc);
    match write_own_response(request, status, further, &mut out) {
        Ok(()) => Some(out),
        Err(_) => None,
    }
}

/// The 100 to a request, with its Timestamp.
fn trying(alloc: Global, request: &Message<Global>) -> Option<Vec<u8>> {
    match first_timestamp(request) {
        Some(line) => answered(alloc, request, OwnStatus::Trying, &[line]),
        None => answered(alloc, request, OwnStatus::Trying, &[]),
    }
}

fn is_tried_as(alloc: Global, lines: &[&[u8]], expected: &[&[u8]]) -> bool {
    let Some(request) = message_of(alloc, lines) else {
        return false;
    };
    match trying(alloc, &request) {
        Some(text) => are(alloc, &text, expected),
        None => false,
    }
}

#[test]
fn a_100_has_the_first_timestamp(rt: HostRuntime) {
    stripping_keeps_answers();
    stripping_keeps_timestamps();
    let alloc = rt.alloc();
    let mut lines = INVITE;
    lines[7] = b"TIMESTAMP: 54.2\r\nTimestamp: 55";
    let expected: [&[u8]; 9] = [
        b"SIP/2.0 100 Trying",
        INVITE[1],
        INVITE[3],
        INVITE[4],
        INVITE[5],
        INVITE[6],
        b"TIMESTAMP: 54.2",
        b"Content-Length: 0",
        b"",
    ];
    holds(
        &rt,
        is_tried_as(alloc, &lines, &expected),
        "the 100 to an INVITE with two",
    );
    lines[7] = b"Subject: x";
    let none: [&[u8]; 8] = [
        expected[0],
        INVITE[1],
        INVITE[3],
        INVITE[4],
        INVITE[5],
        INVITE[6],
        b"Content-Length: 0",
        b"",
    ];
    holds(
        &rt,
        is_tried_as(alloc, &lines, &none),
        "the 100 to an INVITE with none",
    );
}

/// Whether the answer of that status to the INVITE begins with that line, and has these lines behind its CSeq.
fn is_answered_as(
    alloc: Global,
    status: OwnStatus,
    further: &[HeaderLine<'_>],
    start: &'static [u8],
    lines: &'static [u8],
) -> bool
    requires { list_all is_header (view_lines further.now) ≡ true }
{
    let expected: [&[u8]; 9] = [
        start,
        INVITE[1],
        INVITE[3],
        b"t: <sip:bob@example.com>;tag=fpa54465d48fc852fc",
        INVITE[5],
        INVITE[6],
        lines,
        b"Content-Length: 0",
        b"",
    ];
    let Some(request) = message_of(alloc, &INVITE) else {
        return false;
    };
    match answered(alloc, &request, status, further) {
        Some(text) => are(alloc, &text, &expected),
        None => false,
    }
}

#[test]
fn answers_have_further_lines(rt: HostRuntime) {
    let alloc = rt.alloc();
    let retry = HeaderLine {
        name: b"Retry-After",
        value: b"10",
    };
    holds(
        &rt,
        is_answered_as(
            alloc,
            OwnStatus::ServiceUnavailable,
            &[retry],
            b"SIP/2.0 503 Service Unavailable",
            b"Retry-After: 10",
        ),
        "a 503 with a Retry-After",
    );
    let first = HeaderLine {
        name: b"WWW-Authenticate",
        value: b"Digest realm=\"a\", nonce=\"1\", algorithm=SHA-256",
    };
    let second = HeaderLine {
        name: b"WWW-Authenticate",
        value: b"Digest realm=\"a\", nonce=\"1\", algorithm=MD5",
    };
    holds(
        &rt,
        is_answered_as(
            alloc,
            OwnStatus::Unauthorized,
            &[first, second],
            b"SIP/2.0 401 Unauthorized",
            b"WWW-Authenticate: Digest realm=\"a\", nonce=\"1\", algorithm=SHA-256\r\nWWW-Authenticate: Digest realm=\"a\", nonce=\"1\", algorithm=MD5",
        ),
        "a 401 with two challenges",
    );
}

// ---- a CANCEL

/// The CANCEL of the INVITE that went to the target, with these lines.
fn cancelled(
    alloc: Global,
    request: &Message<Global>,
    target: &SipUri<Global>,
    reasons: &[HeaderLine<'_>],
) -> Option<Vec<u8>>
    requires { list_all is_header (view_lines reasons.now) ≡ true }
{
    let StartLine::Request { .. } = request.start() else {
        return None;
    };
    let mut out = Vec::new(alloc);
    match write_forwarded_cancel(request, target, OWN, &BRANCH, reasons, &mut out) {
        Ok(()) => Some(out),
        Err(_) => None,
    }
}

/// Whether that CANCEL ends with these lines, behind its CSeq.
fn is_cancelled_as(alloc: Global, reasons: &[HeaderLine<'_>], lines: &'static [u8]) -> bool
    requires { list_all is_header (view_lines reasons.now) ≡ true }
{
    let expected: [&[u8]; 9] = [
        b"CANCEL sip:bob@192.0.2.4 SIP/2.0",
        VIA_LINE,
        b"Max-Forwards: 70",
        b"From: <sip:alice@example.com>;tag=1",
        b"To: <sip:bob@example.com>",
        b"Call-ID: c1",
        b"CSeq: 1 CANCEL",
        lines,
        b"",
    ];
    let (Some(request), Ok(target)) = (message_of(alloc, &INVITE), SipUri::read(alloc, TARGET))
    else {
        return false;
    };
    match cancelled(alloc, &request, &target, reasons) {
        Some(text) => are(alloc, &text, &expected),
        None => false,
    }
}

/// Whether the CANCEL ends with these lines where the caller's CANCEL has two reasons.
fn is_cancelled_as_asked(alloc: Global, lines: &'static [u8]) -> bool {
    let mut asked = INVITE;
    asked[0] = b"CANCEL sip:bob@example.com SIP/2.0";
    asked[6] = b"CSeq: 1 CANCEL";
    asked[7] =
        b"Reason: SIP;cause=200;text=\"Call completed elsewhere\"\r\nSubject: x\r\nreason: Q.850;cause=16";
    let Some(cancel) = message_of(alloc, &asked) else {
        return false;
    };
    match reason_lines(alloc, &cancel) {
        Ok(reasons) => is_cancelled_as(alloc, &reasons, lines),
        Err(_) => false,
    }
}

#[test]
fn a_cancel_says_why(rt: HostRuntime) {
    let alloc = rt.alloc();
    holds(
        &rt,
        is_cancelled_as(alloc, &[], b"Content-Length: 0"),
        "a CANCEL without a reason",
    );
    let success = HeaderLine {
        name: b"Reason",
        value: b"SIP;cause=200;text=\"Call completed elsewhere\"",
    };
    holds(
        &rt,
        is_cancelled_as(
            alloc,
            &[success],
            b"Reason: SIP;cause=200;text=\"Call completed elsewhere\"\r\nContent-Length: 0",
        ),
        "after a 2xx of another branch",
    );
    let failure = HeaderLine {
        name: b"Reason",
        value: b"SIP;cause=603",
    };
    holds(
        &rt,
        is_cancelled_as(
            alloc,
            &[failure],
            b"Reason: SIP;cause=603\r\nContent-Length: 0",
        ),
        "after a 6xx of another branch",
    );
    holds(
        &rt,
        is_cancelled_as_asked(
            alloc,
            b"Reason: SIP;cause=200;text=\"Call completed elsewhere\"\r\nreason: Q.850;cause=16\r\nContent-Length: 0",
        ),
        "with the two lines of the caller's CANCEL",
    );
}
