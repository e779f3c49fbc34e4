//! Which requests are admitted and open a call, and how each fault is answered.
use crate::holds::holds;
use crate::requests::{
    Change, OWN, SETUP, SOURCE, opened, opened_by, read_message, request_with, sent_to, setup_of,
};
use call_messages::lines::{REQUEST, text_of};
use call_model::{Cause, Datagram, TriedContacts};
use call_state::CallState;
use fork_call::is_openable;
use fork_context::Kind;
use proxy_config::Setup;
use proxy_routing::{
    RequestRejection, has_via, is_responsible_for, validate_read, validate_request,
};
use sip_text::Message;
use sip_uri::{Hop, SipUri, Transport};
use sip_via::TopVia;
use std::alloc::Global;

#[test]
fn each_fault_has_its_status(rt: HostRuntime) {
    let given = [
        (RequestRejection::BadRequest, Some(400)),
        (RequestRejection::Scheme, Some(416)),
        (RequestRejection::Hops, Some(483)),
        (RequestRejection::Loop, Some(482)),
        (RequestRejection::Extension, Some(420)),
        (RequestRejection::NoTarget, Some(480)),
        (RequestRejection::NoHop, Some(500)),
        (RequestRejection::NoMemory, None),
    ];
    for (fault, status) in given {
        holds(&rt, fault.status() == status, "the status of a fault");
    }
}

/// What a message is admitted as, if it is.
fn admitted(alloc: Global, message: Message<Global>) -> Option<Message<Global>> {
    let setup = setup_of(alloc, SETUP)?;
    match validate_request(alloc, &setup, message, SOURCE) {
        Ok(request) => Some(request),
        Err(_) => None,
    }
}

/// The same of a message of whose top Via value was read before.
fn admitted_read(alloc: Global, message: Message<Global>) -> Option<Message<Global>> {
    let setup = setup_of(alloc, SETUP)?;
    let Ok(top) = TopVia::of(&alloc, &message, SOURCE) else {
        return None;
    };
    match validate_read(alloc, &setup, message, SOURCE, &top) {
        Ok(request) => Some(request),
        Err(_) => None,
    }
}

/// Whether a request begins with the request's own start line.
fn is_options(request: Option<Message<Global>>) -> bool {
    match request {
        Some(request) => request.method() == Some(b"OPTIONS".as_slice()),
        None => false,
    }
}

/// Whether the request is admitted, and begins with its own start line then.
fn is_admitted(alloc: Global) -> Option<bool> {
    let message = request_with(alloc, &[])?;
    let read = request_with(alloc, &[])?;
    Some(is_options(admitted(alloc, message)) && is_options(admitted_read(alloc, read)))
}

#[test]
fn a_request_is_admitted(rt: HostRuntime) {
    holds(
        &rt,
        is_admitted(rt.alloc()) == Some(true),
        "a request with its source",
    );
}

/// Whether the top Via value of the request with these changes can be read.
fn is_readable(alloc: Global, changes: &[Change]) -> Option<bool> {
    let message = request_with(alloc, changes)?;
    Some(has_via(&message))
}

#[test]
fn a_via_value_is_readable(rt: HostRuntime) {
    let plain = is_readable(rt.alloc(), &[]);
    holds(&rt, plain == Some(true), "as it stands");
    let old: [Change; 1] = [(1, b"v: SIP/2.0/UDP 192.0.2.1;branch=1")];
    let without = is_readable(rt.alloc(), &old);
    holds(&rt, without == Some(false), "a branch of before RFC 3261");
}

/// Whether a proxy that is set up so is responsible for the URI that a text spells.
fn names(alloc: Global, setup: &Setup<Global>, text: &[u8]) -> Option<bool> {
    match SipUri::read(alloc, text) {
        Ok(uri) => Some(is_responsible_for(setup, &uri)),
        Err(_) => None,
    }
}

/// The same of a proxy that has this setup.
fn names_by_any_port(alloc: Global, setup: &[u8], text: &[u8]) -> Option<bool> {
    let setup = setup_of(alloc, setup)?;
    names(alloc, &setup, text)
}

/// The same where the own address counts with the own port alone.
fn names_by_own_port(alloc: Global, setup: &[u8], text: &[u8]) -> Option<bool> {
    let setup = setup_of(alloc, setup)?.with_own_port();
    names(alloc, &setup, text)
}

/// The setup of a proxy at another port.
const ELSEWHERE: &[u8] = b"own 192.0.2.9 5062\ninstance 7\ndomain example.com\n";

/// Setups and URIs, and whether the proxy is responsible: where the own address counts with any port, and with the own
/// port alone.
const NAMED: [(&[u8], &[u8], bool, bool); 13] = [
    (SETUP, b"sip:bob@example.com", true, true),
    (SETUP, b"sip:Example.COM", true, true),
    (SETUP, b"sip:bob@example.com:5081", true, true),
    (SETUP, b"sip:bob@192.0.2.9", true, true),
    (SETUP, b"sip:192.0.2.9:05060", true, true),
    (SETUP, b"sip:bob@192.0.2.9:5081", true, false),
    (SETUP, b"sip:bob@192.0.2.9:5081;ob", true, false),
    // it leads to no hop
    (SETUP, b"sip:bob@192.0.2.9:5081;transport=tcp", true, true),
    (SETUP, b"sip:bob@192.0.02.9", false, false),
    (SETUP, b"sip:bob@example.org", false, false),
    // 5060 is the port where none is named
    (ELSEWHERE, b"sip:bob@192.0.2.9", true, false),
    (ELSEWHERE, b"sip:bob@192.0.2.9:5062", true, true),
    (ELSEWHERE, b"sip:bob@example.com", true, true),
];

#[test]
fn the_domain_and_the_own_address_name_the_proxy(rt: HostRuntime) {
    for (setup, uri, any_port, own_port) in NAMED {
        holds(
            &rt,
            names_by_any_port(rt.alloc(), setup, uri) == Some(any_port),
            "a URI that the proxy is responsible for",
        );
        holds(
            &rt,
            names_by_own_port(rt.alloc(), setup, uri) == Some(own_port),
            "a URI that it is responsible for by its own port",
        );
    }
}

// ---- which requests may open a call

/// Whether the request with this start line and this CSeq may open a call.
fn may_open(alloc: Global, start: &'static [u8], cseq: &'static [u8]) -> Option<bool> {
    let message = request_with(alloc, &[(0, start), (6, cseq)])?;
    Some(is_openable(&message))
}

#[test]
fn an_ack_and_a_cancel_open_no_call(rt: HostRuntime) {
    let given: [(&'static [u8], &'static [u8], bool); 6] = [
        (
            b"INVITE sip:bob@example.com SIP/2.0",
            b"CSeq: 1 INVITE",
            true,
        ),
        (b"BYE sip:bob@example.com SIP/2.0", b"CSeq: 1 BYE", true),
        (b"Ack sip:bob@example.com SIP/2.0", b"CSeq: 1 Ack", true),
        (b"ACK sip:bob@example.com SIP/2.0", b"CSeq: 1 ACK", false),
        (
            b"CANCEL sip:bob@example.com SIP/2.0",
            b"CSeq: 1 CANCEL",
            false,
        ),
        (b"SIP/2.0 200 OK", b"CSeq: 1 INVITE", false),
    ];
    for (start, cseq, well) in given {
        holds(
            &rt,
            may_open(rt.alloc(), start, cseq) == Some(well),
            "a message that may open a call",
        );
    }
}

// ---- a call that opens

/// The parts of the call that the request with these changes opens.
fn opened_with(alloc: Global, changes: &[Change]) -> Option<Result<CallState, RequestRejection>> {
    let setup = setup_of(alloc, SETUP)?;
    opened_by(alloc, &setup, changes)
}

/// The same, where it opens.
fn call_with(alloc: Global, changes: &[Change]) -> Option<CallState> {
    match opened_with(alloc, changes) {
        Some(Ok(state)) => Some(state),
        Some(Err(_)) | None => None,
    }
}

/// The request as it goes to the location of its user.
const FORWARDED: [&[u8]; 10] = [
    b"OPTIONS sip:bob@192.0.2.4 SIP/2.0",
    b"Via: SIP/2.0/UDP 192.0.2.9:5060;branch=z9hG4bK8c31e71e0ddbf1a0e56f5f0279990857.7.3.0",
    b"v: SIP/2.0/UDP 192.0.2.1:5060;branch=z9hG4bKa;rport=40000;received=192.0.2.1",
    b"Max-Forwards: 69",
    b"f: <sip:alice@example.com>;tag=1",
    b"t: <sip:bob@example.com>",
    b"i: c1",
    b"CSeq: 1 OPTIONS",
    b"l: 0",
    b"",
];

/// Whether a datagram takes the request of the first branch there, as these lines.
fn is_sent_as(alloc: Global, sent: &Datagram, to: Hop, lines: &[&[u8]]) -> bool {
    match text_of(alloc, lines) {
        Some(text) => sent.to == to && sent.cause == Cause::Request(0) && sent.bytes == text,
        None => false,
    }
}

/// Whether the request of the first branch goes there, as these lines.
fn sends(alloc: Global, state: &mut CallState, to: Hop, lines: &[&[u8]]) -> bool {
    match sent_to(state, 0) {
        Some(sent) => is_sent_as(alloc, &sent, to, lines),
        None => false,
    }
}

#[test]
fn a_request_opens_a_call(rt: HostRuntime) {
    let alloc = rt.alloc();
    let Some(mut state) = call_with(alloc, &[]) else {
        return holds(&rt, false, "a request opens a call");
    };
    holds(&rt, state.opened().number() == 3, "its number");
    holds(&rt, state.opened().own() == OWN, "its address");
    holds(&rt, state.opened().kind() == Kind::Other, "its kind");
    holds(&rt, state.book().context().count() == 1, "one branch");
    holds(&rt, state.owed().is_empty(), "nothing is owed");
    let to = Hop::over_udp([192, 0, 2, 4], 5060);
    holds(
        &rt,
        sends(alloc, &mut state, to, &FORWARDED),
        "the request to the location",
    );
}

/// How many answers are owed in a call that the request with these changes opens.
fn owed_with(alloc: Global, changes: &[Change]) -> Option<usize> {
    let state = call_with(alloc, changes)?;
    Some(state.owed().len())
}

#[test]
fn an_invite_is_owed_a_100(rt: HostRuntime) {
    let changes: [Change; 2] = [
        (0, b"INVITE sip:bob@example.com SIP/2.0"),
        (6, b"CSeq: 1 INVITE"),
    ];
    holds(
        &rt,
        owed_with(rt.alloc(), &changes) == Some(1),
        "one answer is owed",
    );
}

/// Where the request of the first branch goes.
fn hop_of(state: &mut CallState) -> Option<Hop> {
    match sent_to(state, 0) {
        Some(sent) => Some(sent.to),
        None => None,
    }
}

/// Where it goes in the call that the request with these changes opens.
fn hop_with(alloc: Global, changes: &[Change]) -> Option<Hop> {
    let mut state = call_with(alloc, changes)?;
    hop_of(&mut state)
}

/// Changes of the request, and the last number of the address and the port that it goes to.
const WAYS: [(Change, u8, u16); 9] = [
    ((0, b"OPTIONS sip:bob@EXAMPLE.com SIP/2.0"), 4, 5060),
    ((0, b"OPTIONS sip:bob@192.0.2.9 SIP/2.0"), 4, 5060),
    ((0, b"OPTIONS sip:bob@192.0.2.7:5061 SIP/2.0"), 7, 5061),
    ((0, b"OPTIONS sip:192.0.2.7 SIP/2.0"), 7, 5060),
    ((2, b"Max-Forwards: 1"), 4, 5060),
    ((2, b"Subject: x"), 4, 5060),
    ((7, b"Route: <sip:192.0.2.8;lr>"), 8, 5060),
    ((7, b"Route: <sip:192.0.2.9;lr>"), 4, 5060),
    (
        (7, b"Route: <sip:192.0.2.9;lr>, <sip:192.0.2.8:5062;lr>"),
        8,
        5062,
    ),
];

#[test]
fn each_request_goes_its_way(rt: HostRuntime) {
    for (change, last, port) in WAYS {
        let to = Hop::over_udp([192, 0, 2, last], port);
        holds(
            &rt,
            hop_with(rt.alloc(), &[change]) == Some(to),
            "where a request goes",
        );
    }
}

/// Changes of the request, and which contacts of a 3xx its call tries, as the proxy has no streams.
const URIS: [(Change, TriedContacts); 6] = [
    ((2, b"Subject: x"), TriedContacts::OverUdp),
    (
        (0, b"OPTIONS sip:bob@EXAMPLE.com SIP/2.0"),
        TriedContacts::OverUdp,
    ),
    (
        (0, b"OPTIONS sip:bob@192.0.2.9 SIP/2.0"),
        TriedContacts::OverUdp,
    ),
    ((7, b"Route: <sip:192.0.2.8;lr>"), TriedContacts::OverUdp),
    (
        (0, b"OPTIONS sip:bob@192.0.2.7:5061 SIP/2.0"),
        TriedContacts::NoContacts,
    ),
    (
        (0, b"OPTIONS sip:192.0.2.7 SIP/2.0"),
        TriedContacts::NoContacts,
    ),
];

/// Which contacts of a 3xx the call tries that the request with this change opens.
fn tried_with(alloc: Global, change: Change) -> Option<TriedContacts> {
    let state = call_with(alloc, &[change])?;
    Some(state.opened().tried())
}

#[test]
fn the_proxy_is_responsible_for_the_domain_alone(rt: HostRuntime) {
    for (change, tried) in URIS {
        holds(
            &rt,
            tried_with(rt.alloc(), change) == Some(tried),
            "which contacts are tried",
        );
    }
}

// ---- why none opens

/// The fault with which the request with these changes opens no call.
fn fault_with(alloc: Global, changes: &[Change]) -> Option<RequestRejection> {
    match opened_with(alloc, changes) {
        Some(Err(fault)) => Some(fault),
        Some(Ok(_)) | None => None,
    }
}

/// The Via line of a branch of the proxy, for the request as it stands.
const PASSED: &[u8] =
    b"v: SIP/2.0/UDP 192.0.2.9:5060;branch=z9hG4bK8c31e71e0ddbf1a0e56f5f0279990857.7.3.0";

/// The same, for the request with `Proxy-Require: x`.
const PASSED_REQUIRING: &[u8] =
    b"v: SIP/2.0/UDP 192.0.2.9:5060;branch=z9hG4bK7a3f7bd1f95a0cbf8f999f148e0ab728.7.3.0";

/// Changes of the request, and the fault that each makes.
const FAULTS: [(Change, RequestRejection); 15] = [
    (
        (1, b"v: SIP/2.0/UDP 192.0.2.1:5060;branch=a;rport"),
        RequestRejection::BadRequest,
    ),
    (
        (1, b"v: SIP/2.0/UDP 192.0.2.1:5060;rport"),
        RequestRejection::BadRequest,
    ),
    ((1, b"v: SIP/2.0/UDP"), RequestRejection::BadRequest),
    ((2, b"Max-Forwards: x"), RequestRejection::BadRequest),
    ((2, b"Max-Forwards: 256"), RequestRejection::BadRequest),
    ((7, b"Route: sip:192.0.2.8"), RequestRejection::BadRequest),
    (
        (0, b"OPTIONS sip:a@h:0 SIP/2.0"),
        RequestRejection::BadRequest,
    ),
    ((0, b"OPTIONS tel:1 SIP/2.0"), RequestRejection::Scheme),
    ((2, b"Max-Forwards: 0"), RequestRejection::Hops),
    ((7, PASSED), RequestRejection::Loop),
    ((7, b"Proxy-Require: x"), RequestRejection::Extension),
    (
        (0, b"OPTIONS sip:eve@example.com SIP/2.0"),
        RequestRejection::NoTarget,
    ),
    (
        (0, b"OPTIONS sip:example.com SIP/2.0"),
        RequestRejection::NoTarget,
    ),
    (
        (0, b"OPTIONS sip:x@other.example SIP/2.0"),
        RequestRejection::NoHop,
    ),
    (
        (7, b"Route: <sip:other.example;lr>"),
        RequestRejection::NoHop,
    ),
];

#[test]
fn each_fault_is_told(rt: HostRuntime) {
    for (change, fault) in FAULTS {
        holds(
            &rt,
            fault_with(rt.alloc(), &[change]) == Some(fault),
            "why a request opens no call",
        );
    }
}

/// Two changes of the request, each of which makes a fault, and that which is told.
const ORDER: [(Change, Change, RequestRejection); 7] = [
    (
        (0, b"OPTIONS tel:1 SIP/2.0"),
        (2, b"Max-Forwards: x"),
        RequestRejection::BadRequest,
    ),
    (
        (0, b"OPTIONS tel:1 SIP/2.0"),
        (2, b"Max-Forwards: 0"),
        RequestRejection::Scheme,
    ),
    ((2, b"Max-Forwards: 0"), (7, PASSED), RequestRejection::Hops),
    (
        (2, b"Proxy-Require: x"),
        (7, PASSED_REQUIRING),
        RequestRejection::Loop,
    ),
    (
        (0, b"OPTIONS sip:eve@example.com SIP/2.0"),
        (7, b"Proxy-Require: x"),
        RequestRejection::Extension,
    ),
    (
        (0, b"OPTIONS sip:x@other.example SIP/2.0"),
        (7, b"Proxy-Require: x"),
        RequestRejection::Extension,
    ),
    (
        (0, b"OPTIONS sip:eve@example.com SIP/2.0"),
        (7, b"Route: <sip:other.example;lr>"),
        RequestRejection::NoTarget,
    ),
];

#[test]
fn the_first_fault_is_told(rt: HostRuntime) {
    for (first, second, fault) in ORDER {
        holds(
            &rt,
            fault_with(rt.alloc(), &[first, second]) == Some(fault),
            "which of two faults is told",
        );
    }
}

// ---- Route values that lead to the proxy itself

/// The proxy itself.
const HOME: Hop = Hop {
    addr: [192, 0, 2, 9],
    port: 5060,
    transport: Transport::Udp,
};

/// The hop of the location of bob.
const BOBS: Hop = Hop {
    addr: [192, 0, 2, 4],
    port: 5060,
    transport: Transport::Udp,
};

/// Another proxy.
const BEYOND: Hop = Hop {
    addr: [192, 0, 2, 8],
    port: 5062,
    transport: Transport::Udp,
};

/// Where the request of the first branch goes in the call that the request with this change opens for a service.
fn hop_by_service(alloc: Global, change: Change) -> Option<Hop> {
    let setup = setup_of(alloc, SETUP)?.for_a_service();
    match opened_by(alloc, &setup, &[change]) {
        Some(Ok(mut state)) => hop_of(&mut state),
        Some(Err(_)) | None => None,
    }
}

/// Route lines, and where the request goes from a service, and from any other proxy.
const ROUTES: [(&[u8], Hop, Hop); 7] = [
    (b"Route: <sip:192.0.2.9;lr>", BOBS, BOBS),
    (b"Route: <sip:192.0.2.9;lr>, <sip:192.0.2.9;lr>", BOBS, HOME),
    (
        b"Route: \"a, b\" <sip:192.0.2.9:05060;transport=udp;lr>,<sip:p@192.0.2.9> , <sip:192.0.2.9:5060>",
        BOBS,
        HOME,
    ),
    (
        b"Route: <sip:192.0.2.9;lr>, <sip:192.0.2.9;lr>, <sip:192.0.2.8:5062;lr>",
        BEYOND,
        HOME,
    ),
    // one that stands behind another is not at the front
    (
        b"Route: <sip:192.0.2.8:5062;lr>, <sip:192.0.2.9;lr>",
        BEYOND,
        BEYOND,
    ),
    (
        b"Route: <sip:192.0.2.9;lr>, <sip:192.0.2.8:5062;lr>, <sip:192.0.2.9;lr>",
        BEYOND,
        BEYOND,
    ),
    (b"Subject: x", BOBS, BOBS),
];

#[test]
fn a_service_sends_itself_nothing_by_a_route(rt: HostRuntime) {
    for (line, by_service, by_another) in ROUTES {
        holds(
            &rt,
            hop_by_service(rt.alloc(), (7, line)) == Some(by_service),
            "where a service sends a request",
        );
        holds(
            &rt,
            hop_with(rt.alloc(), &[(7, line)]) == Some(by_another),
            "where another proxy sends it",
        );
    }
}

/// Appends so many Route lines that lead to the proxy.
fn add_routes(text: &mut Vec<u8>, count: u32) -> bool {
    let mut well = true;
    for _ in 0..count {
        well = well
            && text
                .extend_from_slice(b"Route: <sip:192.0.2.9;lr>\r\n")
                .is_ok();
    }
    well
}

/// The text of the request with so many Route lines that lead to the proxy.
fn routed_text(alloc: Global, count: u32) -> Option<Vec<u8>> {
    let mut text = text_of(alloc, &REQUEST[..8])?;
    if add_routes(&mut text, count) && text.extend_from_slice(b"\r\n").is_ok() {
        Some(text)
    } else {
        None
    }
}

/// The request with so many of them.
fn routed(alloc: Global, count: u32) -> Option<Message<Global>> {
    match routed_text(alloc, count) {
        Some(text) => read_message(alloc, &text),
        None => None,
    }
}

/// The call that the request with 100 of them opens for a service.
fn call_of_routed(alloc: Global) -> Option<CallState> {
    let setup = setup_of(alloc, SETUP)?.for_a_service();
    let request = routed(alloc, 100)?;
    match opened(alloc, &setup, request) {
        Some(Ok(state)) => Some(state),
        Some(Err(_)) | None => None,
    }
}

#[test]
fn a_hundred_own_routes_open_one_call(rt: HostRuntime) {
    let alloc = rt.alloc();
    match call_of_routed(alloc) {
        Some(mut state) => holds(
            &rt,
            sends(alloc, &mut state, BOBS, &FORWARDED),
            "the request goes on without a Route value",
        ),
        None => holds(&rt, false, "the request opens a call"),
    }
}

/// What a setup whose one location is at the proxy's own address sends first.
fn hop_of_spiral(alloc: Global) -> Option<Hop> {
    let setup = setup_of(
        alloc,
        b"own 192.0.2.9 5060\ninstance 7\ndomain example.com\nlocation bob 1000 sip:carol@192.0.2.9\n",
    )?
    .for_a_service();
    match opened_by(alloc, &setup, &[]) {
        Some(Ok(mut state)) => hop_of(&mut state),
        Some(Err(_)) | None => None,
    }
}

#[test]
fn a_location_at_the_own_address_is_reached(rt: HostRuntime) {
    holds(
        &rt,
        hop_of_spiral(rt.alloc()) == Some(HOME),
        "a target of the domain at the own address",
    );
}
