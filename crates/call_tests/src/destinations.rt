//! Which URI a request names, by which hop it goes there, and how long it rings there at most (RFC 3261 sections 16.5 and
//! 16.6 steps 6, 7 and 11).
use crate::holds::holds;
use crate::requests::{SETUP, request_with, setup_of};
use fork_call::{admitted_target, read_target};
use proxy_config::Setup;
use proxy_routing::{
    CandidateTarget, asks_extension, candidates, have_hops, hop_if_any, hop_to, targets_of,
};
use sip_route::FirstRoute;
use sip_text::Message;
use sip_uri::{Hop, SipUri, Transport};
use std::alloc::{AllocError, Global};

// ---- the URI

/// Start line and CSeq line of a message, and the user and the host of its URI.
type Named = (&'static [u8], &'static [u8], &'static [u8], &'static [u8]);

const NAMED: [Named; 4] = [
    (
        b"OPTIONS sip:bob@example.com SIP/2.0",
        b"CSeq: 1 OPTIONS",
        b"bob",
        b"example.com",
    ),
    (
        b"INVITE sip:eve@192.0.2.7:5061;transport=tcp SIP/2.0",
        b"CSeq: 1 INVITE",
        b"eve",
        b"192.0.2.7",
    ),
    (
        b"OPTIONS SIP:192.0.2.7 SIP/2.0",
        b"CSeq: 1 OPTIONS",
        b"",
        b"192.0.2.7",
    ),
    (
        b"ACK sip:bob@other.example SIP/2.0",
        b"CSeq: 1 ACK",
        b"bob",
        b"other.example",
    ),
];

/// Start line and CSeq line of messages that name no URI which can be read.
const UNREADABLE: [(&[u8], &[u8]); 5] = [
    (b"OPTIONS tel:1 SIP/2.0", b"CSeq: 1 OPTIONS"),
    (b"OPTIONS sips:bob@example.com SIP/2.0", b"CSeq: 1 OPTIONS"),
    (b"OPTIONS sip:bob@ SIP/2.0", b"CSeq: 1 OPTIONS"),
    (b"OPTIONS sip:a@h:0 SIP/2.0", b"CSeq: 1 OPTIONS"),
    (b"SIP/2.0 200 OK", b"CSeq: 1 OPTIONS"),
];

/// Whether a message names a URI of this user and this host.
fn names(alloc: Global, message: &Message<Global>, user: &[u8], host: &[u8]) -> bool {
    match read_target(alloc, message) {
        Ok(uri) => {
            uri.user().unwrap_or(b"") == user
                && uri.host() == host
                && admitted_target(alloc, message).is_ok()
        }
        Err(_) => false,
    }
}

/// Whether a message names a URI that can be read.
fn names_any(alloc: Global, message: &Message<Global>) -> bool {
    read_target(alloc, message).is_ok()
}

#[test]
fn a_request_names_its_target(rt: HostRuntime) {
    let alloc = rt.alloc();
    for (start, cseq, user, host) in NAMED {
        match request_with(alloc, &[(0, start), (6, cseq)]) {
            Some(request) => holds(
                &rt,
                names(alloc, &request, user, host),
                "the URI that a request names",
            ),
            None => holds(&rt, false, "a request"),
        }
    }
}

#[test]
fn a_uri_that_cannot_be_read_is_no_target(rt: HostRuntime) {
    let alloc = rt.alloc();
    for (start, cseq) in UNREADABLE {
        match request_with(alloc, &[(0, start), (6, cseq)]) {
            Some(message) => holds(&rt, !names_any(alloc, &message), "no URI that can be read"),
            None => holds(&rt, false, "a message"),
        }
    }
}

// ---- the hop

/// A hop that a Route value leads to.
const BY_ROUTE: Hop = Hop {
    addr: [192, 0, 2, 8],
    port: 5062,
    transport: Transport::Udp,
};

/// A hop that a URI leads to.
const BY_URI: Hop = Hop {
    addr: [192, 0, 2, 4],
    port: 5060,
    transport: Transport::Udp,
};

/// The same over TCP.
const OVER_TCP: Hop = Hop {
    addr: [192, 0, 2, 4],
    port: 5060,
    transport: Transport::Tcp,
};

/// Where the first Route value leads, the URI of a target, and the hop that its request goes by, where the proxy has no
/// streams.
const HOPS: [(FirstRoute, &[u8], Option<Hop>); 8] = [
    (FirstRoute::Absent, b"sip:bob@192.0.2.4", Some(BY_URI)),
    (FirstRoute::Absent, b"sip:bob@example.com", None),
    (FirstRoute::Absent, b"sip:bob@192.0.2.4;transport=tcp", None),
    (FirstRoute::To(OVER_TCP), b"sip:bob@192.0.2.4", None),
    (FirstRoute::NoHop, b"sip:bob@192.0.2.4", None),
    (
        FirstRoute::To(BY_ROUTE),
        b"sip:bob@192.0.2.4",
        Some(BY_ROUTE),
    ),
    (
        FirstRoute::To(BY_ROUTE),
        b"sip:bob@example.com",
        Some(BY_ROUTE),
    ),
    (
        FirstRoute::To(BY_ROUTE),
        b"sip:bob@192.0.2.4;transport=tcp",
        Some(BY_ROUTE),
    ),
];

/// The same where it has streams.
const STREAMED: [(FirstRoute, &[u8], Option<Hop>); 5] = [
    (FirstRoute::Absent, b"sip:bob@192.0.2.4", Some(BY_URI)),
    (
        FirstRoute::Absent,
        b"sip:bob@192.0.2.4;transport=tcp",
        Some(OVER_TCP),
    ),
    (FirstRoute::Absent, b"sip:bob@192.0.2.4;transport=tls", None),
    (FirstRoute::NoHop, b"sip:bob@192.0.2.4;transport=tcp", None),
    (
        FirstRoute::To(OVER_TCP),
        b"sip:bob@192.0.2.7",
        Some(OVER_TCP),
    ),
];

/// Whether a request to the URI of this text goes by that hop.
fn goes_by(
    alloc: Global,
    setup: &Setup<Global>,
    route: FirstRoute,
    text: &[u8],
    hop: Option<Hop>,
) -> bool {
    match SipUri::read(alloc, text) {
        Ok(uri) => hop_to(setup, route, &uri) == hop,
        Err(_) => false,
    }
}

#[test]
fn a_route_value_goes_before_the_uri(rt: HostRuntime) {
    let Some(setup) = setup_of(rt.alloc(), SETUP) else {
        return holds(&rt, false, "a setup");
    };
    for (route, text, hop) in HOPS {
        holds(
            &rt,
            goes_by(rt.alloc(), &setup, route, text, hop),
            "the hop that a request goes by",
        );
    }
    let setup = setup.with_streams();
    for (route, text, hop) in STREAMED {
        holds(
            &rt,
            goes_by(rt.alloc(), &setup, route, text, hop),
            "the hop that it goes by where there are streams",
        );
    }
}

#[test]
fn a_route_over_tcp_leads_nowhere_without_streams(rt: HostRuntime) {
    let route = FirstRoute::To(OVER_TCP);
    holds(&rt, hop_if_any(false, route).is_none(), "without streams");
    let hop = hop_if_any(true, route);
    holds(&rt, hop == Some(OVER_TCP), "with streams");
}

// ---- how long it rings

/// The longest time of the one target of a request to a URI.
fn longest_to(
    alloc: Global,
    setup: &Setup<Global>,
    inside: bool,
    uri: &SipUri<Global>,
) -> Option<u64> {
    match candidates(alloc, setup, inside, FirstRoute::Absent, uri) {
        Ok(found) => match found.as_slice() {
            [candidate] => Some(candidate.longest()),
            _ => None,
        },
        Err(_) => None,
    }
}

/// The same of a request to the URI of this text, inside the domain or not.
fn longest_of(alloc: Global, setup: &Setup<Global>, inside: bool, text: &[u8]) -> Option<u64> {
    match SipUri::read(alloc, text) {
        Ok(uri) => longest_to(alloc, setup, inside, &uri),
        Err(_) => None,
    }
}

/// Whether both a location and a URI that is none ring so long at most.
fn ring(alloc: Global, setup: &Setup<Global>, longest: u64) -> bool {
    longest_of(alloc, setup, true, b"sip:bob@example.com") == Some(longest)
        && longest_of(alloc, setup, false, b"sip:eve@192.0.2.7") == Some(longest)
}

/// Whether they do as the setup is read, and as it is said.
fn ring_as_said(alloc: Global) -> bool {
    match setup_of(alloc, SETUP) {
        Some(setup) => ring(alloc, &setup, 181_000) && ring(alloc, &setup.ringing(15_000), 15_000),
        None => false,
    }
}

#[test]
fn a_target_rings_as_long_as_is_said(rt: HostRuntime) {
    let well = ring_as_said(rt.alloc());
    holds(&rt, well, "how long the targets of a request ring");
}

// ---- the targets as a fork takes them

/// Whether the one target is tried at q 1 by the key of this URI.
fn is_taken(alloc: Global, found: &[CandidateTarget<'_, Global>], uri: &SipUri<Global>) -> bool {
    match targets_of(alloc, found) {
        Ok(targets) => match targets.as_slice() {
            [target] => target.q() == 1000 && target.key() == uri.key(),
            _ => false,
        },
        Err(_) => false,
    }
}

/// Whether the one target of a request is this URI by that hop, and a fork takes it so.
fn is_target(
    alloc: Global,
    found: Result<Vec<CandidateTarget<'_, Global>>, AllocError>,
    uri: &SipUri<Global>,
    hop: Hop,
) -> bool {
    let Ok(found) = found else {
        return false;
    };
    match found.as_slice() {
        [candidate] => {
            have_hops(&found)
                && candidate.hop() == Some(hop)
                && candidate.uri().key() == uri.key()
                && is_taken(alloc, &found, uri)
        }
        _ => false,
    }
}

/// Whether a request to this URI, outside of the domain, has it as its one target.
fn goes_to(alloc: Global, setup: &Setup<Global>, uri: &SipUri<Global>) -> bool {
    let found = candidates(alloc, setup, false, FirstRoute::Absent, uri);
    is_target(alloc, found, uri, BY_URI)
}

/// The same of the URI that leads to a host.
fn goes_to_host(alloc: Global) -> bool {
    match (
        setup_of(alloc, SETUP),
        SipUri::read(alloc, b"sip:bob@192.0.2.4"),
    ) {
        (Some(setup), Ok(uri)) => goes_to(alloc, &setup, &uri),
        _ => false,
    }
}

#[test]
fn a_uri_outside_the_domain_is_the_one_target(rt: HostRuntime) {
    holds(&rt, goes_to_host(rt.alloc()), "the target and its hop");
}

/// Whether a request with this line asks for an extension.
fn asks(alloc: Global, line: &'static [u8]) -> Option<bool> {
    match request_with(alloc, &[(7, line)]) {
        Some(request) => Some(asks_extension(&request)),
        None => None,
    }
}

#[test]
fn proxy_require_asks_for_an_extension(rt: HostRuntime) {
    let alloc = rt.alloc();
    let asked = asks(alloc, b"Proxy-Require: sec-agree");
    holds(&rt, asked == Some(true), "an extension of the proxy");
    let asked = asks(alloc, b"Require: sec-agree");
    holds(&rt, asked == Some(false), "one of the telephone");
}
