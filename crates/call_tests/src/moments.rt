//! A setup at a moment at which contacts are bound to a user: its targets, and by which hops requests reach them (RFC 3261 sections 10,
//! 16.5 and 16.6). What a request loses, and what it gets, on its way (sections 16.6 step 4 and 22.3).
use crate::holds::holds;
use crate::requests::{Change, SETUP, opened_with, request_with, sent_to, setup_of};
use proxy_config::{BoundContact, DialogToken, Location, Setup};
use proxy_routing::hop_to;
use sip_route::FirstRoute;
use sip_uri::{Hop, SipUri, Transport};
use std::alloc::Global;

/// The address of a telephone behind one that translates it.
const PRIVATE: Hop = Hop {
    addr: [10, 0, 0, 2],
    port: 5070,
    transport: Transport::Udp,
};

/// The translated one.
const TRANSLATED: Hop = Hop {
    addr: [198, 51, 100, 7],
    port: 41_000,
    transport: Transport::Udp,
};

/// That of another telephone with the same private address.
const ANOTHER: Hop = Hop {
    addr: [203, 0, 113, 5],
    port: 5060,
    transport: Transport::Udp,
};

/// One that is reached by its connection alone.
const CONNECTED: Hop = Hop {
    addr: [203, 0, 113, 6],
    port: 33_000,
    transport: Transport::Back(5060),
};

/// A contact of bob, which is reached by this hop.
fn contact(hop: Hop) -> BoundContact<'static> {
    BoundContact::new(b"sip:bob@10.0.0.2:5070", b"bob@10.0.0.2:5070", 500, hop)
}

/// Whether locations have these keys and hops.
fn are(locations: &[Location<Global>], wanted: &[(&[u8], Hop)]) -> bool {
    let mut well = locations.len() == wanted.len();
    for (location, (key, hop)) in locations.iter().zip(wanted) {
        well = well && location.key() == *key && location.next_hop() == Some(*hop);
    }
    well
}

/// Where bob is reached without a contact.
const LOCATED: (&[u8], Hop) = (
    b"bob@192.0.2.4",
    Hop {
        addr: [192, 0, 2, 4],
        port: 5060,
        transport: Transport::Udp,
    },
);

/// The hops of contacts, and the targets of bob that are wanted, without connections.
const MOMENTS: [(&[Hop], &[(&[u8], Hop)]); 4] = [
    (&[], &[LOCATED]),
    (
        &[TRANSLATED, ANOTHER],
        &[
            LOCATED,
            (b"bob@10.0.0.2:5070\n198.51.100.7:41000", TRANSLATED),
            (b"bob@10.0.0.2:5070\n203.0.113.5:5060", ANOTHER),
        ],
    ),
    (
        &[PRIVATE, TRANSLATED, PRIVATE],
        &[
            LOCATED,
            (b"bob@10.0.0.2:5070", PRIVATE),
            (b"bob@10.0.0.2:5070\n198.51.100.7:41000", TRANSLATED),
        ],
    ),
    (&[CONNECTED], &[LOCATED]),
];

/// The contacts with these hops.
fn contacts_of(alloc: Global, hops: &[Hop]) -> Option<Vec<BoundContact<'static>>> {
    let mut contacts = Vec::new(alloc);
    for hop in hops {
        match contacts.push(contact(*hop)) {
            Ok(()) => {}
            Err(_) => return None,
        }
    }
    Some(contacts)
}

/// Whether the targets of bob are these, where his contacts have those hops.
fn rings(alloc: Global, setup: &Setup<Global>, hops: &[Hop], wanted: &[(&[u8], Hop)]) -> bool {
    let Some(contacts) = contacts_of(alloc, hops) else {
        return false;
    };
    match setup.at_moment(alloc, b"bob", &contacts) {
        Ok(moment) => are(moment.locations(), wanted),
        Err(_) => false,
    }
}

#[test]
fn contacts_are_targets_behind_the_locations(rt: HostRuntime) {
    let Some(setup) = setup_of(rt.alloc(), SETUP) else {
        return holds(&rt, false, "a setup");
    };
    for (hops, wanted) in MOMENTS {
        let well = rings(rt.alloc(), &setup, hops, wanted);
        holds(&rt, well, "the targets of a user");
    }
    let setup = setup.with_streams();
    let wanted: [(&[u8], Hop); 2] = [
        LOCATED,
        (b"bob@10.0.0.2:5070\n203.0.113.6:33000", CONNECTED),
    ];
    let well = rings(rt.alloc(), &setup, &[CONNECTED], &wanted);
    holds(&rt, well, "a contact with a connection");
}

// ---- the way to a contact

/// By which hop a request to the URI of this text goes, where the contacts have these hops.
fn way(alloc: Global, hops: &[Hop], route: FirstRoute, text: &[u8]) -> Option<Hop> {
    let setup = setup_of(alloc, SETUP)?;
    let contacts = contacts_of(alloc, hops)?;
    match (setup.with_ways(alloc, &contacts), SipUri::read(alloc, text)) {
        (Ok(setup), Ok(uri)) => hop_to(&setup, route, &uri),
        _ => None,
    }
}

/// The hop that a setup has for the URI of this text, where the contacts have these hops.
fn own_way(alloc: Global, hops: &[Hop], text: &[u8]) -> Option<Hop> {
    let setup = setup_of(alloc, SETUP)?;
    let contacts = contacts_of(alloc, hops)?;
    match (setup.with_ways(alloc, &contacts), SipUri::read(alloc, text)) {
        (Ok(setup), Ok(uri)) => setup.way_to(&uri),
        _ => None,
    }
}

#[test]
fn a_setup_has_ways_to_contacts(rt: HostRuntime) {
    let both = [TRANSLATED, ANOTHER];
    let last = own_way(rt.alloc(), &both, b"sip:bob@10.0.0.2:5070");
    holds(&rt, last == Some(ANOTHER), "to the last of them");
    let other = own_way(rt.alloc(), &both, b"sip:bob@10.0.0.2");
    holds(&rt, other.is_none(), "to another URI");
}

#[test]
fn a_request_to_a_contact_goes_by_its_hop(rt: HostRuntime) {
    let to = b"sip:bob@10.0.0.2:5070";
    let both = [TRANSLATED, ANOTHER];
    let none = way(rt.alloc(), &[], FirstRoute::Absent, to);
    holds(&rt, none == Some(PRIVATE), "without a contact");
    let last = way(rt.alloc(), &both, FirstRoute::Absent, to);
    holds(&rt, last == Some(ANOTHER), "to the last of its contacts");
    let routed = way(rt.alloc(), &both, FirstRoute::To(PRIVATE), to);
    holds(&rt, routed == Some(PRIVATE), "with a Route value");
    let other = way(rt.alloc(), &both, FirstRoute::Absent, b"sip:bob@10.0.0.2");
    holds(&rt, other != Some(ANOTHER), "to another URI");
}

// ---- on the way

/// Whether this stands in a text.
fn stands_in(text: &[u8], part: &[u8]) -> bool {
    let len = part.len();
    len > 0 && text.windows(len).any(|found| found == part)
}

/// Whether this stands in the request that goes to the first target where the request has these changes, and is opened with this token, if
/// there is one.
fn sends_with(
    alloc: Global,
    setup: &Setup<Global>,
    token: Option<DialogToken>,
    changes: &[Change],
    part: &[u8],
) -> Option<bool> {
    let request = request_with(alloc, changes)?;
    match opened_with(alloc, setup, token, request) {
        Some(Ok(mut state)) => {
            let sent = sent_to(&mut state, 0)?;
            Some(stands_in(&sent.bytes, part))
        }
        Some(Err(_)) | None => None,
    }
}

/// The same without a token.
fn sends(alloc: Global, setup: &Setup<Global>, changes: &[Change], part: &[u8]) -> Option<bool> {
    sends_with(alloc, setup, None, changes, part)
}

/// An INVITE whose Call-ID is `r1`.
const INVITE: [Change; 3] = [
    (0, b"INVITE sip:bob@example.com SIP/2.0"),
    (5, b"i: r1"),
    (6, b"CSeq: 1 INVITE"),
];

/// What its token is made with.
const TOKEN: DialogToken = DialogToken {
    secret: [7; 32],
    second: 1_764_400_000,
};

#[test]
fn a_dialog_gets_its_token(rt: HostRuntime) {
    let line = b"Record-Route: <sip:192.0.2.9:5060;lr;d=692a9b8086d211409520864e>\r\n";
    let Some(setup) = setup_of(rt.alloc(), SETUP) else {
        return holds(&rt, false, "a setup");
    };
    let setup = setup.recording();
    let none = sends(rt.alloc(), &setup, &INVITE, line);
    holds(&rt, none == Some(false), "without a token");
    let beside = sends_with(rt.alloc(), &setup, Some(TOKEN), &INVITE, line);
    holds(&rt, beside == Some(true), "with one beside the setup");
    let setup = setup.with_token(TOKEN);
    holds(&rt, setup.token().is_some(), "a token");
    let some = sends(rt.alloc(), &setup, &INVITE, line);
    holds(&rt, some == Some(true), "with a token");
}

/// Whether the credentials of the request go on.
fn passes(alloc: Global, setup: &Setup<Global>) -> Option<bool> {
    let line: Change = (
        7,
        b"Proxy-Authorization: Digest realm=\"here\", username=\"x\"",
    );
    sends(alloc, setup, &[line], b"Proxy-Authorization")
}

#[test]
fn credentials_for_the_realm_do_not_go_on(rt: HostRuntime) {
    let Some(setup) = setup_of(rt.alloc(), SETUP) else {
        return holds(&rt, false, "a setup");
    };
    holds(&rt, setup.realm().is_none(), "no realm");
    let on = passes(rt.alloc(), &setup);
    holds(&rt, on == Some(true), "without a realm");
    match Vec::from_slice(rt.alloc(), b"here") {
        Ok(realm) => {
            let off = passes(rt.alloc(), &setup.of_realm(realm));
            holds(&rt, off == Some(false), "with the realm");
        }
        Err(_) => holds(&rt, false, "memory"),
    }
}
