//! By which setup a request is opened (RFC 3261 sections 10, 16.5 and 16.6).
use crate::holds::holds;
use crate::texts::{bindings_of, request_of, settings_of};
use authentication::Rule;
use proxy_config::{DialogToken, Location, Setup};
use proxy_dispatch::Decision;
use proxy_routing::hop_to;
use service_config::ServiceSettings;
use service_decisions::{Place, contacts_of, may_use_gateways, place_of, setup_for};
use sip_route::FirstRoute;
use sip_text::Message;
use sip_uri::{Hop, SipUri, Transport};
use std::alloc::{AllocError, Global};

const INSIDE: Hop = Hop {
    addr: [192, 0, 2, 130],
    port: 5060,
    transport: Transport::Udp,
};

const GATEWAY: Hop = Hop {
    addr: [192, 0, 2, 20],
    port: 5060,
    transport: Transport::Udp,
};

/// Two addresses that translate the address of a telephone.
const TRANSLATED: Hop = Hop {
    addr: [198, 51, 100, 7],
    port: 41_000,
    transport: Transport::Udp,
};

const ANOTHER: Hop = Hop {
    addr: [203, 0, 113, 5],
    port: 5060,
    transport: Transport::Udp,
};

const TO_CAROL: &[u8] = b"t: <sip:carol@example.com>";

/// What is asked: by which rule and from where the request comes, its start line and its To, and the ends of the bindings of the user who
/// counts.
type Asked<'a> = (Rule, Hop, &'a [u8], &'a [u8], &'a [(Hop, u64)]);

/// By which setup it is opened; None where it was not asked for want of memory.
type Made = Option<Decision<Global>>;

/// The setup by which a request is opened at a place, at 1,000 ms.
fn made_at(
    alloc: Global,
    settings: &ServiceSettings<Global>,
    request: &Message<Global>,
    place: &Place<Global>,
    asked: &Asked<'_>,
    token: Option<DialogToken>,
) -> Made {
    let bindings = bindings_of(alloc, asked.4)?;
    let contacts = contacts_of(alloc, &bindings, 1_000).ok()?;
    setup_for(
        alloc,
        settings.setup(),
        settings.gateways(),
        may_use_gateways(settings, asked.0, asked.1),
        place,
        &contacts,
        token,
        request,
    )
    .ok()
}

/// The setup by which it is opened by these settings.
fn made_by(
    alloc: Global,
    settings: &ServiceSettings<Global>,
    asked: &Asked<'_>,
    token: Option<DialogToken>,
) -> Made {
    let request = request_of(alloc, asked.2, asked.3)?;
    match place_of(alloc, settings.setup(), asked.0, &request) {
        Ok(place) => made_at(alloc, settings, &request, &place, asked, token),
        Err(AllocError) => None,
    }
}

/// The setup by which it is opened.
fn made(alloc: Global, asked: &Asked<'_>, token: Option<DialogToken>) -> Made {
    match settings_of(alloc) {
        Some(settings) => made_by(alloc, &settings, asked, token),
        None => None,
    }
}

/// Whether the setup as it stands leads there.
fn stands(made: Made) -> bool {
    matches!(made, Some(Decision::Opens))
}

/// Whether a target has this user, this key and this hop.
fn is_target(location: &Location, user: &[u8], wanted: (&[u8], Hop)) -> bool {
    location.user() == user && location.key() == wanted.0 && location.next_hop() == Some(wanted.1)
}

/// Whether the targets of a setup are these, by their keys and hops.
fn has_targets(setup: &Setup<Global>, user: &[u8], wanted: &[(&[u8], Hop)]) -> bool {
    let mut well = setup.locations().len() == wanted.len();
    for (location, target) in setup.locations().iter().zip(wanted) {
        well = well && is_target(location, user, *target);
    }
    well
}

/// Whether the targets of this user are these.
fn reaches(made: Made, user: &[u8], wanted: &[(&[u8], Hop)]) -> bool {
    match made {
        Some(Decision::OpensBy(setup)) => has_targets(&setup, user, wanted),
        _ => false,
    }
}

const FOR_CAROL: &[u8] = b"INVITE sip:carol@example.com SIP/2.0";

#[test]
fn bound_contacts_ring_until_their_end(rt: HostRuntime) {
    let both: [(Hop, u64); 2] = [(TRANSLATED, 1_001), (ANOTHER, 2_000)];
    let one: [(Hop, u64); 2] = [(TRANSLATED, 1_000), (ANOTHER, 2_000)];
    let asked: Asked<'_> = (Rule::Stranger, TRANSLATED, FOR_CAROL, TO_CAROL, &both);
    let wanted: [(&[u8], Hop); 2] = [
        (b"carol@10.0.0.2:5070\n198.51.100.7:41000", TRANSLATED),
        (b"carol@10.0.0.2:5070\n203.0.113.5:5060", ANOTHER),
    ];
    let well = reaches(made(rt.alloc(), &asked, None), b"carol", &wanted);
    holds(&rt, well, "both are there");
    let asked: Asked<'_> = (Rule::Trusted, INSIDE, FOR_CAROL, TO_CAROL, &one);
    let wanted: [(&[u8], Hop); 1] = [(b"carol@10.0.0.2:5070\n203.0.113.5:5060", ANOTHER)];
    let well = reaches(made(rt.alloc(), &asked, None), b"carol", &wanted);
    holds(&rt, well, "one has ended");
}

#[test]
fn a_user_with_locations_alone_costs_no_setup(rt: HostRuntime) {
    let asked: Asked<'_> = (
        Rule::Trusted,
        INSIDE,
        b"INVITE sip:bob@example.com SIP/2.0",
        b"t: <sip:bob@example.com>",
        &[],
    );
    let well = stands(made(rt.alloc(), &asked, None));
    holds(&rt, well, "a location");
}

const ABROAD: &[u8] = b"INVITE sip:+15550100@example.com SIP/2.0";

const TO_ABROAD: &[u8] = b"t: <sip:+15550100@example.com>";

#[test]
fn the_world_is_reached_by_gateways(rt: HostRuntime) {
    let wanted: [(&[u8], Hop); 2] = [
        (b"+15550100@192.0.2.20", GATEWAY),
        (
            b"+15550100@192.0.2.21:5070;x=y",
            Hop {
                addr: [192, 0, 2, 21],
                port: 5070,
                transport: Transport::Udp,
            },
        ),
    ];
    for rule in [Rule::Trusted, Rule::Password] {
        let asked: Asked<'_> = (rule, INSIDE, ABROAD, TO_ABROAD, &[]);
        let well = reaches(made(rt.alloc(), &asked, None), b"+15550100", &wanted);
        holds(&rt, well, "who may use them");
    }
    for (rule, source) in [
        (Rule::Trusted, GATEWAY),
        (Rule::InDialog, INSIDE),
        (Rule::Stranger, INSIDE),
    ] {
        let asked: Asked<'_> = (rule, source, ABROAD, TO_ABROAD, &[]);
        let well = stands(made(rt.alloc(), &asked, None));
        holds(&rt, well, "who may not");
    }
}

/// By which hop a request to the contact's own address goes.
fn way(alloc: Global, rule: Rule, to: &[u8]) -> Option<Hop> {
    let asked: Asked<'_> = (
        rule,
        INSIDE,
        b"BYE sip:carol@10.0.0.2:5070 SIP/2.0",
        to,
        &[(TRANSLATED, 2_000), (ANOTHER, 2_000)],
    );
    let Some(Decision::OpensBy(setup)) = made(alloc, &asked, None) else {
        return None;
    };
    match SipUri::read(alloc, b"sip:carol@10.0.0.2:5070") {
        Ok(uri) => hop_to(&setup, FirstRoute::Absent, &uri),
        Err(_) => None,
    }
}

#[test]
fn a_request_of_a_dialog_reaches_a_contact(rt: HostRuntime) {
    for rule in [Rule::Trusted, Rule::InDialog] {
        let well = way(rt.alloc(), rule, TO_CAROL) == Some(ANOTHER);
        holds(&rt, well, "to the last contact with its key");
    }
    let well = way(rt.alloc(), Rule::Password, TO_CAROL).is_none();
    holds(&rt, well, "by another rule");
    let well = way(
        rt.alloc(),
        Rule::Trusted,
        b"t: <sip:carol@elsewhere.example>",
    )
    .is_none();
    holds(&rt, well, "for a user of another domain");
}

const TOKEN: DialogToken = DialogToken {
    secret: [7; 32],
    second: 1_764_400_000,
};

/// Whether it is opened with the token.
fn has_token(made: Made) -> bool {
    match made {
        Some(Decision::OpensWith(token)) => token.second == TOKEN.second,
        Some(Decision::OpensBy(setup)) => setup.token().is_some(),
        _ => false,
    }
}

#[test]
fn a_request_that_opens_a_dialog_gets_a_token(rt: HostRuntime) {
    for start in [
        FOR_CAROL,
        ABROAD,
        b"INVITE sip:eve@elsewhere.example SIP/2.0",
    ] {
        let asked: Asked<'_> = (Rule::Trusted, INSIDE, start, TO_CAROL, &[]);
        let well = has_token(made(rt.alloc(), &asked, Some(TOKEN)));
        holds(&rt, well, "an INVITE");
    }
    let asked: Asked<'_> = (
        Rule::Trusted,
        INSIDE,
        FOR_CAROL,
        TO_CAROL,
        &[(ANOTHER, 2_000)],
    );
    let well = has_token(made(rt.alloc(), &asked, Some(TOKEN)));
    holds(&rt, well, "an INVITE to a contact");
    let asked: Asked<'_> = (
        Rule::Trusted,
        INSIDE,
        b"OPTIONS sip:carol@example.com SIP/2.0",
        TO_CAROL,
        &[(ANOTHER, 2_000)],
    );
    let well = !has_token(made(rt.alloc(), &asked, Some(TOKEN)));
    holds(&rt, well, "another request");
}
