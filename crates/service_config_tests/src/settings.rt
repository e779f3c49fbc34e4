//! What a configuration sets a service up with.
use crate::holds::{holds, settings_of, settings_with};
use service_config::{Expirations, Gateway, Net, Realm, ServiceSettings};
use sip_digest::Algorithms;
use sip_uri::{Hop, Transport};
use sip_via::Own;
use std::alloc::{AllocError, Global};
use std::process::Abort;

/// A configuration with each line.
const TEXT: &[u8] =
    b"# the office\n\nown 192.0.2.9 5060\ninstance 7\ndomain example.com\nprefer 404\ndepth 3\nring 15\nlarge tcp\n\
realm example.com SHA-256,MD5\nexpires 30 600 7200\nstrangers\ntrust 192.0.2.128/25\ngateway 1000 sip:192.0.2.20\n\
gateway 500 sip:192.0.2.21:5080\nlocation bob 1000 sip:bob@192.0.2.4\nlocation bob 500 sip:bob@192.0.2.5 181\n\
# voice mail\nlocation eve 1000 sip:eve@192.0.2.6 20\n";

/// One that says no more than it has to.
const LEAST: &[u8] =
    b"own 192.0.2.9 5060\ndomain example.com\nlocation bob 1000 sip:bob@192.0.2.4\n";

fn is_realm(realm: Option<Realm<'_>>, text: &[u8], algorithms: Algorithms) -> bool {
    match realm {
        None => false,
        Some(realm) => realm.text == text && realm.algorithms == algorithms,
    }
}

fn is_gateway(gateway: &Gateway, q: u16, host: &[u8], hop: Hop) -> bool {
    gateway.q() == q && gateway.uri().host() == host && gateway.hop() == hop
}

fn are_gateways(gateways: &[Gateway]) -> bool {
    match gateways {
        [first, second] => {
            is_gateway(
                first,
                1000,
                b"192.0.2.20",
                Hop::over_udp([192, 0, 2, 20], 5060),
            ) && is_gateway(
                second,
                500,
                b"192.0.2.21",
                Hop::over_udp([192, 0, 2, 21], 5080),
            )
        }
        _ => false,
    }
}

/// For how long the locations ring, in milliseconds.
fn ring(settings: &ServiceSettings, longest: &[u64]) -> bool {
    let locations = settings.setup().locations();
    let mut well = locations.len() == longest.len();
    for (location, longest) in locations.iter().zip(longest) {
        well = well && location.longest() == *longest;
    }
    well
}

fn check(rt: &impl Abort, settings: &ServiceSettings) {
    let setup = settings.setup();
    holds(
        rt,
        setup.own() == Own::over_udp([192, 0, 2, 9], 5060),
        "the own address",
    );
    holds(rt, setup.instance() == 7, "the instance");
    holds(rt, setup.rules().depth() == 3, "the depth");
    holds(rt, setup.ring() == 15_000, "how long it rings");
    holds(rt, setup.is_large_by_streams(), "large requests over TCP");
    holds(
        rt,
        ring(settings, &[15_000, 181_000, 20_000]),
        "how long locations ring",
    );
    holds(
        rt,
        is_realm(settings.realm(), b"example.com", Algorithms::Sha256AndMd5),
        "the realm",
    );
    let times = Expirations {
        least: 30,
        usual: 600,
        most: 7_200,
    };
    holds(rt, settings.expirations() == times, "the expirations");
    holds(rt, settings.serves_strangers(), "strangers");
    let net = Net {
        addr: [192, 0, 2, 128],
        bits: 25,
    };
    holds(rt, settings.nets() == [net].as_slice(), "the nets");
    holds(rt, are_gateways(settings.gateways()), "the gateways");
}

#[test]
fn each_line_says_what_it_says(rt: HostRuntime) {
    match settings_of(rt.alloc(), TEXT) {
        None => holds(&rt, false, "a configuration"),
        Some(settings) => check(&rt, &settings),
    }
}

fn check_usual(rt: &impl Abort, settings: &ServiceSettings) {
    holds(
        rt,
        settings.setup().instance() == 9,
        "the number of the run",
    );
    holds(
        rt,
        settings.setup().ring() == 181_000,
        "it rings for three minutes",
    );
    holds(rt, ring(settings, &[181_000]), "and so does a location");
    let is_large = settings.setup().is_large_by_streams();
    holds(rt, !is_large, "large requests over UDP");
    holds(rt, settings.realm().is_none(), "no realm");
    let times = Expirations {
        least: 60,
        usual: 3_600,
        most: 86_400,
    };
    holds(rt, settings.expirations() == times, "the usual expirations");
    holds(rt, !settings.serves_strangers(), "no strangers");
    holds(rt, settings.nets().is_empty(), "no nets");
    holds(rt, settings.gateways().is_empty(), "no gateways");
}

#[test]
fn what_no_line_says_is_as_usual(rt: HostRuntime) {
    match settings_of(rt.alloc(), LEAST) {
        None => holds(&rt, false, "a configuration"),
        Some(settings) => check_usual(&rt, &settings),
    }
}

/// A configuration that is read with connections.
const OVER_TCP: &[u8] =
    b"own 192.0.2.9 5060\ndomain example.com\ngateway 1000 sip:192.0.2.20;transport=tcp\nlocation bob 1000 sip:bob@192.0.2.4;transport=tcp\n";

fn over_tcp(addr: [u8; 4]) -> Hop {
    Hop {
        addr,
        port: 5060,
        transport: Transport::Tcp,
    }
}

/// Whether the location and the gateway of settings are reached over TCP.
fn is_over_tcp(settings: &ServiceSettings) -> bool {
    let located = match settings.setup().locations() {
        [location] => location.next_hop() == Some(over_tcp([192, 0, 2, 4])),
        _ => false,
    };
    let by_gateway = match settings.gateways() {
        [gateway] => gateway.hop() == over_tcp([192, 0, 2, 20]),
        _ => false,
    };
    settings.setup().has_streams() && located && by_gateway
}

#[test]
fn locations_and_gateways_are_reached_over_tcp(rt: HostRuntime) {
    match settings_with(rt.alloc(), true, OVER_TCP) {
        None => holds(&rt, false, "a configuration"),
        Some(settings) => holds(&rt, is_over_tcp(&settings), "the hops"),
    }
}

/// Whether a realm without algorithms challenges by MD5.
fn is_of_md5(alloc: Global) -> bool {
    match settings_of(alloc, b"own 192.0.2.9 5060\ndomain example.com\nrealm x\n") {
        None => false,
        Some(settings) => is_realm(settings.realm(), b"x", Algorithms::Md5),
    }
}

#[test]
fn a_realm_without_algorithms_challenges_by_md5(rt: HostRuntime) {
    holds(&rt, is_of_md5(rt.alloc()), "MD5 alone");
}

/// Where a front stands.
const FRONT: Own = Own {
    addr: [192, 0, 2, 1],
    port: 5070,
    transport: Transport::Udp,
};

/// Whether a service's settings have its setup, and keep all else.
fn is_of_a_service(alloc: Global) -> bool {
    let Some(settings) = settings_of(alloc, TEXT) else {
        return false;
    };
    let settings = settings
        .for_a_service()
        .with_own_port()
        .recording()
        .recording_as(FRONT)
        .stamping()
        .giving_reasons();
    let setup = settings.setup();
    let is_set = setup.is_for_a_service()
        && setup.by_port()
        && setup.records()
        && setup.route() == FRONT
        && setup.stamps()
        && setup.gives_reasons();
    is_set && settings.serves_strangers() && settings.into_setup().ring() == 15_000
}

#[test]
fn settings_become_those_of_a_service(rt: HostRuntime) {
    holds(&rt, is_of_a_service(rt.alloc()), "the setup of a service");
}

/// Whether a service's setup has the realm of its settings, and stays on the path of dialogs.
fn is_of_own_realm(alloc: Global) -> bool {
    let Some(settings) = settings_of(alloc, TEXT) else {
        return false;
    };
    match settings.of_own_realm(alloc) {
        Ok(settings) => {
            let setup = settings.setup();
            setup.realm() == Some(b"example.com".as_slice()) && setup.records()
        }
        Err(AllocError) => false,
    }
}

#[test]
fn a_setup_has_the_realm_of_its_settings(rt: HostRuntime) {
    holds(&rt, is_of_own_realm(rt.alloc()), "the setup of a realm");
}
