//! Whom a service trusts.
use crate::holds::{holds, settings_of};
use service_config::{Net, ServiceSettings, read_net};
use std::process::Abort;

/// A configuration with a net, a gateway and a location.
const TEXT: &[u8] =
    b"own 192.0.2.9 5060\ndomain example.com\ntrust 192.0.2.128/25\ntrust 10.1.0.0/16\ngateway 1000 sip:198.51.100.1\n\
location bob 1000 sip:bob@203.0.113.5:5080\n";

/// One without a line of trust.
const LEAST: &[u8] = b"own 192.0.2.9 5060\ndomain example.com\n";

/// Addresses, each with what it is, and whether it is inside, trusted, and of a gateway.
const ADDRESSES: [(&str, [u8; 4], bool, bool, bool); 14] = [
    ("the first of a net", [192, 0, 2, 128], true, true, false),
    ("the last of it", [192, 0, 2, 255], true, true, false),
    ("one before it", [192, 0, 2, 127], false, false, false),
    ("another third byte", [192, 0, 3, 128], false, false, false),
    ("another first byte", [193, 0, 2, 128], false, false, false),
    ("the first of a wider net", [10, 1, 0, 0], true, true, false),
    ("the last of it", [10, 1, 255, 255], true, true, false),
    ("one before it", [10, 0, 255, 255], false, false, false),
    ("one behind it", [10, 2, 0, 0], false, false, false),
    ("the own address", [192, 0, 2, 9], true, true, false),
    ("this machine", [127, 0, 0, 1], false, false, false),
    ("a gateway", [198, 51, 100, 1], false, true, true),
    ("a location", [203, 0, 113, 5], false, true, false),
    ("one behind it", [203, 0, 113, 6], false, false, false),
];

/// Whether an address is inside, trusted, and of a gateway, as it is to be.
fn is_known(
    settings: &ServiceSettings,
    addr: [u8; 4],
    inside: bool,
    trusted: bool,
    of_gateway: bool,
) -> bool {
    settings.is_inside(addr) == inside
        && settings.is_trusted(addr) == trusted
        && settings.is_of_gateway(addr) == of_gateway
}

fn check(rt: &impl Abort, settings: &ServiceSettings) {
    for (what, addr, inside, trusted, of_gateway) in ADDRESSES {
        holds(
            rt,
            is_known(settings, addr, inside, trusted, of_gateway),
            what,
        );
    }
}

#[test]
fn nets_and_hosts_are_trusted(rt: HostRuntime) {
    match settings_of(rt.alloc(), TEXT) {
        None => holds(&rt, false, "a configuration"),
        Some(settings) => check(&rt, &settings),
    }
}

fn check_least(rt: &impl Abort, settings: &ServiceSettings) {
    holds(rt, settings.is_inside([127, 0, 0, 1]), "this machine");
    holds(rt, settings.is_trusted([127, 255, 255, 255]), "all of it");
    holds(rt, settings.is_trusted([192, 0, 2, 9]), "the own address");
    holds(rt, !settings.is_trusted([128, 0, 0, 1]), "no other net");
}

#[test]
fn without_a_net_it_is_that_of_this_machine(rt: HostRuntime) {
    match settings_of(rt.alloc(), LEAST) {
        None => holds(&rt, false, "a configuration"),
        Some(settings) => check_least(&rt, &settings),
    }
}

#[test]
fn a_net_has_the_addresses_with_its_first_bits(rt: HostRuntime) {
    let one = Net {
        addr: [192, 0, 2, 1],
        bits: 32,
    };
    holds(
        &rt,
        one.has([192, 0, 2, 1]) && !one.has([192, 0, 2, 0]),
        "one address",
    );
    let all = Net {
        addr: [0; 4],
        bits: 0,
    };
    holds(&rt, all.has([255; 4]) && all.has([0; 4]), "all addresses");
}

#[test]
fn a_net_is_read_by_itself(rt: HostRuntime) {
    let net = Net {
        addr: [10, 1, 0, 0],
        bits: 16,
    };
    holds(&rt, read_net(b"10.1.0.0/16") == Some(net), "a net");
    for text in ["10.1.0.0", "10.1.0.1/16", "10.1.0.0/33", "10.1.0.0/016"] {
        holds(&rt, read_net(text.as_bytes()).is_none(), text);
    }
}
