//! Which lines of a service's configuration are malformed.
use crate::holds::{holds, holds_of};
use proxy_config::SetupFault;
use service_config::{ServiceSettings, is_realm};
use std::alloc::Global;

/// What has to stand before any other line.
const HEAD: &[u8] = b"own 192.0.2.9 5060\ninstance 7\ndomain example.com\n";

/// The number of the first malformed line, with connections or without, 0 where there is none; None where there was no memory.
fn malformed_with(alloc: Global, streams: bool, text: &[u8]) -> Option<usize> {
    match ServiceSettings::read(alloc, text, 9, streams) {
        Ok(_) => Some(0),
        Err(SetupFault::Line(number)) => Some(number),
        Err(SetupFault::NoMemory) => None,
    }
}

/// Without connections.
fn malformed(alloc: Global, text: &[u8]) -> Option<usize> {
    malformed_with(alloc, false, text)
}

/// A text behind another.
fn joined(alloc: Global, front: &[u8], rest: &[u8]) -> Option<Vec<u8>> {
    let mut text = Vec::new(alloc);
    if text.extend_from_slice(front).is_ok() && text.extend_from_slice(rest).is_ok() {
        Some(text)
    } else {
        None
    }
}

/// The number of the first malformed line of a text behind the first three lines.
fn malformed_behind(alloc: Global, streams: bool, rest: &[u8]) -> Option<usize> {
    let text = joined(alloc, HEAD, rest)?;
    malformed_with(alloc, streams, &text)
}

/// Texts, and the number of the first malformed line of each, 0 where there is none.
const TEXTS: [(&[u8], usize); 20] = [
    (b"", 1),
    (
        b"# ours\n\nown 192.0.2.9 5060\ninstance 7\ndomain example.com\nring 0\n",
        6,
    ),
    (b"own 192.0.2.9 5060\ndomain example.com\n", 0),
    (
        b"own 192.0.2.9 5060\n# run\n\ninstance 7\ndomain example.com\n",
        0,
    ),
    (b"own 192.0.2.9 5060\ninstance x\ndomain example.com\n", 2),
    (b"own 192.0.2.9 5060\ninstance 7\ninstance 7\n", 3),
    (b"own 192.0.2.9 5060\nring 10\n", 2),
    (b"own 192.0.2.9 5060\n", 2),
    (b"own 192.0.2.9 5060\ndomain example.com", 2),
    (b"own 192.0.2.9 5060\ndomain example.com\n#", 3),
    (b"own 192.0.2.9 5060\ndomain example.com\n\n#\n", 0),
    (b"domain example.com\n", 1),
    (b"own 192.0.2.9 5060\n\ninstance 7\n", 4),
    (b"own 192.0.2.9 5060\r\n", 1),
    (b"own 192.0.2.9 5060\ndomain example.com\r\n", 2),
    (
        b"own 192.0.2.9 5060\ndomain example.com\nprefer 404\ndepth 3\n",
        0,
    ),
    (
        b"own 192.0.2.9 5060\ndomain example.com\ndepth 3\nprefer 404\n",
        4,
    ),
    (b"own 192.0.2.9 5060\ndomain example.com\ndepth 300\n", 3),
    (b"own 0.0.0.0 5060\n", 1),
    (b" own 192.0.2.9 5060\n", 1),
];

#[test]
fn a_text_is_refused_by_its_first_malformed_line(rt: HostRuntime) {
    for (text, number) in TEXTS {
        holds_of(
            &rt,
            malformed(rt.alloc(), text) == Some(number),
            "the first malformed line",
            text,
        );
    }
}

/// Lines behind the first three, and the number of the first of all that is malformed, 0 where there is none.
const BEHIND: [(&[u8], usize); 81] = [
    // ring
    (b"ring 1\n", 0),
    (b"ring 181\n", 0),
    (b"ring 0\n", 4),
    (b"ring 182\n", 4),
    (b"ring 015\n", 4),
    (b"ring  15\n", 4),
    (b"ring 15 \n", 4),
    (b"ring\n", 4),
    (b"Ring 15\n", 4),
    (b"ring 15\nring 15\n", 5),
    // realm
    (b"realm example.com\n", 0),
    (b"realm x MD5\n", 0),
    (b"realm x SHA-256\n", 0),
    (b"realm x SHA-256,MD5\n", 0),
    (b"realm x MD5,SHA-256\n", 0),
    (b"realm x md5\n", 4),
    (b"realm x MD5,MD5\n", 4),
    (b"realm x SHA-256, MD5\n", 4),
    (b"realm x \n", 4),
    (b"realm \n", 4),
    (b"realm a\"b\n", 4),
    (b"realm a\\b\n", 4),
    (b"realm a\x7fb\n", 4),
    (
        b"realm 1234567890123456789012345678901234567890123456789012345678901234\n",
        0,
    ),
    (
        b"realm 12345678901234567890123456789012345678901234567890123456789012345\n",
        4,
    ),
    (b"realm x\nring 15\n", 5),
    // large
    (b"large tcp\n", 0),
    (b"ring 15\nlarge tcp\nrealm x\n", 0),
    (b"large\n", 4),
    (b"large \n", 4),
    (b"large udp\n", 4),
    (b"large tcp \n", 4),
    (b"large  tcp\n", 4),
    (b"large tcp\nlarge tcp\n", 5),
    (b"large tcp\nring 15\n", 5),
    (b"realm x\nlarge tcp\n", 5),
    // expires
    (b"expires 1 1 1\n", 0),
    (b"expires 60 3600 604800\n", 0),
    (b"expires 0 1 1\n", 4),
    (b"expires 60 59 61\n", 4),
    (b"expires 60 62 61\n", 4),
    (b"expires 60 3600 604801\n", 4),
    (b"expires 60 3600\n", 4),
    (b"expires 60 3600 86400 1\n", 4),
    (b"expires 60 3600 086400\n", 4),
    // strangers
    (b"strangers\n", 0),
    (b"strangers \n", 4),
    (b"strangers yes\n", 4),
    (b"strangers\nstrangers\n", 5),
    (b"strangers\nexpires 60 3600 86400\n", 5),
    // trust
    (b"trust 0.0.0.0/0\n", 0),
    (
        b"trust 192.0.2.1/32\ntrust 10.0.0.0/8\ntrust 10.0.0.0/8\n",
        0,
    ),
    (b"trust 192.0.2.128/25\n", 0),
    (b"trust 192.0.2.128/24\n", 4),
    (b"trust 128.0.0.0/0\n", 4),
    (b"trust 192.0.2.0/33\n", 4),
    (b"trust 192.0.2.0/024\n", 4),
    (b"trust 192.0.02.0/24\n", 4),
    (b"trust 192.0.2/24\n", 4),
    (b"trust 192.0.2.0\n", 4),
    (b"trust 192.0.2.256/32\n", 4),
    // gateway
    (
        b"gateway 1000 sip:192.0.2.20\ngateway 500 sip:192.0.2.20:5080\n",
        0,
    ),
    (
        b"gateway 1000 sip:192.0.2.20\ngateway 500 sip:192.0.2.20:5060\n",
        5,
    ),
    (b"gateway 1001 sip:192.0.2.20\n", 4),
    (b"gateway 1000 sip:bob@192.0.2.20\n", 4),
    (b"gateway 1000 sip:gateway.example.com\n", 4),
    (b"gateway 1000 sip:192.0.2.20;transport=tcp\n", 4),
    (b"gateway 1000 sip:192.0.2.20 15\n", 4),
    (b"gateway 1000\n", 4),
    (b"gateway 1000 sip:192.0.2.20\ntrust 10.0.0.0/8\n", 5),
    // location
    (
        b"location bob 1000 sip:bob@192.0.2.4\nlocation bob 500 sip:bob@192.0.2.5 15\n",
        0,
    ),
    (b"location bob 1000 sip:bob@192.0.2.4 181\n", 0),
    (b"location bob 1000 sip:bob@192.0.2.4 0\n", 4),
    (b"location bob 1000 sip:bob@192.0.2.4 182\n", 4),
    (b"location bob 1000 sip:bob@192.0.2.4 15 \n", 4),
    (b"location bob 1000 sip:bob@192.0.2.4 \n", 4),
    (
        b"location bob 1000 sip:bob@192.0.2.4\nlocation bob 500 sip:bob@192.0.2.4 15\n",
        5,
    ),
    (
        b"location bob 1000 sip:bob@192.0.2.4\ngateway 1000 sip:192.0.2.20\n",
        5,
    ),
    (
        b"location bob 1000 sip:bob@192.0.2.4\n# a note\nlocation bob 1000\n",
        6,
    ),
    (b"location bob 1000 sip:bob@example.com\n", 4),
    (b"location bob 1000 sip:bob@192.0.2.4;transport=tcp\n", 4),
];

#[test]
fn each_line_is_read_exactly(rt: HostRuntime) {
    for (rest, number) in BEHIND {
        holds_of(
            &rt,
            malformed_behind(rt.alloc(), false, rest) == Some(number),
            "the first malformed line",
            rest,
        );
    }
}

/// Such lines of a proxy that has connections.
const OVER_TCP: [(&[u8], usize); 6] = [
    (b"gateway 1000 sip:192.0.2.20;transport=tcp\n", 0),
    (
        b"gateway 1000 sip:192.0.2.20\ngateway 500 sip:192.0.2.20;transport=tcp\n",
        5,
    ),
    (b"gateway 1000 sip:192.0.2.20;transport=tls\n", 4),
    (
        b"location bob 1000 sip:bob@192.0.2.4\nlocation bob 500 sip:bob@192.0.2.4;transport=tcp 15\n",
        0,
    ),
    (
        b"location bob 1000 sip:bob@192.0.2.4;transport=tcp\nlocation bob 500 sip:bob@192.0.2.4;transport=TCP\n",
        5,
    ),
    (b"location bob 1000 sip:bob@192.0.2.4;transport=tls\n", 4),
];

#[test]
fn a_proxy_with_connections_reaches_over_tcp(rt: HostRuntime) {
    for (rest, number) in OVER_TCP {
        holds_of(
            &rt,
            malformed_behind(rt.alloc(), true, rest) == Some(number),
            "the first malformed line",
            rest,
        );
    }
}

/// A line of a gateway with this port.
fn add_gateway(text: &mut Vec<u8>, port: u64) -> bool {
    text.extend_from_slice(b"gateway 1000 sip:192.0.2.20:")
        .is_ok()
        && sip_lex::append_decimal(text, port).is_ok()
        && text.push(b'\n').is_ok()
}

/// The number of the first malformed line behind so many gateways, each with a port of its own.
fn malformed_with_gateways(alloc: Global, count: u64) -> Option<usize> {
    let mut text = joined(alloc, HEAD, b"")?;
    for port in 0..count {
        if !add_gateway(&mut text, 5000 + port % 1000) {
            return None;
        }
    }
    malformed(alloc, &text)
}

#[test]
fn there_are_sixteen_gateways_at_most(rt: HostRuntime) {
    holds(
        &rt,
        malformed_with_gateways(rt.alloc(), 16) == Some(0),
        "sixteen",
    );
    holds(
        &rt,
        malformed_with_gateways(rt.alloc(), 17) == Some(20),
        "one more",
    );
}

/// Texts, and whether each may be a realm.
const REALMS: [(&[u8], bool); 6] = [
    (b"example.com", true),
    (b"x", true),
    (b"", false),
    (b"example com", false),
    (b"example\"com", false),
    (b"example\\com", false),
];

#[test]
fn a_realm_is_visible_bytes(rt: HostRuntime) {
    for (text, well) in REALMS {
        holds_of(&rt, is_realm(text) == well, "whether it is a realm", text);
    }
    holds(&rt, is_realm(&[b'x'; 64]), "64 bytes");
    holds(&rt, !is_realm(&[b'x'; 65]), "one more");
}
