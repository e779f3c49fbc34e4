//! The lines of a configuration one by one, and what they have set so far.
use crate::holds::holds;
use proxy_config::{SetupLine, SetupParts, line_at, read_octets, read_setup_line, uri_if};
use std::alloc::{AllocError, Global};

/// Texts, and the address that each spells, if it spells one.
const ADDRESSES: [(&[u8], Option<[u8; 4]>); 5] = [
    (b"192.0.2.9", Some([192, 0, 2, 9])),
    (b"0.0.0.0", Some([0, 0, 0, 0])),
    (b"192.0.2", None),
    (b"192.0.2.256", None),
    (b"192.0.2.09", None),
];

#[test]
fn an_address_is_four_numbers(rt: HostRuntime) {
    for (text, address) in ADDRESSES {
        holds(&rt, read_octets(text) == address, "the address of a text");
    }
}

/// A line, in a word.
fn word_of(line: &[u8]) -> &'static str {
    match read_setup_line(line) {
        None => "malformed",
        Some(SetupLine::Own(_)) => "own",
        Some(SetupLine::Instance(_)) => "instance",
        Some(SetupLine::Domain(_)) => "domain",
        Some(SetupLine::Prefer(_)) => "prefer",
        Some(SetupLine::Depth(_)) => "depth",
        Some(SetupLine::Location(..)) => "location",
    }
}

/// Lines, and what each is.
const LINES: [(&[u8], &str); 7] = [
    (b"own 192.0.2.9 5060", "own"),
    (b"instance 7", "instance"),
    (b"domain example.com", "domain"),
    (b"prefer 401,407", "prefer"),
    (b"depth 2", "depth"),
    (b"location bob 1000 sip:bob@192.0.2.4", "location"),
    (b"own nowhere", "malformed"),
];

#[test]
fn a_line_says_one_thing(rt: HostRuntime) {
    for (line, word) in LINES {
        holds(&rt, *word_of(line) == *word, "what a line says");
    }
}

#[test]
fn a_line_is_found_by_its_number(rt: HostRuntime) {
    let text = b"own 192.0.2.9 5060\ninstance 7\ndomain example.com";
    let second = line_at(text, 2) == Some(b"instance 7".as_slice());
    holds(&rt, second, "the second line");
    holds(&rt, line_at(text, 0).is_none(), "lines count from 1");
    holds(&rt, line_at(text, 3).is_none(), "the third has no LF");
}

/// Whether a text spells a URI.
fn spells_uri(alloc: Global, text: &[u8]) -> bool {
    match uri_if(&alloc, text) {
        Ok(uri) => uri.is_some(),
        Err(_) => false,
    }
}

#[test]
fn a_text_may_spell_a_uri(rt: HostRuntime) {
    let alloc = rt.alloc();
    let uri = spells_uri(alloc, b"sip:bob@192.0.2.4");
    holds(&rt, uri, "a URI");
    holds(&rt, !spells_uri(alloc, b"tel:+1"), "none that is read here");
}

// ---- what lines have set

/// Whether a location that is added stands there.
fn adds(
    alloc: Global,
    parts: &mut SetupParts,
    user: &[u8],
    uri: &[u8],
) -> Result<bool, AllocError> {
    parts.add_location(&alloc, user, 1000, uri, 15_000)
}

/// Whether parts take a location, and none of a text that is no URI, nor one twice.
fn takes(alloc: Global, parts: &mut SetupParts) -> bool {
    parts.set_instance(8);
    adds(alloc, parts, b"bob", b"sip:bob@192.0.2.4") == Ok(true)
        && adds(alloc, parts, b"bob", b"tel:+1") == Ok(false)
        && adds(alloc, parts, b"bob", b"sip:bob@192.0.2.4") == Ok(false)
}

/// The URI of a location that is reached over TCP.
const OVER_TCP: &[u8] = b"sip:bob@192.0.2.4;transport=tcp";

/// Whether parts take a location that is reached over TCP only where there are connections.
fn connects(alloc: Global, parts: &mut SetupParts) -> bool {
    let is_refused = adds(alloc, parts, b"bob", OVER_TCP) == Ok(false) && !parts.has_streams();
    parts.set_streams(true);
    is_refused && parts.has_streams() && adds(alloc, parts, b"bob", OVER_TCP) == Ok(true)
}

/// Whether what is no location rings as long as is said.
fn rings(parts: &mut SetupParts) -> bool {
    let usual = parts.ring() == 181_000;
    parts.set_ring(15_000);
    usual && parts.ring() == 15_000
}

#[test]
fn parts_of_a_setup_are_set_by_lines(rt: HostRuntime) {
    let alloc = rt.alloc();
    match SetupParts::new(&alloc) {
        Ok(mut parts) => {
            holds(&rt, rings(&mut parts), "how long it rings");
            holds(&rt, takes(alloc, &mut parts), "a location");
            holds(&rt, connects(alloc, &mut parts), "a location over TCP");
        }
        Err(_) => holds(&rt, false, "there is memory"),
    }
}
