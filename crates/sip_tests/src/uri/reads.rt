//! URIs that are read: their parts and their keys.
use crate::bytes::{has, holds_of, is};
use crate::holds::holds;
use sip_uri::{SipUri, cut_host, is_host, read_address, read_port};
use std::alloc::Global;

/// A URI with each part.
const WHOLE: &[u8] = b"sip:bob@192.0.2.4:5062;transport=udp;Method=INVITE?Subject=x";

/// The URI that a text spells.
fn uri_of(alloc: Global, text: &[u8]) -> Option<SipUri<Global>> {
    match SipUri::read(alloc, text) {
        Ok(uri) => Some(uri),
        Err(_) => None,
    }
}

fn has_user(alloc: Global, text: &[u8], user: &[u8]) -> bool {
    match uri_of(alloc, text) {
        Some(uri) => has(uri.user(), user),
        None => false,
    }
}

fn has_host(alloc: Global, text: &[u8], host: &[u8]) -> bool {
    match uri_of(alloc, text) {
        Some(uri) => is(uri.host(), host),
        None => false,
    }
}

/// Whether the text of a URI in a request is appended so.
fn appends_its_text(alloc: Global, uri: &SipUri<Global>, wanted: &[u8]) -> bool {
    let mut out = Vec::new(alloc);
    out.extend_from_slice(b"> ").is_ok() && uri.request_uri(&mut out).is_ok() && is(&out, wanted)
}

/// Whether this is appended as the text in a request.
fn writes(alloc: Global, text: &[u8], wanted: &[u8]) -> bool {
    match uri_of(alloc, text) {
        Some(uri) => appends_its_text(alloc, &uri, wanted),
        None => false,
    }
}

/// Whether the key of a URI is appended so.
fn appends_its_key(alloc: Global, uri: &SipUri<Global>, wanted: &[u8]) -> bool {
    let mut key = Vec::new(alloc);
    key.extend_from_slice(b"> ").is_ok() && uri.target_key(&mut key).is_ok() && is(&key, wanted)
}

/// Whether this is appended as the key.
fn has_key(alloc: Global, text: &[u8], wanted: &[u8]) -> bool {
    match uri_of(alloc, text) {
        Some(uri) => appends_its_key(alloc, &uri, wanted),
        None => false,
    }
}

/// Whether a text that is a URI is read without its tests as the same one.
fn is_read_again(alloc: Global, text: &[u8]) -> bool {
    match SipUri::read(alloc, text) {
        Ok(uri) => match SipUri::of_readable(alloc, text) {
            Ok(again) => again.same_target(&uri),
            Err(_) => false,
        },
        Err(_) => false,
    }
}

#[test]
fn reads_a_whole_uri(rt: HostRuntime) {
    let alloc = rt.alloc();
    holds(&rt, is_read_again(alloc, WHOLE), "the same one again");
    holds(&rt, has_user(alloc, WHOLE, b"bob"), "the user");
    holds(&rt, has_host(alloc, WHOLE, b"192.0.2.4"), "the host");
    let request = writes(alloc, WHOLE, b"> sip:bob@192.0.2.4:5062;transport=udp");
    holds(&rt, request, "the text in a request");
}

/// URIs and the key of each, behind what was there.
const KEYS: [(&[u8], &[u8]); 5] = [
    (WHOLE, b"> bob@192.0.2.4:5062;transport=udp"),
    (b"SIP:Bob@H.Example", b"> Bob@h.example"),
    (b"sip:h:05060", b"> h:5060"),
    (b"sip:h;b;A=X;b;method;a=x;METHOD=y?z", b"> h;a=x;b"),
    (b"sip:[2001:DB8::1];ab;a", b"> [2001:db8::1];a;ab"),
];

#[test]
fn makes_keys(rt: HostRuntime) {
    for (text, key) in KEYS {
        holds_of(&rt, has_key(rt.alloc(), text, key), "the key", text);
    }
}

/// Whether these are the same target; nothing where one is no URI.
fn are_same(alloc: Global, a: &[u8], b: &[u8]) -> Option<bool> {
    match (uri_of(alloc, a), uri_of(alloc, b)) {
        (Some(a), Some(b)) => Some(a.same_target(&b)),
        _ => None,
    }
}

/// Pairs of URIs, and whether they are the same target.
const PAIRS: [(&[u8], &[u8], bool); 5] = [
    (b"sip:a@H", b"sip:a@h", true),
    (b"sip:a@h;x;Y=1", b"SIP:a@h;y=1;x;x;method=z?q", true),
    (b"sip:a@h", b"sip:a@h:5060", false),
    (b"sip:a@h", b"sip:A@h", false),
    (b"sip:a@h", b"sip:h", false),
];

#[test]
fn tells_targets_apart(rt: HostRuntime) {
    for (a, b, same) in PAIRS {
        let found = are_same(rt.alloc(), a, b);
        let well = found == Some(same);
        holds_of(&rt, well, "whether it is the same target", b);
    }
}

/// Texts, and whether each is a host.
const HOSTS: [(&[u8], bool); 4] = [
    (b"h-1.example", true),
    (b"[2001:db8::192.0.2.1]", true),
    (b"[]", false),
    (b"h_1", false),
];

/// Texts, and the port that each is.
const PORTS: [(&[u8], Option<u16>); 4] = [
    (b"65535", Some(65_535)),
    (b"00001", Some(1)),
    (b"000001", None),
    (b"0", None),
];

fn is_a_host(text: &[u8]) -> bool {
    is_host(text)
}

/// A text in two behind its host.
fn behind_host(text: &[u8]) -> (&[u8], &[u8]) {
    cut_host(text)
}

#[test]
fn reads_hosts_and_ports(rt: HostRuntime) {
    for (text, wanted) in HOSTS {
        holds_of(&rt, is_a_host(text) == wanted, "whether it is a host", text);
    }
    let (host, rest) = behind_host(b"[::1]:5060;x");
    holds(&rt, is(host, b"[::1]"), "the host at the front");
    holds(&rt, is(rest, b":5060;x"), "what is behind the host");
    for (text, port) in PORTS {
        holds_of(&rt, read_port(text) == port, "the port", text);
    }
    let address = read_address(b"192.0.2.4");
    holds(&rt, address == Some([192, 0, 2, 4]), "the address");
}

/// URIs with a part that is as short or as odd as it may be, and the host of each.
const EDGES: [(&[u8], &[u8]); 7] = [
    (b"sip:h?", b"h"),
    (b"sip:h?;;==?", b"h"),
    (b"sip:a:b@h", b"h"),
    (b"sip:a;b?c@h", b"h"),
    (b"sip:h;x==", b"h"),
    (b"sip:-", b"-"),
    (b"sip:h:00001", b"h"),
];

#[test]
fn reads_at_the_edges(rt: HostRuntime) {
    for (text, host) in EDGES {
        let found = has_host(rt.alloc(), text, host);
        holds_of(&rt, found, "a URI with that host", text);
    }
}
