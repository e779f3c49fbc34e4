//! Hosts, ports and IPv4 addresses (RFC 3261 section 25.1).

ghost use Rattle.std.specs.Prelude.{◌≡◌, ◌≤◌, ◌↔◌, ◌++◌, IsTrue, false, length, take, drop};
ghost use Rattle.std.specs.List.{list_all};
ghost use Rattle.sip_lex.specs.Cut.{cut, is};
ghost use Rattle.sip_uri.specs.Host.{BeginsWithEnd, IsHost, LacksEnds, address_of, four_of, host_len, is_address_byte, is_host, is_host_byte, is_reference, octet_of, port_of};
ghost use Rattle.sip_uri.specs.inner.Host.{address_of_first, address_of_last, address_of_second, address_of_third};

use sip_lex::{cut_at, read_number};

fn are_address_bytes(bytes: &[u8]) -> bool
    ensures { result ≡ list_all is_address_byte bytes.now }
{
    bytes.iter().all(|byte| byte.is_ascii_hexdigit() || *byte == b':' || *byte == b'.')
}

fn are_host_bytes(bytes: &[u8]) -> bool
    ensures { result ≡ list_all is_host_byte bytes.now }
{
    bytes.iter().all(|byte| byte.is_ascii_alphanumeric() || *byte == b'-' || *byte == b'.')
}

/// Whether what stands behind a `[` is an address and a `]`.
fn is_reference(text: &[u8]) -> bool
    ensures { result ≡ is_reference (cut (is 93) text.now) }
{
    match cut_at(text, b']') {
        (inner, Some([])) => !inner.is_empty() && are_address_bytes(inner),
        _ => false,
    }
}

fn has_host_form(text: &[u8]) -> bool
    ensures { result ≡ is_host text.now }
{
    match text {
        [] => false,
        [b'[', inner @ ..] => is_reference(inner),
        _ => are_host_bytes(text),
    }
}

/// Whether a text is a host: a host name, an IPv4 address, or an address in square brackets.
pub fn is_host(text: &[u8]) -> bool
    ensures value { result ≡ is_host text.now }
    ensures meaning { IsTrue result ↔ IsHost text.now }
{
    has_host_form(text)
}

/// How many bytes stand before the end of the host.
fn host_len(text: &[u8]) -> usize
    ensures value { result ≡ host_len false text.now }
    ensures within { result ≤ length text.now }
{
    let mut inside = false;
    for (i, byte) in text.iter().enumerate() {
        let byte = *byte;
        if !inside && (byte == b':' || byte == b';' || byte == b'?') {
            return i;
        }
        inside = if inside { byte != b']' } else { byte == b'[' };
    }
    text.len()
}

fn split_host(text: &[u8]) -> (&[u8], &[u8])
    ensures host { result.0.now ≡ take (host_len false text.now) text.now }
    ensures rest { result.1.now ≡ drop (host_len false text.now) text.now }
{
    text.split_at(host_len(text))
}

/// The host at the front, and what stands behind it: nothing, or what begins with the first `:`,
/// `;` or `?` outside square brackets. Whether the front is a host is for `is_host` to say.
pub fn cut_host(text: &[u8]) -> (&[u8], &[u8])
    ensures host { result.0.now ≡ take (host_len false text.now) text.now }
    ensures rest { result.1.now ≡ drop (host_len false text.now) text.now }
    ensures whole { text.now ≡ result.0.now ++ result.1.now }
    ensures front { LacksEnds false result.0.now }
    ensures begins { BeginsWithEnd result.1.now }
{
    split_host(text)
}

/// The number of a port: one to five digits of a number from 1 to 65535.
pub fn read_port(digits: &[u8]) -> Option<u16>
    ensures { result ≡ port_of digits.now }
{
    if digits.len() > 5 {
        return None;
    }
    match read_number(digits, 65_535) {
        None | Some(0) => None,
        Some(port) => Some(port as u16),
    }
}

/// One number of an IPv4 address: one to three digits of a number up to 255.
fn read_octet(digits: &[u8]) -> Option<u8>
    ensures { result ≡ octet_of digits.now }
{
    if digits.len() > 3 {
        return None;
    }
    match read_number(digits, 255) {
        None => None,
        Some(octet) => Some(octet as u8),
    }
}

fn four_of(a: Option<u8>, b: Option<u8>, c: Option<u8>, d: Option<u8>) -> Option<[u8; 4]>
    ensures { result ≡ four_of a b c d }
{
    match (a, b, c, d) {
        (Some(a), Some(b), Some(c), Some(d)) => Some([a, b, c, d]),
        _ => None,
    }
}

fn address_of_last(a: &[u8], b: &[u8], c: &[u8], rest: &[u8]) -> Option<[u8; 4]>
    ensures { result ≡ address_of_last a.now b.now c.now (cut (is 46) rest.now) }
{
    match cut_at(rest, b'.') {
        (d, None) => four_of(read_octet(a), read_octet(b), read_octet(c), read_octet(d)),
        _ => None,
    }
}

fn address_of_third(a: &[u8], b: &[u8], rest: &[u8]) -> Option<[u8; 4]>
    ensures { result ≡ address_of_third a.now b.now (cut (is 46) rest.now) }
{
    let (c, rest) = cut_at(rest, b'.');
    address_of_last(a, b, c, rest?)
}

fn address_of_second(a: &[u8], rest: &[u8]) -> Option<[u8; 4]>
    ensures { result ≡ address_of_second a.now (cut (is 46) rest.now) }
{
    let (b, rest) = cut_at(rest, b'.');
    address_of_third(a, b, rest?)
}

fn address_of_first(host: &[u8]) -> Option<[u8; 4]>
    ensures { result ≡ address_of_first (cut (is 46) host.now) }
{
    let (a, rest) = cut_at(host, b'.');
    address_of_second(a, rest?)
}

/// The four numbers of an IPv4 address: one to three digits each, at most 255, joined by dots.
pub fn read_address(host: &[u8]) -> Option<[u8; 4]>
    ensures { result ≡ address_of host.now }
{
    address_of_first(host)
}
