//! The Call-ID of a datagram, as it is found before anything else of it is read, and the group of calls that its call is of.
ghost use Rattle.std.specs.Prelude.{◌≡◌, ◌≤◌, length};
ghost use Rattle.std.specs.Option.{option_copied};
ghost use Rattle.proxy_threads.specs.CallId.{behind_compact_name, behind_long_name, call_id, digest_of, first_word, group_of, is_blank, skip_blanks, skip_word, value_at};

use sip_lex::{cut_at, is_space, trim_start};
use std::hash::{FoldHasher, Hasher};

/// What stands behind the name `Call-ID` at the front of a text, in any case.
fn behind_long_name(text: &[u8]) -> Option<&[u8]>
    ensures { option_copied result ≡ behind_long_name text.now }
{
    match text {
        [c, a, l, second, b'-', i, d, rest @ ..] => {
            if c.to_ascii_lowercase() == b'c'
                && a.to_ascii_lowercase() == b'a'
                && l.to_ascii_lowercase() == b'l'
                && second.to_ascii_lowercase() == b'l'
                && i.to_ascii_lowercase() == b'i'
                && d.to_ascii_lowercase() == b'd'
            {
                Some(rest)
            } else {
                None
            }
        }
        _ => None,
    }
}

/// What stands behind the compact name `i` at the front of a text, in any case (RFC 3261 section 7.3.3).
fn behind_compact_name(text: &[u8]) -> Option<&[u8]>
    ensures { option_copied result ≡ behind_compact_name text.now }
{
    match text {
        [b'i' | b'I', rest @ ..] => Some(rest),
        _ => None,
    }
}

/// What stands behind the name and the colon of a Call-ID at the front of a text (RFC 3261 sections 7.3.1 and 20.8).
fn value_at(text: &[u8]) -> Option<&[u8]>
    ensures { option_copied result ≡ value_at text.now }
{
    let rest = match behind_long_name(text) {
        None => behind_compact_name(text)?,
        Some(rest) => rest,
    };
    match trim_start(rest) {
        [b':', value @ ..] => Some(value),
        _ => None,
    }
}

/// Whether a byte before these is space, or of the end of a line that the next one continues.
fn is_blank(byte: u8, behind: &[u8]) -> bool
    ensures { result ≡ is_blank byte behind.now }
{
    match (byte, behind) {
        (b' ' | b'\t' | b'\r', _) => true,
        (b'\n', [next, ..]) => is_space(*next),
        _ => false,
    }
}

/// What stands behind the blanks at the front of a text.
fn skip_blanks(text: &[u8]) -> &[u8]
    ensures { result.now ≡ skip_blanks text.now }
{
    let mut rest = text;
    while let [byte, more @ ..] = rest {
        if !is_blank(*byte, more) {
            break;
        }
        rest = more;
    }
    rest
}

/// What stands behind the word at the front of a text.
fn skip_word(text: &[u8]) -> &[u8]
    ensures value { result.now ≡ skip_word text.now }
    ensures within { length result.now ≤ length text.now }
{
    let mut rest = text;
    while let [byte, more @ ..] = rest {
        if *byte <= 32 {
            break;
        }
        rest = more;
    }
    rest
}

/// The first word of a text: a Call-ID has no space in it (RFC 3261 section 20.8).
fn first_word(text: &[u8]) -> &[u8]
    ensures { result.now ≡ first_word text.now }
{
    let rest = skip_blanks(text);
    let behind = skip_word(rest);
    &rest[..rest.len() - behind.len()]
}

/// The Call-ID of a datagram: the first word behind the name and the colon of the first line that is a Call-ID, in long or
/// compact form and in any case. The start line is none. It is found by one search of the bytes for the ends of lines, so that a
/// datagram that is no message has one, too, where such a line stands in it.
pub fn call_id(text: &[u8]) -> Option<&[u8]>
    ensures { option_copied result ≡ call_id text.now }
{
    let mut rest = text;
    loop {
        let (_, behind) = cut_at(rest, b'\n');
        let Some(line) = behind else {
            return None;
        };
        if let Some(value) = value_at(line) {
            return Some(first_word(value));
        }
        rest = line;
    }
}

fn digest_of(text: &[u8]) -> u64
    ensures { result ≡ digest_of text.now }
{
    let mut hasher = FoldHasher::default();
    hasher.write(text);
    hasher.finish()
}

/// Which of 256 groups of calls a datagram's call is of, by its Call-ID. None where it has none.
pub fn group_of(text: &[u8]) -> Option<u8>
    ensures { result ≡ group_of text.now }
{
    let digest = digest_of(call_id(text)?);
    Some((digest % 256) as u8)
}
