//! The start line.

ghost use Rattle.std.specs.Prelude.{◌≡◌, ◌≤◌, IfOk, length};
ghost use Rattle.sip_lex.specs.Bytes.{is_space};
ghost use Rattle.sip_lex.specs.Cut.{cut};
ghost use Rattle.sip_text.specs.Fault.{Gives};
ghost use Rattle.sip_text.specs.Reading.{after_uri, begins_with_sip, is_uri, is_version, request_of, response_of, start_of, status_of};
ghost use Rattle.sip_text.specs.inner.Kept.{IsAt, IsStartWithin};
ghost use Rattle.sip_lex.specs.Places.{IsEnd};
ghost use Rattle.sip_text.specs.Seen.{start_in};

use crate::fault::ReadFault;
use crate::place::StartPlaces;
use sip_lex::{PartPlace, are_printed, cut_at_space, is_space, is_token, place_at_end};
use std::alloc::Allocator;

fn begins_with_sip(text: &[u8]) -> bool
    ensures { result ≡ begins_with_sip text.now }
{
    match text {
        [s, i, p, b'/', ..] => {
            s.to_ascii_lowercase() == b's'
                && i.to_ascii_lowercase() == b'i'
                && p.to_ascii_lowercase() == b'p'
        }
        _ => false,
    }
}

fn is_version(text: &[u8]) -> bool
    ensures { result ≡ is_version text.now }
{
    text.eq_ignore_ascii_case(b"sip/2.0")
}

fn is_uri(bytes: &[u8]) -> bool
    ensures { result ≡ is_uri bytes.now }
{
    !bytes.is_empty() && are_printed(bytes)
}

/// Where the parts of a status line stand in it; `rest` is what stands behind its version.
fn status_at<A: Allocator>(line: &[u8], rest: &[u8]) -> Result<StartPlaces, ReadFault<A>>
    requires { IsEnd line.now rest.now }
    ensures value { Gives (start_in line.now) result (status_of rest.now) }
    ensures within { IfOk result (λ places. IsStartWithin (length line.now) places) }
{
    let [a, b, c, space, reason @ ..] = rest else {
        return Err(ReadFault::StartLine);
    };
    if !(a.is_ascii_digit() && b.is_ascii_digit() && c.is_ascii_digit() && is_space(*space)) {
        return Err(ReadFault::StartLine);
    }
    let status = 100 * u16::from(*a - b'0') + 10 * u16::from(*b - b'0') + u16::from(*c - b'0');
    if !(100 <= status && status <= 699) {
        return Err(ReadFault::Status);
    }
    let reason = place_at_end(line, reason, reason.len());
    Ok(StartPlaces::Response { status, reason })
}

/// Where the parts of a status line stand in it.
fn response_of<A: Allocator>(line: &[u8]) -> Result<StartPlaces, ReadFault<A>>
    ensures value { Gives (start_in line.now) result (response_of (cut is_space line.now)) }
    ensures within { IfOk result (λ places. IsStartWithin (length line.now) places) }
{
    let (version, rest) = cut_at_space(line);
    if !is_version(version) {
        return Err(ReadFault::Version);
    }
    match rest {
        None => Err(ReadFault::StartLine),
        Some(rest) => status_at(line, rest),
    }
}

/// Where the parts of a request line stand in it; `rest` is what stands behind its method.
fn after_uri<A: Allocator>(
    line: &[u8],
    method: &[u8],
    rest: &[u8],
) -> Result<StartPlaces, ReadFault<A>>
    requires front { IsAt line.now 0 method.now }
    requires size { length method.now ≤ length line.now }
    requires end { IsEnd line.now rest.now }
    ensures value { Gives (start_in line.now) result (after_uri method.now (cut is_space rest.now)) }
    ensures within { IfOk result (λ places. IsStartWithin (length line.now) places) }
{
    let (uri, version) = cut_at_space(rest);
    let Some(version) = version else {
        return Err(ReadFault::StartLine);
    };
    if !is_version(version) {
        if begins_with_sip(version) {
            return Err(ReadFault::Version);
        }
        return Err(ReadFault::StartLine);
    }
    if !(is_token(method) && is_uri(uri)) {
        return Err(ReadFault::StartLine);
    }
    let method = PartPlace {
        start: 0,
        len: method.len(),
    };
    let uri = place_at_end(line, rest, uri.len());
    Ok(StartPlaces::Request { method, uri })
}

/// Where the parts of a request line stand in it.
fn request_of<A: Allocator>(line: &[u8]) -> Result<StartPlaces, ReadFault<A>>
    ensures value { Gives (start_in line.now) result (request_of (cut is_space line.now)) }
    ensures within { IfOk result (λ places. IsStartWithin (length line.now) places) }
{
    let (method, rest) = cut_at_space(line);
    match rest {
        None => Err(ReadFault::StartLine),
        Some(rest) => after_uri(line, method, rest),
    }
}

/// Where the parts of the start line that a line is stand in it. One that begins with `SIP/` is a response's.
#[tactic(auto, unfolding(crate::specs::Reading::start_of))]
pub fn start_of<A: Allocator>(line: &[u8]) -> Result<StartPlaces, ReadFault<A>>
    ensures value { Gives (start_in line.now) result (start_of line.now) }
    ensures within { IfOk result (λ places. IsStartWithin (length line.now) places) }
{
    if begins_with_sip(line) {
        response_of(line)
    } else {
        request_of(line)
    }
}
