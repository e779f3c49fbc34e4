//! The header lines.

ghost use Rattle.std.specs.Prelude.{◌≡◌, ◌+◌, ◌≤◌, [], drop, length, option_map, take, IfOk, IfErr, IfNone, IfSome, OnOk, None, Some, false};
ghost use Rattle.sip_lex.specs.Bytes.{trim};
ghost use Rattle.sip_lex.specs.Pieces.{pieces};
ghost use Rattle.sip_text.specs.Fault.{Fails, Gives};
ghost use Rattle.sip_text.specs.inner.Heads.{IsNamed, continued, front_header, or_bad, put, valued, with_part};
ghost use Rattle.sip_text.specs.inner.Kept.{AreLinesWithin, IsAt, IsLineWithin};
ghost use Rattle.sip_lex.specs.Places.{IsEnd, IsWithin, part_at};
ghost use Rattle.sip_text.specs.Reading.{header_of, headers_at, tail_at};
ghost use Rattle.sip_lex.specs.Values.{begins_with_space};
ghost use Rattle.sip_text.specs.Seen.{header_in, headers_in};

use crate::fault::ReadFault;
use crate::place::LinePlaces;
use sip_lex::{
    PartPlace, append_pieces, begins_with_space, cut_near, cut_token, first_line, is_token,
    part_at, place_at_end, trim, trim_end, trim_start,
};
use std::alloc::{AllocError, Allocator};

/// The name of a header line, and what stands behind the colon, where space may stand between the two.
fn spaced_name(line: &[u8]) -> Option<(&[u8], &[u8])>
    ensures found { IfSome result (λ p. IsNamed line.now p.0.now p.1.now) }
    ensures none { IfNone result (header_of line.now [] ≡ None) }
{
    let (front, raw) = cut_near(line, b':');
    let raw = raw?;
    let name = trim_end(front);
    if !is_token(name) {
        return None;
    }
    Some((name, raw))
}

/// The name of a header line, and what stands behind its colon; None where it has none. In most lines the name stands right before
/// the colon.
#[tactic(auto, using(crate::proofs::HeaderPlaces::token_named))]
fn name_and_rest(line: &[u8]) -> Option<(&[u8], &[u8])>
    ensures found { IfSome result (λ p. IsNamed line.now p.0.now p.1.now) }
    ensures none { IfNone result (header_of line.now [] ≡ None) }
{
    match cut_token(line, b':') {
        Some(found) => Some(found),
        None => spaced_name(line),
    }
}

/// Where the name and the value of a header line stand in it; None where it has none.
fn places_of(line: &[u8]) -> Option<LinePlaces>
    ensures value { option_map (header_in line.now) result ≡ header_of line.now [] }
    ensures within { IfSome result (λ places. IsLineWithin (length line.now) places) }
{
    let Some((name, raw)) = name_and_rest(line) else {
        return None;
    };
    let rest = trim_start(raw);
    let value = place_at_end(line, rest, trim_end(rest).len());
    Some(LinePlaces {
        name: PartPlace {
            start: 0,
            len: name.len(),
        },
        value,
    })
}

/// Adds a line that continues the value that stands at the end of a text, from `start` on, with one space between.
fn append_part<A: Allocator>(
    kept: &mut Vec<u8, A>,
    start: usize,
    part: &[u8],
) -> Result<(), AllocError>
    requires { start ≤ length kept.old.items }
    ensures value { OnOk result (drop start kept.new.items ≡ with_part (drop start kept.old.items) part.now) }
    ensures begins { OnOk result (take start kept.new.items ≡ take start kept.old.items) }
    ensures longer { OnOk result (length kept.old.items ≤ length kept.new.items) }
{
    let gap: &[u8] = if kept.len() == start { b"" } else { b" " };
    append_pieces(kept, &[gap, part])
}

/// Where the value that stands at the end of a text, from `start` on, stands without the space at its end; none stands
/// at its front.
fn trimmed_place(kept: &[u8], start: usize) -> PartPlace
    requires start { start ≤ length kept.now }
    requires front { begins_with_space (drop start kept.now) ≡ false }
    ensures value { part_at kept.now result ≡ trim (drop start kept.now) }
    ensures within { IsWithin (length kept.now) result }
{
    let value = &kept[start..];
    PartPlace {
        start,
        len: trim_end(value).len(),
    }
}

/// Appends a value with the lines that continue it to a text. Where it stands in the text, and what stands behind those
/// lines.
fn with_lines<'a, A: Allocator>(
    kept: &mut Vec<u8, A>,
    value: &[u8],
    text: &'a [u8],
) -> Result<(PartPlace, &'a [u8]), ReadFault<A>>
    requires { begins_with_space value.now ≡ false }
    ensures begins { IfOk result (λ _. take (length kept.old.items) kept.new.items ≡ kept.old.items) }
    ensures ok { IfOk result
        (λ x. continued value.now (tail_at text.now) ≡ valued (part_at kept.new.items x.0) (headers_at x.1.now)) }
    ensures err { IfErr result
        (λ e. Fails e (or_bad (continued value.now (tail_at text.now)))) }
    ensures within { IfOk result (λ x. IsWithin (length kept.new.items) x.0) }
    ensures end { IfOk result (λ x. IsEnd text.now x.1.now) }
{
    let start = kept.len();
    kept.extend_from_slice(value)?;
    let mut rest = text;
    while begins_with_space(rest) {
        let Some((line, after)) = first_line(rest) else {
            return Err(ReadFault::HeaderLine);
        };
        append_part(kept, start, trim(line))?;
        rest = after;
    }
    Ok((trimmed_place(kept, start), rest))
}

/// The header line that begins with a line, which stands in the kept text from `at` on, and what stands behind the lines
/// that continue it: `text` is what stands behind the line.
fn header_of<'a, A: Allocator>(
    kept: &mut Vec<u8, A>,
    at: usize,
    line: &[u8],
    text: &'a [u8],
) -> Result<(LinePlaces, &'a [u8]), ReadFault<A>>
    requires place { at + length line.now ≤ length kept.old.items }
    requires line { IsAt kept.old.items at line.now }
    ensures begins { IfOk result (λ _. take (length kept.old.items) kept.new.items ≡ kept.old.items) }
    ensures ok { IfOk result
        (λ x. front_header line.now (tail_at text.now) ≡ put (header_in kept.new.items x.0) (headers_at x.1.now)) }
    ensures err { IfErr result
        (λ e. Fails e (or_bad (front_header line.now (tail_at text.now)))) }
    ensures within { IfOk result (λ x. IsLineWithin (length kept.new.items) x.0) }
    ensures end { IfOk result (λ x. IsEnd text.now x.1.now) }
{
    let Some(places) = places_of(line) else {
        return Err(ReadFault::HeaderLine);
    };
    let moved = places.moved(at);
    if !begins_with_space(text) {
        return Ok((moved, text));
    }
    let (value, rest) = with_lines(kept, part_at(line, places.value), text)?;
    Ok((
        LinePlaces {
            name: moved.name,
            value,
        },
        rest,
    ))
}

/// How many headers a list has room for before it grows: more than most messages have.
const HEADERS_AT_FIRST: usize = 16;

/// Where the headers up to the empty line stand in the kept text, which begins as the whole text and of which `text` is the
/// end, and what stands behind that line.
pub fn headers_of<'a, A: Allocator + Clone>(
    alloc: &A,
    kept: &mut Vec<u8, A>,
    whole: &'a [u8],
    text: &'a [u8],
) -> Result<(Vec<LinePlaces, A>, &'a [u8]), ReadFault<A>>
    requires kept { kept.old.items ≡ whole.now }
    requires end { IsEnd whole.now text.now }
    ensures value { Gives (λ x. (headers_in kept.new.items x.0.items, pieces 10 x.1.now)) result (or_bad (headers_at text.now)) }
    ensures begins { IfOk result (λ _. take (length whole.now) kept.new.items ≡ whole.now) }
    ensures within { IfOk result (λ x. AreLinesWithin (length kept.new.items) x.0.items) }
    ensures end { IfOk result (λ x. IsEnd whole.now x.1.now) }
{
    let mut lines = Vec::with_capacity(alloc.clone()?, HEADERS_AT_FIRST)?;
    let mut rest = text;
    loop {
        let Some((line, after)) = first_line(rest) else {
            return Err(ReadFault::HeaderLine);
        };
        if line.is_empty() {
            return Ok((lines, after));
        }
        let (places, behind) = header_of(kept, whole.len() - rest.len(), line, after)?;
        lines.push(places)?;
        rest = behind;
    }
}
