//! How a listing is checked, and the lines and words of a text.
use crate::bytes::{copy_of, is};
use bumpalo::Bump;
use fork_listing::{CheckFault, Verdict, check};
use std::alloc::Global;
use std::process::Abort;

/// Ends the test where this does not hold of a row of a table. `what` says which check it is, `row` which row.
pub fn holds_of(rt: &impl Abort, well: bool, what: &str, row: &str) {
    assert!(rt; well, "{what}, of {row:?}");
}

/// Ends the test where this does not hold at a line, or another place, of a text.
pub fn holds_at(rt: &impl Abort, well: bool, what: &str, place: usize, text: &[u8]) {
    assert!(rt; well, "{what}, at {place} of {text:?}");
}

/// What a check of a text finds, in an arena of its own.
pub fn found(alloc: Global, text: &[u8]) -> Result<Verdict, CheckFault> {
    let arena = Bump::new(alloc);
    check(&arena, text)
}

/// Whether a check of a text finds this.
pub fn finds(alloc: Global, text: &[u8], wanted: Result<Verdict, CheckFault>) -> bool {
    match (found(alloc, text), wanted) {
        (Ok(verdict), Ok(wanted)) => verdict == wanted,
        (Err(fault), Err(wanted)) => fault == wanted,
        _ => false,
    }
}

pub fn is_right(alloc: Global, text: &[u8]) -> bool {
    matches!(found(alloc, text), Ok(_))
}

/// How many lines end in the text.
pub fn ended_lines(text: &[u8]) -> usize {
    text.iter().filter(|byte| **byte == b'\n').count()
}

/// How many lines there are, with the empty one behind the last end of a line.
pub fn lines(text: &[u8]) -> usize {
    text.split(|byte| *byte == b'\n').count()
}

/// The line of this number, from 0.
pub fn line(text: &[u8], n: usize) -> &[u8] {
    text.split(|byte| *byte == b'\n').nth(n).unwrap_or(&[])
}

pub fn words(line: &[u8]) -> usize {
    line.split(|byte| *byte == b' ').count()
}

/// The word of this number in a line.
pub fn word(line: &[u8], n: usize) -> &[u8] {
    line.split(|byte| *byte == b' ').nth(n).unwrap_or(&[])
}

pub fn is_word(line: &[u8], n: usize, wanted: &str) -> bool {
    is(word(line, n), wanted.as_bytes())
}

pub fn is_target(line: &[u8]) -> bool {
    is_word(line, 0, "target")
}

/// Appends a line and its end; whether there was memory for them.
pub fn adds_line(out: &mut Vec<u8>, line: &[u8]) -> bool {
    out.extend_from_slice(line).is_ok() && out.push(b'\n').is_ok()
}

/// The text with this byte changed.
pub fn with_byte(alloc: Global, text: &[u8], place: usize, byte: u8) -> Option<Vec<u8>> {
    match copy_of(alloc, text) {
        Some(mut copy) => {
            if let Some(there) = copy.get_mut(place) {
                *there = byte;
            }
            Some(copy)
        }
        None => None,
    }
}

/// What follows a number in a sequence.
fn followed(seed: u64) -> u64 {
    seed.wrapping_mul(6_364_136_223_846_793_005)
        .wrapping_add(1_442_695_040_888_963_407)
}

/// What is left of a number below a bound; 0 where it has no room.
fn below(number: u64, bound: u64) -> u16 {
    u16::try_from(number.checked_rem(bound).unwrap_or(0)).unwrap_or(0)
}

/// The next number of a sequence, below a bound.
pub fn next(seed: &mut u64, bound: u64) -> u16 {
    let number = followed(*seed);
    *seed = number;
    below(number >> 33, bound)
}
