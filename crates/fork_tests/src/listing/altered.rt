//! Listings of random forks in which one byte or one word of a line was replaced: where the other lines tell what
//! stands there, no other is accepted.
use crate::bytes::is;
use crate::holds::holds;
use crate::listing::play::some_listing;
use crate::listing::read::{
    adds_line, holds_at, is_right, is_target, is_word, line, lines, next, with_byte, word, words,
};
use std::alloc::Global;
use std::process::Abort;

/// How many forks are listed.
const FORKS: u32 = 30;

/// Bytes that are put in the place of another.
const BYTES: &[u8] = b"0123456789- \n";

/// Words that are put in the place of another.
const WORDS: [&str; 22] = [
    "-",
    "0",
    "1",
    "2",
    "3",
    "4",
    "5",
    "6",
    "7",
    "8",
    "9",
    "10",
    "11",
    "300",
    "302",
    "404",
    "408",
    "500",
    "503",
    "603",
    "65535",
    "4294967295",
];

/// Appends a space before each word but the first, and the word; whether there was memory for them.
fn adds_word(out: &mut Vec<u8>, n: usize, word: &[u8]) -> bool {
    (n == 0 || out.push(b' ').is_ok()) && out.extend_from_slice(word).is_ok()
}

/// Appends a line with the word of this number replaced; whether there was memory for it.
fn adds_altered(out: &mut Vec<u8>, line: &[u8], place: usize, new: &[u8]) -> bool {
    for n in 0..words(line) {
        let word = if n == place { new } else { word(line, n) };
        if !adds_word(out, n, word) {
            return false;
        }
    }
    out.push(b'\n').is_ok()
}

/// Appends the text with a word of a line replaced; whether there was memory for it.
fn adds_all_altered(out: &mut Vec<u8>, text: &[u8], at: usize, place: usize, new: &[u8]) -> bool {
    for n in 0..lines(text).saturating_sub(1) {
        let added = if n == at {
            adds_altered(out, line(text, n), place, new)
        } else {
            adds_line(out, line(text, n))
        };
        if !added {
            return false;
        }
    }
    true
}

/// Whether the check refuses a text in the place of another, unless they are the same.
fn is_other_refused(alloc: Global, text: &[u8], text_after: &[u8]) -> bool {
    is(text_after, text) || !is_right(alloc, text_after)
}

/// Whether the check refuses the text with a word of a line replaced, unless that changes nothing.
fn is_refused(alloc: Global, text: &[u8], at: usize, place: usize, new: &[u8]) -> bool {
    let mut text_after = Vec::new(alloc);
    adds_all_altered(&mut text_after, text, at, place, new)
        && is_other_refused(alloc, text, &text_after)
}

/// Where the lines of the ranks begin, or the last line.
fn ranks_at(text: &[u8]) -> usize {
    let mut start = 0usize;
    for n in 0..lines(text) {
        let line = line(text, n);
        if is_word(line, 0, "rank") || is_word(line, 0, "final") {
            return start;
        }
        start = start.wrapping_add(line.len()).wrapping_add(1);
    }
    start
}

/// Some byte that is put in the place of another.
fn some_byte(seed: &mut u64) -> u8 {
    let drawn = usize::from(next(seed, BYTES.len() as u64));
    BYTES.get(drawn).copied().unwrap_or(b'-')
}

/// Some word that is put in the place of another.
fn some_word(seed: &mut u64) -> &'static str {
    let drawn = usize::from(next(seed, WORDS.len() as u64));
    WORDS.get(drawn).copied().unwrap_or("-")
}

/// Whether the check refuses the text with this byte replaced by some other.
fn is_byte_fixed(alloc: Global, text: &[u8], place: usize, seed: &mut u64) -> bool {
    match with_byte(alloc, text, place, some_byte(seed)) {
        Some(text_after) => is_other_refused(alloc, text, &text_after),
        None => false,
    }
}

/// Checks each byte of the ranks and the last line.
fn hold_bytes(rt: &(impl Abort + AllocGlobal), text: &[u8], seed: &mut u64) {
    for place in ranks_at(text)..text.len() {
        let well = is_byte_fixed(rt.alloc(), text, place, seed);
        holds_at(rt, well, "another byte is refused", place, text);
    }
}

#[test]
fn each_byte_of_the_ranks_and_the_last_line_counts(rt: HostRuntime) {
    let mut seed = 11u64;
    for _ in 0..FORKS {
        match some_listing(rt.alloc(), &mut seed) {
            Some(text) => hold_bytes(&rt, &text, &mut seed),
            None => holds(&rt, false, "a fork is listed"),
        }
    }
}

/// Whether other lines tell the word of this number: all words, but for the preferred statuses, the depth, parents, q's
/// and the moments of branches that stored nothing.
fn is_told(line: &[u8], place: usize) -> bool {
    if is_target(line) {
        place != 2 && place != 3 && (place != 5 || is_word(line, 4, "stored"))
    } else {
        !is_word(line, 0, "prefer") && !is_word(line, 0, "depth")
    }
}

/// Whether the check refuses the text with a word of this line that other lines tell replaced by some other.
fn is_line_fixed(alloc: Global, text: &[u8], at: usize, seed: &mut u64) -> bool {
    let old = line(text, at);
    for place in 0..words(old) {
        let new = some_word(seed);
        if is_told(old, place) && !is_refused(alloc, text, at, place, new.as_bytes()) {
            return false;
        }
    }
    true
}

/// Checks the words of each line.
fn hold_words(rt: &(impl Abort + AllocGlobal), text: &[u8], seed: &mut u64) {
    for at in 0..lines(text).saturating_sub(1) {
        let well = is_line_fixed(rt.alloc(), text, at, seed);
        holds_at(rt, well, "another word in a line is refused", at, text);
    }
}

#[test]
fn words_that_other_lines_tell_are_checked(rt: HostRuntime) {
    let mut seed = 12u64;
    for _ in 0..FORKS {
        match some_listing(rt.alloc(), &mut seed) {
            Some(text) => hold_words(&rt, &text, &mut seed),
            None => holds(&rt, false, "a fork is listed"),
        }
    }
}

/// Which word of a target's line is the position of the event that ended it; none where it was never tried.
fn arrival_place(line: &[u8]) -> Option<usize> {
    if !is_target(line) || is_word(line, 4, "never") {
        None
    } else if is_word(line, 4, "stored") {
        Some(6)
    } else {
        Some(5)
    }
}

/// Whether the check refuses the text with this arrival put in the place of that of the line, unless that is the same.
fn is_arrival_refused(alloc: Global, text: &[u8], at: usize, arrival: &[u8]) -> bool {
    match arrival_place(line(text, at)) {
        Some(place) => is_refused(alloc, text, at, place, arrival),
        None => true,
    }
}

/// Whether the check refuses the text with this arrival put in the place of each.
fn is_refused_of_each(alloc: Global, text: &[u8], arrival: &[u8]) -> bool {
    for n in 0..lines(text) {
        if !is_arrival_refused(alloc, text, n, arrival) {
            return false;
        }
    }
    true
}

/// Whether the check refuses the text with the arrival of this line put in the place of each other.
fn is_arrival_once(alloc: Global, text: &[u8], at: usize) -> bool {
    let old = line(text, at);
    match arrival_place(old) {
        Some(place) => is_refused_of_each(alloc, text, word(old, place)),
        None => true,
    }
}

/// Appends a q above this one: ten times as much and nine, which is of the form of a q where this is below 100; whether
/// there was memory for it.
fn adds_greater_q(greater: &mut Vec<u8>, q: &[u8]) -> bool {
    (is(q, b"0") || greater.extend_from_slice(q).is_ok()) && greater.push(b'9').is_ok()
}

/// Whether the check refuses the text with a q of this line that is above this one.
fn is_greater_refused(alloc: Global, text: &[u8], at: usize, q: &[u8]) -> bool {
    let mut greater = Vec::new(alloc);
    adds_greater_q(&mut greater, q) && is_refused(alloc, text, at, 3, &greater)
}

/// Whether the check refuses the text with a q of this line that is above that of the line before, where both stand
/// under the same parent.
fn is_q_falling(alloc: Global, text: &[u8], at: usize) -> bool {
    let before = line(text, at.wrapping_sub(1));
    !is_target(before)
        || !is(word(before, 2), word(line(text, at), 2))
        || is_greater_refused(alloc, text, at, word(before, 3))
}

/// Whether the check refuses the text with this branch under itself, or under one behind it.
fn is_parent_earlier(alloc: Global, text: &[u8], at: usize) -> bool {
    for n in at..lines(text) {
        let other = line(text, n);
        if is_target(other) && !is_refused(alloc, text, at, 2, word(other, 1)) {
            return false;
        }
    }
    true
}

/// Checks the arrival, the q and the parent of the target in this line.
fn hold_target(rt: &(impl Abort + AllocGlobal), text: &[u8], at: usize) {
    let well = is_arrival_once(rt.alloc(), text, at);
    holds_at(rt, well, "an arrival stands once", at, text);
    let well = is_q_falling(rt.alloc(), text, at);
    holds_at(rt, well, "no q is above that before it", at, text);
    let well = is_parent_earlier(rt.alloc(), text, at);
    holds_at(rt, well, "a parent stands before its branches", at, text);
}

fn hold_targets(rt: &(impl Abort + AllocGlobal), text: &[u8]) {
    for at in 0..lines(text) {
        if is_target(line(text, at)) {
            hold_target(rt, text, at);
        }
    }
}

#[test]
fn targets_stay_in_their_order(rt: HostRuntime) {
    let mut seed = 13u64;
    for _ in 0..FORKS {
        match some_listing(rt.alloc(), &mut seed) {
            Some(text) => hold_targets(&rt, &text),
            None => holds(&rt, false, "a fork is listed"),
        }
    }
}
