//! Listings of random forks with a line left out or moved, and one listing with each of its bytes changed.
use crate::holds::holds;
use crate::listing::play::some_listing;
use crate::listing::read::{
    adds_line, ended_lines, holds_at, is_right, is_target, is_word, line, lines, next, with_byte,
    word,
};
use std::alloc::Global;
use std::process::Abort;

/// How many forks are listed.
const FORKS: u32 = 40;

const TEXT: &str =
    "fork 1 3\ntarget 0 - 1000 taken 0\ntarget 1 0 900 stored 404 2 received\ntarget 2 0 800 stored 408 3 assumed\nrank 404 1 2\nrank 408 2 3\nfinal 404 1\n";

/// Adds a line of this number, unless it is the one that is moved or empty, with the one that is moved before it where that
/// goes there; whether there was memory for them.
fn adds_moved(out: &mut Vec<u8>, text: &[u8], k: usize, from: usize, to: Option<usize>) -> bool {
    let before = to != Some(k) || adds_line(out, line(text, from));
    let is_left_out = k == from || line(text, k).is_empty();
    before && (is_left_out || adds_line(out, line(text, k)))
}

/// Adds the text with a line moved so; whether there was memory for it.
fn adds_all_moved(out: &mut Vec<u8>, text: &[u8], from: usize, to: Option<usize>) -> bool {
    for k in 0..lines(text) {
        if !adds_moved(out, text, k, from, to) {
            return false;
        }
    }
    true
}

/// Whether the check refuses the text with the line of this number left out, and put before the line of another number where
/// that is Some.
fn is_refused(alloc: Global, text: &[u8], from: usize, to: Option<usize>) -> bool {
    let mut out = Vec::new(alloc);
    adds_all_moved(&mut out, text, from, to) && !is_right(alloc, &out)
}

/// Checks that this line cannot be left out, nor put to a drawn place.
fn line_holds_in_place(
    rt: &(impl Abort + AllocGlobal),
    text: &[u8],
    from: usize,
    count: usize,
    seed: &mut u64,
) {
    let well = is_refused(rt.alloc(), text, from, None);
    holds_at(rt, well, "a listing without a line is refused", from, text);
    let to = usize::from(next(seed, 8));
    if to != from && to != from.wrapping_add(1) && to < count {
        let well = is_refused(rt.alloc(), text, from, Some(to));
        holds_at(
            rt,
            well,
            "a listing with a line moved is refused",
            from,
            text,
        );
    }
}

/// Checks that no line can be left out, and none put elsewhere.
fn holds_in_place(rt: &(impl Abort + AllocGlobal), text: &[u8], seed: &mut u64) {
    let count = ended_lines(text);
    for from in 0..count {
        line_holds_in_place(rt, text, from, count, seed);
    }
}

/// Checks that the listing of this number is right, and that no line of it can be elsewhere.
fn holds_as_it_stands(rt: &(impl Abort + AllocGlobal), text: &[u8], n: u32, seed: &mut u64) {
    holds_at(
        rt,
        is_right(rt.alloc(), text),
        "the listing of a fork is right",
        n as usize,
        text,
    );
    holds_in_place(rt, text, seed);
}

#[test]
fn changed_listings_are_refused(rt: HostRuntime) {
    let mut seed = 5u64;
    for n in 0..FORKS {
        match some_listing(rt.alloc(), &mut seed) {
            Some(text) => holds_as_it_stands(&rt, &text, n, &mut seed),
            None => holds(&rt, false, "a fork is listed"),
        }
    }
}

/// How many lines begin with this word and have that one at this place.
fn lines_of(text: &[u8], first: &str, place: usize, wanted: &str) -> usize {
    let mut count = 0usize;
    for n in 0..lines(text) {
        if is_word(line(text, n), 0, first) && is_word(line(text, n), place, wanted) {
            count = count.wrapping_add(1);
        }
    }
    count
}

/// The first line that begins with this word, or an empty one.
fn first_of<'a>(text: &'a [u8], first: &str) -> &'a [u8] {
    for n in 0..lines(text) {
        if is_word(line(text, n), 0, first) {
            return line(text, n);
        }
    }
    &[]
}

/// Whether the last target of the number in this rank's line has its status and arrival.
fn is_rank_told(text: &[u8], rank: &[u8]) -> bool {
    let mut told = false;
    for n in 0..lines(text) {
        let other = line(text, n);
        if is_target(other) && word(other, 1) == word(rank, 2) {
            told = word(other, 5) == word(rank, 1) && word(other, 6) == word(rank, 3);
        }
    }
    told
}

fn are_ranks_told(text: &[u8]) -> bool {
    for n in 0..lines(text) {
        if is_word(line(text, n), 0, "rank") && !is_rank_told(text, line(text, n)) {
            return false;
        }
    }
    true
}

/// Whether a last line tells the answer of this rank, or that there is none.
fn is_last_of(last: &[u8], rank: &[u8]) -> bool {
    if rank.is_empty() {
        return is_word(last, 1, "408") && is_word(last, 2, "-");
    }
    let is_unavailable = is_word(rank, 1, "503") && is_word(last, 1, "500");
    (is_unavailable || word(last, 1) == word(rank, 1)) && word(last, 2) == word(rank, 2)
}

/// What an accepted text tells: whether it has as many ranks as stored answers, each of one of them, and ends in the
/// first.
fn tells_its_answers(text: &[u8]) -> bool {
    lines_of(text, "target", 4, "stored") == lines_of(text, "rank", 0, "rank")
        && are_ranks_told(text)
        && is_last_of(first_of(text, "final"), first_of(text, "rank"))
}

/// Checks that a text that is right tells its answers; whether it is right.
fn is_accepted_of(rt: &(impl Abort + AllocGlobal), text: &[u8], place: usize) -> bool {
    let accepted = is_right(rt.alloc(), text);
    let well = !accepted || tells_its_answers(text);
    holds_at(rt, well, "an accepted text tells its answers", place, text);
    accepted
}

/// Whether the text with this byte changed is right; where it is, checks that it tells its answers.
fn is_accepted(rt: &(impl Abort + AllocGlobal), place: usize, byte: u8) -> bool {
    match with_byte(rt.alloc(), TEXT.as_bytes(), place, byte) {
        Some(text) => is_accepted_of(rt, &text, place),
        None => {
            holds(rt, false, "there is memory for the text");
            false
        }
    }
}

/// How many texts are right with another byte at this place.
fn accepted_at(rt: &(impl Abort + AllocGlobal), place: usize) -> usize {
    let mut accepted = 0usize;
    for byte in [b'0', b'1', b'3', b'5', b'9', b'-', b' ', b'\n', b'a', 255u8] {
        if is_accepted(rt, place, byte) {
            accepted = accepted.wrapping_add(1);
        }
    }
    accepted
}

#[test]
fn one_changed_byte_is_never_believed(rt: HostRuntime) {
    let mut accepted = 0usize;
    for place in 0..TEXT.len() {
        accepted = accepted.wrapping_add(accepted_at(&rt, place));
    }
    // a q may be another, and so may the moment of a branch that stored nothing
    holds(
        &rt,
        accepted > TEXT.len() / 10,
        "some changed texts are accepted",
    );
}
