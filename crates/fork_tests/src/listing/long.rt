//! Texts that are long or deep, and an arena that serves many checks.
use crate::holds::holds;
use crate::listing::read::{finds, holds_of, is_right};
use bumpalo::Bump;
use fork_listing::{CheckFault, check};
use std::alloc::{AllocError, Global};
use std::process::Abort;

const TEXT: &str =
    "fork 1 3\ntarget 0 - 1000 taken 0\ntarget 1 0 900 stored 404 2 received\ntarget 2 0 800 stored 408 3 assumed\nrank 404 1 2\nrank 408 2 3\nfinal 404 1\n";

/// Adds a line that was made, if it was; whether there was memory for it.
fn adds(text: &mut String, line: Result<String, AllocError>) -> bool {
    match line {
        Ok(line) => text.push_str(&line).is_ok(),
        Err(_) => false,
    }
}

fn adds_below(alloc: Global, text: &mut String, n: u32) -> bool {
    let parent = n.wrapping_sub(1);
    adds(
        text,
        format!(in alloc; "target {n} {parent} 1000 taken {n}\n"),
    )
}

fn adds_each_below(alloc: Global, text: &mut String, count: u32) -> bool {
    for n in 1..count.saturating_sub(1) {
        if !adds_below(alloc, text, n) {
            return false;
        }
    }
    true
}

fn adds_last(alloc: Global, text: &mut String, n: u32) -> bool {
    let parent = n.wrapping_sub(1);
    adds(
        text,
        format!(in alloc;
            "target {n} {parent} 1000 stored 404 {n} received\nrank 404 {n} {n}\nfinal 404 {n}\n"
        ),
    )
}

/// A chain of targets: each but the first stands under the one before it, and all were redirected but the last.
fn chain(alloc: Global, head: &str, count: u32) -> Option<String> {
    let mut text = String::new(alloc);
    let added = text.push_str(head).is_ok()
        && text.push_str("target 0 - 1000 taken 0\n").is_ok()
        && adds_each_below(alloc, &mut text, count)
        && adds_last(alloc, &mut text, count.wrapping_sub(1));
    if added { Some(text) } else { None }
}

/// Heads of chains, with their length and the fault that a check finds, if any.
const CHAINS: [(&str, u32, Option<CheckFault>); 5] = [
    ("fork 1 100\n", 100, Some(CheckFault::Line(1))),
    ("fork 1 64\n", 64, None),
    ("fork 3 256\nprefer -\ndepth 255\n", 256, None),
    (
        "fork 3 256\nprefer -\ndepth 254\n",
        256,
        Some(CheckFault::Tree(259)),
    ),
    (
        "fork 3 257\nprefer -\ndepth 256\n",
        257,
        Some(CheckFault::Line(1)),
    ),
];

/// Whether a check of the text finds this fault, or none.
fn has_fault(alloc: Global, text: &[u8], fault: Option<CheckFault>) -> bool {
    match fault {
        Some(fault) => finds(alloc, text, Err(fault)),
        None => is_right(alloc, text),
    }
}

/// Whether a check of the chain finds this fault, or none.
fn chain_has_fault(alloc: Global, head: &str, count: u32, fault: Option<CheckFault>) -> bool {
    match chain(alloc, head, count) {
        Some(text) => has_fault(alloc, text.as_bytes(), fault),
        None => false,
    }
}

#[test]
fn long_chains_are_checked(rt: HostRuntime) {
    for (head, count, fault) in CHAINS {
        let well = chain_has_fault(rt.alloc(), head, count, fault);
        holds_of(&rt, well, "a chain is checked", head);
    }
}

/// Adds a part so many times; whether there was memory for it.
fn adds_repeated(text: &mut String, part: &str, count: u32) -> bool {
    for _ in 0..count {
        if text.push_str(part).is_err() {
            return false;
        }
    }
    true
}

/// A text with a part between its head and its end so many times.
fn repeated(alloc: Global, head: &str, part: &str, count: u32, end: &str) -> Option<String> {
    let mut text = String::new(alloc);
    let added = text.push_str(head).is_ok()
        && adds_repeated(&mut text, part, count)
        && text.push_str(end).is_ok();
    if added { Some(text) } else { None }
}

/// Checks that a text has over a million bytes, and this fault.
fn holds_long_text(rt: &(impl Abort + AllocGlobal), text: &[u8], fault: CheckFault, row: &str) {
    holds_of(
        rt,
        text.len() > 1_000_000,
        "the text has over a million bytes",
        row,
    );
    holds_of(
        rt,
        finds(rt.alloc(), text, Err(fault)),
        "many lines are checked",
        row,
    );
}

/// Checks that the listing with 80,000 rank lines, and this end, has this fault.
fn holds_many_lines(rt: &(impl Abort + AllocGlobal), end: &str, fault: CheckFault, row: &str) {
    let head = "fork 1 1\ntarget 0 - 1000 stored 404 0 received\n";
    match repeated(rt.alloc(), head, "rank 404 0 0\n", 80_000, end) {
        Some(text) => holds_long_text(rt, text.as_bytes(), fault, row),
        None => holds_of(rt, false, "there is memory for the text", row),
    }
}

/// Whether a head with a million digits, and this end, is malformed.
fn is_long_line_refused(alloc: Global, end: &str) -> bool {
    match repeated(alloc, "fork 1 ", "11111111", 125_000, end) {
        Some(text) => finds(alloc, text.as_bytes(), Err(CheckFault::Line(1))),
        None => false,
    }
}

/// Checks that a head with a million digits, and this end, is malformed.
fn holds_long_line(rt: &(impl Abort + AllocGlobal), end: &str, row: &str) {
    let well = is_long_line_refused(rt.alloc(), end);
    holds_of(rt, well, "a long line is malformed", row);
}

#[test]
fn texts_of_a_million_bytes_are_checked(rt: HostRuntime) {
    holds_many_lines(&rt, "", CheckFault::Line(80_003), "without a last line");
    holds_many_lines(
        &rt,
        "final 404 0\n",
        CheckFault::Order(4),
        "with a last line",
    );
    holds_long_line(&rt, "", "without its end");
    holds_long_line(&rt, "\n", "with its end");
    holds(
        &rt,
        is_right(rt.alloc(), TEXT.as_bytes()),
        "a right text is accepted after them",
    );
}

/// A text for each fault.
const FAULTS: [(&str, CheckFault); 5] = [
    (
        "fork 1 1\ntarget 0 - 1000 never\nfinal 408 0",
        CheckFault::Line(3),
    ),
    (
        "fork 1 2\ntarget 0 - 1000 never\ntarget 1 0 5 never\nfinal 408 -\n",
        CheckFault::Tree(3),
    ),
    (
        "fork 1 1\ntarget 0 - 1000 stored 404 0 received\nrank 404 0 1\nfinal 404 0\n",
        CheckFault::Order(3),
    ),
    (
        "fork 1 1\ntarget 0 - 1000 stored 404 0 received\nfinal 404 0\n",
        CheckFault::Absent(0),
    ),
    (
        "fork 1 1\ntarget 0 - 1000 never\nfinal 408 0\n",
        CheckFault::FinalLine,
    ),
];

/// The fault that a check in this arena finds, if any.
fn fault_in(arena: &Bump<Global>, text: &str) -> Option<CheckFault> {
    match check(arena, text.as_bytes()) {
        Ok(_) => None,
        Err(fault) => Some(fault),
    }
}

/// Checks in one arena that a wrong text is refused and then a right one accepted.
fn holds_in_turn(rt: &impl Abort, arena: &mut Bump<Global>, text: &str, fault: CheckFault) {
    holds_of(
        rt,
        fault_in(arena, text) == Some(fault),
        "the arena serves a wrong text",
        text,
    );
    holds_of(rt, arena.reset().is_ok(), "the arena is emptied", text);
    holds_of(
        rt,
        fault_in(arena, TEXT).is_none(),
        "the arena serves a right text after",
        text,
    );
    holds_of(rt, arena.reset().is_ok(), "the arena is emptied", text);
}

#[test]
fn arena_serves_again(rt: HostRuntime) {
    let mut arena = Bump::new(rt.alloc());
    for (text, fault) in FAULTS {
        for _ in 0..3u32 {
            holds_in_turn(&rt, &mut arena, text, fault);
        }
    }
}
