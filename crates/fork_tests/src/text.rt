//! Fields and the lines of the rules, read and written.
use crate::bytes::is;
use crate::holds::holds;
use fork_rank::{
    Rules, append, append_depth, append_list, append_preferred, read_depth, read_preferred,
    read_small_number, read_small_number_before, with_depth, with_preferred,
};
use std::alloc::Global;

/// The number before a space, where the rest is this.
fn number_before(text: &str, rest: &str) -> Option<u16> {
    match read_small_number_before(text.as_bytes(), 1000) {
        Some((n, behind)) if behind == rest.as_bytes() => Some(n),
        _ => None,
    }
}

/// How many statuses there are, and the last of them; 0 where there is none.
fn count_and_last(statuses: &[u16]) -> (usize, u16) {
    match statuses {
        [] => (0, 0),
        [.., last] => (statuses.len(), *last),
    }
}

/// How many statuses a list has that is read, and the last of them.
fn list_read(text: &str) -> Option<(usize, u16)> {
    match read_preferred(text.as_bytes()) {
        Some(preferred) => Some(count_and_last(preferred.statuses())),
        None => None,
    }
}

fn depth_read(digits: &str) -> Option<u16> {
    match read_depth(digits.as_bytes()) {
        None => None,
        Some(depth) => Some(depth.steps),
    }
}

/// These rules with the depth that digits spell.
fn with_depth_read(rules: Rules, digits: &str) -> Option<Rules> {
    match read_depth(digits.as_bytes()) {
        Some(depth) => Some(with_depth(rules, depth)),
        None => None,
    }
}

/// The rules that a list and a depth spell, over the usual ones.
fn rules_of(list: &str, depth: &str) -> Option<Rules> {
    match read_preferred(list.as_bytes()) {
        Some(preferred) => with_depth_read(with_preferred(Rules::usual(), preferred), depth),
        None => None,
    }
}

/// Whether the lines of rules stand behind a word as this text.
fn has_lines(alloc: Global, rules: &Rules, wanted: &[u8]) -> bool {
    let mut text = Vec::new(alloc);
    append(&mut text, b"rules\n").is_ok()
        && append_preferred(&mut text, rules).is_ok()
        && append_depth(&mut text, rules).is_ok()
        && is(&text, wanted)
}

/// Whether the lines of the rules that a list and a depth spell do.
fn has_lines_of(alloc: Global, list: &str, depth: &str, wanted: &[u8]) -> bool {
    match rules_of(list, depth) {
        Some(rules) => has_lines(alloc, &rules, wanted),
        None => false,
    }
}

/// Whether numbers are written as this text, with commas between them.
fn is_listed(alloc: Global, numbers: &[u16], wanted: &[u8]) -> bool {
    let mut text = Vec::new(alloc);
    append_list(&mut text, numbers).is_ok() && is(&text, wanted)
}

#[test]
fn fields_are_read(rt: HostRuntime) {
    holds(
        &rt,
        read_small_number(b"499", 499) == Some(499),
        "a number at its limit",
    );
    holds(
        &rt,
        read_small_number(b"500", 499).is_none(),
        "a number over its limit",
    );
    holds(
        &rt,
        read_small_number(b"07", 499).is_none(),
        "a leading zero",
    );
    holds(
        &rt,
        number_before("1000 a b", "a b") == Some(1000),
        "a number before a space",
    );
    holds(
        &rt,
        number_before("1000", "").is_none(),
        "no space behind it",
    );
}

#[test]
fn rules_are_read(rt: HostRuntime) {
    holds(&rt, list_read("-") == Some((0, 0)), "an empty list");
    holds(&rt, list_read("401,499") == Some((2, 499)), "two statuses");
    holds(&rt, list_read("401,401").is_none(), "a status twice");
    holds(&rt, list_read("399").is_none(), "a status that is no 4xx");
    holds(&rt, list_read("").is_none(), "no list");
    holds(
        &rt,
        list_read("400,401,402,403,404,405,406,407,408,409,410,411,412,413,414,415")
            == Some((16, 415)),
        "as many statuses as there may be",
    );
    holds(
        &rt,
        list_read("400,401,402,403,404,405,406,407,408,409,410,411,412,413,414,415,416").is_none(),
        "one more",
    );
    holds(&rt, depth_read("256") == Some(256), "the greatest depth");
    holds(&rt, depth_read("257").is_none(), "one deeper");
}

#[test]
fn rules_are_written(rt: HostRuntime) {
    let alloc = rt.alloc();
    let read = b"rules\nprefer 407,484\ndepth 3\n";
    holds(
        &rt,
        has_lines_of(alloc, "407,484", "3", read),
        "the rules that were read, behind what was there",
    );
    let usual = b"rules\nprefer 401,407,415,420,484\ndepth 256\n";
    holds(
        &rt,
        has_lines(alloc, &Rules::usual(), usual),
        "the usual rules",
    );
    holds(&rt, is_listed(alloc, &[], b"-"), "no numbers");
    holds(
        &rt,
        is_listed(alloc, &[0, 65535], b"0,65535"),
        "two numbers",
    );
}
