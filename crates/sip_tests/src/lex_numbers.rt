//! Numbers written in decimal are read again.
use crate::bytes::is;
use crate::holds::holds;
use sip_lex::{append_decimal, read_plain_number};
use std::alloc::Global;

/// Whether a number stands in decimal behind two bytes as this text once it is appended, and whether it is read again;
/// nothing where memory is refused.
fn is_appended(alloc: Global, n: u64, wanted: &str) -> Option<(bool, bool)> {
    let mut out = Vec::new(alloc);
    if out.extend_from_slice(b"q=").is_ok() && append_decimal(&mut out, n).is_ok() {
        Some((
            is(&out, wanted.as_bytes()),
            read_behind_two(&out) == Some(n),
        ))
    } else {
        None
    }
}

/// The number that digits behind two bytes spell.
fn read_behind_two(text: &[u8]) -> Option<u64> {
    match text {
        [_, _, digits @ ..] => read_plain_number(digits, u64::MAX),
        _ => None,
    }
}

#[test]
fn numbers_are_appended_in_decimal(rt: HostRuntime) {
    for (n, text) in [
        (0, "q=0"),
        (7, "q=7"),
        (10, "q=10"),
        (65535, "q=65535"),
        (u64::MAX, "q=18446744073709551615"),
    ] {
        let (stands, is_read) = is_appended(rt.alloc(), n, text).unwrap_or((false, false));
        holds(
            &rt,
            stands,
            "a number stands in decimal behind what was there",
        );
        holds(&rt, is_read, "what is written is read");
    }
}
