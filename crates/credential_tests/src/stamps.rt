//! Nonces and the tokens of dialogs: the text of one, for whom it is good, and until when.
use crate::holds::{holds, is};
use sip_digest::{append_dialog_token, append_nonce, is_good_dialog_token, is_good_nonce};
use std::alloc::Global;

const SECRET: [u8; 32] = [7; 32];

const OTHER: [u8; 32] = [8; 32];

/// A second since 1970.
const SECOND: u32 = 1_764_400_000;

const ADDRESS: &[u8] = b"198.51.100.7";

/// The nonce of that second for that address.
const NONCE: &[u8] = b"692a9b80c27c1c5e011756125c6c64359af62591";

/// The token of that second for the Call-ID `r1`.
const TOKEN: &[u8] = b"692a9b8086d211409520864e";

fn is_nonce(alloc: Global) -> bool {
    let mut out = Vec::new(alloc);
    let made = append_nonce(&mut out, &SECRET, ADDRESS, SECOND);
    made.is_ok() && is(out.as_slice(), NONCE)
}

fn is_token(alloc: Global) -> bool {
    let mut out = Vec::new(alloc);
    let made = append_dialog_token(&mut out, &SECRET, b"r1", SECOND);
    made.is_ok() && is(out.as_slice(), TOKEN)
}

#[test]
fn stamps_are_written(rt: HostRuntime) {
    holds(&rt, is_nonce(rt.alloc()), "a nonce");
    holds(&rt, is_token(rt.alloc()), "a token");
}

/// Texts, an address, a second, and whether the text is a good nonce then and there.
const NONCES: [(&[u8], &[u8], u32, bool); 10] = [
    (NONCE, ADDRESS, SECOND, true),
    (NONCE, ADDRESS, SECOND + 299, true),
    (NONCE, ADDRESS, SECOND + 300, false),
    (NONCE, ADDRESS, SECOND - 1, false),
    (NONCE, b"198.51.100.8", SECOND, false),
    (
        b"692A9B80c27c1c5e011756125c6c64359af62591",
        ADDRESS,
        SECOND,
        false,
    ),
    (
        b"692a9b81c27c1c5e011756125c6c64359af62591",
        ADDRESS,
        SECOND + 1,
        false,
    ),
    (
        b"692a9b80c27c1c5e011756125c6c64359af6259",
        ADDRESS,
        SECOND,
        false,
    ),
    (b"692a9b8", ADDRESS, SECOND, false),
    (b"", ADDRESS, SECOND, false),
];

#[test]
fn a_nonce_is_good_for_its_address_for_five_minutes(rt: HostRuntime) {
    for (text, address, second, good) in NONCES {
        holds(
            &rt,
            is_good_nonce(text, &SECRET, address, second) == good,
            "a nonce",
        );
    }
    holds(
        &rt,
        !is_good_nonce(NONCE, &OTHER, ADDRESS, SECOND),
        "of another secret",
    );
    holds(
        &rt,
        !is_good_nonce(TOKEN, &SECRET, b"r1", SECOND),
        "a token is no nonce",
    );
}

/// Texts, a Call-ID, a second, and whether the text is a good token then and there.
const TOKENS: [(&[u8], &[u8], u32, bool); 6] = [
    (TOKEN, b"r1", SECOND, true),
    (TOKEN, b"r1", SECOND + 86_399, true),
    (TOKEN, b"r1", SECOND + 86_400, false),
    (TOKEN, b"r1", SECOND - 1, false),
    (TOKEN, b"r2", SECOND, false),
    (b"692a9b8086d211409520864f", b"r1", SECOND, false),
];

#[test]
fn a_token_is_good_for_its_call_for_a_day(rt: HostRuntime) {
    for (text, call_id, second, good) in TOKENS {
        holds(
            &rt,
            is_good_dialog_token(text, &SECRET, call_id, second) == good,
            "a token",
        );
    }
}
