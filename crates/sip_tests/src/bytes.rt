//! Texts as bytes, and the check of a row that is told by its text.
use std::process::Abort;

/// Whether a part is this text.
pub fn is(part: &[u8], text: &[u8]) -> bool {
    part == text
}

/// Whether there is a part, and it is this text.
pub fn has(part: Option<&[u8]>, text: &[u8]) -> bool {
    match part {
        Some(part) => is(part, text),
        None => false,
    }
}

/// Ends the test where this does not hold of this text. `what` says which check it is.
pub fn holds_of(rt: &impl Abort, well: bool, what: &str, text: &[u8]) {
    assert!(rt; well, "{what}: {text:?}");
}
