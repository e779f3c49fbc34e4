//! Texts as bytes.
use std::alloc::Global;

/// Whether a part is this text.
pub fn is(part: &[u8], text: &[u8]) -> bool {
    part == text
}

/// A copy of a text.
pub fn copy_of(alloc: Global, text: &[u8]) -> Option<Vec<u8>> {
    match text.to_vec(alloc) {
        Ok(copy) => Some(copy),
        Err(_) => None,
    }
}
