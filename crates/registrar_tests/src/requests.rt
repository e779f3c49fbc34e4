//! Requests, put together of their lines.
use sip_text::Message;
use std::alloc::{AllocError, Global};

/// A text of these parts, one behind the other.
pub fn joined(alloc: Global, parts: &[&[u8]]) -> Result<Vec<u8, Global>, AllocError> {
    let mut text = Vec::new(alloc);
    for part in parts {
        text.extend_from_slice(part)?;
    }
    Ok(text)
}

/// The request of a start line with its end, header lines with their ends, and further ones.
pub fn request(
    alloc: Global,
    start: &[u8],
    lines: &[u8],
    further: &[u8],
) -> Option<Message<Global>> {
    let Ok(text) = joined(alloc, &[start, lines, further, b"\r\n"]) else {
        return None;
    };
    Message::read(alloc, &text).ok()
}
