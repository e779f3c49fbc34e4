//! What is written to a text behind what stands there, against messages that are built.
use crate::bytes::is;
use crate::messages::{is_written_so, written};
use sip_text::Message;
use sip_via::BuildFault;
use std::alloc::Global;

/// What stands in a text before something is written to it.
const BEFORE: &[u8] = b"before";

/// Puts down what stands in a text before something is written to it; whether there was memory for it.
pub fn begins(out: &mut Vec<u8>) -> bool {
    out.extend_from_slice(BEFORE).is_ok()
}

/// Whether nothing stands in a text behind what stood there.
pub fn is_as_it_began(out: &[u8]) -> bool {
    is(out, BEFORE)
}

/// The message, where it is built.
pub fn if_built(built: Result<Message<Global>, BuildFault>) -> Option<Message<Global>> {
    match built {
        Ok(message) => Some(message),
        Err(_) => None,
    }
}

/// Whether this is the text of what was built, behind what stood there.
pub fn is_behind(alloc: Global, out: &[u8], built: Option<Message<Global>>) -> bool {
    match out.strip_prefix(BEFORE) {
        Some(text) => is_written_so(alloc, built, text),
        None => false,
    }
}

/// What stands behind the text of what was built, behind what stood there.
pub fn rest_behind(alloc: Global, out: &[u8], built: Option<Message<Global>>) -> Option<&[u8]> {
    match (out.strip_prefix(BEFORE), built) {
        (Some(text), Some(message)) => rest_behind_text(text, written(alloc, &message)),
        _ => None,
    }
}

/// What stands in a text behind this front.
fn rest_behind_text(text: &[u8], front: Option<Vec<u8>>) -> Option<&[u8]> {
    match front {
        Some(front) => text.strip_prefix(front.as_slice()),
        None => None,
    }
}
