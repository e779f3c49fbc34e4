//! What has to be in an answer.
use crate::requests::joined;
use crate::world::{SECOND, SECRET};
use authentication::{OwnAnswer, append_address};
use sip_digest::append_nonce;
use sip_text::HeaderLine;
use std::alloc::{AllocError, Global};

/// The further lines of an answer.
#[derive(Clone, Copy)]
pub enum Wanted {
    /// These, by their names and values.
    Lines(&'static [(&'static [u8], &'static [u8])]),
    /// Both challenges, with a nonce for the source, stale or not.
    Challenges(&'static [u8], bool),
}

fn is_line(line: &HeaderLine<'_>, name: &[u8], value: &[u8]) -> bool {
    line.name == name && line.value == value
}

/// Whether the lines are these.
fn are_lines(lines: &[HeaderLine<'_>], wanted: &[(&[u8], &[u8])]) -> bool {
    if lines.len() != wanted.len() {
        return false;
    }
    lines
        .iter()
        .zip(wanted.iter())
        .all(|(line, (name, value))| is_line(line, name, value))
}

/// The challenge by this algorithm.
fn challenge(
    alloc: Global,
    nonce: &[u8],
    algorithm: &[u8],
    stale: bool,
) -> Result<Vec<u8, Global>, AllocError> {
    let end: &[u8] = if stale { b", stale=true" } else { b"" };
    joined(
        alloc,
        &[
            b"Digest realm=\"example.com\", qop=\"auth\", nonce=\"",
            nonce,
            b"\", algorithm=",
            algorithm,
            end,
        ],
    )
}

/// Whether the lines are both challenges to this address.
fn are_challenges(
    alloc: Global,
    lines: &[HeaderLine<'_>],
    name: &[u8],
    addr: [u8; 4],
    stale: bool,
) -> Result<bool, AllocError> {
    let mut address = Vec::new(alloc);
    append_address(&mut address, addr)?;
    let mut nonce = Vec::new(alloc);
    append_nonce(&mut nonce, &SECRET, &address, SECOND)?;
    let first = challenge(alloc, &nonce, b"SHA-256", stale)?;
    let second = challenge(alloc, &nonce, b"MD5", stale)?;
    Ok(are_lines(lines, &[(name, &first), (name, &second)]))
}

/// Whether it is noted of this user, or of none, that wrong credentials came.
pub fn is_name(noted: &Option<Vec<u8>>, wanted: Option<&[u8]>) -> bool {
    match (noted, wanted) {
        (None, None) => true,
        (Some(name), Some(wanted)) => name.as_slice() == wanted,
        _ => false,
    }
}

/// Whether the answer has this status and these further lines.
pub fn is_answer(
    alloc: Global,
    answer: &OwnAnswer,
    status: u16,
    wanted: Wanted,
    addr: [u8; 4],
) -> bool {
    let Ok(lines) = answer.further_lines(alloc) else {
        return false;
    };
    if answer.status().code() != status {
        return false;
    }
    match wanted {
        Wanted::Lines(wanted) => are_lines(&lines, wanted),
        Wanted::Challenges(name, stale) => {
            match are_challenges(alloc, &lines, name, addr, stale) {
                Ok(well) => well,
                Err(_) => false,
            }
        }
    }
}
