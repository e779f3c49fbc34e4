//! Texts with a wrong byte at each place in turn, texts that are cut off, and a run that is long.
use crate::drives::driven;
use crate::holds::{holds, holds_at};
use crate::limits::repeated;
use crate::play::{answered, is_text, replayed};
use fork_program::{ProgFault, check_text, replay_text};
use std::alloc::{AllocError, Global};
use std::test::Fail;

/// A script with a line of each kind.
const SCRIPT: &[u8] =
    b"kind INVITE\nprefer 404,486\ndepth 3\ntarget 1000 a\ntarget 500 b\nring 0 180\n\
answer 0 302\ncontact 1000 c\nother 500 <tel:+1555>\nanswer 2 401\nchallenge W Digest realm=\"a\"\n\
challenge P Digest\ntimeout 1\nfault 1\ntimerc 1\ngiveup 1\ncancel\n";

/// A listing with a line of each kind, and each way in which a branch may end.
const LISTING: &[u8] = b"fork 3 6\nprefer 404,486\ndepth 3\ntarget 0 - 1000 taken 0\n\
target 1 - 1000 stored 404 2 received\ntarget 2 - 1000 stored 408 3 assumed\ntarget 3 - 1000 silent 4\n\
target 4 - 500 never\ntarget 5 0 1000 stored 603 1 received\n\
rank 603 5 1\nrank 404 1 2\nrank 408 2 3\nfinal 603 5\n";

/// The number of the line in which the byte at this place stands.
fn line_of(text: &[u8], at: usize) -> u32 {
    let mut number = 1u32;
    for byte in text.iter().take(at) {
        if *byte == b'\n' {
            number = number.saturating_add(1);
        }
    }
    number
}

/// The text with a zero in place of the byte at this place.
fn with_zero(alloc: Global, text: &[u8], at: usize) -> Result<Vec<u8>, AllocError> {
    let mut copy = text.to_vec(alloc)?;
    if let Some(byte) = copy.get_mut(at) {
        *byte = 0;
    }
    Ok(copy)
}

/// Whether a script with a zero at this place is refused for the line of that.
fn is_refused_there(alloc: Global, at: usize) -> Result<bool, AllocError> {
    let text = with_zero(alloc, SCRIPT, at)?;
    let mut out = Vec::new(alloc);
    let fault = replay_text(alloc, &text, &mut out).err();
    Ok(fault == Some(ProgFault::Line(line_of(SCRIPT, at))) && out.is_empty())
}

#[test]
fn a_wrong_byte_of_a_script_is_told_by_its_line(rt: HostRuntime) -> Result<(), Fail> {
    holds(
        &rt,
        replayed(rt.alloc(), SCRIPT).is_ok(),
        "the script is one",
    );
    for at in 0..SCRIPT.len() {
        holds_at(
            &rt,
            is_refused_there(rt.alloc(), at)?,
            "a zero is told by its line",
            at,
        );
    }
    Ok(())
}

/// The answer to a listing whose line of this number is malformed.
fn malformed(alloc: Global, line: u32) -> Result<String, AllocError> {
    format!(in alloc; "no K1 {line}\n")
}

/// Whether the answer to this text is that its line of this number is malformed.
fn is_malformed(alloc: Global, text: &[u8], line: u32) -> Result<bool, ProgFault> {
    let (status, answer) = answered(alloc, text)?;
    Ok(status == 4 && is_text(&answer, &malformed(alloc, line)?))
}

/// Whether a listing with a zero at this place is malformed in the line of that.
fn is_malformed_there(alloc: Global, at: usize) -> Result<bool, ProgFault> {
    let text = with_zero(alloc, LISTING, at)?;
    is_malformed(alloc, &text, line_of(LISTING, at))
}

#[test]
fn a_wrong_byte_of_a_listing_is_told_by_its_line(rt: HostRuntime) -> Result<(), Fail> {
    let mut out = Vec::new(rt.alloc());
    let status = check_text(rt.alloc(), LISTING, &mut out)?;
    holds(&rt, status == 0, "the listing is right");
    for at in 0..LISTING.len() {
        holds_at(
            &rt,
            is_malformed_there(rt.alloc(), at)?,
            "a zero is told by its line",
            at,
        );
    }
    Ok(())
}

/// The listing of a branch that was answered 404.
const SHORT: &[u8] =
    b"fork 1 1\ntarget 0 - 1000 stored 404 0 received\nrank 404 0 0\nfinal 404 0\n";

#[test]
fn a_listing_that_is_cut_off_is_told_by_its_last_line(rt: HostRuntime) -> Result<(), Fail> {
    for length in 0..SHORT.len() {
        let line = line_of(SHORT, length);
        holds_at(
            &rt,
            is_malformed(rt.alloc(), &SHORT[..length], line)?,
            "the line that is cut off or missing is told",
            length,
        );
    }
    Ok(())
}

/// Listings whose rules are spelled wrongly, and the number of the line.
const RULES: [(&[u8], u32); 12] = [
    (b"fork 2 1\nprefer\n", 2),
    (b"fork 2 1\nprefer \n", 2),
    (b"fork 2 1\nprefer 404,\n", 2),
    (b"fork 2 1\nprefer 486,404\n", 2),
    (b"fork 2 1\nprefer 404,404\n", 2),
    (b"fork 2 1\nprefer 399\n", 2),
    (b"fork 2 1\nprefer 500\n", 2),
    (b"fork 3 1\nprefer 0404\ndepth 1\n", 2),
    (b"fork 3 1\nprefer -\ndepth\n", 3),
    (b"fork 3 1\nprefer -\ndepth -\n", 3),
    (b"fork 3 1\nprefer -\ndepth 00\n", 3),
    (b"fork 3 1\nprefer -\ndepth 257\n", 3),
];

#[test]
fn wrong_rules_are_told_by_their_line(rt: HostRuntime) -> Result<(), Fail> {
    for (text, line) in RULES {
        holds(
            &rt,
            is_malformed(rt.alloc(), text, line)?,
            "the line of wrong rules is told",
        );
    }
    Ok(())
}

#[test]
fn strays_do_not_stop_an_answer(rt: HostRuntime) -> Result<(), Fail> {
    let text = repeated(
        rt.alloc(),
        "kind INVITE\ntarget 1000 a\nworker\n",
        "ring 0 180\n",
        4096,
        "answer 0 404\n",
    )?;
    let (status, out) = driven(&rt, rt.alloc(), text.as_bytes())?;
    holds(
        &rt,
        status == 0 && out.as_slice().ends_with(b"\nfinal 404 0\n"),
        "a worker rings 4,096 times and answers 404",
    );
    Ok(())
}
