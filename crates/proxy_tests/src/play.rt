//! How a script is replayed and a listing checked.
use crate::holds::holds_of;
use fork_program::{ProgFault, check_text, replay_text};
use std::alloc::{AllocError, Global};
use std::process::Abort;
use std::test::Fail;

/// The exit status of a replay, and what it prints.
pub fn replayed(alloc: Global, script: &[u8]) -> Result<(u8, Vec<u8>), ProgFault> {
    let mut out = Vec::new(alloc);
    let status = replay_text(alloc, script, &mut out)?;
    Ok((status, out))
}

/// The exit status of a check, and what it prints.
pub fn answered(alloc: Global, text: &[u8]) -> Result<(u8, Vec<u8>), ProgFault> {
    let mut out = Vec::new(alloc);
    let status = check_text(alloc, text, &mut out)?;
    Ok((status, out))
}

/// Why a script is refused, if it is, and whether the output is then as it was.
fn refusal(alloc: Global, script: &[u8]) -> Result<(Option<ProgFault>, bool), AllocError> {
    let mut out = b"before".to_vec(alloc)?;
    let fault = replay_text(alloc, script, &mut out).err();
    Ok((fault, is_text(&out, "before")))
}

/// Why a listing is not checked, if it is not, and whether the output is then as it was.
pub fn check_refusal(alloc: Global, text: &[u8]) -> Result<(Option<ProgFault>, bool), AllocError> {
    let mut out = b"before".to_vec(alloc)?;
    let fault = check_text(alloc, text, &mut out).err();
    Ok((fault, is_text(&out, "before")))
}

pub fn is_text(bytes: &[u8], text: &str) -> bool {
    bytes == text.as_bytes()
}

/// Checks that the script is refused for this reason, and that the output stays as it was.
pub fn holds_refused(
    rt: &(impl Abort + AllocGlobal),
    script: &[u8],
    wanted: ProgFault,
    row: &str,
) -> Result<(), AllocError> {
    let (fault, untouched) = refusal(rt.alloc(), script)?;
    holds_of(
        rt,
        fault == Some(wanted),
        "the script is refused for its fault",
        row,
    );
    holds_of(rt, untouched, "the output stays as it was", row);
    Ok(())
}

/// Checks that the replay of the script ends with status 0, and its output with this.
pub fn holds_ending(
    rt: &(impl Abort + AllocGlobal),
    script: &[u8],
    end: &str,
    row: &str,
) -> Result<(), ProgFault> {
    let (status, out) = replayed(rt.alloc(), script)?;
    holds_of(rt, status == 0, "the status of the replay is 0", row);
    holds_of(
        rt,
        out.as_slice().ends_with(end.as_bytes()),
        "the replay ends so",
        row,
    );
    Ok(())
}

/// Checks that the answer to this listing is this line, with status 0 where it is yes, else 4.
pub fn holds_answered(
    rt: &(impl Abort + AllocGlobal),
    text: &[u8],
    line: &str,
    row: &str,
) -> Result<(), ProgFault> {
    let (status, answer) = answered(rt.alloc(), text)?;
    holds_of(
        rt,
        is_text(&answer, line),
        "the answer is the line that is due",
        row,
    );
    let due = if line == "yes\n" { 0 } else { 4 };
    holds_of(rt, status == due, "the status goes with the answer", row);
    Ok(())
}

/// The listing that an output ends in, if one does.
pub fn listing_in(alloc: Global, out: &str) -> Result<Option<String>, AllocError> {
    match out.split_once("\nfork ") {
        Some((_, rest)) => Ok(Some(format!(in alloc; "fork {rest}")?)),
        None => Ok(None),
    }
}

/// Checks the listing that an output ends in, if one does: the answer is yes.
fn holds_right(rt: &(impl Abort + AllocGlobal), out: &str) -> Result<(), Fail> {
    if let Some(listing) = listing_in(rt.alloc(), out)? {
        holds_answered(rt, listing.as_bytes(), "yes\n", out)?;
    }
    Ok(())
}

/// Checks that the script prints this with status 0.
fn holds_printed(
    rt: &(impl Abort + AllocGlobal),
    script: &str,
    wanted: &str,
) -> Result<(), ProgFault> {
    let (status, out) = replayed(rt.alloc(), script.as_bytes())?;
    holds_of(rt, status == 0, "the status of the replay is 0", script);
    holds_of(rt, is_text(&out, wanted), "the replay prints this", script);
    Ok(())
}

/// Replays each script, compares what it prints, and checks the listing at its end.
pub fn play(rt: &(impl Abort + AllocGlobal), table: &[(&str, &str)]) -> Result<(), Fail> {
    for (script, wanted) in table {
        holds_printed(rt, script, wanted)?;
        holds_right(rt, wanted)?;
    }
    Ok(())
}
