//! Texts of the greatest size that is read, and over it.
use crate::holds::holds;
use crate::play::{check_refusal, holds_answered, holds_ending, holds_refused};
use fork_context::NewFault;
use fork_program::{Fault, MOST_TEXT, ProgFault, read_input};
use std::alloc::{AllocError, Global};
use std::process::Abort;
use std::test::Fail;

/// So many bytes that are no script.
fn filled(alloc: Global, count: usize) -> Result<Vec<u8>, AllocError> {
    vec![in alloc; b'x'; count]
}

/// A text with a line between its head and its end so many times.
pub fn repeated(
    alloc: Global,
    head: &str,
    line: &str,
    count: u32,
    end: &str,
) -> Result<String, AllocError> {
    let mut text = String::new(alloc);
    text.push_str(head)?;
    for _ in 0..count {
        text.push_str(line)?;
    }
    text.push_str(end)?;
    Ok(text)
}

fn append_target(alloc: Global, script: &mut String, n: u32) -> Result<(), AllocError> {
    let line = format!(in alloc; "target 1000 t{n}\n")?;
    script.push_str(&line)
}

/// A script of this many targets, which then ends so.
fn many_targets(alloc: Global, count: u32, end: &str) -> Result<String, AllocError> {
    let mut script = String::new(alloc);
    script.push_str("kind INVITE\n")?;
    for n in 0..count {
        append_target(alloc, &mut script, n)?;
    }
    script.push_str(end)?;
    Ok(script)
}

#[test]
fn strays_fill_the_history(rt: HostRuntime) -> Result<(), Fail> {
    let rings = repeated(
        rt.alloc(),
        "kind INVITE\ntarget 1000 a\n",
        "ring 0 180\n",
        4097,
        "answer 0 404\n",
    )?;
    holds_ending(
        &rt,
        rings.as_bytes(),
        "\n4095 start - cancel - up provisional 0\nfull\n4096 start - cancel - up final 404 0\nfork 3 1\nprefer 401,407,415,420,484\ndepth 256\ntarget 0 - 1000 stored 404 4096 received\nrank 404 0 4096\nfinal 404 0\n",
        "4,097 provisional answers",
    )?;
    let answers = repeated(
        rt.alloc(),
        "kind INVITE\ntarget 1000 a\ntarget 1000 b\n",
        "answer 0 404\n",
        4096,
        "answer 0 486\nanswer 1 404\n",
    )?;
    holds_ending(
        &rt,
        answers.as_bytes(),
        "\n4095 start - cancel - up -\nfull\n4096 start - cancel - up final 404 0\nfork 3 2\nprefer 401,407,415,420,484\ndepth 256\ntarget 0 - 1000 stored 404 0 received\ntarget 1 - 1000 stored 404 4096 received\nrank 404 0 0\nrank 404 1 4096\nfinal 404 0\n",
        "4,096 answers of one branch",
    )?;
    Ok(())
}

/// Checks that so many targets are refused for this reason.
fn holds_too_many(
    rt: &(impl Abort + AllocGlobal),
    count: u32,
    fault: NewFault,
    row: &str,
) -> Result<(), AllocError> {
    let script = many_targets(rt.alloc(), count, "")?;
    holds_refused(rt, script.as_bytes(), ProgFault::New(fault), row)
}

/// Checks how the output ends where so many targets are followed by these lines.
fn holds_many(
    rt: &(impl Abort + AllocGlobal),
    count: u32,
    lines: &str,
    end: &str,
    row: &str,
) -> Result<(), ProgFault> {
    let script = many_targets(rt.alloc(), count, lines)?;
    holds_ending(rt, script.as_bytes(), end, row)
}

#[test]
fn targets_are_limited(rt: HostRuntime) -> Result<(), Fail> {
    holds_too_many(&rt, 0, NewFault::NoTargets, "no target")?;
    holds_too_many(&rt, 257, NewFault::TooMany, "257 targets")?;
    holds_refused(
        &rt,
        b"kind INVITE\ntarget 1000 a\ntarget 500 a\n",
        ProgFault::New(NewFault::Twice),
        "one key twice",
    )?;
    holds_many(&rt, 256, "", ",254,255\nunfinished 256\n", "256 targets")?;
    holds_many(
        &rt,
        255,
        "answer 0 302\ncontact 1000 x\ncontact 1000 y\n",
        ",254\n0 start 255 cancel - up -\nunfinished 255\n",
        "255 targets and two contacts",
    )?;
    Ok(())
}

/// Checks why so many bytes are refused as a script.
fn holds_filled_refused(
    rt: &(impl Abort + AllocGlobal),
    count: usize,
    fault: ProgFault,
    row: &str,
) -> Result<(), AllocError> {
    let text = filled(rt.alloc(), count)?;
    holds_refused(rt, &text, fault, row)
}

#[test]
fn long_texts_are_refused(rt: HostRuntime) -> Result<(), Fail> {
    holds_filled_refused(&rt, MOST_TEXT + 1, ProgFault::TooLong, "one byte too many")?;
    holds_filled_refused(
        &rt,
        MOST_TEXT,
        ProgFault::Line(1),
        "as many bytes as may be",
    )?;
    Ok(())
}

/// How many bytes are read of an input of this many, and whether they are its first.
fn read_of(alloc: Global, count: usize) -> Result<(usize, bool), Fault> {
    let text = filled(alloc, count)?;
    let read = read_input(alloc, &mut text.as_slice())?;
    Ok((read.len(), text.as_slice().starts_with(&read)))
}

#[test]
fn input_is_read_whole(rt: HostRuntime) -> Result<(), Fail> {
    let (count, same) = read_of(rt.alloc(), 100_000)?;
    holds(
        &rt,
        count == 100_000 && same,
        "100,000 bytes are read whole",
    );
    let (most, same) = read_of(rt.alloc(), MOST_TEXT + 2)?;
    holds(
        &rt,
        most == MOST_TEXT + 1,
        "no more than one byte over the greatest size is read",
    );
    holds(&rt, same, "the bytes of a long input are its first");
    Ok(())
}

fn append_below(alloc: Global, text: &mut String, n: u32) -> Result<(), AllocError> {
    let above = n.wrapping_sub(1);
    let line = format!(in alloc; "target {n} {above} 1000 taken {n}\n")?;
    text.push_str(&line)
}

/// The listing of a chain of branches, each below the one before it, which no branch answered.
fn chain(alloc: Global, head: &str, count: u32) -> Result<String, AllocError> {
    let mut text = String::new(alloc);
    text.push_str(head)?;
    text.push_str("target 0 - 1000 taken 0\n")?;
    for n in 1..count {
        append_below(alloc, &mut text, n)?;
    }
    text.push_str("final 408 -\n")?;
    Ok(text)
}

/// Heads of chains, with their length and the answer to a check.
const CHAINS: [(&str, u32, &str); 3] = [
    ("fork 1 100\n", 100, "no K1 1\n"),
    ("fork 3 256\nprefer -\ndepth 255\n", 256, "yes\n"),
    ("fork 3 256\nprefer -\ndepth 254\n", 256, "no K2 259\n"),
];

#[test]
fn long_chains_are_checked(rt: HostRuntime) -> Result<(), Fail> {
    for (head, count, line) in CHAINS {
        let text = chain(rt.alloc(), head, count)?;
        holds_answered(&rt, text.as_bytes(), line, head)?;
    }
    Ok(())
}

#[test]
fn long_listings_are_refused(rt: HostRuntime) -> Result<(), Fail> {
    let long = filled(rt.alloc(), MOST_TEXT + 1)?;
    let (fault, untouched) = check_refusal(rt.alloc(), &long)?;
    holds(
        &rt,
        fault == Some(ProgFault::TooLong),
        "a longer listing is not checked",
    );
    holds(&rt, untouched, "the output stays as it was");
    let most = filled(rt.alloc(), MOST_TEXT)?;
    holds_answered(&rt, &most, "no K1 1\n", "as many bytes as may be")?;
    Ok(())
}
