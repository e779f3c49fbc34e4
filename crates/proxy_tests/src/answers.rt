//! Listings, and the answer to a check of each.
use crate::holds::{holds, holds_of};
use crate::play::{holds_answered, is_text};
use fork_listing::CheckFault;
use fork_program::{ProgFault, TextCommand, append_found};
use std::alloc::{AllocError, Global};
use std::test::Fail;

/// Listings of each version, and the answer to a check of each.
const ANSWERS: [(&str, &str); 14] = [
    (
        "fork 1 4\ntarget 0 - 1000 stored 503 0 received\ntarget 1 - 1000 stored 407 1 received\ntarget 2 - 1000 stored 501 2 received\ntarget 3 - 1000 stored 404 3 received\nrank 407 1 1\nrank 404 3 3\nrank 501 2 2\nrank 503 0 0\nfinal 407 1\n",
        "yes\n",
    ),
    (
        "fork 1 4\ntarget 0 - 1000 stored 503 0 received\ntarget 1 - 1000 stored 407 1 received\ntarget 2 - 1000 stored 501 2 received\ntarget 3 - 1000 stored 404 3 received\nrank 404 3 3\nrank 407 1 1\nrank 501 2 2\nrank 503 0 0\nfinal 407 1\n",
        "no K3 7\n",
    ),
    (
        "fork 1 4\ntarget 0 - 1000 stored 503 0 received\ntarget 1 - 1000 stored 407 1 received\ntarget 2 - 1000 stored 501 2 received\ntarget 3 - 1000 stored 404 3 received\nrank 407 1 1\nrank 404 3 3\nrank 501 2 2\nfinal 407 1\n",
        "no K4 0\n",
    ),
    (
        "fork 1 4\ntarget 0 3 1000 stored 503 0 received\ntarget 1 - 1000 stored 407 1 received\ntarget 2 - 1000 stored 501 2 received\ntarget 3 - 1000 stored 404 3 received\nrank 407 1 1\nrank 404 3 3\nrank 501 2 2\nrank 503 0 0\nfinal 407 1\n",
        "no K2 2\n",
    ),
    (
        "fork 1 4\ntarget 0 - 1000 stored 503 0 received\ntarget 1 - 1000 stored 407 1 received\ntarget 2 - 1000 stored 501 2 received\ntarget 3 - 1000 stored 404 3 received\nrank 407 1 1\nrank 404 3 3\nrank 501 2 2\nrank 503 0 0\nfinal 407 1",
        "no K1 10\n",
    ),
    (
        "fork 1 4\ntarget 0 - 1000 stored 503 0 received\ntarget 1 - 1000 stored 407 1 received\ntarget 2 - 1000 stored 501 2 received\ntarget 3 - 1000 stored 404 3 received\nrank 407 1 1\nrank 404 3 3\nrank 501 2 2\nrank 503 0 0\nfinal 404 3\n",
        "no K5\n",
    ),
    (
        "fork 2 2\nprefer 404,486\ntarget 0 - 1000 stored 407 0 received\ntarget 1 - 1000 stored 404 1 received\nrank 404 1 1\nrank 407 0 0\nfinal 404 1\n",
        "yes\n",
    ),
    (
        "fork 2 2\nprefer -\ntarget 0 - 1000 stored 407 0 received\ntarget 1 - 1000 stored 404 1 received\nrank 404 1 1\nrank 407 0 0\nfinal 404 1\n",
        "no K3 6\n",
    ),
    (
        "fork 1 2\ntarget 0 - 1000 stored 407 0 received\ntarget 1 - 1000 stored 404 1 received\nrank 404 1 1\nrank 407 0 0\nfinal 404 1\n",
        "no K3 5\n",
    ),
    (
        "fork 3 2\nprefer 401,407,415,420,484\ndepth 1\ntarget 0 - 1000 taken 0\ntarget 1 0 1000 stored 302 1 received\nrank 302 1 1\nfinal 302 1\n",
        "yes\n",
    ),
    (
        "fork 3 2\nprefer 401,407,415,420,484\ndepth 0\ntarget 0 - 1000 taken 0\ntarget 1 0 1000 stored 302 1 received\nrank 302 1 1\nfinal 302 1\n",
        "no K2 5\n",
    ),
    (
        "fork 3 2\ndepth 1\ntarget 0 - 1000 taken 0\ntarget 1 0 1000 stored 302 1 received\nrank 302 1 1\nfinal 302 1\n",
        "no K1 2\n",
    ),
    ("", "no K1 1\n"),
    ("\0", "no K1 1\n"),
];

#[test]
fn checks_are_answered(rt: HostRuntime) -> Result<(), Fail> {
    for (text, line) in ANSWERS {
        holds_answered(&rt, text.as_bytes(), line, text)?;
    }
    Ok(())
}

/// The status and the line of a fault that a check found.
fn found(alloc: Global, fault: CheckFault) -> Result<(u8, Vec<u8>), AllocError> {
    let mut out = Vec::new(alloc);
    let status = append_found(&mut out, Err(fault))?;
    Ok((status, out))
}

/// The line of a fault as its own text spells it.
fn spelled(alloc: Global, fault: CheckFault) -> Result<String, AllocError> {
    format!(in alloc; "{fault}\n")
}

#[test]
fn faults_are_printed_as_they_say(rt: HostRuntime) -> Result<(), Fail> {
    let table = [
        (CheckFault::Line(7), "no K1 7\n"),
        (CheckFault::Tree(10), "no K2 10\n"),
        (CheckFault::Order(265), "no K3 265\n"),
        (CheckFault::Absent(0), "no K4 0\n"),
        (CheckFault::FinalLine, "no K5\n"),
    ];
    for (fault, line) in table {
        let (status, out) = found(rt.alloc(), fault)?;
        holds_of(&rt, status == 4, "the status of a fault is 4", line);
        holds_of(&rt, is_text(&out, line), "the fault has its line", line);
        holds_of(
            &rt,
            spelled(rt.alloc(), fault)?.as_str() == line,
            "the fault's text is the line",
            line,
        );
    }
    Ok(())
}

/// Runs a command on a script; the status.
fn run(alloc: Global, command: TextCommand, out: &mut Vec<u8>) -> Result<u8, ProgFault> {
    command.run(alloc, b"kind INVITE\ntarget 1000 a\n", out)
}

#[test]
fn commands_append_their_answer(rt: HostRuntime) -> Result<(), Fail> {
    let mut out = Vec::new(rt.alloc());
    let status = run(rt.alloc(), TextCommand::Replay, &mut out)?;
    holds(&rt, status == 0, "a replay ends with 0");
    let status = run(rt.alloc(), TextCommand::Check, &mut out)?;
    holds(&rt, status == 4, "a check of a script ends with 4");
    holds(
        &rt,
        is_text(&out, "opening start 0\nunfinished 1\nno K1 1\n"),
        "each command appends its answer",
    );
    Ok(())
}
