//! Scripts with workers, and what is printed of them (RFC 3261 sections 16.6, 16.7 and 16.10).
use crate::holds::{holds, holds_of};
use crate::limits::repeated;
use crate::play::{answered, is_text, listing_in};
use crate::replays::{BEST, CHALLENGES, CLOSING, CONTACTS};
use fork_context::NewFault;
use fork_engine::{ProgramCommand, drive_text};
use fork_program::{Fault, ProgFault, TextCommand};
use std::alloc::{AllocError, Global};
use std::process::Abort;
use std::sync::Wait;
use std::test::Fail;
use std::thread::Threads;

/// The exit status of a run, and what it prints.
pub fn driven<R: Threads + Wait + Sync>(
    rt: &R,
    alloc: Global,
    script: &[u8],
) -> Result<(u8, Vec<u8>), ProgFault> {
    let mut out = Vec::new(alloc);
    match drive_text(rt, alloc, script, &mut out) {
        Ok(status) => Ok((status, out)),
        Err(fault) => Err(fault.told()),
    }
}

/// Why a script with workers is refused, if it is, and whether the output is then as it was.
fn refusal<R: Threads + Wait + Sync>(
    rt: &R,
    alloc: Global,
    script: &[u8],
) -> Result<(Option<ProgFault>, bool), AllocError> {
    let mut out = b"before".to_vec(alloc)?;
    let fault = match drive_text(rt, alloc, script, &mut out) {
        Ok(_) => None,
        Err(fault) => Some(fault.told()),
    };
    Ok((fault, is_text(&out, "before")))
}

/// Checks that the script with workers is refused for this reason, and that the output stays as it was.
fn holds_refused<R: Threads + Wait + Sync + Abort>(
    rt: &R,
    alloc: Global,
    script: &[u8],
    wanted: ProgFault,
    row: &str,
) -> Result<(), AllocError> {
    let (fault, untouched) = refusal(rt, alloc, script)?;
    holds_of(
        rt,
        fault == Some(wanted),
        "the script is refused for its fault",
        row,
    );
    holds_of(rt, untouched, "the output stays as it was", row);
    Ok(())
}

/// Whether a line of a script tells what is forked.
fn is_head(line: &str) -> bool {
    line.starts_with("kind ")
        || line.starts_with("prefer ")
        || line.starts_with("depth ")
        || line.starts_with("target ")
}

/// The script with one worker for all its events.
fn with_one_worker(alloc: Global, script: &str) -> Result<String, AllocError> {
    let mut text = String::new(alloc);
    let mut begun = false;
    for line in script.lines() {
        if !begun && !is_head(line) {
            text.push_str("worker\n")?;
            begun = true;
        }
        text.push_str(line)?;
        text.push_str("\n")?;
    }
    if !begun {
        text.push_str("worker\n")?;
    }
    Ok(text)
}

/// Whether a line that a replay prints is a reply.
fn is_reply(line: &str) -> bool {
    line.contains(" start ") && !line.starts_with("opening ")
}

/// What a replay prints, with the first worker's number before each reply.
fn of_one_worker(alloc: Global, printed: &str) -> Result<String, AllocError> {
    let mut text = String::new(alloc);
    for line in printed.lines() {
        if is_reply(line) {
            text.push_str("0: ")?;
        }
        text.push_str(line)?;
        text.push_str("\n")?;
    }
    Ok(text)
}

/// Checks that one worker has printed what a replay prints, with its number before each reply.
fn holds_as_replayed<R: Threads + Wait + Sync + Abort>(
    rt: &R,
    alloc: Global,
    script: &str,
    replayed: &str,
) -> Result<(), Fail> {
    let text = with_one_worker(alloc, script)?;
    let wanted = of_one_worker(alloc, replayed)?;
    let (status, out) = driven(rt, alloc, text.as_bytes())?;
    holds_of(rt, status == 0, "the status of the run is 0", script);
    holds_of(
        rt,
        is_text(&out, &wanted),
        "one worker prints what a replay prints",
        script,
    );
    Ok(())
}

/// Runs each script with one worker.
fn drive_alone<R: Threads + Wait + Sync + Abort>(
    rt: &R,
    alloc: Global,
    table: &[(&str, &str)],
) -> Result<(), Fail> {
    for (script, replayed) in table {
        holds_as_replayed(rt, alloc, script, replayed)?;
    }
    Ok(())
}

#[test]
fn one_worker_prints_a_replay(rt: HostRuntime) -> Result<(), Fail> {
    drive_alone(&rt, rt.alloc(), &BEST)?;
    drive_alone(&rt, rt.alloc(), &CLOSING)?;
    drive_alone(&rt, rt.alloc(), &CONTACTS)?;
    drive_alone(&rt, rt.alloc(), &CHALLENGES)
}

/// Scripts of two workers, with what is printed where the first comes first, and else.
const PAIRS: [(&str, &str, &str); 3] = [
    (
        "kind INVITE\ntarget 1000 a\ntarget 1000 b\nworker\nanswer 0 404\nworker\nanswer 1 407\n",
        "opening start 0,1\n0: 0 start - cancel - up -\n1: 1 start - cancel - up final 407 1\nfork 3 2\nprefer 401,407,415,420,484\ndepth 256\ntarget 0 - 1000 stored 404 0 received\ntarget 1 - 1000 stored 407 1 received\nrank 407 1 1\nrank 404 0 0\nfinal 407 1\n",
        "opening start 0,1\n1: 0 start - cancel - up -\n0: 1 start - cancel - up final 407 1\nfork 3 2\nprefer 401,407,415,420,484\ndepth 256\ntarget 0 - 1000 stored 404 1 received\ntarget 1 - 1000 stored 407 0 received\nrank 407 1 0\nrank 404 0 1\nfinal 407 1\n",
    ),
    (
        "kind INVITE\nprefer -\ndepth 0\ntarget 1000 a\ntarget 1000 b\nworker\nanswer 0 404\nworker\nanswer 1 407\n",
        "opening start 0,1\n0: 0 start - cancel - up -\n1: 1 start - cancel - up final 404 0\nfork 3 2\nprefer -\ndepth 0\ntarget 0 - 1000 stored 404 0 received\ntarget 1 - 1000 stored 407 1 received\nrank 404 0 0\nrank 407 1 1\nfinal 404 0\n",
        "opening start 0,1\n1: 0 start - cancel - up -\n0: 1 start - cancel - up final 407 1\nfork 3 2\nprefer -\ndepth 0\ntarget 0 - 1000 stored 404 1 received\ntarget 1 - 1000 stored 407 0 received\nrank 407 1 0\nrank 404 0 1\nfinal 407 1\n",
    ),
    (
        "kind OTHER\ntarget 1000 a\nworker\nworker\ntimeout 0\n",
        "opening start 0\n1: 0 start - cancel - up final 408 0\nfork 3 1\nprefer 401,407,415,420,484\ndepth 256\ntarget 0 - 1000 stored 408 0 assumed\nrank 408 0 0\nfinal 408 0\n",
        "opening start 0\n1: 0 start - cancel - up final 408 0\nfork 3 1\nprefer 401,407,415,420,484\ndepth 256\ntarget 0 - 1000 stored 408 0 assumed\nrank 408 0 0\nfinal 408 0\n",
    ),
];

/// Checks that the two workers of a script print one of the two texts.
fn holds_either<R: Threads + Wait + Sync + Abort>(
    rt: &R,
    alloc: Global,
    script: &str,
    one: &str,
    other: &str,
) -> Result<(), ProgFault> {
    let (status, out) = driven(rt, alloc, script.as_bytes())?;
    holds_of(rt, status == 0, "the status of the run is 0", script);
    holds_of(
        rt,
        is_text(&out, one) || is_text(&out, other),
        "the workers came in one of the two orders",
        script,
    );
    Ok(())
}

#[test]
fn two_workers_come_in_either_order(rt: HostRuntime) -> Result<(), Fail> {
    for (script, one, other) in PAIRS {
        holds_either(&rt, rt.alloc(), script, one, other)?;
    }
    Ok(())
}

/// Scripts with workers, with the number of their first malformed line.
const MALFORMED: [(&str, u32); 20] = [
    ("", 1),
    ("worker\n", 1),
    ("kind INVITE\n", 2),
    ("kind INVITE", 1),
    ("kind INVITE\ntarget 1000 a\n", 3),
    ("kind INVITE\ntarget 1000 a\nanswer 0 404\n", 3),
    ("kind INVITE\ntarget 1000 a\ncancel\nworker\n", 3),
    ("kind INVITE\ntarget 1000 a\nworker", 3),
    ("kind INVITE\ntarget 1000 a\nworker \n", 3),
    ("kind INVITE\ntarget 1000 a\nworker 0\n", 3),
    ("kind INVITE\ntarget 1000 a\nWorker\n", 3),
    ("kind INVITE\ntarget 1000 a\nworkers\n", 3),
    ("kind INVITE\ntarget 1000 a\nworker\ntarget 1000 b\n", 4),
    ("kind INVITE\nworker\nprefer 404\n", 3),
    ("kind INVITE\ntarget 1000 a\nworker\ncontact 1000 b\n", 4),
    (
        "kind INVITE\ntarget 1000 a\nworker\nanswer 0 302\nworker\nother 1000 b\n",
        6,
    ),
    (
        "kind INVITE\ntarget 1000 a\nworker\nanswer 0 401\nworker\nchallenge W b\n",
        6,
    ),
    ("kind INVITE\ntarget 1000 a\nworker\nkind INVITE\n", 4),
    (
        "kind INVITE\nworker\nworker\nworker\nworker\nworker\nworker\nworker\nworker\nworker\n",
        10,
    ),
    (
        "kind INVITE\ntarget 1000 a\ntarget 1000 a\nworker\nring 0 200\n",
        5,
    ),
];

#[test]
fn malformed_lines_are_counted(rt: HostRuntime) -> Result<(), Fail> {
    for (script, line) in MALFORMED {
        holds_refused(
            &rt,
            rt.alloc(),
            script.as_bytes(),
            ProgFault::Line(line),
            script,
        )?;
    }
    Ok(())
}

#[test]
fn targets_are_no_fork(rt: HostRuntime) -> Result<(), Fail> {
    let table = [
        ("kind INVITE\nworker\n", NewFault::NoTargets),
        (
            "kind INVITE\ntarget 1000 a\ntarget 500 a\nworker\ncancel\n",
            NewFault::Twice,
        ),
    ];
    for (script, fault) in table {
        holds_refused(
            &rt,
            rt.alloc(),
            script.as_bytes(),
            ProgFault::New(fault),
            script,
        )?;
    }
    Ok(())
}

/// A script of one worker that rings 4,000 times and of one that rings this many times.
fn ringing(alloc: Global, count: u32) -> Result<String, AllocError> {
    let head = repeated(
        alloc,
        "kind INVITE\ntarget 1000 a\nworker\n",
        "ring 0 180\n",
        4000,
        "worker\n",
    )?;
    repeated(alloc, &head, "ring 0 180\n", count, "")
}

#[test]
fn one_event_too_many_stops_the_workers(rt: HostRuntime) -> Result<(), Fail> {
    let many = ringing(rt.alloc(), 97)?;
    holds_refused(
        &rt,
        rt.alloc(),
        many.as_bytes(),
        ProgFault::Stopped,
        "4,097 provisional answers",
    )?;
    let most = ringing(rt.alloc(), 96)?;
    let (status, out) = driven(&rt, rt.alloc(), most.as_bytes())?;
    holds(
        &rt,
        status == 0 && out.as_slice().ends_with(b"\nunfinished 1\n"),
        "4,096 provisional answers are taken",
    );
    Ok(())
}

#[test]
fn long_scripts_are_refused(rt: HostRuntime) -> Result<(), Fail> {
    let long = repeated(rt.alloc(), "", "xxxxxxxx", 131_072, "x")?;
    holds_refused(
        &rt,
        rt.alloc(),
        long.as_bytes(),
        ProgFault::TooLong,
        "one byte too many",
    )?;
    let most = repeated(rt.alloc(), "", "xxxxxxxx", 131_072, "")?;
    holds_refused(
        &rt,
        rt.alloc(),
        most.as_bytes(),
        ProgFault::Line(1),
        "as many bytes as may be",
    )?;
    Ok(())
}

/// The listing that a run ends in is right.
#[test]
fn listings_of_runs_are_right(rt: HostRuntime) -> Result<(), Fail> {
    let (_, out) = driven(&rt, rt.alloc(), PAIRS[0].0.as_bytes())?;
    let text = String::from_utf8(out).map_err(|_| "no text")?;
    let listing = listing_in(rt.alloc(), &text)?.ok_or("no listing")?;
    let (status, answer) = answered(rt.alloc(), listing.as_bytes())?;
    holds(
        &rt,
        status == 0 && is_text(&answer, "yes\n"),
        "the listing of a run is right",
    );
    Ok(())
}

/// What the arguments ask for.
fn asked(alloc: Global, words: &[&str]) -> Result<Option<ProgramCommand>, AllocError> {
    let mut list = Vec::new(alloc);
    for word in words {
        list.push(word.to_string(alloc)?)?;
    }
    Ok(ProgramCommand::of(&list))
}

#[test]
fn arguments_ask_for_commands(rt: HostRuntime) -> Result<(), Fail> {
    let drive = asked(rt.alloc(), &["forkproxy", "drive"])?;
    holds(
        &rt,
        drive == Some(ProgramCommand::Drive),
        "drive runs workers",
    );
    let alone = asked(rt.alloc(), &["forkproxy"])?;
    holds(
        &rt,
        alone == Some(ProgramCommand::Alone(TextCommand::Replay)),
        "no argument replays",
    );
    let more = asked(rt.alloc(), &["forkproxy", "drive", "drive"])?;
    holds(&rt, more.is_none(), "two words are no command");
    Ok(())
}

/// Runs what is asked for on a script with a worker; the status.
fn ran<R: Threads + Wait + Sync>(
    rt: &R,
    alloc: Global,
    asked: ProgramCommand,
    out: &mut Vec<u8>,
) -> Result<u8, ProgFault> {
    asked.run(
        rt,
        alloc,
        b"kind INVITE\ntarget 1000 a\nworker\ncancel\n",
        out,
    )
}

#[test]
fn what_is_asked_for_is_appended(rt: HostRuntime) -> Result<(), Fail> {
    let mut out = Vec::new(rt.alloc());
    let status = ran(&rt, rt.alloc(), ProgramCommand::Drive, &mut out)?;
    holds(&rt, status == 0, "a run ends with 0");
    let status = ran(
        &rt,
        rt.alloc(),
        ProgramCommand::Alone(TextCommand::Check),
        &mut out,
    )?;
    holds(&rt, status == 4, "a check of a script ends with 4");
    holds(
        &rt,
        is_text(
            &out,
            "opening start 0\n0: 0 start - cancel - up -\nunfinished 1\nno K1 1\n",
        ),
        "each command appends its answer",
    );
    Ok(())
}

/// Answers a script that is read from memory; the status.
fn passed_on<R: Threads + Wait + Sync>(
    rt: &R,
    alloc: Global,
    asked: ProgramCommand,
    mut script: &[u8],
    out: &mut Vec<u8>,
) -> Result<u8, Fault> {
    asked.answer(rt, alloc, &mut script, out)
}

#[test]
fn what_is_asked_for_goes_from_an_input_to_an_output(rt: HostRuntime) -> Result<(), Fail> {
    let mut out = Vec::new(rt.alloc());
    let script = b"kind INVITE\ntarget 1000 a\nworker\ncancel\n";
    let status = passed_on(&rt, rt.alloc(), ProgramCommand::Drive, script, &mut out)?;
    holds(&rt, status == 0, "a run ends with 0");
    let refused = passed_on(
        &rt,
        rt.alloc(),
        ProgramCommand::Drive,
        b"kind BYE\n",
        &mut out,
    );
    holds(
        &rt,
        refused == Err(Fault::Text(ProgFault::Line(1))),
        "the first malformed line is told",
    );
    let text = "opening start 0\n0: 0 start - cancel - up -\nunfinished 1\n";
    holds(&rt, is_text(&out, text), "what is refused writes nothing");
    Ok(())
}
