//! The scripts of `examples/`, and what the program prints of each.
use crate::holds::holds_of;
use fork_engine::ProgramCommand;
use fork_program::{Fault, TextCommand};
use std::alloc::Global;
use std::process::Abort;
use std::sync::Wait;
use std::test::Fail;
use std::thread::Threads;

// examples: made by tools/examples

/// Scripts, and what is printed of each.
const REPLAYS: [(&str, &str); 4] = [
    (
        "kind INVITE\ntarget 1000 sip:bob@192.0.2.10\ntarget 1000 sip:bob@192.0.2.11\ntarget 1000 sip:bob@192.0.2.12\nring 1 180\nring 2 183\nanswer 0 603\nanswer 2 487\nanswer 1 487\n",
        "opening start 0,1,2\n0 start - cancel - up provisional 1\n1 start - cancel - up provisional 2\n2 start - cancel 1,2 up -\n3 start - cancel - up -\n4 start - cancel - up final 603 0\nfork 3 3\nprefer 401,407,415,420,484\ndepth 256\ntarget 0 - 1000 stored 603 2 received\ntarget 1 - 1000 stored 487 4 received\ntarget 2 - 1000 stored 487 3 received\nrank 603 0 2\nrank 487 2 3\nrank 487 1 4\nfinal 603 0\n",
    ),
    (
        "kind INVITE\ntarget 1000 sip:bob@192.0.2.10\ntarget 1000 sip:bob@192.0.2.11\ntarget 500 sip:bob@192.0.2.20\nring 0 180\nanswer 1 486\ntimeout 0\nring 2 180\nanswer 2 480\n",
        "opening start 0,1\n0 start - cancel - up provisional 0\n1 start - cancel - up -\n2 start 2 cancel - up -\n3 start - cancel - up provisional 2\n4 start - cancel - up final 486 1\nfork 3 3\nprefer 401,407,415,420,484\ndepth 256\ntarget 0 - 1000 stored 408 2 assumed\ntarget 1 - 1000 stored 486 1 received\ntarget 2 - 500 stored 480 4 received\nrank 486 1 1\nrank 408 0 2\nrank 480 2 4\nfinal 486 1\n",
    ),
    (
        "kind INVITE\ntarget 1000 a\ntarget 1000 b\ntarget 1000 c\ntarget 1000 d\nanswer 0 503\nanswer 1 407\nanswer 2 501\nanswer 3 404\n",
        "opening start 0,1,2,3\n0 start - cancel - up -\n1 start - cancel - up -\n2 start - cancel - up -\n3 start - cancel - up final 407 1\nfork 3 4\nprefer 401,407,415,420,484\ndepth 256\ntarget 0 - 1000 stored 503 0 received\ntarget 1 - 1000 stored 407 1 received\ntarget 2 - 1000 stored 501 2 received\ntarget 3 - 1000 stored 404 3 received\nrank 407 1 1\nrank 404 3 3\nrank 501 2 2\nrank 503 0 0\nfinal 407 1\n",
    ),
    (
        "kind INVITE\nprefer 401,407\ndepth 1\ntarget 1000 sip:bob@192.0.2.10\ntarget 500 sip:voicemail@192.0.2.99\nanswer 0 302\ncontact 700 sip:bob@192.0.2.30\ncontact 900 sip:bob@192.0.2.31\nanswer 2 302\ncontact 1000 sip:bob@192.0.2.40\nanswer 3 404\ntimeout 1\n",
        "opening start 0\n0 start 2 cancel - up -\n1 start 3 cancel - up -\n2 start 1 cancel - up -\n3 start - cancel - up final 302 2\nfork 3 4\nprefer 401,407\ndepth 1\ntarget 0 - 1000 taken 0\ntarget 1 - 500 stored 408 3 assumed\ntarget 2 0 900 stored 302 1 received\ntarget 3 0 700 stored 404 2 received\nrank 302 2 1\nrank 404 3 2\nrank 408 1 3\nfinal 302 2\n",
    ),
];

/// Scripts with workers, and what is printed of each in one of the orders in which they may come.
const RUNS: [(&str, &str); 6] = [
    (
        "kind INVITE\ntarget 1000 desk\ntarget 1000 mobile\nworker\nring 0 180\nanswer 0 486\nworker\nring 1 183\nanswer 1 404\n",
        "opening start 0,1\n0: 0 start - cancel - up provisional 0\n0: 1 start - cancel - up -\n1: 2 start - cancel - up provisional 1\n1: 3 start - cancel - up final 486 0\nfork 3 2\nprefer 401,407,415,420,484\ndepth 256\ntarget 0 - 1000 stored 486 1 received\ntarget 1 - 1000 stored 404 3 received\nrank 486 0 1\nrank 404 1 3\nfinal 486 0\n",
    ),
    (
        "kind INVITE\ntarget 1000 desk\ntarget 1000 mobile\nworker\nring 0 180\nanswer 0 486\nworker\nring 1 183\nanswer 1 404\n",
        "opening start 0,1\n0: 0 start - cancel - up provisional 0\n1: 1 start - cancel - up provisional 1\n0: 2 start - cancel - up -\n1: 3 start - cancel - up final 486 0\nfork 3 2\nprefer 401,407,415,420,484\ndepth 256\ntarget 0 - 1000 stored 486 2 received\ntarget 1 - 1000 stored 404 3 received\nrank 486 0 2\nrank 404 1 3\nfinal 486 0\n",
    ),
    (
        "kind INVITE\ntarget 1000 desk\ntarget 1000 mobile\nworker\nring 0 180\nanswer 0 486\nworker\nring 1 183\nanswer 1 404\n",
        "opening start 0,1\n0: 0 start - cancel - up provisional 0\n1: 1 start - cancel - up provisional 1\n1: 2 start - cancel - up -\n0: 3 start - cancel - up final 404 1\nfork 3 2\nprefer 401,407,415,420,484\ndepth 256\ntarget 0 - 1000 stored 486 3 received\ntarget 1 - 1000 stored 404 2 received\nrank 404 1 2\nrank 486 0 3\nfinal 404 1\n",
    ),
    (
        "kind INVITE\ntarget 1000 desk\ntarget 1000 mobile\nworker\nring 0 180\nanswer 0 486\nworker\nring 1 183\nanswer 1 404\n",
        "opening start 0,1\n1: 0 start - cancel - up provisional 1\n0: 1 start - cancel - up provisional 0\n0: 2 start - cancel - up -\n1: 3 start - cancel - up final 486 0\nfork 3 2\nprefer 401,407,415,420,484\ndepth 256\ntarget 0 - 1000 stored 486 2 received\ntarget 1 - 1000 stored 404 3 received\nrank 486 0 2\nrank 404 1 3\nfinal 486 0\n",
    ),
    (
        "kind INVITE\ntarget 1000 desk\ntarget 1000 mobile\nworker\nring 0 180\nanswer 0 486\nworker\nring 1 183\nanswer 1 404\n",
        "opening start 0,1\n1: 0 start - cancel - up provisional 1\n0: 1 start - cancel - up provisional 0\n1: 2 start - cancel - up -\n0: 3 start - cancel - up final 404 1\nfork 3 2\nprefer 401,407,415,420,484\ndepth 256\ntarget 0 - 1000 stored 486 3 received\ntarget 1 - 1000 stored 404 2 received\nrank 404 1 2\nrank 486 0 3\nfinal 404 1\n",
    ),
    (
        "kind INVITE\ntarget 1000 desk\ntarget 1000 mobile\nworker\nring 0 180\nanswer 0 486\nworker\nring 1 183\nanswer 1 404\n",
        "opening start 0,1\n1: 0 start - cancel - up provisional 1\n1: 1 start - cancel - up -\n0: 2 start - cancel - up provisional 0\n0: 3 start - cancel - up final 404 1\nfork 3 2\nprefer 401,407,415,420,484\ndepth 256\ntarget 0 - 1000 stored 486 3 received\ntarget 1 - 1000 stored 404 1 received\nrank 404 1 1\nrank 486 0 3\nfinal 404 1\n",
    ),
];

// examples: end

/// The exit status of a command, and what it prints.
fn answered<R: Threads + Wait + Sync>(
    rt: &R,
    alloc: Global,
    asked: ProgramCommand,
    script: &str,
) -> Result<(u8, Vec<u8>), Fault> {
    let mut input = script.as_bytes();
    let mut out = Vec::new(alloc);
    let status = asked.answer(rt, alloc, &mut input, &mut out)?;
    Ok((status, out))
}

/// Whether a row of the table has this script with this text.
fn stands_there(table: &[(&str, &str)], script: &str, printed: &[u8]) -> bool {
    for (other, text) in table {
        if *other == script && printed == text.as_bytes() {
            return true;
        }
    }
    false
}

/// Checks that what a command prints of each script is a text that stands beside it.
fn holds_printed<R: Threads + Wait + Sync + Abort>(
    rt: &R,
    alloc: Global,
    asked: ProgramCommand,
    table: &[(&str, &str)],
) -> Result<(), Fault> {
    for (script, _) in table {
        let (status, printed) = answered(rt, alloc, asked, script)?;
        holds_of(rt, status == 0, "the status is 0", script);
        holds_of(
            rt,
            stands_there(table, script, &printed),
            "what is printed stands beside the script",
            script,
        );
    }
    Ok(())
}

#[test]
fn examples_print_what_stands_beside_them(rt: HostRuntime) -> Result<(), Fail> {
    holds_printed(
        &rt,
        rt.alloc(),
        ProgramCommand::Alone(TextCommand::Replay),
        &REPLAYS,
    )?;
    holds_printed(&rt, rt.alloc(), ProgramCommand::Drive, &RUNS)?;
    Ok(())
}
