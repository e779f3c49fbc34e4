//! The commands of the program, from an input to an output, where growths of memory are refused: `drive` runs in the memory
//! that is refused, its workers too.
use crate::holds::holds_of;
use failing_allocator::Refusing;
use fork_engine::ProgramCommand;
use fork_program::TextCommand;
use std::alloc::Global;
use std::io::{self, Write};
use std::process::Abort;
use std::sync::Wait;
use std::thread::Threads;

/// Nothing that is run here grows so often.
const MOST: u64 = 100_000;

/// An output that counts what it gets.
#[derive(Drop)]
struct Counting {
    bytes: usize,
}

impl Write for Counting {
    fn write(&mut self, buf: &[u8]) -> io::Result<usize> {
        self.bytes = self.bytes.saturating_add(buf.len());
        Ok(buf.len())
    }

    fn flush(&mut self) -> io::Result<()> {
        Ok(())
    }
}

/// A command, its text, its exit status and how many bytes it prints, and how many growths it does without where each is
/// refused alone.
#[derive(Clone, Copy)]
struct Case {
    asked: ProgramCommand,
    text: &'static [u8],
    status: u8,
    bytes: usize,
    without: u64,
}

/// How a command ends: its exit status, how many bytes it has printed, and whether a growth was refused.
#[derive(Clone, Copy)]
struct Outcome {
    status: u8,
    bytes: usize,
    is_refused: bool,
}

/// How the command ends with this memory.
fn ended<R: Threads + Wait + Sync>(rt: &R, scarce: &Refusing<Global>, case: Case) -> Outcome {
    let mut input = case.text;
    let mut output = Counting { bytes: 0 };
    let status = match case.asked.answer(rt, scarce, &mut input, &mut output) {
        Ok(status) => status,
        Err(fault) => fault.status(),
    };
    Outcome {
        status,
        bytes: output.bytes,
        is_refused: scarce.refused() > 0,
    }
}

/// How the command ends where the growth of this number is refused, and with `all` those behind it.
fn refused<R: Threads + Wait + Sync>(
    rt: &R,
    alloc: Global,
    case: Case,
    number: u64,
    all: bool,
) -> Outcome {
    let scarce = Refusing::new(alloc);
    if all {
        scarce.refuse_from(number);
    } else {
        scarce.refuse_one(number);
    }
    ended(rt, &scarce, case)
}

/// Whether the command has done what it does with memory.
fn is_whole(case: Case, ended: Outcome) -> bool {
    ended.status == case.status && ended.bytes == case.bytes
}

/// Refuses growth 1, 2, 3 and so on, until a run meets no refusal: how many growths the command did without. None where a run
/// in which one was refused ends neither with status 3 and nothing printed nor as with memory, or the last not as with memory.
fn without<R: Threads + Wait + Sync>(rt: &R, alloc: Global, case: Case, all: bool) -> Option<u64> {
    let mut without = 0u64;
    for number in 1..MOST {
        let ended = refused(rt, alloc, case, number, all);
        let is_told = ended.is_refused && ended.status == 3 && ended.bytes == 0;
        if !is_told && !is_whole(case, ended) {
            return None;
        }
        if !ended.is_refused {
            return if number > 1 { Some(without) } else { None };
        }
        if !is_told {
            without = without.saturating_add(1);
        }
    }
    None
}

/// Ends the test where a run of the command goes otherwise.
fn goes<R: Threads + Wait + Sync + Abort>(rt: &R, alloc: Global, case: Case, row: &str) {
    holds_of(
        rt,
        without(rt, alloc, case, false) == Some(case.without),
        "a growth that is refused alone ends the command with status 3 and nothing printed",
        row,
    );
    holds_of(
        rt,
        without(rt, alloc, case, true) == Some(0),
        "where memory ends the command ends with status 3 and nothing printed",
        row,
    );
}

/// Two workers, each with the answer of one target.
const WORKERS: &[u8] =
    b"kind INVITE\ntarget 1000 a\ntarget 1000 b\nworker\nanswer 0 404\nworker\nanswer 1 486\n";

/// A redirection, whose contact declines.
const SCRIPT: &[u8] = b"kind INVITE\ntarget 1000 a\nanswer 0 302\ncontact 1000 b\nanswer 1 404\n";

const LISTING: &[u8] =
    b"fork 1 1\ntarget 0 - 1000 stored 404 0 received\nrank 404 0 0\nfinal 404 0\n";

#[test]
fn what_is_refused_ends_with_3(rt: HostRuntime) {
    let drive = Case {
        asked: ProgramCommand::Drive,
        text: WORKERS,
        status: 0,
        bytes: 242,
        without: 0,
    };
    goes(&rt, rt.alloc(), drive, "drive");
    let replay = Case {
        asked: ProgramCommand::Alone(TextCommand::Replay),
        text: SCRIPT,
        status: 0,
        bytes: 207,
        without: 0,
    };
    goes(&rt, rt.alloc(), replay, "replay");
    let check = Case {
        asked: ProgramCommand::Alone(TextCommand::Check),
        text: LISTING,
        status: 0,
        bytes: 4,
        without: 1,
    };
    goes(&rt, rt.alloc(), check, "check");
}
