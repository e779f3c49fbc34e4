//! Inputs that are read, and commands that answer a text as the program does, while memory is refused.
use crate::answers::{Judge, judged};
use crate::plays::calls;
use crate::sources::Alloc;
use crate::texts::{
    BEST_LISTING, BEST_PRINTED, BEST_SCRIPT, CHALLENGED_PRINTED, CHALLENGED_SCRIPT, MOVED_PRINTED,
    MOVED_SCRIPT, ONE_LISTING, WRONG_LISTING,
};
use failing_allocator::{Attempt, Heap, Stateless};
use fork_program::{Fault, ProgFault, TextCommand, check_text, read_input, replay_text};

/// The call that answers a text.
#[derive(Clone, Copy)]
enum Program {
    ReplayText,
    CheckText,
    Run(TextCommand),
}

/// A call, its text, its exit status, and what it prints.
#[derive(Clone, Copy)]
struct Case {
    program: Program,
    text: &'static [u8],
    status: u8,
    printed: &'static [u8],
}

fn run<'a>(alloc: Alloc<'a>, case: Case, out: &mut Vec<u8, Alloc<'a>>) -> Result<u8, ProgFault> {
    match case.program {
        Program::ReplayText => replay_text(alloc, case.text, out),
        Program::CheckText => check_text(alloc, case.text, out),
        Program::Run(command) => command.run(alloc, case.text, out),
    }
}

/// Whether a program that this fault ends has status 3.
fn is_refusal(fault: ProgFault) -> bool {
    fault == ProgFault::NoMemory && Fault::Text(fault).status() == 3
}

/// What the case comes to; where it is refused nothing was printed.
fn ended(case: Case, ended: Result<u8, ProgFault>, printed: &[u8]) -> Attempt {
    match ended {
        Ok(status) => Attempt::of(status == case.status && printed == case.printed),
        Err(fault) if is_refusal(fault) && printed.is_empty() => Attempt::NoMemory,
        Err(_) => Attempt::Wrong,
    }
}

impl Stateless for Case {
    fn answer(&self, heap: Heap<'_>) -> Attempt {
        let mut out = Vec::new(heap.scarce);
        let status = run(heap.scarce, *self, &mut out);
        ended(*self, status, &out)
    }
}

const REPLAY: Program = Program::Run(TextCommand::Replay);

const CHECK: Program = Program::Run(TextCommand::Check);

/// Calls, and how many of their growths are done without.
const CASES: &[(Case, u64)] = &[
    (
        Case {
            program: Program::ReplayText,
            text: BEST_SCRIPT,
            status: 0,
            printed: BEST_PRINTED,
        },
        0,
    ),
    (
        Case {
            program: REPLAY,
            text: BEST_SCRIPT,
            status: 0,
            printed: BEST_PRINTED,
        },
        0,
    ),
    (
        Case {
            program: REPLAY,
            text: CHALLENGED_SCRIPT,
            status: 0,
            printed: CHALLENGED_PRINTED,
        },
        0,
    ),
    (
        Case {
            program: REPLAY,
            text: MOVED_SCRIPT,
            status: 0,
            printed: MOVED_PRINTED,
        },
        0,
    ),
    (
        Case {
            program: Program::CheckText,
            text: ONE_LISTING,
            status: 0,
            printed: b"yes\n",
        },
        1,
    ),
    (
        Case {
            program: CHECK,
            text: ONE_LISTING,
            status: 0,
            printed: b"yes\n",
        },
        1,
    ),
    (
        Case {
            program: CHECK,
            text: BEST_LISTING,
            status: 0,
            printed: b"yes\n",
        },
        2,
    ),
    (
        Case {
            program: CHECK,
            text: WRONG_LISTING,
            status: 4,
            printed: b"no K5\n",
        },
        2,
    ),
];

#[test]
fn commands_end_with_3(rt: HostRuntime) {
    for (case, without) in CASES {
        calls(&rt, case, *without, "a command");
    }
}

/// An input is read.
struct Input;

impl<'a> Judge<'a, Vec<u8, Alloc<'a>>> for Input {
    fn is_right(&self, _heap: Heap<'a>, text: &Vec<u8, Alloc<'a>>) -> bool {
        text.as_slice() == BEST_SCRIPT
    }
}

impl Stateless for Input {
    fn answer(&self, heap: Heap<'_>) -> Attempt {
        let mut input = BEST_SCRIPT;
        let text = read_input(heap.scarce, &mut input);
        judged(heap, self, text, Fault::Text(ProgFault::NoMemory))
    }
}

#[test]
fn an_input_is_read(rt: HostRuntime) {
    calls(&rt, &Input, 0, "an input");
}
