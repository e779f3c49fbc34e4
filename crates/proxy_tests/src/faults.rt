//! The texts of the program's faults.
use crate::holds::holds_of;
use fork_context::NewFault;
use fork_program::{Fault, ProgFault};
use std::alloc::{AllocError, Global};
use std::test::Fail;

/// The program's faults, with the exit status and the text of each.
const FAULTS: [(Fault, u8, &str); 11] = [
    (
        Fault::Usage,
        2,
        "usage: forkproxy [replay | drive | check | serve TURNS]",
    ),
    (Fault::Read, 5, "read fault"),
    (Fault::Write, 5, "write fault"),
    (Fault::Text(ProgFault::NoMemory), 3, "want of memory"),
    (Fault::Text(ProgFault::TooLong), 1, "too long"),
    (Fault::Text(ProgFault::Stopped), 1, "stopped"),
    (Fault::Text(ProgFault::Torn), 1, "torn"),
    (Fault::Text(ProgFault::Line(12)), 1, "line 12: malformed"),
    (
        Fault::Text(ProgFault::New(NewFault::NoTargets)),
        1,
        "setup: NoTargets",
    ),
    (
        Fault::Text(ProgFault::New(NewFault::TooMany)),
        1,
        "setup: TooMany",
    ),
    (
        Fault::Text(ProgFault::New(NewFault::Twice)),
        1,
        "setup: Twice",
    ),
];

fn status_of(fault: Fault) -> u8 {
    fault.status()
}

fn text_of(alloc: Global, fault: Fault) -> Result<String, AllocError> {
    format!(in alloc; "{fault}")
}

#[test]
fn faults_have_texts(rt: HostRuntime) -> Result<(), Fail> {
    for (fault, status, text) in FAULTS {
        holds_of(
            &rt,
            status_of(fault) == status,
            "the fault has its status",
            text,
        );
        holds_of(
            &rt,
            text_of(rt.alloc(), fault)?.as_str() == text,
            "the fault has its text",
            text,
        );
    }
    Ok(())
}
