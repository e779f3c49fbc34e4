//! An inbox hands on what it is given, each job once, in order.
ghost use Rattle.std.specs.Prelude.{◌≡◌};

use crate::holds::holds;
use call_table::{Inbox, InboxIn, InboxOut, MOST_JOBS};
use std::alloc::{AllocError, Global};
use std::sync::Wait;
use std::test::Fail;
use std::thread;
use std::thread::join;

/// How many times a test looks for a job before it gives up.
const LOOKS: u32 = 10_000;

/// A packet of one byte.
fn packet(alloc: Global, byte: u8) -> Result<Vec<u8>, AllocError> {
    Vec::from_slice(alloc, &[byte])
}

/// Whether the next job is the packet of this byte.
fn comes<R: Wait>(rt: &R, receiving: &mut InboxOut<Vec<u8>>, byte: u8) -> bool {
    match receiving.receive(rt) {
        Some(bytes) => bytes.as_slice() == [byte].as_slice(),
        None => false,
    }
}

#[test]
fn packets_come_in_order(rt: HostRuntime) -> Result<(), Fail> {
    let (mut giving, mut receiving) = Inbox::new(rt.alloc())?;
    for byte in 1..=3u8 {
        let given = giving.give(&rt, packet(rt.alloc(), byte)?).is_ok();
        holds(&rt, given, "an inbox takes a packet");
    }
    holds(&rt, comes(&rt, &mut receiving, 1), "the first comes first");
    holds(&rt, comes(&rt, &mut receiving, 2), "then the second");
    holds(&rt, comes(&rt, &mut receiving, 3), "then the third");
    holds(&rt, receiving.receive(&rt).is_none(), "then there is none");
    Ok(())
}

/// Gives the numbers from 0 on, and says how many were taken before the first that was not.
fn fill<R: Wait>(rt: &R, giving: &mut InboxIn<u64>) -> u64 {
    for number in 0..1_000u64 {
        if giving.give(rt, number).is_err() {
            return number;
        }
    }
    1_000
}

#[test]
fn a_full_inbox_hands_a_job_back(rt: HostRuntime) -> Result<(), Fail> {
    let (mut giving, mut receiving) = Inbox::new(rt.alloc())?;
    let taken = fill(&rt, &mut giving);
    holds(&rt, taken == MOST_JOBS as u64, "it holds 64 jobs");
    let refused = giving.give(&rt, 900);
    holds(&rt, refused == Err(900), "the next comes back");
    holds(
        &rt,
        receiving.receive(&rt) == Some(0),
        "the first is received",
    );
    holds(&rt, giving.give(&rt, 64).is_ok(), "then there is room");
    holds(
        &rt,
        receiving.receive(&rt) == Some(1),
        "what was refused is not among them",
    );
    Ok(())
}

/// Gives the numbers 0 to 5.
fn give_six<R: Wait>(rt: &R, mut giving: InboxIn<u64>) -> InboxIn<u64>
    ensures { result.queue ≡ giving.queue }
{
    for number in 0..6u64 {
        let _ = giving.give(rt, number);
    }
    giving
}

/// Receives at most three numbers, and says how many came as they were due.
fn take_three<R: Wait>(rt: &R, mut receiving: InboxOut<u64>) -> (InboxOut<u64>, u64)
    ensures { result.0.queue ≡ receiving.queue }
{
    let mut came = 0u64;
    for _ in 0..LOOKS {
        if came == 3 {
            break;
        }
        match receiving.receive(rt) {
            Some(number) if number == came => came = came.wrapping_add(1),
            Some(_) => break,
            None => thread::yield_now(),
        }
    }
    (receiving, came)
}

/// Receives what is left, and says up to which number all came as they were due.
fn take_rest<R: Wait>(rt: &R, receiving: &mut InboxOut<u64>, came: u64) -> Option<u64> {
    let mut next = came;
    for _ in 0..LOOKS {
        match receiving.receive(rt) {
            Some(number) if number == next => next = next.wrapping_add(1),
            Some(_) => return None,
            None => return Some(next),
        }
    }
    None
}

#[test]
fn what_two_threads_pass_on_comes_once(rt: HostRuntime) -> Result<(), Fail> {
    let (giving, receiving) = Inbox::new(rt.alloc())?;
    let (giving, (receiving, came)) = join(
        &rt,
        || give_six(&rt, giving),
        || take_three(&rt, receiving),
    );
    let mut joined = receiving.join(giving);
    holds(&rt, came <= 3, "the other thread receives at most three");
    let rest = take_rest(&rt, &mut joined, came);
    holds(&rt, rest == Some(6), "the six come in order, each once");
    Ok(())
}
