//! Checking a listing: the line that answers whether it is right.
ghost use Rattle.std.specs.Prelude.{◌≡◌, ◌<◌, ◌↔◌, ◌++◌, length, take, Err, IfOk, OnOk, OnErr, IfErr, IsErrOf};
ghost use Rattle.std.specs.Fmt.{decimal};
ghost use Rattle.fork_rank.specs.RuleLines.{ended};
ghost use Rattle.fork_program.specs.Faults.{most_text};
ghost use Rattle.fork_program.specs.Answer.{AppendsLine, AppendsAnswer, IsCheckRefusal};

use crate::fault::ProgFault;
use crate::replay::MOST_TEXT;
use bumpalo::Bump;
use fork_listing::{CheckFault, Verdict, check};
use sip_lex::append_decimal;
use std::alloc::{AllocError, Allocator};

/// The exit status where a text is no right listing.
const NO: u8 = 4;

/// Appends the line of a fault that has a number. Where it is refused a part of the line may stand there.
fn append_parts<A: Allocator>(
    out: &mut Vec<u8, A>,
    fault: &[u8],
    number: usize,
) -> Result<(), AllocError>
    ensures appended { OnOk result (out.new.items ≡ out.old.items ++ ended (fault.now ++ decimal number)) }
    ensures front { take (length out.old.items) out.new.items ≡ out.old.items }
{
    out.extend_from_slice(fault)?;
    append_decimal(out, number as u64)?;
    out.extend_from_slice(b"\n")
}

/// Appends the line of a fault that has a number.
fn append_fault<A: Allocator>(
    out: &mut Vec<u8, A>,
    fault: &[u8],
    number: usize,
) -> Result<u8, AllocError>
    ensures appended { IfOk result (λ status. (status ≡ 4) × (out.new.items ≡ out.old.items ++ ended (fault.now ++ decimal number))) }
    ensures err { OnErr result (out.new.items ≡ out.old.items) }
{
    let before = out.len();
    if append_parts(out, fault, number).is_err() {
        out.truncate(before);
        return Err(AllocError);
    }
    Ok(NO)
}

/// Appends the line of a fault. Want of memory has no line.
fn append_refusal<A: Allocator>(out: &mut Vec<u8, A>, fault: CheckFault) -> Result<u8, AllocError>
    ensures appended { IfOk result (AppendsLine (Err fault) out.old.items out.new.items) }
    ensures err { OnErr result (out.new.items ≡ out.old.items) }
{
    match fault {
        CheckFault::Line(number) => append_fault(out, b"no K1 ", number),
        CheckFault::Tree(number) => append_fault(out, b"no K2 ", number),
        CheckFault::Order(number) => append_fault(out, b"no K3 ", number),
        CheckFault::Absent(n) => append_fault(out, b"no K4 ", n),
        CheckFault::FinalLine => {
            out.extend_from_slice(b"no K5\n")?;
            Ok(NO)
        }
        CheckFault::NoMemory => Err(AllocError),
    }
}

/// Appends the line of what a check found, and answers the exit status that goes with it.
///
/// # Errors
///
/// Where a growth is refused, or the check found want of memory, which has no line; then `out` is as it was.
pub fn append_found<A: Allocator>(
    out: &mut Vec<u8, A>,
    found: Result<Verdict, CheckFault>,
) -> Result<u8, AllocError>
    ensures appended { IfOk result (AppendsLine found out.old.items out.new.items) }
    ensures err { OnErr result (out.new.items ≡ out.old.items) }
{
    match found {
        Ok(_) => {
            out.extend_from_slice(b"yes\n")?;
            Ok(0)
        }
        Err(fault) => append_refusal(out, fault),
    }
}

/// Checks whether a text is a right listing and appends the line that says so: `yes`, with the exit status 0, or the
/// first fault, with 4. What the check needs stands in an arena of its own, and goes with it.
///
/// # Errors
///
/// In this order: `TooLong` over `MOST_TEXT` bytes, `NoMemory` where a growth was refused. After each `out` is as it was.
pub fn check_text<A: Allocator + Clone>(
    alloc: A,
    text: &[u8],
    out: &mut Vec<u8, A>,
) -> Result<u8, ProgFault>
    ensures answered { IfOk result (AppendsAnswer text.now out.old.items out.new.items) }
    ensures fault { IfErr result (IsCheckRefusal text.now) }
    ensures too_long { IsErrOf result ProgFault.TooLong ↔ (most_text < length text.now) }
    ensures err { OnErr result (out.new.items ≡ out.old.items) }
{
    if text.len() > MOST_TEXT {
        return Err(ProgFault::TooLong);
    }
    let arena = Bump::new(alloc);
    Ok(append_found(out, check(&arena, text))?)
}
