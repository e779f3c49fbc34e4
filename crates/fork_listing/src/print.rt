//! Writing the lines of a listing.
ghost use Rattle.std.specs.Prelude.{◌≡◌, ◌∷◌, ◌++◌, [], OnOk};
ghost use Rattle.std.specs.Fmt.{decimal};
ghost use Rattle.fork_listing.specs.Line.{number_text, how_text, end_text, line_text, TargetLine, RankLine};
ghost use Rattle.fork_listing.specs.inner.Text.{head_text, targets_text, ranks_text};
ghost use Rattle.fork_rank.specs.RuleLines.{ended};

use crate::line::{ListedTarget, Ranked};
use fork_rank::{Rules, append, append_depth, append_preferred};
use fork_tree::End;
use sip_lex::append_decimal;
use std::alloc::{AllocError, Allocator};

/// Appends a number, or `-` for none.
pub fn append_number_or_none<A: Allocator>(
    text: &mut Vec<u8, A>,
    number: Option<u16>,
) -> Result<(), AllocError>
    ensures { OnOk result (text.new.items ≡ text.old.items ++ number_text number) }
{
    match number {
        None => append(text, b"-"),
        Some(n) => append_decimal(text, u64::from(n)),
    }
}

fn append_how<A: Allocator>(text: &mut Vec<u8, A>, received: bool) -> Result<(), AllocError>
    ensures { OnOk result (text.new.items ≡ text.old.items ++ how_text received) }
{
    if received {
        append(text, b"received")
    } else {
        append(text, b"assumed")
    }
}

/// Appends a number with a space behind it.
fn append_number_before<A: Allocator>(text: &mut Vec<u8, A>, n: u64) -> Result<(), AllocError>
    ensures { OnOk result (text.new.items ≡ text.old.items ++ (decimal n ++ 32 ∷ [])) }
{
    append_decimal(text, n)?;
    append(text, b" ")
}

fn append_end<A: Allocator>(text: &mut Vec<u8, A>, end: End) -> Result<(), AllocError>
    ensures { OnOk result (text.new.items ≡ text.old.items ++ end_text end) }
{
    match end {
        End::Stored {
            status,
            arrival,
            received,
        } => {
            append(text, b"stored ")?;
            append_number_before(text, u64::from(status.code()))?;
            append_number_before(text, u64::from(arrival))?;
            append_how(text, received)
        }
        End::Taken { arrival } => {
            append(text, b"taken ")?;
            append_decimal(text, u64::from(arrival))
        }
        End::Silent { arrival } => {
            append(text, b"silent ")?;
            append_decimal(text, u64::from(arrival))
        }
        End::Never | End::Accepted { .. } => append(text, b"never"),
    }
}

/// Appends the number of a branch and that of its parent.
fn append_parentage<A: Allocator>(
    text: &mut Vec<u8, A>,
    target: &ListedTarget,
) -> Result<(), AllocError>
    ensures { OnOk result (text.new.items ≡ text.old.items ++ (decimal target.now.number ++ 32 ∷ (number_text target.now.parent ++ 32 ∷ []))) }
{
    append_number_before(text, u64::from(target.number))?;
    append_number_or_none(text, target.parent)?;
    append(text, b" ")
}

fn append_target<A: Allocator>(
    text: &mut Vec<u8, A>,
    target: &ListedTarget,
) -> Result<(), AllocError>
    ensures { OnOk result (text.new.items ≡ text.old.items ++ ended (line_text (TargetLine target.now))) }
{
    append(text, b"target ")?;
    append_parentage(text, target)?;
    append_number_before(text, u64::from(target.q))?;
    append_end(text, target.end)?;
    append(text, b"\n")
}

fn append_ranked<A: Allocator>(text: &mut Vec<u8, A>, ranked: &Ranked) -> Result<(), AllocError>
    ensures { OnOk result (text.new.items ≡ text.old.items ++ ended (line_text (RankLine ranked.now))) }
{
    append(text, b"rank ")?;
    append_number_before(text, u64::from(ranked.status.code()))?;
    append_number_before(text, u64::from(ranked.number))?;
    append_decimal(text, u64::from(ranked.arrival))?;
    append(text, b"\n")
}

/// Appends the lines before the targets.
pub fn append_head<A: Allocator>(
    text: &mut Vec<u8, A>,
    count: u16,
    rules: &Rules,
) -> Result<(), AllocError>
    ensures { OnOk result (text.new.items ≡ text.old.items ++ head_text count rules.now) }
{
    append(text, b"fork 3 ")?;
    append_decimal(text, u64::from(count))?;
    append(text, b"\n")?;
    append_preferred(text, rules)?;
    append_depth(text, rules)
}

/// Appends the lines of the targets, one after another.
pub fn append_targets<A: Allocator>(
    text: &mut Vec<u8, A>,
    targets: &[ListedTarget],
) -> Result<(), AllocError>
    ensures { OnOk result (text.new.items ≡ text.old.items ++ targets_text targets.now) }
{
    for target in targets {
        append_target(text, target)?;
    }
    Ok(())
}

/// Appends the lines of the stored answers, one after another.
pub fn append_ranks<A: Allocator>(text: &mut Vec<u8, A>, ranks: &[Ranked]) -> Result<(), AllocError>
    ensures { OnOk result (text.new.items ≡ text.old.items ++ ranks_text ranks.now) }
{
    for ranked in ranks {
        append_ranked(text, ranked)?;
    }
    Ok(())
}
