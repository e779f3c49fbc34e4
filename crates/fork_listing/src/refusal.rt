//! Whether a text is the listing of a fork as it may have ended, and tells its choice.
ghost use Rattle.std.specs.Prelude.{◌≡◌, ◌≤◌, IfOk, IfErr, length};
ghost use Rattle.fork_model.specs.Table.{most_targets};
ghost use Rattle.fork_listing.specs.declared.refusal.Verdict as spec;
ghost use Rattle.fork_listing.specs.Accepted.{IsRightText, IsOkElseNoMemory, IsLineNamed};
ghost use Rattle.fork_listing.specs.Text.{read_listing};
ghost use Rattle.fork_listing.specs.Checking.{IsChecked, IsVerdictOf, first_target};

use crate::choice::best_stored;
use crate::draft::{Listing, ListingFault};
use crate::line::Version;
use crate::ranks::{first_misordered, first_unlisted, is_final_of};
use crate::targets::first_misplaced;
use bumpalo::Bump;
use std::alloc::{AllocError, Allocator};
use thiserror::Error;

/// What a right listing tells: how many targets there are, and which answer went up, from which branch.
#[derive(Clone, Copy, PartialEq, Eq, Debug)]
pub struct Verdict {
    pub targets: u16,
    pub status: u16,
    pub no: Option<u16>,
}

/// Why a text is no right listing, in the order in which the faults are looked for. Lines count from 1.
#[derive(Clone, Copy, PartialEq, Eq, Debug, Error)]
pub enum CheckFault {
    /// The first line that is not of the form due in its place, or is missing.
    #[error("no K1 {0}")]
    Line(usize),
    /// The first line of a target that breaks a rule with the lines before it.
    #[error("no K2 {0}")]
    Tree(usize),
    /// The first line of a rank that tells of no stored answer, or does not rank behind the line before.
    #[error("no K3 {0}")]
    Order(usize),
    /// The smallest number of a target whose stored answer has no line.
    #[error("no K4 {0}")]
    Absent(usize),
    /// The last line does not tell the choice.
    #[error("no K5")]
    FinalLine,
    /// A growth was refused.
    #[error("want of memory")]
    NoMemory,
}

impl From<AllocError> for CheckFault {
    ghost use Rattle.fork_listing.specs.declared.refusal.CheckFault.TheVariants as check;

    ghost from_gives = { λ _ fault. fault ≡ check.NoMemory };

    fn from(_refused: AllocError) -> CheckFault {
        CheckFault::NoMemory
    }
}

fn first_target(version: Version) -> usize
    ensures { result ≡ first_target version }
{
    match version {
        Version::First => 2,
        Version::Second => 3,
        Version::Third => 4,
    }
}

/// Checks the parts of a listing, in their order.
fn check_listing<A: Allocator + Clone>(
    alloc: A,
    listing: &Listing<A>,
) -> Result<Verdict, CheckFault>
    requires few { length listing.now.targets ≤ most_targets }
    ensures { IsVerdictOf listing.now result }
{
    let line = first_target(listing.version);
    let targets = listing.targets.as_slice();
    let ranks = listing.ranks.as_slice();
    if let Some(n) = first_misplaced(alloc.clone()?, &listing.rules, targets)? {
        return Err(CheckFault::Tree(line + n));
    }
    if let Some(k) = first_misordered(&listing.rules, targets, ranks) {
        return Err(CheckFault::Order(line + usize::from(listing.count) + k));
    }
    if let Some(n) = first_unlisted(alloc.clone()?, targets, ranks)? {
        return Err(CheckFault::Absent(n));
    }
    let best = best_stored(alloc, listing.rules, targets)?;
    if !is_final_of(best, &listing.last) {
        return Err(CheckFault::FinalLine);
    }
    Ok(Verdict {
        targets: listing.count,
        status: listing.last.status.code(),
        no: listing.last.number,
    })
}

fn check_in<A: Allocator + Clone>(alloc: A, text: &[u8]) -> Result<Verdict, CheckFault>
    ensures { IsChecked (read_listing text.now) result }
{
    match Listing::read(&alloc, text) {
        Ok(listing) => check_listing(alloc, &listing),
        Err(ListingFault::Line(number)) => Err(CheckFault::Line(number)),
        Err(ListingFault::NoMemory) => Err(CheckFault::NoMemory),
    }
}

/// Whether a text is the listing of a fork, in any of its three versions: each line has the form due in its place, the
/// branches stand as a fork may leave them, the answers stored are those listed, in order of rank, and the last line
/// tells the choice among them (RFC 3261 section 16.7 step 6).
///
/// What it needs stands in the arena, and is dropped before it returns, so that the arena can be reset.
///
/// # Errors
///
/// The first fault, in the order of `CheckFault`; `NoMemory` only where the arena is refused memory.
#[tactic(auto, using(crate::proofs::AcceptedTexts::right_of, crate::proofs::AcceptedTexts::right_accepted, crate::proofs::AcceptedTexts::named_of))]
pub fn check<A: Allocator>(arena: &Bump<A>, text: &[u8]) -> Result<Verdict, CheckFault>
    ensures checked { IsChecked (read_listing text.now) result }
    ensures right { IfOk result (IsRightText text.now) }
    // No right text is refused.
    ensures accepted { (verdict : spec.Verdict) → IsRightText text.now verdict → IsOkElseNoMemory verdict result }
    ensures malformed { IfErr result (IsLineNamed text.now) }
{
    check_in(arena, text)
}
