//! The stored answers of a listing in order of rank, and the answer that goes up (RFC 3261 section 16.7 step 6).
ghost use Rattle.std.specs.Prelude.{◌≡◌, ◌↔◌, IsTrue, IfOk, Some, length, map};
ghost use Rattle.std.specs.BTreeSet.{IsFromIterResult};
ghost use Rattle.std.specs.Ordering.{nat_cmp};
ghost use Rattle.fork_model.specs.Rank.{Before};
ghost use Rattle.std.specs.Bool.{MatchBool};
ghost use Rattle.fork_listing.specs.First.{IsFirstToFail};
ghost use Rattle.fork_listing.specs.Ranks.{score_of, score_in, score_at, RanksBehind, rank_before, IsInOrder, IsOrdered, IsListed};
ghost use Rattle.fork_listing.specs.inner.Stored.{ranked_in, final_of_best, number_in, IsCounted};

use crate::line::{Final, ListedTarget, Ranked};
use crate::targets::target_at;
use fork_rank::{Rules, ranks_before};
use fork_tree::{BestRef, End};
use std::alloc::{AllocError, Allocator};
use std::collections::BTreeSet;

/// Whether the branch has stored this answer.
fn is_answer(end: End, ranked: &Ranked) -> bool
    ensures { IsTrue result ↔ (score_in end ≡ Some (score_of ranked.now)) }
{
    match end {
        End::Stored {
            status,
            arrival,
            ..
        } => status == ranked.status && arrival == ranked.arrival,
        _ => false,
    }
}

fn is_stored(targets: &[ListedTarget], ranked: &Ranked) -> bool
    ensures { IsTrue result ↔ (score_at targets.now ranked.now.number ≡ Some (score_of ranked.now)) }
{
    match target_at(targets, ranked.number) {
        None => false,
        Some(target) => is_answer(target.end, ranked),
    }
}

fn goes_before(rules: &Rules, first: &Ranked, later: &Ranked) -> bool
    ensures { IsTrue result ↔ Before rules.now (score_of first.now) (score_of later.now) }
{
    ranks_before(
        rules,
        (first.status, first.arrival),
        (later.status, later.arrival),
    )
}

fn rank_before(ranks: &[Ranked], k: usize) -> Option<Ranked>
    ensures { result ≡ rank_before ranks.now k }
{
    if k == 0 {
        None
    } else {
        ranks.get(k - 1).copied()
    }
}

fn ranks_behind(rules: &Rules, before: Option<Ranked>, ranked: &Ranked) -> bool
    ensures { IsTrue result ↔ RanksBehind rules.now before ranked.now }
{
    match before {
        None => true,
        Some(before) => goes_before(rules, &before, ranked),
    }
}

fn is_in_order(
    rules: &Rules,
    targets: &[ListedTarget],
    ranks: &[Ranked],
    k: usize,
    ranked: &Ranked,
) -> bool
    ensures { IsTrue result ↔ IsInOrder rules.now targets.now ranks.now k ranked.now }
{
    is_stored(targets, ranked) && ranks_behind(rules, rank_before(ranks, k), ranked)
}

fn is_misordered(rules: &Rules, targets: &[ListedTarget], ranks: &[Ranked], k: usize) -> bool
    ensures { MatchBool result (IsOrdered rules.now targets.now ranks.now k → ⊥) (IsOrdered rules.now targets.now ranks.now k) }
{
    match ranks.get(k) {
        None => false,
        Some(ranked) => !is_in_order(rules, targets, ranks, k, ranked),
    }
}

/// The first line that tells of no stored answer, or of one that does not rank behind that of the line before.
pub fn first_misordered(rules: &Rules, targets: &[ListedTarget], ranks: &[Ranked]) -> Option<usize>
    ensures { IsFirstToFail (IsOrdered rules.now targets.now ranks.now) (length ranks.now) result }
{
    (0..ranks.len()).find(|k| is_misordered(rules, targets, ranks, *k))
}

/// The numbers that the lines name.
fn numbers_of<A: Allocator + Clone>(
    alloc: A,
    ranks: &[Ranked],
) -> Result<BTreeSet<usize, A>, AllocError>
    ensures { IfOk result (IsFromIterResult nat_cmp (map number_in ranks.now)) }
{
    ranks
        .iter()
        .map(|ranked| usize::from(ranked.number))
        .collect(alloc)
}

/// The stored answer of a branch.
pub fn stored_in(target: &ListedTarget) -> Option<Ranked>
    ensures { result ≡ ranked_in target.now }
{
    match target.end {
        End::Stored {
            status,
            arrival,
            ..
        } => Some(Ranked {
            status,
            number: target.number,
            arrival,
        }),
        _ => None,
    }
}

/// Whether branch n has a stored answer, and its number is none of these.
fn is_unlisted<A: Allocator>(
    targets: &[ListedTarget],
    numbers: &BTreeSet<usize, A>,
    n: usize,
) -> bool
    ensures { MatchBool result (IsCounted targets.now numbers.now n → ⊥) (IsCounted targets.now numbers.now n) }
{
    match targets.get(n) {
        None => false,
        Some(target) => stored_in(target).is_some() && !numbers.contains(&n),
    }
}

/// The first branch whose stored answer has no line.
///
/// # Errors
///
/// Only where the allocator refuses.
pub fn first_unlisted<A: Allocator + Clone>(
    alloc: A,
    targets: &[ListedTarget],
    ranks: &[Ranked],
) -> Result<Option<usize>, AllocError>
    ensures { IfOk result (IsFirstToFail (IsListed targets.now ranks.now) (length targets.now)) }
{
    let numbers = numbers_of(alloc, ranks)?;
    Ok((0..targets.len()).find(|n| is_unlisted(targets, &numbers, *n)))
}

/// Whether the line says that the first answer goes up: a 500 in place of a 503, a 408 where nothing is stored.
pub fn is_final_of(best: Option<BestRef>, last: &Final) -> bool
    ensures { IsTrue result ↔ (last.now ≡ final_of_best best) }
{
    match best {
        None => last.status.code() == 408 && last.number.is_none(),
        Some(first) => {
            let status = if first.status.code() == 503 {
                500
            } else {
                first.status.code()
            };
            last.status.code() == status && last.number == Some(first.no)
        }
    }
}
