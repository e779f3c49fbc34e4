//! Which branches may stand in a listing.
ghost use Rattle.std.specs.Prelude.{◌≡◌, ◌↔◌, IsTrue, IfOk, length, slice_get, option_and_then};
ghost use Rattle.fork_listing.specs.First.{IsFirstToFail};
ghost use Rattle.fork_listing.specs.Targets.{arrival_of, ended_at, is_redirection, is_redirected, IsParent, IsBefore, Follows, FollowsTarget, line_before, IsEarlier, IsPlaced};
ghost use Rattle.fork_listing.specs.inner.Near.{FallsTo, IsShallow, IsNear, Notes};

use crate::line::ListedTarget;
use fork_rank::Rules;
use fork_tree::End;
use std::alloc::{AllocError, Allocator};
use std::collections::BTreeSet;

/// The position of the event that ended a branch.
fn arrival_of(end: End) -> Option<u32>
    ensures { result ≡ arrival_of end }
{
    match end {
        End::Stored { arrival, .. }
        | End::Taken { arrival }
        | End::Silent { arrival }
        | End::Accepted { arrival } => Some(arrival),
        End::Never => None,
    }
}

/// Whether a branch that ended so had a 3xx whose contacts may have been tried.
fn is_redirection(end: End) -> bool
    ensures { result ≡ is_redirection end }
{
    match end {
        End::Stored {
            status,
            received,
            ..
        } => received && status.code() < 400,
        End::Taken { .. } => true,
        _ => false,
    }
}

/// The target of this number, if the listing has that many: a target has as its number its place in the list.
pub fn target_at(targets: &[ListedTarget], n: u16) -> Option<ListedTarget>
    ensures { result ≡ slice_get targets.now n }
{
    targets.get(usize::from(n)).copied()
}

fn ended_at(targets: &[ListedTarget], n: u16) -> Option<u32>
    ensures { result ≡ ended_at targets.now n }
{
    arrival_of(target_at(targets, n)?.end)
}

fn is_redirected(targets: &[ListedTarget], n: u16) -> bool
    ensures { result ≡ is_redirected (slice_get targets.now n) }
{
    match target_at(targets, n) {
        None => false,
        Some(target) => is_redirection(target.end),
    }
}

fn is_parent(targets: &[ListedTarget], n: usize, parent: Option<u16>) -> bool
    ensures { IsTrue result ↔ IsParent targets.now n parent }
{
    match parent {
        None => true,
        Some(parent) => usize::from(parent) < n && is_redirected(targets, parent),
    }
}

fn is_before(a: Option<u32>, b: Option<u32>) -> bool
    ensures { IsTrue result ↔ IsBefore a b }
{
    match (a, b) {
        (Some(a), Some(b)) => a < b,
        _ => false,
    }
}

fn is_earlier(a: Option<u32>, b: Option<u32>) -> bool
    ensures { IsTrue result ↔ IsEarlier a b }
{
    match (a, b) {
        (Some(a), Some(b)) => a < b,
        _ => true,
    }
}

/// Whether a line under a parent may stand right behind one under another.
fn follows(targets: &[ListedTarget], before: Option<u16>, parent: Option<u16>) -> bool
    ensures { IsTrue result ↔ Follows targets.now before parent }
{
    match (before, parent) {
        (None, _) => true,
        (Some(_), None) => false,
        (Some(before), Some(parent)) => {
            before == parent || is_before(ended_at(targets, before), ended_at(targets, parent))
        }
    }
}

fn follows_target(
    targets: &[ListedTarget],
    before: Option<ListedTarget>,
    parent: Option<u16>,
) -> bool
    ensures { IsTrue result ↔ FollowsTarget targets.now before parent }
{
    match before {
        None => true,
        Some(before) => follows(targets, before.parent, parent),
    }
}

/// Whether q does not rise from one line to the next under the same parent.
fn falls_to(before: Option<ListedTarget>, target: &ListedTarget) -> bool
    ensures { IsTrue result ↔ FallsTo before target.now }
{
    match before {
        None => true,
        Some(before) => before.parent != target.parent || target.q <= before.q,
    }
}

fn line_before(targets: &[ListedTarget], n: usize) -> Option<ListedTarget>
    ensures { result ≡ line_before targets.now n }
{
    if n == 0 {
        None
    } else {
        targets.get(n - 1).copied()
    }
}

/// When the parent was redirected.
fn parent_ended_at(targets: &[ListedTarget], parent: Option<u16>) -> Option<u32>
    ensures { result ≡ option_and_then (ended_at targets.now) parent }
{
    ended_at(targets, parent?)
}

/// Whether a line under this parent has so many lines above it at most.
fn is_shallow(targets: &[ListedTarget], parent: Option<u16>, most: u16) -> bool
    ensures { IsTrue result ↔ IsShallow targets.now parent most }
{
    match parent {
        None => true,
        Some(parent) => match target_at(targets, parent) {
            Some(target) if most > 0 => is_shallow(targets, target.parent, most - 1),
            _ => false,
        },
    }
}

/// Whether the line has its number, and keeps the rules that its parents and the line before it decide.
fn is_near(rules: &Rules, targets: &[ListedTarget], n: usize, target: &ListedTarget) -> bool
    ensures { IsTrue result ↔ IsNear rules.now.depth targets.now n target.now }
{
    usize::from(target.number) == n
        && is_parent(targets, n, target.parent)
        && follows_target(targets, line_before(targets, n), target.parent)
        && falls_to(line_before(targets, n), target)
        && is_earlier(
            parent_ended_at(targets, target.parent),
            arrival_of(target.end),
        )
        && is_shallow(targets, target.parent, rules.depth())
}

/// Notes an arrival, and answers whether it is new.
fn note<A: Allocator + Clone>(
    arrivals: &mut BTreeSet<u32, A>,
    arrival: Option<u32>,
) -> Result<bool, AllocError>
    ensures { IfOk result (λ fresh. Notes arrivals.old arrivals.new arrival fresh) }
{
    match arrival {
        None => Ok(true),
        Some(arrival) => Ok(arrivals.insert(arrival)?),
    }
}

/// The first line that breaks a rule with the lines before it.
///
/// # Errors
///
/// Only where the allocator refuses.
pub fn first_misplaced<A: Allocator + Clone>(
    alloc: A,
    rules: &Rules,
    targets: &[ListedTarget],
) -> Result<Option<usize>, AllocError>
    ensures { IfOk result (IsFirstToFail (IsPlaced rules.now.depth targets.now) (length targets.now)) }
{
    let mut arrivals = BTreeSet::new(alloc);
    let mut n = 0;
    while n < targets.len() {
        let target = targets[n];
        if !is_near(rules, targets, n, &target) {
            return Ok(Some(n));
        }
        if !note(&mut arrivals, arrival_of(target.end))? {
            return Ok(Some(n));
        }
        n += 1;
    }
    Ok(None)
}
