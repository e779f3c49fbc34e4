//! The answer that goes up, by the tree of a listing's branches (RFC 3261 section 16.7 step 6).
ghost use Rattle.std.specs.Prelude.{◌≡◌, ◌≤◌, IfOk, length};
ghost use Rattle.fork_model.specs.Table.{most_targets};
ghost use Rattle.fork_tree.specs.Tree.{IsBest};
ghost use Rattle.fork_listing.specs.First.{HoldsBelow};
ghost use Rattle.fork_listing.specs.Targets.{IsPlaced};
ghost use Rattle.fork_listing.specs.Ranks.{rows_of};
ghost use Rattle.fork_listing.specs.inner.TreeRows.{group_beside, group_behind, row_behind, tree_rows};

use crate::line::ListedTarget;
use fork_rank::Rules;
use fork_tree::{BestRef, ForkTree, RowRef, State};
use std::alloc::{AllocError, Allocator};

/// The group of a row of this q beside another under the same parent: rows of one q are tried together.
fn group_beside(before: &RowRef, q: u16) -> u16
    ensures { result ≡ group_beside before.now q }
{
    if before.q == q {
        before.group
    } else {
        before.group.saturating_add(1)
    }
}

/// The group of the branch whose line stands behind that of a row.
fn group_behind(before: Option<RowRef>, target: &ListedTarget) -> u16
    ensures { result ≡ group_behind before target.now }
{
    match before {
        None => 0,
        Some(before) => {
            if before.parent == target.parent {
                group_beside(&before, target.q)
            } else {
                0
            }
        }
    }
}

fn row_behind(before: Option<RowRef>, target: &ListedTarget) -> RowRef
    ensures { result ≡ row_behind before target.now }
{
    RowRef {
        no: target.number,
        parent: target.parent,
        group: group_behind(before, target),
        q: target.q,
        state: State::Ended(target.end),
    }
}

/// A copy of the row.
fn row_at(row: &RowRef) -> RowRef
    ensures { result ≡ row.now }
{
    *row
}

/// The branches as rows of a tree.
fn tree_rows<A: Allocator>(alloc: A, targets: &[ListedTarget]) -> Result<Vec<RowRef, A>, AllocError>
    ensures { IfOk result (λ rows. rows.items ≡ tree_rows targets.now) }
{
    let mut rows = Vec::with_capacity(alloc, targets.len())?;
    let mut before = None;
    for target in targets {
        let row = row_behind(before, target);
        before = Some(row_at(&row));
        rows.push(row)?;
    }
    Ok(rows)
}

/// The stored answer that none ranks before, of branches that stand as they may. Their tree is dropped before the
/// return.
///
/// # Errors
///
/// Only where the allocator refuses.
pub fn best_stored<A: Allocator + Clone>(
    alloc: A,
    rules: Rules,
    targets: &[ListedTarget],
) -> Result<Option<BestRef>, AllocError>
    requires few { length targets.now ≤ most_targets }
    requires placed { HoldsBelow (IsPlaced rules.depth targets.now) (length targets.now) }
    ensures { IfOk result (IsBest rules (rows_of targets.now)) }
{
    let rows = tree_rows(alloc.clone()?, targets)?;
    let tree = ForkTree::build(alloc, rules, &rows)?;
    Ok(tree.best())
}
