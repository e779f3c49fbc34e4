//! The fork that a request opens with (RFC 3261 section 16.6).
ghost use Rattle.std.specs.Prelude.{◌≡◌, ◌≤◌, ◌↔◌, IsTrue, length, nat_eq, IfOk, OnOk};
ghost use Rattle.std.specs.List.{filter_map, list_any, AllByRecursion};
ghost use Rattle.std.specs.Cmp.Lexicographic.{pointwise};
ghost use Rattle.fork_model.specs.Table.{most_targets};
ghost use Rattle.fork_model.specs.History as history;
ghost use Rattle.fork_model.specs.Range.{IsTargetInRange};
ghost use Rattle.fork_rank.specs.KindView.{kind_of};
ghost use Rattle.context_values.specs.RowExtras.{target_extras};
ghost use Rattle.fork_context.specs.inner.Opening.{waiting_table};
ghost use Rattle.fork_context.specs.Refusals.{HasTwice};

use crate::fork::Fork;
use context_values::{ExtrasTable, Target, numbered, qs_in_order, target_extras, target_qs};
use fork_rank::{Kind, Rules};
use fork_tree::ForkTree;
use std::alloc::{AllocError, Allocator};

/// Whether two of the targets have one key.
pub(crate) fn has_twice<A: Allocator>(targets: &[Target<A>]) -> bool
    ensures { IsTrue result ↔ HasTwice targets.now }
{
    for n in 0..targets.len() {
        if has_key(&targets[..n], targets[n].key()) {
            return true;
        }
    }
    false
}

fn has_key<A: Allocator>(targets: &[Target<A>], key: &[u8]) -> bool
    ensures { result ≡ list_any (λ target. pointwise nat_eq key.now target.key) targets.now }
{
    targets.iter().any(|target| key == target.key())
}

/// The extras of the rows of the targets at these places, to be found by number and by key.
fn extras_by_key<A: Allocator + Clone>(
    alloc: &A,
    targets: &[Target<A>],
    order: &[(u16, u16)],
) -> Result<ExtrasTable<A>, AllocError>
    requires few { length order.now ≤ most_targets }
    ensures { IfOk result (λ extras. extras ≡ filter_map (target_extras targets.now) order.now) }
{
    ExtrasTable::of(alloc, target_extras(alloc, targets, order)?)
}

impl<A: Allocator + Clone> Fork<A> {
    /// The fork of these targets, the first group of which is tried at once; the only error is want of memory.
    pub(crate) fn opening(
        alloc: &A,
        kind: Kind,
        rules: Rules,
        targets: &[Target<A>],
    ) -> Result<Fork<A>, AllocError>
        requires few { length targets.now ≤ most_targets }
        ensures value { IfOk result (λ fork. fork ≡ history.opening (kind_of kind) rules targets.now) }
        ensures range { OnOk result (AllByRecursion IsTargetInRange targets.now) }
    {
        let mut fork = Fork::waiting(alloc, kind, rules, targets)?;
        fork.start_ready();
        Ok(fork)
    }

    /// The fork of these targets, all of which wait.
    fn waiting(
        alloc: &A,
        kind: Kind,
        rules: Rules,
        targets: &[Target<A>],
    ) -> Result<Fork<A>, AllocError>
        requires few { length targets.now ≤ most_targets }
        ensures value { IfOk result (λ fork. fork ≡ waiting_table (kind_of kind) rules targets.now) }
        ensures range { OnOk result (AllByRecursion IsTargetInRange targets.now) }
    {
        let qs = target_qs(alloc, targets)?;
        let order = numbered(alloc, &qs)?;
        let ordered = qs_in_order(alloc, qs, &order)?;
        let tree = ForkTree::new(alloc.clone()?, rules, &ordered)?;
        let extras = extras_by_key(alloc, targets, &order)?;
        Ok(Fork::of(kind, tree, extras))
    }
}
