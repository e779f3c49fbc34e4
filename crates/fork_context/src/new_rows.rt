//! The rows that come below a redirected row (RFC 3261 sections 16.5 to 16.7).
ghost use Rattle.std.specs.Prelude.{◌≡◌, ◌≤◌, ◌+◌, [], length, map, IfOk};
ghost use Rattle.std.specs.List.{filter_map};
ghost use Rattle.fork_model.specs.Groups as groups;
ghost use Rattle.fork_model.specs.Table.{most_targets};
ghost use Rattle.fork_tree.specs.NewRows.{new_rows_of};
ghost use Rattle.context_values.specs.RowExtras.{q_of_pair, contact_qs, row_extras_at};

use context_values::{NewTarget, RowExtras, contact_qs, extras_at, numbered, qs_at};
use fork_tree::NewRows;
use std::alloc::{AllocError, Allocator};

/// No rows; the only error is want of memory.
pub(crate) fn no_rows<A: Allocator + Clone>(alloc: &A, first: u16) -> Result<NewRows<A>, AllocError>
    requires few { first ≤ most_targets }
    ensures { IfOk result (λ added. added ≡ record { first = first; new_rows = [] }) }
{
    NewRows::idle(alloc.clone()?, first, &[])
}

/// The rows of these contacts in the order in which they are tried, numbered from the first on, and the extras of each;
/// the only error is want of memory.
pub(crate) fn rows_below<A: Allocator + Clone>(
    alloc: &A,
    first: u16,
    fresh: &[NewTarget<A>],
) -> Result<(NewRows<A>, Vec<RowExtras<A>, A>), AllocError>
    requires few { first + length fresh.now ≤ most_targets }
    ensures added { IfOk result (λ below. below.0 ≡ record {
      first = first;
      new_rows = new_rows_of (map (q_of_pair (contact_qs fresh.now)) (groups.numbered (contact_qs fresh.now)));
    }) }
    ensures extras { IfOk result (λ below. below.1.items ≡ filter_map (row_extras_at fresh.now) (groups.numbered (contact_qs fresh.now))) }
{
    let qs = contact_qs(alloc, fresh)?;
    let order = numbered(alloc, &qs)?;
    let added = NewRows::idle(alloc.clone()?, first, &qs_at(alloc, &qs, &order)?)?;
    Ok((added, extras_at(alloc, fresh, &order)?))
}
