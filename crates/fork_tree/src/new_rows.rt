//! New rows, before they come into a tree.
ghost use Rattle.std.specs.Prelude.{◌≡◌, ◌≤◌, ◌+◌, IfOk, length};
ghost use Rattle.fork_model.specs.Table.{most_targets};
ghost use Rattle.fork_tree.specs.NewRows.{new_rows_of};

use crate::new_row::NewRow;
use crate::node::{Level, branches};
use crate::place::TreeRoom;
use std::alloc::{AllocError, Allocator, Global};
use std::marker::Model;

/// Rows that wait, numbered from `first` on, in groups of equal q: the contacts of a redirected branch, say, before
/// they stand below it (RFC 3261 sections 16.5 and 16.6).
#[derive(Drop)]
pub struct NewRows<A: Allocator = Global> {
    pub(crate) first: u16,
    pub(crate) level: Level<A>,
    pub(crate) new_rows: Vec<NewRow, A>,
    /// Room for all rows of the tree that they come into.
    pub(crate) room: TreeRoom<A>,
}

impl<A: Allocator> Model for NewRows<A> {
    ghost use Rattle.std.specs.Prelude.{length};
    ghost use Rattle.fork_tree.specs.NewRows.{Waiting, AreNewRows};
    ghost use Rattle.fork_tree.specs.Rooms.{HasRoomFor};

    ghost Value = { Waiting };

    ghost view = { λ l. record { first = l.first; new_rows = l.new_rows.items } };

    ghost invariant = { λ l. record {
      added : AreNewRows l.first l.new_rows.items l.level;
      room : HasRoomFor l.room l.first (length l.new_rows.items);
    } };
}

impl<A: Allocator + Clone> NewRows<A> {
    /// Rows of these q, in thousandths, all of which wait: those of one q that stand together are a group, so that of
    /// q that never rise each group has one of its own, and the groups fall. They bring the room that a tree with them
    /// needs. The only error is want of memory.
    pub fn idle(alloc: A, first: u16, qs: &[u16]) -> Result<NewRows<A>, AllocError>
        requires few { first + length qs.now ≤ most_targets }
        ensures { IfOk result (λ added. added ≡ record { first = first; new_rows = new_rows_of qs.now }) }
    {
        let count = qs.len() as u16;
        let rows = if count > 0 { first + count + 1 } else { 0 };
        let room = TreeRoom::of(&alloc, rows)?;
        let (level, new_rows) = branches(&alloc, first, qs)?;
        Ok(NewRows {
            first,
            level,
            new_rows,
            room,
        })
    }
}
