//! The whole tree.
ghost use Rattle.std.specs.Prelude.{◌≡◌, ◌≤◌, ◌+◌, ◌*◌, ◌++◌, true, false, Some, None, IsTrue, IfOk, length, map, slice_get, vec_len, vec_capacity};
ghost use Rattle.std.specs.Option.{option_map};
ghost use Rattle.fork_model.specs.Table as spec;
ghost use Rattle.fork_model.specs.Table.{most_targets, is_row, is_idle, is_trying, is_open};
ghost use Rattle.fork_model.specs.Step.{with_state};
ghost use Rattle.fork_tree.specs.States.{plain_state, has_ended};
ghost use Rattle.fork_tree.specs.declared.row.State.TheVariants.{Ended};
ghost use Rattle.fork_tree.specs.NewRows.{new_rows_of, waiting_row};
ghost use Rattle.fork_tree.specs.inner.NewRows.{place_in};
ghost use Rattle.fork_tree.specs.Closing.{closed_row};
ghost use Rattle.fork_tree.specs.Below.{parent_of};
ghost use Rattle.fork_tree.specs.Tree.{IsBest, open_rows, row_ref, is_uncancelled};
ghost use Rattle.fork_tree.specs.inner.Tree.{is_unended};

use crate::new_row::NewRow;
use crate::new_rows::NewRows;
use crate::node::{Level, branches};
use crate::place::{NodePlace, TreeRoom, make_room, node_place, trace};
use crate::row::{End, RowRef, State};
use crate::subtree::node_of;
use crate::summary::{BestRef, BranchState, Summary};
use fork_rank::Rules;
use std::alloc::{AllocError, Allocator, Global};
use std::marker::Model;

/// The branches of a fork by number, and as a tree in which each subtree has its best stored answer and its count of
/// branches that have not ended (RFC 3261 sections 16.5 to 16.7).
#[derive(Drop)]
pub struct ForkTree<A: Allocator = Global> {
    rules: Rules,
    pub(crate) root: Level<A>,
    pub(crate) places: Vec<NodePlace, A>,
    path: Vec<u16, A>,
    summary: Summary,
    /// Rows that ended: each group that may start stands below one of these, beside it, or beside a row above it. None
    /// is the top.
    pub(crate) recent: Vec<Option<u16>, A>,
}

impl<A: Allocator> Model for ForkTree<A> {
    ghost use Rattle.std.specs.Prelude.{◌≡◌, ◌≤◌, ◌*◌, ◌+◌, length, vec_capacity};
    ghost use Rattle.fork_model.specs.Table.{most_targets};
    ghost use Rattle.fork_tree.specs.Places.{rows_of};
    ghost use Rattle.fork_tree.specs.Listed.{IsTree};
    ghost use Rattle.fork_tree.specs.Tree.{Tree};
    ghost use Rattle.fork_tree.specs.Places.{AreTogether};
    ghost use Rattle.fork_tree.specs.Search.{AreKnown, AreMet};

    ghost Value = { Tree };

    ghost view = { λ t. record { rules = t.rules; rows = rows_of t.places.items t.root } };

    ghost invariant = { λ t. record {
      tree : IsTree t.rules t.places.items t.root t.summary;
      together : AreTogether t.places.items;
      places_room : length t.places.items ≤ vec_capacity t.places;
      path_room : 2 * length t.places.items ≤ vec_capacity t.path;
      recent_room : length t.places.items + 1 ≤ vec_capacity t.recent;
      recent_few : length t.recent.items + t.summary.open_count ≤ length t.places.items + 1;
      known : AreKnown (length t.places.items) t.recent.items;
      met : AreMet (rows_of t.places.items t.root) t.recent.items;
    } };
}

impl<A: Allocator + Clone> ForkTree<A> {
    /// The tree of the initial targets of these q, in thousandths: rows that all wait, those of one q that stand
    /// together being a group. The only error is want of memory.
    pub fn new(alloc: A, rules: Rules, qs: &[u16]) -> Result<ForkTree<A>, AllocError>
        requires few { length qs.now ≤ most_targets }
        ensures { IfOk result (λ tree. tree ≡ record { rules = rules; rows = map (waiting_row None) (new_rows_of qs.now) }) }
    {
        let TreeRoom {
            mut places,
            path,
            mut recent,
        } = TreeRoom::of(&alloc, qs.len() as u16 + 1)?;
        recent.push_reserved(None);
        let (root, new_rows) = branches(&alloc, 0, qs)?;
        add_places(&mut places, None, &new_rows);
        let summary = Summary::waiting(qs.len() as u16);
        Ok(ForkTree {
            rules,
            root,
            places,
            path,
            summary,
            recent,
        })
    }
}

impl<A: Allocator> ForkTree<A> {
    /// The rules that the tree was made with.
    pub fn rules(&self) -> Rules
        ensures { result ≡ self.now.rules }
    {
        self.rules
    }

    /// How many rows there are.
    pub fn count(&self) -> u16
        ensures { result ≡ length self.now.rows }
    {
        self.places.len() as u16
    }

    /// Row n; None where there is none.
    pub fn row(&self, n: u16) -> Option<RowRef>
        ensures { result ≡ option_map (row_ref n) (slice_get self.now.rows n) }
    {
        if n as usize >= self.places.len() {
            return None;
        }
        let place = node_place(&self.places, n);
        let node = node_of(&self.root, &self.places, n);
        Some(RowRef {
            no: n,
            parent: place.parent,
            group: place.group,
            q: node.q(),
            state: node.state(),
        })
    }

    /// The number of the row that row n stands under; None where row n is an initial target, or there is no row n. The
    /// look-up takes no longer in a deeper tree.
    pub fn parent(&self, n: u16) -> Option<u16>
        ensures { result ≡ parent_of (slice_get self.now.rows n) }
    {
        if n as usize >= self.places.len() {
            return None;
        }
        node_place(&self.places, n).parent
    }

    /// The stored answer that none ranks before (RFC 3261 section 16.7 step 6); None where nothing is stored.
    pub fn best(&self) -> Option<BestRef>
        ensures { IsBest self.now.rules self.now.rows result }
    {
        self.summary.best()
    }

    /// How many rows have not ended.
    pub fn open_count(&self) -> u16
        ensures { result ≡ open_rows self.now.rows }
    {
        self.summary.open_count
    }

    /// Notes that row n, which waits, is tried.
    pub fn start(&mut self, n: u16)
        requires { IsTrue (is_row is_idle (slice_get self.old.rows n)) }
        ensures { self.new ≡ record self.old { rows = with_state self.old.rows n spec.Trying } }
    {
        self.set(n, State::Trying);
    }

    /// Notes that row n, which was tried, has rung.
    pub fn ring(&mut self, n: u16)
        requires { IsTrue (is_row is_trying (slice_get self.old.rows n)) }
        ensures { self.new ≡ record self.old { rows = with_state self.old.rows n (spec.Rung false) } }
    {
        self.set(n, State::Rung { cancelled: false });
    }

    /// Notes that a CANCEL was sent to row n, which has rung (RFC 3261 section 9.1).
    pub fn mark_cancel(&mut self, n: u16)
        requires { IsTrue (is_row is_uncancelled (slice_get self.old.rows n)) }
        ensures { self.new ≡ record self.old { rows = with_state self.old.rows n (spec.Rung true) } }
    {
        self.set(n, State::Rung { cancelled: true });
    }

    /// Ends row n, which was tried, as `end` says, and puts these rows, which wait, below it.
    pub fn end(&mut self, n: u16, end: End, below: NewRows<A>)
        requires there { IsTrue (is_row is_open (slice_get self.old.rows n)) }
        requires next { below.first ≡ length self.old.rows }
        ensures { self.new ≡ record self.old {
          rows = with_state self.old.rows n (plain_state (Ended end)) ++ map (waiting_row (Some n)) below.new_rows;
        } }
    {
        let standing = BranchState::of(n, State::Ended(end), &self.rules);
        let answer = standing.answer;
        let NewRows {
            level,
            new_rows,
            room,
            ..
        } = below;
        let opens = new_rows.len() as u16;
        let rows = self.places.len() + new_rows.len();
        self.path.clear();
        make_room(&mut self.places, room.places, rows);
        make_room(&mut self.path, room.path, 2 * rows);
        make_room(&mut self.recent, room.recent, rows + 1);
        trace(&self.places, n, &mut self.path);
        add_places(&mut self.places, Some(n), &new_rows);
        self.root.end(&self.path, standing, level, opens);
        self.summary = self.summary.after(answer, opens);
        self.recent.push_reserved(Some(n));
    }

    /// Closes the fork: no row that waits is ever tried.
    pub fn close(&mut self)
        ensures { self.new ≡ record self.old { rows = map closed_row self.old.rows } }
    {
        let ended = self.root.close();
        self.summary.open_count -= ended;
        self.recent.clear();
    }

    /// Brings row n, which has not ended, into another state in which it has not ended, and doesn't wait.
    pub(crate) fn set(&mut self, n: u16, state: State)
        requires there { IsTrue (is_row is_unended (slice_get self.old.rows n)) }
        requires waits { has_ended state ≡ false }
        requires busy { is_idle (plain_state state) ≡ false }
        ensures { self.new ≡ record self.old { rows = with_state self.old.rows n (plain_state state) } }
    {
        self.path.clear();
        trace(&self.places, n, &mut self.path);
        self.root.set(&self.path, state);
    }
}

/// Adds the place of each new row under this row, or at the top.
fn add_places<A: Allocator>(
    places: &mut Vec<NodePlace, A>,
    parent: Option<u16>,
    new_rows: &[NewRow],
)
    requires room { vec_len places.old + length new_rows.now ≤ vec_capacity places.old }
    ensures items { places.new.items ≡ places.old.items ++ map (place_in parent) new_rows.now }
    ensures capacity { vec_capacity places.new ≡ vec_capacity places.old }
{
    for i in 0..new_rows.len() {
        places.push_reserved(NodePlace {
            parent,
            group: new_rows[i].group,
            place: new_rows[i].place,
        });
    }
}
