//! Which group may start, and its start (RFC 3261 section 16.6: the groups of one target set in series, those of a
//! redirected branch before the next group goes on).
ghost use Rattle.std.specs.Prelude.{◌≡◌, ◌<◌, ◌≤◌, ◌-◌, ℕ, false, IfNone, IfSome, Some, length, slice_get, vec_capacity};
ghost use Rattle.fork_model.specs.Table.{Row, most_targets};
ghost use Rattle.fork_model.specs.Waiting.{may_start};
ghost use Rattle.fork_tree.specs.Ready.{IsReady, tried};
ghost use Rattle.fork_tree.specs.Places.{path_of, rows_of};
ghost use Rattle.fork_tree.specs.inner.Below.{under};
ghost use Rattle.fork_tree.specs.Search.{AreKnown, AreMet, IsKnown};
ghost use Rattle.fork_tree.specs.inner.Search.{FindsOnWay, FindsStart, IsShape, OrBelow};

use crate::node::{Level, Node};
use crate::place::{NodePlace, node_place};
use crate::tree::ForkTree;
use std::alloc::Allocator;

impl<A: Allocator> ForkTree<A> {
    /// Starts some group that may start: all its rows are tried. The answer is the number of its first row, and how many
    /// rows it has, which all waited; None where no group may start. A group may start where the row that it stands under
    /// has ended, and all rows of the earlier groups there and all below those (RFC 3261 section 16.6).
    pub fn start_ready(&mut self) -> Option<(u16, u16)>
        ensures none { IfNone result ((self.new ≡ self.old) × ((k : ℕ) (row : Row) → slice_get self.old.rows k ≡ Some row
            → may_start self.old.rows row ≡ false)) }
        ensures some { IfSome result (λ g. IsReady self.old.rows g.0 g.1
            × (self.new ≡ record self.old { rows = tried self.old.rows g.0 g.1 })) }
    {
        match self.find_ready() {
            Some((first, count)) => {
                self.start_group(first, first + count);
                Some((first, count))
            }
            None => None,
        }
    }

    /// Some group that may start: the number of its first row, and how many rows it has.
    fn find_ready(&mut self) -> Option<(u16, u16)>
        ensures same { self.new ≡ self.old }
        ensures found { FindsStart self.old.rows result }
        ensures few { length self.old.rows ≤ most_targets }
    {
        if self.open_count() == 0 {
            return None;
        }
        next_ready(&self.root, &self.places, &mut self.recent)
    }

    /// Notes that the rows of this group, which wait, are tried.
    fn start_group(&mut self, first: u16, end: u16)
        requires { IsReady self.old.rows first (end - first) }
        ensures { self.new ≡ record self.old { rows = tried self.old.rows first (end - first) } }
    {
        for n in first..end {
            self.start(n);
        }
    }
}

/// Some group that may start, by the latest of these rows from which one is found; those after it are dropped.
fn next_ready<A: Allocator>(
    root: &Level<A>,
    places: &[NodePlace],
    recent: &mut Vec<Option<u16>, A>,
) -> Option<(u16, u16)>
    requires shape { IsShape places.now root.now }
    requires known { AreKnown (length places.now) recent.old.items }
    requires met { AreMet (rows_of places.now root.now) recent.old.items }
    ensures found { FindsStart (rows_of places.now root.now) result }
    ensures known { AreKnown (length places.now) recent.new.items }
    ensures met { AreMet (rows_of places.now root.now) recent.new.items }
    ensures fewer { length recent.new.items ≤ length recent.old.items }
    ensures recent_capacity { vec_capacity recent.new ≡ vec_capacity recent.old }
{
    let Some(under) = recent.pop() else {
        return None;
    };
    match ready_on_way(root, places, under) {
        Some(found) => {
            recent.push_reserved(under);
            Some(found)
        }
        None => next_ready(root, places, recent),
    }
}

/// Some group that may start, of those below this row, beside it and beside the rows above it; of those at the top alone
/// where there is no row.
fn ready_on_way<A: Allocator>(
    root: &Level<A>,
    places: &[NodePlace],
    under: Option<u16>,
) -> Option<(u16, u16)>
    requires shape { IsShape places.now root.now }
    requires known { IsKnown (length places.now) under }
    ensures { FindsOnWay (rows_of places.now root.now) under result }
{
    match under {
        Some(n) => ready_down_to(root, places, n).0,
        None => root.ready(),
    }
}

/// The first group that may start on the way down to row n, those right below row n included, and the node of row n.
fn ready_down_to<'a, A: Allocator>(
    root: &'a Level<A>,
    places: &[NodePlace],
    n: u16,
) -> (Option<(u16, u16)>, &'a Node<A>)
    requires shape { IsShape places.now root.now }
    requires known { n < length places.now }
    ensures node { result.1.now ≡ under (path_of places.now n) root.now }
    ensures found { FindsOnWay (rows_of places.now root.now) (Some n) result.0 }
{
    let place = node_place(places, n);
    match place.parent {
        Some(m) => {
            let (found, above) = ready_down_to(root, places, m);
            let node = above.child(place.group, place.place);
            (or_below(found, node), node)
        }
        None => {
            let node = root.child(place.group, place.place);
            (or_below(root.ready(), node), node)
        }
    }
}

/// The group that was found, or where none was, one right below this node.
fn or_below<A: Allocator>(found: Option<(u16, u16)>, node: &Node<A>) -> Option<(u16, u16)>
    ensures { OrBelow found node.now result }
{
    match found {
        Some(group) => Some(group),
        None => node.ready_below(),
    }
}
