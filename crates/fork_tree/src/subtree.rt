//! A row with all that lie below it.
ghost use Rattle.std.specs.Prelude.{◌≡◌, ◌<◌, length};
ghost use Rattle.std.specs.Option.{option_copied};
ghost use Rattle.fork_tree.specs.Below.{IsBestOf, IsNodeAt};
ghost use Rattle.fork_tree.specs.inner.Below.{under};
ghost use Rattle.fork_tree.specs.Summary.{open_of};
ghost use Rattle.fork_tree.specs.Places.{path_of, AreOlder, IsPlaced};

use crate::node::{Level, Node};
use crate::place::{NodePlace, node_place};
use crate::summary::BestRef;
use crate::tree::ForkTree;
use std::alloc::Allocator;

impl<A: Allocator> ForkTree<A> {
    /// Row n with all that lie below it, whose best stored answer and count of those not ended it has; None where
    /// there is no row n.
    pub fn node(&self, n: u16) -> Option<&Node<A>>
        ensures { IsNodeAt self.now n (option_copied result) }
    {
        if n as usize >= self.places.len() {
            return None;
        }
        Some(node_of(&self.root, &self.places, n))
    }
}

impl<A: Allocator> Node<A> {
    /// The stored answer, of this branch or of one below it, that none of them ranks before (RFC 3261 section 16.7 step 6);
    /// None where nothing is stored there.
    pub fn best(&self) -> Option<BestRef>
        ensures { IsBestOf self.now result }
    {
        self.summary.best()
    }

    /// How many of this branch and those below it have not ended.
    pub fn open_count(&self) -> u16
        ensures { result ≡ open_of self.now }
    {
        self.summary.open_count
    }
}

/// The node of row n, by its chain of parents.
pub(crate) fn node_of<'a, A: Allocator>(
    root: &'a Level<A>,
    places: &[NodePlace],
    n: u16,
) -> &'a Node<A>
    requires known { n < length places.now }
    requires older { AreOlder places.now }
    requires placed { IsPlaced places.now root.now }
    ensures { result.now ≡ under (path_of places.now n) root.now }
{
    let place = node_place(places, n);
    match place.parent {
        Some(m) => node_of(root, places, m).child(place.group, place.place),
        None => root.child(place.group, place.place),
    }
}
