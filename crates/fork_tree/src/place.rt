//! Where each number stands.
ghost use Rattle.std.specs.Prelude.{◌≡◌, ◌⊎◌, ◌++◌, ◌<◌, ◌≤◌, ◌+◌, ◌*◌, [], IfOk, Some, length, slice_get, vec_len, vec_capacity};
ghost use Rattle.fork_tree.specs.Places.{path_of, AreOlder};
ghost use Rattle.fork_tree.specs.Rooms.{HasRoom};

use std::alloc::{AllocError, Allocator, Global};

/// Where a row stands: under which row, in which group there, at which place in it.
#[derive(Clone, Copy, PartialEq, Eq, Debug)]
pub(crate) struct NodePlace {
    pub(crate) parent: Option<u16>,
    pub(crate) group: u16,
    pub(crate) place: u16,
}

/// Empty lists with room for what is kept of rows by their numbers.
#[derive(Drop)]
pub(crate) struct TreeRoom<A: Allocator = Global> {
    /// Where each row stands.
    pub(crate) places: Vec<NodePlace, A>,
    /// The path to a row, while it changes.
    pub(crate) path: Vec<u16, A>,
    /// The rows from which the search for a group that may start sets out.
    pub(crate) recent: Vec<Option<u16>, A>,
}

impl<A: Allocator + Clone> TreeRoom<A> {
    /// Room for `rows` rows, the top counted as one.
    pub(crate) fn of(alloc: &A, rows: u16) -> Result<TreeRoom<A>, AllocError>
        ensures { IfOk result (λ room. HasRoom room rows) }
    {
        let rows = rows as usize;
        Ok(TreeRoom {
            places: Vec::with_capacity(alloc.clone()?, rows)?,
            path: Vec::with_capacity(alloc.clone()?, 2 * rows)?,
            recent: Vec::with_capacity(alloc.clone()?, rows)?,
        })
    }
}

/// Makes room for `count` items in all: in their own list, where it has that room, or else in `room`, which is empty
/// and takes the items over.
pub(crate) fn make_room<T: Copy, A: Allocator>(
    items: &mut Vec<T, A>,
    mut room: Vec<T, A>,
    count: usize,
)
    requires empty { room.items ≡ [] }
    requires enough { (count ≤ vec_capacity items.old) ⊎ (count ≤ vec_capacity room) }
    requires fits { vec_len items.old ≤ count }
    ensures items { items.new.items ≡ items.old.items }
    ensures room { count ≤ vec_capacity items.new }
{
    if count <= items.capacity() {
        return;
    }
    for i in 0..items.len() {
        room.push_reserved(items[i]);
    }
    *items = room;
}

/// Adds the path from the top to row n: group, place, group, place ..
pub(crate) fn trace<A: Allocator>(places: &[NodePlace], n: u16, path: &mut Vec<u16, A>)
    requires known { n < length places.now }
    requires older { AreOlder places.now }
    requires room { vec_len path.old + 2 * n + 2 ≤ vec_capacity path.old }
    ensures items { path.new.items ≡ path.old.items ++ path_of places.now n }
    ensures len { vec_len path.new ≤ vec_len path.old + 2 * n + 2 }
    ensures capacity { vec_capacity path.new ≡ vec_capacity path.old }
{
    let place = node_place(places, n);
    if let Some(m) = place.parent {
        trace(places, m, path);
    }
    path.push_reserved(place.group);
    path.push_reserved(place.place);
}

/// Where row n stands.
pub(crate) fn node_place(places: &[NodePlace], n: u16) -> NodePlace
    requires { n < length places.now }
    ensures { slice_get places.now n ≡ Some result }
{
    places[n as usize]
}
