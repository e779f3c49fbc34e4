//! Where the requests of the new rows of a table go.
ghost use Rattle.std.specs.Prelude.{◌≡◌, ◌<◌, ◌≤◌, ◌+◌, ◌++◌, true, length, drop, map, slice_get, is_some, Some, vec_len, vec_capacity};
ghost use Rattle.std.specs.List.{filter_map};
ghost use Rattle.std.specs.Option.{option_map};
ghost use Rattle.fork_model.specs.Log.{table_of};
ghost use Rattle.call_caller.specs.NewDestinations.{HaveDestinations, destination_for, destination_in, without};
ghost use Rattle.call_model.specs.Posting.{no_branch};

use call_branch::{Branch, Destination};
use fork_book::Book;
use std::alloc::Allocator;

/// The place of the target or the contact that row n is for, among the targets or contacts that it came with (RFC 3261
/// section 16.5).
pub fn row_place<A: Allocator + Clone>(book: &Book<A>, n: u16) -> usize
    requires there { n < length (table_of book.now).rows }
    ensures { option_map (λ row. row.place) (slice_get (table_of book.now).rows n) ≡ Some result }
{
    match book.context().look(n) {
        Some(view) => view.place,
        None => unreachable!(),
    }
}

/// Takes the destination at this place, which is there no more.
fn take_destination<A: Allocator>(
    destinations: &mut Vec<Option<Destination<A>>, A>,
    place: usize,
) -> Destination<A>
    requires there { is_some (destination_in destinations.old.items place) ≡ true }
    ensures destination { destination_in destinations.old.items place ≡ Some result }
    ensures left { destinations.new.items ≡ without destinations.old.items place }
{
    match destinations[place].take() {
        Some(destination) => destination,
        None => unreachable!(),
    }
}

/// Gives each row from the first one on the destination of the contact at its place; its request was not sent.
pub fn add_rows<A: Allocator + Clone>(
    book: &Book<A>,
    first: u16,
    contacts: Vec<Option<Destination<A>>, A>,
    destinations: &mut Vec<Destination<A>, A>,
    branches: &mut Vec<Option<Branch<A>>, A>,
)
    requires there { HaveDestinations contacts.items (drop first (table_of book.now).rows) }
    requires destinations_room { vec_len destinations.old + length contacts.items ≤ vec_capacity destinations.old }
    requires branches_room { vec_len branches.old + length contacts.items ≤ vec_capacity branches.old }
    ensures destinations { destinations.new.items ≡ destinations.old.items ++ filter_map (destination_for contacts.items) (drop first (table_of book.now).rows) }
    ensures branches { branches.new.items ≡ branches.old.items ++ map no_branch (drop first (table_of book.now).rows) }
{
    let mut left = contacts;
    for n in first..book.context().count() {
        let place = row_place(book, n);
        destinations.push_reserved(take_destination(&mut left, place));
        branches.push_reserved(None);
    }
}
