//! What a user has, as far as a table has to know.
ghost use Rattle.std.specs.Prelude.{◌≡◌, [], ℕ, length};
ghost use Rattle.binding_table.specs.Nothing.{nothing};

use bindings::UserBindings;
use std::alloc::Allocator;

/// What a user has. Of it no more is known to a table than how many there are.
pub trait Holding<A: Allocator> {
    ghost none: { Self };

    ghost count: { Self → ℕ };

    /// What a user has of whom nothing is kept.
    fn none(alloc: A) -> Self
        ensures { result ≡ none };

    /// How many there are, those among them that have ended.
    fn count(&self) -> usize
        ensures { result ≡ count self.now };

    ghost empty: { (x : Self) → count x ≡ 0 → x ≡ none };
}

impl<A: Allocator> Holding<A> for UserBindings<A> {
    ghost none = { [] };

    ghost count = { length };

    ghost empty = { nothing };

    fn none(alloc: A) -> UserBindings<A> {
        UserBindings::new(alloc)
    }

    fn count(&self) -> usize {
        self.len()
    }
}
