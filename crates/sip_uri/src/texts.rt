//! What a URI keeps in memory.

ghost use Rattle.std.specs.Prelude.{◌≡◌, ◌≤◌, drop, length, take};

use std::alloc::Allocator;
use std::marker::Model;

/// The text of a URI and its key, one behind the other in one block of memory.
#[derive(Drop)]
pub(crate) struct UriTexts<A: Allocator> {
    bytes: Vec<u8, A>,
    len: usize,
}

impl<A: Allocator> Model for UriTexts<A> {
    ghost use Rattle.std.specs.Prelude.{ℕ, List, ◌≤◌, drop, length, take};

    ghost Value = { List ℕ × List ℕ };

    ghost view = { λ t. (take t.len t.bytes.items, drop t.len t.bytes.items) };

    ghost invariant = { λ t. t.len ≤ length t.bytes.items };
}

impl<A: Allocator> UriTexts<A> {
    /// The text that so many of these bytes are, and the key that the others are.
    pub(crate) fn of(bytes: Vec<u8, A>, len: usize) -> Self
        requires { len ≤ length bytes.items }
        ensures { result ≡ (take len bytes.items, drop len bytes.items) }
    {
        UriTexts { bytes, len }
    }

    /// The text.
    pub(crate) fn text(&self) -> &[u8]
        ensures { result.now ≡ self.now.0 }
    {
        &self.bytes[..self.len]
    }

    /// The key.
    pub(crate) fn key(&self) -> &[u8]
        ensures { result.now ≡ self.now.1 }
    {
        &self.bytes[self.len..]
    }

    /// How many bytes the text and the key have together.
    pub(crate) fn size(&self) -> usize {
        self.bytes.len()
    }
}
