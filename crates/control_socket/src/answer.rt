//! What is left to be written to a client of the control socket.
ghost use Rattle.std.specs.Prelude.{◌≡◌, ◌↔◌, ◌++◌, List, ℕ, [], IsTrue, drop};

use std::alloc::Global;
use std::marker::Model;

/// What is left to be written to a client: of a text that is always the same, and behind it of one that was made for it.
#[derive(Drop)]
pub struct ClientAnswer {
    front: &'static [u8],
    text: Vec<u8>,
    /// How many bytes of both are written.
    written: usize,
}

impl Model for ClientAnswer {
    ghost use Rattle.std.specs.Prelude.{ℕ, ◌++◌, List, drop};

    ghost Value = { List ℕ };

    ghost view = { λ a. drop a.written (a.front.now ++ a.text.items) };
}

/// The bytes behind the first ones, so many of them.
fn behind_first(bytes: &[u8], count: usize) -> &[u8]
    ensures { result.now ≡ drop count bytes.now }
{
    bytes.get(count..).unwrap_or(b"")
}

impl ClientAnswer {
    /// An answer that is always the same.
    pub fn fixed(alloc: Global, front: &'static [u8]) -> ClientAnswer
        ensures { result ≡ front.now }
    {
        ClientAnswer::new(front, Vec::new(alloc))
    }

    /// An answer that begins with a text that is always the same.
    pub fn new(front: &'static [u8], text: Vec<u8>) -> ClientAnswer
        ensures { result ≡ front.now ++ text.items }
    {
        ClientAnswer {
            front,
            text,
            written: 0,
        }
    }

    /// The next bytes to be written; none where all are written.
    pub fn next(&self) -> &[u8]
        ensures front { (rest : List ℕ) × (self.now ≡ result.now ++ rest) }
        ensures last { result.now ≡ [] → self.now ≡ [] }
    {
        if self.written < self.front.len() {
            behind_first(self.front, self.written)
        } else {
            behind_first(self.text.as_slice(), self.written - self.front.len())
        }
    }

    /// So many bytes were written of what was left.
    #[tactic(auto, using(crate::proofs::Parts::drop_capped))]
    pub fn advance(&mut self, count: usize)
        ensures { self.new ≡ drop count self.old }
    {
        let all = self.front.len() + self.text.len();
        self.written = self.written.saturating_add(count).min(all);
    }

    /// Whether all is written.
    pub fn is_written(&self) -> bool
        ensures { IsTrue result ↔ (self.now ≡ []) }
    {
        self.next().is_empty()
    }
}
