//! Texts that grow piece by piece: in memory, or in a place of a fixed length, which takes none.

ghost use Rattle.std.specs.Prelude.{◌≡◌, ◌++◌, ◌+◌, ◌≤◌, [], length, take};

use crate::space::trim_end;
use std::alloc::{AllocError, Allocator};

/// A text that grows at its end.
pub trait Growing {
    ghost use Rattle.std.specs.Prelude.{◌≡◌, ◌++◌, List, ℕ, OnOk};
    ghost use Rattle.sip_lex.specs.Bytes.{trim_end};

    ghost text: { Self → List ℕ };

    /// Adds a piece; refused where there is no room for it.
    fn add(&mut self, piece: &[u8]) -> Result<(), AllocError>
        ensures { OnOk result (text self.new ≡ text self.old ++ piece.now) };

    /// Takes the space at the end away.
    fn cut_space(&mut self)
        ensures { text self.new ≡ trim_end (text self.old) };
}

impl<A: Allocator> Growing for Vec<u8, A> {
    ghost text = { λ v. v.items };

    fn add(&mut self, piece: &[u8]) -> Result<(), AllocError> {
        self.extend_from_slice(piece)
    }

    fn cut_space(&mut self) {
        let end = trim_end(self).len();
        self.truncate(end);
    }
}

/// How many bytes a short text has at most: a Via line as it is marked is mostly shorter.
const SHORT: usize = 256;

/// A short text.
#[derive(Drop)]
pub struct Short {
    bytes: [u8; SHORT],
    len: usize,
    ghost within: { len ≤ 256 },
}

/// Puts a piece behind so many bytes.
fn put_behind(bytes: &mut [u8], start: usize, piece: &[u8])
    requires { start + length piece.now ≤ length bytes.old }
    ensures { take (start + length piece.now) bytes.new ≡ take start bytes.old ++ piece.now }
{
    bytes[start..start + piece.len()].copy_from_slice(piece);
}

impl Short {
    ghost use Rattle.std.specs.Prelude.{◌≡◌, []};
    ghost use Rattle.sip_lex.specs.Short.{short_text};

    /// The empty one.
    pub fn new() -> Short
        ensures { short_text result ≡ [] }
    {
        Short {
            bytes: [0; SHORT],
            len: 0,
        }
    }

    /// The text.
    pub fn as_slice(&self) -> &[u8]
        ensures { result.now ≡ short_text self.now }
    {
        &self.bytes[..self.len]
    }
}

impl Growing for Short {
    ghost use Rattle.sip_lex.specs.Short.{short_text};

    ghost text = { short_text };

    fn add(&mut self, piece: &[u8]) -> Result<(), AllocError> {
        if piece.len() > SHORT - self.len {
            return Err(AllocError);
        }
        put_behind(&mut self.bytes, self.len, piece);
        self.len += piece.len();
        Ok(())
    }

    fn cut_space(&mut self) {
        self.len = trim_end(self.as_slice()).len();
    }
}
