//! Texts in pieces.

ghost use Rattle.std.specs.Prelude.{◌≡◌, ◌+◌, ◌++◌, ◌≤◌, ◌<◌, length, IsOk, OnErr, OnOk, take, vec_capacity, vec_len};
ghost use Rattle.sip_lex.specs.Texts.{pieces_text, saturated};

use crate::growth::whole_or_nothing;
use std::alloc::{AllocError, Allocator};

fn append_each<B: Allocator>(out: &mut Vec<u8, B>, pieces: &[&[u8]]) -> Result<(), AllocError>
    ensures ok { OnOk result (out.new.items ≡ out.old.items ++ pieces_text pieces.now) }
    ensures begins { take (vec_len out.old) out.new.items ≡ out.old.items }
    ensures full { OnErr result
        (vec_capacity out.old < vec_len out.old + length (pieces_text pieces.now)) }
    ensures capacity { vec_capacity out.old ≤ vec_capacity out.new }
{
    for piece in pieces {
        out.extend_from_slice(piece)?;
    }
    Ok(())
}

/// How many bytes the pieces are.
pub fn pieces_len(pieces: &[&[u8]]) -> usize
    ensures { result ≡ saturated (length (pieces_text pieces.now)) }
{
    let mut len = 0usize;
    for piece in pieces {
        len = len.saturating_add(piece.len());
    }
    len
}

/// Appends texts one behind the other, or nothing; `out` grows once at most.
///
/// # Errors
///
/// Only where the growth of `out` is refused; `out` is then unchanged.
pub fn append_pieces<B: Allocator>(out: &mut Vec<u8, B>, pieces: &[&[u8]]) -> Result<(), AllocError>
    ensures ok { OnOk result (out.new.items ≡ out.old.items ++ pieces_text pieces.now) }
    ensures err { OnErr result (out.new.items ≡ out.old.items) }
    ensures room { vec_len out.old + length (pieces_text pieces.now) ≤ vec_capacity out.old → IsOk result }
    ensures full { OnErr result
        (vec_capacity out.old < vec_len out.old + length (pieces_text pieces.now)) }
    ensures capacity { vec_capacity out.old ≤ vec_capacity out.new }
{
    out.reserve(pieces_len(pieces))?;
    let before = out.len();
    let done = append_each(out, pieces);
    whole_or_nothing(out, before, done)
}
