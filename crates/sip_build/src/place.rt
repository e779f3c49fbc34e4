//! Bytes written at a place in a text that has room for them.

ghost use Rattle.std.specs.Prelude.{◌+◌, ◌≤◌, ◌∷◌, [], length};
ghost use Rattle.sip_text.specs.Text.{header_text};
ghost use Rattle.sip_lex.specs.Texts.{pieces_text};
ghost use Rattle.sip_via.specs.Edits.{line};
ghost use Rattle.sip_build.specs.inner.Placed.{Placed};

/// Writes the bytes from that place on, and says the place behind them.
#[inline(always)]
pub(crate) fn place(out: &mut [u8], at: usize, text: &[u8]) -> usize
    requires { at + length text.now ≤ length out.old }
    ensures { Placed out.old out.new at text.now result }
{
    let end = at + text.len();
    out[at..end].copy_from_slice(text);
    end
}

/// Writes a byte at that place.
#[inline(always)]
pub(crate) fn place_one(out: &mut [u8], at: usize, byte: u8) -> usize
    requires { at + 1 ≤ length out.old }
    ensures { Placed out.old out.new at (byte ∷ []) result }
{
    out[at] = byte;
    at + 1
}

/// Writes two bytes from that place on.
#[inline(always)]
pub(crate) fn place_two(out: &mut [u8], at: usize, first: u8, second: u8) -> usize
    requires { at + 2 ≤ length out.old }
    ensures { Placed out.old out.new at (first ∷ second ∷ []) result }
{
    out[at] = first;
    out[at + 1] = second;
    at + 2
}

/// Writes a header line from that place on.
#[inline(always)]
pub(crate) fn place_line(out: &mut [u8], at: usize, name: &[u8], value: &[u8]) -> usize
    requires { at + length (header_text (line name.now value.now)) ≤ length out.old }
    ensures { Placed out.old out.new at (header_text (line name.now value.now)) result }
{
    let at = place(out, at, name);
    let at = place_two(out, at, b':', b' ');
    let at = place(out, at, value);
    place_two(out, at, b'\r', b'\n')
}

/// Writes the pieces from that place on.
pub(crate) fn place_pieces(out: &mut [u8], at: usize, pieces: &[&[u8]]) -> usize
    requires { at + length (pieces_text pieces.now) ≤ length out.old }
    ensures { Placed out.old out.new at (pieces_text pieces.now) result }
{
    let mut end = at;
    for piece in pieces {
        end = place(out, end, piece);
    }
    end
}
