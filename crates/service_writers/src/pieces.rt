//! What is written to the journal at once.
ghost use Rattle.std.specs.Prelude.{◌≡◌, ◌++◌};

/// How many bytes a pipe takes whole or not at all (`PIPE_BUF` of Linux, pipe(7)).
const MOST_BYTES: usize = 4_096;

/// What stands between two blocks: the end of a line, and the word that each block begins with.
const BETWEEN: &[u8] = b"\ncall ";

/// Whole blocks of a text, how many they are, and what is behind them.
#[derive(Clone, Copy)]
pub(crate) struct Piece<'a> {
    pub(crate) text: &'a [u8],
    pub(crate) blocks: u64,
    pub(crate) rest: &'a [u8],
}

/// The block that a text begins with, and what is behind it.
fn cut_block(text: &[u8]) -> (&[u8], &[u8])
    ensures { text.now ≡ result.0.now ++ result.1.now }
{
    let between = text
        .windows(BETWEEN.len())
        .position(|bytes| bytes == BETWEEN);
    match between {
        Some(at) => text
            .split_at_checked(at.saturating_add(1))
            .unwrap_or((text, b"")),
        None => (text, b""),
    }
}

/// The first blocks of a text that a pipe takes whole or not at all: as many as have 4,096 bytes together, and one at least.
pub(crate) fn first_piece(text: &[u8]) -> Piece<'_>
    ensures { text.now ≡ result.text.now ++ result.rest.now }
{
    let (first, mut rest) = cut_block(text);
    let mut len = first.len();
    let mut blocks = 1u64;
    for _ in 0..MOST_BYTES {
        let (next, behind) = cut_block(rest);
        if next.is_empty() || next.len() > MOST_BYTES.saturating_sub(len) {
            break;
        }
        len = len.saturating_add(next.len());
        blocks = blocks.saturating_add(1);
        rest = behind;
    }
    let (text, rest) = text.split_at_checked(len).unwrap_or((text, b""));
    Piece { text, blocks, rest }
}
