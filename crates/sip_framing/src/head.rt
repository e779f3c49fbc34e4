//! The lines of a message up to the empty one (RFC 3261 section 7).
ghost use Rattle.std.specs.Prelude.{◌≡◌, ◌≤◌, [], length};
ghost use Rattle.std.specs.Option.{option_copied};
ghost use Rattle.sip_lex.specs.Line.{line_in};
ghost use Rattle.sip_framing.specs.Head.{head_in, ends_within};
ghost use Rattle.sip_framing.specs.Length.{unheard};

use crate::length::{Heard, SaidLength};
use sip_lex::cut_at;

/// What stands at the front of a text.
#[derive(Clone, Copy)]
pub enum FramedHead {
    /// The empty line is not there yet.
    Open,
    /// A line that does not end in CRLF, or that has another CR.
    Broken,
    /// The lines up to the empty one, what they say of the length of the body, and how many bytes stand behind them.
    Ended(SaidLength, usize),
}

/// The line in what stands before an LF.
fn line_in(piece: &[u8]) -> Option<&[u8]>
    ensures { option_copied result ≡ line_in piece.now }
{
    match cut_at(piece, b'\r') {
        (line, Some([])) => Some(line),
        _ => None,
    }
}

/// The head of the message at the front of a text.
pub(crate) fn head_of(text: &[u8]) -> FramedHead
    ensures value { result ≡ head_in [] unheard text.now }
    ensures within { ends_within (length text.now) result }
{
    let mut rest = text;
    let mut heard = Heard::none();
    loop {
        let (piece, after) = cut_at(rest, b'\n');
        let Some(after) = after else {
            return FramedHead::Open;
        };
        let Some(line) = line_in(piece) else {
            return FramedHead::Broken;
        };
        if line.is_empty() {
            return FramedHead::Ended(heard.said, after.len());
        }
        heard = heard.after(line);
        rest = after;
    }
}
