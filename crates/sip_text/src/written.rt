//! Header lines that stand in a text as they are written.

ghost use Rattle.std.specs.Prelude.{◌≡◌, ◌≤◌, length, slice_range, IfNone, IfSome};
ghost use Rattle.std.specs.List.{flat_map};
ghost use Rattle.sip_text.specs.Seen.{headers_in};
ghost use Rattle.sip_text.specs.Text.{header_text};
ghost use Rattle.sip_text.specs.Written.{AreWritten, IsWritten, line_end};
ghost use Rattle.sip_text.specs.inner.Within.{AreLinesWithin, IsLineWithin};

use crate::place::LinePlaces;

/// Where a header line ends that stands in a text from this place on as it is written; `None` where it does not.
#[tactic(auto, using(crate::proofs::SpelledLines::is_written))]
fn written_end(text: &[u8], at: usize, line: LinePlaces) -> Option<usize>
    requires { IsLineWithin (length text.now) line }
    ensures end { IfSome result (λ end. end ≡ line_end line) }
    ensures written { IfSome result (λ _. IsWritten text.now at line) }
    ensures none { IfNone result (IsWritten text.now at line → ⊥) }
{
    let name = line.name.start + line.name.len;
    let value = line.value.start;
    let end = value + line.value.len;
    if line.name.start != at || value < 2 || value - 2 != name || text.len() - end < 2 {
        return None;
    }
    if text[name] == b':'
        && text[name + 1] == b' '
        && text[end] == b'\r'
        && text[end + 1] == b'\n'
    {
        Some(end + 2)
    } else {
        None
    }
}

/// Where header lines end that stand in a text one behind another, from this place on, as they are written; `None` where they do not.
pub fn lines_end(text: &[u8], at: usize, lines: &[LinePlaces]) -> Option<usize>
    requires at { at ≤ length text.now }
    requires within { AreLinesWithin (length text.now) lines.now }
    ensures ordered { IfSome result (λ end. at ≤ end) }
    ensures within { IfSome result (λ end. end ≤ length text.now) }
    ensures spelled { IfSome result (λ end. slice_range text.now at end ≡ flat_map header_text (headers_in text.now lines.now)) }
    ensures written { IfSome result (λ _. AreWritten text.now at lines.now) }
    ensures none { IfNone result (AreWritten text.now at lines.now → ⊥) }
{
    let mut end = at;
    let mut rest = lines;
    while let [line, more @ ..] = rest {
        end = written_end(text, end, *line)?;
        rest = more;
    }
    Some(end)
}
