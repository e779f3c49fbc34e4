//! The lines of a text, each ended by LF.
ghost use Rattle.std.specs.Prelude.{◌≡◌};
ghost use Rattle.std.specs.Option.{option_copied};
ghost use Rattle.proxy_config.specs.TextLine.{behind_lines, first_line, line_at};

use sip_lex::cut_at;

/// What stands behind the first lines, so many of them.
fn behind_lines(text: &[u8], count: usize) -> Option<&[u8]>
    ensures { option_copied result ≡ behind_lines count text.now }
{
    let mut rest = text;
    let mut left = count;
    while left > 0 {
        match cut_at(rest, b'\n') {
            (_, None) => return None,
            (_, Some(after)) => rest = after,
        }
        left -= 1;
    }
    Some(rest)
}

/// The line with this number, counted from 1, without its LF.
pub fn line_at(text: &[u8], number: usize) -> Option<&[u8]>
    ensures { option_copied result ≡ line_at text.now number }
{
    if number == 0 {
        return None;
    }
    match cut_at(behind_lines(text, number - 1)?, b'\n') {
        (_, None) => None,
        (line, Some(_)) => Some(line),
    }
}
