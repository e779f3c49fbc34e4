//! Fields of a line.
ghost use Rattle.std.specs.Prelude.{◌≡◌, ◌≤◌, IfSome};
ghost use Rattle.sip_lex.specs.Number.{plain_number_within};
ghost use Rattle.fork_rank.specs.Field.{number_before, seen_before};

use sip_lex::{cut_at, read_plain_number};

/// The number that decimal digits without a leading zero spell, where it is at most `most`.
pub fn read_small_number(digits: &[u8], most: u16) -> Option<u16>
    ensures value { result ≡ plain_number_within most digits.now }
    ensures within { IfSome result (λ n. n ≤ most) }
{
    let n = read_plain_number(digits, u64::from(most))?;
    Some(n as u16)
}

/// A number of at most `most`, and what stands behind the space after it; `None` where no space follows.
pub fn read_small_number_before(text: &[u8], most: u16) -> Option<(u16, &[u8])>
    ensures { seen_before result ≡ number_before most text.now }
{
    match cut_at(text, b' ') {
        (_, None) => None,
        (digits, Some(rest)) => Some((read_small_number(digits, most)?, rest)),
    }
}
