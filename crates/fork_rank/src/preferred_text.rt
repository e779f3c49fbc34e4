//! Lists of preferred statuses.
ghost use Rattle.std.specs.Prelude.{◌≡◌, [], ℕ, List, Some, IfSome, option_and_then};
ghost use Rattle.std.specs.Option.{option_map};
ghost use Rattle.std.specs.List.{slice_split};
ghost use Rattle.sip_lex.specs.Cut.{is};
ghost use Rattle.fork_rank.specs.Preferred.{IsPreferredList};
ghost use Rattle.fork_rank.specs.PreferredText.{list_text, numbers_onto, preferred_if, read_preferred};

use crate::preferred::{MOST_PREFERRED, Preferred};
use crate::rules::Rules;
use crate::small_number::read_small_number;
use arrayvec::ArrayVec;
use sip_lex::cut_at;

/// A preferred status is a 4xx.
const MOST_STATUS: u16 = 499;

/// The numbers between the commas; `None` where something else stands there, or more of them than may be preferred.
fn read_numbers(text: &[u8]) -> Option<ArrayVec<u16, MOST_PREFERRED>>
    ensures { option_and_then preferred_if (option_map (λ v. v.items) result) ≡ option_and_then preferred_if (numbers_onto [] (slice_split (is 44) text.now)) }
{
    let mut numbers = ArrayVec::new();
    let mut rest = text;
    loop {
        let (digits, more) = cut_at(rest, b',');
        let Some(number) = read_small_number(digits, MOST_STATUS) else {
            return None;
        };
        if numbers.is_full() {
            return None;
        }
        numbers.push(number);
        match more {
            None => return Some(numbers),
            Some(after) => rest = after,
        }
    }
}

/// The list that a text spells.
fn preferred_in(text: &[u8]) -> Option<Preferred>
    ensures { result ≡ read_preferred text.now }
{
    if text == b"-".as_slice() {
        return Preferred::of(&[]);
    }
    match read_numbers(text) {
        None => None,
        Some(statuses) => Preferred::of(statuses.as_slice()),
    }
}

/// The preferred statuses that a text spells, behind `prefer` and its space: `-` for none, else the statuses, rising,
/// with commas between them.
pub fn read_preferred(text: &[u8]) -> Option<Preferred>
    ensures value { result ≡ read_preferred text.now }
    // What is read is the spelling of a list, and each spelling of a list is read.
    ensures found { IfSome result (λ statuses. text.now ≡ list_text statuses) }
    ensures only { (statuses : List ℕ) → IsPreferredList statuses → text.now ≡ list_text statuses → result ≡ Some statuses }
{
    preferred_in(text)
}

/// The rules with these preferred statuses (RFC 3261 section 16.7 step 6).
pub fn with_preferred(rules: Rules, preferred: Preferred) -> Rules
    ensures { result ≡ record rules { preferred = preferred } }
{
    Rules::of(preferred, rules.depth()).unwrap()
}
