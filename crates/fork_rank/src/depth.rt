//! How deep contacts of contacts are tried.
ghost use Rattle.std.specs.Prelude.{◌≡◌, ◌≤◌, Some};
ghost use Rattle.std.specs.Option.{option_map};
ghost use Rattle.sip_lex.specs.Number.{plain_number_within};
ghost use Rattle.fork_model.specs.Table.{most_targets};

use crate::rules::{MOST_TARGETS, Rules};
use crate::small_number::read_small_number;

/// How many steps below a first target contacts are still tried.
#[derive(Clone, Copy, Debug)]
pub struct Depth {
    pub steps: u16,
    ghost within: { steps ≤ most_targets },
}

/// The depth that decimal digits spell, behind `depth` and its space; `None` where it is over `MOST_TARGETS`.
pub fn read_depth(digits: &[u8]) -> Option<Depth>
    ensures { option_map (λ depth. depth.steps) result ≡ plain_number_within most_targets digits.now }
{
    let steps = read_small_number(digits, MOST_TARGETS)?;
    Some(Depth { steps })
}

/// The rules with this depth (RFC 3261 section 16.5).
pub fn with_depth(rules: Rules, depth: Depth) -> Rules
    ensures { result ≡ record rules { depth = depth.steps } }
{
    Rules::of(rules.preferred(), depth.steps).unwrap()
}
