//! Appending bytes, lists of numbers, and the lines of the rules.
ghost use Rattle.std.specs.Prelude.{◌≡◌, ◌++◌, OnOk};
ghost use Rattle.fork_rank.specs.PreferredText.{list_text};
ghost use Rattle.fork_rank.specs.RuleLines.{ended, prefer_text, depth_text};

use crate::rules::Rules;
use sip_lex::append_decimal;
use std::alloc::{AllocError, Allocator};

/// Appends bytes.
///
/// # Errors
///
/// Only where the growth of `text` is refused.
pub fn append<A: Allocator>(text: &mut Vec<u8, A>, bytes: &[u8]) -> Result<(), AllocError>
    ensures { OnOk result (text.new.items ≡ text.old.items ++ bytes.now) }
{
    text.extend_from_slice(bytes)
}

/// Appends numbers in decimal with commas between them, or `-` for none.
///
/// # Errors
///
/// Only where a growth of `text` is refused; a part may stand there then.
pub fn append_list<A: Allocator>(text: &mut Vec<u8, A>, numbers: &[u16]) -> Result<(), AllocError>
    ensures { OnOk result (text.new.items ≡ text.old.items ++ list_text numbers.now) }
{
    let [first, more @ ..] = numbers else {
        return append(text, b"-");
    };
    append_decimal(text, u64::from(*first))?;
    for number in more {
        text.push(b',')?;
        append_decimal(text, u64::from(*number))?;
    }
    Ok(())
}

/// Appends the line of the preferred statuses, with its LF.
///
/// # Errors
///
/// Only where a growth of `text` is refused; a part may stand there then.
pub fn append_preferred<A: Allocator>(
    text: &mut Vec<u8, A>,
    rules: &Rules,
) -> Result<(), AllocError>
    ensures { OnOk result (text.new.items ≡ text.old.items ++ ended (prefer_text rules.now.preferred)) }
{
    append(text, b"prefer ")?;
    append_list(text, rules.preferred().statuses())?;
    append(text, b"\n")
}

/// Appends the line of the depth, with its LF.
///
/// # Errors
///
/// Only where a growth of `text` is refused; a part may stand there then.
pub fn append_depth<A: Allocator>(text: &mut Vec<u8, A>, rules: &Rules) -> Result<(), AllocError>
    ensures { OnOk result (text.new.items ≡ text.old.items ++ ended (depth_text rules.now.depth)) }
{
    append(text, b"depth ")?;
    append_decimal(text, u64::from(rules.depth()))?;
    append(text, b"\n")
}
