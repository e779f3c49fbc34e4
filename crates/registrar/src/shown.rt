//! The answer to a REGISTER request that was taken.
ghost use Rattle.std.specs.Fmt.{decimal};
ghost use Rattle.std.specs.Prelude.{◌≡◌, ◌++◌, IfOk, OnOk, codes, true};
ghost use Rattle.sip_lex.specs.Values.{begins_with_space, is_line, is_value};
ghost use Rattle.httpdate.specs.Date.{unix_secs};
ghost use Rattle.registrar.specs.Shown.{IsOkay, is_item, okay, seconds_left, with_contact};

use authentication::OwnAnswer;
use bindings::{Binding, UserBindings};
use httpdate::HttpDate;
use sip_build::OwnStatus;
use sip_lex::{append_decimal, begins_with_space};
use std::alloc::{AllocError, Allocator};

/// The seconds that are left until a moment, rounded up.
fn seconds_left(moment: u64, ends: u64) -> u64
    ensures { result ≡ seconds_left moment ends }
{
    ends.saturating_sub(moment).div_ceil(1000)
}

/// Whether no end of a line stands in a text.
fn is_line(text: &[u8]) -> bool
    ensures { result ≡ is_line text.now }
{
    text.iter()
        .all(|byte| !(*byte == b'\r') && !(*byte == b'\n'))
}

/// Whether an item may stand in a header line.
fn is_item(item: &[u8]) -> bool
    ensures { result ≡ is_item item.now }
{
    is_line(item) && !begins_with_space(item)
}

/// The value of the line of a contact, for which so many seconds are left.
fn contact_value<B: Allocator>(
    alloc: B,
    item: &[u8],
    seconds: u64,
) -> Result<Vec<u8, B>, AllocError>
    ensures { IfOk result (λ value. value.items ≡ item.now ++ (codes ";expires=" ++ decimal seconds)) }
{
    let mut value = Vec::new(alloc);
    value.extend_from_slice(item)?;
    value.extend_from_slice(b";expires=")?;
    append_decimal(&mut value, seconds)?;
    Ok(value)
}

/// Adds the line of a binding, where its item may stand in one.
fn add_contact<A: Allocator, B: Allocator + Clone>(
    alloc: B,
    answer: &mut OwnAnswer<B>,
    moment: u64,
    binding: &Binding<A>,
) -> Result<(), AllocError>
    ensures { OnOk result (answer.new ≡ with_contact moment answer.old binding.now) }
{
    let parts = binding.contact();
    if !is_item(parts.item) {
        return Ok(());
    }
    let seconds = seconds_left(moment, binding.ends());
    let value = contact_value(alloc, parts.item, seconds)?;
    answer.push(b"Contact", value)
}

/// The 200 of these bindings, with this date.
fn okay_with_date<A: Allocator, B: Allocator + Clone>(
    alloc: B,
    moment: u64,
    date: &[u8],
    bindings: &UserBindings<A>,
) -> Result<OwnAnswer<B>, AllocError>
    requires { is_value date.now ≡ true }
    ensures { IfOk result (λ answer. answer ≡ okay moment date.now bindings.now) }
{
    let mut answer = OwnAnswer::new(alloc.clone()?, OwnStatus::Okay);
    let mut there = bindings.at(moment);
    while let Some(binding) = there.next() {
        add_contact(alloc.clone()?, &mut answer, moment, binding)?;
    }
    let date = Vec::from_slice(alloc, date)?;
    answer.push(b"Date", date)?;
    Ok(answer)
}

/// The date of a second since 1970.
fn date_of(second: u32) -> HttpDate
    ensures { unix_secs result ≡ second }
{
    match HttpDate::from_unix_secs(u64::from(second)) {
        Ok(date) => date,
        Err(_) => unreachable!(),
    }
}

/// The 200 to a REGISTER request that was taken, by the bindings that are kept then (RFC 3261 section 10.3 step 8): for each that is there
/// at that moment, in their order, a line with the contact and the seconds that are left; then the date of that second since 1970 (section
/// 20.17).
///
/// # Errors
///
/// Only where the allocator refuses.
pub fn okay<A: Allocator, B: Allocator + Clone>(
    alloc: B,
    moment: u64,
    second: u32,
    bindings: &UserBindings<A>,
) -> Result<OwnAnswer<B>, AllocError>
    ensures { IfOk result (IsOkay moment second bindings.now) }
{
    let date = date_of(second);
    let text = date.to_bytes();
    let answer = okay_with_date(alloc, moment, &text, bindings)?;
    Ok(answer)
}
