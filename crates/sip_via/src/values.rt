//! The Via values of a message.

ghost use Rattle.std.specs.Prelude.{◌≡◌, [], ◌∷◌, ◌++◌, IfSome, IfNone};
ghost use Rattle.std.specs.List.{flat_map};
ghost use Rattle.std.specs.Option.{option_copied};
ghost use Rattle.sip_via.specs.SeenVia.{values_behind, values_left};
ghost use Rattle.sip_via.specs.TopVia.{has_second, top_value, values_in, via_values};

use sip_lex::{Shelter, cut_outside, trim};
use sip_text::{HeaderValues, Message};
use std::alloc::Allocator;
use std::marker::Model;

/// The name of the field, in lower case.
pub(crate) const VIA: &[u8] = b"via";

/// The Via values of a message, the nearest sender's first (RFC 3261 section 20.42): those that are left,
/// each line's in order.
#[derive(Drop)]
pub struct ViaValues<'a> {
    line: Option<&'a [u8]>,
    lines: HeaderValues<'a, 'static>,
}

impl<'a> Model for ViaValues<'a> {
    ghost use Rattle.std.specs.Prelude.{List, ℕ};
    ghost use Rattle.std.specs.Option.{option_copied};
    ghost use Rattle.sip_via.specs.SeenVia.{values_left};

    ghost Value = { List (List ℕ) };

    ghost view = { λ v. values_left (option_copied v.line) v.lines };
}

/// The first value of a line, and what stands behind its comma.
fn cut_value(text: &[u8]) -> (&[u8], Option<&[u8]>)
    ensures { values_in text.now ≡ result.0.now ∷ values_behind (option_copied result.1) }
{
    let (value, after) = cut_outside(text, b',', Shelter::Quotes);
    (trim(value), after)
}

/// The line that is begun, or else the next one.
fn take_line<'a>(
    line: &mut Option<&'a [u8]>,
    lines: &mut HeaderValues<'a, 'static>,
) -> Option<&'a [u8]>
    ensures some { IfSome result
        (λ text. values_left (option_copied line.old) lines.old ≡ values_in text.now ++ flat_map values_in lines.new) }
    ensures none { IfNone result (values_left (option_copied line.old) lines.old ≡ []) }
{
    match line.take() {
        Some(text) => Some(text),
        None => lines.next(),
    }
}

impl<'a> ViaValues<'a> {
    ghost use Rattle.std.specs.Prelude.{◌≡◌, [], ◌∷◌, IfSome, IfNone};
    ghost use Rattle.sip_via.specs.TopVia.{via_values};

    /// All Via values of a message.
    pub fn of<A: Allocator>(message: &'a Message<A>) -> ViaValues<'a>
        ensures { result ≡ via_values message.now }
    {
        ViaValues {
            line: None,
            lines: message.values(VIA),
        }
    }

    /// The first of those that are left, which then is not.
    pub fn next(&mut self) -> Option<&'a [u8]>
        ensures some { IfSome result (λ value. self.old ≡ value.now ∷ self.new) }
        ensures none { IfNone result (self.old ≡ []) }
    {
        let text = take_line(&mut self.line, &mut self.lines)?;
        let (value, after) = cut_value(text);
        self.line = after;
        Some(value)
    }
}

/// The first Via value of a message: that of the nearest sender (RFC 3261 section 18.2.2). Each
/// message has one.
pub fn top_via<A: Allocator>(message: &Message<A>) -> &[u8]
    ensures { result.now ≡ top_value message.now }
{
    match message.values(VIA).next() {
        Some(line) => cut_value(line).0,
        None => b"",
    }
}

/// The first Via value of a message, and whether another stands behind it: what [`top_via`] and [`has_second_via`] tell, at one
/// reading of the lines.
pub fn top_and_second<A: Allocator>(message: &Message<A>) -> (&[u8], bool)
    ensures top { result.0.now ≡ top_value message.now }
    ensures second { result.1 ≡ has_second (via_values message.now) }
{
    let mut values = ViaValues::of(message);
    let Some(top) = values.next() else {
        return (b"", false);
    };
    match values.next() {
        Some(_) => (top, true),
        None => (top, false),
    }
}

/// Whether a Via value stands behind the top one. A response without one was meant for the proxy itself
/// (RFC 3261 section 16.7 step 3). Each line holds a value, so that a second line isn't read.
pub fn has_second_via<A: Allocator>(message: &Message<A>) -> bool
    ensures { result ≡ has_second (via_values message.now) }
{
    let mut lines = message.values(VIA);
    let Some(line) = lines.next() else {
        return false;
    };
    if lines.next().is_some() {
        return true;
    }
    cut_outside(line, b',', Shelter::Quotes).1.is_some()
}
