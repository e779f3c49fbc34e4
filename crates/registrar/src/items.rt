//! The items of Contact lines.
ghost use Rattle.std.specs.Prelude.{◌≡◌, ◌∷◌, Some};
ghost use Rattle.std.specs.Option.{option_copied};
ghost use Rattle.sip_uri.specs.Contact.{are_items, items_behind};
ghost use Rattle.registrar.specs.Contacts.{is_readable, is_star};

use sip_lex::{Shelter, cut_outside, is_closed, trim};
use std::marker::Model;

/// The first item of a line, and what stands behind its comma.
fn cut_item(text: &[u8]) -> (&[u8], Option<&[u8]>)
    ensures { items_behind (Some text.now) ≡ result.0.now ∷ items_behind (option_copied result.1) }
{
    let (item, rest) = cut_outside(text, b',', Shelter::QuotesAndAngles);
    (trim(item), rest)
}

/// The items of a line, between its commas outside quotes and angle brackets, without space round them.
#[derive(Drop)]
pub(crate) struct Items<'a> {
    rest: Option<&'a [u8]>,
}

impl<'a> Model for Items<'a> {
    ghost use Rattle.std.specs.Prelude.{List, ℕ};
    ghost use Rattle.std.specs.Option.{option_copied};
    ghost use Rattle.sip_uri.specs.Contact.{items_behind};

    ghost Value = { List (List ℕ) };

    ghost view = { λ i. items_behind (option_copied i.rest) };
}

impl<'a> Items<'a> {
    ghost use Rattle.std.specs.Prelude.{◌≡◌, Some};
    ghost use Rattle.sip_uri.specs.Contact.{items_behind};

    /// The items of a line.
    pub(crate) fn of(line: &'a [u8]) -> Items<'a>
        ensures { result ≡ items_behind (Some line.entry.now) }
    {
        Items { rest: Some(line) }
    }
}

impl<'a> Iterator for Items<'a> {
    ghost use Rattle.std.specs.Iterator.{YieldsFirstBy, item_count};

    type Item = &'a [u8];

    ghost next_gives = { YieldsFirstBy (λ v. v.now) (λ s. s) };

    ghost remaining = { item_count (λ s. s) };

    fn next(&mut self) -> Option<&'a [u8]> {
        let (item, rest) = cut_item(self.rest?);
        self.rest = rest;
        Some(item)
    }

    fn size_hint(&self) -> (usize, Option<usize>) {
        (0, None)
    }
}

/// Whether no item of a line is empty.
fn are_items(line: &[u8]) -> bool
    ensures { result ≡ are_items (items_behind (Some line.now)) }
{
    let mut items = Items::of(line);
    while let Some(item) = items.next() {
        if item.is_empty() {
            return false;
        }
    }
    true
}

/// Whether a line can be read: each quote and bracket is closed, and no item is empty.
pub(crate) fn is_readable(line: &[u8]) -> bool
    ensures { result ≡ is_readable line.now }
{
    is_closed(line, Shelter::QuotesAndAngles) && are_items(line)
}

/// Whether an item names all contacts (RFC 3261 section 10.2.2).
pub(crate) fn is_star(item: &[u8]) -> bool
    ensures { result ≡ is_star item.now }
{
    item == b"*".as_slice()
}
