//! The parameters of an address in a header field (RFC 3261 section 25.1).
ghost use Rattle.std.specs.Prelude.{◌≡◌, ◌∷◌, Some};
ghost use Rattle.std.specs.Option.{option_copied};
ghost use Rattle.sip_uri.specs.Contact.{contact_params};
ghost use Rattle.authentication.specs.Form.{param_named};

use sip_lex::{Shelter, cut_outside, is_param_named};
use std::marker::Model;

/// The first parameter of a text, and what stands behind its `;`.
fn cut_param(text: &[u8]) -> (&[u8], Option<&[u8]>)
    ensures { contact_params (Some text.now) ≡ result.0.now ∷ contact_params (option_copied result.1) }
{
    cut_outside(text, b';', Shelter::QuotesAndAngles)
}

/// The parameters of a contact, as they stand between their `;` outside quotes and angle brackets.
#[derive(Drop)]
pub struct ContactParams<'a> {
    rest: Option<&'a [u8]>,
}

impl<'a> Model for ContactParams<'a> {
    ghost use Rattle.std.specs.Prelude.{List, ℕ};
    ghost use Rattle.std.specs.Option.{option_copied};
    ghost use Rattle.sip_uri.specs.Contact.{contact_params};

    ghost Value = { List (List ℕ) };

    ghost view = { λ p. contact_params (option_copied p.rest) };
}

impl<'a> ContactParams<'a> {
    ghost use Rattle.std.specs.Prelude.{◌≡◌};
    ghost use Rattle.std.specs.Option.{option_copied};
    ghost use Rattle.sip_uri.specs.Contact.{contact_params};

    /// The parameters that the text of a contact's parameters has; none where there is no such text.
    pub fn of(text: Option<&'a [u8]>) -> ContactParams<'a>
        ensures { result ≡ contact_params (option_copied text.entry) }
    {
        ContactParams { rest: text }
    }
}

impl<'a> Iterator for ContactParams<'a> {
    ghost use Rattle.std.specs.Iterator.{YieldsFirstBy, item_count};

    type Item = &'a [u8];

    ghost next_gives = { YieldsFirstBy (λ v. v.now) (λ s. s) };

    ghost remaining = { item_count (λ s. s) };

    fn next(&mut self) -> Option<&'a [u8]> {
        let (param, rest) = cut_param(self.rest?);
        self.rest = rest;
        Some(param)
    }

    fn size_hint(&self) -> (usize, Option<usize>) {
        (0, None)
    }
}

/// The first parameter of a contact that has this name, in any case.
pub fn param_named<'a>(params: Option<&'a [u8]>, name: &[u8]) -> Option<&'a [u8]>
    ensures { option_copied result ≡ param_named name.now (contact_params (option_copied params.entry)) }
{
    let mut params = ContactParams::of(params);
    while let Some(param) = params.next() {
        if is_param_named(param, name) {
            return Some(param);
        }
    }
    None
}
