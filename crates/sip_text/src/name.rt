//! Header fields by their names.

ghost use Rattle.std.specs.Prelude.{◌≡◌, [], ◌∷◌, IfNone, IfSome};
ghost use Rattle.std.specs.Option.{option_copied};
ghost use Rattle.sip_text.specs.Name.{full_name, name_of_letter, same_name, values_of};
ghost use Rattle.sip_text.specs.Seen.{views};

use crate::header_lines::HeaderLines;
use std::marker::Model;

/// The name that a lower case letter is the compact form of (RFC 3261 section 7.3.3).
fn name_of_letter(letter: u8) -> Option<&'static [u8]>
    ensures { option_copied result ≡ name_of_letter letter }
{
    let name: &[u8] = match letter {
        b'v' => b"via",
        b'f' => b"from",
        b't' => b"to",
        b'm' => b"contact",
        b'i' => b"call-id",
        b'l' => b"content-length",
        b'c' => b"content-type",
        _ => return None,
    };
    Some(name)
}

/// A name with its compact form written out.
#[tactic(auto, unfolding(crate::specs::Name::full_name))]
pub fn full_name(name: &[u8]) -> &[u8]
    ensures { result.now ≡ full_name name.now }
{
    match name {
        [letter] => match name_of_letter(letter.to_ascii_lowercase()) {
            None => name,
            Some(full) => full,
        },
        _ => name,
    }
}

/// Whether two names are the same, in any case and in long or compact form.
pub fn same_name(a: &[u8], b: &[u8]) -> bool
    ensures { result ≡ same_name a.now b.now }
{
    full_name(a).eq_ignore_ascii_case(full_name(b))
}

/// The value of the first header of that name, and the headers behind it.
#[tactic(auto, using(crate::proofs::Steps::none_named))]
fn split_header<'a>(name: &[u8], headers: HeaderLines<'a>) -> Option<(&'a [u8], HeaderLines<'a>)>
    ensures found { IfSome result
        (λ p. values_of name.now (views headers.entry) ≡ p.0.now ∷ values_of name.now (views p.1)) }
    ensures none { IfNone result (values_of name.now (views headers.entry) ≡ []) }
{
    let mut rest = headers;
    while let Some((header, after)) = rest.split_first() {
        if header.is_named(name) {
            return Some((header.value, after));
        }
        rest = after;
    }
    None
}

/// The values of the header lines of one name, in order, each line's whole value.
#[derive(Drop)]
pub struct HeaderValues<'a, 'n> {
    headers: HeaderLines<'a>,
    name: &'n [u8],
}

impl<'a, 'n> Model for HeaderValues<'a, 'n> {
    ghost use Rattle.std.specs.Prelude.{List, ℕ};
    ghost use Rattle.sip_text.specs.Name.{values_of};
    ghost use Rattle.sip_text.specs.Seen.{views};

    ghost Value = { List (List ℕ) };

    ghost view = { λ v. values_of v.name.now (views v.headers) };
}

impl<'a, 'n> HeaderValues<'a, 'n> {
    ghost use Rattle.sip_text.specs.Name.{values_of};
    ghost use Rattle.sip_text.specs.Seen.{views};

    /// The values of that name.
    pub fn new(name: &'n [u8], headers: HeaderLines<'a>) -> HeaderValues<'a, 'n>
        ensures { result ≡ values_of name.now (views headers.entry) }
    {
        HeaderValues { headers, name }
    }
}

impl<'a> Iterator for HeaderValues<'a, '_> {
    ghost use Rattle.std.specs.Iterator.{YieldsFirstBy, item_count};

    type Item = &'a [u8];

    ghost next_gives = { YieldsFirstBy (λ v. v.now) (λ s. s) };

    ghost remaining = { item_count (λ s. s) };

    fn next(&mut self) -> Option<&'a [u8]> {
        let (value, rest) = split_header(self.name, self.headers)?;
        self.headers = rest;
        Some(value)
    }

    fn size_hint(&self) -> (usize, Option<usize>) {
        (0, None)
    }
}
