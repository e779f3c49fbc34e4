//! The port and the parameters of a URI.
ghost use Rattle.std.specs.Prelude.{◌≡◌, ◌∷◌, Some, drop};
ghost use Rattle.std.specs.Option.{option_copied};
ghost use Rattle.sip_lex.specs.Cut.{cut, is};
ghost use Rattle.sip_lex.specs.Pieces.{pieces_behind};
ghost use Rattle.sip_uri.specs.Reading.{parts_of, port_and_params, user_of};
ghost use Rattle.authentication.specs.Tail.{is_uri_param, port_of_uri};

use sip_lex::cut_at;
use sip_uri::{cut_host, read_port};
use std::marker::Model;

/// What stands behind the user.
fn behind_user(body: &[u8]) -> &[u8]
    ensures { result.now ≡ (user_of (cut (is 64) body.now)).1 }
{
    match cut_at(body, b'@') {
        (rest, None) => rest,
        (_, Some(rest)) => rest,
    }
}

fn port_and_params(tail: &[u8]) -> (Option<&[u8]>, Option<&[u8]>)
    ensures port { option_copied result.0 ≡ (port_and_params tail.now).0 }
    ensures params { option_copied result.1 ≡ (port_and_params tail.now).1 }
{
    match tail {
        [] => (None, None),
        [b':', rest @ ..] => {
            let (port, params) = cut_at(rest, b';');
            (Some(port), params)
        }
        [_, rest @ ..] => (None, Some(rest)),
    }
}

/// The port and the parameters in what stands behind a scheme.
#[tactic(auto, unfolding(sip_uri::specs::Reading::parts_of))]
fn cut_tail(body: &[u8]) -> (Option<&[u8]>, Option<&[u8]>)
    ensures port { option_copied result.0 ≡ (parts_of body.now).port }
    ensures params { option_copied result.1 ≡ (parts_of body.now).params }
{
    let (_, behind) = cut_host(behind_user(body));
    port_and_params(cut_at(behind, b'?').0)
}

fn body_of(text: &[u8]) -> &[u8]
    ensures { result.now ≡ drop 4 text.now }
{
    match text {
        [_, _, _, _, body @ ..] => body,
        _ => b"",
    }
}

/// The port that the text of a URI names; 5060 where it names none (RFC 3261 section 19.1.2).
pub fn port_of_uri(text: &[u8]) -> u16
    ensures { result ≡ port_of_uri text.now }
{
    match cut_tail(body_of(text)).0 {
        None => 5060,
        Some(digits) => read_port(digits).unwrap_or(5060),
    }
}

/// The first parameter, and what stands behind its `;`.
fn cut_param(text: &[u8]) -> (&[u8], Option<&[u8]>)
    ensures { pieces_behind 59 (Some text.now) ≡ result.0.now ∷ pieces_behind 59 (option_copied result.1) }
{
    cut_at(text, b';')
}

/// The parameters of a URI, as they stand between their `;` (RFC 3261 section 19.1.1).
#[derive(Drop)]
pub struct UriParams<'a> {
    rest: Option<&'a [u8]>,
}

impl<'a> Model for UriParams<'a> {
    ghost use Rattle.std.specs.Prelude.{List, ℕ};
    ghost use Rattle.std.specs.Option.{option_copied};
    ghost use Rattle.sip_lex.specs.Pieces.{pieces_behind};

    ghost Value = { List (List ℕ) };

    ghost view = { λ p. pieces_behind 59 (option_copied p.rest) };
}

impl<'a> UriParams<'a> {
    ghost use Rattle.std.specs.Prelude.{◌≡◌};
    ghost use Rattle.sip_uri.specs.Reading.{uri_of};

    /// Those of the text of a URI.
    pub fn of(text: &'a [u8]) -> UriParams<'a>
        ensures { result ≡ (uri_of text.entry.now).params }
    {
        UriParams {
            rest: cut_tail(body_of(text)).1,
        }
    }
}

impl<'a> Iterator for UriParams<'a> {
    ghost use Rattle.std.specs.Iterator.{YieldsFirstBy, item_count};

    type Item = &'a [u8];

    ghost next_gives = { YieldsFirstBy (λ v. v.now) (λ s. s) };

    ghost remaining = { item_count (λ s. s) };

    fn next(&mut self) -> Option<&'a [u8]> {
        let (param, rest) = cut_param(self.rest?);
        self.rest = rest;
        Some(param)
    }

    fn size_hint(&self) -> (usize, Option<usize>) {
        (0, None)
    }
}

/// Whether a parameter of a URI has this name, in any case.
pub fn is_uri_param(param: &[u8], name: &[u8]) -> bool
    ensures { result ≡ is_uri_param name.now param.now }
{
    cut_at(param, b'=').0.eq_ignore_ascii_case(name)
}
