//! The parameters of a Via value.

ghost use Rattle.std.specs.Prelude.{◌≡◌, ◌∷◌, Some};
ghost use Rattle.std.specs.List.{list_all, list_any};
ghost use Rattle.std.specs.Option.{option_copied};
ghost use Rattle.sip_lex.specs.Quoted.{quoted_at};
ghost use Rattle.sip_via.specs.ViaParts.{first_named, is_number, is_param, is_plain_value, is_rport, is_value, is_value_byte, is_value_if_any, is_whole, number_if_any, params_of};
ghost use Rattle.sip_via.specs.inner.Replies.{gives_port};

use sip_lex::{
    Shelter, cut_outside, cut_quoted, is_param_named, is_space, is_token, param_parts, param_value,
    read_number,
};
use std::marker::Model;

/// The first parameter, and what stands behind its `;`.
fn cut_param(text: &[u8]) -> (&[u8], Option<&[u8]>)
    ensures { params_of (Some text.now) ≡ result.0.now ∷ params_of (option_copied result.1) }
{
    cut_outside(text, b';', Shelter::Quotes)
}

/// The parameters that are left, each as it stands between its `;`.
#[derive(Drop)]
pub(crate) struct Params<'a> {
    rest: Option<&'a [u8]>,
}

impl<'a> Model for Params<'a> {
    ghost use Rattle.std.specs.Prelude.{List, ℕ};
    ghost use Rattle.std.specs.Option.{option_copied};
    ghost use Rattle.sip_via.specs.ViaParts.{params_of};

    ghost Value = { List (List ℕ) };

    ghost view = { λ p. params_of (option_copied p.rest) };
}

impl<'a> Params<'a> {
    ghost use Rattle.std.specs.Prelude.{◌≡◌};
    ghost use Rattle.std.specs.Option.{option_copied};
    ghost use Rattle.sip_via.specs.ViaParts.{params_of};

    /// Those of what stands behind the first `;`.
    pub(crate) fn of(rest: Option<&'a [u8]>) -> Params<'a>
        ensures { result ≡ params_of (option_copied rest.entry) }
    {
        Params { rest }
    }
}

impl<'a> Iterator for Params<'a> {
    ghost use Rattle.std.specs.Iterator.{YieldsFirstBy, item_count};

    type Item = &'a [u8];

    ghost next_gives = { YieldsFirstBy (λ v. v.now) (λ s. s) };

    ghost remaining = { item_count (λ s. s) };

    fn next(&mut self) -> Option<&'a [u8]> {
        let (param, after) = cut_param(self.rest?);
        self.rest = after;
        Some(param)
    }

    fn size_hint(&self) -> (usize, Option<usize>) {
        (0, None)
    }
}

fn is_value_byte(byte: u8) -> bool
    ensures { result ≡ is_value_byte byte }
{
    !is_space(byte) && byte != b',' && byte != b';' && byte != b'"'
}

fn are_value_bytes(value: &[u8]) -> bool
    ensures { result ≡ list_all is_value_byte value.now }
{
    value.iter().all(|byte| is_value_byte(*byte))
}

fn is_plain_value(value: &[u8]) -> bool
    ensures { result ≡ is_plain_value value.now }
{
    !value.is_empty() && are_value_bytes(value)
}

/// Whether a text is one quoted text.
fn is_quoted(value: &[u8]) -> bool
    ensures { result ≡ is_whole (quoted_at value.now) }
{
    match cut_quoted(value) {
        Some((_, [])) => true,
        _ => false,
    }
}

fn is_value(value: &[u8]) -> bool
    ensures { result ≡ is_value value.now }
{
    is_plain_value(value) || is_quoted(value)
}

fn is_value_if_any(value: Option<&[u8]>) -> bool
    ensures { result ≡ is_value_if_any (option_copied value.entry) }
{
    match value {
        None => true,
        Some(value) => is_value(value),
    }
}

fn is_param(param: &[u8]) -> bool
    ensures { result ≡ is_param param.now }
{
    let (name, value) = param_parts(param);
    is_token(name) && is_value_if_any(value)
}

/// Whether each of them is a parameter.
pub(crate) fn are_params(text: Option<&[u8]>) -> bool
    ensures { result ≡ list_all is_param (params_of (option_copied text.entry)) }
{
    let mut params = Params::of(text);
    while let Some(param) = params.next() {
        if !is_param(param) {
            return false;
        }
    }
    true
}

/// The value of the first parameter of that name, if it has one.
pub(crate) fn first_param<'a>(text: Option<&'a [u8]>, name: &[u8]) -> Option<&'a [u8]>
    ensures { option_copied result ≡ first_named name.now (params_of (option_copied text.entry)) }
{
    let mut params = Params::of(text);
    while let Some(param) = params.next() {
        if is_param_named(param, name) {
            return param_value(param);
        }
    }
    None
}

fn number_if_any(value: Option<&[u8]>) -> Option<u64>
    ensures { result ≡ number_if_any (option_copied value.entry) }
{
    read_number(value?, 65_535)
}

fn is_number(n: u64, value: Option<u64>) -> bool
    ensures { result ≡ is_number n value }
{
    match value {
        None => false,
        Some(m) => n == m,
    }
}

/// Whether a parameter is `rport` with that number.
fn is_rport(param: &[u8], port: u16) -> bool
    ensures { result ≡ is_rport port param.now }
{
    is_param_named(param, b"rport") && is_number(u64::from(port), number_if_any(param_value(param)))
}

/// Whether a parameter `rport` has that number.
pub(crate) fn has_rport(text: Option<&[u8]>, port: u16) -> bool
    ensures { result ≡ list_any (is_rport port) (params_of (option_copied text.entry)) }
{
    let mut params = Params::of(text);
    while let Some(param) = params.next() {
        if is_rport(param, port) {
            return true;
        }
    }
    false
}

/// Whether a parameter is `rport` with that number, or without a value.
fn gives_port(param: &[u8], port: u16) -> bool
    ensures { result ≡ gives_port port param.now }
{
    if !is_param_named(param, b"rport") {
        return false;
    }
    match param_value(param) {
        None => true,
        Some(digits) => is_number(u64::from(port), read_number(digits, 65_535)),
    }
}

/// Whether a parameter `rport` has that number, or no value.
pub(crate) fn gives_any_port(text: Option<&[u8]>, port: u16) -> bool
    ensures { result ≡ list_any (gives_port port) (params_of (option_copied text.entry)) }
{
    let mut params = Params::of(text);
    while let Some(param) = params.next() {
        if gives_port(param, port) {
            return true;
        }
    }
    false
}
