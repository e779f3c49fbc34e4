//! The form of a contact: its address and its parameters.

ghost use Rattle.std.specs.Prelude.{◌≡◌, ◌-◌, ◌<◌, IfSome, length};
ghost use Rattle.std.specs.List.{list_all};
ghost use Rattle.std.specs.Option.{option_copied};
ghost use Rattle.sip_lex.specs.declared.sheltered.Shelter.TheVariants.{Quotes, QuotesAndAngles};
ghost use Rattle.sip_lex.specs.declared.sheltered.ShelterState.TheVariants.{Plain};
ghost use Rattle.sip_lex.specs.Cut.{cut, is, seen_cut};
ghost use Rattle.sip_lex.specs.Sheltered.{cut_outside};
ghost use Rattle.sip_uri.specs.Contact.{are_decimals, bare_form, behind_brackets, bracketed_form, contact_params, form_of, is_bare, is_bare_byte, is_contact_param, is_q, q_decimals, q_of, q_value, q_value_if_any, seen_form};

use sip_lex::{
    Shelter, are_digits, cut_at, cut_outside, is_param_named, is_space, param_name, param_value,
    trim_end, trim_start,
};

/// The weight that is given where none is written, or one of another form.
pub(crate) const FULL_WEIGHT: u16 = 1000;

fn are_decimals(digits: &[u8]) -> bool
    ensures { result ≡ are_decimals digits.now }
{
    digits.len() <= 3 && are_digits(digits)
}

fn digit(byte: u8) -> u16
    ensures { result ≡ byte - 48 }
{
    u16::from(byte.saturating_sub(b'0'))
}

fn q_decimals(digits: &[u8]) -> u16
    ensures { result ≡ q_decimals digits.now }
{
    match digits {
        [] => 0,
        [a] => 100 * digit(*a),
        [a, b] => 100 * digit(*a) + 10 * digit(*b),
        [a, b, c, ..] => 100 * digit(*a) + 10 * digit(*b) + digit(*c),
    }
}

/// The weight that a value of `q` spells, in thousandths.
fn q_value(value: &[u8]) -> u16
    ensures { result ≡ q_value value.now }
{
    match value {
        [b'0'] => 0,
        [b'0', b'.', digits @ ..] if are_decimals(digits) => q_decimals(digits),
        _ => FULL_WEIGHT,
    }
}

fn q_value_if_any(value: Option<&[u8]>) -> u16
    ensures { result ≡ q_value_if_any (option_copied value.entry) }
{
    match value {
        None => FULL_WEIGHT,
        Some(value) => q_value(value),
    }
}

fn is_contact_param(param: &[u8]) -> bool
    ensures { result ≡ is_contact_param param.now }
{
    if param_name(param).is_empty() {
        return false;
    }
    match param_value(param) {
        None => true,
        Some(value) => !value.is_empty(),
    }
}

/// What stands before the first `;`, and what stands behind it.
fn cut_param(text: &[u8]) -> (&[u8], Option<&[u8]>)
    ensures value { seen_cut result ≡ cut_outside QuotesAndAngles 59 Plain text.now }
    ensures shorter { IfSome result.1 (λ after. length after.now < length text.now) }
{
    cut_outside(text, b';', Shelter::QuotesAndAngles)
}

/// Whether no parameter of a contact lacks a name, or a value behind its `=`.
pub fn are_contact_params(params: Option<&[u8]>) -> bool
    ensures { result ≡ list_all is_contact_param (contact_params (option_copied params.entry)) }
{
    let mut rest = params;
    while let Some(text) = rest {
        let (param, after) = cut_param(text);
        if !is_contact_param(param) {
            return false;
        }
        rest = after;
    }
    true
}

fn is_q(param: &[u8]) -> bool
    ensures { result ≡ is_q param.now }
{
    is_param_named(param, b"q")
}

/// The weight that the first parameter `q` gives, in thousandths (RFC 3261 section 20.10).
pub fn q_of(params: Option<&[u8]>) -> u16
    ensures { result ≡ q_of (contact_params (option_copied params.entry)) }
{
    let mut rest = params;
    while let Some(text) = rest {
        let (param, after) = cut_param(text);
        if is_q(param) {
            return q_value_if_any(param_value(param));
        }
        rest = after;
    }
    FULL_WEIGHT
}

fn behind_brackets<'a>(address: &'a [u8], rest: &'a [u8]) -> Option<(&'a [u8], Option<&'a [u8]>)>
    ensures { seen_form result ≡ behind_brackets address.now rest.now }
{
    match rest {
        [] => Some((address, None)),
        [b';', params @ ..] => Some((address, Some(params))),
        _ => None,
    }
}

fn bracketed_form(inner: &[u8]) -> Option<(&[u8], Option<&[u8]>)>
    ensures { seen_form result ≡ bracketed_form (cut (is 62) inner.now) }
{
    let (address, rest) = cut_at(inner, b'>');
    behind_brackets(address, trim_start(rest?))
}

fn is_bare_byte(byte: u8) -> bool
    ensures { result ≡ is_bare_byte byte }
{
    !(byte == b';' || byte == b',' || byte == b'?' || is_space(byte))
}

fn are_bare_bytes(bytes: &[u8]) -> bool
    ensures { result ≡ list_all is_bare_byte bytes.now }
{
    bytes.iter().all(|byte| is_bare_byte(*byte))
}

fn is_bare(address: &[u8]) -> bool
    ensures { result ≡ is_bare address.now }
{
    !address.is_empty() && are_bare_bytes(address)
}

fn bare_form(item: &[u8]) -> Option<(&[u8], Option<&[u8]>)>
    ensures { seen_form result ≡ bare_form (cut (is 59) item.now) }
{
    let (front, params) = cut_at(item, b';');
    let address = trim_end(front);
    if !is_bare(address) {
        return None;
    }
    Some((address, params))
}

/// The address of an item and the text of its parameters, where it has the form of a contact (RFC 3261 section 25.1: `contact-param`; the
/// values of From and To have that form, too). Whether the address is a URI is not asked.
pub fn form_of(item: &[u8]) -> Option<(&[u8], Option<&[u8]>)>
    ensures { seen_form result ≡ form_of item.now }
{
    match cut_outside(item, b'<', Shelter::Quotes).1 {
        None => bare_form(item),
        Some(inner) => bracketed_form(inner),
    }
}
