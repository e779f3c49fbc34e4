//! The tag of a From or To value.

ghost use Rattle.std.specs.Prelude.{◌≡◌};
ghost use Rattle.std.specs.Option.{option_copied};
ghost use Rattle.sip_lex.specs.declared.sheltered.ShelterState.TheVariants.{Plain};
ghost use Rattle.sip_lex.specs.declared.sheltered.Shelter.TheVariants.{Quotes, QuotesAndAngles};
ghost use Rattle.sip_lex.specs.Outside.{pieces_outside_behind};
ghost use Rattle.sip_lex.specs.Sheltered.{cut_outside};
ghost use Rattle.sip_lex.specs.Tag.{behind_angles, is_tag_name, tag_of, tag_of_params, value_of_cut};

use crate::cut::{cut_at, cut_near};
use crate::sheltered::{Shelter, cut_outside};
use crate::space::trim;

fn is_tag_name(name: &[u8]) -> bool
    ensures { result ≡ is_tag_name name.now }
{
    trim(name).eq_ignore_ascii_case(b"tag")
}

/// The value of a tag, unless it is missing or empty.
fn value_of_cut(value: Option<&[u8]>) -> Option<&[u8]>
    ensures { option_copied result ≡ value_of_cut (option_copied value.entry) }
{
    let value = trim(value?);
    if value.is_empty() { None } else { Some(value) }
}

fn tag_of_params(params: Option<&[u8]>) -> Option<&[u8]>
    ensures { option_copied result
        ≡ tag_of_params (pieces_outside_behind QuotesAndAngles 59 (option_copied params.entry)) }
{
    let mut rest = params;
    while let Some(text) = rest {
        let (param, after) = cut_outside(text, b';', Shelter::QuotesAndAngles);
        let (name, value) = cut_near(param, b'=');
        if is_tag_name(name) {
            return value_of_cut(value);
        }
        rest = after;
    }
    None
}

/// What stands behind the address in angle brackets; the whole value where no `<` stands outside
/// quotes.
fn behind_angles(value: &[u8]) -> Option<&[u8]>
    ensures { option_copied result
        ≡ behind_angles value.now (cut_outside Quotes 60 Plain value.now).1 }
{
    match cut_outside(value, b'<', Shelter::Quotes).1 {
        None => Some(value),
        Some(inside) => cut_at(inside, b'>').1,
    }
}

/// The tag of a From or To value (RFC 3261 section 19.3): the first parameter of that name behind
/// the address, unless it is empty. The address is what the first `<` outside quotes opens; a value
/// without one is an address up to its first `;`.
pub fn tag_of(value: &[u8]) -> Option<&[u8]>
    ensures { option_copied result ≡ tag_of value.now }
{
    let text = behind_angles(value)?;
    tag_of_params(cut_outside(text, b';', Shelter::QuotesAndAngles).1)
}
