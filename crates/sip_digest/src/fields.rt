//! The parameters of credentials that count.
ghost use Rattle.std.specs.Prelude.{◌≡◌, ◌∷◌, ◌<◌, [], length, false, true, Some, None, IfSome, if◌then◌else◌};
ghost use Rattle.std.specs.Option.{option_map};
ghost use Rattle.std.specs.Str.{bytes_eq, str_to_ascii_lowercase};
ghost use Rattle.sip_lex.specs.declared.sheltered.Shelter.TheVariants.{Quotes};
ghost use Rattle.sip_lex.specs.declared.sheltered.ShelterState.TheVariants.{Plain};
ghost use Rattle.sip_lex.specs.Cut.{seen_cut};
ghost use Rattle.sip_lex.specs.Sheltered.{cut_outside};
ghost use Rattle.sip_digest.specs.Credentials.{named_in};
ghost use Rattle.sip_digest.specs.inner.Reading.{first_or, followed, param_of, read_list};
ghost use Rattle.sip_digest.specs.inner.SeenFields.{seen_fields, seen_value};

use crate::element::{WrittenValue, read_element};
use sip_lex::{Shelter, cut_outside};

/// The first value of each name that counts (RFC 7616 section 3.4).
#[derive(Clone, Copy)]
pub struct Fields<'a> {
    pub username: Option<WrittenValue<'a>>,
    pub realm: Option<WrittenValue<'a>>,
    pub nonce: Option<WrittenValue<'a>>,
    pub uri: Option<WrittenValue<'a>>,
    pub response: Option<WrittenValue<'a>>,
    pub algorithm: Option<WrittenValue<'a>>,
    pub qop: Option<WrittenValue<'a>>,
    pub nc: Option<WrittenValue<'a>>,
    pub cnonce: Option<WrittenValue<'a>>,
    /// Whether the list was read to its end.
    pub is_whole: bool,
}

fn no_fields<'a>() -> Fields<'a>
    ensures fields { seen_fields result ≡ named_in [] }
    ensures part { result.is_whole ≡ false }
{
    Fields {
        username: None,
        realm: None,
        nonce: None,
        uri: None,
        response: None,
        algorithm: None,
        qop: None,
        nc: None,
        cnonce: None,
        is_whole: false,
    }
}

/// The value of a field behind one more parameter: the first of its name counts.
fn first_of<'a>(
    field: Option<WrittenValue<'a>>,
    wanted: &[u8],
    name: &[u8],
    value: WrittenValue<'a>,
) -> Option<WrittenValue<'a>>
    ensures { option_map seen_value result
        ≡ first_or (option_map seen_value field.entry)
        (if bytes_eq (str_to_ascii_lowercase name.now) (str_to_ascii_lowercase wanted.now) then Some (seen_value value.entry) else None) }
{
    match field {
        Some(first) => Some(first),
        None if name.eq_ignore_ascii_case(wanted) => Some(value),
        None => None,
    }
}

/// The fields behind one more parameter.
fn with_param<'a>(fields: &Fields<'a>, name: &[u8], value: WrittenValue<'a>) -> Fields<'a>
    ensures fields { seen_fields result ≡ followed (seen_fields fields.now) (named_in (param_of name.now (seen_value value.entry) ∷ [])) }
    ensures part { result.is_whole ≡ false }
{
    Fields {
        username: first_of(fields.username, b"username", name, value),
        realm: first_of(fields.realm, b"realm", name, value),
        nonce: first_of(fields.nonce, b"nonce", name, value),
        uri: first_of(fields.uri, b"uri", name, value),
        response: first_of(fields.response, b"response", name, value),
        algorithm: first_of(fields.algorithm, b"algorithm", name, value),
        qop: first_of(fields.qop, b"qop", name, value),
        nc: first_of(fields.nc, b"nc", name, value),
        cnonce: first_of(fields.cnonce, b"cnonce", name, value),
        is_whole: false,
    }
}

/// The fields, once the list was read to its end.
fn whole<'a>(fields: &Fields<'a>) -> Fields<'a>
    ensures fields { seen_fields result ≡ seen_fields fields.now }
    ensures whole { result.is_whole ≡ true }
{
    Fields {
        username: fields.username,
        realm: fields.realm,
        nonce: fields.nonce,
        uri: fields.uri,
        response: fields.response,
        algorithm: fields.algorithm,
        qop: fields.qop,
        nc: fields.nc,
        cnonce: fields.cnonce,
        is_whole: true,
    }
}

/// The first element, and what stands behind its comma.
fn cut_element(text: &[u8]) -> (&[u8], Option<&[u8]>)
    ensures value { seen_cut result ≡ cut_outside Quotes 44 Plain text.now }
    ensures shorter { IfSome result.1 (λ after. length after.now < length text.now) }
{
    cut_outside(text, b',', Shelter::Quotes)
}

/// The parameters of a list up to its first fault, and whether it has none.
pub(crate) fn fields_of(list: &[u8]) -> Fields<'_>
    ensures fields { seen_fields result ≡ named_in (read_list (Some list.now)).0 }
    ensures whole { result.is_whole ≡ (read_list (Some list.now)).1 }
{
    let mut fields = no_fields();
    let mut rest = Some(list);
    while let Some(text) = rest {
        let (element, after) = cut_element(text);
        let Some((name, value)) = read_element(element) else {
            return fields;
        };
        fields = with_param(&fields, name, value);
        rest = after;
    }
    whole(&fields)
}
