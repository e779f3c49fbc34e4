//! The elements of the list of parameters.
ghost use Rattle.std.specs.Prelude.{◌≡◌};
ghost use Rattle.std.specs.Option.{option_map};
ghost use Rattle.sip_lex.specs.Quoted.{quoted_at};
ghost use Rattle.sip_digest.specs.inner.Reading.{read_element, read_value, whole_quoted};
ghost use Rattle.sip_digest.specs.inner.SeenFields.{seen_param, seen_value};

use sip_lex::{cut_at, cut_quoted, is_token, trim};

/// The value of a parameter: a token, or what stands inside quotes, as written.
#[derive(Clone, Copy)]
pub struct WrittenValue<'a> {
    pub text: &'a [u8],
    pub is_quoted: bool,
}

fn read_quoted(text: &[u8]) -> Option<WrittenValue<'_>>
    ensures { option_map seen_value result ≡ whole_quoted (quoted_at text.now) }
{
    match cut_quoted(text) {
        Some((inside, [])) => Some(WrittenValue {
            text: inside,
            is_quoted: true,
        }),
        _ => None,
    }
}

fn read_value(text: &[u8]) -> Option<WrittenValue<'_>>
    ensures { option_map seen_value result ≡ read_value text.now }
{
    if is_token(text) {
        return Some(WrittenValue {
            text,
            is_quoted: false,
        });
    }
    read_quoted(text)
}

/// The name and the value of a parameter; `None` where the text is none.
pub(crate) fn read_element(element: &[u8]) -> Option<(&[u8], WrittenValue<'_>)>
    ensures { option_map seen_param result ≡ read_element element.now }
{
    match cut_at(element, b'=') {
        (_, None) => None,
        (left, Some(right)) => {
            let name = trim(left);
            if !is_token(name) {
                return None;
            }
            let value = read_value(trim(right))?;
            Some((name, value))
        }
    }
}
