//! Parameters: a name, or a name, `=` and a value (`generic-param` of RFC 3261 section 25.1).

ghost use Rattle.std.specs.Prelude.{◌≡◌, option_map};
ghost use Rattle.std.specs.Option.{option_copied};
ghost use Rattle.sip_lex.specs.Bytes.{trim};
ghost use Rattle.sip_lex.specs.Params.{is_named, name_of, value_of};

use crate::cut::cut_near;
use crate::space::trim;

/// A text, if there is one, without the space round it.
fn trim_if_any(text: Option<&[u8]>) -> Option<&[u8]>
    ensures { option_copied result ≡ option_map trim (option_copied text.entry) }
{
    Some(trim(text?))
}

/// The name of a parameter, without the space round it.
pub fn param_name(param: &[u8]) -> &[u8]
    ensures { result.now ≡ name_of param.now }
{
    trim(cut_near(param, b'=').0)
}

/// The value of a parameter, if it has one, without the space round it.
pub fn param_value(param: &[u8]) -> Option<&[u8]>
    ensures { option_copied result ≡ value_of param.now }
{
    trim_if_any(cut_near(param, b'=').1)
}

/// The name of a parameter and its value, if it has one, without the space round them.
pub fn param_parts(param: &[u8]) -> (&[u8], Option<&[u8]>)
    ensures name { result.0.now ≡ name_of param.now }
    ensures value { option_copied result.1 ≡ value_of param.now }
{
    let (name, value) = cut_near(param, b'=');
    (trim(name), trim_if_any(value))
}

/// Whether a parameter has that name, in any case.
pub fn is_param_named(param: &[u8], name: &[u8]) -> bool
    ensures { result ≡ is_named name.now param.now }
{
    param_name(param).eq_ignore_ascii_case(name)
}
