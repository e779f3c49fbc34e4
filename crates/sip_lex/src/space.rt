//! Space and tabs at the ends of a text.

ghost use Rattle.std.specs.Prelude.{◌≡◌};
ghost use Rattle.sip_lex.specs.Bytes.{trim, trim_end, trim_start};
ghost use Rattle.sip_lex.specs.Values.{begins_with_space};

use crate::bytes::is_space;

/// A text without the spaces and tabs at its front.
pub fn trim_start(text: &[u8]) -> &[u8]
    ensures { result.now ≡ trim_start text.now }
{
    let mut rest = text;
    while let [b' ' | b'\t', more @ ..] = rest {
        rest = more;
    }
    rest
}

/// A text without the spaces and tabs at its end.
pub fn trim_end(text: &[u8]) -> &[u8]
    ensures { result.now ≡ trim_end text.now }
{
    let mut n = text.len();
    while n > 0 && is_space(text[n - 1]) {
        n -= 1;
    }
    &text[..n]
}

/// A text without the spaces and tabs at its ends.
pub fn trim(text: &[u8]) -> &[u8]
    ensures { result.now ≡ trim text.now }
{
    trim_end(trim_start(text))
}

/// Whether a text begins with a space or a tab.
pub fn begins_with_space(text: &[u8]) -> bool
    ensures { result ≡ begins_with_space text.now }
{
    match text {
        [] => false,
        [first, ..] => is_space(*first),
    }
}
