//! Quoted text, `quoted-string` of RFC 3261 section 25.1 without its leading space.

ghost use Rattle.std.specs.Prelude.{◌≡◌, ◌≤◌, ℕ, List, false, length, IfSome, IfNone};
ghost use Rattle.sip_lex.specs.Line.{seen_line};
ghost use Rattle.sip_lex.specs.Quoted.{IsQuoted, quoted_at, quoted_len};

/// How many bytes stand before the quote that ends the text.
fn quoted_len(text: &[u8]) -> usize
    ensures value { result ≡ quoted_len false text.now }
    ensures within { result ≤ length text.now }
{
    let mut escaped = false;
    for (i, byte) in text.iter().enumerate() {
        if *byte == b'"' && !escaped {
            return i;
        }
        escaped = !escaped && *byte == b'\\';
    }
    text.len()
}

fn split_quoted(text: &[u8]) -> Option<(&[u8], &[u8])>
    ensures { seen_line result ≡ quoted_at text.now }
{
    let [b'"', text @ ..] = text else {
        return None;
    };
    let (inside, rest) = text.split_at(quoted_len(text));
    match rest {
        [] => None,
        [_, rest @ ..] => Some((inside, rest)),
    }
}

/// What stands inside the quotes at the front, as written, and what stands behind them.
///
/// A backslash takes the next byte with it. `None` where the text doesn't begin with a quote, or
/// that quote isn't closed.
pub fn cut_quoted(text: &[u8]) -> Option<(&[u8], &[u8])>
    ensures value { seen_line result ≡ quoted_at text.now }
    ensures found { IfSome result (λ p. IsQuoted text.now p.0.now p.1.now) }
    ensures none { IfNone result ((inside rest : List ℕ) → IsQuoted text.now inside rest → ⊥) }
{
    split_quoted(text)
}
