//! Tokens that stand before a mark.

ghost use Rattle.std.specs.Prelude.{◌≡◌, ◌≢◌, ◌++◌, ◌∷◌, ℕ, List, true, false, IfSome, IfNone};
ghost use Rattle.std.specs.List.{prefix_len};
ghost use Rattle.sip_lex.specs.Bytes.{is_token, is_token_byte};

use crate::bytes::is_token_byte;

/// How many bytes that may stand in a token a text begins with.
fn token_len(text: &[u8]) -> usize
    ensures { result ≡ prefix_len is_token_byte text.now }
{
    for (i, byte) in text.iter().enumerate() {
        if !is_token_byte(*byte) {
            return i;
        }
    }
    text.len()
}

/// The token at the front of a text that `mark` stands right behind, and what stands behind the mark
/// (RFC 3261 section 25.1). It is found in one walk.
pub fn cut_token(text: &[u8], mark: u8) -> Option<(&[u8], &[u8])>
    ensures token { IfSome result (λ p. is_token p.0.now ≡ true) }
    ensures whole { IfSome result (λ p. text.now ≡ p.0.now ++ mark ∷ p.1.now) }
    ensures none { IfNone result ((token behind : List ℕ)
        → is_token token ≡ true
        → is_token_byte mark ≡ false
        → text.now ≢ token ++ mark ∷ behind) }
{
    let (token, rest) = text.split_at(token_len(text));
    match rest {
        [first, behind @ ..] if *first == mark && !token.is_empty() => Some((token, behind)),
        _ => None,
    }
}
