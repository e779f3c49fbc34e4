//! Classes of bytes, and texts made of them.

ghost use Rattle.std.specs.Prelude.{◌≡◌, IfOk};
ghost use Rattle.std.specs.Char.{is_ascii_digit};
ghost use Rattle.std.specs.List.{list_all};
ghost use Rattle.std.specs.Str.{str_to_ascii_lowercase};
ghost use Rattle.sip_lex.specs.Bytes.{is_printed, is_space, is_token, is_token_byte, is_token_mark};

use std::alloc::{AllocError, Allocator};

/// Whether a byte is a space or a tab, `WSP` of RFC 3261 section 25.1.
pub fn is_space(byte: u8) -> bool
    ensures { result ≡ is_space byte }
{
    byte == b' ' || byte == b'\t'
}

/// Whether a byte is one of those that may stand in a token beside letters and digits.
fn is_token_mark(byte: u8) -> bool
    ensures { result ≡ is_token_mark byte }
{
    matches!(
        byte,
        b'-' | b'.' | b'!' | b'%' | b'*' | b'_' | b'+' | b'`' | b'\'' | b'~'
    )
}

/// Whether a byte may stand in a token. Most are letters.
pub(crate) fn is_token_byte(byte: u8) -> bool
    ensures { result ≡ is_token_byte byte }
{
    byte.is_ascii_alphabetic() || byte.is_ascii_digit() || is_token_mark(byte)
}

fn are_token_bytes(bytes: &[u8]) -> bool
    ensures { result ≡ list_all is_token_byte bytes.now }
{
    bytes.iter().all(|byte| is_token_byte(*byte))
}

/// Whether a text is a `token` of RFC 3261 section 25.1, so not empty.
pub fn is_token(bytes: &[u8]) -> bool
    ensures { result ≡ is_token bytes.now }
{
    !bytes.is_empty() && are_token_bytes(bytes)
}

/// Whether each byte of a text is a decimal digit, as in the empty text.
pub fn are_digits(bytes: &[u8]) -> bool
    ensures { result ≡ list_all is_ascii_digit bytes.now }
{
    bytes.iter().all(|byte| byte.is_ascii_digit())
}

/// Whether each byte of a text is a printed one of ASCII other than space, as in the empty text.
pub fn are_printed(bytes: &[u8]) -> bool
    ensures { result ≡ list_all is_printed bytes.now }
{
    bytes.iter().all(|b| 33 <= *b && *b <= 126)
}

/// A copy of a text with its ASCII letters in lower case.
///
/// # Errors
///
/// Only where the allocator refuses.
pub fn lowered<A: Allocator>(alloc: A, bytes: &[u8]) -> Result<Vec<u8, A>, AllocError>
    ensures { IfOk result (λ copy. copy.items ≡ str_to_ascii_lowercase bytes.now) }
{
    let mut copy = Vec::from_slice(alloc, bytes)?;
    copy.make_ascii_lowercase();
    Ok(copy)
}
