//! Texts of credentials.
ghost use Rattle.std.specs.Prelude.{◌≡◌, ◌==◌, false, IfOk};
ghost use Rattle.std.specs.List.{list_any};
ghost use Rattle.sip_digest.specs.AuthParam.{unescaped};
ghost use Rattle.sip_digest.specs.SeenCredentials.{seen_text};
ghost use Rattle.sip_digest.specs.inner.SeenFields.{seen_value};

use crate::element::WrittenValue;
use std::alloc::{AllocError, Allocator};

/// A text of credentials without its quotes and escapes.
#[derive(Drop)]
pub enum AuthText<'a, A: Allocator> {
    /// It stands so in the value of the header field.
    Lent(&'a [u8]),
    /// It had escapes there, and is a copy without them.
    Made(Vec<u8, A>),
}

impl<'a, A: Allocator> AuthText<'a, A> {
    /// Its bytes.
    pub fn as_slice(&self) -> &[u8]
        ensures { result.now ≡ seen_text self.now }
    {
        match self {
            AuthText::Lent(bytes) => bytes,
            AuthText::Made(bytes) => bytes.as_slice(),
        }
    }
}

/// What stands inside quotes, without each backslash that takes the next byte with it.
fn without_escapes<A: Allocator>(alloc: A, text: &[u8]) -> Result<Vec<u8, A>, AllocError>
    ensures { IfOk result (λ made. made.items ≡ unescaped false text.now) }
{
    let mut made = Vec::with_capacity(alloc, text.len())?;
    let mut escaped = false;
    for byte in text {
        if *byte == b'\\' && !escaped {
            escaped = true;
        } else {
            made.push(*byte)?;
            escaped = false;
        }
    }
    Ok(made)
}

fn has_escapes(text: &[u8]) -> bool
    ensures { result ≡ list_any (λ b. b == 92) text.now }
{
    text.contains(&b'\\')
}

/// The text inside quotes without its escapes.
#[tactic(auto, using(crate::proofs::Escapes::no_escapes))]
fn unquoted<A: Allocator>(alloc: A, inside: &[u8]) -> Result<AuthText<'_, A>, AllocError>
    ensures { IfOk result (λ text. seen_text text ≡ unescaped false inside.now) }
{
    if has_escapes(inside) {
        Ok(AuthText::Made(without_escapes(alloc, inside)?))
    } else {
        Ok(AuthText::Lent(inside))
    }
}

/// The value that is written so; memory is taken only where it has escapes.
pub(crate) fn value_of<'a, A: Allocator>(
    alloc: A,
    written: WrittenValue<'a>,
) -> Result<AuthText<'a, A>, AllocError>
    ensures { IfOk result (λ text. seen_text text ≡ seen_value written.entry) }
{
    if written.is_quoted {
        unquoted(alloc, written.text)
    } else {
        Ok(AuthText::Lent(written.text))
    }
}
