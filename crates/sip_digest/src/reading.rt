//! The value of an Authorization or Proxy-Authorization line.
ghost use Rattle.std.specs.Prelude.{◌≡◌, Bool, List, IfOk, IfSome, Some};
ghost use Rattle.std.specs.Option.{option_copied, option_map};
ghost use Rattle.sip_digest.specs.AuthParam.{AuthParam};
ghost use Rattle.sip_digest.specs.Credentials.{IsOfRealm, credentials_in};
ghost use Rattle.sip_digest.specs.SeenCredentials.{IsReadingOf, seen_reading, seen_text};
ghost use Rattle.sip_digest.specs.inner.Reading.{behind_scheme, is_text, read_credentials};
ghost use Rattle.sip_digest.specs.inner.SeenFields.{seen_value};

use crate::auth_text::value_of;
use crate::credentials::{Credentials, credentials_of};
use crate::element::WrittenValue;
use crate::fields::fields_of;
use sip_lex::cut_at_space;
use std::alloc::{AllocError, Allocator};

/// What the value of an Authorization or Proxy-Authorization line is.
#[derive(Drop)]
pub enum ReadCredentials<'a, A: Allocator> {
    /// No credentials of the scheme Digest for this realm.
    OtherRealm,
    /// Credentials for this realm, but with a fault, or without something that is needed.
    Unreadable,
    /// Credentials for this realm.
    Read(Credentials<'a, A>),
}

/// What stands behind the scheme Digest.
fn behind_scheme(value: &[u8]) -> Option<&[u8]>
    ensures { option_copied result ≡ behind_scheme value.now }
{
    match cut_at_space(value) {
        (_, None) => None,
        (scheme, Some(text)) => {
            if scheme.eq_ignore_ascii_case(b"digest") {
                Some(text)
            } else {
                None
            }
        }
    }
}

/// Whether there is a value, and it is this text.
fn is_text<A: Allocator>(
    alloc: A,
    value: Option<WrittenValue<'_>>,
    text: &[u8],
) -> Result<bool, AllocError>
    ensures { IfOk result (λ is. is ≡ is_text text.now (option_map seen_value value.entry)) }
{
    let Some(value) = value else {
        return Ok(false);
    };
    let value = value_of(alloc, value)?;
    Ok(value.as_slice() == text)
}

#[tactic(auto, unfolding(crate::specs::inner::Reading::read_credentials))]
fn read_all<'a, A: Allocator + Clone>(
    alloc: &A,
    value: &'a [u8],
    realm: &[u8],
) -> Result<ReadCredentials<'a, A>, AllocError>
    ensures { IfOk result (λ reading. seen_reading reading ≡ read_credentials value.now realm.now) }
{
    let Some(text) = behind_scheme(value) else {
        return Ok(ReadCredentials::OtherRealm);
    };
    let fields = fields_of(text);
    if !is_text(alloc.clone()?, fields.realm, realm)? {
        return Ok(ReadCredentials::OtherRealm);
    }
    if !fields.is_whole {
        return Ok(ReadCredentials::Unreadable);
    }
    match credentials_of(alloc, &fields)? {
        None => Ok(ReadCredentials::Unreadable),
        Some(credentials) => Ok(ReadCredentials::Read(credentials)),
    }
}

/// What the value of an Authorization or Proxy-Authorization line is (RFC 3261 sections 20.7, 20.28 and 25.1).
///
/// Credentials for a realm are those of the scheme Digest, in any case, whose parameters, read up to the first fault, name
/// that realm. They are read where there is no fault and they have `username`, `nonce`, `uri` and `response`, and with
/// `qop=auth` a `cnonce` and an `nc` of eight hexadecimal digits. A parameter is a name, `=` and a token or quoted text,
/// with space round each; names ignore case, and of those of one name the first counts.
///
/// # Errors
///
/// Only where the allocator refuses; memory is taken only for texts with escapes.
pub fn read_credentials<'a, A: Allocator + Clone>(
    alloc: A,
    value: &'a [u8],
    realm: &[u8],
) -> Result<ReadCredentials<'a, A>, AllocError>
    ensures found { IfOk result (IsReadingOf value.now realm.now) }
    ensures only { (params : List AuthParam) (whole : Bool) → IsOfRealm value.now realm.now params whole
        → IfOk result (λ reading. seen_reading reading ≡ Some (credentials_in params whole)) }
{
    read_all(&alloc, value, realm)
}
