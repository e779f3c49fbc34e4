//! Credentials.
ghost use Rattle.std.specs.Prelude.{◌≡◌, IfOk};
ghost use Rattle.std.specs.Char.{is_ascii_hexdigit};
ghost use Rattle.std.specs.List.{list_all};
ghost use Rattle.std.specs.Option.{option_map};
ghost use Rattle.sip_digest.specs.Credentials.{algorithm_of, credentials_of, is_count, protected, quality_of};
ghost use Rattle.sip_digest.specs.SeenCredentials.{seen_credentials, seen_quality, seen_text};
ghost use Rattle.sip_digest.specs.inner.SeenFields.{seen_fields, seen_value};

use crate::algorithm::Algorithm;
use crate::auth_text::{AuthText, value_of};
use crate::element::WrittenValue;
use crate::fields::Fields;
use std::alloc::{AllocError, Allocator};

/// The quality of protection of credentials (RFC 7616 section 3.4).
#[derive(Drop)]
pub enum Quality<'a, A: Allocator> {
    /// There is no `qop`, as in RFC 2617 section 3.2.2.1.
    Unsaid,
    /// `auth`: the count of the nonce's uses, the nonce of the client, and the value of `qop` as it is written.
    Auth(AuthText<'a, A>, AuthText<'a, A>, AuthText<'a, A>),
    /// Another one, as `auth-int`.
    Other,
}

/// Credentials of the scheme Digest (RFC 3261 section 22.4, RFC 7616 section 3.4).
#[derive(Drop)]
pub struct Credentials<'a, A: Allocator> {
    pub username: AuthText<'a, A>,
    pub nonce: AuthText<'a, A>,
    pub uri: AuthText<'a, A>,
    pub response: AuthText<'a, A>,
    /// The algorithm, MD5 where none is named; `None` where it is one that is not known.
    pub algorithm: Option<Algorithm>,
    pub quality: Quality<'a, A>,
}

fn are_hexadecimal(bytes: &[u8]) -> bool
    ensures { result ≡ list_all is_ascii_hexdigit bytes.now }
{
    bytes.iter().all(|digit| digit.is_ascii_hexdigit())
}

/// Whether a text is the count of a nonce's uses: eight hexadecimal digits.
fn is_count(nc: &[u8]) -> bool
    ensures { result ≡ is_count nc.now }
{
    nc.len() == 8 && are_hexadecimal(nc)
}

/// The quality `auth`, where it has what it needs.
fn protected<'a, A: Allocator + Clone>(
    alloc: &A,
    qop: AuthText<'a, A>,
    nc: Option<WrittenValue<'a>>,
    cnonce: Option<WrittenValue<'a>>,
) -> Result<Option<Quality<'a, A>>, AllocError>
    ensures { IfOk result (λ quality. option_map seen_quality quality
        ≡ protected (seen_text qop.entry) (option_map seen_value nc.entry) (option_map seen_value cnonce.entry)) }
{
    let Some(nc) = nc else {
        return Ok(None);
    };
    let Some(cnonce) = cnonce else {
        return Ok(None);
    };
    let nc = value_of(alloc.clone()?, nc)?;
    if !is_count(nc.as_slice()) {
        return Ok(None);
    }
    let cnonce = value_of(alloc.clone()?, cnonce)?;
    Ok(Some(Quality::Auth(nc, cnonce, qop)))
}

/// The quality of protection; `None` where something that it needs is missing.
fn quality_of<'a, A: Allocator + Clone>(
    alloc: &A,
    qop: Option<WrittenValue<'a>>,
    nc: Option<WrittenValue<'a>>,
    cnonce: Option<WrittenValue<'a>>,
) -> Result<Option<Quality<'a, A>>, AllocError>
    ensures { IfOk result (λ quality. option_map seen_quality quality
        ≡ quality_of (option_map seen_value qop.entry) (option_map seen_value nc.entry) (option_map seen_value cnonce.entry)) }
{
    let Some(qop) = qop else {
        return Ok(Some(Quality::Unsaid));
    };
    let qop = value_of(alloc.clone()?, qop)?;
    if !qop.as_slice().eq_ignore_ascii_case(b"auth") {
        return Ok(Some(Quality::Other));
    }
    protected(alloc, qop, nc, cnonce)
}

fn algorithm_of<A: Allocator>(
    alloc: A,
    name: Option<WrittenValue<'_>>,
) -> Result<Option<Algorithm>, AllocError>
    ensures { IfOk result (λ algorithm. algorithm ≡ algorithm_of (option_map seen_value name.entry)) }
{
    let Some(name) = name else {
        return Ok(Some(Algorithm::Md5));
    };
    let name = value_of(alloc, name)?;
    Ok(Algorithm::named(name.as_slice()))
}

/// The credentials of these parameters; `None` where something that is needed is missing.
pub(crate) fn credentials_of<'a, A: Allocator + Clone>(
    alloc: &A,
    fields: &Fields<'a>,
) -> Result<Option<Credentials<'a, A>>, AllocError>
    ensures { IfOk result (λ credentials. option_map seen_credentials credentials ≡ credentials_of (seen_fields fields.now)) }
{
    let Some(username) = fields.username else {
        return Ok(None);
    };
    let Some(nonce) = fields.nonce else {
        return Ok(None);
    };
    let Some(uri) = fields.uri else {
        return Ok(None);
    };
    let Some(response) = fields.response else {
        return Ok(None);
    };
    let Some(quality) = quality_of(alloc, fields.qop, fields.nc, fields.cnonce)? else {
        return Ok(None);
    };
    let algorithm = algorithm_of(alloc.clone()?, fields.algorithm)?;
    let username = value_of(alloc.clone()?, username)?;
    let nonce = value_of(alloc.clone()?, nonce)?;
    let uri = value_of(alloc.clone()?, uri)?;
    let response = value_of(alloc.clone()?, response)?;
    Ok(Some(Credentials {
        username,
        nonce,
        uri,
        response,
        algorithm,
        quality,
    }))
}
