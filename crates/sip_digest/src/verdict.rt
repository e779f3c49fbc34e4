//! Whether credentials are right.
ghost use Rattle.std.specs.Prelude.{◌≡◌, ◌↔◌, IfOk, IsTrue, Some};
ghost use Rattle.std.specs.Option.{option_map};
ghost use Rattle.sip_digest.specs.declared.algorithm.Algorithm.TheVariants as algorithm;
ghost use Rattle.sip_digest.specs.declared.verdict.CredentialsVerdict.TheVariants as verdict;
ghost use Rattle.sip_digest.specs.Response.{between};
ghost use Rattle.sip_digest.specs.Right.{AreRight, IsAnswered, between_of, secret_of};
ghost use Rattle.sip_digest.specs.SeenCredentials.{seen_credentials, seen_quality};
ghost use Rattle.sip_digest.specs.Stamp.{IsGoodNonce};
ghost use Rattle.sip_digest.specs.inner.Verdict.{is_answered, is_response};

use crate::algorithm::{Algorithm, Algorithms};
use crate::credentials::{Credentials, Quality};
use crate::request_uri::is_uri_of;
use crate::response::{Protection, md5_response, sha256_response};
use crate::same::is_same_lowered;
use crate::secrets::Secrets;
use crate::stamp::is_good_nonce;
use std::alloc::{AllocError, Allocator};

/// The request that credentials came with.
#[derive(Clone, Copy, Debug)]
pub struct JudgedRequest<'a> {
    /// The method as it is written.
    pub method: &'a [u8],
    /// The Request-URI as it is written.
    pub uri: &'a [u8],
    /// The address that it came from, as text.
    pub address: &'a [u8],
    /// The second since 1970 at which it came.
    pub second: u32,
}

/// What credentials are worth.
#[derive(Clone, Copy, Debug, PartialEq, Eq)]
pub enum CredentialsVerdict {
    /// They are those of the user.
    Right,
    /// Their nonce is not good: the same password with a new nonce may do.
    Stale,
    /// Their nonce is good, and they are not those of the user.
    Wrong,
}

/// The digits of H(A1) by MD5, if there is a user who has them.
fn md5_secret(secrets: Option<Secrets>) -> Option<[u8; 32]>
    ensures { result ≡ secret_of algorithm.Md5 secrets }
{
    match secrets {
        None => None,
        Some(secrets) => secrets.md5,
    }
}

/// The digits of H(A1) by SHA-256, if there is a user who has them.
fn sha256_secret(secrets: Option<Secrets>) -> Option<[u8; 64]>
    ensures { result ≡ secret_of algorithm.Sha256 secrets }
{
    match secrets {
        None => None,
        Some(secrets) => secrets.sha256,
    }
}

/// Whether a response is that by MD5 of one who knows the secret, if there is one. Without a secret the same digests are
/// made, so that the time does not tell who is a user.
fn is_md5_response(
    secret: Option<[u8; 32]>,
    response: &[u8],
    nonce: &[u8],
    protection: Option<Protection<'_>>,
    method: &[u8],
    uri: &[u8],
) -> bool
    ensures { result ≡ is_response algorithm.Md5 secret response.now nonce.now (between protection.entry) method.now uri.now }
{
    let digits = secret.unwrap_or([b'0'; 32]);
    let made = md5_response(&digits, nonce, protection, method, uri);
    let same = is_same_lowered(response, &made);
    same & secret.is_some()
}

/// Whether a response is that by SHA-256 of one who knows the secret, if there is one. Without a secret the same digests are
/// made, so that the time does not tell who is a user.
fn is_sha256_response(
    secret: Option<[u8; 64]>,
    response: &[u8],
    nonce: &[u8],
    protection: Option<Protection<'_>>,
    method: &[u8],
    uri: &[u8],
) -> bool
    ensures { result ≡ is_response algorithm.Sha256 secret response.now nonce.now (between protection.entry) method.now uri.now }
{
    let digits = secret.unwrap_or([b'0'; 64]);
    let made = sha256_response(&digits, nonce, protection, method, uri);
    let same = is_same_lowered(response, &made);
    same & secret.is_some()
}

/// What stands between the nonce and the digest of method and URI; `None` where the quality is not known.
fn protection_of<'c, A: Allocator>(quality: &'c Quality<'_, A>) -> Option<Option<Protection<'c>>>
    ensures { option_map between result ≡ between_of (seen_quality quality.now) }
{
    match quality {
        Quality::Unsaid => Some(None),
        Quality::Auth(nc, cnonce, qop) => Some(Some(Protection {
            nc: nc.as_slice(),
            cnonce: cnonce.as_slice(),
            qop: qop.as_slice(),
        })),
        Quality::Other => None,
    }
}

/// Whether the response of credentials is that of one who knows the password.
fn is_answered<A: Allocator>(
    algorithms: Algorithms,
    secrets: Option<Secrets>,
    method: &[u8],
    credentials: &Credentials<'_, A>,
) -> bool
    ensures { result ≡ is_answered algorithms secrets method.now (seen_credentials credentials.now) }
{
    let Some(algorithm) = credentials.algorithm else {
        return false;
    };
    let Some(protection) = protection_of(&credentials.quality) else {
        return false;
    };
    if !algorithms.has(algorithm) {
        return false;
    }
    let response = credentials.response.as_slice();
    let nonce = credentials.nonce.as_slice();
    let uri = credentials.uri.as_slice();
    match algorithm {
        Algorithm::Md5 => is_md5_response(
            md5_secret(secrets),
            response,
            nonce,
            protection,
            method,
            uri,
        ),
        Algorithm::Sha256 => is_sha256_response(
            sha256_secret(secrets),
            response,
            nonce,
            protection,
            method,
            uri,
        ),
    }
}

/// What credentials are worth that came with a request (RFC 3261 section 22.4): `secrets` are those of the user whom they
/// name, if there is one, `algorithms` those of the realm, and `secret` is what the nonces are made with.
///
/// They are right where the nonce is good for the address that they came from, `uri` is the request's, and the response is
/// that of the user's password by an algorithm of the realm, in any case of letters. `nc` is hashed and not compared. For a
/// user who is not known the same digests are made.
///
/// # Errors
///
/// Only where the allocator refuses; memory is taken only where `uri` is not the text of the Request-URI.
pub fn verdict_of<A: Allocator + Clone>(
    alloc: A,
    secret: &[u8; 32],
    algorithms: Algorithms,
    secrets: Option<Secrets>,
    asked: &JudgedRequest<'_>,
    credentials: &Credentials<'_, A>,
) -> Result<CredentialsVerdict, AllocError>
    ensures right { IfOk result (λ given. (given ≡ verdict.Right)
        ↔ AreRight secret.now algorithms secrets asked.now (seen_credentials credentials.now)) }
    ensures stale { IfOk result (λ given. (given ≡ verdict.Stale)
        ↔ (IsGoodNonce secret.now asked.now.address.now asked.now.second (seen_credentials credentials.now).nonce → ⊥)) }
{
    if !is_good_nonce(
        credentials.nonce.as_slice(),
        secret,
        asked.address,
        asked.second,
    ) {
        return Ok(CredentialsVerdict::Stale);
    }
    if !is_answered(algorithms, secrets, asked.method, credentials) {
        return Ok(CredentialsVerdict::Wrong);
    }
    if is_uri_of(alloc, credentials.uri.as_slice(), asked.uri)? {
        Ok(CredentialsVerdict::Right)
    } else {
        Ok(CredentialsVerdict::Wrong)
    }
}
