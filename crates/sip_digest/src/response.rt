//! The response to a challenge.
ghost use Rattle.std.specs.Prelude.{◌≡◌};
ghost use Rattle.sip_digest.specs.declared.algorithm.Algorithm.TheVariants as algorithm;
ghost use Rattle.sip_digest.specs.Response.{between, method_digest, response_of};

use crate::digests::{md5_of, sha256_of};

/// What `qop=auth` adds to a response (RFC 7616 section 3.4): the count of the nonce's uses, the nonce of the client, and the
/// value of `qop`, each as the client wrote it.
#[derive(Clone, Copy, Debug)]
pub struct Protection<'a> {
    pub nc: &'a [u8],
    pub cnonce: &'a [u8],
    pub qop: &'a [u8],
}

fn md5_method(method: &[u8], uri: &[u8]) -> [u8; 32]
    ensures { result ≡ method_digest algorithm.Md5 method.now uri.now }
{
    md5_of(&[method, b":", uri])
}

fn sha256_method(method: &[u8], uri: &[u8]) -> [u8; 64]
    ensures { result ≡ method_digest algorithm.Sha256 method.now uri.now }
{
    sha256_of(&[method, b":", uri])
}

/// The response by MD5 of one who knows the password whose H(A1) has these digits (RFC 7616 section 3.4.1): in lower case
/// hexadecimal digits. Without a protection as RFC 2617 section 3.2.2.1 has it for a challenge without `qop`.
pub fn md5_response<'a>(
    secret: &'a [u8],
    nonce: &'a [u8],
    protection: Option<Protection<'a>>,
    method: &[u8],
    uri: &[u8],
) -> [u8; 32]
    ensures { result ≡ response_of algorithm.Md5 secret.now nonce.now (between protection.entry) method.now uri.now }
{
    let last = md5_method(method, uri);
    match protection {
        None => md5_of(&[secret, b":", nonce, b":", &last]),
        Some(p) => md5_of(&[
            secret, b":", nonce, b":", p.nc, b":", p.cnonce, b":", p.qop, b":", &last,
        ]),
    }
}

/// The response by SHA-256 of one who knows the password whose H(A1) has these digits (RFC 7616 section 3.4.1): in lower case
/// hexadecimal digits. Without a protection as RFC 2617 section 3.2.2.1 has it for a challenge without `qop`.
pub fn sha256_response<'a>(
    secret: &'a [u8],
    nonce: &'a [u8],
    protection: Option<Protection<'a>>,
    method: &[u8],
    uri: &[u8],
) -> [u8; 64]
    ensures { result ≡ response_of algorithm.Sha256 secret.now nonce.now (between protection.entry) method.now uri.now }
{
    let last = sha256_method(method, uri);
    match protection {
        None => sha256_of(&[secret, b":", nonce, b":", &last]),
        Some(p) => sha256_of(&[
            secret, b":", nonce, b":", p.nc, b":", p.cnonce, b":", p.qop, b":", &last,
        ]),
    }
}
