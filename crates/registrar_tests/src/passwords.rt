//! What a telephone that has a password adds to its request.
use crate::world::{SECOND, SECRET};
use sip_digest::{Algorithm, Protection, Secrets, append_nonce, md5_response, sha256_response};
use std::alloc::{AllocError, Global};

/// How a telephone answers a challenge.
#[derive(Clone, Copy)]
pub struct Password {
    pub name: &'static [u8],
    pub password: &'static [u8],
    pub algorithm: Algorithm,
    /// The address that its nonce was given to.
    pub address: &'static [u8],
    /// How many seconds before the test the nonce was given.
    pub age: u32,
    /// The URI that its credentials are for.
    pub uri: &'static [u8],
    /// What it says of `qop`.
    pub quality: &'static [u8],
}

const QUALITY: &[u8] = b", qop=auth, nc=00000001, cnonce=\"c\"";

/// bob's, by SHA-256, for a REGISTER of the domain.
pub const BOBS: Password = Password {
    name: b"bob",
    password: b"secret",
    algorithm: Algorithm::Sha256,
    address: b"198.51.100.7",
    age: 10,
    uri: b"sip:example.com",
    quality: QUALITY,
};

fn algorithm_text(algorithm: Algorithm) -> &'static [u8] {
    match algorithm {
        Algorithm::Md5 => b", algorithm=MD5",
        Algorithm::Sha256 => b", algorithm=SHA-256",
    }
}

/// The response of one who has that password.
fn response(
    alloc: Global,
    password: &Password,
    method: &[u8],
    nonce: &[u8],
) -> Result<Vec<u8, Global>, AllocError> {
    let secrets = Secrets::of(password.name, b"example.com", password.password);
    let protection = Some(Protection {
        nc: b"00000001",
        cnonce: b"c",
        qop: b"auth",
    });
    match password.algorithm {
        Algorithm::Md5 => {
            let digits = secrets.md5.unwrap_or([0; 32]);
            let made = md5_response(&digits, nonce, protection, method, password.uri);
            Vec::from_slice(alloc, &made)
        }
        Algorithm::Sha256 => {
            let digits = secrets.sha256.unwrap_or([0; 64]);
            let made = sha256_response(&digits, nonce, protection, method, password.uri);
            Vec::from_slice(alloc, &made)
        }
    }
}

/// Appends the line of that name with these credentials.
fn append_credentials(
    out: &mut Vec<u8, Global>,
    field: &[u8],
    password: &Password,
    nonce: &[u8],
    response: &[u8],
) -> Result<(), AllocError> {
    out.extend_from_slice(field)?;
    out.extend_from_slice(b": Digest username=\"")?;
    out.extend_from_slice(password.name)?;
    out.extend_from_slice(b"\", realm=\"example.com\", nonce=\"")?;
    out.extend_from_slice(nonce)?;
    out.extend_from_slice(b"\", uri=\"")?;
    out.extend_from_slice(password.uri)?;
    out.extend_from_slice(b"\", response=\"")?;
    out.extend_from_slice(response)?;
    out.extend_from_slice(b"\"")?;
    out.extend_from_slice(algorithm_text(password.algorithm))?;
    out.extend_from_slice(password.quality)?;
    out.extend_from_slice(b"\r\n")
}

/// The line of that name with its credentials.
pub fn line(
    alloc: Global,
    field: &[u8],
    password: &Password,
    method: &[u8],
) -> Result<Vec<u8, Global>, AllocError> {
    let mut nonce = Vec::new(alloc);
    append_nonce(
        &mut nonce,
        &SECRET,
        password.address,
        SECOND - password.age % 1000,
    )?;
    let response = response(alloc, password, method, &nonce)?;
    let mut text = Vec::new(alloc);
    append_credentials(&mut text, field, password, &nonce, &response)?;
    Ok(text)
}

/// The same, or nothing where no credentials are sent.
pub fn line_if_any(
    alloc: Global,
    field: &[u8],
    password: Option<Password>,
    method: &[u8],
) -> Option<Vec<u8, Global>> {
    match password {
        None => Some(Vec::new(alloc)),
        Some(password) => line(alloc, field, &password, method).ok(),
    }
}
