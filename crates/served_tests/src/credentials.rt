//! Credentials as a telephone makes them of a challenge (RFC 7616 section 3.4).
use sip_digest::{append_nonce, md5_response, sha256_response};
use std::alloc::{AllocError, Global};

/// What the service makes nonces with.
pub const SECRET: [u8; 32] = [7; 32];

/// The second since 1970 at which the service begins.
pub const BEGAN: u32 = 1_764_400_000;

/// How many digits a hash by SHA-256 has.
const SHA256_DIGITS: usize = 64;

/// Who has a password, the MD5 of `NAME:example.com:PASSWORD` or its SHA-256, and how his credentials differ from those of a telephone that
/// was asked a moment before.
#[derive(Clone, Copy)]
pub struct Password {
    pub name: &'static str,
    pub hash: &'static str,
    /// How many seconds ago the nonce was given.
    pub age: u32,
    /// The address that the nonce was given to, where it is another one.
    pub address: Option<[u8; 4]>,
    /// For which URI they are, where it is another one.
    pub uri: Option<&'static str>,
    /// What stands behind all else.
    pub more: &'static str,
}

/// Those of bob and of alice: `secret` and `wonder`.
pub const BOB: Password = Password {
    name: "bob",
    hash: "2664cba6663a734ef3a6fefc0c0d0821",
    age: 0,
    address: None,
    uri: None,
    more: "",
};

pub const ALICE: Password = Password {
    name: "alice",
    hash: "2ea68a710b96a2d11cb42c2b3758287a",
    ..BOB
};

/// The text of an address.
fn address_of(alloc: Global, addr: [u8; 4]) -> Result<String, AllocError> {
    let [a, b, c, d] = addr;
    format!(in alloc; "{a}.{b}.{c}.{d}")
}

/// The nonce that an address was given so many seconds before this moment, in milliseconds since the service began.
fn nonce_for(alloc: Global, addr: [u8; 4], now: u64, age: u32) -> Result<Vec<u8>, AllocError> {
    let address = address_of(alloc, addr)?;
    let passed = u32::try_from(now / 1_000).unwrap_or(u32::MAX);
    let second = BEGAN.saturating_add(passed).saturating_sub(age);
    let mut nonce = Vec::new(alloc);
    append_nonce(&mut nonce, &SECRET, address.as_bytes(), second)?;
    Ok(nonce)
}

/// The response to a nonce, by SHA-256 where the hash is one of that, with the name of the algorithm then.
fn response_to(
    alloc: Global,
    password: Password,
    nonce: &[u8],
    method: &str,
    uri: &str,
) -> Result<String, AllocError> {
    let hash = password.hash.as_bytes();
    if hash.len() == SHA256_DIGITS {
        let response = sha256_response(hash, nonce, None, method.as_bytes(), uri.as_bytes());
        let response = str::from_utf8(&response).unwrap_or("");
        return format!(in alloc; "response=\"{response}\", algorithm=SHA-256");
    }
    let response = md5_response(hash, nonce, None, method.as_bytes(), uri.as_bytes());
    let response = str::from_utf8(&response).unwrap_or("");
    format!(in alloc; "response=\"{response}\"")
}

/// The value of the credentials by which this one asks by this method for this URI, whose nonce was given to this address at this moment.
pub fn credentials_of(
    alloc: Global,
    password: Password,
    method: &str,
    uri: &str,
    addr: [u8; 4],
    now: u64,
) -> Result<String, AllocError> {
    let uri = match password.uri {
        Some(other) => other,
        None => uri,
    };
    let given = password.address.unwrap_or(addr);
    let nonce = nonce_for(alloc, given, now, password.age)?;
    let response = response_to(alloc, password, &nonce, method, uri)?;
    let nonce = str::from_utf8(&nonce).unwrap_or("");
    let response = response.as_str();
    let Password { name, more, .. } = password;
    format!(in alloc;
        "Digest username=\"{name}\", realm=\"example.com\", nonce=\"{nonce}\", uri=\"{uri}\", {response}{more}"
    )
}
