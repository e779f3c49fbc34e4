//! What the password of a user is known by.

use crate::digests::{md5_of, sha256_of};

/// H(A1) of a user, that is of `NAME:REALM:PASSWORD`, in lower case hexadecimal digits (RFC 7616 section 3.4.2): by each
/// algorithm by which it is kept. No password can be told from it; but who has it can answer challenges of this realm.
#[derive(Clone, Copy, Debug)]
pub struct Secrets {
    pub md5: Option<[u8; 32]>,
    pub sha256: Option<[u8; 64]>,
}

impl Secrets {
    ghost use Rattle.std.specs.Prelude.{◌≡◌};
    ghost use Rattle.sip_digest.specs.Secrets.{secrets_of};

    /// What the password of a user is known by in a realm, by each algorithm.
    pub fn of<'a>(name: &'a [u8], realm: &'a [u8], password: &'a [u8]) -> Secrets
        ensures { result ≡ secrets_of name.now realm.now password.now }
    {
        let md5 = md5_of(&[name, b":", realm, b":", password]);
        let sha256 = sha256_of(&[name, b":", realm, b":", password]);
        Secrets {
            md5: Some(md5),
            sha256: Some(sha256),
        }
    }
}
