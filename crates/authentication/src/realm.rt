//! The realm that credentials are asked for.
ghost use Rattle.std.specs.Prelude.{◌≡◌, true};
ghost use Rattle.std.specs.List.{list_all};
ghost use Rattle.authentication.specs.Realm.{is_realm_byte};

use sip_digest::{Algorithms, UserList};
use std::alloc::{Allocator, Global};

/// The realm that credentials are asked for, and who has a password there (RFC 3261 section 22.1).
#[derive(Drop)]
pub struct RealmSecrets<'a, U: Allocator = Global> {
    /// Its name, as a challenge has it.
    pub name: &'a [u8],
    /// By which it challenges.
    pub algorithms: Algorithms,
    pub users: &'a UserList<U>,
    /// What its nonces are made with.
    pub secret: &'a [u8; 32],
    pub ghost visible: { list_all is_realm_byte name.now ≡ true },
}

fn is_realm_byte(byte: u8) -> bool
    ensures { result ≡ is_realm_byte byte }
{
    33 <= byte && byte <= 126 && !(byte == b'"' || byte == b'\\')
}

fn is_realm_name(name: &[u8]) -> bool
    ensures { result ≡ list_all is_realm_byte name.now }
{
    name.iter().all(|byte| is_realm_byte(*byte))
}

impl<'a, U: Allocator> RealmSecrets<'a, U> {
    ghost use Rattle.std.specs.Prelude.{◌↔◌, IfSome, IsSome};
    ghost use Rattle.authentication.specs.SeenRealm.{seen_realm, realm_of};

    /// The realm of this name; nothing where the name has a byte that is not visible ASCII, or a `"` or `\`.
    pub fn new(
        name: &'a [u8],
        algorithms: Algorithms,
        users: &'a UserList<U>,
        secret: &'a [u8; 32],
    ) -> Option<RealmSecrets<'a, U>>
        ensures when { IsSome result ↔ (list_all is_realm_byte name.now ≡ true) }
        ensures value { IfSome result (λ realm. seen_realm realm ≡ realm_of name.now algorithms users.now secret.now) }
    {
        if !is_realm_name(name) {
            return None;
        }
        Some(RealmSecrets {
            name,
            algorithms,
            users,
            secret,
        })
    }
}
