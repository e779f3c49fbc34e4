//! The proxy of the tests: its domain, its realm, and who has a password there.
use authentication::{Domain, RealmSecrets};
use registrar::AskedExpirations;
use sip_digest::{Algorithms, UserList, append_user};
use sip_via::Own;
use std::alloc::{AllocError, Global};

/// What nonces and tokens are made with.
pub const SECRET: [u8; 32] = [7; 32];

/// The second at which a test begins.
pub const SECOND: u32 = 1_764_400_000;

pub const EXPIRATIONS: AskedExpirations = AskedExpirations {
    least: 60,
    usual: 3600,
    most: 86400,
};

/// The proxy at 192.0.2.9:5060, responsible for example.com.
pub fn domain() -> Domain<'static> {
    Domain {
        name: b"example.com",
        own: Own::over_udp([192, 0, 2, 9], 5060),
        route: Own::over_udp([192, 0, 2, 10], 5061),
        by_port: false,
        streams: false,
    }
}

fn users_text(alloc: Global) -> Result<Vec<u8, Global>, AllocError> {
    let mut text = Vec::new(alloc);
    append_user(&mut text, b"bob", b"example.com", b"secret")?;
    append_user(&mut text, b"alice", b"example.com", b"wonder")?;
    Ok(text)
}

/// bob, whose password is `secret`, and alice, whose is `wonder`.
pub fn users(alloc: Global) -> Option<UserList> {
    let Ok(text) = users_text(alloc) else {
        return None;
    };
    UserList::read(alloc, &text, Algorithms::Sha256AndMd5).ok()
}

/// The realm example.com, which challenges by SHA-256 and then by MD5.
pub fn realm(users: &UserList) -> Option<RealmSecrets<'_>> {
    RealmSecrets::new(b"example.com", Algorithms::Sha256AndMd5, users, &SECRET)
}
