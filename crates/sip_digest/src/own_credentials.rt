//! Credentials for the proxy's own realm.
ghost use Rattle.std.specs.Prelude.{◌≡◌, ◌↔◌, IfOk, IsTrue, codes, is_some};
ghost use Rattle.sip_text.specs.Name.{same_name};
ghost use Rattle.sip_digest.specs.SeenCredentials.{seen_reading};
ghost use Rattle.sip_digest.specs.OwnCredentials.{IsTakenOff};

use crate::reading::{ReadCredentials, read_credentials};
use sip_text::HeaderLine;
use std::alloc::{AllocError, Allocator};

/// Whether a name is Proxy-Authorization, which has no compact form.
fn is_proxy_authorization(name: &[u8]) -> bool
    ensures { result ≡ same_name (codes "proxy-authorization") name.now }
{
    let line = HeaderLine { name, value: b"" };
    line.is_named(b"proxy-authorization")
}

/// Whether a value has something for the realm.
fn is_of_realm<A: Allocator>(reading: &ReadCredentials<'_, A>) -> bool
    ensures { result ≡ is_some (seen_reading reading.now) }
{
    match reading {
        ReadCredentials::OtherRealm => false,
        ReadCredentials::Unreadable => true,
        ReadCredentials::Read(_) => true,
    }
}

/// Whether a header line does not go on with a request: it is a Proxy-Authorization line whose value is credentials for this realm, such as
/// can be read or not (RFC 3261 section 22.3).
///
/// # Errors
///
/// Only where the allocator refuses.
pub fn is_taken_off<A: Allocator + Clone>(
    alloc: A,
    realm: &[u8],
    name: &[u8],
    value: &[u8],
) -> Result<bool, AllocError>
    ensures { IfOk result (λ taken. IsTrue taken ↔ IsTakenOff realm.now name.now value.now) }
{
    if !is_proxy_authorization(name) {
        return Ok(false);
    }
    let reading = read_credentials(alloc, value, realm)?;
    let taken = is_of_realm(&reading);
    Ok(taken)
}
