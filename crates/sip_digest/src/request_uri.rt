//! Whether credentials are for the URI of a request.
ghost use Rattle.std.specs.Prelude.{◌≡◌, ◌↔◌, IfOk, IsTrue};
ghost use Rattle.sip_uri.specs.Reading.{read_uri};
ghost use Rattle.sip_digest.specs.Right.{IsUriOf, NameOneTarget};
ghost use Rattle.sip_digest.specs.inner.Targets.{uri_if};

use sip_uri::{SipUri, UriFault};
use std::alloc::{AllocError, Allocator};

/// The URI that a text spells, if it spells one.
fn read_uri<A: Allocator + Clone>(alloc: &A, text: &[u8]) -> Result<Option<SipUri<A>>, AllocError>
    ensures { IfOk result (λ uri. uri ≡ uri_if (read_uri text.now)) }
{
    match SipUri::read(alloc.clone()?, text) {
        Ok(uri) => Ok(Some(uri)),
        Err(UriFault::NoMemory) => Err(AllocError),
        Err(_) => Ok(None),
    }
}

/// Whether two texts spell URIs of one target.
fn name_one_target<A: Allocator + Clone>(
    alloc: &A,
    text: &[u8],
    other: &[u8],
) -> Result<bool, AllocError>
    ensures { IfOk result (λ same. IsTrue same ↔ NameOneTarget text.now other.now) }
{
    let Some(uri) = read_uri(alloc, text)? else {
        return Ok(false);
    };
    let Some(other) = read_uri(alloc, other)? else {
        return Ok(false);
    };
    Ok(uri.same_target(&other))
}

/// Whether the `uri` of credentials is that of a request (RFC 7616 section 3.4.6): it is the text of the Request-URI, or both
/// texts are readable and name one target (RFC 3261 section 16.5).
///
/// # Errors
///
/// Only where the allocator refuses; memory is taken only where the texts differ.
pub fn is_uri_of<A: Allocator + Clone>(
    alloc: A,
    uri: &[u8],
    request_uri: &[u8],
) -> Result<bool, AllocError>
    ensures { IfOk result (λ is. IsTrue is ↔ IsUriOf uri.now request_uri.now) }
{
    if uri == request_uri {
        return Ok(true);
    }
    name_one_target(&alloc, uri, request_uri)
}
