//! The URIs in From and To.
ghost use Rattle.std.specs.Prelude.{◌≡◌, IfOk};
ghost use Rattle.sip_uri.specs.Reading.{read_uri};
ghost use Rattle.authentication.specs.Party.{is_anonymous, party_uri, uri_if_read};

use sip_uri::{SipUri, UriFault, form_of};
use std::alloc::{AllocError, Allocator};

/// The URI that a text spells, if it spells one.
fn uri_if_read<A: Allocator + Clone>(alloc: A, text: &[u8]) -> Result<Option<SipUri<A>>, AllocError>
    ensures { IfOk result (λ uri. uri ≡ uri_if_read (read_uri text.now)) }
{
    match SipUri::read(alloc, text) {
        Ok(uri) => Ok(Some(uri)),
        Err(UriFault::NoMemory) => Err(AllocError),
        Err(_) => Ok(None),
    }
}

/// The URI of a From or To value (RFC 3261 sections 20.20 and 20.39); nothing where the value has no address, or its address is no SIP
/// URI.
///
/// # Errors
///
/// Only where the allocator refuses.
pub fn party_uri<A: Allocator + Clone>(
    alloc: A,
    value: &[u8],
) -> Result<Option<SipUri<A>>, AllocError>
    ensures { IfOk result (λ uri. uri ≡ party_uri value.now) }
{
    match form_of(value) {
        None => Ok(None),
        Some((address, _)) => uri_if_read(alloc, address),
    }
}

/// Whether a URI is that of one who does not say who he is (RFC 3323 section 4.1).
pub fn is_anonymous<A: Allocator + Clone>(uri: &SipUri<A>) -> bool
    ensures { result ≡ is_anonymous uri.now }
{
    uri.host().eq_ignore_ascii_case(b"anonymous.invalid")
}
