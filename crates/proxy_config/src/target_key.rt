//! What tells the targets of a request from one another.
ghost use Rattle.std.specs.Prelude.{◌≡◌, ◌++◌, IfOk, OnOk, Some};
ghost use Rattle.proxy_config.specs.Setup.{hop_key, is_same_hop, is_same_transport, target_key};
ghost use Rattle.proxy_config.specs.inner.OwnKey.{key_or};

use crate::address::append_address;
use sip_lex::append_decimal;
use sip_uri::{Hop, SipUri, Transport};
use std::alloc::{AllocError, Allocator};

fn is_same_transport(transport: Transport, other: Transport) -> bool
    ensures { result ≡ is_same_transport transport other }
{
    match (transport, other) {
        (Transport::Udp, Transport::Udp) | (Transport::Tcp, Transport::Tcp) => true,
        (Transport::Back(port), Transport::Back(other)) => port == other,
        _ => false,
    }
}

/// Whether there is another hop, and it is the same.
fn is_same_hop(hop: Hop, other: Option<Hop>) -> bool
    ensures { result ≡ is_same_hop hop other }
{
    match other {
        None => false,
        Some(other) => {
            hop.addr == other.addr
                && hop.port == other.port
                && is_same_transport(hop.transport, other.transport)
        }
    }
}

/// Appends what tells a hop from others.
fn append_hop<B: Allocator>(out: &mut Vec<u8, B>, hop: Hop) -> Result<(), AllocError>
    ensures { OnOk result (out.new.items ≡ out.old.items ++ hop_key hop) }
{
    out.push(b'\n')?;
    append_address(out, hop.addr)?;
    out.push(b':')?;
    append_decimal(out, u64::from(hop.port))
}

/// What tells a target that is reached by this hop from others, where that is not the key of its URI.
pub(crate) fn own_key<A: Allocator + Clone>(
    alloc: A,
    uri: &SipUri<A>,
    hop: Hop,
) -> Result<Option<Vec<u8, A>>, AllocError>
    ensures { IfOk result (λ key. key_or key uri.now ≡ target_key uri.now (Some hop)) }
{
    if is_same_hop(hop, uri.next_hop()) {
        return Ok(None);
    }
    let mut key = Vec::from_slice(alloc, uri.key())?;
    append_hop(&mut key, hop)?;
    Ok(Some(key))
}

/// What tells a target from others that is reached by this hop, if it has one, where that is not the key of its URI.
pub(crate) fn own_key_if_any<A: Allocator + Clone>(
    alloc: A,
    uri: &SipUri<A>,
    hop: Option<Hop>,
) -> Result<Option<Vec<u8, A>>, AllocError>
    ensures { IfOk result (λ key. key_or key uri.now ≡ target_key uri.now hop) }
{
    match hop {
        None => Ok(None),
        Some(hop) => own_key(alloc, uri, hop),
    }
}
