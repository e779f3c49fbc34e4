//! The URIs that a proxy is responsible for.
ghost use Rattle.std.specs.Prelude.{◌≡◌};
ghost use Rattle.authentication.specs.Domain.{is_of_domain, is_own, is_own_port, is_reached, reachable};

use sip_uri::{Hop, SipUri, Transport};
use sip_via::{Own, is_address};
use std::alloc::Allocator;

/// The domain that a proxy is responsible for, and the proxy itself.
#[derive(Clone, Copy, Debug)]
pub struct Domain<'a> {
    /// The host of its URIs.
    pub name: &'a [u8],
    /// The address and port that the proxy receives at.
    pub own: Own,
    /// The address and port that its Record-Route line names.
    pub route: Own,
    /// Whether a URI with the own address is of the domain only where it leads to the own port.
    pub by_port: bool,
    /// Whether the proxy has streams.
    pub streams: bool,
}

fn is_reached(streams: bool, transport: Transport) -> bool
    ensures { result ≡ is_reached streams transport }
{
    match transport {
        Transport::Udp => true,
        Transport::Tcp | Transport::Back(_) => streams,
    }
}

/// The hop, where the proxy can reach it.
fn reachable(streams: bool, hop: Option<Hop>) -> Option<Hop>
    ensures { result ≡ reachable streams hop }
{
    match hop {
        Some(hop) if is_reached(streams, hop.transport) => Some(hop),
        Some(_) | None => None,
    }
}

/// Whether a request by this hop goes to the own port. A URI without a hop leads to no other port.
fn is_own_port(own: Own, hop: Option<Hop>) -> bool
    ensures { result ≡ is_own_port own hop }
{
    match hop {
        None => true,
        Some(hop) => hop.port == own.port,
    }
}

/// Whether a URI names the proxy by its own address.
fn is_own<A: Allocator + Clone>(domain: &Domain<'_>, uri: &SipUri<A>) -> bool
    ensures { result ≡ is_own domain.now uri.now }
{
    is_address(uri.host(), domain.own.addr)
        && (!domain.by_port || is_own_port(domain.own, reachable(domain.streams, uri.next_hop())))
}

/// Whether a URI is of the domain (RFC 3261 section 16.5): its host is the domain's, in any case, or the own address as it is written.
/// Where the port counts, a URI with the own address that leads to another port is not; one without a port leads to 5060 (section
/// 19.1.2).
pub fn is_of_domain<A: Allocator + Clone>(domain: &Domain<'_>, uri: &SipUri<A>) -> bool
    ensures { result ≡ is_of_domain domain.now uri.now }
{
    uri.host().eq_ignore_ascii_case(domain.name) || is_own(domain, uri)
}
