//! Which hops a proxy can send to.
ghost use Rattle.std.specs.Prelude.{◌≡◌};
ghost use Rattle.proxy_config.specs.Setup.{is_reached, is_reached_by};

use sip_uri::{Hop, Transport};

/// Whether the proxy can send over this transport: over TCP where it has `streams` (RFC 3261 section 18).
pub fn is_reached(streams: bool, transport: Transport) -> bool
    ensures { result ≡ is_reached streams transport }
{
    match transport {
        Transport::Udp => true,
        Transport::Tcp | Transport::Back(_) => streams,
    }
}

/// Whether there is a hop, and the proxy can send to it.
pub(crate) fn is_reached_by(streams: bool, hop: Option<Hop>) -> bool
    ensures { result ≡ is_reached_by streams hop }
{
    match hop {
        None => false,
        Some(hop) => is_reached(streams, hop.transport),
    }
}
