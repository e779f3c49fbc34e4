//! The addresses of connections, as hops and as the system has them.
ghost use Rattle.std.specs.Prelude.{◌≡◌};
ghost use Rattle.sip_uri.specs.declared.hop.Transport.TheVariants.{Tcp};

use sip_uri::{Hop, Transport};
use std::net::{Ipv4Addr, SocketAddr, SocketAddrV4};

/// The address of a hop as the system has it.
pub(crate) fn socket_address(hop: Hop) -> SocketAddr {
    let [a, b, c, d] = hop.addr;
    SocketAddr::V4(SocketAddrV4::new(Ipv4Addr::new(a, b, c, d), hop.port))
}

/// An address of the system as a hop over a connection; None for one that is not of IPv4.
pub(crate) fn peer_of(address: SocketAddr) -> Option<Hop> {
    match address {
        SocketAddr::V4(v4) => Some(Hop {
            addr: v4.ip().octets(),
            port: v4.port(),
            transport: Transport::Tcp,
        }),
        SocketAddr::V6(_) => None,
    }
}

/// Where a new connection goes for a hop: to its address and port, and for one back to the sender of a request to the port that the request's
/// top Via value names (RFC 3261 section 18.2.2).
pub(crate) fn target_of(hop: Hop) -> Hop
    ensures { result.transport ≡ Tcp }
{
    let addr = hop.addr;
    let port = match hop.transport {
        Transport::Udp | Transport::Tcp => hop.port,
        Transport::Back(sent_by) => sent_by,
    };
    Hop {
        addr,
        port,
        transport: Transport::Tcp,
    }
}
