//! Where a message goes.

ghost use Rattle.std.specs.Prelude.{◌≡◌};

/// How a message travels (RFC 3261 section 18).
#[derive(Clone, Copy, Debug, PartialEq, Eq)]
pub enum Transport {
    /// As one datagram (section 18.1.1).
    Udp,
    /// By the connection that is there with that address and port, or by a new one to them (sections
    /// 18.1.1 and 18.3).
    Tcp,
    /// Back to the sender of a request that came by a connection (section 18.2.2): by that connection
    /// while it is there, and else by a new one to the same address and this port, which the
    /// request's top Via value names.
    Back(u16),
}

/// An IPv4 address and a port, and how a message gets there.
#[derive(Clone, Copy, Debug, PartialEq, Eq)]
pub struct Hop {
    pub addr: [u8; 4],
    pub port: u16,
    pub transport: Transport,
}

impl Hop {
    /// An address and a port over UDP.
    pub fn over_udp(addr: [u8; 4], port: u16) -> Hop
        ensures { result ≡ record { addr = addr; port = port; transport = Transport.Udp } }
    {
        Hop {
            addr,
            port,
            transport: Transport::Udp,
        }
    }
}
