//! The proxy's own address, and why nothing is read or built.

ghost use Rattle.std.specs.Prelude.{◌≡◌};
ghost use Rattle.sip_via.specs.declared.own.BuildFault.TheVariants as build;
ghost use Rattle.sip_via.specs.declared.own.ViaFault.TheVariants as via;

use sip_uri::Transport;
use std::alloc::{AllocError, AllocFailed};
use thiserror::Error;

/// The address and port that the proxy itself receives at, and the transport that its Via values name
/// (RFC 3261 section 20.42). Whether a value is its own does not hang on the transport.
#[derive(Clone, Copy, Debug, PartialEq, Eq)]
pub struct Own {
    pub addr: [u8; 4],
    pub port: u16,
    pub transport: Transport,
}

impl Own {
    ghost use Rattle.sip_via.specs.OwnVia.{over};

    /// An address and a port, over UDP.
    pub fn over_udp(addr: [u8; 4], port: u16) -> Own
        ensures { result ≡ record { addr = addr; port = port; transport = Transport.Udp } }
    {
        Own {
            addr,
            port,
            transport: Transport::Udp,
        }
    }

    /// The same address and port, over another transport.
    pub fn over(self, transport: Transport) -> Own
        ensures { result ≡ over self transport }
    {
        let addr = self.addr;
        Own {
            addr,
            port: self.port,
            transport,
        }
    }
}

/// Why a text is no Via value, or a message isn't marked.
#[derive(Clone, Copy, Debug, PartialEq, Eq, Error)]
pub enum ViaFault {
    /// The value is none of RFC 3261 section 20.42.
    #[error("the value is no Via value")]
    BadVia,
    /// The allocator refused.
    #[error("out of memory")]
    NoMemory,
}

impl From<AllocError> for ViaFault {
    ghost from_gives = { λ _ e. e ≡ via.NoMemory };

    fn from(_e: AllocError) -> ViaFault {
        ViaFault::NoMemory
    }
}

impl<T: Drop> From<AllocFailed<T>> for ViaFault {
    ghost from_gives = { λ _ e. e ≡ via.NoMemory };

    fn from(_e: AllocFailed<T>) -> ViaFault {
        ViaFault::NoMemory
    }
}

/// Why a message isn't built.
#[derive(Clone, Copy, Debug, PartialEq, Eq, Error)]
pub enum BuildFault {
    /// No Via value stands behind the top one.
    #[error("no Via value stands behind the top one")]
    LastVia,
    /// The allocator refused.
    #[error("out of memory")]
    NoMemory,
}

impl From<AllocError> for BuildFault {
    ghost from_gives = { λ _ e. e ≡ build.NoMemory };

    fn from(_e: AllocError) -> BuildFault {
        BuildFault::NoMemory
    }
}

impl<T: Drop> From<AllocFailed<T>> for BuildFault {
    ghost from_gives = { λ _ e. e ≡ build.NoMemory };

    fn from(_e: AllocFailed<T>) -> BuildFault {
        BuildFault::NoMemory
    }
}
