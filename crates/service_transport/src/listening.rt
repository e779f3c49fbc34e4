//! The address of a service, over UDP and over TCP.
ghost use Rattle.std.specs.Prelude.{IfErr};
ghost use Rattle.service_files.specs.Faults.{IsSocketFault};

use service_files::{ConnectionOptions, DaemonFault, socket_fault};
use sip_uri::Hop;
use sockets::{Socket, SocketWaits};
use std::alloc::Global;
use std::net::Net;
use stream_sockets::{StreamFront, StreamLimits, Streams};

/// How many milliseconds a second has.
const MILLIS: u64 = 1_000;

/// The sockets that a proxy receives and sends by, which its threads share.
#[derive(Drop)]
pub struct ProxySockets {
    pub(crate) udp: Socket,
    /// The connections, where it serves over TCP, too.
    pub(crate) streams: Option<Streams>,
}

/// The sockets of a proxy, and what its thread of connections waits with, if it has one.
#[derive(Drop)]
pub struct BoundSockets {
    pub sockets: ProxySockets,
    pub front: Option<StreamFront>,
}

/// The limits that options name.
fn limits_of(options: ConnectionOptions) -> StreamLimits {
    StreamLimits {
        most: options.most as usize,
        most_per_source: options.most_per_source,
        longest_silence: u64::from(options.idle_seconds) * MILLIS,
    }
}

/// Listens for connections at an address, if there are to be any.
fn bound_streams<R: Net>(
    rt: &R,
    alloc: Global,
    own: Hop,
    options: Option<ConnectionOptions>,
) -> Result<(Option<Streams>, Option<StreamFront>), DaemonFault>
    ensures { IfErr result IsSocketFault }
{
    let Some(options) = options else {
        return Ok((None, None));
    };
    match Streams::bind(rt, alloc, own, limits_of(options)) {
        Ok((streams, front)) => Ok((Some(streams), Some(front))),
        Err(error) => Err(socket_fault(error)),
    }
}

/// Binds an address, over UDP and, if options say so, over TCP (RFC 3261 section 18).
///
/// # Errors
///
/// `Socket` where the system refuses, and `NoMemory`.
pub fn bound_all<R: Net>(
    rt: &R,
    alloc: Global,
    own: Hop,
    options: Option<ConnectionOptions>,
) -> Result<BoundSockets, DaemonFault>
    ensures { IfErr result IsSocketFault }
{
    let udp = bound(rt, own)?;
    match bound_streams(rt, alloc, own, options) {
        Ok((streams, front)) => Ok(BoundSockets {
            sockets: ProxySockets { udp, streams },
            front,
        }),
        Err(fault) => Err(fault),
    }
}

/// Binds an address over UDP.
fn bound<R: Net>(rt: &R, own: Hop) -> Result<Socket, DaemonFault>
    ensures { IfErr result IsSocketFault }
{
    match Socket::bind(rt, own, SocketWaits::InCalls) {
        Ok(socket) => Ok(socket),
        Err(error) => Err(socket_fault(error)),
    }
}
