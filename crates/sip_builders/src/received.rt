//! A copy of a request that tells where it came from, and where its response goes.

ghost use Rattle.std.specs.Prelude.{◌≡◌, IfErr};
ghost use Rattle.sip_via.specs.Received.{marked, reply_of};
ghost use Rattle.sip_via.specs.ViaFaults.{Gives, refusal};

use crate::written::copy_of;
use sip_text::Message;
use sip_uri::{Hop, Transport};
use sip_via::{ReceivedFault, Via, ViaFault, add_received, readable_is_marked, sender_of, top_via};
use std::alloc::Allocator;

/// The port of SIP over UDP and TCP where a Via value names none (RFC 3261 section 18.2.2).
const DEFAULT_PORT: u16 = 5060;

/// Where a response to a request with that top value goes, which came from `source` (RFC 3261
/// section 18.2.2, RFC 3581 section 4): over UDP to the source's address, and to its port where `rport` now
/// has it, else to the sender's or 5060; over TCP back by the connection, with the sender's port.
pub fn reply_hop<A: Allocator>(via: &Via<A>, source: Hop) -> Hop
    ensures { result ≡ reply_of via.now source }
{
    let sent_by = via.port().unwrap_or(DEFAULT_PORT);
    let addr = source.addr;
    match source.transport {
        Transport::Udp if via.has_rport(source.port) => Hop::over_udp(addr, source.port),
        Transport::Udp => Hop::over_udp(addr, sent_by),
        Transport::Tcp | Transport::Back(_) => Hop {
            addr,
            port: source.port,
            transport: Transport::Back(sent_by),
        },
    }
}

/// The request with its source in the top Via value (RFC 3261 section 18.2.1, RFC 3581 section 4).
///
/// A `received` that is there is dropped; each `rport` without a value gets the source's port; and
/// `received` is added where such an `rport` was there or the host isn't the source's address. All
/// else is as it was.
///
/// # Errors
///
/// `BadVia` where the top value can't be read; then `NoMemory`.
pub fn mark_received<A: Allocator + Clone>(
    alloc: A,
    message: &Message<A>,
    source: Hop,
) -> Result<Message<A>, ViaFault>
    ensures exact { Gives (λ m. m) result (marked message.now source) }
    ensures refused { IfErr result (λ fault. fault ≡ refusal (marked message.now source)) }
{
    readable_is_marked();
    // That the value can't be read is told before any want of memory.
    if sender_of(top_via(message)).is_none() {
        return Err(ViaFault::BadVia);
    }
    let copy = copy_of(alloc.clone()?, message)?;
    match add_received(alloc, copy, source) {
        Ok(marked) => Ok(marked),
        Err(ReceivedFault { fault, .. }) => Err(fault),
    }
}
