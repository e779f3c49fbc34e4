//! Where the response to a request goes, by its top Via value.

ghost use Rattle.std.specs.Prelude.{◌≡◌};
ghost use Rattle.sip_via.specs.Received.{reply_of};
ghost use Rattle.sip_via.specs.inner.Replies.{reply_unmarked};
ghost use Rattle.sip_via.specs.inner.SeenParts.{seen_parts};
ghost use Rattle.sip_via.specs.TopVia.{top_value};
ghost use Rattle.sip_via.specs.ViaParts.{via_of, via_of_parts};

use crate::cut::{ViaParts, cut_value, port_if_any};
use crate::params::{gives_any_port, has_rport};
use crate::values::top_via;
use sip_text::Message;
use sip_uri::{Hop, Transport};
use std::alloc::Allocator;

/// The port of SIP over UDP and TCP where a Via value names none (RFC 3261 section 18.2.2).
pub(crate) const DEFAULT_PORT: u16 = 5060;

/// Where a response goes to a request with a top value of these parts.
fn reply_hop_of_parts(cut: &ViaParts<'_>, source: Hop) -> Hop
    ensures { result ≡ reply_of (via_of_parts (seen_parts cut.now)) source }
{
    let sent_by = port_if_any(cut.port).unwrap_or(DEFAULT_PORT);
    let addr = source.addr;
    match source.transport {
        Transport::Udp if has_rport(cut.params, source.port) => Hop::over_udp(addr, source.port),
        Transport::Udp => Hop::over_udp(addr, sent_by),
        Transport::Tcp | Transport::Back(_) => Hop {
            addr,
            port: source.port,
            transport: Transport::Back(sent_by),
        },
    }
}

/// Where a response to a request goes, which came from `source`, by the request's top value (RFC 3261
/// section 18.2.2, RFC 3581 section 4): over UDP to the source's address, and to its port where
/// `rport` names that, else to the sender's; over TCP back by the connection (`Transport::Back`), with the
/// sender's port. As that of a `Via` read of the value, and without memory. A top value that is none is read as far as its parts can be
/// told apart; `marked_value_is_read` shows that the top value of a marked request is one.
pub fn reply_hop_of<A: Allocator>(message: &Message<A>, source: Hop) -> Hop
    ensures { result ≡ reply_of (via_of (top_value message.now)) source }
{
    reply_hop_of_parts(&cut_value(top_via(message)), source)
}

/// Where a response goes to a request with a top value of these parts, which is yet to be marked with its source: where
/// `reply_hop_of` says it of the request that was marked.
pub(crate) fn reply_hop_unmarked(cut: &ViaParts<'_>, source: Hop) -> Hop
    ensures { result ≡ reply_unmarked (via_of_parts (seen_parts cut.now)) source }
{
    let sent_by = port_if_any(cut.port).unwrap_or(DEFAULT_PORT);
    let addr = source.addr;
    match source.transport {
        Transport::Udp if gives_any_port(cut.params, source.port) => Hop::over_udp(
            addr,
            source.port,
        ),
        Transport::Udp => Hop::over_udp(addr, sent_by),
        Transport::Tcp | Transport::Back(_) => Hop {
            addr,
            port: source.port,
            transport: Transport::Back(sent_by),
        },
    }
}
