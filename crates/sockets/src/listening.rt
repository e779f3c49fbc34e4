//! How a proxy begins to receive: the room that a datagram is received in, and what is printed.
ghost use Rattle.std.specs.Prelude.{◌≡◌, IfOk, length};

use sip_uri::Hop;
use std::alloc::{AllocError, Allocator};
use std::io;
use std::io::Print;

/// How many bytes of a datagram are received.
const MOST_BYTES: usize = 65_535;

/// The room that a thread receives datagrams in: that of the longest one.
///
/// # Errors
///
/// Only where the allocator refuses.
pub fn datagram_buffer<A: Allocator>(alloc: A) -> Result<Vec<u8, A>, AllocError>
    ensures { IfOk result (λ buffer. length buffer.items ≡ 65535) }
{
    vec![in alloc; 0u8; MOST_BYTES]
}

/// Tells where a proxy listens: `listening ADDRESS PORT`.
///
/// # Errors
///
/// What the system says where the line could not be written.
pub fn print_listening<P: Print>(out: &P, own: Hop) -> io::Result<()> {
    let [a, b, c, d] = own.addr;
    let port = own.port;
    out.println(format_args!("listening {a}.{b}.{c}.{d} {port}"))
}
