//! A datagram that one worker hands over to another.
ghost use Rattle.std.specs.Prelude.{◌≡◌, ◌+◌, length};

use sip_uri::Hop;

/// How many bytes of memory a datagram that waits takes beside its own.
const BESIDE: u64 = 64;

/// A datagram that one worker hands over to another: exactly the bytes that came, and from where.
#[derive(Drop)]
pub struct Packet {
    pub bytes: Vec<u8>,
    pub source: Hop,
}

/// How many bytes of memory a datagram takes while it waits.
pub fn weight(bytes: &[u8]) -> u64
    ensures { result ≡ length bytes.now + 64 }
{
    bytes.len() as u64 + BESIDE
}
