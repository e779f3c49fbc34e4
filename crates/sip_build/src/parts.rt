//! What each text that is written straight to `out` needs.

ghost use Rattle.std.specs.Prelude.{◌≡◌, ◌+◌, ◌≤◌, IsOk, vec_capacity, vec_len};

use std::alloc::{AllocError, Allocator};

/// What stands before the header lines and between them that a message has not itself: a start line
/// with a Request-URI of common length, and the proxy's own Via.
const FRONT: usize = 256;

/// Asks at once for the room of header lines of that length and of what stands before and between them, where `out` has
/// not even the room of those lines.
///
/// # Errors
///
/// Only where the allocator refuses.
pub fn ask_for_lines<B: Allocator>(out: &mut Vec<u8, B>, len: usize) -> Result<(), AllocError>
    ensures items { out.new.items ≡ out.old.items }
    ensures capacity { vec_capacity out.old ≤ vec_capacity out.new }
    ensures room { vec_len out.old + len ≤ vec_capacity out.old → IsOk result }
{
    if out.capacity() - out.len() < len {
        out.reserve(len.saturating_add(FRONT))
    } else {
        Ok(())
    }
}
