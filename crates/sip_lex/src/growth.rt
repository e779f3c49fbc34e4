//! Lists that grow.

ghost use Rattle.std.specs.Prelude.{◌≡◌, IfOk, OnErr, OnOk, take, vec_capacity};

use std::alloc::{AllocError, Allocator};

/// Takes back what stands behind the first `before` items, unless all was added: where `done` says that memory was refused
/// halfway. Gives `done` back.
pub fn whole_or_nothing<T: Drop, A: Allocator>(
    out: &mut Vec<T, A>,
    before: usize,
    done: Result<(), AllocError>,
) -> Result<(), AllocError>
    ensures done { result ≡ done }
    ensures ok { OnOk done (out.new.items ≡ out.old.items) }
    ensures err { OnErr done (out.new.items ≡ take before out.old.items) }
    ensures capacity { vec_capacity out.new ≡ vec_capacity out.old }
{
    if done.is_err() {
        out.truncate(before);
    }
    done
}

/// A copy of a text with room for so many bytes behind it.
///
/// # Errors
///
/// Only where the allocator refuses.
pub fn copy_with_room<A: Allocator + Clone>(
    alloc: &A,
    text: &[u8],
    room: usize,
) -> Result<Vec<u8, A>, AllocError>
    ensures { IfOk result (λ copy. copy.items ≡ text.now) }
{
    let mut copy = Vec::with_capacity(alloc.clone()?, text.len().saturating_add(room))?;
    copy.extend_from_slice(text)?;
    Ok(copy)
}
