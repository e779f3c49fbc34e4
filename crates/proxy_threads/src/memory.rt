//! Memory that the allocator holds ready for a thread.
ghost use Rattle.std.specs.Prelude.{◌≡◌, ◌<◌, ◌+◌};

use std::alloc::{AllocError, Allocator};

/// How many bytes of memory a thread has the allocator hold ready.
const READY: usize = 8_388_608;

/// After how many datagrams a thread asks again: so many keep less than the memory that is held ready.
const DATAGRAMS_BETWEEN: u32 = 256;

/// When a thread that handles datagrams asks the allocator for memory, which it gives back at once: so the allocator holds some ready for what
/// the thread keeps. Else the C library gets each page of a thread's memory by a system call of its own.
#[derive(Clone, Copy)]
pub struct ReadyMemory {
    /// How many datagrams the thread handles until it asks.
    pub left: u32,
}

/// Asks for memory and gives it back.
fn ask<A: Allocator>(alloc: A) {
    let asked: Result<Vec<u8, A>, AllocError> = Vec::with_capacity(alloc, READY);
    drop(asked);
}

impl ReadyMemory {
    /// The thread asks before the first datagram.
    pub fn new() -> ReadyMemory
        ensures { result.left ≡ 0 }
    {
        ReadyMemory { left: 0 }
    }

    /// Counts a datagram that is to be handled, and asks for memory where it is time.
    pub fn hold<A: Allocator + Clone>(&mut self, alloc: &A)
        ensures asked { self.old.left ≡ 0 → self.new.left ≡ 255 }
        ensures counted { 0 < self.old.left → self.new.left + 1 ≡ self.old.left }
    {
        if self.left == 0 {
            if let Ok(alloc) = alloc.clone() {
                ask(alloc);
            }
            self.left = DATAGRAMS_BETWEEN;
        }
        self.left -= 1;
    }
}
