//! Blocks that wait to be written to the journal.
ghost use Rattle.std.specs.Prelude.{◌≡◌, ◌↔◌, length, IsErrOf, IsTrue, OnErr, OnOk};
ghost use Rattle.service_files.specs.Queue.{HasRoom, nothing, with_block};

use std::alloc::Global;
use std::marker::Model;
use std::mem;
use std::sync::{Mutex, Wait};
use std::thread::Parker;

/// How many blocks may wait.
const MOST_BLOCKS: u64 = 65_536;

/// How many bytes the blocks that wait may have together.
const MOST_BYTES: usize = 16_777_216;

/// Why a block does not wait.
#[derive(Clone, Copy, PartialEq, Eq, Debug)]
pub enum Unqueued {
    /// As many wait as may.
    Full,
    /// A growth was refused.
    NoMemory,
}

/// Blocks in the order in which they came, joined.
#[derive(Drop)]
pub struct Batch {
    pub text: Vec<u8>,
    /// How many there are.
    pub blocks: u64,
}

/// Blocks that wait, at most 65,536 of them, of at most 16,777,216 bytes together.
#[derive(Drop)]
pub struct BlockQueue {
    waiting: Batch,
}

impl Model for BlockQueue {
    ghost use Rattle.service_files.specs.Queue.{Waiting};

    ghost Value = { Waiting };

    ghost view = { λ q. record { text = q.waiting.text.items; blocks = q.waiting.blocks } };
}

impl BlockQueue {
    /// No block waits.
    pub fn new(alloc: Global) -> BlockQueue
        ensures { result ≡ nothing }
    {
        BlockQueue {
            waiting: Batch {
                text: Vec::new(alloc),
                blocks: 0,
            },
        }
    }

    /// Whether a block of so many bytes may wait.
    pub fn has_room(&self, bytes: usize) -> bool
        ensures { IsTrue result ↔ HasRoom self.now bytes }
    {
        self.waiting.blocks < MOST_BLOCKS
            && self.waiting.text.len() <= MOST_BYTES
            && bytes <= MOST_BYTES - self.waiting.text.len()
    }

    /// Puts a block behind those that wait.
    ///
    /// # Errors
    ///
    /// `Full` where there is no room for it, `NoMemory` only where the allocator refuses; the queue is then as it was.
    pub fn push(&mut self, block: &[u8]) -> Result<(), Unqueued>
        ensures ok { OnOk result (self.new ≡ with_block self.old block.now) }
        ensures fits { OnOk result (HasRoom self.old (length block.now)) }
        ensures full { IsErrOf result Unqueued.Full → HasRoom self.old (length block.now) → ⊥ }
        ensures err { OnErr result (self.new ≡ self.old) }
    {
        if !self.has_room(block.len()) {
            return Err(Unqueued::Full);
        }
        if self.waiting.text.extend_from_slice(block).is_err() {
            return Err(Unqueued::NoMemory);
        }
        self.waiting.blocks += 1;
        Ok(())
    }

    /// Whether no block waits.
    pub fn is_empty(&self) -> bool
        ensures { IsTrue result ↔ (self.now.blocks ≡ 0) }
    {
        self.waiting.blocks == 0
    }

    /// Takes all blocks that wait.
    pub fn take(&mut self, alloc: Global) -> Batch
        ensures text { result.text.items ≡ self.old.text }
        ensures blocks { result.blocks ≡ self.old.blocks }
        ensures left { self.new ≡ nothing }
    {
        let empty = Batch {
            text: Vec::new(alloc),
            blocks: 0,
        };
        mem::replace(&mut self.waiting, empty)
    }
}

/// Blocks that wait, as all threads know them, and what the one thread that writes them sleeps on.
#[derive(Drop)]
pub struct JournalQueue {
    alloc: Global,
    queue: Mutex<BlockQueue>,
    parker: Parker,
}

impl JournalQueue {
    /// No block waits.
    pub fn new(alloc: Global) -> JournalQueue {
        JournalQueue {
            alloc,
            queue: Mutex::new(BlockQueue::new(alloc)),
            parker: Parker::new(),
        }
    }

    /// Puts a block behind those that wait, and wakes who writes.
    ///
    /// # Errors
    ///
    /// Those of [`BlockQueue::push`].
    pub fn push<R: Wait>(&self, rt: &R, block: &[u8]) -> Result<(), Unqueued> {
        let (pushed, was_empty) = {
            let mut queue = self.queue.lock(rt);
            let was_empty = queue.is_empty();
            (queue.push(block), was_empty)
        };
        if was_empty {
            self.parker.unpark();
        }
        pushed
    }

    /// Whether a block of so many bytes may wait at this moment.
    pub fn has_room<R: Wait>(&self, rt: &R, bytes: usize) -> bool {
        self.queue.lock(rt).has_room(bytes)
    }

    /// Takes all blocks that wait. Who writes them counts each as written or unwritten.
    pub fn take<R: Wait>(&self, rt: &R) -> Batch {
        self.queue.lock(rt).take(self.alloc)
    }

    /// Sleeps until a block waits, or `wake` is called. One thread alone may sleep. It may also end for no reason.
    pub fn wait<R: Wait>(&self, rt: &R) {
        if self.queue.lock(rt).is_empty() {
            self.parker.park(rt);
        }
    }

    /// Wakes the thread that sleeps, or that will sleep next.
    pub fn wake(&self) {
        self.parker.unpark();
    }
}
