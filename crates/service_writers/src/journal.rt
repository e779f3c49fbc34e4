//! The thread that writes the journal. No other one opens or writes its file, so whatever the disk or a pipe does keeps no worker and no
//! timer.
use crate::pieces::first_piece;
use metrics::CallCounts;
use proxy_service::Service;
use service_files::{Batch, JournalQueue, ProxyFiles};
use std::alloc::{AllocError, Global};
use std::sync::Wait;
use std::sync::atomic::{AtomicBool, Ordering};
use std::thread;
use std::time::{Clock, Duration};

/// How long the thread rests behind a write, in milliseconds: what comes meanwhile is written at once.
const REST: u64 = 20;

/// Who writes the journal: its file, if there is a journal, and whether all that will be written to it waits.
#[derive(Drop)]
pub struct JournalWriter {
    path: Option<String>,
    is_whole: AtomicBool,
}

impl JournalWriter {
    /// That of a proxy that begins to serve, whose journal is the file of this name, if it has one.
    ///
    /// # Errors
    ///
    /// Only where the allocator refuses.
    pub fn new(alloc: Global, path: Option<&str>) -> Result<JournalWriter, AllocError> {
        let path = match path {
            Some(path) => Some(String::from_str(alloc, path)?),
            None => None,
        };
        Ok(JournalWriter {
            path,
            is_whole: AtomicBool::new(false),
        })
    }

    /// Whether all that will be written waits.
    fn is_whole(&self) -> bool {
        self.is_whole.load(Ordering::SeqCst)
    }

    /// Says that all that will be written waits in this queue, and wakes who writes it.
    pub fn end(&self, queue: &JournalQueue) {
        self.is_whole.store(true, Ordering::SeqCst);
        queue.wake();
    }

    /// Writes blocks, piece by piece, so that one that cannot be written is counted alone. At the end of the proxy, behind one that cannot,
    /// no other is tried: a pipe that nobody reads may take a second for each.
    fn write_batch<R: ProxyFiles>(
        &self,
        rt: &R,
        counts: &CallCounts,
        path: &str,
        batch: &Batch,
        torn: &mut bool,
    ) {
        let mut rest = batch.text.as_slice();
        let mut left = batch.blocks;
        for _ in 0..batch.blocks {
            let piece = first_piece(rest);
            let blocks = piece.blocks.min(left);
            let is_written = rt.append_to_journal(path, piece.text, torn).is_ok();
            if is_written {
                counts.journaled.add(blocks);
            } else {
                counts.unwritten.add(blocks);
            }
            rest = piece.rest;
            left = left.saturating_sub(blocks);
            if left == 0 || (!is_written && self.is_whole()) {
                break;
            }
        }
        counts.unwritten.add(left);
    }

    /// Writes the blocks of a service as they come, until the journal is whole, if there is one.
    pub fn write<R: Wait + ProxyFiles + Clock>(&self, rt: &R, service: &Service) {
        let Some(path) = &self.path else {
            return;
        };
        let counts = &service.counts().calls;
        let queue = service.journal();
        let mut torn = false;
        for _ in rt.forever() {
            let is_whole = self.is_whole();
            let batch = queue.take(rt);
            self.write_batch(rt, counts, path.as_str(), &batch, &mut torn);
            if is_whole {
                return;
            }
            thread::sleep(rt, Duration::from_millis(REST));
            queue.wait(rt);
        }
        unreachable!()
    }
}
