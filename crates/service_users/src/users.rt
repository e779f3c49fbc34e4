//! What a service has of its users.
use crate::keeping::ChangeQueue;
use crate::last_refused::LastRefused;
use crate::registry::Registry;
use service_files::JournalQueue;
use std::alloc::{Allocator, Global};

/// What a service has of its users: what it knows of them while it runs, which changes of that wait until they are kept elsewhere, which
/// requests it refused last, and the lines that wait to be written: of each credentials that were wrong, for whoever bars senders, and of
/// changes that were not kept.
#[derive(Drop)]
pub struct ServiceUsers<A: Allocator + Copy = Global> {
    pub(crate) heap: Global,
    pub registry: Registry<A>,
    pub changes: ChangeQueue<A>,
    /// Whether changes are kept elsewhere, too.
    has_store: bool,
    pub last_refused: LastRefused,
    pub warnings: JournalQueue,
}

impl<A: Allocator + Copy> ServiceUsers<A> {
    /// What is known of the users so far, with changes that are kept elsewhere, too, or are not; nothing was refused. What is told has its
    /// memory from `heap`, all else from `alloc`.
    pub fn new(alloc: A, heap: Global, registry: Registry<A>, has_store: bool) -> ServiceUsers<A> {
        ServiceUsers {
            heap,
            registry,
            changes: ChangeQueue::new(alloc),
            has_store,
            last_refused: LastRefused::new(heap),
            warnings: JournalQueue::new(heap),
        }
    }

    /// Where changes wait until they are kept elsewhere, if they are.
    pub fn kept_changes(&self) -> Option<&ChangeQueue<A>> {
        if self.has_store {
            Some(&self.changes)
        } else {
            None
        }
    }
}
