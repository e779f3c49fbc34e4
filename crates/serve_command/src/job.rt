//! What a worker is given to do.
use sip_uri::Hop;
use std::alloc::{AllocError, Allocator, Global};

/// What a worker is given to do. Moments are in milliseconds.
#[derive(Drop)]
pub enum Job<A: Allocator = Global> {
    /// To handle a datagram: exactly the bytes that came, from where, and when.
    Packet {
        bytes: Vec<u8, A>,
        source: Hop,
        now: u64,
    },
    /// To do what is due by now.
    Tick(u64),
    /// To end.
    Finish,
}

impl<A: Allocator> Job<A> {
    /// The job to handle a datagram, with a copy of its bytes.
    ///
    /// # Errors
    ///
    /// Only where the allocator refuses.
    pub(crate) fn packet(
        alloc: A,
        bytes: &[u8],
        source: Hop,
        now: u64,
    ) -> Result<Job<A>, AllocError> {
        let bytes = Vec::from_slice(alloc, bytes)?;
        Ok(Job::Packet { bytes, source, now })
    }
}
