//! How many connections each address has that it opened itself.
ghost use Rattle.std.specs.Prelude.{◌≡◌, ◌+◌, ◌-◌, [], true, nat_lt, IfErr, IfOk, OnErr, if◌then◌else◌};
ghost use Rattle.stream_connections.specs.Sources.{HasNow, IsSame, count_of};

use std::alloc::{AllocError, Allocator, Global};
use std::collections::BTreeMap;
use std::marker::Model;

/// How many connections each address has that it opened itself, and how many one may have. An address that has none takes no memory.
#[derive(Drop)]
pub struct SourceCounts<A: Allocator = Global> {
    most: u32,
    counts: BTreeMap<u32, u32, A>,
}

impl<A: Allocator> Model for SourceCounts<A> {
    ghost use Rattle.stream_connections.specs.Sources as sources;

    ghost Value = { sources.Sources };

    ghost view = { λ s. record { most = s.most; counts = s.counts.entries } };
}

impl<A: Allocator + Clone> SourceCounts<A> {
    /// No address has any; each may have so many.
    pub fn new(alloc: A, most: u32) -> SourceCounts<A>
        ensures { result ≡ record { most = most; counts = [] } }
    {
        SourceCounts {
            most,
            counts: BTreeMap::new(alloc),
        }
    }

    /// How many an address has.
    pub fn of(&self, source: u32) -> u32
        ensures { result ≡ count_of self.now source }
    {
        self.counts.get(&source).copied().unwrap_or(0)
    }

    /// Counts one more of an address where it may have one more, and says whether it may.
    ///
    /// # Errors
    ///
    /// Only where the allocator refuses; then nothing was counted.
    pub fn open(&mut self, source: u32) -> Result<bool, AllocError>
        ensures answer { IfOk result (λ opened. opened ≡ nat_lt (count_of self.old source) self.old.most) }
        ensures counted { IfOk result (λ opened. HasNow self.old source (if opened then count_of self.old source + 1 else count_of self.old source) self.new) }
        ensures refused { IfErr result (λ _. nat_lt (count_of self.old source) self.old.most ≡ true) }
        ensures err { OnErr result (IsSame self.old self.new) }
    {
        let count = self.of(source);
        if count >= self.most {
            return Ok(false);
        }
        match self.counts.insert(source, count + 1) {
            Ok(_) => Ok(true),
            Err(_) => Err(AllocError),
        }
    }

    /// Counts one less of an address. Nothing is asked of the allocator.
    pub fn close(&mut self, source: u32)
        ensures { HasNow self.old source (count_of self.old source - 1) self.new }
    {
        let count = self.of(source);
        if count <= 1 {
            let _ = self.counts.remove(&source);
        } else if self.counts.insert(source, count - 1).is_err() {
            // where the address is kept already no memory is asked for
            unreachable!()
        }
    }
}
