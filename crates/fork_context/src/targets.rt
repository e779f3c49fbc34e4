//! All targets while the contacts of an answer are gone through.
ghost use Rattle.std.specs.Prelude.{◌≡◌, ◌<◌, ◌++◌, ◌∷◌, [], nat_lt, length, IfOk, OnOk};
ghost use Rattle.fork_model.specs.Table.{most_targets};
ghost use Rattle.fork_model.specs.Contacts.{is_known, keys_of};

use crate::fork::Fork;
use context_values::{ExtrasTable, RowExtras};
use fork_rank::MOST_TARGETS;
use std::alloc::{AllocError, Allocator};
use std::marker::Model;

/// The rows of a fork, and the contacts that become rows; each is found by its key.
#[derive(Drop)]
pub(crate) struct Targets<'a, A: Allocator + Clone> {
    fork: &'a Fork<A>,
    fresh: ExtrasTable<A>,
}

impl<'a, A: Allocator + Clone> Model for Targets<'a, A> {
    ghost use Rattle.std.specs.Prelude.{ℕ, List, ◌++◌, map};
    ghost use Rattle.fork_model.specs.Contacts.{keys_of};

    ghost Value = { List (List ℕ) };

    ghost view = { λ t. keys_of t.fork.now.rows ++ map (λ b. b.key) t.fresh };
}

impl<'a, A: Allocator + Clone> Targets<'a, A> {
    /// The rows of the fork; the only error is want of memory.
    pub(crate) fn of(alloc: &A, fork: &'a Fork<A>) -> Result<Targets<'a, A>, AllocError>
        ensures { IfOk result (λ targets. targets ≡ keys_of fork.now.rows) }
    {
        let fresh = ExtrasTable::of(alloc, Vec::new(alloc.clone()?))?;
        Ok(Targets { fork, fresh })
    }

    /// Whether one of them has this key.
    pub(crate) fn has(&self, key: &[u8]) -> bool
        ensures { result ≡ is_known self.now key.now }
    {
        self.fork.has_key(key) || self.fresh.has_key(key)
    }

    /// Whether there may be one more.
    pub(crate) fn has_room(&self) -> bool
        ensures { result ≡ nat_lt (length self.now) most_targets }
    {
        self.fresh.count() < (MOST_TARGETS as usize).saturating_sub(self.fork.count() as usize)
    }

    /// One more, which has these extras; the only error is want of memory.
    pub(crate) fn add(&mut self, row_extras: RowExtras<A>) -> Result<(), AllocError>
        requires room { length self.old < most_targets }
        ensures { OnOk result (self.new ≡ self.old ++ row_extras.key ∷ []) }
    {
        self.fresh.push(row_extras)?;
        Ok(())
    }
}
