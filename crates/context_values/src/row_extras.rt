//! The extras of a row of the tree.
ghost use Rattle.std.specs.Prelude.{◌≡◌, [], IfOk};

use crate::offer::Offer;
use fork_rank::Challenge;
use std::alloc::{AllocError, Allocator, Global};
use std::marker::Model;

/// What identifies a row's target, the place that it came in at, and of its stored answer the contacts left and the
/// challenges.
#[derive(Drop)]
pub struct RowExtras<A: Allocator = Global> {
    pub(crate) key: Vec<u8, A>,
    pub(crate) place: usize,
    pub(crate) left: Vec<Offer<A>, A>,
    pub(crate) challenges: Vec<Challenge<A>, A>,
}

impl<A: Allocator> Model for RowExtras<A> {
    ghost use Rattle.context_values.specs.RowExtras as spec;

    ghost Value = { spec.RowExtras };

    ghost view = { λ b. record { key = b.key.items; place = b.place; left = b.left.items; challenges = b.challenges.items } };
}

impl<A: Allocator + Clone> RowExtras<A> {
    /// The extras of a row that waits: what identifies its target, and the place that the target came in at; the only error
    /// is want of memory.
    pub fn new(alloc: &A, key: &[u8], place: usize) -> Result<Self, AllocError>
        ensures { IfOk result (λ extras. extras ≡ record { key = key.now; place = place; left = []; challenges = [] }) }
    {
        Ok(RowExtras {
            key: key.to_vec(alloc.clone()?)?,
            place,
            left: Vec::new(alloc.clone()?),
            challenges: Vec::new(alloc.clone()?),
        })
    }
}

impl<A: Allocator> RowExtras<A> {
    /// What identifies the target.
    pub fn key(&self) -> &[u8]
        ensures { result.now ≡ self.now.key }
    {
        &self.key
    }

    /// The place that the target came in at.
    pub fn place(&self) -> usize
        ensures { result ≡ self.now.place }
    {
        self.place
    }

    /// The contacts left.
    pub fn left(&self) -> &[Offer<A>]
        ensures { result.now ≡ self.now.left }
    {
        &self.left
    }

    /// The challenges.
    pub fn challenges(&self) -> &[Challenge<A>]
        ensures { result.now ≡ self.now.challenges }
    {
        &self.challenges
    }

    /// Keeps what is stored with an answer.
    pub(crate) fn store(&mut self, left: Vec<Offer<A>, A>, challenges: Vec<Challenge<A>, A>)
        ensures { self.new ≡ record self.old { left = left.items; challenges = challenges.items } }
    {
        self.left = left;
        self.challenges = challenges;
    }
}
