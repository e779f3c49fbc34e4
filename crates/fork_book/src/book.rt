//! A response context with its history.
ghost use Rattle.std.specs.Prelude.{◌≡◌, ◌≤◌, ◌↔◌, [], length, slice_get, IsTrue, IsErrOf, IsErrAnd, IfOk, IfErr, OnErr};
ghost use Rattle.std.specs.Option.{option_copied};
ghost use Rattle.fork_model.specs.Table.{most_targets};
ghost use Rattle.fork_model.specs.Core.{is_full};
ghost use Rattle.fork_model.specs.Reply as spec;
ghost use Rattle.context_values.specs.EventView.{event_of};
ghost use Rattle.fork_rank.specs.KindView.{kind_of};
ghost use Rattle.fork_context.specs.Refusals.{IsTooMany, HasTwice, IsFull, returned};
ghost use Rattle.fork_model.specs.Log.{IsLog, EndsOnce, IsAddedBySome, added, opening_log, core_of};

use crate::posted::Posted;
use fork_context::{Context, Event, Kind, NewFault, PostError, Reply, Target};
use fork_model::{exactly_one_final, rows_keep_their_numbers};
use fork_rank::Rules;
use std::alloc::{AllocError, Allocator, Global};
use std::marker::Model;

/// A response context with the events that were posted to it, in order, and the replies to them.
#[derive(Drop)]
pub struct Book<A: Allocator + Clone = Global> {
    context: Context<A>,
    initial: u16,
    history: Vec<Posted<A>, A>,
    replies: Vec<Reply<A>, A>,
}

impl<A: Allocator + Clone> Model for Book<A> {
    ghost use Rattle.fork_model.specs.Log as spec;
    ghost use Rattle.fork_book.specs.BookInside.{log_of, IsBook};

    ghost Value = { spec.Log };

    ghost view = { λ b. log_of b.context b.initial b.history.items b.replies.items };

    ghost invariant = { λ b. IsBook b.context b.initial (log_of b.context b.initial b.history.items b.replies.items) };
}

/// How many events a book has room for at first, where it has as many rows.
const FIRST_EVENTS: u16 = 4;

/// Lists for events and their replies, with room for one event of each row, but for four at most: they grow by themselves.
fn lists<A: Allocator + Clone>(
    alloc: &A,
    rows: u16,
) -> Result<(Vec<Posted<A>, A>, Vec<Reply<A>, A>), AllocError>
    ensures history { IfOk result (λ lists. lists.0.items ≡ []) }
    ensures replies { IfOk result (λ lists. lists.1.items ≡ []) }
{
    let room = rows.min(FIRST_EVENTS) as usize;
    let history = Vec::with_capacity(alloc.clone()?, room)?;
    let replies = Vec::with_capacity(alloc.clone()?, room)?;
    Ok((history, replies))
}

impl<A: Allocator + Clone> Book<A> {
    /// The book of a request of this kind to these targets, under these rules; nothing was posted yet.
    ///
    /// # Errors
    ///
    /// Those of [`Context::new`].
    pub fn new(
        alloc: A,
        kind: Kind,
        rules: Rules,
        targets: Vec<Target<A>, A>,
    ) -> Result<Self, NewFault>
        ensures none { IsErrOf result NewFault.NoTargets ↔ (targets.items ≡ []) }
        ensures many { IsErrOf result NewFault.TooMany ↔ IsTooMany targets.items }
        ensures twice { IsErrOf result NewFault.Twice ↔ ((length targets.items ≤ most_targets) × HasTwice targets.items) }
        ensures opened { IfOk result (λ book. book ≡ opening_log (kind_of kind) rules targets.items) }
    {
        let own: Result<A, AllocError> = alloc.clone();
        let context = Context::new(alloc, kind, rules, targets)?;
        let initial = context.count();
        let Ok(own) = own else {
            return Err(NewFault::NoMemory);
        };
        let Ok((history, replies)) = lists(&own, initial) else {
            return Err(NewFault::NoMemory);
        };
        Ok(Book {
            context,
            initial,
            history,
            replies,
        })
    }

    /// Takes an event: the context is changed by it, the event and the reply to it stand at the end of the history. The
    /// answer is its position there.
    ///
    /// # Errors
    ///
    /// `Full` exactly where `Context::is_full` says so; else `NoMemory`, only where the allocator refuses. Either way
    /// the event comes back, and the book is as it was.
    pub fn post(&mut self, tag: u8, event: Event<A>) -> Result<u32, PostError<A>>
        ensures at { IfOk result (λ at. at ≡ length self.old.history) }
        ensures added { IfOk result (λ _. IsAddedBySome self.old tag (event_of event) self.new) }
        ensures full { IsErrAnd result IsFull ↔ IsTrue (is_full (core_of self.old) (event_of event)) }
        ensures returned { IfErr result (λ error. returned error ≡ event) }
        ensures err { OnErr result (self.new ≡ self.old) }
    {
        if self.context.is_full(&event) {
            return Err(PostError::Full(event));
        }
        if self.history.reserve(1).is_err() || self.replies.reserve(1).is_err() {
            return Err(PostError::NoMemory(event));
        }
        let Ok(reply) = self.context.take(&event) else {
            return Err(PostError::NoMemory(event));
        };
        rows_keep_their_numbers();
        let at = reply.at();
        self.history.push_reserved(Posted::new(tag, event));
        self.replies.push_reserved(reply);
        Ok(at)
    }

    /// The events that were posted, in order.
    pub fn history(&self) -> &[Posted<A>]
        ensures { result.now ≡ self.now.history }
    {
        &self.history
    }

    /// The reply to the event at this position; None exactly where the history has no such position.
    pub fn reply(&self, at: u32) -> Option<&Reply<A>>
        ensures found { option_copied result ≡ slice_get self.now.replies at }
        ensures log { IsLog self.now }
    {
        self.replies.get(at as usize)
    }

    /// The response context: it stands where the history leads.
    pub fn context(&self) -> &Context<A>
        ensures stands { result.now ≡ core_of self.now }
        ensures log { IsLog self.now }
        ensures once { EndsOnce self.now }
    {
        exactly_one_final();
        &self.context
    }
}
