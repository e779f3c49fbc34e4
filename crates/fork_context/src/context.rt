//! The response context of one request.
ghost use Rattle.std.specs.Prelude.{◌≡◌, ◌≤◌, ◌↔◌, ◌++◌, [], Option, true, false, length, slice_get, IsTrue, IsErr, IsErrOf, IsErrAnd, IfOk, IfErr, OnOk, OnErr, IsSome, IfSome};
ghost use Rattle.std.specs.Option.{option_map, option_copied, option_and_then};
ghost use Rattle.fork_model.specs.Table.{most_targets, is_finished, is_succeeded};
ghost use Rattle.fork_model.specs.Choice as spec_choice;
ghost use Rattle.fork_model.specs.Choice.{IsChoice, status_sent};
ghost use Rattle.fork_model.specs.Core.{opening_core, core_next, is_full};
ghost use Rattle.fork_model.specs.Reply.{IsReply};
ghost use Rattle.fork_model.specs.Step.{next};
ghost use Rattle.fork_model.specs.Chosen.{HasFirst, IsChosen, challenges_added};
ghost use Rattle.context_values.specs.EventView.{event_of};
ghost use Rattle.fork_rank.specs.KindView.{kind_of};
ghost use Rattle.fork_context.specs.Led.{IsLedTo};
ghost use Rattle.fork_context.specs.Came.{taken_events, CameByRedirection, AppendsChallenges};
ghost use Rattle.fork_context.specs.LeftView.{left_of};
ghost use Rattle.fork_context.specs.Refusals.{IsTooMany, HasTwice, IsFull, returned};
ghost use Rattle.context_values.specs.ReplyView.{choice_of};
ghost use Rattle.fork_context.specs.RowShown.{row_shown};

use crate::challenges::challenge_list;
use crate::fork::Fork;
use crate::opening::has_twice;
use crate::row::RowView;
use context_values::{Choice, Event, Offer, Reply, Target};
use fork_model::stored_answers_came;
use fork_rank::{Challenge, Kind, MOST_TARGETS, Rules};
use std::alloc::{AllocError, Allocator, Global};
use std::marker::Model;
use thiserror::Error;

/// From so many events on, one that would change nothing is refused.
const MOST_STRAYS: u32 = 4096;

/// Why a context is not made, in the order in which the causes are looked for.
#[derive(Clone, Copy, PartialEq, Eq, Debug, Error)]
pub enum NewFault {
    /// There is no target.
    #[error("there is no target")]
    NoTargets,
    /// There are more than 256 targets.
    #[error("there are more than 256 targets")]
    TooMany,
    /// Two targets have one key.
    #[error("two targets have one key")]
    Twice,
    /// A growth was refused.
    #[error("out of memory")]
    NoMemory,
}

/// Why an event is not taken; it comes back.
#[derive(Drop, Error)]
#[derive_where(Debug)]
pub enum PostError<A: Allocator = Global> {
    /// 4,096 or more events were taken, and this one would change nothing.
    #[error("no more events are taken that change nothing")]
    Full(Event<A>),
    /// A growth was refused.
    #[error("out of memory")]
    NoMemory(Event<A>),
}

/// Why an event that is lent is not taken.
#[derive(Clone, Copy, PartialEq, Eq, Debug, Error)]
pub enum Refusal {
    /// 4,096 or more events were taken, and this one would change nothing.
    #[error("no more events are taken that change nothing")]
    Full,
    /// A growth was refused.
    #[error("out of memory")]
    NoMemory,
}

/// The response context of a forked request: its table, and how many events it has taken.
#[derive(Drop)]
pub struct Context<A: Allocator + Clone = Global> {
    fork: Fork<A>,
    taken: u32,
    alloc: A,
}

impl<A: Allocator + Clone> Model for Context<A> {
    ghost use Rattle.fork_model.specs.Core.{Core};
    ghost use Rattle.fork_context.specs.Sound.{IsKept};

    ghost Value = { Core };

    ghost view = { λ c. record { table = c.fork; taken = c.taken } };

    ghost invariant = { λ c. IsKept c.fork c.taken };
}

impl<A: Allocator + Clone> Context<A> {
    /// The context of a request of this kind to these targets, under these rules: the first group is tried at once
    /// (RFC 3261 section 16.6).
    ///
    /// # Errors
    ///
    /// Where there is no target, more than 256, or one key twice, in this order; else only where the allocator
    /// refuses.
    pub fn new(
        alloc: A,
        kind: Kind,
        rules: Rules,
        targets: Vec<Target<A>, A>,
    ) -> Result<Self, NewFault>
        ensures none { IsErrOf result NewFault.NoTargets ↔ (targets.items ≡ []) }
        ensures many { IsErrOf result NewFault.TooMany ↔ IsTooMany targets.items }
        ensures twice { IsErrOf result NewFault.Twice ↔ ((length targets.items ≤ most_targets) × HasTwice targets.items) }
        ensures opened { IfOk result (λ context. context ≡ opening_core (kind_of kind) rules targets.items) }
    {
        if targets.is_empty() {
            return Err(NewFault::NoTargets);
        }
        if targets.len() > MOST_TARGETS as usize {
            return Err(NewFault::TooMany);
        }
        if has_twice(&targets) {
            return Err(NewFault::Twice);
        }
        // the rules are such as may be set
        let preferred = rules.preferred();
        let _statuses = preferred.statuses();
        let _depth = rules.depth();
        let Ok(fork) = Fork::opening(&alloc, kind, rules, &targets) else {
            return Err(NewFault::NoMemory);
        };
        Ok(Context {
            fork,
            taken: 0,
            alloc,
        })
    }

    /// Takes an event that is lent: changes the table by it, and answers what is to be sent (RFC 3261 sections 9 and 16.7
    /// to 16.10). What is stored of the event is copied.
    ///
    /// # Errors
    ///
    /// `Full` exactly where `is_full` says so: 4,096 events or more were taken, and this one would change nothing. Else
    /// `NoMemory`, only where the allocator refuses. Either way the context is as it was.
    pub fn take(&mut self, event: &Event<A>) -> Result<Reply<A>, Refusal>
        ensures next { OnOk result (self.new ≡ core_next self.old (event_of event.now)) }
        ensures reply { IfOk result (IsReply self.old.table (event_of event.now) self.old.taken) }
        ensures full { IsErrOf result Refusal.Full ↔ IsTrue (is_full self.old (event_of event.now)) }
        ensures err { OnErr result (self.new ≡ self.old) }
    {
        if self.is_full(event) {
            return Err(Refusal::Full);
        }
        event.read_range();
        let Ok(reply) = self.fork.take(&self.alloc, event, self.taken) else {
            return Err(Refusal::NoMemory);
        };
        self.taken += 1;
        Ok(reply)
    }

    /// Takes an event as `take` does, and hands it back where it is refused.
    ///
    /// # Errors
    ///
    /// Those of `take`, in its order, with the event.
    pub fn post(&mut self, event: Event<A>) -> Result<Reply<A>, PostError<A>>
        ensures next { OnOk result (self.new ≡ core_next self.old (event_of event)) }
        ensures reply { IfOk result (IsReply self.old.table (event_of event) self.old.taken) }
        ensures full { IsErrAnd result IsFull ↔ IsTrue (is_full self.old (event_of event)) }
        ensures returned { IfErr result (λ error. returned error ≡ event) }
        ensures err { OnErr result (self.new ≡ self.old) }
    {
        match self.take(&event) {
            Ok(reply) => Ok(reply),
            Err(Refusal::Full) => Err(PostError::Full(event)),
            Err(Refusal::NoMemory) => Err(PostError::NoMemory(event)),
        }
    }

    /// Whether `post` would refuse the event as one too many that changes nothing.
    pub fn is_full(&self, event: &Event<A>) -> bool
        ensures { result ≡ is_full self.now (event_of event.now) }
    {
        self.taken >= MOST_STRAYS && self.fork.is_stray(event)
    }

    /// Whether every branch has ended.
    pub fn finished(&self) -> bool
        ensures { result ≡ is_finished self.now.table.rows }
    {
        self.fork.finished()
    }

    /// Whether a branch was answered with a 2xx.
    pub fn succeeded(&self) -> bool
        ensures { result ≡ is_succeeded self.now.table.rows }
    {
        self.fork.succeeded()
    }

    /// Whether no further group starts.
    pub fn closed(&self) -> bool
        ensures { result ≡ self.now.table.closed }
    {
        self.fork.closed()
    }

    /// How many rows there are, at most 256.
    pub fn count(&self) -> u16
        ensures value { result ≡ length self.now.table.rows }
        ensures range { result ≤ most_targets }
    {
        self.fork.count()
    }

    /// What is forked.
    pub fn kind(&self) -> Kind
        ensures { kind_of result ≡ self.now.table.kind }
    {
        self.fork.kind()
    }

    /// The rules that it was made with.
    pub fn rules(&self) -> Rules
        ensures { result ≡ self.now.table.rules }
    {
        self.fork.rules()
    }

    /// What identifies the target of row n.
    pub fn key(&self, n: u16) -> Option<&[u8]>
        ensures { option_copied result ≡ option_map (λ row. row.key) (slice_get self.now.table.rows n) }
    {
        self.fork.key(n)
    }

    /// Row n as a caller sees it.
    pub fn look(&self, n: u16) -> Option<RowView>
        ensures { result ≡ option_map (row_shown n) (slice_get self.now.table.rows n) }
    {
        self.fork.look(n)
    }

    /// The contacts that are left of the 3xx that row n was answered with, for the caller to try itself; None where
    /// the row has stored no such answer. Whichever history led to the context, that 3xx is one of the events that it took,
    /// and each contact left is one of its contacts (RFC 3261 section 16.7 step 4).
    pub fn left(&self, n: u16) -> Option<&[Offer<A>]>
        ensures value { option_copied result ≡ option_and_then left_of (slice_get self.now.table.rows n) }
        ensures came { (led : IsLedTo self.now) → IfSome result (λ left. CameByRedirection (taken_events self.now led) n left.now) }
        ensures led { IsLedTo self.now }
    {
        stored_answers_came();
        self.fork.left(n)
    }

    /// Which answer goes up, once every branch has ended and none was answered with a 2xx (RFC 3261 section 16.7 step
    /// 6). Some history has led to the context (`led`), so it is the choice that went up with the event that ended the
    /// last branch, by the laws of `fork_model` on histories.
    pub fn choice(&self) -> Option<Choice>
        ensures due { IsSome result ↔ ((is_finished self.now.table.rows ≡ true) × (is_succeeded self.now.table.rows ≡ false)) }
        ensures value { IfSome result (λ choice. IsChoice self.now.table.rules self.now.table.rows (choice_of choice)) }
        ensures led { IsLedTo self.now }
    {
        let (choice, _) = self.choice_with_status()?;
        Some(choice)
    }

    /// The choice of `choice`, and the status under which it goes up: a 500 in place of a 503, a 408 where nothing is
    /// stored (RFC 3261 section 16.7 step 6).
    pub fn choice_with_status(&self) -> Option<(Choice, u16)>
        ensures due { IsSome result ↔ ((is_finished self.now.table.rows ≡ true) × (is_succeeded self.now.table.rows ≡ false)) }
        ensures value { IfSome result (λ sent. IsChoice self.now.table.rules self.now.table.rows (choice_of sent.0)) }
        ensures status { IfSome result (λ sent. sent.1 ≡ status_sent self.now.table.rows (choice_of sent.0)) }
        ensures led { IsLedTo self.now }
    {
        let fork = &self.fork;
        if fork.finished() && !fork.succeeded() {
            Some(fork.choice())
        } else {
            None
        }
    }

    /// Whether row n has a stored answer, and no stored answer ranks before it: of what has come so far it is the one
    /// that would go up (RFC 3261 section 16.7 step 6).
    pub fn is_first(&self, n: u16) -> bool
        ensures { IsTrue result ↔ HasFirst self.now.table n }
    {
        match self.fork.choice().0 {
            Choice::Stored(first) => first == n,
            Choice::Only503(first) => first == n,
            Choice::NoAnswer408 => false,
        }
    }

    /// Appends what goes up with a chosen 401 or 407 beside its own challenges: those of all other stored 401 and 407
    /// answers, by arrival, each answer's in the order of its message (RFC 3261 section 16.7 step 7). Nothing where no
    /// answer or another is chosen. Whichever history led to the context, each challenge is one of a 401 or a 407 among the
    /// events that it took.
    ///
    /// # Errors
    ///
    /// Only where the allocator refuses; then `out` is as it was. Where no answer is chosen nothing is asked of it.
    pub fn challenges(&self, out: &mut Vec<Challenge<A>, A>) -> Result<(), AllocError>
        // of the one choice that `choice` answers
        ensures added { (chosen : Option spec_choice.Choice) → IsChosen self.now.table chosen → OnOk result (out.new.items ≡ out.old.items ++ challenges_added self.now.table.rows chosen) }
        ensures came { (led : IsLedTo self.now) → OnOk result (AppendsChallenges (taken_events self.now led) out.old.items out.new.items) }
        ensures led { IsLedTo self.now }
        ensures unasked { IsErr result → (is_finished self.now.table.rows ≡ true) × (is_succeeded self.now.table.rows ≡ false) }
        ensures err { OnErr result (out.new.items ≡ out.old.items) }
    {
        stored_answers_came();
        let Some(choice) = self.choice() else {
            return Ok(());
        };
        let mut added = challenge_list(&self.alloc, &self.fork, choice)?;
        out.append(&mut added)?;
        Ok(())
    }
}
