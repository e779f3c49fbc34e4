//! The answers that are owed to a caller, in the order in which they came to be owed.
ghost use Rattle.std.specs.Prelude.{◌≡◌, ◌==◌, ◌<◌, ◌≤◌, ◌+◌, ◌++◌, ◌∷◌, [], drop, length, slice_get, IfOk, OnOk};
ghost use Rattle.std.specs.Option.{option_map};
ghost use Rattle.call_caller.specs.Queue.{HasRoomFor, owed_in, owed_of, read_of};

use fork_context::Choice;
use sip_text::Message;
use sip_uri::Hop;
use std::alloc::{AllocError, Allocator, Global};
use std::marker::Model;

/// An answer that is owed to the caller, with the message that it is made of, if it is made of one (RFC 3261 sections 9.2,
/// 16.7 and 17.2).
#[derive(Drop)]
pub enum OwedAnswer<A: Allocator> {
    /// The 100 to an INVITE.
    Trying,
    /// A provisional response or a 2xx of a branch, as it came.
    Passed(Message<A>),
    /// The final answer.
    Final(Choice),
    /// The answer that was sent last, again.
    Again,
    /// The 200 to this CANCEL, as it was marked with its source, and where it goes.
    CancelOk(Message<A>, Hop),
}

/// An answer that is owed to the caller, as it is read.
#[derive(Drop)]
pub enum PendingResponse<'a, A: Allocator = Global> {
    /// The 100 to an INVITE.
    Trying,
    /// A provisional response or a 2xx of a branch, as it came.
    Passed(&'a Message<A>),
    /// The final answer.
    Final(Choice),
    /// The answer that was sent last, again.
    Again,
    /// The 200 to this CANCEL, as it was marked with its source, and where it goes.
    CancelOk(&'a Message<A>, Hop),
}

/// The answers that are owed to the caller, in the order in which they came to be owed.
#[derive(Drop)]
pub struct PendingResponses<'a, A: Allocator = Global> {
    answers: &'a [OwedAnswer<A>],
}

impl<'a, A: Allocator> Model for PendingResponses<'a, A> {
    ghost use Rattle.std.specs.Prelude.{List, map};
    ghost use Rattle.call_caller.specs.Queue.{owed_of};
    ghost use Rattle.call_model.specs.Server as server;

    ghost Value = { List server.Owed };

    ghost view = { λ o. map owed_of o.answers.now };
}

impl<'a, A: Allocator> PendingResponses<'a, A> {
    /// How many answers are owed.
    pub fn len(&self) -> usize
        ensures { result ≡ length self.now }
    {
        self.answers.len()
    }

    /// Whether no answer is owed.
    pub fn is_empty(&self) -> bool
        ensures { result ≡ (length self.now == 0) }
    {
        self.answers.is_empty()
    }

    /// The first answer that is owed, if there is one.
    pub fn first(&self) -> Option<PendingResponse<'a, A>>
        ensures { option_map read_of result ≡ slice_get self.now 0 }
    {
        Some(match self.answers.first()? {
            OwedAnswer::Trying => PendingResponse::Trying,
            OwedAnswer::Passed(response) => PendingResponse::Passed(response),
            OwedAnswer::Final(choice) => PendingResponse::Final(*choice),
            OwedAnswer::Again => PendingResponse::Again,
            OwedAnswer::CancelOk(cancel, to) => PendingResponse::CancelOk(cancel, *to),
        })
    }

    /// The answers behind the first.
    pub fn rest(&self) -> PendingResponses<'a, A>
        requires { 0 < length self.now }
        ensures { result ≡ drop 1 self.now }
    {
        PendingResponses {
            answers: &self.answers[1..],
        }
    }
}

/// The answers that are owed, with the room for those that come.
#[derive(Drop)]
pub struct ResponseQueue<A: Allocator> {
    answers: Vec<OwedAnswer<A>, A>,
}

impl<A: Allocator> Model for ResponseQueue<A> {
    ghost use Rattle.std.specs.Prelude.{◌-◌, map, vec_capacity, vec_len};
    ghost use Rattle.call_caller.specs.Queue as spec;
    ghost use Rattle.call_caller.specs.Queue.{owed_of};

    ghost Value = { spec.Queue };

    ghost view = { λ q. record { items = map owed_of q.answers.items; left = vec_capacity q.answers - vec_len q.answers } };
}

impl<A: Allocator> ResponseQueue<A> {
    /// A queue of which nothing is owed yet, with room for this many answers.
    ///
    /// # Errors
    ///
    /// Only where the allocator refuses.
    pub(crate) fn with_room(alloc: A, answers: usize) -> Result<Self, AllocError>
        ensures items { IfOk result (λ queue. queue.items ≡ []) }
        ensures room { IfOk result (λ queue. HasRoomFor queue answers) }
    {
        Ok(ResponseQueue {
            answers: Vec::with_capacity(alloc, answers)?,
        })
    }

    /// Makes room for `more` further answers.
    ///
    /// # Errors
    ///
    /// Only where the allocator refuses.
    pub fn reserve(&mut self, more: usize) -> Result<(), AllocError>
        ensures items { self.new.items ≡ self.old.items }
        ensures ok { OnOk result (HasRoomFor self.new more) }
    {
        self.answers.reserve(more)
    }

    /// Puts an answer behind the others that are owed.
    pub fn enqueue(&mut self, answer: OwedAnswer<A>)
        requires room { HasRoomFor self.old 1 }
        ensures items { self.new.items ≡ self.old.items ++ owed_of answer ∷ [] }
        ensures left { self.new.left + 1 ≡ self.old.left }
    {
        self.answers.push_reserved(answer);
    }

    /// Puts the answer, if there is one, behind the others that are owed.
    pub fn enqueue_if(&mut self, answer: Option<OwedAnswer<A>>)
        requires room { HasRoomFor self.old 1 }
        ensures items { self.new.items ≡ self.old.items ++ owed_in answer }
    {
        if let Some(answer) = answer {
            self.enqueue(answer);
        }
    }

    /// Takes the first answer off, which is owed no more. Where nothing is left owed, the memory for more than one answer is
    /// given back, since a call may ring for long.
    pub fn dequeue(&mut self)
        requires some { 0 < length self.old.items }
        ensures { self.new.items ≡ drop 1 self.old.items }
    {
        let _paid = self.answers.remove(0);
        if self.answers.is_empty() && self.answers.capacity() > 1 {
            self.answers.shrink_to_fit();
        }
    }

    /// The answers that are owed.
    pub fn answers(&self) -> PendingResponses<'_, A>
        ensures { result ≡ self.now.items }
    {
        PendingResponses {
            answers: &self.answers,
        }
    }
}
