//! What waits to be written to a connection.
ghost use Rattle.std.specs.Prelude.{◌≡◌, ◌≢◌, ◌≤◌, ◌<◌, ◌+◌, ◌-◌, ◌∷◌, ◌++◌, ◌==◌, [], true, false, length, drop, nat_le, ◌↔◌, IfNone, IfSome, OnErr, OnOk, if◌then◌else◌};
ghost use Rattle.stream_connections.specs.Queue.{enqueued, first_rest, left, most_waiting, opened, state_of, wrote};

use crate::lifetime::{SendingState, SentTimes};
use crate::message::QueuedMessage;
use sip_uri::Hop;
use std::alloc::{Allocator, Global};
use std::collections::VecDeque;
use std::marker::Model;

/// No more bytes wait for a peer that reads slowly.
pub const MOST_WAITING: usize = 262_144;

/// Why a message does not wait.
#[derive(Clone, Copy, Debug, PartialEq, Eq)]
pub enum QueueFault {
    /// There is no room for it.
    Full,
    /// The allocator refused.
    NoMemory,
}

/// What waits to be written to a connection: messages, in order, of which the first may have been written in part. No message is written
/// before the connection is open.
#[derive(Drop)]
pub struct SendQueue<A: Allocator + Copy = Global> {
    alloc: A,
    messages: VecDeque<QueuedMessage<A>, A>,
    /// How many bytes of the first message were written.
    written: usize,
    /// How many bytes wait.
    left: usize,
    since: u64,
    is_open: bool,
}

impl<A: Allocator + Copy> Model for SendQueue<A> {
    ghost use Rattle.stream_connections.specs.Queue as queue;

    ghost Value = { queue.Queue };

    ghost view = { λ q. record { messages = q.messages.items; written = q.written; since = q.since; is_open = q.is_open } };

    ghost invariant = { λ q. queue.IsSound q.messages.items q.written q.left };
}

impl<A: Allocator + Copy> SendQueue<A> {
    /// Nothing waits, at a connection that is there from this moment on, and may be open already.
    pub fn new(alloc: A, is_open: bool, now: u64) -> SendQueue<A>
        ensures { result ≡ record { messages = []; written = 0; since = now; is_open = is_open } }
    {
        SendQueue {
            alloc,
            messages: VecDeque::new(alloc),
            written: 0,
            left: 0,
            since: now,
            is_open,
        }
    }

    /// Whether a message may be written at once: the connection is open, and nothing waits.
    pub fn is_free(&self) -> bool
        ensures { result ≡ (if self.now.is_open then length self.now.messages == 0 else false) }
    {
        self.is_open && self.messages.is_empty()
    }

    /// Whether the connection is open.
    pub fn is_open(&self) -> bool
        ensures { result ≡ self.now.is_open }
    {
        self.is_open
    }

    /// The connection is open from this moment on.
    pub fn open(&mut self, now: u64)
        ensures { self.new ≡ opened now self.old }
    {
        self.is_open = true;
        self.since = now;
    }

    /// How many bytes wait.
    pub fn left(&self) -> usize
        ensures value { result ≡ left self.now }
        ensures few { result ≤ most_waiting }
    {
        self.left
    }

    /// Whether so many bytes more may wait.
    pub fn has_room(&self, count: usize) -> bool
        ensures { result ≡ nat_le (left self.now + count) most_waiting }
    {
        count <= MOST_WAITING - self.left
    }

    /// Has a message wait behind all that wait, at this moment.
    ///
    /// # Errors
    ///
    /// `Full` where more than 262,144 bytes would wait; `NoMemory`. Then nothing has changed.
    pub fn enqueue(&mut self, bytes: &[u8], to: Hop, now: u64) -> Result<(), QueueFault>
        requires { 0 < length bytes.now }
        ensures ok { OnOk result (self.new ≡ enqueued now (record { bytes = bytes.now; to = to }) self.old) }
        ensures full { (result ≡ Err QueueFault.Full) ↔ (most_waiting < left self.old + length bytes.now) }
        ensures err { OnErr result (self.new ≡ self.old) }
    {
        if !self.has_room(bytes.len()) {
            return Err(QueueFault::Full);
        }
        let Ok(copy) = Vec::from_slice(self.alloc, bytes) else {
            return Err(QueueFault::NoMemory);
        };
        let is_first = self.messages.is_empty();
        let message = QueuedMessage { bytes: copy, to };
        if self.messages.push_back(message).is_err() {
            return Err(QueueFault::NoMemory);
        }
        self.left += bytes.len();
        if is_first {
            self.since = now;
        }
        Ok(())
    }

    /// What is to be written next: what is left of the first message, one byte at least. None where nothing waits.
    pub fn next(&self) -> Option<&[u8]>
        ensures rest { IfSome result (λ rest. (rest.now ≡ first_rest self.now) × (0 < length rest.now)) }
        ensures none { IfNone result (self.now.messages ≡ []) }
    {
        let message = self.messages.front()?;
        Some(&message.bytes.as_slice()[self.written..])
    }

    /// So many bytes of what was to be written next were written at this moment.
    pub fn wrote(&mut self, count: usize, now: u64)
        requires some { 0 < count }
        requires within { count ≤ length (first_rest self.old) }
        ensures { self.new ≡ wrote now count self.old }
    {
        let len = match self.messages.front() {
            Some(message) => message.bytes.len(),
            None => 0,
        };
        self.written += count;
        self.left -= count;
        self.since = now;
        if self.written == len {
            let _ = self.messages.pop_front();
            self.written = 0;
        }
    }

    /// Takes the first message of which a byte was not written, whole: at a connection that has ended.
    pub fn take_unsent(&mut self) -> Option<QueuedMessage<A>>
        ensures first { IfSome result (λ message. self.old.messages ≡ message ∷ self.new.messages) }
        ensures rest { IfSome result (λ message. (self.new.written ≡ 0) × (self.new.since ≡ self.old.since) × (self.new.is_open ≡ self.old.is_open)) }
        ensures none { IfNone result ((self.old.messages ≡ []) × (self.new ≡ self.old)) }
    {
        let message = self.messages.pop_front()?;
        self.left -= message.bytes.len() - self.written;
        self.written = 0;
        Some(message)
    }

    /// When something was taken last, and whether something waits.
    pub fn times(&self) -> SentTimes
        ensures { result ≡ record { moved = self.now.since; state = state_of self.now } }
    {
        let state = if !self.is_open {
            SendingState::Connecting
        } else if self.messages.is_empty() {
            SendingState::Resting
        } else {
            SendingState::Waiting
        };
        SentTimes {
            moved: self.since,
            state,
        }
    }
}
