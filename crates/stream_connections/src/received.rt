//! What a peer has sent by a connection (RFC 3261 sections 7.5 and 18.3).
ghost use Rattle.std.specs.Prelude.{◌≡◌, ◌≤◌, ◌<◌, ◌==◌, [], length, take, drop, IfSome, OnErr, OnOk, if◌then◌else◌};
ghost use Rattle.sip_framing.specs.Frame.{frame_len, frame_of};
ghost use Rattle.stream_connections.specs.Received.{most_message, passed, received};

use crate::lifetime::ReceivedTimes;
use sip_framing::{Frame, first_frame};
use std::alloc::{AllocError, Allocator, Global};
use std::marker::Model;

/// No message of a stream has more bytes.
pub const MOST_MESSAGE: usize = 65_535;

/// What a peer has sent by a connection and was not handed out yet. Where nothing waits it takes no memory.
///
/// Behind each [`receive`](ReceivedStream::receive) what stands at the front is asked for by [`first`](ReceivedStream::first), looked at by
/// [`front`](ReceivedStream::front), and taken away by [`pass`](ReceivedStream::pass), until nothing that is whole stands there.
#[derive(Drop)]
pub struct ReceivedStream<A: Allocator + Copy = Global> {
    alloc: A,
    bytes: Vec<u8, A>,
    /// How many of these bytes were handed out.
    taken: usize,
    since: u64,
    heard: u64,
}

impl<A: Allocator + Copy> Model for ReceivedStream<A> {
    ghost use Rattle.std.specs.Prelude.{◌≤◌, drop, length};
    ghost use Rattle.stream_connections.specs.Received as received;

    ghost Value = { received.Received };

    ghost view = { λ s. record { waiting = drop s.taken s.bytes.items; since = s.since; heard = s.heard } };

    ghost invariant = { λ s. s.taken ≤ length s.bytes.items };
}

impl<A: Allocator + Copy> ReceivedStream<A> {
    /// Nothing has come yet by a connection that is there from this moment on.
    pub fn new(alloc: A, now: u64) -> ReceivedStream<A>
        ensures { result ≡ record { waiting = []; since = now; heard = now } }
    {
        ReceivedStream {
            alloc,
            bytes: Vec::new(alloc),
            taken: 0,
            since: now,
            heard: now,
        }
    }

    /// What waits.
    fn waiting(&self) -> &[u8]
        ensures { result.now ≡ self.now.waiting }
    {
        &self.bytes.as_slice()[self.taken..]
    }

    /// How many bytes wait.
    pub fn len(&self) -> usize
        ensures { result ≡ length self.now.waiting }
    {
        self.waiting().len()
    }

    /// Gives back the memory of what was handed out.
    fn compact(&mut self) -> Result<(), AllocError>
        ensures same { self.new ≡ self.old }
    {
        if self.taken > 0 {
            let rest = Vec::from_slice(self.alloc, self.waiting())?;
            self.bytes = rest;
            self.taken = 0;
        }
        Ok(())
    }

    /// Takes bytes that came at this moment, behind those that wait.
    ///
    /// # Errors
    ///
    /// Only where the allocator refuses; then what waits is as it was, and the connection cannot go on.
    pub fn receive(&mut self, bytes: &[u8], now: u64) -> Result<(), AllocError>
        ensures ok { OnOk result (self.new ≡ received now bytes.now self.old) }
        ensures err { OnErr result (self.new ≡ self.old) }
    {
        self.compact()?;
        let is_first = self.waiting().is_empty();
        self.bytes.extend_from_slice(bytes)?;
        self.heard = now;
        if is_first {
            self.since = now;
        }
        Ok(())
    }

    /// What stands at the front of what waits, where a message has 65,535 bytes at most.
    pub fn first(&self) -> Frame
        ensures value { result ≡ frame_of most_message self.now.waiting }
        ensures within { IfSome (frame_len result) (λ n. (0 < n) × (n ≤ length self.now.waiting)) }
    {
        first_frame(self.waiting(), MOST_MESSAGE)
    }

    /// The first bytes of what waits, so many.
    pub fn front(&self, count: usize) -> &[u8]
        requires { count ≤ length self.now.waiting }
        ensures { result.now ≡ take count self.now.waiting }
    {
        &self.waiting()[..count]
    }

    /// Takes the first bytes of what waits away, so many, at this moment: they were handed out.
    pub fn pass(&mut self, count: usize, now: u64)
        requires { count ≤ length self.old.waiting }
        ensures { self.new ≡ passed now count self.old }
    {
        self.taken += count;
        self.since = now;
        if self.taken == self.bytes.len() {
            self.bytes = Vec::new(self.alloc);
            self.taken = 0;
        }
    }

    /// When something came last, and since when a message is unfinished, where nothing that is whole waits.
    pub fn times(&self) -> ReceivedTimes
        ensures heard { result.heard ≡ self.now.heard }
        ensures unfinished { result.unfinished ≡ (if length self.now.waiting == 0 then None else Some self.now.since) }
    {
        ReceivedTimes {
            heard: self.heard,
            unfinished: if self.waiting().is_empty() {
                None
            } else {
                Some(self.since)
            },
        }
    }
}
