//! A group of calls while workers handle what comes of them.
ghost use Rattle.std.specs.Prelude.{◌≡◌, ◌≤◌, ◌∷◌, ◌++◌, [], true, false, not, length, nat_le, IfErr, IfNone, IfSome, IsErr, OnErr, OnOk};
ghost use Rattle.proxy_threads.specs.Groups.{most_waiting, with_first, with_last};

use std::alloc::{Allocator, Global};
use std::collections::VecDeque;
use std::marker::Model;

/// No more jobs wait in a group.
pub const MOST_WAITING: usize = 1_024;

/// A group of calls: whether a worker is on it, and what was handed over to that worker and waits, in the order in which it was handed
/// over. Where no worker is on it nothing waits, and never do more than 1,024 jobs.
///
/// Who receives a job enters the group, or hands the job over where another worker is on the group. Who has entered does its job, and
/// then each [`next`](Group::next) until there is none.
#[derive(Drop)]
pub struct CallGroup<T, A: Allocator = Global> {
    is_busy: bool,
    waiting: VecDeque<T, A>,
}

impl<T, A: Allocator> Model for CallGroup<T, A> {
    ghost use Rattle.proxy_threads.specs.Groups.{GroupState, IsAttended};

    ghost Value = { GroupState T };

    ghost view = { λ g. record { busy = g.is_busy; waiting = g.waiting.items } };

    ghost invariant = { λ g. IsAttended g.is_busy g.waiting.items };
}

impl<T, A: Allocator> CallGroup<T, A> {
    /// A group that no worker is on.
    pub fn new(alloc: A) -> CallGroup<T, A>
        ensures { result ≡ record { busy = false; waiting = [] } }
    {
        CallGroup {
            is_busy: false,
            waiting: VecDeque::new(alloc),
        }
    }

    /// Enters the group, and says whether no worker was on it. Where one was, nothing changes.
    pub fn enter(&mut self) -> bool
        ensures answer { result ≡ not self.old.busy }
        ensures entered { self.new ≡ record { busy = true; waiting = self.old.waiting } }
        ensures alone { result ≡ true → self.new.waiting ≡ [] }
    {
        let is_free = !self.is_busy;
        self.is_busy = true;
        is_free
    }

    /// Whether as many jobs wait as may.
    pub fn is_full(&self) -> bool
        ensures { result ≡ nat_le most_waiting (length self.now.waiting) }
    {
        self.waiting.len() >= MOST_WAITING
    }

    /// Hands a job over to the worker that is on the group: it waits behind all that wait.
    ///
    /// # Errors
    ///
    /// The job, where 1,024 wait, or the allocator refuses; then nothing has changed.
    pub fn hand_over(&mut self, job: T) -> Result<(), T>
        requires { self.old.busy ≡ true }
        ensures ok { OnOk result (self.new ≡ with_last self.old job) }
        ensures full { most_waiting ≤ length self.old.waiting → IsErr result }
        ensures back { IfErr result (λ back. back ≡ job) }
        ensures err { OnErr result (self.new ≡ self.old) }
    {
        if self.is_full() {
            return Err(job);
        }
        match self.waiting.push_back(job) {
            Ok(()) => Ok(()),
            Err(refused) => Err(refused.value),
        }
    }

    /// Takes the first job that waits. Where none does, no worker is on the group any more.
    pub fn next(&mut self) -> Option<T>
        ensures first { IfSome result (λ job. self.old ≡ with_first job self.new) }
        ensures none { IfNone result ((self.old.waiting ≡ []) × (self.new ≡ record { busy = false; waiting = [] })) }
    {
        match self.waiting.pop_front() {
            Some(job) => Some(job),
            None => {
                self.is_busy = false;
                None
            }
        }
    }
}
