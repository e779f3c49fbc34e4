//! The way of jobs to a worker, which sleeps while there are none. Who gives it jobs sleeps where its inbox is full.
//!
//! No wake-up of a worker is lost. `receive` answers None only where the inbox was empty at one moment of the call; a job
//! that is given after that moment wakes the worker after it was given; the wake-up is kept where the worker does not sleep
//! yet, and its next sleep ends at once. A wake-up too many costs one more `receive`. (No clause says this: it is shown by a
//! test.)
//!
//! The giving end writes down how many received jobs it waits for, then looks how many there are, and then sleeps; the worker
//! counts a job, and then looks how many are waited for. So one of the two sees what the other wrote. Where a wake-up were
//! lost all the same, it would be made up for in 10 ms: no sleep of the giving end is longer.
ghost use Rattle.std.specs.Prelude.{◌≡◌, ◌++◌, [], ◌∷◌, IfErr, OnOk, OnErr};

use call_table::{InboxIn, InboxOut, MOST_JOBS};
use std::alloc::{Allocator, Global};
use std::marker::Model;
use std::sync::Wait;
use std::sync::atomic::{AtomicU64, Ordering};
use std::thread::Parker;
use std::time::Duration;

/// A worker that holds so many jobs has few left: its giving end is woken.
const FEW_JOBS: u64 = 32;

/// How often the giving end sleeps at a full inbox.
const SLEEPS: u32 = 10;

/// How long it sleeps each time at most, in milliseconds.
const LONGEST_SLEEP: u64 = 10;

/// What wakes a worker, and the one that gives it jobs. Each worker has one of its own.
#[derive(Drop)]
pub struct Waker {
    parker: Parker,
    /// How many jobs the worker has received.
    received: AtomicU64,
    /// How many of them it has done.
    done: AtomicU64,
    /// What the giving end sleeps on.
    giver: Parker,
    /// How many received jobs the giving end waits for.
    awaited: AtomicU64,
}

impl Waker {
    /// The waker of a worker that has received nothing.
    pub fn new() -> Waker {
        Waker {
            parker: Parker::new(),
            received: AtomicU64::new(0),
            done: AtomicU64::new(0),
            giver: Parker::new(),
            awaited: AtomicU64::new(0),
        }
    }

    /// Notes that all jobs that were received are done.
    fn note_done(&self) {
        let received = self.received.load(Ordering::SeqCst);
        self.done.store(received, Ordering::SeqCst);
    }

    /// Counts a received job, and wakes the giving end where it waits for this one.
    fn count_received(&self) {
        let received = self.received.fetch_add(1, Ordering::SeqCst).wrapping_add(1);
        if received == self.awaited.load(Ordering::SeqCst) {
            self.giver.unpark();
        }
    }
}

/// The end that gives jobs.
#[derive(Drop)]
pub struct JobSender<'a, J: Drop, A: Allocator = Global> {
    inbox: InboxIn<J, A>,
    waker: &'a Waker,
    given: u64,
}

impl<'a, J: Drop, A: Allocator> Model for JobSender<'a, J, A> {
    ghost use Rattle.call_table.specs.Inbox.{Giving};

    ghost Value = { Giving J };

    ghost view = { λ s. s.inbox };
}

impl<'a, J: Drop, A: Allocator> JobSender<'a, J, A> {
    /// The giving end of an inbox to which nothing was given, with the waker of its worker.
    pub fn new(inbox: InboxIn<J, A>, waker: &'a Waker) -> JobSender<'a, J, A>
        ensures { result ≡ inbox }
    {
        JobSender {
            inbox,
            waker,
            given: 0,
        }
    }

    /// Gives a job and wakes the worker.
    ///
    /// # Errors
    ///
    /// The job, where the inbox is full.
    pub fn give<R: Wait>(&mut self, rt: &R, job: J) -> Result<(), J>
        ensures queue { self.new.queue ≡ self.old.queue }
        ensures ok { OnOk result (self.new.given ≡ self.old.given ++ job ∷ []) }
        ensures back { IfErr result (λ back. back ≡ job) }
        ensures err { OnErr result (self.new.given ≡ self.old.given) }
    {
        self.inbox.give(rt, job)?;
        self.given = self.given.wrapping_add(1);
        self.waker.parker.unpark();
        Ok(())
    }

    /// How many jobs were given that the worker has not received yet.
    pub fn held(&self) -> u64 {
        self.given
            .wrapping_sub(self.waker.received.load(Ordering::SeqCst))
    }

    /// The number of the job that was given last. The first job has the number 1.
    pub fn last(&self) -> u64 {
        self.given
    }

    /// Whether the worker has done the job of this number, and all before it.
    pub fn has_done(&self, number: u64) -> bool {
        self.waker.done.load(Ordering::SeqCst) >= number
    }

    /// Where the inbox is full, sleeps until the worker has few jobs left, some hundred milliseconds at most.
    pub fn make_room<R: Wait>(&self, rt: &R) {
        if self.held() < MOST_JOBS as u64 {
            return;
        }
        let awaited = self.given.wrapping_sub(FEW_JOBS);
        self.waker.awaited.store(awaited, Ordering::SeqCst);
        for _ in 0..SLEEPS {
            if self.held() <= FEW_JOBS {
                return;
            }
            let longest = Duration::from_millis(LONGEST_SLEEP);
            self.waker.giver.park_timeout(rt, longest);
        }
    }

    /// Gives a job as often as it takes until the inbox has room for it: the one that ends the worker.
    pub fn finish<R: Wait>(&mut self, rt: &R, last: J)
        ensures { self.new.given ≡ self.old.given ++ last ∷ [] }
    {
        let mut job = last;
        for _ in rt.forever() {
            match self.give(rt, job) {
                Ok(()) => return,
                Err(back) => job = back,
            }
            self.make_room(rt);
        }
    }
}

/// The end that receives jobs.
#[derive(Drop)]
pub struct JobReceiver<'a, J: Drop, A: Allocator = Global> {
    inbox: InboxOut<J, A>,
    waker: &'a Waker,
}

impl<'a, J: Drop, A: Allocator> Model for JobReceiver<'a, J, A> {
    ghost use Rattle.call_table.specs.Inbox.{Receiving};

    ghost Value = { Receiving J };

    ghost view = { λ r. r.inbox };
}

impl<'a, J: Drop, A: Allocator> JobReceiver<'a, J, A> {
    /// The receiving end of an inbox from which nothing was received, with the waker of its worker.
    pub fn new(inbox: InboxOut<J, A>, waker: &'a Waker) -> JobReceiver<'a, J, A>
        ensures { result ≡ inbox }
    {
        JobReceiver { inbox, waker }
    }

    /// The next job. The worker sleeps until there is one. Whoever asks for it has done those before.
    pub fn receive<R: Wait>(&mut self, rt: &R) -> J
        ensures { self.new.received ≡ self.old.received ++ result ∷ [] }
    {
        self.waker.note_done();
        for _ in rt.forever() {
            if let Some(job) = self.inbox.receive(rt) {
                self.waker.count_received();
                return job;
            }
            self.waker.parker.park(rt);
        }
        unreachable!()
    }
}
