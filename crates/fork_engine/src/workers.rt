//! The workers that post to one book, each in a thread of its own.
use crate::opened_book::OpenedBook;
use fork_context::Event;
use std::alloc::Allocator;
use std::sync::atomic::{AtomicU64, Ordering};
use std::sync::{Mutex, Wait};
use std::thread;
use std::thread::Threads;

/// What a worker calls around each post.
pub trait Gate {
    /// Before the post of the worker's event at this place of its script.
    fn before(&self, worker: u8, place: u32);

    /// After it.
    fn after(&self, worker: u8, place: u32);
}

/// How a worker ended.
#[derive(Clone, Copy, PartialEq, Eq, Debug)]
pub(crate) enum Ended {
    Done,
    Full,
    NoMemory,
}

/// Which refusals the workers met.
#[derive(Drop)]
pub(crate) struct RefusalFlags {
    full: AtomicU64,
    memory: AtomicU64,
}

impl RefusalFlags {
    /// None yet.
    pub(crate) fn new() -> RefusalFlags {
        RefusalFlags {
            full: AtomicU64::new(0),
            memory: AtomicU64::new(0),
        }
    }

    /// Notes how a worker ended.
    fn note(&self, ended: Ended) {
        match ended {
            Ended::Done => {}
            Ended::Full => self.full.store(1, Ordering::SeqCst),
            Ended::NoMemory => self.memory.store(1, Ordering::SeqCst),
        }
    }

    /// Whether a worker met a full book.
    pub(crate) fn full(&self) -> bool {
        self.full.load(Ordering::SeqCst) == 1
    }

    /// Whether a worker met want of memory.
    pub(crate) fn memory(&self) -> bool {
        self.memory.load(Ordering::SeqCst) == 1
    }
}

/// What workers post to.
pub(crate) trait Posting<A: Allocator> {
    /// Posts a copy of an event under a worker's tag.
    fn post_copy<R: Wait>(&self, rt: &R, alloc: &A, worker: u8, event: &Event<A>) -> Ended;
}

impl<A: Allocator + Clone> Posting<A> for Mutex<OpenedBook<A>> {
    fn post_copy<R: Wait>(&self, rt: &R, alloc: &A, worker: u8, event: &Event<A>) -> Ended {
        let Ok(copy) = event.copy(alloc) else {
            return Ended::NoMemory;
        };
        self.lock(rt).post(worker, copy)
    }
}

/// What each worker does.
trait Work {
    /// The work of this worker, whole.
    fn run(&self, worker: u8);
}

/// What the workers are given.
#[derive(Drop)]
pub(crate) struct WorkerArguments<'a, A: Allocator, G, R> {
    pub(crate) rt: &'a R,
    pub(crate) alloc: &'a A,
    pub(crate) scripts: &'a [Vec<Event<A>, A>],
    pub(crate) gate: &'a G,
    pub(crate) refusals: &'a RefusalFlags,
}

/// The workers at one book.
#[derive(Drop)]
struct WorkerPool<'a, A: Allocator, P, G, R> {
    book: &'a P,
    arguments: &'a WorkerArguments<'a, A, G, R>,
}

impl<'a, A: Allocator, P: Posting<A>, G: Gate, R: Wait> WorkerPool<'a, A, P, G, R> {
    /// Posts a script, up to the first refusal.
    fn post_all(&self, worker: u8, script: &[Event<A>]) -> Ended {
        let arguments = self.arguments;
        let mut place = 0u32;
        for event in script {
            arguments.gate.before(worker, place);
            let ended = self
                .book
                .post_copy(arguments.rt, arguments.alloc, worker, event);
            arguments.gate.after(worker, place);
            if ended != Ended::Done {
                return ended;
            }
            place = place.saturating_add(1);
        }
        Ended::Done
    }
}

impl<'a, A: Allocator, P: Posting<A>, G: Gate, R: Wait> Work for WorkerPool<'a, A, P, G, R> {
    fn run(&self, worker: u8) {
        if let Some(script) = self.arguments.scripts.get(usize::from(worker)) {
            self.arguments
                .refusals
                .note(self.post_all(worker, script.as_slice()));
        }
    }
}

/// Runs so many workers, each in a thread of its own, and in the calling thread where none can be made.
fn run_workers<W: Work + Sync, R: Threads + Wait + Sync>(rt: &R, count: u8, work: &W) {
    thread::scope(thread::scope_env(), rt, |scope| {
        for worker in 0..count {
            let ran = scope.spawn(move || work.run(worker));
            if ran.is_err() {
                work.run(worker);
            }
        }
    });
}

/// Posts the scripts to one book, a worker for each.
fn post_scripts<
    'a,
    A: Allocator + Sync,
    P: Posting<A> + Sync,
    G: Gate + Sync,
    R: Threads + Wait + Sync,
>(book: &'a P, arguments: &'a WorkerArguments<'a, A, G, R>) {
    let count = u8::try_from(arguments.scripts.len()).unwrap_or(u8::MAX);
    let workers = WorkerPool { book, arguments };
    run_workers(arguments.rt, count, &workers);
}

/// Posts the scripts to a book under a lock, a worker for each.
pub(crate) fn post_under_lock<
    'a,
    A: Allocator + Clone + Send + Sync,
    G: Gate + Sync,
    R: Threads + Wait + Sync,
>(book: &'a Mutex<OpenedBook<A>>, arguments: &'a WorkerArguments<'a, A, G, R>) {
    post_scripts(book, arguments);
}
