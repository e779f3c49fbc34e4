//! The calls that are kept, and when each is looked at.
ghost use Rattle.std.specs.Prelude.{◌≡◌, true};
ghost use Rattle.std.specs.Bool.{OnFalse};
ghost use Rattle.fork_model.specs.Log.{core_of};
ghost use Rattle.fork_model.specs.Table.{is_finished};

use crate::notes::NoteTables;
use call_table::{Schedule, Shelf};
use fork_call::Call;
use proxy_threads::{CallWalk, Refusals};
use std::alloc::{AllocError, Allocator, Global};
use std::sync::atomic::{AtomicU64, Ordering};
use std::sync::{Mutex, Wait};

/// How many calls are looked at before the time is read anew.
const MOST_LOOKED: u32 = 4_096;

/// What a look for calls that are open came to.
#[derive(Clone, Copy, PartialEq, Eq, Debug)]
pub(crate) enum Search {
    Open,
    Nothing,
    /// There are calls that were not looked at yet.
    Unfinished,
}

/// The calls of a service: they are kept, carried when they are due, told of, and forgotten once they are over.
#[derive(Drop)]
pub struct ServiceCalls<A: Allocator + Copy = Global> {
    /// The allocator of calls and their deadlines, and of what is written of them.
    pub(crate) alloc: A,
    /// The allocator of what is told of them.
    pub(crate) heap: Global,
    pub(crate) shelf: Shelf<Call<A>, A>,
    pub(crate) schedule: Schedule<A>,
    /// The calls that lack memory.
    pub(crate) refusals: Refusals,
    pub(crate) walk: Mutex<CallWalk>,
    /// What is noted of the calls.
    pub(crate) notes: NoteTables,
    /// No call below this number is open.
    unopened: AtomicU64,
}

/// Whether a call is open: a branch has not ended, or something is owed.
pub(crate) fn is_open<A: Allocator + Clone>(call: &mut Call<A>) -> bool
    ensures closed { OnFalse result (is_finished (core_of call.old.log).table.rows ≡ true) }
    ensures same { call.new ≡ call.old }
{
    !call.book().context().finished() || call.due() == Some(0)
}

impl<A: Allocator + Copy> ServiceCalls<A> {
    /// No call is kept. Calls and their deadlines have their memory from `alloc`; what is noted of them, which is taken here, from `heap`.
    ///
    /// # Errors
    ///
    /// Only where the allocator refuses.
    pub(crate) fn new(alloc: A, heap: Global) -> Result<ServiceCalls<A>, AllocError> {
        let shelf = Shelf::new(alloc)?;
        let schedule = Schedule::new(alloc)?;
        Ok(ServiceCalls {
            alloc,
            heap,
            shelf,
            schedule,
            refusals: Refusals::new(heap)?,
            walk: Mutex::new(CallWalk::new()),
            notes: NoteTables::new(heap)?,
            unopened: AtomicU64::new(0),
        })
    }

    /// When calls are due, to sleep on and to wake.
    pub fn schedule(&self) -> &Schedule<A> {
        &self.schedule
    }

    /// How many calls are kept.
    pub fn held<R: Wait>(&self, rt: &R) -> u64 {
        self.shelf.held(rt)
    }

    /// How many calls were opened.
    pub fn opened<R: Wait>(&self, rt: &R) -> u64 {
        self.shelf.count(rt)
    }

    /// Looks for a call that is open, from where the last look came to an end; at most 4,096 of them. A call that is not open stays so, but
    /// for what a datagram that is in work makes it owe.
    pub(crate) fn search_open<R: Wait>(&self, rt: &R) -> Search {
        let mut from = self.unopened.load(Ordering::SeqCst);
        let mut found = Search::Unfinished;
        for _ in 0..MOST_LOOKED {
            let Some(number) = self.shelf.next_from(rt, from) else {
                found = Search::Nothing;
                break;
            };
            from = number;
            if self.shelf.with(rt, number, is_open) == Some(true) {
                found = Search::Open;
                break;
            }
            from = number.saturating_add(1);
        }
        self.unopened.store(from, Ordering::SeqCst);
        found
    }
}
