//! What is noted of the calls that are kept: when each was opened, whether it was counted as finished, and, where there is a journal, what its
//! targets did.
ghost use Rattle.std.specs.Prelude.{◌≡◌, ◌++◌, OnErr, OnOk};
ghost use Rattle.std.specs.List.{filter_map};
ghost use Rattle.std.specs.Option.{option_to_list};
ghost use Rattle.proxy_service.specs.Noting.{noted_at};

use crate::journal::append_block;
use crate::targets::{MOST_TARGETS, TargetSet};
use call_journal::{Note, NotedEvent, since};
use fork_book::Posted;
use fork_call::Call;
use fork_context::State;
use std::alloc::{AllocError, Allocator, Global};
use std::collections::BTreeMap;
use std::mem;
use std::sync::{Mutex, Wait};

/// In how many tables the calls are noted, each behind a lock of its own, so that threads seldom wait for one another.
const TABLES: u64 = 64;

/// What is noted of a call.
#[derive(Drop)]
struct CallNotes {
    /// When it was opened, in milliseconds.
    opened: u64,
    /// Whether it was counted as finished.
    is_finished: bool,
    /// How many events of its book were looked at.
    seen: usize,
    /// To which of its targets a CANCEL went.
    cancelled: TargetSet,
    notes: Vec<Note>,
}

/// Adds the note of an event so many milliseconds behind the opening of its call, if there is one of it.
fn add_note<A: Allocator>(
    notes: &mut Vec<Note>,
    posted: &Posted<A>,
    at: u64,
) -> Result<(), AllocError>
    ensures { OnOk result (notes.new.items ≡ notes.old.items ++ option_to_list (noted_at at posted.now)) }
{
    match Note::of(posted.event(), at) {
        Some(note) => Ok(notes.push(note)?),
        None => Ok(()),
    }
}

/// Adds the notes of these events so many milliseconds behind the opening of their call.
///
/// # Errors
///
/// Only where the allocator refuses.
fn add_notes<A: Allocator>(
    notes: &mut Vec<Note>,
    events: &[Posted<A>],
    at: u64,
) -> Result<(), AllocError>
    ensures { OnOk result (notes.new.items ≡ notes.old.items ++ filter_map (noted_at at) events.now) }
{
    for posted in events {
        add_note(notes, posted, at)?;
    }
    Ok(())
}

impl CallNotes {
    /// Of a call that is opened at this moment, in milliseconds.
    fn new(alloc: Global, opened: u64) -> CallNotes {
        CallNotes {
            opened,
            is_finished: false,
            seen: 0,
            cancelled: TargetSet::none(),
            notes: Vec::new(alloc),
        }
    }

    /// For how many milliseconds the call is open at this moment.
    fn passed(&self, now: u64) -> u64 {
        now.saturating_sub(self.opened)
    }

    /// Notes the events of a history that were not looked at yet. Where memory is refused they are noted with the next ones, and so with a
    /// later moment.
    fn note_events<A: Allocator>(&mut self, history: &[Posted<A>], now: u64) {
        let before = self.notes.len();
        let at = self.passed(now);
        let behind = history.get(self.seen..).unwrap_or(&[]);
        match add_notes(&mut self.notes, behind, at) {
            Ok(()) => self.seen = history.len(),
            Err(AllocError) => self.notes.truncate(before),
        }
    }

    /// Notes the CANCELs that went to these targets. One that is sent again is not noted again.
    fn note_cancels(&mut self, targets: TargetSet, now: u64) {
        if targets.is_empty() {
            return;
        }
        let at = self.passed(now);
        for target in 0..MOST_TARGETS {
            if targets.has(target) && !self.cancelled.has(target) {
                let note = Note {
                    target,
                    what: NotedEvent::Cancelled,
                    at,
                };
                if self.notes.push(note).is_ok() {
                    self.cancelled.add(target);
                }
            }
        }
    }
}

/// The notes of some calls, by their numbers.
type Table = BTreeMap<u64, CallNotes>;

/// Begins the notes of a call at this moment, where there are none, and there is memory for them.
fn begin(table: &mut Table, alloc: Global, number: u64, now: u64) {
    if !table.contains_key(&number) {
        let _ = table.insert(number, CallNotes::new(alloc, now));
    }
}

/// What is noted of all calls that are kept, for all threads. Whoever asks for more has the lock of the call in question.
#[derive(Drop)]
pub(crate) struct NoteTables {
    alloc: Global,
    tables: Vec<Mutex<Table>>,
}

impl NoteTables {
    /// Nothing is noted.
    ///
    /// # Errors
    ///
    /// Only where the allocator refuses.
    pub(crate) fn new(alloc: Global) -> Result<NoteTables, AllocError> {
        let mut tables = Vec::new(alloc);
        for _ in 0..TABLES {
            if tables.push(Mutex::new(BTreeMap::new(alloc))).is_err() {
                return Err(AllocError);
            }
        }
        Ok(NoteTables { alloc, tables })
    }

    /// The table in which a call is noted.
    fn table(&self, number: u64) -> Option<&Mutex<Table>> {
        self.tables.get((number % TABLES) as usize)
    }

    /// Notes that a call was opened at this moment, in milliseconds.
    pub(crate) fn open<R: Wait>(&self, rt: &R, number: u64, now: u64) {
        if let Some(table) = self.table(number) {
            begin(&mut table.lock(rt), self.alloc, number, now);
        }
    }

    /// Notes what the book of a call has more, and the CANCELs that went to these targets.
    pub(crate) fn note<R: Wait, A: Allocator + Clone>(
        &self,
        rt: &R,
        call: &Call<A>,
        cancels: TargetSet,
        now: u64,
    ) {
        let Some(table) = self.table(call.number()) else {
            return;
        };
        let number = call.number();
        let mut table = table.lock(rt);
        begin(&mut table, self.alloc, number, now);
        if let Some(notes) = table.get_mut(&number) {
            notes.note_events(call.book().history(), now);
            notes.note_cancels(cancels, now);
        }
    }

    /// Appends the block of a call that ends at this time, in seconds since 1970 (see [`append_block`]).
    ///
    /// # Errors
    ///
    /// Only where the allocator refuses; `block` is then as it was.
    pub(crate) fn append_block<R: Wait, A: Allocator + Clone>(
        &self,
        rt: &R,
        call: &Call<A>,
        time: u64,
        block: &mut Vec<u8, A>,
    ) -> Result<(), AllocError> {
        let Some(table) = self.table(call.number()) else {
            return append_block(call, time, &[], block);
        };
        let table = table.lock(rt);
        match table.get(&call.number()) {
            Some(kept) => append_block(call, time, kept.notes.as_slice(), block),
            None => append_block(call, time, &[], block),
        }
    }

    /// When a call was opened, in milliseconds, if that is noted.
    pub(crate) fn opened<R: Wait>(&self, rt: &R, number: u64) -> Option<u64> {
        let table = self.table(number)?.lock(rt);
        Some(table.get(&number)?.opened)
    }

    /// Since when the branch of a target stands so, in milliseconds since the opening of its call, if that is noted (see [`since`]).
    pub(crate) fn since<R: Wait>(
        &self,
        rt: &R,
        number: u64,
        target: u16,
        state: State,
    ) -> Option<u64> {
        let table = self.table(number)?.lock(rt);
        since(table.get(&number)?.notes.as_slice(), target, state)
    }

    /// Notes that a call is counted as finished, and says whether it was not before. Where nothing is noted of the call, for want of memory,
    /// it is not counted yet.
    pub(crate) fn finish<R: Wait>(&self, rt: &R, number: u64) -> bool {
        let Some(table) = self.table(number) else {
            return false;
        };
        let mut table = table.lock(rt);
        match table.get_mut(&number) {
            Some(notes) => !mem::replace(&mut notes.is_finished, true),
            None => false,
        }
    }

    /// Forgets what is noted of a call that is no more kept, and says whether the call was counted as finished.
    pub(crate) fn forget<R: Wait>(&self, rt: &R, number: u64) -> bool {
        let Some(table) = self.table(number) else {
            return false;
        };
        let forgotten = table.lock(rt).remove(&number);
        match forgotten {
            Some(notes) => notes.is_finished,
            None => false,
        }
    }
}
