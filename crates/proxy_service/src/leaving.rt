//! The calls that are left as a service ends.
ghost use Rattle.std.specs.Prelude.{◌≡◌, ◌≤◌};

use crate::calls::ServiceCalls;
use crate::carrying::seconds;
use crate::journal::write_down;
use crate::notes::NoteTables;
use crate::service::Service;
use fork_call::Call;
use service_files::JournalQueue;
use std::alloc::Allocator;
use std::sync::Wait;
use std::thread;
use std::time::{Clock, Duration};

/// How often the last blocks wait for room, and for how many milliseconds each time.
const MOST_RESTS: u32 = 200;

const REST: u64 = 5;

/// Appends the block of a call, or nothing for want of memory.
fn write_block<R: Wait, A: Allocator + Clone>(
    rt: &R,
    notes: &NoteTables,
    call: &mut Call<A>,
    time: u64,
    block: &mut Vec<u8, A>,
)
    ensures { call.new.opened.number ≡ call.old.opened.number }
{
    let _ = notes.append_block(rt, call, time, block);
}

/// Rests, so many times at most, until there is room for a block of so many bytes, and answers how often it may rest from then on.
fn await_room<R: Wait + Clock>(rt: &R, journal: &JournalQueue, bytes: usize, rests: u32) -> u32
    ensures { result ≤ rests }
{
    for rested in 0..rests {
        if journal.has_room(rt, bytes) {
            return rests - rested;
        }
        thread::sleep(rt, Duration::from_millis(REST));
    }
    0
}

impl<A: Allocator + Copy> ServiceCalls<A> {
    /// Appends the block of the call of this number, or nothing for want of memory, and says whether such a call is kept.
    fn write_left<R: Wait>(&self, rt: &R, number: u64, time: u64, block: &mut Vec<u8, A>) -> bool {
        let notes = &self.notes;
        let written = self.shelf.with(rt, number, |call| write_block(rt, notes, call, time, block));
        written.is_some()
    }
}

impl<A: Allocator + Copy> Service<A> {
    /// Has all calls that are left written down, as the service ends, if there is a journal. Where too many blocks wait it waits for the
    /// thread that writes them, a second at most in all.
    pub fn write_down_left<R: Wait + Clock>(&self, rt: &R) {
        let Some(journal) = self.kept_journal() else {
            return;
        };
        let time = seconds(rt);
        let mut rests = MOST_RESTS;
        let mut from = 0;
        for _ in rt.forever() {
            let Some(number) = self.calls.shelf.next_from(rt, from) else {
                return;
            };
            let mut block = Vec::new(self.alloc);
            if self.calls.write_left(rt, number, time, &mut block) {
                rests = await_room(rt, journal, block.len(), rests);
                write_down(rt, journal, &self.counts.calls, block.as_slice());
            }
            from = number.saturating_add(1);
        }
        unreachable!()
    }
}
