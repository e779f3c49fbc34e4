//! What is done with one call: it is carried, and forgotten once it is over.
ghost use Rattle.std.specs.Prelude.{◌≡◌, ◌↔◌, IsTrue};
ghost use Rattle.std.specs.Bool.{OnTrue};
ghost use Rattle.call_model.specs.Due.{IsOver};
ghost use Rattle.call_laws.specs.Quiet.{IsQuietWithoutOwed};

use crate::answers::AnswerPort;
use crate::calls::ServiceCalls;
use crate::journal::write_down;
use crate::targets::TargetSet;
use crate::visit::Visit;
use call_laws::calls_that_are_over_are_quiet;
use call_table::Removal;
use fork_call::{Call, Port, carry};
use proxy_threads::{NextStep, look_at, next_step};
use std::alloc::Allocator;
use std::sync::Wait;
use std::time::{Clock, SystemTime};

/// How many milliseconds pass until a call is looked at again that another thread looked at.
const AGAIN: u64 = 1;

/// Seconds since 1970; 0 where the clock cannot be read.
pub(crate) fn seconds<R: Clock>(rt: &R) -> u64 {
    match SystemTime::UNIX_EPOCH.elapsed(rt) {
        Ok(passed) => passed.as_secs(),
        Err(_) => 0,
    }
}

/// Whether a call may be forgotten: it is over, so whatever it is given it stays so, and sends nothing but 200s to CANCELs.
fn may_be_forgotten<A: Allocator + Clone>(call: &mut Call<A>) -> bool
    ensures over { IsTrue result ↔ IsOver call.old }
    ensures quiet { OnTrue result (IsQuietWithoutOwed call.new) }
    ensures same { call.new ≡ call.old }
{
    calls_that_are_over_are_quiet();
    call.over()
}

impl<A: Allocator + Copy> ServiceCalls<A> {
    /// Carries the call of this number at a later moment, in milliseconds, or sooner where it is due sooner.
    fn carry_at<R: Wait>(&self, rt: &R, number: u64, due: u64, visit: &Visit<'_>) {
        visit.note_missed(self.schedule.add(rt, number, due));
    }

    /// Has a call that no other thread looks at meanwhile carried when it is due next, and not before.
    fn schedule_next<R: Wait>(&self, rt: &R, call: &Call<A>, next: NextStep, visit: &Visit<'_>) {
        let due = match next {
            NextStep::At(due) if due > visit.now => look_at(call, due),
            NextStep::At(due) => due,
            NextStep::Nothing | NextStep::Over(_) | NextStep::Refused => return,
        };
        visit.note_missed(self.schedule.set(rt, call.number(), due));
    }

    /// Counts a call as finished, once, where each of its branches has ended. One that is over is counted as it is forgotten, unless it was
    /// before.
    fn count_finished<R: Wait>(&self, rt: &R, call: &Call<A>, visit: &Visit<'_>) {
        if call.book().context().finished() && self.notes.finish(rt, call.number()) {
            visit.counts.finished.add(1);
        }
    }

    /// Counts a call that was carried where each of its branches has ended. Of one that is over the block for the journal is appended, if there
    /// is a journal, or nothing for want of memory.
    fn note_step<R: Wait + Clock>(
        &self,
        rt: &R,
        call: &Call<A>,
        next: NextStep,
        visit: &Visit<'_>,
        block: &mut Vec<u8, A>,
    ) {
        match next {
            NextStep::At(_) | NextStep::Nothing => self.count_finished(rt, call, visit),
            NextStep::Over(_) if visit.journal.is_some() => {
                let _ = self.notes.append_block(rt, call, seconds(rt), block);
            }
            NextStep::Over(_) | NextStep::Refused => {}
        }
    }

    /// Notes that a call was opened, and, where there is a journal, what its book has more and the CANCELs that went out.
    fn note_call<R: Wait>(
        &self,
        rt: &R,
        call: &Call<A>,
        visit: &Visit<'_>,
        cancels: Option<TargetSet>,
    ) {
        match cancels {
            Some(cancels) => self.notes.note(rt, call, cancels, visit.now),
            None if visit.is_first => self.notes.open(rt, call.number(), visit.now),
            None => {}
        }
    }

    /// Carries a call, and answers what is to be done next: one that is due later is carried then, unless it changes before.
    fn carried<R: Wait + Clock, P: Port>(
        &self,
        rt: &R,
        call: &mut Call<A>,
        port: &mut P,
        visit: &Visit<'_>,
        block: &mut Vec<u8, A>,
    ) -> NextStep
        ensures { call.new.opened.number ≡ call.old.opened.number }
    {
        let mut answers = AnswerPort {
            port,
            has_answered: false,
            cancels: visit.no_cancels(),
        };
        let now = visit.now;
        let carried = carry(call, &mut answers, now);
        visit.note_answer(call, answers.has_answered);
        self.note_call(rt, call, visit, answers.cancels);
        let next = next_step(call, carried, now);
        self.note_step(rt, call, next, visit, block);
        self.schedule_next(rt, call, next, visit);
        next
    }

    /// Forgets a call that is over, counts how it ended, and writes it down. Where another thread looks at it meanwhile, or has given it
    /// something, it is looked at again. Who comes second to it does nothing.
    fn forget<R: Wait>(
        &self,
        rt: &R,
        number: u64,
        failure: Option<u16>,
        block: &[u8],
        visit: &Visit<'_>,
    ) {
        match self.shelf.remove_if(rt, number, may_be_forgotten) {
            Removal::Removed => {
                visit.admission.quota.forget(rt);
                let was_finished = self.notes.forget(rt, number);
                visit.count_forgotten(was_finished, failure);
                if let Some(journal) = visit.journal {
                    write_down(rt, journal, visit.counts, block);
                }
            }
            Removal::Busy | Removal::Kept => {
                self.carry_at(rt, number, visit.now.saturating_add(AGAIN), visit);
            }
            Removal::Absent => {}
        }
    }

    /// Carries the call of this number again behind a wait: it lacked memory. No call is opened for a second.
    fn carry_later<R: Wait>(&self, rt: &R, number: u64, visit: &Visit<'_>) {
        visit.admission.quota.close(visit.now);
        let wait = self.refusals.refuse(rt, number);
        self.carry_at(rt, number, visit.now.saturating_add(wait), visit);
    }

    /// Does what is to be done next with the call of this number, beside looking at it when it is due.
    fn follow<R: Wait>(
        &self,
        rt: &R,
        number: u64,
        next: NextStep,
        block: &[u8],
        visit: &Visit<'_>,
    ) {
        if !matches!(next, NextStep::Refused) {
            self.refusals.clear(rt, number);
        }
        match next {
            NextStep::Over(failure) => self.forget(rt, number, failure, block, visit),
            NextStep::Refused => self.carry_later(rt, number, visit),
            NextStep::At(_) | NextStep::Nothing => {}
        }
    }

    /// Carries the call of this number; one that is over is written down and forgotten.
    pub(crate) fn carry<R: Wait + Clock, P: Port>(
        &self,
        rt: &R,
        port: &mut P,
        number: u64,
        visit: &Visit<'_>,
    ) {
        let mut block = Vec::new(self.alloc);
        let next = self.shelf.with(
            rt,
            number,
            |call| self.carried(rt, call, port, visit, &mut block),
        );
        if let Some(next) = next {
            self.follow(rt, number, next, block.as_slice(), visit);
        }
    }
}
