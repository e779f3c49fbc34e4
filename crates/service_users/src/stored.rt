//! What a service does with changes that wait until they are kept.
use crate::keeping::PendingChange;
use crate::registry::Registry;
use crate::users::ServiceUsers;
use binding_table::{Change, KeepFault, Keeper, KeptUser, PreparedChange};
use bindings::UserBindings;
use call_table::Schedule;
use fork_call::{Datagram, Port};
use metrics::Counts;
use std::alloc::{AllocError, Global};
use std::sync::Wait;

/// These changes, as they are kept.
fn changes_of<'x>(
    alloc: Global,
    batch: &'x [PendingChange<Global>],
) -> Result<Vec<Change<'x>>, AllocError> {
    let mut changes = Vec::new(alloc);
    for pending in batch {
        changes.push(Change {
            user: pending.change.user(),
            bindings: pending.change.bindings(),
        })?;
    }
    Ok(changes)
}

/// Keeps all of these changes, or none.
fn store_all<K: Keeper>(
    alloc: Global,
    keeper: &mut K,
    batch: &[PendingChange<Global>],
) -> Result<(), KeepFault> {
    match changes_of(alloc, batch) {
        Ok(changes) => keeper.store(&changes),
        Err(AllocError) => Err(KeepFault("want of memory")),
    }
}

/// The line of changes that were not kept.
fn unkept_line(alloc: Global, count: usize, fault: KeepFault) -> Result<String, AllocError> {
    let why = fault.0;
    format!(in alloc; "{count} changes of bindings were not kept: {why}\n")
}

impl Registry<Global> {
    /// Takes over what was kept of a user elsewhere.
    fn restore<R: Wait>(&self, rt: &R, kept: KeptUser) -> Result<(), AllocError> {
        let KeptUser { user, bindings } = kept;
        self.note_use();
        self.bindings.insert(rt, &user, bindings)
    }
}

/// Sends the answer of this status to a REGISTER, and counts it.
fn send_answer<P: Port>(port: &mut P, counts: &Counts, answer: &Datagram<Global>, status: u16) {
    let _ = port.send(answer);
    counts.datagrams.answered.add(status);
    counts.senders.registrations.add(status);
}

/// What else of a service hears of a change that is kept: who keeps the time, and the counters.
#[derive(Clone, Copy)]
pub struct Hearing<'a> {
    pub schedule: &'a Schedule<Global>,
    pub counts: &'a Counts,
}

impl ServiceUsers<Global> {
    /// Takes over what was kept of users elsewhere: for the start, before a datagram is taken.
    ///
    /// # Errors
    ///
    /// Only where the allocator refuses.
    pub fn restore<R: Wait>(&self, rt: &R, users: Vec<KeptUser>) -> Result<(), AllocError> {
        for kept in users {
            self.registry.restore(rt, kept)?;
        }
        Ok(())
    }

    /// Makes a change that was kept, or gives it up.
    fn make_kept<R: Wait>(
        &self,
        rt: &R,
        schedule: &Schedule<Global>,
        change: PreparedChange<UserBindings<Global>, Global>,
        is_kept: bool,
    ) {
        if !is_kept {
            self.registry.give_up(rt, change);
        } else if self.registry.commit(rt, change) {
            // who keeps the time has not looked for bindings that end until now
            schedule.wake();
        }
    }

    /// Makes a change that was kept, or gives it up, and answers its request by that.
    fn settle_kept<R: Wait, P: Port>(
        &self,
        rt: &R,
        port: &mut P,
        hearing: Hearing<'_>,
        pending: PendingChange<Global>,
        is_kept: bool,
    ) {
        let PendingChange { change, answers } = pending;
        self.make_kept(rt, hearing.schedule, change, is_kept);
        let Some(answers) = answers else {
            return;
        };
        if is_kept {
            send_answer(port, hearing.counts, &answers.kept, 200);
        } else {
            send_answer(port, hearing.counts, &answers.unkept, 500);
        }
    }

    /// Counts changes that were not kept, and lets a line be written of them.
    fn note_unkept<R: Wait>(&self, rt: &R, counts: &Counts, count: usize, fault: KeepFault) {
        counts.senders.unkept.add(count as u64);
        if let Ok(line) = unkept_line(self.heap, count, fault) {
            let _ = self.warnings.push(rt, line.as_bytes());
        }
    }

    /// Keeps the changes that wait, all at once, and answers the requests that make them: by what is bound then, or 500 where the keeper
    /// refuses, and then nothing is changed. It says whether changes waited. It is for one thread, which may wait for a disk: no other does.
    pub fn keep<R: Wait, K: Keeper, P: Port>(
        &self,
        rt: &R,
        keeper: &mut K,
        port: &mut P,
        hearing: Hearing<'_>,
    ) -> bool {
        let batch = self.changes.take(rt);
        if batch.is_empty() {
            return false;
        }
        let stored = store_all(self.heap, keeper, &batch);
        if let Err(fault) = stored {
            self.note_unkept(rt, hearing.counts, batch.len(), fault);
        }
        let is_kept = stored.is_ok();
        for pending in batch {
            self.settle_kept(rt, port, hearing, pending, is_kept);
        }
        true
    }
}
