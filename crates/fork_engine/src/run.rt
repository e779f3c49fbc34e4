//! Workers that post their scripts to one book (RFC 3261 section 16.7).
ghost use Rattle.std.specs.Prelude.{◌≡◌, ◌≤◌, ◌<◌, ◌^◌, ◌↔◌, [], IsErrAnd, IfOk, IfErr, map, vec_len, length};
ghost use Rattle.fork_model.specs.Table.{most_targets};
ghost use Rattle.fork_model.specs.History.{opening};
ghost use Rattle.context_values.specs.EventView.{event_of};
ghost use Rattle.fork_rank.specs.KindView.{kind_of};
ghost use Rattle.fork_context.specs.Refusals.{IsTooMany, HasTwice};
ghost use Rattle.fork_model.specs.Log.{IsLog, EndsOnce};
ghost use Rattle.fork_engine.specs.Faults.{IsNew, IsNoNew, IsTrueFault};
ghost use Rattle.fork_engine.specs.Interleaving.{IsInterleaving};
ghost use Rattle.fork_engine.specs.Plain.{EndsWithLeast};

use crate::compare::{have_more_events, is_interleaving};
use crate::fault::DriveFault;
use crate::interleaving_laws::order_does_not_matter;
use crate::opened_book::{DriveRun, OpenedBook, is_ours, opened_run};
use crate::workers::{Gate, RefusalFlags, WorkerArguments, post_under_lock};
use fork_book::Book;
use fork_context::{Event, Kind, NewFault, Target};
use fork_rank::Rules;
use std::alloc::Allocator;
use std::sync::{Mutex, Wait};
use std::thread::Threads;

/// From so many events on, a book refuses one that would change nothing.
const MOST_STRAYS: usize = 4096;

/// Compares the book with what was given.
fn compared<A: Allocator + Clone>(
    kind: Kind,
    rules: Rules,
    targets: &[Target<A>],
    scripts: &[Vec<Event<A>, A>],
    held: OpenedBook<A>,
    full: bool,
    memory: bool,
) -> Result<Book<A>, DriveFault<A>>
    requires { length scripts.now < 2 ^ 32 }
    ensures opened { IfOk result (λ book. book.opening ≡ opening (kind_of kind) rules targets.now) }
    ensures mixed { IfOk result (λ book. IsInterleaving (map (λ s. map event_of s.items) scripts.now) book.history) }
    ensures log { IfOk result IsLog }
    ensures once { IfOk result EndsOnce }
    ensures fault { IfErr result (IsTrueFault (kind_of kind) rules targets.now (map (λ s. map event_of s.items) scripts.now)) }
    ensures new { IfErr result IsNoNew }
{
    let ours = is_ours(&held, kind, rules, targets);
    let mixed = is_interleaving(held.book.history(), scripts);
    if ours && mixed {
        let _context = held.book.context();
        return Ok(held.book);
    }
    if full && have_more_events(scripts, MOST_STRAYS) {
        return Err(DriveFault::Full);
    }
    if memory {
        return Err(DriveFault::NoMemory);
    }
    Err(DriveFault::Torn(held.book))
}

/// Posts the scripts to one book, a worker for each, which calls the gate round each post. The book's kind, rules and
/// targets are those given, and its history is an interleaving of the scripts.
///
/// # Errors
///
/// Where the targets are at fault, as [`Context::new`] says; where the scripts together have more than 4,096 events
/// and a worker met a full book; where a worker met want of memory; else the book, where it is not one of what was
/// given.
pub fn drive<A: Allocator + Clone + Send + Sync, G: Gate + Sync, R: Threads + Wait + Sync>(
    rt: &R,
    alloc: A,
    kind: Kind,
    rules: Rules,
    targets: Vec<Target<A>, A>,
    scripts: Vec<Vec<Event<A>, A>, A>,
    gate: &G,
) -> Result<Book<A>, DriveFault<A>>
    requires some { 0 < vec_len scripts }
    requires few { vec_len scripts ≤ 8 }
    ensures opened { IfOk result (λ book. book.opening ≡ opening (kind_of kind) rules targets.items) }
    ensures mixed { IfOk result (λ book. IsInterleaving (map (λ s. map event_of s.items) scripts.items) book.history) }
    // each reply is that to the event at its place
    ensures log { IfOk result IsLog }
    ensures headline { IfOk result EndsOnce }
    ensures plain { IfOk result (EndsWithLeast rules targets.items (map (λ s. map event_of s.items) scripts.items)) }
    ensures none { IsErrAnd result (IsNew NewFault.NoTargets) ↔ (targets.items ≡ []) }
    ensures many { IsErrAnd result (IsNew NewFault.TooMany) ↔ IsTooMany targets.items }
    ensures twice { IsErrAnd result (IsNew NewFault.Twice) ↔ ((length targets.items ≤ most_targets) × HasTwice targets.items) }
    ensures memory { IsErrAnd result (IsNew NewFault.NoMemory) → ⊥ }
    ensures fault { IfErr result (IsTrueFault (kind_of kind) rules targets.items (map (λ s. map event_of s.items) scripts.items)) }
{
    order_does_not_matter();
    let run = opened_run(alloc, kind, rules, targets)?;
    let refusals = RefusalFlags::new();
    let DriveRun {
        alloc,
        targets,
        held,
    } = run;
    let shared = Mutex::new(held);
    let arguments = WorkerArguments {
        rt,
        alloc: &alloc,
        scripts: scripts.as_slice(),
        gate,
        refusals: &refusals,
    };
    post_under_lock(&shared, &arguments);
    let (full, memory) = (refusals.full(), refusals.memory());
    compared(
        kind,
        rules,
        &targets,
        scripts.as_slice(),
        shared.into_inner(),
        full,
        memory,
    )
}
