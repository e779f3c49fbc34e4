//! Running the workers of a script.
ghost use Rattle.std.specs.Prelude.{◌≡◌, ◌<◌, ◌↔◌, ◌++◌, length, OnOk, OnErr, IfOk, IfErr, IsErrOf};
ghost use Rattle.fork_rank.specs.KindView.{kind_of};
ghost use Rattle.fork_model.specs.History.{opening};
ghost use Rattle.fork_program.specs.Faults.{most_text};
ghost use Rattle.fork_program.specs.Replay.{opening_text};
ghost use Rattle.fork_rank.specs.RuleLines.{ended};
ghost use Rattle.fork_engine.specs.Workers.{Workers};
ghost use Rattle.fork_engine.specs.TextFaults.{PrintsRun, AppendsRun};
ghost use Rattle.fork_engine.specs.TornBooks.{IsTrueDriveFault, IsTrueRunFault};
ghost use Rattle.fork_engine.specs.inner.Faults.{IsFirstFault};
ghost use Rattle.fork_engine.specs.Headline.{AppendsOneFinal, AppendsNoFinal};
ghost use Rattle.fork_engine.specs.inner.FaultView.{fault_driven};
ghost use Rattle.fork_engine.specs.declared.text_fault.RunFault.TheVariants as run;

use crate::fault::DriveFault;
use crate::print::append_posts;
use crate::run::drive;
use crate::scripts::Workers;
use crate::text_fault::RunFault;
use crate::workers::Gate;
use context_values::copied_targets;
use fork_context::{Context, Kind, Target};
use fork_listing::the_choice_is_listed_first;
use fork_model::exactly_one_final;
use fork_program::{MOST_TEXT, ProgFault, append_ending, append_opening, replays_are_answered_yes};
use fork_rank::Rules;
use std::alloc::Allocator;
use std::sync::Wait;
use std::thread::Threads;

/// A gate that holds nobody.
#[derive(Drop)]
struct OpenGate;

impl Gate for OpenGate {
    fn before(&self, _worker: u8, _place: u32) {}

    fn after(&self, _worker: u8, _place: u32) {}
}

/// Appends the first line: which targets are tried at once.
fn append_first<A: Allocator + Clone>(
    alloc: &A,
    text: &mut Vec<u8, A>,
    kind: Kind,
    rules: Rules,
    targets: &[Target<A>],
) -> Result<(), ProgFault>
    ensures appended { OnOk result (text.new.items ≡ text.old.items ++ ended (opening_text (opening (kind_of kind) rules targets.now))) }
    ensures fault { IfErr result (IsFirstFault targets.now) }
{
    let copies = copied_targets(alloc, targets)?;
    let context = Context::new(alloc.clone()?, kind, rules, copies)?;
    append_opening(alloc.clone()?, text, &context)?;
    Ok(())
}

/// The fault of the text for that of a run.
fn fault_of<A: Allocator + Clone>(fault: DriveFault<A>) -> RunFault<A>
    ensures { result ≡ fault_driven fault }
{
    match fault {
        DriveFault::New(fault) => RunFault::Text(ProgFault::from(fault)),
        DriveFault::Full => RunFault::Text(ProgFault::Stopped),
        DriveFault::NoMemory => RunFault::Text(ProgFault::NoMemory),
        DriveFault::Torn(book) => RunFault::Torn(book),
    }
}

/// What a run of the workers prints.
fn printed<A: Allocator + Clone + Send + Sync, R: Threads + Wait + Sync>(
    rt: &R,
    alloc: &A,
    workers: Workers<A>,
) -> Result<Vec<u8, A>, RunFault<A>>
    ensures ok { IfOk result (λ text. PrintsRun workers text.items) }
    ensures fault { IfErr result (IsTrueRunFault workers) }
{
    replays_are_answered_yes();
    let Workers {
        kind,
        rules,
        targets,
        scripts,
    } = workers;
    let mut text = Vec::new(alloc.clone()?);
    append_first(alloc, &mut text, kind, rules, &targets)?;
    match drive(rt, alloc.clone()?, kind, rules, targets, scripts, &OpenGate) {
        Ok(book) => {
            append_posts(&mut text, &book)?;
            append_ending(alloc.clone()?, &mut text, book.context())?;
            Ok(text)
        }
        Err(fault) => Err(fault_of(fault)),
    }
}

/// Runs the workers of a script, a thread for each, which post their events to one fork, and appends what the proxy does:
/// which targets are tried at once, the reply to each event in the order in which they came, with its worker's number before
/// it, and how the fork stands at the end, with the listing of a fork that is done. The exit status is 0. The text is built
/// apart, so that `out` is as it was where the run is refused.
///
/// Whatever the order: where every branch of the fork has ended and no 2xx came, exactly one of the replies printed is
/// final, that to the event which ended the last branch: the stored answer that none stored ranks before, 408 if there is
/// none, 500 in place of a 503; and the list printed behind the replies holds all stored answers in order of rank, that one
/// first (RFC 3261 section 16.7 steps 5, 6 and 10). That list is right: a check of what was appended from its line `fork` on
/// says yes. Where a branch has not ended, or one has with a 2xx, none of the replies printed is final.
///
/// # Errors
///
/// In this order: `TooLong` over `MOST_TEXT` bytes; `Line` with the first malformed line; `New` where the targets are no
/// fork; `Stopped` where the workers together have more than 4,096 events and one of them met a full context. `NoMemory` where a growth
/// was refused; `Torn` with the book, where that is not one of this fork, or its history no order of the script's events (as
/// [`crate::run::drive`] compares them).
pub fn drive_text<A: Allocator + Clone + Send + Sync, R: Threads + Wait + Sync>(
    rt: &R,
    alloc: A,
    text: &[u8],
    out: &mut Vec<u8, A>,
) -> Result<u8, RunFault<A>>
    ensures status { IfOk result (λ status. status ≡ 0) }
    ensures driven { OnOk result (AppendsRun text.now out.old.items out.new.items) }
    ensures one_final { OnOk result (AppendsOneFinal text.now out.old.items out.new.items) }
    ensures no_final { OnOk result (AppendsNoFinal text.now out.old.items out.new.items) }
    ensures fault { IfErr result (IsTrueDriveFault text.now) }
    ensures too_long { IsErrOf result (run.Text ProgFault.TooLong) ↔ (most_text < length text.now) }
    ensures err { OnErr result (out.new.items ≡ out.old.items) }
{
    the_choice_is_listed_first();
    exactly_one_final();
    if text.len() > MOST_TEXT {
        return Err(RunFault::Text(ProgFault::TooLong));
    }
    let workers = match Workers::read(&alloc, text) {
        Ok(workers) => workers,
        Err(fault) => return Err(RunFault::Text(ProgFault::from(fault))),
    };
    let printed = printed(rt, &alloc, workers)?;
    out.extend_from_slice(&printed)?;
    Ok(0)
}
