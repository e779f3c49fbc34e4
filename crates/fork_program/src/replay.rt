//! Replaying a script: the program's text for the replies of a fork.
ghost use Rattle.std.specs.Prelude.{◌≡◌, ◌<◌, ◌↔◌, length, map, OnOk, OnErr, IfOk, IfErr, IsErrOf};
ghost use Rattle.context_values.specs.EventView.{event_of};
ghost use Rattle.fork_program.specs.inner.Replay.{AddsOutcome, AddsOutcomes};
ghost use Rattle.fork_program.specs.Script.{Script};
ghost use Rattle.fork_program.specs.Faults.{most_text, IsFault, IsForkReplay, AppendsReplay};
ghost use Rattle.fork_program.specs.inner.Faults.{IsForkRefusal};
ghost use Rattle.fork_program.specs.Headline.{IsDone, TellsOneFinal, AppendsOneFinal, IsNotDone, TellsNoFinal, AppendsNoFinal};
ghost use Rattle.fork_program.specs.RightListing.{AppendsRightListing};

use crate::fault::ProgFault;
use crate::law::replays_are_answered_yes;
use crate::print::{append_ending, append_full, append_opening, append_reply};
use crate::script::Script;
use fork_context::{Context, Event, PostError};
use fork_listing::the_choice_is_listed_first;
use fork_model::exactly_one_final_of_context;
use std::alloc::{AllocError, Allocator};
use std::collections::VecDeque;

/// No more bytes than these are read of a script.
pub const MOST_TEXT: usize = 1_048_576;

/// Posts one event and appends its line.
fn append_outcome<A: Allocator + Clone>(
    text: &mut Vec<u8, A>,
    context: &mut Context<A>,
    event: Event<A>,
) -> Result<(), AllocError>
    ensures { OnOk result (AddsOutcome context.old context.new (event_of event) text.old.items text.new.items) }
{
    match context.post(event) {
        Ok(reply) => append_reply(text, context, &reply),
        Err(PostError::Full(_)) => append_full(text),
        Err(PostError::NoMemory(_)) => Err(AllocError),
    }
}

/// Posts the events in their order and appends a line for each.
fn append_outcomes<A: Allocator + Clone>(
    text: &mut Vec<u8, A>,
    context: &mut Context<A>,
    mut events: VecDeque<Event<A>, A>,
) -> Result<(), AllocError>
    ensures { OnOk result (AddsOutcomes context.old context.new (map event_of events.items) text.old.items text.new.items) }
{
    while let Some(event) = events.pop_front() {
        append_outcome(text, context, event)?;
    }
    Ok(())
}

/// What the replay of a script prints.
fn replay<A: Allocator + Clone>(alloc: A, script: Script<A>) -> Result<Vec<u8, A>, ProgFault>
    ensures ok { IfOk result (λ text. IsForkReplay script text.items) }
    ensures one_final { IfOk result (λ text. IsDone script → TellsOneFinal script text.items) }
    ensures no_final { IfOk result (λ text. IsNotDone script → TellsNoFinal script text.items) }
    ensures fault { IfErr result (IsForkRefusal script) }
{
    the_choice_is_listed_first();
    exactly_one_final_of_context();
    let Script {
        kind,
        rules,
        targets,
        events,
    } = script;
    let mut context = Context::new(alloc.clone()?, kind, rules, targets)?;
    let mut text = Vec::new(alloc.clone()?);
    append_opening(alloc.clone()?, &mut text, &context)?;
    append_outcomes(&mut text, &mut context, events)?;
    append_ending(alloc, &mut text, &context)?;
    Ok(text)
}

/// Replays a script and appends what its replay prints; the exit status is 0. The text is built apart, so that
/// `out` is as it was where it is refused.
///
/// Where every branch of the fork has ended and no 2xx came, exactly one of the replies printed is final, that to the event
/// which ended the last branch: the stored answer that none stored ranks before, 408 if there is none, 500 in place of a 503;
/// and the list printed behind the replies holds all stored answers in order of rank, that one first (RFC 3261 section 16.7
/// steps 5, 6 and 10). That list is right: a check of what was appended from its line `fork` on says yes. Where a branch has
/// not ended, or one has with a 2xx, none of the replies printed is final.
///
/// # Errors
///
/// In this order: `TooLong` over `MOST_TEXT` bytes, `Line` with the first malformed line, `New` where the targets
/// are no fork, `NoMemory` where a growth was refused.
pub fn replay_text<A: Allocator + Clone>(
    alloc: A,
    text: &[u8],
    out: &mut Vec<u8, A>,
) -> Result<u8, ProgFault>
    ensures status { IfOk result (λ status. status ≡ 0) }
    ensures replayed { OnOk result (AppendsReplay text.now out.old.items out.new.items) }
    ensures one_final { OnOk result (AppendsOneFinal text.now out.old.items out.new.items) }
    ensures no_final { OnOk result (AppendsNoFinal text.now out.old.items out.new.items) }
    ensures right_listing { OnOk result (AppendsRightListing text.now out.old.items out.new.items) }
    ensures fault { IfErr result (IsFault text.now) }
    ensures too_long { IsErrOf result ProgFault.TooLong ↔ (most_text < length text.now) }
    ensures err { OnErr result (out.new.items ≡ out.old.items) }
{
    replays_are_answered_yes();
    if text.len() > MOST_TEXT {
        return Err(ProgFault::TooLong);
    }
    let script = Script::read(&alloc, text)?;
    let printed = replay(alloc, script)?;
    out.extend_from_slice(&printed)?;
    Ok(0)
}
