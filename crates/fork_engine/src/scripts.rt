//! A script with workers: what is forked, by which rules and to which targets, and what each worker has happen then.
ghost use Rattle.std.specs.Prelude.{◌≡◌, ◌<◌, ◌^◌, ◌+◌, ◌∷◌, ◌++◌, [], Ok, IfOk, IfErr, map, length};
ghost use Rattle.context_values.specs.EventView.{event_of};
ghost use Rattle.fork_engine.specs.Workers as spec;
ghost use Rattle.fork_engine.specs.Spelling.{Spells};
ghost use Rattle.fork_engine.specs.inner.Reading.{is_at_work, with_worker, drafted, no_draft, finished_draft, read_workers};
ghost use Rattle.fork_engine.specs.inner.Workers.{event_count};
ghost use Rattle.fork_engine.specs.inner.ReadView.{GivesWorkers, IsFaultOf};

use fork_context::{Event, Kind, Target};
use fork_program::{Script, ScriptDraft, ScriptFault, ScriptPhase};
use fork_rank::Rules;
use sip_lex::cut_at;
use std::alloc::{AllocError, Allocator};
use std::collections::VecDeque;
use std::marker::Model;

/// No more workers than these post to one fork.
const MOST_WORKERS: usize = 8;

/// A script with workers: the fork's kind, rules and targets, and each worker's events in their order.
#[derive(Drop)]
pub(crate) struct Workers<A: Allocator> {
    pub(crate) kind: Kind,
    pub(crate) rules: Rules,
    pub(crate) targets: Vec<Target<A>, A>,
    pub(crate) scripts: Vec<Vec<Event<A>, A>, A>,
}

impl<A: Allocator> Model for Workers<A> {
    ghost use Rattle.std.specs.Prelude.{map};
    ghost use Rattle.fork_rank.specs.KindView.{kind_of};
    ghost use Rattle.context_values.specs.EventView.{event_of};
    ghost use Rattle.fork_engine.specs.Workers as spec;
    ghost use Rattle.fork_engine.specs.inner.Workers.{AreFew};

    ghost Value = { spec.Workers };

    ghost view = { λ w. record {
      kind = kind_of w.kind;
      rules = w.rules;
      targets = w.targets.items;
      scripts = map (λ s. map event_of s.items) w.scripts.items;
    } };

    ghost invariant = { λ w. AreFew (map (λ s. map event_of s.items) w.scripts.items) };
}

/// Whether a worker has begun.
fn is_at_work(phase: ScriptPhase) -> bool
    ensures { result ≡ is_at_work phase }
{
    matches!(phase, ScriptPhase::AtEvents | ScriptPhase::AtAnswer)
}

/// The events, in their order.
fn listed<A: Allocator>(
    alloc: A,
    mut events: VecDeque<Event<A>, A>,
) -> Result<Vec<Event<A>, A>, AllocError>
    ensures { IfOk result (λ list. list.items ≡ events.items) }
{
    let mut list = Vec::new(alloc);
    while let Some(event) = events.pop_front() {
        list.push(event)?;
    }
    Ok(list)
}

/// The workers' events, with those of one worker more behind them.
fn with_events<A: Allocator>(
    alloc: A,
    mut before: Vec<Vec<Event<A>, A>, A>,
    events: VecDeque<Event<A>, A>,
) -> Result<Vec<Vec<Event<A>, A>, A>, AllocError>
    ensures events { IfOk result (λ all. map (λ s. map event_of s.items) all.items ≡ map (λ s. map event_of s.items) before.items ++ map event_of events.items ∷ []) }
    ensures count { IfOk result (λ all. length all.items ≡ length before.items + 1) }
{
    before.push(listed(alloc, events)?)?;
    Ok(before)
}

/// The lines read so far: what is forked with the last worker's events, and the events of the workers before it.
#[derive(Drop)]
struct WorkersDraft<A: Allocator> {
    last: ScriptDraft<A>,
    before: Vec<Vec<Event<A>, A>, A>,
}

impl<A: Allocator> Model for WorkersDraft<A> {
    ghost use Rattle.std.specs.Prelude.{◌<◌, map, length};
    ghost use Rattle.context_values.specs.EventView.{event_of};
    ghost use Rattle.fork_engine.specs.Workers.{most_workers};
    ghost use Rattle.fork_engine.specs.inner.Reading as spec;

    ghost Value = { spec.Draft };

    ghost view = { λ d. record { last = d.last; before = map (λ s. map event_of s.items) d.before.items } };

    ghost invariant = { λ d. length d.before.items < most_workers };
}

impl<A: Allocator + Clone> WorkersDraft<A> {
    /// No line was read.
    fn new(alloc: &A) -> Result<Self, AllocError>
        ensures { IfOk result (λ draft. draft ≡ no_draft) }
    {
        Ok(WorkersDraft {
            last: ScriptDraft::new(alloc)?,
            before: Vec::new(alloc.clone()?),
        })
    }

    /// Begins the next worker; `None` where none may begin.
    fn with_worker(self, alloc: &A) -> Result<Option<Self>, AllocError>
        ensures { IfOk result (λ next. next ≡ with_worker self) }
    {
        let WorkersDraft { last, before } = self;
        let ScriptDraft { phase, script } = last;
        if !phase.has_kind() {
            return Ok(None);
        }
        if !is_at_work(phase) {
            let last = ScriptDraft {
                phase: ScriptPhase::AtEvents,
                script,
            };
            return Ok(Some(WorkersDraft { last, before }));
        }
        if before.len() + 1 >= MOST_WORKERS {
            return Ok(None);
        }
        let Script {
            kind,
            rules,
            targets,
            events,
        } = script;
        let before = with_events(alloc.clone()?, before, events)?;
        let last = ScriptDraft {
            phase: ScriptPhase::AtEvents,
            script: Script {
                kind,
                rules,
                targets,
                events: VecDeque::new(alloc.clone()?),
            },
        };
        Ok(Some(WorkersDraft { last, before }))
    }

    /// With one more line; `None` where it is none, or may not come.
    fn with_line(self, alloc: &A, line: &[u8]) -> Result<Option<Self>, AllocError>
        ensures { IfOk result (λ next. next ≡ drafted self line.now) }
    {
        if line == b"worker".as_slice() {
            return self.with_worker(alloc);
        }
        let WorkersDraft { mut last, before } = self;
        let was_at_work = is_at_work(last.phase);
        if !last.add(alloc, line)? {
            return Ok(None);
        }
        if is_at_work(last.phase) && !was_at_work {
            return Ok(None);
        }
        Ok(Some(WorkersDraft { last, before }))
    }

    /// The whole script, where nothing stands behind its last LF and a worker has begun.
    fn finished(self, alloc: &A, number: u32, rest: &[u8]) -> Result<Workers<A>, ScriptFault>
        requires { event_count self < number }
        ensures { GivesWorkers (finished_draft number self rest.now) result }
    {
        let WorkersDraft { last, before } = self;
        let ScriptDraft { phase, script } = last;
        if !rest.is_empty() || !is_at_work(phase) {
            return Err(ScriptFault::Line(number));
        }
        let Script {
            kind,
            rules,
            targets,
            events,
        } = script;
        let scripts = with_events(alloc.clone()?, before, events)?;
        Ok(Workers {
            kind,
            rules,
            targets,
            scripts,
        })
    }
}

impl<A: Allocator + Clone> Workers<A> {
    /// The script with workers that the lines of a text say, one after the other.
    #[tactic(auto, unfolding(crate::specs::inner::Reading::read_workers))]
    fn read_lines(alloc: &A, text: &[u8]) -> Result<Self, ScriptFault>
        requires { length text.now < 2 ^ 31 }
        ensures { GivesWorkers (read_workers text.now) result }
    {
        let mut draft = WorkersDraft::new(alloc)?;
        let mut number = 1;
        let mut rest = text;
        loop {
            let (line, more) = cut_at(rest, b'\n');
            let Some(after) = more else {
                return draft.finished(alloc, number, line);
            };
            let Some(next) = draft.with_line(alloc, line)? else {
                return Err(ScriptFault::Line(number));
            };
            draft = next;
            number += 1;
            rest = after;
        }
    }

    /// The script with workers that a text spells: each line ends in LF, and nothing stands behind the last.
    ///
    /// # Errors
    ///
    /// The first malformed line, counted from 1, a missing one by the number that it would have; or want of memory.
    pub(crate) fn read(alloc: &A, text: &[u8]) -> Result<Self, ScriptFault>
        requires { length text.now < 2 ^ 31 }
        ensures found { IfOk result (Spells text.now) }
        ensures only { (workers : spec.Workers) → Spells text.now workers → GivesWorkers (Ok workers) result }
        ensures fault { IfErr result (IsFaultOf text.now) }
    {
        Workers::read_lines(alloc, text)
    }
}
