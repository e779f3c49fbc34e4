//! A whole script: what is forked, by which rules and to which targets, and what happens then.
ghost use Rattle.std.specs.Prelude.{◌≡◌, ◌≤◌, ◌<◌, ◌^◌, ◌++◌, ◌∷◌, [], length, false, Ok, OnOk, OnErr, IfOk, IfErr, Some, None, if◌then◌else◌};
ghost use Rattle.fork_rank.specs.KindView.{kind_of};
ghost use Rattle.context_values.specs.EventView.{event_of};
ghost use Rattle.fork_program.specs.Script.{phase_after, with_contact, with_challenge, answer_changed, last_changed, with_line, no_script, no_draft, drafted, has_kind, finished_draft, read_script};
ghost use Rattle.fork_rank.specs.Field.{most_q};
ghost use Rattle.fork_program.specs.Line.{bare, IsLine};
ghost use Rattle.fork_program.specs.inner.LineView.{line_of};
ghost use Rattle.fork_program.specs.ReadView.{GivesScript, IsFaultOf};
ghost use Rattle.fork_program.specs.Script as spec;
ghost use Rattle.fork_program.specs.Spelling.{Spells};

use crate::line::{ScriptLine, read_script_line};
use fork_context::{Answer, Event, Kind, Offer, Target};
use fork_rank::{Challenge, Rules, Status, with_depth, with_preferred};
use sip_lex::cut_at;
use std::alloc::{AllocError, Allocator};
use std::collections::VecDeque;
use std::marker::Model;

/// Which lines may come: the kind first, then the rules, then the targets, then events, with the contacts and the
/// challenges of an answer right behind it.
#[derive(Clone, Copy, Debug, PartialEq, Eq)]
pub enum ScriptPhase {
    /// Nothing was read.
    AtKind,
    /// The kind was read.
    AtPrefer,
    /// The preferred statuses were read.
    AtDepth,
    /// The depth or a target was read.
    AtTargets,
    /// An event was read that has no contacts and no challenges.
    AtEvents,
    /// An answer was read, and contacts and challenges of it.
    AtAnswer,
}

impl ScriptPhase {
    /// The phase behind a line; `None` where the line may not come.
    fn after(self, line: &ScriptLine<'_>) -> Option<ScriptPhase>
        ensures { result ≡ phase_after self (line_of line.now) }
    {
        match (self, line) {
            (ScriptPhase::AtKind, ScriptLine::Kind(_)) => Some(ScriptPhase::AtPrefer),
            (ScriptPhase::AtKind, _) => None,
            (ScriptPhase::AtPrefer, ScriptLine::Prefer(_)) => Some(ScriptPhase::AtDepth),
            (ScriptPhase::AtPrefer | ScriptPhase::AtDepth, ScriptLine::Depth(_)) => Some(
                ScriptPhase::AtTargets,
            ),
            (
                ScriptPhase::AtPrefer | ScriptPhase::AtDepth | ScriptPhase::AtTargets,
                ScriptLine::Target(_, _),
            ) => Some(ScriptPhase::AtTargets),
            (
                ScriptPhase::AtAnswer,
                ScriptLine::Contact(_, _) | ScriptLine::Other(_, _) | ScriptLine::Challenge { .. },
            ) => Some(ScriptPhase::AtAnswer),
            (_, ScriptLine::Answer(_, _)) => Some(ScriptPhase::AtAnswer),
            (
                _,
                ScriptLine::Ring(_, _)
                | ScriptLine::Timeout(_)
                | ScriptLine::Fault(_)
                | ScriptLine::TimerC(_)
                | ScriptLine::GiveUp(_)
                | ScriptLine::Cancel,
            ) => { Some(ScriptPhase::AtEvents) }
            _ => None,
        }
    }

    /// Whether the kind was read.
    pub fn has_kind(self) -> bool
        ensures { result ≡ has_kind self }
    {
        !matches!(self, ScriptPhase::AtKind)
    }
}

/// Why a text is no script.
#[derive(Clone, Copy, Debug, PartialEq, Eq)]
pub enum ScriptFault {
    /// The first malformed line, from 1.
    Line(u32),
    /// A growth was refused.
    NoMemory,
}

impl From<AllocError> for ScriptFault {
    ghost use Rattle.fork_program.specs.declared.script.ScriptFault.TheVariants as read;

    ghost from_gives = { λ _ fault. fault ≡ read.NoMemory };

    fn from(_refused: AllocError) -> ScriptFault {
        ScriptFault::NoMemory
    }
}

/// A script: the fork's kind, rules and targets, and the events in their order.
#[derive(Drop)]
pub struct Script<A: Allocator> {
    pub kind: Kind,
    pub rules: Rules,
    pub targets: Vec<Target<A>, A>,
    pub events: VecDeque<Event<A>, A>,
}

impl<A: Allocator> Model for Script<A> {
    ghost use Rattle.std.specs.Prelude.{map};
    ghost use Rattle.fork_rank.specs.KindView.{kind_of};
    ghost use Rattle.context_values.specs.EventView.{event_of};
    ghost use Rattle.fork_program.specs.Script as spec;

    ghost Value = { spec.Script };

    ghost view = { λ s. record {
      kind = kind_of s.kind;
      rules = s.rules;
      targets = s.targets.items;
      events = map event_of s.events.items;
    } };
}

/// Adds a contact to an event, where it is an answer.
fn offer_to<A: Allocator>(event: &mut Event<A>, offer: Offer<A>) -> Result<(), AllocError>
    ensures ok { OnOk result (event_of event.new ≡ answer_changed (with_contact offer) (event_of event.old)) }
    ensures err { OnErr result (event_of event.new ≡ event_of event.old) }
{
    if let Event::Answer(_, answer) = event {
        answer.push_offer(offer)?;
    }
    Ok(())
}

/// Adds a challenge to an event, where it is an answer.
fn challenge_to<A: Allocator>(
    event: &mut Event<A>,
    challenge: Challenge<A>,
) -> Result<(), AllocError>
    ensures ok { OnOk result (event_of event.new ≡ answer_changed (with_challenge challenge) (event_of event.old)) }
    ensures err { OnErr result (event_of event.new ≡ event_of event.old) }
{
    if let Event::Answer(_, answer) = event {
        answer.push_challenge(challenge)?;
    }
    Ok(())
}

impl<A: Allocator + Clone> Script<A> {
    /// A script of no line.
    fn new(alloc: &A) -> Result<Self, AllocError>
        ensures { IfOk result (λ script. script ≡ no_script) }
    {
        Ok(Script {
            kind: Kind::Invite,
            rules: Rules::usual(),
            targets: Vec::new(alloc.clone()?),
            events: VecDeque::new(alloc.clone()?),
        })
    }

    fn set_kind(&mut self, kind: Kind)
        ensures { self.new ≡ record self.old { kind = kind_of kind } }
    {
        self.kind = kind;
    }

    fn set_rules(&mut self, rules: Rules)
        ensures { self.new ≡ record self.old { rules = rules } }
    {
        self.rules = rules;
    }

    fn add_target(&mut self, target: Target<A>) -> Result<(), AllocError>
        ensures ok { OnOk result (self.new ≡ record self.old { targets = self.old.targets ++ target ∷ [] }) }
        ensures err { OnErr result (self.new ≡ self.old) }
    {
        self.targets.push(target)?;
        Ok(())
    }

    fn add_event(&mut self, event: Event<A>) -> Result<(), AllocError>
        ensures ok { OnOk result (self.new ≡ record self.old { events = self.old.events ++ event_of event ∷ [] }) }
        ensures err { OnErr result (self.new ≡ self.old) }
    {
        self.events.push_back(event)?;
        Ok(())
    }

    /// Adds a contact to the last event.
    fn add_contact(&mut self, offer: Offer<A>) -> Result<(), AllocError>
        ensures ok { OnOk result (self.new ≡ record self.old { events = last_changed (with_contact offer) self.old.events }) }
        ensures err { OnErr result (self.new ≡ self.old) }
    {
        // No room is asked for: the event that is taken off leaves its own.
        self.events.reserve(0)?;
        let Some(mut event) = self.events.pop_back() else {
            return Ok(());
        };
        let added = offer_to(&mut event, offer);
        self.events.push_back_reserved(event);
        added
    }

    /// Adds a challenge to the last event.
    fn add_challenge(&mut self, challenge: Challenge<A>) -> Result<(), AllocError>
        ensures ok { OnOk result (self.new ≡ record self.old { events = last_changed (with_challenge challenge) self.old.events }) }
        ensures err { OnErr result (self.new ≡ self.old) }
    {
        // No room is asked for: the event that is taken off leaves its own.
        self.events.reserve(0)?;
        let Some(mut event) = self.events.pop_back() else {
            return Ok(());
        };
        let added = challenge_to(&mut event, challenge);
        self.events.push_back_reserved(event);
        added
    }

    /// Adds what a line says.
    fn add(&mut self, alloc: &A, line: ScriptLine<'_>) -> Result<(), AllocError>
        requires { IsLine (line_of line) }
        ensures ok { OnOk result (self.new ≡ with_line self.old (line_of line.entry)) }
        ensures err { OnErr result (self.new ≡ self.old) }
    {
        match line {
            ScriptLine::Kind(kind) => self.set_kind(kind),
            ScriptLine::Prefer(preferred) => self.set_rules(with_preferred(self.rules, preferred)),
            ScriptLine::Depth(depth) => self.set_rules(with_depth(self.rules, depth)),
            ScriptLine::Target(q, name) => self.add_target(Target::new(
                name.to_vec(alloc.clone()?)?,
                q,
            ))?,
            ScriptLine::Ring(n, status) => self.add_event(Event::Ring(n, status))?,
            ScriptLine::Answer(n, status) => self.add_event(Event::Answer(
                n,
                bare_answer(alloc, status)?,
            ))?,
            ScriptLine::Timeout(n) => self.add_event(Event::Timeout(n))?,
            ScriptLine::Fault(n) => self.add_event(Event::Fault(n))?,
            ScriptLine::TimerC(n) => self.add_event(Event::TimerC(n))?,
            ScriptLine::GiveUp(n) => self.add_event(Event::GiveUp(n))?,
            ScriptLine::Cancel => self.add_event(Event::Cancel)?,
            ScriptLine::Contact(q, name) => self.add_contact(contact(alloc, q, name)?)?,
            ScriptLine::Other(q, text) => self.add_contact(other(alloc, q, text)?)?,
            ScriptLine::Challenge { proxy, value } => {
                let value = value.to_vec(alloc.clone()?)?;
                self.add_challenge(Challenge::new(proxy, value))?;
            }
        }
        Ok(())
    }
}

/// The answer of this status, before its contacts and its challenges are known.
fn bare_answer<A: Allocator + Clone>(alloc: &A, status: Status) -> Result<Answer<A>, AllocError>
    ensures { IfOk result (λ answer. answer ≡ bare status) }
{
    Ok(Answer::new(status, Vec::new(alloc.clone()?), Vec::new(alloc.clone()?)))
}

/// A contact that the proxy may try.
fn contact<A: Allocator + Clone>(alloc: &A, q: u16, name: &[u8]) -> Result<Offer<A>, AllocError>
    requires { q ≤ most_q }
    ensures { IfOk result (λ offer. offer ≡ record { text = name.now; q = q; key = Some name.now }) }
{
    let key = name.to_vec(alloc.clone()?)?;
    Ok(Offer::new(name.to_vec(alloc.clone()?)?, q, Some(key)))
}

/// A contact that the proxy may not try.
fn other<A: Allocator + Clone>(alloc: &A, q: u16, text: &[u8]) -> Result<Offer<A>, AllocError>
    requires { q ≤ most_q }
    ensures { IfOk result (λ offer. offer ≡ record { text = text.now; q = q; key = None }) }
{
    Ok(Offer::new(text.to_vec(alloc.clone()?)?, q, None))
}

/// The lines read so far: which may come next, and what those before it say.
#[derive(Drop)]
pub struct ScriptDraft<A: Allocator> {
    pub phase: ScriptPhase,
    pub script: Script<A>,
}

impl<A: Allocator> Model for ScriptDraft<A> {
    ghost use Rattle.fork_program.specs.Script as spec;

    ghost Value = { spec.Draft };

    ghost view = { λ d. record { phase = d.phase; script = d.script } };
}

impl<A: Allocator + Clone> ScriptDraft<A> {
    /// No line was read.
    ///
    /// # Errors
    ///
    /// Want of memory.
    pub fn new(alloc: &A) -> Result<Self, AllocError>
        ensures { IfOk result (λ draft. draft ≡ no_draft) }
    {
        Ok(ScriptDraft {
            phase: ScriptPhase::AtKind,
            script: Script::new(alloc)?,
        })
    }

    /// Adds a line, and answers whether it is one and may come here; where it is none, or may not, the draft is as it was.
    ///
    /// # Errors
    ///
    /// Want of memory; then the draft is as it was.
    pub fn add(&mut self, alloc: &A, text: &[u8]) -> Result<bool, AllocError>
        ensures added { IfOk result (λ added. (if added then Some self.new else None) ≡ drafted self.old text.now) }
        ensures left { IfOk result (λ added. added ≡ false → self.new ≡ self.old) }
        ensures err { OnErr result (self.new ≡ self.old) }
    {
        let Some(line) = read_script_line(text) else {
            return Ok(false);
        };
        let Some(phase) = self.phase.after(&line) else {
            return Ok(false);
        };
        self.script.add(alloc, line)?;
        self.phase = phase;
        Ok(true)
    }

    /// The whole script, where nothing stands behind its last LF and it has a kind.
    fn finished(self, number: u32, rest: &[u8]) -> Result<Script<A>, ScriptFault>
        ensures { GivesScript (finished_draft number self rest.now) result }
    {
        if rest.is_empty() && self.phase.has_kind() {
            Ok(self.script)
        } else {
            Err(ScriptFault::Line(number))
        }
    }
}

impl<A: Allocator + Clone> Script<A> {
    /// The script that the lines of a text say, one after the other.
    #[tactic(auto, unfolding(crate::specs::Script::read_script))]
    fn read_lines(alloc: &A, text: &[u8]) -> Result<Self, ScriptFault>
        requires { length text.now < 2 ^ 31 }
        ensures { GivesScript (read_script text.now) result }
    {
        let mut draft = ScriptDraft::new(alloc)?;
        let mut number = 1;
        let mut rest = text;
        loop {
            let (line, more) = cut_at(rest, b'\n');
            let Some(after) = more else {
                return draft.finished(number, line);
            };
            if !draft.add(alloc, line)? {
                return Err(ScriptFault::Line(number));
            }
            number += 1;
            rest = after;
        }
    }

    /// The script that a text spells: each line ends in LF, and nothing stands behind the last.
    ///
    /// # Errors
    ///
    /// The first malformed line, counted from 1, a missing one by the number that it would have; or want of memory.
    pub fn read(alloc: &A, text: &[u8]) -> Result<Self, ScriptFault>
        requires { length text.now < 2 ^ 31 }
        ensures found { IfOk result (Spells text.now) }
        ensures only { (script : spec.Script) → Spells text.now script → GivesScript (Ok script) result }
        ensures fault { IfErr result (IsFaultOf text.now) }
    {
        Script::read_lines(alloc, text)
    }
}
