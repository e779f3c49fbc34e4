//! Reading a configuration, a line after the other.
ghost use Rattle.std.specs.Prelude.{◌≡◌, IfOk, Some, None, if◌then◌else◌};
ghost use Rattle.proxy_config.specs.LineView.{line_of};
ghost use Rattle.proxy_config.specs.inner.Reading.{IsSound, drafted, finished_draft, is_whole, no_draft, phase_after, read_setup};
ghost use Rattle.proxy_config.specs.ReadView.{GivesSetup};

use crate::fault::SetupFault;
use crate::line::{SetupLine, read_setup_line};
use crate::parts::SetupParts;
use crate::setup::Setup;
use sip_lex::cut_at;
use std::alloc::{AllocError, Allocator};
use std::marker::Model;

/// Which lines may come: address, instance and domain first, then the rules, then the locations.
#[derive(Clone, Copy, Debug, PartialEq, Eq)]
pub enum SetupPhase {
    /// Nothing was read.
    AtOwn,
    /// The own address was read.
    AtInstance,
    /// The instance was read.
    AtDomain,
    /// The domain was read.
    AtPrefer,
    /// The preferred statuses were read.
    AtDepth,
    /// The depth or a location was read.
    AtLocations,
}

impl SetupPhase {
    /// The phase behind a line; `None` where the line may not come.
    fn after(self, line: &SetupLine<'_>) -> Option<SetupPhase>
        ensures { result ≡ phase_after self (line_of line.now) }
    {
        match (self, line) {
            (SetupPhase::AtOwn, SetupLine::Own(_)) => Some(SetupPhase::AtInstance),
            (SetupPhase::AtInstance, SetupLine::Instance(_)) => Some(SetupPhase::AtDomain),
            (SetupPhase::AtDomain, SetupLine::Domain(_)) => Some(SetupPhase::AtPrefer),
            (SetupPhase::AtPrefer, SetupLine::Prefer(_)) => Some(SetupPhase::AtDepth),
            (SetupPhase::AtPrefer | SetupPhase::AtDepth, SetupLine::Depth(_)) => Some(
                SetupPhase::AtLocations,
            ),
            (
                SetupPhase::AtPrefer | SetupPhase::AtDepth | SetupPhase::AtLocations,
                SetupLine::Location(_, _, _),
            ) => { Some(SetupPhase::AtLocations) }
            _ => None,
        }
    }

    /// Whether all lines were read that have to be there.
    fn is_whole(self) -> bool
        ensures { result ≡ is_whole self }
    {
        !matches!(
            self,
            SetupPhase::AtOwn | SetupPhase::AtInstance | SetupPhase::AtDomain
        )
    }
}

/// The lines read so far.
#[derive(Drop)]
struct SetupDraft<A: Allocator> {
    phase: SetupPhase,
    parts: SetupParts<A>,
}

impl<A: Allocator> Model for SetupDraft<A> {
    ghost use Rattle.proxy_config.specs.inner.Reading as spec;

    ghost Value = { spec.Draft };

    ghost view = { λ d. record { phase = d.phase; setup = d.parts } };
}

impl<A: Allocator + Clone> SetupDraft<A> {
    fn new(alloc: &A) -> Result<Self, AllocError>
        ensures { IfOk result (λ draft. draft ≡ no_draft) }
    {
        Ok(SetupDraft {
            phase: SetupPhase::AtOwn,
            parts: SetupParts::new(alloc)?,
        })
    }

    /// Adds a line, and answers whether it is one and may come here.
    #[tactic(auto, using(crate::proofs::LineLaws::read_is_line))]
    fn add(&mut self, alloc: &A, text: &[u8]) -> Result<bool, AllocError>
        ensures { IfOk result (λ done. (if done then Some self.new else None) ≡ drafted self.old text.now) }
    {
        let Some(line) = read_setup_line(text) else {
            return Ok(false);
        };
        let Some(phase) = self.phase.after(&line) else {
            return Ok(false);
        };
        if !self.parts.add(alloc, line)? {
            return Ok(false);
        }
        self.phase = phase;
        Ok(true)
    }

    /// The whole setup, where nothing stands behind its last LF and no line is missing.
    fn finished(self, number: usize, rest: &[u8]) -> Result<Setup<A>, SetupFault>
        requires { IsSound self }
        ensures { GivesSetup (finished_draft number self rest.now) result }
    {
        if !rest.is_empty() || !self.phase.is_whole() {
            return Err(SetupFault::Line(number));
        }
        Ok(self.parts.into_setup())
    }
}

/// The setup that a text spells, or the number of its first malformed line.
#[tactic(auto, unfolding(crate::specs::inner::Reading::read_setup))]
pub(crate) fn read_all<A: Allocator + Clone>(alloc: &A, text: &[u8]) -> Result<Setup<A>, SetupFault>
    ensures { GivesSetup (read_setup text.now) result }
{
    let mut draft = SetupDraft::new(alloc)?;
    let mut number = 1;
    let mut rest = text;
    loop {
        let (line, more) = cut_at(rest, b'\n');
        let Some(after) = more else {
            return draft.finished(number, line);
        };
        if !draft.add(alloc, line)? {
            return Err(SetupFault::Line(number));
        }
        number += 1;
        rest = after;
    }
}
