//! Reading a configuration, a line after the other.
ghost use Rattle.std.specs.Prelude.{◌≡◌, ◌≤◌, IfOk, Some, None, true, option_and_then, if◌then◌else◌};
ghost use Rattle.sip_lex.specs.Cut.{Lacks, cut, is};
ghost use Rattle.fork_rank.specs.Field.{most_q};
ghost use Rattle.proxy_config.specs.Line.{is_user};
ghost use Rattle.proxy_config.specs.LineReading as setup_reading;
ghost use Rattle.proxy_config.specs.Setup.{IsKeptWith};
ghost use Rattle.service_config.specs.Configuration.{no_draft, with_draft};
ghost use Rattle.service_config.specs.Line.{HasParts};
ghost use Rattle.service_config.specs.ReadView.{GivesSettings};
ghost use Rattle.service_config.specs.inner.LineReading.{location_cut, of_setup};
ghost use Rattle.service_config.specs.inner.LineView.{line_of};
ghost use Rattle.service_config.specs.inner.Reading.{IsSound, finished, read_settings, with_text};

use crate::hosts::Hosts;
use crate::kind::{LineKind, is_whole, may_follow};
use crate::line::{LineReading, SettingsLine, cut_location, location_in, read_line, setup_kind};
use crate::parts::SettingsParts;
use crate::settings::ServiceSettings;
use proxy_config::{SetupFault, read_setup_line};
use sip_lex::cut_at;
use std::alloc::{AllocError, Allocator};
use std::marker::Model;

/// The lines read so far: the kind of the last that says something, and what they set.
#[derive(Drop)]
struct SettingsDraft<A: Allocator> {
    last: Option<LineKind>,
    parts: SettingsParts<A>,
}

impl<A: Allocator> Model for SettingsDraft<A> {
    ghost use Rattle.service_config.specs.Configuration as spec;

    ghost Value = { spec.Draft };

    ghost view = { λ d. record { last = d.last; settings = d.parts } };
}

impl<A: Allocator + Clone> SettingsDraft<A> {
    fn new(alloc: &A, number: u32, streams: bool) -> Result<Self, AllocError>
        ensures { IfOk result (λ draft. draft ≡ no_draft number streams) }
    {
        Ok(SettingsDraft {
            last: None,
            parts: SettingsParts::new(alloc, number, streams)?,
        })
    }

    /// Adds a line of a service, and answers whether it may come here.
    fn add_line(&mut self, alloc: &A, line: SettingsLine<'_>) -> Result<bool, AllocError>
        requires { HasParts (line_of line) }
        ensures { IfOk result (λ done. (if done then Some self.new else None) ≡ with_draft self.old (line_of line.entry)) }
    {
        let Some(kind) = line.kind() else {
            return Ok(true);
        };
        if !may_follow(self.last, kind) {
            return Ok(false);
        }
        if !self.parts.add(alloc, line)? {
            return Ok(false);
        }
        self.last = Some(kind);
        Ok(true)
    }

    /// Adds the location of a user, a q and what stands behind them, and answers whether they make one that may come here.
    #[tactic(auto, using(crate::proofs::LineLaws::cut_has_parts))]
    fn add_location(
        &mut self,
        alloc: &A,
        user: &[u8],
        q: u16,
        rest: &[u8],
    ) -> Result<bool, AllocError>
        requires { (is_user user.now ≡ true) × (q ≤ most_q) }
        ensures { IfOk result (λ done. (if done then Some self.new else None) ≡ option_and_then (with_draft self.old) (location_cut user.now q (cut (is 32) rest.now))) }
    {
        match cut_location(user, q, rest) {
            None => Ok(false),
            Some(line) => self.add_line(alloc, line),
        }
    }

    /// Adds the line of a setup that a text spells, and answers whether it spells one that may come here.
    fn add_of_setup(&mut self, alloc: &A, text: &[u8]) -> Result<bool, AllocError>
        ensures { IfOk result (λ done. (if done then Some self.new else None) ≡ option_and_then (with_draft self.old) (option_and_then of_setup (setup_reading.read_line text.now))) }
    {
        let Some(line) = read_setup_line(text) else {
            return Ok(false);
        };
        if let Some((user, q, rest)) = location_in(&line) {
            return self.add_location(alloc, user, q, rest);
        }
        let kind = setup_kind(&line);
        if !may_follow(self.last, kind) {
            return Ok(false);
        }
        if !self.parts.setup.add(alloc, line)? {
            return Ok(false);
        }
        self.last = Some(kind);
        Ok(true)
    }

    /// Adds a line, and answers whether it is one and may come here.
    #[tactic(auto, using(crate::proofs::LineLaws::read_has_parts))]
    fn add(&mut self, alloc: &A, text: &[u8]) -> Result<bool, AllocError>
        requires { Lacks 10 text.now }
        ensures { IfOk result (λ done. (if done then Some self.new else None) ≡ with_text self.old text.now) }
    {
        match read_line(text) {
            None => Ok(false),
            Some(LineReading::OfSetup) => self.add_of_setup(alloc, text),
            Some(LineReading::Own(line)) => self.add_line(alloc, line),
        }
    }

    /// The settings, with the index of their hosts.
    fn into_settings(self, alloc: &A) -> Result<ServiceSettings<A>, AllocError>
        requires { IsKeptWith self.settings.setup.streams self.settings.setup.own self.settings.setup.domain self.settings.setup.locations }
        ensures { IfOk result (λ settings. settings ≡ self.settings) }
    {
        let parts = self.parts;
        let setup = parts.setup.into_setup();
        let hosts = Hosts::of(alloc, setup.locations(), &parts.gateways)?;
        Ok(ServiceSettings {
            setup,
            realm: parts.realm,
            expirations: parts.expirations,
            strangers: parts.strangers,
            nets: parts.nets,
            gateways: parts.gateways,
            hosts,
        })
    }

    /// The settings, where nothing stands behind the last LF and no line is missing.
    fn finished(
        self,
        alloc: &A,
        number: usize,
        rest: &[u8],
    ) -> Result<ServiceSettings<A>, SetupFault>
        requires { IsSound self }
        ensures { GivesSettings (finished number self rest.now) result }
    {
        if !rest.is_empty() || !is_whole(self.last) {
            return Err(SetupFault::Line(number));
        }
        Ok(self.into_settings(alloc)?)
    }
}

/// The settings that a text spells in a run with this number, of a proxy that has connections or none, or the number of its first
/// malformed line.
pub(crate) fn read_all<A: Allocator + Clone>(
    alloc: &A,
    text: &[u8],
    instance: u32,
    streams: bool,
) -> Result<ServiceSettings<A>, SetupFault>
    ensures { GivesSettings (read_settings instance streams text.now) result }
{
    let mut draft = SettingsDraft::new(alloc, instance, streams)?;
    let mut number = 1;
    let mut rest = text;
    loop {
        let (line, more) = cut_at(rest, b'\n');
        let Some(after) = more else {
            return draft.finished(alloc, number, line);
        };
        if !draft.add(alloc, line)? {
            return Err(SetupFault::Line(number));
        }
        number += 1;
        rest = after;
    }
}
