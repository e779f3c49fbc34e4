//! A whole listing, read line by line.
ghost use Rattle.std.specs.Prelude.{◌≡◌, OnOk, IfOk, Some, None, if◌then◌else◌};
ghost use Rattle.fork_listing.specs.inner.LineView.{line_of};
ghost use Rattle.fork_listing.specs.Text.{targets_due, phase_after, with_line, no_draft, drafted, finished_draft, read_listing};
ghost use Rattle.fork_listing.specs.inner.ReadView.{GivesListing};

use crate::line::{Final, ListedTarget, ListingLine, Ranked, Version, read_listing_line};
use fork_rank::{Rules, with_depth, with_preferred};
use sip_lex::cut_at;
use std::alloc::{AllocError, Allocator};
use std::marker::Model;

/// Which line is due.
#[derive(Clone, Copy, Debug, PartialEq, Eq)]
pub enum ListingPhase {
    /// The first line.
    AtFork,
    /// The line of the preferred statuses, of a listing of this version with so many targets.
    AtPrefer(Version, u16),
    /// The line of the depth, with so many lines of targets behind it.
    AtDepth(u16),
    /// So many lines of targets.
    AtTargets(u16),
    /// The line of a stored answer, or of the answer that went up.
    AtRanks,
    /// No line: this answer went up.
    AtEnd(Final),
}

/// The phase in which so many targets are due.
fn targets_due(count: u16) -> ListingPhase
    ensures { result ≡ targets_due count }
{
    if count == 0 {
        ListingPhase::AtRanks
    } else {
        ListingPhase::AtTargets(count)
    }
}

impl ListingPhase {
    /// The phase behind a line; `None` where the line is not due.
    fn after(self, line: &ListingLine) -> Option<ListingPhase>
        ensures { result ≡ phase_after self (line_of line.now) }
    {
        match (self, line) {
            (ListingPhase::AtFork, ListingLine::Fork(Version::First, count)) => Some(targets_due(
                *count,
            )),
            (ListingPhase::AtFork, ListingLine::Fork(version, count)) => Some(
                ListingPhase::AtPrefer(*version, *count),
            ),
            (ListingPhase::AtPrefer(Version::Second, count), ListingLine::Prefer(_)) => Some(
                targets_due(count),
            ),
            (ListingPhase::AtPrefer(_, count), ListingLine::Prefer(_)) => Some(
                ListingPhase::AtDepth(count),
            ),
            (ListingPhase::AtDepth(count), ListingLine::Depth(_)) => Some(targets_due(count)),
            (ListingPhase::AtTargets(count), ListingLine::Target(_)) => Some(targets_due(
                count.saturating_sub(1),
            )),
            (ListingPhase::AtRanks, ListingLine::Rank(_)) => Some(ListingPhase::AtRanks),
            (ListingPhase::AtRanks, ListingLine::Final(last)) => Some(ListingPhase::AtEnd(*last)),
            _ => None,
        }
    }
}

/// Why a text is no listing.
#[derive(Clone, Copy, Debug, PartialEq, Eq)]
pub enum ListingFault {
    /// The first line that is not of the form due in its place, or is missing, from 1.
    Line(usize),
    /// A growth was refused.
    NoMemory,
}

impl From<AllocError> for ListingFault {
    ghost use Rattle.fork_listing.specs.declared.draft.ListingFault.TheVariants as read;

    ghost from_gives = { λ _ fault. fault ≡ read.NoMemory };

    fn from(_refused: AllocError) -> ListingFault {
        ListingFault::NoMemory
    }
}

/// A listing: its version, how many targets its first line says that there are, the rules of the fork, its branches,
/// its stored answers in order of rank, and the answer that went up.
#[derive(Drop)]
pub struct Listing<A: Allocator> {
    pub(crate) version: Version,
    pub(crate) count: u16,
    pub(crate) rules: Rules,
    pub(crate) targets: Vec<ListedTarget, A>,
    pub(crate) ranks: Vec<Ranked, A>,
    pub(crate) last: Final,
}

impl<A: Allocator> Model for Listing<A> {
    ghost use Rattle.fork_listing.specs.Text as spec;

    ghost Value = { spec.Listing };

    ghost view = { λ l. record { version = l.version; count = l.count; rules = l.rules; targets = l.targets.items; ranks = l.ranks.items; last = l.last } };
}

/// The lines read so far.
#[derive(Drop)]
struct ListingDraft<A: Allocator> {
    phase: ListingPhase,
    version: Version,
    count: u16,
    rules: Rules,
    targets: Vec<ListedTarget, A>,
    ranks: Vec<Ranked, A>,
}

impl<A: Allocator> Model for ListingDraft<A> {
    ghost use Rattle.fork_listing.specs.Text as spec;

    ghost Value = { spec.Draft };

    ghost view = { λ d. record { phase = d.phase; version = d.version; count = d.count; rules = d.rules; targets = d.targets.items; ranks = d.ranks.items } };
}

impl<A: Allocator + Clone> ListingDraft<A> {
    fn new(alloc: &A) -> Result<Self, AllocError>
        ensures { IfOk result (λ draft. draft ≡ no_draft) }
    {
        Ok(ListingDraft {
            phase: ListingPhase::AtFork,
            version: Version::First,
            count: 0,
            rules: Rules::usual(),
            targets: Vec::new(alloc.clone()?),
            ranks: Vec::new(alloc.clone()?),
        })
    }

    /// Adds what a line says.
    fn add_line(&mut self, line: ListingLine) -> Result<(), AllocError>
        ensures { OnOk result (self.new ≡ with_line self.old (line_of line)) }
    {
        match line {
            ListingLine::Fork(version, count) => {
                self.version = version;
                self.count = count;
            }
            ListingLine::Prefer(preferred) => self.rules = with_preferred(self.rules, preferred),
            ListingLine::Depth(depth) => self.rules = with_depth(self.rules, depth),
            ListingLine::Target(target) => self.targets.push(target)?,
            ListingLine::Rank(ranked) => self.ranks.push(ranked)?,
            ListingLine::Final(_) => {}
        }
        Ok(())
    }

    /// Adds a line, and answers whether it is one and is due.
    fn add(&mut self, text: &[u8]) -> Result<bool, AllocError>
        ensures { IfOk result (λ added. (if added then Some self.new else None) ≡ drafted self.old text.now) }
    {
        let Some(line) = read_listing_line(text) else {
            return Ok(false);
        };
        let Some(phase) = self.phase.after(&line) else {
            return Ok(false);
        };
        self.add_line(line)?;
        self.phase = phase;
        Ok(true)
    }

    /// The whole listing, where nothing stands behind its last line.
    fn finished(self, number: usize, rest: &[u8]) -> Result<Listing<A>, ListingFault>
        ensures { GivesListing (finished_draft number self rest.now) result }
    {
        let ListingDraft {
            phase,
            version,
            count,
            rules,
            targets,
            ranks,
        } = self;
        match phase {
            ListingPhase::AtEnd(last) if rest.is_empty() => Ok(Listing {
                version,
                count,
                rules,
                targets,
                ranks,
                last,
            }),
            _ => Err(ListingFault::Line(number)),
        }
    }
}

impl<A: Allocator + Clone> Listing<A> {
    /// The listing that a text spells: each line ends in LF, and nothing stands behind the last.
    ///
    /// # Errors
    ///
    /// The first line, counted from 1, that is not of the form due in its place; a missing one by the number that it
    /// would have. Or want of memory.
    #[tactic(auto, unfolding(crate::specs::Text::read_listing))]
    pub fn read(alloc: &A, text: &[u8]) -> Result<Self, ListingFault>
        ensures { GivesListing (read_listing text.now) result }
    {
        let mut draft = ListingDraft::new(alloc)?;
        let mut number = 1;
        let mut rest = text;
        loop {
            let (line, more) = cut_at(rest, b'\n');
            let Some(after) = more else {
                return draft.finished(number, line);
            };
            if !draft.add(line)? {
                return Err(ListingFault::Line(number));
            }
            number += 1;
            rest = after;
        }
    }
}
