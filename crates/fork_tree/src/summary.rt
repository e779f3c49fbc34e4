//! The best stored answer of some branches, and how many of them have not ended.
ghost use Rattle.std.specs.Prelude.{◌≡◌, ◌<◌, ◌+◌, ◌↔◌, ◌^◌, IsTrue, None};
ghost use Rattle.fork_model.specs.Rank.{RanksBefore};
ghost use Rattle.fork_tree.specs.Summary.{open_state, best_of};
ghost use Rattle.fork_tree.specs.inner.Summary.{Better};
ghost use Rattle.fork_tree.specs.inner.Closing.{closed_standing};
ghost use Rattle.fork_tree.specs.Listed.{kept_of, kept_end};

use crate::row::{End, State};
use fork_rank::{Rank, Rules, Status, before};

/// A stored answer, by its row's number.
#[derive(Clone, Copy, PartialEq, Eq, Debug)]
pub struct BestRef {
    pub no: u16,
    pub status: Status,
    pub arrival: u32,
}

/// A stored answer with its rank.
#[derive(Clone, Copy, PartialEq, Eq, Debug)]
pub(crate) struct RankedAnswer {
    pub(crate) best: BestRef,
    pub(crate) rank: Rank,
}

/// Where a branch is, and its stored answer.
#[derive(Clone, Copy, PartialEq, Eq, Debug)]
pub(crate) struct BranchState {
    pub(crate) state: State,
    pub(crate) answer: Option<RankedAnswer>,
}

/// What is kept of some branches: the stored answer that none ranks before, and how many have not ended.
#[derive(Clone, Copy, PartialEq, Eq, Debug)]
pub(crate) struct Summary {
    pub(crate) kept: Option<RankedAnswer>,
    pub(crate) open_count: u16,
}

impl BranchState {
    /// The standing of row n in this state.
    pub(crate) fn of(n: u16, state: State, rules: &Rules) -> BranchState
        ensures { result ≡ record { state = state; answer = kept_of rules.now n state } }
    {
        let answer = answer_in(n, &state, rules);
        BranchState { state, answer }
    }

    /// The standing once the fork is closed: a branch that waits is never tried.
    pub(crate) fn closed(self) -> BranchState
        ensures { result ≡ closed_standing self }
    {
        BranchState {
            state: self.state.closed(),
            answer: self.answer,
        }
    }

    /// 1 where the branch has not ended.
    pub(crate) fn open_count(&self) -> u16
        ensures { result ≡ open_state self.now.state }
    {
        if self.state.has_ended() { 0 } else { 1 }
    }
}

/// The stored answer of row n in this state.
fn answer_in(n: u16, state: &State, rules: &Rules) -> Option<RankedAnswer>
    ensures { result ≡ kept_of rules.now n state.now }
{
    match *state {
        State::Ended(end) => answer_of_end(n, end, rules),
        _ => None,
    }
}

fn answer_of_end(n: u16, end: End, rules: &Rules) -> Option<RankedAnswer>
    ensures { result ≡ kept_end rules.now n end }
{
    if let End::Stored {
        status,
        arrival,
        received: _,
    } = end
    {
        Some(RankedAnswer {
            best: BestRef {
                no: n,
                status,
                arrival,
            },
            rank: Rank::of(status, arrival, rules),
        })
    } else {
        None
    }
}

impl Summary {
    /// The summary of `count` branches that wait.
    pub(crate) fn waiting(count: u16) -> Summary
        ensures { result ≡ record { kept = None; open_count = count } }
    {
        Summary {
            kept: None,
            open_count: count,
        }
    }

    /// The summary after one branch that had not ended came into another standing: with `answer`, where it stored one, and
    /// with `opens` branches that have not ended in its place.
    pub(crate) fn after(self, answer: Option<RankedAnswer>, opens: u16) -> Summary
        requires some { 0 < self.open_count }
        requires fits { self.open_count + opens < 2 ^ 15 }
        ensures kept { Better self.kept answer result.kept }
        ensures open_count { result.open_count + 1 ≡ self.open_count + opens }
    {
        Summary {
            kept: better(self.kept, answer),
            open_count: self.open_count - 1 + opens,
        }
    }

    /// The stored answer that none ranks before, if one is stored.
    pub(crate) fn best(&self) -> Option<BestRef>
        ensures { result ≡ best_of self.now.kept }
    {
        match self.kept {
            Some(kept) => Some(kept.best),
            None => None,
        }
    }
}

/// The one that ranks before the other, of the answer kept so far and a newer one.
fn better(kept: Option<RankedAnswer>, stored: Option<RankedAnswer>) -> Option<RankedAnswer>
    ensures { Better kept stored result }
{
    match (kept, stored) {
        (_, None) => kept,
        (None, Some(_)) => stored,
        (Some(first), Some(later)) => {
            if goes_before(&later, &first) {
                stored
            } else {
                kept
            }
        }
    }
}

fn goes_before(a: &RankedAnswer, b: &RankedAnswer) -> bool
    ensures { IsTrue result ↔ RanksBefore a.now.rank b.now.rank }
{
    before(&a.rank, &b.rank)
}
