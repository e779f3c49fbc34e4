//! The order of stored answers.
ghost use Rattle.std.specs.Prelude.{◌≡◌, ◌↔◌, IsTrue};
ghost use Rattle.fork_model.specs.Rank.{class_of, part_of, rank_of, RanksBefore, Before};

use crate::{Rules, Status, StatusClass};
use std::cmp::Ordering;
use std::marker::Model;

/// What a stored answer is ranked by (RFC 3261 section 16.7 step 6): its class, its part within the class, and
/// when it arrived; the smaller goes first.
#[derive(Clone, Copy, PartialEq, Eq, PartialOrd, Ord, Debug)]
pub struct Rank {
    class: u8,
    part: u8,
    arrival: u32,
}

impl Model for Rank {
    ghost use Rattle.fork_model.specs.Rank as rank;

    ghost Value = { rank.Rank };

    ghost view = { λ r. record { class = r.class; part = r.part; arrival = r.arrival } };

    ghost inverse = { λ r. record { class = r.class; part = r.part; arrival = r.arrival } };
}

impl Rank {
    /// The rank of an answer with this status that arrived with the event at this position. (A 2xx is never stored; it
    /// would rank as a 3xx does.)
    #[tactic(auto, unfolding(fork_model::specs::Rank::rank_of))]
    pub fn of(status: Status, at: u32, rules: &Rules) -> Rank
        ensures { result ≡ rank_of rules.now (record { status = status; arrival = at }) }
    {
        Rank {
            class: rank_class(status.code()),
            part: rank_part(rules, status.code()),
            arrival: at,
        }
    }
}

/// The first part of a rank, by the class of the status (RFC 3261 section 16.7 step 6): 0 of a 6xx, 1 of a 3xx, 2 of a 4xx,
/// 3 of a 5xx. (A 1xx and a 2xx, which are never stored, would have that of a 3xx.)
pub fn rank_class(status: u16) -> u8
    ensures { result ≡ class_of status }
{
    match StatusClass::of(status) {
        StatusClass::GlobalFailure => 0,
        StatusClass::Provisional | StatusClass::Success | StatusClass::Redirection => 1,
        StatusClass::ClientError => 2,
        StatusClass::ServerError => 3,
    }
}

/// The second part of a rank, within the class of the status: 0, but 1 of a 4xx that is not preferred, and of a 503 (RFC 3261
/// section 16.7 step 6).
pub fn rank_part(rules: &Rules, status: u16) -> u8
    ensures { result ≡ part_of rules.now status }
{
    match StatusClass::of(status) {
        StatusClass::ClientError if !rules.prefers(status) => 1,
        StatusClass::ServerError if status == 503 => 1,
        _ => 0,
    }
}

/// Whether the first goes before the second.
pub fn before(a: &Rank, b: &Rank) -> bool
    ensures { IsTrue result ↔ RanksBefore a.now b.now }
{
    a < b
}

/// The order of two ranks, which `<`, `==` and a sort go by: `Less` where the first goes before the second.
pub fn compare(a: &Rank, b: &Rank) -> Ordering
    ensures less { (result ≡ Ordering.Less) ↔ RanksBefore a.now b.now }
    ensures equal { (result ≡ Ordering.Equal) ↔ (a.now ≡ b.now) }
    ensures greater { (result ≡ Ordering.Greater) ↔ RanksBefore b.now a.now }
{
    a.cmp(b)
}

/// Whether an answer goes up rather than another, each given as its status and the position of its event.
#[tactic(auto, unfolding(fork_model::specs::Rank::Before))]
pub fn ranks_before(rules: &Rules, a: (Status, u32), b: (Status, u32)) -> bool
    ensures { IsTrue result
        ↔ Before rules.now (record { status = a.0; arrival = a.1 }) (record { status = b.0; arrival = b.1 }) }
{
    before(&Rank::of(a.0, a.1, rules), &Rank::of(b.0, b.1, rules))
}
