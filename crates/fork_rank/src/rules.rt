//! What an operator may set.
ghost use Rattle.std.specs.Prelude.{◌≡◌, ◌≤◌, ◌↔◌, IsSome, IfSome};
ghost use Rattle.fork_rank.specs.Preferred.{usual_preferred};
ghost use Rattle.fork_model.specs.Rank.{is_preferred};
ghost use Rattle.fork_model.specs.Table.{most_targets};

use crate::Preferred;
use std::marker::Model;

/// No more targets than these are tried for one request.
pub const MOST_TARGETS: u16 = 256;

/// The statuses that go first among the 4xx, and how deep contacts of contacts are tried: 0 tries none, 1 those
/// of the first targets alone (RFC 3261 sections 16.5 and 16.7 steps 4 and 6).
#[derive(Clone, Copy, PartialEq, Eq, Debug)]
pub struct Rules {
    preferred: Preferred,
    depth: u16,
}

impl Model for Rules {
    ghost use Rattle.std.specs.Prelude.{◌≤◌};
    ghost use Rattle.fork_model.specs.Table as table;
    ghost use Rattle.fork_model.specs.Table.{most_targets};

    ghost Value = { table.Rules };

    ghost view = { λ rules. record { preferred = rules.preferred; depth = rules.depth } };

    ghost invariant = { λ rules. rules.depth ≤ most_targets };

    ghost inverse = { λ rules. record { preferred = rules.preferred; depth = rules.depth } };
}

impl Rules {
    /// These rules; `None` where the depth is over `MOST_TARGETS`, which no branch can reach.
    pub fn of(preferred: Preferred, depth: u16) -> Option<Rules>
        ensures valid { IsSome result ↔ (depth ≤ most_targets) }
        ensures value { IfSome result (λ rules. rules ≡ record { preferred = preferred; depth = depth }) }
    {
        if depth <= MOST_TARGETS {
            Some(Rules { preferred, depth })
        } else {
            None
        }
    }

    /// The usual preferred statuses, and contacts to any depth.
    pub fn usual() -> Rules
        ensures { result ≡ record { preferred = usual_preferred; depth = most_targets } }
    {
        Rules {
            preferred: Preferred::usual(),
            depth: MOST_TARGETS,
        }
    }

    /// The statuses that go first among the 4xx.
    pub fn preferred(&self) -> Preferred
        ensures { result ≡ self.now.preferred }
    {
        self.preferred
    }

    /// Whether answers of this status go first among the 4xx.
    pub fn prefers(&self, status: u16) -> bool
        ensures { result ≡ is_preferred self.now status }
    {
        self.preferred.statuses().contains(&status)
    }

    /// How many steps below a first target contacts are still tried, 0 to `MOST_TARGETS`.
    pub fn depth(&self) -> u16
        ensures value { result ≡ self.now.depth }
        ensures range { result ≤ most_targets }
    {
        self.depth
    }
}
