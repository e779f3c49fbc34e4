//! The 4xx statuses that go first among stored answers.
ghost use Rattle.std.specs.Prelude.{◌≡◌, ◌≤◌, ◌<◌, ◌↔◌, All, IsSome, IfSome, IsTrue, length};
ghost use Rattle.std.specs.List.Sorted.{IsStrictlyIncreasing};
ghost use Rattle.fork_rank.specs.Preferred.{IsPreferredList, usual_preferred};
ghost use Rattle.fork_rank.specs.inner.Padding.{padded};

use std::marker::Model;

/// How many statuses a list of preferred ones has at most.
pub const MOST_PREFERRED: usize = 16;

/// The 4xx statuses that go first among the answers of their class, in rising order (which of them do is the
/// proxy's choice: RFC 3261 section 16.7 step 6).
#[derive(Clone, Copy, PartialEq, Eq, Debug)]
pub struct Preferred {
    codes: [u16; MOST_PREFERRED],
    count: u8,
}

impl Model for Preferred {
    ghost use Rattle.std.specs.Prelude.{List, ℕ, take};

    ghost Value = { List ℕ };

    ghost use Rattle.fork_rank.specs.Padding.{IsPadded};
    ghost use Rattle.fork_rank.specs.inner.PreferredFields.{fields_of, fields_of-view};

    ghost view = { λ p. take p.count p.codes };

    ghost invariant = { λ p. IsPadded p.codes p.count };

    ghost inverse = { fields_of };

    ghost inverse_ok = { fields_of-view };
}

impl Preferred {
    /// The preferred statuses, if the list has at most `MOST_PREFERRED`, each 400 to 499, strictly rising.
    pub fn of(statuses: &[u16]) -> Option<Preferred>
        ensures valid { IsSome result ↔ IsPreferredList statuses.now }
        ensures value { IfSome result (λ preferred. preferred ≡ statuses.now) }
    {
        if !is_preferred_list(statuses) {
            return None;
        }
        Some(Preferred {
            codes: padded_codes(statuses),
            count: statuses.len() as u8,
        })
    }

    /// 401, 407, 415, 420 and 484, whose answers tell the caller how to repeat the request (RFC 3261 section
    /// 16.7 step 6).
    pub fn usual() -> Preferred
        ensures { result ≡ usual_preferred }
    {
        Preferred {
            codes: padded_codes(&[401, 407, 415, 420, 484]),
            count: 5,
        }
    }

    /// The statuses, rising.
    pub fn statuses(&self) -> &[u16]
        ensures value { result.now ≡ self.now }
        ensures sound { IsPreferredList result.now }
    {
        &self.codes[..self.count as usize]
    }
}

/// Whether the list is short enough, of 4xx alone, and rises.
fn is_preferred_list(statuses: &[u16]) -> bool
    ensures { IsTrue result ↔ IsPreferredList statuses.now }
{
    statuses.len() <= MOST_PREFERRED && are_client_errors(statuses) && are_rising(statuses)
}

fn are_client_errors(statuses: &[u16]) -> bool
    ensures { IsTrue result ↔ All (λ status. (400 ≤ status) × (status < 500)) statuses.now }
{
    statuses.iter().all(|&status| 400 <= status && status < 500)
}

fn are_rising(statuses: &[u16]) -> bool
    ensures { IsTrue result ↔ IsStrictlyIncreasing statuses.now }
{
    let mut i = 1;
    while i < statuses.len() {
        if statuses[i] <= statuses[i - 1] {
            return false;
        }
        i += 1;
    }
    true
}

/// The statuses, and zeros after them.
fn padded_codes(statuses: &[u16]) -> [u16; MOST_PREFERRED]
    requires { length statuses.now ≤ MOST_PREFERRED }
    ensures { result ≡ padded statuses.now }
{
    let mut codes = [0; MOST_PREFERRED];
    for i in 0..statuses.len() {
        codes[i] = statuses[i];
    }
    codes
}
