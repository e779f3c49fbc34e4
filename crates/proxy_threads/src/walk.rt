//! The walk over all calls that is due where the deadline of one could not be added.
ghost use Rattle.std.specs.Prelude.{◌≡◌, ◌⊎◌, ℕ, Some, true};

use crate::refusals::wait_behind;

/// Where the walk over all calls stands. Moments are in milliseconds.
#[derive(Clone, Copy, PartialEq, Eq, Debug)]
pub struct CallWalk {
    /// The number from which on calls are to be looked at; none where no walk is due.
    from: Option<u64>,
    /// Not before this moment.
    at: u64,
    /// Whether a deadline was missed since the walk began.
    again: bool,
    /// The last wait before a walk.
    wait: u64,
}

impl CallWalk {
    /// No walk is due.
    pub fn new() -> CallWalk {
        CallWalk {
            from: None,
            at: 0,
            again: false,
            wait: 0,
        }
    }

    /// Notes whether a deadline was missed since the last look. A walk begins behind a wait then, longer each time until none is missed; where
    /// one is under way another one follows it.
    pub fn note(&mut self, is_missed: bool, now: u64)
        ensures missed { is_missed ≡ true → (self.new.from ≡ Some 0) ⊎ (self.new.again ≡ true) }
        ensures again { (from : ℕ) → self.old.from ≡ Some from → self.old.again ≡ true → self.new.again ≡ true }
    {
        match self.from {
            Some(from) => self.again = self.again || (is_missed && from > 0),
            None if is_missed => self.begin(now),
            None => self.wait = 0,
        }
    }

    /// Begins a walk behind a wait.
    fn begin(&mut self, now: u64)
        ensures { self.new.from ≡ Some 0 }
    {
        self.wait = wait_behind(self.wait);
        self.from = Some(0);
        self.at = now.saturating_add(self.wait);
        self.again = false;
    }

    /// Notes that the calls before this number were looked at.
    pub fn pass(&mut self, number: u64) {
        self.from = Some(number);
    }

    /// Notes that all calls were looked at. Where a deadline was missed meanwhile the next walk begins behind a wait.
    pub fn finish(&mut self, now: u64)
        ensures { self.old.again ≡ true → self.new.from ≡ Some 0 }
    {
        if self.again {
            self.begin(now);
        } else {
            self.from = None;
        }
    }

    /// The number from which on calls are to be looked at now.
    pub fn due(&self, now: u64) -> Option<u64> {
        if self.at <= now { self.from } else { None }
    }

    /// When the walk goes on; the end of time where none is due.
    pub fn next(&self) -> u64 {
        if self.from.is_some() {
            self.at
        } else {
            u64::MAX
        }
    }
}
