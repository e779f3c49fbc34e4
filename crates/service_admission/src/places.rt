//! Places for calls.
ghost use Rattle.std.specs.Prelude.{◌≡◌, ◌≤◌, ◌<◌, ◌+◌, ◌-◌};
ghost use Rattle.std.specs.Bool.{OnFalse, OnTrue};
ghost use Rattle.service_admission.specs.Places.{most_within_dialog, with_taken};

use std::marker::Model;

/// Places for calls: for how many there is room, and how many are taken. A request that begins something new opens a call only where one
/// of these places is left. One within a dialog, which a caller may not repeat elsewhere, has a tenth more.
#[derive(Drop)]
pub struct CallQuota {
    most: u64,
    taken: u64,
}

impl Model for CallQuota {
    ghost use Rattle.service_admission.specs.Places.{PlaceCount};

    ghost Value = { PlaceCount };

    ghost view = { λ p. record { most = p.most; taken = p.taken } };
}

/// How many places there are for requests within dialogs, where there are so many for those that begin something new.
fn most_within_dialog(most: u64) -> u64
    ensures { result ≡ most_within_dialog most }
{
    most.saturating_add((most / 10).max(1))
}

impl CallQuota {
    /// So many places, of which none is taken.
    pub fn new(most: u64) -> CallQuota
        ensures { result ≡ record { most = most; taken = 0 } }
    {
        CallQuota { most, taken: 0 }
    }

    /// Keeps a place for a request that begins something new, and says whether one was left.
    pub fn keep(&mut self) -> bool
        ensures kept { OnTrue result ((self.old.taken < self.old.most) × (self.new ≡ with_taken self.old (self.old.taken + 1))) }
        ensures full { OnFalse result ((self.old.most ≤ self.old.taken) × (self.new ≡ self.old)) }
    {
        self.keep_below(self.most)
    }

    /// Keeps a place for a request within a dialog, and says whether one was left: there are a tenth more of them, at least one.
    pub fn keep_within_dialog(&mut self) -> bool
        ensures kept { OnTrue result ((self.old.taken < most_within_dialog self.old.most) × (self.new ≡ with_taken self.old (self.old.taken + 1))) }
        ensures full { OnFalse result ((most_within_dialog self.old.most ≤ self.old.taken) × (self.new ≡ self.old)) }
    {
        self.keep_below(most_within_dialog(self.most))
    }

    /// Keeps a place for a request that opens no call, as long as it is in work: it gets one however many are taken.
    pub fn keep_registering(&mut self) -> bool
        ensures kept { OnTrue result ((self.old.taken < 18446744073709551615) × (self.new ≡ with_taken self.old (self.old.taken + 1))) }
        ensures full { OnFalse result ((18446744073709551615 ≤ self.old.taken) × (self.new ≡ self.old)) }
    {
        self.keep_below(u64::MAX)
    }

    /// Keeps a place where fewer than so many are taken.
    fn keep_below(&mut self, most: u64) -> bool
        ensures kept { OnTrue result ((self.old.taken < most) × (self.new ≡ with_taken self.old (self.old.taken + 1))) }
        ensures full { OnFalse result ((most ≤ self.old.taken) × (self.new ≡ self.old)) }
    {
        if self.taken >= most {
            return false;
        }
        self.taken += 1;
        true
    }

    /// Gives a place back.
    pub fn give_back(&mut self)
        ensures { self.new ≡ with_taken self.old (self.old.taken - 1) }
    {
        self.taken = self.taken.saturating_sub(1);
    }
}
