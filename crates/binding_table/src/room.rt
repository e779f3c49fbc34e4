//! How many bindings there are in all, and may be.
ghost use Rattle.std.specs.Prelude.{◌≡◌, ◌+◌, ◌-◌, ◌^◌, min, nat_le, if◌then◌else◌};

/// How many bindings there may be in all, and how many there are: those among them that a change reserves which is not made yet.
#[derive(Clone, Copy)]
pub(crate) struct Room {
    pub(crate) most: u32,
    pub(crate) taken: u64,
}

impl Room {
    /// Room for so many, of which none is there.
    pub(crate) fn new(most: u32) -> Room
        ensures { result ≡ record { most = most; taken = 0 } }
    {
        Room { most, taken: 0 }
    }

    /// Takes room for so many more, where there are not too many in all then, and says whether it did. None at all always has room.
    pub(crate) fn take(&mut self, more: u64) -> bool
        ensures answer { result ≡ nat_le (self.old.taken + more) self.old.most }
        ensures room { self.new ≡ (if result then record { most = self.old.most; taken = self.old.taken + more } else self.old) }
    {
        let taken = self.taken.saturating_add(more);
        if taken > u64::from(self.most) {
            return false;
        }
        self.taken = taken;
        true
    }

    /// Gives the room of so many back and takes that of others, whether or not there are too many then.
    pub(crate) fn replace(&mut self, fewer: u64, more: u64)
        ensures { self.new ≡ record { most = self.old.most; taken = min (self.old.taken - fewer + more) (2 ^ 64 - 1) } }
    {
        self.taken = self.taken.saturating_sub(fewer).saturating_add(more);
    }

    /// Gives the room of so many back.
    pub(crate) fn give_back(&mut self, fewer: u64)
        ensures { self.new ≡ record { most = self.old.most; taken = self.old.taken - fewer } }
    {
        self.taken = self.taken.saturating_sub(fewer);
    }
}
