//! How many bytes may be taken by all groups of calls together.
ghost use Rattle.std.specs.Prelude.{◌≡◌, ◌+◌, ◌-◌, ◌≤◌, min, nat_le, if◌then◌else◌};

/// A number of bytes that may be taken at once, and how many of them are left. Who takes bytes gives as many back.
#[derive(Clone, Copy, PartialEq, Eq, Debug)]
pub struct WaitingRoom {
    most: u64,
    left: u64,
    ghost within: { left ≤ most },
}

impl WaitingRoom {
    /// So many bytes, all of them left.
    pub fn new(most: u64) -> WaitingRoom
        ensures most { result.most ≡ most }
        ensures left { result.left ≡ most }
    {
        WaitingRoom { most, left: most }
    }

    /// Takes so many bytes where as many are left, and says whether they were. Where they were not, nothing changes.
    pub fn take(&mut self, bytes: u64) -> bool
        ensures answer { result ≡ nat_le bytes self.old.left }
        ensures left { self.new.left ≡ (if nat_le bytes self.old.left then self.old.left - bytes else self.old.left) }
        ensures most { self.new.most ≡ self.old.most }
    {
        if bytes > self.left {
            return false;
        }
        self.left -= bytes;
        true
    }

    /// Gives so many bytes back. No more are left than there were at first.
    pub fn give_back(&mut self, bytes: u64)
        ensures left { self.new.left ≡ min self.old.most (self.old.left + bytes) }
        ensures most { self.new.most ≡ self.old.most }
    {
        self.left = self.most.min(self.left.saturating_add(bytes));
    }
}
