//! What one address has spent.
ghost use Rattle.std.specs.Prelude.{◌≡◌, true};
ghost use Rattle.service_admission.specs.Bucket.{has_left, is_spent, spend, spent_at};

/// How many thousandths a datagram has.
const DATAGRAM: u64 = 1_000;

/// What an address has spent, in thousandths of a datagram, and the millisecond of which this is true.
#[derive(Clone, Copy)]
pub struct TokenBucket {
    pub spent: u64,
    pub since: u64,
}

impl TokenBucket {
    /// Of an address that has spent nothing.
    pub(crate) const UNSPENT: TokenBucket = TokenBucket { spent: 0, since: 0 };

    /// What is still spent at this moment, in thousandths of a datagram: `most` of them come back each millisecond.
    fn spent_at(&self, most: u32, now: u64) -> u64
        ensures { result ≡ spent_at most now self.now }
    {
        let elapsed = now.saturating_sub(self.since);
        self.spent
            .saturating_sub(u64::from(most).saturating_mul(elapsed))
    }

    /// Whether anything is still spent at this moment.
    pub(crate) fn is_spent(&self, most: u32, now: u64) -> bool
        ensures { result ≡ is_spent most now self.now }
    {
        self.spent_at(most, now) > 0
    }

    /// Whether the address may have a datagram more at this moment.
    pub(crate) fn has_left(&self, most: u32, now: u64) -> bool
        ensures { result ≡ has_left most now self.now }
    {
        self.spent_at(most, now).saturating_add(DATAGRAM) <= u64::from(most) * DATAGRAM
    }

    /// A datagram more is spent at this moment.
    pub(crate) fn spend(&self, most: u32, now: u64) -> TokenBucket
        requires { has_left most now self.now ≡ true }
        ensures { result ≡ spend most now self.now }
    {
        TokenBucket {
            spent: self.spent_at(most, now) + DATAGRAM,
            since: now.max(self.since),
        }
    }
}
