//! The limit of each source address.
ghost use Rattle.std.specs.Prelude.{◌≡◌, ◌≢◌, ◌≤◌, ℕ, [], false, length, IfOk, OnErr, OnOk};
ghost use Rattle.service_admission.specs.Limits.{address_of, charged_at, is_admitted, most_addresses, spent_by, swept_at};
ghost use Rattle.service_admission.specs.Runs.{Looks, is_counted};

use crate::bucket::TokenBucket;
use crate::kept::{charge, forget_unspent};
use std::alloc::{AllocError, Allocator, Global};
use std::collections::BTreeMap;
use std::marker::Model;

/// How many milliseconds a second has.
const SECOND: u64 = 1_000;

/// What each source address has spent of the datagrams that it may have: `most` at once, and `most` more each second. The port
/// does not count. One that has spent nothing takes no memory from the next sweep on, which comes once a second at most; 65,536
/// addresses are kept at most, and where they are, a new one is admitted without being kept: whoever can send from so many
/// addresses is not held by a limit for each.
#[derive(Drop)]
pub struct SourceLimits<A: Allocator = Global> {
    most: u32,
    swept: u64,
    buckets: BTreeMap<u32, TokenBucket, A>,
}

impl<A: Allocator> Model for SourceLimits<A> {
    ghost use Rattle.std.specs.Prelude.{◌≤◌, length};
    ghost use Rattle.service_admission.specs.Limits as limits;

    ghost Value = { limits.Limits };

    ghost view = { λ l. record { most = l.most; swept = l.swept; buckets = l.buckets.entries } };

    ghost invariant = { λ l. length l.buckets.entries ≤ limits.most_addresses };
}

impl<A: Allocator + Clone> SourceLimits<A> {
    /// No address has spent anything. An address may have `most` datagrams at once, and `most` more each second; with 0 none is
    /// admitted of an address for which there is room.
    pub fn new(alloc: A, most: u32) -> SourceLimits<A>
        ensures { result ≡ record { most = most; swept = 0; buckets = [] } }
    {
        SourceLimits {
            most,
            swept: 0,
            buckets: BTreeMap::new(alloc),
        }
    }

    /// How many addresses are kept: those that have spent something, and some that no longer have.
    pub fn kept(&self) -> usize
        ensures value { result ≡ length self.now.buckets }
        ensures few { result ≤ most_addresses }
    {
        self.buckets.len()
    }

    /// Forgets the addresses that have spent nothing any more, where the last time was a second ago. Nothing that an address
    /// has spent from now on is another.
    fn sweep(&mut self, now: u64)
        ensures swept { self.new ≡ swept_at now self.old }
        ensures same { (address moment : ℕ) → now ≤ moment → spent_by self.new.most self.new.buckets address moment ≡ spent_by self.old.most self.old.buckets address moment }
    {
        if now.saturating_sub(self.swept) >= SECOND {
            forget_unspent(&mut self.buckets, self.most, now);
            self.swept = now;
        }
    }

    /// Whether a datagram of this address is admitted at `now`, in milliseconds. One that is spends 1,000 thousandths of what the
    /// address may have; `most` thousandths come back each millisecond, until nothing is spent. One that is not spends nothing.
    /// What another address has spent stays the same (`others`). Where the time falls, nothing comes back meanwhile.
    ///
    /// # Errors
    ///
    /// Only where the allocator refuses to keep a new address; then nothing is spent.
    pub fn admits(&mut self, source: [u8; 4], now: u64) -> Result<bool, AllocError>
        ensures answer { IfOk result (λ admitted. admitted ≡ is_admitted (swept_at now self.old).most now (swept_at now self.old).buckets (address_of source)) }
        ensures ok { OnOk result (self.new ≡ charged_at now (swept_at now self.old) (address_of source)) }
        ensures err { OnErr result (self.new ≡ swept_at now self.old) }
        ensures looks { IfOk result (λ admitted. Looks self.old now (address_of source) (is_counted self.old now (address_of source) admitted) self.new) }
        ensures refused { OnErr result (Looks self.old now (address_of source) false self.new) }
        ensures others { (other moment : ℕ) → other ≢ address_of source → now ≤ moment
            → spent_by self.new.most self.new.buckets other moment ≡ spent_by self.old.most self.old.buckets other moment }
    {
        self.sweep(now);
        charge(
            &mut self.buckets,
            u32::from_be_bytes(source),
            self.most,
            now,
        )
    }
}
