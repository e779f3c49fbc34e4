//! The addresses that are kept, as a map under their numbers.
ghost use Rattle.std.specs.Prelude.{◌≡◌, ◌≢◌, ◌+◌, ◌≤◌, ℕ, false, length, true, is_some, IfOk, Some, OnErr, OnOk, if◌then◌else◌};
ghost use Rattle.std.specs.BTreeMap.{insert_entry};
ghost use Rattle.std.specs.Ordering.{nat_cmp};
ghost use Rattle.service_admission.specs.Bucket.{has_left, spend};
ghost use Rattle.service_admission.specs.Limits.{bucket_of, charged, is_admitted, is_beyond, kept_at, most_addresses, spent_by, still_spent};

use crate::bucket::TokenBucket;
use std::alloc::{AllocError, Allocator};
use std::collections::BTreeMap;

/// No more addresses are kept.
const MOST_ADDRESSES: usize = 65_536;

/// Forgets the addresses that have spent nothing any more.
pub(crate) fn forget_unspent<A: Allocator>(
    buckets: &mut BTreeMap<u32, TokenBucket, A>,
    most: u32,
    now: u64,
)
    ensures kept { buckets.new.entries ≡ still_spent most now buckets.old.entries }
    ensures fewer { length buckets.new.entries ≤ length buckets.old.entries }
    ensures same { (address moment : ℕ) → now ≤ moment → spent_by most buckets.new.entries address moment ≡ spent_by most buckets.old.entries address moment }
{
    buckets.retain(|_, bucket| bucket.is_spent(most, now));
}

/// What an address has spent, if it is kept.
fn kept_at<A: Allocator>(
    buckets: &BTreeMap<u32, TokenBucket, A>,
    address: u32,
) -> Option<TokenBucket>
    ensures { result ≡ kept_at buckets.now.entries address }
{
    buckets.get(&address).copied()
}

/// Keeps what an address has spent.
fn keep<A: Allocator + Clone>(
    buckets: &mut BTreeMap<u32, TokenBucket, A>,
    address: u32,
    bucket: TokenBucket,
) -> Result<(), AllocError>
    ensures ok { OnOk result (buckets.new.entries ≡ insert_entry nat_cmp buckets.old.entries address bucket) }
    ensures own { OnOk result (kept_at buckets.new.entries address ≡ Some bucket) }
    ensures err { OnErr result (buckets.new.entries ≡ buckets.old.entries) }
    ensures more { length buckets.new.entries ≤ length buckets.old.entries + (if is_some (kept_at buckets.old.entries address) then 0 else 1) }
    ensures others { (other : ℕ) → other ≢ address → kept_at buckets.new.entries other ≡ kept_at buckets.old.entries other }
{
    match buckets.insert(address, bucket) {
        Ok(_) => Ok(()),
        Err(_) => Err(AllocError),
    }
}

/// Charges an address with a datagram, if it is admitted, and says whether it is.
///
/// # Errors
///
/// Only where the allocator refuses; then nothing is spent.
pub(crate) fn charge<A: Allocator + Clone>(
    buckets: &mut BTreeMap<u32, TokenBucket, A>,
    address: u32,
    most: u32,
    now: u64,
) -> Result<bool, AllocError>
    requires few { length buckets.old.entries ≤ most_addresses }
    ensures answer { IfOk result (λ admitted. admitted ≡ is_admitted most now buckets.old.entries address) }
    ensures ok { OnOk result (buckets.new.entries ≡ charged most now buckets.old.entries address) }
    ensures err { OnErr result (buckets.new.entries ≡ buckets.old.entries) }
    ensures own { OnOk result (is_beyond buckets.old.entries address ≡ false → has_left most now (bucket_of buckets.old.entries address) ≡ true
        → bucket_of buckets.new.entries address ≡ spend most now (bucket_of buckets.old.entries address)) }
    ensures few { length buckets.new.entries ≤ most_addresses }
    ensures others { (other : ℕ) → other ≢ address → kept_at buckets.new.entries other ≡ kept_at buckets.old.entries other }
{
    let kept = kept_at(buckets, address);
    if kept.is_none() && buckets.len() >= MOST_ADDRESSES {
        return Ok(true);
    }
    let bucket = kept.unwrap_or(TokenBucket::UNSPENT);
    if !bucket.has_left(most, now) {
        return Ok(false);
    }
    keep(buckets, address, bucket.spend(most, now))?;
    Ok(true)
}
