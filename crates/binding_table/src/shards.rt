//! Which shard a user stands in.
ghost use Rattle.std.specs.Prelude.{◌≡◌, ◌<◌, ◌%◌};
ghost use Rattle.binding_table.specs.Shards.{shard_of, shards};

use std::hash::{FoldHasher, Hasher};

/// In how many shards the users stand, each behind a lock of its own, so that threads seldom wait for one another.
pub(crate) const SHARDS: usize = 64;

/// The shard of a user, by a digest of all bytes of the name.
pub(crate) fn shard_of(user: &[u8]) -> usize
    ensures shard { result ≡ shard_of user.now }
    ensures within { result < shards }
{
    let mut hasher = FoldHasher::default();
    hasher.write(user);
    (hasher.finish() % SHARDS as u64) as usize
}
