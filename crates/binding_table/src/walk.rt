//! A walk over all users.
ghost use Rattle.std.specs.Prelude.{◌≡◌, option_map};
ghost use Rattle.std.specs.Option.{option_copied};

use std::alloc::{Allocator, Global};

/// How far a walk over the users has come: which user it came to, in which shard. Users of a shard come in the order of their names.
#[derive(Drop)]
pub struct Walk<A: Allocator = Global> {
    pub(crate) shard: usize,
    pub(crate) user: Option<Vec<u8, A>>,
}

impl<A: Allocator> Walk<A> {
    /// It has come to no user yet.
    pub fn new() -> Walk<A> {
        Walk {
            shard: 0,
            user: None,
        }
    }

    /// The user that it came to.
    pub fn user(&self) -> Option<&[u8]>
        ensures { option_copied result ≡ option_map (λ v. v.items) self.now.user }
    {
        match &self.user {
            Some(user) => Some(user.as_slice()),
            None => None,
        }
    }
}
