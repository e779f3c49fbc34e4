//! Why an event is not posted.
use thiserror::Error;

/// Why an event is not posted to the book of a call; the state is then as it was.
#[derive(Clone, Copy, PartialEq, Eq, Debug, Error)]
pub enum PostFault {
    /// The book takes no more events that change nothing.
    #[error("no more events are taken that change nothing")]
    Full,
    /// The allocator refused.
    #[error("out of memory")]
    NoMemory,
}

impl From<std::alloc::AllocError> for PostFault {
    ghost use Rattle.std.specs.Prelude.{◌≡◌};
    ghost use Rattle.call_state.specs.declared.fault.PostFault.TheVariants as post;

    ghost from_gives = { λ _ e. e ≡ post.NoMemory };

    fn from(_e: std::alloc::AllocError) -> PostFault {
        PostFault::NoMemory
    }
}
