//! What comes of a message that a call takes.

/// What comes of a message that a transaction takes.
#[derive(Clone, Copy, PartialEq, Eq, Debug)]
pub enum Taken {
    /// The transaction keeps the message to itself: nothing is posted to the fork.
    Absorbed,
    /// The message was posted to the fork, as the event at this position.
    Posted(u32),
}
