//! What kind of request is forked.

/// The kind of a forked request: the branches of an INVITE alone can be cancelled (RFC 3261 section 9.1).
#[derive(Clone, Copy, PartialEq, Eq, Debug)]
pub enum Kind {
    Invite,
    Other,
}
