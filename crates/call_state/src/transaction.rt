//! The transactions of a call that messages come to.

/// A transaction of a call, with the part that a message plays in it; the number is that of a branch.
#[derive(Clone, Copy, PartialEq, Eq, Debug)]
pub enum MatchedTransaction {
    /// The caller's request again, for the server transaction (RFC 3261 section 17.2).
    Server,
    /// The caller's ACK (RFC 3261 section 17.2.1).
    ServerAck,
    /// The caller's CANCEL (RFC 3261 section 9.2).
    ServerCancel,
    /// A response for the client transaction of a branch (RFC 3261 section 17.1.3).
    Client(u16),
    /// A response for the client transaction of a branch's CANCEL (RFC 3261 section 9.1).
    CancelClient(u16),
}
