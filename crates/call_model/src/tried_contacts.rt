//! Which contacts of a redirection a call tries.

/// Which contacts of a 3xx a call sends requests to (RFC 3261 section 16.5): it may try those of a request whose Request-URI
/// the proxy is responsible for, by the transports that the proxy has. The others may go up to its caller.
#[derive(Clone, Copy, PartialEq, Eq, Debug)]
pub enum TriedContacts {
    /// None: the proxy is not responsible for the Request-URI.
    NoContacts,
    /// Those whose URI leads to a hop over UDP.
    OverUdp,
    /// Each whose URI leads to a hop.
    Every,
}
