//! The methods that a proxy tells apart.

ghost use Rattle.std.specs.Prelude.{◌≡◌};
ghost use Rattle.sip_text.specs.Method.{method_named};

/// The method of a request, as far as a proxy tells methods apart: it treats all others alike (RFC 3261 section 7.1).
#[derive(Clone, Copy, PartialEq, Eq, Debug)]
pub enum Method {
    Invite,
    Ack,
    Cancel,
    Options,
    /// Any other.
    Other,
}

impl Method {
    /// The method of that name; names of methods are told apart by case (RFC 3261 section 25.1).
    #[tactic(auto, unfolding(crate::specs::Method::method_named))]
    pub fn named(name: &[u8]) -> Method
        ensures { result ≡ method_named name.now }
    {
        if name == b"INVITE".as_slice() {
            Method::Invite
        } else if name == b"ACK".as_slice() {
            Method::Ack
        } else if name == b"CANCEL".as_slice() {
            Method::Cancel
        } else if name == b"OPTIONS".as_slice() {
            Method::Options
        } else {
            Method::Other
        }
    }
}
