//! A contact, as parts of the text that it stands in.
ghost use Rattle.std.specs.Prelude.{◌≡◌};
ghost use Rattle.std.specs.Option.{option_copied};
ghost use Rattle.bindings.specs.Bindings.{same_binding, same_if_any, same_place};
ghost use Rattle.bindings.specs.Seen.{contact_of};

use sip_uri::Hop;

/// A contact, its texts as they were received.
#[derive(Clone, Copy)]
pub struct ContactParts<'a> {
    /// All of it, but for its `expires` parameters: what a 200 shows.
    pub item: &'a [u8],
    pub uri: &'a [u8],
    /// Decides whether two URIs are the same target (RFC 3261 section 19.1.4).
    pub key: &'a [u8],
    /// How gladly the user is reached there, in thousandths.
    pub q: u16,
    /// The value of its parameter `+sip.instance`, which tells one telephone from all others (RFC 5626 section 4.1).
    pub instance: Option<&'a [u8]>,
    /// That of its parameter `reg-id`, which tells the registrations of one telephone apart (RFC 5626 section 4.2).
    pub reg_id: Option<&'a [u8]>,
    /// Where a request to it is sent.
    pub hop: Hop,
}

/// Whether two parameters have one value, or neither is there.
fn same_if_any(a: Option<&[u8]>, b: Option<&[u8]>) -> bool
    ensures { result ≡ same_if_any (option_copied a.entry) (option_copied b.entry) }
{
    match (a, b) {
        (Some(a), Some(b)) => a == b,
        (None, None) => true,
        _ => false,
    }
}

impl ContactParts<'_> {
    /// Whether the keys, and the addresses that requests go to, are the same.
    fn has_place(&self, other: &ContactParts<'_>) -> bool
        ensures { result ≡ same_place (contact_of self.now) (contact_of other.now) }
    {
        self.key == other.key && self.hop.addr.as_slice() == other.hop.addr.as_slice()
    }

    /// Whether two contacts of a user name the same binding: one instance with one `reg-id`, or none; or, where one of the two has no
    /// instance, one key and one address (RFC 3261 section 10.3 step 7, RFC 5626 section 6).
    pub fn is_same_binding(&self, other: &ContactParts<'_>) -> bool
        ensures { result ≡ same_binding (contact_of self.now) (contact_of other.now) }
    {
        match (self.instance, other.instance) {
            (Some(a), Some(b)) => a == b && same_if_any(self.reg_id, other.reg_id),
            _ => self.has_place(other),
        }
    }
}
