//! Contacts that are bound to a user by registrations.
ghost use Rattle.std.specs.Prelude.{◌≡◌, ◌≤◌};
ghost use Rattle.fork_rank.specs.Field.{most_q};

use sip_uri::Hop;
use std::marker::Model;

/// A contact that is bound to a user (RFC 3261 section 10), as far as requests are sent there.
#[derive(Drop)]
pub struct BoundContact<'a> {
    /// Its URI, as it is written.
    pub(crate) uri: &'a [u8],
    /// The key of its URI.
    pub(crate) key: &'a [u8],
    /// Its q, in thousandths.
    pub(crate) q: u16,
    /// The hop by which it is reached.
    pub(crate) hop: Hop,
}

impl<'a> Model for BoundContact<'a> {
    ghost use Rattle.std.specs.Prelude.{◌≤◌};
    ghost use Rattle.fork_rank.specs.Field.{most_q};
    ghost use Rattle.proxy_config.specs.Moment as spec;

    ghost Value = { spec.BoundContact };

    ghost view = { λ c. record { uri = c.uri.now; key = c.key.now; q = c.q; hop = c.hop } };

    ghost invariant = { λ c. c.q ≤ most_q };
}

impl<'a> BoundContact<'a> {
    /// A contact with this URI, whose key that is, at a q of at most one, in thousandths, which is reached by this hop.
    pub fn new(uri: &'a [u8], key: &'a [u8], q: u16, hop: Hop) -> BoundContact<'a>
        requires { q ≤ most_q }
        ensures { result ≡ record { uri = uri.now; key = key.now; q = q; hop = hop } }
    {
        BoundContact { uri, key, q, hop }
    }
}
