//! The realm in which passwords are known.
ghost use Rattle.std.specs.Prelude.{◌≡◌};
ghost use Rattle.service_config.specs.RealmView.{realm_of};

use sip_digest::Algorithms;
use std::alloc::Allocator;
use std::marker::Model;

/// The realm in which passwords are known, and the algorithms of its challenges in their order (RFC 7616 section 3.3); lent by the
/// settings.
#[derive(Clone, Copy, Debug)]
pub struct Realm<'a> {
    pub text: &'a [u8],
    pub algorithms: Algorithms,
}

/// A realm with its own text.
#[derive(Drop)]
pub(crate) struct OwnRealm<A: Allocator> {
    text: Vec<u8, A>,
    algorithms: Algorithms,
}

impl<A: Allocator> Model for OwnRealm<A> {
    ghost use Rattle.service_config.specs.Settings as spec;

    ghost Value = { spec.Realm };

    ghost view = { λ r. record { text = r.text.items; algorithms = r.algorithms } };
}

impl<A: Allocator> OwnRealm<A> {
    pub(crate) fn new(text: Vec<u8, A>, algorithms: Algorithms) -> Self
        ensures { result ≡ record { text = text.items; algorithms = algorithms } }
    {
        OwnRealm { text, algorithms }
    }

    pub(crate) fn lent(&self) -> Realm<'_>
        ensures { realm_of result ≡ self.now }
    {
        Realm {
            text: &self.text,
            algorithms: self.algorithms,
        }
    }
}
