//! Where the request to a target goes.
ghost use Rattle.std.specs.Prelude.{◌≡◌};

use sip_uri::{Hop, SipUri};
use std::alloc::{Allocator, Global};
use std::marker::Model;

/// Where the request to a target goes: its URI, and the hop that leads there (RFC 3261 section 16.6); and how long its branch
/// may take.
#[derive(Drop)]
pub struct Destination<A: Allocator = Global> {
    uri: SipUri<A>,
    hop: Hop,
    longest: u64,
}

impl<A: Allocator> Model for Destination<A> {
    ghost use Rattle.call_model.specs.OpenedRequest as spec;

    ghost Value = { spec.Destination };

    ghost view = { λ w. record { uri = w.uri; hop = w.hop; longest = w.longest } };
}

impl<A: Allocator> Destination<A> {
    /// The destination of a target with this URI by this hop, and the longest time of its branch in milliseconds.
    ///
    /// The hop is that of the first Route value where the request has one, else that of the target.
    pub fn new(uri: SipUri<A>, hop: Hop, longest: u64) -> Self
        ensures { result ≡ record { uri = uri; hop = hop; longest = longest } }
    {
        Destination { uri, hop, longest }
    }

    pub(crate) fn uri(&self) -> &SipUri<A>
        ensures { result.now ≡ self.now.uri }
    {
        &self.uri
    }

    /// The hop that leads to the target.
    pub fn hop(&self) -> Hop
        ensures { result ≡ self.now.hop }
    {
        self.hop
    }

    /// The longest time of the branch to the target, in milliseconds (RFC 3261 section 16.6 step 11).
    pub fn longest(&self) -> u64
        ensures { result ≡ self.now.longest }
    {
        self.longest
    }
}
