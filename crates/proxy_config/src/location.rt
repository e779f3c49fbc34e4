//! Where a user may be reached.
ghost use Rattle.std.specs.Prelude.{◌≡◌, ◌≤◌, IfOk};
ghost use Rattle.fork_rank.specs.Field.{most_q};
ghost use Rattle.proxy_config.specs.Moment.{as_requested, bound_location};
ghost use Rattle.proxy_config.specs.Setup.{hop_or_that_of, location_key, next_hop, with_longest};

use crate::bound_contact::BoundContact;
use crate::target_key::{own_key, own_key_if_any};
use sip_uri::{Hop, SipUri};
use std::alloc::{AllocError, Allocator, Global};
use std::marker::Model;

/// How long a branch rings at most where nothing says less, in milliseconds: timer C, which has to run for more than 3
/// minutes (RFC 3261 section 16.6 step 11).
pub(crate) const USUAL_LONGEST: u64 = 181_000;

/// Where a user of the domain may be reached (RFC 3261 section 16.5).
#[derive(Drop)]
pub struct Location<A: Allocator = Global> {
    user: Vec<u8, A>,
    q: u16,
    uri: SipUri<A>,
    hop: Option<Hop>,
    /// The hop that requests to it go by: its own, or else that of its URI.
    next_hop: Option<Hop>,
    /// Its key, where that is not the one of its URI.
    own_key: Option<Vec<u8, A>>,
    longest: u64,
}

impl<A: Allocator> Model for Location<A> {
    ghost use Rattle.std.specs.Prelude.{◌≡◌, ◌≤◌};
    ghost use Rattle.fork_rank.specs.Field.{most_q};
    ghost use Rattle.proxy_config.specs.Setup as spec;
    ghost use Rattle.proxy_config.specs.inner.OwnKey.{key_or};

    ghost Value = { spec.Location };

    ghost view = { λ l. record { user = l.user.items; q = l.q; uri = l.uri; hop = l.hop; longest = l.longest } };

    ghost invariant = { λ l. record {
      q : l.q ≤ most_q;
      next_hop : l.next_hop ≡ spec.hop_or_that_of l.hop l.uri;
      key : key_or l.own_key l.uri ≡ spec.target_key l.uri l.hop;
    } };
}

/// The hop that a request to this URI goes by: this one, if there is one, or else that of the URI (RFC 3261 section 16.6 step 7).
fn hop_or_that_of<A: Allocator + Clone>(hop: Option<Hop>, uri: &SipUri<A>) -> Option<Hop>
    ensures { result ≡ hop_or_that_of hop uri.now }
{
    match hop {
        Some(hop) => Some(hop),
        None => uri.next_hop(),
    }
}

impl<A: Allocator> Location<A> {
    /// A branch to the location rings so long at most where it has the usual longest time.
    pub(crate) fn ring(&mut self, longest: u64)
        ensures { self.new ≡ with_longest longest self.old }
    {
        if self.longest == USUAL_LONGEST {
            self.longest = longest;
        }
    }

    /// The user, as it stands before the `@` of a request's URI (RFC 3261 section 19.1.1).
    pub fn user(&self) -> &[u8]
        ensures { result.now ≡ self.now.user }
    {
        &self.user
    }

    /// The q of the location, in thousandths, 0 to 1000: those of a user with the greatest are tried first.
    pub fn q(&self) -> u16
        ensures value { result ≡ self.now.q }
        ensures most { result ≤ most_q }
    {
        self.q
    }

    /// The target of a request to the user.
    pub fn uri(&self) -> &SipUri<A>
        ensures { result.now ≡ self.now.uri }
    {
        &self.uri
    }

    /// How long a branch to the location rings at most, in milliseconds: then timer C fires (RFC 3261 section 16.6 step 11).
    pub fn longest(&self) -> u64
        ensures { result ≡ self.now.longest }
    {
        self.longest
    }
}

impl<A: Allocator + Clone> Location<A> {
    /// Where this user may be reached, at a q of at most one: by the hop of the URI, for so many milliseconds at most. The hop is
    /// read here, and not with each request.
    pub(crate) fn new(user: Vec<u8, A>, q: u16, uri: SipUri<A>, longest: u64) -> Self
        requires { q ≤ most_q }
        ensures { result ≡ record { user = user.items; q = q; uri = uri; hop = None; longest = longest } }
    {
        let next_hop = uri.next_hop();
        Location {
            user,
            q,
            uri,
            hop: None,
            next_hop,
            own_key: None,
            longest,
        }
    }

    /// The hop that a request to the location goes by: its own, if it has one, or else that of its URI (RFC 3261 section 16.6
    /// step 7).
    pub fn next_hop(&self) -> Option<Hop>
        ensures { result ≡ next_hop self.now }
    {
        self.next_hop
    }

    /// The bytes that tell the location from the other targets of a request (RFC 3261 section 16.5): the key of its URI, and,
    /// where its hop is another one than the URI's own, a line feed with the address and the port behind it.
    pub fn key(&self) -> &[u8]
        ensures { result.now ≡ location_key self.now }
    {
        match &self.own_key {
            None => self.uri.key(),
            Some(key) => key.as_slice(),
        }
    }

    /// Where a user may be reached by a contact that is bound to the user, whose URI that is, for so many milliseconds at most.
    pub(crate) fn bound(
        alloc: A,
        user: &[u8],
        longest: u64,
        contact: &BoundContact<'_>,
        uri: SipUri<A>,
    ) -> Result<Location<A>, AllocError>
        ensures { IfOk result (λ location. location ≡ bound_location user.now longest contact.now uri) }
    {
        let own_key = own_key(alloc.clone()?, &uri, contact.hop)?;
        let user = Vec::from_slice(alloc, user)?;
        Ok(Location {
            user,
            q: contact.q,
            uri,
            hop: Some(contact.hop),
            next_hop: Some(contact.hop),
            own_key,
            longest,
        })
    }

    /// The same location, with its URI as that stands in a request (RFC 3261 section 19.1.1).
    pub(crate) fn requested(&self, alloc: &A) -> Result<Location<A>, AllocError>
        ensures { IfOk result (λ copy. copy ≡ as_requested self.now) }
    {
        let user = Vec::from_slice(alloc.clone()?, &self.user)?;
        let uri = self.uri.requested(alloc.clone()?)?;
        let next_hop = hop_or_that_of(self.hop, &uri);
        let own_key = own_key_if_any(alloc.clone()?, &uri, self.hop)?;
        Ok(Location {
            user,
            q: self.q,
            uri,
            hop: self.hop,
            next_hop,
            own_key,
            longest: self.longest,
        })
    }
}
