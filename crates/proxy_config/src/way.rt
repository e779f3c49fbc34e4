//! By which hops targets outside of the domain are reached.
ghost use Rattle.std.specs.Prelude.{◌≡◌, fold, IfOk, List, ℕ, None, map};
ghost use Rattle.sip_uri.specs.declared.hop.Hop.{Hop};
ghost use Rattle.proxy_config.specs.Moment.{way_of};
ghost use Rattle.proxy_config.specs.Ways.{later_way};

use crate::bound_contact::BoundContact;
use sip_uri::Hop;
use std::alloc::{AllocError, Allocator, Global};
use std::marker::Model;

/// The hop by which requests reach a URI with this key (RFC 3261 section 16.6 step 7).
#[derive(Drop)]
pub struct Way<A: Allocator = Global> {
    key: Vec<u8, A>,
    hop: Hop,
}

impl<A: Allocator> Model for Way<A> {
    ghost use Rattle.proxy_config.specs.Setup as spec;

    ghost Value = { spec.Way };

    ghost view = { λ w. record { key = w.key.items; hop = w.hop } };
}

impl<A: Allocator> Way<A> {
    /// The way to a contact that is bound.
    fn to(alloc: A, contact: &BoundContact<'_>) -> Result<Way<A>, AllocError>
        ensures { IfOk result (λ way. way ≡ way_of contact.now) }
    {
        Ok(Way {
            key: Vec::from_slice(alloc, contact.key)?,
            hop: contact.hop,
        })
    }

    /// The hop of this way where it leads to a target with that key, and else the one before.
    fn hop_after(&self, key: &[u8], before: Option<Hop>) -> Option<Hop>
        ensures { result ≡ later_way key.now before self.now }
    {
        if self.key.as_slice() == key {
            Some(self.hop)
        } else {
            before
        }
    }
}

/// The hop of the last of the ways that lead to a target with that key.
pub(crate) fn last_way<A: Allocator>(ways: &[Way<A>], key: &[u8]) -> Option<Hop>
    ensures { result ≡ fold (later_way key.now) None ways.now }
{
    let mut found = None;
    for way in ways {
        found = way.hop_after(key, found);
    }
    found
}

/// The ways to contacts that are bound, in their order.
pub(crate) fn ways_to<A: Allocator + Clone>(
    alloc: &A,
    contacts: &[BoundContact<'_>],
) -> Result<Vec<Way<A>, A>, AllocError>
    ensures { IfOk result (λ ways. ways.items ≡ map way_of contacts.now) }
{
    let mut ways = Vec::with_capacity(alloc.clone()?, contacts.len())?;
    for contact in contacts {
        ways.push(Way::to(alloc.clone()?, contact)?)?;
    }
    Ok(ways)
}
