//! The contacts that are bound to a user.
ghost use Rattle.std.specs.Prelude.{◌≡◌, IfOk, map};
ghost use Rattle.bindings.specs.Bindings.{there};
ghost use Rattle.service_decisions.specs.Targets.{bound_contact};

use bindings::{Binding, UserBindings};
use proxy_config::BoundContact;
use std::alloc::{AllocError, Allocator};

/// A q of one, in thousandths.
pub(crate) const MOST_Q: u16 = 1_000;

/// The contact of a binding, at a q of at most one.
fn contact_of<A: Allocator>(binding: &Binding<A>) -> BoundContact<'_>
    ensures { result ≡ bound_contact binding.now }
{
    let contact = binding.contact();
    BoundContact::new(contact.uri, contact.key, contact.q.min(MOST_Q), contact.hop)
}

/// The contacts of a user that are there at this moment, in their order (RFC 3261 section 10.3).
///
/// # Errors
///
/// Only where the allocator refuses.
pub fn contacts_of<'a, A: Allocator, B: Allocator>(
    alloc: B,
    bindings: &'a UserBindings<A>,
    moment: u64,
) -> Result<Vec<BoundContact<'a>, B>, AllocError>
    ensures { IfOk result (λ contacts. contacts.items ≡ map bound_contact (there moment bindings.entry.now)) }
{
    let mut contacts = Vec::new(alloc);
    let mut there = bindings.at(moment);
    while let Some(binding) = there.next() {
        contacts.push(contact_of(binding))?;
    }
    Ok(contacts)
}
