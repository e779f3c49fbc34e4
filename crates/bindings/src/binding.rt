//! One binding.
ghost use Rattle.std.specs.Prelude.{◌≡◌, IfOk};
ghost use Rattle.std.specs.Option.{option_copied};
ghost use Rattle.bindings.specs.Bindings.{binding_of, ends_first, is_by, is_there, names};
ghost use Rattle.bindings.specs.Registering.{has_made, is_as_new};
ghost use Rattle.bindings.specs.Seen.{asked_of, contact_of, id_of, made_by_of, register_of};

use crate::contact::ContactParts;
use crate::request::{MadeBy, RegisterContact, RegisterRequest};
use sip_uri::Hop;
use std::alloc::{AllocError, Allocator, Global};
use std::marker::Model;

/// The texts of a contact, and where a request to it is sent.
#[derive(Drop)]
struct OwnedContact<A: Allocator = Global> {
    item: Vec<u8, A>,
    uri: Vec<u8, A>,
    key: Vec<u8, A>,
    q: u16,
    instance: OwnedParam<A>,
    reg_id: OwnedParam<A>,
    hop: Hop,
}

/// The value of a parameter, if it is there.
#[derive(Drop)]
struct OwnedParam<A: Allocator = Global> {
    value: Option<Vec<u8, A>>,
}

/// Which request made a binding.
#[derive(Drop)]
struct OwnedId<A: Allocator = Global> {
    call_id: Vec<u8, A>,
    cseq: u32,
    key: Vec<u8, A>,
}

impl<A: Allocator> Model for OwnedParam<A> {
    ghost use Rattle.std.specs.Prelude.{ℕ, List, Option, option_map};

    ghost Value = { Option (List ℕ) };

    ghost view = { λ p. option_map (λ v. v.items) p.value };
}

impl<A: Allocator> Model for OwnedContact<A> {
    ghost use Rattle.bindings.specs.Bindings as spec;

    ghost Value = { spec.Contact };

    ghost view = { λ c. record {
      item = c.item.items;
      uri = c.uri.items;
      key = c.key.items;
      q = c.q;
      instance = c.instance;
      reg_id = c.reg_id;
      hop = c.hop;
    } };
}

impl<A: Allocator> Model for OwnedId<A> {
    ghost use Rattle.bindings.specs.Bindings as spec;

    ghost Value = { spec.RequestId };

    ghost view = { λ i. record {
      call_id = i.call_id.items;
      cseq = i.cseq;
      key = i.key.items;
    } };
}

/// A contact at which a user may be reached until a moment (RFC 3261 section 10.3).
#[derive(Drop)]
pub struct Binding<A: Allocator = Global> {
    contact: OwnedContact<A>,
    ends: u64,
    by: OwnedId<A>,
}

impl<A: Allocator> Model for Binding<A> {
    ghost use Rattle.bindings.specs.Bindings as spec;

    ghost Value = { spec.Binding };

    ghost view = { λ b. record {
      contact = b.contact;
      ends = b.ends;
      by = b.by;
    } };
}

impl<A: Allocator + Clone> OwnedParam<A> {
    fn of(alloc: A, value: Option<&[u8]>) -> Result<OwnedParam<A>, AllocError>
        ensures { IfOk result (λ p. p ≡ option_copied value.entry) }
    {
        match value {
            None => Ok(OwnedParam { value: None }),
            Some(value) => {
                let value = Vec::from_slice(alloc, value)?;
                Ok(OwnedParam { value: Some(value) })
            }
        }
    }
}

impl<A: Allocator> OwnedParam<A> {
    fn value(&self) -> Option<&[u8]>
        ensures { option_copied result ≡ self.now }
    {
        match &self.value {
            None => None,
            Some(value) => Some(value.as_slice()),
        }
    }
}

impl<A: Allocator + Clone> OwnedContact<A> {
    fn of(alloc: A, parts: &ContactParts<'_>) -> Result<OwnedContact<A>, AllocError>
        ensures { IfOk result (λ c. c ≡ contact_of parts.now) }
    {
        let item = Vec::from_slice(alloc.clone()?, parts.item)?;
        let uri = Vec::from_slice(alloc.clone()?, parts.uri)?;
        let key = Vec::from_slice(alloc.clone()?, parts.key)?;
        let instance = OwnedParam::of(alloc.clone()?, parts.instance)?;
        let reg_id = OwnedParam::of(alloc, parts.reg_id)?;
        Ok(OwnedContact {
            item,
            uri,
            key,
            q: parts.q,
            instance,
            reg_id,
            hop: parts.hop,
        })
    }
}

impl<A: Allocator + Clone> OwnedId<A> {
    fn of(alloc: A, request: &RegisterRequest<'_>) -> Result<OwnedId<A>, AllocError>
        ensures { IfOk result (λ i. i ≡ id_of request.now) }
    {
        let call_id = Vec::from_slice(alloc.clone()?, request.call_id)?;
        let key = Vec::from_slice(alloc, request.key)?;
        Ok(OwnedId {
            call_id,
            cseq: request.cseq,
            key,
        })
    }
}

impl<A: Allocator + Clone> OwnedId<A> {
    fn made_by(alloc: A, by: &MadeBy<'_>) -> Result<OwnedId<A>, AllocError>
        ensures { IfOk result (λ i. i ≡ made_by_of by.now) }
    {
        let call_id = Vec::from_slice(alloc.clone()?, by.call_id)?;
        let key = Vec::from_slice(alloc, by.key)?;
        Ok(OwnedId {
            call_id,
            cseq: by.cseq,
            key,
        })
    }

    /// The same, with texts of its own.
    fn copied(&self, alloc: A) -> Result<OwnedId<A>, AllocError>
        ensures { IfOk result (λ i. i ≡ self.now) }
    {
        let call_id = Vec::from_slice(alloc.clone()?, &self.call_id)?;
        let key = Vec::from_slice(alloc, &self.key)?;
        Ok(OwnedId {
            call_id,
            cseq: self.cseq,
            key,
        })
    }
}

impl<A: Allocator + Clone> Binding<A> {
    /// The same, with texts of its own.
    pub(crate) fn copied(&self, alloc: A) -> Result<Binding<A>, AllocError>
        ensures { IfOk result (λ b. b ≡ self.now) }
    {
        let contact = OwnedContact::of(alloc.clone()?, &self.contact())?;
        let by = self.by.copied(alloc)?;
        Ok(Binding {
            contact,
            ends: self.ends,
            by,
        })
    }

    /// A binding of which all is given: for a caller who reads back what was kept of it.
    ///
    /// # Errors
    ///
    /// Only where the allocator refuses.
    pub fn kept(
        alloc: A,
        contact: &ContactParts<'_>,
        ends: u64,
        by: &MadeBy<'_>,
    ) -> Result<Binding<A>, AllocError>
        ensures { IfOk result (λ b. b ≡ record { contact = contact_of contact.now; ends = ends; by = made_by_of by.now }) }
    {
        let contact = OwnedContact::of(alloc.clone()?, contact)?;
        let by = OwnedId::made_by(alloc, by)?;
        Ok(Binding { contact, ends, by })
    }

    /// The binding that a contact of a request asks for.
    pub(crate) fn of(
        alloc: A,
        request: &RegisterRequest<'_>,
        asked: &RegisterContact<'_>,
    ) -> Result<Binding<A>, AllocError>
        ensures { IfOk result (λ b. b ≡ binding_of (register_of request.now) (asked_of asked.now)) }
    {
        let contact = OwnedContact::of(alloc.clone()?, &asked.parts)?;
        let by = OwnedId::of(alloc, request)?;
        let ends = request.at.saturating_add(1000 * u64::from(asked.time));
        Ok(Binding { contact, ends, by })
    }
}

impl<A: Allocator> Binding<A> {
    /// Its contact.
    pub fn contact(&self) -> ContactParts<'_>
        ensures { contact_of result ≡ self.now.contact }
    {
        let contact = &self.contact;
        ContactParts {
            item: &contact.item,
            uri: &contact.uri,
            key: &contact.key,
            q: contact.q,
            instance: contact.instance.value(),
            reg_id: contact.reg_id.value(),
            hop: contact.hop,
        }
    }

    /// The millisecond from which on it is not there.
    pub fn ends(&self) -> u64
        ensures { result ≡ self.now.ends }
    {
        self.ends
    }

    /// The request that made it.
    pub fn made_by(&self) -> MadeBy<'_>
        ensures { made_by_of result ≡ self.now.by }
    {
        MadeBy {
            call_id: &self.by.call_id,
            cseq: self.by.cseq,
            key: &self.by.key,
        }
    }

    /// Whether it is there at a moment: before its end.
    pub fn is_there(&self, moment: u64) -> bool
        ensures { result ≡ is_there moment self.now }
    {
        moment < self.ends
    }

    /// Whether a contact names it.
    pub(crate) fn is_named(&self, contact: &ContactParts<'_>) -> bool
        ensures { result ≡ names (contact_of contact.now) self.now }
    {
        contact.is_same_binding(&self.contact())
    }

    /// Whether a request made it.
    pub(crate) fn is_by(&self, request: &RegisterRequest<'_>) -> bool
        ensures { result ≡ is_by (id_of request.now) self.now }
    {
        request.call_id == self.by.call_id.as_slice()
            && request.cseq == self.by.cseq
            && request.key == self.by.key.as_slice()
    }

    /// Whether it ends at this moment, and another request made it.
    pub(crate) fn ends_for_another(&self, request: &RegisterRequest<'_>, moment: u64) -> bool
        ensures { result ≡ ends_first (id_of request.now) (Some moment) self.now }
    {
        !self.is_by(request) && self.ends == moment
    }

    /// Whether a request of the same Call-ID made it with the same CSeq number or a higher one.
    pub(crate) fn is_as_new(&self, request: &RegisterRequest<'_>) -> bool
        ensures { result ≡ is_as_new (id_of request.now) self.now }
    {
        self.by.call_id.as_slice() == request.call_id && request.cseq <= self.by.cseq
    }

    /// Whether it is there as a request comes, and that request made it.
    pub(crate) fn has_made(&self, request: &RegisterRequest<'_>) -> bool
        ensures { result ≡ has_made (id_of request.now) request.now.at self.now }
    {
        self.is_there(request.at) && self.is_by(request)
    }
}
