//! A contact of a REGISTER request, read.

use bindings::{ContactParts, RegisterContact};
use sip_uri::{Hop, SipUri};
use std::alloc::{Allocator, Global};
use std::marker::Model;

/// What a contact of a REGISTER request asks for.
#[derive(Drop)]
pub(crate) struct AskedContact<'a, A: Allocator = Global> {
    /// All of it but its `expires` parameters.
    pub item: Vec<u8, A>,
    pub address: &'a [u8],
    pub uri: SipUri<A>,
    pub q: u16,
    pub instance: Option<&'a [u8]>,
    pub reg_id: Option<&'a [u8]>,
    pub hop: Hop,
    pub time: u32,
}

impl<'a, A: Allocator> Model for AskedContact<'a, A> {
    ghost use Rattle.std.specs.Option.{option_copied};
    ghost use Rattle.sip_uri.specs.Key.{key_of};
    ghost use Rattle.bindings.specs.Bindings as spec;

    ghost Value = { spec.Asked };

    ghost view = { λ a. record {
      contact = record {
        item = a.item.items;
        uri = a.address.now;
        key = key_of a.uri;
        q = a.q;
        instance = option_copied a.instance;
        reg_id = option_copied a.reg_id;
        hop = a.hop;
      };
      time = a.time;
    } };
}

impl<A: Allocator + Clone> AskedContact<'_, A> {
    ghost use Rattle.std.specs.Prelude.{◌≡◌};
    ghost use Rattle.bindings.specs.Seen.{asked_of};

    /// The contact, as `bindings` takes it.
    pub(crate) fn as_contact(&self) -> RegisterContact<'_>
        ensures { asked_of result ≡ self.now }
    {
        RegisterContact {
            parts: ContactParts {
                item: &self.item,
                uri: self.address,
                key: self.uri.key(),
                q: self.q,
                instance: self.instance,
                reg_id: self.reg_id,
                hop: self.hop,
            },
            time: self.time,
        }
    }
}
