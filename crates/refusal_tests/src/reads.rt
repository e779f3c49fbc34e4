//! URIs, contacts, messages and Via values that are read while memory is refused.
use crate::answers::{Judge, discard, judged};
use crate::plays::calls;
use crate::sources::{Alloc, REQUEST, Wanted, read, target};
use failing_allocator::{Attempt, Heap, Stateless};
use sip_uri::{Contact, SipUri, UriFault, read_contacts};
use sip_via::{Via, ViaFault};
use std::alloc::AllocError;

/// What is read.
#[derive(Clone, Copy)]
enum Reading {
    Uri,
    /// A URI as it stands in a request is made of one that was read.
    Requested,
    Contacts,
    Request,
    Via,
}

const VIA: &[u8] = b"SIP/2.0/UDP h.example:5062;branch=z9hG4bKa";

/// A value of Contact, with one contact that can be tried and one that cannot.
const CONTACTS: &[u8] = b"\"Bob, B\" <sip:bob@192.0.2.4>;q=0.5, <tel:+1555>";

impl<'a> Judge<'a, SipUri<Alloc<'a>>> for Reading {
    fn is_right(&self, _heap: Heap<'a>, uri: &SipUri<Alloc<'a>>) -> bool {
        uri.key() == b"bob@192.0.2.4:5062;transport=udp".as_slice()
    }
}

fn is_contact(contact: &Contact<Alloc<'_>>, text: &[u8], q: u16, can_be_tried: bool) -> bool {
    contact.text.as_slice() == text && contact.q == q && contact.uri.is_some() == can_be_tried
}

impl<'a> Judge<'a, Vec<Contact<Alloc<'a>>, Alloc<'a>>> for Reading {
    fn is_right(&self, _heap: Heap<'a>, contacts: &Vec<Contact<Alloc<'a>>, Alloc<'a>>) -> bool {
        match contacts.as_slice() {
            [first, second] => {
                is_contact(first, b"\"Bob, B\" <sip:bob@192.0.2.4>;q=0.5", 500, true)
                    && is_contact(second, b"<tel:+1555>", 1000, false)
            }
            _ => false,
        }
    }
}

impl<'a> Judge<'a, Via<Alloc<'a>>> for Reading {
    fn is_right(&self, _heap: Heap<'a>, via: &Via<Alloc<'a>>) -> bool {
        via.host() == b"h.example".as_slice() && via.port() == Some(5062)
    }
}

fn requested(heap: Heap<'_>) -> Attempt {
    let uri = target(heap.ample);
    let answer = match &uri {
        Ok(uri) => judged(
            heap,
            &Reading::Requested,
            uri.requested(heap.scarce),
            AllocError,
        ),
        Err(_) => Attempt::Wrong,
    };
    discard(uri);
    answer
}

impl Stateless for Reading {
    fn answer(&self, heap: Heap<'_>) -> Attempt {
        let alloc = heap.scarce;
        match self {
            Reading::Uri => judged(heap, self, target(alloc), Attempt::NoMemory),
            Reading::Requested => requested(heap),
            Reading::Contacts => {
                judged(
                    heap,
                    self,
                    read_contacts(alloc, CONTACTS),
                    UriFault::NoMemory,
                )
            }
            Reading::Request => {
                let wanted = Wanted { text: REQUEST };
                judged(heap, &wanted, read(alloc, REQUEST), Attempt::NoMemory)
            }
            Reading::Via => judged(heap, self, Via::read(alloc, VIA), ViaFault::NoMemory),
        }
    }
}

#[test]
fn texts_are_read(rt: HostRuntime) {
    calls(&rt, &Reading::Uri, 0, "a URI");
    calls(&rt, &Reading::Requested, 0, "a URI of a request");
    calls(&rt, &Reading::Contacts, 0, "contacts");
    calls(&rt, &Reading::Request, 0, "a request");
    calls(&rt, &Reading::Via, 0, "a Via value");
}
