//! The contacts of a 3xx, as they are offered to the fork.
ghost use Rattle.std.specs.Prelude.{◌≡◌, ◌≤◌, ◌++◌, ◌∷◌, [], map, None, IfOk, OnOk, option_copied};
ghost use Rattle.std.specs.List.{AllByRecursion, flat_map};
ghost use Rattle.std.specs.Option.{option_and_then, option_map};
ghost use Rattle.fork_model.specs.Range.{most_q};
ghost use Rattle.sip_uri.specs.Key.{key_of};
ghost use Rattle.sip_uri.specs.SeenContact.{view_contact, view_contacts};
ghost use Rattle.call_model.specs.OpenedRequest.{destination_to};
ghost use Rattle.call_model.specs.Posting.{destination_of_contact};
ghost use Rattle.call_model.specs.Response.{contact_for, contacts_at, contacts_by, contacts_for, contacts_in, is_over_udp, offer_of, tried_uri};

use call_branch::{Destination, OpenedRequest, is_redirection};
use call_model::TriedContacts;
use fork_context::Offer;
use sip_text::{HeaderValues, Message};
use sip_uri::{Contact, SipUri, Transport, UriFault, read_contacts};
use std::alloc::{AllocError, Allocator};

/// The q of a contact that cannot be read.
const FULL_WEIGHT: u16 = 1000;

/// Contacts as the fork is offered them, and for each where its request goes, where it may be tried.
#[derive(Drop)]
pub(crate) struct Offered<A: Allocator> {
    pub(crate) offers: Vec<Offer<A>, A>,
    pub(crate) destinations: Vec<Option<Destination<A>>, A>,
}

// ---- reading

/// A value that cannot be read, as one contact, which cannot be tried.
fn unread<A: Allocator + Clone>(alloc: &A, value: &[u8]) -> Result<Vec<Contact<A>, A>, AllocError>
    ensures { IfOk result (λ cs. view_contacts cs.items ≡ record { text = value.now; q = 1000; uri = None } ∷ []) }
{
    let mut contacts = Vec::with_capacity(alloc.clone()?, 1)?;
    contacts.push(Contact {
        text: Vec::from_slice(alloc.clone()?, value)?,
        q: FULL_WEIGHT,
        uri: None,
    })?;
    Ok(contacts)
}

/// The contacts of a Contact value.
fn contacts_at<A: Allocator + Clone>(
    alloc: &A,
    value: &[u8],
) -> Result<Vec<Contact<A>, A>, AllocError>
    ensures { IfOk result (λ cs. view_contacts cs.items ≡ contacts_at value.now) }
{
    match read_contacts(alloc.clone()?, value) {
        Ok(contacts) => Ok(contacts),
        Err(UriFault::NoMemory) => Err(AllocError),
        Err(UriFault::NotSip | UriFault::BadHost | UriFault::BadPort | UriFault::BadText) => {
            unread(alloc, value)
        }
    }
}

/// Adds the contacts of one more value.
fn add_contacts<A: Allocator + Clone>(
    contacts: &mut Vec<Contact<A>, A>,
    alloc: &A,
    value: &[u8],
) -> Result<(), AllocError>
    ensures { OnOk result (view_contacts contacts.new.items ≡ view_contacts contacts.old.items ++ contacts_at value.now) }
{
    let mut more = contacts_at(alloc, value)?;
    contacts.append(&mut more)
}

/// Adds the contacts of the values left.
fn add_each<A: Allocator + Clone>(
    contacts: &mut Vec<Contact<A>, A>,
    alloc: &A,
    mut values: HeaderValues<'_, '_>,
) -> Result<(), AllocError>
    ensures { OnOk result (view_contacts contacts.new.items ≡ view_contacts contacts.old.items ++ flat_map contacts_at values.entry) }
{
    while let Some(value) = values.next() {
        add_contacts(contacts, alloc, value)?;
    }
    Ok(())
}

/// The contacts of a message, in order.
fn contacts_in<A: Allocator + Clone>(
    alloc: &A,
    message: &Message<A>,
) -> Result<Vec<Contact<A>, A>, AllocError>
    ensures { IfOk result (λ cs. view_contacts cs.items ≡ contacts_in message.now) }
{
    let mut contacts = Vec::new(alloc.clone()?);
    add_each(&mut contacts, alloc, message.values(b"contact"))?;
    Ok(contacts)
}

/// The contacts of a response that count.
fn contacts_by<A: Allocator + Clone>(
    alloc: &A,
    status: u16,
    message: &Message<A>,
) -> Result<Vec<Contact<A>, A>, AllocError>
    ensures { IfOk result (λ cs. view_contacts cs.items ≡ contacts_by status message.now) }
{
    if is_redirection(status) {
        contacts_in(alloc, message)
    } else {
        Ok(Vec::new(alloc.clone()?))
    }
}

// ---- offering

/// Whether a URI leads to a hop over UDP.
fn is_over_udp<A: Allocator + Clone>(uri: &SipUri<A>) -> bool
    ensures { result ≡ is_over_udp uri.now }
{
    match uri.next_hop() {
        Some(hop) => hop.transport == Transport::Udp,
        None => false,
    }
}

/// The URI of a contact, where it may be tried.
fn tried_uri<A: Allocator + Clone>(
    tried: TriedContacts,
    uri: Option<SipUri<A>>,
) -> Option<SipUri<A>>
    ensures { result ≡ tried_uri tried uri }
{
    match tried {
        TriedContacts::NoContacts => None,
        TriedContacts::OverUdp => {
            let uri = uri?;
            if is_over_udp(&uri) { Some(uri) } else { None }
        }
        TriedContacts::Every => uri,
    }
}

/// Where the request to a URI goes: by the first Route value, if there is one, else by the URI (RFC 3261 section 16.6
/// steps 6 and 7), over a connection where it is too large for a datagram; and how long its branch may take.
fn destination_of<A: Allocator + Clone>(
    opened: &OpenedRequest<A>,
    uri: Option<SipUri<A>>,
) -> Option<Destination<A>>
    ensures { result ≡ option_and_then (destination_to opened.now) uri }
{
    let uri = uri?;
    let hop = match opened.route() {
        Some(hop) => hop,
        None => uri.next_hop()?,
    };
    Some(Destination::new(uri, opened.sized_hop(hop), opened.ring()))
}

/// The key of a contact that may be tried.
fn key_of<A: Allocator + Clone>(
    alloc: &A,
    uri: Option<&SipUri<A>>,
) -> Result<Option<Vec<u8, A>>, AllocError>
    ensures { IfOk result (λ key. option_map (λ v. v.items) key ≡ option_map key_of (option_copied uri.entry)) }
{
    match uri {
        Some(uri) => Ok(Some(Vec::from_slice(alloc.clone()?, uri.key())?)),
        None => Ok(None),
    }
}

impl<A: Allocator + Clone> Offered<A> {
    /// Adds a contact, which may be tried only where the call tries such (RFC 3261 section 16.5).
    fn push(
        &mut self,
        alloc: &A,
        opened: &OpenedRequest<A>,
        contact: Contact<A>,
    ) -> Result<(), AllocError>
        requires { contact.q ≤ most_q }
        ensures offers { OnOk result (self.new.offers.items ≡ self.old.offers.items ++ offer_of (contact_for opened.now.tried (view_contact contact)) ∷ []) }
        ensures destinations { OnOk result (self.new.destinations.items ≡ self.old.destinations.items ++ destination_of_contact opened.now (contact_for opened.now.tried (view_contact contact)) ∷ []) }
    {
        let Contact { text, q, uri } = contact;
        let uri = tried_uri(opened.tried(), uri);
        let key = key_of(alloc, uri.as_ref())?;
        self.offers.push(Offer::new(text, q, key))?;
        self.destinations.push(destination_of(opened, uri))?;
        Ok(())
    }
}

/// Contacts as they are offered to the fork of a call.
fn offers_of<A: Allocator + Clone>(
    alloc: &A,
    opened: &OpenedRequest<A>,
    contacts: Vec<Contact<A>, A>,
) -> Result<Offered<A>, AllocError>
    requires { AllByRecursion (λ c. c.q ≤ most_q) (view_contacts contacts.items) }
    ensures offers { IfOk result (λ o. o.offers.items ≡ map offer_of (map (contact_for opened.now.tried) (view_contacts contacts.items))) }
    ensures destinations { IfOk result (λ o. o.destinations.items ≡ map (destination_of_contact opened.now) (map (contact_for opened.now.tried) (view_contacts contacts.items))) }
{
    let mut made = Offered {
        offers: Vec::with_capacity(alloc.clone()?, contacts.len())?,
        destinations: Vec::with_capacity(alloc.clone()?, contacts.len())?,
    };
    for contact in contacts {
        made.push(alloc, opened, contact)?;
    }
    Ok(made)
}

/// The contacts of a response that count, offered to the fork of a call: each with the URI and the hop of its request,
/// where it may be tried, as none may where the proxy is not responsible for the Request-URI of the call (RFC 3261 sections
/// 16.5 and 16.6).
pub(crate) fn offered_by<A: Allocator + Clone>(
    alloc: &A,
    opened: &OpenedRequest<A>,
    status: u16,
    message: &Message<A>,
) -> Result<Offered<A>, AllocError>
    ensures offers { IfOk result (λ o. o.offers.items ≡ map offer_of (contacts_for opened.now.tried status message.now)) }
    ensures destinations { IfOk result (λ o. o.destinations.items ≡ map (destination_of_contact opened.now) (contacts_for opened.now.tried status message.now)) }
{
    let contacts = contacts_by(alloc, status, message)?;
    offers_of(alloc, opened, contacts)
}
