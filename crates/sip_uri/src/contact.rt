//! The contacts of a Contact header field (RFC 3261 section 20.10).

ghost use Rattle.std.specs.Prelude.{◌≡◌, ◌<◌, IfErr, IfOk, IfSome, Ok, Some, List, map, length, true};
ghost use Rattle.std.specs.List.{AllByRecursion, list_all};
ghost use Rattle.sip_lex.specs.declared.sheltered.Shelter.TheVariants.{QuotesAndAngles};
ghost use Rattle.sip_lex.specs.declared.sheltered.ShelterState.TheVariants.{Plain};
ghost use Rattle.sip_lex.specs.Cut.{seen_cut};
ghost use Rattle.sip_lex.specs.Sheltered.{cut_outside};
ghost use Rattle.sip_uri.specs.Contact.{ContactText, are_items, contact_of, contact_of_form, contacts_of, items_behind, takeable, seen_form};
ghost use Rattle.sip_uri.specs.Fault.{Gives, refusal};
ghost use Rattle.sip_uri.specs.Items.{AreItems, IsContact, texts};
ghost use Rattle.sip_uri.specs.Reading.{read_uri};
ghost use Rattle.sip_uri.specs.SeenContact.{view_contact, view_contacts};
ghost use Rattle.sip_lex.specs.Values.{is_line, is_value};

use crate::fault::UriFault;
use crate::form::{FULL_WEIGHT, are_contact_params, form_of, q_of};
use crate::uri::SipUri;
use sip_lex::{Shelter, cut_outside, is_closed, trim};
use std::alloc::{AllocError, Allocator};

/// One contact.
#[derive(Drop)]
pub struct Contact<A: Allocator> {
    /// The item as written, without the space round it.
    pub text: Vec<u8, A>,
    /// The weight of the contact, its `q`, in thousandths, 0 to 1000.
    pub q: u16,
    /// The URI of the contact, where it is a SIP URI with a next hop.
    pub uri: Option<SipUri<A>>,
}

/// The URI at an address, where it is a SIP URI with a next hop.
fn takeable<A: Allocator + Clone>(alloc: A, address: &[u8]) -> Result<Option<SipUri<A>>, AllocError>
    ensures { IfOk result (λ uri. uri ≡ takeable (read_uri address.now)) }
{
    match SipUri::read(alloc, address) {
        Ok(uri) => {
            if uri.next_hop().is_some() {
                Ok(Some(uri))
            } else {
                Ok(None)
            }
        }
        Err(UriFault::NoMemory) => Err(AllocError),
        Err(_) => Ok(None),
    }
}

fn contact_of_form<A: Allocator + Clone>(
    alloc: &A,
    item: &[u8],
    form: Option<(&[u8], Option<&[u8]>)>,
) -> Result<Contact<A>, AllocError>
    ensures { IfOk result
        (λ c. view_contact c ≡ contact_of_form item.now (seen_form form.entry)) }
{
    let text = Vec::from_slice(alloc.clone()?, item)?;
    let Some((address, params)) = form else {
        return Ok(Contact {
            text,
            q: FULL_WEIGHT,
            uri: None,
        });
    };
    if !are_contact_params(params) {
        return Ok(Contact {
            text,
            q: FULL_WEIGHT,
            uri: None,
        });
    }
    let uri = takeable(alloc.clone()?, address)?;
    Ok(Contact {
        text,
        q: q_of(params),
        uri,
    })
}

fn contact_of<A: Allocator + Clone>(alloc: &A, item: &[u8]) -> Result<Contact<A>, AllocError>
    ensures { IfOk result (λ c. view_contact c ≡ contact_of item.now) }
{
    contact_of_form(alloc, item, form_of(item))
}

/// The first item, and what stands behind its comma.
fn cut_item(text: &[u8]) -> (&[u8], Option<&[u8]>)
    ensures value { seen_cut result ≡ cut_outside QuotesAndAngles 44 Plain text.now }
    ensures shorter { IfSome result.1 (λ after. length after.now < length text.now) }
{
    cut_outside(text, b',', Shelter::QuotesAndAngles)
}

/// Whether no item is empty.
fn are_items(value: &[u8]) -> bool
    ensures { result ≡ are_items (items_behind (Some value.now)) }
{
    let mut rest = Some(value);
    while let Some(text) = rest {
        let (item, after) = cut_item(text);
        if trim(item).is_empty() {
            return false;
        }
        rest = after;
    }
    true
}

fn contacts_of<A: Allocator + Clone>(
    alloc: &A,
    value: &[u8],
) -> Result<Vec<Contact<A>, A>, AllocError>
    ensures { IfOk result
        (λ cs. view_contacts cs.items ≡ map contact_of (items_behind (Some value.now))) }
{
    let mut contacts = Vec::new(alloc.clone()?);
    let mut rest = Some(value);
    while let Some(text) = rest {
        let (item, after) = cut_item(text);
        contacts.push(contact_of(alloc, trim(item))?)?;
        rest = after;
    }
    Ok(contacts)
}

#[tactic(auto, unfolding(crate::specs::Contact::contacts_of))]
fn read_all<A: Allocator + Clone>(alloc: &A, value: &[u8]) -> Result<Vec<Contact<A>, A>, UriFault>
    ensures read { Gives (λ cs. view_contacts cs.items) result (contacts_of value.now) }
    ensures refused { IfErr result (λ fault. fault ≡ refusal (contacts_of value.now)) }
{
    if !is_closed(value, Shelter::QuotesAndAngles) || !are_items(value) {
        return Err(UriFault::BadText);
    }
    let contacts = contacts_of(alloc, value)?;
    Ok(contacts)
}

/// The contacts of a Contact value, in order.
///
/// # Errors
///
/// `BadText` where a quote or bracket is not closed, or an item between commas is empty; then
/// `NoMemory`. A contact that cannot be taken is no error: its `uri` is `None`.
pub fn read_contacts<A: Allocator + Clone>(
    alloc: A,
    value: &[u8],
) -> Result<Vec<Contact<A>, A>, UriFault>
    ensures items { IfOk result (λ cs. AreItems value.now (texts (view_contacts cs.items))) }
    ensures contacts { IfOk result (λ cs. AllByRecursion IsContact (view_contacts cs.items)) }
    ensures only { (contacts : List ContactText) → AreItems value.now (texts contacts)
        → AllByRecursion IsContact contacts
        → Gives (λ cs. view_contacts cs.items) result (Ok contacts) }
    ensures exact { Gives (λ cs. view_contacts cs.items) result (contacts_of value.now) }
    // a fault of the value comes before want of memory
    ensures refused { IfErr result (λ fault. fault ≡ refusal (contacts_of value.now)) }
    ensures values { is_line value.now ≡ true
        → IfOk result (λ cs. list_all is_value (texts (view_contacts cs.items)) ≡ true) }
{
    read_all(&alloc, value)
}
