//! The contacts of a REGISTER request, all together.
ghost use Rattle.std.specs.Prelude.{◌≡◌, ◌++◌, IfOk, OnOk, Some, codes};
ghost use Rattle.std.specs.List.{list_all};
ghost use Rattle.std.specs.Option.{option_map};
ghost use Rattle.sip_uri.specs.Contact.{items_behind};
ghost use Rattle.sip_text.specs.Name.{values_of};
ghost use Rattle.registrar.specs.Contact.{asked_of};
ghost use Rattle.registrar.specs.Contacts.{all_asked, are_star, contacts_of, contacts_of_items, is_readable, items_of};
ghost use Rattle.registrar.specs.Pushed.{IsPushed};
ghost use Rattle.registrar.specs.SeenContacts.{seen_contacts, view_items};
ghost use Rattle.registrar.specs.SeenTerms.{seen_terms};

use crate::asked::AskedContact;
use crate::contact::{ContactTerms, asked_of};
use crate::items::{Items, is_readable, is_star};
use sip_text::Message;
use std::alloc::{AllocError, Allocator, Global};

/// The contacts of a REGISTER request.
#[derive(Drop)]
pub(crate) enum Contacts<'a, A: Allocator = Global> {
    /// A Contact line that cannot be read, a contact that cannot be bound, or `*` beside anything.
    Malformed,
    /// `*`, with the seconds of Expires.
    Star(u32),
    Listed(Vec<AskedContact<'a, A>, A>),
}

/// Whether each Contact line can be read.
fn are_readable<M: Allocator>(message: &Message<M>) -> bool
    ensures { result ≡ list_all is_readable (values_of (codes "contact") message.now.headers) }
{
    let mut lines = message.values(b"contact");
    while let Some(line) = lines.next() {
        if !is_readable(line) {
            return false;
        }
    }
    true
}

/// Appends the items of a line.
fn append_items<'a, A: Allocator>(
    items: &mut Vec<&'a [u8], A>,
    line: &'a [u8],
) -> Result<(), AllocError>
    ensures { OnOk result (view_items items.new.items ≡ view_items items.old.items ++ items_behind (Some line.entry.now)) }
{
    let mut rest = Items::of(line);
    while let Some(item) = rest.next() {
        items.push(item)?;
    }
    Ok(())
}

/// The items of all Contact lines, in order.
fn items_of<'a, M: Allocator, A: Allocator>(
    alloc: A,
    message: &'a Message<M>,
) -> Result<Vec<&'a [u8], A>, AllocError>
    ensures { IfOk result (λ items. view_items items.items ≡ items_of (values_of (codes "contact") message.now.headers)) }
{
    let mut items = Vec::new(alloc);
    let mut lines = message.values(b"contact");
    while let Some(line) = lines.next() {
        append_items(&mut items, line)?;
    }
    Ok(items)
}

/// Whether `*` is there alone.
fn are_star(items: &[&[u8]]) -> bool
    ensures { result ≡ are_star (view_items items.now) }
{
    match items {
        [item] => is_star(item),
        _ => false,
    }
}

/// Appends what a contact asks for, and says whether it asks for anything that can be done.
fn push_asked<'a, A: Allocator + Clone>(
    alloc: &A,
    terms: &ContactTerms<'_>,
    item: &'a [u8],
    all: &mut Vec<AskedContact<'a, A>, A>,
) -> Result<bool, AllocError>
    ensures { IfOk result (λ asks. IsPushed asks (asked_of (seen_terms terms.now) item.entry.now) all.old.items all.new.items) }
{
    match asked_of(alloc, terms, item)? {
        None => Ok(false),
        Some(asked) => {
            all.push(asked)?;
            Ok(true)
        }
    }
}

/// What each of some contacts asks for; nothing where one asks for nothing that can be done.
#[tactic(auto, using(crate::proofs::ContactLists::ended))]
fn all_asked<'a, A: Allocator + Clone>(
    alloc: &A,
    terms: &ContactTerms<'_>,
    items: &[&'a [u8]],
) -> Result<Option<Vec<AskedContact<'a, A>, A>>, AllocError>
    ensures { IfOk result (λ asked. option_map (λ v. v.items) asked ≡ all_asked (seen_terms terms.now) (view_items items.now)) }
{
    let mut all = Vec::new(alloc.clone()?);
    for item in items {
        if !push_asked(alloc, terms, item, &mut all)? {
            return Ok(None);
        }
    }
    Ok(Some(all))
}

/// The contacts of these items.
fn contacts_of_items<'a, A: Allocator + Clone>(
    alloc: &A,
    terms: &ContactTerms<'_>,
    items: &[&'a [u8]],
) -> Result<Contacts<'a, A>, AllocError>
    ensures { IfOk result (λ contacts. seen_contacts contacts ≡ contacts_of_items (seen_terms terms.now) (view_items items.now)) }
{
    if are_star(items) {
        return Ok(Contacts::Star(terms.expirations.time_by(None, terms.expires)));
    }
    match all_asked(alloc, terms, items)? {
        None => Ok(Contacts::Malformed),
        Some(contacts) => Ok(Contacts::Listed(contacts)),
    }
}

/// The contacts of a REGISTER request (RFC 3261 section 10.3 step 6).
///
/// # Errors
///
/// Only where the allocator refuses.
pub(crate) fn contacts_of<'a, M: Allocator, A: Allocator + Clone>(
    alloc: &A,
    terms: &ContactTerms<'_>,
    message: &'a Message<M>,
) -> Result<Contacts<'a, A>, AllocError>
    ensures { IfOk result (λ contacts. seen_contacts contacts ≡ contacts_of (seen_terms terms.now) (values_of (codes "contact") message.now.headers)) }
{
    if !are_readable(message) {
        return Ok(Contacts::Malformed);
    }
    let items = items_of(alloc.clone()?, message)?;
    contacts_of_items(alloc, terms, &items)
}
