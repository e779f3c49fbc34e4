//! Contacts of a 3xx that become targets, and what is kept of the rows that come of them (RFC 3261 sections 16.5 to 16.7).
ghost use Rattle.std.specs.Prelude.{◌≡◌, [], length, map, unwrap_or, IfOk, OnOk};
ghost use Rattle.std.specs.List.{filter_map};
ghost use Rattle.context_values.specs.RowExtras.{contact_qs, row_extras_of, row_extras_at, with_row_extras_at};

use crate::offer::Offer;
use crate::row_extras::RowExtras;
use std::alloc::{AllocError, Allocator, Global};
use std::marker::Model;

/// A contact that becomes a target, with its place in the answer.
#[derive(Drop)]
pub struct NewTarget<A: Allocator = Global> {
    place: usize,
    offer: Offer<A>,
}

impl<A: Allocator> Model for NewTarget<A> {
    ghost use Rattle.std.specs.Prelude.{ℕ};
    ghost use Rattle.fork_model.specs.Table as table;

    ghost Value = { ℕ × table.Offer };

    ghost view = { λ f. (f.place, f.offer) };
}

impl<A: Allocator + Clone> NewTarget<A> {
    /// The contact at this place of an answer, copied; the only error is want of memory.
    pub fn new(alloc: &A, place: usize, offer: &Offer<A>) -> Result<Self, AllocError>
        ensures { IfOk result (λ target. target ≡ (place, offer.now)) }
    {
        let offer = offer.copy(alloc)?;
        Ok(NewTarget { place, offer })
    }

    /// The extras of its row: its key, and its place in the answer; the only error is want of memory.
    pub fn row_extras(&self, alloc: &A) -> Result<RowExtras<A>, AllocError>
        ensures { IfOk result (λ row_extras. row_extras ≡ row_extras_of self.now) }
    {
        RowExtras::new(alloc, self.key(), self.place)
    }
}

impl<A: Allocator> NewTarget<A> {
    /// Its q in thousandths.
    fn q(&self) -> u16
        ensures { result ≡ self.now.1.q }
    {
        self.offer.q()
    }

    /// The key of its target.
    fn key(&self) -> &[u8]
        ensures { result.now ≡ unwrap_or self.now.1.key [] }
    {
        match self.offer.key() {
            Some(key) => key,
            None => &[],
        }
    }
}

/// The q of each contact that becomes a target, in thousandths; the only error is want of memory.
pub fn contact_qs<A: Allocator + Clone>(
    alloc: &A,
    fresh: &[NewTarget<A>],
) -> Result<Vec<u16, A>, AllocError>
    ensures { IfOk result (λ qs. qs.items ≡ contact_qs fresh.now) }
{
    let mut qs = Vec::new(alloc.clone()?);
    for contact in fresh {
        qs.push(contact.q())?;
    }
    Ok(qs)
}

/// Adds the extras of the row of the contact at this place, if there is one.
fn push_row_extras_at<A: Allocator + Clone>(
    alloc: &A,
    extras: &mut Vec<RowExtras<A>, A>,
    fresh: &[NewTarget<A>],
    pair: (u16, u16),
) -> Result<(), AllocError>
    ensures { OnOk result (extras.new.items ≡ with_row_extras_at fresh.now pair extras.old.items) }
{
    let (_, place) = pair;
    match fresh.get(place as usize) {
        Some(contact) => extras.push(contact.row_extras(alloc)?)?,
        None => {}
    }
    Ok(())
}

/// The extras of the rows of the contacts at these places, each of which stands behind the number of its group; the only
/// error is want of memory.
pub fn extras_at<A: Allocator + Clone>(
    alloc: &A,
    fresh: &[NewTarget<A>],
    numbered: &[(u16, u16)],
) -> Result<Vec<RowExtras<A>, A>, AllocError>
    ensures { IfOk result (λ extras. extras.items ≡ filter_map (row_extras_at fresh.now) numbered.now) }
{
    let mut extras = Vec::new(alloc.clone()?);
    for &pair in numbered {
        push_row_extras_at(alloc, &mut extras, fresh, pair)?;
    }
    Ok(extras)
}
