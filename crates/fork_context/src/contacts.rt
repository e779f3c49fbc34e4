//! The contacts of a 3xx, taken as further targets or left to the caller (RFC 3261 sections 16.5 and 16.7
//! step 4).
ghost use Rattle.std.specs.Prelude.{◌≡◌, ◌≤◌, ◌<◌, ◌||◌, not, ◌∷◌, ◌++◌, nat_lt, [], length, unwrap_or, IfOk, OnOk};
ghost use Rattle.fork_model.specs.Table.{most_targets};
ghost use Rattle.fork_model.specs.Waiting.{line_from, parent_row};
ghost use Rattle.fork_model.specs.Contacts.{outcome_of, keys_of, keys_after, taking_from, taking_at};
ghost use Rattle.fork_context.specs.inner.ContactOutcome.{outcome_at};
ghost use Rattle.fork_context.specs.inner.StandIn.{tree_row};
ghost use Rattle.fork_context.specs.inner.ContactsSoFar.{taken_more};

use crate::fork::Fork;
use crate::targets::Targets;
use context_values::{NewTarget, Offer, copied_offers};
use fork_tree::RowRef;
use std::alloc::{AllocError, Allocator};
use std::marker::Model;

/// The contacts that become targets, and those that are left.
#[derive(Drop)]
pub(crate) struct ContactLists<A: Allocator> {
    pub(crate) fresh: Vec<NewTarget<A>, A>,
    pub(crate) left: Vec<Offer<A>, A>,
}

impl<A: Allocator> Model for ContactLists<A> {
    ghost use Rattle.fork_model.specs.Contacts as spec;

    ghost Value = { spec.ContactLists };

    ghost view = { λ t. record { fresh = t.fresh.items; left = t.left.items } };
}

/// What becomes of one contact: its target is one already; it becomes one; it is left.
pub(crate) enum ContactOutcome {
    Known,
    Fresh,
    Left,
}

/// What becomes of a contact, where these are all targets.
fn outcome_of<A: Allocator + Clone>(targets: &Targets<'_, A>, offer: &Offer<A>) -> ContactOutcome
    ensures { outcome_at result offer.now ≡ outcome_of targets.now offer.now.key }
{
    let Some(key) = offer.key() else {
        return ContactOutcome::Left;
    };
    if targets.has(key) {
        ContactOutcome::Known
    } else if targets.has_room() {
        ContactOutcome::Fresh
    } else {
        ContactOutcome::Left
    }
}

impl<A: Allocator> ContactLists<A> {
    /// Takes one more contact.
    fn take(&mut self, contact: NewTarget<A>) -> Result<(), AllocError>
        ensures { OnOk result (self.new ≡ record self.old { fresh = self.old.fresh ++ contact ∷ [] }) }
    {
        self.fresh.push(contact)?;
        Ok(())
    }

    /// Leaves one more contact.
    fn leave(&mut self, offer: Offer<A>) -> Result<(), AllocError>
        ensures { OnOk result (self.new ≡ record self.old { left = self.old.left ++ offer ∷ [] }) }
    {
        self.left.push(offer)?;
        Ok(())
    }
}

/// Takes one contact, which stands at this place: its key is that of a target from now on. The only error is want of
/// memory.
fn take_fresh<A: Allocator + Clone>(
    alloc: &A,
    targets: &mut Targets<'_, A>,
    taking: &mut ContactLists<A>,
    place: usize,
    offer: &Offer<A>,
) -> Result<(), AllocError>
    requires room { length targets.old < most_targets }
    ensures taken { OnOk result (taking.new ≡ record taking.old { fresh = taking.old.fresh ++ (place, offer.now) ∷ [] }) }
    ensures keys { OnOk result (targets.new ≡ targets.old ++ unwrap_or offer.now.key [] ∷ []) }
{
    let contact = NewTarget::new(alloc, place, offer)?;
    targets.add(contact.row_extras(alloc)?)?;
    taking.take(contact)
}

/// Takes or leaves one contact, which stands at this place, where these are all targets so far; the only error is want
/// of memory.
fn take_contact<A: Allocator + Clone>(
    alloc: &A,
    targets: &mut Targets<'_, A>,
    taking: &mut ContactLists<A>,
    place: usize,
    offer: &Offer<A>,
) -> Result<(), AllocError>
    ensures taken { OnOk result (taking.new ≡ taken_more place offer.now (outcome_of targets.old offer.now.key) taking.old) }
    ensures keys { OnOk result (targets.new ≡ keys_after targets.old (outcome_of targets.old offer.now.key)) }
{
    match outcome_of(targets, offer) {
        ContactOutcome::Known => Ok(()),
        ContactOutcome::Fresh => take_fresh(alloc, targets, taking, place, offer),
        ContactOutcome::Left => taking.leave(offer.copy(alloc)?),
    }
}

/// Takes and leaves the contacts in their order, where the rows of the fork are targets; the only error is want of memory.
fn taking_from<A: Allocator + Clone>(
    alloc: &A,
    fork: &Fork<A>,
    offers: &[Offer<A>],
) -> Result<ContactLists<A>, AllocError>
    ensures { IfOk result (λ taken. taken ≡ taking_from (keys_of fork.now.rows) 0 offers.now) }
{
    let mut targets = Targets::of(alloc, fork)?;
    let mut taking = ContactLists {
        fresh: Vec::new(alloc.clone()?),
        left: Vec::new(alloc.clone()?),
    };
    for (place, offer) in offers.iter().enumerate() {
        take_contact(alloc, &mut targets, &mut taking, place, offer)?;
    }
    Ok(taking)
}

/// Whether no contact of an answer to this row is taken: the table is closed, or the row is as deep as the rules
/// allow.
fn takes_none<A: Allocator + Clone>(fork: &Fork<A>, parent: Option<u16>) -> bool
    ensures { result ≡ (fork.now.closed || not (nat_lt (length (line_from (length fork.now.rows) fork.now.rows (parent_row fork.now.rows parent))) fork.now.rules.depth)) }
{
    fork.closed() || fork.depth(parent) >= fork.rules().depth()
}

/// All contacts are left.
fn left_all<A: Allocator + Clone>(
    alloc: &A,
    offers: &[Offer<A>],
) -> Result<ContactLists<A>, AllocError>
    ensures { IfOk result (λ taken. taken ≡ record { fresh = []; left = offers.now }) }
{
    Ok(ContactLists {
        fresh: Vec::new(alloc.clone()?),
        left: copied_offers(alloc, offers)?,
    })
}

/// The contacts of an answer to this row, taken and left; the only error is want of memory.
pub(crate) fn taking_at<A: Allocator + Clone>(
    alloc: &A,
    fork: &Fork<A>,
    row: &RowRef,
    offers: &[Offer<A>],
) -> Result<ContactLists<A>, AllocError>
    ensures value { IfOk result (λ taken. taken ≡ taking_at fork.now (tree_row row.now) offers.now) }
    ensures few { IfOk result (λ taken. length taken.fresh ≤ most_targets) }
{
    if takes_none(fork, row.parent) {
        left_all(alloc, offers)
    } else {
        taking_from(alloc, fork, offers)
    }
}
