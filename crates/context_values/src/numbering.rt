//! The order in which targets are tried (RFC 3261 section 16.6).
ghost use Rattle.std.specs.Prelude.{◌≡◌, ◌≤◌, ◌<◌, ◌++◌, ◌==◌, All, length, map, IfOk, OnOk};
ghost use Rattle.fork_model.specs.Table.{most_targets};
ghost use Rattle.std.specs.Bool.{OnTrue};
ghost use Rattle.std.specs.List.{list_all};
ghost use Rattle.fork_model.specs.Groups.{in_group, numbered, numbers_below};
ghost use Rattle.context_values.specs.RowExtras.{q_at, q_of_pair};

use fork_rank::groups;
use std::alloc::{AllocError, Allocator};

/// The places of the list in the order in which they are tried, each behind the number of its group: by falling q,
/// those of one q together.
pub fn numbered<A: Allocator + Clone>(
    alloc: &A,
    qs: &[u16],
) -> Result<Vec<(u16, u16), A>, AllocError>
    requires few { length qs.now ≤ most_targets }
    ensures { IfOk result (λ pairs. pairs.items ≡ numbered qs.now) }
{
    if are_alike(qs) {
        return one_group(alloc, qs.len());
    }
    let groups = groups(alloc.clone()?, qs)?;
    let mut pairs = Vec::new(alloc.clone()?);
    for (group, places) in groups.iter().enumerate() {
        push_group(&mut pairs, group as u16, places)?;
    }
    Ok(pairs)
}

/// Whether there is a q, and no other one.
fn are_alike(qs: &[u16]) -> bool
    ensures { OnTrue result (numbered qs.now ≡ in_group 0 (numbers_below (length qs.now))) }
{
    match qs.first() {
        Some(q) => are_all(qs, *q),
        None => false,
    }
}

/// Whether each of some q, of which there is one, is this one.
fn are_all(qs: &[u16], q: u16) -> bool
    requires some { 0 < length qs.now }
    ensures { OnTrue result (numbered qs.now ≡ in_group 0 (numbers_below (length qs.now))) }
{
    are_equal(qs, q)
}

fn are_equal(qs: &[u16], q: u16) -> bool
    ensures { result ≡ list_all (λ other. other == q) qs.now }
{
    qs.iter().all(|other| *other == q)
}

/// So many places, all of one group.
#[tactic(auto, using(crate::proofs::Alike::one_more))]
fn one_group<A: Allocator + Clone>(
    alloc: &A,
    count: usize,
) -> Result<Vec<(u16, u16), A>, AllocError>
    requires few { count ≤ most_targets }
    ensures { IfOk result (λ pairs. pairs.items ≡ in_group 0 (numbers_below count)) }
{
    let mut pairs = Vec::with_capacity(alloc.clone()?, count)?;
    for place in 0..count {
        pairs.push((0, place as u16))?;
    }
    Ok(pairs)
}

/// Adds the places of one group.
fn push_group<A: Allocator>(
    pairs: &mut Vec<(u16, u16), A>,
    group: u16,
    places: &[usize],
) -> Result<(), AllocError>
    requires within { All (λ place. place < most_targets) places.now }
    ensures { OnOk result (pairs.new.items ≡ pairs.old.items ++ in_group group places.now) }
{
    for &place in places {
        pairs.push((group, place as u16))?;
    }
    Ok(())
}

/// The q at this place.
fn q_at(qs: &[u16], place: u16) -> u16
    ensures { result ≡ q_at qs.now place }
{
    match qs.get(place as usize) {
        Some(q) => *q,
        None => 0,
    }
}

/// The q at these places, each of which stands behind the number of its group, in thousandths; the only error is want of
/// memory.
pub fn qs_at<A: Allocator + Clone>(
    alloc: &A,
    qs: &[u16],
    numbered: &[(u16, u16)],
) -> Result<Vec<u16, A>, AllocError>
    ensures { IfOk result (λ ordered. ordered.items ≡ map (q_of_pair qs.now) numbered.now) }
{
    let mut ordered = Vec::new(alloc.clone()?);
    for &(_, place) in numbered {
        ordered.push(q_at(qs, place))?;
    }
    Ok(ordered)
}

/// The q of all places in the order in which they are tried: the list itself where there is but one q. The only error is want of
/// memory.
#[tactic(auto, using(crate::proofs::Alike::in_place))]
pub fn qs_in_order<A: Allocator + Clone>(
    alloc: &A,
    qs: Vec<u16, A>,
    order: &[(u16, u16)],
) -> Result<Vec<u16, A>, AllocError>
    requires { order.now ≡ numbered qs.items }
    ensures { IfOk result (λ ordered. ordered.items ≡ map (q_of_pair qs.items) order.now) }
{
    if are_alike(&qs) {
        return Ok(qs);
    }
    qs_at(alloc, &qs, order)
}
