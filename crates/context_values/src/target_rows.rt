//! What is kept of the rows of the initial targets (RFC 3261 section 16.6).
ghost use Rattle.std.specs.Prelude.{◌≡◌, ◌++◌, map, IfOk, OnOk};
ghost use Rattle.std.specs.List.{filter_map, AllByRecursion};
ghost use Rattle.std.specs.Option.{option_to_list};
ghost use Rattle.fork_model.specs.Range.{IsTargetInRange};
ghost use Rattle.context_values.specs.RowExtras.{extras_of_target, target_extras};

use crate::event::Target;
use crate::row_extras::RowExtras;
use std::alloc::{AllocError, Allocator};

/// The q of each target, in thousandths; the only error is want of memory.
pub fn target_qs<A: Allocator + Clone>(
    alloc: &A,
    targets: &[Target<A>],
) -> Result<Vec<u16, A>, AllocError>
    ensures value { IfOk result (λ qs. qs.items ≡ map (λ target. target.q) targets.now) }
    ensures range { OnOk result (AllByRecursion IsTargetInRange targets.now) }
{
    let mut qs = Vec::new(alloc.clone()?);
    for target in targets {
        qs.push(target.q())?;
    }
    Ok(qs)
}

/// The extras of the row of the target at this place.
fn extras_of_target<A: Allocator + Clone>(
    alloc: &A,
    place: u16,
    target: &Target<A>,
) -> Result<RowExtras<A>, AllocError>
    ensures { IfOk result (λ row_extras. row_extras ≡ extras_of_target place target.now) }
{
    RowExtras::new(alloc, target.key(), place as usize)
}

/// Adds the extras of the row of the target at this place, if there is one.
fn push_row_extras<A: Allocator + Clone>(
    alloc: &A,
    extras: &mut Vec<RowExtras<A>, A>,
    targets: &[Target<A>],
    group: u16,
    place: u16,
) -> Result<(), AllocError>
    ensures { OnOk result (extras.new.items ≡ extras.old.items ++ option_to_list (target_extras targets.now (group, place))) }
{
    match targets.get(place as usize) {
        Some(target) => extras.push(extras_of_target(alloc, place, target)?)?,
        None => {}
    }
    Ok(())
}

/// The extras of the rows of the targets at these places, each of which stands behind the number of its group; the only
/// error is want of memory.
pub fn target_extras<A: Allocator + Clone>(
    alloc: &A,
    targets: &[Target<A>],
    order: &[(u16, u16)],
) -> Result<Vec<RowExtras<A>, A>, AllocError>
    ensures { IfOk result (λ extras. extras.items ≡ filter_map (target_extras targets.now) order.now) }
{
    let mut extras = Vec::new(alloc.clone()?);
    for &(group, place) in order.iter() {
        push_row_extras(alloc, &mut extras, targets, group, place)?;
    }
    Ok(extras)
}
