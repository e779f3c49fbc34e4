//! The branches of a call, by the numbers of their rows.
ghost use Rattle.std.specs.Prelude.{◌≡◌, ◌<◌, ◌∷◌, ◌++◌, [], length, slice_get, None, Some, IfOk, OnOk};
ghost use Rattle.std.specs.Option.{option_copied};
ghost use Rattle.call_model.specs.Call.{found, with_branch};
ghost use Rattle.call_branch.specs.BranchInside.{no_branches};

use crate::branch::Branch;
use crate::destination::Destination;
use std::alloc::{AllocError, Allocator};

/// Adds a branch whose request was not sent.
fn push_no_branch<A: Allocator>(branches: &mut Vec<Option<Branch<A>>, A>) -> Result<(), AllocError>
    ensures { OnOk result (branches.new.items ≡ branches.old.items ++ None ∷ []) }
{
    match branches.push(None) {
        Ok(()) => Ok(()),
        Err(_) => Err(AllocError),
    }
}

/// The list of `count` branches whose requests were not sent.
#[tactic(auto, using(crate::proofs::laws::BranchLists::no_branches_more))]
pub fn no_branches<A: Allocator>(
    alloc: A,
    count: u16,
) -> Result<Vec<Option<Branch<A>>, A>, AllocError>
    ensures { IfOk result (λ branches. branches.items ≡ no_branches count) }
{
    let mut branches = Vec::with_capacity(alloc, count as usize)?;
    for place in 0..count {
        push_no_branch(&mut branches)?;
    }
    Ok(branches)
}

/// Where the request to target n goes.
pub fn destination_at<A: Allocator>(destinations: &[Destination<A>], n: u16) -> &Destination<A>
    requires there { n < length destinations.now }
    ensures { slice_get destinations.now n ≡ Some result.now }
{
    &destinations[n as usize]
}

/// Branch n, if its request was sent.
pub fn branch_in<A: Allocator>(branches: &[Option<Branch<A>>], n: u16) -> Option<&Branch<A>>
    ensures { option_copied result ≡ found (slice_get branches.now n) }
{
    match branches.get(n as usize)? {
        Some(branch) => Some(branch),
        None => None,
    }
}

/// Puts this branch in the place of branch n.
pub fn put_branch<A: Allocator>(branches: &mut Vec<Option<Branch<A>>, A>, n: u16, branch: Branch<A>)
    requires there { n < length branches.old.items }
    ensures { branches.new.items ≡ with_branch branches.old.items n branch }
{
    branches[n as usize] = Some(branch);
}
