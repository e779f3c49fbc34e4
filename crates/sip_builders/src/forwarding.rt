//! Requests as they go to a target.

ghost use Rattle.std.specs.Prelude.{◌≡◌, None, IfErr, IfOk, IfSome, true};
ghost use Rattle.sip_text.specs.Name.{first_value};
ghost use Rattle.sip_via.specs.declared.own.BuildFault.TheVariants.{NoMemory};
ghost use Rattle.sip_branch.specs.BranchText.{IsBranch};
ghost use Rattle.sip_via.specs.OwnVia.{IsOwn};
ghost use Rattle.sip_build.specs.Forwarding.{forwarded, is_request};
ghost use Rattle.sip_route.specs.Hops.{IsHops, hops_name};

use crate::written::read_written;
use sip_branch::BranchName;
use sip_build::write_forwarded;
use sip_text::Message;
use sip_uri::SipUri;
use sip_via::{BuildFault, Own};
use std::alloc::Allocator;

/// Shows that the numbers of the proxy's address are bounded.
fn fact_own(own: Own)
    ensures { IsOwn own }
{}

/// Shows that the numbers of a branch are bounded.
fn fact_branch(name: BranchName)
    ensures { IsBranch name }
{}

/// The request as it goes to a target (RFC 3261 section 16.6): its Request-URI is the target's, the
/// proxy's own Via stands first, with that branch, and the first Max-Forwards is lowered by one. A
/// request without one gets `Max-Forwards: 70` behind the Via.
///
/// # Errors
///
/// `NoMemory` alone, where the allocator refuses.
pub fn forward<A: Allocator + Clone>(
    alloc: A,
    message: &Message<A>,
    target: &SipUri<A>,
    own: Own,
    branch: &BranchName,
) -> Result<Message<A>, BuildFault>
    requires request { is_request message.now.start ≡ true }
    requires hops { IfSome (first_value hops_name message.now.headers) IsHops }
    ensures ok { IfOk result (λ made. made ≡ forwarded message.now target.now own branch.now None) }
    ensures err { IfErr result (λ fault. fault ≡ NoMemory) }
{
    message.is_message();
    target.is_uri();
    fact_own(own);
    fact_branch(*branch);
    let mut text = Vec::new(alloc.clone()?);
    write_forwarded(message, target, own, branch, None, &mut text)?;
    Ok(read_written(alloc, &text)?)
}
