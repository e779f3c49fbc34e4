//! Responses: for the call that their top Via value names.
ghost use Rattle.std.specs.Prelude.{◌≡◌, ℕ, List, IfNone, IfOk, IfSome, true};
ghost use Rattle.sip_via.specs.TopVia.{top_value};
ghost use Rattle.call_state.specs.Kinds.{is_response};
ghost use Rattle.call_state.specs.Matching.{IsReadBranch};
ghost use Rattle.proxy_dispatch.specs.Becomes.{IsHome, ResponseBecomes};
ghost use Rattle.proxy_dispatch.specs.Looks.{Look, shown, ShowsAll};
ghost use Rattle.proxy_dispatch.specs.inner.Sent.{seen_sent};

use crate::calls::{ReadBranch, SharedCalls};
use crate::datagrams::Handled;
use crate::delivery::deliver_response;
use crate::outcome::Outcome;
use fork_call::Setup;
use sip_text::Message;
use sip_uri::Hop;
use sip_via::own_branch;
use std::alloc::{AllocError, Allocator};
use std::sync::Wait;

/// The branch that names the call that a response is for: its top Via value is one that this run of the proxy put (RFC 3261 section
/// 16.7 step 1).
fn branch_of<A: Allocator>(setup: &Setup<A>, response: &Message<A>) -> Option<ReadBranch>
    ensures home { IfSome result (λ read. IsHome setup.now read.name.context response.now) }
    ensures read { IfSome result (λ read. IsReadBranch read.own (top_value response.now) read.name) }
    ensures none { IfNone result ((number : ℕ) → IsHome setup.now number response.now → ⊥) }
{
    let own = setup.own();
    let name = own_branch(response, own)?;
    if name.instance == setup.instance() {
        Some(ReadBranch { own, name })
    } else {
        None
    }
}

/// What becomes of a response: it is given to the call that it is for, or dropped (RFC 3261 section 18.1.2).
///
/// # Errors
///
/// Only where the allocator refuses; the call is then as it was.
pub(crate) fn responded<A: Allocator + Clone, R: Wait>(
    rt: &R,
    table: &mut SharedCalls<'_, A>,
    setup: &Setup<A>,
    response: Message<A>,
    source: Hop,
    now: u64,
) -> Result<Outcome<A>, AllocError>
    requires { is_response response.start ≡ true }
    ensures { IfOk result (λ outcome. (looks : List Look) × ShowsAll shown table.old looks table.new
        × ResponseBecomes setup.now response source now looks outcome.handled (seen_sent outcome.datagram)) }
{
    match branch_of(setup, &response) {
        Some(read) => deliver_response(rt, table, response, read, source, now),
        None => Ok(Outcome::silent(Handled::Dropped)),
    }
}
