//! Messages that are given to calls.
ghost use Rattle.std.specs.Prelude.{◌≡◌, ◌∷◌, [], ℕ, List, IfOk, Some, false, true};
ghost use Rattle.sip_text.specs.Text.{MessageText};
ghost use Rattle.sip_uri.specs.declared.hop.Hop.{Hop};
ghost use Rattle.sip_via.specs.ReadTop.{IsTopOf};
ghost use Rattle.sip_via.specs.TopVia.{top_value};
ghost use Rattle.sip_route.specs.RequestKey.{request_key};
ghost use Rattle.call_model.specs.Call as spec;
ghost use Rattle.call_state.specs.Kinds.{is_response};
ghost use Rattle.call_state.specs.Matching.{IsReadBranch};
ghost use Rattle.proxy_dispatch.specs.Becomes.{IsGiven};
ghost use Rattle.proxy_dispatch.specs.Looks.{AnswersTake, Look, Seen, shown, ShowsAll};
ghost use Rattle.proxy_dispatch.specs.inner.Sent.{seen_sent};

use crate::calls::{ReadBranch, SharedCalls};
use crate::datagrams::Handled;
use crate::outcome::Outcome;
use crate::received::ReadRequest;
use fork_call::{TakeFault, Taken};
use sip_text::Message;
use sip_uri::Hop;
use std::alloc::{AllocError, Allocator};
use std::sync::Wait;

/// What becomes of a message, by what the call of that number answered that was given it: it is dropped where the call does not take
/// it.
fn answered_by<A: Allocator>(
    number: u64,
    answer: Result<Taken, TakeFault>,
) -> Result<Outcome<A>, AllocError>
    ensures { (call new : spec.Call) (m : MessageText) (source : Hop) (now : ℕ)
        → call.opened.number ≡ number → AnswersTake call m source now answer new
        → IfOk result (λ outcome. IsGiven number m source now (Seen number call new ∷ []) outcome.handled (seen_sent outcome.datagram)) }
{
    match answer {
        Ok(_) => Ok(Outcome::silent(Handled::Delivered(number))),
        Err(fault) => match fault {
            TakeFault::Stray => Ok(Outcome::silent(Handled::Dropped)),
            TakeFault::Full => Ok(Outcome::silent(Handled::Dropped)),
            TakeFault::NoMemory => Err(AllocError),
        },
    }
}

/// What becomes of a request for the call of that number: it is dropped where the call does not take it, and where there is none.
///
/// # Errors
///
/// Only where the allocator refuses; the call is then as it was.
pub(crate) fn deliver<A: Allocator + Clone, R: Wait>(
    rt: &R,
    table: &mut SharedCalls<'_, A>,
    number: u64,
    request: Message<A>,
    source: Hop,
    now: u64,
) -> Result<Outcome<A>, AllocError>
    ensures { IfOk result (λ outcome. (looks : List Look) × ShowsAll shown table.old looks table.new
        × IsGiven number request source now looks outcome.handled (seen_sent outcome.datagram)) }
{
    match table.take(rt, number, request, source, now) {
        Some(answer) => answered_by(number, answer),
        None => Ok(Outcome::silent(Handled::Dropped)),
    }
}

/// What becomes of a request that was read, with this key, for the call of that number: it is dropped where the call does not take it,
/// and where there is none.
///
/// # Errors
///
/// Only where the allocator refuses; the call is then as it was.
pub(crate) fn deliver_request<A: Allocator + Clone, R: Wait>(
    rt: &R,
    table: &mut SharedCalls<'_, A>,
    number: u64,
    received: ReadRequest<A>,
    key: &[u8],
) -> Result<Outcome<A>, AllocError>
    requires request { is_response received.message.start ≡ false }
    requires key { request_key received.message ≡ Some key.now }
    requires top { IsTopOf received.message received.source received.top }
    ensures { IfOk result (λ outcome. (looks : List Look) × ShowsAll shown table.old looks table.new
        × IsGiven number received.message received.source received.now looks outcome.handled (seen_sent outcome.datagram)) }
{
    match table.take_request(rt, number, received, key) {
        Some(answer) => answered_by(number, answer),
        None => Ok(Outcome::silent(Handled::Dropped)),
    }
}

/// What becomes of a response for the call of that number: it is dropped where the call does not take it, and where there is none.
///
/// # Errors
///
/// Only where the allocator refuses; the call is then as it was.
pub(crate) fn deliver_response<A: Allocator + Clone, R: Wait>(
    rt: &R,
    table: &mut SharedCalls<'_, A>,
    response: Message<A>,
    read: ReadBranch,
    source: Hop,
    now: u64,
) -> Result<Outcome<A>, AllocError>
    requires response { is_response response.start ≡ true }
    requires read { IsReadBranch read.own (top_value response) read.name }
    ensures { IfOk result (λ outcome. (looks : List Look) × ShowsAll shown table.old looks table.new
        × IsGiven read.name.context response source now looks outcome.handled (seen_sent outcome.datagram)) }
{
    let number = read.name.context;
    match table.take_response(rt, response, read, source, now) {
        Some(answer) => answered_by(number, answer),
        None => Ok(Outcome::silent(Handled::Dropped)),
    }
}
