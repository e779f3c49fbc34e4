//! A message comes to a transaction of a call.
ghost use Rattle.std.specs.Prelude.{◌≡◌, ◌≢◌, ◌≤◌, true, None, IfErr, IfOk, IfSome, IsErrOf, Ok, OnErr};
ghost use Rattle.sip_text.specs.Message.{IsMessage};
ghost use Rattle.sip_via.specs.ReadTop.{IsTopOf};
ghost use Rattle.sip_via.specs.Received.{marked, reply_of};
ghost use Rattle.sip_via.specs.TopVia.{top_value};
ghost use Rattle.sip_via.specs.ViaParts.{via_of};
ghost use Rattle.call_model.specs.Built.{status_of};
ghost use Rattle.call_model.specs.Call.{is_sent};
ghost use Rattle.call_model.specs.SeenTaken.{seen_taken};
ghost use Rattle.call_model.specs.Sound.{IsSound};
ghost use Rattle.call_model.specs.Take as take;
ghost use Rattle.call_model.specs.Take.{RespondsOn, TakesAs, TakesCancel};
ghost use Rattle.call_state.specs.Matching.{BelongsTo};
ghost use Rattle.call_state.specs.SeenMatchedTransaction.{seen_recipient};
ghost use Rattle.sip_route.specs.RequestKey.{request_key};
ghost use Rattle.fork_call.specs.inner.Timing.{room_for, row_of_recipient};

use crate::fault::TakeFault;
use call_branch::{is_redirection, response_status};
use call_model::Taken;
use call_state::{CallState, MatchedTransaction, PostFault};
use proxy_routing::what_was_read_tells_the_reply;
use sip_text::Message;
use sip_uri::Hop;
use sip_via::{TopVia, ViaFault, add_source, readable_is_marked};
use std::alloc::{AllocError, Allocator};

/// How many targets a call has at most.
const MOST_TARGETS: u16 = 256;

/// How many rows a response with this status may add: contacts of a 3xx may become targets (RFC 3261 section 16.5).
pub(crate) fn room_for(status: u16) -> u16
    ensures { result ≡ room_for status }
{
    if is_redirection(status) {
        MOST_TARGETS
    } else {
        0
    }
}

/// The row that a message comes to.
pub(crate) fn row_of_transaction(to: MatchedTransaction) -> Option<u16>
    ensures { result ≡ row_of_recipient (seen_recipient to) }
{
    match to {
        MatchedTransaction::Server => None,
        MatchedTransaction::ServerAck => None,
        MatchedTransaction::ServerCancel => None,
        MatchedTransaction::Client(n) => Some(n),
        MatchedTransaction::CancelClient(n) => Some(n),
    }
}

/// The caller's CANCEL with its source, of whose top Via value this was read, and where its answer goes (RFC 3261 sections 18.2.1 and
/// 18.2.2). The CANCEL has the key of the call's request, so its top Via value can be read, and want of memory alone keeps it from
/// being marked.
fn cancel_by<A: Allocator>(
    message: Message<A>,
    source: Hop,
    top: &TopVia<A>,
) -> Result<(Message<A>, Hop), TakeFault>
    requires keyed { request_key message ≢ None }
    requires top { IsTopOf message source top.now }
    ensures marked { IfOk result (λ cancel. marked message source ≡ Ok cancel.0) }
    ensures reply { IfOk result (λ cancel. cancel.1 ≡ reply_of (via_of (top_value cancel.0)) source) }
    ensures refused { IfErr result (λ fault. fault ≡ TakeFault.NoMemory) }
{
    readable_is_marked();
    what_was_read_tells_the_reply();
    match add_source(message, source, top) {
        Ok(cancel) => Ok((cancel, top.reply_hop(source))),
        Err(unmarked) => match unmarked.fault {
            ViaFault::NoMemory => Err(TakeFault::NoMemory),
            ViaFault::BadVia => unreachable!(),
        },
    }
}

/// The same, where the top Via value may be yet to be read.
fn marked_cancel<A: Allocator + Clone>(
    alloc: A,
    message: Message<A>,
    source: Hop,
    top: Option<&TopVia<A>>,
) -> Result<(Message<A>, Hop), TakeFault>
    requires keyed { request_key message ≢ None }
    requires top { IfSome top (λ top. IsTopOf message source top.now) }
    ensures marked { IfOk result (λ cancel. marked message source ≡ Ok cancel.0) }
    ensures reply { IfOk result (λ cancel. cancel.1 ≡ reply_of (via_of (top_value cancel.0)) source) }
    ensures refused { IfErr result (λ fault. fault ≡ TakeFault.NoMemory) }
{
    match top {
        Some(top) => cancel_by(message, source, top),
        None => match TopVia::of(&alloc, &message, source) {
            Ok(top) => cancel_by(message, source, &top),
            Err(AllocError) => Err(TakeFault::NoMemory),
        },
    }
}

/// Takes the caller's CANCEL, marked with its source (RFC 3261 sections 9.2, 16.10 and 18.2.1).
fn take_cancel<A: Allocator + Clone>(
    state: &mut CallState<A>,
    alloc: A,
    message: Message<A>,
    source: Hop,
    top: Option<&TopVia<A>>,
) -> Result<Taken, TakeFault>
    requires sound { IsSound state.old }
    requires keyed { request_key message ≢ None }
    requires top { IfSome top (λ top. IsTopOf message source top.now) }
    ensures step { IfOk result (λ taken. TakesCancel state.old message source (seen_taken taken) state.new) }
    ensures refused { IfErr result (λ fault. fault ≡ TakeFault.NoMemory) }
    ensures err { OnErr result (state.new ≡ state.old) }
{
    let (cancel, to) = match marked_cancel(alloc, message, source, top) {
        Ok(cancel) => cancel,
        Err(fault) => return Err(fault),
    };
    match state.take_cancel(cancel, to) {
        Ok(taken) => Ok(taken),
        Err(_) => Err(TakeFault::NoMemory),
    }
}

/// Gives a response to the client transaction of branch n (RFC 3261 sections 16.7 and 17.1).
fn respond<A: Allocator + Clone>(
    state: &mut CallState<A>,
    n: u16,
    status: u16,
    message: Message<A>,
    now: u64,
) -> Result<Taken, TakeFault>
    requires there { is_sent state.old n ≡ true }
    requires status { status ≡ status_of message }
    requires least { 100 ≤ status }
    requires most { status ≤ 699 }
    ensures step { IfOk result (λ taken. RespondsOn state.old n now message (seen_taken taken) state.new) }
    ensures full { IsErrOf result TakeFault.Full → RespondsOn state.old n now message take.Full state.new }
    ensures refused { IfErr result (λ fault. fault ≢ TakeFault.Stray) }
    ensures err { OnErr result (state.new ≡ state.old) }
{
    match state.respond(n, status, message, now) {
        Ok(taken) => Ok(taken),
        Err(PostFault::Full) => Err(TakeFault::Full),
        Err(PostFault::NoMemory) => Err(TakeFault::NoMemory),
    }
}

/// Gives a message to the transaction that it belongs to; of its top Via value this may have been read.
///
/// # Errors
///
/// `Full` where the book takes no more events that change nothing; else only where the allocator refuses. The state is
/// then as it was.
pub(crate) fn give<A: Allocator + Clone>(
    state: &mut CallState<A>,
    alloc: A,
    to: MatchedTransaction,
    message: Message<A>,
    source: Hop,
    top: Option<&TopVia<A>>,
    now: u64,
) -> Result<Taken, TakeFault>
    requires sound { IsSound state.old }
    requires message { IsMessage message }
    requires top { IfSome top (λ top. IsTopOf message source top.now) }
    requires belongs { BelongsTo state.old message (seen_recipient to) }
    ensures step { IfOk result (λ taken. TakesAs state.old now message source (seen_recipient to) (seen_taken taken) state.new) }
    ensures full { IsErrOf result TakeFault.Full → TakesAs state.old now message source (seen_recipient to) take.Full state.new }
    ensures refused { IfErr result (λ fault. fault ≢ TakeFault.Stray) }
    ensures err { OnErr result (state.new ≡ state.old) }
{
    let status = response_status(&message);
    match to {
        MatchedTransaction::Server => match state.take_request(now) {
            Ok(()) => Ok(Taken::Absorbed),
            Err(_) => Err(TakeFault::NoMemory),
        },
        MatchedTransaction::ServerAck => {
            state.take_ack(now);
            Ok(Taken::Absorbed)
        }
        MatchedTransaction::ServerCancel => take_cancel(state, alloc, message, source, top),
        MatchedTransaction::Client(n) => respond(state, n, status, message, now),
        MatchedTransaction::CancelClient(n) => {
            state.take_cancel_response(n, status, now);
            Ok(Taken::Absorbed)
        }
    }
}
