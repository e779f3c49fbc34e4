//! Which transaction of a call a message belongs to.
ghost use Rattle.std.specs.Prelude.{◌≡◌, ◌≢◌, ◌<◌, ◌^◌, ◌&&◌, ℕ, codes, false, true, IfNone, IfSome, None, Option, Some, option_map};
ghost use Rattle.sip_text.specs.Fields.{CSeqText};
ghost use Rattle.sip_route.specs.RequestKey.{request_key};
ghost use Rattle.sip_branch.specs.BranchText.{IsBranch};
ghost use Rattle.sip_via.specs.TopVia.{top_value};
ghost use Rattle.call_model.specs.Call.{is_cancel_sent, is_sent};
ghost use Rattle.call_model.specs.OpenedRequest.{method_of};
ghost use Rattle.call_state.specs.Kinds.{is_request_of, is_response, is_to_method};
ghost use Rattle.call_state.specs.Matching.{BelongsTo, BelongsToNone, IsReadBranch};
ghost use Rattle.call_state.specs.inner.Matching.{BelongsToNoServer};
ghost use Rattle.call_state.specs.SeenMatchedTransaction.{seen_recipient};

use crate::state::CallState;
use crate::transaction::MatchedTransaction;
use sip_branch::BranchName;
use sip_route::{has_key, has_same_key};
use sip_text::{Message, Method, StartLine};
use sip_via::{has_second_via, own_branch};
use std::alloc::Allocator;

/// Shows that the numbers of a branch are bounded.
fn fact_branch(name: BranchName)
    ensures { IsBranch name }
{}

/// The target that a branch names, where it is one of the call's.
fn target_of(name: BranchName, call: BranchName) -> Option<u16>
    ensures found { IfSome result (λ n. name ≡ record call { target = n }) }
    ensures bounded { IfSome result (λ n. n < 2 ^ 16) }
    ensures only { (n : ℕ) → name ≡ record call { target = n } → result ≡ Some n }
{
    let key = call.key;
    let ours = BranchName {
        key,
        instance: call.instance,
        context: call.context,
        target: name.target,
    };
    if name == ours {
        Some(name.target)
    } else {
        None
    }
}

/// Whether a message is a request with this method.
fn is_request_of<A: Allocator>(message: &Message<A>, method: &[u8]) -> bool
    ensures { result ≡ is_request_of method.now message.now.start }
{
    match message.start() {
        StartLine::Request { method: own, .. } => own == method,
        StartLine::Response { .. } => false,
    }
}

/// Whether a message is a response.
fn is_response<A: Allocator>(message: &Message<A>) -> bool
    ensures { result ≡ is_response message.now.start }
{
    match message.start() {
        StartLine::Request { .. } => false,
        StartLine::Response { .. } => true,
    }
}

/// Whether a response whose CSeq names the method `to` answers a request with this method.
fn is_to_method(to: &[u8], method: &[u8]) -> bool
    ensures { (cseq : Option CSeqText) → option_map (λ (c : CSeqText). c.method) cseq ≡ Some to.now
        → result ≡ is_to_method method.now cseq }
{
    to == method
}

/// The method of the request that the call was opened with.
fn opening_method<A: Allocator + Clone>(state: &CallState<A>) -> &[u8]
    ensures { result.now ≡ method_of state.now.opened.request.start }
{
    match state.opened().request().start() {
        StartLine::Request { method, .. } => method,
        StartLine::Response { .. } => b"",
    }
}

/// Whether a response on branch n whose CSeq names the method `to` is for the client transaction of the request, which was sent. A
/// response with a single Via value, with no `second`, was meant for the proxy itself (RFC 3261 section 16.7 step 3).
fn is_for_client<A: Allocator + Clone>(
    state: &CallState<A>,
    to: &[u8],
    second: bool,
    n: u16,
) -> bool
    ensures { (cseq : Option CSeqText) → option_map (λ (c : CSeqText). c.method) cseq ≡ Some to.now
        → result ≡ (is_to_method (method_of state.now.opened.request.start) cseq && second && is_sent state.now n) }
{
    is_to_method(to, opening_method(state)) && second && state.is_sent(n)
}

/// Whether a response on branch n whose CSeq names the method `to` is for the client transaction of the CANCEL, which was sent.
fn is_for_cancel<A: Allocator + Clone>(state: &CallState<A>, to: &[u8], n: u16) -> bool
    ensures { (cseq : Option CSeqText) → option_map (λ (c : CSeqText). c.method) cseq ≡ Some to.now
        → result ≡ (is_to_method (codes "CANCEL") cseq && is_cancel_sent state.now n) }
{
    is_to_method(to, b"CANCEL") && state.is_cancel_sent(n)
}

/// Shows that the branches of a call are bounded.
fn are_branches(call: BranchName)
    ensures { (n : ℕ) → n < 2 ^ 16 → IsBranch (record call { target = n }) }
{
    fact_branch(call);
}

/// The transaction of a call that a response is for, whose top Via value is that of this branch of the proxy's own: the proxy put
/// it there with the request or the CANCEL, which was sent (RFC 3261 sections 16.7 step 1 and 17.1.3). The search takes no memory.
#[tactic(auto, using(crate::proofs::Matched::home_at))]
pub fn match_response<A: Allocator + Clone>(
    state: &CallState<A>,
    response: &Message<A>,
    branch: BranchName,
) -> Option<MatchedTransaction>
    requires response { is_response response.now.start ≡ true }
    requires named { IsReadBranch state.now.opened.own (top_value response.now) branch }
    ensures found { IfSome result (λ r. BelongsTo state.now response.now (seen_recipient r)) }
    ensures none { IfNone result (BelongsToNone state.now response.now) }
{
    let call = state.opened().branch(0);
    are_branches(call);
    let n = target_of(branch, call)?;
    let to = response.cseq_method();
    let second = has_second_via(response);
    if is_for_client(state, to, second, n) {
        return Some(MatchedTransaction::Client(n));
    }
    if is_for_cancel(state, to, n) {
        return Some(MatchedTransaction::CancelClient(n));
    }
    None
}

/// The transaction of a branch that a response is for, whose top Via value is yet to be read.
fn response_recipient<A: Allocator + Clone>(
    state: &CallState<A>,
    message: &Message<A>,
) -> Option<MatchedTransaction>
    requires { is_response message.now.start ≡ true }
    ensures found { IfSome result (λ r. BelongsTo state.now message.now (seen_recipient r)) }
    ensures none { IfNone result (BelongsToNone state.now message.now) }
{
    let opened = state.opened();
    are_branches(opened.branch(0));
    let branch = own_branch(message, opened.own())?;
    match_response(state, message, branch)
}

/// The part that a request with the key of the call's own request plays in the caller's transaction: it is that request again, its ACK
/// or its CANCEL (RFC 3261 sections 9.2 and 17.2.3).
fn part_of<A: Allocator + Clone>(
    state: &CallState<A>,
    message: &Message<A>,
) -> Option<MatchedTransaction>
    requires keyed { request_key message.now ≢ None }
    requires same { request_key message.now ≡ request_key state.now.opened.request }
    ensures found { IfSome result (λ r. BelongsTo state.now message.now (seen_recipient r)) }
    ensures none { IfNone result (BelongsToNoServer state.now message.now) }
{
    if is_request_of(message, opening_method(state)) {
        return Some(MatchedTransaction::Server);
    }
    match message.known_method() {
        Some(Method::Ack) => Some(MatchedTransaction::ServerAck),
        Some(Method::Cancel) => Some(MatchedTransaction::ServerCancel),
        Some(Method::Invite | Method::Options | Method::Other) | None => None,
    }
}

/// The part that a request plays in the caller's transaction.
fn request_recipient<A: Allocator + Clone>(
    state: &CallState<A>,
    message: &Message<A>,
) -> Option<MatchedTransaction>
    ensures found { IfSome result (λ r. BelongsTo state.now message.now (seen_recipient r)) }
    ensures none { IfNone result (BelongsToNoServer state.now message.now) }
{
    if !has_same_key(message, state.opened().request()) {
        return None;
    }
    part_of(state, message)
}

/// The part that a request with this key plays in the caller's transaction.
fn keyed_recipient<A: Allocator + Clone>(
    state: &CallState<A>,
    message: &Message<A>,
    key: &[u8],
) -> Option<MatchedTransaction>
    requires { request_key message.now ≡ Some key.now }
    ensures found { IfSome result (λ r. BelongsTo state.now message.now (seen_recipient r)) }
    ensures none { IfNone result (BelongsToNoServer state.now message.now) }
{
    if !has_key(state.opened().request(), key) {
        return None;
    }
    part_of(state, message)
}

/// The transaction of a call that a request is for, which has this key: as [`match_transaction`] finds it, and the key is not read
/// again (RFC 3261 sections 9.2 and 17.2.3). The search takes no memory.
#[tactic(auto, using(crate::proofs::Matched::to_none, crate::proofs::Matched::no_response))]
pub fn match_request<A: Allocator + Clone>(
    state: &CallState<A>,
    request: &Message<A>,
    key: &[u8],
) -> Option<MatchedTransaction>
    requires request { is_response request.now.start ≡ false }
    requires key { request_key request.now ≡ Some key.now }
    ensures found { IfSome result (λ r. BelongsTo state.now request.now (seen_recipient r)) }
    ensures none { IfNone result (BelongsToNone state.now request.now) }
{
    keyed_recipient(state, request, key)
}

/// The transaction of a call that a message is for, if there is one. A request is for the caller's transaction where it
/// has the key of the request that opened the call, and where its method is that request's, ACK or CANCEL. A response
/// is for a transaction of a branch where its top Via value is the one that the proxy put into the request or the
/// CANCEL that it sent there (RFC 3261 sections 9.2, 16.7 steps 1 and 3, 17.1.3 and 17.2.3). The search takes no
/// memory.
#[tactic(auto, using(crate::proofs::Matched::to_none, crate::proofs::Matched::no_response))]
pub fn match_transaction<A: Allocator + Clone>(
    state: &CallState<A>,
    message: &Message<A>,
) -> Option<MatchedTransaction>
    ensures found { IfSome result (λ r. BelongsTo state.now message.now (seen_recipient r)) }
    ensures none { IfNone result (BelongsToNone state.now message.now) }
{
    if is_response(message) {
        response_recipient(state, message)
    } else {
        request_recipient(state, message)
    }
}
