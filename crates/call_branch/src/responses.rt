//! What a response is to a transaction and to the fork.
ghost use Rattle.std.specs.Prelude.{◌≡◌};
ghost use Rattle.call_model.specs.Built.{status_of};
ghost use Rattle.call_model.specs.Failed.{is_fault};
ghost use Rattle.call_model.specs.Response.{is_redirection};
ghost use Rattle.call_branch.specs.BranchInside.{answer_if, kept_if};
ghost use Rattle.call_model.specs.Pump as pump;
ghost use Rattle.call_model.specs.Server as server;
ghost use Rattle.call_model.specs.Take as take;

use fork_rank::StatusClass;
use sip_text::Message;
use sip_txn::{TxEvent, TxPass, TxSend};
use std::alloc::Allocator;

/// The status of a response (RFC 3261 section 7.2); 0 of a request.
pub fn response_status<A: Allocator>(message: &Message<A>) -> u16
    ensures { result ≡ status_of message.now }
{
    match message.status() {
        Some(status) => status,
        None => 0,
    }
}

/// Whether a response with this status is a redirection, a 3xx: its contacts may become targets (RFC 3261 sections 16.5 and
/// 21.3).
pub fn is_redirection(status: u16) -> bool
    ensures { result ≡ is_redirection status }
{
    match StatusClass::of(status) {
        StatusClass::Redirection => true,
        StatusClass::Provisional
        | StatusClass::Success
        | StatusClass::ClientError
        | StatusClass::ServerError
        | StatusClass::GlobalFailure => false,
    }
}

/// The class of a response, as a client transaction is fed it: provisional, success or failure.
pub fn response_event(status: u16) -> TxEvent
    ensures { result ≡ take.response_event status }
{
    match StatusClass::of(status) {
        StatusClass::Provisional => TxEvent::Provisional,
        StatusClass::Success => TxEvent::Success,
        StatusClass::Redirection
        | StatusClass::ClientError
        | StatusClass::ServerError
        | StatusClass::GlobalFailure => TxEvent::Failure,
    }
}

/// What the server transaction is fed for an answer.
pub fn answer_event(status: u16) -> TxEvent
    ensures { result ≡ server.answer_event status }
{
    match StatusClass::of(status) {
        StatusClass::Provisional => TxEvent::AnswerProvisional,
        StatusClass::Success => TxEvent::AnswerSuccess,
        StatusClass::Redirection
        | StatusClass::ClientError
        | StatusClass::ServerError
        | StatusClass::GlobalFailure => TxEvent::AnswerFailure,
    }
}

/// Whether a transaction sends its response.
pub fn is_response(send: TxSend) -> bool
    ensures { result ≡ take.is_response send }
{
    match send {
        TxSend::Response => true,
        TxSend::Nothing | TxSend::Request | TxSend::Ack => false,
    }
}

/// Whether a transaction sends its request.
pub fn is_request(send: TxSend) -> bool
    ensures { result ≡ pump.is_request send }
{
    match send {
        TxSend::Request => true,
        TxSend::Nothing | TxSend::Response | TxSend::Ack => false,
    }
}

/// Whether a transaction hands up the response that came.
pub fn is_passed(pass: TxPass) -> bool
    ensures { result ≡ take.is_passed pass }
{
    match pass {
        TxPass::Response => true,
        TxPass::Nothing | TxPass::Timeout | TxPass::Fault | TxPass::Ack => false,
    }
}

/// Whether a transaction has timed out.
pub fn is_timeout(pass: TxPass) -> bool
    ensures { result ≡ pump.is_timeout pass }
{
    match pass {
        TxPass::Timeout => true,
        TxPass::Nothing | TxPass::Response | TxPass::Fault | TxPass::Ack => false,
    }
}

/// Whether a transaction has failed.
pub fn is_fault(pass: TxPass) -> bool
    ensures { result ≡ is_fault pass }
{
    match pass {
        TxPass::Fault => true,
        TxPass::Nothing | TxPass::Response | TxPass::Timeout | TxPass::Ack => false,
    }
}

/// A response on one of two sides: first what may go up at once, a provisional response or a 2xx; second what is kept,
/// a failure.
pub fn split_response<A: Allocator>(
    status: u16,
    message: Message<A>,
) -> (Option<Message<A>>, Option<Message<A>>)
    ensures up { result.0 ≡ take.going_up status message }
    ensures kept { result.1 ≡ answer_if status message }
{
    match StatusClass::of(status) {
        StatusClass::Provisional | StatusClass::Success => (Some(message), None),
        StatusClass::Redirection
        | StatusClass::ClientError
        | StatusClass::ServerError
        | StatusClass::GlobalFailure => (None, Some(message)),
    }
}

/// What is kept of a failure: one that a stored answer ranks before never goes up.
pub fn keep_if_best<A: Allocator>(first: bool, failure: Option<Message<A>>) -> Option<Message<A>>
    ensures { result ≡ kept_if first failure }
{
    if first { failure } else { None }
}
