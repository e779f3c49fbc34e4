//! Requests: known by their keys, or new.
ghost use Rattle.std.specs.Prelude.{◌≡◌, ℕ, false, List, [], IfErr, IfOk, OnErr, Result, Some};
ghost use Rattle.std.specs.Option.{option_map};
ghost use Rattle.sip_build.specs.Forwarding.{is_request};
ghost use Rattle.sip_via.specs.declared.own.ViaFault.{ViaFault};
ghost use Rattle.sip_via.specs.ReadTop.{IsTopOf};
ghost use Rattle.sip_via.specs.Sender.{seen_sender, sender_if_read};
ghost use Rattle.sip_via.specs.ViaParts.{ViaText};
ghost use Rattle.sip_route.specs.RequestKey.{key_if_read, request_key};
ghost use Rattle.call_model.specs.Call.{numbered};
ghost use Rattle.fork_call.specs.Opening.{IsOpenable, Opens, with_token};
ghost use Rattle.proxy_config.specs.Setup as spec;
ghost use Rattle.sip_text.specs.Text.{MessageText};
ghost use Rattle.proxy_dispatch.specs.declared.purpose.RequestKind.TheVariants as purposes;
ghost use Rattle.fork_call.specs.Prepared.{IsPreparedAs};
ghost use Rattle.proxy_dispatch.specs.Admitting as decisions;
ghost use Rattle.proxy_dispatch.specs.SeenDecision.{seen_decision};
ghost use Rattle.proxy_dispatch.specs.Becomes.{AdmittedBecomes, DecidedBecomes, IsStopped, NewBecomes, OpenerBecomes, OpeningBecomes, RequestBecomes, UnknownBecomes};
ghost use Rattle.proxy_dispatch.specs.Looks.{Look, shown, ShowsAll};
ghost use Rattle.proxy_dispatch.specs.Purpose.{purpose_of};
ghost use Rattle.proxy_dispatch.specs.inner.Becomes.{is_opened, is_registering};
ghost use Rattle.proxy_dispatch.specs.inner.Sent.{seen_sent};

use crate::acks::acknowledged;
use crate::admission::{Admission, Decision, Opener, opener_of};
use crate::answers::{answered, marked_answer, rejected, told, turned_away};
use crate::asking::asks_service;
use crate::calls::SharedCalls;
use crate::datagrams::Handled;
use crate::delivery::{deliver, deliver_request};
use crate::outcome::Outcome;
use crate::purpose::RequestKind;
use crate::received::{ReadRequest, ReceivedMessage};
use crate::registers::registered;
use authentication::OwnAnswer;
use call_table::PendingFault;
use fork_call::{OpeningRequest, PendingCall, PreparedRequest, Setup, Unrouted, prepare_read};
use proxy_config::DialogToken;
use sip_build::OwnStatus;
use sip_route::append_sender_key;
use sip_text::Message;
use sip_uri::Hop;
use sip_via::{Sender, TopVia, read_top};
use std::alloc::{AllocError, Allocator};
use std::sync::Wait;

/// The key of a request whose top Via value names this sender, by which the request is known when it comes again, with its ACK and its
/// CANCEL (RFC 3261 section 17.2.3).
fn key_of<A: Allocator>(
    alloc: A,
    sender: Option<Sender<'_>>,
) -> Result<Option<Vec<u8, A>>, AllocError>
    ensures { (read : Result ViaText ViaFault) → option_map seen_sender sender.entry ≡ sender_if_read read
        → IfOk result (λ key. option_map (λ text. text.items) key ≡ key_if_read read) }
{
    let Some(sender) = sender else {
        return Ok(None);
    };
    let mut key = Vec::new(alloc);
    if append_sender_key(&mut key, sender)? {
        Ok(Some(key))
    } else {
        Ok(None)
    }
}

/// What is read of the top Via value of a request that came from `source`, and its key: the value is cut once.
fn read_request<A: Allocator + Clone>(
    alloc: &A,
    request: &Message<A>,
    source: Hop,
) -> Result<(TopVia<A>, Option<Vec<u8, A>>), AllocError>
    ensures top { IfOk result (λ read. IsTopOf request.now source read.0) }
    ensures key { IfOk result (λ read. option_map (λ text. text.items) read.1 ≡ request_key request.now) }
{
    match read_top(alloc, request, source) {
        Ok((top, sender)) => {
            let key = key_of(alloc.clone()?, sender)?;
            Ok((top, key))
        }
        Err(AllocError) => Err(AllocError),
    }
}

/// Puts a call under its key, which no call had when it was looked for. Where another worker has opened one under that key
/// meanwhile, that call is given the request.
fn put<A: Allocator + Clone, R: Wait>(
    rt: &R,
    table: &mut SharedCalls<'_, A>,
    key: Vec<u8, A>,
    pending: PendingCall<A>,
    source: Hop,
    now: u64,
) -> Result<Outcome<A>, AllocError>
    ensures { (setup : spec.Setup) (m : MessageText) → ((number : ℕ) → Opens setup number m source (numbered number pending))
        → IfOk result (λ outcome. (looks : List Look) × ShowsAll shown table.old looks table.new
        × OpeningBecomes setup m source now key.items looks outcome.handled (seen_sent outcome.datagram)) }
{
    match table.open(rt, key, pending) {
        Ok(number) => Ok(Outcome::silent(Handled::Opened(number))),
        Err(fault) => match fault {
            PendingFault::Known(number, pending) => {
                deliver(rt, table, number, pending.into_request(), source, now)
            }
            PendingFault::Spent => Ok(Outcome::silent(Handled::Dropped)),
            PendingFault::NoMemory => Err(AllocError),
        },
    }
}

/// What becomes of a request that opens a call by this setup, with this token in place of its own, if there is one, or is answered with
/// the status that tells why not. The call is prepared before the keys are locked, so no other thread waits for that.
fn opened_by<A: Allocator + Clone, R: Wait>(
    rt: &R,
    table: &mut SharedCalls<'_, A>,
    setup: &Setup<A>,
    token: Option<DialogToken>,
    key: Vec<u8, A>,
    opening: OpeningRequest<A>,
    top: &TopVia<A>,
) -> Result<Outcome<A>, AllocError>
    requires openable { IsOpenable opening.request.start }
    requires top { IsTopOf opening.request opening.source top.now }
    ensures { IfOk result (λ outcome. (looks : List Look) × ShowsAll shown table.old looks table.new
        × OpeningBecomes (with_token token setup.now) opening.request opening.source opening.now key.items looks outcome.handled
        (seen_sent outcome.datagram)) }
{
    let alloc = opening.alloc.clone()?;
    let source = opening.source;
    let now = opening.now;
    match PendingCall::new_read(setup, token, opening, top) {
        Ok(pending) => put(rt, table, key, pending, source, now),
        Err(why) => match why {
            Unrouted::Rejected(fault, request) => rejected(alloc, request, source, top, fault),
            Unrouted::NoMemory => Err(AllocError),
        },
    }
}

/// A request as it was prepared, or what becomes of it where one of the first five steps of RFC 3261 section 16.3 stops it.
fn prepared<A: Allocator + Clone>(
    setup: &Setup<A>,
    opening: OpeningRequest<A>,
    top: &TopVia<A>,
) -> Result<Result<PreparedRequest<A>, Outcome<A>>, AllocError>
    requires openable { IsOpenable opening.request.start }
    requires top { IsTopOf opening.request opening.source top.now }
    ensures passed { IfOk result (λ r. IfOk r (IsPreparedAs setup.now opening.request opening.source)) }
    ensures stopped { IfOk result (λ r. IfErr r (λ outcome.
        IsStopped setup.now opening.request opening.source [] outcome.handled (seen_sent outcome.datagram))) }
{
    let alloc = opening.alloc.clone()?;
    let source = opening.source;
    match prepare_read(setup, opening, top) {
        Ok(prepared) => Ok(Ok(prepared)),
        Err(why) => match why {
            Unrouted::Rejected(fault, request) => Ok(Err(rejected(
                alloc, request, source, top, fault,
            )?)),
            Unrouted::NoMemory => Err(AllocError),
        },
    }
}

/// What becomes of a request of which it is decided that it is answered so.
fn refused<A: Allocator + Clone>(
    setup: &Setup<A>,
    opening: OpeningRequest<A>,
    top: &TopVia<A>,
    answer: &OwnAnswer<A>,
) -> Result<Outcome<A>, AllocError>
    requires openable { IsOpenable opening.request.start }
    requires top { IsTopOf opening.request opening.source top.now }
    ensures { IfOk result (λ outcome. DecidedBecomes (decisions.Answers answer.now) setup.now opening.request opening.source opening.now []
        [] outcome.handled (seen_sent outcome.datagram)) }
{
    let alloc = opening.alloc.clone()?;
    match prepared(setup, opening, top)? {
        Ok(prepared) => marked_answer(alloc, prepared.request(), prepared.caller(), answer),
        Err(outcome) => Ok(outcome),
    }
}

/// What becomes of a request of which it is decided that another answers it, or nobody.
fn left<A: Allocator + Clone>(
    setup: &Setup<A>,
    opening: OpeningRequest<A>,
    top: &TopVia<A>,
) -> Result<Outcome<A>, AllocError>
    requires openable { IsOpenable opening.request.start }
    requires top { IsTopOf opening.request opening.source top.now }
    ensures { IfOk result (λ outcome. DecidedBecomes decisions.Leaves setup.now opening.request opening.source opening.now []
        [] outcome.handled (seen_sent outcome.datagram)) }
{
    match prepared(setup, opening, top)? {
        Ok(_) => Ok(Outcome::silent(Handled::Left)),
        Err(outcome) => Ok(outcome),
    }
}

/// What becomes of a request of which this is decided.
fn decided<A: Allocator + Clone, R: Wait>(
    rt: &R,
    table: &mut SharedCalls<'_, A>,
    setup: &Setup<A>,
    key: Vec<u8, A>,
    opening: OpeningRequest<A>,
    top: &TopVia<A>,
    decision: Decision<A>,
) -> Result<Outcome<A>, AllocError>
    requires openable { IsOpenable opening.request.start }
    requires top { IsTopOf opening.request opening.source top.now }
    ensures { IfOk result (λ outcome. (looks : List Look) × ShowsAll shown table.old looks table.new
        × DecidedBecomes (seen_decision setup.now decision) setup.now opening.request opening.source opening.now key.items
        looks outcome.handled (seen_sent outcome.datagram)) }
{
    match decision {
        Decision::Opens => opened_by(rt, table, setup, None, key, opening, top),
        Decision::OpensWith(token) => opened_by(rt, table, setup, Some(token), key, opening, top),
        Decision::OpensBy(moment) => opened_by(rt, table, &moment, None, key, opening, top),
        Decision::Answers(answer) => refused(setup, opening, top, &answer),
        Decision::Leaves => left(setup, opening, top),
    }
}

/// What becomes of a request that was admitted and is not the proxy's own to answer: what is decided of it, or it is answered with the
/// status that tells what stops it.
#[tactic(auto, using(crate::proofs::Purposes::opening_opens))]
fn opened<A: Allocator + Clone, N: Admission<A>, R: Wait>(
    rt: &R,
    table: &mut SharedCalls<'_, A>,
    setup: &Setup<A>,
    admission: &N,
    key: Vec<u8, A>,
    received: ReadRequest<A>,
) -> Result<Outcome<A>, AllocError>
    requires purpose { purpose_of received.message.start ≡ Some purposes.Opening }
    requires top { IsTopOf received.message received.source received.top }
    ensures { IfOk result (λ outcome. (looks : List Look) × ShowsAll shown table.old looks table.new
        × AdmittedBecomes false (N.serving admission.now) setup.now received.message received.source received.now key.items
        looks outcome.handled (seen_sent outcome.datagram)) }
{
    let ReadRequest {
        alloc,
        message: request,
        top,
        source,
        now,
    } = received;
    let decision = admission.decides(rt, &alloc, setup, &request, source, now)?;
    let opening = OpeningRequest {
        alloc,
        request,
        source,
        now,
    };
    decided(rt, table, setup, key, opening, &top, decision)
}

/// Whether it is a REGISTER for the domain that the request would do.
fn is_registering(opener: Opener) -> bool
    ensures { result ≡ is_registering opener }
{
    matches!(opener, Opener::Registering)
}

/// What becomes of a request that was admitted: the proxy answers an OPTIONS to itself (RFC 3261 section 11), a REGISTER for the domain
/// is the registrar's, and of any other it is decided.
fn admitted<A: Allocator + Clone, N: Admission<A>, R: Wait>(
    rt: &R,
    table: &mut SharedCalls<'_, A>,
    setup: &Setup<A>,
    admission: &N,
    opener: Opener,
    key: Vec<u8, A>,
    received: ReadRequest<A>,
) -> Result<Outcome<A>, AllocError>
    requires purpose { purpose_of received.message.start ≡ Some purposes.Opening }
    requires top { IsTopOf received.message received.source received.top }
    ensures { IfOk result (λ outcome. (looks : List Look) × ShowsAll shown table.old looks table.new
        × OpenerBecomes opener (N.serving admission.now) setup.now received.message received.source received.now key.items
        looks outcome.handled (seen_sent outcome.datagram)) }
{
    if is_registering(opener) {
        return registered(rt, setup, admission, received);
    }
    if asks_service(received.alloc.clone()?, setup, &received.message)? {
        return told(
            received.alloc,
            received.message,
            received.source,
            &received.top,
        );
    }
    opened(rt, table, setup, admission, key, received)
}

/// Whether a call was opened.
fn has_opened<A: Allocator>(outcome: &Result<Outcome<A>, AllocError>) -> bool
    ensures opened { IfOk outcome.now (λ outcome. result ≡ is_opened outcome.handled) }
    ensures refused { OnErr outcome.now (result ≡ false) }
{
    match outcome {
        Ok(outcome) => matches!(outcome.handled, Handled::Opened(_)),
        Err(_) => false,
    }
}

/// What becomes of a request whose key no call has: it is turned away, or goes on as one that was admitted. Where it opens no call
/// then, `admission` is told.
fn asked<A: Allocator + Clone, N: Admission<A>, R: Wait>(
    rt: &R,
    table: &mut SharedCalls<'_, A>,
    setup: &Setup<A>,
    admission: &N,
    key: Vec<u8, A>,
    received: ReadRequest<A>,
) -> Result<Outcome<A>, AllocError>
    requires purpose { purpose_of received.message.start ≡ Some purposes.Opening }
    requires top { IsTopOf received.message received.source received.top }
    ensures { IfOk result (λ outcome. (looks : List Look) × ShowsAll shown table.old looks table.new
        × NewBecomes (N.serving admission.now) setup.now received.message received.source received.now (Some key.items)
        looks outcome.handled (seen_sent outcome.datagram)) }
{
    let has_registrar = admission.has_registrar();
    let opener = opener_of(
        received.alloc.clone()?,
        setup,
        has_registrar,
        &received.message,
    )?;
    if !admission.admits(rt, opener) {
        return turned_away(
            received.alloc,
            received.message,
            received.source,
            &received.top,
        );
    }
    let outcome = admitted(rt, table, setup, admission, opener, key, received);
    if !has_opened(&outcome) {
        admission.release(rt);
    }
    outcome
}

/// What becomes of a request whose key no call has, or that has none: an ACK is absorbed or goes on, a CANCEL is answered 481, and
/// any other request opens a call where it is admitted (RFC 3261 sections 9.2, 16.2 and 16.11). A request without a key is not well
/// formed.
fn unknown<A: Allocator + Clone, N: Admission<A>, R: Wait>(
    rt: &R,
    table: &mut SharedCalls<'_, A>,
    setup: &Setup<A>,
    admission: &N,
    key: Option<Vec<u8, A>>,
    received: ReadRequest<A>,
    purpose: RequestKind,
) -> Result<Outcome<A>, AllocError>
    requires top { IsTopOf received.message received.source received.top }
    requires purpose { purpose_of received.message.start ≡ Some purpose }
    requires key { option_map (λ text. text.items) key ≡ request_key received.message }
    ensures { IfOk result (λ outcome. (looks : List Look) × ShowsAll shown table.old looks table.new
        × UnknownBecomes (N.serving admission.now) setup.now received.message received.source received.now purpose
        looks outcome.handled (seen_sent outcome.datagram)) }
{
    match purpose {
        RequestKind::Ack => acknowledged(rt, setup, admission, received),
        RequestKind::Cancel => answered(
            received.alloc,
            received.message,
            received.source,
            &received.top,
            OwnStatus::CallDoesNotExist,
        ),
        RequestKind::Opening => match key {
            Some(key) => asked(rt, table, setup, admission, key, received),
            None => answered(
                received.alloc,
                received.message,
                received.source,
                &received.top,
                OwnStatus::BadRequest,
            ),
        },
    }
}

/// What becomes of a request: the call that is known by its key is given it; where none is, it is answered, goes on or opens a call
/// (RFC 3261 section 17.2.3).
///
/// # Errors
///
/// Only where the allocator refuses; no call has changed then, and none was opened.
pub(crate) fn requested<A: Allocator + Clone, N: Admission<A>, R: Wait>(
    rt: &R,
    table: &mut SharedCalls<'_, A>,
    setup: &Setup<A>,
    admission: &N,
    received: ReceivedMessage<A>,
    purpose: RequestKind,
) -> Result<Outcome<A>, AllocError>
    requires { purpose_of received.message.start ≡ Some purpose }
    ensures { IfOk result (λ outcome. (looks : List Look) × ShowsAll shown table.old looks table.new
        × RequestBecomes (N.serving admission.now) setup.now received.message received.source received.now purpose
        looks outcome.handled (seen_sent outcome.datagram)) }
{
    let ReceivedMessage {
        alloc,
        message,
        source,
        now,
    } = received;
    let read = read_request(&alloc, &message, source)?;
    let (top, key) = read;
    let received = ReadRequest {
        alloc,
        message,
        top,
        source,
        now,
    };
    let Some(text) = &key else {
        return unknown(rt, table, setup, admission, key, received, purpose);
    };
    match table.find(rt, text) {
        Some(number) => deliver_request(rt, table, number, received, text),
        None => unknown(rt, table, setup, admission, key, received, purpose),
    }
}
