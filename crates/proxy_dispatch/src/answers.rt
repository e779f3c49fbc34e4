//! Requests that the proxy answers without a call.
ghost use Rattle.std.specs.Prelude.{◌≡◌, ◌≢◌, [], IfOk, Ok, Some, true};
ghost use Rattle.std.specs.List.{list_all};
ghost use Rattle.sip_text.specs.Message.{is_header};
ghost use Rattle.sip_text.specs.Seen.{view_lines};
ghost use Rattle.sip_text.specs.Text.{MessageText, spelling};
ghost use Rattle.sip_via.specs.ReadTop.{IsTopOf, reply_if_read};
ghost use Rattle.sip_via.specs.Received.{marked, reply_of};
ghost use Rattle.sip_via.specs.TopVia.{top_value};
ghost use Rattle.sip_via.specs.ViaParts.{via_of};
ghost use Rattle.sip_build.specs.Generated.{code_of, generated_of};
ghost use Rattle.call_model.specs.SeenDatagram.{seen};
ghost use Rattle.proxy_config.specs.Setup.{Setup};
ghost use Rattle.proxy_routing.specs.Admission.{IsPrepared};
ghost use Rattle.proxy_routing.specs.Refusing.{status_of_fault};
ghost use Rattle.fork_call.specs.Opening.{IsRefusedFor};
ghost use Rattle.proxy_dispatch.specs.declared.datagrams.Handled.TheVariants as handled;
ghost use Rattle.proxy_dispatch.specs.inner.Becomes.{IsRejectedBy};
ghost use Rattle.proxy_dispatch.specs.Sent.{answer_of, answer_to, capabilities_to, unavailable_to};
ghost use Rattle.proxy_dispatch.specs.inner.Sent.{seen_sent};

use crate::datagrams::Handled;
use crate::outcome::Outcome;
use authentication::OwnAnswer;
use fork_call::{Cause, Datagram, RequestRejection};
use proxy_routing::what_was_read_tells_the_reply;
use sip_build::{OwnStatus, stripping_keeps_answers, write_own_response};
use sip_route::stripping_keeps_the_rest;
use sip_text::{HeaderLine, Message};
use sip_uri::Hop;
use sip_via::{TopVia, ViaFault, add_source};
use std::alloc::{AllocError, Allocator};

/// The text of an answer of the proxy's own to this request (RFC 3261 section 8.2.6).
fn answer_text<A: Allocator>(
    alloc: A,
    request: &Message<A>,
    status: OwnStatus,
    further: &[HeaderLine<'_>],
) -> Result<Vec<u8, A>, AllocError>
    requires { list_all is_header (view_lines further.now) ≡ true }
    ensures { IfOk result (λ text. text.items ≡ spelling (generated_of request.now status (view_lines further.now))) }
{
    let mut text = Vec::new(alloc);
    write_own_response(request, status, further, &mut text)?;
    Ok(text)
}

/// An answer of the proxy's own to this request, to that hop.
fn answer_to<A: Allocator>(
    alloc: A,
    request: &Message<A>,
    status: OwnStatus,
    further: &[HeaderLine<'_>],
    to: Hop,
) -> Result<Datagram<A>, AllocError>
    requires { list_all is_header (view_lines further.now) ≡ true }
    ensures { IfOk result (λ datagram. seen datagram ≡ answer_to request.now status (view_lines further.now) to) }
{
    let bytes = answer_text(alloc, request, status, further)?;
    Ok(Datagram {
        to,
        bytes,
        cause: Cause::Answer,
    })
}

/// An answer of the proxy's own to a request that came from `source`, of whose top Via value this was read: the answer is made of the request with its
/// source, and goes where the top Via value says (RFC 3261 sections 18.2.1 and 18.2.2). Where that value cannot be
/// read, the answer is made of the request as it came, and goes back to where the request came from.
fn answer_of<A: Allocator>(
    alloc: A,
    request: Message<A>,
    source: Hop,
    top: &TopVia<A>,
    status: OwnStatus,
    further: &[HeaderLine<'_>],
) -> Result<Datagram<A>, AllocError>
    requires top { IsTopOf request source top.now }
    requires further { list_all is_header (view_lines further.now) ≡ true }
    ensures { IfOk result (λ datagram. seen datagram ≡ answer_of request source status (view_lines further.now)) }
{
    what_was_read_tells_the_reply();
    match add_source(request, source, top) {
        Ok(marked) => answer_to(alloc, &marked, status, further, top.reply_hop(source)),
        Err(unmarked) => match unmarked.fault {
            ViaFault::BadVia => answer_to(alloc, &unmarked.message, status, further, source),
            ViaFault::NoMemory => Err(AllocError),
        },
    }
}

/// What becomes of a request that came from `source` and is answered with this status.
pub(crate) fn answered<A: Allocator>(
    alloc: A,
    request: Message<A>,
    source: Hop,
    top: &TopVia<A>,
    status: OwnStatus,
) -> Result<Outcome<A>, AllocError>
    requires { IsTopOf request source top.now }
    ensures handled { IfOk result (λ outcome. outcome.handled ≡ handled.Answered (code_of status)) }
    ensures sent { IfOk result (λ outcome. seen_sent outcome.datagram ≡ Some (answer_of request source status [])) }
{
    let datagram = answer_of(alloc, request, source, top, status, &[])?;
    Ok(Outcome::sends(Handled::Answered(status.code()), datagram))
}

/// What becomes of a request that has its source and is answered so, by an answer that goes to this hop.
pub(crate) fn marked_answer<A: Allocator + Clone>(
    alloc: A,
    request: &Message<A>,
    to: Hop,
    answer: &OwnAnswer<A>,
) -> Result<Outcome<A>, AllocError>
    ensures handled { IfOk result (λ outcome. outcome.handled ≡ handled.Answered (code_of answer.now.status)) }
    // It is the answer to the request as it came, of which that one was marked with its source, and maybe prepared.
    ensures marked { (m : MessageText) (source : Hop) → marked m source ≡ Ok request.now → to ≡ reply_of (via_of (top_value request.now)) source
        → IfOk result (λ outcome. seen_sent outcome.datagram ≡ Some (answer_of m source answer.now.status answer.now.lines)) }
    ensures prepared { (setup : Setup) (m : MessageText) (source : Hop) → IsPrepared setup m source request.now
        → to ≡ reply_of (via_of (top_value request.now)) source
        → IfOk result (λ outcome. seen_sent outcome.datagram ≡ Some (answer_of m source answer.now.status answer.now.lines)) }
{
    stripping_keeps_answers();
    stripping_keeps_the_rest();
    let lines = answer.further_lines(alloc.clone()?)?;
    let datagram = answer_to(alloc, request, answer.status(), &lines, to)?;
    Ok(Outcome::sends(Handled::Answered(answer.status().code()), datagram))
}

/// What becomes of an OPTIONS request to the proxy itself that came from `source`: a 200 says what the proxy takes (RFC 3261
/// section 11.2).
pub(crate) fn told<A: Allocator>(
    alloc: A,
    request: Message<A>,
    source: Hop,
    top: &TopVia<A>,
) -> Result<Outcome<A>, AllocError>
    requires { IsTopOf request source top.now }
    ensures handled { IfOk result (λ outcome. outcome.handled ≡ handled.Answered 200) }
    ensures sent { IfOk result (λ outcome. seen_sent outcome.datagram ≡ Some (capabilities_to request source)) }
{
    let capabilities = [
        HeaderLine {
            name: b"Allow",
            value: b"INVITE, ACK, CANCEL, OPTIONS, BYE",
        },
        HeaderLine {
            name: b"Accept",
            value: b"application/sdp",
        },
    ];
    let datagram = answer_of(alloc, request, source, top, OwnStatus::Okay, &capabilities)?;
    Ok(Outcome::sends(Handled::Answered(200), datagram))
}

/// What becomes of a request that came from `source` and is turned away: a 503 says after how many seconds it may come again
/// (RFC 3261 sections 20.33 and 21.5.4).
pub(crate) fn turned_away<A: Allocator>(
    alloc: A,
    request: Message<A>,
    source: Hop,
    top: &TopVia<A>,
) -> Result<Outcome<A>, AllocError>
    requires { IsTopOf request source top.now }
    ensures handled { IfOk result (λ outcome. outcome.handled ≡ handled.TurnedAway) }
    ensures sent { IfOk result (λ outcome. seen_sent outcome.datagram ≡ Some (unavailable_to request source)) }
{
    let retry = [HeaderLine {
        name: b"Retry-After",
        value: b"10",
    }];
    let datagram = answer_of(
        alloc,
        request,
        source,
        top,
        OwnStatus::ServiceUnavailable,
        &retry,
    )?;
    Ok(Outcome::sends(Handled::TurnedAway, datagram))
}

/// The status that tells why no call was opened (RFC 3261 section 16.3).
fn rejection_status(fault: RequestRejection) -> OwnStatus
    requires { fault ≢ RequestRejection.NoMemory }
    ensures { status_of_fault fault ≡ Some (code_of result) }
{
    match fault {
        RequestRejection::BadRequest => OwnStatus::BadRequest,
        RequestRejection::Scheme => OwnStatus::UnsupportedUriScheme,
        RequestRejection::Hops => OwnStatus::TooManyHops,
        RequestRejection::Loop => OwnStatus::LoopDetected,
        RequestRejection::Extension => OwnStatus::BadExtension,
        RequestRejection::NoTarget => OwnStatus::TemporarilyUnavailable,
        RequestRejection::NoHop => OwnStatus::ServerInternalError,
        RequestRejection::NoMemory => unreachable!(),
    }
}

/// An answer of the proxy's own to a request that has its source, or, where it is not well formed, is yet to get it; this was read of its
/// top Via value as it came.
fn rejection_of<A: Allocator>(
    alloc: A,
    request: Message<A>,
    source: Hop,
    top: &TopVia<A>,
    fault: RequestRejection,
    status: OwnStatus,
) -> Result<Datagram<A>, AllocError>
    requires { fault ≡ RequestRejection.BadRequest → IsTopOf request source top.now }
    ensures plain { fault ≡ RequestRejection.BadRequest → IfOk result (λ datagram. seen datagram ≡ answer_of request source status []) }
    ensures marked { fault ≢ RequestRejection.BadRequest
        → IfOk result (λ datagram. seen datagram ≡ answer_to request status [] (reply_if_read top.now source)) }
{
    if fault == RequestRejection::BadRequest {
        return answer_of(alloc, request, source, top, status, &[]);
    }
    answer_to(alloc, &request, status, &[], top.reply_hop(source))
}

/// What becomes of a request from `source` that opens no call for this cause, and was given back as far as it was prepared: it is
/// answered with the status that tells the cause (RFC 3261 section 16.3). This was read of its top Via value as it came.
pub(crate) fn rejected<A: Allocator>(
    alloc: A,
    request: Message<A>,
    source: Hop,
    top: &TopVia<A>,
    fault: RequestRejection,
) -> Result<Outcome<A>, AllocError>
    requires some { fault ≢ RequestRejection.NoMemory }
    requires top { fault ≡ RequestRejection.BadRequest → IsTopOf request source top.now }
    ensures { (setup : Setup) (m : MessageText) → IsTopOf m source top.now → IsRefusedFor setup m source fault request
        → IfOk result (λ outcome. IsRejectedBy setup m source fault [] outcome.handled (seen_sent outcome.datagram)) }
{
    stripping_keeps_answers();
    stripping_keeps_the_rest();
    what_was_read_tells_the_reply();
    let status = rejection_status(fault);
    let datagram = rejection_of(alloc, request, source, top, fault, status)?;
    Ok(Outcome::sends(Handled::Answered(status.code()), datagram))
}
