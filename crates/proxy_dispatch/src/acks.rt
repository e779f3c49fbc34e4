//! ACKs that no call takes: an ACK of an answer of the proxy's own is absorbed, an ACK of an answer that went up goes
//! on.
ghost use Rattle.std.specs.Prelude.{◌≡◌, ◌↔◌, [], IfOk, IfSome, IsOk, IsTrue, Some, true};
ghost use Rattle.sip_text.specs.Name.{first_value};
ghost use Rattle.sip_via.specs.ReadTop.{IsTopOf};
ghost use Rattle.sip_route.specs.Hops.{IsHops, hops_name};
ghost use Rattle.sip_build.specs.Forwarding.{is_request};
ghost use Rattle.proxy_routing.specs.Admission.{target_uri};
ghost use Rattle.call_model.specs.SeenDatagram.{seen};
ghost use Rattle.proxy_dispatch.specs.declared.purpose.RequestKind.TheVariants as purposes;
ghost use Rattle.proxy_dispatch.specs.Becomes.{AckBecomes, UnknownBecomes};
ghost use Rattle.proxy_dispatch.specs.Passing.{GoesOn, HasOwnTag, Passes};
ghost use Rattle.proxy_dispatch.specs.Sent.{passed_on, passed_text, passing_branch};
ghost use Rattle.proxy_dispatch.specs.inner.Sent.{seen_sent};

use crate::admission::{Admission, Decision};
use crate::datagrams::Handled;
use crate::outcome::Outcome;
use crate::received::ReadRequest;
use fork_call::{Cause, Datagram, Setup, admitted_target};
use proxy_routing::{hop_to, is_responsible_for, validate_read};
use sip_branch::BranchName;
use sip_build::{own_tag, write_forwarded};
use sip_route::{first_route, loop_key};
use sip_text::Message;
use sip_uri::{Hop, SipUri};
use sip_via::TopVia;
use std::alloc::{AllocError, Allocator};
use std::sync::Wait;

/// The number of the call in the branch of an ACK that goes on: the ACK belongs to no call.
const NO_CALL: u64 = 0;

/// The number of the target in the branch of an ACK that goes on: no target of a call has this number.
const NO_TARGET: u16 = 65_535;

/// Whether the To of a request has the tag of the proxy's own answers (RFC 3261 section 8.2.6.2).
fn has_own_tag<A: Allocator>(request: &Message<A>) -> bool
    ensures { IsTrue result ↔ HasOwnTag request.now }
{
    let own = own_tag(request);
    request.to_tag() == Some(own.as_slice())
}

/// The branch of an ACK that goes on.
fn passing_branch<A: Allocator>(setup: &Setup<A>, request: &Message<A>) -> BranchName
    ensures { result ≡ passing_branch setup.now request.now }
{
    BranchName {
        key: loop_key(request),
        instance: setup.instance(),
        context: NO_CALL,
        target: NO_TARGET,
    }
}

/// The text of a request as it goes on to this URI (RFC 3261 section 16.6).
fn passed_text<A: Allocator + Clone>(
    alloc: A,
    setup: &Setup<A>,
    request: &Message<A>,
    uri: &SipUri<A>,
    hop: Hop,
) -> Result<Vec<u8, A>, AllocError>
    requires request { is_request request.now.start ≡ true }
    requires hops { IfSome (first_value hops_name request.now.headers) IsHops }
    ensures { IfOk result (λ text. text.items ≡ passed_text setup.now request.now uri.now hop) }
{
    let branch = passing_branch(setup, request);
    let mut text = Vec::new(alloc);
    let own = setup.own().over(hop.transport);
    write_forwarded(request, uri, own, &branch, None, &mut text)?;
    Ok(text)
}

/// The request as it goes on to this URI by this hop.
fn passed_on<A: Allocator + Clone>(
    alloc: A,
    setup: &Setup<A>,
    request: &Message<A>,
    uri: &SipUri<A>,
    hop: Hop,
) -> Result<Datagram<A>, AllocError>
    requires request { is_request request.now.start ≡ true }
    requires hops { IfSome (first_value hops_name request.now.headers) IsHops }
    ensures { IfOk result (λ datagram. seen datagram ≡ passed_on setup.now request.now uri.now hop) }
{
    let bytes = passed_text(alloc, setup, request, uri, hop)?;
    Ok(Datagram {
        to: hop,
        bytes,
        cause: Cause::Request(NO_TARGET),
    })
}

/// What goes on of a request that was admitted: nothing where it is for the domain, or no hop leads further.
fn going_on<A: Allocator + Clone>(
    alloc: A,
    setup: &Setup<A>,
    request: &Message<A>,
) -> Result<Option<Datagram<A>>, AllocError>
    requires request { is_request request.now.start ≡ true }
    requires hops { IfSome (first_value hops_name request.now.headers) IsHops }
    requires readable { IsOk (target_uri request.now) }
    ensures { IfOk result (λ sent. GoesOn setup.now request.now (seen_sent sent)) }
{
    let uri = admitted_target(alloc.clone()?, request)?;
    if is_responsible_for(setup, &uri) {
        return Ok(None);
    }
    match hop_to(setup, first_route(request), &uri) {
        None => Ok(None),
        Some(hop) => Ok(Some(passed_on(alloc, setup, request, &uri, hop)?)),
    }
}

/// What goes on of an ACK that came from `source`: nothing where one of the first four steps of RFC 3261 section 16.3
/// stops it.
fn passing<A: Allocator + Clone>(
    alloc: A,
    setup: &Setup<A>,
    ack: Message<A>,
    source: Hop,
    top: &TopVia<A>,
) -> Result<Option<Datagram<A>>, AllocError>
    requires request { is_request ack.start ≡ true }
    requires top { IsTopOf ack source top.now }
    ensures { IfOk result (λ sent. Passes setup.now ack source (seen_sent sent)) }
{
    match validate_read(alloc.clone()?, setup, ack, source, top) {
        Ok(request) => going_on(alloc, setup, &request),
        Err(why) => match why.fault().status() {
            Some(_) => Ok(None),
            None => Err(AllocError),
        },
    }
}

/// What becomes of an ACK from `source` that is for no call, none of an answer of the proxy's own, with this setup: it goes on where
/// it can (RFC 3261 section 16.11).
fn going<A: Allocator + Clone>(
    alloc: A,
    setup: &Setup<A>,
    ack: Message<A>,
    source: Hop,
    top: &TopVia<A>,
) -> Result<Outcome<A>, AllocError>
    requires request { is_request ack.start ≡ true }
    requires top { IsTopOf ack source top.now }
    requires other { HasOwnTag ack → ⊥ }
    ensures { IfOk result (λ outcome. AckBecomes setup.now ack source outcome.handled (seen_sent outcome.datagram)) }
{
    match passing(alloc, setup, ack, source, top)? {
        None => Ok(Outcome::silent(Handled::Dropped)),
        Some(datagram) => Ok(Outcome::sends(Handled::Forwarded, datagram)),
    }
}

/// What becomes of an ACK that is for no call: it is absorbed where it acknowledges an answer of the proxy's own; any other goes on
/// where it can and would be opened, and is dropped else (RFC 3261 sections 16.11 and 17.2.1).
pub(crate) fn acknowledged<A: Allocator + Clone, N: Admission<A>, R: Wait>(
    rt: &R,
    setup: &Setup<A>,
    admission: &N,
    received: ReadRequest<A>,
) -> Result<Outcome<A>, AllocError>
    requires request { is_request received.message.start ≡ true }
    requires top { IsTopOf received.message received.source received.top }
    ensures { IfOk result (λ outcome. UnknownBecomes (N.serving admission.now) setup.now received.message received.source received.now purposes.Ack
        [] outcome.handled (seen_sent outcome.datagram)) }
{
    let ReadRequest {
        alloc,
        message: ack,
        top,
        source,
        now,
    } = received;
    if has_own_tag(&ack) {
        return Ok(Outcome::silent(Handled::Absorbed));
    }
    let decision = admission.decides(rt, &alloc, setup, &ack, source, now)?;
    match decision {
        Decision::Opens => going(alloc, setup, ack, source, &top),
        Decision::OpensWith(_) => going(alloc, setup, ack, source, &top),
        Decision::OpensBy(moment) => going(alloc, &moment, ack, source, &top),
        Decision::Answers(_) => Ok(Outcome::silent(Handled::Dropped)),
        Decision::Leaves => Ok(Outcome::silent(Handled::Dropped)),
    }
}
