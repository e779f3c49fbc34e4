//! How a call opens.
ghost use Rattle.std.specs.Prelude.{◌≡◌, ◌≢◌, ◌<◌, ◌↔◌, ◌&&◌, [], ℕ, length, slice_get, true, IfErr, IfOk, IfSome, IsOk, IsTrue, Ok, Some};
ghost use Rattle.std.specs.List.{list_all};
ghost use Rattle.std.specs.Option.{option_and_then, option_map};
ghost use Rattle.fork_model.specs.Table.{Row};
ghost use Rattle.sip_text.specs.Name.{first_value};
ghost use Rattle.sip_via.specs.ReadTop.{IsTopOf};
ghost use Rattle.sip_via.specs.Received.{reply_of};
ghost use Rattle.sip_via.specs.TopVia.{top_value};
ghost use Rattle.sip_via.specs.ViaParts.{via_of};
ghost use Rattle.sip_route.specs.Hops.{IsHops, hops_name};
ghost use Rattle.sip_build.specs.Forwarding.{is_request};
ghost use Rattle.fork_rank.specs.KindView as kinds;
ghost use Rattle.fork_model.specs.Log.{opening_log, table_of};
ghost use Rattle.proxy_routing.specs.Admission.{target_uri};
ghost use Rattle.proxy_routing.specs.Unrouted.{IfRejected};
ghost use Rattle.fork_call.specs.Opening.{IsBegun, IsOpenable, IsRefusedFor, Reaches, tried_by, with_token};
ghost use Rattle.fork_call.specs.Prepared.{IsPreparedAs, IsStoppedFor, IsUnreachableAs};
ghost use Rattle.fork_call.specs.inner.Refused.{AsksAs, HasTarget};
ghost use Rattle.fork_call.specs.Destinations.{AreDestinations, destination_to};
ghost use Rattle.fork_call.specs.inner.Distinct.{AreDistinct};
ghost use Rattle.sip_uri.specs.Fault.{Gives, refusal};
ghost use Rattle.proxy_routing.specs.Targets.{has_hop, targets_of};

use crate::large::is_large;
use crate::opening_request::OpeningRequest;
use crate::prepared_request::PreparedRequest;
use crate::record_route::{RecordRoutes, is_stream, record_routes_of, text_in};
use call_branch::{Destination, OpenedRequest, Opening};
use call_caller::row_place;
use call_model::TriedContacts;
use call_state::CallState;
use fork_book::Book;
use fork_context::{Kind, NewFault};
use fork_rank::Rules;
use proxy_config::{DialogToken, Setup, locations_are_targets};
use proxy_routing::{
    CandidateTarget, RequestRejection, Unrouted, asks_extension, candidates, have_hops, hop_if_any,
    is_responsible_for, targets_of, validate_read, what_was_read_tells_the_reply,
};
use sip_route::{first_route, request_uri};
use sip_text::Message;
use sip_uri::{Hop, SipUri, UriFault};
use sip_via::TopVia;
use std::alloc::{AllocError, Allocator};

/// Where the request to a target that has a hop goes, over a connection where it is too large for a datagram, and how long its branch may
/// take.
fn destination_to<A: Allocator + Clone>(
    alloc: A,
    opened: &OpenedRequest<A>,
    candidate: &CandidateTarget<'_, A>,
) -> Result<Destination<A>, AllocError>
    requires hop { has_hop candidate.now ≡ true }
    ensures { IfOk result (λ destination. destination_to opened.now.large candidate.now ≡ Some destination) }
{
    let Some(hop) = candidate.hop() else {
        unreachable!()
    };
    let uri = candidate.uri().requested(alloc)?;
    Ok(Destination::new(uri, opened.sized_hop(hop), candidate.longest()))
}

/// Where the request to the target at that place goes.
fn destination_at<A: Allocator + Clone>(
    alloc: A,
    opened: &OpenedRequest<A>,
    candidates: &[CandidateTarget<'_, A>],
    place: usize,
) -> Result<Destination<A>, AllocError>
    requires there { place < length candidates.now }
    requires hops { list_all has_hop candidates.now ≡ true }
    ensures { IfOk result (λ destination. option_and_then (destination_to opened.now.large) (slice_get candidates.now place) ≡ Some destination) }
{
    destination_to(alloc, opened, &candidates[place])
}

/// The URI that a request names, where it can be read (RFC 3261 section 16.5).
///
/// # Errors
///
/// The fault of the Request-URI, as [`SipUri::read`] finds it; then `NoMemory`.
pub fn read_target<A: Allocator + Clone>(
    alloc: A,
    request: &Message<A>,
) -> Result<SipUri<A>, UriFault>
    ensures exact { Gives (λ uri. uri) result (target_uri request.now) }
    ensures refused { IfErr result (λ fault. fault ≡ refusal (target_uri request.now)) }
{
    SipUri::read(alloc, request_uri(request))
}

/// The URI that an admitted request names: it can be read (RFC 3261 sections 16.3 and 16.5).
///
/// # Errors
///
/// Only where the allocator refuses.
pub fn admitted_target<A: Allocator + Clone>(
    alloc: A,
    request: &Message<A>,
) -> Result<SipUri<A>, AllocError>
    requires readable { IsOk (target_uri request.now) }
    ensures { IfOk result (λ uri. target_uri request.now ≡ Ok uri) }
{
    SipUri::of_readable(alloc, request_uri(request))
}

/// Where the request of each row goes, in the order of the rows.
fn destinations_of<A: Allocator + Clone>(
    alloc: &A,
    opened: &OpenedRequest<A>,
    candidates: &[CandidateTarget<'_, A>],
    book: &Book<A>,
) -> Result<Vec<Destination<A>, A>, AllocError>
    requires hops { list_all has_hop candidates.now ≡ true }
    requires places { (n : ℕ) (row : Row) → slice_get (table_of book.now).rows n ≡ Some row → row.place < length candidates.now }
    ensures { IfOk result (λ destinations. AreDestinations opened.now.large candidates.now (table_of book.now).rows destinations.items) }
{
    let count = book.context().count();
    let mut destinations = Vec::with_capacity(alloc.clone()?, count as usize)?;
    for n in 0..book.context().count() {
        let place = row_place(book, n);
        destinations.push(destination_at(alloc.clone()?, opened, candidates, place)?)?;
    }
    Ok(destinations)
}

/// The book of a fork to these targets, of which there is one at least, no more than may be tried, and none twice: so want of
/// memory alone keeps it from being made.
fn book_of<A: Allocator + Clone>(
    alloc: A,
    kind: Kind,
    rules: Rules,
    candidates: &[CandidateTarget<'_, A>],
) -> Result<Book<A>, AllocError>
    requires some { candidates.now ≢ [] }
    requires distinct { AreDistinct candidates.now }
    ensures { IfOk result (λ book. book ≡ opening_log (kinds.kind_of kind) rules (targets_of candidates.now)) }
{
    let targets = targets_of(alloc.clone()?, candidates)?;
    match Book::new(alloc, kind, rules, targets) {
        Ok(book) => Ok(book),
        Err(NewFault::NoMemory) => Err(AllocError),
        Err(NewFault::NoTargets) => unreachable!(),
        Err(NewFault::TooMany) => unreachable!(),
        Err(NewFault::Twice) => unreachable!(),
    }
}

/// Shows that each row of a book that was opened to these targets is for one of them.
fn rows_have_places<A: Allocator + Clone>(
    book: &Book<A>,
    candidates: &[CandidateTarget<'_, A>],
    kind: Kind,
    rules: Rules,
)
    requires { book.now ≡ opening_log (kinds.kind_of kind) rules (targets_of candidates.now) }
    ensures { (n : ℕ) (row : Row) → slice_get (table_of book.now).rows n ≡ Some row → row.place < length candidates.now }
{}

/// The state of a call that begins to these targets, each of which has a hop.
fn begin<A: Allocator + Clone>(
    alloc: A,
    rules: Rules,
    opened: OpenedRequest<A>,
    candidates: &[CandidateTarget<'_, A>],
    now: u64,
) -> Result<CallState<A>, AllocError>
    requires hops { list_all has_hop candidates.now ≡ true }
    requires some { candidates.now ≢ [] }
    requires distinct { AreDistinct candidates.now }
    ensures { IfOk result (IsBegun rules opened candidates.now) }
{
    let kind = opened.kind();
    let book = book_of(alloc.clone()?, kind, rules, candidates)?;
    rows_have_places(&book, candidates, kind, rules);
    let destinations = destinations_of(&alloc, &opened, candidates, &book)?;
    CallState::begin(alloc, opened, book, destinations, now)
}

/// Which contacts of a 3xx a call tries, by whether the proxy is responsible for the Request-URI of its request, and whether it
/// has streams (RFC 3261 section 16.5).
fn tried_by(responsible: bool, streams: bool) -> TriedContacts
    ensures { result ≡ tried_by responsible streams }
{
    match (responsible, streams) {
        (false, _) => TriedContacts::NoContacts,
        (true, false) => TriedContacts::OverUdp,
        (true, true) => TriedContacts::Every,
    }
}

/// The number of a call until it gets its own.
const NO_NUMBER: u64 = 0;

/// The state of the call that opens for a request to this URI, as it was prepared.
fn open_at<A: Allocator + Clone>(
    setup: &Setup<A>,
    token: Option<DialogToken>,
    opening: OpeningRequest<A>,
    uri: &SipUri<A>,
    caller: Hop,
) -> Result<CallState<A>, Unrouted<A>>
    requires request { is_request opening.request.start ≡ true }
    requires caller { caller ≡ reply_of (via_of (top_value opening.request)) opening.source }
    requires hops { IfSome (first_value hops_name opening.request.headers) IsHops }
    ensures opened { IfOk result (Reaches (with_token token setup.now) 0 opening.request opening.source uri.now) }
    ensures refused { IfErr result (IfRejected (IsUnreachableAs setup.now opening.request uri.now)) }
{
    let OpeningRequest {
        alloc,
        request,
        source: _,
        now,
    } = opening;
    let route = first_route(&request);
    let inside = is_responsible_for(setup, uri);
    let candidates = candidates(alloc.clone()?, setup, inside, route, uri)?;
    if candidates.is_empty() {
        return Err(Unrouted::Rejected(RequestRejection::NoTarget, request));
    }
    if !have_hops(&candidates) {
        return Err(Unrouted::Rejected(RequestRejection::NoHop, request));
    }
    let streams = setup.has_streams();
    let from = is_stream(caller.transport);
    let recorded = record_routes_of(alloc.clone()?, setup, token, &request, from)?;
    let RecordRoutes { datagram, stream } = recorded;
    let large = is_large(alloc.clone()?, setup, &request, uri, text_in(&datagram))?;
    let opened = OpenedRequest::new(Opening {
        number: NO_NUMBER,
        own: setup.own(),
        instance: setup.instance(),
        request,
        caller,
        route: hop_if_any(streams, route),
        tried: tried_by(inside, streams),
        record_route: datagram,
        stream_record_route: stream,
        stamps: setup.stamps(),
        reasons: setup.gives_reasons(),
        ring: setup.ring(),
        large,
    });
    locations_are_targets();
    let _locations = setup.locations();
    match begin(alloc, setup.rules(), opened, &candidates, now) {
        Ok(state) => Ok(state),
        Err(AllocError) => Err(Unrouted::NoMemory),
    }
}

/// The request as it was prepared, with the URI that it names, and where its answers go.
fn with_target<A: Allocator + Clone>(
    opening: OpeningRequest<A>,
    caller: Hop,
) -> Result<PreparedRequest<A>, Unrouted<A>>
    requires request { is_request opening.request.start ≡ true }
    requires caller { caller ≡ reply_of (via_of (top_value opening.request)) opening.source }
    requires hops { IfSome (first_value hops_name opening.request.headers) IsHops }
    requires readable { IsOk (target_uri opening.request) }
    ensures target { IfOk result (HasTarget opening.request opening.source) }
    ensures refused { IfErr result (IfRejected (AsksAs opening.request)) }
{
    if asks_extension(&opening.request) {
        return Err(Unrouted::Rejected(RequestRejection::Extension, opening.request));
    }
    let uri = admitted_target(opening.alloc.clone()?, &opening.request)?;
    Ok(PreparedRequest::new(opening, uri, caller))
}

/// Whether a message is a request that may open a call: neither an ACK nor a CANCEL, which are for a call that was opened
/// (RFC 3261 sections 9.2 and 17.2.1).
pub fn is_openable<A: Allocator>(message: &Message<A>) -> bool
    ensures { IsTrue result ↔ IsOpenable message.now.start }
{
    message.stands_alone()
}

/// A request that may open a call, as [`prepare`] prepares it, of whose top Via value this was read: the value is not read again.
///
/// # Errors
///
/// Those of [`prepare`].
pub fn prepare_read<A: Allocator + Clone>(
    setup: &Setup<A>,
    opening: OpeningRequest<A>,
    top: &TopVia<A>,
) -> Result<PreparedRequest<A>, Unrouted<A>>
    requires openable { IsOpenable opening.request.start }
    requires top { IsTopOf opening.request opening.source top.now }
    ensures prepared { IfOk result (IsPreparedAs setup.now opening.request opening.source) }
    ensures refused { IfErr result (IfRejected (IsStoppedFor setup.now opening.request opening.source)) }
{
    what_was_read_tells_the_reply();
    let OpeningRequest {
        alloc,
        request,
        source,
        now,
    } = opening;
    match validate_read(alloc.clone()?, setup, request, source, top) {
        Ok(request) => with_target(
            OpeningRequest {
                alloc,
                request,
                source,
                now,
            },
            top.reply_hop(source),
        ),
        Err(why) => Err(why),
    }
}

/// A request that may open a call, as it is prepared; it is neither an ACK nor a CANCEL (RFC 3261 sections 16.3 steps 1 to 5, 16.4,
/// 18.2.1 and 22.3).
///
/// # Errors
///
/// `Rejected` with the first of those of [`RequestRejection`] up to `Extension` that holds, and the request as far as it was prepared;
/// `NoMemory` wherever the allocator refuses.
pub fn prepare<A: Allocator + Clone>(
    setup: &Setup<A>,
    opening: OpeningRequest<A>,
) -> Result<PreparedRequest<A>, Unrouted<A>>
    requires { IsOpenable opening.request.start }
    ensures prepared { IfOk result (IsPreparedAs setup.now opening.request opening.source) }
    ensures refused { IfErr result (IfRejected (IsStoppedFor setup.now opening.request opening.source)) }
{
    match TopVia::of(&opening.alloc, &opening.request, opening.source) {
        Ok(top) => prepare_read(setup, opening, &top),
        Err(AllocError) => Err(Unrouted::NoMemory),
    }
}

/// The state of the call that a request opens, as it was prepared. The targets of a request to the domain are the locations of its
/// user; the one target of any other is its Request-URI, for which the proxy is not responsible: contacts of a 3xx are tried in the
/// domain alone (RFC 3261 sections 16.5 and 16.6). Nothing was sent yet; a 100 is owed to an INVITE. The call has number 0 until it
/// is given its own. Where there is a token, it stands in the Record-Route line in place of the setup's own.
///
/// # Errors
///
/// `Rejected` with `NoTarget` or `NoHop`, and the request; `NoMemory` wherever the allocator refuses.
pub fn open_to<A: Allocator + Clone>(
    setup: &Setup<A>,
    token: Option<DialogToken>,
    prepared: PreparedRequest<A>,
) -> Result<CallState<A>, Unrouted<A>>
    ensures opened { IfOk result (Reaches (with_token token setup.now) 0 prepared.request prepared.source prepared.uri) }
    ensures refused { IfErr result (IfRejected (IsUnreachableAs setup.now prepared.request prepared.uri)) }
{
    let caller = prepared.caller();
    let (opening, uri) = prepared.into_parts();
    open_at(setup, token, opening, &uri, caller)
}
