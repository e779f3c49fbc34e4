//! Requests that a proxy may route, as it routes them.
ghost use Rattle.std.specs.Prelude.{◌≡◌, IfErr, IfOk, IfSome, Ok, true};
ghost use Rattle.sip_text.specs.Name.{first_value};
ghost use Rattle.sip_route.specs.Hops.{IsHops, hops_name};
ghost use Rattle.sip_via.specs.Received.{marked};
ghost use Rattle.sip_via.specs.ReadTop.{IsTopOf};
ghost use Rattle.proxy_routing.specs.Admission.{IsAdmitted, IsPrepared, IsRoutable, is_well_formed};
ghost use Rattle.proxy_routing.specs.Unrouted.{IfRejected, IsTurnedBack};
ghost use Rattle.proxy_routing.specs.inner.Unrouted.{IsUnroutableAs};

use crate::checks::{is_formed, is_max_forwards_zero, is_of_another_scheme};
use crate::fault::RequestRejection;
use crate::law::{taking_credentials_keeps_the_rest, taking_own_routes_keeps_the_rest};
use crate::own_credentials::without_own_credentials;
use crate::own_routes::without_own_routes;
use crate::unrouted::Unrouted;
use proxy_config::Setup;
use sip_route::{is_loop, max_forwards, request_uri};
use sip_text::Message;
use sip_uri::{Hop, uri_fault};
use sip_via::{TopVia, ViaFault, add_source, marking_keeps_the_rest, readable_is_marked};
use std::alloc::{AllocError, Allocator};

/// The request with its source.
fn with_source<A: Allocator>(
    message: Message<A>,
    source: Hop,
    top: &TopVia<A>,
) -> Result<Message<A>, Unrouted<A>>
    requires { IsTopOf message source top.now }
    ensures marked { IfOk result (λ with_source. marked message source ≡ Ok with_source) }
    ensures refused { IfErr result (IfRejected (IsUnroutableAs message source)) }
{
    readable_is_marked();
    match add_source(message, source, top) {
        Ok(with_source) => Ok(with_source),
        Err(unmarked) => match unmarked.fault {
            ViaFault::BadVia => Err(Unrouted::Rejected(
                RequestRejection::BadRequest,
                unmarked.message,
            )),
            ViaFault::NoMemory => Err(Unrouted::NoMemory),
        },
    }
}

/// The request with its source, where it can be routed: the first three steps of RFC 3261 section 16.3.
fn routable<A: Allocator>(
    message: Message<A>,
    source: Hop,
    top: &TopVia<A>,
) -> Result<Message<A>, Unrouted<A>>
    requires { IsTopOf message source top.now }
    ensures marked { IfOk result (λ with_source. marked message source ≡ Ok with_source) }
    ensures well { IfOk result (λ _. IsRoutable message) }
    ensures hops { IfOk result (λ _. IfSome (first_value hops_name message.headers) IsHops) }
    ensures refused { IfErr result (IfRejected (IsUnroutableAs message source)) }
{
    let hops = max_forwards(&message);
    let fault = uri_fault(request_uri(&message));
    if !is_formed(&message, top.has_cookie(), hops, fault) {
        return Err(Unrouted::Rejected(RequestRejection::BadRequest, message));
    }
    let marked = with_source(message, source, top)?;
    if is_of_another_scheme(fault) {
        return Err(Unrouted::Rejected(RequestRejection::Scheme, marked));
    }
    if is_max_forwards_zero(hops) {
        return Err(Unrouted::Rejected(RequestRejection::Hops, marked));
    }
    Ok(marked)
}

/// The request with its source, without the Route values that the proxy takes away and the credentials for its realm, where it can
/// be routed.
fn prepared<A: Allocator + Clone>(
    alloc: A,
    setup: &Setup<A>,
    message: Message<A>,
    source: Hop,
    top: &TopVia<A>,
) -> Result<Message<A>, Unrouted<A>>
    requires { IsTopOf message source top.now }
    ensures routable { IfOk result (λ _. IsRoutable message) }
    ensures prepared { IfOk result (IsPrepared setup.now message source) }
    ensures start { IfOk result (λ request. request.start ≡ message.start) }
    ensures hops { IfOk result (λ request. IfSome (first_value hops_name request.headers) IsHops) }
    ensures refused { IfErr result (IfRejected (IsUnroutableAs message source)) }
{
    marking_keeps_the_rest();
    taking_own_routes_keeps_the_rest();
    taking_credentials_keeps_the_rest();
    let marked = routable(message, source, top)?;
    let routed = without_own_routes(setup, marked);
    let request = without_own_credentials(alloc, setup.realm(), routed)?;
    Ok(request)
}

/// The request as [`validate_request`] gives it, of whose top Via value this was read: the value is not read again.
///
/// # Errors
///
/// Those of [`validate_request`].
pub fn validate_read<A: Allocator + Clone>(
    alloc: A,
    setup: &Setup<A>,
    message: Message<A>,
    source: Hop,
    top: &TopVia<A>,
) -> Result<Message<A>, Unrouted<A>>
    requires { IsTopOf message source top.now }
    ensures admitted { IfOk result (IsAdmitted setup.now message source) }
    ensures start { IfOk result (λ request. request.start ≡ message.start) }
    ensures hops { IfOk result (λ request. IfSome (first_value hops_name request.headers) IsHops) }
    ensures refused { IfErr result (IfRejected (IsTurnedBack setup.now message source)) }
{
    let request = prepared(alloc, setup, message, source, top)?;
    if is_loop(&request, setup.own()) {
        return Err(Unrouted::Rejected(RequestRejection::Loop, request));
    }
    Ok(request)
}

/// The request as a proxy that is set up so routes it, which came from `source`: with its source, without a Route value at the
/// front that leads to the proxy, or, where the proxy is a service, without any there, and without the credentials for the realm
/// of the proxy (RFC 3261 sections 16.3 steps 1 to 4, 16.4, 18.2.1 and 22.3). It may be forwarded.
///
/// # Errors
///
/// `Rejected` with the first that holds of: `BadRequest`, with the request as it came; `Scheme`, `Hops`, with the request with its
/// source; `Loop`, with the request as it was prepared. `NoMemory` wherever the allocator refuses.
pub fn validate_request<A: Allocator + Clone>(
    alloc: A,
    setup: &Setup<A>,
    message: Message<A>,
    source: Hop,
) -> Result<Message<A>, Unrouted<A>>
    ensures admitted { IfOk result (IsAdmitted setup.now message source) }
    ensures start { IfOk result (λ request. request.start ≡ message.start) }
    ensures hops { IfOk result (λ request. IfSome (first_value hops_name request.headers) IsHops) }
    ensures refused { IfErr result (IfRejected (IsTurnedBack setup.now message source)) }
{
    match TopVia::of(&alloc, &message, source) {
        Ok(top) => validate_read(alloc, setup, message, source, &top),
        Err(AllocError) => Err(Unrouted::NoMemory),
    }
}
