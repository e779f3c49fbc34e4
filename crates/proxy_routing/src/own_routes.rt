//! The Route values of a request that lead to the proxy itself.
ghost use Rattle.std.specs.Prelude.{◌≡◌};
ghost use Rattle.proxy_routing.specs.OwnRoutes.{leads_home, leads_to, stripped_all, stripped_home, without_own_routes};

use proxy_config::Setup;
use sip_route::{FirstRoute, first_route, is_own, strip, stripping_keeps_the_rest};
use sip_text::Message;
use sip_via::Own;
use std::alloc::Allocator;

/// Whether a Route value that leads there leads to this address of the proxy.
fn leads_to(own: Own, route: FirstRoute) -> bool
    ensures { result ≡ leads_to own route }
{
    match route {
        FirstRoute::Absent | FirstRoute::NoHop => false,
        FirstRoute::To(hop) => is_own(own, Some(hop)),
    }
}

/// Whether a Route value that leads there leads to the proxy itself: to the address that it receives at, or to the one that its
/// Record-Route line names.
fn leads_home(own: Own, route: Own, first: FirstRoute) -> bool
    ensures { result ≡ leads_home own route first }
{
    leads_to(own, first) || leads_to(route, first)
}

/// The request without its first Route value, where that leads to the proxy.
fn strip_home<A: Allocator>(message: Message<A>, own: Own, route: Own) -> Message<A>
    ensures { result ≡ stripped_home own route message }
{
    if leads_to(own, first_route(&message)) {
        strip(message, own)
    } else {
        strip(message, route)
    }
}

/// The request without the Route values at its front that lead to the proxy, as many as there are.
fn strip_all<A: Allocator>(message: Message<A>, own: Own, route: Own) -> Message<A>
    ensures { result ≡ stripped_all own route message }
{
    stripping_keeps_the_rest();
    let mut message = message;
    while leads_home(own, route, first_route(&message)) {
        message = strip_home(message, own, route);
    }
    message
}

/// The request without the Route values at its front that the proxy takes away before it sends the request on (RFC 3261
/// section 16.4): a service takes away all that lead to it, so that none of them makes it send the request to itself, and
/// any other proxy the first alone. It takes no memory.
pub(crate) fn without_own_routes<A: Allocator>(setup: &Setup<A>, message: Message<A>) -> Message<A>
    ensures { result ≡ without_own_routes setup.now message }
{
    if setup.is_for_a_service() {
        strip_all(message, setup.own(), setup.route())
    } else {
        strip(message, setup.own())
    }
}
