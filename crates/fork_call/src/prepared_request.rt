//! Requests that may open calls, as they were prepared.
ghost use Rattle.std.specs.Prelude.{◌≡◌, true, IfSome};
ghost use Rattle.sip_text.specs.Name.{first_value};
ghost use Rattle.sip_build.specs.Forwarding.{is_request};
ghost use Rattle.sip_via.specs.Received.{reply_of};
ghost use Rattle.sip_via.specs.TopVia.{top_value};
ghost use Rattle.sip_via.specs.ViaParts.{via_of};
ghost use Rattle.sip_route.specs.Hops.{IsHops, hops_name};

use crate::opening_request::OpeningRequest;
use sip_text::Message;
use sip_uri::{Hop, SipUri};
use std::alloc::Allocator;
use std::marker::Model;

/// A request that may open a call, as it was prepared (RFC 3261 sections 16.3 steps 1 to 5, 16.4, 18.2.1 and 22.3), with the URI that
/// it names: what is left is to see where it goes.
#[derive(Drop)]
pub struct PreparedRequest<A: Allocator> {
    opening: OpeningRequest<A>,
    uri: SipUri<A>,
    caller: Hop,
}

impl<A: Allocator> Model for PreparedRequest<A> {
    ghost use Rattle.std.specs.Prelude.{◌≡◌, true, IfSome};
    ghost use Rattle.sip_text.specs.Name.{first_value};
    ghost use Rattle.sip_build.specs.Forwarding.{is_request};
    ghost use Rattle.sip_via.specs.Received.{reply_of};
    ghost use Rattle.sip_via.specs.TopVia.{top_value};
    ghost use Rattle.sip_via.specs.ViaParts.{via_of};
    ghost use Rattle.sip_route.specs.Hops.{IsHops, hops_name};
    ghost use Rattle.fork_call.specs.Prepared as spec;

    ghost Value = { spec.Prepared };

    ghost view = { λ p. record { request = p.opening.request; source = p.opening.source; uri = p.uri } };

    // it can be forwarded, and its answers go there
    ghost invariant = { λ p. (is_request p.opening.request.start ≡ true) × IfSome (first_value hops_name p.opening.request.headers) IsHops
        × (p.caller ≡ reply_of (via_of (top_value p.opening.request)) p.opening.source) };
}

impl<A: Allocator> PreparedRequest<A> {
    /// A request as it was prepared, with the URI that it names, and where its answers go.
    pub(crate) fn new(opening: OpeningRequest<A>, uri: SipUri<A>, caller: Hop) -> PreparedRequest<A>
        requires request { is_request opening.request.start ≡ true }
        requires hops { IfSome (first_value hops_name opening.request.headers) IsHops }
        requires caller { caller ≡ reply_of (via_of (top_value opening.request)) opening.source }
        ensures { result ≡ record { request = opening.request; source = opening.source; uri = uri } }
    {
        PreparedRequest {
            opening,
            uri,
            caller,
        }
    }

    /// The request.
    pub fn request(&self) -> &Message<A>
        ensures { result.now ≡ self.now.request }
    {
        &self.opening.request
    }

    /// Where it came from.
    pub fn source(&self) -> Hop
        ensures { result ≡ self.now.source }
    {
        self.opening.source
    }

    /// The URI that it names.
    pub fn uri(&self) -> &SipUri<A>
        ensures { result.now ≡ self.now.uri }
    {
        &self.uri
    }

    /// Where its answers go (RFC 3261 section 18.2.2).
    pub fn caller(&self) -> Hop
        ensures { result ≡ reply_of (via_of (top_value self.now.request)) self.now.source }
    {
        self.caller
    }

    /// The request as it is to open a call, and the URI.
    pub(crate) fn into_parts(self) -> (OpeningRequest<A>, SipUri<A>)
        ensures request { result.0.request ≡ self.request }
        ensures source { result.0.source ≡ self.source }
        ensures uri { result.1 ≡ self.uri }
        ensures is_request { is_request self.request.start ≡ true }
        ensures hops { IfSome (first_value hops_name self.request.headers) IsHops }
    {
        (self.opening, self.uri)
    }
}
