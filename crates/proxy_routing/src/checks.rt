//! What a proxy asks of a request before it routes it.
ghost use Rattle.std.specs.Prelude.{◌≡◌, ◌↔◌, is_some, IsTrue, Result, Some};
ghost use Rattle.std.specs.Option.{option_copied};
ghost use Rattle.sip_uri.specs.declared.fault.UriFault.TheVariants as uris;
ghost use Rattle.sip_uri.specs.declared.fault.UriFault.{UriFault};
ghost use Rattle.sip_uri.specs.Fault.{fault_if_refused};
ghost use Rattle.sip_uri.specs.Uri.{Uri};
ghost use Rattle.sip_route.specs.Hops.{hops_of};
ghost use Rattle.sip_branch.specs.BranchText.{cookie};
ghost use Rattle.sip_via.specs.ViaParts.{or_empty};
ghost use Rattle.proxy_routing.specs.Admission.{are_hops, asks_extension, begins_with, has_via, is_spent, is_uri_or_other, is_well_formed, target_uri};

use sip_route::{MaxForwards, routes_are_readable};
use sip_text::Message;
use sip_uri::UriFault;
use sip_via::{sender_of, top_via};
use std::alloc::Allocator;

/// Whether a branch begins with the cookie of RFC 3261 section 8.1.1.7.
fn begins_with_cookie(branch: Option<&[u8]>) -> bool
    ensures { result ≡ begins_with cookie (or_empty (option_copied branch.entry)) }
{
    match branch {
        None => false,
        Some(branch) => branch.starts_with(b"z9hG4bK"),
    }
}

/// Whether the top Via value of a request can be read, and its branch begins as RFC 3261 has it (section 8.1.1.7).
pub fn has_via<A: Allocator>(message: &Message<A>) -> bool
    ensures { result ≡ has_via message.now }
{
    match sender_of(top_via(message)) {
        None => false,
        Some(sender) => begins_with_cookie(sender.branch),
    }
}

/// Whether Max-Forwards, where the request has one, can be read.
fn is_max_forwards_readable(hops: MaxForwards) -> bool
    ensures { result ≡ are_hops hops }
{
    match hops {
        MaxForwards::Unsaid | MaxForwards::Said(_) => true,
        MaxForwards::Wrong => false,
    }
}

/// Whether a text with this fault is of another scheme than `sip:`.
pub(crate) fn is_of_another_scheme(fault: Option<UriFault>) -> bool
    ensures { IsTrue result ↔ (fault ≡ Some uris.NotSip) }
{
    fault == Some(UriFault::NotSip)
}

/// Whether a text with this fault is a SIP URI, or one of another scheme.
fn is_uri_or_other(fault: Option<UriFault>) -> bool
    ensures { (uri : Result Uri UriFault) → fault ≡ fault_if_refused uri → result ≡ is_uri_or_other uri }
{
    match fault {
        None => true,
        Some(fault) => fault == UriFault::NotSip,
    }
}

/// Whether a request whose Request-URI has this fault has all that routing asks for: a top Via value that can be read, with a
/// branch, a Max-Forwards value that is a number, URIs in its Route values, and a Request-URI (RFC 3261 section 16.3 step 1).
pub(crate) fn is_formed<A: Allocator>(
    message: &Message<A>,
    via: bool,
    hops: MaxForwards,
    fault: Option<UriFault>,
) -> bool
    requires via { via ≡ has_via message.now }
    requires hops { hops ≡ hops_of message.now }
    requires fault { fault ≡ fault_if_refused (target_uri message.now) }
    ensures { result ≡ is_well_formed message.now }
{
    via && is_max_forwards_readable(hops) && routes_are_readable(message) && is_uri_or_other(fault)
}

/// Whether Max-Forwards is 0: no further proxy may pass the request on.
pub(crate) fn is_max_forwards_zero(hops: MaxForwards) -> bool
    ensures { result ≡ is_spent hops }
{
    match hops {
        MaxForwards::Unsaid | MaxForwards::Wrong => false,
        MaxForwards::Said(n) => n == 0,
    }
}

/// Whether the request asks the proxy for an extension (RFC 3261 section 16.3 step 5).
pub fn asks_extension<A: Allocator>(message: &Message<A>) -> bool
    ensures { result ≡ asks_extension message.now }
{
    message.values(b"proxy-require").next().is_some()
}
