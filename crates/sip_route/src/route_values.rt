//! The Route values of a request, one by one, and what is asked of them.

ghost use Rattle.std.specs.Prelude.{◌≡◌, [], ◌∷◌, ◌++◌, IfSome, IfNone};
ghost use Rattle.std.specs.List.{flat_map, list_all};
ghost use Rattle.std.specs.Option.{option_copied};
ghost use Rattle.sip_route.specs.RouteValues.{first_route, led_to, is_route, route_values, values_in};
ghost use Rattle.sip_route.specs.inner.RouteValues.{values_behind, values_left};
ghost use Rattle.sip_route.specs.Routes.{bracketed, hop_at_text};

use crate::routes::{ROUTE, bracketed, hop_of};
use sip_lex::{Shelter, cut_outside};
use sip_text::{HeaderValues, Message};
use sip_uri::{Hop, uri_fault};
use std::alloc::Allocator;
use std::marker::Model;

/// Where the first Route value of a request leads.
#[derive(Clone, Copy, Debug, PartialEq, Eq)]
pub enum FirstRoute {
    /// The request has no Route value.
    Absent,
    /// The value has no SIP URI in angle brackets, or one that leads to no IPv4 address over UDP.
    NoHop,
    /// To this hop.
    To(Hop),
}

/// The Route values that are left.
#[derive(Drop)]
struct RouteValues<'a> {
    line: Option<&'a [u8]>,
    lines: HeaderValues<'a, 'static>,
}

impl<'a> Model for RouteValues<'a> {
    ghost use Rattle.std.specs.Prelude.{List, ℕ};
    ghost use Rattle.std.specs.Option.{option_copied};
    ghost use Rattle.sip_route.specs.inner.RouteValues.{values_left};

    ghost Value = { List (List ℕ) };

    ghost view = { λ v. values_left (option_copied v.line) v.lines };
}

/// The first value of a line, and what stands behind its comma.
fn cut_value(text: &[u8]) -> (&[u8], Option<&[u8]>)
    ensures { values_in text.now ≡ result.0.now ∷ values_behind (option_copied result.1) }
{
    cut_outside(text, b',', Shelter::QuotesAndAngles)
}

/// The line that is begun, or else the next one.
fn take_line<'a>(
    line: &mut Option<&'a [u8]>,
    lines: &mut HeaderValues<'a, 'static>,
) -> Option<&'a [u8]>
    ensures some { IfSome result
        (λ text. values_left (option_copied line.old) lines.old ≡ values_in text.now ++ flat_map values_in lines.new) }
    ensures none { IfNone result (values_left (option_copied line.old) lines.old ≡ []) }
{
    match line.take() {
        Some(text) => Some(text),
        None => lines.next(),
    }
}

impl<'a> RouteValues<'a> {
    ghost use Rattle.std.specs.Prelude.{◌≡◌, [], ◌∷◌, IfSome, IfNone};
    ghost use Rattle.sip_route.specs.RouteValues.{route_values};

    /// All Route values of a message.
    fn of<A: Allocator>(message: &'a Message<A>) -> RouteValues<'a>
        ensures { result ≡ route_values message.now }
    {
        RouteValues {
            line: None,
            lines: message.values(ROUTE),
        }
    }

    /// The first of those that are left, which then is not.
    fn next(&mut self) -> Option<&'a [u8]>
        ensures some { IfSome result (λ value. self.old ≡ value.now ∷ self.new) }
        ensures none { IfNone result (self.old ≡ []) }
    {
        let text = take_line(&mut self.line, &mut self.lines)?;
        let (value, after) = cut_value(text);
        self.line = after;
        Some(value)
    }
}

/// Whether a Route value has a SIP URI in angle brackets.
fn is_route(value: &[u8]) -> bool
    ensures { result ≡ is_route value.now }
{
    match bracketed(value) {
        None => false,
        Some(text) => uri_fault(text).is_none(),
    }
}

/// Whether each Route value of a request has a SIP URI in angle brackets (RFC 3261 section 20.34). The
/// values of a line stand between its commas outside quotes and angle brackets.
pub fn routes_are_readable<A: Allocator>(message: &Message<A>) -> bool
    ensures { result ≡ list_all is_route (route_values message.now) }
{
    let mut values = RouteValues::of(message);
    while let Some(value) = values.next() {
        if !is_route(value) {
            return false;
        }
    }
    true
}

/// Where a Route value leads.
fn led_to(value: &[u8]) -> FirstRoute
    ensures { result ≡ led_to (hop_at_text (bracketed value.now)) }
{
    match hop_of(value) {
        None => FirstRoute::NoHop,
        Some(hop) => FirstRoute::To(hop),
    }
}

/// Where the first Route value of a request leads: to the next hop of the URI in its angle brackets,
/// and the request is sent there instead of to its target (RFC 3261 section 16.6 steps 6 and 7).
pub fn first_route<A: Allocator>(message: &Message<A>) -> FirstRoute
    ensures { result ≡ first_route message.now }
{
    match RouteValues::of(message).next() {
        None => FirstRoute::Absent,
        Some(value) => led_to(value),
    }
}
