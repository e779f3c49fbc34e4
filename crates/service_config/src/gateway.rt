//! Where requests for users that the domain has not got are sent.
ghost use Rattle.std.specs.Prelude.{◌≡◌, ◌≤◌, IfOk};
ghost use Rattle.std.specs.List.{list_any};
ghost use Rattle.std.specs.Option.{option_map};
ghost use Rattle.fork_rank.specs.Field.{most_q};
ghost use Rattle.sip_uri.specs.Hop.{hop_of};
ghost use Rattle.service_config.specs.Net.{address_number};
ghost use Rattle.service_config.specs.Settings.{gateway_at, is_gateway_at, is_same_hop};

use crate::net::address_number;
use proxy_config::is_reached;
use sip_uri::{Hop, SipUri};
use std::alloc::{Allocator, Global};
use std::marker::Model;

/// Where requests for users that the domain has not got are sent.
#[derive(Drop)]
pub struct Gateway<A: Allocator = Global> {
    q: u16,
    uri: SipUri<A>,
    hop: Hop,
}

impl<A: Allocator> Model for Gateway<A> {
    ghost use Rattle.std.specs.Prelude.{◌≤◌};
    ghost use Rattle.fork_rank.specs.Field.{most_q};
    ghost use Rattle.service_config.specs.Settings as spec;

    ghost Value = { spec.Gateway };

    ghost view = { λ g. record { q = g.q; uri = g.uri; hop = g.hop } };

    ghost invariant = { λ g. g.q ≤ most_q };
}

impl<A: Allocator> Gateway<A> {
    /// The q of the gateway, in thousandths, 0 to 1000: those with the greatest are tried first.
    pub fn q(&self) -> u16
        ensures value { result ≡ self.now.q }
        ensures most { result ≤ most_q }
    {
        self.q
    }

    /// The URI that a request to it has, but for its user.
    pub fn uri(&self) -> &SipUri<A>
        ensures { result.now ≡ self.now.uri }
    {
        &self.uri
    }

    /// The hop that a request to it goes by (RFC 3261 section 16.6 step 7).
    pub fn hop(&self) -> Hop
        ensures { result ≡ self.now.hop }
    {
        self.hop
    }

    /// Whether it has the address with this number.
    pub(crate) fn is_at(&self, number: u64) -> bool
        ensures { result ≡ is_gateway_at number self.now }
    {
        address_number(self.hop.addr) == number
    }

    /// Whether it has this address and port.
    fn has_hop(&self, hop: Hop) -> bool
        ensures { result ≡ is_same_hop hop self.now }
    {
        self.is_at(address_number(hop.addr)) && self.hop.port == hop.port
    }
}

impl<A: Allocator + Clone> Gateway<A> {
    /// The gateway of a q of at most 1000 and a URI that has no user and a hop that requests can go by, over TCP where the proxy has
    /// `streams`; `None` for any other URI.
    pub(crate) fn of(streams: bool, q: u16, uri: SipUri<A>) -> Option<Gateway<A>>
        requires { q ≤ most_q }
        ensures { result ≡ gateway_at streams q uri (hop_of uri) }
    {
        match uri.next_hop() {
            None => None,
            Some(hop) => {
                if is_reached(streams, hop.transport) && uri.user().is_none() {
                    Some(Gateway { q, uri, hop })
                } else {
                    None
                }
            }
        }
    }
}

/// Whether one of these gateways has this address and port.
pub(crate) fn any_has_hop<A: Allocator>(gateways: &[Gateway<A>], hop: Hop) -> bool
    ensures { result ≡ list_any (is_same_hop hop) gateways.now }
{
    gateways.iter().any(|gateway| gateway.has_hop(hop))
}

/// Whether one of these gateways has the address with this number.
pub(crate) fn any_is_at<A: Allocator>(gateways: &[Gateway<A>], number: u64) -> bool
    ensures { result ≡ list_any (is_gateway_at number) gateways.now }
{
    gateways.iter().any(|gateway| gateway.is_at(number))
}
