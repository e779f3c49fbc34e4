//! Gateways, by which users are reached that the domain has not got.
ghost use Rattle.std.specs.Prelude.{◌≡◌, ◌∷◌, ◌++◌, IfOk, drop, map, take};
ghost use Rattle.service_decisions.specs.Targets.{gateway_contact, may_use_gateways, uri_for};

use crate::contacts::MOST_Q;
use authentication::Rule;
use proxy_config::BoundContact;
use service_config::{Gateway, ServiceSettings};
use sip_uri::{Hop, SipUri};
use std::alloc::{AllocError, Allocator};
use std::marker::Model;

/// Whether the gateways may be used for a request that is opened by this rule and came from there.
pub fn may_use_gateways<A: Allocator + Clone>(
    settings: &ServiceSettings<A>,
    rule: Rule,
    source: Hop,
) -> bool
    ensures { result ≡ may_use_gateways settings.now rule source }
{
    match rule {
        Rule::Trusted => !settings.is_of_gateway(source.addr),
        Rule::Password => true,
        Rule::InDialog | Rule::Stranger => false,
    }
}

/// A scheme of three letters with its colon, at the front of a text.
fn scheme_of(text: &[u8]) -> &[u8]
    ensures { result.now ≡ take 4 text.now }
{
    text.get(..4).unwrap_or(text)
}

/// What stands behind a scheme of three letters with its colon.
fn behind_scheme(text: &[u8]) -> &[u8]
    ensures { result.now ≡ drop 4 text.now }
{
    text.get(4..).unwrap_or(b"")
}

/// A text with this user behind its scheme.
fn with_user<A: Allocator>(alloc: A, text: &[u8], user: &[u8]) -> Result<Vec<u8, A>, AllocError>
    ensures { IfOk result (λ made. made.items ≡ take 4 text.now ++ (user.now ++ (64 ∷ drop 4 text.now))) }
{
    let mut made = Vec::new(alloc);
    made.extend_from_slice(scheme_of(text))?;
    made.extend_from_slice(user)?;
    made.push(b'@')?;
    made.extend_from_slice(behind_scheme(text))?;
    Ok(made)
}

/// A gateway's URI as it stands in a request, with this user behind its scheme.
fn uri_for<A: Allocator + Clone, B: Allocator + Clone>(
    alloc: A,
    uri: &SipUri<B>,
    user: &[u8],
) -> Result<Vec<u8, A>, AllocError>
    ensures { IfOk result (λ text. text.items ≡ uri_for user.now uri.now) }
{
    let mut own = Vec::new(alloc.clone()?);
    uri.request_uri(&mut own)?;
    with_user(alloc, &own, user)
}

/// A gateway as a user is reached by it.
#[derive(Drop)]
pub(crate) struct GatewayTarget<A: Allocator> {
    uri: Vec<u8, A>,
    q: u16,
    hop: Hop,
}

impl<A: Allocator> Model for GatewayTarget<A> {
    ghost use Rattle.std.specs.Prelude.{◌≤◌, []};
    ghost use Rattle.fork_rank.specs.Field.{most_q};
    ghost use Rattle.proxy_config.specs.Moment as spec;

    ghost Value = { spec.BoundContact };

    ghost view = { λ t. record { uri = t.uri.items; key = []; q = t.q; hop = t.hop } };

    ghost invariant = { λ t. t.q ≤ most_q };
}

impl<A: Allocator> GatewayTarget<A> {
    /// The contact that it is.
    fn contact(&self) -> BoundContact<'_>
        ensures { result ≡ self.now }
    {
        BoundContact::new(&self.uri, b"", self.q, self.hop)
    }
}

/// A gateway as this user is reached by it.
fn target_for<A: Allocator + Clone, B: Allocator + Clone>(
    alloc: A,
    gateway: &Gateway<B>,
    user: &[u8],
) -> Result<GatewayTarget<A>, AllocError>
    ensures { IfOk result (λ target. target ≡ gateway_contact user.now gateway.now) }
{
    let uri = uri_for(alloc, gateway.uri(), user)?;
    Ok(GatewayTarget {
        uri,
        q: gateway.q().min(MOST_Q),
        hop: gateway.hop(),
    })
}

/// Gateways as this user is reached by them, in their order.
pub(crate) fn targets_for<A: Allocator + Clone, B: Allocator + Clone>(
    alloc: &A,
    gateways: &[Gateway<B>],
    user: &[u8],
) -> Result<Vec<GatewayTarget<A>, A>, AllocError>
    ensures { IfOk result (λ targets. targets.items ≡ map (gateway_contact user.now) gateways.now) }
{
    let mut targets = Vec::new(alloc.clone()?);
    for gateway in gateways {
        targets.push(target_for(alloc.clone()?, gateway, user)?)?;
    }
    Ok(targets)
}

/// The contacts that these are.
pub(crate) fn contacts_of<'a, A: Allocator, B: Allocator>(
    alloc: A,
    targets: &'a [GatewayTarget<B>],
) -> Result<Vec<BoundContact<'a>, A>, AllocError>
    ensures { IfOk result (λ contacts. contacts.items ≡ targets.entry.now) }
{
    let mut contacts = Vec::new(alloc);
    for target in targets {
        contacts.push(target.contact())?;
    }
    Ok(contacts)
}
