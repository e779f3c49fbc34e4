//! Whose bindings count for a request.
ghost use Rattle.std.specs.Prelude.{◌≡◌, IfOk};
ghost use Rattle.std.specs.Option.{option_copied, option_map};
ghost use Rattle.service_decisions.specs.SeenPlace.{seen_place};
ghost use Rattle.service_decisions.specs.Targets.{beyond, may_be_contact, of_user, place_at, place_of, user_in_to, user_of};
ghost use Rattle.std.specs.Prelude.{Ok};

use authentication::{Rule, party_uri};
use proxy_config::Setup;
use proxy_routing::is_responsible_for;
use sip_route::{first_value, request_uri};
use sip_text::Message;
use sip_uri::{SipUri, UriFault};
use std::alloc::{AllocError, Allocator, Global};

/// Whose bindings count for a request.
#[derive(Drop)]
pub enum Place<A: Allocator = Global> {
    /// Those of the user of the domain that it is for.
    OfUser(Vec<u8, A>),
    /// It is for a URI that is not of the domain, and those of the user of the domain in its To count: it may be for one of them.
    Beyond(Vec<u8, A>),
    /// Nobody's.
    Nowhere,
}

/// The user that a URI of the domain names.
fn user_of<A: Allocator + Clone>(
    alloc: A,
    setup: &Setup<A>,
    uri: &SipUri<A>,
) -> Result<Option<Vec<u8, A>>, AllocError>
    ensures { IfOk result (λ user. option_map (λ u. u.items) user ≡ user_of setup.now uri.now) }
{
    if !is_responsible_for(setup, uri) {
        return Ok(None);
    }
    match uri.user() {
        None => Ok(None),
        Some(user) => Ok(Some(Vec::from_slice(alloc, user)?)),
    }
}

/// The user of the domain in To.
fn user_in_to<A: Allocator + Clone>(
    alloc: A,
    setup: &Setup<A>,
    request: &Message<A>,
) -> Result<Option<Vec<u8, A>>, AllocError>
    ensures { IfOk result (λ user. option_map (λ u. u.items) user ≡ user_in_to setup.now request.now) }
{
    match party_uri(alloc.clone()?, first_value(request, b"to"))? {
        None => Ok(None),
        Some(uri) => user_of(alloc, setup, &uri),
    }
}

/// The place of a user, if there is one.
fn of_user<A: Allocator>(alloc: A, user: Option<&[u8]>) -> Result<Place<A>, AllocError>
    ensures { IfOk result (λ place. seen_place place ≡ of_user (option_copied user.entry)) }
{
    match user {
        None => Ok(Place::Nowhere),
        Some(user) => Ok(Place::OfUser(Vec::from_slice(alloc, user)?)),
    }
}

/// The place of a request for a URI that is not of the domain, where this user of the domain stands in its To.
fn beyond<A: Allocator>(user: Option<Vec<u8, A>>) -> Place<A>
    ensures { seen_place result ≡ beyond (option_map (λ u. u.items) user) }
{
    match user {
        None => Place::Nowhere,
        Some(user) => Place::Beyond(user),
    }
}

/// The place of a request for this URI.
fn place_at<A: Allocator + Clone>(
    alloc: A,
    setup: &Setup<A>,
    within: bool,
    request: &Message<A>,
    uri: &SipUri<A>,
) -> Result<Place<A>, AllocError>
    ensures { IfOk result (λ place. seen_place place ≡ place_at setup.now within request.now (Ok uri.now)) }
{
    if is_responsible_for(setup, uri) {
        return of_user(alloc, uri.user());
    }
    if !within {
        return Ok(Place::Nowhere);
    }
    Ok(beyond(user_in_to(alloc, setup, request)?))
}

/// Whether a request that is opened by this rule may be for a contact.
fn may_be_contact(rule: Rule) -> bool
    ensures { result ≡ may_be_contact rule }
{
    match rule {
        Rule::Trusted | Rule::InDialog => true,
        Rule::Password | Rule::Stranger => false,
    }
}

/// Whose bindings count for a request that is opened by this rule: those of the user of the domain that its Request-URI names; where that is
/// not of the domain, and the request is trusted or of a dialog, those of the user of the domain in To (RFC 3261 sections 12.2.1.1 and 16.5).
///
/// # Errors
///
/// Only where the allocator refuses.
pub fn place_of<A: Allocator + Clone>(
    alloc: A,
    setup: &Setup<A>,
    rule: Rule,
    request: &Message<A>,
) -> Result<Place<A>, AllocError>
    ensures { IfOk result (λ place. seen_place place ≡ place_of setup.now rule request.now) }
{
    let within = may_be_contact(rule);
    match SipUri::read(alloc.clone()?, request_uri(request)) {
        Ok(uri) => place_at(alloc, setup, within, request, &uri),
        Err(UriFault::NoMemory) => Err(AllocError),
        Err(_) => Ok(Place::Nowhere),
    }
}
