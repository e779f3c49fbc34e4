//! The setup by which a request is opened.
ghost use Rattle.std.specs.Prelude.{◌≡◌, ◌&&◌, IfOk, map, not};
ghost use Rattle.fork_call.specs.Opening.{with_token};
ghost use Rattle.proxy_config.specs.Setup as proxy;
ghost use Rattle.proxy_config.specs.Setup.{locations_of};
ghost use Rattle.proxy_dispatch.specs.Admitting.{Opens};
ghost use Rattle.proxy_dispatch.specs.SeenDecision.{seen_decision};
ghost use Rattle.service_decisions.specs.SeenPlace.{seen_place};
ghost use Rattle.service_decisions.specs.Targets.{gateway_contact, is_none_of, moment_at, setup_for, setup_with, token_for};

use crate::gateways::{contacts_of, targets_for};
use crate::place::Place;
use proxy_config::{BoundContact, DialogToken, Setup};
use proxy_dispatch::Decision;
use service_config::Gateway;
use sip_build::opens_dialog;
use sip_text::Message;
use std::alloc::{AllocError, Allocator};

/// The setup of a moment at which these contacts count at a place.
fn moment_at<A: Allocator + Clone>(
    alloc: A,
    setup: &Setup<A>,
    place: &Place<A>,
    contacts: &[BoundContact<'_>],
) -> Result<Setup<A>, AllocError>
    ensures { IfOk result (λ moment. moment ≡ moment_at setup.now (seen_place place.now) contacts.now) }
{
    match place {
        Place::OfUser(user) => setup.at_moment(alloc, user, contacts),
        Place::Beyond(_) => setup.with_ways(alloc, contacts),
        Place::Nowhere => setup.with_ways(alloc, &[]),
    }
}

/// The same with a token, if there is one.
fn with_token<A: Allocator>(token: Option<DialogToken>, setup: Setup<A>) -> Setup<A>
    ensures { result ≡ with_token token setup }
{
    match token {
        None => setup,
        Some(token) => setup.with_token(token),
    }
}

/// A request is opened by the setup as it stands, with this token, if there is one.
pub(crate) fn opens_standing<A: Allocator>(token: Option<DialogToken>) -> Decision<A>
    ensures { (setup : proxy.Setup) → seen_decision setup result ≡ Opens (with_token token setup) }
{
    match token {
        None => Decision::Opens,
        Some(token) => Decision::OpensWith(token),
    }
}

/// Whether these are none.
fn is_none(contacts: &[BoundContact<'_>]) -> bool
    ensures { result ≡ is_none_of contacts.now }
{
    contacts.is_empty()
}

/// A request is opened by the setup of a moment with these contacts, and by the setup as it stands where there are none, with this token,
/// if there is one: so no setup has to be made for a token alone.
fn setup_with<A: Allocator + Clone>(
    alloc: A,
    setup: &Setup<A>,
    place: &Place<A>,
    contacts: &[BoundContact<'_>],
    token: Option<DialogToken>,
) -> Result<Decision<A>, AllocError>
    ensures { IfOk result (λ decision. seen_decision setup.now decision ≡ Opens (setup_with setup.now (seen_place place.now) contacts.now token)) }
{
    if is_none(contacts) {
        return Ok(opens_standing(token));
    }
    let moment = moment_at(alloc, setup, place, contacts)?;
    Ok(Decision::OpensBy(with_token(token, moment)))
}

/// The same by the gateways, for a user who has neither contacts nor locations.
fn setup_by_gateways<A: Allocator + Clone, B: Allocator + Clone>(
    alloc: A,
    setup: &Setup<A>,
    gateways: &[Gateway<B>],
    place: &Place<A>,
    user: &[u8],
    token: Option<DialogToken>,
) -> Result<Decision<A>, AllocError>
    ensures { IfOk result (λ decision. seen_decision setup.now decision
        ≡ Opens (setup_with setup.now (seen_place place.now) (map (gateway_contact user.now) gateways.now) token)) }
{
    let targets = targets_for(&alloc, gateways, user)?;
    let contacts = contacts_of(alloc.clone()?, &targets)?;
    setup_with(alloc, setup, place, &contacts, token)
}

/// Whether a user has a location.
pub fn has_location<A: Allocator + Clone>(setup: &Setup<A>, user: &[u8]) -> bool
    ensures { result ≡ not (is_none_of (locations_of user.now setup.now.locations)) }
{
    match setup.locations_of(user).next() {
        None => false,
        Some(_) => true,
    }
}

/// Whether there is nothing that a request for a user goes to but the gateways.
fn is_by_gateways<A: Allocator + Clone>(
    setup: &Setup<A>,
    by_gateways: bool,
    user: &[u8],
    contacts: &[BoundContact<'_>],
) -> bool
    ensures { result ≡ (is_none_of contacts.now && (by_gateways && is_none_of (locations_of user.now setup.now.locations))) }
{
    contacts.is_empty() && by_gateways && !has_location(setup, user)
}

/// The token of the dialog that a request opens.
pub(crate) fn token_for<A: Allocator>(
    token: Option<DialogToken>,
    request: &Message<A>,
) -> Option<DialogToken>
    ensures { result ≡ token_for token request.now }
{
    if opens_dialog(request) { token } else { None }
}

/// By which setup a request is opened: for a user of the domain, to his locations and these contacts of his, or, where he has neither
/// and gateways may be used for him, to the gateways; for another URI, to those of the contacts that have its key, by their hops; and with
/// the token, if there is one, where the request opens a dialog. It is the one that stands where there is neither a contact nor a gateway
/// to lead to (RFC 3261 sections 10, 16.5 and 16.6).
///
/// # Errors
///
/// Only where the allocator refuses.
pub fn setup_for<A: Allocator + Clone, B: Allocator + Clone>(
    alloc: A,
    setup: &Setup<A>,
    gateways: &[Gateway<B>],
    by_gateways: bool,
    place: &Place<A>,
    contacts: &[BoundContact<'_>],
    token: Option<DialogToken>,
    request: &Message<A>,
) -> Result<Decision<A>, AllocError>
    ensures { IfOk result (λ decision. seen_decision setup.now decision
        ≡ Opens (setup_for setup.now gateways.now by_gateways (seen_place place.now) contacts.now token request.now)) }
{
    let token = token_for(token, request);
    match place {
        Place::OfUser(user) => {
            if is_by_gateways(setup, by_gateways, user, contacts) {
                return setup_by_gateways(alloc, setup, gateways, place, user, token);
            }
            setup_with(alloc, setup, place, contacts, token)
        }
        Place::Beyond(_) => setup_with(alloc, setup, place, contacts, token),
        Place::Nowhere => setup_with(alloc, setup, place, &[], token),
    }
}
