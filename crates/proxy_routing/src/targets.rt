//! Where a request may be sent, and by which hop.
ghost use Rattle.std.specs.Prelude.{◌≡◌, ◌≤◌, ◌++◌, ◌∷◌, [], map, IfOk, OnOk};
ghost use Rattle.std.specs.List.{list_all};
ghost use Rattle.std.specs.Option.{option_copied};
ghost use Rattle.fork_rank.specs.Field.{most_q};
ghost use Rattle.proxy_config.specs.Setup.{hop_or_that_of, locations_of};
ghost use Rattle.proxy_routing.specs.Targets.{candidate_at, candidate_to, candidates_by, candidates_of, has_hop, hop_if_any, hop_over, hop_to, is_domain, is_own, is_own_port, reachable, target_of, targets_of};

use fork_context::Target;
use proxy_config::{Location, Setup, is_reached};
use sip_route::FirstRoute;
use sip_uri::{Hop, SipUri};
use sip_via::{Own, is_address};
use std::alloc::{AllocError, Allocator};
use std::marker::Model;

/// The q of a target that no location names.
const MOST_Q: u16 = 1000;

/// A target, what tells it from others, the q at which it is tried, the hop by which it is reached, if there is one, and how long
/// a branch to it rings at most.
#[derive(Drop)]
pub struct CandidateTarget<'a, A: Allocator> {
    key: &'a [u8],
    q: u16,
    uri: &'a SipUri<A>,
    hop: Option<Hop>,
    longest: u64,
}

impl<'a, A: Allocator> Model for CandidateTarget<'a, A> {
    ghost use Rattle.std.specs.Prelude.{◌≤◌};
    ghost use Rattle.fork_rank.specs.Field.{most_q};
    ghost use Rattle.proxy_routing.specs.Targets as spec;

    ghost Value = { spec.CandidateTarget };

    ghost view = { λ c. record { key = c.key.now; q = c.q; uri = c.uri.now; hop = c.hop; longest = c.longest } };

    ghost invariant = { λ c. c.q ≤ most_q };
}

impl<'a, A: Allocator> CandidateTarget<'a, A> {
    /// The URI of the target.
    pub fn uri(&self) -> &SipUri<A>
        ensures { result.now ≡ self.now.uri }
    {
        self.uri
    }

    /// The hop by which the target is reached, if there is one.
    pub fn hop(&self) -> Option<Hop>
        ensures { result ≡ self.now.hop }
    {
        self.hop
    }

    /// How long a branch to the target rings at most, in milliseconds: then timer C fires (RFC 3261 section 16.6 step 11).
    pub fn longest(&self) -> u64
        ensures { result ≡ self.now.longest }
    {
        self.longest
    }
}

impl<'a, A: Allocator + Clone> CandidateTarget<'a, A> {
    /// A location, where the request has this first Route value.
    fn at(streams: bool, route: FirstRoute, location: &'a Location<A>) -> CandidateTarget<'a, A>
        ensures { result ≡ candidate_at streams route location.now }
    {
        CandidateTarget {
            key: location.key(),
            q: location.q(),
            uri: location.uri(),
            hop: hop_over(streams, route, location.next_hop()),
            longest: location.longest(),
        }
    }

    /// A URI that no location names, where the request has this first Route value.
    fn to(setup: &Setup<A>, route: FirstRoute, uri: &'a SipUri<A>) -> CandidateTarget<'a, A>
        ensures { result ≡ candidate_to setup.now route uri.now }
    {
        CandidateTarget {
            key: uri.key(),
            q: MOST_Q,
            uri,
            hop: hop_to(setup, route, uri),
            longest: setup.ring(),
        }
    }

    /// What tells the target from others, with its q.
    fn target(&self, alloc: A) -> Result<Target<A>, AllocError>
        ensures { IfOk result (λ target. target ≡ target_of self.now) }
    {
        let key = Vec::from_slice(alloc, self.key)?;
        Ok(Target::new(key, self.q))
    }
}

// ---- which targets there are

/// Whether a request by this hop goes to the own port. A URI without a hop leads to no other port.
fn is_own_port(own: Own, hop: Option<Hop>) -> bool
    ensures { result ≡ is_own_port own hop }
{
    match hop {
        None => true,
        Some(hop) => hop.port == own.port,
    }
}

/// Whether a URI names the proxy by its own address.
fn is_own<A: Allocator + Clone>(setup: &Setup<A>, uri: &SipUri<A>) -> bool
    ensures { result ≡ is_own setup.now uri.now }
{
    is_address(uri.host(), setup.own().addr)
        && (!setup.by_port()
            || is_own_port(setup.own(), reachable(setup.has_streams(), uri.next_hop())))
}

/// Whether the proxy is responsible for this URI (RFC 3261 section 16.5): its host is the proxy's domain, in upper or lower
/// case, or the proxy's own address as it is written. Where the setup counts the port, a URI with the own address that leads
/// to another port is that of another element; one without a port leads to 5060 (section 19.1.2).
pub fn is_responsible_for<A: Allocator + Clone>(setup: &Setup<A>, uri: &SipUri<A>) -> bool
    ensures { result ≡ is_domain setup.now uri.now }
{
    uri.host().eq_ignore_ascii_case(setup.domain()) || is_own(setup, uri)
}

/// The locations of a user.
fn located<'a, A: Allocator + Clone>(
    alloc: A,
    setup: &'a Setup<A>,
    route: FirstRoute,
    user: &[u8],
) -> Result<Vec<CandidateTarget<'a, A>, A>, AllocError>
    ensures { IfOk result (λ candidates. candidates.items ≡ map (candidate_at setup.now.streams route) (locations_of user.now setup.now.locations)) }
{
    let mut candidates = Vec::new(alloc);
    let streams = setup.has_streams();
    let mut locations = setup.locations_of(user);
    while let Some(location) = locations.next() {
        candidates.push(CandidateTarget::at(streams, route, location))?;
    }
    Ok(candidates)
}

/// The locations of a user, if there is one.
fn located_if_any<'a, A: Allocator + Clone>(
    alloc: A,
    setup: &'a Setup<A>,
    route: FirstRoute,
    user: Option<&[u8]>,
) -> Result<Vec<CandidateTarget<'a, A>, A>, AllocError>
    ensures { IfOk result (λ candidates. candidates.items ≡ candidates_of setup.now.streams route setup.now.locations (option_copied user.entry)) }
{
    match user {
        None => Ok(Vec::new(alloc)),
        Some(user) => located(alloc, setup, route, user),
    }
}

/// The one target of a request to a URI that the proxy is not responsible for.
fn alone<'a, A: Allocator + Clone>(
    alloc: A,
    setup: &Setup<A>,
    route: FirstRoute,
    uri: &'a SipUri<A>,
) -> Result<Vec<CandidateTarget<'a, A>, A>, AllocError>
    ensures { IfOk result (λ candidates. candidates.items ≡ candidate_to setup.now route uri.now ∷ []) }
{
    let mut candidates = Vec::with_capacity(alloc, 1)?;
    candidates.push(CandidateTarget::to(setup, route, uri))?;
    Ok(candidates)
}

/// The targets of a request to this URI, inside the domain or not, with this first Route value: in the domain the locations
/// of its user, else the URI alone (RFC 3261 section 16.5).
pub fn candidates<'a, A: Allocator + Clone>(
    alloc: A,
    setup: &'a Setup<A>,
    inside: bool,
    route: FirstRoute,
    uri: &'a SipUri<A>,
) -> Result<Vec<CandidateTarget<'a, A>, A>, AllocError>
    ensures { IfOk result (λ found. found.items ≡ candidates_by inside setup.now route uri.now) }
{
    if inside {
        located_if_any(alloc, setup, route, uri.user())
    } else {
        alone(alloc, setup, route, uri)
    }
}

/// The targets as a fork takes them.
pub fn targets_of<A: Allocator + Clone>(
    alloc: A,
    candidates: &[CandidateTarget<'_, A>],
) -> Result<Vec<Target<A>, A>, AllocError>
    ensures { IfOk result (λ targets. targets.items ≡ targets_of candidates.now) }
{
    let mut targets = Vec::with_capacity(alloc.clone()?, candidates.len())?;
    for candidate in candidates {
        targets.push(candidate.target(alloc.clone()?)?)?;
    }
    Ok(targets)
}

// ---- by which hop

/// The hop, where the proxy can send over its transport.
fn reachable(streams: bool, hop: Option<Hop>) -> Option<Hop>
    ensures { result ≡ reachable streams hop }
{
    match hop {
        Some(hop) if is_reached(streams, hop.transport) => Some(hop),
        Some(_) | None => None,
    }
}

/// The hop that a request goes by to a target with this one: that of its first Route value, if there is one, else that of the
/// target; None where that leads to no hop, or to one that cannot be reached (RFC 3261 section 16.6 steps 6 and 7).
fn hop_over(streams: bool, route: FirstRoute, hop: Option<Hop>) -> Option<Hop>
    ensures { result ≡ hop_over streams route hop }
{
    match route {
        FirstRoute::Absent => reachable(streams, hop),
        FirstRoute::NoHop => None,
        FirstRoute::To(first) => reachable(streams, Some(first)),
    }
}

/// This hop, or else that of the URI.
fn hop_or_that_of<A: Allocator + Clone>(hop: Option<Hop>, uri: &SipUri<A>) -> Option<Hop>
    ensures { result ≡ hop_or_that_of hop uri.now }
{
    match hop {
        None => uri.next_hop(),
        Some(hop) => Some(hop),
    }
}

/// The hop that a request to a URI outside of the domain goes by: that of its first Route value, if there is one, else that of the
/// way to the URI, if there is one, else that of the URI; None where that leads to no hop, or to one over TCP and the proxy has no
/// streams (RFC 3261 section 16.6 steps 6 and 7).
pub fn hop_to<A: Allocator + Clone>(
    setup: &Setup<A>,
    route: FirstRoute,
    uri: &SipUri<A>,
) -> Option<Hop>
    ensures { result ≡ hop_to setup.now route uri.now }
{
    let hop = hop_or_that_of(setup.way_to(uri), uri);
    hop_over(setup.has_streams(), route, hop)
}

/// The hop of the first Route value, if there is one that leads to a hop; none over TCP where the proxy has no `streams`.
pub fn hop_if_any(streams: bool, route: FirstRoute) -> Option<Hop>
    ensures { result ≡ hop_if_any streams route }
{
    match route {
        FirstRoute::Absent | FirstRoute::NoHop => None,
        FirstRoute::To(hop) => reachable(streams, Some(hop)),
    }
}

/// Whether each target has a hop.
pub fn have_hops<A: Allocator>(candidates: &[CandidateTarget<'_, A>]) -> bool
    ensures { result ≡ list_all has_hop candidates.now }
{
    candidates.iter().all(|candidate| candidate.hop.is_some())
}
