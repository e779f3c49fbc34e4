//! Locations, with the places of each user's.
ghost use Rattle.std.specs.Prelude.{◌≡◌, ◌&&◌, [], map, not, nat_lt, IfOk, OnOk, Some, None, if◌then◌else◌, slice_get};
ghost use Rattle.std.specs.List.{list_any};
ghost use Rattle.fork_model.specs.Table.{most_targets};
ghost use Rattle.proxy_config.specs.Moment.{with_next};
ghost use Rattle.proxy_config.specs.Setup.{KeepsRulesWith, locations_of, with_longest};
ghost use Rattle.proxy_config.specs.Parts.{added, may_follow};
ghost use Rattle.proxy_config.specs.inner.UserPlaces.{has_key};

use crate::hops::is_reached_by;
use crate::location::Location;
use crate::user_locations::UserLocations;
use crate::user_places::UserPlaces;
use fork_rank::MOST_TARGETS;
use std::alloc::{AllocError, Allocator};
use std::marker::Model;

/// Locations in the order of the text, and for each user where the user's stand among them.
#[derive(Drop)]
pub(crate) struct ListedLocations<A: Allocator> {
    locations: Vec<Location<A>, A>,
    places: UserPlaces<A>,
}

impl<A: Allocator> Model for ListedLocations<A> {
    ghost use Rattle.std.specs.Prelude.{List};
    ghost use Rattle.proxy_config.specs.inner.UserPlaces.{AreOf};
    ghost use Rattle.proxy_config.specs.Setup as spec;

    ghost Value = { List spec.Location };

    ghost view = { λ l. l.locations.items };

    ghost invariant = { λ l. AreOf l.locations.items l.places };
}

/// Whether the location at a place is one with this key.
fn has_key_at<A: Allocator + Clone>(locations: &[Location<A>], place: usize, key: &[u8]) -> bool
    ensures { result ≡ has_key key.now (slice_get locations.now place) }
{
    match locations.get(place) {
        None => false,
        Some(location) => location.key() == key,
    }
}

/// Whether one of the locations at these places has this key.
fn has_key<A: Allocator + Clone>(locations: &[Location<A>], places: &[usize], key: &[u8]) -> bool
    ensures { result ≡ list_any (λ place. has_key key.now (slice_get locations.now place)) places.now }
{
    places
        .iter()
        .any(|&place| has_key_at(locations, place, key))
}

/// Whether a user with so many targets may get one more: the user has not got it yet, nor as many as may be tried.
fn may_get(is_there: bool, count: usize) -> bool
    ensures { result ≡ (not is_there && nat_lt count most_targets) }
{
    !is_there && count < usize::from(MOST_TARGETS)
}

/// A branch to each of the locations rings so long at most where it has the usual longest time.
fn ring_all<A: Allocator>(locations: &mut Vec<Location<A>, A>, longest: u64)
    ensures { locations.new.items ≡ map (with_longest longest) locations.old.items }
{
    for location in locations.iter_mut() {
        location.ring(longest);
    }
}

impl<A: Allocator> ListedLocations<A> {
    pub(crate) fn as_slice(&self) -> &[Location<A>]
        ensures { result.now ≡ self.now }
    {
        self.locations.as_slice()
    }

    /// A branch to each of the locations rings so long at most where it has the usual longest time.
    pub(crate) fn ring(&mut self, longest: u64)
        ensures { self.new ≡ map (with_longest longest) self.old }
    {
        ring_all(&mut self.locations, longest);
    }
}

impl<A: Allocator + Clone> ListedLocations<A> {
    pub(crate) fn new(alloc: &A) -> Result<ListedLocations<A>, AllocError>
        ensures { IfOk result (λ listed. listed ≡ []) }
    {
        Ok(ListedLocations {
            locations: Vec::new(alloc.clone()?),
            places: UserPlaces::new(alloc.clone()?),
        })
    }

    /// Whether a location may stand behind these: a request can be sent there, its user has not got this target yet, nor as many
    /// locations as may be tried.
    fn may_follow(&self, streams: bool, location: &Location<A>) -> bool
        ensures { result ≡ may_follow streams self.now location.now }
    {
        if !is_reached_by(streams, location.next_hop()) {
            return false;
        }
        let places = self.places.of(location.user());
        let is_there = has_key(self.locations.as_slice(), places, location.key());
        may_get(is_there, places.len())
    }

    /// Adds a location, and answers whether it may stand here.
    pub(crate) fn push(
        &mut self,
        alloc: &A,
        streams: bool,
        location: Location<A>,
    ) -> Result<bool, AllocError>
        ensures added { IfOk result (λ done. (if done then Some self.new else None) ≡ added streams self.old location) }
        ensures next { OnOk result (self.new ≡ with_next streams self.old location) }
        ensures keeps { OnOk result (KeepsRulesWith streams self.old → KeepsRulesWith streams self.new) }
    {
        let _weight = location.q();
        if !self.may_follow(streams, &location) {
            return Ok(false);
        }
        self.locations.reserve(1)?;
        let place = self.locations.len();
        self.places.add(alloc, location.user(), place)?;
        self.locations.push_reserved(location);
        Ok(true)
    }

    /// Those of a user.
    pub(crate) fn of(&self, user: &[u8]) -> UserLocations<'_, A>
        ensures { result ≡ locations_of user.now self.now }
    {
        UserLocations::at(self.places.of(user), self.locations.as_slice())
    }
}
