//! The locations of a user, one by one.
ghost use Rattle.std.specs.Prelude.{◌≡◌, ◌∷◌, [], List, IfNone, IfSome, slice_get};
ghost use Rattle.std.specs.Option.{option_copied};
ghost use Rattle.proxy_config.specs.Setup as spec;
ghost use Rattle.proxy_config.specs.inner.UserPlaces.{AreAt};

use crate::location::Location;
use std::alloc::{Allocator, Global};
use std::marker::Model;

/// The locations of a user that are left, in the order of the text (RFC 3261 section 16.5).
#[derive(Drop)]
pub struct UserLocations<'a, A: Allocator = Global> {
    places: &'a [usize],
    locations: &'a [Location<A>],
}

impl<'a, A: Allocator> Model for UserLocations<'a, A> {
    ghost use Rattle.std.specs.Prelude.{List};
    ghost use Rattle.proxy_config.specs.Setup as spec;
    ghost use Rattle.proxy_config.specs.inner.UserPlaces.{AreAt, located};

    ghost Value = { List spec.Location };

    ghost view = { λ l. located l.locations.now l.places.now };

    // none of the places is empty
    ghost invariant = { λ l. AreAt l.locations.now l.places.now (located l.locations.now l.places.now) };
}

/// The location at a place.
fn location_at<A: Allocator>(locations: &[Location<A>], place: usize) -> Option<&Location<A>>
    ensures { option_copied result ≡ slice_get locations.now place }
{
    locations.get(place)
}

impl<'a, A: Allocator> UserLocations<'a, A> {
    /// The locations at these places.
    pub(crate) fn at(places: &'a [usize], locations: &'a [Location<A>]) -> UserLocations<'a, A>
        requires { (found : List spec.Location) × AreAt locations.now places.now found }
        ensures { (found : List spec.Location) → AreAt locations.now places.now found → result ≡ found }
    {
        UserLocations { places, locations }
    }

    /// The first of those that are left, which then is not.
    pub fn next(&mut self) -> Option<&'a Location<A>>
        ensures some { IfSome result (λ location. self.old ≡ location.now ∷ self.new) }
        ensures none { IfNone result (self.old ≡ []) }
    {
        let Some((place, rest)) = self.places.split_first() else {
            return None;
        };
        self.places = rest;
        location_at(self.locations, *place)
    }
}
