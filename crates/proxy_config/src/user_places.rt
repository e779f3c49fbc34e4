//! The places of the users' locations, by user.
ghost use Rattle.std.specs.Prelude.{◌≡◌, [], IsSome, None, OnOk, OnErr};
ghost use Rattle.std.specs.BTreeMap.{get_by};
ghost use Rattle.std.specs.Cmp.Lexicographic.{slice_cmp};
ghost use Rattle.std.specs.Ordering.{nat_cmp};
ghost use Rattle.proxy_config.specs.inner.UserPlaces.{IsAdded, IsSame, places_of};

use std::alloc::{AllocError, Allocator};
use std::collections::BTreeMap;

/// For each user the places of the user's locations among all (RFC 3261 section 16.5), in their order. They are found by the
/// user alone, so that neither reading a text nor routing a request goes through the locations of others.
#[derive(Drop)]
pub(crate) struct UserPlaces<A: Allocator> {
    places: BTreeMap<Vec<u8, A>, Vec<usize, A>, A>,
}

impl<A: Allocator + Clone> UserPlaces<A> {
    /// No user has a location.
    pub(crate) fn new(alloc: A) -> UserPlaces<A>
        ensures { (user : _) → places_of result user ≡ [] }
    {
        UserPlaces {
            places: BTreeMap::new(alloc),
        }
    }

    /// The places of a user's locations.
    pub(crate) fn of(&self, user: &[u8]) -> &[usize]
        ensures { result.now ≡ places_of self.now user.now }
    {
        match self.places.get(user) {
            None => &[],
            Some(places) => places.as_slice(),
        }
    }

    /// Adds a place to those of a user who has some.
    fn add_place(&mut self, user: &[u8], place: usize) -> Result<(), AllocError>
        requires { IsSome (get_by (λ other. slice_cmp nat_cmp user.now other.items) self.old.places) }
        ensures ok { OnOk result (IsAdded user.now place self.old self.new) }
        ensures err { OnErr result (IsSame self.old self.new) }
    {
        let Some(places) = self.places.get_mut(user) else {
            return Ok(());
        };
        places.push(place)?;
        Ok(())
    }

    /// Adds the first place of a user who has none.
    fn add_user(&mut self, alloc: &A, user: &[u8], place: usize) -> Result<(), AllocError>
        requires { get_by (λ other. slice_cmp nat_cmp user.now other.items) self.old.places ≡ None }
        ensures ok { OnOk result (IsAdded user.now place self.old self.new) }
        ensures err { OnErr result (IsSame self.old self.new) }
    {
        let user = user.to_vec(alloc.clone()?)?;
        let mut places = Vec::new(alloc.clone()?);
        places.push(place)?;
        let Ok(_) = self.places.insert(user, places) else {
            return Err(AllocError);
        };
        Ok(())
    }

    /// Adds a place to those of its user. The only error is want of memory; then nothing has changed.
    pub(crate) fn add(&mut self, alloc: &A, user: &[u8], place: usize) -> Result<(), AllocError>
        ensures ok { OnOk result (IsAdded user.now place self.old self.new) }
        ensures err { OnErr result (IsSame self.old self.new) }
    {
        if self.places.contains_key(user) {
            self.add_place(user, place)
        } else {
            self.add_user(alloc, user, place)
        }
    }
}
