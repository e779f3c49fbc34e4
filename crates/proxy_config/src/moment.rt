//! The targets of a user to whom contacts are bound.
ghost use Rattle.std.specs.Prelude.{◌≡◌, [], fold, map, IfOk, OnOk};
ghost use Rattle.proxy_config.specs.Moment.{as_requested, with_contact, with_next};
ghost use Rattle.proxy_config.specs.Setup.{KeepsRulesWith, locations_of};

use crate::bound_contact::BoundContact;
use crate::listed::ListedLocations;
use crate::location::Location;
use crate::parts::uri_if;
use std::alloc::{AllocError, Allocator};

/// The locations of a user among these, with their URIs as they stand in a request, each where it may follow those before it.
pub(crate) fn locations_of_user<A: Allocator + Clone>(
    alloc: &A,
    streams: bool,
    all: &ListedLocations<A>,
    user: &[u8],
) -> Result<ListedLocations<A>, AllocError>
    ensures targets { IfOk result (λ listed. listed ≡ fold (with_next streams) [] (map as_requested (locations_of user.now all.now))) }
    ensures keeps { IfOk result (λ listed. KeepsRulesWith streams listed) }
{
    let mut listed = ListedLocations::new(alloc)?;
    let mut locations = all.of(user);
    while let Some(location) = locations.next() {
        let _follows = listed.push(alloc, streams, location.requested(alloc)?)?;
    }
    Ok(listed)
}

/// Adds a contact of a user, where it may follow the locations.
fn add_contact<A: Allocator + Clone>(
    alloc: &A,
    streams: bool,
    user: &[u8],
    longest: u64,
    locations: &mut ListedLocations<A>,
    contact: &BoundContact<'_>,
) -> Result<(), AllocError>
    ensures next { OnOk result (locations.new ≡ with_contact streams user.now longest locations.old contact.now) }
    ensures keeps { OnOk result (KeepsRulesWith streams locations.old → KeepsRulesWith streams locations.new) }
{
    let Some(uri) = uri_if(alloc, contact.uri)? else {
        return Ok(());
    };
    let location = Location::bound(alloc.clone()?, user, longest, contact, uri)?;
    let _follows = locations.push(alloc, streams, location)?;
    Ok(())
}

/// These locations, and behind them the contacts of a user, each where it may follow those before it.
pub(crate) fn with_contacts<A: Allocator + Clone>(
    alloc: &A,
    streams: bool,
    user: &[u8],
    longest: u64,
    locations: ListedLocations<A>,
    contacts: &[BoundContact<'_>],
) -> Result<ListedLocations<A>, AllocError>
    requires { KeepsRulesWith streams locations }
    ensures targets { IfOk result (λ listed. listed ≡ fold (with_contact streams user.now longest) locations contacts.now) }
    ensures keeps { IfOk result (λ listed. KeepsRulesWith streams listed) }
{
    let mut locations = locations;
    for contact in contacts {
        add_contact(alloc, streams, user, longest, &mut locations, contact)?;
    }
    Ok(locations)
}
