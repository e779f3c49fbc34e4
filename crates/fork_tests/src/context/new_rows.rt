//! What `context_values` keeps of rows that come: those of initial targets, and those of the contacts of a 3xx.
use crate::bytes::is;
use crate::context::happening::{key_of, offer, targets};
use crate::holds::holds;
use context_values::{
    NewTarget, Offer, RowExtras, contact_qs, extras_at, numbered, qs_at, qs_in_order,
    target_extras, target_qs,
};
use fork_context::Target;
use std::alloc::Global;
use std::process::Abort;

/// Three places in the order in which they are tried, each behind the number of its group.
const ORDER: [(u16, u16); 3] = [(0, 1), (1, 0), (1, 2)];

/// Whether these extras are of the keys of these numbers, each from the place beside it.
fn are(extras: &[RowExtras], wanted: &[(u16, usize)]) -> bool {
    extras.len() == wanted.len()
        && extras.iter().zip(wanted).all(|(extras, &(number, place))| {
            is(extras.key(), &key_of(number)) && extras.place() == place
        })
}

/// Whether the q of three targets is told in their order, and then in that in which they are tried.
fn tells_qs(alloc: Global, targets: &[Target]) -> bool {
    match target_qs(&alloc, targets) {
        Ok(qs) => {
            qs.as_slice() == [500, 1000, 400].as_slice()
                && orders(alloc, &qs)
                && orders_all(alloc, qs)
        }
        Err(_) => false,
    }
}

/// Whether these, at the three places, are those of the second, the first and the third.
fn orders(alloc: Global, qs: &[u16]) -> bool {
    match qs_at(&alloc, qs, &ORDER) {
        Ok(ordered) => ordered.as_slice() == [1000, 500, 400].as_slice(),
        Err(_) => false,
    }
}

/// Whether each of these three is told in the order in which they are tried.
fn orders_all(alloc: Global, qs: Vec<u16>) -> bool {
    if qs.len() != 3 {
        return false;
    }
    match numbered(&alloc, &qs) {
        Ok(order) => match qs_in_order(&alloc, qs, &order) {
            Ok(ordered) => ordered.as_slice() == [1000, 500, 400].as_slice(),
            Err(_) => false,
        },
        Err(_) => false,
    }
}

/// Whether the rows of three targets at the three places are kept with their keys and places.
fn keeps_targets(alloc: Global, targets: &[Target]) -> bool {
    match target_extras(&alloc, targets, &ORDER) {
        Ok(extras) => are(&extras, &[(5, 1), (9, 0), (7, 2)]),
        Err(_) => false,
    }
}

#[test]
fn rows_of_initial_targets_are_kept_in_the_order_of_trying(rt: HostRuntime) {
    match targets(rt.alloc(), &[(9, 500), (5, 1000), (7, 400)]) {
        Some(targets) => {
            holds(&rt, tells_qs(rt.alloc(), &targets), "the q of each");
            holds(&rt, keeps_targets(rt.alloc(), &targets), "a row for each");
        }
        None => holds(&rt, false, "the targets are made"),
    }
}

/// Adds the contact at this place as a target; whether there was memory for it.
fn pushes(alloc: Global, fresh: &mut Vec<NewTarget>, place: usize, offer: Option<Offer>) -> bool {
    match offer {
        Some(offer) => match NewTarget::new(&alloc, place, &offer) {
            Ok(target) => fresh.push(target).is_ok(),
            Err(_) => false,
        },
        None => false,
    }
}

/// The contacts of the numbers 7, 9 and 2, which stood at places 0, 2 and 3 of an answer.
fn contacts(alloc: Global) -> Option<Vec<NewTarget>> {
    let mut fresh = Vec::new(alloc);
    if pushes(alloc, &mut fresh, 0, offer(alloc, (7, true)))
        && pushes(alloc, &mut fresh, 2, offer(alloc, (9, true)))
        && pushes(alloc, &mut fresh, 3, offer(alloc, (2, true)))
    {
        Some(fresh)
    } else {
        None
    }
}

/// Whether the q of each of the three is 1.
fn are_all_at_one(alloc: Global, fresh: &[NewTarget]) -> bool {
    match contact_qs(&alloc, fresh) {
        Ok(qs) => qs.as_slice() == [1000, 1000, 1000].as_slice(),
        Err(_) => false,
    }
}

/// Whether the rows of the three at the three places are kept with their keys, and with their places in the answer.
fn keeps_contacts(alloc: Global, fresh: &[NewTarget]) -> bool {
    match extras_at(&alloc, fresh, &ORDER) {
        Ok(extras) => are(&extras, &[(9, 2), (7, 0), (2, 3)]),
        Err(_) => false,
    }
}

/// Whether the row of the second is kept with its key, and its place in the answer.
fn keeps_one(alloc: Global, fresh: &[NewTarget]) -> bool {
    match fresh.get(1) {
        Some(target) => match target.row_extras(&alloc) {
            Ok(extras) => are(&[extras], &[(9, 2)]),
            Err(_) => false,
        },
        None => false,
    }
}

#[test]
fn rows_of_contacts_are_kept_with_their_places_in_the_answer(rt: HostRuntime) {
    match contacts(rt.alloc()) {
        Some(fresh) => {
            holds(&rt, are_all_at_one(rt.alloc(), &fresh), "the q of each");
            holds(&rt, keeps_contacts(rt.alloc(), &fresh), "a row for each");
            holds(&rt, keeps_one(rt.alloc(), &fresh), "a row for one");
        }
        None => holds(&rt, false, "the contacts are made"),
    }
}
