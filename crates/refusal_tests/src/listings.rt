//! Listings that are checked while memory is refused.
use crate::plays::plays;
use crate::sources::Alloc;
use crate::texts::{BEST_LISTING, LATE_LISTING};
use bumpalo::Bump;
use failing_allocator::{Attempt, Heap, Play, Repeated};
use fork_listing::{CheckFault, Verdict, check};

/// A listing, and what a check of it finds.
#[derive(Clone, Copy)]
struct Listing {
    text: &'static [u8],
    targets: u16,
    status: u16,
    number: u16,
}

/// The listing of four answers, and that of a 302 before a later target.
const LISTINGS: &[Listing] = &[
    Listing {
        text: BEST_LISTING,
        targets: 4,
        status: 407,
        number: 1,
    },
    Listing {
        text: LATE_LISTING,
        targets: 3,
        status: 404,
        number: 2,
    },
];

fn is_found(verdict: &Verdict, listing: &Listing) -> bool {
    verdict.targets == listing.targets
        && verdict.status == listing.status
        && verdict.no == Some(listing.number)
}

/// The listing is checked in an arena, which is used again.
#[derive(Drop)]
struct Checking<'a> {
    arena: Bump<Alloc<'a>>,
    listing: Listing,
}

impl Repeated for Checking<'_> {
    fn attempt(&mut self) -> Attempt {
        let found = check(&self.arena, self.listing.text);
        if self.arena.reset().is_err() {
            return Attempt::Wrong;
        }
        match found {
            Ok(verdict) => Attempt::of(is_found(&verdict, &self.listing)),
            Err(fault) => Attempt::failed(fault == CheckFault::NoMemory),
        }
    }
}

impl Play for Listing {
    fn play(&self, heap: Heap<'_>) -> bool {
        heap.insist(&mut Checking {
            arena: Bump::new(heap.scarce),
            listing: *self,
        })
    }
}

#[test]
fn listings_are_checked(rt: HostRuntime) {
    for listing in LISTINGS {
        plays(&rt, listing, 2, "a listing");
    }
}
