//! Values that are put on a shelf, and an inbox, while memory is refused.
ghost use Rattle.std.specs.Prelude.{◌≡◌};

use crate::answers::discard;
use crate::plays::{calls, holds, plays};
use crate::sources::Alloc;
use call_table::{Inbox, InboxIn, InboxOut, Numbered, Removal, Shelf, ShelfFault};
use failing_allocator::{Attempt, Heap, Play, Refusing, Repeated, Stateless, refused_once};
use std::alloc::Global;
use std::sync::Wait;

/// A value that knows its number.
#[derive(Drop)]
struct Slot {
    number: u64,
}

impl Numbered for Slot {
    ghost number_of = { λ slot. slot.number };

    fn number(&self) -> u64 {
        self.number
    }
}

fn slot_of(number: u64) -> Slot
    ensures { result.number ≡ number }
{
    Slot { number }
}

/// A value is put under a key, which is unknown where that is refused.
#[derive(Drop)]
struct Putting<'s, 'a, R> {
    rt: &'s R,
    shelf: &'s Shelf<Slot, Alloc<'a>>,
    key: &'static [u8],
    /// The number that it is to get.
    number: u64,
}

impl<R: Wait> Repeated for Putting<'_, '_, R> {
    fn attempt(&mut self) -> Attempt {
        let put: Result<u64, ShelfFault<u8>> = self
            .shelf
            .put(self.rt, self.key, |number| Ok(slot_of(number)));
        let keyed = self.shelf.keyed(self.rt, self.key);
        match put {
            Ok(number) => Attempt::of(number == self.number && keyed == Some(number)),
            Err(ShelfFault::NoMemory) => Attempt::failed(keyed.is_none()),
            Err(_) => Attempt::Wrong,
        }
    }
}

/// Values that are put under these keys.
#[derive(Drop)]
struct Keys<'r, R> {
    rt: &'r R,
}

const NAMES: &[&[u8]] = &[b"one", b"two", b"three", b"four", b"five", b"six"];

/// Whether the values get rising numbers, and there are no others.
fn all_put<R: Wait>(heap: Heap<'_>, putting: &mut Putting<'_, '_, R>) -> bool {
    let mut next = 0u64;
    let mut well = true;
    for key in NAMES {
        putting.key = *key;
        putting.number = next;
        well = well && heap.insist(putting);
        next = next.saturating_add(1);
    }
    well && putting.shelf.count(putting.rt) == next
}

/// Whether it is so of this shelf.
fn are_put<R: Wait>(heap: Heap<'_>, rt: &R, shelf: &Shelf<Slot, Alloc<'_>>) -> bool {
    let mut putting = Putting {
        rt,
        shelf,
        key: b"",
        number: 0,
    };
    all_put(heap, &mut putting)
}

impl<R: Wait> Play for Keys<'_, R> {
    fn play(&self, heap: Heap<'_>) -> bool {
        // (a new shelf grows nothing)
        let shelf = Shelf::new(heap.scarce);
        let well = match &shelf {
            Ok(shelf) => are_put(heap, self.rt, shelf),
            Err(_) => false,
        };
        discard(shelf);
        well
    }
}

#[test]
fn values_are_put(rt: HostRuntime) {
    plays(&rt, &Keys { rt: &rt }, 0, "values on a shelf");
}

/// How many values are put, and which of them stay: those whose numbers this divides.
const COUNT: u64 = 400;

const STEP: u64 = 50;

/// Whether the value of this number is one that stays.
fn stays(number: u64) -> bool {
    number.checked_rem(STEP) == Some(0)
}

/// Whether all values are put.
fn fills<R: Wait>(rt: &R, shelf: &Shelf<Slot, Alloc<'_>>) -> bool {
    let mut well = true;
    for number in 0..COUNT {
        let key = number.to_be_bytes();
        let put: Result<u64, ShelfFault<u8>> = shelf.put(
            rt,
            key.as_slice(),
            |number| Ok(slot_of(number)),
        );
        well = well && put.ok() == Some(number);
    }
    well
}

/// Whether those are taken away that do not stay.
fn empties<R: Wait>(rt: &R, shelf: &Shelf<Slot, Alloc<'_>>) -> bool {
    let mut well = true;
    for number in 0..COUNT {
        if !stays(number) {
            well = well && shelf.remove_if(rt, number, |_| true) == Removal::Removed;
        }
    }
    well
}

/// Whether exactly those are there that stay, with their keys.
fn are_left<R: Wait>(rt: &R, shelf: &Shelf<Slot, Alloc<'_>>) -> bool {
    let mut well = shelf.held(rt) == COUNT / STEP;
    for number in 0..COUNT {
        let is_there = shelf.with(rt, number, |_| 1u8).is_some();
        let keyed = shelf.keyed(rt, number.to_be_bytes().as_slice());
        let is_keyed = keyed == Some(number);
        well = well && is_there == stays(number) && is_keyed == is_there;
    }
    well
}

/// Values of which a few stay. They move aside as the others are taken away; where there is no memory for that they stay where they are.
#[derive(Drop)]
struct Aside<'r, R> {
    rt: &'r R,
}

impl<R: Wait> Aside<'_, R> {
    /// Whether the others go and those that stay are left, on this shelf.
    fn goes(&self, heap: &Refusing<Global>, shelf: &Shelf<Slot, Alloc<'_>>) -> bool {
        heap.pause();
        let well = fills(self.rt, shelf);
        heap.go_on();
        well && empties(self.rt, shelf) && are_left(self.rt, shelf)
    }

    /// Whether it is so over this memory.
    fn goes_over(&self, heap: &Refusing<Global>) -> bool {
        match Shelf::new(heap) {
            Ok(shelf) => self.goes(heap, &shelf),
            Err(_) => false,
        }
    }
}

impl<R: Wait> Play for Aside<'_, R> {
    fn play(&self, heap: Heap<'_>) -> bool {
        self.goes_over(heap.scarce)
    }
}

#[test]
fn what_is_old_moves_aside_or_stays(rt: HostRuntime) {
    let aside = Aside { rt: &rt };
    let without = refused_once(rt.alloc(), &aside);
    holds(&rt, without.is_some(), "each growth alone is done without");
    let heap = Refusing::new(rt.alloc());
    heap.refuse_from(1);
    let goes = aside.goes_over(&heap);
    holds(&rt, goes && heap.refused() > 1, "so are all");
}

/// Both ends of an inbox of numbers.
type Ends<'a> = (InboxIn<u8, Alloc<'a>>, InboxOut<u8, Alloc<'a>>);

/// Whether a number goes through the inbox.
fn passes_one<R: Wait>(
    rt: &R,
    giving: &mut InboxIn<u8, Alloc<'_>>,
    receiving: &mut InboxOut<u8, Alloc<'_>>,
) -> bool {
    giving.give(rt, 7).is_ok() && receiving.receive(rt) == Some(7)
}

/// What the inbox with these ends comes to.
fn passes<R: Wait>(rt: &R, ends: Ends<'_>) -> Attempt {
    let (mut giving, mut receiving) = ends;
    Attempt::of(passes_one(rt, &mut giving, &mut receiving))
}

/// An inbox of numbers is made.
#[derive(Drop)]
struct Queueing<'r, R> {
    rt: &'r R,
}

impl<R: Wait> Stateless for Queueing<'_, R> {
    fn answer(&self, heap: Heap<'_>) -> Attempt {
        match Inbox::new(heap.scarce) {
            Ok(ends) => passes(self.rt, ends),
            Err(_) => Attempt::NoMemory,
        }
    }
}

#[test]
fn an_inbox_is_made(rt: HostRuntime) {
    calls(&rt, &Queueing { rt: &rt }, 0, "an inbox");
}
