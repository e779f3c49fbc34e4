//! A shelf forgets a value with its key, and nothing else.
ghost use Rattle.std.specs.Prelude.{◌≡◌};

use crate::holds::holds;
use call_table::{Numbered, Removal, Shelf, ShelfFault};
use std::sync::Wait;
use std::sync::atomic::{AtomicU64, Ordering};
use std::test::Fail;
use std::thread;
use std::thread::join;
use std::time::{Clock, Duration};

/// A value that knows its number alone.
#[derive(Drop)]
struct Slot {
    no: u64,
}

impl Slot {
    fn open(no: u64) -> Slot
        ensures { result.no ≡ no }
    {
        Slot { no }
    }
}

impl Numbered for Slot {
    ghost number_of = { λ slot. slot.no };

    fn number(&self) -> u64 {
        self.no
    }
}

/// The number that a new value gets under this key.
fn put<R: Wait>(rt: &R, shelf: &Shelf<Slot>, key: &[u8]) -> Option<u64> {
    let put: Result<u64, ShelfFault<u8>> = shelf.put(rt, key, |no| Ok(Slot::open(no)));
    put.ok()
}

/// Whether there is a value of this number.
fn is_there<R: Wait>(rt: &R, shelf: &Shelf<Slot>, no: u64) -> bool {
    shelf.with(rt, no, |_| 1u8).is_some()
}

/// What becomes of the value of this number where this is said of it.
fn removal<R: Wait>(rt: &R, shelf: &Shelf<Slot>, no: u64, says: bool) -> Removal {
    shelf.remove_if(rt, no, |_| says)
}

/// Whether the value of this number goes.
fn goes<R: Wait>(rt: &R, shelf: &Shelf<Slot>, no: u64) -> bool {
    removal(rt, shelf, no, true) == Removal::Removed
}

/// A key whose digest is 0 whatever its last eight bytes are: the first eight are what the hash begins with at 16 bytes.
fn of_digest_zero(last: u8) -> [u8; 16] {
    let [a, b, c, d, e, f, g, h] = 0x243f_6a88_85a3_08e3u64.to_le_bytes();
    [
        a, b, c, d, e, f, g, h, last, last, last, last, last, last, last, last,
    ]
}

#[test]
fn a_removed_key_gets_a_new_number(rt: HostRuntime) -> Result<(), Fail> {
    let shelf = Shelf::new(rt.alloc())?;
    for (key, no) in [("one", 0), ("two", 1), ("three", 2)] {
        holds(&rt, put(&rt, &shelf, key.as_bytes()) == Some(no), key);
    }
    holds(&rt, shelf.held(&rt) == 3, "three are there");
    holds(&rt, goes(&rt, &shelf, 1), "the second is taken away");
    holds(&rt, !goes(&rt, &shelf, 1), "once only");
    holds(&rt, !goes(&rt, &shelf, 3), "there is no fourth");
    holds(&rt, shelf.held(&rt) == 2, "two are left");
    holds(&rt, shelf.keyed(&rt, b"two").is_none(), "its key is free");
    holds(&rt, !is_there(&rt, &shelf, 1), "its value is gone");
    holds(&rt, is_there(&rt, &shelf, 0), "the first is there");
    holds(&rt, is_there(&rt, &shelf, 2), "so is the third");
    holds(&rt, shelf.keyed(&rt, b"three") == Some(2), "as it was");
    holds(&rt, put(&rt, &shelf, b"two") == Some(3), "a new number");
    holds(&rt, shelf.count(&rt) == 4, "four were put");
    Ok(())
}

#[test]
fn what_is_removed_from_the_front_makes_room(rt: HostRuntime) -> Result<(), Fail> {
    let shelf = Shelf::new(rt.alloc())?;
    let mut well = true;
    for no in 0..100u64 {
        let key = no.to_be_bytes();
        well = well && put(&rt, &shelf, key.as_slice()) == Some(no);
        well = well && is_there(&rt, &shelf, no) && goes(&rt, &shelf, no);
    }
    holds(&rt, well, "each is put, found and taken away");
    holds(&rt, shelf.held(&rt) == 0, "none is left");
    holds(&rt, put(&rt, &shelf, b"last") == Some(100), "numbers go on");
    holds(&rt, is_there(&rt, &shelf, 100), "the last is there");
    Ok(())
}

#[test]
fn keys_of_one_digest_are_removed_alone(rt: HostRuntime) -> Result<(), Fail> {
    let shelf = Shelf::new(rt.alloc())?;
    for last in 0..4u8 {
        let no = put(&rt, &shelf, &of_digest_zero(last));
        holds(&rt, no == Some(u64::from(last)), "each is new");
    }
    holds(&rt, goes(&rt, &shelf, 0), "the first is taken away");
    holds(&rt, goes(&rt, &shelf, 2), "so is the third");
    for (last, found) in [(0u8, None), (1, Some(1)), (2, None), (3, Some(3))] {
        let number = shelf.keyed(&rt, &of_digest_zero(last));
        holds(&rt, number == found, "the others keep their numbers");
    }
    let again = put(&rt, &shelf, &of_digest_zero(0));
    holds(&rt, again == Some(4), "a removed key is new");
    Ok(())
}

#[test]
fn a_value_goes_where_it_is_said_of_it(rt: HostRuntime) -> Result<(), Fail> {
    let shelf = Shelf::new(rt.alloc())?;
    holds(&rt, put(&rt, &shelf, b"one") == Some(0), "it is put");
    for (no, says, becomes) in [
        (1, true, Removal::Absent),
        (0, false, Removal::Kept),
        (0, false, Removal::Kept),
        (0, true, Removal::Removed),
        (0, true, Removal::Absent),
        (0, false, Removal::Absent),
    ] {
        let is_there = shelf.keyed(&rt, b"one") == Some(0);
        let became = removal(&rt, &shelf, no, says);
        holds(&rt, became == becomes, "as it is said of it");
        let stays = becomes != Removal::Removed && is_there;
        let is_kept = shelf.keyed(&rt, b"one") == Some(0);
        holds(&rt, is_kept == stays, "its key goes with it alone");
    }
    Ok(())
}

#[test]
fn a_value_that_is_looked_at_does_not_go(rt: HostRuntime) -> Result<(), Fail> {
    let shelf = Shelf::new(rt.alloc())?;
    holds(&rt, put(&rt, &shelf, b"one") == Some(0), "it is put");
    let became = shelf.with(&rt, 0, |_| removal(&rt, &shelf, 0, true));
    holds(&rt, became == Some(Removal::Busy), "it is looked at");
    holds(&rt, shelf.keyed(&rt, b"one") == Some(0), "its key is there");
    holds(&rt, goes(&rt, &shelf, 0), "it goes behind the look");
    Ok(())
}

/// Says that a value goes, once another thread has had time to come to it.
fn goes_late<R: Wait + Clock>(rt: &R, shelf: &Shelf<Slot>, inside: &AtomicU64) -> bool {
    let removal = shelf.remove_if(rt, 0, |_| {
        inside.store(1, Ordering::SeqCst);
        thread::sleep(rt, Duration::from_millis(50));
        true
    });
    removal == Removal::Removed
}

/// Whether a look that begins while it is said that the value goes finds none.
fn finds_none<R: Wait + Clock>(rt: &R, shelf: &Shelf<Slot>, inside: &AtomicU64) -> bool {
    for _ in 0..10_000u32 {
        if inside.load(Ordering::SeqCst) == 1 {
            break;
        }
        thread::sleep(rt, Duration::from_millis(1));
    }
    !is_there(rt, shelf, 0)
}

#[test]
fn nobody_looks_between_what_is_said_and_the_end(rt: HostRuntime) -> Result<(), Fail> {
    let shelf = Shelf::new(rt.alloc())?;
    holds(&rt, put(&rt, &shelf, b"one") == Some(0), "it is put");
    let inside = AtomicU64::new(0);
    let both = join(
        &rt,
        || goes_late(&rt, &shelf, &inside),
        || finds_none(&rt, &shelf, &inside),
    );
    holds(&rt, both.0, "it went");
    holds(&rt, both.1, "who waited for it found none");
    Ok(())
}

/// Whether a walk from this number on finds each number that a step divides below a limit, and no other.
fn walks<R: Wait>(rt: &R, shelf: &Shelf<Slot>, step: u64, limit: u64) -> bool {
    let mut from = 0u64;
    let mut expected = 0u64;
    let mut is_well = true;
    for _ in 0..limit {
        let Some(no) = shelf.next_from(rt, from) else {
            break;
        };
        is_well = is_well && no == expected && is_there(rt, shelf, no);
        from = no.saturating_add(1);
        expected = expected.saturating_add(step);
    }
    is_well && expected >= limit
}

/// Puts so many values, and takes all away whose number this does not divide.
fn fills<R: Wait>(rt: &R, shelf: &Shelf<Slot>, step: u64, limit: u64) -> bool {
    let mut is_well = true;
    for no in 0..limit {
        is_well = is_well && put(rt, shelf, no.to_be_bytes().as_slice()) == Some(no);
        if no.checked_rem(step) != Some(0) {
            is_well = is_well && goes(rt, shelf, no);
        }
    }
    is_well
}

#[test]
fn what_is_old_is_found_among_what_is_late(rt: HostRuntime) -> Result<(), Fail> {
    let shelf = Shelf::new(rt.alloc())?;
    holds(&rt, shelf.next_from(&rt, 0).is_none(), "nothing is there");
    holds(&rt, fills(&rt, &shelf, 100, 10_000), "a hundredth stays");
    holds(&rt, shelf.held(&rt) == 100, "a hundred are there");
    holds(&rt, walks(&rt, &shelf, 100, 10_000), "each is found");
    for (from, next) in [
        (0, Some(0)),
        (1, Some(100)),
        (100, Some(100)),
        (9_801, Some(9_900)),
        (9_901, None),
        (u64::MAX, None),
    ] {
        holds(&rt, shelf.next_from(&rt, from) == next, "the next one");
    }
    holds(&rt, goes(&rt, &shelf, 100), "an old one goes");
    holds(&rt, !goes(&rt, &shelf, 100), "once");
    holds(&rt, shelf.next_from(&rt, 1) == Some(200), "it is gone");
    holds(&rt, shelf.held(&rt) == 99, "the others are there");
    Ok(())
}
