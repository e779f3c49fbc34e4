//! A shelf gives each value a number and a lock of its own.
ghost use Rattle.std.specs.Prelude.{◌≡◌};

use crate::holds::holds;
use call_table::{Numbered, Shelf, ShelfFault};
use std::alloc::Global;
use std::sync::Wait;
use std::sync::atomic::{AtomicU64, Ordering};
use std::test::Fail;
use std::thread;
use std::thread::join;
use std::time::{Clock, Duration};

/// How many times a test looks for what another thread does before it gives up.
const TURNS: u32 = 10_000;

/// A value that counts how often it was looked at.
#[derive(Drop)]
struct Slot {
    no: u64,
    seen: u64,
}

impl Slot {
    fn open(no: u64) -> Slot
        ensures { result.no ≡ no }
    {
        Slot { no, seen: 0 }
    }

    fn see(&mut self) -> u64
        ensures { self.new.no ≡ self.old.no }
    {
        self.seen = self.seen.saturating_add(1);
        self.seen
    }
}

impl Numbered for Slot {
    ghost number_of = { λ slot. slot.no };

    fn number(&self) -> u64 {
        self.no
    }
}

fn put<R: Wait>(rt: &R, shelf: &Shelf<Slot>, key: &[u8]) -> Result<u64, ShelfFault<u8>> {
    shelf.put(rt, key, |no| Ok(Slot::open(no)))
}

fn refuse<R: Wait>(rt: &R, shelf: &Shelf<Slot>, key: &[u8]) -> Result<u64, ShelfFault<u8>> {
    shelf.put(rt, key, |_| Err(7))
}

fn seen<R: Wait>(rt: &R, shelf: &Shelf<Slot>, no: u64) -> Option<u64> {
    shelf.with(rt, no, |slot| slot.see())
}

#[test]
fn numbers_rise_and_none_is_lost(rt: HostRuntime) -> Result<(), Fail> {
    let shelf = Shelf::new(rt.alloc())?;
    let one = put(&rt, &shelf, b"one");
    holds(&rt, matches!(one, Ok(0)), "the first number is 0");
    let again = put(&rt, &shelf, b"one");
    holds(
        &rt,
        matches!(again, Err(ShelfFault::Known(0))),
        "the key has number 0",
    );
    let refused = refuse(&rt, &shelf, b"two");
    holds(
        &rt,
        matches!(refused, Err(ShelfFault::Made(7))),
        "what makes the value refused",
    );
    let three = put(&rt, &shelf, b"three");
    holds(&rt, matches!(three, Ok(1)), "a refusal uses no number up");
    holds(
        &rt,
        shelf.keyed(&rt, b"three") == Some(1),
        "a key tells its number",
    );
    holds(
        &rt,
        shelf.keyed(&rt, b"two").is_none(),
        "a refused key has none",
    );
    Ok(())
}

/// A key whose digest is 0 whatever its last eight bytes are: the first eight are what the hash begins with at 16 bytes.
fn of_digest_zero(last: u8) -> [u8; 16] {
    let [a, b, c, d, e, f, g, h] = 0x243f_6a88_85a3_08e3u64.to_le_bytes();
    [
        a, b, c, d, e, f, g, h, last, last, last, last, last, last, last, last,
    ]
}

#[test]
fn keys_of_one_digest_are_told_apart(rt: HostRuntime) -> Result<(), Fail> {
    let shelf = Shelf::new(rt.alloc())?;
    for last in 0..4u8 {
        let put = put(&rt, &shelf, &of_digest_zero(last));
        holds(&rt, matches!(put, Ok(_)), "each is new");
    }
    for last in 0..4u8 {
        let number = shelf.keyed(&rt, &of_digest_zero(last));
        holds(
            &rt,
            number == Some(u64::from(last)),
            "each has its own number",
        );
        let again = put(&rt, &shelf, &of_digest_zero(last));
        holds(
            &rt,
            matches!(again, Err(ShelfFault::Known(_))),
            "each is known",
        );
    }
    holds(
        &rt,
        shelf.keyed(&rt, &of_digest_zero(4)).is_none(),
        "another one is not",
    );
    Ok(())
}

#[test]
fn a_look_finds_what_was_put(rt: HostRuntime) -> Result<(), Fail> {
    let shelf = Shelf::new(rt.alloc())?;
    holds(&rt, put(&rt, &shelf, b"one").is_ok(), "a value is put");
    holds(&rt, seen(&rt, &shelf, 0) == Some(1), "it is looked at");
    holds(
        &rt,
        seen(&rt, &shelf, 0) == Some(2),
        "it is the same at the next look",
    );
    holds(
        &rt,
        seen(&rt, &shelf, 1).is_none(),
        "there is no second one",
    );
    Ok(())
}

/// Waits a bounded time until this is set.
fn waits<R: Clock>(rt: &R, set: &AtomicU64) -> bool {
    for _ in 0..TURNS {
        if set.load(Ordering::SeqCst) == 1 {
            return true;
        }
        thread::sleep(rt, Duration::from_millis(1));
    }
    false
}

/// Stays at the first value until the other thread's look has come back.
fn stays<R: Wait + Clock>(
    rt: &R,
    shelf: &Shelf<Slot>,
    inside: &AtomicU64,
    passed: &AtomicU64,
) -> bool {
    let came = shelf.with(rt, 0, |_| {
        inside.store(1, Ordering::SeqCst);
        waits(rt, passed)
    });
    came == Some(true)
}

/// Looks at the second value while the other thread is at the first.
fn passes<R: Wait + Clock>(
    rt: &R,
    shelf: &Shelf<Slot>,
    inside: &AtomicU64,
    passed: &AtomicU64,
) -> bool {
    let began = waits(rt, inside);
    let looked = seen(rt, shelf, 1) == Some(1);
    passed.store(1, Ordering::SeqCst);
    began && looked
}

#[test]
fn two_values_share_no_lock(rt: HostRuntime) -> Result<(), Fail> {
    let shelf = Shelf::new(rt.alloc())?;
    holds(&rt, put(&rt, &shelf, b"one").is_ok(), "the first is put");
    holds(&rt, put(&rt, &shelf, b"two").is_ok(), "the second is put");
    let inside = AtomicU64::new(0);
    let passed = AtomicU64::new(0);
    let both = join(
        &rt,
        || stays(&rt, &shelf, &inside, &passed),
        || passes(&rt, &shelf, &inside, &passed),
    );
    holds(
        &rt,
        both.0,
        "the look at the first lasted until the other came back",
    );
    holds(&rt, both.1, "the second was looked at meanwhile");
    Ok(())
}

/// Whether the first value can be looked at.
fn looks<R: Wait>(rt: &R, shelf: &Shelf<Slot>) -> bool {
    seen(rt, shelf, 0).is_some()
}

#[test]
fn a_look_does_not_wait_for_a_value_being_made(rt: HostRuntime) -> Result<(), Fail> {
    let shelf = Shelf::new(rt.alloc())?;
    holds(&rt, put(&rt, &shelf, b"one").is_ok(), "the first is put");
    let made: Result<u64, ShelfFault<u8>> = shelf.put(
        &rt,
        b"two",
        |no| if join(&rt, || looks(&rt, &shelf), || true).0 {
            Ok(Slot::open(no))
        } else {
            Err(1)
        },
    );
    holds(
        &rt,
        matches!(made, Ok(1)),
        "another thread looked while the second was made",
    );
    Ok(())
}
