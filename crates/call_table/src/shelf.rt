//! Values under numbers and keys, each behind a lock of its own.
ghost use Rattle.std.specs.Prelude.{◌≡◌, ◌+◌, ◌≤◌, ◌<◌, ◌^◌, ℕ, true, List, Ok, Err, None, Some, IfErr, IfNone, IfOk, IfSome, OnOk, OnErr};
ghost use Rattle.std.specs.Fn.{FnOnceReturnsAtMut};
ghost use Rattle.call_table.specs.inner.KeyTable.{number_of, IsListed, IsSame, IsUnlisted};
ghost use Rattle.call_table.specs.Faults.{IfKnown, IfMade};
ghost use Rattle.call_table.specs.Removals.{said};

use crate::entries::{ShelfEntries, ShelfEntry, Shelved};
use crate::key_table::{KeyTable, TakenKey};
use std::alloc::{AllocError, Allocator, Global};
use std::sync::{Arc, Mutex, Wait};
use thiserror::Error;

/// A value that knows its number on a shelf.
pub trait Numbered {
    ghost number_of: { Self → ℕ };

    /// The number of the value.
    fn number(&self) -> u64
        ensures { result ≡ number_of self.now };
}

/// Why nothing was put, in the order in which the causes are looked for.
#[derive(Drop, Error)]
#[derive_where(Debug)]
pub enum ShelfFault<E> {
    /// The key has this number already.
    #[error("the key has number {0}")]
    Known(u64),
    /// No number is left.
    #[error("no number is left")]
    Spent,
    /// What makes the value refused.
    #[error("the value was not made")]
    Made(#[derive_where(skip)] E),
    /// A growth was refused.
    #[error("out of memory")]
    NoMemory,
}

/// What becomes a value of a shelf once it has a number.
pub trait Pending<T: Numbered> {
    ghost becomes: { Self → ℕ → T → Type 0 };

    /// The value under this number.
    fn numbered(self, number: u64) -> T
        ensures becomes { becomes self number result }
        ensures number { T.number_of result ≡ number };
}

/// Why what was to become a value was not put, in the order in which the causes are looked for.
#[derive(Drop, Error)]
#[derive_where(Debug)]
pub enum PendingFault<P> {
    /// The key has this number already. What was to become a value is given back.
    #[error("the key has number {0}")]
    Known(u64, #[derive_where(skip)] P),
    /// No number is left.
    #[error("no number is left")]
    Spent,
    /// A growth was refused.
    #[error("out of memory")]
    NoMemory,
}

/// What became of a value that was to be taken away.
#[derive(Clone, Copy, PartialEq, Eq, Debug)]
pub enum Removal {
    /// It was taken away.
    Removed,
    /// It is there: it was not to go.
    Kept,
    /// It is there, and another one looks at it now, or is about to.
    Busy,
    /// It is not there.
    Absent,
}

/// What stood under a number and a key, to be freed where no lock is held.
#[derive(Drop)]
struct Unlisted<T, A: Allocator> {
    entry: ShelfEntry<T, A>,
    key: Option<Vec<u8, A>>,
}

/// Values under numbers and keys. The keys have a lock, the list of entries another, which is held for a moment only, and
/// each value one of its own: who looks at a value waits neither for one that is being made nor for a look at another.
#[derive(Drop)]
pub struct Shelf<T: Numbered, A: Allocator = Global> {
    alloc: A,
    key_table: Mutex<KeyTable<A>>,
    entries: Mutex<ShelfEntries<T, A>>,
}

impl<T: Numbered + Drop, A: Allocator + Clone> Shelf<T, A> {
    /// A shelf with nothing on it. The only error is want of memory.
    pub fn new(alloc: A) -> Result<Shelf<T, A>, AllocError> {
        let firsts = alloc.clone()?;
        let others = alloc.clone()?;
        let early = alloc.clone()?;
        let places = alloc.clone()?;
        Ok(Shelf {
            alloc,
            key_table: Mutex::new(KeyTable::new(firsts, others)),
            entries: Mutex::new(ShelfEntries::new(early, places)),
        })
    }

    /// Puts the value that `make` makes for the next number under a key, and answers the number. Numbers rise from 0. The
    /// keys are locked while `make` runs, so it may look at the shelf's values, but not at its keys.
    ///
    /// # Errors
    ///
    /// `Known` where the key has a number; else `Spent` where none is left, without a call of `make`; else `Made` with what
    /// `make` refused with; `NoMemory` only where the allocator refuses. Then the next number stays what it was.
    pub fn put<R: Wait, E: Drop, F: FnOnce(u64) -> Result<T, E>>(
        &self,
        rt: &R,
        key: &[u8],
        make: F,
    ) -> Result<u64, ShelfFault<E>>
        requires callable { F.IsAlwaysCallable make }
        requires numbered { (no : ℕ) (value : T) → F.post make no (Ok value) → T.number_of value ≡ no }
        ensures made { IfOk result (λ no. (value : T) × F.post make no (Ok value)) }
        ensures refused { IfErr result (IfMade (λ refused. (no : ℕ) × F.post make no (Err refused))) }
    {
        self.put_at(rt, &mut self.key_table.lock(rt), key, make)
    }

    /// Puts as `put` does, with the keys locked.
    fn put_at<R: Wait, E: Drop, F: FnOnce(u64) -> Result<T, E>>(
        &self,
        rt: &R,
        key_table: &mut KeyTable<A>,
        key: &[u8],
        make: F,
    ) -> Result<u64, ShelfFault<E>>
        requires callable { F.IsAlwaysCallable make }
        requires numbered { (no : ℕ) (value : T) → F.post make no (Ok value) → T.number_of value ≡ no }
        ensures made { IfOk result (λ no. (value : T) × F.post make no (Ok value)) }
        ensures refused { IfErr result (IfMade (λ refused. (no : ℕ) × F.post make no (Err refused))) }
        ensures number { IfOk result (λ no. no ≡ key_table.old.next) }
        ensures ok { OnOk result (IsListed key.now key_table.old key_table.new) }
        ensures err { OnErr result (IsSame key_table.old key_table.new) }
    {
        let no = match key_table.free(key) {
            Ok(no) => no,
            Err(TakenKey::Known(no)) => return Err(ShelfFault::Known(no)),
            Err(TakenKey::Spent) => return Err(ShelfFault::Spent),
        };
        let value = match make(no) {
            Ok(value) => value,
            Err(refused) => return Err(ShelfFault::Made(refused)),
        };
        let Ok(key) = self.name(key) else {
            return Err(ShelfFault::NoMemory);
        };
        match self.list(rt, key_table, key, value) {
            Ok(()) => Ok(no),
            Err(AllocError) => Err(ShelfFault::NoMemory),
        }
    }

    /// Puts what becomes a value under the next number, under a key, and answers the number. As `put`, but all that takes time
    /// is done before, and what was made is not lost where the key has a number. The shelf keeps the key as it is.
    ///
    /// # Errors
    ///
    /// `Known` where the key has a number, with what was to be put; else `Spent` where no number is left; `NoMemory` only where
    /// the allocator refuses. Then the next number stays what it was.
    pub fn put_pending<R: Wait, P: Pending<T> + Drop>(
        &self,
        rt: &R,
        key: Vec<u8, A>,
        pending: P,
    ) -> Result<u64, PendingFault<P>>
        ensures put { IfOk result (λ no. (value : T) × P.becomes pending no value × (T.number_of value ≡ no)) }
        ensures known { IfErr result (IfKnown (λ no back. back ≡ pending)) }
    {
        self.put_pending_at(rt, &mut self.key_table.lock(rt), key, pending)
    }

    /// Puts as `put_pending` does, with the keys locked.
    fn put_pending_at<R: Wait, P: Pending<T> + Drop>(
        &self,
        rt: &R,
        key_table: &mut KeyTable<A>,
        key: Vec<u8, A>,
        pending: P,
    ) -> Result<u64, PendingFault<P>>
        ensures put { IfOk result (λ no. (value : T) × P.becomes pending no value × (T.number_of value ≡ no)) }
        ensures known { IfErr result (IfKnown (λ no back. (number_of key_table.old key.items ≡ Some no) × (back ≡ pending))) }
        ensures number { IfOk result (λ no. no ≡ key_table.old.next) }
        ensures ok { OnOk result (IsListed key.items key_table.old key_table.new) }
        ensures err { OnErr result (IsSame key_table.old key_table.new) }
    {
        let no = match key_table.free(&key) {
            Ok(no) => no,
            Err(TakenKey::Known(no)) => return Err(PendingFault::Known(no, pending)),
            Err(TakenKey::Spent) => return Err(PendingFault::Spent),
        };
        match self.list(rt, key_table, key, pending.numbered(no)) {
            Ok(()) => Ok(no),
            Err(AllocError) => Err(PendingFault::NoMemory),
        }
    }

    /// Puts a value under the next number and a key that has none, with the keys locked.
    fn list<R: Wait>(
        &self,
        rt: &R,
        key_table: &mut KeyTable<A>,
        key: Vec<u8, A>,
        value: T,
    ) -> Result<(), AllocError>
        requires next { key_table.old.next + 1 < 2 ^ 64 }
        requires new { number_of key_table.old key.items ≡ None }
        ensures ok { OnOk result (IsListed key.items key_table.old key_table.new) }
        ensures err { OnErr result (IsSame key_table.old key_table.new) }
    {
        let name = self.name(&key)?;
        let value = self.behind_lock(value)?;
        let mut entries = self.entries.lock(rt);
        entries.reserve()?;
        key_table.list(key)?;
        entries.push(ShelfEntry { key: name, value });
        Ok(())
    }

    /// A key in memory of the shelf's own.
    fn name(&self, key: &[u8]) -> Result<Vec<u8, A>, AllocError>
        ensures { IfOk result (λ name. name.items ≡ key.now) }
    {
        Vec::from_slice(self.alloc.clone()?, key)
    }

    /// A value behind a lock.
    fn behind_lock(&self, value: T) -> Result<Arc<Mutex<Shelved<T>>, A>, AllocError> {
        let alloc = self.alloc.clone()?;
        let shelved = Shelved {
            value,
            is_gone: false,
        };
        match Arc::new(alloc, Mutex::new(shelved)) {
            Ok(entry) => Ok(entry),
            Err(_) => Err(AllocError),
        }
    }

    /// How many values were put: each number below this count was given once, and none from the count on.
    pub fn count<R: Wait>(&self, rt: &R) -> u64 {
        self.key_table.lock(rt).next
    }

    /// The number of a key.
    pub fn keyed<R: Wait>(&self, rt: &R, key: &[u8]) -> Option<u64> {
        self.key_table.lock(rt).keyed(key)
    }

    /// Takes the value of a number away, with its key, where `f` says so of it. The value is locked while `f` looks at it, and
    /// nobody looks at it between then and its end; `f` must not look at the shelf. The key may be put anew and gets a new
    /// number then; the number is never given again. It waits for no look at the value, takes no memory, and frees the value
    /// where no lock is held.
    pub fn remove_if<R: Wait, F: FnOnce(&mut T) -> bool>(&self, rt: &R, no: u64, f: F) -> Removal
        requires callable { (x : _) → T.number_of x.now ≡ no → F.pre f x }
        requires keeps { (old new : T) (r : _) → T.number_of old ≡ no → FnOnceReturnsAtMut F.FnOnce f old r new → T.number_of new ≡ no }
        ensures { IfSome (said result) (λ r. (old : T) × (new : T) × (T.number_of old ≡ no) × FnOnceReturnsAtMut F.FnOnce f old r new) }
    {
        let removed = self.remove_at(rt, &mut self.key_table.lock(rt), no, f);
        match removed {
            Ok(_) => Removal::Removed,
            Err(removal) => removal,
        }
    }

    /// Takes away as `remove_if` does, with the keys locked, and answers what is to be freed.
    fn remove_at<R: Wait, F: FnOnce(&mut T) -> bool>(
        &self,
        rt: &R,
        key_table: &mut KeyTable<A>,
        no: u64,
        f: F,
    ) -> Result<Unlisted<T, A>, Removal>
        requires callable { (x : _) → T.number_of x.now ≡ no → F.pre f x }
        ensures taken { OnOk result ((old : T) × (new : T) × (T.number_of old ≡ no) × FnOnceReturnsAtMut F.FnOnce f old true new) }
        ensures left { IfErr result (λ why. IfSome (said why) (λ r. (old : T) × (new : T) × (T.number_of old ≡ no) × FnOnceReturnsAtMut F.FnOnce f old r new)) }
        ensures gone { OnOk result ((key : List ℕ) × (number_of key_table.old key ≡ Some no) × IsUnlisted key key_table.old key_table.new) }
        ensures same { OnErr result (key_table.new ≡ key_table.old) }
    {
        let Some(entry) = self.entry(rt, no) else {
            return Err(Removal::Absent);
        };
        take_if(&entry, no, f)?;
        match self.unlist(rt, key_table, no) {
            Some(unlisted) => Ok(unlisted),
            None => Err(Removal::Absent),
        }
    }

    /// Takes the entry of a number away, with its key, with the keys locked.
    fn unlist<R: Wait>(
        &self,
        rt: &R,
        key_table: &mut KeyTable<A>,
        no: u64,
    ) -> Option<Unlisted<T, A>>
        ensures gone { IfSome result (λ _. (key : List ℕ) × (number_of key_table.old key ≡ Some no) × IsUnlisted key key_table.old key_table.new) }
        ensures same { IfNone result (key_table.new ≡ key_table.old) }
    {
        let entry = self.entries.lock(rt).take(no)?;
        if key_table.keyed(&entry.key) != Some(no) {
            return None;
        }
        let key = key_table.unlist(&entry.key);
        Some(Unlisted { entry, key })
    }

    /// How many values are there: those that were put and not taken away.
    pub fn held<R: Wait>(&self, rt: &R) -> u64 {
        self.entries.lock(rt).held()
    }

    /// The least number from this one on whose value is there. The time does not grow with how many numbers were given before.
    pub fn next_from<R: Wait>(&self, rt: &R, from: u64) -> Option<u64>
        ensures { IfSome result (λ no. from ≤ no) }
    {
        self.entries.lock(rt).next_from(from)
    }

    /// The entry of a number, with no lock held.
    fn entry<R: Wait>(&self, rt: &R, no: u64) -> Option<Arc<Mutex<Shelved<T>>, A>> {
        let entries = self.entries.lock(rt);
        Arc::try_clone(&entries.get(no)?.value).ok()
    }

    /// Calls `f` at the value of a number, with that value locked, and answers what it returns. None where there is no such
    /// value, or no further owner of the entry could be made.
    pub fn with<R: Wait, U, F: FnOnce(&mut T) -> U>(&self, rt: &R, no: u64, f: F) -> Option<U>
        requires callable { (x : _) → T.number_of x.now ≡ no → F.pre f x }
        requires keeps { (old new : T) (r : U) → T.number_of old ≡ no → FnOnceReturnsAtMut F.FnOnce f old r new → T.number_of new ≡ no }
        ensures { IfSome result (λ r. (old : T) × (new : T) × (T.number_of old ≡ no) × FnOnceReturnsAtMut F.FnOnce f old r new) }
    {
        let entry = self.entry(rt, no)?;
        let mut guard = entry.lock(rt);
        called_at(&mut *guard, no, f)
    }
}

/// Takes a value away, where it has this number and `f` says so of it, without waiting for its lock. It stays where it is until its last
/// owner goes: so it is not copied.
fn take_if<T: Numbered, F: FnOnce(&mut T) -> bool>(
    lock: &Mutex<Shelved<T>>,
    no: u64,
    f: F,
) -> Result<(), Removal>
    requires callable { (x : _) → T.number_of x.now ≡ no → F.pre f x }
    ensures taken { OnOk result ((old : T) × (new : T) × (T.number_of old ≡ no) × FnOnceReturnsAtMut F.FnOnce f old true new) }
    ensures left { IfErr result (λ why. IfSome (said why) (λ r. (old : T) × (new : T) × (T.number_of old ≡ no) × FnOnceReturnsAtMut F.FnOnce f old r new)) }
{
    let Some(mut guard) = lock.try_lock() else {
        return Err(Removal::Busy);
    };
    match called_at(&mut *guard, no, f) {
        None => return Err(Removal::Absent),
        Some(false) => return Err(Removal::Kept),
        Some(true) => {}
    }
    guard.is_gone = true;
    Ok(())
}

/// What a call of `f` at a value returns, where the value was not taken away and has this number.
fn called_at<T: Numbered, U, F: FnOnce(&mut T) -> U>(
    shelved: &mut Shelved<T>,
    no: u64,
    f: F,
) -> Option<U>
    requires callable { (x : _) → T.number_of x.now ≡ no → F.pre f x }
    ensures { IfSome result (λ r. (old : T) × (new : T) × (T.number_of old ≡ no) × FnOnceReturnsAtMut F.FnOnce f old r new) }
{
    if shelved.is_gone {
        return None;
    }
    let value = &mut shelved.value;
    if value.number() != no {
        return None;
    }
    Some(called(f, value))
}

/// What a call of `f` at a value returns.
fn called<T, U, F: FnOnce(&mut T) -> U>(f: F, x: &mut T) -> U
    requires { (r : _) → r.now ≡ x.old → F.pre f r }
    ensures { FnOnceReturnsAtMut F.FnOnce f x.old result x.new }
{
    f(x)
}
