//! The keys of a shelf with their numbers, and the number that comes next.
ghost use Rattle.std.specs.Prelude.{◌≡◌, ◌≢◌, ◌↔◌, ◌+◌, ◌^◌, ◌<◌, ℕ, Ok, Err, Some, None, IfOk, OnOk, OnErr, IsErrOf};
ghost use Rattle.call_table.specs.inner.KeyTable.{digest_of, number_among, number_of, number_where, IsListed, IsSame, IsUnlisted};
ghost use Rattle.std.specs.BTreeMap.{get};
ghost use Rattle.std.specs.Ordering.{nat_cmp};

use std::alloc::{AllocError, Allocator};
use std::collections::BTreeMap;
use std::hash::{FoldHasher, Hasher};

/// Why a key gets no number.
#[derive(Clone, Copy, PartialEq, Eq, Debug)]
pub(crate) enum TakenKey {
    /// The key has this number.
    Known(u64),
    /// No number is left.
    Spent,
}

/// A key with its number.
#[derive(Drop)]
pub(crate) struct ListedKey<A: Allocator> {
    key: Vec<u8, A>,
    number: u64,
}

/// The keys with their numbers. Numbers rise from 0, and `next` is the least that no key has. A look-up compares digests,
/// which stand in the nodes of the map, and then one key; keys of one digest, whoever picked them, are compared as texts.
#[derive(Drop)]
pub(crate) struct KeyTable<A: Allocator> {
    /// For each digest the first key that has it.
    firsts: BTreeMap<u64, ListedKey<A>, A>,
    /// The keys whose digest an earlier key has.
    others: BTreeMap<Vec<u8, A>, u64, A>,
    pub(crate) next: u64,
}

/// A number made of all bytes of a key.
fn digest_of(key: &[u8]) -> u64
    ensures { result ≡ digest_of key.now }
{
    let mut hasher = FoldHasher::default();
    hasher.write(key);
    hasher.finish()
}

impl<A: Allocator + Clone> KeyTable<A> {
    /// The table without a key.
    pub(crate) fn new(firsts: A, others: A) -> KeyTable<A>
        ensures next { result.next ≡ 0 }
        ensures none { (key : _) → number_of result key ≡ None }
    {
        KeyTable {
            firsts: BTreeMap::new(firsts),
            others: BTreeMap::new(others),
            next: 0,
        }
    }

    /// The number of a key.
    pub(crate) fn keyed(&self, key: &[u8]) -> Option<u64>
        ensures { result ≡ number_of self.now key.now }
    {
        if let Some(number) = self.others.get(key) {
            return Some(*number);
        }
        let first = self.firsts.get(&digest_of(key))?;
        if first.key.as_slice() == key {
            Some(first.number)
        } else {
            None
        }
    }

    /// The number that a new key gets.
    pub(crate) fn free(&self, key: &[u8]) -> Result<u64, TakenKey>
        ensures number { IfOk result (λ no. (no ≡ self.now.next) × (no + 1 < 2 ^ 64)) }
        ensures new { OnOk result (number_of self.now key.now ≡ None) }
        ensures known { (no : ℕ) → IsErrOf result (TakenKey.Known no) ↔ (number_of self.now key.now ≡ Some no) }
    {
        if let Some(no) = self.keyed(key) {
            return Err(TakenKey::Known(no));
        }
        if self.next == u64::MAX {
            return Err(TakenKey::Spent);
        }
        Ok(self.next)
    }

    /// Gives the next number to a key whose digest no other key has.
    fn list_first(&mut self, digest: u64, key: Vec<u8, A>) -> Result<(), AllocError>
        requires next { self.old.next + 1 < 2 ^ 64 }
        requires new { number_of self.old key.items ≡ None }
        requires digest { digest ≡ digest_of key.items }
        requires none { get nat_cmp self.old.firsts digest ≡ None }
        ensures ok { OnOk result (IsListed key.items self.old self.new) }
        ensures err { OnErr result (IsSame self.old self.new) }
    {
        let number = self.next;
        let Ok(_) = self.firsts.insert(digest, ListedKey { key, number }) else {
            return Err(AllocError);
        };
        self.next = number + 1;
        Ok(())
    }

    /// Gives the next number to a key whose digest an earlier key has.
    fn list_other(&mut self, key: Vec<u8, A>) -> Result<(), AllocError>
        requires next { self.old.next + 1 < 2 ^ 64 }
        ensures ok { OnOk result (IsListed key.items self.old self.new) }
        ensures err { OnErr result (IsSame self.old self.new) }
    {
        let number = self.next;
        let Ok(_) = self.others.insert(key, number) else {
            return Err(AllocError);
        };
        self.next = number + 1;
        Ok(())
    }

    /// Gives a new key the next number. The only error is want of memory; then nothing has changed.
    pub(crate) fn list(&mut self, key: Vec<u8, A>) -> Result<(), AllocError>
        requires next { self.old.next + 1 < 2 ^ 64 }
        requires new { number_of self.old key.items ≡ None }
        ensures ok { OnOk result (IsListed key.items self.old self.new) }
        ensures err { OnErr result (IsSame self.old self.new) }
    {
        let digest = digest_of(key.as_slice());
        if self.firsts.contains_key(&digest) {
            self.list_other(key)
        } else {
            self.list_first(digest, key)
        }
    }

    /// Takes a key away from those that are the first of their digest.
    fn unlist_first(&mut self, key: &[u8]) -> Option<Vec<u8, A>>
        ensures next { self.new.next ≡ self.old.next }
        ensures others { self.new.others ≡ self.old.others }
        ensures gone { number_where key.now (get nat_cmp self.new.firsts (digest_of key.now)) ≡ None }
        ensures kept { (other : _) → other ≢ key.now → number_where other (get nat_cmp self.new.firsts (digest_of other)) ≡ number_where other (get nat_cmp self.old.firsts (digest_of other)) }
    {
        let digest = digest_of(key);
        let is_first = match self.firsts.get(&digest) {
            Some(first) => first.key.as_slice() == key,
            None => false,
        };
        if !is_first {
            return None;
        }
        match self.firsts.remove(&digest) {
            Some(first) => Some(first.key),
            None => None,
        }
    }

    /// Takes a key away from those whose digest an earlier key has.
    fn unlist_other(&mut self, key: &[u8]) -> Option<Vec<u8, A>>
        ensures next { self.new.next ≡ self.old.next }
        ensures firsts { self.new.firsts ≡ self.old.firsts }
        ensures gone { number_among self.new.others key.now ≡ None }
        ensures kept { (other : _) → other ≢ key.now → number_among self.new.others other ≡ number_among self.old.others other }
    {
        match self.others.remove_entry(key) {
            Some((other, _)) => Some(other),
            None => None,
        }
    }

    /// Takes a key away; each other keeps the number that it has, and the same number comes next. The answer is the memory of
    /// the key, which is to be freed where no lock is held.
    pub(crate) fn unlist(&mut self, key: &[u8]) -> Option<Vec<u8, A>>
        ensures { IsUnlisted key.now self.old self.new }
    {
        let other = self.unlist_other(key);
        let first = self.unlist_first(key);
        other.or(first)
    }
}
