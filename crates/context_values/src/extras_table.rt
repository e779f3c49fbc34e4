//! The extras of each row, found by the row's number or by its key.
ghost use Rattle.std.specs.Prelude.{◌≡◌, ◌≤◌, ◌<◌, ◌+◌, ◌++◌, ◌∷◌, [], length, nat_eq, slice_get, vec_len, vec_capacity, IfOk, OnOk, OnErr};
ghost use Rattle.std.specs.List.{list_any, insert};
ghost use Rattle.std.specs.Option.{option_copied};
ghost use Rattle.std.specs.Cmp.Lexicographic.{pointwise};
ghost use Rattle.fork_model.specs.Table.{most_targets};
ghost use Rattle.context_values.specs.inner.ByKey.{IsByKey, Parted, Rising, key_at, is_before, found_at};
ghost use Rattle.context_values.specs.RowExtras.{with_row_extras};

use crate::offer::Offer;
use crate::row_extras::RowExtras;
use fork_rank::Challenge;
use std::alloc::{AllocError, Allocator, Global};
use std::marker::Model;

/// The extras of each row, by the row's number, and the numbers in the order of the keys, so that a key is compared
/// with few others.
#[derive(Drop)]
pub struct ExtrasTable<A: Allocator = Global> {
    all: Vec<RowExtras<A>, A>,
    by_key: Vec<u16, A>,
}

impl<A: Allocator> Model for ExtrasTable<A> {
    ghost use Rattle.std.specs.Prelude.{List, length};
    ghost use Rattle.context_values.specs.RowExtras as spec;
    ghost use Rattle.context_values.specs.inner.ByKey.{IsByKey};

    ghost Value = { List spec.RowExtras };

    ghost view = { λ b. b.all.items };

    ghost invariant = { λ b. IsByKey b.all.items (length b.all.items) b.by_key.items };
}

impl<A: Allocator + Clone> ExtrasTable<A> {
    /// The extras of these rows; the only error is want of memory.
    pub fn of(alloc: &A, all: Vec<RowExtras<A>, A>) -> Result<ExtrasTable<A>, AllocError>
        requires few { length all.items ≤ most_targets }
        ensures { IfOk result (λ extras. extras ≡ all.items) }
    {
        let mut by_key = Vec::with_capacity(alloc.clone()?, all.len())?;
        number_keys(&mut by_key, &all, 0);
        Ok(ExtrasTable { all, by_key })
    }
}

impl<A: Allocator> ExtrasTable<A> {
    /// How many rows there are.
    pub fn count(&self) -> usize
        ensures { result ≡ length self.now }
    {
        self.all.len()
    }

    /// The extras of row n.
    pub fn get(&self, n: u16) -> Option<&RowExtras<A>>
        ensures { option_copied result ≡ slice_get self.now n }
    {
        self.all.get(n as usize)
    }

    /// Whether some row has this key.
    pub fn has_key(&self, key: &[u8]) -> bool
        ensures { result ≡ list_any (λ row_extras. pointwise nat_eq key.now row_extras.key) self.now }
    {
        let place = key_place(&self.all, &self.by_key, key);
        is_key_of(&self.all, number_at(&self.by_key, place), key)
    }

    /// The extras of one further row; the only error is want of memory.
    pub fn push(&mut self, row_extras: RowExtras<A>) -> Result<(), AllocError>
        requires few { length self.old < most_targets }
        ensures { OnOk result (self.new ≡ self.old ++ row_extras ∷ []) }
    {
        let count = self.all.len() as u16;
        self.by_key.reserve(1)?;
        self.all.push(row_extras)?;
        number_keys(&mut self.by_key, &self.all, count);
        Ok(())
    }

    /// The extras of further rows.
    ///
    /// # Errors
    ///
    /// Only where the allocator refuses; then nothing is changed.
    pub fn append(&mut self, mut fresh: Vec<RowExtras<A>, A>) -> Result<(), AllocError>
        requires few { length self.old + length fresh.items ≤ most_targets }
        ensures ok { OnOk result (self.new ≡ self.old ++ fresh.items) }
        ensures err { OnErr result (self.new ≡ self.old) }
    {
        let count = self.all.len() as u16;
        self.by_key.reserve(fresh.len())?;
        self.all.append(&mut fresh)?;
        number_keys(&mut self.by_key, &self.all, count);
        Ok(())
    }

    /// Keeps what is stored with the answer to row n.
    pub fn store(&mut self, n: u16, left: Vec<Offer<A>, A>, challenges: Vec<Challenge<A>, A>)
        requires there { n < length self.old }
        ensures { self.new ≡ with_row_extras self.old n left.items challenges.items }
    {
        self.all[n as usize].store(left, challenges);
    }
}

/// The number at this place, if there is one.
fn number_at(by_key: &[u16], place: usize) -> Option<u16>
    ensures { result ≡ slice_get by_key.now place }
{
    by_key.get(place).copied()
}

/// The key of row n.
fn key_at<A: Allocator>(all: &[RowExtras<A>], n: u16) -> &[u8]
    ensures { result.now ≡ key_at all.now n }
{
    match all.get(n as usize) {
        Some(row_extras) => row_extras.key(),
        None => &[],
    }
}

/// Whether the key of row n comes before this one.
fn is_before<A: Allocator>(all: &[RowExtras<A>], n: u16, key: &[u8]) -> bool
    ensures { result ≡ is_before all.now key.now n }
{
    key_at(all, n).cmp(key).is_lt()
}

/// Whether there is such a row, and it has this key.
fn is_key_of<A: Allocator>(all: &[RowExtras<A>], n: Option<u16>, key: &[u8]) -> bool
    ensures { result ≡ found_at all.now key.now n }
{
    match n {
        Some(n) => key == key_at(all, n),
        None => false,
    }
}

/// How many keys come before this one.
fn key_place<A: Allocator>(all: &[RowExtras<A>], by_key: &[u16], key: &[u8]) -> usize
    requires { Rising all.now by_key.now }
    ensures within { result ≤ length by_key.now }
    ensures parted { Parted all.now key.now by_key.now result }
{
    by_key.partition_point(|n| is_before(all, *n, key))
}

/// Puts the number of one more row into its place, for which there is room.
fn insert_number<A: Allocator>(by_key: &mut Vec<u16, A>, all: &[RowExtras<A>], n: u16)
    requires room { vec_len by_key.old < vec_capacity by_key.old }
    requires so_far { IsByKey all.now n by_key.old.items }
    ensures more { IsByKey all.now (n + 1) by_key.new.items }
    ensures capacity { vec_capacity by_key.new ≡ vec_capacity by_key.old }
    ensures len { vec_len by_key.new ≡ vec_len by_key.old + 1 }
{
    let place = key_place(all, by_key, key_at(all, n));
    let _ = by_key.insert(place, n);
}

/// Puts the numbers of the rows from this one on into their places.
fn number_keys<A: Allocator>(by_key: &mut Vec<u16, A>, all: &[RowExtras<A>], first: u16)
    requires few { length all.now ≤ most_targets }
    requires old { first ≤ length all.now }
    requires room { vec_len by_key.old + length all.now ≤ vec_capacity by_key.old + first }
    requires so_far { IsByKey all.now first by_key.old.items }
    ensures { IsByKey all.now (length all.now) by_key.new.items }
{
    for n in first..all.len() as u16 {
        insert_number(by_key, all, n);
    }
}
