//! Values behind locks, by number: the late ones in places, the early ones, which are few, in a map.
ghost use Rattle.std.specs.Prelude.{◌≡◌, ◌+◌, ◌^◌, ◌<◌, is_some, IfNone, IfSome};
ghost use Rattle.call_table.specs.inner.Entries.{is_early, is_placed, is_there, IsNext};

use std::alloc::{AllocError, Allocator};
use std::collections::{BTreeMap, VecDeque};
use std::mem;
use std::sync::{Arc, Mutex};

/// How many empty places are never too many.
const SPARE: u64 = 64;

/// How many places are left behind at most where one value is taken away.
const MOST_LEFT: u32 = 4;

/// A value, and whether it was taken away: then nobody looks at it any more.
#[derive(Drop)]
pub(crate) struct Shelved<T> {
    pub(crate) value: T,
    pub(crate) is_gone: bool,
}

/// A value behind its lock, and the key that it was put under.
#[derive(Drop)]
pub(crate) struct ShelfEntry<T, A: Allocator> {
    pub(crate) key: Vec<u8, A>,
    pub(crate) value: Arc<Mutex<Shelved<T>>, A>,
}

/// The entries by number. The entry of a number below `base` stands in a map; that of a number from there on has a place, which
/// is how far the number is behind `base`. A place is empty where its entry was taken away. Where most places are empty the
/// first ones are left behind, and their entries move into the map: so a few that stay for long take no memory for later numbers.
#[derive(Drop)]
pub(crate) struct ShelfEntries<T, A: Allocator> {
    base: u64,
    early: BTreeMap<u64, ShelfEntry<T, A>, A>,
    places: VecDeque<Option<ShelfEntry<T, A>>, A>,
    /// How many places have an entry.
    placed: u64,
}

impl<T: Drop, A: Allocator + Clone> ShelfEntries<T, A> {
    /// No entry, and no number given.
    pub(crate) fn new(early: A, places: A) -> ShelfEntries<T, A> {
        ShelfEntries {
            base: 0,
            early: BTreeMap::new(early),
            places: VecDeque::new(places),
            placed: 0,
        }
    }

    /// How many entries are there.
    pub(crate) fn held(&self) -> u64 {
        self.placed.saturating_add(self.early.len() as u64)
    }

    /// Makes room for one more place.
    pub(crate) fn reserve(&mut self) -> Result<(), AllocError> {
        self.places.reserve(1)
    }

    /// Puts the entry of the number that comes next. Nothing is put where there is no room for its place.
    pub(crate) fn push(&mut self, entry: ShelfEntry<T, A>) {
        if self.places.push_back(Some(entry)).is_ok() {
            self.placed = self.placed.wrapping_add(1);
        }
    }

    /// The place of a number that is not below `base`.
    fn place_of(&self, no: u64) -> Option<usize>
        ensures some { IfSome result (λ at. no ≡ self.now.base + at) }
        ensures none { IfNone result (no < self.now.base) }
    {
        usize::try_from(no.checked_sub(self.base)?).ok()
    }

    /// The entry of a number, where it was put and not taken away.
    pub(crate) fn get(&self, no: u64) -> Option<&ShelfEntry<T, A>>
        ensures { is_some result ≡ is_there self.now no }
    {
        let Some(at) = self.place_of(no) else {
            return self.early.get(&no);
        };
        match self.places.get(at) {
            Some(Some(entry)) => Some(entry),
            _ => None,
        }
    }

    /// Takes the entry of a number away.
    pub(crate) fn take(&mut self, no: u64) -> Option<ShelfEntry<T, A>> {
        let Some(at) = self.place_of(no) else {
            return self.early.remove(&no);
        };
        let taken = mem::take(self.places.get_mut(at)?)?;
        self.placed = self.placed.wrapping_sub(1);
        self.leave_places();
        Some(taken)
    }

    /// Whether more than half of the places are empty, and more than are never too many.
    fn is_sparse(&self) -> bool {
        self.places.len() as u64 > self.placed.saturating_mul(2).saturating_add(SPARE)
    }

    /// Leaves places in front behind, a few at a time: those that are empty, and where most are, each.
    fn leave_places(&mut self) {
        for _ in 0..MOST_LEFT {
            let is_left = match self.places.front() {
                Some(None) => true,
                Some(Some(_)) => self.is_sparse() && self.move_first(),
                None => false,
            };
            if !is_left {
                return;
            }
            let _ = self.places.pop_front();
            self.base = self.base.wrapping_add(1);
        }
    }

    /// Moves the entry of the first place into the map, and says whether it did: where memory is refused the entry stays.
    fn move_first(&mut self) -> bool {
        let Some(first) = self.places.front_mut() else {
            return false;
        };
        let Some(entry) = mem::take(first) else {
            return true;
        };
        match self.early.insert(self.base, entry) {
            Ok(_) => {
                self.placed = self.placed.wrapping_sub(1);
                true
            }
            Err(refused) => {
                *first = Some(refused.value.1);
                false
            }
        }
    }

    /// The least number from this one on whose entry is there.
    pub(crate) fn next_from(&self, from: u64) -> Option<u64>
        ensures { IsNext (is_there self.now) from (2 ^ 64) result }
    {
        if let Some(no) = self.next_early(from) {
            return Some(no);
        }
        match self.next_place(from.saturating_sub(self.base) as usize) {
            Some(at) => self.base.checked_add(at as u64),
            None => None,
        }
    }

    /// The least number from this one on, and below `base`, whose entry is there.
    fn next_early(&self, from: u64) -> Option<u64>
        ensures { IsNext (is_early self.now) from self.now.base result }
    {
        if self.base <= from {
            return None;
        }
        match self.early.range(from..self.base).next() {
            Some((no, _)) => Some(*no),
            None => None,
        }
    }

    /// The first place from this one on that has an entry.
    fn next_place(&self, first: usize) -> Option<usize>
        ensures { IsNext (is_placed self.now) first (2 ^ 64) result }
    {
        for at in first..self.places.len() {
            if matches!(self.places.get(at), Some(Some(_))) {
                return Some(at);
            }
        }
        None
    }
}
