//! The deadlines of numbered calls, the earliest first.
ghost use Rattle.std.specs.Prelude.{◌≡◌, ◌≢◌, ◌<◌, ◌⊎◌, ℕ, Some, None, IfSome, IfNone, OnOk, OnErr};
ghost use Rattle.std.specs.Bool.{OnTrue, OnFalse};
ghost use Rattle.std.specs.BinaryHeap.{heap_items, IsHeap};
ghost use Rattle.call_table.specs.Deadlines.{deadline_of, entry_order, AreLater, AreListed, AreSame, IsAdded, IsDeadline, IsEarliest, IsEarliestDue, IsSet, IsWithout};

use std::alloc::{AllocError, Allocator};
use std::cmp::Reverse;
use std::collections::{BTreeMap, BinaryHeap};
use std::marker::Model;

/// A deadline, and the number whose it is. In a heap the earliest comes first.
type Deadline = Reverse<(u64, u64)>;

/// For each number its deadline, if it has one. Each deadline stands in the heap with its number; so may others, which
/// numbers had once and have no longer. A number without a deadline takes no memory but for such entries.
#[derive(Drop)]
pub(crate) struct DeadlineHeap<A: Allocator> {
    heap: BinaryHeap<Deadline, A>,
    deadlines: BTreeMap<u64, u64, A>,
}

impl<A: Allocator> Model for DeadlineHeap<A> {
    ghost use Rattle.std.specs.Prelude.{ℕ, List};
    ghost use Rattle.std.specs.BinaryHeap.{heap_items, IsHeap};
    ghost use Rattle.call_table.specs.Deadlines.{entry_order, AreListed};

    ghost Value = { List (ℕ × ℕ) };

    ghost view = { λ h. h.deadlines.entries };

    ghost invariant = { λ h. IsHeap entry_order (heap_items h.heap) × AreListed (heap_items h.heap) h.deadlines.entries };
}

/// Whether this is the deadline of this number.
fn counts<A: Allocator>(deadlines: &BTreeMap<u64, u64, A>, number: u64, deadline: u64) -> bool
    ensures is { OnTrue result (deadline_of deadlines.now.entries number ≡ Some deadline) }
    ensures other { OnFalse result (deadline_of deadlines.now.entries number ≢ Some deadline) }
{
    deadlines.get(&number) == Some(&deadline)
}

/// The earliest deadline of all, with a number whose it is; entries that count no longer and stand before it go.
fn first<A: Allocator>(
    heap: &mut BinaryHeap<Deadline, A>,
    deadlines: &BTreeMap<u64, u64, A>,
) -> Option<(u64, u64)>
    requires heap { IsHeap entry_order (heap_items heap.old) }
    requires listed { AreListed (heap_items heap.old) deadlines.now.entries }
    ensures heap { IsHeap entry_order (heap_items heap.new) }
    ensures listed { AreListed (heap_items heap.new) deadlines.now.entries }
    ensures some { IfSome result (λ first. (deadline_of deadlines.now.entries first.1 ≡ Some first.0) × IsEarliest deadlines.now.entries first.0) }
    ensures none { IfNone result ((n : ℕ) → deadline_of deadlines.now.entries n ≡ None) }
{
    while let Some(Reverse((deadline, number))) = heap.peek().copied() {
        if counts(deadlines, number, deadline) {
            return Some((deadline, number));
        }
        let Some(_late) = heap.pop() else {
            return None;
        };
    }
    None
}

/// Takes a number whose deadline has come, the earliest of all; entries that count no longer go with it.
fn take_first_due<A: Allocator>(
    heap: &mut BinaryHeap<Deadline, A>,
    deadlines: &mut BTreeMap<u64, u64, A>,
    now: u64,
) -> Option<u64>
    requires heap { IsHeap entry_order (heap_items heap.old) }
    requires listed { AreListed (heap_items heap.old) deadlines.old.entries }
    ensures heap { IsHeap entry_order (heap_items heap.new) }
    ensures listed { AreListed (heap_items heap.new) deadlines.new.entries }
    ensures some { IfSome result (λ number. IsEarliestDue deadlines.old.entries now number × IsWithout deadlines.old.entries number deadlines.new.entries) }
    ensures none { IfNone result (AreLater now deadlines.old.entries × (deadlines.new.entries ≡ deadlines.old.entries)) }
{
    let (deadline, number) = first(heap, deadlines)?;
    if deadline > now {
        return None;
    }
    deadlines.remove(&number);
    Some(number)
}

/// Gives a number this deadline, whatever it had.
fn set<A: Allocator + Clone>(
    deadlines: &mut BTreeMap<u64, u64, A>,
    number: u64,
    deadline: u64,
) -> Result<(), AllocError>
    ensures ok { OnOk result (IsSet deadlines.old.entries number deadline deadlines.new.entries) }
    ensures err { OnErr result (AreSame deadlines.old.entries deadlines.new.entries) }
    ensures either { IsSet deadlines.old.entries number deadline deadlines.new.entries ⊎ AreSame deadlines.old.entries deadlines.new.entries }
{
    match deadlines.insert(number, deadline) {
        Ok(_) => Ok(()),
        Err(_) => Err(AllocError),
    }
}

/// Lists a deadline, and gives it to its number.
fn list<A: Allocator + Clone>(
    heap: &mut BinaryHeap<Deadline, A>,
    deadlines: &mut BTreeMap<u64, u64, A>,
    number: u64,
    deadline: u64,
) -> Result<(), AllocError>
    requires heap { IsHeap entry_order (heap_items heap.old) }
    requires listed { AreListed (heap_items heap.old) deadlines.old.entries }
    ensures heap { IsHeap entry_order (heap_items heap.new) }
    ensures listed { AreListed (heap_items heap.new) deadlines.new.entries }
    ensures ok { OnOk result (IsSet deadlines.old.entries number deadline deadlines.new.entries) }
    ensures err { OnErr result (AreSame deadlines.old.entries deadlines.new.entries) }
{
    match heap.push(Reverse((deadline, number))) {
        Ok(()) => set(deadlines, number, deadline),
        Err(_) => Err(AllocError),
    }
}

impl<A: Allocator + Clone> DeadlineHeap<A> {
    /// No number has a deadline.
    pub(crate) fn new(heap: A, deadlines: A) -> DeadlineHeap<A>
        ensures { (n : ℕ) → deadline_of result n ≡ None }
    {
        DeadlineHeap {
            heap: BinaryHeap::new(heap),
            deadlines: BTreeMap::new(deadlines),
        }
    }

    /// Gives a number a deadline; where it has one, the earlier of the two stays.
    ///
    /// # Errors
    ///
    /// Only where the allocator refuses; then each number has the deadline that it had.
    pub(crate) fn add(&mut self, number: u64, deadline: u64) -> Result<(), AllocError>
        ensures ok { OnOk result (IsAdded self.old number deadline self.new) }
        ensures err { OnErr result (AreSame self.old self.new) }
    {
        if let Some(earlier) = self.deadlines.get(&number) {
            if *earlier <= deadline {
                return Ok(());
            }
        }
        list(&mut self.heap, &mut self.deadlines, number, deadline)
    }

    /// Gives a number this deadline, in the place of the one that it has.
    ///
    /// # Errors
    ///
    /// Only where the allocator refuses; then each number has the deadline that it had.
    pub(crate) fn set(&mut self, number: u64, deadline: u64) -> Result<(), AllocError>
        ensures ok { OnOk result (IsSet self.old number deadline self.new) }
        ensures err { OnErr result (AreSame self.old self.new) }
    {
        if counts(&self.deadlines, number, deadline) {
            return Ok(());
        }
        list(&mut self.heap, &mut self.deadlines, number, deadline)
    }

    /// Takes a number whose deadline has come, the earliest of all; it has none then. None where no deadline has come.
    pub(crate) fn take_due(&mut self, now: u64) -> Option<u64>
        ensures some { IfSome result (λ number. IsEarliestDue self.old now number × IsWithout self.old number self.new) }
        ensures none { IfNone result (AreLater now self.old × (self.new ≡ self.old)) }
    {
        take_first_due(&mut self.heap, &mut self.deadlines, now)
    }

    /// The earliest deadline of all; none where no number has a deadline. No deadline changes.
    pub(crate) fn earliest(&mut self) -> Option<u64>
        ensures some { IfSome result (λ deadline. IsDeadline self.old deadline × IsEarliest self.old deadline) }
        ensures none { IfNone result ((n : ℕ) → deadline_of self.old n ≡ None) }
        ensures same { self.new ≡ self.old }
    {
        match first(&mut self.heap, &self.deadlines) {
            Some((deadline, _)) => Some(deadline),
            None => None,
        }
    }
}
