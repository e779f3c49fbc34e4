//! Requests that a table takes, while memory is refused.
use crate::holds::holds;
use crate::requests::{Asks, answer_of, kept};
use binding_table::{BindingTable, ChangeFault};
use bindings::{RegisterRefusal, UserBindings};
use failing_allocator::{Attempt, Heap, Play, Refusing, Repeated, refused_always, refused_once};
use std::alloc::{AllocError, Global};
use std::sync::Wait;

type Scarce<'a> = &'a Refusing<Global>;

type ScarceTable<'a> = BindingTable<UserBindings<Scarce<'a>>, Scarce<'a>>;

/// A request of bob, behind which there are so many bindings in all. Where it is refused there are as many as before, and no
/// change of his is under way, so that it can be made again.
#[derive(Drop)]
struct Registering<'t, 'a, R> {
    rt: &'t R,
    table: &'t ScarceTable<'a>,
    alloc: Scarce<'a>,
    asks: Asks,
    count: u64,
}

impl<R: Wait> Repeated for Registering<'_, '_, R> {
    fn attempt(&mut self) -> Attempt {
        let before = self.table.count(self.rt);
        let (alloc, asks) = (self.alloc, self.asks);
        let made = self.table.change(
            self.rt,
            b"bob",
            |held: &UserBindings<Scarce<'_>>| answer_of(alloc, asks, held),
        );
        let count = self.table.count(self.rt);
        match made {
            Ok(None) => Attempt::of(count == self.count),
            Ok(Some(RegisterRefusal::NoMemory)) | Err(ChangeFault::NoMemory) => {
                Attempt::failed(count == before)
            }
            _ => Attempt::Wrong,
        }
    }
}

/// What was kept of a user is put into the table.
#[derive(Drop)]
struct Inserting<'t, 'a, R> {
    rt: &'t R,
    table: &'t ScarceTable<'a>,
    alloc: Scarce<'a>,
}

impl<R: Wait> Repeated for Inserting<'_, '_, R> {
    fn attempt(&mut self) -> Attempt {
        let before = self.table.count(self.rt);
        let Ok(bindings) = kept(self.alloc, &[(b"<sip:eve@192.0.2.9>", 7_000)]) else {
            return Attempt::NoMemory;
        };
        let put = self.table.insert(self.rt, b"eve", bindings);
        let count = self.table.count(self.rt);
        match put {
            Ok(()) => Attempt::of(count == before.saturating_add(1)),
            Err(AllocError) => Attempt::failed(count == before),
        }
    }
}

/// The bindings of bob are copied.
#[derive(Drop)]
struct Copying<'t, 'a, R> {
    rt: &'t R,
    table: &'t ScarceTable<'a>,
}

impl<R: Wait> Repeated for Copying<'_, '_, R> {
    fn attempt(&mut self) -> Attempt {
        match self.table.there(self.rt, b"bob", 5_000) {
            Ok(copies) => Attempt::of(copies.len() == 2),
            Err(AllocError) => Attempt::failed(true),
        }
    }
}

/// Whether a table takes two requests of one user, what was kept of another, and shows them.
fn are_taken<'a, R: Wait>(heap: Heap<'a>, rt: &R, table: &ScarceTable<'a>) -> bool {
    let mut registering = Registering {
        rt,
        table,
        alloc: heap.scarce,
        asks: Asks(b"desk", 1, 1_000, b"<sip:bob@192.0.2.7>", 600),
        count: 1,
    };
    let first = heap.insist(&mut registering);
    registering.asks = Asks(b"hall", 1, 2_000, b"<sip:bob@192.0.2.8>", 600);
    registering.count = 2;
    let second = heap.insist(&mut registering);
    let mut inserting = Inserting {
        rt,
        table,
        alloc: heap.scarce,
    };
    first && second && heap.insist(&mut inserting) && heap.insist(&mut Copying { rt, table })
}

/// What a table is asked for.
#[derive(Drop)]
struct Requests<'r, R> {
    rt: &'r R,
}

/// Drops a value. A function that drops one of many fields itself is proved field by field.
fn discard<T: Drop>(_value: T) {}

impl<R: Wait> Play for Requests<'_, R> {
    fn play(&self, heap: Heap<'_>) -> bool {
        heap.scarce.pause();
        let table = BindingTable::new(heap.scarce, 10);
        heap.scarce.go_on();
        let well = match &table {
            Ok(table) => are_taken(heap, self.rt, table),
            Err(AllocError) => false,
        };
        discard(table);
        well
    }
}

#[test]
fn a_growth_that_is_refused_changes_nothing(rt: HostRuntime) {
    let play = Requests { rt: &rt };
    holds(
        &rt,
        refused_once(rt.alloc(), &play) == Some(0),
        "one is refused",
    );
    holds(&rt, refused_always(rt.alloc(), &play), "memory ends");
}
