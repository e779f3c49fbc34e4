//! Tests of walks over all users.
use crate::holds::holds;
use crate::requests::{Asks, Table, registers};
use binding_table::{BindingTable, Walk};
use bindings::UserBindings;
use std::alloc::{AllocError, Global};
use std::sync::Wait;

/// A table of 200 users, of which each second one is bound until 600 s and the others until 60 s.
fn filled<R: Wait>(rt: &R, alloc: Global) -> Result<Table, AllocError> {
    let table = BindingTable::new(alloc, 1_000)?;
    for n in 0..200u8 {
        let time = if n % 2 == 0 { 600 } else { 60 };
        let _ = registers(
            rt,
            alloc,
            &table,
            &[b'u', n],
            Asks(b"desk", 1, 0, b"<sip:u@192.0.2.7>", time),
        );
    }
    Ok(table)
}

/// How many users a walk comes to, and whether it came to no user twice.
fn walked<R: Wait>(rt: &R, table: &Table, moment: u64) -> (u32, bool) {
    let mut walk = Walk::new();
    let mut seen = [false; 256];
    let mut count = 0u32;
    let mut is_once = true;
    for _ in 0..1_000 {
        let found = table.next_user(
            rt,
            &mut walk,
            |held: &UserBindings| held.next_end(moment).is_none(),
        );
        if found != Ok(true) {
            return (count, is_once && found == Ok(false));
        }
        let at = match walk.user() {
            Some([b'u', n]) => *n as usize,
            _ => 255,
        };
        is_once = is_once && !seen[at];
        seen[at] = true;
        count = count.saturating_add(1);
    }
    (count, false)
}

#[test]
fn a_walk_comes_to_each_user_once(rt: HostRuntime) -> Result<(), AllocError> {
    let alloc = rt.alloc();
    let table = filled(&rt, alloc)?;
    holds(
        &rt,
        walked(&rt, &table, 600_000) == (200, true),
        "all have ended",
    );
    holds(
        &rt,
        walked(&rt, &table, 60_000) == (100, true),
        "each second one has ended",
    );
    holds(
        &rt,
        walked(&rt, &table, 59_999) == (0, true),
        "none has ended",
    );
    Ok(())
}

/// Forgets the users of whom no binding is there any more, and answers how many bindings they had.
fn swept<R: Wait>(rt: &R, table: &Table, moment: u64) -> usize {
    let mut walk = Walk::new();
    let mut count = 0usize;
    for _ in 0..1_000 {
        let found = table.next_user(
            rt,
            &mut walk,
            |held: &UserBindings| held.next_end(moment).is_none(),
        );
        let (Ok(true), Some(user)) = (found, walk.user()) else {
            return count;
        };
        if let Ok(bindings) = table.forget(rt, user) {
            count = count.saturating_add(bindings);
        }
    }
    count
}

#[test]
fn what_has_ended_is_swept(rt: HostRuntime) -> Result<(), AllocError> {
    let alloc = rt.alloc();
    let table = filled(&rt, alloc)?;
    holds(
        &rt,
        swept(&rt, &table, 60_000) == 100,
        "a hundred have ended",
    );
    holds(&rt, table.count(&rt) == 100, "a hundred are there");
    holds(&rt, swept(&rt, &table, 60_000) == 0, "none of them has");
    Ok(())
}
