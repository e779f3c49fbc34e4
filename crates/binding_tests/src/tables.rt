//! Tests of `BindingTable`: changes that are prepared, made and given up.
use crate::holds::holds;
use crate::requests::{Asks, Table, begun, count_there, kept, prepared, refused, registers};
use binding_table::{BindingTable, ChangeFault};
use bindings::UserBindings;
use std::alloc::{AllocError, Global};
use std::sync::Wait;
use std::thread;

const DESK: Asks = Asks(b"desk", 1, 1_000, b"<sip:bob@192.0.2.7>", 600);

const HALL: Asks = Asks(b"hall", 1, 2_000, b"<sip:bob@192.0.2.8>", 600);

const ROOF: Asks = Asks(b"roof", 1, 3_000, b"<sip:bob@192.0.2.9>", 600);

/// Whether a change is not seen before it is made, and is from then on until its end.
fn is_seen_once_made<R: Wait>(rt: &R, alloc: Global, table: &Table) -> bool {
    let Ok(Some(change)) = begun(rt, alloc, table, b"bob", DESK) else {
        return false;
    };
    let before = count_there(rt, table, b"bob", 2_000);
    let is_whole = change.user() == b"bob".as_slice() && change.bindings().len() == 1;
    table.commit(rt, change);
    is_whole
        && before == 0
        && count_there(rt, table, b"bob", 2_000) == 1
        && count_there(rt, table, b"bob", 600_999) == 1
        && count_there(rt, table, b"bob", 601_000) == 0
        && count_there(rt, table, b"alice", 2_000) == 0
}

#[test]
fn changes_are_seen_once_made(rt: HostRuntime) -> Result<(), AllocError> {
    let alloc = rt.alloc();
    let table = BindingTable::new(alloc, 100)?;
    holds(
        &rt,
        is_seen_once_made(&rt, alloc, &table),
        "a change is seen once it is made",
    );
    holds(&rt, table.count(&rt) == 1, "one binding in all");
    Ok(())
}

/// Whether a second change of a user is refused while one is under way, and is not once that was given up.
fn is_alone<R: Wait>(rt: &R, alloc: Global, table: &Table) -> bool {
    let Ok(Some(change)) = begun(rt, alloc, table, b"bob", DESK) else {
        return false;
    };
    let second = refused(rt, alloc, table, b"bob", HALL);
    let other = registers(rt, alloc, table, b"alice", HALL);
    let reserved = table.count(rt);
    table.give_up(rt, change);
    second == Some(ChangeFault::Busy)
        && other
        && reserved == 2
        && table.count(rt) == 1
        && count_there(rt, table, b"bob", 2_000) == 0
        && registers(rt, alloc, table, b"bob", HALL)
        && table.count(rt) == 2
}

#[test]
fn one_change_of_a_user_is_under_way(rt: HostRuntime) -> Result<(), AllocError> {
    let alloc = rt.alloc();
    let table = BindingTable::new(alloc, 100)?;
    holds(
        &rt,
        is_alone(&rt, alloc, &table),
        "a second change of a user waits",
    );
    Ok(())
}

/// Whether no more bindings are made than may be, while those that are there may be refreshed.
fn is_full_at_two<R: Wait>(rt: &R, alloc: Global, table: &Table) -> bool {
    registers(rt, alloc, table, b"bob", DESK)
        && registers(rt, alloc, table, b"alice", HALL)
        && refused(rt, alloc, table, b"bob", ROOF) == Some(ChangeFault::Full)
        && refused(rt, alloc, table, b"carol", ROOF) == Some(ChangeFault::Full)
        && registers(
            rt,
            alloc,
            table,
            b"bob",
            Asks(b"desk", 2, 5_000, b"<sip:bob@192.0.2.7>", 700),
        )
        && table.forget(rt, b"alice") == Ok(1)
        && registers(rt, alloc, table, b"bob", ROOF)
        && table.count(rt) == 2
}

#[test]
fn no_more_than_may_be(rt: HostRuntime) -> Result<(), AllocError> {
    let alloc = rt.alloc();
    let table = BindingTable::new(alloc, 2)?;
    holds(
        &rt,
        is_full_at_two(&rt, alloc, &table),
        "two bindings in all",
    );
    Ok(())
}

/// The Call-ID and the end of the second binding of a user.
fn second_of(held: &UserBindings) -> Option<(bool, u64)> {
    let mut there = held.at(0);
    let _ = there.next();
    let second = there.next()?;
    Some((
        second.made_by().call_id == b"kept".as_slice(),
        second.ends(),
    ))
}

#[test]
fn what_was_kept_is_there(rt: HostRuntime) -> Result<(), AllocError> {
    let alloc = rt.alloc();
    let table = BindingTable::new(alloc, 1)?;
    table.insert(
        &rt,
        b"bob",
        kept(alloc, &[(b"<sip:bob@192.0.2.9>", 7_000)])?,
    )?;
    table.insert(
        &rt,
        b"bob",
        kept(
            alloc,
            &[
                (b"<sip:bob@192.0.2.7>", 9_000),
                (b"<sip:bob@192.0.2.8>", 8_000),
            ],
        )?,
    )?;
    let second = table.look(&rt, b"bob", |held: &UserBindings| second_of(held));
    holds(
        &rt,
        second == Some(Some((true, 8_000))),
        "bindings stand in their order",
    );
    holds(
        &rt,
        table
            .look(&rt, b"eve", |held: &UserBindings| second_of(held))
            .is_none(),
        "nobody",
    );
    holds(&rt, table.count(&rt) == 2, "more than may be, at the start");
    Ok(())
}

#[test]
fn a_repeat_makes_nothing(rt: HostRuntime) -> Result<(), AllocError> {
    let alloc = rt.alloc();
    let table = BindingTable::new(alloc, 100)?;
    holds(
        &rt,
        registers(&rt, alloc, &table, b"bob", DESK),
        "a request is taken",
    );
    let again = table.look(
        &rt,
        b"bob",
        |held: &UserBindings| matches!(prepared(alloc, DESK, held), Ok(None)),
    );
    holds(&rt, again == Some(true), "it comes again");
    holds(
        &rt,
        refused(&rt, alloc, &table, b"bob", DESK).is_none(),
        "and changes nothing",
    );
    Ok(())
}

/// Registers two telephones of each of 100 users, again where another change of the user is under way; answers how often it was not.
fn fill<R: Wait>(rt: &R, alloc: Global, table: &Table, asks: Asks) -> u32 {
    let mut missed = 0u32;
    for n in 0..100u8 {
        let name = [b'u', n];
        let mut is_taken = false;
        for _ in 0..1_000_000 {
            is_taken = registers(rt, alloc, table, &name, asks);
            if is_taken {
                break;
            }
        }
        if !is_taken {
            missed = missed.saturating_add(1);
        }
    }
    missed
}

#[test]
fn two_threads_lose_nothing(rt: HostRuntime) -> Result<(), AllocError> {
    let alloc = rt.alloc();
    let table = BindingTable::new(alloc, 1_000)?;
    let (first, second) = thread::join(
        &rt,
        || fill(&rt, alloc, &table, DESK),
        || fill(&rt, alloc, &table, HALL),
    );
    holds(&rt, first == 0 && second == 0, "each request is taken");
    holds(&rt, table.count(&rt) == 200, "two bindings of each user");
    holds(
        &rt,
        count_there(&rt, &table, b"u\x05", 3_000) == 2,
        "of the sixth, too",
    );
    Ok(())
}
