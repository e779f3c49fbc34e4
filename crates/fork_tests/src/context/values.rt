//! The calls of `context_values` that a context alone makes.
use crate::bytes::is;
use crate::context::happening::{demand, key_of, redirection, targets, text_of};
use crate::holds::holds;
use context_values::{
    Answer, ExtrasTable, Numbers, Offer, Reply, RowExtras, Target, Up, copied_challenges,
    copied_offers, copied_targets, numbered,
};
use fork_rank::Challenge;
use std::alloc::Global;
use std::process::Abort;

/// Whether it is the target of this number, tried at this q.
fn is_target(target: &Target, number: u16, q: u16) -> bool {
    is(target.key(), &key_of(number)) && target.q() == q
}

/// Whether these are the targets of the numbers 7 and 2.
fn are_the_targets(targets: &[Target]) -> bool {
    match targets {
        [first, second] => is_target(first, 7, 300) && is_target(second, 2, 1000),
        _ => false,
    }
}

/// Whether the copies of targets are those of the numbers 7 and 2.
fn copies_targets(alloc: Global, targets: &[Target]) -> bool {
    match copied_targets(&alloc, targets) {
        Ok(copies) => are_the_targets(&copies),
        Err(_) => false,
    }
}

/// Whether two targets are copied.
fn targets_are_copied(alloc: Global) -> bool {
    match targets(alloc, &[(7, 300), (2, 1000)]) {
        Some(targets) => copies_targets(alloc, &targets),
        None => false,
    }
}

/// Whether these are the contacts of the numbers 7 and 2.
fn are_the_contacts(offers: &[Offer]) -> bool {
    match offers {
        [first, second] => is(first.text(), &text_of(7)) && is(second.text(), &text_of(2)),
        _ => false,
    }
}

/// Whether the copies of an answer's contacts are those of the numbers 7 and 2.
fn copies_contacts(alloc: Global, answer: &Answer) -> bool {
    match copied_offers(&alloc, answer.offers()) {
        Ok(copies) => are_the_contacts(&copies),
        Err(_) => false,
    }
}

/// Whether the contacts of a redirection are copied.
fn contacts_are_copied(alloc: Global) -> bool {
    match redirection(alloc, &[(7, true), (2, false)]) {
        Some(answer) => copies_contacts(alloc, &answer),
        None => false,
    }
}

/// Whether these are the challenges of the digits 3 and 4.
fn are_the_challenges(challenges: &[Challenge]) -> bool {
    match challenges {
        [first, second] => is(first.value(), b"3") && is(second.value(), b"4"),
        _ => false,
    }
}

/// Whether the copies of an answer's challenges are those of the digits 3 and 4.
fn copies_challenges(alloc: Global, answer: &Answer) -> bool {
    match copied_challenges(&alloc, answer.challenges()) {
        Ok(copies) => are_the_challenges(&copies),
        Err(_) => false,
    }
}

/// Whether the challenges of a 401 are copied.
fn challenges_are_copied(alloc: Global) -> bool {
    match demand(alloc, 401, b'3', 2) {
        Some(answer) => copies_challenges(alloc, &answer),
        None => false,
    }
}

#[test]
fn lists_are_copied_in_their_order(rt: HostRuntime) {
    holds(
        &rt,
        targets_are_copied(rt.alloc()),
        "two targets are copied",
    );
    holds(
        &rt,
        contacts_are_copied(rt.alloc()),
        "two contacts are copied",
    );
    holds(
        &rt,
        challenges_are_copied(rt.alloc()),
        "two challenges are copied",
    );
}

/// Whether three targets of which the second has the greatest q are numbered group by group.
fn is_numbered(alloc: Global) -> bool {
    match numbered(&alloc, &[500, 1000, 500]) {
        Ok(pairs) => pairs.as_slice() == [(0, 1), (1, 0), (1, 2)].as_slice(),
        Err(_) => false,
    }
}

#[test]
fn places_stand_behind_the_numbers_of_their_groups(rt: HostRuntime) {
    holds(&rt, is_numbered(rt.alloc()), "three places in two groups");
}

/// The extras of the row of the target of this number, which came in at this place.
fn extras(alloc: Global, number: u16, place: usize) -> Option<RowExtras> {
    match RowExtras::new(&alloc, &key_of(number), place) {
        Ok(extras) => Some(extras),
        Err(_) => None,
    }
}

/// Adds the extras of one row; whether there was room for them.
fn pushes(table: &mut ExtrasTable, extras: Option<RowExtras>) -> bool {
    match extras {
        Some(extras) if table.count() < 256 => table.push(extras).is_ok(),
        _ => false,
    }
}

/// Adds these extras behind; whether there was room for them.
fn appends_list(table: &mut ExtrasTable, fresh: Vec<RowExtras>) -> bool {
    if table.count() < 256 && fresh.len() == 1 {
        table.append(fresh).is_ok()
    } else {
        false
    }
}

/// Adds the extras of one row as a list; whether there was room for them.
fn appends(alloc: Global, table: &mut ExtrasTable, extras: Option<RowExtras>) -> bool {
    let mut fresh = Vec::new(alloc);
    match extras {
        Some(extras) => fresh.push(extras).is_ok() && appends_list(table, fresh),
        None => false,
    }
}

/// Keeps these contacts with the answer to row 1; whether there is such a row.
fn keeps(alloc: Global, table: &mut ExtrasTable, left: Vec<Offer>) -> bool {
    if table.count() > 1 {
        table.store(1, left, Vec::new(alloc));
        true
    } else {
        false
    }
}

/// Keeps the contacts of this answer with row 1; whether there was memory for them.
fn keeps_contacts(alloc: Global, table: &mut ExtrasTable, answer: &Answer) -> bool {
    match copied_offers(&alloc, answer.offers()) {
        Ok(left) => keeps(alloc, table, left),
        Err(_) => false,
    }
}

/// Keeps the contacts of the numbers 7 and 2 with row 1; whether there was memory for them.
fn keeps_two(alloc: Global, table: &mut ExtrasTable) -> bool {
    match redirection(alloc, &[(7, true), (2, false)]) {
        Some(answer) => keeps_contacts(alloc, table, &answer),
        None => false,
    }
}

/// Adds the rows of the targets of the numbers 9 and 5, and keeps two contacts with the second; whether there was
/// memory for it.
fn fills(alloc: Global, table: &mut ExtrasTable) -> bool {
    pushes(table, extras(alloc, 9, 3))
        && appends(alloc, table, extras(alloc, 5, 4))
        && keeps_two(alloc, table)
}

/// The table of those rows.
fn filled(alloc: Global, mut table: ExtrasTable) -> Option<ExtrasTable> {
    if fills(alloc, &mut table) {
        Some(table)
    } else {
        None
    }
}

/// The same, from a table without a row.
fn table(alloc: Global) -> Option<ExtrasTable> {
    match ExtrasTable::of(&alloc, Vec::new(alloc)) {
        Ok(table) => filled(alloc, table),
        Err(_) => None,
    }
}

/// Whether these are the extras of the target of this number and place.
fn are_of(extras: &RowExtras, number: u16, place: usize) -> bool {
    is(extras.key(), &key_of(number)) && extras.place() == place
}

/// Whether row n is that of the target of this number and place.
fn is_row(table: &ExtrasTable, n: u16, number: u16, place: usize) -> bool {
    match table.get(n) {
        Some(extras) => are_of(extras, number, place),
        None => false,
    }
}

/// Whether row n has the contacts of the numbers 7 and 2, and no challenge.
fn has_the_contacts(table: &ExtrasTable, n: u16) -> bool {
    match table.get(n) {
        Some(extras) => are_the_contacts(extras.left()) && extras.challenges().is_empty(),
        None => false,
    }
}

/// Checks the rows of that table.
fn has_its_rows(rt: &impl Abort, table: &ExtrasTable) {
    holds(rt, table.count() == 2, "the table has two rows");
    holds(rt, is_row(table, 0, 9, 3), "the first row's extras");
    holds(rt, is_row(table, 1, 5, 4), "the second row's extras");
    holds(rt, table.get(2).is_none(), "there is no third row");
    holds(rt, table.has_key(&key_of(5)), "a key is found");
    holds(rt, !table.has_key(&key_of(7)), "another key is not");
    holds(rt, has_the_contacts(table, 1), "the contacts are kept");
    holds(
        rt,
        !has_the_contacts(table, 0),
        "they are kept with one row alone",
    );
}

#[test]
fn extras_are_found_by_number_and_by_key(rt: HostRuntime) {
    match table(rt.alloc()) {
        Some(table) => has_its_rows(&rt, &table),
        None => holds(&rt, false, "the table is made"),
    }
}

/// A reply that names one row of each kind, in the room that was made for two.
fn reply(alloc: Global) -> Option<Reply> {
    match Numbers::with_room(&alloc, 2) {
        Ok(mut numbers) => {
            numbers.rows.push_reserved(7);
            numbers.cancelled = 1;
            numbers.rows.push_reserved(4);
            Some(Reply::new(9, numbers, Up::Success(3)))
        }
        Err(_) => None,
    }
}

/// Checks the parts of that reply.
fn tells_its_parts(rt: &impl Abort, reply: &Reply) {
    holds(rt, reply.at() == 9, "the position of the event");
    holds(
        rt,
        reply.started() == [4].as_slice(),
        "the row that is tried",
    );
    holds(
        rt,
        reply.cancelled() == [7].as_slice(),
        "the row that is cancelled",
    );
    holds(rt, reply.up() == Up::Success(3), "what goes up");
}

#[test]
fn a_reply_is_made_of_its_parts(rt: HostRuntime) {
    match reply(rt.alloc()) {
        Some(reply) => tells_its_parts(&rt, &reply),
        None => holds(&rt, false, "there is memory for the reply"),
    }
}
