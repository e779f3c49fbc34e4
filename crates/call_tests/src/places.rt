//! The place of the target or the contact that a row is for, among those that it came with (RFC 3261 section 16.5).
use crate::holds::holds;
use call_caller::row_place;
use fork_book::Book;
use fork_context::{Answer, Event, Kind, Offer, Target};
use fork_rank::{Rules, Status};
use std::alloc::Global;
use std::process::Abort;

/// The keys of the targets, and their q: the second is tried first.
const TARGETS: [(&[u8], u16); 3] = [(b"a", 500), (b"b", 1000), (b"c", 500)];

/// The contacts of the second target: their texts, their q and their keys, empty for one that cannot be tried. The second is a
/// target already, and the last is there twice.
const CONTACTS: [(&[u8], u16, &[u8]); 5] = [
    (b"<tel:+1>", 1000, b""),
    (b"<sip:c>", 1000, b"c"),
    (b"<sip:d>;q=0.1", 100, b"d"),
    (b"<sip:e>", 1000, b"e"),
    (b"<sip:e>", 900, b"e"),
];

/// The rows, and the place of each, if there is such a row.
const PLACES: [(u16, Option<usize>); 7] = [
    (0, Some(1)),
    (1, Some(0)),
    (2, Some(2)),
    (3, Some(3)),
    (4, Some(2)),
    (5, None),
    (u16::MAX, None),
];

/// The bytes of a text.
pub(crate) fn bytes_of(alloc: Global, text: &[u8]) -> Option<Vec<u8>> {
    match Vec::from_slice(alloc, text) {
        Ok(bytes) => Some(bytes),
        Err(_) => None,
    }
}

/// Puts a target of this key and this q behind others, and says whether there was memory for it.
fn add_target(alloc: Global, targets: &mut Vec<Target>, key: &[u8], q: u16) -> bool {
    match bytes_of(alloc, key) {
        Some(key) => targets.push(Target::new(key, q.min(1000))).is_ok(),
        None => false,
    }
}

/// The same of all targets.
fn add_targets(alloc: Global, targets: &mut Vec<Target>) -> bool {
    let mut well = true;
    for (key, q) in TARGETS {
        well = well && add_target(alloc, targets, key, q);
    }
    well
}

/// The book of an INVITE to the targets.
fn opened(alloc: Global) -> Option<Book> {
    let mut targets = Vec::new(alloc);
    if !add_targets(alloc, &mut targets) {
        return None;
    }
    match Book::new(alloc, Kind::Invite, Rules::usual(), targets) {
        Ok(book) => Some(book),
        Err(_) => None,
    }
}

/// A contact as an answer has it.
fn offer_of(alloc: Global, text: &[u8], q: u16, key: &[u8]) -> Option<Offer> {
    let text = bytes_of(alloc, text)?;
    if key.is_empty() {
        return Some(Offer::new(text, q.min(1000), None));
    }
    match bytes_of(alloc, key) {
        Some(key) => Some(Offer::new(text, q.min(1000), Some(key))),
        None => None,
    }
}

/// Puts a contact behind those of an answer, and says whether there was memory for it.
fn add_offer(alloc: Global, answer: &mut Answer, text: &[u8], q: u16, key: &[u8]) -> bool {
    match offer_of(alloc, text, q, key) {
        Some(offer) => answer.push_offer(offer).is_ok(),
        None => false,
    }
}

/// The same of all contacts.
fn add_offers(alloc: Global, answer: &mut Answer) -> bool {
    let mut well = true;
    for (text, q, key) in CONTACTS {
        well = well && add_offer(alloc, answer, text, q, key);
    }
    well
}

/// A 302 with the contacts.
fn moved(alloc: Global) -> Option<Answer> {
    let status = Status::of(302)?;
    let mut answer = Answer::new(status, Vec::new(alloc), Vec::new(alloc));
    if add_offers(alloc, &mut answer) {
        Some(answer)
    } else {
        None
    }
}

/// Whether the target that is tried first can answer so.
fn is_redirected(alloc: Global, book: &mut Book) -> bool {
    match moved(alloc) {
        Some(answer) => book.post(0, Event::Answer(0, answer)).is_ok(),
        None => false,
    }
}

/// The same book, after it did.
fn redirected(alloc: Global) -> Option<Book> {
    let mut book = opened(alloc)?;
    if is_redirected(alloc, &mut book) {
        Some(book)
    } else {
        None
    }
}

/// The place of row n, if there is such a row.
fn place_at(book: &Book, n: u16) -> Option<usize> {
    if n < book.context().count() {
        Some(row_place(book, n))
    } else {
        None
    }
}

/// Checks that each row has its place.
fn check(rt: &impl Abort, book: &Book) {
    for (n, place) in PLACES {
        holds(rt, place_at(book, n) == place, "the place of a row");
    }
}

#[test]
fn each_row_has_the_place_of_its_target(rt: HostRuntime) {
    match redirected(rt.alloc()) {
        Some(book) => check(&rt, &book),
        None => holds(&rt, false, "the first target answers with contacts"),
    }
}
