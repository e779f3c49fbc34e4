//! Whether a history is an interleaving of scripts, and whether two events or two lists of targets are the same.
use crate::holds::holds;
use fork_book::Book;
use fork_context::{Event, Kind, Target};
use fork_engine::{
    are_same_targets, have_more_events, is_interleaving, is_same_event, order_does_not_matter,
};
use fork_rank::Rules;
use std::alloc::Global;
use std::process::Abort;

/// Puts a target of this key behind others, and says whether there was memory for it.
fn add_target(alloc: Global, targets: &mut Vec<Target>, key: &[u8]) -> bool {
    match Vec::from_slice(alloc, key) {
        Ok(key) => targets.push(Target::new(key, 1000)).is_ok(),
        Err(_) => false,
    }
}

/// Two targets, the second of this key.
fn targets(alloc: Global, second: &[u8]) -> Option<Vec<Target>> {
    let mut targets = Vec::new(alloc);
    if add_target(alloc, &mut targets, b"a") && add_target(alloc, &mut targets, second) {
        Some(targets)
    } else {
        None
    }
}

/// Puts a script of one event behind others, and says whether there was memory for it.
fn add_script(alloc: Global, scripts: &mut Vec<Vec<Event>>, event: Event) -> bool {
    let mut script = Vec::new(alloc);
    if script.push(event).is_err() {
        return false;
    }
    scripts.push(script).is_ok()
}

/// The first branch times out by one script, and this comes by another.
fn scripts(alloc: Global, second: Event) -> Option<Vec<Vec<Event>>> {
    let mut scripts = Vec::new(alloc);
    let first = add_script(alloc, &mut scripts, Event::Timeout(0));
    let second = add_script(alloc, &mut scripts, second);
    if first && second { Some(scripts) } else { None }
}

/// The book of an INVITE to both targets.
fn opened(alloc: Global) -> Option<Book> {
    let targets = targets(alloc, b"b")?;
    match Book::new(alloc, Kind::Invite, Rules::usual(), targets) {
        Ok(book) => Some(book),
        Err(_) => None,
    }
}

/// Whether the second branch times out by the second script, and then the first by the first.
fn is_posted(book: &mut Book) -> bool {
    book.post(1, Event::Timeout(1)).is_ok() && book.post(0, Event::Timeout(0)).is_ok()
}

/// Whether the history of a book is an interleaving of these scripts, of which there are few.
fn are_woven(book: &Book, scripts: &[Vec<Event>]) -> bool {
    scripts.len() <= 2 && is_interleaving(book.history(), scripts)
}

/// Checks of which scripts the history of a book is an interleaving.
fn check(rt: &impl Abort, book: &Book, own: &[Vec<Event>], others: &[Vec<Event>]) {
    holds(rt, are_woven(book, own), "the scripts of its events");
    holds(rt, !are_woven(book, others), "scripts of another event");
    holds(rt, have_more_events(own, 1), "more than one event");
    holds(rt, !have_more_events(own, 2), "no more than two");
}

#[test]
fn a_history_is_an_interleaving_of_its_scripts(rt: HostRuntime) {
    order_does_not_matter();
    let alloc = rt.alloc();
    let Some(mut book) = opened(alloc) else {
        return holds(&rt, false, "a book");
    };
    holds(&rt, is_posted(&mut book), "two events");
    let made = (
        scripts(alloc, Event::Timeout(1)),
        scripts(alloc, Event::Fault(1)),
    );
    match &made {
        (Some(own), Some(others)) => check(&rt, &book, own, others),
        _ => holds(&rt, false, "scripts"),
    }
}

#[test]
fn events_are_told_apart(rt: HostRuntime) {
    let timeout: Event = Event::Timeout(1);
    let same = is_same_event(&timeout, &Event::Timeout(1));
    holds(&rt, same, "one event twice");
    let same = is_same_event(&timeout, &Event::Timeout(0));
    holds(&rt, !same, "that of another branch");
    let same = is_same_event(&timeout, &Event::Fault(1));
    holds(&rt, !same, "another one of the branch");
}

#[test]
fn targets_are_told_apart(rt: HostRuntime) {
    let alloc = rt.alloc();
    let made = (
        targets(alloc, b"b"),
        targets(alloc, b"b"),
        targets(alloc, b"c"),
    );
    match &made {
        (Some(ones), Some(same), Some(others)) => {
            holds(&rt, are_same_targets(ones, same), "the same targets");
            holds(&rt, !are_same_targets(ones, others), "another key");
        }
        _ => holds(&rt, false, "targets"),
    }
}
