//! A book holds the events that were posted to it, in order, and the replies to them.
use crate::bytes::copy_of;
use crate::holds::holds;
use fork_book::{Book, Posted};
use fork_context::{Answer, Choice, Event, Kind, Reply, Target, Up};
use fork_rank::{Rules, Status};
use std::alloc::Global;
use std::process::Abort;

/// Four answers: who posts, the row, the status, and what goes up.
const ANSWERS: [(u8, u16, u16, Up); 4] = [
    (3, 0, 503, Up::Nothing),
    (5, 1, 407, Up::Nothing),
    (3, 2, 501, Up::Nothing),
    (7, 3, 404, Up::Final(Choice::Stored(1))),
];

/// Adds a target of this key; whether there was memory for it.
fn pushes_target(alloc: Global, targets: &mut Vec<Target>, key: &[u8]) -> bool {
    match copy_of(alloc, key) {
        Some(key) => targets.push(Target::new(key, 1000)).is_ok(),
        None => false,
    }
}

/// Adds four targets; whether there was memory for them.
fn pushes_four(alloc: Global, targets: &mut Vec<Target>) -> bool {
    for key in [b"a", b"b", b"c", b"d"] {
        if !pushes_target(alloc, targets, key) {
            return false;
        }
    }
    true
}

/// The book of an INVITE to these targets.
fn book_of(alloc: Global, targets: Vec<Target>) -> Option<Book> {
    match Book::new(alloc, Kind::Invite, Rules::usual(), targets) {
        Ok(book) => Some(book),
        Err(_) => None,
    }
}

/// The book of an INVITE to four targets that are tried at once.
fn book(alloc: Global) -> Option<Book> {
    let mut targets = Vec::new(alloc);
    if pushes_four(alloc, &mut targets) {
        book_of(alloc, targets)
    } else {
        None
    }
}

/// A final answer without contacts.
fn answer(alloc: Global, n: u16, code: u16) -> Option<Event> {
    match Status::of(code) {
        Some(status) => Some(Event::Answer(
            n,
            Answer::new(status, Vec::new(alloc), Vec::new(alloc)),
        )),
        None => None,
    }
}

/// Posts the event; whether it got this position.
fn is_posted_at(book: &mut Book, tag: u8, event: Event, at: usize) -> bool {
    match book.post(tag, event) {
        Ok(position) => position as usize == at,
        Err(_) => false,
    }
}

/// Posts the event, if one is there; whether it got this position.
fn posts_at(book: &mut Book, tag: u8, event: Option<Event>, at: usize) -> bool {
    match event {
        Some(event) => is_posted_at(book, tag, event, at),
        None => false,
    }
}

/// Posts the answers; whether each got the position behind those before it.
fn posts_in_order(alloc: Global, book: &mut Book) -> bool {
    let mut in_order = true;
    for (at, &(tag, n, code, _)) in ANSWERS.iter().enumerate() {
        in_order = posts_at(book, tag, answer(alloc, n, code), at) && in_order;
    }
    in_order
}

/// Whether this is the answer with this status from row n, posted under this tag.
fn is_answer(posted: &Posted, tag: u8, n: u16, code: u16) -> bool {
    match posted.event() {
        Event::Answer(row, answer) => {
            posted.tag() == tag && *row == n && answer.status().code() == code
        }
        _ => false,
    }
}

/// Whether such an answer stands at this position.
fn holds_answer(book: &Book, at: usize, tag: u8, n: u16, code: u16) -> bool {
    match book.history().get(at) {
        Some(posted) => is_answer(posted, tag, n, code),
        None => false,
    }
}

/// Whether a reply is there, and says this.
fn says(reply: Option<&Reply>, at: u32, up: Up) -> bool {
    match reply {
        Some(reply) => reply.at() == at && reply.up() == up,
        None => false,
    }
}

/// Checks what a book says once the answers are posted.
fn is_read_back(rt: &(impl Abort + AllocGlobal), book: &mut Book) {
    let in_order = posts_in_order(rt.alloc(), book);
    holds(rt, in_order, "each event gets the next position");
    holds(rt, book.history().len() == 4, "four events were posted");
    for (at, &(tag, n, code, up)) in ANSWERS.iter().enumerate() {
        holds(
            rt,
            holds_answer(book, at, tag, n, code),
            "the event at its position",
        );
        holds(
            rt,
            says(book.reply(at as u32), at as u32, up),
            "the reply at its position",
        );
    }
    holds(
        rt,
        book.reply(4).is_none(),
        "no reply stands behind the last",
    );
    holds(
        rt,
        book.context().choice() == Some(Choice::Stored(1)),
        "the context's choice",
    );
}

#[test]
fn a_book_is_read_back(rt: HostRuntime) {
    match book(rt.alloc()) {
        Some(mut book) => is_read_back(&rt, &mut book),
        None => holds(&rt, false, "the book is made"),
    }
}
