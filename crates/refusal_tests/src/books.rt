//! Books that are made and posted to, and events that are copied, while memory is refused.
use crate::answers::{Judge, answered, discard, judged};
use crate::forks::{Aims, EventList, events, targets};
use crate::plays::{calls, plays};
use crate::sources::Alloc;
use crate::texts::BOOK_SCRIPT;
use failing_allocator::{Attempt, Heap, Play, Repeated, Stateless};
use fork_book::Book;
use fork_context::{Choice, Event, Kind, NewFault, PostError, Up};
use fork_rank::Rules;
use std::mem;

/// The targets of the script.
const AIMS: Aims = Aims {
    count: 2,
    is_last_later: false,
};

/// How many events the script has.
const EVENTS: usize = 3;

/// A book of an INVITE, or why there is none.
type Made<'a> = Result<Book<Alloc<'a>>, Attempt>;

/// A book of an INVITE to the targets of the script is made.
fn opened(heap: Heap<'_>) -> Made<'_> {
    let targets = targets(heap.ample, AIMS);
    let made = Book::new(heap.scarce, Kind::Invite, Rules::usual(), targets);
    answered(made, NewFault::NoMemory)
}

struct Opening;

impl<'a> Judge<'a, Book<Alloc<'a>>> for Opening {
    fn is_right(&self, _heap: Heap<'a>, book: &Book<Alloc<'a>>) -> bool {
        book.history().is_empty()
    }
}

impl Stateless for Opening {
    fn answer(&self, heap: Heap<'_>) -> Attempt {
        judged(heap, self, opened(heap), Attempt::NoMemory)
    }
}

/// The event is posted; where that is refused the history is as it was.
fn posts<'a>(book: &mut Book<Alloc<'a>>, event: Event<Alloc<'a>>) -> Attempt {
    let before = book.history().len();
    match book.post(1, event) {
        Ok(_) => Attempt::Right,
        Err(PostError::NoMemory(event)) => {
            discard(event);
            Attempt::failed(book.history().len() == before)
        }
        Err(PostError::Full(event)) => {
            discard(event);
            Attempt::Wrong
        }
    }
}

/// A book, the events that come to it, and that of which a copy is made and posted.
#[derive(Drop)]
struct Booked<'a> {
    heap: Heap<'a>,
    book: Book<Alloc<'a>>,
    events: EventList<'a>,
    event: Event<Alloc<'a>>,
}

impl Repeated for Booked<'_> {
    fn attempt(&mut self) -> Attempt {
        match self.event.copy(&self.heap.scarce) {
            Ok(event) => posts(&mut self.book, event),
            Err(_) => Attempt::NoMemory,
        }
    }
}

/// Whether a copy of the event is made and posted.
fn goes<'a>(booked: &mut Booked<'a>, event: Event<Alloc<'a>>) -> bool {
    let heap = booked.heap;
    discard(mem::replace(&mut booked.event, event));
    heap.insist(booked)
}

/// The same of the next event.
fn goes_next(booked: &mut Booked<'_>) -> bool {
    match booked.events.pop_front() {
        Some(event) => goes(booked, event),
        None => false,
    }
}

/// Whether the events of the script come to this book as they should.
fn all_go(booked: &mut Booked<'_>) -> bool {
    let mut well = true;
    for _ in 0..EVENTS {
        well = well && goes_next(booked);
    }
    well
}

/// Whether the event that the book has behind two others sent the 401 up, and was the last.
fn is_chosen(book: &Book<Alloc<'_>>) -> bool {
    match book.reply(2) {
        Some(reply) => reply.up() == Up::Final(Choice::Stored(0)) && book.history().len() == EVENTS,
        None => false,
    }
}

/// Whether the whole goes as it should.
fn goes_on<'a>(heap: Heap<'a>, book: Book<Alloc<'a>>) -> bool {
    let mut booked = Booked {
        heap,
        book,
        events: events(heap.ample, BOOK_SCRIPT),
        event: Event::Cancel,
    };
    let well = all_go(&mut booked) && is_chosen(&booked.book);
    discard(booked);
    well
}

struct Answers;

impl Play for Answers {
    fn play(&self, heap: Heap<'_>) -> bool {
        // (no growth is refused or counted before there is a book)
        heap.scarce.pause();
        let book = opened(heap);
        heap.scarce.go_on();
        match book {
            Ok(book) => goes_on(heap, book),
            Err(_) => false,
        }
    }
}

#[test]
fn a_book_is_posted_to(rt: HostRuntime) {
    calls(&rt, &Opening, 0, "a book is made");
    plays(&rt, &Answers, 0, "a book");
}
