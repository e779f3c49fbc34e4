//! Histories of a call: what comes to it moment by moment, and what it does then.
use crate::requests::{SOURCE, read_message, setup_of};
use call_messages::histories::{Moment, Turn};
use call_messages::{Sent, is_sent};
use fork_call::{Call, Cause, Setup, Step, TakeFault, Taken, is_openable};
use fork_context::{Event, Reply, Up};
use sip_uri::Hop;
use std::alloc::{AllocError, Global};

/// The call that the request opens under this number at 0, by a setup.
fn opened_by(
    alloc: Global,
    setup: &Setup<Global>,
    number: u64,
    request: &[u8],
) -> Option<Call<Global>> {
    let request = read_message(alloc, request)?;
    if !is_openable(&request) {
        return None;
    }
    match Call::open(alloc, setup, number, request, SOURCE, 0) {
        Ok(call) => Some(call),
        Err(_) => None,
    }
}

/// The same by the setup of this text.
pub fn opened(alloc: Global, setup: &[u8], number: u64, request: &[u8]) -> Option<Call<Global>> {
    let setup = setup_of(alloc, setup)?;
    opened_by(alloc, &setup, number, request)
}

// ---- a turn

/// What comes of the message of this text.
pub fn taken(
    alloc: Global,
    call: &mut Call<Global>,
    now: u64,
    from: Hop,
    text: &[u8],
) -> Option<Result<Taken, TakeFault>> {
    match read_message(alloc, text) {
        Some(message) => Some(call.take(message, from, now)),
        None => None,
    }
}

/// Whether a step sends this datagram.
fn sends(step: Result<Step<Global>, AllocError>, wanted: &Sent) -> bool {
    match step {
        Ok(Step::Send(datagram)) => is_sent(&datagram, wanted),
        Ok(Step::Did | Step::Idle) | Err(_) => false,
    }
}

/// Whether a step sends a datagram of this cause.
fn sends_for(step: Result<Step<Global>, AllocError>, cause: Cause) -> bool {
    match step {
        Ok(Step::Send(datagram)) => datagram.cause == cause,
        Ok(Step::Did | Step::Idle) | Err(_) => false,
    }
}

/// Whether a step does something that sends nothing.
fn does(step: Result<Step<Global>, AllocError>) -> bool {
    match step {
        Ok(Step::Did) => true,
        Ok(Step::Idle | Step::Send(_)) | Err(_) => false,
    }
}

/// Whether a step finds nothing that is due.
fn is_idle(step: Result<Step<Global>, AllocError>) -> bool {
    match step {
        Ok(Step::Idle) => true,
        Ok(Step::Did | Step::Send(_)) | Err(_) => false,
    }
}

/// Whether a turn goes as it is told.
fn goes(alloc: Global, call: &mut Call<Global>, now: u64, turn: Turn) -> bool {
    match turn {
        Turn::Takes(from, text, well) => taken(alloc, call, now, from, text) == Some(well),
        Turn::Sends(wanted) => sends(call.pump(now), wanted),
        Turn::SendsFor(cause) => sends_for(call.pump(now), cause),
        Turn::Does => does(call.pump(now)),
        Turn::Waits(due) => {
            is_idle(call.pump(now)) && call.due() == due && call.over() == due.is_none()
        }
        Turn::Fails(cause) => call.failed(cause, now).is_ok(),
        Turn::Comes(_, _, _) | Turn::Carries(_) => false,
    }
}

/// How many turns of a history go as they are told, before one that does not.
pub fn played(alloc: Global, call: &mut Call<Global>, history: &[Moment]) -> usize {
    for (place, (now, turn)) in history.iter().enumerate() {
        if !goes(alloc, call, *now, *turn) {
            return place;
        }
    }
    history.len()
}

/// Whether a history goes as it is told.
pub fn plays(alloc: Global, call: &mut Call<Global>, history: &[Moment]) -> bool {
    played(alloc, call, history) == history.len()
}

/// Whether the call that a request opens as number 3, by a setup, goes so.
pub fn goes_by(alloc: Global, setup: &Setup<Global>, request: &[u8], history: &[Moment]) -> bool {
    match opened_by(alloc, setup, 3, request) {
        Some(mut call) => plays(alloc, &mut call, history),
        None => false,
    }
}

// ---- the book

/// What an event of a history says, without the contacts and challenges of an answer.
#[derive(Clone, Copy, PartialEq, Eq)]
pub enum Posted {
    Ring(u16, u16),
    Answer(u16, u16),
    Timeout(u16),
    Fault(u16),
    TimerC(u16),
    GiveUp(u16),
    Cancel,
}

/// That of an event.
fn posted_of(event: &Event<Global>) -> Posted {
    match event {
        Event::Ring(n, status) => Posted::Ring(*n, status.code()),
        Event::Answer(n, answer) => Posted::Answer(*n, answer.status().code()),
        Event::Timeout(n) => Posted::Timeout(*n),
        Event::Fault(n) => Posted::Fault(*n),
        Event::TimerC(n) => Posted::TimerC(*n),
        Event::GiveUp(n) => Posted::GiveUp(*n),
        Event::Cancel => Posted::Cancel,
    }
}

/// An event of a book, the rows that it starts, those that it cancels, and what goes up.
#[derive(Clone, Copy)]
pub struct Entry {
    pub event: Posted,
    pub started: &'static [u16],
    pub cancelled: &'static [u16],
    pub up: Up,
}

/// Whether a reply is that of an entry at this position.
fn is_reply(reply: &Reply<Global>, at: u32, entry: &Entry) -> bool {
    reply.at() == at
        && reply.started() == entry.started
        && reply.cancelled() == entry.cancelled
        && reply.up() == entry.up
}

/// Whether the book has this entry at this position.
fn has_entry(call: &Call<Global>, at: u32, entry: &Entry) -> bool {
    match (
        call.book().history().get(at as usize),
        call.book().reply(at),
    ) {
        (Some(posted), Some(reply)) => {
            posted_of(posted.event()) == entry.event && is_reply(reply, at, entry)
        }
        _ => false,
    }
}

/// Whether the book has these entries, and no more.
pub fn has_entries(call: &Call<Global>, entries: &[Entry]) -> bool {
    let mut at: u32 = 0;
    for entry in entries {
        if !has_entry(call, at, entry) {
            return false;
        }
        at = at.saturating_add(1);
    }
    call.book().history().len() == entries.len() && call.book().reply(at).is_none()
}

/// Whether the call that a request opens as number 3 goes so, and its book has these entries then.
pub fn goes_so(
    alloc: Global,
    setup: &[u8],
    request: &[u8],
    history: &[Moment],
    entries: &[Entry],
) -> bool {
    match opened(alloc, setup, 3, request) {
        Some(mut call) => plays(alloc, &mut call, history) && has_entries(&call, entries),
        None => false,
    }
}
