//! What each target of a call did, and when.
ghost use Rattle.std.specs.Prelude.{◌≡◌, ◌++◌, OnOk, IfOk};
ghost use Rattle.std.specs.List.{filter, flat_map};
ghost use Rattle.context_values.specs.EventView.{event_of};
ghost use Rattle.call_journal.specs.Notes.{behind_text, is_of, line_of, note_of, note_text, own_notes, targets_text, words};

use fork_context::Event;
use fork_rank::append;
use sip_lex::append_decimal;
use std::alloc::{AllocError, Allocator};

/// What is noted of a target.
#[derive(Clone, Copy, PartialEq, Eq, Debug)]
pub enum NotedEvent {
    /// A provisional response of this status came.
    Rang(u16),
    /// A final response of this status came.
    Answered(u16),
    /// No final response came in time (RFC 3261 sections 16.8, 17.1.1.2 and 17.1.2.2).
    TimedOut,
    /// Its request could not be sent (RFC 3261 section 16.9).
    TransportError,
    /// It was cancelled, and no final response came within 64 times T1 (RFC 3261 section 9.1).
    GivenUp,
    /// A CANCEL was sent to it (RFC 3261 section 9.1).
    Cancelled,
}

/// What happened to a target of a call, and when.
#[derive(Clone, Copy, PartialEq, Eq, Debug)]
pub struct Note {
    /// The number of the target.
    pub target: u16,
    pub what: NotedEvent,
    /// How many milliseconds the call was open then.
    pub at: u64,
}

impl Note {
    /// The note of an event so many milliseconds behind the opening of its call. There is none of the caller's CANCEL, which names no target.
    pub fn of<A: Allocator>(event: &Event<A>, at: u64) -> Option<Note>
        ensures { result ≡ note_of at (event_of event.now) }
    {
        let (target, what) = match event {
            Event::Ring(n, status) => (*n, NotedEvent::Rang(status.code())),
            Event::Answer(n, answer) => (*n, NotedEvent::Answered(answer.status().code())),
            Event::Timeout(n) | Event::TimerC(n) => (*n, NotedEvent::TimedOut),
            Event::Fault(n) => (*n, NotedEvent::TransportError),
            Event::GiveUp(n) => (*n, NotedEvent::GivenUp),
            Event::Cancel => return None,
        };
        Some(Note { target, what, at })
    }
}

/// Appends what stands before the status of a final response.
fn append_answered<A: Allocator>(out: &mut Vec<u8, A>, status: u16) -> Result<(), AllocError>
    ensures { OnOk result (out.new.items ≡ out.old.items ++ words (NotedEvent.Answered status)) }
{
    if status < 300 {
        append(out, b"answered ")?;
    }
    append_decimal(out, u64::from(status))
}

/// Appends what happened, in words.
fn append_words<A: Allocator>(out: &mut Vec<u8, A>, what: NotedEvent) -> Result<(), AllocError>
    ensures { OnOk result (out.new.items ≡ out.old.items ++ words what) }
{
    match what {
        NotedEvent::Rang(status) => {
            append(out, b"rang ")?;
            append_decimal(out, u64::from(status))
        }
        NotedEvent::Answered(status) => append_answered(out, status),
        NotedEvent::TimedOut => append(out, b"timed out"),
        NotedEvent::TransportError => append(out, b"transport error"),
        NotedEvent::GivenUp => append(out, b"given up"),
        NotedEvent::Cancelled => append(out, b"cancelled"),
    }
}

/// Appends what happened, and when.
fn append_note<A: Allocator>(out: &mut Vec<u8, A>, note: Note) -> Result<(), AllocError>
    ensures { OnOk result (out.new.items ≡ out.old.items ++ note_text note) }
{
    append_words(out, note.what)?;
    append(out, b" at ")?;
    append_decimal(out, note.at)
}

/// Appends what happened behind something else.
fn append_behind<A: Allocator>(out: &mut Vec<u8, A>, note: Note) -> Result<(), AllocError>
    ensures { OnOk result (out.new.items ≡ out.old.items ++ behind_text note) }
{
    append(out, b", ")?;
    append_note(out, note)
}

/// Appends all that happened behind something else.
fn append_more<A: Allocator>(out: &mut Vec<u8, A>, notes: &[Note]) -> Result<(), AllocError>
    ensures { OnOk result (out.new.items ≡ out.old.items ++ flat_map behind_text notes.now) }
{
    for note in notes {
        append_behind(out, *note)?;
    }
    Ok(())
}

/// The notes of a target.
fn own_notes<A: Allocator>(alloc: A, notes: &[Note], n: u16) -> Result<Vec<Note, A>, AllocError>
    ensures { IfOk result (λ own. own.items ≡ own_notes notes.now n) }
{
    let mut own = Vec::new(alloc);
    for note in notes {
        if note.target == n {
            own.push(*note)?;
        }
    }
    Ok(own)
}

/// Appends the line of a target of which these are the notes; nothing where there is none.
fn append_line<A: Allocator>(out: &mut Vec<u8, A>, n: u16, notes: &[Note]) -> Result<(), AllocError>
    ensures { OnOk result (out.new.items ≡ out.old.items ++ line_of n notes.now) }
{
    let [first, more @ ..] = notes else {
        return Ok(());
    };
    append(out, b"target ")?;
    append_decimal(out, u64::from(n))?;
    append(out, b" ")?;
    append_note(out, *first)?;
    append_more(out, more)?;
    append(out, b"\n")
}

/// Appends the line of a target, if there are notes of it.
fn append_target<A: Allocator + Clone>(
    out: &mut Vec<u8, A>,
    n: u16,
    notes: &[Note],
) -> Result<(), AllocError>
    ensures { OnOk result (out.new.items ≡ out.old.items ++ line_of n (own_notes notes.now n)) }
{
    let alloc = out.allocator().clone()?;
    let own = own_notes(alloc, notes, n)?;
    append_line(out, n, &own)
}

/// Appends a line for each of the first targets, so many of them, of which there are notes, by number.
pub(crate) fn append_targets<A: Allocator + Clone>(
    out: &mut Vec<u8, A>,
    count: u16,
    notes: &[Note],
) -> Result<(), AllocError>
    ensures { OnOk result (out.new.items ≡ out.old.items ++ targets_text count notes.now) }
{
    for n in 0..count {
        append_target(out, n, notes)?;
    }
    Ok(())
}
