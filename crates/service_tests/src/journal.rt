//! What is written down of a call.
use crate::holds::holds;
use call_journal::{
    BranchTimes, CallRecord, CallShown, Note, NotedEvent, append_branch_line, append_call,
    append_call_line, failed_calls_are_listed_right, heads_are_lines, reasons_are_right, since,
};
use fork_context::{Answer, Context, Event, Kind, Target};
use fork_rank::{RingStatus, Rules, Status};
use std::alloc::Global;

const HEAD: CallRecord<'static> = CallRecord {
    time: 1_764_279_600,
    number: 17,
    method: b"INVITE",
    uri: b"sip:bob@example.com",
    caller: b"\"Al Ice\" <sip:alice@example.com>;tag=a",
    call_id: b"c\r\nfork 3 1",
};

const LINE: &str =
    "call 1764279600 17 INVITE sip:bob@example.com from \"Al.Ice\".<sip:alice@example.com>;tag=a call-id c..fork.3.1";

/// What is posted where a number stands in place of a status.
const TIMEOUT: u16 = 0;

const FAULT: u16 = 1;

const GIVE_UP: u16 = 2;

const CANCEL: u16 = 3;

/// A context of so many targets, which are `a`, `b` and so on.
fn context_of(alloc: Global, count: u8) -> Option<Context> {
    let mut targets = Vec::new(alloc);
    for n in 0..count {
        let key = Vec::from_slice(alloc, &[b'a'.wrapping_add(n)]).ok()?;
        if targets.push(Target::new(key, 1000)).is_err() {
            return None;
        }
    }
    Context::new(alloc, Kind::Invite, Rules::usual(), targets).ok()
}

/// What happens to a branch: a response of this status, or what stands for it.
fn event_of(alloc: Global, n: u16, code: u16) -> Option<Event> {
    match code {
        TIMEOUT => Some(Event::Timeout(n)),
        FAULT => Some(Event::Fault(n)),
        GIVE_UP => Some(Event::GiveUp(n)),
        CANCEL => Some(Event::Cancel),
        100..=199 => Some(Event::Ring(n, RingStatus::of(code)?)),
        _ => Some(Event::Answer(
            n,
            Answer::new(Status::of(code)?, Vec::new(alloc), Vec::new(alloc)),
        )),
    }
}

/// Whether this was posted.
fn is_posted(alloc: Global, context: &mut Context, n: u16, code: u16) -> bool {
    match event_of(alloc, n, code) {
        Some(event) => context.post(event).is_ok(),
        None => false,
    }
}

/// A context of so many targets to whose branches this happened.
fn context_after(alloc: Global, count: u8, events: &[(u16, u16)]) -> Option<Context> {
    let mut context = context_of(alloc, count)?;
    for (n, code) in events {
        if !is_posted(alloc, &mut context, *n, *code) {
            return None;
        }
    }
    Some(context)
}

/// The block of a call to so many targets to whose branches this happened.
fn block_of(alloc: Global, count: u8, events: &[(u16, u16)]) -> Option<Vec<u8>> {
    let context = context_after(alloc, count, events)?;
    let mut block = Vec::new(alloc);
    match append_call(&mut block, &HEAD, &context, &[]) {
        Ok(()) => Some(block),
        Err(_) => None,
    }
}

/// Whether what is written down of a call begins so, behind the line that says which it was.
fn is_written(alloc: Global, count: u8, events: &[(u16, u16)], end: &str) -> bool {
    let Some(block) = block_of(alloc, count, events) else {
        return false;
    };
    match block.strip_prefix(LINE.as_bytes()) {
        Some(rest) => rest.starts_with(end.as_bytes()),
        None => false,
    }
}

/// Whether this alone is written down, behind the line.
fn is_all(alloc: Global, events: &[(u16, u16)], end: &str) -> bool {
    match block_of(alloc, 1, events) {
        Some(block) => block.strip_prefix(LINE.as_bytes()) == Some(end.as_bytes()),
        None => false,
    }
}

#[test]
fn a_call_is_written_down_at_its_end(rt: HostRuntime) {
    heads_are_lines();
    failed_calls_are_listed_right();
    let alloc = rt.alloc();
    holds(&rt, is_all(alloc, &[], " open\n"), "an open call");
    holds(
        &rt,
        is_all(alloc, &[(0, 200)], " answered\n"),
        "an answered call",
    );
    holds(
        &rt,
        is_all(
            alloc,
            &[(0, 486)],
            " failed 486 from sip:a, the only answer\nfork 3 1\nprefer 401,407,415,420,484\ndepth 256\ntarget 0 - 1000 stored 486 0 received\nrank 486 0 0\nfinal 486 0\n",
        ),
        "a call that failed",
    );
}

#[test]
fn the_line_says_why_an_answer_went_up(rt: HostRuntime) {
    reasons_are_right();
    let cases: [(u8, &[(u16, u16)], &str); 13] = [
        (
            4,
            &[(0, 503), (1, 407), (2, 501), (3, 404)],
            " failed 407 from sip:b, preferred among 4xx, 3 others stored\nfork 3 4\n",
        ),
        (
            2,
            &[(0, 486), (1, 603)],
            " failed 603 from sip:b, 6xx before all others, 1 other stored\n",
        ),
        (
            2,
            &[(0, 603), (1, 600)],
            " failed 603 from sip:a, earliest among 6xx, 1 other stored\n",
        ),
        (
            2,
            &[(0, 500), (1, 404)],
            " failed 404 from sip:b, lowest class, 1 other stored\n",
        ),
        (
            2,
            &[(0, 302), (1, 300)],
            " failed 302 from sip:a, earliest among 3xx, 1 other stored\n",
        ),
        (
            2,
            &[(0, 486), (1, 404)],
            " failed 486 from sip:a, earliest among 4xx, 1 other stored\n",
        ),
        (
            2,
            &[(0, 407), (1, 401)],
            " failed 407 from sip:a, earliest among preferred 4xx, 1 other stored\n",
        ),
        (
            2,
            &[(0, 503), (1, 501)],
            " failed 501 from sip:b, before 503 among 5xx, 1 other stored\n",
        ),
        (
            3,
            &[(0, 501), (1, 500), (2, 503)],
            " failed 501 from sip:a, earliest among 5xx other than 503, 2 others stored\n",
        ),
        (
            2,
            &[(0, FAULT), (1, 503)],
            " failed 500 in place of 503 assumed for sip:a, earliest among 503, 1 other stored\n",
        ),
        (
            1,
            &[(0, 503)],
            " failed 500 in place of 503 from sip:a, the only answer\n",
        ),
        (
            1,
            &[(0, TIMEOUT)],
            " failed 408 assumed for sip:a, the only answer\n",
        ),
        (
            1,
            &[(0, 180), (0, CANCEL), (0, GIVE_UP)],
            " failed 408, no answer stored\nfork 3 1\n",
        ),
    ];
    for (count, events, end) in cases {
        holds(&rt, is_written(rt.alloc(), count, events, end), end);
    }
}

/// What is noted of these targets, of which this happened, each a tenth of a second behind the one before.
fn notes_of(alloc: Global, events: &[(u16, u16)]) -> Option<Vec<Note>> {
    let mut notes = Vec::new(alloc);
    let mut at: u64 = 0;
    for (n, code) in events {
        at = at.saturating_add(100);
        let event = event_of(alloc, *n, *code)?;
        if let Some(note) = Note::of(&event, at)
            && notes.push(note).is_err()
        {
            return None;
        }
    }
    Some(notes)
}

/// Whether this is written down of a call that is open, to three targets of which this is noted.
fn are_lines(alloc: Global, notes: &[Note], lines: &str) -> bool {
    let mut block = Vec::new(alloc);
    let Some(context) = context_of(alloc, 3) else {
        return false;
    };
    if append_call(&mut block, &HEAD, &context, notes).is_err() {
        return false;
    }
    match block.strip_prefix(LINE.as_bytes()) {
        Some(rest) => rest.strip_prefix(b" open\n") == Some(lines.as_bytes()),
        None => false,
    }
}

/// Whether this is written down where this happened to targets, each a tenth of a second behind the one before.
fn have_lines(alloc: Global, events: &[(u16, u16)], lines: &str) -> bool {
    match notes_of(alloc, events) {
        Some(notes) => are_lines(alloc, notes.as_slice(), lines),
        None => false,
    }
}

/// A note of target 0.
fn note(what: NotedEvent, at: u64) -> Note {
    Note {
        target: 0,
        what,
        at,
    }
}

#[test]
fn each_target_has_a_line_of_what_it_did(rt: HostRuntime) {
    let cases: [(&[(u16, u16)], &str); 4] = [
        (&[(0, CANCEL)], ""),
        (
            &[(2, 180), (0, 100), (2, 486), (0, TIMEOUT)],
            "target 0 rang 100 at 200, timed out at 400\ntarget 2 rang 180 at 100, 486 at 300\n",
        ),
        (
            &[(1, 183), (0, FAULT), (1, 200)],
            "target 0 transport error at 200\ntarget 1 rang 183 at 100, answered 200 at 300\n",
        ),
        (
            &[(0, 180), (0, GIVE_UP)],
            "target 0 rang 180 at 100, given up at 200\n",
        ),
    ];
    for (events, lines) in cases {
        holds(&rt, have_lines(rt.alloc(), events, lines), lines);
    }
    let notes = [
        note(NotedEvent::Rang(180), 120),
        note(NotedEvent::Cancelled, 15_000),
        note(NotedEvent::Answered(487), 15_020),
    ];
    let line = "target 0 rang 180 at 120, cancelled at 15000, 487 at 15020\n";
    holds(&rt, are_lines(rt.alloc(), &notes, line), line);
}

const SHOWN: CallShown<'static> = CallShown {
    number: 17,
    age: Some(5_230),
    address: [192, 0, 2, 7],
    port: 5061,
    method: b"INVITE",
    user: b"b ob",
};

/// Since when the branch of target 0 stands as it does, by these notes.
fn times_of(context: &Context, notes: &[Note]) -> BranchTimes {
    let since = match context.look(0) {
        Some(view) => since(notes, 0, view.row.state),
        None => None,
    };
    BranchTimes { since, left: None }
}

/// Appends what an operator is told of a call: its line, and that of target 0. Says whether there was memory for them.
fn is_appended(told: &mut Vec<u8>, context: &Context, notes: &[Note]) -> bool {
    append_call_line(told, &SHOWN, context).is_ok()
        && append_branch_line(told, context, 0, times_of(context, notes)).is_ok()
}

/// What an operator is told of a call to two targets to which this happened, a tenth of a second apart.
fn told_of(alloc: Global, events: &[(u16, u16)]) -> Option<Vec<u8>> {
    let context = context_after(alloc, 2, events)?;
    let notes = notes_of(alloc, events)?;
    let mut told = Vec::new(alloc);
    if is_appended(&mut told, &context, notes.as_slice()) {
        Some(told)
    } else {
        None
    }
}

/// Whether this is told of such a call.
fn is_told(alloc: Global, events: &[(u16, u16)], states: &str, branch: &str) -> bool {
    let Some(told) = told_of(alloc, events) else {
        return false;
    };
    let Ok(wanted) = format!(in alloc;
        "17 5230 192.0.2.7:5061 INVITE b.ob {states}\ntarget 0 {branch} sip:a\n"
    ) else {
        return false;
    };
    told.as_slice() == wanted.as_bytes()
}

#[test]
fn an_operator_is_told_where_each_branch_stands(rt: HostRuntime) {
    let cases: [(&[(u16, u16)], &str, &str); 8] = [
        (&[], "calling calling", "calling since - left -"),
        (
            &[(0, 180), (0, 180)],
            "proceeding calling",
            "proceeding since 100 left -",
        ),
        (
            &[(0, 180), (1, 486), (0, 603)],
            "603 486",
            "603 since 300 left -",
        ),
        (
            &[(0, 180), (0, 200)],
            "answered calling",
            "answered since 200 left -",
        ),
        (&[(0, TIMEOUT)], "408 calling", "408 since 100 left -"),
        (&[(0, FAULT)], "503 calling", "503 since 100 left -"),
        (
            &[(0, 180), (0, CANCEL)],
            "cancelled calling",
            "cancelled since - left -",
        ),
        (
            &[(0, 180), (0, CANCEL), (0, GIVE_UP)],
            "silent calling",
            "silent since 300 left -",
        ),
    ];
    for (events, states, branch) in cases {
        holds(&rt, is_told(rt.alloc(), events, states, branch), branch);
    }
}
