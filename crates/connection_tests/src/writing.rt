//! Tests of what waits to be written: readers of each pace, limits, and what is left at the end.
use crate::holds::holds;
use sip_uri::Hop;
use std::alloc::Global;
use stream_connections::{
    MOST_WAITING, QueueFault, QueuedMessage, SendQueue, SendingState, what_is_written_is_a_front,
};

/// Messages that wait, one behind the other.
const MESSAGES: &[&[u8]] = &[b"first", b"second message", b"3", b"the fourth"];

/// All of their bytes.
const ALL: &[u8] = b"firstsecond message3the fourth";

/// Where they go.
fn hop() -> Hop {
    Hop::over_udp([10, 0, 0, 2], 5060)
}

/// An open connection at which the messages wait.
fn filled(alloc: Global) -> Option<SendQueue> {
    let mut queue = SendQueue::new(alloc, true, 0);
    for message in MESSAGES {
        if message.is_empty() || queue.enqueue(message, hop(), 7).is_err() {
            return None;
        }
    }
    Some(queue)
}

/// Writes as many bytes as a reader takes at once, at most, and appends them. False where nothing waits, or memory is refused.
fn writes(queue: &mut SendQueue, pace: usize, out: &mut Vec<u8>) -> bool {
    let count = match queue.next() {
        Some(rest) => {
            let count = rest.len().min(pace.max(1));
            if out.extend_from_slice(&rest[..count]).is_err() {
                return false;
            }
            count
        }
        None => return false,
    };
    queue.wrote(count, 9);
    true
}

/// Whether a reader of this pace gets all bytes in order.
fn reads_all(alloc: Global, pace: usize) -> bool {
    let Some(mut queue) = filled(alloc) else {
        return false;
    };
    let mut out = Vec::new(alloc);
    for _ in 0..ALL.len() {
        if !writes(&mut queue, pace, &mut out) {
            break;
        }
    }
    out.as_slice() == ALL && queue.left() == 0 && queue.is_free()
}

#[test]
fn a_reader_of_any_pace_gets_all(rt: HostRuntime) {
    what_is_written_is_a_front();
    for pace in 1..20usize {
        holds(&rt, reads_all(rt.alloc(), pace), "a pace");
    }
}

/// Whether this message is the next one that is left.
fn is_left(message: Option<QueuedMessage>, wanted: &[u8]) -> bool {
    match message {
        Some(message) => message.bytes.as_slice() == wanted && message.to == hop(),
        None => false,
    }
}

/// Whether the messages of which a byte was not written are left whole, behind so many bytes.
fn leaves_whole(alloc: Global) -> bool {
    let Some(mut queue) = filled(alloc) else {
        return false;
    };
    let mut out = Vec::new(alloc);
    for _ in 0..7u32 {
        let _ = writes(&mut queue, 1, &mut out);
    }
    let second = is_left(queue.take_unsent(), b"second message");
    let third = is_left(queue.take_unsent(), b"3");
    let fourth = is_left(queue.take_unsent(), b"the fourth");
    second && third && fourth && queue.take_unsent().is_none() && queue.left() == 0
}

#[test]
fn what_is_unsent_is_left_whole(rt: HostRuntime) {
    holds(&rt, leaves_whole(rt.alloc()), "behind seven bytes");
}

/// What is answered to one byte more than may wait.
fn beyond(alloc: Global) -> Option<QueueFault> {
    let mut queue = SendQueue::new(alloc, true, 0);
    let Ok(message) = vec![in alloc; b'a'; MOST_WAITING] else {
        return None;
    };
    if !queue.has_room(MOST_WAITING) || queue.enqueue(message.as_slice(), hop(), 0).is_err() {
        return None;
    }
    queue.enqueue(b"a", hop(), 0).err()
}

#[test]
fn one_byte_more_is_refused(rt: HostRuntime) {
    holds(&rt, beyond(rt.alloc()) == Some(QueueFault::Full), "full");
}

/// Whether nothing goes at once before a connection is open, and its moments are told.
fn opens(alloc: Global) -> bool {
    let mut queue = SendQueue::new(alloc, false, 1);
    let connects = !queue.is_free() && !queue.is_open();
    let at_first = queue.times().state == SendingState::Connecting && queue.times().moved == 1;
    let waits = queue.enqueue(b"a", hop(), 2).is_ok();
    queue.open(3);
    let is_waiting = queue.times().state == SendingState::Waiting && queue.times().moved == 3;
    let mut out = Vec::new(alloc);
    let goes = writes(&mut queue, 1, &mut out);
    let rests = queue.times().state == SendingState::Resting && queue.times().moved == 9;
    connects && at_first && waits && is_waiting && goes && rests && queue.is_free()
}

#[test]
fn a_connection_opens(rt: HostRuntime) {
    holds(&rt, opens(rt.alloc()), "and what waits goes");
}
