//! Tests of what a peer sends: streams in pieces of each size, and what stands in them.
use crate::holds::holds;
use sip_framing::Frame;
use std::alloc::Global;
use stream_connections::{MOST_MESSAGE, ReceivedStream, pieces_are_of_the_stream};

/// A stream of messages, line ends and keep-alives, and the lengths of what stands in it.
const STREAM: &[u8] =
    b"I a SIP/2.0\r\nl: 0\r\n\r\n\r\nI a SIP/2.0\r\nl: 1\r\n\r\nI\r\n\r\nI a SIP/2.0\r\nl: 2\r\n\r\nabI a SIP";

const LENGTHS: &[usize] = &[21, 2, 22, 4, 23];

/// How many bytes the last message has so far, which is unfinished.
const UNFINISHED: usize = 7;

/// How many bytes what stands at the front has, where it is whole.
fn length_of(frame: Frame) -> Option<usize> {
    match frame {
        Frame::Blank => Some(2),
        Frame::Ping => Some(4),
        Frame::Whole(count) => Some(count),
        Frame::More | Frame::Broken | Frame::NoLength | Frame::TooLong => None,
    }
}

/// Takes what stands at the front, if it is whole, and answers its length.
fn taken(stream: &mut ReceivedStream, now: u64) -> Option<usize> {
    let count = length_of(stream.first())?;
    if count > stream.len() {
        return None;
    }
    let front = stream.front(count).len();
    stream.pass(count, now);
    Some(front)
}

/// Takes all that is whole, and counts it against the lengths that are wanted from this place on. None where another one comes.
fn drained(stream: &mut ReceivedStream, from: usize, now: u64) -> Option<usize> {
    let mut place = from;
    for _ in 0..10u32 {
        let Some(count) = taken(stream, now) else {
            return Some(place);
        };
        if LENGTHS.get(place).copied() != Some(count) {
            return None;
        }
        place = place.saturating_add(1);
    }
    None
}

/// Whether a stream in pieces of this size is handed out as it is written.
fn plays(alloc: Global, size: usize) -> bool {
    let mut stream = ReceivedStream::new(alloc, 0);
    let mut place = 0;
    for piece in STREAM.chunks(size.max(1)) {
        if stream.receive(piece, 5).is_err() {
            return false;
        }
        match drained(&mut stream, place, 5) {
            Some(next) => place = next,
            None => return false,
        }
    }
    place == LENGTHS.len() && stream.len() == UNFINISHED
}

#[test]
fn a_stream_in_any_pieces_is_the_same(rt: HostRuntime) {
    pieces_are_of_the_stream();
    for size in 1..80usize {
        holds(&rt, plays(rt.alloc(), size), "pieces of one size");
    }
}

/// What stands at the front of a stream that begins so.
fn front_of(alloc: Global, bytes: &[u8]) -> Option<Frame> {
    let mut stream = ReceivedStream::new(alloc, 0);
    if stream.receive(bytes, 0).is_err() {
        return None;
    }
    Some(stream.first())
}

/// What stands at the front of a line of so many bytes that has not ended.
fn front_of_line(alloc: Global, count: usize) -> Option<Frame> {
    let mut stream = ReceivedStream::new(alloc, 0);
    let Ok(line) = vec![in alloc; b'a'; count] else {
        return None;
    };
    if stream.receive(line.as_slice(), 0).is_err() {
        return None;
    }
    Some(stream.first())
}

#[test]
fn what_cannot_be_read_is_told(rt: HostRuntime) {
    let alloc = rt.alloc();
    let broken = front_of(alloc, b"GET / HTTP/1.0\n");
    holds(&rt, broken == Some(Frame::Broken), "a line without CRLF");
    let unsaid = front_of(alloc, b"I a SIP/2.0\r\nf: a\r\n\r\n");
    holds(&rt, unsaid == Some(Frame::NoLength), "no Content-Length");
    let long = front_of(alloc, b"I a SIP/2.0\r\nl: 99999\r\n\r\n");
    holds(&rt, long == Some(Frame::TooLong), "more than may be");
    let open = front_of_line(alloc, MOST_MESSAGE);
    holds(
        &rt,
        open == Some(Frame::More),
        "as many bytes as a message may have",
    );
    let endless = front_of_line(alloc, 65_536);
    holds(&rt, endless == Some(Frame::TooLong), "one more");
}

/// Whether what waits is told with the moment at which it came.
fn tells_times(alloc: Global) -> bool {
    let mut stream = ReceivedStream::new(alloc, 10);
    let at_first = stream.times().heard == 10 && stream.times().unfinished.is_none();
    let came = stream.receive(b"I a S", 20).is_ok() && stream.receive(b"IP/2", 30).is_ok();
    let waits = stream.times().heard == 30 && stream.times().unfinished == Some(20);
    let ended = stream.receive(b".0\r\nl: 0\r\n\r\n", 40).is_ok();
    let count = taken(&mut stream, 40);
    let rests = stream.times().heard == 40 && stream.times().unfinished.is_none();
    at_first && came && waits && ended && count == Some(21) && rests
}

#[test]
fn an_unfinished_message_has_its_moment(rt: HostRuntime) {
    holds(&rt, tells_times(rt.alloc()), "its first byte's");
}
