//! Tests of `sip_framing`: what stands at the front of a stream, in whatever pieces its bytes come.
use crate::bytes::holds_of;
use sip_framing::{Frame, first_frame, frames_stay, reads_change_nothing, texts_are_framed};

/// As many bytes as a message of these streams may have.
const MOST: usize = 80;

/// Texts, and what stands at their front.
const FRONTS: &[(&[u8], Frame)] = &[
    (b"", Frame::More),
    (b"\r", Frame::More),
    (b"\r\n", Frame::More),
    (b"\r\n\r", Frame::More),
    (b"\r\n\r\n", Frame::Ping),
    (b"\r\nI", Frame::Blank),
    (b"\r\n\rI", Frame::Blank),
    (b"\r\n\r\n\r\n", Frame::Ping),
    (b"\n", Frame::Broken),
    (b"GET / HTTP/1.0\n", Frame::Broken),
    (b"A\rB\r\n", Frame::Broken),
    (b"I a SIP/2.0\r\nl: 0\r\n\r", Frame::More),
    (b"I a SIP/2.0\r\nl: 0\r\n\r\n", Frame::Whole(21)),
    (b"I a SIP/2.0\r\nl: 0\r\n\r\nI a", Frame::Whole(21)),
    (
        b"I a SIP/2.0\r\nCONTENT-length \t:\t3 \r\n\r\nab",
        Frame::More,
    ),
    (
        b"I a SIP/2.0\r\nCONTENT-length \t:\t3 \r\n\r\nabcd",
        Frame::Whole(40),
    ),
    (b"I a SIP/2.0\r\nl: 3\r\nl: 03\r\n\r\nabc", Frame::Whole(31)),
    (b"I a SIP/2.0\r\nl: 3\r\nl: 4\r\n\r\nabcd", Frame::NoLength),
    (b"I a SIP/2.0\r\nl: 3\r\n 4\r\n\r\nabcd", Frame::NoLength),
    (b"I a SIP/2.0\r\nl: -1\r\n\r\n", Frame::NoLength),
    (b"I a SIP/2.0\r\nl: 1234567890\r\n\r\n", Frame::NoLength),
    (b"I a SIP/2.0\r\nf: l: 3\r\n\r\nabc", Frame::NoLength),
    (b"l: 3\r\nf: a\r\n\r\nabc", Frame::NoLength),
    (b"I a SIP/2.0\r\nl: 59\r\n\r\n", Frame::TooLong),
    (b"I a SIP/2.0\r\nl: 58\r\n\r\n", Frame::More),
    (&[b'0'; 80], Frame::More),
    (&[b'0'; 81], Frame::TooLong),
];

#[test]
fn each_front_has_its_frame(rt: HostRuntime) {
    for (text, wanted) in FRONTS {
        let well = first_frame(text, MOST) == *wanted;
        holds_of(&rt, well, "what stands at the front", text);
    }
}

/// Whether each shorter front of a text has the same frame, or none yet.
fn stays(text: &[u8]) -> bool {
    let whole = first_frame(text, MOST);
    let mut is_well = true;
    for n in 0..text.len() {
        let frame = first_frame(&text[..n], MOST);
        is_well = (frame == Frame::More || frame == whole) && is_well;
    }
    is_well
}

#[test]
fn what_comes_later_changes_nothing(rt: HostRuntime) {
    frames_stay();
    for (text, _) in FRONTS {
        holds_of(&rt, stays(text), "no later byte changes it", text);
    }
}

/// Streams, and what stands in them, one after another.
const STREAMS: &[(&[u8], &[Frame])] = &[
    (
        b"I a SIP/2.0\r\nl: 0\r\n\r\nI a SIP/2.0\r\nl: 2\r\n\r\n\r\nI a SIP/2.0\r\nl: 0\r\n\r\n",
        &[Frame::Whole(21), Frame::Whole(23), Frame::Whole(21)],
    ),
    (
        b"\r\n\r\n\r\n\r\nI a SIP/2.0\r\nl: 0\r\n\r\n\r\nI a SIP/2.0\r\nl: 1\r\n\r\nI\r\n\r\n",
        &[
            Frame::Ping,
            Frame::Ping,
            Frame::Whole(21),
            Frame::Blank,
            Frame::Whole(22),
            Frame::Ping,
        ],
    ),
    (
        b"I a SIP/2.0\r\nl: 0\r\n\r\n\nI a SIP/2.0\r\nl: 0\r\n\r\n",
        &[Frame::Whole(21), Frame::Broken],
    ),
    (
        b"I a SIP/2.0\r\nl: 4\r\n\r\nI a I a SIP/2.0\r\n\r\n",
        &[Frame::Whole(25), Frame::NoLength],
    ),
    (
        b"\r\nI a SIP/2.0\r\nl: 60\r\n\r\n",
        &[Frame::Blank, Frame::TooLong],
    ),
];

/// What stands first in a stream whose bytes come one at a time.
fn first_of(stream: &[u8]) -> Frame {
    for n in 0..stream.len() {
        let frame = first_frame(&stream[..n], MOST);
        if frame != Frame::More {
            return frame;
        }
    }
    first_frame(stream, MOST)
}

/// What stands behind it.
fn behind(stream: &[u8], frame: Frame) -> &[u8] {
    let n = match frame {
        Frame::Blank => 2,
        Frame::Ping => 4,
        Frame::Whole(n) => n,
        _ => return stream,
    };
    if n <= stream.len() { &stream[n..] } else { b"" }
}

/// Whether these stand in a stream whose bytes come one at a time, and nothing whole behind them, but what ends it.
fn holds_frames(stream: &[u8], frames: &[Frame]) -> bool {
    let mut rest = stream;
    let mut last = Frame::More;
    for frame in frames {
        last = first_of(rest);
        if last != *frame {
            return false;
        }
        rest = behind(rest, last);
    }
    let end = first_of(rest);
    end == Frame::More || end == last
}

#[test]
fn bytes_come_one_at_a_time(rt: HostRuntime) {
    reads_change_nothing();
    texts_are_framed();
    for (stream, frames) in STREAMS {
        let well = holds_frames(stream, frames);
        holds_of(&rt, well, "what stands in the stream", stream);
    }
}
