//! The header lines of a message, as they are walked, looked up and cut.

use crate::bytes::has;
use crate::holds::holds;
use crate::text::samples::message_changed;
use sip_text::{
    HeaderLine, HeaderLines, HeaderValues, Message, faults_are_of_the_text, round_trip,
    spelling_is_text, text_is_message,
};
use std::alloc::Global;
use std::process::Abort;

/// The laws, called once.
fn laws() {
    text_is_message();
    spelling_is_text();
    round_trip();
    faults_are_of_the_text();
}

/// Ends the test where these are not the lengths of header lines with one length of 4.
fn are_the_lengths(rt: &impl Abort, headers: HeaderLines<'_>) {
    let mut lengths = HeaderValues::new(b"L", headers);
    holds(
        rt,
        lengths.size_hint().0 <= 1,
        "no more lengths hinted than there are",
    );
    holds(rt, has(lengths.next(), b"4"), "the length");
    holds(rt, lengths.next().is_none(), "one length alone");
}

/// How many lines are passed one after the other.
fn walked(headers: HeaderLines<'_>) -> usize {
    let mut count = 0usize;
    for _line in headers {
        count = count.saturating_add(1);
    }
    count
}

/// Whether there are so many lines.
fn are(headers: HeaderLines<'_>, count: usize) -> bool {
    headers.len() == count && walked(headers) == count && headers.is_empty() == (count == 0)
}

/// Whether a line is there, of that name and that value.
fn is_line(line: Option<HeaderLine<'_>>, name: &[u8], value: &[u8]) -> bool {
    match line {
        Some(line) => line.name == name && line.value == value,
        None => false,
    }
}

/// The first of some lines.
fn first_of(headers: HeaderLines<'_>) -> Option<HeaderLine<'_>> {
    match headers.split_first() {
        Some((line, _)) => Some(line),
        None => None,
    }
}

/// Ends the test where the lines in front of a place and behind it are not these.
fn are_cut(rt: &impl Abort, headers: HeaderLines<'_>) {
    if headers.len() < 2 {
        return holds(rt, false, "two lines are there");
    }
    let (front, back) = headers.split_at(2);
    holds(rt, are(front, 2) && are(back, 5), "two lines and five");
    holds(
        rt,
        is_line(first_of(back), b"f", b"<sip:alice@example.com>;tag=1"),
        "the line behind the place",
    );
    holds(
        rt,
        is_line(front.get(1), b"Max-Forwards", b"70"),
        "the line before it",
    );
    holds(rt, front.get(2).is_none(), "no line behind it in front");
    holds(
        rt,
        has(
            front.as_written(),
            b"v: SIP/2.0/UDP 192.0.2.1:5060;branch=z9hG4bKa;rport\r\nMax-Forwards: 70\r\n",
        ),
        "they stand in the message as they are written",
    );
}

/// Ends the test where these are not the lines of the request with a body.
fn are_the_lines(rt: &impl Abort, message: &Message<Global>) {
    let headers = message.headers();
    holds(rt, are(headers, 7), "seven lines");
    holds(
        rt,
        is_line(headers.get(6), b"Content-Length", b"4"),
        "the last line",
    );
    are_cut(rt, headers);
    are_the_lengths(rt, headers);
}

#[test]
fn header_lines_are_walked_and_cut(rt: HostRuntime) {
    laws();
    let none = HeaderLines::none();
    holds(
        &rt,
        are(none, 0) && none.split_first().is_none(),
        "no lines at all",
    );
    match message_changed(rt.alloc(), 7, b"Content-Length: 4", b"body") {
        Some(mut message) => {
            are_the_lines(&rt, &message);
            message.shrink();
            let headers = message.headers();
            holds(&rt, are(headers, 7), "memory given back changes no line");
        }
        None => holds(&rt, false, "the message is read"),
    }
    let unspaced = message_changed(rt.alloc(), 7, b"Content-Length:4", b"body");
    let well = match &unspaced {
        Some(message) => message.headers().as_written().is_none(),
        None => false,
    };
    holds(&rt, well, "a line without a space is written otherwise");
}
