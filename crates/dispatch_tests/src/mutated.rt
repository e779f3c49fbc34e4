//! Each text that is almost the request: where it is cut short, and where one of its bytes is another.
use crate::holds::holds;
use crate::outbox::Outbox;
use crate::texts::{request_of, setup_of, shelf_of, text_becomes};
use call_messages::lines::REQUEST;
use call_table::Shelf;
use fork_call::{Call, Setup};
use proxy_dispatch::Handled;
use std::alloc::Global;
use std::sync::Wait;

/// Whether a text becomes this on a shelf without a call: one stands there then exactly where it was opened, and something was
/// sent exactly where it was answered.
fn becomes_so<R: Wait>(
    rt: &R,
    alloc: Global,
    shelf: &Shelf<Call<Global>>,
    setup: &Setup<Global>,
    text: &[u8],
    wanted: Handled,
) -> bool {
    let mut outbox = Outbox::new(alloc);
    let handled = text_becomes(rt, alloc, shelf, setup, text, &mut outbox);
    let calls = if wanted == Handled::Opened(0) { 1 } else { 0 };
    let is_answered = matches!(wanted, Handled::Answered(_));
    handled == Some(wanted) && shelf.count(rt) == calls && outbox.is_empty() != is_answered
}

/// The same where no call stands.
fn is_wanted<R: Wait>(
    rt: &R,
    alloc: Global,
    setup: &Setup<Global>,
    text: &[u8],
    wanted: Handled,
) -> bool {
    match shelf_of(alloc) {
        Some(shelf) => becomes_so(rt, alloc, &shelf, setup, text, wanted),
        None => false,
    }
}

/// How many of the proper prefixes of a text are dropped.
fn dropped_of<R: Wait>(rt: &R, alloc: Global, setup: &Setup<Global>, text: &[u8]) -> usize {
    let mut dropped: usize = 0;
    for len in 0..text.len() {
        if is_wanted(rt, alloc, setup, &text[..len], Handled::Dropped) {
            dropped = dropped.saturating_add(1);
        }
    }
    dropped
}

/// How many of those of the request are, by a setup.
fn dropped_by<R: Wait>(rt: &R, alloc: Global, setup: &Setup<Global>) -> Option<usize> {
    match request_of(alloc, &[]) {
        Some(text) => Some(dropped_of(rt, alloc, setup, &text)),
        None => None,
    }
}

/// The same by the setup.
fn dropped_prefixes<R: Wait>(rt: &R, alloc: Global) -> Option<usize> {
    let setup = setup_of(alloc)?;
    dropped_by(rt, alloc, &setup)
}

#[test]
fn a_request_that_is_cut_short_is_dropped(rt: HostRuntime) {
    holds(
        &rt,
        dropped_prefixes(&rt, rt.alloc()) == Some(200),
        "the 200 proper prefixes of the request",
    );
}

/// The bytes that each byte of the request is replaced by.
const BYTES: [u8; 10] = [0, 10, 13, 32, 34, 44, 58, 59, 60, 255];

/// Those of them that a header value may have: no CR and no LF (RFC 3261 section 25.1).
const IN_VALUES: &[u8] = &[0, 32, 34, 44, 58, 59, 60, 255];

/// What becomes of the request where one of these bytes stands in this line, at a place from `first` to `last`.
#[derive(Clone, Copy)]
struct Rule {
    line: usize,
    first: usize,
    last: usize,
    bytes: &'static [u8],
    handled: Handled,
}

const OPENED: Handled = Handled::Opened(0);

/// By the grammar (RFC 3261 section 25.1) and the checks of a request (section 16.3). Of several rules the last counts; where
/// there is none, the text is no message any more, or not of this method, and is dropped: names of headers and methods are
/// tokens, which have none of these bytes; `SIP/2.0`, the CSeq and the Content-Length have one form; CR and LF end lines alone.
const RULES: [Rule; 31] = [
    // OPTIONS sip:bob@example.com SIP/2.0: of the scheme nothing may differ,
    Rule {
        line: 0,
        first: 8,
        last: 11,
        bytes: &[34, 44, 58, 59, 60],
        handled: Handled::Answered(416),
    },
    // no URI has `"` or `<`,
    Rule {
        line: 0,
        first: 12,
        last: 26,
        bytes: &[34, 60],
        handled: Handled::Answered(400),
    },
    // another user has no location,
    Rule {
        line: 0,
        first: 12,
        last: 14,
        bytes: &[44, 58, 59],
        handled: Handled::Answered(480),
    },
    // neither a host nor a port has these,
    Rule {
        line: 0,
        first: 15,
        last: 26,
        bytes: &[44, 58],
        handled: Handled::Answered(400),
    },
    // a parameter begins behind another host, to which no hop leads,
    Rule {
        line: 0,
        first: 15,
        last: 25,
        bytes: &[59],
        handled: Handled::Answered(500),
    },
    // where neither the host nor the parameter is empty.
    Rule {
        line: 0,
        first: 16,
        last: 16,
        bytes: &[59],
        handled: Handled::Answered(400),
    },
    Rule {
        line: 0,
        first: 26,
        last: 26,
        bytes: &[59],
        handled: Handled::Answered(400),
    },
    // v: SIP/2.0/UDP 192.0.2.1:5060;branch=z9hG4bKa;rport: a Via value that cannot be read, or has no branch of RFC 3261;
    Rule {
        line: 1,
        first: 2,
        last: 50,
        bytes: IN_VALUES,
        handled: Handled::Answered(400),
    },
    // but space may stand round the transport, the host and the port,
    Rule {
        line: 1,
        first: 11,
        last: 11,
        bytes: &[32],
        handled: OPENED,
    },
    Rule {
        line: 1,
        first: 13,
        last: 13,
        bytes: &[32],
        handled: OPENED,
    },
    Rule {
        line: 1,
        first: 15,
        last: 15,
        bytes: &[32],
        handled: OPENED,
    },
    Rule {
        line: 1,
        first: 23,
        last: 23,
        bytes: &[32],
        handled: OPENED,
    },
    Rule {
        line: 1,
        first: 25,
        last: 25,
        bytes: &[32],
        handled: OPENED,
    },
    Rule {
        line: 1,
        first: 28,
        last: 28,
        bytes: &[32],
        handled: OPENED,
    },
    // the port, or the rest of it, may be a parameter's name,
    Rule {
        line: 1,
        first: 24,
        last: 24,
        bytes: &[59],
        handled: OPENED,
    },
    Rule {
        line: 1,
        first: 26,
        last: 27,
        bytes: &[59],
        handled: OPENED,
    },
    // the branch may be shorter, or longer, by what a value may have,
    Rule {
        line: 1,
        first: 44,
        last: 44,
        bytes: &[0, 32, 44, 58, 60, 255],
        handled: OPENED,
    },
    Rule {
        line: 1,
        first: 45,
        last: 45,
        bytes: &[0, 44, 58, 60, 255],
        handled: OPENED,
    },
    // `rport` may be another name, or two, or end the first of two values, of which only the first is looked at.
    Rule {
        line: 1,
        first: 46,
        last: 46,
        bytes: &[32],
        handled: OPENED,
    },
    Rule {
        line: 1,
        first: 47,
        last: 50,
        bytes: &[44],
        handled: OPENED,
    },
    Rule {
        line: 1,
        first: 47,
        last: 49,
        bytes: &[59],
        handled: OPENED,
    },
    Rule {
        line: 1,
        first: 50,
        last: 50,
        bytes: &[32],
        handled: OPENED,
    },
    // Max-Forwards: 70: the line continues the Via line,
    Rule {
        line: 2,
        first: 0,
        last: 0,
        bytes: &[32],
        handled: Handled::Answered(400),
    },
    // or is a header of another name,
    Rule {
        line: 2,
        first: 1,
        last: 11,
        bytes: &[58],
        handled: OPENED,
    },
    Rule {
        line: 2,
        first: 11,
        last: 11,
        bytes: &[32],
        handled: OPENED,
    },
    // or has no number, or another.
    Rule {
        line: 2,
        first: 13,
        last: 15,
        bytes: IN_VALUES,
        handled: Handled::Answered(400),
    },
    Rule {
        line: 2,
        first: 14,
        last: 14,
        bytes: &[32],
        handled: Handled::Answered(483),
    },
    Rule {
        line: 2,
        first: 15,
        last: 15,
        bytes: &[32],
        handled: OPENED,
    },
    // f: <sip:alice@example.com>;tag=1: a proxy has no use for the address.
    Rule {
        line: 3,
        first: 2,
        last: 31,
        bytes: IN_VALUES,
        handled: OPENED,
    },
    // t: <sip:bob@example.com>
    Rule {
        line: 4,
        first: 2,
        last: 23,
        bytes: IN_VALUES,
        handled: OPENED,
    },
    // i: c1
    Rule {
        line: 5,
        first: 2,
        last: 4,
        bytes: IN_VALUES,
        handled: OPENED,
    },
];

/// Of how many texts with one byte replaced in this line a call is opened. Where the byte is the one that stands there, the
/// text is the request.
const OPENING: [usize; 9] = [5, 37, 17, 243, 179, 27, 5, 4, 2];

impl Rule {
    /// Whether it is for this byte at this place of this line.
    fn is_for(&self, line: usize, place: usize, byte: u8) -> bool {
        self.line == line && self.first <= place && place <= self.last && self.bytes.contains(&byte)
    }
}

/// What becomes of the request with this byte at this place of this line.
fn ruled(line: usize, place: usize, byte: u8) -> Handled {
    let mut handled = Handled::Dropped;
    for rule in RULES.iter() {
        if rule.is_for(line, place, byte) {
            handled = rule.handled;
        }
    }
    handled
}

/// Puts a byte at this place of a text, and says whether it stood there; None where there is no such place.
fn replace(text: &mut Vec<u8>, at: usize, byte: u8) -> Option<bool> {
    match text.get_mut(at) {
        Some(there) => {
            let same = *there == byte;
            *there = byte;
            Some(same)
        }
        None => None,
    }
}

/// A place of the request: its line, its place in the line, and where the line begins.
#[derive(Clone, Copy)]
struct Place {
    line: usize,
    place: usize,
    begin: usize,
}

impl Place {
    /// What becomes of the request with this byte there, which may be the one that stands there.
    fn wanted(self, byte: u8, same: bool) -> Handled {
        if same {
            OPENED
        } else {
            ruled(self.line, self.place, byte)
        }
    }
}

/// Whether a text opens a call; None where it does not become this.
fn opens_by<R: Wait>(
    rt: &R,
    alloc: Global,
    setup: &Setup<Global>,
    text: &[u8],
    wanted: Handled,
) -> Option<bool> {
    if is_wanted(rt, alloc, setup, text, wanted) {
        Some(wanted == OPENED)
    } else {
        None
    }
}

/// Whether the request with this byte there opens a call; None where it does not become what the rules say.
fn opens<R: Wait>(
    rt: &R,
    alloc: Global,
    setup: &Setup<Global>,
    at: Place,
    byte: u8,
) -> Option<bool> {
    let index = at.begin.checked_add(at.place)?;
    let mut text = request_of(alloc, &[])?;
    match replace(&mut text, index, byte) {
        Some(same) => opens_by(rt, alloc, setup, &text, at.wanted(byte, same)),
        None => None,
    }
}

/// By how many of the bytes there the request opens a call; None where one does not become what the rules say.
fn opening_at<R: Wait>(rt: &R, alloc: Global, setup: &Setup<Global>, at: Place) -> Option<usize> {
    let mut count: usize = 0;
    for byte in BYTES {
        if opens(rt, alloc, setup, at, byte)? {
            count = count.checked_add(1)?;
        }
    }
    Some(count)
}

/// The same for all places of a line of that length, its CR and LF among them.
fn opening_in<R: Wait>(
    rt: &R,
    alloc: Global,
    setup: &Setup<Global>,
    line: usize,
    begin: usize,
    len: usize,
) -> Option<usize> {
    let mut count: usize = 0;
    for place in 0..len {
        let at = Place { line, place, begin };
        count = count.checked_add(opening_at(rt, alloc, setup, at)?)?;
    }
    Some(count)
}

/// How many lines have as many texts that open a call as they are to have, and all else becomes what the rules say.
fn well_by<R: Wait>(rt: &R, alloc: Global, setup: &Setup<Global>) -> Option<usize> {
    let mut begin: usize = 0;
    let mut well: usize = 0;
    for (line, (text, opening)) in REQUEST.iter().zip(OPENING).enumerate() {
        let len = text.len().checked_add(2)?;
        if opening_in(rt, alloc, setup, line, begin, len) == Some(opening) {
            well = well.checked_add(1)?;
        }
        begin = begin.checked_add(len)?;
    }
    Some(well)
}

/// The same by the setup.
fn well_lines<R: Wait>(rt: &R, alloc: Global) -> Option<usize> {
    let setup = setup_of(alloc)?;
    well_by(rt, alloc, &setup)
}

#[test]
fn a_request_with_another_byte_opens_a_call_by_the_grammar_alone(rt: HostRuntime) {
    holds(
        &rt,
        well_lines(&rt, rt.alloc()) == Some(9),
        "the nine lines of the request",
    );
}
