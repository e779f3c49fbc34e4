//! Messages that almost belong to a call, and one that its book has no room for.
use crate::carrying::{posted, serves, serves_lines};
use crate::holds::holds;
use crate::outbox::Outbox;
use crate::texts::setup_of;
use call_messages::lines::{CALL_ID, FROM, MARKED, REQUEST, TO, VIA, text_of};
use call_table::Shelf;
use fork_call::{Call, Setup};
use proxy_dispatch::Handled;
use std::alloc::Global;
use std::process::Abort;
use std::sync::Wait;

/// A setup, a shelf, and a port in memory.
#[derive(Drop)]
struct Proxy {
    setup: Setup<Global>,
    shelf: Shelf<Call<Global>>,
    outbox: Outbox,
}

impl Proxy {
    /// Without a call, set up so.
    fn of(alloc: Global, setup: Setup<Global>) -> Option<Proxy> {
        match Shelf::new(alloc) {
            Ok(shelf) => Some(Proxy {
                setup,
                shelf,
                outbox: Outbox::new(alloc),
            }),
            Err(_) => None,
        }
    }

    /// Without a call.
    fn new(alloc: Global) -> Option<Proxy> {
        let setup = setup_of(alloc)?;
        Proxy::of(alloc, setup)
    }

    /// Whether these lines become that; the call that they open or that takes them is carried.
    fn does<R: Abort + Wait>(
        &mut self,
        rt: &R,
        alloc: Global,
        lines: &[&[u8]],
        wanted: Handled,
    ) -> bool {
        let handled = serves_lines(
            rt,
            alloc,
            &self.shelf,
            &self.setup,
            lines,
            0,
            &mut self.outbox,
        );
        handled == Some(wanted)
    }

    /// Whether this text does.
    fn does_text<R: Abort + Wait>(
        &mut self,
        rt: &R,
        alloc: Global,
        text: &[u8],
        wanted: Handled,
    ) -> bool {
        let handled = serves(
            rt,
            alloc,
            &self.shelf,
            &self.setup,
            text,
            0,
            &mut self.outbox,
        );
        handled == Some(wanted)
    }

    /// Whether so many events were posted to a call, none of them a fault; none where it is not there.
    fn has_posted<R: Wait>(&self, rt: &R, number: u64, events: usize) -> bool {
        posted(rt, &self.shelf, number).unwrap_or((0, 0)) == (events, 0)
    }
}

// ---- a response with another byte in its top Via value

/// The Via line that the request of call 0 went out with.
const OWN_VIA: &[u8] =
    b"v: SIP/2.0/UDP 192.0.2.9:5060;branch=z9hG4bK8c31e71e0ddbf1a0e56f5f0279990857.7.0.0";

/// Where the address begins in it.
const ADDRESS: usize = 15;

/// An answer to an OPTIONS request with this for its top Via line.
fn answer_by(alloc: Global, via: &[u8]) -> Option<Vec<u8>> {
    let lines = [
        b"SIP/2.0 404 Not Found".as_slice(),
        via,
        MARKED,
        FROM,
        TO,
        CALL_ID,
        b"CSeq: 1 OPTIONS",
        b"",
    ];
    text_of(alloc, &lines)
}

/// Whether an answer with this for its top Via line becomes that.
fn does_answer<R: Abort + Wait>(
    rt: &R,
    alloc: Global,
    proxy: &mut Proxy,
    via: &[u8],
    wanted: Handled,
) -> bool {
    match answer_by(alloc, via) {
        Some(text) => proxy.does_text(rt, alloc, &text, wanted),
        None => false,
    }
}

/// Puts another digit at this place of a line, and says whether there is such a place.
fn change_digit(via: &mut Vec<u8>, place: usize) -> bool {
    match via.get_mut(place) {
        Some(there) => {
            *there = if *there == b'0' { b'1' } else { b'0' };
            true
        }
        None => false,
    }
}

/// Whether an answer with another digit at this place of its top Via line is dropped.
fn is_stray<R: Abort + Wait>(rt: &R, alloc: Global, proxy: &mut Proxy, place: usize) -> bool {
    match Vec::from_slice(alloc, OWN_VIA) {
        Ok(mut via) => {
            change_digit(&mut via, place) && does_answer(rt, alloc, proxy, &via, Handled::Dropped)
        }
        Err(_) => false,
    }
}

/// How many places there are where another digit makes a stray of an answer.
fn stray_places<R: Abort + Wait>(rt: &R, alloc: Global, proxy: &mut Proxy) -> usize {
    let mut count: usize = 0;
    for place in ADDRESS..OWN_VIA.len() {
        if is_stray(rt, alloc, proxy, place) {
            count = count.saturating_add(1);
        }
    }
    count
}

/// The same of a call that the request opens, to which nothing is posted meanwhile; after all of them the answer itself is
/// taken.
fn strays<R: Abort + Wait>(rt: &R, alloc: Global) -> Option<usize> {
    let mut proxy = Proxy::new(alloc)?;
    let opened = proxy.does(rt, alloc, &REQUEST, Handled::Opened(0));
    let count = stray_places(rt, alloc, &mut proxy);
    let untouched = proxy.has_posted(rt, 0, 0);
    let taken = does_answer(rt, alloc, &mut proxy, OWN_VIA, Handled::Delivered(0));
    if opened && untouched && taken {
        Some(count)
    } else {
        None
    }
}

#[test]
fn no_digit_of_the_own_via_value_may_differ(rt: HostRuntime) {
    holds(
        &rt,
        strays(&rt, rt.alloc()) == Some(67),
        "a response with another address, key, instance, call or target",
    );
}

// ---- histories

/// A datagram: its start line, the two lines behind it, its CSeq line, its last line, and its body.
#[derive(Clone, Copy)]
struct Said<'a> {
    start: &'a [u8],
    top: (&'a [u8], &'a [u8]),
    cseq: &'a [u8],
    last: &'a [u8],
    body: &'a [u8],
}

/// Its text.
fn spelled(alloc: Global, said: Said<'_>) -> Option<Vec<u8>> {
    let lines = [
        said.start, said.top.0, said.top.1, FROM, TO, CALL_ID, said.cseq, said.last, b"",
    ];
    let mut text = text_of(alloc, &lines)?;
    if text.extend_from_slice(said.body).is_ok() {
        Some(text)
    } else {
        None
    }
}

/// Whether it becomes that.
fn does_said<R: Abort + Wait>(
    rt: &R,
    alloc: Global,
    proxy: &mut Proxy,
    said: Said<'_>,
    wanted: Handled,
) -> bool {
    match spelled(alloc, said) {
        Some(text) => proxy.does_text(rt, alloc, &text, wanted),
        None => false,
    }
}

/// A datagram, what becomes of it, and how many events calls 0 and 1 have then.
type Step<'a> = (Said<'a>, Handled, [usize; 2]);

/// The second line of a request.
const SEVENTY: &[u8] = b"Max-Forwards: 70";

/// The first lines of the requests of calls 0 and 1, and of one that no call knows.
const CALLER_0: (&[u8], &[u8]) = (VIA, SEVENTY);

const CALLER_1: (&[u8], &[u8]) = (b"v: SIP/2.0/UDP 192.0.2.1:5060;branch=z9hG4bKb", SEVENTY);

const NOBODY: (&[u8], &[u8]) = (b"v: SIP/2.0/UDP 192.0.2.1:5060;branch=z9hG4bKc", SEVENTY);

/// Those of the responses to what the two calls sent, which have one key.
const BRANCH_0: (&[u8], &[u8]) = (OWN_VIA, MARKED);

const BRANCH_1: (&[u8], &[u8]) = (
    b"v: SIP/2.0/UDP 192.0.2.9:5060;branch=z9hG4bK8c31e71e0ddbf1a0e56f5f0279990857.7.1.0",
    MARKED,
);

const INVITE: &[u8] = b"INVITE sip:bob@example.com SIP/2.0";

const INVITING: &[u8] = b"CSeq: 1 INVITE";

const OPTIONS: &[u8] = b"OPTIONS sip:bob@example.com SIP/2.0";

const ASKING: &[u8] = b"CSeq: 1 OPTIONS";

const RINGING: &[u8] = b"SIP/2.0 180 Ringing";

const BUSY: &[u8] = b"SIP/2.0 486 Busy Here";

/// Two calls, and what is for neither of them.
const STRAYS: [Step<'static>; 14] = [
    // a call of each kind, of one user
    (
        Said {
            start: INVITE,
            top: CALLER_0,
            cseq: INVITING,
            last: b"l: 0",
            body: b"",
        },
        Handled::Opened(0),
        [0, 0],
    ),
    (
        Said {
            start: OPTIONS,
            top: CALLER_1,
            cseq: ASKING,
            last: b"l: 0",
            body: b"",
        },
        Handled::Opened(1),
        [0, 0],
    ),
    // a response to the one that names the other
    (
        Said {
            start: RINGING,
            top: BRANCH_1,
            cseq: INVITING,
            last: b"l: 0",
            body: b"",
        },
        Handled::Dropped,
        [0, 0],
    ),
    (
        Said {
            start: RINGING,
            top: BRANCH_0,
            cseq: ASKING,
            last: b"l: 0",
            body: b"",
        },
        Handled::Dropped,
        [0, 0],
    ),
    // a response to a CANCEL that was not sent
    (
        Said {
            start: b"SIP/2.0 200 OK",
            top: BRANCH_0,
            cseq: b"CSeq: 1 CANCEL",
            last: b"l: 0",
            body: b"",
        },
        Handled::Dropped,
        [0, 0],
    ),
    // a response whose body is cut short
    (
        Said {
            start: BUSY,
            top: BRANCH_0,
            cseq: INVITING,
            last: b"l: 5",
            body: b"1234",
        },
        Handled::Dropped,
        [0, 0],
    ),
    // responses
    (
        Said {
            start: RINGING,
            top: BRANCH_0,
            cseq: INVITING,
            last: b"l: 0",
            body: b"",
        },
        Handled::Delivered(0),
        [1, 0],
    ),
    (
        Said {
            start: RINGING,
            top: BRANCH_1,
            cseq: ASKING,
            last: b"l: 0",
            body: b"",
        },
        Handled::Delivered(1),
        [1, 1],
    ),
    (
        Said {
            start: BUSY,
            top: BRANCH_0,
            cseq: INVITING,
            last: b"l: 4",
            body: b"1234",
        },
        Handled::Delivered(0),
        [2, 1],
    ),
    // that comes again
    (
        Said {
            start: BUSY,
            top: BRANCH_0,
            cseq: INVITING,
            last: b"l: 4",
            body: b"1234",
        },
        Handled::Delivered(0),
        [2, 1],
    ),
    // the request comes again, cut short
    (
        Said {
            start: INVITE,
            top: CALLER_0,
            cseq: INVITING,
            last: b"l: 5",
            body: b"1234",
        },
        Handled::Answered(400),
        [2, 1],
    ),
    // a CANCEL and an ACK for nothing
    (
        Said {
            start: b"CANCEL sip:bob@example.com SIP/2.0",
            top: NOBODY,
            cseq: b"CSeq: 1 CANCEL",
            last: b"l: 0",
            body: b"",
        },
        Handled::Answered(481),
        [2, 1],
    ),
    (
        Said {
            start: b"ACK sip:bob@example.com SIP/2.0",
            top: NOBODY,
            cseq: b"CSeq: 1 ACK",
            last: b"l: 0",
            body: b"",
        },
        Handled::Dropped,
        [2, 1],
    ),
    // the ACK for the answer
    (
        Said {
            start: b"ACK sip:bob@example.com SIP/2.0",
            top: CALLER_0,
            cseq: b"CSeq: 1 ACK",
            last: b"l: 0",
            body: b"",
        },
        Handled::Delivered(0),
        [2, 1],
    ),
];

/// Whether a datagram becomes what it is to become, and the two calls have those events then.
fn does_step<R: Abort + Wait>(rt: &R, alloc: Global, proxy: &mut Proxy, step: &Step<'_>) -> bool {
    does_said(rt, alloc, proxy, step.0, step.1)
        && proxy.has_posted(rt, 0, step.2[0])
        && proxy.has_posted(rt, 1, step.2[1])
}

/// Whether each does; no other call is opened.
fn does_steps<R: Abort + Wait>(
    rt: &R,
    alloc: Global,
    proxy: &mut Proxy,
    steps: &[Step<'_>],
) -> bool {
    let mut well = true;
    for step in steps {
        well = well && does_step(rt, alloc, proxy, step);
    }
    well && proxy.shelf.count(rt) == 2
}

/// Whether a proxy without a call does all that.
fn plays<R: Abort + Wait>(rt: &R, alloc: Global, steps: &[Step<'_>]) -> bool {
    match Proxy::new(alloc) {
        Some(mut proxy) => does_steps(rt, alloc, &mut proxy, steps),
        None => false,
    }
}

#[test]
fn what_is_for_another_call_changes_none(rt: HostRuntime) {
    holds(
        &rt,
        plays(&rt, rt.alloc(), &STRAYS),
        "two calls, and what is for neither of them",
    );
}

// ---- a book that takes no more events that change nothing

/// How many such events it takes.
const ROOM: usize = 4096;

/// The INVITE, a 180 to it, and a final answer.
const INVITED: Said<'static> = Said {
    start: INVITE,
    top: CALLER_0,
    cseq: INVITING,
    last: b"l: 0",
    body: b"",
};

const RUNG: Said<'static> = Said {
    start: RINGING,
    top: BRANCH_0,
    cseq: INVITING,
    last: b"l: 0",
    body: b"",
};

const BUSIED: Said<'static> = Said {
    start: BUSY,
    top: BRANCH_0,
    cseq: INVITING,
    last: b"l: 0",
    body: b"",
};

/// Whether a call takes as many 180s as there is room for.
fn fills<R: Abort + Wait>(rt: &R, alloc: Global, proxy: &mut Proxy) -> bool {
    let mut well = does_said(rt, alloc, proxy, INVITED, Handled::Opened(0));
    for _ in 0..ROOM {
        well = well && does_said(rt, alloc, proxy, RUNG, Handled::Delivered(0));
    }
    well && proxy.has_posted(rt, 0, ROOM)
}

/// Whether the next is dropped then, and a final answer is taken.
fn gets_full<R: Abort + Wait>(rt: &R, alloc: Global, proxy: &mut Proxy) -> bool {
    fills(rt, alloc, proxy)
        && does_said(rt, alloc, proxy, RUNG, Handled::Dropped)
        && proxy.has_posted(rt, 0, ROOM)
        && does_said(rt, alloc, proxy, BUSIED, Handled::Delivered(0))
        && proxy.has_posted(rt, 0, ROOM + 1)
}

/// Whether a proxy without a call does all that.
fn is_full<R: Abort + Wait>(rt: &R, alloc: Global) -> bool {
    match Proxy::new(alloc) {
        Some(mut proxy) => gets_full(rt, alloc, &mut proxy),
        None => false,
    }
}

#[test]
fn a_response_without_room_is_dropped(rt: HostRuntime) {
    holds(
        &rt,
        is_full(&rt, rt.alloc()),
        "4,096 times 180, and one more",
    );
}
