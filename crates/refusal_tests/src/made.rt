//! Messages that are made of others while memory is refused.
use crate::answers::{discard, judged};
use crate::hops::has_hops;
use crate::made_texts::{
    ACK, CANCEL, FORWARDED, LONG_MARKED, MARKED, STRIPPED, TRYING, UPWARD_WITH_ANOTHER,
};
use crate::plays::{calls, plays};
use crate::sources::{
    Alloc, BRANCH, LONG, MOVED, OWN, REQUEST, ROUTED, SOURCE, Wanted, is_written_as, read, target,
};
use failing_allocator::{Attempt, Heap, Play, Repeated, Stateless};
use sip_build::OwnStatus;
use sip_builders::{ack_of, cancel_of, forward, generated, mark_received, strip_route, upward};
use sip_text::{Message, StartLine};
use sip_uri::SipUri;
use sip_via::{BuildFault, ReceivedFault, ViaFault, add_received};
use std::mem;

/// How a message is made.
#[derive(Clone, Copy)]
enum Making {
    Marked,
    Stripped,
    Forwarded,
    Upward,
    Generated,
    Ack,
    Cancel,
}

/// A message that is made, the text of that which it is made of, and what it is to say.
#[derive(Clone, Copy)]
struct Case {
    making: Making,
    of: &'static [u8],
    wanted: Wanted,
}

/// The response goes up with a contact that was kept.
fn moved<'a>(heap: Heap<'a>, response: &Message<Alloc<'a>>, wanted: Wanted) -> Attempt {
    let kept: [&[u8]; 1] = [b"<sip:d@192.0.2.7>"];
    judged(
        heap,
        &wanted,
        upward(heap.scarce, response, Some(&kept), &[]),
        BuildFault::NoMemory,
    )
}

/// The request goes to the target, or another along with it.
fn sent_along<'a>(
    heap: Heap<'a>,
    request: &Message<Alloc<'a>>,
    response: &Message<Alloc<'a>>,
    target: &SipUri<Alloc<'a>>,
    case: Case,
) -> Attempt {
    if !has_hops(request) {
        return Attempt::Wrong;
    }
    let wanted = &case.wanted;
    match request.start() {
        StartLine::Request { .. } => match case.making {
            Making::Forwarded => judged(
                heap,
                wanted,
                forward(heap.scarce, request, target, OWN, &BRANCH),
                BuildFault::NoMemory,
            ),
            Making::Ack => judged(
                heap,
                wanted,
                ack_of(heap.scarce, request, response),
                BuildFault::NoMemory,
            ),
            _ => judged(
                heap,
                wanted,
                cancel_of(heap.scarce, request),
                BuildFault::NoMemory,
            ),
        },
        StartLine::Response { .. } => Attempt::Wrong,
    }
}

fn along<'a>(heap: Heap<'a>, request: &Message<Alloc<'a>>, case: Case) -> Attempt {
    let response = read(heap.ample, MOVED);
    let target = target(heap.ample);
    let answer = match (&response, &target) {
        (Ok(response), Ok(target)) => sent_along(heap, request, response, target, case),
        _ => Attempt::Wrong,
    };
    discard(response);
    discard(target);
    answer
}

fn made<'a>(heap: Heap<'a>, of: &Message<Alloc<'a>>, case: Case) -> Attempt {
    let wanted = &case.wanted;
    match case.making {
        Making::Marked => judged(
            heap,
            wanted,
            mark_received(heap.scarce, of, SOURCE),
            ViaFault::NoMemory,
        ),
        Making::Stripped => judged(
            heap,
            wanted,
            strip_route(heap.scarce, of, OWN),
            BuildFault::NoMemory,
        ),
        Making::Generated => judged(
            heap,
            wanted,
            generated(heap.scarce, of, OwnStatus::Trying),
            BuildFault::NoMemory,
        ),
        Making::Upward => moved(heap, of, case.wanted),
        _ => along(heap, of, case),
    }
}

impl Stateless for Case {
    fn answer(&self, heap: Heap<'_>) -> Attempt {
        let of = read(heap.ample, self.of);
        let answer = match &of {
            Ok(of) => made(heap, of, *self),
            Err(_) => Attempt::Wrong,
        };
        discard(of);
        answer
    }
}

/// The source is put into a request itself, which comes back where that is refused. Its Via line is too long to be made without
/// memory.
#[derive(Drop)]
struct Marking<'a> {
    heap: Heap<'a>,
    request: Option<Message<Alloc<'a>>>,
}

fn marked<'a>(heap: Heap<'a>, request: &mut Option<Message<Alloc<'a>>>) -> Attempt {
    let Some(message) = request.take() else {
        return Attempt::Wrong;
    };
    match add_received(heap.scarce, message, SOURCE) {
        Ok(message) => {
            let answer = Attempt::of(is_written_as(heap.ample, &message, LONG_MARKED));
            discard(message);
            answer
        }
        Err(ReceivedFault { message, fault }) => {
            discard(mem::replace(request, Some(message)));
            Attempt::failed(fault == ViaFault::NoMemory)
        }
    }
}

impl Repeated for Marking<'_> {
    fn attempt(&mut self) -> Attempt {
        marked(self.heap, &mut self.request)
    }
}

struct InPlace;

impl Play for InPlace {
    fn play(&self, heap: Heap<'_>) -> bool {
        let mut marking = Marking {
            heap,
            request: read(heap.ample, LONG).ok(),
        };
        let well = heap.insist(&mut marking);
        discard(marking);
        well
    }
}

/// How a message is made, of which, what it is to say, how many growths are done without, and the call's name. A request that is marked
/// gives the memory back in which nothing stands, of its text and of the places in it, and keeps it where a smaller block is refused.
type Row = (Making, &'static [u8], &'static [u8], u64, &'static str);

const ROWS: &[Row] = &[
    (Making::Marked, REQUEST, MARKED, 2, "mark_received"),
    (Making::Stripped, ROUTED, STRIPPED, 0, "strip_route"),
    (Making::Forwarded, REQUEST, FORWARDED, 0, "forward"),
    (Making::Upward, MOVED, UPWARD_WITH_ANOTHER, 0, "upward"),
    (Making::Generated, REQUEST, TRYING, 0, "generated"),
    (Making::Ack, REQUEST, ACK, 0, "ack_of"),
    (Making::Cancel, REQUEST, CANCEL, 0, "cancel_of"),
];

/// They stand in a function of their own: a proof reads a constant wherever it is named, once for each call beside it.
fn rows() -> &'static [Row] {
    ROWS
}

#[test]
fn messages_are_made_of_others(rt: HostRuntime) {
    plays(&rt, &InPlace, 0, "add_received");
    for &(making, of, text, without, name) in rows() {
        let wanted = Wanted { text };
        calls(&rt, &Case { making, of, wanted }, without, name);
    }
}
