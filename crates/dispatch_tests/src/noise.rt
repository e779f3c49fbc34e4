//! Many calls in the midst of datagrams that belong to none.
use crate::carrying::{carries, serves};
use crate::holds::holds;
use crate::outbox::Outbox;
use crate::texts::{SOURCE, setup_of};
use call_messages::lines::{FROM, TO, text_of};
use call_table::Shelf;
use fork_call::{Call, Datagram, Port, Setup};
use proxy_dispatch::Handled;
use sip_lex::{append_decimal, first_line};
use std::alloc::{Allocator, Global};
use std::process::Abort;
use std::sync::Wait;

/// How many calls go on.
const CALLS: u64 = 200;

/// How many datagrams that are no answers come for each of them.
const NOISE: u64 = 50;

/// How many milliseconds pass for each call: the last is answered before any is given up.
const PASSING: u64 = 100;

// ---- numbers

/// Numbers without a pattern: the upper halves of the states of a generator by Knuth (MMIX).
#[derive(Drop)]
struct Numbers {
    state: u64,
}

/// Its first state.
const SEED: u64 = 20_261_124;

impl Numbers {
    /// The next number below this one, which is not 0.
    fn below(&mut self, bound: u64) -> u64 {
        self.state = self
            .state
            .wrapping_mul(6_364_136_223_846_793_005)
            .wrapping_add(1_442_695_040_888_963_407);
        (self.state >> 32).checked_rem(bound).unwrap_or(0)
    }

    /// The next byte.
    fn byte(&mut self) -> u8 {
        u8::try_from(self.below(256)).unwrap_or(0)
    }

    /// A place in a text of that length.
    fn place(&mut self, len: usize) -> usize {
        usize::try_from(self.below(len as u64)).unwrap_or(0)
    }
}

/// Puts at most 300 bytes behind a text, and says whether there was memory for them.
fn add_bytes(numbers: &mut Numbers, text: &mut Vec<u8>) -> bool {
    let mut well = true;
    for _ in 0..numbers.below(300) {
        well = well && text.push(numbers.byte()).is_ok();
    }
    well
}

/// At most 300 bytes.
fn bytes_of(alloc: Global, numbers: &mut Numbers) -> Option<Vec<u8>> {
    let mut text = Vec::new(alloc);
    if add_bytes(numbers, &mut text) {
        Some(text)
    } else {
        None
    }
}

/// Puts one to three bytes in the place of others, behind the first of that number.
fn spoil(numbers: &mut Numbers, text: &mut Vec<u8>, first: usize) {
    for _ in 0..=numbers.below(3) {
        let byte = numbers.byte();
        let place = first.saturating_add(numbers.place(text.len().saturating_sub(first)));
        if let Some(there) = text.get_mut(place) {
            *there = byte;
        }
    }
}

/// Puts another digit at this place of a text, and says whether there is such a place.
fn change_digit(text: &mut Vec<u8>, place: usize) -> bool {
    match text.get_mut(place) {
        Some(there) => {
            *there = if *there == b'0' { b'1' } else { b'0' };
            true
        }
        None => false,
    }
}

// ---- calls

const RINGING: &[u8] = b"SIP/2.0 180 Ringing";

const OKAY: &[u8] = b"SIP/2.0 200 OK";

const BUSY: &[u8] = b"SIP/2.0 486 Busy Here";

/// What stands between the first line of a response and the key of its branch.
const OWN_VIA: &[u8] = b"\r\nVia: SIP/2.0/UDP 192.0.2.9:5060;branch=z9hG4bK";

/// Puts bytes and behind them a number behind a text, and says whether there was memory for them.
fn add_numbered(text: &mut Vec<u8>, front: &[u8], number: u64) -> bool {
    text.extend_from_slice(front).is_ok() && append_decimal(text, number).is_ok()
}

/// These bytes, and behind them a number.
fn numbered(alloc: Global, front: &[u8], number: u64) -> Option<Vec<u8>> {
    let mut text = Vec::new(alloc);
    if add_numbered(&mut text, front, number) {
        Some(text)
    } else {
        None
    }
}

/// A request with this Via line and this Call-ID line.
fn request_by(alloc: Global, via: &[u8], call_id: &[u8]) -> Option<Vec<u8>> {
    let lines = [
        b"INVITE sip:bob@example.com SIP/2.0".as_slice(),
        via,
        b"Max-Forwards: 70",
        FROM,
        TO,
        call_id,
        b"CSeq: 1 INVITE",
        b"l: 0",
        b"",
    ];
    text_of(alloc, &lines)
}

/// The request of the call of that number with this Via line.
fn request_via(alloc: Global, via: &[u8], number: u64) -> Option<Vec<u8>> {
    let call_id = numbered(alloc, b"i: call", number)?;
    request_by(alloc, via, &call_id)
}

/// The request of the call of that number.
fn request(alloc: Global, number: u64) -> Option<Vec<u8>> {
    let via = numbered(
        alloc,
        b"v: SIP/2.0/UDP 192.0.2.1:5060;rport;branch=z9hG4bKcall",
        number,
    )?;
    request_via(alloc, &via, number)
}

/// What stands behind the first line.
fn behind_line(text: &[u8]) -> &[u8] {
    match first_line(text) {
        Some((_, rest)) => rest,
        None => text,
    }
}

/// A response to a request: this line, and the request's headers.
fn response_to(alloc: Global, sent: &[u8], line: &[u8]) -> Option<Vec<u8>> {
    let mut text = text_of(alloc, &[line])?;
    if text.extend_from_slice(behind_line(sent)).is_ok() {
        Some(text)
    } else {
        None
    }
}

/// The same as it goes up: its first Via line is gone.
fn gone_up(alloc: Global, sent: &[u8], line: &[u8]) -> Option<Vec<u8>> {
    response_to(alloc, behind_line(sent), line)
}

/// A port that looks for one datagram.
#[derive(Drop)]
struct Lookout {
    bytes: Vec<u8>,
    seen: bool,
    failures: u64,
}

impl Port for Lookout {
    ghost count = { λ port. port.failures };

    fn send<A: Allocator>(&mut self, datagram: &Datagram<A>) -> bool {
        if datagram.to == SOURCE && datagram.bytes.as_slice() == self.bytes.as_slice() {
            self.seen = true;
        }
        true
    }

    fn failures(&self) -> u64 {
        self.failures
    }
}

/// A proxy with calls that go on: what it sent to the target of each, in the order of their numbers.
#[derive(Drop)]
struct Scene {
    setup: Setup<Global>,
    shelf: Shelf<Call<Global>>,
    sent: Vec<Vec<u8>>,
    numbers: Numbers,
    outbox: Outbox,
}

impl Scene {
    /// Without a call, set up so.
    fn of(alloc: Global, setup: Setup<Global>) -> Option<Scene> {
        match Shelf::new(alloc) {
            Ok(shelf) => Some(Scene {
                setup,
                shelf,
                sent: Vec::new(alloc),
                numbers: Numbers { state: SEED },
                outbox: Outbox::new(alloc),
            }),
            Err(_) => None,
        }
    }

    /// Without a call.
    fn new(alloc: Global) -> Option<Scene> {
        let setup = setup_of(alloc)?;
        Scene::of(alloc, setup)
    }

    /// What becomes of a datagram; the call that it opens or that takes it is carried.
    fn serves<R: Abort + Wait>(
        &mut self,
        rt: &R,
        alloc: Global,
        text: &[u8],
        now: u64,
    ) -> Option<Handled> {
        serves(
            rt,
            alloc,
            &self.shelf,
            &self.setup,
            text,
            now,
            &mut self.outbox,
        )
    }

    /// Whether a text opens the call of that number.
    fn opens_by<R: Abort + Wait>(
        &mut self,
        rt: &R,
        alloc: Global,
        text: &[u8],
        number: u64,
    ) -> bool {
        self.serves(rt, alloc, text, 0) == Some(Handled::Opened(number))
    }

    /// Keeps what was sent last, and says whether there was memory for it.
    fn keeps(&mut self, alloc: Global) -> bool {
        match Vec::from_slice(alloc, self.outbox.bytes()) {
            Ok(sent) => self.sent.push(sent).is_ok(),
            Err(_) => false,
        }
    }

    /// Whether the call of that number is opened; what is sent last is its request.
    fn opens<R: Abort + Wait>(&mut self, rt: &R, alloc: Global, number: u64) -> bool {
        match request(alloc, number) {
            Some(text) => self.opens_by(rt, alloc, &text, number) && self.keeps(alloc),
            None => false,
        }
    }

    /// Whether all are.
    fn opens_all<R: Abort + Wait>(&mut self, rt: &R, alloc: Global) -> bool {
        let mut well = true;
        for number in 0..CALLS {
            well = well && self.opens(rt, alloc, number);
        }
        well
    }

    /// A response with this line to what was sent for some call.
    fn some_response(&mut self, alloc: Global, line: &[u8]) -> Option<Vec<u8>> {
        let place = self.numbers.place(self.sent.len());
        response_to(alloc, self.sent.get(place)?, line)
    }

    /// A 180 of some call, with other bytes behind its first line.
    fn spoilt_ringing(&mut self, alloc: Global) -> Option<Vec<u8>> {
        let mut text = self.some_response(alloc, RINGING)?;
        spoil(&mut self.numbers, &mut text, RINGING.len());
        Some(text)
    }

    /// The request of some call, with other bytes.
    fn spoilt_request(&mut self, alloc: Global) -> Option<Vec<u8>> {
        let mut text = request(alloc, self.numbers.below(CALLS))?;
        spoil(&mut self.numbers, &mut text, 0);
        Some(text)
    }

    /// The final answer of some call, with another digit in the key of its branch.
    fn misled_answer(&mut self, alloc: Global) -> Option<Vec<u8>> {
        let mut text = self.some_response(alloc, BUSY)?;
        let key = BUSY.len().saturating_add(OWN_VIA.len());
        if change_digit(&mut text, key.saturating_add(self.numbers.place(32))) {
            Some(text)
        } else {
            None
        }
    }

    /// A datagram of one of four kinds.
    fn noise(&mut self, alloc: Global, kind: u64) -> Option<Vec<u8>> {
        match kind {
            0 => bytes_of(alloc, &mut self.numbers),
            1 => self.spoilt_request(alloc),
            2 => self.spoilt_ringing(alloc),
            _ => self.misled_answer(alloc),
        }
    }

    /// Whether the next such datagram is dropped where no call may take it.
    fn hears<R: Abort + Wait>(&mut self, rt: &R, alloc: Global, now: u64) -> bool {
        let kind = self.numbers.below(4);
        let may_be_taken = kind == 1 || kind == 2;
        match self.noise(alloc, kind) {
            Some(text) => match self.serves(rt, alloc, &text, now) {
                Some(handled) => may_be_taken || handled == Handled::Dropped,
                None => false,
            },
            None => false,
        }
    }

    /// Whether the next of them are.
    fn hears_noise<R: Abort + Wait>(&mut self, rt: &R, alloc: Global, now: u64) -> bool {
        let mut well = true;
        for _ in 0..NOISE {
            well = well && self.hears(rt, alloc, now);
        }
        well
    }

    /// What was sent for the call of that number.
    fn sent_for(&self, number: u64) -> Option<&Vec<u8>> {
        match usize::try_from(number) {
            Ok(place) => self.sent.get(place),
            Err(_) => None,
        }
    }

    /// Whether the call of that number takes a text, and a datagram goes up that is this one.
    fn takes<R: Abort + Wait>(
        &self,
        rt: &R,
        alloc: Global,
        text: &[u8],
        bytes: Vec<u8>,
        number: u64,
        now: u64,
    ) -> bool {
        let mut port = Lookout {
            bytes,
            seen: false,
            failures: 0,
        };
        let handled = serves(rt, alloc, &self.shelf, &self.setup, text, now, &mut port);
        handled == Some(Handled::Delivered(number)) && port.seen
    }

    /// Whether it takes the answer with this line to what was sent, which goes up.
    fn takes_answer<R: Abort + Wait>(
        &self,
        rt: &R,
        alloc: Global,
        sent: &[u8],
        line: &[u8],
        number: u64,
        now: u64,
    ) -> bool {
        let Some(bytes) = gone_up(alloc, sent, line) else {
            return false;
        };
        match response_to(alloc, sent, line) {
            Some(text) => self.takes(rt, alloc, &text, bytes, number, now),
            None => false,
        }
    }

    /// Whether the call of that number takes its answer, which goes up.
    fn answers<R: Abort + Wait>(&self, rt: &R, alloc: Global, number: u64, now: u64) -> bool {
        let line = if number % 2 == 0 { OKAY } else { BUSY };
        match self.sent_for(number) {
            Some(sent) => self.takes_answer(rt, alloc, sent, line, number, now),
            None => false,
        }
    }

    /// Whether every call is carried, also those that a spoilt request opened.
    fn ticks<R: Abort + Wait>(&mut self, rt: &R, now: u64) -> bool {
        let mut well = true;
        for number in 0..self.shelf.count(rt) {
            well = well && carries(rt, &self.shelf, number, &mut self.outbox, now);
        }
        well
    }
}

/// How many calls of a scene get their answers; None where something else goes wrong.
fn answered_in<R: Abort + Wait>(rt: &R, alloc: Global, scene: &mut Scene) -> Option<u64> {
    let mut well = scene.opens_all(rt, alloc);
    let mut count: u64 = 0;
    for number in 0..CALLS {
        let now = number.saturating_mul(PASSING);
        well = well && scene.hears_noise(rt, alloc, now);
        if scene.answers(rt, alloc, number, now) {
            count = count.saturating_add(1);
        }
        well = well && scene.ticks(rt, now);
    }
    if well { Some(count) } else { None }
}

/// How many calls get their answers.
fn answered<R: Abort + Wait>(rt: &R, alloc: Global) -> Option<u64> {
    let mut scene = Scene::new(alloc)?;
    answered_in(rt, alloc, &mut scene)
}

#[test]
fn each_call_gets_its_answer_whatever_else_comes(rt: HostRuntime) {
    holds(
        &rt,
        answered(&rt, rt.alloc()) == Some(CALLS),
        "200 calls in the midst of 10,000 other datagrams",
    );
}
