//! A service without sockets: requests, answers and moments are handed to it, and what it sends, counts and writes down is read.
//! A history is a table of moments.
use crate::outgoing::Outgoing;
use crate::texts::{
    CALLER, CONFIGURATION, Request, answer_text, has, place_of, request_text, tag_of,
};
use proxy_dispatch::Received;
use proxy_service::{RunSettings, Service};
use proxy_threads::call_id;
use service_admission::ServiceState;
use service_files::{DaemonFault, Identity, read_text};
use sip_uri::Hop;
use std::alloc::{Allocator, Global};
use std::process::Abort;
use std::sync::Wait;
use std::time::{Clock, SystemTime};

/// What happens at a moment, or is seen then.
#[derive(Clone, Copy)]
pub enum Turn {
    /// The caller sends this request.
    Asks(Request),
    /// The caller sends this ACK, whose To is that of the answer that was looked at last.
    Acknowledges(Request),
    /// The telephone there answers the request of this method and call that was sent to it last with this status line.
    Answers(Hop, &'static str, &'static str, &'static str),
    /// The telephone there sends the proxy the request of this method and call that it was sent last, as it came.
    Returns(Hop, &'static str, &'static str),
    /// This text comes from there.
    Brings(Hop, &'static str),
    /// Nothing can be sent there from now on.
    Refuses(Option<Hop>),
    /// What is due is done.
    Ticks,
    /// What is due is done, every tenth of a second since this moment.
    Passes(u64),
    /// What was sent so far is not looked at.
    Skips,
    /// What was sent next goes there, begins so, and is of this call.
    Sends(Hop, &'static str, &'static str),
    /// Nothing was sent that was not looked at.
    SendsNothing,
    /// This stands in what was looked at last, or does not.
    Has(&'static str),
    Lacks(&'static str),
    /// The counters have this line.
    Counts(&'static str),
    /// The block that waits first for the journal begins so, but for its time.
    Writes(&'static str),
    /// Nothing waits for the journal.
    WritesNothing,
    /// The control socket asks for the end, within so many seconds.
    Stops(u64),
    /// What is left is written down, as at the end.
    Leaves,
    /// The service stands so.
    Is(ServiceState),
    /// The timer's thread would sleep until this moment.
    Sleeps(u64),
    /// This configuration is read anew, and this comes of it.
    Reloads(&'static [u8], Result<(), DaemonFault>),
    /// So many calls are kept, of so many that were opened.
    Keeps(u64, u64),
    /// Of the calls that are open, from this number on, this is told at the control socket.
    Told(u64, &'static str),
    /// Of the call of this number this is told.
    ToldOf(u64, &'static str),
}

/// A moment in milliseconds, and what happens then.
pub type Moment = (u64, Turn);

/// How a service serves.
#[derive(Clone, Copy)]
pub struct Served {
    pub records: bool,
    pub own_port: bool,
    pub most_calls: u64,
    pub has_journal: bool,
    /// Whether bindings are kept elsewhere, too.
    pub has_store: bool,
}

/// With a journal, and without what an option asks for.
pub const PLAIN: Served = Served {
    records: false,
    own_port: false,
    most_calls: 1_000,
    has_journal: true,
    has_store: false,
};

/// The number of its run.
const NUMBER: u32 = 99;

/// How many seconds the clock may go on while a history is played.
const SLACK: u64 = 30;

/// A service that reads this configuration: its calls have their memory from `alloc`, all else from `heap`.
pub fn service_over<A: Allocator + Copy>(
    alloc: A,
    heap: Global,
    text: &[u8],
    served: Served,
) -> Option<Service<A>> {
    let configuration = read_text(alloc, text, None, NUMBER, false).ok()?;
    let terms = RunSettings {
        identity: Identity::of(configuration.settings.setup()),
        number: NUMBER,
        records: served.records,
        route: None,
        own_port: served.own_port,
        streams: false,
        most_calls: served.most_calls,
        most_bindings: 1_000,
        has_journal: served.has_journal,
        has_store: served.has_store,
        began: 1_700_000_000_000,
        secret: [7; 32],
    };
    Service::new(alloc, heap, configuration, terms).ok()
}

/// A service that reads this configuration.
pub fn service_of(alloc: Global, text: &[u8], served: Served) -> Option<Service> {
    service_over(alloc, alloc, text, served)
}

/// The last datagram of this method and call that was sent to an address.
fn last_sent<'a>(outgoing: &'a Outgoing, to: Hop, method: &str, call: &str) -> Option<&'a [u8]> {
    let mut found = None;
    for sent in outgoing.sent() {
        let bytes = sent.bytes.as_slice();
        if sent.to == to && is_of(bytes, method, call) {
            found = Some(bytes);
        }
    }
    found
}

/// Whether a datagram of a call begins so.
fn is_of(text: &[u8], front: &str, call: &str) -> bool {
    text.starts_with(front.as_bytes()) && call_id(text) == Some(call.as_bytes())
}

/// Seconds since 1970.
fn seconds<R: Clock>(rt: &R) -> u64 {
    match SystemTime::UNIX_EPOCH.elapsed(rt) {
        Ok(passed) => passed.as_secs(),
        Err(_) => 0,
    }
}

/// A service without sockets, what it sent, and what was looked at last.
#[derive(Drop)]
pub struct Played<A: Allocator + Copy = Global> {
    alloc: Global,
    service: Service<A>,
    outgoing: Outgoing,
    /// How many of the datagrams that were sent were looked at.
    seen: usize,
    looked_at: Vec<u8>,
    /// Until when the timer's thread would sleep.
    until: u64,
    /// What waits for the journal and was not looked at.
    blocks: Vec<u8>,
}

impl<A: Allocator + Copy> Played<A> {
    /// A service that reads this configuration, to which nothing has come: its calls have their memory from `alloc`, all else
    /// from `heap`.
    pub fn new(alloc: A, heap: Global, text: &[u8], served: Served) -> Option<Played<A>> {
        Some(Played {
            alloc: heap,
            service: service_over(alloc, heap, text, served)?,
            outgoing: Outgoing::new(heap),
            seen: 0,
            looked_at: Vec::new(heap),
            until: 0,
            blocks: Vec::new(heap),
        })
    }

    // ---- what happens

    /// A datagram comes.
    fn takes<R: Wait + Clock>(&mut self, rt: &R, now: u64, source: Hop, bytes: &[u8]) -> bool {
        let received = Received { bytes, source, now };
        self.service.take(rt, &mut self.outgoing, received);
        true
    }

    /// The caller sends a request.
    fn asks<R: Wait + Clock>(&mut self, rt: &R, now: u64, request: &Request) -> bool {
        match request_text(self.alloc, request, request.tag) {
            Ok(text) => self.takes(rt, now, CALLER, text.as_bytes()),
            Err(_) => false,
        }
    }

    /// The ACK of the answer that was looked at last.
    fn ack_text(&self, ack: &Request) -> Option<String> {
        let tag = tag_of(self.alloc, self.looked_at.as_slice())?;
        request_text(self.alloc, ack, tag.as_str()).ok()
    }

    /// The caller acknowledges the answer that was looked at last.
    fn acknowledges<R: Wait + Clock>(&mut self, rt: &R, now: u64, ack: &Request) -> bool {
        match self.ack_text(ack) {
            Some(text) => self.takes(rt, now, CALLER, text.as_bytes()),
            None => false,
        }
    }

    /// The answer of a telephone to the request of this method and call that was sent to it last.
    fn answer(&self, from: Hop, method: &str, call: &str, line: &str) -> Option<Vec<u8>> {
        let request = last_sent(&self.outgoing, from, method, call)?;
        answer_text(self.alloc, line, request)
    }

    /// A telephone answers.
    fn answers<R: Wait + Clock>(
        &mut self,
        rt: &R,
        now: u64,
        from: Hop,
        asked: (&str, &str),
        line: &str,
    ) -> bool {
        let (method, call) = asked;
        match self.answer(from, method, call, line) {
            Some(text) => self.takes(rt, now, from, text.as_slice()),
            None => false,
        }
    }

    /// A copy of the last datagram of this method and call that was sent to an address.
    fn copy_of(&self, to: Hop, method: &str, call: &str) -> Option<Vec<u8>> {
        let bytes = last_sent(&self.outgoing, to, method, call)?;
        Vec::from_slice(self.alloc, bytes).ok()
    }

    /// A telephone sends the proxy what it was sent.
    fn returns<R: Wait + Clock>(
        &mut self,
        rt: &R,
        now: u64,
        from: Hop,
        method: &str,
        call: &str,
    ) -> bool {
        match self.copy_of(from, method, call) {
            Some(text) => self.takes(rt, now, from, text.as_slice()),
            None => false,
        }
    }

    /// What is due is done, as the timer's thread does it.
    fn ticks<R: Wait + Clock>(&mut self, rt: &R, now: u64) -> bool {
        self.service.tick(rt, &mut self.outgoing, now);
        self.until = self.service.next_look(rt, now);
        true
    }

    /// The same every tenth of a second from one moment to another.
    fn passes<R: Wait + Clock>(&mut self, rt: &R, from: u64, to: u64) -> bool {
        let mut now = from;
        for _ in 0..10_000u32 {
            if now >= to {
                break;
            }
            self.ticks(rt, now);
            now = now.saturating_add(100);
        }
        self.ticks(rt, to)
    }

    fn refuses(&mut self, hop: Option<Hop>) -> bool {
        self.outgoing.refuse(hop);
        true
    }

    fn skips(&mut self) -> bool {
        self.seen = self.outgoing.sent().len();
        true
    }

    fn stops(&mut self, now: u64, seconds: u64) -> bool {
        self.service.drain(now, seconds);
        true
    }

    fn leaves<R: Wait + Clock>(&mut self, rt: &R) -> bool {
        self.service.write_down_left(rt);
        true
    }

    // ---- what is seen

    /// Looks at a text, and says whether there was memory for it.
    fn looks_at(&mut self, text: &[u8]) -> bool {
        self.looked_at.clear();
        self.looked_at.extend_from_slice(text).is_ok()
    }

    /// The datagram that was sent next, if it goes there, begins so, and is of this call.
    fn next_sent(&self, to: Hop, front: &str, call: &str) -> Option<Vec<u8>> {
        let sent = self.outgoing.sent().get(self.seen)?;
        let bytes = sent.bytes.as_slice();
        if sent.to != to || !is_of(bytes, front, call) {
            return None;
        }
        Vec::from_slice(self.alloc, bytes).ok()
    }

    /// Whether that was sent next.
    fn sends(&mut self, to: Hop, front: &str, call: &str) -> bool {
        match self.next_sent(to, front, call) {
            Some(bytes) => {
                self.seen = self.seen.saturating_add(1);
                self.looks_at(bytes.as_slice())
            }
            None => false,
        }
    }

    fn sends_nothing(&self) -> bool {
        self.seen == self.outgoing.sent().len()
    }

    /// Whether the counters have this line.
    fn counts<R: Wait>(&mut self, rt: &R, now: u64, line: &str) -> bool {
        let Ok(text) = self.service.stats(rt, now, Some(4_096)) else {
            return false;
        };
        let Ok(wanted) = format!(in self.alloc; "\n{line}\n") else {
            return false;
        };
        self.looks_at(text.as_slice()) && has(text.as_slice(), wanted.as_bytes())
    }

    /// Takes what waits for the journal.
    fn take_blocks<R: Wait>(&mut self, rt: &R) -> bool {
        let batch = self.service.journal().take(rt);
        self.blocks.extend_from_slice(batch.text.as_slice()).is_ok()
    }

    /// Whether the block that waits first begins so behind its time, which is that of the clock.
    fn writes<R: Wait + Clock>(&mut self, rt: &R, front: &str) -> bool {
        if !self.take_blocks(rt) {
            return false;
        }
        match first_block(self.alloc, self.blocks.as_slice()) {
            Some((time, block, rest)) => {
                self.blocks = rest;
                let now = seconds(rt);
                time <= now
                    && now.saturating_sub(time) <= SLACK
                    && block.starts_with(front.as_bytes())
                    && self.looks_at(block.as_slice())
            }
            None => false,
        }
    }

    /// Whether this is told of the calls that are open, from this number on.
    fn tells<R: Wait>(&self, rt: &R, now: u64, first: u64, text: &str) -> bool {
        let mut told = Vec::new(self.alloc);
        let calls = self.service.calls();
        match calls.append_calls(rt, first, now, &mut told) {
            Ok(()) => told.as_slice() == text.as_bytes(),
            Err(_) => false,
        }
    }

    /// Whether this is told of the call of this number.
    fn tells_of<R: Wait>(&self, rt: &R, now: u64, number: u64, text: &str) -> bool {
        let mut told = Vec::new(self.alloc);
        let calls = self.service.calls();
        match calls.append_call(rt, number, now, &mut told) {
            Ok(()) => told.as_slice() == text.as_bytes(),
            Err(_) => false,
        }
    }

    fn writes_nothing<R: Wait>(&mut self, rt: &R) -> bool {
        self.take_blocks(rt) && self.blocks.is_empty()
    }

    // ---- histories

    /// Whether what happens can happen; None where the turn is something that is seen.
    fn happens<R: Wait + Clock>(&mut self, rt: &R, now: u64, turn: Turn) -> Option<bool> {
        let can = match turn {
            Turn::Asks(request) => self.asks(rt, now, &request),
            Turn::Acknowledges(ack) => self.acknowledges(rt, now, &ack),
            Turn::Answers(from, method, call, line) => {
                self.answers(rt, now, from, (method, call), line)
            }
            Turn::Returns(from, method, call) => self.returns(rt, now, from, method, call),
            Turn::Brings(from, text) => self.takes(rt, now, from, text.as_bytes()),
            Turn::Refuses(hop) => self.refuses(hop),
            Turn::Ticks => self.ticks(rt, now),
            Turn::Passes(from) => self.passes(rt, from, now),
            Turn::Skips => self.skips(),
            Turn::Stops(seconds) => self.stops(now, seconds),
            Turn::Leaves => self.leaves(rt),
            _ => return None,
        };
        Some(can)
    }

    /// Whether a turn goes as it is told.
    fn goes<R: Wait + Clock>(&mut self, rt: &R, now: u64, turn: Turn) -> bool {
        if let Some(can) = self.happens(rt, now, turn) {
            return can;
        }
        match turn {
            Turn::Sends(to, front, call) => self.sends(to, front, call),
            Turn::SendsNothing => self.sends_nothing(),
            Turn::Has(part) => has(self.looked_at.as_slice(), part.as_bytes()),
            Turn::Lacks(part) => !has(self.looked_at.as_slice(), part.as_bytes()),
            Turn::Counts(line) => self.counts(rt, now, line),
            Turn::Writes(front) => self.writes(rt, front),
            Turn::WritesNothing => self.writes_nothing(rt),
            Turn::Is(state) => self.service.is_in(state),
            Turn::Sleeps(until) => self.until == until,
            Turn::Reloads(text, expected) => self.service.reload(rt, text, None) == expected,
            Turn::Keeps(held, opened) => {
                let calls = self.service.calls();
                calls.held(rt) == held && calls.opened(rt) == opened
            }
            Turn::Told(first, text) => self.tells(rt, now, first, text),
            Turn::ToldOf(number, text) => self.tells_of(rt, now, number, text),
            _ => false,
        }
    }

    /// How many turns of a history go as they are told, before one that does not.
    pub fn played<R: Wait + Clock>(&mut self, rt: &R, history: &[Moment]) -> usize {
        for (place, (now, turn)) in history.iter().enumerate() {
            if !self.goes(rt, *now, *turn) {
                return place;
            }
        }
        history.len()
    }
}

/// The number at the front of a text, and what stands behind it and a space.
fn number_at(text: &[u8]) -> Option<(u64, &[u8])> {
    let mut value = 0u64;
    for (place, byte) in text.iter().enumerate() {
        match byte {
            b'0'..=b'9' => {
                value = value
                    .saturating_mul(10)
                    .saturating_add(u64::from(*byte - b'0'));
            }
            _ => return Some((value, text.get(place..)?.strip_prefix(b" ")?)),
        }
    }
    None
}

/// Where the second block of these begins.
fn block_end(blocks: &[u8]) -> usize {
    match place_of(blocks, b"\ncall ") {
        Some(place) => place.saturating_add(1).min(blocks.len()),
        None => blocks.len(),
    }
}

/// The time of the first block, what stands behind it, and the blocks that follow.
fn first_block(alloc: Global, blocks: &[u8]) -> Option<(u64, Vec<u8>, Vec<u8>)> {
    let (first, rest) = blocks.split_at_checked(block_end(blocks))?;
    let (time, said) = number_at(first.strip_prefix(b"call ")?)?;
    let said = Vec::from_slice(alloc, said).ok()?;
    let rest = Vec::from_slice(alloc, rest).ok()?;
    Some((time, said, rest))
}

/// Ends the test where a service does not go as a history tells.
pub fn plays<R: Abort + Wait + Clock>(
    rt: &R,
    alloc: Global,
    served: Served,
    history: &[Moment],
    what: &str,
) {
    plays_by(rt, alloc, CONFIGURATION, served, history, what);
}

/// The same by this configuration.
pub fn plays_by<R: Abort + Wait + Clock>(
    rt: &R,
    alloc: Global,
    text: &[u8],
    served: Served,
    history: &[Moment],
    what: &str,
) {
    let played = match Played::new(alloc, alloc, text, served) {
        Some(mut played) => played.played(rt, history),
        None => usize::MAX,
    };
    assert!(rt; played == history.len(), "{what}: turn {played}");
}
