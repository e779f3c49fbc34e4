//! Requests that may open calls: of which it is asked whether they are admitted, what becomes of them, and what is told then.
use crate::holds::holds;
use crate::outbox::Outbox;
use crate::texts::{SOURCE, setup_of, shelf_of};
use authentication::OwnAnswer;
use call_messages::lines::{CALL_ID, FROM, MARKED, TAGGED, TO, VIA, text_of};
use call_table::Shelf;
use fork_call::{Call, Setup};
use proxy_dispatch::{Admission, Decision, Handled, Opener, Received, SharedCalls, handle};
use sip_text::Message;
use sip_uri::Hop;
use std::alloc::{AllocError, Allocator, Global};
use std::sync::Wait;
use std::sync::atomic::{AtomicU64, Ordering};

/// How often it was asked for a request outside of dialogs, and for one within, and how often it was told that no call was opened.
type Counts = (u64, u64, u64);

/// What admits all, or nothing, and counts.
#[derive(Drop)]
struct Gate {
    /// 0 where it admits nothing.
    open: AtomicU64,
    outside: AtomicU64,
    within: AtomicU64,
    released: AtomicU64,
}

impl Gate {
    fn new() -> Gate {
        Gate {
            open: AtomicU64::new(0),
            outside: AtomicU64::new(0),
            within: AtomicU64::new(0),
            released: AtomicU64::new(0),
        }
    }

    fn counts(&self) -> Counts {
        let outside = self.outside.load(Ordering::SeqCst);
        let within = self.within.load(Ordering::SeqCst);
        let released = self.released.load(Ordering::SeqCst);
        (outside, within, released)
    }
}

impl<A: Allocator + Clone> Admission<A> for Gate {
    fn admits<R: Wait>(&self, _rt: &R, opener: Opener) -> bool {
        let asked = match opener {
            Opener::OutsideDialog | Opener::Registering => &self.outside,
            Opener::WithinDialog => &self.within,
        };
        asked.fetch_add(1, Ordering::SeqCst);
        self.open.load(Ordering::SeqCst) > 0
    }

    fn release<R: Wait>(&self, _rt: &R) {
        self.released.fetch_add(1, Ordering::SeqCst);
    }

    fn decides<R: Wait>(
        &self,
        _rt: &R,
        _alloc: &A,
        _setup: &Setup<A>,
        _request: &Message<A>,
        _source: Hop,
        _now: u64,
    ) -> Result<Decision<A>, AllocError> {
        Ok(Decision::Opens)
    }

    fn has_registrar(&self) -> bool {
        false
    }

    fn registers<R: Wait>(
        &self,
        _rt: &R,
        _alloc: &A,
        _setup: &Setup<A>,
        _request: &Message<A>,
        _source: Hop,
        _now: u64,
    ) -> Result<Option<OwnAnswer<A>>, AllocError> {
        Ok(None)
    }
}

const SEVENTY: &[u8] = b"Max-Forwards: 70";

const CSEQ: &[u8] = b"CSeq: 1 OPTIONS";

/// A request that opens a call.
const ASKED: [&[u8]; 8] = [
    b"OPTIONS sip:bob@example.com SIP/2.0",
    VIA,
    SEVENTY,
    FROM,
    TO,
    CALL_ID,
    CSEQ,
    b"",
];

/// One within a dialog.
const WITHIN: [&[u8]; 8] = [
    b"OPTIONS sip:bob@example.com SIP/2.0",
    VIA,
    SEVENTY,
    FROM,
    b"t: <sip:bob@example.com>;tag=9",
    CALL_ID,
    CSEQ,
    b"",
];

/// One to a user without a location.
const NOBODY: [&[u8]; 8] = [
    b"OPTIONS sip:carol@example.com SIP/2.0",
    VIA,
    SEVENTY,
    FROM,
    TO,
    CALL_ID,
    CSEQ,
    b"",
];

/// One to the proxy itself, and one within a dialog.
const TO_PROXY: [&[u8]; 8] = [
    b"OPTIONS sip:EXAMPLE.com SIP/2.0",
    VIA,
    SEVENTY,
    FROM,
    TO,
    CALL_ID,
    CSEQ,
    b"",
];

const TO_PROXY_WITHIN: [&[u8]; 8] = [
    b"OPTIONS sip:example.com SIP/2.0",
    VIA,
    SEVENTY,
    FROM,
    b"t: <sip:bob@example.com>;tag=9",
    CALL_ID,
    CSEQ,
    b"",
];

/// One that has no key.
const KEYLESS: [&[u8]; 8] = [
    b"OPTIONS sip:bob@example.com SIP/2.0",
    b"v: nonsense",
    SEVENTY,
    FROM,
    TO,
    CALL_ID,
    CSEQ,
    b"",
];

const CANCEL: [&[u8]; 8] = [
    b"CANCEL sip:bob@example.com SIP/2.0",
    VIA,
    SEVENTY,
    FROM,
    TO,
    CALL_ID,
    b"CSeq: 1 CANCEL",
    b"",
];

const ACK: [&[u8]; 8] = [
    b"ACK sip:bob@example.com SIP/2.0",
    VIA,
    SEVENTY,
    FROM,
    TO,
    CALL_ID,
    b"CSeq: 1 ACK",
    b"",
];

const RINGING: [&[u8]; 7] = [b"SIP/2.0 180 Ringing", VIA, FROM, TO, CALL_ID, CSEQ, b""];

const NOISE: [&[u8]; 2] = [b"noise", b""];

/// A datagram of a history: whether requests are admitted then, its lines, what becomes of it, and how often was asked and told
/// since the first.
type Step<'a> = (u64, &'a [&'a [u8]], Handled, Counts);

/// What asks for a call and gets none, what gets one, and what asks for none.
const HISTORY: [Step<'static>; 14] = [
    (0, &ASKED, Handled::TurnedAway, (1, 0, 0)),
    (0, &WITHIN, Handled::TurnedAway, (1, 1, 0)),
    (0, &TO_PROXY, Handled::TurnedAway, (2, 1, 0)),
    (0, &KEYLESS, Handled::Answered(400), (2, 1, 0)),
    (0, &CANCEL, Handled::Answered(481), (2, 1, 0)),
    (0, &ACK, Handled::Dropped, (2, 1, 0)),
    (0, &RINGING, Handled::Dropped, (2, 1, 0)),
    (0, &NOISE, Handled::Dropped, (2, 1, 0)),
    (1, &TO_PROXY, Handled::Answered(200), (3, 1, 1)),
    (1, &TO_PROXY_WITHIN, Handled::Answered(480), (3, 2, 2)),
    (1, &NOBODY, Handled::Answered(480), (4, 2, 3)),
    (1, &ASKED, Handled::Opened(0), (5, 2, 3)),
    // it is the call's
    (0, &ASKED, Handled::Delivered(0), (5, 2, 3)),
    (0, &WITHIN, Handled::Delivered(0), (5, 2, 3)),
];

/// The calls, who admits them, and where datagrams go.
#[derive(Drop)]
struct Scene {
    alloc: Global,
    shelf: Shelf<Call<Global>>,
    gate: Gate,
    outbox: Outbox,
}

impl Scene {
    fn new(alloc: Global) -> Option<Scene> {
        Some(Scene {
            alloc,
            shelf: shelf_of(alloc)?,
            gate: Gate::new(),
            outbox: Outbox::new(alloc),
        })
    }

    /// What becomes of the text of these lines.
    fn becomes<R: Wait>(
        &mut self,
        rt: &R,
        setup: &Setup<Global>,
        lines: &[&[u8]],
    ) -> Option<Handled> {
        let text = text_of(self.alloc, lines)?;
        let received = Received {
            bytes: &text,
            source: SOURCE,
            now: 0,
        };
        let mut calls = SharedCalls::new(&self.shelf);
        let outbox = &mut self.outbox;
        handle(
            rt, self.alloc, &mut calls, setup, &self.gate, received, outbox,
        )
        .ok()
    }

    /// Whether each datagram of the history becomes what it is to become.
    fn plays<R: Wait>(&mut self, rt: &R, setup: &Setup<Global>, steps: &[Step<'_>]) -> bool {
        let mut well = true;
        for step in steps {
            self.gate.open.store(step.0, Ordering::SeqCst);
            let handled = self.becomes(rt, setup, step.1);
            well = well && handled == Some(step.2) && self.gate.counts() == step.3;
        }
        well
    }

    /// Whether these lines were sent last, to where the requests come from.
    fn has_sent(&self, lines: &[&[u8]]) -> bool {
        match text_of(self.alloc, lines) {
            Some(answer) => self.outbox.has_sent(SOURCE, &answer),
            None => false,
        }
    }

    /// Whether a request is answered so by a service, where requests are admitted or not.
    fn answers<R: Wait>(&mut self, rt: &R, open: u64, request: &[&[u8]], answer: &[&[u8]]) -> bool {
        self.gate.open.store(open, Ordering::SeqCst);
        match setup_of(self.alloc) {
            Some(setup) => {
                self.becomes(rt, &setup.for_a_service(), request).is_some() && self.has_sent(answer)
            }
            None => false,
        }
    }
}

/// Whether the history goes so.
fn goes_so<R: Wait>(rt: &R, alloc: Global) -> bool {
    match (Scene::new(alloc), setup_of(alloc)) {
        (Some(mut scene), Some(setup)) => scene.plays(rt, &setup.for_a_service(), &HISTORY),
        _ => false,
    }
}

#[test]
fn what_would_open_a_call_is_admitted_or_turned_away(rt: HostRuntime) {
    let well = goes_so(&rt, rt.alloc());
    holds(&rt, well, "who admits is asked, and told");
}

/// Whether a request is answered so by a service without a call.
fn is_answered<R: Wait>(
    rt: &R,
    alloc: Global,
    open: u64,
    request: &[&[u8]],
    answer: &[&[u8]],
) -> bool {
    match Scene::new(alloc) {
        Some(mut scene) => scene.answers(rt, open, request, answer),
        None => false,
    }
}

const UNAVAILABLE: [&[u8]; 9] = [
    b"SIP/2.0 503 Service Unavailable",
    MARKED,
    FROM,
    TAGGED,
    CALL_ID,
    CSEQ,
    b"Retry-After: 10",
    b"Content-Length: 0",
    b"",
];

const CAPABILITIES: [&[u8]; 10] = [
    b"SIP/2.0 200 OK",
    MARKED,
    FROM,
    TAGGED,
    CALL_ID,
    CSEQ,
    b"Allow: INVITE, ACK, CANCEL, OPTIONS, BYE",
    b"Accept: application/sdp",
    b"Content-Length: 0",
    b"",
];

#[test]
fn a_503_says_when_to_come_again(rt: HostRuntime) {
    let well = is_answered(&rt, rt.alloc(), 0, &ASKED, &UNAVAILABLE);
    holds(&rt, well, "a request that is turned away");
}

#[test]
fn a_service_says_what_it_takes(rt: HostRuntime) {
    let well = is_answered(&rt, rt.alloc(), 1, &TO_PROXY, &CAPABILITIES);
    holds(&rt, well, "an OPTIONS to the proxy itself");
}

/// Whether an OPTIONS to the proxy itself is answered 480 as any request without a target.
fn is_any_request<R: Wait>(rt: &R, alloc: Global) -> bool {
    match (Scene::new(alloc), setup_of(alloc)) {
        (Some(mut scene), Some(setup)) => {
            scene.plays(
                rt,
                &setup,
                &[(1, &TO_PROXY, Handled::Answered(480), (1, 0, 1))],
            )
        }
        _ => false,
    }
}

#[test]
fn another_proxy_takes_it_as_any_request(rt: HostRuntime) {
    let well = is_any_request(&rt, rt.alloc());
    holds(&rt, well, "an OPTIONS to a proxy that is no service");
}
