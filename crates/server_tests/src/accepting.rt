//! Four targets of a call ring, and two of them accept at the same time, each before a thread of its own: both 200s go up, and
//! each target that still rings gets its CANCEL (RFC 3261 section 16.7 steps 5 and 10). And a request that comes before two threads
//! at the same time opens one call, which the other thread's request is for (section 17.2.3).
ghost use denote.Param.Send.{IsSync};
ghost use Rattle.server_tests.specs.contracts.accepting.Desk.{the_row as desk_row};
ghost use Rattle.std.specs.Prelude.{◌≡◌};

use crate::holds::holds;
use call_table::Shelf;
use fork_call::{Call, Cause, Datagram, Port, Setup, carry};
use fork_context::State;
use proxy_dispatch::{Handled, Received, SharedCalls, Unlimited, handle};
use sip_uri::{Hop, Transport};
use sockets::is_shared;
use std::alloc::{Allocator, Global};
use std::process::Abort;
use std::sync::Wait;
use std::sync::atomic::{AtomicU64, Ordering};
use std::thread;
use std::thread::{Threads, join};

/// How often each two of the targets accept: 2,004 calls in all.
const ROUNDS: u32 = 167;

/// How many targets ring.
const TARGETS: u16 = 4;

/// How often a thread looks for the other one before it goes on alone.
const LOOKS: u32 = 1_000;

/// Where the datagrams come from.
const SOURCE: Hop = Hop {
    addr: [192, 0, 2, 1],
    port: 5060,
    transport: Transport::Udp,
};

/// What the proxy is set up with: four locations of one user, all tried at once.
const SETUP: &[u8] = b"own 192.0.2.9 5060\ninstance 7\ndomain example.com\n\
location bob 1000 sip:bob@192.0.2.4\nlocation bob 1000 sip:bob@192.0.2.5\n\
location bob 1000 sip:bob@192.0.2.6\nlocation bob 1000 sip:bob@192.0.2.7\n";

/// The caller's INVITE.
const INVITE: &[u8] = b"INVITE sip:bob@example.com SIP/2.0\r\n\
v: SIP/2.0/UDP 192.0.2.1:5060;branch=z9hG4bKa\r\n\
Max-Forwards: 70\r\n\
f: <sip:alice@example.com>;tag=1\r\n\
t: <sip:bob@example.com>\r\n\
i: c1\r\n\
CSeq: 1 INVITE\r\n\
l: 0\r\n\
\r\n";

/// The start lines of what the targets answer.
const RINGING: &[u8] = b"SIP/2.0 180 Ringing\r\n";

const OKAY: &[u8] = b"SIP/2.0 200 OK\r\n";

const TERMINATED: &[u8] = b"SIP/2.0 487 Request Terminated\r\n";

/// The Via line that the INVITE goes out with, up to the number of the target.
const BRANCH: &[u8] =
    b"Via: SIP/2.0/UDP 192.0.2.9:5060;branch=z9hG4bK8c31e71e0ddbf1a0e56f5f0279990857.7.0.";

/// What stands behind it in each answer.
const REST: &[u8] = b"\r\nv: SIP/2.0/UDP 192.0.2.1:5060;branch=z9hG4bKa\r\n\
f: <sip:alice@example.com>;tag=1\r\n\
t: <sip:bob@example.com>;tag=9\r\n\
i: c1\r\n\
CSeq: 1 INVITE\r\n\
l: 0\r\n\
\r\n";

// ---- what is sent

/// A port in memory that counts requests, CANCELs by target, and the 200s that go up.
#[derive(Drop)]
struct Tally {
    requests: u32,
    cancels: [u32; 4],
    accepted: u32,
    failures: u64,
}

impl Tally {
    /// Nothing was sent.
    fn new() -> Tally {
        Tally {
            requests: 0,
            cancels: [0; 4],
            accepted: 0,
            failures: 0,
        }
    }

    /// A request goes to a target.
    fn note_request(&mut self)
        ensures { self.new.failures ≡ self.old.failures }
    {
        self.requests = self.requests.saturating_add(1);
    }

    /// A CANCEL goes to that target.
    fn note_cancel(&mut self, n: u16)
        ensures { self.new.failures ≡ self.old.failures }
    {
        if let Some(count) = self.cancels.get_mut(usize::from(n)) {
            *count = count.saturating_add(1);
        }
    }

    /// An answer goes up.
    fn note_answer(&mut self, bytes: &[u8])
        ensures { self.new.failures ≡ self.old.failures }
    {
        if bytes.starts_with(b"SIP/2.0 200 ") {
            self.accepted = self.accepted.saturating_add(1);
        }
    }

    /// How many CANCELs went to that target.
    fn cancels_to(&self, n: u16) -> u32 {
        match self.cancels.get(usize::from(n)) {
            Some(count) => *count,
            None => 0,
        }
    }
}

impl Port for Tally {
    ghost count = { λ tally. tally.failures };

    fn send<A: Allocator>(&mut self, datagram: &Datagram<A>) -> bool {
        match datagram.cause {
            Cause::Cancel(n) => self.note_cancel(n),
            Cause::Answer => self.note_answer(&datagram.bytes),
            Cause::Request(_) => self.note_request(),
            Cause::Ack(_) | Cause::CancelOk => {}
        }
        true
    }

    fn failures(&self) -> u64 {
        self.failures
    }
}

// ---- the proxy

/// Carries a call, and says whether that was not refused memory.
fn is_carried<R: Abort>(rt: &R, call: &mut Call<Global>, tally: &mut Tally) -> bool
    ensures { call.new.opened.number ≡ call.old.opened.number }
{
    let number = call.number();
    let carried = carry(call, tally, 0);
    assert!(rt; call.number() == number, "a call keeps its number");
    carried.is_ok()
}

/// Whether a branch of a call has ended.
fn has_ended(call: &Call<Global>, n: u16) -> bool {
    match call.book().context().look(n) {
        Some(view) => matches!(view.row.state, State::Ended(_)),
        None => false,
    }
}

/// Whether each branch of a call has ended.
fn have_ended(call: &Call<Global>) -> bool {
    let mut well = true;
    for n in 0..TARGETS {
        well = well && has_ended(call, n);
    }
    well
}

/// Takes datagrams, from several threads at once.
trait Taking {
    /// Whether a call takes the datagram or is opened by it, and is carried then.
    fn takes<R: Abort + Wait>(&self, rt: &R, text: &[u8], tally: &mut Tally) -> bool;
}

/// Calls, and what they are set up by.
#[derive(Drop)]
struct Desk {
    alloc: Global,
    calls: Shelf<Call<Global>>,
    setup: Setup<Global>,
}

impl Taking for Desk {
    fn takes<R: Abort + Wait>(&self, rt: &R, text: &[u8], tally: &mut Tally) -> bool {
        let received = Received {
            bytes: text,
            source: SOURCE,
            now: 0,
        };
        let mut calls = SharedCalls::new(&self.calls);
        let setup = &self.setup;
        match handle(
            rt, self.alloc, &mut calls, setup, &Unlimited, received, tally,
        ) {
            Ok(Handled::Opened(number) | Handled::Delivered(number)) => {
                self.calls
                    .with(rt, number, |call| is_carried(rt, call, tally))
                    == Some(true)
            }
            Ok(_) | Err(_) => false,
        }
    }
}

impl Desk {
    /// Whether each branch of the first call has ended.
    fn has_ended<R: Wait>(&self, rt: &R) -> bool {
        self.calls.with(rt, 0, |call| have_ended(call)) == Some(true)
    }
}

// ---- a call

/// What that target answers.
fn answer_of(alloc: Global, start: &[u8], n: u16) -> Option<Vec<u8>> {
    let digit = b"0123".get(usize::from(n))?;
    let mut text = Vec::from_slice(alloc, start).ok()?;
    text.extend_from_slice(BRANCH).ok()?;
    text.push(*digit).ok()?;
    text.extend_from_slice(REST).ok()?;
    Some(text)
}

/// Whether that target's answer is taken.
fn answers<R: Abort + Wait>(rt: &R, desk: &Desk, start: &[u8], n: u16, tally: &mut Tally) -> bool {
    match answer_of(desk.alloc, start, n) {
        Some(text) => desk.takes(rt, &text, tally),
        None => false,
    }
}

/// A desk with no call.
fn idle(alloc: Global) -> Option<Desk> {
    Some(Desk {
        alloc,
        calls: Shelf::new(alloc).ok()?,
        setup: Setup::read(alloc, SETUP).ok()?,
    })
}

/// A desk with one call, whose four targets ring. None of them was cancelled.
fn ringing<R: Abort + Wait>(rt: &R, alloc: Global) -> Option<Desk> {
    let desk = idle(alloc)?;
    let mut tally = Tally::new();
    let mut well = desk.takes(rt, INVITE, &mut tally);
    for n in 0..TARGETS {
        well = well && answers(rt, &desk, RINGING, n, &mut tally);
    }
    if well && tally.cancels == [0; 4] {
        Some(desk)
    } else {
        None
    }
}

/// Waits a bounded time until both threads are here.
fn meets(here: &AtomicU64) {
    here.fetch_add(1, Ordering::SeqCst);
    for _ in 0..LOOKS {
        if here.load(Ordering::SeqCst) == 2 {
            return;
        }
        thread::yield_now();
    }
}

/// What is sent for that datagram, where a call takes it.
fn sent_for<T: Taking, R: Abort + Wait>(
    rt: &R,
    desk: &T,
    here: &AtomicU64,
    text: &[u8],
) -> Option<Tally> {
    let mut tally = Tally::new();
    meets(here);
    if desk.takes(rt, text, &mut tally) {
        Some(tally)
    } else {
        None
    }
}

/// What is sent for two datagrams that come at the same time.
fn sent_at_once<T: Taking + Sync, R: Threads + Abort + Wait + Sync>(
    rt: &R,
    desk: &T,
    first: &[u8],
    second: &[u8],
) -> (Option<Tally>, Option<Tally>) {
    let here = AtomicU64::new(0);
    join(
        rt,
        || sent_for(rt, desk, &here, first),
        || sent_for(rt, desk, &here, second),
    )
}

/// That threads may share a desk.
fn desk_is_shared(desk: &Desk)
    ensures { IsSync desk_row }
{
    is_shared(desk);
}

/// Whether both 200s of these two went up, one of the two was not cancelled and the other at most once, and each other target
/// was cancelled once.
fn is_right(one: &Tally, other: &Tally, pair: (u16, u16)) -> bool {
    let mut well = one.accepted.saturating_add(other.accepted) == 2;
    let mut late = 0u32;
    for n in 0..TARGETS {
        let count = one.cancels_to(n).saturating_add(other.cancels_to(n));
        if n == pair.0 || n == pair.1 {
            late = late.saturating_add(count);
        } else {
            well = well && count == 1;
        }
    }
    well && late <= 1
}

/// Whether the branches of the other targets end as these answer the CANCEL, and none is left.
fn end<R: Abort + Wait>(rt: &R, desk: &Desk, pair: (u16, u16)) -> bool {
    let mut tally = Tally::new();
    let mut well = !desk.has_ended(rt);
    for n in 0..TARGETS {
        if n != pair.0 && n != pair.1 {
            well = well && answers(rt, desk, TERMINATED, n, &mut tally);
        }
    }
    well && tally.cancels == [0; 4] && desk.has_ended(rt)
}

/// Whether all is well where these two accept at the same time.
fn accept<R: Threads + Abort + Wait + Sync>(
    rt: &R,
    alloc: Global,
    pair: (u16, u16),
) -> Option<bool> {
    let desk = ringing(rt, alloc)?;
    let first = answer_of(alloc, OKAY, pair.0)?;
    let second = answer_of(alloc, OKAY, pair.1)?;
    desk_is_shared(&desk);
    let (one, other) = sent_at_once(rt, &desk, &first, &second);
    Some(is_right(&one?, &other?, pair) && end(rt, &desk, pair))
}

/// How many requests go out where two threads take the INVITE at the same time.
fn requests_for_two<R: Threads + Abort + Wait + Sync>(rt: &R, alloc: Global) -> Option<u32> {
    let desk = idle(alloc)?;
    desk_is_shared(&desk);
    let (one, other) = sent_at_once(rt, &desk, INVITE, INVITE);
    Some(one?.requests.saturating_add(other?.requests))
}

/// Two of the targets, in each order.
const PAIRS: [(u16, u16); 12] = [
    (0, 1),
    (0, 2),
    (0, 3),
    (1, 0),
    (1, 2),
    (1, 3),
    (2, 0),
    (2, 1),
    (2, 3),
    (3, 0),
    (3, 1),
    (3, 2),
];

#[test]
fn who_still_rings_is_cancelled(rt: HostRuntime) {
    for _ in 0..ROUNDS {
        for pair in PAIRS {
            holds(
                &rt,
                accept(&rt, rt.alloc(), pair) == Some(true),
                "two of four accept at the same time",
            );
        }
    }
}

#[test]
fn what_comes_twice_at_once_opens_one_call(rt: HostRuntime) {
    for _ in 0..2_000 {
        holds(
            &rt,
            requests_for_two(&rt, rt.alloc()) == Some(u32::from(TARGETS)),
            "each target gets one request",
        );
    }
}
