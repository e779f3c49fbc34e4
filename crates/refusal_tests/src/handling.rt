//! Datagrams that are handled, and calls that are carried after each, while memory is refused.
ghost use Rattle.std.specs.Prelude.{◌≡◌};

use crate::answers::discard;
use crate::calls::set_up;
use crate::plays::plays;
use crate::sources::Alloc;
use call_messages::one_target::{ACK, CALLER, CANCEL, INVITE, OPTIONS, OWN_ACK, SETUP, TARGET};
use call_table::Shelf;
use failing_allocator::{Attempt, Heap, Play, Repeated};
use fork_call::{Call, Datagram, Port, Setup, carry};
use proxy_dispatch::{Handled, Received, SharedCalls, Unlimited, handle};
use sip_uri::Hop;
use std::alloc::Allocator;
use std::sync::Wait;

/// The 404 of the target, for call 0.
const NOT_FOUND: &[u8] = b"SIP/2.0 404 Not Found\r\n\
Via: SIP/2.0/UDP 192.0.2.9:5060;branch=z9hG4bK8c31e71e0ddbf1a0e56f5f0279990857.7.0.0\r\n\
v: SIP/2.0/UDP 192.0.2.1:5060;branch=z9hG4bKa;rport=40000;received=192.0.2.1\r\n\
f: <sip:alice@example.com>;tag=1\r\n\
t: <sip:bob@example.com>;tag=9\r\n\
i: c1\r\n\
CSeq: 1 OPTIONS\r\n\
l: 0\r\n\
\r\n";

/// A response, and a request, whose body is too short.
const SHORT_RESPONSE: &[u8] = b"SIP/2.0 486 Busy Here\r\n\
Via: SIP/2.0/UDP 192.0.2.9:5060;branch=z9hG4bK8c31e71e0ddbf1a0e56f5f0279990857.7.0.0\r\n\
v: SIP/2.0/UDP 192.0.2.1:5060;branch=z9hG4bKa;rport=40000;received=192.0.2.1\r\n\
f: <sip:alice@example.com>;tag=1\r\n\
t: <sip:bob@example.com>;tag=9\r\n\
i: c1\r\n\
CSeq: 1 OPTIONS\r\n\
l: 5\r\n\
\r\nabcd";

const SHORT_REQUEST: &[u8] = b"OPTIONS sip:bob@example.com SIP/2.0\r\n\
v: SIP/2.0/UDP 192.0.2.1:5060;branch=z9hG4bKb;rport\r\n\
Max-Forwards: 70\r\n\
f: <sip:alice@example.com>;tag=1\r\n\
t: <sip:bob@example.com>\r\n\
i: c1\r\n\
CSeq: 1 OPTIONS\r\n\
l: 5\r\n\
\r\nabcd";

const UNKNOWN: &[u8] = b"OPTIONS sip:eve@example.com SIP/2.0\r\n\
v: SIP/2.0/UDP 192.0.2.1:5060;branch=z9hG4bKc;rport\r\n\
Max-Forwards: 70\r\n\
f: <sip:alice@example.com>;tag=1\r\n\
t: <sip:eve@example.com>\r\n\
i: c1\r\n\
CSeq: 1 OPTIONS\r\n\
l: 0\r\n\
\r\n";

const STRAY_ACK: &[u8] = b"ACK sip:x@192.0.2.7 SIP/2.0\r\n\
v: SIP/2.0/UDP 192.0.2.1:5060;branch=z9hG4bKd;rport\r\n\
Max-Forwards: 70\r\n\
f: <sip:alice@example.com>;tag=1\r\n\
t: <sip:x@192.0.2.7>;tag=5\r\n\
i: c1\r\n\
CSeq: 1 ACK\r\n\
l: 0\r\n\
\r\n";

/// What comes, from where, what becomes of it, and how many datagrams were sent once its call was carried.
type Packet = (&'static [u8], Hop, Handled, u64);

/// An OPTIONS request, and datagrams that no call takes.
const ASKED: &[Packet] = &[
    (OPTIONS, CALLER, Handled::Opened(0), 1),
    (OPTIONS, CALLER, Handled::Delivered(0), 1),
    (SHORT_RESPONSE, TARGET, Handled::Dropped, 1),
    (NOT_FOUND, TARGET, Handled::Delivered(0), 2),
    (SHORT_REQUEST, CALLER, Handled::Answered(400), 3),
    (UNKNOWN, CALLER, Handled::Answered(480), 4),
    (STRAY_ACK, CALLER, Handled::Forwarded, 5),
];

/// The 180 of the target, its 200 to the CANCEL, and its 487.
const RINGING: &[u8] = b"SIP/2.0 180 Ringing\r\n\
Via: SIP/2.0/UDP 192.0.2.9:5060;branch=z9hG4bK8c31e71e0ddbf1a0e56f5f0279990857.7.0.0\r\n\
v: SIP/2.0/UDP 192.0.2.1:5060;branch=z9hG4bKa;rport=40000;received=192.0.2.1\r\n\
f: <sip:alice@example.com>;tag=1\r\n\
t: <sip:bob@example.com>;tag=9\r\n\
i: c1\r\n\
CSeq: 1 INVITE\r\n\
l: 0\r\n\
\r\n";

const CANCEL_TAKEN: &[u8] = b"SIP/2.0 200 OK\r\n\
Via: SIP/2.0/UDP 192.0.2.9:5060;branch=z9hG4bK8c31e71e0ddbf1a0e56f5f0279990857.7.0.0\r\n\
f: <sip:alice@example.com>;tag=1\r\n\
t: <sip:bob@example.com>;tag=9\r\n\
i: c1\r\n\
CSeq: 1 CANCEL\r\n\
l: 0\r\n\
\r\n";

const TERMINATED: &[u8] = b"SIP/2.0 487 Request Terminated\r\n\
Via: SIP/2.0/UDP 192.0.2.9:5060;branch=z9hG4bK8c31e71e0ddbf1a0e56f5f0279990857.7.0.0\r\n\
v: SIP/2.0/UDP 192.0.2.1:5060;branch=z9hG4bKa;rport=40000;received=192.0.2.1\r\n\
f: <sip:alice@example.com>;tag=1\r\n\
t: <sip:bob@example.com>;tag=9\r\n\
i: c1\r\n\
CSeq: 1 INVITE\r\n\
l: 0\r\n\
\r\n";

/// An INVITE that the caller cancels before the target rings.
const CANCELLED: &[Packet] = &[
    (INVITE, CALLER, Handled::Opened(0), 2),
    (CANCEL, CALLER, Handled::Delivered(0), 3),
    (RINGING, TARGET, Handled::Delivered(0), 5),
    (CANCEL_TAKEN, TARGET, Handled::Delivered(0), 5),
    (TERMINATED, TARGET, Handled::Delivered(0), 7),
    (OWN_ACK, CALLER, Handled::Delivered(0), 7),
    (ACK, CALLER, Handled::Delivered(0), 7),
];

/// A port that counts what is sent.
#[derive(Drop)]
struct Counting {
    sends: u64,
}

impl Port for Counting {
    ghost count = { λ _. 0 };

    fn send<A: Allocator>(&mut self, _datagram: &Datagram<A>) -> bool {
        self.sends = self.sends.saturating_add(1);
        true
    }

    fn failures(&self) -> u64 {
        0
    }
}

/// The calls that are open.
type Calls<'a> = Shelf<Call<Alloc<'a>>, Alloc<'a>>;

/// What takes datagrams.
#[derive(Drop)]
struct Proxy<'s, 'a, R> {
    rt: &'s R,
    scarce: Alloc<'a>,
    shelf: &'s Calls<'a>,
    setup: &'s Setup<Alloc<'a>>,
    port: Counting,
    packet: &'static [u8],
    source: Hop,
    /// What becomes of the packet.
    wanted: Handled,
    /// Whether call 0 is carried, and no datagram handled.
    carrying: bool,
}

/// What a call shows of itself: whether it was carried, where that was asked, how many events were posted to it, and when
/// something is due.
#[derive(Clone, Copy, PartialEq, Eq)]
struct Shown {
    is_carried: bool,
    events: usize,
    due: Option<u64>,
}

fn look_at(call: &Call<Alloc<'_>>, is_carried: bool) -> Shown {
    Shown {
        is_carried,
        events: call.book().history().len(),
        due: call.due(),
    }
}

/// Carries a call, or looks at it alone.
fn visit(call: &mut Call<Alloc<'_>>, port: &mut Counting, carries: bool) -> Shown
    ensures { call.new.opened.number ≡ call.old.opened.number }
{
    if carries {
        let is_carried = carry(call, port, 0).is_ok();
        look_at(call, is_carried)
    } else {
        look_at(call, true)
    }
}

/// What call 0 shows, if it is open, and carried first where that is asked.
fn shows<R: Wait>(rt: &R, shelf: &Calls<'_>, port: &mut Counting, carries: bool) -> Option<Shown> {
    shelf.with(rt, 0, |call| visit(call, port, carries))
}

/// Call 0 is carried.
fn carries<R: Wait>(rt: &R, shelf: &Calls<'_>, port: &mut Counting) -> Attempt {
    match shows(rt, shelf, port, true) {
        Some(Shown { is_carried, .. }) => {
            if is_carried {
                Attempt::Right
            } else {
                Attempt::NoMemory
            }
        }
        None => Attempt::Wrong,
    }
}

impl<R: Wait> Proxy<'_, '_, R> {
    /// What becomes of the datagram, where that is not refused.
    fn handled(&mut self) -> Option<Handled> {
        let received = Received {
            bytes: self.packet,
            source: self.source,
            now: 0,
        };
        handle(
            self.rt,
            self.scarce,
            &mut SharedCalls::new(self.shelf),
            self.setup,
            &Unlimited,
            received,
            &mut self.port,
        )
        .ok()
    }

    /// The datagram is handled; where that is refused nothing is sent, and the call is as it was, or not open.
    fn handles(&mut self) -> Attempt {
        let sends = self.port.sends;
        let before = shows(self.rt, self.shelf, &mut self.port, false);
        match self.handled() {
            Some(handled) => Attempt::of(handled == self.wanted),
            None => {
                let after = shows(self.rt, self.shelf, &mut self.port, false);
                Attempt::failed(self.port.sends == sends && after == before)
            }
        }
    }
}

impl<R: Wait> Repeated for Proxy<'_, '_, R> {
    fn attempt(&mut self) -> Attempt {
        if self.carrying {
            carries(self.rt, self.shelf, &mut self.port)
        } else {
            self.handles()
        }
    }
}

/// Datagrams that come one after another; call 0 is carried after each.
#[derive(Drop)]
struct Packets<'r, R> {
    rt: &'r R,
    list: &'static [Packet],
}

/// Whether a datagram becomes what it is to become, and so many were sent once its call was carried.
fn is_handled<R: Wait>(heap: Heap<'_>, proxy: &mut Proxy<'_, '_, R>, packet: Packet) -> bool {
    let (text, source, wanted, sends) = packet;
    proxy.packet = text;
    proxy.source = source;
    proxy.wanted = wanted;
    proxy.carrying = false;
    let is_right = heap.insist(proxy);
    proxy.carrying = true;
    is_right && heap.insist(proxy) && proxy.port.sends == sends
}

/// Whether that is so of each datagram.
fn all_handled<R: Wait>(heap: Heap<'_>, proxy: &mut Proxy<'_, '_, R>, list: &[Packet]) -> bool {
    let mut well = true;
    for packet in list {
        well = well && is_handled(heap, proxy, *packet);
    }
    well
}

/// Whether it is so with this configuration, where no call is open yet.
fn are_handled<'a, R: Wait>(
    heap: Heap<'a>,
    packets: &Packets<'_, R>,
    setup: &Setup<Alloc<'a>>,
    shelf: &Calls<'a>,
) -> bool {
    let mut proxy = Proxy {
        rt: packets.rt,
        scarce: heap.scarce,
        shelf,
        setup,
        port: Counting { sends: 0 },
        packet: OPTIONS,
        source: CALLER,
        wanted: Handled::Dropped,
        carrying: false,
    };
    all_handled(heap, &mut proxy, packets.list)
}

/// Whether it is so with this configuration.
fn start<'a, R: Wait>(heap: Heap<'a>, packets: &Packets<'_, R>, setup: &Setup<Alloc<'a>>) -> bool {
    // (a new shelf grows nothing)
    let shelf = Shelf::new(heap.scarce);
    let well = match &shelf {
        Ok(shelf) => are_handled(heap, packets, setup, shelf),
        Err(_) => false,
    };
    discard(shelf);
    well
}

impl<R: Wait> Play for Packets<'_, R> {
    fn play(&self, heap: Heap<'_>) -> bool {
        let setup = set_up(heap.ample, SETUP);
        let well = match &setup {
            Ok(setup) => start(heap, self, setup),
            Err(_) => false,
        };
        discard(setup);
        well
    }
}

/// Datagrams, how many of their growths are done without, and what they are called. Each request that is marked gives the memory back
/// in which nothing stands, of its text and of the places in it, and keeps it where a smaller block is refused.
type Row = (&'static [Packet], u64, &'static str);

const LISTS: &[Row] = &[
    (ASKED, 8, "an OPTIONS request, and strays"),
    (CANCELLED, 4, "an INVITE that is cancelled"),
];

/// They stand in a function of their own: a proof reads a constant wherever it is named, once for each call beside it.
fn lists() -> &'static [Row] {
    LISTS
}

#[test]
fn datagrams_are_handled(rt: HostRuntime) {
    for &(list, without, what) in lists() {
        let packets = Packets { rt: &rt, list };
        plays(&rt, &packets, without, what);
    }
}
