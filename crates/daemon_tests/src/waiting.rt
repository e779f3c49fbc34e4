//! A REGISTER whose change is to wait for a store, while memory is refused: it waits as a whole, or nothing of it is under way.
use crate::holds::holds;
use crate::played::{Moment, PLAIN, Played, Served, Turn};
use crate::texts::{CALLER, CONFIGURATION};
use failing_allocator::Refusing;
use std::alloc::Global;
use std::sync::Wait;
use std::time::Clock;

/// A service that keeps bindings elsewhere, too.
const STORING: Served = Served {
    has_store: true,
    ..PLAIN
};

/// No datagram grows something so often.
const MOST_GROWTHS: u64 = 100_000;

/// A service whose memory may be refused.
type Scarce<'a> = Played<&'a Refusing<Global>>;

/// Whether a service goes as a history tells.
fn goes<R: Wait + Clock>(rt: &R, service: &mut Scarce<'_>, history: &[Moment]) -> bool {
    service.played(rt, history) == history.len()
}

const REGISTER: &str =
    "REGISTER sip:example.com SIP/2.0\r\nVia: SIP/2.0/UDP 192.0.2.1;branch=z9hG4bKr1\r\nMax-Forwards: 70\r\nFrom: <sip:dan@example.com>;tag=1\r\nTo: <sip:dan@example.com>\r\nCall-ID: r1\r\nCSeq: 1 REGISTER\r\nContact: <sip:dan@192.0.2.1>;expires=600\r\nContent-Length: 0\r\n\r\n";

const COMES: &[Moment] = &[(0, Turn::Brings(CALLER, REGISTER))];

/// It waits, and has its room.
const WAITS: &[Moment] = &[
    (0, Turn::SendsNothing),
    (0, Turn::Counts("forkproxy_bindings 1")),
    (0, Turn::Counts("forkproxy_no_memory_total 0")),
];

/// It has no room.
const HAS_NONE: &[Moment] = &[(0, Turn::Counts("forkproxy_bindings 0"))];

/// It is as one that was lost on the way.
const LOST: &[Moment] = &[(0, Turn::Counts("forkproxy_no_memory_total 1"))];

/// There is no place for it among those that wait.
const REFUSED: &[Moment] = &[(0, Turn::Sends(CALLER, "SIP/2.0 500 ", "r1"))];

/// It comes again, and waits.
const AGAIN: &[Moment] = &[
    (1_000, Turn::SendsNothing),
    (1_000, Turn::Brings(CALLER, REGISTER)),
    (1_000, Turn::SendsNothing),
    (1_000, Turn::Counts("forkproxy_bindings 1")),
];

/// What a REGISTER comes to of which one growth is refused.
#[derive(Clone, Copy, PartialEq, Eq)]
enum Came {
    /// There is no such growth.
    Whole,
    /// It was done without.
    Unneeded,
    Lost,
    Refused,
}

/// What it came to, where a growth was refused.
fn what_came<R: Wait + Clock>(rt: &R, service: &mut Scarce<'_>) -> Came {
    if !goes(rt, service, HAS_NONE) {
        Came::Unneeded
    } else if goes(rt, service, LOST) {
        Came::Lost
    } else {
        Came::Refused
    }
}

/// Whether the service stands behind that as it should.
fn stands<R: Wait + Clock>(rt: &R, service: &mut Scarce<'_>, came: Came) -> bool {
    match came {
        Came::Whole | Came::Unneeded => goes(rt, service, WAITS),
        Came::Lost => goes(rt, service, AGAIN),
        Came::Refused => goes(rt, service, REFUSED) && goes(rt, service, AGAIN),
    }
}

/// What a REGISTER comes to of which the growth of this number is refused; None where the service does not go as it should.
fn refused_at<R: Wait + Clock>(rt: &R, alloc: Global, growth: u64) -> Option<Came> {
    let heap = Refusing::new(alloc);
    let mut service = Played::new(&heap, alloc, CONFIGURATION, STORING)?;
    heap.refuse_one(growth);
    let comes = goes(rt, &mut service, COMES);
    let is_refused = heap.refused() > 0;
    heap.refuse_none();
    let came = if is_refused {
        what_came(rt, &mut service)
    } else {
        Came::Whole
    };
    if comes && stands(rt, &mut service, came) {
        Some(came)
    } else {
        None
    }
}

/// How often a REGISTER was lost, and how often it was refused, as growth 1, 2, 3 and so on of it was refused, until none was; None where a
/// service does not go as it should.
fn each_refused<R: Wait + Clock>(rt: &R, alloc: Global) -> Option<(u64, u64)> {
    let mut lost = 0u64;
    let mut refused = 0u64;
    for growth in 1..MOST_GROWTHS {
        match refused_at(rt, alloc, growth)? {
            Came::Whole => return Some((lost, refused)),
            Came::Unneeded => {}
            Came::Lost => lost = lost.saturating_add(1),
            Came::Refused => refused = refused.saturating_add(1),
        }
    }
    None
}

#[test]
fn a_change_that_lacks_memory_is_not_under_way(rt: HostRuntime) {
    let tally = each_refused(&rt, rt.alloc());
    holds(&rt, tally.is_some(), "each growth of a REGISTER");
    if let Some((lost, refused)) = tally {
        holds(&rt, lost > 0, "it is lost at some");
        holds(&rt, refused > 0, "it finds no place at some");
    }
}
