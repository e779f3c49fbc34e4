//! A service that is told to end while another thread hands it a datagram.
ghost use denote.Param.Send.{IsSync};
ghost use Rattle.daemon_tests.specs.contracts.racing.Shared.{the_row as shared_row};

use crate::holds::holds;
use crate::outgoing::Outgoing;
use crate::played::{PLAIN, service_of};
use crate::texts::{BOB, CALLER, CONFIGURATION, INVITE, answer_text, request_text};
use fork_call::{Datagram, Port};
use proxy_dispatch::Received;
use proxy_service::Service;
use service_admission::ServiceState;
use sip_uri::Hop;
use std::alloc::{Allocator, Global};
use std::hint::spin_loop;
use std::sync::Wait;
use std::sync::atomic::{AtomicU64, Ordering};
use std::test::Fail;
use std::thread::{Threads, join, yield_now};
use std::time::Clock;

/// How often each is tried.
const TRIES: u32 = 200;

/// By how many turns of a loop the end comes later from one try to the next: so it falls into each part of the handling of an INVITE.
const TURNS: u32 = 100;

/// How often a thread looks at most whether the other one is there.
const WAITS: u32 = 100_000;

/// How far two threads have come, so that both are at work at the same time: the one that ends the service is there; the datagram is being
/// handed over; all is done. Before that it is 0.
const THERE: u64 = 1;

const COMING: u64 = 2;

const DONE: u64 = 3;

/// How often the thread that keeps the time looks at most.
const LOOKS: u32 = 10_000_000;

/// When the datagram comes, and when the thread that keeps the time looks, in milliseconds: the two seconds in which a service answers that
/// it ends are over by then.
const COMES: u64 = 1_000;

const LOOKED: u64 = 5_000;

/// What two threads do with a service.
trait Raced {
    /// Hands it a datagram that comes from there.
    fn hands<R: Wait + Clock, P: Port>(&self, rt: &R, port: &mut P, source: Hop, bytes: &[u8]);

    /// Tells it to end within a minute.
    fn begins_end(&self);

    /// Looks as the thread that keeps the time does.
    fn looks<R: Wait>(&self, rt: &R);

    fn has_ended(&self) -> bool;
}

/// A service that two threads have.
#[derive(Drop)]
struct Shared {
    service: Service,
}

impl Raced for Shared {
    fn hands<R: Wait + Clock, P: Port>(&self, rt: &R, port: &mut P, source: Hop, bytes: &[u8]) {
        let received = Received {
            bytes,
            source,
            now: COMES,
        };
        self.service.take(rt, port, received);
    }

    fn begins_end(&self) {
        self.service.drain(COMES, 60);
    }

    fn looks<R: Wait>(&self, rt: &R) {
        self.service.next_look(rt, LOOKED);
    }

    fn has_ended(&self) -> bool {
        self.service.is_in(ServiceState::Ended)
    }
}

/// A port that notes whether the service had ended before a datagram was sent.
#[derive(Drop)]
struct Noting<'a, S> {
    service: &'a S,
    /// How many datagrams were sent behind the end, but for a 503.
    late: u32,
}

impl<S: Raced> Port for Noting<'_, S> {
    ghost count = { λ _. 0 };

    fn send<A: Allocator>(&mut self, datagram: &Datagram<A>) -> bool {
        if self.service.has_ended() && !datagram.bytes.starts_with(b"SIP/2.0 503 ") {
            self.late = self.late.saturating_add(1);
        }
        true
    }

    fn failures(&self) -> u64 {
        0
    }
}

/// Waits until two threads have come so far, for a while at most.
fn wait_for(progress: &AtomicU64, least: u64) {
    for _ in 0..WAITS {
        if progress.load(Ordering::SeqCst) >= least {
            return;
        }
        yield_now();
    }
}

/// Lets a little time pass.
fn pause(turns: u32) {
    for _ in 0..turns {
        spin_loop();
    }
}

/// Hands a datagram to a service, says so once that is done, and answers how many datagrams were sent behind the end.
fn late_sends<S: Raced, R: Wait + Clock>(
    rt: &R,
    service: &S,
    source: Hop,
    bytes: &[u8],
    progress: &AtomicU64,
) -> u32 {
    let mut port = Noting { service, late: 0 };
    wait_for(progress, THERE);
    progress.store(COMING, Ordering::SeqCst);
    service.hands(rt, &mut port, source, bytes);
    progress.store(DONE, Ordering::SeqCst);
    port.late
}

/// Tells a service to end, so many turns of a loop behind the datagram, and looks as the thread that keeps the time does, until it has ended or
/// all is done.
fn ends<S: Raced, R: Wait>(rt: &R, service: &S, progress: &AtomicU64, turns: u32) {
    let _ = progress.compare_exchange(0, THERE, Ordering::SeqCst, Ordering::SeqCst);
    wait_for(progress, COMING);
    pause(turns);
    service.begins_end();
    for _ in 0..LOOKS {
        service.looks(rt);
        if progress.load(Ordering::SeqCst) == DONE || service.has_ended() {
            return;
        }
    }
}

/// How many datagrams are sent behind the end of a service that is told to end so many turns of a loop behind a datagram.
fn late_at_once<S: Raced + Sync, R: Threads + Wait + Clock + Sync>(
    rt: &R,
    service: &S,
    source: Hop,
    bytes: &[u8],
    turns: u32,
) -> u32 {
    let progress = AtomicU64::new(0);
    let (late, ()) = join(
        rt,
        || late_sends(rt, service, source, bytes, &progress),
        || ends(rt, service, &progress, turns),
    );
    late
}

/// That threads may share this.
fn is_shared<T: Sync>(_: &T)
    ensures { IsSync T.row }
{}

/// That threads may share a service.
fn service_is_shared(shared: &Shared)
    ensures { IsSync shared_row }
{
    is_shared(shared);
}

/// A service to which nothing has come.
fn new_service(alloc: Global) -> Option<Shared> {
    let service = service_of(alloc, CONFIGURATION, PLAIN)?;
    Some(Shared { service })
}

/// The answer of bob's telephone to the INVITE that it was sent.
fn answer_of(alloc: Global, outgoing: &Outgoing) -> Option<Vec<u8>> {
    for sent in outgoing.sent() {
        if sent.to == BOB {
            return answer_text(alloc, "SIP/2.0 486 Busy Here", sent.bytes.as_slice());
        }
    }
    None
}

/// Opens a call to bob, and answers what his telephone would answer.
fn opened<R: Wait + Clock>(rt: &R, alloc: Global, service: &Service) -> Option<Vec<u8>> {
    let request = request_text(alloc, &INVITE, "").ok()?;
    let mut outgoing = Outgoing::new(alloc);
    let received = Received {
        bytes: request.as_bytes(),
        source: CALLER,
        now: 0,
    };
    service.take(rt, &mut outgoing, received);
    answer_of(alloc, &outgoing)
}

/// How many datagrams are sent behind the end of a service that is told to end while its last call is answered.
fn late_answers<R: Threads + Wait + Clock + Sync>(rt: &R, alloc: Global) -> Option<u32> {
    let shared = new_service(alloc)?;
    let answer = opened(rt, alloc, &shared.service)?;
    service_is_shared(&shared);
    Some(late_at_once(rt, &shared, BOB, answer.as_slice(), 0))
}

/// The same while an INVITE comes, which is admitted only before the end begins: so that comes so many turns of a loop later.
fn late_requests<R: Threads + Wait + Clock + Sync>(
    rt: &R,
    alloc: Global,
    turns: u32,
) -> Option<u32> {
    let shared = new_service(alloc)?;
    let request = request_text(alloc, &INVITE, "").ok()?;
    service_is_shared(&shared);
    Some(late_at_once(rt, &shared, CALLER, request.as_bytes(), turns))
}

#[test]
fn a_service_ends_behind_the_answer_that_it_owes(rt: HostRuntime) -> Result<(), Fail> {
    for _ in 0..TRIES {
        let late = late_answers(&rt, rt.alloc());
        holds(&rt, late == Some(0), "no answer goes up behind the end");
    }
    Ok(())
}

#[test]
fn a_service_ends_behind_the_call_that_it_opens(rt: HostRuntime) -> Result<(), Fail> {
    for number in 0..TRIES {
        let late = late_requests(&rt, rt.alloc(), number.saturating_mul(TURNS));
        holds(&rt, late == Some(0), "no call is opened behind the end");
    }
    Ok(())
}
