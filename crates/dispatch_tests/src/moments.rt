//! Which calls are carried at a moment, and what is to be done with one that was.
ghost use Rattle.std.specs.Prelude.{◌≡◌};

use crate::holds::holds;
use crate::outbox::Outbox;
use crate::texts::{becomes, lines_become, setup_of, shelf_of};
use call_messages::lines::{CALL_ID, FROM, MARKED};
use call_table::{Schedule, Shelf};
use fork_call::{Call, Carried, carry};
use proxy_dispatch::Handled;
use proxy_threads::{NextStep, ReadyMemory, carry_due, carry_from, look_at, next_step, own_of};
use sip_uri::Hop;
use std::alloc::{AllocError, Global};
use std::sync::Wait;

/// The target's answer to the request.
const NOT_FOUND: [&[u8]; 8] = [
    b"SIP/2.0 404 Not Found",
    b"Via: SIP/2.0/UDP 192.0.2.9:5060;branch=z9hG4bK8c31e71e0ddbf1a0e56f5f0279990857.7.0.0",
    MARKED,
    FROM,
    b"t: <sip:bob@example.com>;tag=9",
    CALL_ID,
    b"CSeq: 1 OPTIONS",
    b"",
];

/// How many calls are carried before the time is read anew.
const MOST: u64 = 4_096;

/// Carries a call, and answers what is to be done with it next.
fn step(call: &mut Call<Global>, outbox: &mut Outbox, now: u64) -> NextStep
    ensures { call.new.opened.number ≡ call.old.opened.number }
{
    let carried = carry(call, outbox, now);
    next_step(call, carried, now)
}

/// What is to be done next with call 0, which is carried at each of these moments.
fn steps_of<R: Wait>(
    rt: &R,
    shelf: &Shelf<Call<Global>>,
    outbox: &mut Outbox,
    moments: [u64; 3],
) -> [Option<NextStep>; 3] {
    moments.map(|now| shelf.with(rt, 0, |call| step(call, outbox, now)))
}

/// Whether a request waits for its retransmission, and behind its answer for the ends of both its transactions (RFC 3261 sections 17.1.2.2 and
/// 17.2.2), until it is over.
fn ends_in_time<R: Wait>(rt: &R, alloc: Global) -> Option<bool> {
    let shelf = shelf_of(alloc)?;
    let mut outbox = Outbox::new(alloc);
    let opened = becomes(rt, alloc, &shelf, &[], &mut outbox);
    let asked = shelf.with(rt, 0, |call| step(call, &mut outbox, 0));
    let taken = lines_become(rt, alloc, &shelf, &NOT_FOUND, &mut outbox);
    let behind = steps_of(rt, &shelf, &mut outbox, [0, 5_000, 32_000]);
    Some(
        opened == Some(Handled::Opened(0))
            && asked == Some(NextStep::At(500))
            && taken == Some(Handled::Delivered(0))
            && behind
                == [
                    Some(NextStep::At(5_000)),
                    Some(NextStep::At(32_000)),
                    Some(NextStep::Over(Some(404))),
                ],
    )
}

#[test]
fn a_call_says_when_it_is_carried_next(rt: HostRuntime) {
    holds(
        &rt,
        ends_in_time(&rt, rt.alloc()) == Some(true),
        "a request that is answered 404",
    );
}

/// When call 0 is looked at where it is due at this moment.
fn looked_at<R: Wait>(rt: &R, shelf: &Shelf<Call<Global>>, due: u64) -> Option<u64> {
    shelf.with(rt, 0, |call| look_at(call, due))
}

/// Whether a call is looked at when it is due, and once each of its branches has ended as the transaction of its caller ends, in a step of 20
/// milliseconds.
fn is_looked_at_in_steps<R: Wait>(rt: &R, alloc: Global) -> Option<bool> {
    let shelf = shelf_of(alloc)?;
    let mut outbox = Outbox::new(alloc);
    let opened = becomes(rt, alloc, &shelf, &[], &mut outbox);
    let asked = shelf.with(rt, 0, |call| step(call, &mut outbox, 0));
    let before = looked_at(rt, &shelf, 511);
    let taken = lines_become(rt, alloc, &shelf, &NOT_FOUND, &mut outbox);
    let carried = shelf.with(rt, 0, |call| step(call, &mut outbox, 7));
    let behind = looked_at(rt, &shelf, 5_007);
    Some(
        opened == Some(Handled::Opened(0))
            && asked == Some(NextStep::At(500))
            && before == Some(511)
            && taken == Some(Handled::Delivered(0))
            && carried.is_some()
            && behind == Some(32_020),
    )
}

#[test]
fn a_call_that_has_ended_is_looked_at_in_steps(rt: HostRuntime) {
    holds(
        &rt,
        is_looked_at_in_steps(&rt, rt.alloc()) == Some(true),
        "a request that was answered 404",
    );
}

/// What is to be done next with a call of which `carry` answered this.
fn step_behind<R: Wait>(
    rt: &R,
    shelf: &Shelf<Call<Global>>,
    carried: Result<Carried, AllocError>,
) -> Option<NextStep> {
    shelf.with(rt, 0, |call| next_step(call, carried, 7))
}

/// Whether a call goes on at once where it has more to send, and is told apart where it lacked memory; and whether it is the one that is found
/// from number 0 on, and from no other.
fn goes_on<R: Wait>(rt: &R, alloc: Global) -> Option<bool> {
    let shelf = shelf_of(alloc)?;
    let mut outbox = Outbox::new(alloc);
    becomes(rt, alloc, &shelf, &[], &mut outbox)?;
    let more = Carried {
        sent: 1_024,
        failed: 0,
        more: true,
    };
    let mut count = 0u64;
    let left = carry_from(rt, &shelf, 0, |number| {
        count = count.saturating_add(number).saturating_add(1)
    });
    let left_behind = carry_from(rt, &shelf, 1, |_| count = 9);
    Some(
        step_behind(rt, &shelf, Ok(more)) == Some(NextStep::At(7))
            && step_behind(rt, &shelf, Err(AllocError)) == Some(NextStep::Refused)
            && left.is_none()
            && left_behind.is_none()
            && count == 1,
    )
}

#[test]
fn a_call_that_is_not_done_goes_on(rt: HostRuntime) {
    holds(&rt, goes_on(&rt, rt.alloc()) == Some(true), "it goes on");
}

/// Adds a deadline to so many calls, and says whether there was memory for them.
fn is_filled<R: Wait>(rt: &R, schedule: &Schedule, count: u64) -> bool {
    let mut well = true;
    for number in 0..count {
        well = well && schedule.add(rt, number, number / MOST).is_ok();
    }
    well
}

/// How many calls are carried that are due at a moment.
fn carried_at<R: Wait>(rt: &R, schedule: &Schedule, now: u64) -> u64 {
    let mut count = 0u64;
    carry_due(rt, schedule, now, |_| count = count.saturating_add(1));
    count
}

/// Whether those that are due are carried, no more at a time than may be.
fn is_bounded<R: Wait>(rt: &R, alloc: Global) -> Option<bool> {
    let schedule = Schedule::new(alloc).ok()?;
    let well = is_filled(rt, &schedule, MOST + 2);
    let first = carried_at(rt, &schedule, 0);
    let none = carried_at(rt, &schedule, 0);
    let last = carried_at(rt, &schedule, 1);
    let all = is_filled(rt, &schedule, MOST + 2);
    let most = carried_at(rt, &schedule, 1);
    let rest = carried_at(rt, &schedule, 1);
    Some(well && all && first == MOST && none == 0 && last == 2 && most == MOST && rest == 2)
}

#[test]
fn calls_that_are_due_are_carried(rt: HostRuntime) {
    holds(
        &rt,
        is_bounded(&rt, rt.alloc()) == Some(true),
        "those that are due",
    );
}

/// Whether memory is asked for before the first datagram, and before each 256th behind it.
fn is_held_ready(alloc: Global) -> bool {
    let mut ready = ReadyMemory::new();
    let mut well = ready.left == 0;
    for count in 0..600u32 {
        ready.hold(&alloc);
        well = well && ready.left == 255 - count % 256;
    }
    well
}

#[test]
fn memory_is_held_ready(rt: HostRuntime) {
    holds(&rt, is_held_ready(rt.alloc()), "for 256 datagrams each");
}

/// Whether the address of a setup is where its proxy receives.
fn is_own(alloc: Global) -> Option<bool> {
    let setup = setup_of(alloc)?;
    Some(own_of(&setup) == Hop::over_udp([192, 0, 2, 9], 5_060))
}

#[test]
fn a_setup_names_where_its_proxy_receives(rt: HostRuntime) {
    holds(&rt, is_own(rt.alloc()) == Some(true), "its own line");
}
