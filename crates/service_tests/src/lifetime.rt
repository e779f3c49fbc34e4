//! Where a service stands, and for what it keeps places: how long it opens calls, and what waits to be written.
use crate::holds::holds;
use proxy_dispatch::Opener;
use service_admission::{Lifetime, Quota, QuotaAt, Seen, ServiceState};
use service_files::JournalQueue;
use std::alloc::Global;
use std::process::Abort;
use std::sync::Wait;

// ---- where a service stands

/// Whether requests outside and within dialogs open calls.
fn openers(lifetime: &Lifetime) -> (bool, bool) {
    (
        lifetime.opens(Opener::OutsideDialog),
        lifetime.opens(Opener::WithinDialog),
    )
}

/// What is seen of a service of which nothing is open.
const IDLE: Seen = Seen {
    is_busy: false,
    has_open: false,
    last_success: None,
};

/// Whether a service that was told at 1,000 to stop within 30 seconds ends behind the two for which it answers so.
fn drains(lifetime: &Lifetime) -> bool {
    match lifetime.draining(false) {
        Some(draining) => {
            draining.since == 1_000
                && draining.until == 31_000
                && !draining.ends(IDLE, 2_999)
                && draining.ends(IDLE, 3_000)
        }
        None => false,
    }
}

#[test]
fn a_service_serves_drains_and_ends(rt: HostRuntime) {
    let lifetime = Lifetime::new();
    let serves = lifetime.is_in(ServiceState::Serving);
    holds(
        &rt,
        serves && openers(&lifetime) == (true, true),
        "it serves",
    );
    holds(&rt, lifetime.draining(false).is_none(), "it does not drain");
    lifetime.drain(1_000, 30);
    holds(&rt, openers(&lifetime) == (false, true), "dialogs go on");
    holds(&rt, drains(&lifetime), "it drains");
    lifetime.end();
    let ended = lifetime.is_in(ServiceState::Ended);
    holds(
        &rt,
        ended && openers(&lifetime) == (false, false),
        "it has ended",
    );
}

#[test]
fn the_last_success_is_known(rt: HostRuntime) {
    let lifetime = Lifetime::new();
    holds(&rt, lifetime.last_success().is_none(), "none went up");
    lifetime.note_success(20);
    holds(&rt, lifetime.last_success() == Some(20), "one at 20");
}

// ---- places

/// Whether a request outside of dialogs gets a place at a moment.
fn gets<R: Wait>(rt: &R, quota: &Quota, lifetime: &Lifetime, now: u64) -> bool {
    let places = QuotaAt {
        quota,
        lifetime,
        now,
    };
    places.admits(rt, Opener::OutsideDialog)
}

/// Checks what becomes of the one place that there is.
fn check_place<R: Wait + Abort>(rt: &R, quota: &Quota, lifetime: &Lifetime) {
    holds(rt, gets(rt, quota, lifetime, 0), "the one place");
    holds(rt, quota.is_busy(), "its request is in work");
    holds(rt, !gets(rt, quota, lifetime, 0), "there is no second");
    quota.settle();
    holds(rt, !quota.is_busy(), "it has opened its call");
    holds(rt, !gets(rt, quota, lifetime, 0), "which has the place");
    quota.forget(rt);
    quota.close(0);
    holds(rt, !gets(rt, quota, lifetime, 999), "memory was refused");
    holds(rt, gets(rt, quota, lifetime, 1_000), "a second later");
}

#[test]
fn a_place_is_kept_until_its_call_is_forgotten(rt: HostRuntime) {
    check_place(&rt, &Quota::new(1), &Lifetime::new());
}

// ---- what waits to be written

/// Whether these bytes wait, as one block.
fn takes<R: Wait>(rt: &R, queue: &JournalQueue, block: &[u8]) -> bool {
    let batch = queue.take(rt);
    batch.blocks == 1 && *batch.text == *block
}

/// Checks what becomes of a block.
fn check_block<R: Wait + Abort>(rt: &R, alloc: Global) {
    let queue = JournalQueue::new(alloc);
    holds(rt, queue.has_room(rt, 5), "there is room");
    holds(rt, queue.push(rt, b"call\n").is_ok(), "a block waits");
    queue.wait(rt);
    holds(rt, takes(rt, &queue, b"call\n"), "it is taken");
    queue.wake();
    queue.wait(rt);
    holds(rt, queue.take(rt).blocks == 0, "nothing is left");
}

#[test]
fn a_block_waits_until_it_is_taken(rt: HostRuntime) {
    check_block(&rt, rt.alloc());
}
