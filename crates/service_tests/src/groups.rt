//! Jobs of a group of calls wait for the worker that is on it, and come in order.
use crate::holds::holds;
use proxy_threads::{
    CallGroup, CallGroups, GroupClaim, MOST_WAITING, WaitingRoom, jobs_come_in_order,
};
use sip_uri::Hop;
use std::alloc::Global;
use std::sync::Wait;

/// What becomes of a job that a worker receives.
#[derive(Clone, Copy, PartialEq, Eq)]
enum Fate {
    /// The worker enters the group with it.
    Enters,
    /// It waits for the worker that is on the group.
    Waits,
    /// It comes back.
    Refused,
}

/// What happens to a group.
#[derive(Clone, Copy)]
enum Act {
    /// This job is received, with this fate.
    Receive(u32, Fate),
    /// The worker that is on the group asks for the next job, and gets this one.
    Next(Option<u32>),
}

/// A worker receives a job, and enters the group with it or hands it over.
fn receive(group: &mut CallGroup<u32>, job: u32) -> Fate {
    if group.enter() {
        Fate::Enters
    } else if group.hand_over(job).is_ok() {
        Fate::Waits
    } else {
        Fate::Refused
    }
}

/// Whether a group answers so.
fn is_so(group: &mut CallGroup<u32>, act: Act) -> bool {
    match act {
        Act::Receive(job, expected) => receive(group, job) == expected,
        Act::Next(expected) => group.next() == expected,
    }
}

/// Whether a group answers so, one act after another.
fn plays(group: &mut CallGroup<u32>, history: &[Act]) -> bool {
    let mut is_well = true;
    for act in history {
        is_well = is_so(group, *act) && is_well;
    }
    is_well
}

#[test]
fn one_worker_at_a_time_is_on_a_group(rt: HostRuntime) {
    jobs_come_in_order::<u32>();
    let mut group = CallGroup::new(rt.alloc());
    let well = plays(
        &mut group,
        &[
            Act::Receive(1, Fate::Enters),
            Act::Receive(2, Fate::Waits),
            Act::Receive(3, Fate::Waits),
            Act::Next(Some(2)),
            Act::Receive(4, Fate::Waits),
            Act::Next(Some(3)),
            Act::Next(Some(4)),
            Act::Next(None),
            Act::Receive(5, Fate::Enters),
            Act::Next(None),
        ],
    );
    holds(&rt, well, "what waits comes in order");
}

#[test]
fn no_more_than_1_024_jobs_wait(rt: HostRuntime) {
    let mut group = CallGroup::new(rt.alloc());
    let entered = receive(&mut group, 0) == Fate::Enters;
    holds(&rt, entered && !group.is_full(), "nothing waits at first");
    let mut waiting = 0usize;
    for job in 1..2_000u32 {
        if receive(&mut group, job) == Fate::Waits {
            waiting = waiting.saturating_add(1);
        }
    }
    holds(
        &rt,
        waiting == MOST_WAITING && group.is_full(),
        "1,024 jobs wait",
    );
    let first = group.next() == Some(1);
    holds(&rt, first && !group.is_full(), "the first made room");
    let well = plays(
        &mut group,
        &[
            Act::Receive(2_000, Fate::Waits),
            Act::Receive(2_001, Fate::Refused),
        ],
    );
    holds(&rt, well, "for one");
}

/// What is done with a room.
#[derive(Clone, Copy)]
enum Use {
    /// So many bytes are taken, or are not left.
    Take(u64, bool),
    /// So many bytes are given back.
    GiveBack(u64),
}

/// Whether a room answers so.
fn answers(room: &mut WaitingRoom, done: Use) -> bool {
    match done {
        Use::Take(bytes, expected) => room.take(bytes) == expected,
        Use::GiveBack(bytes) => {
            room.give_back(bytes);
            true
        }
    }
}

#[test]
fn a_room_gives_what_it_has(rt: HostRuntime) {
    let mut room = WaitingRoom::new(10);
    let mut is_well = true;
    for done in [
        Use::Take(11, false),
        Use::Take(7, true),
        Use::Take(4, false),
        Use::Take(3, true),
        Use::Take(1, false),
        Use::Take(0, true),
        Use::GiveBack(4),
        Use::Take(5, false),
        Use::Take(4, true),
        Use::GiveBack(100),
        Use::Take(11, false),
        Use::Take(10, true),
    ] {
        is_well = answers(&mut room, done) && is_well;
    }
    holds(&rt, is_well, "as many bytes as are left");
}

/// What happens to the groups of calls.
#[derive(Clone, Copy)]
enum Claim {
    /// A datagram of the group of this number comes, and this becomes of it.
    Enter(Option<u8>, &'static [u8], GroupClaim),
    /// The worker that is on this group asks for the next datagram, and gets this one.
    Next(Option<u8>, Option<&'static [u8]>),
}

/// Whether the groups answer so.
fn is_claimed<R: Wait>(rt: &R, alloc: Global, groups: &CallGroups, claim: Claim) -> bool {
    let source = Hop::over_udp([192, 0, 2, 1], 5_060);
    match claim {
        Claim::Enter(number, bytes, expected) => {
            groups.enter(rt, alloc, number, bytes, source) == expected
        }
        Claim::Next(number, expected) => match groups.next(rt, number) {
            Some(packet) => { expected == Some(packet.bytes.as_slice()) && packet.source == source }
            None => expected.is_none(),
        },
    }
}

/// Whether groups that no worker is on answer so, one step after another.
fn are_claimed<R: Wait>(rt: &R, alloc: Global, history: &[Claim]) -> bool {
    let Ok(groups) = CallGroups::new(alloc) else {
        return false;
    };
    let mut is_well = true;
    for claim in history {
        is_well = is_claimed(rt, alloc, &groups, *claim) && is_well;
    }
    is_well
}

#[test]
fn datagrams_wait_in_their_group(rt: HostRuntime) {
    let well = are_claimed(
        &rt,
        rt.alloc(),
        &[
            Claim::Enter(Some(7), b"a", GroupClaim::Entered),
            Claim::Enter(Some(7), b"b", GroupClaim::HandedOver),
            Claim::Enter(Some(255), b"c", GroupClaim::Entered),
            Claim::Enter(None, b"d", GroupClaim::Entered),
            Claim::Enter(None, b"e", GroupClaim::HandedOver),
            Claim::Enter(Some(7), b"", GroupClaim::HandedOver),
            Claim::Next(Some(255), None),
            Claim::Next(Some(7), Some(b"b")),
            Claim::Next(Some(7), Some(b"")),
            Claim::Next(Some(7), None),
            Claim::Enter(Some(7), b"f", GroupClaim::Entered),
            Claim::Next(None, Some(b"e")),
            Claim::Next(None, None),
        ],
    );
    holds(&rt, well, "one worker at a time is on each group");
}

/// How many of 2,000 datagrams of these bytes wait in a group, which the first of them enters.
fn count_waiting<R: Wait>(rt: &R, alloc: Global, groups: &CallGroups, bytes: &[u8]) -> u32 {
    let source = Hop::over_udp([192, 0, 2, 1], 5_060);
    let mut waiting = 0u32;
    for _ in 0..2_000u32 {
        if groups.enter(rt, alloc, Some(1), bytes, source) == GroupClaim::HandedOver {
            waiting = waiting.saturating_add(1);
        }
    }
    waiting
}

/// How many datagrams of so many bytes wait in a group; none where there is no memory.
fn waiting_of<R: Wait>(rt: &R, alloc: Global, length: usize) -> u32 {
    match (CallGroups::new(alloc), vec![in alloc; b'x'; length]) {
        (Ok(groups), Ok(bytes)) => count_waiting(rt, alloc, &groups, &bytes),
        _ => 0,
    }
}

#[test]
fn no_more_waits_than_there_is_room_for(rt: HostRuntime) {
    let well = waiting_of(&rt, rt.alloc(), 0) == 1_024;
    holds(&rt, well, "1,024 short datagrams wait in a group");
    let well = waiting_of(&rt, rt.alloc(), 65_535) == 1_023;
    holds(&rt, well, "64 MB are taken by the longest");
}
