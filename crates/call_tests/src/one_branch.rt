//! One branch by itself: its request, timer C, its ACK, the failure that it keeps, and its CANCEL (RFC 3261 sections 9.1, 16.6,
//! 16.7 and 17.1).
use crate::holds::holds;
use crate::places::bytes_of;
use crate::state::{FIRST, NOT_FOUND, message_of};
use call_branch::{
    Branch, CancelTransaction, Destination, branch_in, destination_at, no_branches, put_branch,
    response_status,
};
use fork_rank::Kind;
use sip_txn::{OtherClient, TxEvent, TxPass, TxSend};
use sip_uri::{SipUri, Transport};
use std::alloc::Global;
use std::process::Abort;

/// The first target, to which a branch may take 181 seconds.
pub(crate) fn first_target(alloc: Global) -> Option<Destination> {
    match SipUri::read(alloc, b"sip:bob@192.0.2.4") {
        Ok(uri) => Some(Destination::new(uri, FIRST, 181_000)),
        Err(_) => None,
    }
}

/// The branch of an INVITE with these bytes that is sent there at 0.
fn inviting_at(destination: &Destination, sent: Option<Vec<u8>>) -> Option<Branch<Global>> {
    match sent {
        Some(sent) => Some(Branch::start(Kind::Invite, 0, destination, sent)),
        None => None,
    }
}

/// The branch of an INVITE that is sent to the first target at 0.
fn inviting(alloc: Global) -> Option<Branch<Global>> {
    let destination = first_target(alloc)?;
    inviting_at(&destination, bytes_of(alloc, b"INVITE"))
}

/// Whether nothing has come of a branch: no answer, no ACK, no CANCEL.
fn is_untouched(branch: &Branch<Global>) -> bool {
    !branch.owes_ack()
        && branch.answer().is_none()
        && branch.cancelling().is_none()
        && !branch.is_over()
}

/// Checks how a branch begins.
fn check_begun(rt: &impl Abort, branch: &Branch<Global>) {
    holds(rt, branch.sent() == b"INVITE".as_slice(), "its request");
    holds(rt, branch.due() == Some(500), "timer A runs");
    holds(rt, branch.timer_c_at() == Some(181_000), "timer C runs");
    holds(rt, is_untouched(branch), "nothing has come of it");
}

#[test]
fn a_branch_begins_with_its_request(rt: HostRuntime) {
    match inviting(rt.alloc()) {
        Some(branch) => check_begun(&rt, &branch),
        None => holds(&rt, false, "a branch begins"),
    }
}

/// The status of a response, the longest time of the branch, and when timer C fires once the response came at 20.
const AGAIN: [(u16, u64, u64); 4] = [
    (180, 181_000, 181_020),
    (100, 181_000, 181_000),
    (200, 181_000, 181_000),
    (180, 15_000, 181_000),
];

/// Checks when timer C fires once a response came.
fn check_timer_c(rt: &impl Abort, branch: &Branch<Global>) {
    for (status, longest, at) in AGAIN {
        let again = branch.timer_c_again(status, longest, 20);
        holds(rt, again == Some(at), "timer C once a response came");
    }
}

#[test]
fn a_provisional_response_sets_timer_c_again(rt: HostRuntime) {
    match inviting(rt.alloc()) {
        Some(branch) => check_timer_c(&rt, &branch),
        None => holds(&rt, false, "a branch begins"),
    }
}

// ---- a failure

/// Whether a failure at 20 is handed up and asks for an ACK, which the branch owes from then on.
fn fails(alloc: Global, branch: &mut Branch<Global>) -> bool {
    let (client, out) = branch.on_event(TxEvent::Failure, 20);
    match bytes_of(alloc, b"ACK") {
        Some(ack) => {
            branch.respond(client, Some(ack));
            out.pass == TxPass::Response && out.send == TxSend::Ack && branch.owes_ack()
        }
        None => false,
    }
}

/// Whether the ACK that a branch owes is this one, and owed no more once it was taken.
fn pays(branch: &mut Branch<Global>, ack: &[u8]) -> bool {
    let is_it = match branch.take_ack() {
        Some(taken) => *taken == *ack,
        None => false,
    };
    is_it && !branch.owes_ack()
}

/// Whether a branch keeps the 404, and timer C then runs no more.
fn keeps(alloc: Global, branch: &mut Branch<Global>) -> bool {
    let failure = message_of(alloc, &NOT_FOUND);
    branch.keep(None, failure);
    match branch.answer() {
        Some(answer) => response_status(answer) == 404 && branch.timer_c_at().is_none(),
        None => false,
    }
}

#[test]
fn a_branch_keeps_its_failure_and_owes_the_ack(rt: HostRuntime) {
    let alloc = rt.alloc();
    match inviting(alloc) {
        Some(mut branch) => {
            holds(&rt, fails(alloc, &mut branch), "the failure");
            holds(&rt, branch.due() == Some(32_020), "timer D runs");
            holds(&rt, pays(&mut branch, b"ACK"), "the ACK");
            holds(&rt, keeps(alloc, &mut branch), "the 404 is kept");
        }
        None => holds(&rt, false, "a branch begins"),
    }
}

// ---- a CANCEL

/// A CANCEL that is sent over UDP at 20.
fn cancelling(alloc: Global) -> Option<CancelTransaction<Global>> {
    let sent = bytes_of(alloc, b"CANCEL")?;
    Some(CancelTransaction::start(20, sent, Transport::Udp))
}

/// Whether a CANCEL was sent at 20: timer E runs, and 64 times T1.
fn is_begun(cancelling: &CancelTransaction<Global>) -> bool {
    cancelling.sent() == b"CANCEL".as_slice()
        && cancelling.due() == Some(520)
        && cancelling.give_up_at() == 32_020
}

/// Whether such a CANCEL is that of a branch from then on.
fn is_cancelled(alloc: Global, branch: &mut Branch<Global>) -> bool {
    match cancelling(alloc) {
        Some(cancelling) => branch.cancel(cancelling),
        None => return false,
    }
    match branch.cancelling() {
        Some(cancelling) => is_begun(cancelling),
        None => false,
    }
}

/// The transaction of the CANCEL after an event, if the branch was sent one.
fn cancel_client(branch: &Branch<Global>, event: TxEvent, now: u64) -> Option<OtherClient> {
    match branch.cancelling() {
        Some(cancelling) => Some(cancelling.on_event(event, now).0),
        None => None,
    }
}

/// Whether an event goes on with the transaction of the CANCEL, which then wants a tick at that moment.
fn cancel_goes_on(branch: &mut Branch<Global>, event: TxEvent, now: u64, at: Option<u64>) -> bool {
    match cancel_client(branch, event, now) {
        Some(client) => branch.cancel_on(client),
        None => return false,
    }
    match branch.cancelling() {
        Some(cancelling) => cancelling.due() == at,
        None => false,
    }
}

/// Whether a branch that is given up is over.
fn is_given_up(branch: &mut Branch<Global>) -> bool {
    let (client, _) = branch.on_event(TxEvent::Stop, 40);
    branch.respond(client, None);
    branch.is_over()
}

#[test]
fn a_branch_is_over_once_its_cancel_is(rt: HostRuntime) {
    let alloc = rt.alloc();
    match inviting(alloc) {
        Some(mut branch) => {
            holds(&rt, is_cancelled(alloc, &mut branch), "the CANCEL");
            let goes = cancel_goes_on(&mut branch, TxEvent::Success, 30, Some(5_030));
            holds(&rt, goes, "the 200 to the CANCEL starts timer K");
            holds(&rt, !is_given_up(&mut branch), "the CANCEL is not over");
            let goes = cancel_goes_on(&mut branch, TxEvent::Tick, 5_030, None);
            holds(&rt, goes && branch.is_over(), "timer K fires");
        }
        None => holds(&rt, false, "a branch begins"),
    }
}

// ---- the branches of a call

/// Whether a branch that is put among two that were not sent is found in its place alone.
fn is_put(alloc: Global, branch: Branch<Global>) -> bool {
    let Ok(mut branches) = no_branches(alloc, 2) else {
        return false;
    };
    if branches.len() != 2 {
        return false;
    }
    put_branch(&mut branches, 1, branch);
    branch_in(&branches, 0).is_none()
        && branch_in(&branches, 1).is_some()
        && branch_in(&branches, 2).is_none()
}

/// Whether the destination of the one target is found.
fn is_found(destination: Destination) -> bool {
    let destinations = [destination];
    let found = destination_at(&destinations, 0);
    found.hop() == FIRST && found.longest() == 181_000
}

#[test]
fn branches_and_destinations_are_found_by_their_number(rt: HostRuntime) {
    let alloc = rt.alloc();
    match inviting(alloc) {
        Some(branch) => holds(&rt, is_put(alloc, branch), "the second branch"),
        None => holds(&rt, false, "a branch begins"),
    }
    match first_target(alloc) {
        Some(destination) => holds(&rt, is_found(destination), "the first destination"),
        None => holds(&rt, false, "a destination"),
    }
}
