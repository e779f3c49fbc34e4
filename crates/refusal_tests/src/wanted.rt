//! What carried calls are to send, in order.
use call_messages::five_targets::{
    FIFTH_ACK, FIFTH_SENT, FOURTH_ACK, FOURTH_CANCEL, FOURTH_RINGS_UP, FOURTH_SENT, SECOND_ACK,
    SECOND_CANCEL, SECOND_RINGS_UP, SECOND_SENT, THIRD_ACK, THIRD_CANCEL, THIRD_RINGS_UP,
    THIRD_SENT,
};
use call_messages::one_target::{
    ACK_SENT, CANCEL_OK, CANCEL_SENT, INVITE_SENT, NOT_FOUND_UP, OPTIONS_FAULT_UP,
    OPTIONS_NOT_FOUND_UP, OPTIONS_SENT, RINGING_UP, TERMINATED_UP, TRYING,
};
use call_messages::{Sent, is_sent};
use fork_call::{Cause, Datagram};
use std::alloc::Allocator;

/// The datagrams, byte for byte.
const DATAGRAMS: &[Sent] = &[
    INVITE_SENT,
    SECOND_SENT,
    THIRD_SENT,
    FOURTH_SENT,
    FIFTH_SENT,
    ACK_SENT,
    SECOND_ACK,
    THIRD_ACK,
    FOURTH_ACK,
    FIFTH_ACK,
    CANCEL_SENT,
    SECOND_CANCEL,
    THIRD_CANCEL,
    FOURTH_CANCEL,
    RINGING_UP,
    SECOND_RINGS_UP,
    THIRD_RINGS_UP,
    FOURTH_RINGS_UP,
    TRYING,
    NOT_FOUND_UP,
    TERMINATED_UP,
    CANCEL_OK,
    OPTIONS_SENT,
    OPTIONS_NOT_FOUND_UP,
    OPTIONS_FAULT_UP,
];

/// The places there of the first branch's INVITE, ACK and CANCEL and of its 180 as that goes up; those of the next branches
/// follow each.
const INVITES: usize = 0;

const ACKS: usize = 5;

const CANCELS: usize = 10;

const RINGS: usize = 14;

/// The places there of the others.
const A_TRYING: usize = 18;

const A_NOT_FOUND: usize = 19;

const A_TERMINATED: usize = 20;

const A_CANCEL_OK: usize = 21;

const AN_OPTIONS: usize = 22;

const AN_OPTIONS_NOT_FOUND: usize = 23;

const AN_OPTIONS_FAULT: usize = 24;

/// On what it depends that a datagram is sent.
#[derive(Clone, Copy)]
pub enum Needs {
    Nothing,
    /// The request of this branch was not lost.
    Branch(u16),
    /// Nor was a datagram of this cause, whose transaction ends then.
    Again(u16, Cause),
    /// The request of this branch was lost.
    Fault(u16),
}

/// Where an INVITE to five targets begins.
pub const FORK: usize = 0;

/// How many datagrams that sends.
pub const FORK_SENDS: u64 = 26;

/// Where an OPTIONS request to one target begins.
pub const OPTIONS: usize = 26;

/// How many datagrams that sends, where none is lost.
pub const OPTIONS_SENDS: u64 = 3;

/// Where an INVITE to one target begins.
pub const INVITE: usize = 31;

/// What is wanted, one call after another: on what it depends, and its place among the datagrams.
const WANTED: &[(Needs, usize)] = &[
    // at 0
    (Needs::Nothing, A_TRYING),
    (Needs::Branch(0), INVITES),
    (Needs::Branch(1), INVITES + 1),
    (Needs::Branch(2), INVITES + 2),
    (Needs::Branch(3), INVITES + 3),
    (Needs::Branch(4), INVITES + 4),
    // at 100, 200 and 250
    (Needs::Branch(0), ACKS),
    (Needs::Branch(4), ACKS + 4),
    (Needs::Again(0, Cause::Ack(0)), ACKS),
    // at 300
    (Needs::Branch(1), RINGS + 1),
    // at 500
    (Needs::Branch(2), INVITES + 2),
    (Needs::Branch(3), INVITES + 3),
    // at 600
    (Needs::Branch(2), RINGS + 2),
    // at 700
    (Needs::Nothing, A_CANCEL_OK),
    (Needs::Branch(1), CANCELS + 1),
    (Needs::Branch(2), CANCELS + 2),
    // at 800
    (Needs::Branch(1), ACKS + 1),
    // at 1,200
    (Needs::Again(1, Cause::Cancel(1)), CANCELS + 1),
    (Needs::Again(2, Cause::Cancel(2)), CANCELS + 2),
    // at 1,350
    (Needs::Branch(3), RINGS + 3),
    (Needs::Branch(3), CANCELS + 3),
    // at 1,450
    (Needs::Nothing, A_NOT_FOUND),
    (Needs::Branch(2), ACKS + 2),
    (Needs::Branch(3), ACKS + 3),
    // at 1,850 and 1,950
    (Needs::Again(3, Cause::Cancel(3)), CANCELS + 3),
    (Needs::Nothing, A_NOT_FOUND),
    // an OPTIONS request, at 0
    (Needs::Branch(0), AN_OPTIONS),
    (Needs::Fault(0), AN_OPTIONS_FAULT),
    // at 20
    (Needs::Branch(0), AN_OPTIONS_NOT_FOUND),
    // at 40
    (Needs::Fault(0), AN_OPTIONS_FAULT),
    (Needs::Again(0, Cause::Answer), AN_OPTIONS_NOT_FOUND),
    // an INVITE, at 0
    (Needs::Nothing, A_TRYING),
    (Needs::Branch(0), INVITES),
    // at 500 and 600
    (Needs::Branch(0), INVITES),
    (Needs::Nothing, A_CANCEL_OK),
    // at 700
    (Needs::Branch(0), RINGS),
    (Needs::Branch(0), CANCELS),
    // at 1,200
    (Needs::Again(0, Cause::Cancel(0)), CANCELS),
    // at 1,300
    (Needs::Nothing, A_TERMINATED),
    (Needs::Branch(0), ACKS),
    // at 1,400 and 1,800
    (Needs::Again(0, Cause::Ack(0)), ACKS),
    (Needs::Nothing, A_TERMINATED),
];

/// What is wanted at this place: on what it depends, and its place among the datagrams.
pub fn wanted_at(place: usize) -> Option<(Needs, usize)> {
    WANTED.get(place).copied()
}

/// Whether it is the datagram of this place, byte for byte.
pub fn is_one<A: Allocator>(datagram: &Datagram<A>, place: usize) -> bool {
    match DATAGRAMS.get(place) {
        Some(wanted) => is_sent(datagram, wanted),
        None => false,
    }
}
