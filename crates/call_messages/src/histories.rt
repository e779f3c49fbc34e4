//! What happens to a call, moment by moment, and whole calls of which several crates of tests make something else.
use crate::one_target::{
    ACK_SENT, CALLER, CANCEL, CANCEL_OK, CANCEL_SENT, INVITE_SENT, OPTIONS, OPTIONS_NOT_FOUND,
    OPTIONS_NOT_FOUND_OF_FIVE, OPTIONS_NOT_FOUND_UP, OPTIONS_SENT, RINGING, RINGING_UP, TARGET,
    TERMINATED, TERMINATED_UP, TRYING,
};
use crate::sent::Sent;
use fork_call::{Cause, TakeFault, Taken};
use sip_uri::Hop;

/// What happens to a call, and what comes of it.
#[derive(Clone, Copy)]
pub enum Turn {
    /// This message comes from there, and is taken so.
    Takes(Hop, &'static [u8], Result<Taken, TakeFault>),
    /// The next thing that is due sends this datagram.
    Sends(&'static Sent),
    /// The next thing that is due sends a datagram of this cause.
    SendsFor(Cause),
    /// The next thing that is due sends nothing.
    Does,
    /// Nothing is due before this moment; where there is none, the call is over.
    Waits(Option<u64>),
    /// A datagram of this cause could not be sent.
    Fails(Cause),
    /// This message comes from there, of this branch if any, and is posted; but where the request of the branch was lost, it
    /// changes nothing.
    Comes(Option<u16>, Hop, &'static [u8]),
    /// The call is carried, and the next so many datagrams of those wanted are sent.
    Carries(usize),
}

/// A moment in milliseconds, and what happens then.
pub type Moment = (u64, Turn);

/// An OPTIONS request whose target answers 404, and that again.
pub const FAILING: &[Moment] = &[
    (0, Turn::Sends(&OPTIONS_SENT)),
    (0, Turn::Waits(Some(500))),
    (
        20,
        Turn::Takes(TARGET, OPTIONS_NOT_FOUND, Ok(Taken::Posted(0))),
    ),
    (20, Turn::Sends(&OPTIONS_NOT_FOUND_UP)),
    (20, Turn::Waits(Some(5020))),
    (
        30,
        Turn::Takes(TARGET, OPTIONS_NOT_FOUND, Ok(Taken::Absorbed)),
    ),
    (
        30,
        Turn::Takes(TARGET, OPTIONS_NOT_FOUND_OF_FIVE, Err(TakeFault::Stray)),
    ),
    (30, Turn::Waits(Some(5020))),
    (40, Turn::Takes(CALLER, OPTIONS, Ok(Taken::Absorbed))),
    (40, Turn::Sends(&OPTIONS_NOT_FOUND_UP)),
    (5020, Turn::Does),
    (5020, Turn::Waits(Some(32_020))),
    (32_020, Turn::Does),
    (32_020, Turn::Waits(None)),
];

/// An INVITE that the caller cancels before the target rings; no time is kept until the CANCEL is given up.
pub const CANCELLED: &[Moment] = &[
    (0, Turn::Sends(&TRYING)),
    (0, Turn::Sends(&INVITE_SENT)),
    (0, Turn::Waits(Some(500))),
    (10, Turn::Takes(CALLER, CANCEL, Ok(Taken::Posted(0)))),
    (10, Turn::Sends(&CANCEL_OK)),
    (10, Turn::Waits(Some(500))),
    (20, Turn::Takes(TARGET, RINGING, Ok(Taken::Posted(1)))),
    (20, Turn::Sends(&RINGING_UP)),
    (20, Turn::Sends(&CANCEL_SENT)),
    (20, Turn::Waits(Some(520))),
    (30, Turn::Takes(TARGET, TERMINATED, Ok(Taken::Posted(2)))),
    (30, Turn::Sends(&TERMINATED_UP)),
    (30, Turn::Sends(&ACK_SENT)),
    (30, Turn::Waits(Some(520))),
    (32_020, Turn::Sends(&TERMINATED_UP)),
    (32_020, Turn::Does),
    (32_020, Turn::Waits(Some(32_030))),
    (32_030, Turn::Does),
    (32_030, Turn::Does),
    (32_030, Turn::Waits(None)),
];
