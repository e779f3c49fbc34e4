//! The groups of calls, by which what comes of one call is handled in the order in which it came.
ghost use Rattle.std.specs.Prelude.{◌≡◌, true};

use crate::group::CallGroup;
use crate::packet::{Packet, weight};
use crate::room::WaitingRoom;
use sip_uri::Hop;
use std::alloc::{AllocError, Global};
use std::sync::{Mutex, Wait};

/// How many numbers of groups there are.
const NUMBERS: u16 = 256;

/// How many bytes may wait in all groups together.
const MOST_BYTES: u64 = 67_108_864;

/// The groups of calls, each behind its lock.
#[derive(Drop)]
pub struct CallGroups {
    /// By number.
    numbered: Vec<Mutex<CallGroup<Packet>>>,
    /// What comes without a Call-ID.
    other: Mutex<CallGroup<Packet>>,
    /// The room for all that waits.
    room: Mutex<WaitingRoom>,
}

/// Whose a datagram is that came.
#[derive(Clone, Copy, Debug, PartialEq, Eq)]
pub enum GroupClaim {
    /// No worker was on its group: that of who received it, who is on the group now.
    Entered,
    /// That of the worker that is on its group.
    HandedOver,
    /// Nobody's: as much waits as may.
    CrowdedOut,
    /// Nobody's, for want of memory.
    NoMemory,
}

/// Hands a copy of a datagram over to the worker that is on its group.
///
/// # Errors
///
/// Where as many wait as may, or the allocator refuses; then the group is as it was.
fn hand_over(
    alloc: Global,
    group: &mut CallGroup<Packet>,
    bytes: &[u8],
    source: Hop,
) -> Result<(), AllocError>
    requires { group.old.busy ≡ true }
{
    let bytes = Vec::from_slice(alloc, bytes)?;
    match group.hand_over(Packet { bytes, source }) {
        Ok(()) => Ok(()),
        Err(_) => Err(AllocError),
    }
}

impl CallGroups {
    /// Groups that no worker is on.
    ///
    /// # Errors
    ///
    /// Only where the allocator refuses.
    pub fn new(alloc: Global) -> Result<CallGroups, AllocError> {
        let mut numbered = Vec::new(alloc);
        for _ in 0..NUMBERS {
            if numbered.push(Mutex::new(CallGroup::new(alloc))).is_err() {
                return Err(AllocError);
            }
        }
        Ok(CallGroups {
            numbered,
            other: Mutex::new(CallGroup::new(alloc)),
            room: Mutex::new(WaitingRoom::new(MOST_BYTES)),
        })
    }

    /// The group of this number, or that of what comes without a Call-ID.
    fn group(&self, number: Option<u8>) -> &Mutex<CallGroup<Packet>> {
        match number {
            Some(number) => self
                .numbered
                .get(usize::from(number))
                .unwrap_or(&self.other),
            None => &self.other,
        }
    }

    /// Enters a group with a datagram of it, where no worker is on it; else the datagram is handed over to the worker that is, where there
    /// is room.
    fn claim_or_queue<R: Wait>(
        &self,
        rt: &R,
        alloc: Global,
        group: &mut CallGroup<Packet>,
        bytes: &[u8],
        source: Hop,
    ) -> GroupClaim {
        if group.enter() {
            return GroupClaim::Entered;
        }
        let bytes_taken = weight(bytes);
        if group.is_full() || !self.room.lock(rt).take(bytes_taken) {
            return GroupClaim::CrowdedOut;
        }
        match hand_over(alloc, group, bytes, source) {
            Ok(()) => GroupClaim::HandedOver,
            Err(AllocError) => {
                self.room.lock(rt).give_back(bytes_taken);
                GroupClaim::NoMemory
            }
        }
    }

    /// Enters the group of this number with a datagram of it, or hands the datagram over.
    pub fn enter<R: Wait>(
        &self,
        rt: &R,
        alloc: Global,
        number: Option<u8>,
        bytes: &[u8],
        source: Hop,
    ) -> GroupClaim {
        let mut group = self.group(number).lock(rt);
        self.claim_or_queue(rt, alloc, &mut *group, bytes, source)
    }

    /// Takes what waits first in a group. Where nothing does, no worker is on the group any more.
    pub fn next<R: Wait>(&self, rt: &R, number: Option<u8>) -> Option<Packet> {
        let next = self.group(number).lock(rt).next();
        if let Some(packet) = &next {
            self.room
                .lock(rt)
                .give_back(weight(packet.bytes.as_slice()));
        }
        next
    }
}
