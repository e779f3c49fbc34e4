//! Which worker receives. One worker at a time does, while others are idle or handle what they have received. Before it lets the next one
//! receive, it enters the datagram's group of calls, or hands the datagram over to the worker that is on that group; so what comes of one
//! call is handled in the order in which it came. It lets the next one receive where one more datagram waits.
use crate::idle::IdleWorkers;
use metrics::DatagramCounts;
use proxy_threads::{CallGroups, GroupClaim};
use service_admission::SourceLimits;
use service_config::Net;
use sip_uri::Hop;
use sockets::Socket;
use std::alloc::{AllocError, Global};
use std::sync::{Mutex, Wait};

/// Which worker receives, which are idle meanwhile, and which is on each group of calls.
#[derive(Drop)]
pub(crate) struct Receiving {
    alloc: Global,
    /// How many datagrams a source may send in a second, if there is a limit.
    most: Option<u32>,
    /// Who has this lock receives. Under it stands what sources have sent, if there is a limit.
    pub(crate) limits: Mutex<Option<SourceLimits<Global>>>,
    /// The nets whose addresses may send as many as they like all the same.
    unlimited: Vec<Net>,
    /// Workers that are idle while another one receives.
    idle: IdleWorkers,
    pub(crate) groups: CallGroups,
}

/// What sources may send, if there is a limit: nothing was sent yet.
fn source_limits(alloc: Global, most: Option<u32>) -> Option<SourceLimits<Global>> {
    Some(SourceLimits::new(alloc, most?))
}

impl Receiving {
    /// No worker receives, and none is idle. A source may send so many datagrams in a second, if there is a limit, and it is in none of these nets.
    ///
    /// # Errors
    ///
    /// Only where the allocator refuses.
    pub(crate) fn new(
        alloc: Global,
        most: Option<u32>,
        unlimited: &[Net],
    ) -> Result<Receiving, AllocError> {
        let groups = CallGroups::new(alloc)?;
        let unlimited = Vec::from_slice(alloc, unlimited)?;
        Ok(Receiving {
            alloc,
            most,
            limits: Mutex::new(source_limits(alloc, most)),
            unlimited,
            idle: IdleWorkers::new(),
            groups,
        })
    }

    /// What sources may send by connections, if there is a limit: nothing was sent yet. It is counted apart from what they send as datagrams,
    /// as the thread that receives those has their counts while it waits.
    pub(crate) fn own_limits(&self) -> Option<SourceLimits<Global>> {
        source_limits(self.alloc, self.most)
    }

    /// Whether an address may send as many datagrams as it likes, whatever the limit is.
    pub(crate) fn is_unlimited(&self, addr: [u8; 4]) -> bool {
        self.unlimited.iter().any(|net| net.has(addr))
    }

    /// Whether the group of this number is entered with a datagram; else it is another worker's, or is dropped and counted.
    pub(crate) fn enters<R: Wait>(
        &self,
        rt: &R,
        counts: &DatagramCounts,
        number: Option<u8>,
        bytes: &[u8],
        source: Hop,
    ) -> bool {
        match self.groups.enter(rt, self.alloc, number, bytes, source) {
            GroupClaim::Entered => true,
            GroupClaim::HandedOver => false,
            GroupClaim::CrowdedOut => {
                counts.crowded_out.add(1);
                false
            }
            GroupClaim::NoMemory => {
                counts.no_memory.add(1);
                false
            }
        }
    }

    /// Is idle until a worker is woken, while another one receives.
    pub(crate) fn wait_idle<R: Wait>(&self, rt: &R) {
        let woken = self.idle.enter();
        let is_free = self.limits.try_lock().is_some();
        if !is_free {
            self.idle.sleep(rt, woken);
        }
        self.idle.leave();
    }

    /// Wakes an idle worker, as the one that asks is about to handle a datagram while nobody receives: where a datagram waits, and where no
    /// other one watches.
    pub(crate) fn hand_over(&self, socket: &Socket) {
        if self.idle.has_any() && (!self.idle.is_watched() || socket.has_waiting()) {
            self.idle.wake_one();
        }
    }

    /// Wakes all workers that are idle, at the end.
    pub(crate) fn wake_all(&self) {
        self.idle.wake_all();
    }
}
