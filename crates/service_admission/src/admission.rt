//! Which datagrams are let in.
ghost use Rattle.service_admission.specs.Admission.{Admits};
ghost use Rattle.service_admission.specs.Limits.{address_of};

use crate::limits::SourceLimits;
use metrics::DatagramCounts;
use std::alloc::Allocator;

/// Whether a source may send a datagram at this moment, in milliseconds, where there is a limit.
fn may_send<A: Allocator + Clone>(
    limits: &mut Option<SourceLimits<A>>,
    source: [u8; 4],
    now: u64,
) -> bool
    ensures { Admits limits.old limits.new now (address_of source) result }
{
    match limits {
        Some(limits) => limits.admits(source, now).unwrap_or(true),
        None => true,
    }
}

/// Counts a datagram that came at this moment, in milliseconds, and says whether its source may send it now: as many at once and in a
/// second as the limit says, if there is one. One that may not is counted as limited, too. A source that there is no memory to count may
/// send.
pub fn admits<A: Allocator + Clone>(
    counts: &DatagramCounts,
    limits: &mut Option<SourceLimits<A>>,
    source: [u8; 4],
    now: u64,
) -> bool
    ensures { Admits limits.old limits.new now (address_of source) result }
{
    counts.received.add(1);
    let is_admitted = may_send(limits, source, now);
    if !is_admitted {
        counts.limited.add(1);
    }
    is_admitted
}
