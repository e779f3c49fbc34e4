//! Which requests may open calls now.
ghost use Rattle.std.specs.Prelude.{◌≡◌, ◌≤◌, ◌<◌, ◌+◌};
ghost use Rattle.std.specs.Bool.{OnFalse, OnTrue};
ghost use Rattle.service_admission.specs.Places.{with_taken};
ghost use Rattle.service_admission.specs.Quota.{limit};

use crate::lifetime::Lifetime;
use crate::places::CallQuota;
use proxy_dispatch::Opener;
use std::sync::atomic::{AtomicU64, Ordering};
use std::sync::{Mutex, Wait};

/// For how long no call is opened behind a refusal of memory, in milliseconds.
const CLOSED: u64 = 1_000;

/// Keeps a place for what such a request may open, and says whether there is one.
fn keep_for(places: &mut CallQuota, opener: Opener) -> bool
    ensures kept { OnTrue result ((places.old.taken < limit opener places.old.most) × (places.new ≡ with_taken places.old (places.old.taken + 1))) }
    ensures full { OnFalse result ((limit opener places.old.most ≤ places.old.taken) × (places.new ≡ places.old)) }
{
    match opener {
        Opener::OutsideDialog => places.keep(),
        Opener::WithinDialog => places.keep_within_dialog(),
        Opener::Registering => places.keep_registering(),
    }
}

/// How many calls a service keeps, and which requests may open more. A place is kept before a call is opened, and is the call's until that
/// is forgotten.
#[derive(Drop)]
pub struct Quota {
    places: Mutex<CallQuota>,
    /// How many requests are in work that have a place, and whose calls, if they open any, have no number yet.
    in_work: AtomicU64,
    /// Until when no call is opened, in milliseconds, since memory was refused.
    closed_until: AtomicU64,
}

impl Quota {
    /// So many places for calls that requests outside of dialogs open, and a tenth more for those within dialogs; all are free.
    pub fn new(most_calls: u64) -> Quota {
        Quota {
            places: Mutex::new(CallQuota::new(most_calls)),
            in_work: AtomicU64::new(0),
            closed_until: AtomicU64::new(0),
        }
    }

    /// Whether a request is in work that may open a call.
    pub fn is_busy(&self) -> bool {
        self.in_work.load(Ordering::SeqCst) > 0
    }

    /// Whether calls may be opened at this moment, in milliseconds: memory was not refused within the second before.
    fn is_open(&self, now: u64) -> bool {
        self.closed_until.load(Ordering::SeqCst) <= now
    }

    /// Opens no calls for a second, since memory was refused.
    pub fn close(&self, now: u64) {
        self.closed_until
            .fetch_max(now.saturating_add(CLOSED), Ordering::SeqCst);
    }

    /// Keeps a place for what such a request may open, and says whether there is one. The request is counted before it is asked whether the
    /// service still opens calls, so that who has told it to stop sees the request, or the request sees that. One that opens no call is not
    /// refused for want of memory before.
    fn keep<R: Wait>(&self, rt: &R, lifetime: &Lifetime, opener: Opener, now: u64) -> bool {
        self.in_work.fetch_add(1, Ordering::SeqCst);
        let is_kept = lifetime.opens(opener)
            && (opener == Opener::Registering || self.is_open(now))
            && keep_for(&mut self.places.lock(rt), opener);
        if !is_kept {
            self.in_work.fetch_sub(1, Ordering::SeqCst);
        }
        is_kept
    }

    /// Gives the place of a request back that opened no call.
    fn release<R: Wait>(&self, rt: &R) {
        self.places.lock(rt).give_back();
        self.in_work.fetch_sub(1, Ordering::SeqCst);
    }

    /// Notes that a request has opened a call, whose place is kept.
    pub fn settle(&self) {
        self.in_work.fetch_sub(1, Ordering::SeqCst);
    }

    /// Gives the place of a call back that is forgotten.
    pub fn forget<R: Wait>(&self, rt: &R) {
        self.places.lock(rt).give_back();
    }
}

/// The places for calls, as a datagram finds them that came at a moment.
#[derive(Clone, Copy)]
pub struct QuotaAt<'a> {
    pub quota: &'a Quota,
    pub lifetime: &'a Lifetime,
    /// When the datagram came, in milliseconds.
    pub now: u64,
}

impl QuotaAt<'_> {
    /// Keeps a place for what such a request may open, and says whether there is one.
    pub fn admits<R: Wait>(&self, rt: &R, opener: Opener) -> bool {
        self.quota.keep(rt, self.lifetime, opener, self.now)
    }

    /// Gives the place of a request back that opened no call.
    pub fn release<R: Wait>(&self, rt: &R) {
        self.quota.release(rt);
    }
}
