//! When a service that is told to stop ends.
ghost use Rattle.std.specs.Prelude.{◌≡◌, ◌↔◌, ◌+◌, ◌^◌, ◌-◌, min, IsTrue};
ghost use Rattle.service_admission.specs.Draining.{Ends, IsAcknowledged, MayEnd};

/// For how long it answers that it stops, in milliseconds.
const SHORTEST: u64 = 2_000;

/// For how long after a 2xx its ACK may come, in milliseconds: 64 times T1 (RFC 3261 section 13.3.1.4).
const ACK_TIME: u64 = 32_000;

/// How often it is looked for what is open, in milliseconds.
const LOOKS: u64 = 100;

/// A service that drains, and when it has to end. Moments are in milliseconds.
#[derive(Clone, Copy, PartialEq, Eq, Debug)]
pub struct Draining {
    /// When it was first told to stop.
    pub since: u64,
    /// When it ends at the latest.
    pub until: u64,
    /// Whether it stays on the path of dialogs.
    pub records: bool,
}

/// What was seen of a service that drains.
#[derive(Clone, Copy, PartialEq, Eq, Debug)]
pub struct Seen {
    /// Whether a datagram is in work that may open a call.
    pub is_busy: bool,
    /// Whether a call may be open.
    pub has_open: bool,
    /// When the last 2xx to an INVITE went up.
    pub last_success: Option<u64>,
}

/// Whether the ACK of the last 2xx that went up has come, or comes no more.
fn is_acknowledged(last_success: Option<u64>, now: u64) -> bool
    ensures { IsTrue result ↔ IsAcknowledged last_success now }
{
    match last_success {
        Some(last) => now.saturating_sub(last) >= ACK_TIME,
        None => true,
    }
}

impl Draining {
    /// Whether it may end before its time is over.
    fn may_end(self, seen: Seen, now: u64) -> bool
        ensures { IsTrue result ↔ MayEnd self seen now }
    {
        !seen.is_busy
            && !seen.has_open
            && now.saturating_sub(self.since) >= SHORTEST
            && (!self.records || is_acknowledged(seen.last_success, now))
    }

    /// Whether it ends: its time is over; or nothing is open and no datagram is in work that may open a call, it has answered for two
    /// seconds that it stops, and, where it stays on the path of dialogs, no ACK of a 2xx may still come.
    pub fn ends(self, seen: Seen, now: u64) -> bool
        ensures { IsTrue result ↔ Ends self seen now }
    {
        self.until <= now || self.may_end(seen, now)
    }

    /// When it is looked at next, where it does not end now.
    pub fn next_look(self, now: u64) -> u64
        ensures { result ≡ min self.until (min (now + 100) (2 ^ 64 - 1)) }
    {
        self.until.min(now.saturating_add(LOOKS))
    }
}
