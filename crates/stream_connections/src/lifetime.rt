//! When a connection is to be closed.
ghost use Rattle.std.specs.Prelude.{◌≡◌, ◌-◌, nat_lt};
ghost use Rattle.stream_connections.specs.Lifetime.{closing_cause, sending_cause, receiving_cause};

/// How long a connection may take to open, and a message to come whole, in milliseconds: 64 times T1 (RFC 3261 section 17.1.1.1).
const LONGEST: u64 = 32_000;

/// How long nothing of what waits may be taken, in milliseconds.
const LONGEST_STALL: u64 = 5_000;

/// Why a connection is to be closed at a moment.
#[derive(Clone, Copy, Debug, PartialEq, Eq)]
pub enum ClosingCause {
    /// It was not open 32 seconds after it was begun.
    Unreachable,
    /// Nothing of what waits for the peer was taken for 5 seconds.
    Slow,
    /// A part of a message is older than 32 seconds.
    Unfinished,
    /// Nothing has come and nothing was written for as long as a connection may be silent.
    Idle,
}

/// When something came last by a connection, and since when a message is unfinished, if one is.
#[derive(Clone, Copy, Debug, PartialEq, Eq)]
pub struct ReceivedTimes {
    pub heard: u64,
    pub unfinished: Option<u64>,
}

/// How it stands with what is to be written.
#[derive(Clone, Copy, Debug, PartialEq, Eq)]
pub enum SendingState {
    /// The connection is not open yet.
    Connecting,
    /// Something waits.
    Waiting,
    /// Nothing waits.
    Resting,
}

/// When something was written last by a connection, or began to wait, or it was opened.
#[derive(Clone, Copy, Debug, PartialEq, Eq)]
pub struct SentTimes {
    pub moved: u64,
    pub state: SendingState,
}

/// Whether more than so many milliseconds have passed.
fn has_passed(since: u64, longest: u64, now: u64) -> bool
    ensures { result ≡ nat_lt longest (now - since) }
{
    now.saturating_sub(since) > longest
}

/// Why a connection is to be closed by what is to be written.
fn sending_cause(sent: SentTimes, now: u64) -> Option<ClosingCause>
    ensures { result ≡ sending_cause sent now }
{
    match sent.state {
        SendingState::Connecting if has_passed(sent.moved, LONGEST, now) => {
            Some(ClosingCause::Unreachable)
        }
        SendingState::Waiting if has_passed(sent.moved, LONGEST_STALL, now) => {
            Some(ClosingCause::Slow)
        }
        _ => None,
    }
}

/// Why a connection is to be closed by what has come.
fn receiving_cause(received: ReceivedTimes, now: u64) -> Option<ClosingCause>
    ensures { result ≡ receiving_cause received now }
{
    match received.unfinished {
        Some(since) if has_passed(since, LONGEST, now) => Some(ClosingCause::Unfinished),
        _ => None,
    }
}

/// Why a connection is to be closed at this moment, where it may be silent for so many milliseconds; None where it stays. Silence is told
/// last, so a peer that takes nothing is told as such.
pub fn closing_cause(
    received: ReceivedTimes,
    sent: SentTimes,
    longest_silence: u64,
    now: u64,
) -> Option<ClosingCause>
    ensures { result ≡ closing_cause received sent longest_silence now }
{
    if let Some(cause) = sending_cause(sent, now) {
        return Some(cause);
    }
    if let Some(cause) = receiving_cause(received, now) {
        return Some(cause);
    }
    if has_passed(received.heard.max(sent.moved), longest_silence, now) {
        return Some(ClosingCause::Idle);
    }
    None
}
