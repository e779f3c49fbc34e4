//! The timers of a transaction, in milliseconds (RFC 3261 section 17 and its table 4).

ghost use Rattle.std.specs.Prelude.{◌≡◌};
ghost use Rattle.sip_txn.specs.Timers.{later, grown_to, set_again, least, input_of, no_timers, ends_after, repeats_and_ends, lingering, waits, run_clock};

use crate::event::TxEvent;

/// T1, the estimate of a round trip, in milliseconds (RFC 3261 section 17.1.1.1).
pub const T1: u64 = 500;

/// T2, the longest interval between retransmissions of what is not an INVITE request, in milliseconds
/// (RFC 3261 sections 17.1.2.1 and 17.2.1).
pub const T2: u64 = 4_000;

/// T4, how long a message may stay in the network, in milliseconds (RFC 3261 section 17.1.2.2).
pub const T4: u64 = 5_000;

/// 64 times T1, in milliseconds: how long timers B, F, H, J, L and M run.
pub const T1_TIMES_64: u64 = 64 * T1;

/// How long timer D runs, in milliseconds: over UDP at least 32 seconds (RFC 3261 section 17.1.1.2).
pub const TIMER_D: u64 = 32_000;

/// Whether the transport of a transaction's messages brings what it is given (RFC 3261 section 17).
#[derive(Clone, Copy, Debug, PartialEq, Eq)]
pub enum Reliability {
    /// It may lose a message, as UDP does: what is not answered is sent again, by timers A, E and G,
    /// and what comes again is absorbed, while timers D, I, J and K run.
    Unreliable,
    /// It loses none, as TCP does not: timers A, E and G never start, and D, I, J and K last no time
    /// (sections 17.1.1.2, 17.1.2.2, 17.2.1 and 17.2.2).
    Reliable,
}

/// A timer that is set again each time that it fires: its moment, and the interval up to it.
#[derive(Clone, Copy, Debug, PartialEq, Eq)]
pub struct Repeat {
    pub at: u64,
    pub interval: u64,
}

/// The running timers: one that repeats (A, E or G), and one that ends the state (the others).
#[derive(Clone, Copy, Debug, PartialEq, Eq)]
pub struct Timers {
    pub repeat: Option<Repeat>,
    pub end: Option<u64>,
}

/// How the interval of a timer grows as it is set again.
#[derive(Clone, Copy)]
pub enum Growth {
    Doubled,
    DoubledUpToT2,
    SetToT2,
}

/// What a row of a table does to the timers.
#[derive(Clone, Copy)]
pub enum TimerChange {
    /// The timers run on.
    Keep,
    /// No timer runs any more.
    StopAll,
    /// One timer alone runs, and ends the state after this many milliseconds.
    EndIn(u64),
    /// One timer alone runs, and ends the state after this many milliseconds; at once over a reliable
    /// transport, where nothing comes twice (timers D, I, J and K).
    Linger(u64),
    /// A timer starts that ends the state after 64 times T1, and, over an unreliable transport, one
    /// that repeats, first after T1.
    RepeatAndEnd,
    /// The timer that repeats is set again.
    Again(Growth),
}

/// An event, where a tick is told apart by the timer that it finds due.
#[derive(Clone, Copy)]
pub enum MachineInput {
    Event(TxEvent),
    EndDue,
    RepeatDue,
    NothingDue,
}

/// The moment `interval` after `now`, or the greatest u64 where that is past it.
fn after(now: u64, interval: u64) -> u64
    ensures { result ≡ later now interval }
{
    now.saturating_add(interval)
}

/// How long a state lasts that only absorbs what comes again, which nothing does over a reliable
/// transport.
fn lingers(reliability: Reliability, interval: u64) -> u64
    ensures { result ≡ lingering reliability interval }
{
    match reliability {
        Reliability::Unreliable => interval,
        Reliability::Reliable => 0,
    }
}

impl Growth {
    /// The interval that follows this one.
    fn next(self, interval: u64) -> u64
        ensures { result ≡ grown_to self interval }
    {
        match self {
            Growth::Doubled => interval.saturating_mul(2),
            Growth::DoubledUpToT2 => interval.saturating_mul(2).min(T2),
            Growth::SetToT2 => T2,
        }
    }
}

impl Repeat {
    /// The timer, which fired at this moment, set again.
    fn again(self, growth: Growth, now: u64) -> Repeat
        ensures { result ≡ set_again growth now self }
    {
        let interval = growth.next(self.interval);
        Repeat {
            at: after(now, interval),
            interval,
        }
    }
}

impl Timers {
    /// No timer.
    pub(crate) fn none() -> Timers
        ensures { result ≡ no_timers }
    {
        Timers {
            repeat: None,
            end: None,
        }
    }

    /// One timer, which ends the state after the interval.
    pub(crate) fn ending(now: u64, interval: u64) -> Timers
        ensures { result ≡ ends_after interval now }
    {
        Timers {
            repeat: None,
            end: Some(after(now, interval)),
        }
    }

    /// One timer that repeats, first after T1, and one that ends the state after 64 times T1.
    pub(crate) fn repeating(now: u64) -> Timers
        ensures { result ≡ repeats_and_ends now }
    {
        Timers {
            repeat: Some(Repeat {
                at: after(now, T1),
                interval: T1,
            }),
            end: Some(after(now, T1_TIMES_64)),
        }
    }

    /// One timer, which ends the state after 64 times T1, and, over an unreliable transport, one that
    /// repeats.
    pub(crate) fn waiting(reliability: Reliability, now: u64) -> Timers
        ensures { result ≡ waits reliability now }
    {
        match reliability {
            Reliability::Unreliable => Timers::repeating(now),
            Reliability::Reliable => Timers::ending(now, T1_TIMES_64),
        }
    }

    /// The timers after `clock`, what a row of a table does to them.
    pub(crate) fn run(self, reliability: Reliability, clock: TimerChange, now: u64) -> Timers
        ensures { result ≡ run_clock reliability clock now self }
    {
        match clock {
            TimerChange::Keep => self,
            TimerChange::StopAll => Timers::none(),
            TimerChange::EndIn(interval) => Timers::ending(now, interval),
            TimerChange::Linger(interval) => Timers::ending(now, lingers(reliability, interval)),
            TimerChange::RepeatAndEnd => Timers::waiting(reliability, now),
            TimerChange::Again(growth) => Timers {
                repeat: self.repeat.map(|repeat| repeat.again(growth, now)),
                end: self.end,
            },
        }
    }

    /// The moment of the earliest running timer.
    pub(crate) fn due(&self) -> Option<u64>
        ensures { result ≡ least self.now }
    {
        match (self.repeat, self.end) {
            (None, end) => end,
            (Some(repeat), None) => Some(repeat.at),
            (Some(repeat), Some(end)) => Some(repeat.at.min(end)),
        }
    }

    /// What the event is to a machine with these timers.
    pub(crate) fn input(&self, event: TxEvent, now: u64) -> MachineInput
        ensures { result ≡ input_of event now self.now }
    {
        let TxEvent::Tick = event else {
            return MachineInput::Event(event);
        };
        if self.end.is_some_and(|end| end <= now) {
            MachineInput::EndDue
        } else if self.repeat.is_some_and(|repeat| repeat.at <= now) {
            MachineInput::RepeatDue
        } else {
            MachineInput::NothingDue
        }
    }
}
