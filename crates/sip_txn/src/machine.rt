//! The engine of the four machines: a state with its timers, which the rows of a table change.

ghost use Rattle.std.specs.Prelude.{◌≡◌};
ghost use Rattle.sip_txn.specs.Machine.{row_machine, row_out, goes_to};

use crate::event::TxOut;
use crate::timers::{Reliability, TimerChange, Timers};

/// A row of a table: the next state, what happens to the timers, and what is sent and passed.
#[derive(Clone, Copy)]
pub struct MachineRow<S> {
    pub next: S,
    pub clock: TimerChange,
    pub out: TxOut,
}

/// A state with its running timers, over a transport that is reliable or not.
#[derive(Clone, Copy, Debug, PartialEq, Eq)]
pub struct Machine<S> {
    pub state: S,
    pub reliability: Reliability,
    pub timers: Timers,
}

/// A row of a table, by its parts.
pub(crate) fn goes_to<S>(next: S, clock: TimerChange, out: TxOut) -> Option<MachineRow<S>>
    ensures { result ≡ goes_to next clock out }
{
    Some(MachineRow { next, clock, out })
}

impl<S: Copy> Machine<S> {
    /// Does what the row says; without a row nothing changes.
    pub(crate) fn follow(&mut self, row: Option<MachineRow<S>>, now: u64) -> TxOut
        ensures next { self.new ≡ row_machine row now self.old }
        ensures out { result ≡ row_out row }
    {
        match row {
            None => TxOut::silent(),
            Some(row) => {
                self.state = row.next;
                self.timers = self.timers.run(self.reliability, row.clock, now);
                row.out
            }
        }
    }
}
