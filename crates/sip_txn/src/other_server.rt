//! The server transaction of a request other than INVITE (RFC 3261 section 17.2.2).

use crate::event::{TxEvent, TxOut, TxPass, TxSend};
use crate::machine::{Machine, MachineRow, goes_to};
use crate::timers::{MachineInput, Reliability, T1_TIMES_64, TimerChange, Timers};
use std::marker::Model;

/// The states of RFC 3261 figure 8.
#[derive(Clone, Copy, Debug, PartialEq, Eq)]
pub enum OtherServerState {
    Trying,
    Proceeding,
    Completed,
    Terminated,
}

/// The server transaction of a request other than INVITE.
#[derive(Clone, Copy, Debug, PartialEq, Eq)]
pub struct OtherServer {
    machine: Machine<OtherServerState>,
}

impl Model for OtherServer {
    ghost use Rattle.sip_txn.specs.declared.machine.Machine.{Machine};
    ghost use Rattle.sip_txn.specs.declared.other_server.OtherServerState.{OtherServerState};

    ghost Value = { Machine OtherServerState };

    ghost use Rattle.sip_txn.specs.OtherServer.{RunsTimersOf};

    ghost view = { λ m. m.machine };

    ghost invariant = { λ m. RunsTimersOf m.machine.reliability m.machine.state m.machine.timers };

    ghost inverse = { λ m. record { machine = m } };
}

impl OtherServer {
    ghost use Rattle.std.specs.Prelude.{◌≡◌};
    ghost use Rattle.sip_txn.specs.Timers.{least, no_timers};
    ghost use Rattle.sip_txn.specs.Machine.{machine_after, out_of};
    ghost use Rattle.sip_txn.specs.Runs.{IsOver};
    ghost use Rattle.sip_txn.specs.OtherServer.{other_server, HandsUpOneEnd, RunsOutByTicks, RunsTimersOf};

    /// A transaction whose request has come: it is in Trying, and no timer runs (RFC 3261 section
    /// 17.2.2).
    pub fn start(_now: u64, reliability: Reliability) -> OtherServer
        ensures value { result ≡ record { state = OtherServerState.Trying; timers = no_timers; reliability = reliability } }
        ensures once { HandsUpOneEnd result }
    {
        OtherServer {
            machine: Machine {
                state: OtherServerState::Trying,
                timers: Timers::none(),
                reliability,
            },
        }
    }

    /// The state that the transaction is in.
    pub fn state(&self) -> OtherServerState
        ensures { result ≡ self.now.state }
    {
        self.machine.state
    }

    /// The moment, in milliseconds, of the earliest running timer: a tick is wanted then. Ticks
    /// alone, each when it is due, lead to the end of a state in which a timer runs.
    pub fn due(&self) -> Option<u64>
        ensures value { result ≡ least self.now.timers }
        ensures runs { RunsTimersOf self.now.reliability self.now.state self.now.timers }
        ensures runs_out { RunsOutByTicks self.now.reliability self.now.state self.now }
        ensures over { self.now.state ≡ OtherServerState.Terminated → IsOver other_server self.now }
    {
        self.machine.timers.due()
    }

    /// Feeds the transaction an event at this moment, in milliseconds, and says what to send and to
    /// pass.
    pub fn on(&mut self, event: TxEvent, now: u64) -> TxOut
        ensures next { self.new ≡ machine_after other_server event now self.old }
        ensures out { result ≡ out_of other_server event now self.old }
    {
        let Machine { state, timers, .. } = self.machine;
        let row = listed(state, timers.input(event, now));
        self.machine.follow(row, now)
    }
}

ghost use Rattle.std.specs.Prelude.{◌≡◌};
ghost use Rattle.sip_txn.specs.OtherServer.{other_server};

/// The table's row for a state and an input (RFC 3261 section 17.2.2).
fn listed(state: OtherServerState, input: MachineInput) -> Option<MachineRow<OtherServerState>>
    ensures { result ≡ other_server state input }
{
    use TimerChange::{Keep, Linger, StopAll};
    use MachineInput::{EndDue, Event};
    use OtherServerState::{Completed, Proceeding, Terminated, Trying};
    use TxEvent::{AnswerFailure, AnswerProvisional, AnswerSuccess, Request, TransportError};

    let response = TxOut::sends(TxSend::Response);
    let fault = TxOut::passes(TxPass::Fault);
    match (state, input) {
        (Trying | Proceeding, Event(AnswerProvisional)) => goes_to(Proceeding, Keep, response),
        // Timer J starts.
        (Trying | Proceeding, Event(AnswerSuccess | AnswerFailure)) => {
            goes_to(Completed, Linger(T1_TIMES_64), response)
        }
        (Proceeding, Event(Request)) => goes_to(Proceeding, Keep, response),
        (Completed, Event(Request)) => goes_to(Completed, Keep, response),
        (Proceeding | Completed, Event(TransportError)) => goes_to(Terminated, StopAll, fault),
        // Timer J fires.
        (Completed, EndDue) => goes_to(Terminated, StopAll, TxOut::silent()),
        _ => None,
    }
}
