//! The client transaction of a request other than INVITE (RFC 3261 section 17.1.2).

use crate::event::{TxEvent, TxOut, TxPass, TxSend};
use crate::machine::{Machine, MachineRow, goes_to};
use crate::timers::{Growth, MachineInput, Reliability, T4, TimerChange, Timers};
use std::marker::Model;

/// The states of RFC 3261 figure 6.
#[derive(Clone, Copy, Debug, PartialEq, Eq)]
pub enum OtherClientState {
    Trying,
    Proceeding,
    Completed,
    Terminated,
}

/// The client transaction of a request other than INVITE.
#[derive(Clone, Copy, Debug, PartialEq, Eq)]
pub struct OtherClient {
    machine: Machine<OtherClientState>,
}

impl Model for OtherClient {
    ghost use Rattle.sip_txn.specs.declared.machine.Machine.{Machine};
    ghost use Rattle.sip_txn.specs.declared.other_client.OtherClientState.{OtherClientState};

    ghost Value = { Machine OtherClientState };

    ghost use Rattle.sip_txn.specs.OtherClient.{RunsTimersOf};

    ghost view = { λ m. m.machine };

    ghost invariant = { λ m. RunsTimersOf m.machine.reliability m.machine.state m.machine.timers };

    ghost inverse = { λ m. record { machine = m } };
}

impl OtherClient {
    ghost use Rattle.std.specs.Prelude.{◌≡◌};
    ghost use Rattle.sip_txn.specs.Timers.{least, waits};
    ghost use Rattle.sip_txn.specs.Machine.{machine_after, out_of};
    ghost use Rattle.sip_txn.specs.Runs.{IsOver};
    ghost use Rattle.sip_txn.specs.OtherClient.{other_client, HandsUpOneEnd, RetransmitsUnanswered, RunsOutByTicks, RunsTimersOf};

    /// A transaction whose request is sent at this moment, in milliseconds: it is in Trying, with
    /// timers E and F, or with F alone over a reliable transport (RFC 3261 section 17.1.2.2). Who
    /// starts it sends this first request.
    pub fn start(now: u64, reliability: Reliability) -> OtherClient
        ensures value { result ≡ record { state = OtherClientState.Trying; timers = waits reliability now; reliability = reliability } }
        ensures once { HandsUpOneEnd result }
        ensures unanswered { RetransmitsUnanswered reliability now result }
    {
        OtherClient {
            machine: Machine {
                state: OtherClientState::Trying,
                timers: Timers::waiting(reliability, now),
                reliability,
            },
        }
    }

    /// The state that the transaction is in.
    pub fn state(&self) -> OtherClientState
        ensures { result ≡ self.now.state }
    {
        self.machine.state
    }

    /// The moment, in milliseconds, of the earliest running timer: a tick is wanted then. Ticks
    /// alone, each when it is due, lead to the end of a state in which a timer runs.
    pub fn due(&self) -> Option<u64>
        ensures value { result ≡ least self.now.timers }
        ensures runs { RunsTimersOf self.now.reliability self.now.state self.now.timers }
        ensures runs_out { RunsOutByTicks self.now.reliability self.now.state self.now }
        ensures over { self.now.state ≡ OtherClientState.Terminated → IsOver other_client self.now }
    {
        self.machine.timers.due()
    }

    /// Feeds the transaction an event at this moment, in milliseconds, and says what to send and to
    /// pass.
    pub fn on(&mut self, event: TxEvent, now: u64) -> TxOut
        ensures next { self.new ≡ machine_after other_client event now self.old }
        ensures out { result ≡ out_of other_client event now self.old }
    {
        let Machine { state, timers, .. } = self.machine;
        let row = listed(state, timers.input(event, now));
        self.machine.follow(row, now)
    }
}

ghost use Rattle.std.specs.Prelude.{◌≡◌};
ghost use Rattle.sip_txn.specs.OtherClient.{other_client};

/// The table's row for a state and an input (RFC 3261 section 17.1.2.2).
fn listed(state: OtherClientState, input: MachineInput) -> Option<MachineRow<OtherClientState>>
    ensures { result ≡ other_client state input }
{
    use TimerChange::{Again, Keep, Linger, StopAll};
    use MachineInput::{EndDue, Event, RepeatDue};
    use OtherClientState::{Completed, Proceeding, Terminated, Trying};
    use TxEvent::{Failure, Provisional, Stop, Success, TransportError};

    let request = TxOut::sends(TxSend::Request);
    let response = TxOut::passes(TxPass::Response);
    let timeout = TxOut::passes(TxPass::Timeout);
    let fault = TxOut::passes(TxPass::Fault);
    let silent = TxOut::silent();
    match (state, input) {
        // Timer E fires, or timer F.
        (Trying, RepeatDue) => goes_to(Trying, Again(Growth::DoubledUpToT2), request),
        (Proceeding, RepeatDue) => goes_to(Proceeding, Again(Growth::SetToT2), request),
        (Trying | Proceeding, EndDue) => goes_to(Terminated, StopAll, timeout),
        (Trying | Proceeding, Event(TransportError)) => goes_to(Terminated, StopAll, fault),
        // Timers E and F run on.
        (Trying | Proceeding, Event(Provisional)) => goes_to(Proceeding, Keep, response),
        // Timer K starts.
        (Trying | Proceeding, Event(Success | Failure)) => goes_to(Completed, Linger(T4), response),
        // Timer K fires.
        (Completed, EndDue) => goes_to(Terminated, StopAll, silent),
        (_, Event(Stop)) => goes_to(Terminated, StopAll, silent),
        _ => None,
    }
}
