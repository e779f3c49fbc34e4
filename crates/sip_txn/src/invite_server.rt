//! The server transaction of an INVITE (RFC 3261 section 17.2.1, with RFC 6026 section 7.1).

use crate::event::{TxEvent, TxOut, TxPass, TxSend};
use crate::machine::{Machine, MachineRow, goes_to};
use crate::timers::{Growth, MachineInput, Reliability, T1_TIMES_64, T4, TimerChange, Timers};
use std::marker::Model;

/// The states of RFC 3261 figure 7, with Accepted of RFC 6026.
#[derive(Clone, Copy, Debug, PartialEq, Eq)]
pub enum InviteServerState {
    Proceeding,
    Completed,
    Confirmed,
    Accepted,
    Terminated,
}

/// The server transaction of an INVITE. A transport error leaves it as it is.
#[derive(Clone, Copy, Debug, PartialEq, Eq)]
pub struct InviteServer {
    machine: Machine<InviteServerState>,
}

impl Model for InviteServer {
    ghost use Rattle.sip_txn.specs.declared.machine.Machine.{Machine};
    ghost use Rattle.sip_txn.specs.declared.invite_server.InviteServerState.{InviteServerState};

    ghost Value = { Machine InviteServerState };

    ghost use Rattle.sip_txn.specs.InviteServer.{RunsTimersOf};

    ghost view = { λ m. m.machine };

    ghost invariant = { λ m. RunsTimersOf m.machine.reliability m.machine.state m.machine.timers };

    ghost inverse = { λ m. record { machine = m } };
}

impl InviteServer {
    ghost use Rattle.std.specs.Prelude.{◌≡◌};
    ghost use Rattle.sip_txn.specs.Timers.{least, no_timers};
    ghost use Rattle.sip_txn.specs.Machine.{machine_after, out_of};
    ghost use Rattle.sip_txn.specs.Runs.{IsOver};
    ghost use Rattle.sip_txn.specs.InviteServer.{invite_server, HandsUpOneEnd, RetransmitsFailure, RunsOutByTicks, RunsTimersOf};

    /// A transaction whose INVITE has come: it is in Proceeding, and no timer runs (RFC 3261 section
    /// 17.2.1). Who starts it sends the 100.
    pub fn start(_now: u64, reliability: Reliability) -> InviteServer
        ensures value { result ≡ record { state = InviteServerState.Proceeding; timers = no_timers; reliability = reliability } }
        ensures once { HandsUpOneEnd result }
        ensures unacknowledged { RetransmitsFailure reliability result }
    {
        InviteServer {
            machine: Machine {
                state: InviteServerState::Proceeding,
                timers: Timers::none(),
                reliability,
            },
        }
    }

    /// The state that the transaction is in.
    pub fn state(&self) -> InviteServerState
        ensures { result ≡ self.now.state }
    {
        self.machine.state
    }

    /// The moment, in milliseconds, of the earliest running timer: a tick is wanted then. Ticks
    /// alone, each when it is due, lead to the end of a state in which a timer runs.
    pub fn due(&self) -> Option<u64>
        ensures value { result ≡ least self.now.timers }
        ensures runs { RunsTimersOf self.now.reliability self.now.state self.now.timers }
        ensures runs_out { RunsOutByTicks self.now.reliability self.now.state self.now }
        ensures over { self.now.state ≡ InviteServerState.Terminated → IsOver invite_server self.now }
    {
        self.machine.timers.due()
    }

    /// Feeds the transaction an event at this moment, in milliseconds, and says what to send and to
    /// pass.
    pub fn on(&mut self, event: TxEvent, now: u64) -> TxOut
        ensures next { self.new ≡ machine_after invite_server event now self.old }
        ensures out { result ≡ out_of invite_server event now self.old }
    {
        let Machine { state, timers, .. } = self.machine;
        let row = listed(state, timers.input(event, now));
        self.machine.follow(row, now)
    }
}

ghost use Rattle.std.specs.Prelude.{◌≡◌};
ghost use Rattle.sip_txn.specs.InviteServer.{invite_server};

/// The table's row for a state and an input (RFC 3261 section 17.2.1, with RFC 6026 section 7.1).
fn listed(state: InviteServerState, input: MachineInput) -> Option<MachineRow<InviteServerState>>
    ensures { result ≡ invite_server state input }
{
    use TimerChange::{Again, EndIn, Keep, Linger, RepeatAndEnd, StopAll};
    use MachineInput::{EndDue, Event, RepeatDue};
    use InviteServerState::{Accepted, Completed, Confirmed, Proceeding, Terminated};
    use TxEvent::{Ack, AnswerFailure, AnswerProvisional, AnswerSuccess, Request};

    let response = TxOut::sends(TxSend::Response);
    let timeout = TxOut::passes(TxPass::Timeout);
    let acknowledged = TxOut::passes(TxPass::Ack);
    let silent = TxOut::silent();
    match (state, input) {
        (Proceeding, Event(Request | AnswerProvisional)) => goes_to(Proceeding, Keep, response),
        // Timer L starts.
        (Proceeding, Event(AnswerSuccess)) => goes_to(Accepted, EndIn(T1_TIMES_64), response),
        // Timers G and H start.
        (Proceeding, Event(AnswerFailure)) => goes_to(Completed, RepeatAndEnd, response),
        (Completed, Event(Request)) => goes_to(Completed, Keep, response),
        // Timer G fires, or timer H.
        (Completed, RepeatDue) => goes_to(Completed, Again(Growth::DoubledUpToT2), response),
        (Completed, EndDue) => goes_to(Terminated, StopAll, timeout),
        // Timer I starts.
        (Completed, Event(Ack)) => goes_to(Confirmed, Linger(T4), silent),
        (Accepted, Event(AnswerSuccess)) => goes_to(Accepted, Keep, response),
        (Accepted, Event(Ack)) => goes_to(Accepted, Keep, acknowledged),
        // Timer I fires, or timer L.
        (Confirmed | Accepted, EndDue) => goes_to(Terminated, StopAll, silent),
        _ => None,
    }
}
