//! The client transaction of an INVITE (RFC 3261 section 17.1.1, with RFC 6026 section 7.2).

use crate::event::{TxEvent, TxOut, TxPass, TxSend};
use crate::machine::{Machine, MachineRow, goes_to};
use crate::timers::{Growth, MachineInput, Reliability, T1_TIMES_64, TIMER_D, TimerChange, Timers};
use std::marker::Model;

/// The states of RFC 3261 figure 5, with Accepted of RFC 6026.
#[derive(Clone, Copy, Debug, PartialEq, Eq)]
pub enum InviteClientState {
    Calling,
    Proceeding,
    Completed,
    Accepted,
    Terminated,
}

/// The client transaction of an INVITE.
#[derive(Clone, Copy, Debug, PartialEq, Eq)]
pub struct InviteClient {
    machine: Machine<InviteClientState>,
}

impl Model for InviteClient {
    ghost use Rattle.sip_txn.specs.declared.machine.Machine.{Machine};
    ghost use Rattle.sip_txn.specs.declared.invite_client.InviteClientState.{InviteClientState};

    ghost Value = { Machine InviteClientState };

    ghost use Rattle.sip_txn.specs.InviteClient.{RunsTimersOf};

    ghost view = { λ m. m.machine };

    ghost invariant = { λ m. RunsTimersOf m.machine.reliability m.machine.state m.machine.timers };

    ghost inverse = { λ m. record { machine = m } };
}

impl InviteClient {
    ghost use Rattle.std.specs.Prelude.{◌≡◌};
    ghost use Rattle.sip_txn.specs.Timers.{least, waits};
    ghost use Rattle.sip_txn.specs.Machine.{machine_after, out_of};
    ghost use Rattle.sip_txn.specs.Runs.{IsOver};
    ghost use Rattle.sip_txn.specs.InviteClient.{invite_client, HandsUpOneEnd, RetransmitsUnanswered, RunsOutByTicks, RunsTimersOf};

    /// A transaction whose INVITE is sent at this moment, in milliseconds: it is in Calling, with
    /// timers A and B, or with B alone over a reliable transport (RFC 3261 section 17.1.1.2). Who
    /// starts it sends this first INVITE.
    pub fn start(now: u64, reliability: Reliability) -> InviteClient
        ensures value { result ≡ record { state = InviteClientState.Calling; timers = waits reliability now; reliability = reliability } }
        ensures once { HandsUpOneEnd result }
        ensures unanswered { RetransmitsUnanswered reliability now result }
    {
        InviteClient {
            machine: Machine {
                state: InviteClientState::Calling,
                timers: Timers::waiting(reliability, now),
                reliability,
            },
        }
    }

    /// The state that the transaction is in.
    pub fn state(&self) -> InviteClientState
        ensures { result ≡ self.now.state }
    {
        self.machine.state
    }

    /// The moment, in milliseconds, of the earliest running timer: a tick is wanted then. Ticks
    /// alone, each when it is due, lead to the end of a state in which a timer runs.
    pub fn due(&self) -> Option<u64>
        ensures value { result ≡ least self.now.timers }
        ensures runs { RunsTimersOf self.now.reliability self.now.state self.now.timers }
        ensures runs_out { RunsOutByTicks self.now.reliability self.now.state self.now }
        ensures over { self.now.state ≡ InviteClientState.Terminated → IsOver invite_client self.now }
    {
        self.machine.timers.due()
    }

    /// Feeds the transaction an event at this moment, in milliseconds, and says what to send and to
    /// pass.
    pub fn on(&mut self, event: TxEvent, now: u64) -> TxOut
        ensures next { self.new ≡ machine_after invite_client event now self.old }
        ensures out { result ≡ out_of invite_client event now self.old }
    {
        let Machine { state, timers, .. } = self.machine;
        let row = listed(state, timers.input(event, now));
        self.machine.follow(row, now)
    }
}

ghost use Rattle.std.specs.Prelude.{◌≡◌};
ghost use Rattle.sip_txn.specs.InviteClient.{invite_client};

/// The table's row for a state and an input (RFC 3261 section 17.1.1.2, with RFC 6026 section 7.2).
fn listed(state: InviteClientState, input: MachineInput) -> Option<MachineRow<InviteClientState>>
    ensures { result ≡ invite_client state input }
{
    use TimerChange::{Again, EndIn, Keep, Linger, StopAll};
    use MachineInput::{EndDue, Event, RepeatDue};
    use InviteClientState::{Accepted, Calling, Completed, Proceeding, Terminated};
    use TxEvent::{Failure, Provisional, Stop, Success, TransportError};

    let request = TxOut::sends(TxSend::Request);
    let ack = TxOut::sends(TxSend::Ack);
    let response = TxOut::passes(TxPass::Response);
    let acknowledged = TxOut {
        send: TxSend::Ack,
        pass: TxPass::Response,
    };
    let fault = TxOut::passes(TxPass::Fault);
    let silent = TxOut::silent();
    match (state, input) {
        // Timer A fires, or timer B.
        (Calling, RepeatDue) => goes_to(Calling, Again(Growth::Doubled), request),
        (Calling, EndDue) => goes_to(Terminated, StopAll, TxOut::passes(TxPass::Timeout)),
        (Calling, Event(TransportError)) => goes_to(Terminated, StopAll, fault),
        // Timers A and B stop.
        (Calling, Event(Provisional)) => goes_to(Proceeding, StopAll, response),
        (Proceeding, Event(Provisional)) => goes_to(Proceeding, Keep, response),
        // Timer M starts.
        (Calling | Proceeding, Event(Success)) => goes_to(Accepted, EndIn(T1_TIMES_64), response),
        // Timer D starts.
        (Calling | Proceeding, Event(Failure)) => goes_to(Completed, Linger(TIMER_D), acknowledged),
        (Completed, Event(Failure)) => goes_to(Completed, Keep, ack),
        (Completed, Event(TransportError)) => goes_to(Terminated, StopAll, silent),
        (Accepted, Event(Success)) => goes_to(Accepted, Keep, response),
        // Timer D fires, or timer M.
        (Completed | Accepted, EndDue) => goes_to(Terminated, StopAll, silent),
        (_, Event(Stop)) => goes_to(Terminated, StopAll, silent),
        _ => None,
    }
}
