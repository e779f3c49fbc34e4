//! What a call has to do next.
ghost use Rattle.std.specs.Prelude.{◌≡◌, true, IfOk, OnErr};
ghost use Rattle.sip_txn.specs.Timers.{is_due};
ghost use Rattle.call_model.specs.Behind.{KeepsAnswers};
ghost use Rattle.call_model.specs.Due.{is_due_at};
ghost use Rattle.call_model.specs.Pump.{Does};
ghost use Rattle.call_model.specs.SeenStep.{pumped};
ghost use Rattle.call_model.specs.Sound.{IsSound};
ghost use Rattle.fork_call.specs.inner.SeenAction.{seen_action};
ghost use Rattle.fork_call.specs.inner.Timing.{row_moment, row_of_action};

use crate::schedule::is_due;
use call_model::Step;
use call_state::CallState;
use std::alloc::{AllocError, Allocator};

/// One thing that a call may have to do; the number names a branch.
#[derive(Clone, Copy, PartialEq, Eq, Debug)]
pub(crate) enum Action {
    /// Send the first answer that is owed to the caller.
    SendAnswer,
    /// A tick of the caller's transaction.
    TickServer,
    SendRequest(u16),
    SendCancel(u16),
    SendAck(u16),
    /// A tick of the client transaction of a branch.
    TickClient(u16),
    /// A tick of the client transaction of a branch's CANCEL.
    TickCancel(u16),
    /// Timer C of a branch (RFC 3261 section 16.8).
    FireTimerC(u16),
    /// The end of the wait for a cancelled branch (RFC 3261 section 9.1).
    GiveUp(u16),
}

impl Action {
    /// The row of the branch on which the thing is done; None where it is done for the caller.
    pub(crate) fn row(self) -> Option<u16>
        ensures { result ≡ row_of_action (seen_action self) }
    {
        match self {
            Action::SendAnswer => None,
            Action::TickServer => None,
            Action::SendRequest(n) => Some(n),
            Action::SendCancel(n) => Some(n),
            Action::SendAck(n) => Some(n),
            Action::TickClient(n) => Some(n),
            Action::TickCancel(n) => Some(n),
            Action::FireTimerC(n) => Some(n),
            Action::GiveUp(n) => Some(n),
        }
    }

    /// What is to be done on row n, whose moment has come: what is owed before the timers, and the ends of waiting before
    /// the ticks.
    pub(crate) fn on_row<A: Allocator + Clone>(state: &CallState<A>, n: u16, now: u64) -> Action
        requires due { is_due now (row_moment state.now n) ≡ true }
        ensures { is_due_at state.now now (seen_action result) ≡ true }
    {
        let branch = state.branch_view(n);
        if branch.ack_owed {
            return Action::SendAck(n);
        }
        if branch.sent && !branch.cancel_sent && branch.cancelled {
            return Action::SendCancel(n);
        }
        if branch.trying && !branch.sent {
            return Action::SendRequest(n);
        }
        if branch.cancelled && is_due(branch.give_up_due, now) {
            return Action::GiveUp(n);
        }
        if branch.timer_c_runs && is_due(branch.timer_c_due, now) {
            return Action::FireTimerC(n);
        }
        if is_due(branch.client_due, now) {
            return Action::TickClient(n);
        }
        Action::TickCancel(n)
    }

    /// Does the thing, where it is due.
    ///
    /// # Errors
    ///
    /// Only where the allocator refuses; then the state is as it was.
    pub(crate) fn perform<A: Allocator + Clone>(
        self,
        state: &mut CallState<A>,
        now: u64,
    ) -> Result<Step<A>, AllocError>
        requires sound { IsSound state.old }
        requires answers { KeepsAnswers state.old }
        requires due { is_due_at state.old now (seen_action self) ≡ true }
        ensures step { IfOk result (λ step. Does state.old now (seen_action self) (pumped step) state.new) }
        ensures err { OnErr result (state.new ≡ state.old) }
    {
        match self {
            Action::SendAnswer => state.send_next_response(now),
            Action::TickServer => state.tick_server(now),
            Action::SendRequest(n) => Ok(Step::Send(state.send_request(n, now)?)),
            Action::SendCancel(n) => Ok(Step::Send(state.send_cancel(n, now)?)),
            Action::SendAck(n) => Ok(Step::Send(state.send_ack(n))),
            Action::TickClient(n) => state.tick_client(n, now),
            Action::TickCancel(n) => state.tick_cancel(n, now),
            Action::FireTimerC(n) => {
                state.fire_timer_c(n, now)?;
                Ok(Step::Did)
            }
            Action::GiveUp(n) => {
                state.give_up(n, now)?;
                Ok(Step::Did)
            }
        }
    }
}
