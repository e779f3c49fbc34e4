//! The timers of a branch: those of its transactions, timer C, and the end of the wait for a branch that was cancelled.
ghost use Rattle.std.specs.Prelude.{◌≡◌, true, IfOk, OnErr, OnOk};
ghost use Rattle.fork_model.specs.Table as table;
ghost use Rattle.call_model.specs.Call.{is_cancel_sent, is_sent, row_passes};
ghost use Rattle.call_model.specs.Due.{FireTimerC, is_due_at};
ghost use Rattle.call_model.specs.Pump as pump;
ghost use Rattle.call_model.specs.Pump.{FiresTimerC, GivesUp, OnBranch, OnPart, TicksCancel, TicksClient};
ghost use Rattle.call_model.specs.SeenDatagram.{seen};
ghost use Rattle.call_model.specs.SeenStep.{pumped};
ghost use Rattle.call_model.specs.Sound.{IsSound};
ghost use Rattle.call_state.specs.inner.CallStateInside.{IsCancelAgain, IsRequestAgain};

use crate::state::CallState;
use call_branch::{is_request, is_timeout};
use call_model::{Cause, Datagram, Step};
use fork_context::Event;
use sip_txn::TxEvent;
use std::alloc::{AllocError, Allocator};

impl<A: Allocator + Clone> CallState<A> {
    /// The request of branch n as it was sent, again.
    fn request_again(&self, n: u16) -> Result<Datagram<A>, AllocError>
        requires there { is_sent self.now n ≡ true }
        ensures { IfOk result (λ d. OnBranch self.now n (λ destination branch. IsRequestAgain n destination branch (seen d))) }
    {
        let sent = self.part(n).sent();
        Ok(Datagram {
            to: self.destination(n).hop(),
            bytes: Vec::from_slice(self.allocator()?, sent)?,
            cause: Cause::Request(n),
        })
    }

    /// A tick of the client transaction of branch n: timers A and E send its request again, timers B and F end the
    /// branch, the others end the transaction (RFC 3261 section 17.1).
    ///
    /// # Errors
    ///
    /// Only where the allocator refuses; then the state is as it was.
    pub fn tick_client(&mut self, n: u16, now: u64) -> Result<Step<A>, AllocError>
        requires there { is_sent self.old n ≡ true }
        requires sound { IsSound self.old }
        ensures ok { IfOk result (λ step. OnBranch self.old n (λ destination branch. TicksClient self.old now n destination branch (pumped step) self.new)) }
        ensures err { OnErr result (self.new ≡ self.old) }
    {
        let _destination = self.destination(n);
        let (client, out) = self.part(n).on_event(TxEvent::Tick, now);
        if is_timeout(out.pass) {
            self.end_branch(n, client, Event::Timeout(n))?;
            return Ok(Step::Did);
        }
        if !is_request(out.send) {
            self.respond_branch(n, client, None);
            return Ok(Step::Did);
        }
        let datagram = self.request_again(n)?;
        self.respond_branch(n, client, None);
        Ok(Step::Send(datagram))
    }

    /// The CANCEL of branch n as it was sent, again.
    fn cancel_again(&self, n: u16) -> Result<Datagram<A>, AllocError>
        requires there { is_cancel_sent self.now n ≡ true }
        ensures { IfOk result (λ d. OnBranch self.now n (λ destination branch. IsCancelAgain n destination branch (seen d))) }
    {
        let Some(cancelling) = self.part(n).cancelling() else {
            unreachable!()
        };
        Ok(Datagram {
            to: self.destination(n).hop(),
            bytes: Vec::from_slice(self.allocator()?, cancelling.sent())?,
            cause: Cause::Cancel(n),
        })
    }

    /// A tick of the client transaction of branch n's CANCEL, which sends the CANCEL again or ends; what it passes is
    /// not posted (RFC 3261 sections 9.1 and 17.1.2).
    ///
    /// # Errors
    ///
    /// Only where the allocator refuses; then the state is as it was.
    pub fn tick_cancel(&mut self, n: u16, now: u64) -> Result<Step<A>, AllocError>
        requires there { is_cancel_sent self.old n ≡ true }
        ensures ok { IfOk result (λ step. OnBranch self.old n (λ destination branch. TicksCancel self.old now n destination branch (pumped step) self.new)) }
        ensures err { OnErr result (self.new ≡ self.old) }
    {
        let _destination = self.destination(n);
        let Some(cancelling) = self.part(n).cancelling() else {
            unreachable!()
        };
        let (client, out) = cancelling.on_event(TxEvent::Tick, now);
        if !is_request(out.send) {
            self.cancel_on_branch(n, client);
            return Ok(Step::Did);
        }
        let datagram = self.cancel_again(n)?;
        self.cancel_on_branch(n, client);
        Ok(Step::Send(datagram))
    }

    /// Timer C of branch n fires: a branch that has not rung ends, and its transaction is stopped; one that has rung is
    /// cancelled, and its CANCEL says no reason (RFC 3261 section 16.8).
    ///
    /// # Errors
    ///
    /// Only where the allocator refuses; then the state is as it was.
    pub fn fire_timer_c(&mut self, n: u16, now: u64) -> Result<(), AllocError>
        requires due { is_due_at self.old now (FireTimerC n) ≡ true }
        requires sound { IsSound self.old }
        ensures ok { OnOk result (OnPart self.old n (λ branch. FiresTimerC self.old now n branch (row_passes table.is_trying self.old n) pump.Did self.new)) }
        ensures err { OnErr result (self.new ≡ self.old) }
    {
        let (client, _out) = self.part(n).on_event(TxEvent::Stop, now);
        if !self.is_trying(n) {
            self.post_bare(Event::TimerC(n))?;
            self.keep_branch(n, None, None);
            return Ok(());
        }
        self.end_branch(n, client, Event::TimerC(n))?;
        Ok(())
    }

    /// Gives up branch n, which was cancelled and whose final response has not come: it ends, and its transaction is
    /// stopped (RFC 3261 section 9.1).
    ///
    /// # Errors
    ///
    /// Only where the allocator refuses; then the state is as it was.
    pub fn give_up(&mut self, n: u16, now: u64) -> Result<(), AllocError>
        requires there { is_sent self.old n ≡ true }
        requires cancelled { row_passes table.is_cancelled self.old n ≡ true }
        ensures ok { OnOk result (OnPart self.old n (λ branch. GivesUp self.old now n branch pump.Did self.new)) }
        ensures err { OnErr result (self.new ≡ self.old) }
    {
        let (client, _out) = self.part(n).on_event(TxEvent::Stop, now);
        self.end_branch(n, client, Event::GiveUp(n))?;
        Ok(())
    }
}
