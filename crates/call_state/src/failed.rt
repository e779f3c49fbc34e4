//! A datagram of a call that could not be sent.
ghost use Rattle.std.specs.Prelude.{◌≡◌, OnErr, OnOk};
ghost use Rattle.call_model.specs.Call.{nth_branch};
ghost use Rattle.call_model.specs.Failed.{Fails, FaultsClient, cancel_faulted};
ghost use Rattle.call_model.specs.Sound.{IsSound};

use crate::state::CallState;
use call_branch::is_fault;
use call_model::Cause;
use fork_context::Event;
use sip_txn::TxEvent;
use std::alloc::{AllocError, Allocator};

impl<A: Allocator + Clone> CallState<A> {
    /// Tells the client transaction of branch n that its request, or its ACK, could not be sent.
    fn fault_client(&mut self, n: u16, now: u64) -> Result<(), AllocError>
        requires sound { IsSound self.old }
        ensures ok { OnOk result (FaultsClient self.old now n (nth_branch self.old n) self.new) }
        ensures err { OnErr result (self.new ≡ self.old) }
    {
        let Some(branch) = self.branch(n) else {
            return Ok(());
        };
        let (client, out) = branch.on_event(TxEvent::TransportError, now);
        if !is_fault(out.pass) {
            self.respond_branch(n, client, None);
            return Ok(());
        }
        self.end_branch(n, client, Event::Fault(n))
    }

    /// Tells the transaction of branch n's CANCEL that the CANCEL could not be sent.
    fn fault_cancel(&mut self, n: u16, now: u64)
        ensures { self.new ≡ cancel_faulted self.old now n (nth_branch self.old n) }
    {
        let Some(branch) = self.branch(n) else {
            return;
        };
        let Some(cancelling) = branch.cancelling() else {
            return;
        };
        let (client, _out) = cancelling.on_event(TxEvent::TransportError, now);
        self.cancel_on_branch(n, client);
    }

    /// Tells of a datagram that could not be sent: the transaction of its cause hears of that, and the branch of a request
    /// ends where its transaction waits for a response (RFC 3261 sections 16.9 and 17.1.4). The 200 to a CANCEL has no
    /// transaction, so that nothing changes.
    ///
    /// # Errors
    ///
    /// Only where the allocator refuses; then the state is as it was.
    pub fn failed(&mut self, cause: Cause, now: u64) -> Result<(), AllocError>
        requires sound { IsSound self.old }
        ensures ok { OnOk result (Fails self.old now cause self.new) }
        ensures err { OnErr result (self.new ≡ self.old) }
    {
        match cause {
            Cause::Request(n) => self.fault_client(n, now),
            Cause::Ack(n) => self.fault_client(n, now),
            Cause::Cancel(n) => {
                self.fault_cancel(n, now);
                Ok(())
            }
            Cause::Answer => {
                self.feed_server(TxEvent::TransportError, now);
                Ok(())
            }
            Cause::CancelOk => Ok(()),
        }
    }
}
