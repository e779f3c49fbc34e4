//! What was sent to a branch, what it owes, where it is, and what is waited for.
ghost use Rattle.std.specs.Prelude.{◌≡◌, ◌↔◌, IsTrue, Some, is_some};
ghost use Rattle.std.specs.Option.{option_copied};
ghost use Rattle.fork_model.specs.Table as table;
ghost use Rattle.call_model.specs.Call.{is_cancel_on, is_cancel_sent, is_sent, nth_branch, owes_ack, owes_ack_on, row_passes, runs_timer_c};
ghost use Rattle.call_model.specs.Due.{IsOverBranch, cancel_at, client_at, give_up_at, timer_c_at};
ghost use Rattle.call_model.specs.Branch as parts;
ghost use Rattle.call_model.specs.Server as server;

use crate::state::CallState;
use crate::states::{shows_open, shows_trying, state_flags};
use call_branch::Branch;
use std::alloc::Allocator;

/// What one look at a branch shows: what was sent to it and what it owes, where it is, and from when on something is to be done on it.
#[derive(Clone, Copy)]
pub struct BranchView {
    /// The request to its target was sent.
    pub sent: bool,
    /// Its CANCEL was sent (RFC 3261 section 9.1).
    pub cancel_sent: bool,
    /// It owes an ACK (RFC 3261 section 17.1.1.3).
    pub ack_owed: bool,
    /// It was tried, and no response to it has come.
    pub trying: bool,
    /// It is cancelled, and has not ended.
    pub cancelled: bool,
    /// Its timer C runs: it was tried, and is neither cancelled nor has it ended (RFC 3261 section 16.8).
    pub timer_c_runs: bool,
    /// The moment at which its client transaction wants a tick.
    pub client_due: Option<u64>,
    /// The moment at which the transaction of its CANCEL wants a tick.
    pub cancel_due: Option<u64>,
    /// When its timer C fires, where that runs.
    pub timer_c_due: Option<u64>,
    /// From when on it is given up, where it is cancelled (RFC 3261 section 9.1).
    pub give_up_due: Option<u64>,
}

/// Whether the request of a branch was sent.
fn is_sent_on<A: Allocator>(branch: Option<&Branch<A>>) -> bool
    ensures { result ≡ is_some (option_copied branch.entry) }
{
    branch.is_some()
}

/// Whether a branch owes an ACK.
fn owes_ack_on<A: Allocator>(branch: Option<&Branch<A>>) -> bool
    ensures { result ≡ owes_ack_on (option_copied branch.entry) }
{
    match branch {
        Some(branch) => branch.owes_ack(),
        None => false,
    }
}

/// Whether the CANCEL of a branch was sent.
fn is_cancel_on<A: Allocator>(branch: Option<&Branch<A>>) -> bool
    ensures { result ≡ is_cancel_on (option_copied branch.entry) }
{
    match branch {
        Some(branch) => branch.cancelling().is_some(),
        None => false,
    }
}

/// The moment at which the client transaction of a branch wants a tick.
fn client_at<A: Allocator>(branch: Option<&Branch<A>>) -> Option<u64>
    ensures { result ≡ client_at (option_copied branch.entry) }
{
    branch?.due()
}

/// The moment at which the transaction of a branch's CANCEL wants a tick.
fn cancel_at<A: Allocator>(branch: Option<&Branch<A>>) -> Option<u64>
    ensures { result ≡ cancel_at (option_copied branch.entry) }
{
    branch?.cancelling()?.due()
}

/// When timer C of a branch fires, where it runs.
pub(crate) fn timer_c_at<A: Allocator>(branch: Option<&Branch<A>>) -> Option<u64>
    ensures { result ≡ timer_c_at (option_copied branch.entry) }
{
    branch?.timer_c_at()
}

/// From when on a branch is given up, where it is cancelled.
fn give_up_at<A: Allocator>(branch: Option<&Branch<A>>) -> Option<u64>
    ensures { result ≡ give_up_at (option_copied branch.entry) }
{
    Some(branch?.cancelling()?.give_up_at())
}

impl<A: Allocator + Clone> CallState<A> {
    /// Whether the request to target n was sent.
    pub fn is_sent(&self, n: u16) -> bool
        ensures { result ≡ is_sent self.now n }
    {
        is_sent_on(self.branch(n))
    }

    /// Whether the CANCEL of branch n was sent.
    pub fn is_cancel_sent(&self, n: u16) -> bool
        ensures { result ≡ is_cancel_sent self.now n }
    {
        is_cancel_on(self.branch(n))
    }

    /// Whether branch n was tried, and no response to it has come.
    pub fn is_trying(&self, n: u16) -> bool
        ensures { result ≡ row_passes table.is_trying self.now n }
    {
        shows_trying(self.state(n))
    }

    /// Whether branch n was tried, and has not ended.
    pub fn is_open(&self, n: u16) -> bool
        ensures { result ≡ row_passes table.is_open self.now n }
    {
        shows_open(self.state(n))
    }

    /// What one look at branch n shows. Its row and its transactions are read once.
    pub fn branch_view(&self, n: u16) -> BranchView
        ensures sent { result.sent ≡ is_sent self.now n }
        ensures cancel_sent { result.cancel_sent ≡ is_cancel_sent self.now n }
        ensures ack_owed { result.ack_owed ≡ owes_ack self.now n }
        ensures trying { result.trying ≡ row_passes table.is_trying self.now n }
        ensures cancelled { result.cancelled ≡ row_passes table.is_cancelled self.now n }
        ensures timer_c_runs { result.timer_c_runs ≡ row_passes runs_timer_c self.now n }
        ensures client_due { result.client_due ≡ client_at (nth_branch self.now n) }
        ensures cancel_due { result.cancel_due ≡ cancel_at (nth_branch self.now n) }
        ensures timer_c_due { result.timer_c_due ≡ timer_c_at (nth_branch self.now n) }
        ensures give_up_due { result.give_up_due ≡ give_up_at (nth_branch self.now n) }
    {
        let (trying, cancelled, timer_c_runs) = state_flags(self.state(n));
        let branch = self.branch(n);
        BranchView {
            sent: is_sent_on(branch),
            cancel_sent: is_cancel_on(branch),
            ack_owed: owes_ack_on(branch),
            trying,
            cancelled,
            timer_c_runs,
            client_due: client_at(branch),
            cancel_due: cancel_at(branch),
            timer_c_due: timer_c_at(branch),
            give_up_due: give_up_at(branch),
        }
    }

    /// The moment at which the caller's transaction wants a tick.
    pub fn server_due(&self) -> Option<u64>
        ensures { result ≡ server.served_due self.now.server.machine }
    {
        self.served().due()
    }

    /// Whether the caller's transaction has ended.
    pub fn is_server_over(&self) -> bool
        ensures { IsTrue result ↔ server.is_over self.now.server.machine }
    {
        self.served().is_over()
    }

    /// Whether the transactions of branch n have ended, or its request was not sent.
    pub fn is_branch_over(&self, n: u16) -> bool
        ensures { IsTrue result ↔ ((branch : parts.Branch) → nth_branch self.now n ≡ Some branch → IsOverBranch branch) }
    {
        match self.branch(n) {
            Some(branch) => branch.is_over(),
            None => true,
        }
    }
}
