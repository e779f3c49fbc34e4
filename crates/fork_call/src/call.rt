//! Calls.
ghost use Rattle.std.specs.Prelude.{◌≡◌, ◌≢◌, ◌⊎◌, ◌↔◌, length, false, true, Some, IfErr, IfNone, IfOk, IfSome, IsErrOf, IsOk, IsTrue, OnErr, OnOk};
ghost use Rattle.sip_route.specs.RequestKey.{request_key};
ghost use Rattle.sip_via.specs.ReadTop.{IsTopOf};
ghost use Rattle.sip_via.specs.TopVia.{top_value};
ghost use Rattle.call_laws.specs.Sending.{Sends};
ghost use Rattle.call_model.specs.Due.{IsIdle, IsLeastDue, IsOver, is_due_at};
ghost use Rattle.call_model.specs.Failed.{Fails};
ghost use Rattle.call_model.specs.Pump.{Pumps};
ghost use Rattle.call_model.specs.SeenStep.{pumped};
ghost use Rattle.call_model.specs.SeenTaken.{seen_taken};
ghost use Rattle.call_model.specs.Server.{served_due};
ghost use Rattle.call_model.specs.Take as take;
ghost use Rattle.call_state.specs.Kinds.{is_response};
ghost use Rattle.call_state.specs.Matching.{BelongsTo, BelongsToNone, IsReadBranch};
ghost use Rattle.fork_call.specs.Opening.{IsOpenable, Opens, Refuses};
ghost use Rattle.call_state.specs.SeenMatchedTransaction.{seen_recipient};
ghost use Rattle.fork_call.specs.inner.SeenAction.{seen_action};
ghost use Rattle.fork_call.specs.Takes.{Takes};
ghost use Rattle.fork_call.specs.Waits.{waits_until};
ghost use Rattle.fork_call.specs.inner.Ending.{AreOver};
ghost use Rattle.fork_call.specs.Timing.{IsTimed};
ghost use Rattle.fork_call.specs.inner.Timing.{row_of_cause};

use crate::action::Action;
use crate::fault::TakeFault;
use crate::opening_request::OpeningRequest;
use crate::pending_call::PendingCall;
use crate::schedule::{BranchTimers, earlier, is_due};
use crate::taking::{give, room_for, row_of_transaction as row_to};
use crate::timing::time_step;
use call_branch::response_status;
use call_laws::{calls_send_right, what_is_sent_is_right};
use call_model::{Cause, Step, Taken, calls_stay_sound};
use call_state::{CallState, MatchedTransaction, match_request, match_response, match_transaction};
use call_table::{Numbered, Pending};
use fork_book::Book;
use fork_model::{
    events_make_progress, new_rows_are_contacts, others_stay_open, positions_are_bounded,
    replies_list_all_that_became,
};
use proxy_config::Setup;
use proxy_routing::RequestRejection;
use sip_branch::BranchName;
use sip_text::Message;
use sip_uri::Hop;
use sip_via::{Own, TopVia};
use std::alloc::{AllocError, Allocator, Global};
use std::marker::Model;

/// The row of the branch whose datagram has this cause; None where the datagram is for the caller.
fn row_of_cause(cause: Cause) -> Option<u16>
    ensures { result ≡ row_of_cause cause }
{
    match cause {
        Cause::Request(n) | Cause::Cancel(n) | Cause::Ack(n) => Some(n),
        Cause::Answer | Cause::CancelOk => None,
    }
}

/// Whether the transactions of every branch have ended.
fn branches_are_over<A: Allocator + Clone>(state: &CallState<A>) -> bool
    ensures { IsTrue result ↔ AreOver state.now }
{
    state.is_sized();
    for n in 0..state.book().context().count() {
        if !state.is_branch_over(n) {
            return false;
        }
    }
    true
}

/// A forked request with its transactions: it takes messages and moments, and gives datagrams (RFC 3261 section 16).
#[derive(Drop)]
pub struct Call<A: Allocator + Clone = Global> {
    state: CallState<A>,
    schedule: BranchTimers<A>,
    alloc: A,
}

impl<A: Allocator + Clone> Model for Call<A> {
    ghost use Rattle.call_model.specs.Call as spec;
    ghost use Rattle.fork_call.specs.Timing.{IsTimed};

    ghost Value = { spec.Call };

    ghost view = { λ c. c.state };

    ghost invariant = { λ c. IsTimed c.state c.schedule };
}

impl<A: Allocator + Clone> Call<A> {
    /// The call that a request from `source` opens under this number; the request is neither an ACK nor a CANCEL. The
    /// targets of a request to the domain are the locations of its user; the one target of any other is its Request-URI
    /// (RFC 3261 sections 16.3 to 16.6). Nothing was sent yet; a 100 is owed to an INVITE.
    ///
    /// # Errors
    ///
    /// The first of those of [`RequestRejection`] that holds; `NoMemory` wherever the allocator refuses.
    pub fn open(
        alloc: A,
        setup: &Setup<A>,
        number: u64,
        request: Message<A>,
        source: Hop,
        now: u64,
    ) -> Result<Call<A>, RequestRejection>
        requires { IsOpenable request.start }
        ensures opened { IfOk result (Opens setup.now number request source) }
        ensures refused { IfErr result (Refuses setup.now request source) }
    {
        let opening = OpeningRequest {
            alloc,
            request,
            source,
            now,
        };
        match PendingCall::new(setup, opening) {
            Ok(pending_call) => Ok(pending_call.numbered(number)),
            Err(unrouted) => Err(unrouted.fault()),
        }
    }

    /// The call of this state, whose rows have these moments.
    pub(crate) fn of(state: CallState<A>, schedule: BranchTimers<A>, alloc: A) -> Call<A>
        requires { IsTimed state schedule }
        ensures { result ≡ state }
    {
        Call {
            state,
            schedule,
            alloc,
        }
    }

    /// How many events were posted; each has its reply.
    fn posted(&self) -> u32
        ensures at { result ≡ length self.now.log.history }
        ensures replied { length self.now.log.replies ≡ length self.now.log.history }
    {
        events_make_progress();
        let _rows = self.state.book().context().count();
        self.state.book().history().len() as u32
    }

    /// What is to be done next, if something is due: what is owed to the caller first, then the caller's transaction, then
    /// the rows.
    fn next_action(&self, now: u64) -> Option<Action>
        ensures some { IfSome result (λ action. is_due_at self.now now (seen_action action) ≡ true) }
        ensures none { IfNone result (IsIdle self.now now) }
    {
        if !self.state.owed().is_empty() {
            return Some(Action::SendAnswer);
        }
        if is_due(self.state.server_due(), now) {
            return Some(Action::TickServer);
        }
        self.state.is_sized();
        let _rows = self.state.book().context().count();
        let n = self.schedule.first_due(now)?;
        Some(Action::on_row(&self.state, n as u16, now))
    }

    /// Takes a message that came from `source`, by this transaction, which the message belongs to; of its top Via value this may have
    /// been read.
    fn take_by(
        &mut self,
        to: MatchedTransaction,
        message: Message<A>,
        source: Hop,
        top: Option<&TopVia<A>>,
        now: u64,
    ) -> Result<Taken, TakeFault>
        requires belongs { BelongsTo self.old message (seen_recipient to) }
        requires top { IfSome top (λ top. IsTopOf message source top.now) }
        ensures step { IfOk result (λ taken. Takes self.old now message source (seen_taken taken) self.new) }
        ensures full { IsErrOf result TakeFault.Full → Takes self.old now message source take.Full self.old }
        ensures refused { IfErr result (λ fault. fault ≢ TakeFault.Stray) }
        ensures err { OnErr result (self.new ≡ self.old) }
    {
        let at = self.posted();
        // The next calls run nothing: each shows the prover a fact that holds of every call, message or table.
        self.state.is_sized();
        message.is_message();
        calls_stay_sound();
        calls_send_right();
        positions_are_bounded();
        new_rows_are_contacts();
        others_stay_open();
        replies_list_all_that_became();
        let alloc = self.alloc.clone()?;
        self.schedule.pad(room_for(response_status(&message)))?;
        let taken = give(&mut self.state, alloc, to, message, source, top, now);
        let _rows = self.state.book().context().count();
        time_step(&mut self.schedule, &self.state, row_to(to), at);
        taken
    }

    /// Takes a message that came from `source`, by the one transaction that the message belongs to (RFC 3261 sections 16.7,
    /// 17.1.3 and 17.2.3).
    ///
    /// # Errors
    ///
    /// `Stray` where the message belongs to none; where it belongs to one `Full` where the book takes no more events that
    /// change nothing, else only where the allocator refuses. The call is then as it was.
    pub fn take(&mut self, message: Message<A>, source: Hop, now: u64) -> Result<Taken, TakeFault>
        ensures step { IfOk result (λ taken. Takes self.old now message source (seen_taken taken) self.new) }
        ensures stray { IsErrOf result TakeFault.Stray → BelongsToNone self.old message }
        ensures unmatched { BelongsToNone self.old message → IsErrOf result TakeFault.Stray }
        ensures full { IsErrOf result TakeFault.Full → Takes self.old now message source take.Full self.old }
        ensures err { OnErr result (self.new ≡ self.old) }
    {
        let Some(to) = match_transaction(&self.state, &message) else {
            return Err(TakeFault::Stray);
        };
        let unread: Option<TopVia<A>> = None;
        self.take_by(to, message, source, unread.as_ref(), now)
    }

    /// The same of a response, in whose top Via value this branch of the proxy was read: that value is not read again.
    ///
    /// # Errors
    ///
    /// Those of [`Call::take`].
    pub fn take_response(
        &mut self,
        response: Message<A>,
        branch: BranchName,
        source: Hop,
        now: u64,
    ) -> Result<Taken, TakeFault>
        requires response { is_response response.start ≡ true }
        requires named { IsReadBranch self.old.opened.own (top_value response) branch }
        ensures step { IfOk result (λ taken. Takes self.old now response source (seen_taken taken) self.new) }
        ensures stray { IsErrOf result TakeFault.Stray → BelongsToNone self.old response }
        ensures unmatched { BelongsToNone self.old response → IsErrOf result TakeFault.Stray }
        ensures full { IsErrOf result TakeFault.Full → Takes self.old now response source take.Full self.old }
        ensures err { OnErr result (self.new ≡ self.old) }
    {
        let Some(to) = match_response(&self.state, &response, branch) else {
            return Err(TakeFault::Stray);
        };
        let unread: Option<TopVia<A>> = None;
        self.take_by(to, response, source, unread.as_ref(), now)
    }

    /// The same of a request, which has this key, and of whose top Via value this was read: neither is read again.
    ///
    /// # Errors
    ///
    /// Those of [`Call::take`].
    pub fn take_request(
        &mut self,
        request: Message<A>,
        key: &[u8],
        top: &TopVia<A>,
        source: Hop,
        now: u64,
    ) -> Result<Taken, TakeFault>
        requires request { is_response request.start ≡ false }
        requires key { request_key request ≡ Some key.now }
        requires top { IsTopOf request source top.now }
        ensures step { IfOk result (λ taken. Takes self.old now request source (seen_taken taken) self.new) }
        ensures stray { IsErrOf result TakeFault.Stray → BelongsToNone self.old request }
        ensures unmatched { BelongsToNone self.old request → IsErrOf result TakeFault.Stray }
        ensures full { IsErrOf result TakeFault.Full → Takes self.old now request source take.Full self.old }
        ensures err { OnErr result (self.new ≡ self.old) }
    {
        let Some(to) = match_request(&self.state, &request, key) else {
            return Err(TakeFault::Stray);
        };
        self.take_by(to, request, source, Some(top), now)
    }

    /// Does one thing that is due; where nothing is, nothing changes. What the call sends is what the cause of the datagram
    /// says, and goes where the cause says.
    ///
    /// # Errors
    ///
    /// Only where something is due and the allocator refuses; then the call is as it was.
    pub fn pump(&mut self, now: u64) -> Result<Step<A>, AllocError>
        ensures step { IfOk result (λ did. Pumps self.old now (pumped did) self.new) }
        ensures idle { IsIdle self.old now → IsOk result }
        ensures right { IfOk result (λ did. Sends self.old (pumped did)) }
        ensures err { OnErr result (self.new ≡ self.old) }
    {
        what_is_sent_is_right();
        let Some(action) = self.next_action(now) else {
            return Ok(Step::Idle);
        };
        let at = self.posted();
        // The next calls run nothing: each shows the prover a fact that holds of every call, message or table.
        self.state.is_sized();
        calls_stay_sound();
        calls_send_right();
        positions_are_bounded();
        new_rows_are_contacts();
        others_stay_open();
        replies_list_all_that_became();
        let step = action.perform(&mut self.state, now)?;
        time_step(&mut self.schedule, &self.state, action.row(), at);
        Ok(step)
    }

    /// Tells the transaction of a datagram that the datagram could not be sent (RFC 3261 sections 16.9 and 17.1.4).
    ///
    /// # Errors
    ///
    /// Only where the allocator refuses; then the call is as it was.
    pub fn failed(&mut self, cause: Cause, now: u64) -> Result<(), AllocError>
        ensures step { OnOk result (Fails self.old now cause self.new) }
        ensures err { OnErr result (self.new ≡ self.old) }
    {
        let at = self.posted();
        // The next calls run nothing: each shows the prover a fact that holds of every call, message or table.
        self.state.is_sized();
        calls_stay_sound();
        calls_send_right();
        positions_are_bounded();
        new_rows_are_contacts();
        others_stay_open();
        replies_list_all_that_became();
        self.state.failed(cause, now)?;
        time_step(&mut self.schedule, &self.state, row_of_cause(cause), at);
        Ok(())
    }

    /// The earliest moment at which something is to be done: 0 where an answer is owed, as that is to be done at any
    /// moment.
    pub fn due(&self) -> Option<u64>
        ensures { IsLeastDue self.now result }
    {
        if !self.state.owed().is_empty() {
            return Some(0);
        }
        self.state.is_sized();
        earlier(self.state.server_due(), self.schedule.least())
    }

    /// The moment at which the transaction of the caller wants a tick; None where none of its timers runs (RFC 3261 section
    /// 17.2).
    pub fn server_due(&self) -> Option<u64>
        ensures { result ≡ served_due self.now.server.machine }
    {
        self.state.server_due()
    }

    /// Whether every branch has ended, every transaction is over, and nothing is owed or will be due.
    pub fn over(&self) -> bool
        ensures { IsTrue result ↔ IsOver self.now }
    {
        if self.due().is_some() {
            return false;
        }
        if !self.state.book().context().finished() {
            return false;
        }
        if !self.state.is_server_over() {
            return false;
        }
        branches_are_over(&self.state)
    }

    /// The events that were posted, and the context that they lead to.
    pub fn book(&self) -> &Book<A>
        ensures { result.now ≡ self.now.log }
    {
        self.state.book()
    }

    /// The request that opened the call, marked with its source (RFC 3261 section 18.2.1).
    pub fn request(&self) -> &Message<A>
        ensures { result.now ≡ self.now.opened.request }
    {
        self.state.opened().request()
    }

    /// The number that the call was opened with.
    pub fn number(&self) -> u64
        ensures { result ≡ self.now.opened.number }
    {
        self.state.opened().number()
    }

    /// Where the answers to the caller go (RFC 3261 section 18.2.2).
    pub fn caller(&self) -> Hop
        ensures { result ≡ self.now.opened.caller }
    {
        self.state.opened().caller()
    }

    /// Until which moment branch n is waited for, in milliseconds: until its timer C fires, or, where it was cancelled, until it is given up.
    /// None where neither runs (RFC 3261 sections 9.1 and 16.8).
    pub fn waits_until(&self, n: u16) -> Option<u64>
        ensures { result ≡ waits_until self.now n }
    {
        let view = self.state.branch_view(n);
        if view.timer_c_runs {
            view.timer_c_due
        } else if view.cancelled {
            view.give_up_due
        } else {
            None
        }
    }

    /// The address of the proxy that the call was opened at: the Via values of its branches have it.
    pub fn own(&self) -> Own
        ensures { result ≡ self.now.opened.own }
    {
        self.state.opened().own()
    }
}

impl<A: Allocator + Clone> Numbered for Call<A> {
    ghost number_of = { λ call. call.opened.number };

    /// The number that the call was opened with.
    fn number(&self) -> u64 {
        Call::number(self)
    }
}
