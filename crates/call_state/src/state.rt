//! The state of a call.
ghost use Rattle.std.specs.Prelude.{◌≡◌, ◌<◌, ◌&&◌, ◌≤◌, [], true, length, drop, map, slice_get, is_some, List, None, Some, IfOk, OnOk, OnErr, IsErrOf};
ghost use Rattle.std.specs.Option.{option_copied, option_map};
ghost use Rattle.fork_model.specs.Core.{is_full};
ghost use Rattle.fork_model.specs.Event as event;
ghost use Rattle.fork_model.specs.OpenBranches.{fits};
ghost use Rattle.fork_model.specs.Reply as reply;
ghost use Rattle.fork_model.specs.Sources.{offers_of};
ghost use Rattle.fork_model.specs.Table as table;
ghost use Rattle.context_values.specs.EventView.{event_of};
ghost use Rattle.context_values.specs.ReplyView.{up_of};
ghost use Rattle.fork_model.specs.Log.{core_of, table_of};
ghost use Rattle.sip_text.specs.Text.{MessageText, spelling};
ghost use Rattle.sip_uri.specs.Contact.{ContactText};
ghost use Rattle.call_model.specs.Begun.{begun};
ghost use Rattle.call_model.specs.Built.{ack_to, answer_in, status_of};
ghost use Rattle.call_model.specs.Call.{closed_by, is_cancel_sent, is_sent, nth_branch, numbered, owes_ack, row_passes, rows_of, set_branch};
ghost use Rattle.call_model.specs.Closing.{closing_after};
ghost use Rattle.call_branch.specs.AckOwed.{ack_owed};
ghost use Rattle.call_model.specs.Due.{timer_c_at};
ghost use Rattle.call_model.specs.OpenedRequest as opened;
ghost use Rattle.call_branch.specs.BranchInside.{ack_made, cancel_on, cancelled, changed_branch, kept, no_branches, responded, without_ack};
ghost use Rattle.call_state.specs.CallStateInside.{IsSized};
ghost use Rattle.call_state.specs.inner.CallStateInside.{answer_to};
ghost use Rattle.call_state.specs.inner.Plain.{PostsBare};
ghost use Rattle.call_model.specs.Pump as pump;
ghost use Rattle.call_model.specs.Pump.{AnswersWith, OnBranch, OnPart, SendsAck, SendsCancel, SendsRequest, TicksServer, cancel_bytes};
ghost use Rattle.call_caller.specs.NewDestinations.{GivesDestinations, PostsSaid};
ghost use Rattle.call_model.specs.Posting.{destination_of_contact};
ghost use Rattle.call_model.specs.Response.{contacts_for, event_by};
ghost use Rattle.call_model.specs.SeenDatagram.{seen};
ghost use Rattle.call_model.specs.SeenStep.{pumped};
ghost use Rattle.call_model.specs.SeenTaken.{seen_taken};
ghost use Rattle.sip_build.specs.Requests.{reason_lines};
ghost use Rattle.call_model.specs.Server as server;
ghost use Rattle.call_model.specs.Take as take;
ghost use Rattle.call_model.specs.Take.{CancelledBy, cancels, requested_again, served_on};
ghost use Rattle.call_model.specs.Sound.{IsSound};
ghost use Rattle.call_state.specs.inner.StatesShown.{state_shown};

use crate::closing::Closing;
use crate::fault::PostFault;
use crate::look::timer_c_at;
use call_branch::{
    Branch, CancelTransaction, ClientTransaction, Destination, OpenedRequest, ReasonLines,
    answer_event, branch_in, destination_at, is_response, no_branches, put_branch, response_event,
};
use call_caller::{
    OwedAnswer, PendingResponses, ResponseEvent, ResponseQueue, ServerTransaction, add_rows,
    initial_queue, resend_if, response_for,
};
use call_model::{Cause, Datagram, Step, Taken};
use fork_book::Book;
use fork_context::{Event, Kind, PostError, State, Up};
use fork_model::{new_rows_are_contacts, open_branches_take_events, rows_keep_their_numbers};
use sip_text::Message;
use sip_txn::{OtherClient, TxEvent, TxSend};
use sip_uri::Hop;
use std::alloc::{AllocError, Allocator, Global};
use std::marker::Model;

/// A call posts its events under this tag.
const CALL_TAG: u8 = 0;

/// The state of a call: what it was opened with, its book and what closed the table, for each row of the table where its
/// request goes and the branch once that request was sent, and the side of its caller.
#[derive(Drop)]
pub struct CallState<A: Allocator + Clone = Global> {
    opened: OpenedRequest<A>,
    book: Book<A>,
    closing: Closing<A>,
    destinations: Vec<Destination<A>, A>,
    branches: Vec<Option<Branch<A>>, A>,
    served: ServerTransaction,
    owed: ResponseQueue<A>,
    last: Vec<u8, A>,
    alloc: A,
}

impl<A: Allocator + Clone> Model for CallState<A> {
    ghost use Rattle.call_model.specs.Call as spec;
    ghost use Rattle.call_state.specs.CallStateInside.{IsSized, closing_of};

    ghost Value = { spec.Call };

    ghost view = { λ p. record { opened = p.opened; log = p.book; closing = closing_of p.closing; destinations = p.destinations.items; branches = p.branches.items; server = record { machine = p.served; owed = p.owed.items; last = p.last.items } } };

    ghost invariant = { λ p. IsSized p.book p.destinations.items p.branches.items };
}

/// What goes up with the event at this position.
fn up_at<A: Allocator + Clone>(book: &Book<A>, at: u32) -> Up
    ensures { (reply : reply.Reply) → slice_get book.now.replies at ≡ Some reply → up_of result ≡ reply.up }
{
    match book.reply(at) {
        Some(reply) => reply.up(),
        None => Up::Nothing,
    }
}

/// The state of branch n, if there is one.
fn state_of<A: Allocator + Clone>(book: &Book<A>, n: u16) -> Option<State>
    ensures { result ≡ option_map state_shown (slice_get (table_of book.now).rows n) }
{
    Some(book.context().look(n)?.row.state)
}

impl<A: Allocator + Clone> CallState<A> {
    /// The state of a call that was opened with `opened`, with the book of its fork and, for each row of the table, where
    /// its request goes. Nothing was sent yet; a 100 is owed to an INVITE (RFC 3261 sections 16.2 and 17.2.1).
    ///
    /// # Errors
    ///
    /// Only where the allocator refuses.
    pub fn begin(
        alloc: A,
        opened: OpenedRequest<A>,
        book: Book<A>,
        destinations: Vec<Destination<A>, A>,
        now: u64,
    ) -> Result<Self, AllocError>
        requires destinations { length destinations.items ≡ length (table_of book).rows }
        ensures { IfOk result (λ state. state ≡ begun opened book destinations.items) }
    {
        let branches = no_branches(alloc.clone()?, book.context().count())?;
        let owed = initial_queue(alloc.clone()?, opened.kind())?;
        let last = Vec::new(alloc.clone()?);
        let served = ServerTransaction::start(opened.kind(), now, opened.caller().transport);
        Ok(CallState {
            opened,
            book,
            closing: Closing::NotClosed,
            destinations,
            branches,
            served,
            owed,
            last,
            alloc,
        })
    }

    /// Gives the call this number. Its branches are named by the number, so the number is set before anything is sent.
    pub fn set_number(&mut self, number: u64)
        ensures { self.new ≡ numbered number self.old }
    {
        self.opened.set_number(number);
    }

    /// What the call was opened with.
    pub fn opened(&self) -> &OpenedRequest<A>
        ensures { result.now ≡ self.now.opened }
    {
        &self.opened
    }

    /// The request alone that the call was opened with, of a call that is not to be.
    pub fn into_request(self) -> Message<A>
        ensures { result ≡ self.opened.request }
    {
        self.opened.into_request()
    }

    /// The events that were posted, and the context that they lead to.
    pub fn book(&self) -> &Book<A>
        ensures { result.now ≡ self.now.log }
    {
        &self.book
    }

    /// The answers that are owed to the caller, in the order in which they came to be owed.
    pub fn owed(&self) -> PendingResponses<'_, A>
        ensures { result ≡ self.now.server.owed }
    {
        self.owed.answers()
    }

    /// The server transaction.
    pub(crate) fn served(&self) -> &ServerTransaction
        ensures { result.now ≡ self.now.server.machine }
    {
        &self.served
    }

    /// Shows that each row of the table has its destination, and room for its branch.
    pub fn is_sized(&self)
        ensures { IsSized self.now.log self.now.destinations self.now.branches }
    {
        let _destinations = &self.destinations;
    }

    /// The state of branch n, if there is one.
    pub(crate) fn state(&self, n: u16) -> Option<State>
        ensures { result ≡ option_map state_shown (slice_get (rows_of self.now) n) }
    {
        state_of(&self.book, n)
    }

    /// Branch n, if its request was sent.
    pub(crate) fn branch(&self, n: u16) -> Option<&Branch<A>>
        ensures { option_copied result ≡ nth_branch self.now n }
    {
        branch_in(&self.branches, n)
    }

    /// Branch n, whose request was sent.
    pub(crate) fn part(&self, n: u16) -> &Branch<A>
        requires { is_sent self.now n ≡ true }
        ensures { nth_branch self.now n ≡ Some result.now }
    {
        match self.branch(n) {
            Some(branch) => branch,
            None => unreachable!(),
        }
    }

    /// Where the request of branch n goes, which was sent.
    pub(crate) fn destination(&self, n: u16) -> &Destination<A>
        requires { is_sent self.now n ≡ true }
        ensures { slice_get self.now.destinations n ≡ Some result.now }
    {
        destination_at(&self.destinations, n)
    }

    /// The failure that branch n keeps, if it has one.
    pub(crate) fn kept_answer(&self, n: u16) -> Option<&Message<A>>
        ensures { option_copied result ≡ answer_in (nth_branch self.now n) }
    {
        self.branch(n)?.answer()
    }

    /// A further owner of the allocator.
    pub(crate) fn allocator(&self) -> Result<A, AllocError> {
        self.alloc.clone()
    }

    // ---- one change of a branch

    /// Sets the client transaction of branch n, which went on; where an ACK was made, the branch owes it.
    pub(crate) fn respond_branch(
        &mut self,
        n: u16,
        client: ClientTransaction,
        ack: Option<Vec<u8, A>>,
    )
        requires there { n < length self.old.branches }
        ensures { self.new ≡ record self.old { branches = changed_branch (responded client (option_map (λ v. v.items) ack)) self.old.branches n } }
    {
        if let Some(branch) = &mut self.branches[n as usize] {
            branch.respond(client, ack);
        }
    }

    /// Notes that a response of branch n was posted: when timer C fires from now on, and the failure that is kept, if there
    /// is one.
    pub(crate) fn keep_branch(
        &mut self,
        n: u16,
        timer_c_at: Option<u64>,
        answer: Option<Message<A>>,
    )
        requires there { n < length self.old.branches }
        ensures { self.new ≡ record self.old { branches = changed_branch (kept timer_c_at answer) self.old.branches n } }
    {
        if let Some(branch) = &mut self.branches[n as usize] {
            branch.keep(timer_c_at, answer);
        }
    }

    /// Notes what closed the table, where the answer with this status did that was posted last.
    pub(crate) fn note_closing(&mut self, status: u16)
        ensures { self.new ≡ closed_by (closing_after (table_of self.old.log).closed status self.old.closing) self.old }
    {
        self.closing.note(self.book.context().closed(), status);
    }

    /// Notes that the CANCEL of branch n was sent.
    fn cancel_branch(&mut self, n: u16, cancelling: CancelTransaction<A>)
        requires there { n < length self.old.branches }
        ensures { self.new ≡ record self.old { branches = changed_branch (cancelled cancelling) self.old.branches n } }
    {
        if let Some(branch) = &mut self.branches[n as usize] {
            branch.cancel(cancelling);
        }
    }

    /// Sets the transaction of branch n's CANCEL, which went on.
    pub(crate) fn cancel_on_branch(&mut self, n: u16, client: OtherClient)
        requires there { n < length self.old.branches }
        ensures { self.new ≡ record self.old { branches = changed_branch (cancel_on client) self.old.branches n } }
    {
        if let Some(branch) = &mut self.branches[n as usize] {
            branch.cancel_on(client);
        }
    }

    /// Takes the ACK that branch n owes, which it owes no more.
    fn remove_ack(&mut self, n: u16) -> Option<Vec<u8, A>>
        requires there { n < length self.old.branches }
        ensures ack { option_map (λ v. v.items) result ≡ ack_owed self.old n }
        ensures left { self.new ≡ record self.old { branches = changed_branch without_ack self.old.branches n } }
    {
        match &mut self.branches[n as usize] {
            Some(branch) => branch.take_ack(),
            None => None,
        }
    }

    /// Feeds the server transaction an event; what it sends and passes is dropped.
    pub(crate) fn feed_server(&mut self, event: TxEvent, now: u64)
        ensures { self.new ≡ served_on self.old event now }
    {
        let (served, _out) = self.served.on_event(event, now);
        self.served = served;
    }

    /// Takes the first answer off those that are owed to the caller.
    pub(crate) fn pay(&mut self)
        requires some { 0 < length self.old.server.owed }
        ensures { self.new ≡ record self.old { server = record self.old.server { owed = drop 1 self.old.server.owed } } }
    {
        self.owed.dequeue();
    }

    // ---- to a branch

    /// Sends the request to target n, whose client transaction and timer C start (RFC 3261 section 16.6).
    ///
    /// # Errors
    ///
    /// Only where the allocator refuses; then the state is as it was.
    pub fn send_request(&mut self, n: u16, now: u64) -> Result<Datagram<A>, AllocError>
        requires there { n < length (rows_of self.old) }
        ensures ok { IfOk result (λ d. (destination : opened.Destination) × (slice_get self.old.destinations n ≡ Some destination) × SendsRequest self.old now n destination (pump.Send (seen d)) self.new) }
        ensures err { OnErr result (self.new ≡ self.old) }
    {
        let destination = destination_at(&self.destinations, n);
        let bytes = self.opened.request_bytes(&self.alloc, destination, n)?;
        let sent = Vec::from_slice(self.alloc.clone()?, &bytes)?;
        let to = destination.hop();
        let branch = Branch::start(self.opened.kind(), now, destination, sent);
        put_branch(&mut self.branches, n, branch);
        Ok(Datagram {
            to,
            bytes,
            cause: Cause::Request(n),
        })
    }

    /// Whether the CANCEL of branch n says why it is sent: the call does, and timer C has not fired for the branch.
    fn says_why(&self, n: u16) -> bool
        ensures { result ≡ (self.now.opened.reasons && is_some (timer_c_at (nth_branch self.now n))) }
    {
        self.opened.reasons() && timer_c_at(self.branch(n)).is_some()
    }

    /// The CANCEL of branch n as it is sent; its Reason lines, where it has any, say what closed the table (RFC 3261 section 9.1
    /// and RFC 3326).
    fn cancel_bytes(&self, destination: &Destination<A>, n: u16) -> Result<Vec<u8, A>, AllocError>
        ensures { IfOk result (λ bytes. bytes.items ≡ cancel_bytes self.now n destination.now) }
    {
        if self.says_why(n) {
            self.closing
                .cancel_bytes(&self.alloc, &self.opened, destination, n)
        } else {
            self.opened.cancel_bytes(&self.alloc, destination, n, &[])
        }
    }

    /// Sends the CANCEL of branch n, which has a client transaction of its own and says what closed the table (RFC 3261 section
    /// 9.1 and RFC 3326).
    ///
    /// # Errors
    ///
    /// Only where the allocator refuses; then the state is as it was.
    pub fn send_cancel(&mut self, n: u16, now: u64) -> Result<Datagram<A>, AllocError>
        requires there { is_sent self.old n ≡ true }
        ensures ok { IfOk result (λ d. OnBranch self.old n (λ destination branch. SendsCancel self.old now n destination branch (pump.Send (seen d)) self.new)) }
        ensures err { OnErr result (self.new ≡ self.old) }
    {
        let _part = self.part(n);
        let to = self.destination(n).hop();
        let sent = self.cancel_bytes(self.destination(n), n)?;
        let bytes = Vec::from_slice(self.alloc.clone()?, &sent)?;
        self.cancel_branch(n, CancelTransaction::start(now, sent, to.transport));
        Ok(Datagram {
            to,
            bytes,
            cause: Cause::Cancel(n),
        })
    }

    /// Sends the ACK that branch n owes for the failure that came last (RFC 3261 section 17.1.1.3).
    pub fn send_ack(&mut self, n: u16) -> Datagram<A>
        requires owed { owes_ack self.old n ≡ true }
        ensures { OnBranch self.old n (λ destination branch. SendsAck self.old n destination branch (pump.Send (seen result)) self.new) }
    {
        let _part = self.part(n);
        let to = self.destination(n).hop();
        let Some(bytes) = self.remove_ack(n) else {
            unreachable!()
        };
        Datagram {
            to,
            bytes,
            cause: Cause::Ack(n),
        }
    }

    // ---- posting

    /// Posts an event that changes the table and adds no row, and that is no response of a branch; what goes up is owed to
    /// the caller.
    pub(crate) fn post_bare(&mut self, event: Event<A>) -> Result<(), AllocError>
        requires plain { offers_of (event_of event) ≡ [] }
        requires fits { fits (table_of self.old.log) (event_of event) ≡ true }
        ensures ok { OnOk result (PostsBare self.old (event_of event) self.new) }
        ensures longer { OnOk result (length self.old.branches ≤ length self.new.branches) }
        ensures err { OnErr result (self.new ≡ self.old) }
    {
        new_rows_are_contacts();
        open_branches_take_events();
        if self.owed.reserve(1).is_err() {
            return Err(AllocError);
        }
        let at = match self.book.post(CALL_TAG, event) {
            Ok(at) => at,
            Err(PostError::NoMemory(_)) => return Err(AllocError),
            Err(PostError::Full(_)) => unreachable!(),
        };
        let up = up_at(&self.book, at);
        self.owed.enqueue_if(response_for(up, None));
        Ok(())
    }

    /// Posts an event that adds no row and by which branch n ends, and sets the client transaction of the branch, which
    /// went on.
    pub(crate) fn end_branch(
        &mut self,
        n: u16,
        client: ClientTransaction,
        event: Event<A>,
    ) -> Result<(), AllocError>
        requires there { is_sent self.old n ≡ true }
        requires plain { offers_of (event_of event) ≡ [] }
        requires fits { fits (table_of self.old.log) (event_of event) ≡ true }
        ensures ok { OnOk result (OnPart self.old n (λ branch. PostsBare (set_branch self.old n (record branch { client = client })) (event_of event) self.new)) }
        ensures err { OnErr result (self.new ≡ self.old) }
    {
        let _part = self.part(n);
        self.post_bare(event)?;
        self.respond_branch(n, client, None);
        Ok(())
    }

    // ---- responses of a branch

    /// What a response with this status says to the fork as one of branch n.
    pub(crate) fn new_event(
        &self,
        n: u16,
        status: u16,
        message: &Message<A>,
    ) -> Result<ResponseEvent<A>, AllocError>
        requires least { 100 ≤ status }
        requires most { status ≤ 699 }
        ensures event { IfOk result (λ new_event. event_of new_event.event ≡ event_by self.now.opened.tried n status message.now) }
        ensures destinations { IfOk result (λ new_event. new_event.destinations.items ≡ map (destination_of_contact self.now.opened) (contacts_for self.now.opened.tried status message.now)) }
        ensures gives { IfOk result (λ new_event. GivesDestinations (event_of new_event.event) new_event.destinations.items) }
    {
        ResponseEvent::of(&self.alloc, &self.opened, n, status, message)
    }

    /// The ACK of a response to branch n, where its transaction asks for it.
    pub(crate) fn ack_if(
        &self,
        destination: &Destination<A>,
        n: u16,
        send: TxSend,
        response: &Message<A>,
    ) -> Result<Option<Vec<u8, A>>, AllocError>
        ensures { IfOk result (λ ack. option_map (λ v. v.items) ack ≡ ack_made send (spelling (ack_to self.now.opened destination.now n response.now))) }
    {
        self.opened
            .ack_if(&self.alloc, destination, n, send, response)
    }

    /// Posts the event that a response of a branch is: each new row gets the destination of its contact, and what goes up is owed
    /// to the caller.
    ///
    /// # Errors
    ///
    /// `Full` where the book takes no more events that change nothing; else only where the allocator refuses. The state is
    /// then as it was.
    pub(crate) fn post_response(
        &mut self,
        new_event: ResponseEvent<A>,
        response: Option<Message<A>>,
    ) -> Result<u32, PostFault>
        requires gives { GivesDestinations (event_of new_event.event) new_event.destinations.items }
        ensures ok { (contacts : List ContactText) → new_event.destinations.items ≡ map (destination_of_contact self.old.opened) contacts
            → IfOk result (λ at. PostsSaid self.old (event_of new_event.event) contacts response at self.new) }
        ensures full { IsErrOf result PostFault.Full → is_full (core_of self.old.log) (event_of new_event.event) ≡ true }
        ensures longer { OnOk result (length self.old.branches ≤ length self.new.branches) }
        ensures err { OnErr result (self.new ≡ self.old) }
    {
        rows_keep_their_numbers();
        let ResponseEvent {
            event,
            destinations,
        } = new_event;
        if self.book.context().is_full(&event) {
            return Err(PostFault::Full);
        }
        self.owed.reserve(1)?;
        self.destinations.reserve(destinations.len())?;
        self.branches.reserve(destinations.len())?;
        let first = self.book.context().count();
        let at = match self.book.post(CALL_TAG, event) {
            Ok(at) => at,
            Err(PostError::NoMemory(_)) => return Err(PostFault::NoMemory),
            Err(PostError::Full(_)) => unreachable!(),
        };
        add_rows(
            &self.book,
            first,
            destinations,
            &mut self.destinations,
            &mut self.branches,
        );
        let up = up_at(&self.book, at);
        self.owed.enqueue_if(response_for(up, response));
        Ok(at)
    }

    /// Takes a response to the CANCEL of branch n, with this status: the CANCEL's client transaction absorbs it, and what
    /// that transaction passes is not posted (RFC 3261 sections 9.1 and 17.1.2).
    pub fn take_cancel_response(&mut self, n: u16, status: u16, now: u64)
        requires there { is_cancel_sent self.old n ≡ true }
        ensures { (m : MessageText) (source : Hop) → status ≡ status_of m
            → take.TakesAs self.old now m source (take.CancelClient n) take.Absorbed self.new }
    {
        let Some(cancelling) = self.part(n).cancelling() else {
            unreachable!()
        };
        let (client, _out) = cancelling.on_event(response_event(status), now);
        self.cancel_on_branch(n, client);
    }

    // ---- from the caller

    /// Takes the caller's request again: the last answer is owed again where the server transaction sends it (RFC 3261
    /// section 17.2).
    ///
    /// # Errors
    ///
    /// Only where the allocator refuses; then the state is as it was.
    pub fn take_request(&mut self, now: u64) -> Result<(), AllocError>
        ensures ok { OnOk result (self.new ≡ requested_again self.old now) }
        ensures err { OnErr result (self.new ≡ self.old) }
    {
        let (served, out) = self.served.on_event(TxEvent::Request, now);
        if self.owed.reserve(1).is_err() {
            return Err(AllocError);
        }
        self.served = served;
        self.owed.enqueue_if(resend_if(is_response(out.send)));
        Ok(())
    }

    /// Takes the caller's ACK, which the server transaction absorbs (RFC 3261 section 17.2.1).
    pub fn take_ack(&mut self, now: u64)
        ensures { self.new ≡ served_on self.old TxEvent.Ack now }
    {
        self.feed_server(TxEvent::Ack, now);
    }

    /// Whether a CANCEL of the caller is posted now: the call is an INVITE whose table is not closed.
    fn cancels(&self) -> bool
        ensures { result ≡ cancels self.now }
    {
        self.opened.is_invite() && !self.book.context().closed()
    }

    /// The Reason lines of the caller's CANCEL, in the memory of the call (RFC 3326).
    fn reasons_in(&self, cancel: &Message<A>) -> Result<ReasonLines<A>, AllocError>
        ensures { IfOk result (λ reasons. reasons ≡ reason_lines cancel.now) }
    {
        ReasonLines::of(&self.alloc, cancel)
    }

    /// Posts the caller's CANCEL, which closes the table; a 200 to it is owed (RFC 3261 sections 9.2 and 16.10).
    fn post_cancel(&mut self, cancel: Message<A>, to: Hop) -> Result<Taken, AllocError>
        requires sound { IsSound self.old }
        requires cancels { cancels self.old ≡ true }
        ensures ok { IfOk result (λ taken. CancelledBy self.old cancel to (seen_taken taken) self.new) }
        ensures err { OnErr result (self.new ≡ self.old) }
    {
        new_rows_are_contacts();
        open_branches_take_events();
        let reasons = self.reasons_in(&cancel)?;
        if self.owed.reserve(2).is_err() {
            return Err(AllocError);
        }
        let at = match self.book.post(CALL_TAG, Event::Cancel) {
            Ok(at) => at,
            Err(PostError::NoMemory(_)) => return Err(AllocError),
            Err(PostError::Full(_)) => unreachable!(),
        };
        let up = up_at(&self.book, at);
        self.owed.enqueue(OwedAnswer::CancelOk(cancel, to));
        self.owed.enqueue_if(response_for(up, None));
        self.closing = Closing::ByCancel(reasons);
        Ok(Taken::Posted(at))
    }

    /// Takes the caller's CANCEL as it was marked with its source, and where it is answered: a 200 to the CANCEL is owed,
    /// and it is posted where the call is an INVITE whose table is not closed (RFC 3261 sections 9.2 and 16.10).
    ///
    /// # Errors
    ///
    /// Only where the allocator refuses; then the state is as it was.
    pub fn take_cancel(&mut self, cancel: Message<A>, to: Hop) -> Result<Taken, AllocError>
        requires sound { IsSound self.old }
        ensures ok { IfOk result (λ taken. CancelledBy self.old cancel to (seen_taken taken) self.new) }
        ensures err { OnErr result (self.new ≡ self.old) }
    {
        if self.cancels() {
            return self.post_cancel(cancel, to);
        }
        if self.owed.reserve(1).is_err() {
            return Err(AllocError);
        }
        self.owed.enqueue(OwedAnswer::CancelOk(cancel, to));
        Ok(Taken::Absorbed)
    }

    // ---- to the caller

    /// Hands the first answer that is owed, spelled by these bytes, to the server transaction, which sends it or drops
    /// it.
    pub(crate) fn send_answer(
        &mut self,
        status: u16,
        text: Vec<u8, A>,
        now: u64,
    ) -> Result<Step<A>, AllocError>
        requires some { 0 < length self.old.server.owed }
        ensures ok { IfOk result (λ step. (m : MessageText) → status ≡ status_of m → text.items ≡ spelling m
            → AnswersWith self.old now (drop 1 self.old.server.owed) (Some m) (pumped step) self.new) }
        ensures err { OnErr result (self.new ≡ self.old) }
    {
        let (served, out) = self.served.on_event(answer_event(status), now);
        if !is_response(out.send) {
            self.served = served;
            self.owed.dequeue();
            return Ok(Step::Did);
        }
        let bytes = Vec::from_slice(self.alloc.clone()?, &text)?;
        let to = self.opened.caller();
        self.served = served;
        self.last = text;
        self.owed.dequeue();
        Ok(Step::Send(Datagram {
            to,
            bytes,
            cause: Cause::Answer,
        }))
    }

    /// The answer that was sent to the caller last, again.
    pub(crate) fn last_again(&self) -> Result<Datagram<A>, AllocError>
        ensures { IfOk result (λ d. seen d ≡ answer_to self.now.opened self.now.server.last) }
    {
        answer_again(&self.alloc, &self.opened, &self.last)
    }

    /// A tick of the server transaction: timer G sends the last answer again, the other timers end the transaction; what it
    /// passes is not posted (RFC 3261 section 17.2).
    ///
    /// # Errors
    ///
    /// Only where the allocator refuses; then the state is as it was.
    pub fn tick_server(&mut self, now: u64) -> Result<Step<A>, AllocError>
        ensures ok { IfOk result (λ step. TicksServer self.old now (pumped step) self.new) }
        ensures err { OnErr result (self.new ≡ self.old) }
    {
        let (served, out) = self.served.on_event(TxEvent::Tick, now);
        if !is_response(out.send) {
            self.served = served;
            return Ok(Step::Did);
        }
        let datagram = self.last_again()?;
        self.served = served;
        Ok(Step::Send(datagram))
    }
}

/// The datagram that sends the caller these bytes again.
fn answer_again<A: Allocator + Clone>(
    alloc: &A,
    opened: &OpenedRequest<A>,
    last: &[u8],
) -> Result<Datagram<A>, AllocError>
    ensures { IfOk result (λ d. seen d ≡ answer_to opened.now last.now) }
{
    Ok(Datagram {
        to: opened.caller(),
        bytes: Vec::from_slice(alloc.clone()?, last)?,
        cause: Cause::Answer,
    })
}
