//! A branch once its request was sent.
ghost use Rattle.std.specs.Prelude.{◌≡◌, ◌↔◌, IsTrue, None, Some};
ghost use Rattle.std.specs.Option.{option_copied, option_map};
ghost use Rattle.fork_rank.specs.KindView.{kind_of};
ghost use Rattle.sip_txn.specs.Machine.{machine_after, out_of};
ghost use Rattle.sip_txn.specs.OtherClient.{other_client};
ghost use Rattle.call_model.specs.Call.{owes_ack_on};
ghost use Rattle.call_model.specs.Client.{client_after, client_due, client_out};
ghost use Rattle.call_model.specs.Due.{IsOverCancelTransaction, IsOverBranch, cancel_client_due};
ghost use Rattle.call_model.specs.Branch.{cancel_start, branch_start, timer_c_from};
ghost use Rattle.call_model.specs.Reliability.{reliability_of};
ghost use Rattle.call_branch.specs.BranchInside.{cancel_on, cancelled, kept, responded, without_ack};
ghost use Rattle.call_model.specs.Take.{timer_c_again};

use crate::client::ClientTransaction;
use crate::destination::Destination;
use crate::reliability::reliability_of;
use fork_rank::Kind;
use sip_text::Message;
use sip_txn::{OtherClient, OtherClientState, T1_TIMES_64, TxEvent, TxOut};
use sip_uri::Transport;
use std::alloc::Allocator;
use std::marker::Model;

/// How long timer C runs where the branch has no shorter longest time, in milliseconds: more than three minutes (RFC 3261
/// section 16.6 step 11).
const TIMER_C: u64 = 181_000;

/// The CANCEL of a branch once it was sent, with the client transaction of the CANCEL (RFC 3261 section 9.1).
#[derive(Drop)]
pub struct CancelTransaction<A: Allocator> {
    client: OtherClient,
    sent: Vec<u8, A>,
    give_up_at: u64,
}

impl<A: Allocator> Model for CancelTransaction<A> {
    ghost use Rattle.call_model.specs.Branch as spec;

    ghost Value = { spec.CancelTransaction };

    ghost view = { λ c. record { client = c.client; sent = c.sent.items; give_up_at = c.give_up_at } };
}

impl<A: Allocator> CancelTransaction<A> {
    /// A CANCEL that is sent at this moment, with these bytes, over this transport.
    pub fn start(now: u64, sent: Vec<u8, A>, transport: Transport) -> Self
        ensures { result ≡ cancel_start now sent.items (reliability_of transport) }
    {
        CancelTransaction {
            client: OtherClient::start(now, reliability_of(transport)),
            sent,
            give_up_at: now.saturating_add(T1_TIMES_64),
        }
    }

    /// The transaction of the CANCEL after an event, and what it sends and passes.
    pub fn on_event(&self, event: TxEvent, now: u64) -> (OtherClient, TxOut)
        ensures after { result.0 ≡ machine_after other_client event now self.now.client }
        ensures out { result.1 ≡ out_of other_client event now self.now.client }
    {
        let mut client = self.client;
        let out = client.on(event, now);
        (client, out)
    }

    /// The CANCEL as it was sent.
    pub fn sent(&self) -> &[u8]
        ensures { result.now ≡ self.now.sent }
    {
        &self.sent
    }

    /// The moment at which the transaction of the CANCEL wants a tick.
    pub fn due(&self) -> Option<u64>
        ensures { result ≡ cancel_client_due (Some self.now) }
    {
        self.client.due()
    }

    /// From when on the branch of the CANCEL is given up.
    pub fn give_up_at(&self) -> u64
        ensures { result ≡ self.now.give_up_at }
    {
        self.give_up_at
    }

    /// Whether the transaction of the CANCEL has ended.
    fn is_over(&self) -> bool
        ensures { IsTrue result ↔ IsOverCancelTransaction (Some self.now) }
    {
        self.client.state() == OtherClientState::Terminated
    }

    /// Sets the transaction of the CANCEL, which went on.
    fn set_client(&mut self, client: OtherClient)
        ensures { self.new ≡ record self.old { client = client } }
    {
        self.client = client;
    }
}

/// A branch once its request was sent: its client transaction, the request as it was sent, the ACK that it owes, timer
/// C, its CANCEL once that was sent, and the failure that it keeps.
#[derive(Drop)]
pub struct Branch<A: Allocator> {
    client: ClientTransaction,
    sent: Vec<u8, A>,
    ack: Option<Vec<u8, A>>,
    timer_c_at: Option<u64>,
    cancelling: Option<CancelTransaction<A>>,
    answer: Option<Message<A>>,
}

impl<A: Allocator> Model for Branch<A> {
    ghost use Rattle.std.specs.Option.{option_map};
    ghost use Rattle.call_model.specs.Branch as spec;

    ghost Value = { spec.Branch };

    ghost view = { λ l. record { client = l.client; sent = l.sent.items; ack = option_map (λ v. v.items) l.ack; timer_c_at = l.timer_c_at; cancelling = l.cancelling; answer = l.answer } };
}

/// When a timer C fires that starts at this moment, of a branch with this longest time: the branch of an INVITE has one, any
/// other has none.
pub(crate) fn timer_c_from(kind: Kind, now: u64, longest: u64) -> Option<u64>
    ensures { result ≡ timer_c_from (kind_of kind) now longest }
{
    match kind {
        Kind::Invite => Some(now.saturating_add(longest)),
        Kind::Other => None,
    }
}

impl<A: Allocator> Branch<A> {
    /// A branch whose request is sent there at this moment, with these bytes.
    pub fn start(kind: Kind, now: u64, destination: &Destination<A>, sent: Vec<u8, A>) -> Self
        ensures { result ≡ branch_start (kind_of kind) now destination.now sent.items }
    {
        let reliability = reliability_of(destination.hop().transport);
        Branch {
            client: ClientTransaction::start(kind, now, reliability),
            sent,
            ack: None,
            timer_c_at: timer_c_from(kind, now, destination.longest()),
            cancelling: None,
            answer: None,
        }
    }

    /// Whether the branch owes an ACK.
    pub fn owes_ack(&self) -> bool
        ensures { result ≡ owes_ack_on (Some self.now) }
    {
        self.ack.is_some()
    }

    /// The request as it was sent.
    pub fn sent(&self) -> &[u8]
        ensures { result.now ≡ self.now.sent }
    {
        &self.sent
    }

    /// The failure that the branch keeps, if it keeps one: it was posted.
    pub fn answer(&self) -> Option<&Message<A>>
        ensures { option_copied result ≡ self.now.answer }
    {
        self.answer.as_ref()
    }

    /// The CANCEL of the branch, where it was sent.
    pub fn cancelling(&self) -> Option<&CancelTransaction<A>>
        ensures { option_copied result ≡ self.now.cancelling }
    {
        self.cancelling.as_ref()
    }

    /// The client transaction of the branch after an event, and what it sends and passes.
    pub fn on_event(&self, event: TxEvent, now: u64) -> (ClientTransaction, TxOut)
        ensures after { result.0 ≡ client_after event now self.now.client }
        ensures out { result.1 ≡ client_out event now self.now.client }
    {
        self.client.on_event(event, now)
    }

    /// The moment at which the client transaction of the branch wants a tick.
    pub fn due(&self) -> Option<u64>
        ensures { result ≡ client_due self.now.client }
    {
        self.client.due()
    }

    /// When timer C of the branch fires, where it has one.
    pub fn timer_c_at(&self) -> Option<u64>
        ensures { result ≡ self.now.timer_c_at }
    {
        self.timer_c_at
    }

    /// Whether the transactions of the branch have ended.
    pub fn is_over(&self) -> bool
        ensures { IsTrue result ↔ IsOverBranch self.now }
    {
        let cancelling = match &self.cancelling {
            Some(cancelling) => cancelling.is_over(),
            None => true,
        };
        self.client.is_over() && cancelling
    }

    /// When timer C of the branch, which has this longest time, fires once a response with this status has come, where it has
    /// one: a provisional response sets it again, but for a 100, unless the longest time is a shorter one than timer C's (RFC
    /// 3261 section 16.7 step 2).
    pub fn timer_c_again(&self, status: u16, longest: u64, now: u64) -> Option<u64>
        ensures { result ≡ timer_c_again now status longest self.now.timer_c_at }
    {
        let at = self.timer_c_at?;
        if longest >= TIMER_C && status > 100 && status < 200 {
            Some(now.saturating_add(TIMER_C))
        } else {
            Some(at)
        }
    }

    /// Sets the client transaction of the branch, which went on; where an ACK was made, the branch owes it.
    pub fn respond(&mut self, client: ClientTransaction, ack: Option<Vec<u8, A>>)
        ensures { self.new ≡ responded client (option_map (λ v. v.items) ack) self.old }
    {
        self.client = client;
        if let Some(ack) = ack {
            self.ack = Some(ack);
        }
    }

    /// Notes that a response of the branch was posted: when timer C fires from now on, and the failure that is kept, if
    /// there is one.
    pub fn keep(&mut self, timer_c_at: Option<u64>, answer: Option<Message<A>>)
        ensures { self.new ≡ kept timer_c_at answer self.old }
    {
        self.timer_c_at = timer_c_at;
        if let Some(answer) = answer {
            self.answer = Some(answer);
        }
    }

    /// Notes that the CANCEL of the branch was sent.
    pub fn cancel(&mut self, cancelling: CancelTransaction<A>)
        ensures { self.new ≡ cancelled cancelling self.old }
    {
        self.cancelling = Some(cancelling);
    }

    /// Sets the transaction of the branch's CANCEL, which went on.
    pub fn cancel_on(&mut self, client: OtherClient)
        ensures { self.new ≡ cancel_on client self.old }
    {
        if let Some(cancelling) = &mut self.cancelling {
            cancelling.set_client(client);
        }
    }

    /// Takes the ACK that the branch owes, which it owes no more.
    pub fn take_ack(&mut self) -> Option<Vec<u8, A>>
        ensures ack { option_map (λ v. v.items) result ≡ self.old.ack }
        ensures left { self.new ≡ without_ack self.old }
    {
        self.ack.take()
    }
}
