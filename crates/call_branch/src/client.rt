//! The client transaction of a branch.
ghost use Rattle.std.specs.Prelude.{◌≡◌, ◌↔◌, IsTrue};
ghost use Rattle.fork_rank.specs.KindView.{kind_of};
ghost use Rattle.call_model.specs.Client.{client_start, client_after, client_out, client_due, is_over};

use fork_rank::Kind;
use sip_txn::{
    InviteClient, InviteClientState, OtherClient, OtherClientState, Reliability, TxEvent, TxOut,
};
use std::marker::Model;

/// The client transaction of an INVITE, or of another request.
#[derive(Drop)]
enum ClientMachine {
    Invite(InviteClient),
    Other(OtherClient),
}

/// The client transaction of a branch (RFC 3261 section 17.1).
#[derive(Drop)]
pub struct ClientTransaction {
    machine: ClientMachine,
}

impl Model for ClientTransaction {
    ghost use Rattle.call_model.specs.Client as spec;
    ghost use Rattle.call_branch.specs.Views.{client_of};

    ghost Value = { spec.ClientTransaction };

    ghost view = { λ c. client_of c.machine };
}

impl ClientTransaction {
    /// A client transaction whose request is sent at this moment, over a transport that is so reliable.
    pub(crate) fn start(kind: Kind, now: u64, reliability: Reliability) -> Self
        ensures { result ≡ client_start (kind_of kind) now reliability }
    {
        let machine = match kind {
            Kind::Invite => ClientMachine::Invite(InviteClient::start(now, reliability)),
            Kind::Other => ClientMachine::Other(OtherClient::start(now, reliability)),
        };
        ClientTransaction { machine }
    }

    /// The transaction after an event, and what it sends and passes.
    pub(crate) fn on_event(&self, event: TxEvent, now: u64) -> (ClientTransaction, TxOut)
        ensures after { result.0 ≡ client_after event now self.now }
        ensures out { result.1 ≡ client_out event now self.now }
    {
        match self.machine {
            ClientMachine::Invite(client) => {
                let mut client = client;
                let out = client.on(event, now);
                let machine = ClientMachine::Invite(client);
                (ClientTransaction { machine }, out)
            }
            ClientMachine::Other(client) => {
                let mut client = client;
                let out = client.on(event, now);
                let machine = ClientMachine::Other(client);
                (ClientTransaction { machine }, out)
            }
        }
    }

    /// The moment at which the transaction wants a tick.
    pub(crate) fn due(&self) -> Option<u64>
        ensures { result ≡ client_due self.now }
    {
        match &self.machine {
            ClientMachine::Invite(client) => client.due(),
            ClientMachine::Other(client) => client.due(),
        }
    }

    /// Whether the transaction has ended.
    pub(crate) fn is_over(&self) -> bool
        ensures { IsTrue result ↔ is_over self.now }
    {
        match &self.machine {
            ClientMachine::Invite(client) => client.state() == InviteClientState::Terminated,
            ClientMachine::Other(client) => client.state() == OtherClientState::Terminated,
        }
    }
}
