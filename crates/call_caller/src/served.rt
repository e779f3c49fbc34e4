//! The server transaction of a call.
ghost use Rattle.std.specs.Prelude.{◌≡◌, ◌↔◌, IsTrue};
ghost use Rattle.fork_rank.specs.KindView.{kind_of};
ghost use Rattle.call_model.specs.Reliability.{reliability_of};
ghost use Rattle.call_model.specs.Server.{is_over, served_start, served_after, served_out, served_due};

use call_branch::reliability_of;
use fork_rank::Kind;
use sip_txn::{InviteServer, InviteServerState, OtherServer, OtherServerState, TxEvent, TxOut};
use sip_uri::Transport;
use std::marker::Model;

/// The server transaction of an INVITE, or of another request.
#[derive(Drop)]
enum ServerMachine {
    Invite(InviteServer),
    Other(OtherServer),
}

/// The server transaction of a call (RFC 3261 section 17.2).
#[derive(Drop)]
pub struct ServerTransaction {
    machine: ServerMachine,
}

impl Model for ServerTransaction {
    ghost use Rattle.call_model.specs.Server as spec;
    ghost use Rattle.call_caller.specs.Views.{served_of};

    ghost Value = { spec.ServerTransaction };

    ghost view = { λ c. served_of c.machine };
}

impl ServerTransaction {
    /// A server transaction whose request came at this moment, and whose answers go over this transport.
    pub fn start(kind: Kind, now: u64, transport: Transport) -> Self
        ensures { result ≡ served_start (kind_of kind) (reliability_of transport) }
    {
        let reliability = reliability_of(transport);
        let machine = match kind {
            Kind::Invite => ServerMachine::Invite(InviteServer::start(now, reliability)),
            Kind::Other => ServerMachine::Other(OtherServer::start(now, reliability)),
        };
        ServerTransaction { machine }
    }

    /// The transaction after an event, and what it sends and passes.
    pub fn on_event(&self, event: TxEvent, now: u64) -> (ServerTransaction, TxOut)
        ensures after { result.0 ≡ served_after event now self.now }
        ensures out { result.1 ≡ served_out event now self.now }
    {
        match self.machine {
            ServerMachine::Invite(server) => {
                let mut server = server;
                let out = server.on(event, now);
                let machine = ServerMachine::Invite(server);
                (ServerTransaction { machine }, out)
            }
            ServerMachine::Other(server) => {
                let mut server = server;
                let out = server.on(event, now);
                let machine = ServerMachine::Other(server);
                (ServerTransaction { machine }, out)
            }
        }
    }

    /// The moment at which the transaction wants a tick.
    pub fn due(&self) -> Option<u64>
        ensures { result ≡ served_due self.now }
    {
        match &self.machine {
            ServerMachine::Invite(server) => server.due(),
            ServerMachine::Other(server) => server.due(),
        }
    }

    /// Whether the transaction has ended.
    pub fn is_over(&self) -> bool
        ensures { IsTrue result ↔ is_over self.now }
    {
        match &self.machine {
            ServerMachine::Invite(server) => server.state() == InviteServerState::Terminated,
            ServerMachine::Other(server) => server.state() == OtherServerState::Terminated,
        }
    }
}
