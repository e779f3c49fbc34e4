//! The four machines as one, so that one player feeds them all.
use sip_txn::{
    InviteClient, InviteClientState, InviteServer, InviteServerState, OtherClient,
    OtherClientState, OtherServer, OtherServerState, Reliability, TxEvent, TxOut,
};

/// The states of all four machines.
#[derive(Clone, Copy, Debug, PartialEq, Eq)]
pub enum State {
    Calling,
    Trying,
    Proceeding,
    Completed,
    Confirmed,
    Accepted,
    Terminated,
}

/// One of the four machines.
#[derive(Clone, Copy, PartialEq, Eq)]
pub enum Machine {
    InviteClient(InviteClient),
    InviteServer(InviteServer),
    OtherClient(OtherClient),
    OtherServer(OtherServer),
}

/// A client of an INVITE that starts at this moment, over such a transport.
pub fn invite_client(now: u64, reliability: Reliability) -> Machine {
    Machine::InviteClient(InviteClient::start(now, reliability))
}

/// A server of an INVITE that starts at this moment, over such a transport.
pub fn invite_server(now: u64, reliability: Reliability) -> Machine {
    Machine::InviteServer(InviteServer::start(now, reliability))
}

/// A client of another request that starts at this moment, over such a transport.
pub fn other_client(now: u64, reliability: Reliability) -> Machine {
    Machine::OtherClient(OtherClient::start(now, reliability))
}

/// A server of another request that starts at this moment, over such a transport.
pub fn other_server(now: u64, reliability: Reliability) -> Machine {
    Machine::OtherServer(OtherServer::start(now, reliability))
}

/// Feeds a machine this event at this moment.
pub fn feed(machine: &mut Machine, event: TxEvent, now: u64) -> TxOut {
    match machine {
        Machine::InviteClient(client) => client.on(event, now),
        Machine::InviteServer(server) => server.on(event, now),
        Machine::OtherClient(client) => client.on(event, now),
        Machine::OtherServer(server) => server.on(event, now),
    }
}

/// The moment at which a machine wants a tick.
pub fn due(machine: &Machine) -> Option<u64> {
    match machine {
        Machine::InviteClient(client) => client.due(),
        Machine::InviteServer(server) => server.due(),
        Machine::OtherClient(client) => client.due(),
        Machine::OtherServer(server) => server.due(),
    }
}

/// The state that a machine is in.
pub fn state_of(machine: &Machine) -> State {
    match machine {
        Machine::InviteClient(client) => match client.state() {
            InviteClientState::Calling => State::Calling,
            InviteClientState::Proceeding => State::Proceeding,
            InviteClientState::Completed => State::Completed,
            InviteClientState::Accepted => State::Accepted,
            InviteClientState::Terminated => State::Terminated,
        },
        Machine::InviteServer(server) => match server.state() {
            InviteServerState::Proceeding => State::Proceeding,
            InviteServerState::Completed => State::Completed,
            InviteServerState::Confirmed => State::Confirmed,
            InviteServerState::Accepted => State::Accepted,
            InviteServerState::Terminated => State::Terminated,
        },
        Machine::OtherClient(client) => match client.state() {
            OtherClientState::Trying => State::Trying,
            OtherClientState::Proceeding => State::Proceeding,
            OtherClientState::Completed => State::Completed,
            OtherClientState::Terminated => State::Terminated,
        },
        Machine::OtherServer(server) => match server.state() {
            OtherServerState::Trying => State::Trying,
            OtherServerState::Proceeding => State::Proceeding,
            OtherServerState::Completed => State::Completed,
            OtherServerState::Terminated => State::Terminated,
        },
    }
}
