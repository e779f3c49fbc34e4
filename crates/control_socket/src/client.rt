//! One client of the control socket, as far as it can be said without a socket.
ghost use Rattle.std.specs.Prelude.{◌≡◌, ℕ, Bool, false, true, List, [], ◌++◌, None, Some, IfNone, IfSome, IsTrue, ◌↔◌, drop, option_map};
ghost use Rattle.control_socket.specs.Clients.{IsRead, IsTurn, is_over, left_of, rest_of, turn_behind_answer};
ghost use Rattle.control_socket.specs.Requests.{argument_in, fed, line_of};
ghost use Rattle.control_socket.specs.declared.client.ClientTurn.{ClientTurn};

use crate::answer::ClientAnswer;
use crate::command::ControlCommand;
use crate::request::ControlRequest;
use std::marker::Model;

/// What is to be done for a client.
#[derive(Clone, Copy, Debug, PartialEq, Eq)]
pub enum ClientTurn {
    /// To wait for what it writes.
    Read,
    /// To do what it asks, and to answer.
    Obey(ControlCommand),
    /// To write what is left of its answer.
    Write,
    /// To keep it until the end.
    Wait,
    /// To close its connection.
    Close,
}

/// One client: what it has written, what is left of its answer once it has one, and the moment at which its time is over, in milliseconds.
/// A client that waits for the end has no such moment.
#[derive(Drop)]
pub struct Client {
    request: ControlRequest,
    answer: Option<ClientAnswer>,
    deadline: Option<u64>,
}

/// What is to be done for a client whose answer is written, where its time is not over.
fn turn_behind_answer(deadline: Option<u64>, is_closed: bool) -> ClientTurn
    ensures { result ≡ turn_behind_answer deadline is_closed }
{
    match deadline {
        None => ClientTurn::Wait,
        Some(_) if is_closed => ClientTurn::Close,
        Some(_) => ClientTurn::Read,
    }
}

impl Model for Client {
    ghost use Rattle.control_socket.specs.Clients.{ClientState};

    ghost Value = { ClientState };

    ghost view = { λ c. record { request = c.request; answer = c.answer; deadline = c.deadline } };
}

impl Client {
    /// A client that has written nothing yet, and has until this moment to write its line.
    pub fn new(deadline: u64) -> Client
        ensures { result ≡ record { request = record { written = []; closed = false }; answer = None; deadline = Some deadline } }
    {
        Client {
            request: ControlRequest::new(),
            answer: None,
            deadline: Some(deadline),
        }
    }

    /// The moment at which its time is over; None for one that waits for the end.
    pub fn deadline(&self) -> Option<u64>
        ensures { result ≡ self.now.deadline }
    {
        self.deadline
    }

    /// Whether its time is over.
    fn is_late(&self, now: u64) -> bool
        ensures { result ≡ is_over self.now.deadline now }
    {
        match self.deadline {
            Some(deadline) => deadline <= now,
            None => false,
        }
    }

    /// It has written these bytes. What it writes behind its line counts for nothing.
    pub fn feed(&mut self, bytes: &[u8])
        ensures { self.new ≡ record { request = fed self.old.request bytes.now; answer = self.old.answer; deadline = self.old.deadline } }
    {
        self.request.feed(bytes);
    }

    /// It has closed its side.
    pub fn close(&mut self)
        ensures { self.new ≡ record { request = record { written = self.old.request.written; closed = true }; answer = self.old.answer; deadline = self.old.deadline } }
    {
        self.request.close();
    }

    /// What stands behind the word of its line; nothing where the line is not whole.
    pub fn argument(&self) -> &[u8]
        ensures { result.now ≡ argument_in (line_of self.now.request) }
    {
        self.request.argument()
    }

    /// It is answered so, and has until this moment to read that; where there is none it then waits for the end.
    pub fn reply(&mut self, answer: ClientAnswer, deadline: Option<u64>)
        ensures { self.new ≡ record { request = self.old.request; answer = Some answer; deadline = deadline } }
    {
        self.answer = Some(answer);
        self.deadline = deadline;
    }

    /// The next bytes of its answer to be written; none where it has none, or all are written.
    pub fn next(&self) -> &[u8]
        ensures front { (rest : List ℕ) × (left_of self.now.answer ≡ result.now ++ rest) }
        ensures last { result.now ≡ [] → left_of self.now.answer ≡ [] }
    {
        match &self.answer {
            Some(answer) => answer.next(),
            None => b"",
        }
    }

    /// So many bytes were written of what was left of its answer.
    pub fn advance(&mut self, count: usize)
        ensures { self.new ≡ record { request = self.old.request; answer = option_map (λ left. drop count left) self.old.answer; deadline = self.old.deadline } }
    {
        if let Some(answer) = &mut self.answer {
            answer.advance(count);
        }
    }

    /// Whether it is answered, and all of its answer is written.
    pub fn is_answered(&self) -> bool
        ensures { IsTrue result ↔ (self.now.answer ≡ Some []) }
    {
        match &self.answer {
            Some(answer) => answer.is_written(),
            None => false,
        }
    }

    /// Whether to read on what it writes: where its line is not whole yet, or all of its answer is written and it has neither closed its
    /// side nor waits for the end.
    pub fn is_read(&self) -> bool
        ensures { IsTrue result ↔ IsRead self.now }
    {
        match &self.answer {
            None => self.request.command(false).is_none(),
            Some(answer) => {
                answer.is_written() && !self.request.is_closed() && self.deadline.is_some()
            }
        }
    }

    /// What is to be done for it at this moment.
    pub fn turn(&self, now: u64) -> ClientTurn
        ensures { IsTurn self.now now result }
    {
        let is_late = self.is_late(now);
        match &self.answer {
            None => match self.request.command(is_late) {
                Some(command) => ClientTurn::Obey(command),
                None => ClientTurn::Read,
            },
            Some(_) if is_late => ClientTurn::Close,
            Some(answer) if !answer.is_written() => ClientTurn::Write,
            Some(_) => turn_behind_answer(self.deadline, self.request.is_closed()),
        }
    }

    /// For how many milliseconds there is nothing to be done for it at this moment but what its turn waits for; None where there is no
    /// limit.
    pub fn rest(&self, now: u64) -> Option<u64>
        ensures { (turn : ClientTurn) × IsTurn self.now now turn × (result ≡ rest_of turn self.now now) }
    {
        match self.turn(now) {
            ClientTurn::Obey(_) | ClientTurn::Close => Some(0),
            ClientTurn::Read | ClientTurn::Write | ClientTurn::Wait => {
                self.deadline.map(|deadline| deadline.saturating_sub(now))
            }
        }
    }
}
