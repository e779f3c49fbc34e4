//! What a client of the control socket has written.
ghost use Rattle.std.specs.Prelude.{◌≡◌, ◌++◌, ℕ, Bool, false, true, List, [], None, Some, IfNone, IfSome, take};
ghost use Rattle.control_socket.specs.Requests.{IsAsked, MayGoOn, argument_in, fed, line_feed_of, line_of, without_return};

use crate::command::{ControlCommand, argument_of, read_command};
use arrayvec::ArrayVec;
use std::marker::Model;

/// How many bytes a line has at most, without its line feed.
const MOST_BYTES: usize = 256;

/// How many bytes of what is written are kept: a line, and its line feed.
const MOST_KEPT: usize = 257;

/// What a client has written, and whether it has closed its side. As much is kept as a line of 256 bytes has with its line feed.
#[derive(Drop)]
pub struct ControlRequest {
    written: ArrayVec<u8, MOST_KEPT>,
    is_closed: bool,
}

impl Model for ControlRequest {
    ghost use Rattle.control_socket.specs.Requests.{RequestState};

    ghost Value = { RequestState };

    ghost view = { λ r. record { written = r.written.items; closed = r.is_closed } };
}

/// The bytes of a line without the carriage return at its end, if there is one.
fn without_return(line: &[u8]) -> &[u8]
    ensures { result.now ≡ without_return line.now }
{
    line.strip_suffix(b"\r").unwrap_or(line)
}

/// Where the first line feed stands, if there is one.
fn line_feed(bytes: &[u8]) -> Option<usize>
    ensures { result ≡ line_feed_of bytes.now }
{
    bytes.iter().position(|b| *b == b'\n')
}

/// The first bytes, so many of them.
fn front(bytes: &[u8], count: usize) -> &[u8]
    ensures { result.now ≡ take count bytes.now }
{
    bytes.get(..count).unwrap_or(bytes)
}

/// Keeps of these bytes, behind those that are kept, as many as there is room for.
fn keep(kept: &mut ArrayVec<u8, MOST_KEPT>, bytes: &[u8])
    ensures { kept.new.items ≡ take 257 (kept.old.items ++ bytes.now) }
{
    let room = kept.remaining_capacity();
    let _ = kept.try_extend_from_slice(front(bytes, room));
}

impl ControlRequest {
    /// Nothing was written yet.
    pub fn new() -> ControlRequest
        ensures { result ≡ record { written = []; closed = false } }
    {
        ControlRequest {
            written: ArrayVec::new(),
            is_closed: false,
        }
    }

    /// These bytes were written behind the others.
    pub fn feed(&mut self, bytes: &[u8])
        ensures { self.new ≡ fed self.old bytes.now }
    {
        keep(&mut self.written, bytes);
    }

    /// The client has closed its side: it writes no more.
    pub fn close(&mut self)
        ensures { self.new ≡ record { written = self.old.written; closed = true } }
    {
        self.is_closed = true;
    }

    /// Whether the client has closed its side.
    pub fn is_closed(&self) -> bool
        ensures { result ≡ self.now.closed }
    {
        self.is_closed
    }

    /// The line that was written, if it is whole: its end is a line feed, with or without a carriage return before it, or that its sender
    /// has closed its side.
    fn line(&self) -> Option<&[u8]>
        ensures some { IfSome result (λ line. line_of self.now ≡ Some line.now) }
        ensures none { IfNone result (line_of self.now ≡ None) }
    {
        let written = self.written.as_slice();
        match line_feed(written) {
            Some(place) => Some(without_return(front(written, place))),
            None if self.is_closed && written.len() <= MOST_BYTES => Some(written),
            None => None,
        }
    }

    /// What the line says, if it is whole. One of more than 256 bytes says nothing that is known, and neither does one that is not whole
    /// when its time is over: what was cut off may say another thing than was meant. None where more of it may come.
    pub fn command(&self, is_late: bool) -> Option<ControlCommand>
        ensures some { IfSome result (λ command. IsAsked self.now is_late command) }
        ensures none { IfNone result (MayGoOn self.now is_late) }
    {
        match self.line() {
            Some(line) => Some(read_command(line)),
            None if is_late || self.written.len() > MOST_BYTES => Some(ControlCommand::Unknown),
            None => None,
        }
    }

    /// What stands behind the word of the line; nothing where the line is not whole.
    pub fn argument(&self) -> &[u8]
        ensures { result.now ≡ argument_in (line_of self.now) }
    {
        match self.line() {
            Some(line) => argument_of(line),
            None => b"",
        }
    }
}
