//! The control socket itself, a file of the system's: who may write to the file may control the program.
use crate::answer::ClientAnswer;
use crate::client::ClientTurn;
use crate::command::ControlCommand;
use crate::connection::Connection;
use crate::control::ControlHandler;
use sockets::{MOST_CLIENTS, Polled, PolledEvents, is_gone, place_of_first, wait_for};
use std::alloc::Global;
use std::os::unix::net::UnixListener;
use std::time::{Clock, Duration, Instant};
use std::{io, thread};

/// How many milliseconds a client has to write its line, and as many to read its answer.
const LONGEST: u64 = 1_000;

/// How many that asked for the end wait for it.
const MOST_WAITING: usize = 16;

/// How long the thread rests where the system gives it no connection, in milliseconds.
const REST: u64 = 100;

/// What stands in front of the counters in an answer of HTTP.
const HEAD: &[u8] =
    b"HTTP/1.0 200 OK\r\nContent-Type: text/plain; version=0.0.4\r\nConnection: close\r\n\r\n";

/// What answers a command, and whether its client then waits for the end.
#[derive(Drop)]
struct ControlReply {
    answer: ClientAnswer,
    waits: bool,
}

/// What clients are answered by.
#[derive(Drop)]
struct ControlClients<'a, R, C> {
    rt: &'a R,
    alloc: Global,
    controlled: &'a C,
    began: Instant,
}

/// How many of these clients wait for the end.
fn waiting(connections: &[Connection]) -> usize {
    connections
        .iter()
        .filter(|connection| connection.deadline().is_none())
        .count()
}

/// Writes once what is left of each answer: who asked for an end that has come already hears that it was asked for.
fn write_left(connections: &mut [Connection]) {
    for connection in connections.iter_mut() {
        let _ = connection.write();
    }
}

impl<'a, R: Clock, C: ControlHandler> ControlClients<'a, R, C> {
    /// The time since the beginning, in milliseconds. Where the clock cannot be read, the time of every client is over.
    fn now(&self) -> u64 {
        match self.began.elapsed(self.rt) {
            Ok(passed) => u64::try_from(passed.as_millis()).unwrap_or(u64::MAX),
            Err(_) => u64::MAX,
        }
    }

    /// The moment at which the time is over of a client whose time begins now.
    fn deadline(&self) -> u64 {
        self.now().saturating_add(LONGEST)
    }

    /// Rests.
    fn rest(&self) {
        thread::sleep(self.rt, Duration::from_millis(REST));
    }

    /// What answers a command that ends nothing, behind whose word this stands.
    ///
    /// # Errors
    ///
    /// Want of memory for the answer.
    fn told(&self, command: ControlCommand, argument: &[u8]) -> io::Result<ClientAnswer> {
        let controlled = self.controlled;
        let text = match command {
            ControlCommand::Reload => controlled.reload()?.into_bytes(),
            ControlCommand::Stats => controlled.stats()?.into_bytes(),
            ControlCommand::Calls(from) => controlled.calls(from)?,
            ControlCommand::Call(number) => controlled.call(number)?,
            ControlCommand::Bindings => controlled.bindings()?,
            ControlCommand::BindingsOf => controlled.bindings_of(argument)?,
            ControlCommand::Forget => controlled.forget(argument)?,
            ControlCommand::Refused => controlled.refused()?,
            ControlCommand::Metrics => {
                return Ok(ClientAnswer::new(HEAD, controlled.stats()?.into_bytes()));
            }
            ControlCommand::Stop(_) | ControlCommand::Unknown => {
                return Ok(ClientAnswer::fixed(self.alloc, b"unknown\n"));
            }
        };
        Ok(ClientAnswer::new(b"", text))
    }

    /// Begins the end, which comes within so many seconds. Who asks for it waits for it, if there is room.
    fn stop(&self, seconds: u64, has_room: bool) -> ControlReply {
        self.controlled.stop(seconds);
        let text: &'static [u8] = if has_room {
            b"stopping\n"
        } else {
            b"busy: it stops, and too many wait for that already\n"
        };
        ControlReply {
            answer: ClientAnswer::fixed(self.alloc, text),
            waits: has_room,
        }
    }

    /// Does what a client asks, behind whose word this stands, and answers it. One that asks for the end waits for it, if there is room.
    ///
    /// # Errors
    ///
    /// Want of memory for the answer.
    fn obey(
        &self,
        command: ControlCommand,
        argument: &[u8],
        has_room: bool,
    ) -> io::Result<ControlReply> {
        match command {
            ControlCommand::Stop(seconds) => Ok(self.stop(seconds, has_room)),
            command => Ok(ControlReply {
                answer: self.told(command, argument)?,
                waits: false,
            }),
        }
    }

    /// Answers what a client asks, and says whether its connection stands: where there is no memory for the answer it is closed.
    fn answer(&self, connection: &mut Connection, command: ControlCommand, has_room: bool) -> bool {
        let replied = self.obey(command, connection.client().argument(), has_room);
        let Ok(ControlReply { answer, waits }) = replied else {
            return false;
        };
        let deadline = if waits { None } else { Some(self.deadline()) };
        connection.reply(answer, deadline);
        true
    }

    /// Does what is to be done for a client of whose connection this came, and says whether its connection stands. What it has written is
    /// read before its time is looked at: the thread may have been busy with another one.
    fn advance(&self, connection: &mut Connection, came: i16, now: u64, has_room: bool) -> bool {
        if came != 0 && connection.client().is_read() && !connection.read() {
            return false;
        }
        match connection.client().turn(now) {
            ClientTurn::Read => true,
            ClientTurn::Obey(command) => self.answer(connection, command, has_room),
            ClientTurn::Write => came == 0 || connection.write(),
            ClientTurn::Wait => !is_gone(came),
            ClientTurn::Close => false,
        }
    }

    /// Does what is to be done for each client.
    fn advance_all(&self, connections: &mut Vec<Connection>, came: &PolledEvents) {
        let now = self.now();
        let mut waiting = waiting(connections.as_slice());
        for place in (0..connections.len()).rev() {
            let Some(connection) = connections.get_mut(place) else {
                continue;
            };
            let has_waited = connection.deadline().is_none();
            let has_room = waiting < MOST_WAITING;
            let stands = self.advance(connection, came.of_client(place), now, has_room);
            if !has_waited && connection.deadline().is_none() {
                waiting = waiting.saturating_add(1);
            }
            if !stands && place < connections.len() {
                connections.swap_remove(place);
            }
        }
    }

    /// Takes the client in that comes next. Where there are as many as may be, the one whose time is over first is closed.
    fn take_in(&self, connections: &mut Vec<Connection>, listener: &UnixListener) {
        let stream = match listener.accept() {
            Ok((stream, _)) => stream,
            Err(_) => {
                self.rest();
                return;
            }
        };
        let Ok(connection) = Connection::new(stream, self.deadline()) else {
            return;
        };
        if connections.len() >= MOST_CLIENTS
            && let Some(place) = place_of_first(connections.as_slice())
        {
            connections.swap_remove(place);
        }
        let _ = connections.push(connection);
    }
}

/// Answers at the control socket until the end: it returns at once as the listener is shut down, once the end has come. It answers as many
/// as 64 clients at a time. Each has a second to write its line and a second to read its answer, whatever others do; where one more
/// comes, the one whose time is over first is closed.
///
/// A connection that asked for the end stays open until then, so that whoever asked knows when it has come; of more than 16 such the
/// others are told `busy`. Where there is no memory for an answer the connection is closed without one.
pub fn listen<R: Clock, C: ControlHandler>(
    rt: &R,
    alloc: Global,
    controlled: &C,
    listener: &UnixListener,
) {
    let Ok(began) = Instant::now(rt) else {
        return;
    };
    let desk = ControlClients {
        rt,
        alloc,
        controlled,
        began,
    };
    let mut connections = Vec::new(alloc);
    for _ in 0..u64::MAX {
        let Some(came) = wait_for(listener, connections.as_slice(), desk.now()) else {
            desk.rest();
            continue;
        };
        if is_gone(came.of_listener()) && controlled.has_ended() {
            write_left(connections.as_mut_slice());
            return;
        }
        desk.advance_all(&mut connections, &came);
        if came.of_listener() != 0 {
            desk.take_in(&mut connections, listener);
        }
    }
}
