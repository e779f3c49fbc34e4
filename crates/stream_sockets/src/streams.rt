//! All connections of a proxy.
use crate::address::{peer_of, socket_address, target_of};
use crate::begun::ConnectionSockets;
use crate::connection::Connection;
use crate::limits::StreamLimits;
use mio::net::{TcpListener, TcpStream};
use mio::{Events, Interest, Poll, Registry, Token, Waker};
use sip_uri::Hop;
use sockets::SendOutcome;
use std::alloc::{AllocError, Global};
use std::io;
use std::io::ErrorKind;
use std::net::Net;
use std::sync::{Arc, Mutex, Wait};
use std::time::Duration;
use stream_connections::{ConnectionTable, Opener, peer_number};

/// The number by which the listener is told of; the connections' begin with 1.
pub const LISTENER: u64 = 0;

/// The number by which a thread is woken that waits; no connection ever has it.
const WAKER: u64 = u64::MAX;

/// Of how many sockets a poll tells at a time.
const MOST_EVENTS: usize = 1_024;

/// What came of an accept.
#[derive(Clone, Copy, Debug, PartialEq, Eq)]
pub enum Accepted {
    /// A connection is kept.
    Kept,
    /// There are too many, in all or of its address, or no memory for it: it was closed at once.
    Refused,
    /// None waits.
    Nothing,
    /// The system refused, as where the process may open no more files: the next one may wait still.
    Failed,
}

/// What the thread of connections waits with.
#[derive(Drop)]
pub struct StreamFront {
    poll: Poll,
    events: Events,
    /// None once no connection is taken any more.
    listener: Option<TcpListener>,
}

/// All connections of a proxy, as threads share them.
#[derive(Drop)]
pub struct Streams {
    alloc: Global,
    limits: StreamLimits,
    registry: Registry,
    waker: Waker,
    table: Mutex<ConnectionTable<Arc<Connection>>>,
}

/// A connection that was found or begun.
#[derive(Drop)]
struct Reached {
    connection: Arc<Connection>,
    /// Its number, where it was begun just now.
    begun: Option<u64>,
}

impl StreamFront {
    /// Waits until something comes of a socket, so many milliseconds at most, and calls `told` with the number of each of which something
    /// came, whether it may be written to, and whether it may be read.
    pub fn wait<F: FnMut(u64, bool, bool)>(&mut self, longest: u64, mut told: F)
        requires { F.IsAlwaysCallable told }
    {
        let _ = self
            .poll
            .poll(&mut self.events, Some(Duration::from_millis(longest)));
        for event in self.events.iter() {
            let Token(number) = event.token();
            let number = number as u64;
            if number != WAKER {
                told(number, event.is_writable(), event.is_readable());
            }
        }
    }

    /// Takes no connection any more: who connects from now on is refused by the system.
    pub fn stop_listening(&mut self) {
        self.listener = None;
    }

    /// Whether connections are taken.
    pub fn is_listening(&self) -> bool {
        self.listener.is_some()
    }
}

impl Streams {
    /// Listens at an address for connections, of which there may be so many.
    ///
    /// # Errors
    ///
    /// What the system says where it refuses, and want of memory.
    pub fn bind<R: Net>(
        rt: &R,
        alloc: Global,
        own: Hop,
        limits: StreamLimits,
    ) -> io::Result<(Streams, StreamFront)> {
        let poll = Poll::new(rt)?;
        let registry = poll.registry().try_clone()?;
        let events = Events::with_capacity(alloc, MOST_EVENTS)?;
        let waker = Waker::new(&registry, Token(WAKER as usize))?;
        let mut listener = TcpListener::bind(rt, socket_address(own))?;
        registry.register(&mut listener, Token(0), Interest::READABLE)?;
        let table = ConnectionTable::new(alloc, limits.most, limits.most_per_source)?;
        let streams = Streams {
            alloc,
            limits,
            registry,
            waker,
            table: Mutex::new(table),
        };
        let front = StreamFront {
            poll,
            events,
            listener: Some(listener),
        };
        Ok((streams, front))
    }

    /// Wakes the thread that waits for what comes.
    pub fn wake(&self) {
        let _ = self.waker.wake();
    }

    /// How many connections there are.
    pub fn len<R: Wait>(&self, rt: &R) -> usize {
        self.table.lock(rt).len()
    }

    /// For how long a connection may be silent, in milliseconds.
    pub fn longest_silence(&self) -> u64 {
        self.limits.longest_silence
    }

    /// The connection of a number.
    pub fn get<R: Wait>(&self, rt: &R, number: u64) -> Option<Arc<Connection>> {
        let table = self.table.lock(rt);
        Arc::try_clone(table.get(number)?).ok()
    }

    /// The connection with a peer, in the table that is locked.
    fn found(table: &ConnectionTable<Arc<Connection>>, peer: Hop) -> Option<Arc<Connection>> {
        let number = table.number_of(peer_number(peer))?;
        Arc::try_clone(table.get(number)?).ok()
    }

    /// Keeps a connection, in the table that is locked, and answers its number. Its socket is told of by that number only from later on, so
    /// that nobody hears of a number that is not there.
    fn keep(
        &self,
        table: &mut ConnectionTable<Arc<Connection>>,
        stream: TcpStream,
        peer: Hop,
        opener: Opener,
        now: u64,
    ) -> Option<Reached> {
        let is_open = opener == Opener::Peer;
        let made = Connection::new(self.alloc, stream, peer, is_open, now);
        let connection = Arc::new(self.alloc, made).ok()?;
        let kept = Arc::try_clone(&connection).ok()?;
        let number = table.add(peer, opener, kept).ok()?;
        Some(Reached {
            connection,
            begun: Some(number),
        })
    }

    /// Has the poll tell of a connection that is kept. Where it cannot the connection is given up, and closed as one that has failed.
    fn watch<R: Wait>(&self, rt: &R, reached: &Reached) {
        let Some(number) = reached.begun else {
            return;
        };
        if reached
            .connection
            .register(rt, &self.registry, number)
            .is_err()
        {
            reached.connection.give_up(rt);
        }
    }

    /// The connection that a message for a hop goes by, or a new one (RFC 3261 sections 18.1.1 and 18.2.2).
    fn reach<R: Wait + ConnectionSockets>(&self, rt: &R, to: Hop, now: u64) -> Option<Reached> {
        let target = target_of(to);
        let reached = {
            let mut table = self.table.lock(rt);
            let table = &mut *table;
            let found = match Self::found(table, to) {
                Some(connection) => Some(connection),
                None => Self::found(table, target),
            };
            match found {
                Some(connection) => Reached {
                    connection,
                    begun: None,
                },
                None => {
                    let stream = rt.begin_connection(target).ok()?;
                    self.keep(table, stream, target, Opener::Proxy, now)?
                }
            }
        };
        self.watch(rt, &reached);
        Some(reached)
    }

    /// Begins a connection with a peer, and has the poll tell of it. From then on messages to this peer go by it.
    fn begin<R: Wait + ConnectionSockets>(&self, rt: &R, peer: Hop, now: u64) -> Option<Reached> {
        let stream = rt.begin_connection(peer).ok()?;
        let reached = {
            let mut table = self.table.lock(rt);
            self.keep(&mut *table, stream, peer, Opener::Proxy, now)?
        };
        self.watch(rt, &reached);
        Some(reached)
    }

    /// Sends a message by the connection with its hop, which is begun where there is none; the message waits then until it is open. Where the
    /// connection was given up and is not closed yet, the message goes by a new one. Refused where it finds no room or cannot be sent. Says,
    /// too, whether a connection was begun.
    pub fn send<R: Wait + ConnectionSockets>(
        &self,
        rt: &R,
        bytes: &[u8],
        to: Hop,
        now: u64,
    ) -> (SendOutcome, bool) {
        let Some(reached) = self.reach(rt, to, now) else {
            return (SendOutcome::Refused, false);
        };
        let is_begun = reached.begun.is_some();
        let outcome = reached.connection.send(rt, bytes, to, now);
        if outcome != SendOutcome::Refused || is_begun || !reached.connection.is_given_up(rt) {
            return (outcome, is_begun);
        }
        match self.begin(rt, target_of(to), now) {
            Some(reached) => (reached.connection.send(rt, bytes, to, now), true),
            None => (SendOutcome::Refused, false),
        }
    }

    /// Takes a connection that waits at the listener.
    pub fn accept<R: Wait>(&self, rt: &R, front: &StreamFront, now: u64) -> Accepted {
        let Some(listener) = &front.listener else {
            return Accepted::Nothing;
        };
        let (stream, from) = match listener.accept() {
            Ok(accepted) => accepted,
            Err(error) => {
                return match error.kind() {
                    ErrorKind::WouldBlock => Accepted::Nothing,
                    _ => Accepted::Failed,
                };
            }
        };
        let Some(peer) = peer_of(from) else {
            return Accepted::Refused;
        };
        let kept = {
            let mut table = self.table.lock(rt);
            self.keep(&mut *table, stream, peer, Opener::Peer, now)
        };
        match kept {
            Some(reached) => {
                self.watch(rt, &reached);
                Accepted::Kept
            }
            None => Accepted::Refused,
        }
    }

    /// Keeps a connection no more, and closes it. What was not written of it is left to be taken.
    pub fn close<R: Wait>(&self, rt: &R, number: u64) -> Option<Arc<Connection>> {
        let connection = self.table.lock(rt).remove(number)?;
        connection.give_up(rt);
        Some(connection)
    }

    /// The numbers of all connections behind this one, so many at most, in order.
    ///
    /// # Errors
    ///
    /// Only where the allocator refuses.
    pub fn append_numbers<R: Wait>(
        &self,
        rt: &R,
        after: u64,
        most: usize,
        numbers: &mut Vec<u64>,
    ) -> Result<(), AllocError> {
        let table = self.table.lock(rt);
        let mut last = after;
        for _ in 0..most {
            let Some(number) = table.next_behind(last) else {
                return Ok(());
            };
            numbers.push(number)?;
            last = number;
        }
        Ok(())
    }
}
