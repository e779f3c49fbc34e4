//! Sockets that one thread waits for together, and the socket of a proxy.
use crate::holds::holds;
use libc::net;
use sip_uri::Hop;
use sockets::{
    MOST_CLIENTS, Polled, PolledEvents, SendOutcome, Socket, SocketWaits, datagram_buffer, is_gone,
    place_of_first, wait_for,
};
use std::alloc::Global;
use std::io;
use std::io::Write;
use std::net::Net;
use std::os::fd::AsRawFd;
use std::os::unix::net::UnixStream;
use std::test::Fail;
use std::time::{Clock, Instant};

/// A client with this socket, for which there is something to be done after so many milliseconds, and whose time is over then.
#[derive(Clone, Copy)]
struct Waiting<'a> {
    socket: &'a UnixStream,
    rest: Option<u64>,
}

impl Polled for Waiting<'_> {
    fn descriptor(&self) -> i32 {
        self.socket.as_raw_fd()
    }

    fn events(&self) -> i16 {
        net::POLLIN
    }

    fn rest(&self, now: u64) -> Option<u64> {
        Some(self.rest?.saturating_sub(now))
    }

    fn deadline(&self) -> Option<u64> {
        self.rest
    }
}

/// Two ends of a connection, to one of which a byte has come, and two to which nothing has.
#[derive(Drop)]
struct Ends {
    near: UnixStream,
    far: UnixStream,
    silent: UnixStream,
    other: UnixStream,
}

/// New ends.
fn new_ends<R: Net>(rt: &R) -> io::Result<Ends> {
    let (mut near, far) = UnixStream::pair(rt)?;
    let (silent, other) = UnixStream::pair(rt)?;
    near.write_all(b"x")?;
    Ok(Ends {
        near,
        far,
        silent,
        other,
    })
}

/// Whether exactly this came of the listener and of each of two clients.
fn is_told(came: Option<PolledEvents>, listener: i16, first: i16, second: i16) -> bool {
    match came {
        Some(came) => {
            came.of_listener() == listener
                && came.of_client(0) == first
                && came.of_client(1) == second
                && came.of_client(2) == 0
                && came.of_client(MOST_CLIENTS) == 0
        }
        None => false,
    }
}

impl Ends {
    /// A client with the end to which a byte has come.
    fn readable(&self) -> Waiting<'_> {
        Waiting {
            socket: &self.far,
            rest: None,
        }
    }

    /// A client with one to which nothing has, for which there is something to be done at this moment.
    fn silent(&self, rest: Option<u64>) -> Waiting<'_> {
        Waiting {
            socket: &self.silent,
            rest,
        }
    }

    /// Whether what comes of each is told apart.
    fn tells(&self) -> bool {
        let clients = [self.silent(None), self.readable()];
        let of_client = wait_for(&self.other, &clients, 0);
        let clients = [self.silent(None), self.silent(None)];
        let of_listener = wait_for(&self.far, &clients, 0);
        is_told(of_client, 0, 0, net::POLLIN) && is_told(of_listener, net::POLLIN, 0, 0)
    }

    /// Whether nothing comes of those that are silent until there is something to be done for one.
    fn rests(&self) -> bool {
        let clients = [self.silent(Some(70)), self.silent(Some(50))];
        is_told(wait_for(&self.other, &clients, 20), 0, 0, 0)
    }

    /// What comes of an end whose other end is gone.
    fn of_gone(self) -> i16 {
        let Ends { near, far, .. } = self;
        drop(near);
        let clients = [Waiting {
            socket: &far,
            rest: None,
        }];
        match wait_for(&far, &clients, 0) {
            Some(came) => came.of_client(0),
            None => 0,
        }
    }
}

/// How many milliseconds the wait takes for which nothing comes, if it goes as it should.
fn rested<R: Clock>(rt: &R, ends: &Ends) -> Option<u128> {
    let began = Instant::now(rt).ok()?;
    if ends.rests() {
        Some(began.elapsed(rt).ok()?.as_millis())
    } else {
        None
    }
}

#[test]
fn what_comes_of_each_socket_is_told(rt: HostRuntime) -> Result<(), Fail> {
    let ends = new_ends(&rt)?;
    let tells = ends.tells();
    let rested = rested(&rt, &ends);
    let came = ends.of_gone();
    holds(&rt, tells, "of a client, and of the listener");
    holds(
        &rt,
        rested >= Some(30),
        "it waits until there is something to do",
    );
    holds(&rt, rested < Some(5_000), "and no longer");
    holds(&rt, is_gone(came), "an end whose other end is gone");
    holds(&rt, !is_gone(net::POLLIN), "one that has written is there");
    Ok(())
}

/// The place of the client whose time is over first, where the time of each is over then.
fn first_of(socket: &UnixStream, rests: [Option<u64>; 4]) -> Option<usize> {
    place_of_first(&rests.map(|rest| Waiting { socket, rest }))
}

#[test]
fn the_client_whose_time_is_over_first_is_found(rt: HostRuntime) -> Result<(), Fail> {
    let (socket, other) = UnixStream::pair(&rt)?;
    for (rests, place) in [
        ([None, Some(5), Some(3), Some(3)], Some(2)),
        ([None, None, None, None], Some(0)),
    ] {
        holds(&rt, first_of(&socket, rests) == place, "the first of them");
    }
    let none: [Waiting<'_>; 0] = [];
    holds(&rt, place_of_first(&none).is_none(), "there is none");
    drop(socket);
    drop(other);
    Ok(())
}

/// Where the socket of a test is.
fn at(port: u16) -> Hop {
    Hop::over_udp([127, 0, 0, 1], port)
}

/// Whether a datagram that a socket sends to itself comes.
fn comes_back(alloc: Global, socket: &Socket, own: Hop) -> bool {
    let Ok(mut buffer) = datagram_buffer(alloc) else {
        return false;
    };
    let is_empty = !socket.has_waiting();
    if socket.send(b"one", own) != SendOutcome::Whole || !socket.has_waiting() {
        return false;
    }
    let Ok(Some((3, source))) = socket.receive(&mut buffer) else {
        return false;
    };
    let is_empty_again = !socket.has_waiting();
    socket.wake(own);
    is_empty
        && is_empty_again
        && source == own
        && matches!(socket.receive(&mut buffer), Ok(Some((0, _))))
}

/// Whether a socket whose calls do not wait has a datagram waited for only where it is told to.
fn waits_between(socket: &Socket, own: Hop) -> bool {
    let mut buffer = [0u8; 16];
    let is_quiet = matches!(socket.receive(&mut buffer), Ok(None));
    let is_still_quiet = matches!(socket.await_datagram(10), Ok(false));
    socket.wake(own);
    is_quiet && is_still_quiet && matches!(socket.await_datagram(1_000), Ok(true))
}

/// Whether a socket sends and receives whose calls wait by themselves.
fn works_in_calls<R: Net>(rt: &R, alloc: Global) -> bool {
    match Socket::bind(rt, at(47_431), SocketWaits::InCalls) {
        Ok(socket) => comes_back(alloc, &socket, at(47_431)),
        Err(_) => false,
    }
}

/// Whether one does whose calls do not.
fn works_between_calls<R: Net>(rt: &R, alloc: Global) -> bool {
    match Socket::bind(rt, at(47_432), SocketWaits::BetweenCalls) {
        Ok(socket) => {
            comes_back(alloc, &socket, at(47_432)) && waits_between(&socket, at(47_432))
        }
        Err(_) => false,
    }
}

#[test]
fn a_socket_sends_and_receives(rt: HostRuntime) {
    holds(
        &rt,
        works_in_calls(&rt, rt.alloc()),
        "what it sends to itself comes",
    );
    holds(
        &rt,
        works_between_calls(&rt, rt.alloc()),
        "also where no call waits by itself",
    );
}
