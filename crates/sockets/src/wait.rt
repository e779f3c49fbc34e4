//! Waiting for many sockets at a time.
use crate::client::Polled;
use libc::net;
use libc::types::pollfd;
use std::os::fd::AsRawFd;

/// How many clients are waited for at a time.
pub const MOST_CLIENTS: usize = 64;

/// How many sockets are waited for at a time: the one by which clients come, and behind it those of the clients.
const MOST_SOCKETS: usize = 65;

/// No socket.
const NOTHING: pollfd = pollfd {
    fd: -1,
    events: 0,
    revents: 0,
};

/// What came of each socket while it was waited for.
#[derive(Clone, Copy)]
pub struct PolledEvents {
    entries: [pollfd; MOST_SOCKETS],
}

impl PolledEvents {
    /// What came of the socket by which clients come, as the events of `poll`.
    pub fn of_listener(&self) -> i16 {
        self.entries[0].revents
    }

    /// What came of the client at this place.
    pub fn of_client(&self, place: usize) -> i16 {
        match self.entries.get(place.saturating_add(1)) {
            Some(entry) => entry.revents,
            None => 0,
        }
    }
}

/// Whether a socket has no other end any more, or is shut down itself.
pub fn is_gone(came: i16) -> bool {
    came & (net::POLLHUP | net::POLLERR | net::POLLNVAL) != 0
}

/// What is waited for at a client's socket.
fn entry_of<C: Polled>(client: &C) -> pollfd {
    pollfd {
        fd: client.descriptor(),
        events: client.events(),
        revents: 0,
    }
}

/// For how many milliseconds there is nothing to be done, if nothing comes; without limit where this is negative.
fn longest_wait<C: Polled>(clients: &[C], now: u64) -> i32 {
    let mut longest = u64::MAX;
    for client in clients {
        longest = longest.min(client.rest(now).unwrap_or(u64::MAX));
    }
    if longest == u64::MAX {
        -1
    } else {
        i32::try_from(longest).unwrap_or(i32::MAX)
    }
}

/// Waits until a client comes, something comes of one, or there is something to be done for one, and answers what came. 64 clients are
/// waited for at most. None where the system cannot wait, as where a signal ends it.
pub fn wait_for<L: AsRawFd, C: Polled>(
    listener: &L,
    clients: &[C],
    now: u64,
) -> Option<PolledEvents> {
    let mut entries = [NOTHING; MOST_SOCKETS];
    entries[0] = pollfd {
        fd: listener.as_raw_fd(),
        events: net::POLLIN,
        revents: 0,
    };
    for (place, client) in clients.iter().enumerate() {
        if let Some(entry) = entries.get_mut(place.saturating_add(1)) {
            *entry = entry_of(client);
        }
    }
    // (the system refuses to wait for more sockets than a process may open files)
    let count = clients.len().min(MOST_CLIENTS) + 1;
    let Some(asked) = entries.get_mut(..count) else {
        return None;
    };
    if net::poll(asked, longest_wait(clients, now)) < 0 {
        None
    } else {
        Some(PolledEvents { entries })
    }
}
