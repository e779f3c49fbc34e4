//! The socket that a proxy receives and sends by (RFC 3261 section 18).
ghost use Rattle.std.specs.Prelude.{◌≤◌, IfOk, IfSome, length};

use libc::types::pollfd;
use libc::{EINTR, net};
use sip_uri::Hop;
use std::io;
use std::io::ErrorKind;
use std::net::{Ipv4Addr, Net, SocketAddr, SocketAddrV4, UdpSocket};
use std::os::fd::AsRawFd;
use std::time::Duration;

/// How long a receive that waits by itself waits for a datagram at most, in milliseconds.
const LONGEST_RECEIVE: u64 = 1_000;

/// How long a send that waits by itself waits for room in the socket at most, in milliseconds. The system counts in ticks of its clock, and
/// one more: where it has 250 a second, this may take 12.
const LONGEST_SEND: u64 = 5;

/// How long a send that does not wait by itself has room waited for at most, in milliseconds.
const LONGEST_ROOM: u16 = 10;

/// How many bytes of room are asked of the system for datagrams that wait to be received, and for those that wait to be sent.
const ROOM: i32 = 4_194_304;

/// How the calls on a socket wait.
#[derive(Clone, Copy, Debug, PartialEq, Eq)]
pub enum SocketWaits {
    /// Each call waits by itself, in one call of the system: a receive for a second at most, a send for some hundredths of one.
    InCalls,
    /// No call waits by itself, as the time limits of a socket are counted in ticks of the system's clock, by which 10 ms may take 24. Who
    /// receives waits before, to the millisecond; a send that finds no room waits for it so, 10 ms at most.
    BetweenCalls,
}

/// What became of a send.
#[derive(Clone, Copy, Debug, PartialEq, Eq)]
pub enum SendOutcome {
    /// The system took the whole datagram.
    Whole,
    /// It had no room in time, so the datagram is lost, as it may be on its way: a transaction sends its own again.
    Lost,
    /// It refused the datagram.
    Refused,
}

/// The UDP socket that all threads of a proxy share.
#[derive(Drop)]
pub struct Socket {
    udp: UdpSocket,
    waits: SocketWaits,
}

fn address(hop: Hop) -> SocketAddr {
    let [a, b, c, d] = hop.addr;
    SocketAddr::V4(SocketAddrV4::new(Ipv4Addr::new(a, b, c, d), hop.port))
}

fn hop_of(address: SocketAddr) -> Option<Hop> {
    match address {
        SocketAddr::V4(v4) => Some(Hop::over_udp(v4.ip().octets(), v4.port())),
        SocketAddr::V6(_) => None,
    }
}

/// Asks for room for datagrams that wait. The system may give less; then more of them are lost in a burst, and those that wait for hosts
/// that cannot be found sooner fill the room of all that are sent.
fn ask_for_room(udp: &UdpSocket) {
    let mut value = [0u8; 16];
    value[..4].copy_from_slice(&ROOM.to_ne_bytes());
    let fd = udp.as_raw_fd();
    let _ = unsafe { net::setsockopt(fd, net::SOL_SOCKET, net::SO_RCVBUF, &value, 4) };
    let _ = unsafe { net::setsockopt(fd, net::SOL_SOCKET, net::SO_SNDBUF, &value, 4) };
}

/// Says how the calls on a socket wait.
fn set_waits(udp: &UdpSocket, waits: SocketWaits) -> io::Result<()> {
    match waits {
        SocketWaits::InCalls => {
            udp.set_read_timeout(Some(Duration::from_millis(LONGEST_RECEIVE)))?;
            udp.set_write_timeout(Some(Duration::from_millis(LONGEST_SEND)))
        }
        SocketWaits::BetweenCalls => udp.set_nonblocking(true),
    }
}

impl Socket {
    /// A socket that receives at this address, and whose calls wait so.
    ///
    /// # Errors
    ///
    /// What the system says where it refuses.
    pub fn bind<R: Net>(rt: &R, own: Hop, waits: SocketWaits) -> io::Result<Socket> {
        let udp = UdpSocket::bind(rt, address(own))?;
        set_waits(&udp, waits)?;
        ask_for_room(&udp);
        Ok(Socket { udp, waits })
    }

    /// A datagram that waits in the socket, or comes while the call waits, where it does: its length and its source. None where none does,
    /// where a signal ends the wait, or where what came is no datagram, as with a wrong checksum.
    ///
    /// # Errors
    ///
    /// What the system says where the receive failed.
    pub fn receive(&self, buffer: &mut [u8]) -> io::Result<Option<(usize, Hop)>>
        ensures { IfOk result (λ came. IfSome came (λ packet. packet.0 ≤ length buffer.new)) }
    {
        match self.udp.recv_from(buffer) {
            Ok((count, from)) => match hop_of(from) {
                Some(source) => Ok(Some((count, source))),
                None => Ok(None),
            },
            Err(error) => match error.kind() {
                ErrorKind::WouldBlock | ErrorKind::Interrupted => Ok(None),
                _ => Err(error),
            },
        }
    }

    /// Waits until a receive, or a send, would not have to wait, so many milliseconds at most. Says whether it is so; a signal ends the wait,
    /// too.
    ///
    /// # Errors
    ///
    /// What the system says where it cannot wait.
    fn is_ready(&self, what: i16, longest: u16) -> io::Result<bool> {
        let mut asked = [pollfd {
            fd: self.udp.as_raw_fd(),
            events: what,
            revents: 0,
        }];
        let count = net::poll(&mut asked, i32::from(longest));
        if count >= 0 {
            return Ok(count > 0);
        }
        match os::errno() {
            EINTR => Ok(false),
            errno => Err(io::Error::from_raw_os_error(errno)),
        }
    }

    /// Waits until something is there to be received, so many milliseconds at most, and says whether it is so. A signal ends the wait, too.
    ///
    /// # Errors
    ///
    /// What the system says where it cannot wait.
    pub fn await_datagram(&self, longest: u16) -> io::Result<bool> {
        self.is_ready(net::POLLIN, longest)
    }

    /// Whether a datagram waits in the socket at this moment; it stays there. Where the system cannot tell, none counts as waiting.
    pub fn has_waiting(&self) -> bool {
        matches!(self.is_ready(net::POLLIN, 0), Ok(true))
    }

    /// Wakes who receives, by an empty datagram to itself.
    pub fn wake(&self, own: Hop) {
        let _ = self.udp.send_to(b"", address(own));
    }

    /// Sends a datagram where the socket has room for it, or gets some while the call waits, where it does.
    fn put(&self, bytes: &[u8], to: Hop) -> SendOutcome {
        match self.udp.send_to(bytes, address(to)) {
            Ok(count) if count == bytes.len() => SendOutcome::Whole,
            Ok(_) => SendOutcome::Refused,
            Err(error) => match error.kind() {
                ErrorKind::WouldBlock | ErrorKind::Interrupted => SendOutcome::Lost,
                _ => SendOutcome::Refused,
            },
        }
    }

    /// Sends a datagram. Where the socket has no room, the send waits some hundredths of a second at most: what waits for hosts that cannot be
    /// found fills the room of all others, and would else hold every worker for seconds.
    pub fn send(&self, bytes: &[u8], to: Hop) -> SendOutcome {
        match (self.put(bytes, to), self.waits) {
            (SendOutcome::Lost, SocketWaits::BetweenCalls) => {
                let _ = self.is_ready(net::POLLOUT, LONGEST_ROOM);
                self.put(bytes, to)
            }
            (sent, _) => sent,
        }
    }
}
