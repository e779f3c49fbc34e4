//! Who calls and who is called, as sockets of this process.
use proxy_threads::call_id;
use sip_lex::cut_at;
use std::alloc::{AllocError, Global};
use std::net::{Ipv4Addr, Net, SocketAddr, SocketAddrV4, UdpSocket};
use std::time::Duration;

/// How often a datagram is waited for, a tenth of a second each time.
const LOOKS: u32 = 30;

fn at(port: u16) -> SocketAddr {
    SocketAddr::V4(SocketAddrV4::new(Ipv4Addr::new(127, 0, 0, 1), port))
}

/// A socket at this port, whose receives wait a tenth of a second.
fn socket_at<R: Net>(rt: &R, port: u16) -> Option<UdpSocket> {
    let socket = UdpSocket::bind(rt, at(port)).ok()?;
    socket
        .set_read_timeout(Some(Duration::from_millis(100)))
        .ok()?;
    Some(socket)
}

/// A request of a caller. The branch and the Call-ID are the call's name.
#[derive(Clone, Copy)]
pub struct Asked<'a> {
    pub method: &'a str,
    pub uri: &'a str,
    pub call: &'a str,
    /// What stands behind the URI of To.
    pub tag: &'a str,
    /// Header lines beside those of each request.
    pub lines: &'a str,
}

/// The text of a request of the caller at this port.
fn request_of(alloc: Global, port: u16, asked: Asked<'_>) -> Result<String, AllocError> {
    let Asked {
        method,
        uri,
        call,
        tag,
        lines,
    } = asked;
    format!(in alloc;
        "{method} {uri} SIP/2.0\r\nVia: SIP/2.0/UDP 127.0.0.1:{port};branch=z9hG4bK{call}\r\nMax-Forwards: 70\r\nFrom: <sip:alice@example.com>;tag=1\r\nTo: <sip:bob@example.com>{tag}\r\nCall-ID: {call}\r\nCSeq: 1 {method}\r\nContact: <sip:alice@127.0.0.1:{port}>\r\n{lines}Content-Length: 0\r\n\r\n"
    )
}

/// The answer to a request: this status line, and the header fields of the request (RFC 3261 section 8.2.6).
pub fn answer_to(alloc: Global, line: &[u8], request: &[u8]) -> Option<Vec<u8>> {
    let (_, fields) = cut_at(request, b'\n');
    let mut answer = Vec::from_slice(alloc, line).ok()?;
    answer.extend_from_slice(fields?).ok()?;
    Some(answer)
}

/// The next datagram at a socket.
fn received(alloc: Global, socket: &UdpSocket) -> Option<Vec<u8>> {
    let mut buffer = [0u8; 4_096];
    match socket.recv_from(&mut buffer) {
        Ok((count, _)) => Vec::from_slice(alloc, &buffer[..count]).ok(),
        Err(_) => None,
    }
}

/// Whether a datagram of a call begins so.
fn is_of(text: &[u8], front: &str, call: &str) -> bool {
    text.starts_with(front.as_bytes()) && call_id(text) == Some(call.as_bytes())
}

/// The first datagram of a call that begins so, if one comes in some seconds.
pub fn heard(alloc: Global, socket: &UdpSocket, front: &str, call: &str) -> Option<Vec<u8>> {
    for _ in 0..LOOKS {
        if let Some(text) = received(alloc, socket) {
            if is_of(text.as_slice(), front, call) {
                return Some(text);
            }
        }
    }
    None
}

/// The caller and the target of a proxy.
#[derive(Drop)]
pub struct Agents {
    alloc: Global,
    /// Where the proxy listens.
    proxy: u16,
    caller: UdpSocket,
    target: UdpSocket,
}

impl Agents {
    /// A caller and a target at the two ports behind the proxy's.
    pub fn new<R: Net>(rt: &R, alloc: Global, proxy: u16) -> Option<Agents> {
        let caller = socket_at(rt, proxy.saturating_add(1))?;
        let target = socket_at(rt, proxy.saturating_add(2))?;
        Some(Agents {
            alloc,
            proxy,
            caller,
            target,
        })
    }

    /// Sends a request from a socket.
    fn sends(&self, socket: &UdpSocket, port: u16, asked: Asked<'_>) {
        if let Ok(text) = request_of(self.alloc, port, asked) {
            let _ = socket.send_to(text.as_bytes(), at(self.proxy));
        }
    }

    /// Sends a request of the caller.
    pub fn sends_for_caller(&self, asked: Asked<'_>) {
        self.sends(&self.caller, self.proxy.saturating_add(1), asked);
    }

    /// Sends a request of the target's own.
    pub fn sends_for_target(&self, asked: Asked<'_>) {
        self.sends(&self.target, self.proxy.saturating_add(2), asked);
    }

    /// Sends a request of the caller to bob.
    pub fn asks(&self, method: &str, call: &str, tag: &str) {
        self.sends_for_caller(Asked {
            method,
            uri: "sip:bob@example.com",
            call,
            tag,
            lines: "",
        });
    }

    /// The answer of a call that the caller hears and that begins so.
    pub fn answer(&self, front: &str, call: &str) -> Option<Vec<u8>> {
        heard(self.alloc, &self.caller, front, call)
    }

    /// Whether the caller hears an answer of a call that begins so.
    pub fn hears(&self, front: &str, call: &str) -> bool {
        self.answer(front, call).is_some()
    }

    /// The request of a call that comes to the target.
    pub fn gets(&self, method: &str, call: &str) -> Option<Vec<u8>> {
        heard(self.alloc, &self.target, method, call)
    }

    /// Whether the target answers a request with this status line.
    pub fn answers(&self, request: &[u8], line: &str) -> bool {
        match answer_to(self.alloc, line.as_bytes(), request) {
            Some(answer) => self
                .target
                .send_to(answer.as_slice(), at(self.proxy))
                .is_ok(),
            None => false,
        }
    }

    /// Whether a request of the caller reaches the target, and its answer the caller.
    pub fn passes(&self, method: &str, call: &str, line: &str) -> bool {
        self.asks(method, call, "");
        match self.gets(method, call) {
            Some(request) => self.answers(request.as_slice(), line) && self.hears(line, call),
            None => false,
        }
    }

    /// The request of a call that the target lets ring, once the caller has heard so.
    pub fn rings(&self, call: &str) -> Option<Vec<u8>> {
        self.asks("INVITE", call, "");
        let request = self.gets("INVITE", call)?;
        if self.answers(request.as_slice(), "SIP/2.0 180 Ringing\r\n")
            && self.hears("SIP/2.0 180", call)
        {
            Some(request)
        } else {
            None
        }
    }
}
