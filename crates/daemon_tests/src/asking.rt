//! Those who send requests to a proxy and answer its own, each by a socket at an address of its own.
use crate::agents::{answer_to, heard};
use crate::texts::behind;
use sip_lex::cut_at;
use std::alloc::{AllocError, Global};
use std::net::{Ipv4Addr, Net, SocketAddr, SocketAddrV4, UdpSocket};
use std::time::Duration;

/// A request: its Call-ID, which is its branch with its number and what stands behind that, and what else stands in it.
#[derive(Clone, Copy)]
pub struct Asked<'a> {
    pub method: &'a str,
    pub uri: &'a str,
    pub from: &'a str,
    /// The value of its To.
    pub to: &'a str,
    pub call: &'a str,
    pub cseq: u32,
    pub branch: &'a str,
    pub lines: &'a str,
}

/// A telephone or a caller, with the last byte of its address and its port, and the port of the proxy.
#[derive(Drop)]
pub struct Agent {
    pub alloc: Global,
    host: u8,
    port: u16,
    proxy: u16,
    socket: UdpSocket,
}

fn at(host: u8, port: u16) -> SocketAddr {
    SocketAddr::V4(SocketAddrV4::new(Ipv4Addr::new(127, 0, 0, host), port))
}

impl Agent {
    pub fn new<R: Net>(rt: &R, alloc: Global, host: u8, port: u16, proxy: u16) -> Option<Agent> {
        let socket = UdpSocket::bind(rt, at(host, port)).ok()?;
        socket
            .set_read_timeout(Some(Duration::from_millis(100)))
            .ok()?;
        Some(Agent {
            alloc,
            host,
            port,
            proxy,
            socket,
        })
    }

    /// The text of a request.
    fn text(&self, asked: Asked<'_>) -> Result<String, AllocError> {
        let Asked {
            method,
            uri,
            from,
            to,
            call,
            cseq,
            branch,
            lines,
        } = asked;
        let Agent { host, port, .. } = self;
        format!(in self.alloc;
            "{method} {uri} SIP/2.0\r\nVia: SIP/2.0/UDP 127.0.0.{host}:{port};branch=z9hG4bK{call}{cseq}{branch}\r\nMax-Forwards: 70\r\nFrom: <{from}>;tag=1\r\nTo: {to}\r\nCall-ID: {call}\r\nCSeq: {cseq} {method}\r\n{lines}Content-Length: 0\r\n\r\n"
        )
    }

    /// Sends a request to the proxy.
    pub fn asks(&self, asked: Asked<'_>) {
        if let Ok(text) = self.text(asked) {
            let _ = self.socket.send_to(text.as_bytes(), at(1, self.proxy));
        }
    }

    /// The datagram of a call that comes and begins so.
    pub fn hears(&self, front: &str, call: &str) -> Option<Vec<u8>> {
        heard(self.alloc, &self.socket, front, call)
    }

    /// Whether a request is answered so.
    pub fn is_answered(&self, asked: Asked<'_>, front: &str) -> bool {
        self.asks(asked);
        self.hears(front, asked.call).is_some()
    }

    /// Answers a request with this status line.
    pub fn answers(&self, request: &[u8], line: &str) {
        if let Some(answer) = answer_to(self.alloc, line.as_bytes(), request) {
            let _ = self.socket.send_to(answer.as_slice(), at(1, self.proxy));
        }
    }
}

/// What stands behind a text in another one, up to this byte.
pub fn value_in(alloc: Global, text: &[u8], front: &[u8], end: u8) -> Option<String> {
    let (value, _) = cut_at(behind(text, front)?, end);
    String::from_utf8(Vec::from_slice(alloc, value).ok()?).ok()
}
