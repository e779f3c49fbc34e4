//! A call through a proxy, whose caller and target are sockets of this process.
use crate::holds::holds;
use crate::printed::Printed;
use serve_command::serve_to;
use std::alloc::Global;
use std::net::{Ipv4Addr, Net, SocketAddr, SocketAddrV4, UdpSocket};
use std::test::Fail;
use std::thread::join;
use std::time::Duration;

/// Where the proxy listens.
const PROXY: u16 = 47_321;

/// Where the caller does.
const CALLER: u16 = 47_322;

/// Where the target does.
const TARGET: u16 = 47_323;

/// The configuration: one user at one telephone.
const CONFIGURATION: &[u8] =
    b"own 127.0.0.1 47321\ninstance 7\ndomain example.com\nlocation bob 1000 sip:bob@127.0.0.1:47323\n";

/// The caller's INVITE.
const INVITE: &[u8] =
    b"INVITE sip:bob@example.com SIP/2.0\r\nVia: SIP/2.0/UDP 127.0.0.1:47322;branch=z9hG4bK74bf9\r\nMax-Forwards: 70\r\nFrom: <sip:alice@example.com>;tag=9fxced76sl\r\nTo: <sip:bob@example.com>\r\nCall-ID: 3848276298220188511@127.0.0.1\r\nCSeq: 1 INVITE\r\nContact: <sip:alice@127.0.0.1:47322>\r\nContent-Length: 0\r\n\r\n";

/// What is printed of a call whose one target answers 404.
const LISTING: &[u8] =
    b"listening 127.0.0.1 47321\nfork 3 1\nprefer 401,407,415,420,484\ndepth 256\ntarget 0 - 1000 stored 404 0 received\nrank 404 0 0\nfinal 404 0\nturns 400\n";

/// Where the proxy of a call that cannot be sent listens.
const OTHER_PROXY: u16 = 47_331;

/// Where its caller does.
const OTHER_CALLER: u16 = 47_332;

/// The configuration: one user at an address to which the system sends no single datagram.
const UNREACHED: &[u8] =
    b"own 127.0.0.1 47331\ninstance 7\ndomain example.com\nlocation bob 1000 sip:bob@255.255.255.255\n";

/// The other caller's OPTIONS.
const OPTIONS: &[u8] =
    b"OPTIONS sip:bob@example.com SIP/2.0\r\nVia: SIP/2.0/UDP 127.0.0.1:47332;branch=z9hG4bK74bfa\r\nMax-Forwards: 70\r\nFrom: <sip:alice@example.com>;tag=9fxced76sm\r\nTo: <sip:bob@example.com>\r\nCall-ID: 3848276298220188512@127.0.0.1\r\nCSeq: 1 OPTIONS\r\nContent-Length: 0\r\n\r\n";

/// What is printed of a call whose one request the system refused to send.
const UNSENT: &[u8] =
    b"listening 127.0.0.1 47331\nfork 3 1\nprefer 401,407,415,420,484\ndepth 256\ntarget 0 - 1000 stored 503 0 assumed\nrank 503 0 0\nfinal 500 0\nturns 400\n";

fn at(port: u16) -> SocketAddr {
    SocketAddr::V4(SocketAddrV4::new(Ipv4Addr::new(127, 0, 0, 1), port))
}

/// A socket at this port, whose receives wait a tenth of a second.
fn socket_at<R: Net>(rt: &R, port: u16) -> Option<UdpSocket> {
    let socket = UdpSocket::bind(rt, at(port)).ok()?;
    socket
        .set_read_timeout(Some(Duration::from_millis(100)))
        .ok()?;
    Some(socket)
}

/// The next datagram at a socket.
fn received(alloc: Global, socket: &UdpSocket) -> Option<Vec<u8>> {
    let mut buffer = [0u8; 2_048];
    match socket.recv_from(&mut buffer) {
        Ok((count, _)) => Vec::from_slice(alloc, &buffer[..count]).ok(),
        Err(_) => None,
    }
}

/// The target's copy of the INVITE, which the caller sends until it is there: the proxy may be set up later than the caller.
fn rung(alloc: Global, caller: &UdpSocket, target: &UdpSocket) -> Option<Vec<u8>> {
    for _ in 0..100u32 {
        let _ = caller.send_to(INVITE, at(PROXY));
        let came = received(alloc, target);
        if came.is_some() {
            return came;
        }
    }
    None
}

/// The 404 to a request: its status line, and the header fields of the request (RFC 3261 section 8.2.6).
fn not_found(alloc: Global, request: &[u8]) -> Option<Vec<u8>> {
    let ended = request.iter().position(|byte| *byte == b'\n')?;
    let (_, fields) = request.split_at(ended);
    let mut answer = Vec::from_slice(alloc, b"SIP/2.0 404 Not Found\r").ok()?;
    answer.extend_from_slice(fields).ok()?;
    Some(answer)
}

/// Whether a 404 comes to the caller.
fn is_refused(alloc: Global, caller: &UdpSocket) -> bool {
    for _ in 0..100u32 {
        if let Some(text) = received(alloc, caller) {
            if text.as_slice().starts_with(b"SIP/2.0 404 ") {
                return true;
            }
        }
    }
    false
}

/// Calls bob, who is not found, and says whether the caller hears it.
fn call<R: Net>(rt: &R, alloc: Global) -> Option<bool> {
    let caller = socket_at(rt, CALLER)?;
    let target = socket_at(rt, TARGET)?;
    let request = rung(alloc, &caller, &target)?;
    let answer = not_found(alloc, request.as_slice())?;
    target.send_to(answer.as_slice(), at(PROXY)).ok()?;
    Some(is_refused(alloc, &caller))
}

#[test]
fn a_refusal_reaches_the_caller(rt: HostRuntime) -> Result<(), Fail> {
    let printed = Printed::new(rt, rt.alloc());
    let (served, heard) = join(
        &rt,
        || serve_to(&rt, &printed, rt.alloc(), CONFIGURATION, 400),
        || call(&rt, rt.alloc()),
    );
    holds(&rt, served.is_ok(), "the proxy serves");
    holds(&rt, heard == Some(true), "the caller hears the 404");
    holds(&rt, printed.is(LISTING), "the call is listed");
    Ok(())
}

/// Asks for bob until an answer comes, and says whether it is a 500.
fn ask<R: Net>(rt: &R, alloc: Global) -> Option<bool> {
    let caller = socket_at(rt, OTHER_CALLER)?;
    for _ in 0..100u32 {
        let _ = caller.send_to(OPTIONS, at(OTHER_PROXY));
        if let Some(text) = received(alloc, &caller) {
            return Some(text.as_slice().starts_with(b"SIP/2.0 500 "));
        }
    }
    None
}

#[test]
fn what_the_system_does_not_send_is_answered(rt: HostRuntime) -> Result<(), Fail> {
    let printed = Printed::new(rt, rt.alloc());
    let (served, heard) = join(
        &rt,
        || serve_to(&rt, &printed, rt.alloc(), UNREACHED, 400),
        || ask(&rt, rt.alloc()),
    );
    holds(&rt, served.is_ok(), "the proxy serves");
    holds(&rt, heard == Some(true), "the caller hears the 500");
    holds(&rt, printed.is(UNSENT), "the call is listed");
    Ok(())
}
