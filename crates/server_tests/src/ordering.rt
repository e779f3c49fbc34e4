//! What comes of one call is handled in the order in which it came: a CANCEL right behind its INVITE, and a target that rings and
//! declines at once. One socket of this process is the caller and all targets.
use crate::holds::holds;
use crate::printed::Printed;
use log::Log;
use proxy_threads::call_id;
use serve_command::serve_to;
use sip_lex::cut_at;
use std::alloc::{AllocError, Global};
use std::net::{Ipv4Addr, Net, SocketAddr, SocketAddrV4, UdpSocket};
use std::sync::Wait;
use std::sync::atomic::{AtomicU64, Ordering};
use std::test::Fail;
use std::thread::{Threads, join};
use std::time::Duration;

/// How many calls are begun and cancelled.
const CALLS: usize = 800;

/// How many of them at a time.
const AT_ONCE: usize = 20;

/// How many targets ring and decline.
const TARGETS: usize = 256;

/// In how many calls at most they do so.
const TRIES: usize = 3;

/// How many of them do so before their ACKs are waited for.
const ROUND: usize = 16;

/// How often a datagram is waited for before the test gives up.
const LOOKS: u32 = 1_000;

/// A CANCEL of this call was answered 200.
const ANSWERED: u8 = 1;

/// The target of this call got a CANCEL.
const STOPPED: u8 = 2;

/// The caller has the 487 of this call.
const ENDED: u8 = 4;

/// The configuration of the calls that are cancelled.
const ONE: &[u8] =
    b"own 127.0.0.1 47341\ninstance 7\ndomain example.com\nlocation bob 1000 sip:bob@127.0.0.1:47342\n";

/// One process that calls and is called.
#[derive(Drop)]
struct Agent {
    socket: UdpSocket,
    proxy: SocketAddr,
    port: u16,
}

fn at(port: u16) -> SocketAddr {
    SocketAddr::V4(SocketAddrV4::new(Ipv4Addr::new(127, 0, 0, 1), port))
}

/// A request of the caller. The branch and the Call-ID have the number of the call.
fn request_of(alloc: Global, method: &str, port: u16, call: usize) -> Result<String, AllocError> {
    format!(in alloc;
        "{method} sip:bob@example.com SIP/2.0\r\nVia: SIP/2.0/UDP 127.0.0.1:{port};branch=z9hG4bKc{call}\r\nMax-Forwards: 70\r\nFrom: <sip:alice@example.com>;tag=1\r\nTo: <sip:bob@example.com>\r\nCall-ID: c{call}@127.0.0.1\r\nCSeq: 1 {method}\r\nContact: <sip:alice@127.0.0.1:{port}>\r\nContent-Length: 0\r\n\r\n"
    )
}

/// The answer to a request: this status line, and the header fields of the request (RFC 3261 section 8.2.6).
fn answer_to(alloc: Global, line: &[u8], request: &[u8]) -> Option<Vec<u8>> {
    let (_, fields) = cut_at(request, b'\n');
    let mut answer = Vec::from_slice(alloc, line).ok()?;
    answer.extend_from_slice(fields?).ok()?;
    Some(answer)
}

/// The 487 to the INVITE of a call whose CANCEL has come: its first Via line is the CANCEL's, its second one the caller's.
fn terminated(alloc: Global, cancel: &[u8], port: u16, call: usize) -> Option<Vec<u8>> {
    let (_, fields) = cut_at(cancel, b'\n');
    let (via, _) = cut_at(fields?, b'\n');
    let rest = format!(in alloc;
        "\nVia: SIP/2.0/UDP 127.0.0.1:{port};branch=z9hG4bKc{call}\r\nFrom: <sip:alice@example.com>;tag=1\r\nTo: <sip:bob@example.com>;tag=9\r\nCall-ID: c{call}@127.0.0.1\r\nCSeq: 1 INVITE\r\nContent-Length: 0\r\n\r\n"
    ).ok()?;
    let mut answer = Vec::from_slice(alloc, b"SIP/2.0 487 Request Terminated\r\n").ok()?;
    answer.extend_from_slice(via).ok()?;
    answer.extend_from_slice(rest.as_bytes()).ok()?;
    Some(answer)
}

/// The number at the front of a text, behind this front of it.
fn number_behind(text: &[u8], front: &[u8]) -> Option<usize> {
    if !text.starts_with(front) {
        return None;
    }
    let mut number = 0usize;
    for byte in text.get(front.len()..)? {
        if !byte.is_ascii_digit() {
            break;
        }
        number = number
            .saturating_mul(10)
            .saturating_add(usize::from(*byte).saturating_sub(48));
    }
    Some(number)
}

/// The number of the call that a message is of.
fn call_of(text: &[u8]) -> Option<usize> {
    number_behind(call_id(text)?, b"c")
}

impl Agent {
    /// An agent at this port, for a proxy at that one.
    fn new<R: Net>(rt: &R, port: u16, proxy: u16) -> Option<Agent> {
        let socket = UdpSocket::bind(rt, at(port)).ok()?;
        socket
            .set_read_timeout(Some(Duration::from_millis(20)))
            .ok()?;
        Some(Agent {
            socket,
            proxy: at(proxy),
            port,
        })
    }

    /// Sends to the proxy.
    fn send(&self, bytes: &[u8]) {
        let _ = self.socket.send_to(bytes, self.proxy);
    }

    /// Sends a request of the caller.
    fn ask(&self, alloc: Global, method: &str, call: usize) {
        if let Ok(text) = request_of(alloc, method, self.port, call) {
            self.send(text.as_bytes());
        }
    }

    /// Answers a request of the proxy.
    fn answer(&self, alloc: Global, line: &[u8], request: &[u8]) {
        if let Some(text) = answer_to(alloc, line, request) {
            self.send(text.as_slice());
        }
    }

    /// The next datagram, where one comes within some hundredths of a second.
    fn received(&self, alloc: Global) -> Option<Vec<u8>> {
        let mut buffer = [0u8; 2_048];
        match self.socket.recv_from(&mut buffer) {
            Ok((count, _)) => Vec::from_slice(alloc, &buffer[..count]).ok(),
            Err(_) => None,
        }
    }

    /// Waits until the proxy has printed this.
    fn waits_for<R: Wait>(&self, printed: &Printed<R>, text: &[u8]) {
        for _ in 0..LOOKS {
            if printed.is(text) {
                return;
            }
            self.rest();
        }
    }

    /// Waits for some hundredths of a second at most, or for what comes.
    fn rest(&self) {
        let mut buffer = [0u8; 16];
        let _ = self.socket.recv_from(&mut buffer);
    }

    /// Sends what is no message until the turns of the proxy are over.
    fn use_up_turns(&self, over: &AtomicU64) {
        for _ in 0..LOOKS {
            if over.load(Ordering::SeqCst) != 0 {
                return;
            }
            for _ in 0..200u32 {
                self.send(b"x");
            }
            self.rest();
        }
    }
}

// ---- calls that are cancelled at once

/// What came of the calls, by number.
#[derive(Drop)]
struct Cancelled {
    agent: Agent,
    marks: [u8; CALLS],
    /// How many CANCELs were answered 481.
    unknown: u32,
}

impl Cancelled {
    /// Nothing has come of any call.
    fn new(agent: Agent) -> Cancelled {
        Cancelled {
            agent,
            marks: [0; CALLS],
            unknown: 0,
        }
    }

    /// Notes what came of a call.
    fn mark(&mut self, text: &[u8], what: u8) {
        if let Some(call) = call_of(text) {
            if let Some(mark) = self.marks.get_mut(call) {
                *mark |= what;
            }
        }
    }

    /// A CANCEL comes to the target: it ends its call.
    fn stop(&mut self, alloc: Global, cancel: &[u8]) {
        self.mark(cancel, STOPPED);
        self.agent.answer(alloc, b"SIP/2.0 200 OK\r\n", cancel);
        let call = call_of(cancel).unwrap_or(CALLS);
        if let Some(text) = terminated(alloc, cancel, self.agent.port, call) {
            self.agent.send(text.as_slice());
        }
    }

    /// A 487 comes to the caller.
    fn end(&mut self, alloc: Global, answer: &[u8]) {
        self.mark(answer, ENDED);
        if let Some(call) = call_of(answer) {
            self.agent.ask(alloc, "ACK", call);
        }
    }

    /// Does what the caller or the target does with a datagram.
    fn take(&mut self, alloc: Global, text: &[u8]) {
        if text.starts_with(b"INVITE ") {
            self.agent.answer(alloc, b"SIP/2.0 180 Ringing\r\n", text);
        } else if text.starts_with(b"CANCEL ") {
            self.stop(alloc, text);
        } else if text.starts_with(b"SIP/2.0 487 ") {
            self.end(alloc, text);
        } else if text.starts_with(b"SIP/2.0 200 ") {
            self.mark(text, ANSWERED);
        } else if text.starts_with(b"SIP/2.0 481 ") {
            self.unknown = self.unknown.saturating_add(1);
        }
    }

    /// Whether so many calls from the first have all come to their ends.
    fn are_over(&self, count: usize) -> bool {
        self.marks
            .iter()
            .take(count)
            .all(|mark| *mark == ANSWERED | STOPPED | ENDED)
    }

    /// Begins calls from a number on, cancels each at once, and waits for their ends. Says whether they came.
    fn play(&mut self, alloc: Global, first: usize) -> bool {
        let count = first.saturating_add(AT_ONCE);
        for call in first..count {
            self.agent.ask(alloc, "INVITE", call);
            self.agent.ask(alloc, "CANCEL", call);
        }
        for _ in 0..LOOKS {
            if self.unknown > 0 || self.are_over(count) {
                break;
            }
            if let Some(text) = self.agent.received(alloc) {
                self.take(alloc, text.as_slice());
            }
        }
        self.unknown == 0 && self.are_over(count)
    }
}

/// Plays all calls, and says whether each CANCEL was answered 200 and each target stopped.
fn cancel_all<R: Net + Wait>(
    rt: &R,
    alloc: Global,
    printed: &Printed<R>,
    over: &AtomicU64,
) -> bool {
    let Some(agent) = Agent::new(rt, 47_342, 47_341) else {
        return false;
    };
    let mut calls = Cancelled::new(agent);
    calls
        .agent
        .waits_for(printed, b"listening 127.0.0.1 47341\n");
    let mut well = true;
    for round in 0..CALLS / AT_ONCE {
        well = well && calls.play(alloc, round.saturating_mul(AT_ONCE));
    }
    calls.agent.use_up_turns(over);
    well
}

/// Serves for so many turns, and says that they are over.
fn serve_until<R: Threads + Wait + Net + Log + Sync>(
    rt: &R,
    alloc: Global,
    printed: &Printed<R>,
    text: &[u8],
    turns: u32,
    over: &AtomicU64,
) -> bool {
    let served = serve_to(rt, printed, alloc, text, turns);
    over.store(1, Ordering::SeqCst);
    served.is_ok()
}

#[test]
fn a_cancel_right_behind_its_invite_finds_it(rt: HostRuntime) -> Result<(), Fail> {
    let printed = Printed::new(rt, rt.alloc());
    let over = AtomicU64::new(0);
    let (served, well) = join(
        &rt,
        || serve_until(&rt, rt.alloc(), &printed, ONE, 12_000, &over),
        || cancel_all(&rt, rt.alloc(), &printed, &over),
    );
    holds(&rt, served, "the proxy serves");
    holds(
        &rt,
        well,
        "each CANCEL is answered 200, each target that rang is stopped",
    );
    Ok(())
}

// ---- targets that ring and decline at once

/// What came of the targets, by number.
#[derive(Drop)]
struct Declined {
    agent: Agent,
    /// The number of the call.
    call: usize,
    /// The INVITE of each, until it is answered.
    invites: Vec<Vec<u8>>,
    has_come: [bool; TARGETS],
    acknowledged: usize,
    rung: usize,
    /// How many 180s had come to the caller before the final answer.
    rung_before: Option<usize>,
}

impl Declined {
    /// Nothing has come of the call of this number.
    fn new(agent: Agent, alloc: Global, call: usize) -> Declined {
        Declined {
            agent,
            call,
            invites: Vec::new(alloc),
            has_come: [false; TARGETS],
            acknowledged: 0,
            rung: 0,
            rung_before: None,
        }
    }

    /// An INVITE comes to a target. It is kept where none came before.
    fn keep(&mut self, text: Vec<u8>) {
        let Some(target) = number_behind(text.as_slice(), b"INVITE sip:b") else {
            return;
        };
        if let Some(has_come) = self.has_come.get_mut(target) {
            if !*has_come {
                *has_come = true;
                let _ = self.invites.push(text);
            }
        }
    }

    /// The final answer comes to the caller.
    fn end(&mut self, alloc: Global) {
        if self.rung_before.is_none() {
            self.rung_before = Some(self.rung);
        }
        self.agent.ask(alloc, "ACK", self.call);
    }

    /// Does what the caller or a target does with a datagram.
    fn take(&mut self, alloc: Global, text: Vec<u8>) {
        if text.as_slice().starts_with(b"INVITE ") {
            self.keep(text);
        } else if text.as_slice().starts_with(b"ACK ") {
            self.acknowledged = self.acknowledged.saturating_add(1);
        } else if text.as_slice().starts_with(b"SIP/2.0 180 ") {
            self.rung = self.rung.saturating_add(1);
        } else if text.as_slice().starts_with(b"SIP/2.0 486 ") {
            self.end(alloc);
        }
    }

    /// A target rings and declines at once.
    fn decline(&self, alloc: Global, invite: &[u8]) {
        self.agent.answer(alloc, b"SIP/2.0 180 Ringing\r\n", invite);
        self.agent
            .answer(alloc, b"SIP/2.0 486 Busy Here\r\n", invite);
    }

    /// The targets of which an INVITE came decline, some at a time; their ACKs are waited for.
    fn decline_some(&mut self, alloc: Global) {
        let mut count = self.acknowledged;
        for _ in 0..ROUND {
            if let Some(invite) = self.invites.pop() {
                self.decline(alloc, invite.as_slice());
                count = count.saturating_add(1);
            }
        }
        for _ in 0..LOOKS {
            if self.acknowledged >= count {
                return;
            }
            if let Some(text) = self.agent.received(alloc) {
                self.take(alloc, text);
            }
        }
    }

    /// Calls all targets, lets each decline, and waits for the final answer. How many 180s came before it.
    fn play(&mut self, alloc: Global) -> Option<usize> {
        self.agent.ask(alloc, "INVITE", self.call);
        for _ in 0..LOOKS {
            if self.rung_before.is_some() {
                break;
            }
            match self.agent.received(alloc) {
                Some(text) => self.take(alloc, text),
                None => self.decline_some(alloc),
            }
        }
        self.rung_before
    }
}

/// The configuration of a user at all targets.
fn many_targets(alloc: Global) -> Result<String, AllocError> {
    let mut text = String::new(alloc);
    text.push_str("own 127.0.0.1 47351\ninstance 7\ndomain example.com\n")?;
    for target in 0..TARGETS {
        let line = format!(in alloc; "location bob 1000 sip:b{target}@127.0.0.1:47352\n")?;
        text.push_str(&line)?;
    }
    Ok(text)
}

/// Plays a call until in one of them each 180 came before the final answer, and says whether one did. A busy machine loses a
/// datagram of a call now and then, of other calls then; a proxy that takes a target's datagrams out of order fails in each.
fn decline_all<R: Net + Wait>(
    rt: &R,
    alloc: Global,
    printed: &Printed<R>,
    over: &AtomicU64,
) -> Option<bool> {
    let mut agent = Agent::new(rt, 47_352, 47_351)?;
    agent.waits_for(printed, b"listening 127.0.0.1 47351\n");
    let mut all_rang = false;
    for call in 0..TRIES {
        if !all_rang {
            let mut targets = Declined::new(agent, alloc, call);
            all_rang = targets.play(alloc) == Some(TARGETS);
            agent = targets.agent;
        }
    }
    agent.use_up_turns(over);
    Some(all_rang)
}

#[test]
fn a_target_rings_before_it_declines(rt: HostRuntime) -> Result<(), Fail> {
    let printed = Printed::new(rt, rt.alloc());
    let over = AtomicU64::new(0);
    let text = many_targets(rt.alloc())?;
    let (served, all_rang) = join(
        &rt,
        || serve_until(&rt, rt.alloc(), &printed, text.as_bytes(), 12_000, &over),
        || decline_all(&rt, rt.alloc(), &printed, &over),
    );
    holds(&rt, served, "the proxy serves");
    holds(
        &rt,
        all_rang == Some(true),
        "each 180 goes up before the final answer",
    );
    Ok(())
}
