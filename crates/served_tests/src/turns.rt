//! Requests that come to a service one after the other, and what goes out for each.
use crate::credentials::{BEGAN, Password, SECRET, credentials_of};
use crate::outgoing::{Outgoing, Sent};
use proxy_dispatch::Received;
use proxy_service::{RunSettings, Service};
use service_files::{Identity, read_text};
use sip_uri::Hop;
use sip_via::Own;
use std::alloc::{AllocError, Global};
use std::sync::Wait;
use std::time::Clock;

/// One that comes: when, from where, what it asks for, who says that it is from him and for whom it is, and with whose password.
#[derive(Clone, Copy)]
pub struct Asked {
    pub at: u64,
    pub source: Hop,
    pub method: &'static str,
    pub uri: &'static str,
    pub from: &'static str,
    /// The value of its To.
    pub to: &'static str,
    pub call: &'static str,
    pub cseq: u32,
    /// Its further lines.
    pub lines: &'static str,
    pub password: Option<Password>,
}

/// What goes out for it: to where, how it begins, and what stands in it.
#[derive(Clone, Copy)]
pub struct Goes {
    pub to: Hop,
    pub front: &'static str,
    pub part: &'static str,
}

/// The line of the credentials of one that comes, if it has any.
fn credentials_line(alloc: Global, asked: &Asked) -> Result<String, AllocError> {
    let Some(password) = asked.password else {
        return Ok(String::new(alloc));
    };
    let value = credentials_of(
        alloc,
        password,
        asked.method,
        asked.uri,
        asked.source.addr,
        asked.at,
    )?;
    if asked.method == "REGISTER" {
        format!(in alloc; "Authorization: {value}\r\n")
    } else {
        format!(in alloc; "Proxy-Authorization: {value}\r\n")
    }
}

/// The text of one that comes.
fn text_of(alloc: Global, asked: &Asked) -> Result<String, AllocError> {
    let credentials = credentials_line(alloc, asked)?;
    let Asked {
        at,
        source,
        method,
        uri,
        from,
        to,
        call,
        cseq,
        lines,
        password: _,
    } = *asked;
    let [a, b, c, d] = source.addr;
    let port = source.port;
    format!(in alloc;
        "{method} {uri} SIP/2.0\r\nVia: SIP/2.0/UDP {a}.{b}.{c}.{d}:{port};branch=z9hG4bK{call}{cseq}{at}\r\nMax-Forwards: 70\r\nFrom: <{from}>;tag=1\r\nTo: {to}\r\nCall-ID: {call}\r\nCSeq: {cseq} {method}\r\n{lines}{credentials}Content-Length: 0\r\n\r\n"
    )
}

/// Whether a part stands in a text.
fn has_part(text: &[u8], part: &str) -> bool {
    let part = part.as_bytes();
    part.is_empty() || text.windows(part.len()).any(|bytes| bytes == part)
}

/// Whether this went out, without credentials.
fn is_sent(sent: &Sent, goes: &Goes) -> bool {
    let text = sent.bytes.as_slice();
    sent.to == goes.to
        && text.starts_with(goes.front.as_bytes())
        && has_part(text, goes.part)
        && !has_part(text, "Proxy-Authorization")
}

/// A service that has begun to serve by this configuration, with these users, if it has a realm, and with room for so many bindings, which
/// are kept elsewhere, too, or are not; its Record-Route line names this address, where that is not its own.
fn begun(
    alloc: Global,
    text: &[u8],
    users: Option<&[u8]>,
    most_bindings: u32,
    has_store: bool,
    route: Option<Own>,
) -> Option<Service> {
    let configuration = read_text(alloc, text, users, 1, false).ok()?;
    let terms = RunSettings {
        identity: Identity::of(configuration.settings.setup()),
        number: 1,
        records: false,
        route,
        own_port: false,
        streams: false,
        most_calls: 100,
        most_bindings,
        has_journal: false,
        has_store,
        began: u64::from(BEGAN) * 1_000,
        secret: SECRET,
    };
    Service::new(alloc, alloc, configuration, terms).ok()
}

/// One whose bindings live as long as it runs.
pub fn service_of(
    alloc: Global,
    text: &[u8],
    users: Option<&[u8]>,
    most_bindings: u32,
) -> Option<Service> {
    begun(alloc, text, users, most_bindings, false, None)
}

/// One whose Record-Route line names this address.
pub fn service_by(alloc: Global, text: &[u8], users: Option<&[u8]>, route: Own) -> Option<Service> {
    begun(alloc, text, users, 100, false, Some(route))
}

/// One whose bindings are kept elsewhere, too.
pub fn storing_service_of(alloc: Global, text: &[u8], users: Option<&[u8]>) -> Option<Service> {
    begun(alloc, text, users, 100, true, None)
}

/// What goes out as a request comes.
pub fn sent_for<R: Wait + Clock>(
    rt: &R,
    alloc: Global,
    service: &Service,
    asked: &Asked,
) -> Option<Outgoing> {
    let Ok(text) = text_of(alloc, asked) else {
        return None;
    };
    let mut port = Outgoing::new(alloc);
    let received = Received {
        bytes: text.as_bytes(),
        source: asked.source,
        now: asked.at,
    };
    service.take(rt, &mut port, received);
    Some(port)
}

/// How many datagrams go out as a request comes.
pub fn takes<R: Wait + Clock>(
    rt: &R,
    alloc: Global,
    service: &Service,
    asked: &Asked,
) -> Option<usize> {
    match sent_for(rt, alloc, service, asked) {
        Some(port) => Some(port.sent().len()),
        None => None,
    }
}

/// Whether this went out, without credentials.
pub fn sends(port: &Outgoing, goes: &Goes) -> bool {
    port.sent().iter().any(|sent| is_sent(sent, goes))
}

/// Whether what comes is followed by what goes out.
fn follows<R: Wait + Clock>(
    rt: &R,
    alloc: Global,
    service: &Service,
    asked: &Asked,
    goes: &Goes,
) -> bool {
    match sent_for(rt, alloc, service, asked) {
        Some(port) => sends(&port, goes),
        None => false,
    }
}

/// Which of the turns is not followed by what goes out, if one is not.
pub fn missed<R: Wait + Clock>(
    rt: &R,
    alloc: Global,
    service: &Service,
    turns: &[(Asked, Goes)],
) -> Option<usize> {
    for (n, turn) in turns.iter().enumerate() {
        if !follows(rt, alloc, service, &turn.0, &turn.1) {
            return Some(n);
        }
    }
    None
}
