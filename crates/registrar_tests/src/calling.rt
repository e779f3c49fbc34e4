//! Requests that would open a call as rows of a table, and what is decided of each.
use crate::answers::{Wanted, is_answer, is_name};
use crate::passwords::{Password, line_if_any};
use crate::requests::{joined, request};
use crate::world::{SECOND, SECRET, domain, realm, users};
use authentication::{
    Arrival, CallAdmission, Decision, RealmSecrets, Rule, decision_of, is_for_registrar,
    is_of_dialog,
};
use sip_build::OwnStatus;
use sip_digest::append_dialog_token;
use sip_text::Message;
use sip_uri::Hop;
use std::alloc::{AllocError, Global};

/// What has to be decided.
#[derive(Clone, Copy)]
pub enum Decided {
    Registers,
    Opens(Rule),
    /// An answer of this status, and for whom it is noted that wrong credentials came.
    Turned(u16, Wanted, Option<&'static [u8]>),
}

/// The token of a dialog: for which Call-ID, and how many seconds ago.
#[derive(Clone, Copy)]
pub struct Token(pub &'static [u8], pub u32);

/// A request that would open a call, and what is decided of it.
#[derive(Clone, Copy)]
pub struct CallRow {
    pub method: &'static [u8],
    pub uri: &'static [u8],
    /// Its lines but those below, each with its end.
    pub lines: &'static [u8],
    pub token: Option<Token>,
    pub password: Option<Password>,
    pub trusted: bool,
    pub refusal: Option<OwnStatus>,
    pub strangers: bool,
    pub has_place: bool,
    pub decided: Decided,
}

/// Where each comes from.
const SOURCE: [u8; 4] = [198, 51, 100, 7];

/// The Route line of a dialog that went by the proxy.
fn route_line(alloc: Global, token: Token) -> Result<Vec<u8, Global>, AllocError> {
    let mut text = Vec::from_slice(alloc, b"Route: <sip:192.0.2.9:5060;lr;d=")?;
    append_dialog_token(&mut text, &SECRET, token.0, SECOND - token.1 % 1_000_000)?;
    text.extend_from_slice(b">\r\n")?;
    Ok(text)
}

fn route_if_any(alloc: Global, token: Option<Token>) -> Option<Vec<u8, Global>> {
    match token {
        None => Some(Vec::new(alloc)),
        Some(token) => route_line(alloc, token).ok(),
    }
}

fn opening_message(alloc: Global, row: &CallRow) -> Option<Message<Global>> {
    let route = route_if_any(alloc, row.token)?;
    let password = line_if_any(alloc, b"Proxy-Authorization", row.password, row.method)?;
    let Ok(start) = joined(alloc, &[row.method, b" ", row.uri, b" SIP/2.0\r\n"]) else {
        return None;
    };
    let Ok(further) = joined(alloc, &[&route, &password]) else {
        return None;
    };
    request(alloc, &start, row.lines, &further)
}

fn is_decided(alloc: Global, decision: &Decision, wanted: Decided) -> bool {
    match (decision, wanted) {
        (Decision::Registers, Decided::Registers) => true,
        (Decision::Opens(rule), Decided::Opens(wanted)) => *rule == wanted,
        (Decision::Turned(answer, noted), Decided::Turned(status, lines, name)) => {
            is_answer(alloc, answer, status, lines, SOURCE) && is_name(noted, name)
        }
        _ => false,
    }
}

fn arrival_of(row: &CallRow) -> Arrival {
    Arrival {
        source: Hop::over_udp(SOURCE, 5060),
        second: SECOND,
        trusted: row.trusted,
        refusal: row.refusal,
        has_place: row.has_place,
    }
}

fn is_registering(decided: Decided) -> bool {
    match decided {
        Decided::Registers => true,
        Decided::Opens(_) | Decided::Turned(_, _, _) => false,
    }
}

fn is_in_dialog(decided: Decided) -> bool {
    match decided {
        Decided::Opens(rule) => rule == Rule::InDialog,
        Decided::Registers | Decided::Turned(_, _, _) => false,
    }
}

/// Whether a request is one for the registrar, and one of a dialog, where the decision has it so.
fn is_of_its_kind(alloc: Global, row: &CallRow, message: &Message<Global>) -> bool {
    let domain = domain();
    let Ok(registers) = is_for_registrar(alloc, &domain, message) else {
        return false;
    };
    registers == is_registering(row.decided)
        && (!is_in_dialog(row.decided)
            || is_of_dialog(&SECRET, domain.own, domain.route, SECOND, message))
}

/// Whether it is decided of a request what has to be, in this realm or in none.
fn decides_in(
    alloc: Global,
    realm: Option<&RealmSecrets<'_>>,
    row: &CallRow,
    message: &Message<Global>,
) -> bool {
    let admission = CallAdmission {
        domain: domain(),
        realm,
        secret: &SECRET,
        serves_strangers: row.strangers,
    };
    match decision_of(alloc, &admission, arrival_of(row), message) {
        Ok(decision) => {
            is_decided(alloc, &decision, row.decided) && is_of_its_kind(alloc, row, message)
        }
        Err(_) => false,
    }
}

/// Whether it is decided of a request what has to be.
pub fn decides(alloc: Global, has_realm: bool, row: &CallRow) -> bool {
    let Some(users) = users(alloc) else {
        return false;
    };
    let Some(realm) = realm(&users) else {
        return false;
    };
    let Some(message) = opening_message(alloc, row) else {
        return false;
    };
    if has_realm {
        decides_in(alloc, Some(&realm), row, &message)
    } else {
        decides_in(alloc, None, row, &message)
    }
}

/// A Route line that begins so, with the token of a dialog behind that.
fn route_by(alloc: Global, front: &[u8]) -> Result<Vec<u8, Global>, AllocError> {
    let mut text = Vec::from_slice(alloc, front)?;
    append_dialog_token(&mut text, &SECRET, b"c1", SECOND)?;
    text.extend_from_slice(b">\r\n")?;
    Ok(text)
}

/// The end of a dialog, without its Route line.
const BYE: &[u8] = b"Via: SIP/2.0/UDP 198.51.100.7:5060;branch=z9hG4bKd\r\n\
Max-Forwards: 70\r\n\
From: <sip:eve@elsewhere.example>;tag=1\r\n\
To: <sip:carol@elsewhere.example>;tag=2\r\n\
Call-ID: c1\r\n\
CSeq: 2 BYE\r\n";

/// Whether a request is of a dialog whose Route line begins so, with the token of its Call-ID behind that.
pub fn is_of_dialog_by(alloc: Global, front: &[u8]) -> Option<bool> {
    let Ok(route) = route_by(alloc, front) else {
        return None;
    };
    let domain = domain();
    let start = b"BYE sip:carol@203.0.113.1 SIP/2.0\r\n";
    match request(alloc, start, BYE, &route) {
        None => None,
        Some(message) => Some(is_of_dialog(&SECRET, domain.own, domain.route, SECOND, &message)),
    }
}
