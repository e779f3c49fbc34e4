//! Histories of REGISTER requests of bob as tables, and what plays them.
use crate::answers::{Wanted, is_answer, is_name};
use crate::passwords::{Password, line_if_any};
use crate::requests::request;
use crate::world::{EXPIRATIONS, SECOND, domain, realm, users};
use authentication::{OwnAnswer, RealmSecrets};
use bindings::UserBindings;
use registrar::{Asking, RegisterOutcome, Registrar, Registration, Source, asking_of, okay};
use sip_text::Message;
use sip_uri::Hop;
use std::alloc::Global;

/// A REGISTER request, and what it is answered.
#[derive(Clone, Copy)]
pub struct Row {
    /// Where it comes from.
    pub from: ([u8; 4], u16),
    pub inside: bool,
    /// The millisecond at which it comes.
    pub at: u64,
    /// Its lines but Authorization, each with its end.
    pub lines: &'static [u8],
    pub password: Option<Password>,
    pub status: u16,
    pub wanted: Wanted,
    /// For whom it is noted that wrong credentials came.
    pub noted: Option<&'static [u8]>,
    /// So many bindings the other users have.
    pub others: u32,
    /// Which ports the bindings have that are there then.
    pub ports: &'static [u16],
}

/// The date of each answer, which is made at `SECOND`.
pub const DATE: &[u8] = b"Sat, 29 Nov 2025 07:06:40 GMT";

/// As many bindings there may be in all.
const MOST: u32 = 1_000_000;

fn source_of(row: &Row) -> Source {
    Source {
        hop: Hop::over_udp(row.from.0, row.from.1),
        inside: row.inside,
        second: SECOND,
        millisecond: row.at,
    }
}

fn message_of(alloc: Global, row: &Row) -> Option<Message<Global>> {
    let further = line_if_any(alloc, b"Authorization", row.password, b"REGISTER")?;
    request(
        alloc,
        b"REGISTER sip:example.com SIP/2.0\r\n",
        row.lines,
        &further,
    )
}

fn is_wanted(alloc: Global, answer: &OwnAnswer, row: &Row) -> bool {
    is_answer(alloc, answer, row.status, row.wanted, row.from.0)
}

/// Whether the bindings that are there have these ports.
fn has_ports(bindings: &UserBindings, row: &Row) -> bool {
    let mut there = bindings.at(row.at);
    for port in row.ports {
        match there.next() {
            None => return false,
            Some(binding) => {
                if binding.contact().hop.port != *port {
                    return false;
                }
            }
        }
    }
    there.next().is_none()
}

/// The 200, where that is what is wanted.
fn is_taken(alloc: Global, bindings: &UserBindings, row: &Row) -> bool {
    match okay(alloc, row.at, SECOND, bindings) {
        Ok(answer) => is_wanted(alloc, &answer, row) && row.noted.is_none(),
        Err(_) => false,
    }
}

/// The bindings after a request that asks for something; nothing where it is not answered as it has to be.
fn after(
    alloc: Global,
    asked: &Registration<'_>,
    bindings: UserBindings,
    row: &Row,
) -> Option<UserBindings> {
    let Ok(outcome) = asked.outcome_of(alloc, row.others, MOST, &bindings) else {
        return None;
    };
    if asked.user() != b"bob".as_slice() {
        return None;
    }
    match outcome {
        RegisterOutcome::Repeated => is_taken(alloc, &bindings, row).then_some(bindings),
        RegisterOutcome::Refused(answer) => is_wanted(alloc, &answer, row).then_some(bindings),
        RegisterOutcome::Changes(changed) => is_taken(alloc, &changed, row).then_some(changed),
    }
}

/// The bindings after a row; nothing where it is not answered as it has to be.
fn followed(
    alloc: Global,
    registrar: &Registrar<'_>,
    bindings: UserBindings,
    row: &Row,
) -> Option<UserBindings> {
    let message = message_of(alloc, row)?;
    let Ok(asked) = asking_of(alloc, registrar, source_of(row), &message) else {
        return None;
    };
    match asked {
        Asking::Turned(answer, noted) => {
            let well = is_wanted(alloc, &answer, row) && is_name(&noted, row.noted);
            well.then_some(bindings)
        }
        Asking::Registers(asked) => after(alloc, &asked, bindings, row),
    }
}

fn all_followed(alloc: Global, registrar: &Registrar<'_>, rows: &[Row]) -> bool {
    let mut bindings = UserBindings::new(alloc);
    for row in rows {
        match followed(alloc, registrar, bindings, row) {
            None => return false,
            Some(changed) => bindings = changed,
        }
        if !has_ports(&bindings, row) {
            return false;
        }
    }
    true
}

fn plays_in(alloc: Global, realm: Option<&RealmSecrets<'_>>, rows: &[Row]) -> bool {
    let registrar = Registrar {
        domain: domain(),
        realm,
        expirations: EXPIRATIONS,
    };
    all_followed(alloc, &registrar, rows)
}

/// Whether each row of a table is answered as it has to be, and leaves what it has to leave.
pub fn plays(alloc: Global, has_realm: bool, rows: &[Row]) -> bool {
    let Some(users) = users(alloc) else {
        return false;
    };
    let Some(realm) = realm(&users) else {
        return false;
    };
    if has_realm {
        plays_in(alloc, Some(&realm), rows)
    } else {
        plays_in(alloc, None, rows)
    }
}
