//! Requests of telephones as rows of a table, and what has to be there behind each.
use bindings::{ContactParts, RegisterContact, RegisterRefusal, RegisterRequest, UserBindings};
use sip_uri::Hop;
use std::alloc::Global;

/// A contact: its text, its instance and `reg-id`, where its request came from, and the seconds for which it is to be bound.
#[derive(Clone, Copy)]
pub struct Asks(
    pub &'static [u8],
    pub Option<&'static [u8]>,
    pub Option<&'static [u8]>,
    pub ([u8; 4], u16),
    pub u32,
);

/// The text, port and end of a binding.
pub type There = (&'static [u8], u16, u64);

/// A REGISTER request, its refusal, and each binding that is there behind it.
pub struct Row {
    pub call_id: &'static [u8],
    pub cseq: u32,
    pub branch: &'static [u8],
    pub at: u64,
    pub star: Option<u32>,
    pub contacts: &'static [Asks],
    pub refusal: Option<RegisterRefusal>,
    pub there: &'static [There],
}

fn contact_of(asks: &Asks) -> RegisterContact<'static> {
    let Asks(name, instance, reg_id, from, time) = *asks;
    RegisterContact {
        parts: ContactParts {
            item: name,
            uri: name,
            key: name,
            q: 1000,
            instance,
            reg_id,
            hop: Hop::over_udp(from.0, from.1),
        },
        time,
    }
}

fn contacts_of(alloc: Global, contacts: &[Asks]) -> Option<Vec<RegisterContact<'static>>> {
    let mut made = Vec::new(alloc);
    for asks in contacts {
        if made.push(contact_of(asks)).is_err() {
            return None;
        }
    }
    Some(made)
}

fn request_of<'a>(row: &Row, contacts: &'a [RegisterContact<'a>]) -> RegisterRequest<'a> {
    RegisterRequest {
        call_id: row.call_id,
        cseq: row.cseq,
        key: row.branch,
        at: row.at,
        least: 60,
        star: row.star,
        contacts,
    }
}

/// Whether exactly these are there at a moment.
pub fn shows(bindings: &UserBindings, moment: u64, wanted: &[(&[u8], u16, u64)]) -> bool {
    let mut there = bindings.at(moment);
    for (item, port, ends) in wanted {
        let Some(binding) = there.next() else {
            return false;
        };
        let contact = binding.contact();
        if contact.item != *item || contact.hop.port != *port || binding.ends() != *ends {
            return false;
        }
    }
    there.next().is_none()
}

fn refusal_of(answer: Result<(), RegisterRefusal>) -> Option<RegisterRefusal> {
    match answer {
        Ok(()) => None,
        Err(why) => Some(why),
    }
}

/// Whether a row is answered as it says, and leaves what it says.
fn follows(alloc: Global, bindings: &mut UserBindings, row: &Row) -> bool {
    let Some(contacts) = contacts_of(alloc, row.contacts) else {
        return false;
    };
    let answer = bindings.register(alloc, &request_of(row, &contacts));
    refusal_of(answer) == row.refusal && shows(bindings, row.at, row.there)
}

/// The bindings after the rows of a table, where each row is answered as it says, and leaves what it says.
pub fn played(alloc: Global, rows: &[Row]) -> Option<UserBindings> {
    let mut bindings = UserBindings::new(alloc);
    for row in rows {
        if !follows(alloc, &mut bindings, row) {
            return None;
        }
    }
    Some(bindings)
}

/// Whether each row of a table is answered as it says, and leaves what it says.
pub fn plays(alloc: Global, rows: &[Row]) -> bool {
    played(alloc, rows).is_some()
}
