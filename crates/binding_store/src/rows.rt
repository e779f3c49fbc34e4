//! A binding as a row of the table, and back.
use crate::database::{Database, run};
use crate::fault::StoreFault;
use binding_table::KeptUser;
use bindings::{Binding, ContactParts, MadeBy, UserBindings};
use sip_uri::{Hop, Transport, read_address};
use sqlite::types::ValueRef;
use sqlite::{File, FileStore, Row, Rows};
use std::alloc::{AllocError, Global};
use std::str;

const INSERT: &str =
    "INSERT INTO bindings (user, contact, uri, key, q, address, port, transport, back_port, ends, call_id, cseq, request_key, instance, reg_id)
    VALUES (?1, ?2, ?3, ?4, ?5, ?6 || '.' || ?7 || '.' || ?8 || '.' || ?9, ?10, ?11, ?12, ?13, ?14, ?15, ?16, ?17, ?18)";

/// All bindings; those of a user, who are written together, in their order.
pub(crate) const ALL: &str =
    "SELECT user, contact, uri, key, q, address, port, transport, back_port, ends, call_id, cseq, request_key, instance, reg_id FROM bindings ORDER BY id";

// ---- to a row

/// Bytes as a value: as a text, which a tool shows, where they are one.
pub(crate) fn value_of(bytes: &[u8]) -> ValueRef<'_> {
    match str::from_utf8(bytes) {
        Ok(_) => ValueRef::Text(bytes),
        Err(_) => ValueRef::Blob(bytes),
    }
}

fn value_if_any(bytes: Option<&[u8]>) -> ValueRef<'_> {
    match bytes {
        Some(bytes) => value_of(bytes),
        None => ValueRef::Null,
    }
}

/// How a message gets to a hop, and the port of one that goes back.
fn transport_values(transport: Transport) -> (ValueRef<'static>, ValueRef<'static>) {
    match transport {
        Transport::Udp => (ValueRef::Text(b"udp"), ValueRef::Null),
        Transport::Tcp => (ValueRef::Text(b"tcp"), ValueRef::Null),
        Transport::Back(port) => (ValueRef::Text(b"back"), ValueRef::Int(i64::from(port))),
    }
}

/// Writes the row of a binding. (The database puts the address together, as a text of its own would live shorter than the others.)
pub(crate) fn insert<'x>(
    database: &mut Database,
    user: &'x [u8],
    binding: &'x Binding,
) -> Result<(), StoreFault> {
    let contact = binding.contact();
    let by = binding.made_by();
    let [a, b, c, d] = contact.hop.addr;
    let (transport, back_port) = transport_values(contact.hop.transport);
    let ends = i64::try_from(binding.ends()).unwrap_or(i64::MAX);
    let values = [
        value_of(user),
        value_of(contact.item),
        value_of(contact.uri),
        value_of(contact.key),
        ValueRef::Int(i64::from(contact.q)),
        ValueRef::Int(i64::from(a)),
        ValueRef::Int(i64::from(b)),
        ValueRef::Int(i64::from(c)),
        ValueRef::Int(i64::from(d)),
        ValueRef::Int(i64::from(contact.hop.port)),
        transport,
        back_port,
        ValueRef::Int(ends),
        value_of(by.call_id),
        ValueRef::Int(i64::from(by.cseq)),
        value_of(by.key),
        value_if_any(contact.instance),
        value_if_any(contact.reg_id),
    ];
    run(database, INSERT, &values)
}

// ---- from a row

fn value_at(row: &Row, at: usize) -> Result<ValueRef<'_>, StoreFault> {
    match row.get_ref(at) {
        Ok(value) => Ok(value),
        Err(_) => Err(StoreFault::Row),
    }
}

fn bytes_if_any(row: &Row, at: usize) -> Result<Option<&[u8]>, StoreFault> {
    match value_at(row, at)? {
        ValueRef::Text(bytes) | ValueRef::Blob(bytes) => Ok(Some(bytes)),
        ValueRef::Null => Ok(None),
        _ => Err(StoreFault::Row),
    }
}

pub(crate) fn bytes_at(row: &Row, at: usize) -> Result<&[u8], StoreFault> {
    match bytes_if_any(row, at)? {
        Some(bytes) => Ok(bytes),
        None => Err(StoreFault::Row),
    }
}

fn number_at(row: &Row, at: usize) -> Result<u64, StoreFault> {
    match value_at(row, at)? {
        ValueRef::Int(number) => u64::try_from(number).map_err(|_| StoreFault::Row),
        _ => Err(StoreFault::Row),
    }
}

fn small_at(row: &Row, at: usize) -> Result<u16, StoreFault> {
    let number = number_at(row, at)?;
    u16::try_from(number).map_err(|_| StoreFault::Row)
}

fn transport_in(row: &Row) -> Result<Transport, StoreFault> {
    match bytes_at(row, 7)? {
        b"udp" => Ok(Transport::Udp),
        b"tcp" => Ok(Transport::Tcp),
        b"back" => Ok(Transport::Back(small_at(row, 8)?)),
        _ => Err(StoreFault::Row),
    }
}

fn hop_in(row: &Row) -> Result<Hop, StoreFault> {
    let Some(addr) = read_address(bytes_at(row, 5)?) else {
        return Err(StoreFault::Row);
    };
    Ok(Hop {
        addr,
        port: small_at(row, 6)?,
        transport: transport_in(row)?,
    })
}

fn contact_in(row: &Row) -> Result<ContactParts<'_>, StoreFault> {
    Ok(ContactParts {
        item: bytes_at(row, 1)?,
        uri: bytes_at(row, 2)?,
        key: bytes_at(row, 3)?,
        q: small_at(row, 4)?,
        instance: bytes_if_any(row, 13)?,
        reg_id: bytes_if_any(row, 14)?,
        hop: hop_in(row)?,
    })
}

fn made_by_in(row: &Row) -> Result<MadeBy<'_>, StoreFault> {
    let cseq = number_at(row, 11)?;
    Ok(MadeBy {
        call_id: bytes_at(row, 10)?,
        cseq: u32::try_from(cseq).map_err(|_| StoreFault::Row)?,
        key: bytes_at(row, 12)?,
    })
}

/// Puts the binding of a row behind those of its user, who comes last of all.
fn add_row(alloc: Global, row: &Row, users: &mut Vec<KeptUser>) -> Result<(), StoreFault> {
    let contact = contact_in(row)?;
    let by = made_by_in(row)?;
    let binding = Binding::kept(alloc, &contact, number_at(row, 9)?, &by)?;
    add_binding(alloc, bytes_at(row, 0)?, binding, users)?;
    Ok(())
}

/// Puts a binding behind those of the last user, where it is that user's, and else behind all users.
fn add_binding(
    alloc: Global,
    user: &[u8],
    binding: Binding,
    users: &mut Vec<KeptUser>,
) -> Result<(), AllocError> {
    if let Some(last) = users.last_mut() {
        if last.user.as_slice() == user {
            return last.bindings.push(binding);
        }
    }
    let mut bindings = UserBindings::new(alloc);
    bindings.push(binding)?;
    let user = Vec::from_slice(alloc, user)?;
    Ok(users.push(KeptUser { user, bindings })?)
}

/// Adds the next row, if there is one more, and says whether there was.
fn add_next(
    alloc: Global,
    rows: &mut Rows<'_, FileStore<File>>,
    users: &mut Vec<KeptUser>,
) -> Result<bool, StoreFault> {
    match rows.next() {
        Ok(Some(row)) => {
            add_row(alloc, row, users)?;
            Ok(true)
        }
        Ok(None) => Ok(false),
        Err(error) => Err(StoreFault::from(error)),
    }
}

/// What the users have by all rows, those of one user being together.
pub(crate) fn read_all(
    alloc: Global,
    rows: &mut Rows<'_, FileStore<File>>,
) -> Result<Vec<KeptUser>, StoreFault> {
    let mut users = Vec::new(alloc);
    for _ in 0..u64::MAX {
        let has_more = add_next(alloc, rows, &mut users)?;
        if !has_more {
            return Ok(users);
        }
    }
    Ok(users)
}
