//! Requests of telephones, and tables that are given them.
use binding_table::{BindingTable, ChangeFault, PreparedChange};
use bindings::{
    Binding, ContactParts, MadeBy, RegisterContact, RegisterRefusal, RegisterRequest, UserBindings,
};
use sip_uri::Hop;
use std::alloc::{AllocError, Allocator, Global};
use std::sync::Wait;

/// The bindings of all users.
pub type Table = BindingTable<UserBindings>;

/// A request of one contact: its Call-ID, its CSeq number, the moment at which it came, the contact's text, and the seconds for which it
/// is to be bound.
#[derive(Clone, Copy)]
pub struct Asks(
    pub &'static [u8],
    pub u32,
    pub u64,
    pub &'static [u8],
    pub u32,
);

fn parts_of(name: &'static [u8]) -> ContactParts<'static> {
    ContactParts {
        item: name,
        uri: name,
        key: name,
        q: 1000,
        instance: None,
        reg_id: None,
        hop: Hop::over_udp([192, 0, 2, 7], 5060),
    }
}

/// What a request makes of these bindings.
pub fn prepared<A: Allocator + Clone>(
    alloc: A,
    asks: Asks,
    held: &UserBindings<A>,
) -> Result<Option<UserBindings<A>>, RegisterRefusal> {
    let Asks(call_id, cseq, at, name, time) = asks;
    let contacts = [RegisterContact {
        parts: parts_of(name),
        time,
    }];
    let request = RegisterRequest {
        call_id,
        cseq,
        key: call_id,
        at,
        least: 60,
        star: None,
        contacts: &contacts,
    };
    held.prepared(alloc, &request)
}

/// What a request makes of the bindings of a user, and why nothing where it makes nothing of them.
pub fn answer_of<A: Allocator + Clone>(
    alloc: A,
    asks: Asks,
    held: &UserBindings<A>,
) -> (Option<UserBindings<A>>, Option<RegisterRefusal>) {
    match prepared(alloc, asks, held) {
        Ok(made) => (made, None),
        Err(why) => (None, Some(why)),
    }
}

/// A change that a request asks for, where it asks for one.
pub fn begun<R: Wait>(
    rt: &R,
    alloc: Global,
    table: &Table,
    user: &[u8],
    asks: Asks,
) -> Result<Option<PreparedChange<UserBindings>>, ChangeFault> {
    let made = table.prepare(rt, user, |held: &UserBindings| answer_of(alloc, asks, held));
    match made {
        Ok((change, _)) => Ok(change),
        Err(why) => Err(why),
    }
}

/// Why a change is not prepared; None where it is, and then it is given up.
pub fn refused<R: Wait>(
    rt: &R,
    alloc: Global,
    table: &Table,
    user: &[u8],
    asks: Asks,
) -> Option<ChangeFault> {
    match begun(rt, alloc, table, user, asks) {
        Ok(None) => None,
        Ok(Some(change)) => {
            table.give_up(rt, change);
            None
        }
        Err(why) => Some(why),
    }
}

/// Makes what a request asks for, and says whether it was taken.
pub fn registers<R: Wait>(rt: &R, alloc: Global, table: &Table, user: &[u8], asks: Asks) -> bool {
    let made = table.change(rt, user, |held: &UserBindings| answer_of(alloc, asks, held));
    match made {
        Ok(None) => true,
        Ok(Some(_)) => false,
        Err(_) => false,
    }
}

/// How many bindings of a user are there at a moment.
pub fn count_there<R: Wait>(rt: &R, table: &Table, user: &[u8], moment: u64) -> usize {
    match table.there(rt, user, moment) {
        Ok(copies) => copies.len(),
        Err(AllocError) => usize::MAX,
    }
}

/// The bindings of a user as they were kept elsewhere: the contact and the end of each.
pub fn kept<A: Allocator + Copy>(
    alloc: A,
    all: &[(&'static [u8], u64)],
) -> Result<UserBindings<A>, AllocError> {
    let by = MadeBy {
        call_id: b"kept",
        cseq: 3,
        key: b"z9hG4bKkept",
    };
    let mut bindings = UserBindings::new(alloc);
    for (name, ends) in all {
        bindings.push(Binding::kept(alloc, &parts_of(*name), *ends, &by)?)?;
    }
    Ok(bindings)
}
