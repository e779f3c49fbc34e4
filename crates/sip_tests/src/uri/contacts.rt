//! Values of Contact: their items, weights and faults.
use crate::bytes::{has, holds_of, is};
use crate::holds::holds;
use sip_uri::{Contact, SipUri, UriFault, are_contact_params, form_of, q_of, read_contacts};
use std::alloc::Global;
use std::process::Abort;

/// A value of two contacts.
const TWO: &[u8] = b"\"Bob, B\" <sip:bob@192.0.2.4>;q=0.5, <tel:+1555>";

/// The host of a URI.
fn host_of(uri: Option<&SipUri<Global>>) -> Option<&[u8]> {
    match uri {
        Some(uri) => Some(uri.host()),
        None => None,
    }
}

/// Ends the test where these are not the contacts of `TWO`.
fn are_two(rt: &impl Abort, contacts: &[Contact<Global>]) {
    holds(rt, contacts.len() == 2, "two contacts");
    if let [bob, other] = contacts {
        holds(
            rt,
            is(&bob.text, b"\"Bob, B\" <sip:bob@192.0.2.4>;q=0.5"),
            "the text of the first contact",
        );
        holds(rt, bob.q == 500, "the q of the first contact");
        let host = host_of(bob.uri.as_ref());
        holds(rt, has(host, b"192.0.2.4"), "the host of the first contact");
        holds(
            rt,
            is(&other.text, b"<tel:+1555>"),
            "the text of the second contact",
        );
        holds(
            rt,
            other.q == 1000,
            "the q of the second contact, which gives none",
        );
        holds(
            rt,
            other.uri.is_none(),
            "the second contact may not be taken",
        );
    }
}

#[test]
fn reads_contacts(rt: HostRuntime) {
    match read_contacts(rt.alloc(), TWO) {
        Ok(contacts) => are_two(&rt, &contacts),
        Err(_) => holds(&rt, false, "the contacts are read"),
    }
}

/// The q of the one contact, and whether it may be taken.
fn one_of(contacts: &[Contact<Global>]) -> Option<(u16, bool)> {
    match contacts {
        [contact] => Some((contact.q, contact.uri.is_some())),
        _ => None,
    }
}

/// The q of the one contact of a value, and whether it may be taken.
fn one_contact(alloc: Global, value: &[u8]) -> Result<Option<(u16, bool)>, UriFault> {
    match read_contacts(alloc, value) {
        Ok(contacts) => Ok(one_of(&contacts)),
        Err(fault) => Err(fault),
    }
}

/// Values of one contact, its q, and whether it may be taken.
const WEIGHTS: [(&[u8], u16, bool); 15] = [
    (b"<sip:1.2.3.4>;q=0", 0, true),
    (b"<sip:1.2.3.4> ; Q = 0.25 ; x", 250, true),
    (b"<sip:1.2.3.4>;q=0.007", 7, true),
    (b"<sip:1.2.3.4>;q=0.", 0, true),
    (b"<sip:1.2.3.4>;q=1.000", 1000, true),
    (b"<sip:1.2.3.4>;q=0.1234", 1000, true),
    (b"<sip:1.2.3.4>;q=.5", 1000, true),
    (b"<sip:1.2.3.4>;q=0.5;q=0.1", 500, true),
    (b"<sip:1.2.3.4>;q;q=0.1", 1000, true),
    (b"<sip:1.2.3.4>;q=0.1;;", 1000, false),
    (b"<sip:1.2.3.4>x;q=0.1", 1000, false),
    (b"sip:1.2.3.4;q=0.5", 500, true),
    (b"sip:1.2.3.4?x;q=0.5", 1000, false),
    (b"<sip:1.2.3.4?x;q=0.5>;q=0.1", 100, true),
    (b"\"<\" <sip:1.2.3.4;x>;y=\";q=1\";q=0.3", 300, true),
];

#[test]
fn reads_weights(rt: HostRuntime) {
    for (value, q, may_be_taken) in WEIGHTS {
        let found = one_contact(rt.alloc(), value);
        let wanted = Ok(Some((q, may_be_taken)));
        holds_of(
            &rt,
            found == wanted,
            "the q, and whether it may be taken",
            value,
        );
    }
}

/// Values with an empty item, or a quote or bracket that is not closed.
const NO_CONTACTS: [&[u8]; 7] = [
    b"",
    b" \t",
    b"<sip:h>,",
    b"<sip:h>,,<sip:i>",
    b"\"Bob <sip:h>",
    b"<sip:h",
    b"\"a\\\"",
];

#[test]
fn refuses_values_without_items(rt: HostRuntime) {
    for value in NO_CONTACTS {
        let found = one_contact(rt.alloc(), value);
        holds_of(&rt, found == Err(UriFault::BadText), "no contacts", value);
    }
}

/// Values of one contact whose address is no URI, and its q.
const NOT_TRIED: [(&[u8], u16); 10] = [
    (b"<sip:a@1.2.3.4 >;q=0.125", 125),
    (b"<>;q=0.5", 500),
    (b"\x80;q=0.5", 500),
    (b"<a, \"b?>;q=0.25", 250),
    (b"\"a\";q=0.75", 750),
    (b"sip:1.2.3.4 b;q=0.5", 1000),
    (b"sip:1.2.3.4\tb;q=0.5", 1000),
    (b"b?;q=0.5", 1000),
    (b"\"a,b\";q=0.5", 1000),
    (b";q=0.5", 1000),
];

#[test]
fn weighs_contacts_without_a_uri(rt: HostRuntime) {
    for (value, q) in NOT_TRIED {
        let found = one_contact(rt.alloc(), value);
        let wanted = Ok(Some((q, false)));
        holds_of(&rt, found == wanted, "the q of what is not taken", value);
    }
}

#[test]
fn has_the_form_of_a_contact(rt: HostRuntime) {
    match form_of(b"Bob <sip:h> ;q=0.5;x") {
        Some((address, params)) => {
            holds(&rt, is(address, b"sip:h"), "the address");
            holds(&rt, has(params, b"q=0.5;x"), "the parameters");
            holds(&rt, are_contact_params(params), "they are some");
            holds(&rt, q_of(params) == 500, "the weight");
        }
        None => holds(&rt, false, "the form of a contact"),
    }
}
