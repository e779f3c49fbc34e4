//! Contacts and URIs as they are cut: the address of a contact and its parameters, the port of a URI and its own.
use crate::holds::holds_of;
use authentication::{ContactParams, UriParams, is_uri_param, param_named, port_of_uri};
use sip_lex::{is_param_named, param_value};
use sip_uri::{are_contact_params, form_of};

/// The address of a contact; how many parameters it has, whether each is one, and what `expires` says.
#[derive(Clone, Copy)]
struct ContactForm(&'static [u8], usize, bool, Option<&'static [u8]>);

const CONTACTS: &[(&[u8], Option<ContactForm>)] = &[
    (
        b"\"Bob\" <sip:bob@192.0.2.4;lr>;q=0.5;Expires = 60",
        Some(ContactForm(b"sip:bob@192.0.2.4;lr", 2, true, Some(b"60"))),
    ),
    (
        b"sip:bob@192.0.2.4;expires=60;expires=70",
        Some(ContactForm(b"sip:bob@192.0.2.4", 2, true, Some(b"60"))),
    ),
    (
        b"<sip:bob@192.0.2.4>",
        Some(ContactForm(b"sip:bob@192.0.2.4", 0, true, None)),
    ),
    (
        b"<sip:bob@192.0.2.4>;q=;x",
        Some(ContactForm(b"sip:bob@192.0.2.4", 2, false, None)),
    ),
    (b"sip:bob@192.0.2.4 x", None),
];

fn has(value: Option<&[u8]>, wanted: Option<&[u8]>) -> bool {
    match (value, wanted) {
        (None, None) => true,
        (Some(value), Some(wanted)) => value == wanted,
        _ => false,
    }
}

/// What the first `expires` of some parameters says, if there is one.
fn expires_of(params: Option<&[u8]>) -> Option<&[u8]> {
    let param = param_named(params, b"expires")?;
    if is_param_named(param, b"EXPIRES") {
        param_value(param)
    } else {
        None
    }
}

/// How many parameters a contact has.
fn count_params(params: Option<&[u8]>) -> usize {
    let mut count = 0usize;
    for _param in ContactParams::of(params) {
        count = count.saturating_add(1);
    }
    count
}

/// Whether the address and the parameters are these.
fn are_parts(address: &[u8], params: Option<&[u8]>, wanted: ContactForm) -> bool {
    address == wanted.0
        && count_params(params) == wanted.1
        && are_contact_params(params) == wanted.2
        && has(expires_of(params), wanted.3)
}

fn is_cut(item: &[u8], wanted: Option<ContactForm>) -> bool {
    match (form_of(item), wanted) {
        (None, None) => true,
        (Some((address, params)), Some(wanted)) => are_parts(address, params, wanted),
        _ => false,
    }
}

#[test]
fn contacts_are_cut(rt: HostRuntime) {
    for (item, wanted) in CONTACTS {
        holds_of(&rt, is_cut(item, *wanted), "a contact", item);
    }
}

/// URIs, their ports, how many parameters they have, and whether the first is `transport`.
const URIS: &[(&[u8], u16, usize, bool)] = &[
    (b"sip:bob@192.0.2.4", 5060, 0, false),
    (
        b"sip:bob@192.0.2.4:5070;Transport=tcp;lr?x=y",
        5070,
        2,
        true,
    ),
    (b"sip:192.0.2.4;lr", 5060, 1, false),
];

/// How many parameters a URI has.
fn count_uri_params(text: &[u8]) -> usize {
    let mut count = 0usize;
    for _param in UriParams::of(text) {
        count = count.saturating_add(1);
    }
    count
}

fn is_first_transport(text: &[u8]) -> bool {
    match UriParams::of(text).next() {
        Some(param) => is_uri_param(param, b"transport"),
        None => false,
    }
}

#[test]
fn uris_are_cut(rt: HostRuntime) {
    for (text, port, params, transport) in URIS {
        let well = port_of_uri(text) == *port
            && count_uri_params(text) == *params
            && is_first_transport(text) == *transport;
        holds_of(&rt, well, "a URI", text);
    }
}
