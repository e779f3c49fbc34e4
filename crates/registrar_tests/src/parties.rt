//! Whom the To and the From of a request name.
use crate::holds::holds_of;
use crate::world::domain;
use authentication::{Domain, is_anonymous, is_of_domain, party_uri};
use sip_uri::SipUri;
use std::alloc::Global;

/// The user of a URI; whether it is of the domain, and of the domain where the port counts; whether it is that of one who does not say
/// who he is.
#[derive(Clone, Copy)]
struct Party(&'static [u8], bool, bool, bool);

/// Values of To and From, and whom they name; nobody where they have no address, or where it is no SIP URI.
const VALUES: &[(&[u8], Option<Party>)] = &[
    (
        b"<sip:bob@example.com>;tag=1",
        Some(Party(b"bob", true, true, false)),
    ),
    (
        b"\"Bob\" <sip:bob@EXAMPLE.com:5070>",
        Some(Party(b"bob", true, true, false)),
    ),
    (
        b"sip:carol@192.0.2.9;tag=3",
        Some(Party(b"carol", true, true, false)),
    ),
    (
        b"<sip:carol@192.0.2.9:5070>",
        Some(Party(b"carol", true, false, false)),
    ),
    (
        b"sip:eve@elsewhere.example",
        Some(Party(b"eve", false, false, false)),
    ),
    (
        b"\"A\" <sip:anonymous@Anonymous.Invalid>;tag=2",
        Some(Party(b"anonymous", false, false, true)),
    ),
    (b"<tel:+15550100>", None),
    (b"Bob sip:bob@example.com", None),
];

/// The domain, where a URI with the own address counts only with the own port.
fn domain_by_port() -> Domain<'static> {
    Domain {
        by_port: true,
        ..domain()
    }
}

/// Whether a URI is what it is to be.
fn is_uri(uri: &SipUri<Global>, wanted: Party) -> bool {
    uri.user() == Some(wanted.0)
        && is_of_domain(&domain(), uri) == wanted.1
        && is_of_domain(&domain_by_port(), uri) == wanted.2
        && is_anonymous(uri) == wanted.3
}

/// Whether a value names whom it is to name.
fn names(alloc: Global, value: &[u8], wanted: Option<Party>) -> bool {
    match (party_uri(alloc, value), wanted) {
        (Ok(None), None) => true,
        (Ok(Some(uri)), Some(wanted)) => is_uri(&uri, wanted),
        _ => false,
    }
}

#[test]
fn to_and_from_name_parties(rt: HostRuntime) {
    for (value, wanted) in VALUES {
        holds_of(&rt, names(rt.alloc(), value, *wanted), "a party", value);
    }
}
