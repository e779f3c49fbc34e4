//! Texts that are no URIs, each with its fault.
use crate::bytes::holds_of;
use sip_uri::{SipUri, UriFault, uri_fault};
use std::alloc::Global;
use std::process::Abort;

/// Texts with one place that keeps them from being a URI, and what that is.
const NEAR_MISSES: [(&[u8], UriFault); 65] = [
    (b"tel:1", UriFault::NotSip),
    (b"", UriFault::NotSip),
    (b"sip", UriFault::NotSip),
    (b"sip;bob@h", UriFault::NotSip),
    (b"sips:bob@h", UriFault::NotSip),
    (b" sip:bob@h", UriFault::NotSip),
    (b"<sip:bob@h>", UriFault::NotSip),
    (b"sp:bob@h", UriFault::NotSip),
    (b"zip:bob@h", UriFault::NotSip),
    (b"si\xf0:bob@h", UriFault::NotSip),
    (b"sip:", UriFault::BadHost),
    (b"sip:a@", UriFault::BadHost),
    (b"sip:@", UriFault::BadHost),
    (b"sip:bob@@h", UriFault::BadHost),
    (b"sip:bob@h@h", UriFault::BadHost),
    (b"sip:bob@:5060", UriFault::BadHost),
    (b"sip:bob@;x", UriFault::BadHost),
    (b"sip:bob@?x", UriFault::BadHost),
    (b"sip:bob@h_1", UriFault::BadHost),
    (b"sip:bob@h/x", UriFault::BadHost),
    (b"sip:bob@[", UriFault::BadHost),
    (b"sip:bob@[]", UriFault::BadHost),
    (b"sip:bob@[::1", UriFault::BadHost),
    (b"sip:bob@[::g]", UriFault::BadHost),
    (b"sip:bob@[::1]x", UriFault::BadHost),
    (b"sip:bob@h[::1]", UriFault::BadHost),
    (b"sip:bob@::1]", UriFault::BadHost),
    (b"sip:a@h:0", UriFault::BadPort),
    (b"sip:a@h:", UriFault::BadPort),
    (b"sip:a@h:;x", UriFault::BadPort),
    (b"sip:a@h:?x", UriFault::BadPort),
    (b"sip:a@h:00000", UriFault::BadPort),
    (b"sip:a@h:65536", UriFault::BadPort),
    (b"sip:a@h:99999", UriFault::BadPort),
    (b"sip:a@h:123456", UriFault::BadPort),
    (b"sip:a@h:000001", UriFault::BadPort),
    (b"sip:a@h:50a0", UriFault::BadPort),
    (b"sip:a@h:-1", UriFault::BadPort),
    (b"sip:a@h:+1", UriFault::BadPort),
    (b"sip:a@h:5060:5060", UriFault::BadPort),
    (b"sip:@h", UriFault::BadText),
    (b"sip:@h:5060", UriFault::BadText),
    (b"sip:bob@h;", UriFault::BadText),
    (b"sip:bob@h;;x", UriFault::BadText),
    (b"sip:bob@h;x;", UriFault::BadText),
    (b"sip:bob@h;=", UriFault::BadText),
    (b"sip:bob@h;x=", UriFault::BadText),
    (b"sip:bob@h;=x", UriFault::BadText),
    (b"sip:bob@h;x=;y", UriFault::BadText),
    (b"sip:bob@h;x;?y", UriFault::BadText),
    (b"sip:bob@h:5060;", UriFault::BadText),
    (b"sip:b b@h", UriFault::BadText),
    (b"sip:bob@h ", UriFault::BadText),
    (b"sip:bob@\th", UriFault::BadText),
    (b"sip:bob@h\r", UriFault::BadText),
    (b"sip:bob@h\x7f", UriFault::BadText),
    (b"sip:bob@h\x80", UriFault::BadText),
    (b"sip:bob@h\x00", UriFault::BadText),
    (b"sip:bob<@h", UriFault::BadText),
    (b"sip:bob@h>", UriFault::BadText),
    (b"sip:\"bob\"@h", UriFault::BadText),
    (b"sip:bob@h?x\"", UriFault::BadText),
    (b"sip:bob@h;x=\"y", UriFault::BadText),
    (b"sip:bob@h;x y", UriFault::BadText),
    (b"sip:bob@h;x\x7f=y", UriFault::BadText),
];

/// Texts with two faults, and which of them counts.
const TWO_FAULTS: [(&[u8], UriFault); 8] = [
    (b"tel:b b", UriFault::NotSip),
    (b"sip:bob@h&1:0", UriFault::BadHost),
    (b"sip:@h_1", UriFault::BadHost),
    (b"sip:@h:0", UriFault::BadPort),
    (b"sip:a@h:0;", UriFault::BadPort),
    (b"sip:bob@h_1?<", UriFault::BadText),
    (b"sip:bob@h:0;x\x80", UriFault::BadText),
    (b"sip:b b@h:0", UriFault::BadText),
];

/// Why a text is no URI; nothing where it is one.
fn fault_of(alloc: Global, text: &[u8]) -> Option<UriFault> {
    match SipUri::read(alloc, text) {
        Ok(_) => None,
        Err(fault) => Some(fault),
    }
}

/// Ends the test where one of these texts does not have its fault.
fn each_has_its_fault(rt: &impl Abort, alloc: Global, what: &str, rows: &[(&[u8], UriFault)]) {
    for (text, fault) in rows {
        holds_of(rt, fault_of(alloc, text) == Some(*fault), what, text);
    }
}

#[test]
fn names_the_fault_of_near_misses(rt: HostRuntime) {
    each_has_its_fault(&rt, rt.alloc(), "the fault", &NEAR_MISSES);
}

#[test]
fn names_the_first_of_two_faults(rt: HostRuntime) {
    each_has_its_fault(&rt, rt.alloc(), "the first fault", &TWO_FAULTS);
}

/// Texts, and why each is no URI.
const FAULTS: [(&[u8], Option<UriFault>); 7] = [
    (b"sip:bob@h;x?y", None),
    (b"tel:1", Some(UriFault::NotSip)),
    (b"sip:", Some(UriFault::BadHost)),
    (b"sip:h:0", Some(UriFault::BadPort)),
    (b"sip:@h", Some(UriFault::BadText)),
    (b"sip:h_1:0;", Some(UriFault::BadHost)),
    (b"sip:h:0 ", Some(UriFault::BadText)),
];

#[test]
fn names_faults_without_memory(rt: HostRuntime) {
    for (text, fault) in FAULTS {
        holds_of(&rt, uri_fault(text) == fault, "the fault", text);
    }
}
