//! A URI as it stands in a request, its key that is lent, and room that is enough.
use crate::bytes::is;
use crate::holds::holds;
use sip_uri::SipUri;
use std::alloc::Global;

/// A URI with each part.
const WHOLE: &[u8] = b"sip:Bob@H:05062;b;Method=INVITE;a?Subject=x";

/// The URI with each part, read.
fn whole(alloc: Global) -> Option<SipUri<Global>> {
    match SipUri::read(alloc, WHOLE) {
        Ok(uri) => Some(uri),
        Err(_) => None,
    }
}

/// Whether the key that a URI lends is this, and its law may be asked.
fn lends(alloc: Global, key: &[u8]) -> bool {
    match whole(alloc) {
        Some(uri) => {
            uri.is_uri();
            is(uri.key(), key)
        }
        None => false,
    }
}

#[test]
fn lends_the_key(rt: HostRuntime) {
    let found = lends(rt.alloc(), b"Bob@h:5062;a;b");
    holds(&rt, found, "the key that is lent");
}

/// Whether a URI is appended as this text to one with room for just that, which stays as it was.
fn stays_in_its_room(uri: &SipUri<Global>, mut out: Vec<u8>, wanted: &[u8]) -> bool {
    let room = out.capacity();
    uri.request_uri(&mut out).is_ok() && is(&out, wanted) && out.capacity() == room
}

/// Whether a URI is appended as this text, and the room for just that stays as it was.
fn fits(alloc: Global, wanted: &[u8]) -> bool {
    match (whole(alloc), Vec::with_capacity(alloc, wanted.len())) {
        (Some(uri), Ok(out)) => stays_in_its_room(&uri, out, wanted),
        _ => false,
    }
}

#[test]
fn appends_where_there_is_room(rt: HostRuntime) {
    let found = fits(rt.alloc(), b"sip:Bob@H:05062;b;a");
    holds(&rt, found, "what is appended within its room");
}

/// Whether a URI is appended as this text.
fn is_appended(alloc: Global, uri: &SipUri<Global>, wanted: &[u8]) -> bool {
    let mut out = Vec::new(alloc);
    uri.request_uri(&mut out).is_ok() && is(&out, wanted)
}

/// Whether the URI of a target stands in a request as this text, and names the same target there.
fn is_requested_as(alloc: Global, uri: &SipUri<Global>, wanted: &[u8]) -> bool {
    match uri.requested(alloc) {
        Ok(made) => is_appended(alloc, &made, wanted) && made.same_target(uri),
        Err(_) => false,
    }
}

/// Whether the whole one does.
fn stands_in_a_request(alloc: Global, wanted: &[u8]) -> bool {
    match whole(alloc) {
        Some(uri) => is_requested_as(alloc, &uri, wanted),
        None => false,
    }
}

#[test]
fn stands_in_requests_without_method_and_headers(rt: HostRuntime) {
    let found = stands_in_a_request(rt.alloc(), b"sip:Bob@H:05062;b;a");
    holds(&rt, found, "the URI in a request");
}
