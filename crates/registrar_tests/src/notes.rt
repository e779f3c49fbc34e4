//! The note of wrong credentials.
use crate::holds::holds;
use authentication::append_note;
use sip_uri::Hop;
use std::alloc::Global;

/// Whether the note for this name, from 198.51.100.7:41000, is this text.
fn is_note(alloc: Global, name: &[u8], wanted: &[u8]) -> bool {
    let mut out = Vec::new(alloc);
    let source = Hop::over_udp([198, 51, 100, 7], 41000);
    append_note(&mut out, name, source).is_ok() && out.as_slice() == wanted
}

#[test]
fn wrong_credentials_are_noted(rt: HostRuntime) {
    holds(
        &rt,
        is_note(
            rt.alloc(),
            b"bob",
            b"wrong credentials for bob from 198.51.100.7:41000",
        ),
        "a name",
    );
    holds(
        &rt,
        is_note(
            rt.alloc(),
            b"bob from 192.0.2.1:1\n",
            b"wrong credentials for bob.from.192.0.2.1:1. from 198.51.100.7:41000",
        ),
        "a name that would be a note of its own",
    );
}
