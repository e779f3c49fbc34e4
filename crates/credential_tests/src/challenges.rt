//! Challenges, to the byte.
use crate::holds::{holds_of, is};
use sip_digest::{Algorithm, append_challenge};
use std::alloc::Global;

/// Whether this is the challenge of the realm `example.com` with the nonce `n`.
fn is_challenge(alloc: Global, algorithm: Algorithm, stale: bool, wanted: &[u8]) -> bool {
    let mut out = Vec::new(alloc);
    let made = append_challenge(&mut out, b"example.com", b"n", algorithm, stale);
    made.is_ok() && is(out.as_slice(), wanted)
}

/// Challenges by an algorithm, stale or not.
const CHALLENGES: [(Algorithm, bool, &[u8]); 4] = [
    (
        Algorithm::Sha256,
        false,
        b"Digest realm=\"example.com\", qop=\"auth\", nonce=\"n\", algorithm=SHA-256",
    ),
    (
        Algorithm::Md5,
        false,
        b"Digest realm=\"example.com\", qop=\"auth\", nonce=\"n\", algorithm=MD5",
    ),
    (
        Algorithm::Sha256,
        true,
        b"Digest realm=\"example.com\", qop=\"auth\", nonce=\"n\", algorithm=SHA-256, stale=true",
    ),
    (
        Algorithm::Md5,
        true,
        b"Digest realm=\"example.com\", qop=\"auth\", nonce=\"n\", algorithm=MD5, stale=true",
    ),
];

#[test]
fn challenges_are_written(rt: HostRuntime) {
    for (algorithm, stale, wanted) in CHALLENGES {
        let well = is_challenge(rt.alloc(), algorithm, stale, wanted);
        holds_of(&rt, well, "the challenge", wanted);
    }
}
