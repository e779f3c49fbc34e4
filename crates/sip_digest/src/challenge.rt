//! Challenges.
ghost use Rattle.std.specs.Prelude.{◌≡◌, ◌++◌, OnErr, OnOk};
ghost use Rattle.sip_digest.specs.Challenge.{challenge_text, parts_text, stale_text};

use crate::algorithm::Algorithm;
use sip_lex::append_pieces;
use std::alloc::{AllocError, Allocator};

fn stale_text(stale: bool) -> &'static [u8]
    ensures { result.now ≡ stale_text stale }
{
    if stale { b", stale=true" } else { b"" }
}

fn append_parts<'a, B: Allocator>(
    out: &mut Vec<u8, B>,
    realm: &'a [u8],
    nonce: &'a [u8],
    algorithm: &'a [u8],
    stale: &'a [u8],
) -> Result<(), AllocError>
    ensures ok { OnOk result (out.new.items ≡ out.old.items ++ parts_text realm.now nonce.now algorithm.now stale.now) }
    ensures err { OnErr result (out.new.items ≡ out.old.items) }
{
    append_pieces(
        out,
        &[
            b"Digest realm=\"",
            realm,
            b"\", qop=\"auth\", nonce=\"",
            nonce,
            b"\", algorithm=",
            algorithm,
            stale,
        ],
    )
}

/// Appends the value of a WWW-Authenticate or Proxy-Authenticate line that challenges by an algorithm (RFC 3261 sections 20.27
/// and 20.44): with `stale=true` where credentials came whose nonce is not good, so that the client tries again with the
/// password that it has.
///
/// The realm and the nonce have to have neither `"` nor `\`.
///
/// # Errors
///
/// Only where the growth of `out` is refused; `out` is then unchanged.
pub fn append_challenge<B: Allocator>(
    out: &mut Vec<u8, B>,
    realm: &[u8],
    nonce: &[u8],
    algorithm: Algorithm,
    stale: bool,
) -> Result<(), AllocError>
    ensures ok { OnOk result (out.new.items ≡ out.old.items ++ challenge_text realm.now nonce.now algorithm stale) }
    ensures err { OnErr result (out.new.items ≡ out.old.items) }
{
    append_parts(out, realm, nonce, algorithm.name(), stale_text(stale))
}
