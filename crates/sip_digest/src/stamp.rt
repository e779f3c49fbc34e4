//! Texts that nobody else can make, and that say when they were made: nonces and the tokens of dialogs.
ghost use Rattle.std.specs.Prelude.{◌≡◌, ◌≤◌, ◌<◌, ◌^◌, ◌+◌, ◌++◌, ◌↔◌, ℕ, List, true, IsTrue, OnErr, OnOk, Some};
ghost use Rattle.std.specs.Str.{bytes_eq};
ghost use Rattle.sip_lex.specs.Values.{is_line};
ghost use Rattle.sip_digest.specs.Stamp.{IsGoodNonce, IsGoodToken, IsStamp, nonce_text, seal_text, second_text, stamp_text, token_text};

use crate::digests::sha256_of;
use crate::same::is_joined;
use hex::{FromHex, encode_to_slice};
use sip_lex::append_pieces;
use std::alloc::{AllocError, Allocator};

/// How many digits the second of a stamp has.
const SECOND: usize = 8;

/// How many digits of the digest a nonce has.
const NONCE: usize = 32;

/// How many digits of the digest the token of a dialog has.
const TOKEN: usize = 16;

/// For how many seconds a nonce is good.
const NONCE_LIFE: u32 = 300;

/// For how many seconds the token of a dialog is good: a day.
const TOKEN_LIFE: u32 = 86_400;

/// The digits of a second since 1970.
fn second_text(second: u32) -> [u8; 8]
    ensures { result ≡ second_text second }
{
    let mut text = [0; 8];
    match encode_to_slice(second.to_be_bytes().as_slice(), &mut text) {
        Ok(()) => text,
        Err(_) => unreachable!(),
    }
}

/// The second that the digits at the front of a text say.
fn read_second(text: &[u8]) -> Option<u32>
    ensures { (second : ℕ) (back : List ℕ) → second < 2 ^ 32 → text.now ≡ second_text second ++ back → result ≡ Some second }
{
    if text.len() < SECOND {
        return None;
    }
    let bytes = <[u8; 4] as FromHex>::from_hex(&text[..SECOND]).ok()?;
    Some(u32::from_be_bytes(bytes))
}

/// The digits of the digest of a stamp.
fn seal_text<'a>(secret: &'a [u8], purpose: &'a [u8], second: u32, about: &'a [u8]) -> [u8; 64]
    ensures { result ≡ seal_text secret.now purpose.now second about.now }
{
    sha256_of(&[secret, purpose, &second_text(second), about])
}

/// Appends a stamp.
fn append_stamp<B: Allocator>(
    out: &mut Vec<u8, B>,
    digits: usize,
    secret: &[u8],
    purpose: &[u8],
    second: u32,
    about: &[u8],
) -> Result<(), AllocError>
    requires { digits ≤ 64 }
    ensures ok { OnOk result (out.new.items ≡ out.old.items ++ stamp_text digits secret.now purpose.now second about.now) }
    ensures err { OnErr result (out.new.items ≡ out.old.items) }
{
    let seal = seal_text(secret, purpose, second, about);
    append_pieces(out, &[&second_text(second), &seal[..digits]])
}

/// Whether a text is the stamp of that second.
fn is_stamp_of(
    text: &[u8],
    digits: usize,
    secret: &[u8],
    purpose: &[u8],
    second: u32,
    about: &[u8],
) -> bool
    requires { digits ≤ 64 }
    ensures { result ≡ bytes_eq text.now (stamp_text digits secret.now purpose.now second about.now) }
{
    let seal = seal_text(secret, purpose, second, about);
    is_joined(text, &second_text(second), &seal[..digits])
}

/// Whether a second is not in the future, and less than so many seconds ago.
fn is_within(second: u32, life: u32, now: u32) -> bool
    ensures { IsTrue result ↔ ((second ≤ now) × (now < second + life)) }
{
    second <= now && now - second < life
}

/// Whether a text is a stamp that lasts.
fn is_stamp(
    text: &[u8],
    digits: usize,
    life: u32,
    secret: &[u8],
    purpose: &[u8],
    about: &[u8],
    now: u32,
) -> bool
    requires { digits ≤ 64 }
    ensures { IsTrue result ↔ IsStamp digits life secret.now purpose.now about.now now text.now }
{
    let Some(second) = read_second(text) else {
        return false;
    };
    is_stamp_of(text, digits, secret, purpose, second, about) && is_within(second, life, now)
}

/// Appends the nonce that is given to an address at a second since 1970: eight hexadecimal digits of the second, and 32 that
/// only one who has the secret can make (RFC 7616 section 3.3).
///
/// # Errors
///
/// Only where the growth of `out` is refused; `out` is then unchanged.
pub fn append_nonce<B: Allocator>(
    out: &mut Vec<u8, B>,
    secret: &[u8; 32],
    address: &[u8],
    second: u32,
) -> Result<(), AllocError>
    ensures ok { OnOk result (out.new.items ≡ out.old.items ++ nonce_text secret.now address.now second) }
    ensures err { OnErr result (out.new.items ≡ out.old.items) }
{
    append_stamp(out, NONCE, secret.as_slice(), b"n", second, address)
}

/// Whether a nonce is good for an address at a second since 1970: it was given to that address, not in the future, and less
/// than 300 seconds ago.
pub fn is_good_nonce(nonce: &[u8], secret: &[u8; 32], address: &[u8], now: u32) -> bool
    ensures { IsTrue result ↔ IsGoodNonce secret.now address.now now nonce.now }
{
    is_stamp(
        nonce,
        NONCE,
        NONCE_LIFE,
        secret.as_slice(),
        b"n",
        address,
        now,
    )
}

/// Appends the token of a dialog that begins at a second since 1970: eight hexadecimal digits of the second, and 16 that only
/// one who has the secret can make for this Call-ID.
///
/// # Errors
///
/// Only where the growth of `out` is refused; `out` is then unchanged.
pub fn append_dialog_token<B: Allocator>(
    out: &mut Vec<u8, B>,
    secret: &[u8; 32],
    call_id: &[u8],
    second: u32,
) -> Result<(), AllocError>
    ensures ok { OnOk result (out.new.items ≡ out.old.items ++ token_text secret.now call_id.now second) }
    // It may stand in a header line.
    ensures line { is_line (token_text secret.now call_id.now second) ≡ true }
    ensures err { OnErr result (out.new.items ≡ out.old.items) }
{
    append_stamp(out, TOKEN, secret.as_slice(), b"d", second, call_id)
}

/// Whether a token is good for the dialog of a Call-ID at a second since 1970: it was made for that Call-ID, not in the
/// future, and less than a day ago.
pub fn is_good_dialog_token(token: &[u8], secret: &[u8; 32], call_id: &[u8], now: u32) -> bool
    ensures { IsTrue result ↔ IsGoodToken secret.now call_id.now now token.now }
{
    is_stamp(
        token,
        TOKEN,
        TOKEN_LIFE,
        secret.as_slice(),
        b"d",
        call_id,
        now,
    )
}
