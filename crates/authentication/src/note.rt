//! What is noted of credentials that are wrong.
ghost use Rattle.std.specs.Prelude.{◌≡◌, ◌++◌, OnOk, map, take};
ghost use Rattle.authentication.specs.Note.{from_text, note_text, shown, shown_byte};

use crate::address::append_address;
use sip_lex::append_decimal;
use sip_uri::Hop;
use std::alloc::{AllocError, Allocator};

/// How many bytes of a name are shown at most.
const MOST_BYTES: usize = 256;

/// A byte where it is visible ASCII, else a dot.
fn shown_byte(byte: u8) -> u8
    ensures { result ≡ shown_byte byte }
{
    if byte > 32 && byte < 127 { byte } else { b'.' }
}

/// A name, cut where it is long.
fn front_of(text: &[u8]) -> &[u8]
    ensures { result.now ≡ take 256 text.now }
{
    if text.len() > MOST_BYTES {
        &text[..MOST_BYTES]
    } else {
        text
    }
}

/// Appends each byte as it is shown.
fn append_bytes<B: Allocator>(out: &mut Vec<u8, B>, text: &[u8]) -> Result<(), AllocError>
    ensures { OnOk result (out.new.items ≡ out.old.items ++ map shown_byte text.now) }
{
    for byte in text {
        out.push(shown_byte(*byte))?;
    }
    Ok(())
}

/// Appends where a request came from.
fn append_from<B: Allocator>(out: &mut Vec<u8, B>, source: Hop) -> Result<(), AllocError>
    ensures { OnOk result (out.new.items ≡ out.old.items ++ from_text source) }
{
    out.extend_from_slice(b" from ")?;
    append_address(out, source.addr)?;
    out.push(b':')?;
    append_decimal(out, u64::from(source.port))
}

/// Appends what is noted where wrong credentials for this name came from there, so that what bars addresses can read it: the name is one
/// word, in which each byte that is no visible ASCII is a dot, of 256 bytes at most.
///
/// # Errors
///
/// Only where the growth of `out` is refused; some of the text may be there then.
pub fn append_note<B: Allocator>(
    out: &mut Vec<u8, B>,
    name: &[u8],
    source: Hop,
) -> Result<(), AllocError>
    ensures { OnOk result (out.new.items ≡ out.old.items ++ note_text name.now source) }
{
    out.extend_from_slice(b"wrong credentials for ")?;
    append_bytes(out, front_of(name))?;
    append_from(out, source)
}
