//! The line that says which call it was.
ghost use Rattle.std.specs.Prelude.{◌≡◌, ◌++◌, OnOk, map, take};
ghost use Rattle.call_journal.specs.Head.{asked_text, caller_text, front_text, head_text, shown, shown_byte};

use fork_rank::append;
use sip_lex::append_decimal;
use std::alloc::{AllocError, Allocator};

/// How many bytes of a text of the caller's are shown at most.
const MOST_BYTES: usize = 256;

/// Which call it was, and when it ended.
#[derive(Clone, Copy)]
pub struct CallRecord<'a> {
    /// Seconds since 1970.
    pub time: u64,
    pub number: u64,
    pub method: &'a [u8],
    /// The Request-URI.
    pub uri: &'a [u8],
    /// The value of From.
    pub caller: &'a [u8],
    pub call_id: &'a [u8],
}

/// A byte where it is visible ASCII, else a dot.
fn shown_byte(byte: u8) -> u8
    ensures { result ≡ shown_byte byte }
{
    if byte > 32 && byte < 127 { byte } else { b'.' }
}

/// A text of the caller's, cut where it is long.
fn front_of(text: &[u8]) -> &[u8]
    ensures { result.now ≡ take 256 text.now }
{
    if text.len() > MOST_BYTES {
        &text[..MOST_BYTES]
    } else {
        text
    }
}

/// Appends each byte as it is shown.
fn append_bytes<A: Allocator>(out: &mut Vec<u8, A>, text: &[u8]) -> Result<(), AllocError>
    ensures { OnOk result (out.new.items ≡ out.old.items ++ map shown_byte text.now) }
{
    for byte in text {
        out.push(shown_byte(*byte))?;
    }
    Ok(())
}

/// Appends a text of a sender's, cut where it is longer than 256 bytes: each byte that is no visible ASCII, as a space or the end of a line, is
/// a dot, so that the text is one word.
///
/// # Errors
///
/// Only where the growth of `out` is refused; some of the text may be there then.
pub fn append_shown<A: Allocator>(out: &mut Vec<u8, A>, text: &[u8]) -> Result<(), AllocError>
    ensures { OnOk result (out.new.items ≡ out.old.items ++ shown text.now) }
{
    append_bytes(out, front_of(text))?;
    Ok(())
}

/// Appends when it ended, and its number.
fn append_front<A: Allocator>(out: &mut Vec<u8, A>, head: &CallRecord<'_>) -> Result<(), AllocError>
    ensures { OnOk result (out.new.items ≡ out.old.items ++ front_text head.now) }
{
    append(out, b"call ")?;
    append_decimal(out, head.time)?;
    append(out, b" ")?;
    append_decimal(out, head.number)?;
    append(out, b" ")
}

/// Appends what it asked for.
fn append_asked<A: Allocator>(out: &mut Vec<u8, A>, head: &CallRecord<'_>) -> Result<(), AllocError>
    ensures { OnOk result (out.new.items ≡ out.old.items ++ asked_text head.now) }
{
    append_shown(out, head.method)?;
    append(out, b" ")?;
    append_shown(out, head.uri)
}

/// Appends who called, and the Call-ID.
fn append_caller<A: Allocator>(
    out: &mut Vec<u8, A>,
    head: &CallRecord<'_>,
) -> Result<(), AllocError>
    ensures { OnOk result (out.new.items ≡ out.old.items ++ caller_text head.now) }
{
    append(out, b" from ")?;
    append_shown(out, head.caller)?;
    append(out, b" call-id ")?;
    append_shown(out, head.call_id)
}

/// Appends the line that says which call it was, without its end.
pub(crate) fn append_head<A: Allocator>(
    out: &mut Vec<u8, A>,
    head: &CallRecord<'_>,
) -> Result<(), AllocError>
    ensures { OnOk result (out.new.items ≡ out.old.items ++ head_text head.now) }
{
    append_front(out, head)?;
    append_asked(out, head)?;
    append_caller(out, head)
}
