//! The own address of a proxy where it is said elsewhere than in its configuration.
ghost use Rattle.std.specs.Prelude.{◌≡◌, ◌≤◌, ◌++◌, IfOk, OnOk, drop, false, length, take};
ghost use Rattle.service_files.specs.OwnLine.{begins_line, own_line, still_within, text_at, without_own, without_word};

use proxy_config::append_address;
use sip_lex::{append_decimal, cut_at};
use sip_via::Own;
use std::alloc::{AllocError, Allocator};

/// Whether a byte begins a line that says something, where it stands within one that does not, or at the front of one.
fn begins_line(within: bool, byte: u8) -> bool
    ensures { result ≡ begins_line within byte }
{
    !within && byte != b'\n' && byte != b'#'
}

/// Whether what stands behind such a byte is within a line that says nothing.
fn still_within(within: bool, byte: u8) -> bool
    ensures { result ≡ still_within within byte }
{
    if within { byte != b'\n' } else { byte == b'#' }
}

/// How many bytes of a text stand before its first line that says something.
fn silent_len(text: &[u8]) -> usize
    ensures parts { without_own false text.now ≡ take result text.now ++ without_word (drop result text.now) }
    ensures within { result ≤ length text.now }
{
    let mut within = false;
    for (at, byte) in text.iter().enumerate() {
        if begins_line(within, *byte) {
            return at;
        }
        within = still_within(within, *byte);
    }
    text.len()
}

/// Appends the line of an address.
fn append_own_line<A: Allocator>(out: &mut Vec<u8, A>, own: Own) -> Result<(), AllocError>
    ensures { OnOk result (out.new.items ≡ out.old.items ++ own_line own) }
{
    out.extend_from_slice(b"own ")?;
    append_address(out, own.addr)?;
    out.push(b' ')?;
    append_decimal(out, u64::from(own.port))?;
    out.push(b'\n')?;
    Ok(())
}

/// Appends a text, so that the line of the own address at its front, if there is one, says nothing.
fn append_without_word<A: Allocator>(out: &mut Vec<u8, A>, text: &[u8]) -> Result<(), AllocError>
    ensures { OnOk result (out.new.items ≡ out.old.items ++ without_word text.now) }
{
    let Some((_, behind)) = text.split_first() else {
        return Ok(());
    };
    if cut_at(text, b' ').0 == b"own".as_slice() {
        out.push(b'#')?;
        out.extend_from_slice(behind)
    } else {
        out.extend_from_slice(text)
    }
}

/// The text of a configuration with the line of this address before it, and without its own line of an address, if it has one: that one
/// begins with `#`, so each other line has the number that it had, and one more.
///
/// # Errors
///
/// Only where the allocator refuses.
fn with_own_line<A: Allocator>(alloc: A, own: Own, text: &[u8]) -> Result<Vec<u8, A>, AllocError>
    ensures { IfOk result (λ made. made.items ≡ own_line own ++ without_own false text.now) }
{
    let silent = silent_len(text);
    let mut made = Vec::new(alloc);
    append_own_line(&mut made, own)?;
    made.extend_from_slice(&text[..silent])?;
    append_without_word(&mut made, &text[silent..])?;
    Ok(made)
}

/// The text that a proxy at this address goes by: that of its configuration, but with the line of this address in place of its own, where
/// the address is said elsewhere.
///
/// # Errors
///
/// Only where the allocator refuses.
pub fn text_at<A: Allocator>(
    alloc: A,
    own: Option<Own>,
    text: Vec<u8, A>,
) -> Result<Vec<u8, A>, AllocError>
    ensures { IfOk result (λ made. made.items ≡ text_at own text.items) }
{
    match own {
        None => Ok(text),
        Some(own) => with_own_line(alloc, own, &text),
    }
}
