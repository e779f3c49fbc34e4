//! The header fields that reading looks at.

ghost use Rattle.std.specs.Prelude.{◌≡◌};
ghost use Rattle.std.specs.Option.{option_copied};
ghost use Rattle.sip_text.specs.Fields.{cseq_in, cseq_of, fits_start, has_method, value_of};
ghost use Rattle.sip_text.specs.Seen.{view_cseq, view_start, views};
ghost use Rattle.sip_text.specs.inner.Seen.{seen_cseq};

use crate::header_lines::HeaderLines;
use crate::name::HeaderValues;
use crate::needed::MandatoryHeader;
use crate::parts::{CSeqLine, StartLine};
use sip_lex::{cut_at_space, is_token, read_number, trim_start};

/// The value of the first header of that name.
pub fn value_of<'a>(which: MandatoryHeader, headers: HeaderLines<'a>) -> Option<&'a [u8]>
    ensures { option_copied result ≡ value_of which (views headers.entry) }
{
    HeaderValues::new(which.name(), headers).next()
}

/// What a CSeq value says.
pub fn cseq_of(value: &[u8]) -> Option<CSeqLine<'_>>
    ensures { seen_cseq result ≡ cseq_of value.now }
{
    let (digits, rest) = cut_at_space(value);
    let method = trim_start(rest?);
    let number = read_number(digits, (1 << 31) - 1)? as u32;
    if !is_token(method) {
        return None;
    }
    Some(CSeqLine { number, method })
}

/// Whether a message that begins so may have that CSeq.
fn has_method(start: StartLine<'_>, cseq: CSeqLine<'_>) -> bool
    ensures { result ≡ has_method (view_start start.entry) (view_cseq cseq.entry) }
{
    match start {
        StartLine::Request { method, .. } => cseq.method == method,
        StartLine::Response { .. } => true,
    }
}

/// Whether the value of the first CSeq line says that of the request's method.
pub fn cseq_fits(start: StartLine<'_>, value: Option<&[u8]>) -> bool
    ensures { result ≡ fits_start (view_start start.entry) (cseq_in (option_copied value.entry)) }
{
    let Some(value) = value else {
        return false;
    };
    match cseq_of(value) {
        None => false,
        Some(cseq) => has_method(start, cseq),
    }
}

/// The name of the field that gives the length of the body.
pub const LENGTH_NAME: &[u8] = b"content-length";

/// What the Content-Length headers say.
#[derive(Clone, Copy, Debug, PartialEq, Eq)]
pub enum BodyLength {
    /// There is none.
    Unsaid,
    /// So many bytes.
    Bytes(usize),
    /// One is no length, or two differ.
    Wrong,
}
