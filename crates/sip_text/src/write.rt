//! Writing a message, whole or part by part.

ghost use Rattle.std.specs.Prelude.{◌≡◌, ◌+◌, ◌++◌, ◌≤◌, ◌<◌, ℕ, length, IsOk, OnOk, OnErr, take, true, vec_len, vec_capacity};
ghost use Rattle.std.specs.List.{flat_map};
ghost use Rattle.sip_lex.specs.Line.{ended};
ghost use Rattle.sip_text.specs.Message.{is_start};
ghost use Rattle.sip_text.specs.Text.{Request, Response, header_text, spelling, start_line, status_text};
ghost use Rattle.sip_lex.specs.Texts.{saturated};
ghost use Rattle.sip_text.specs.Seen.{view_start, views};

use crate::header_lines::HeaderLines;
use crate::parts::StartLine;
use sip_lex::{append_pieces, pieces_len, whole_or_nothing};
use std::alloc::{AllocError, Allocator};

/// Appends a request line with its end, or nothing (RFC 3261 section 7.1).
///
/// # Errors
///
/// Only where the growth of `out` is refused; `out` is then unchanged.
pub fn append_request_line<B: Allocator>(
    out: &mut Vec<u8, B>,
    method: &[u8],
    uri: &[u8],
) -> Result<(), AllocError>
    ensures ok { OnOk result
        (out.new.items ≡ out.old.items ++ ended (start_line (Request method.now uri.now))) }
    ensures err { OnErr result (out.new.items ≡ out.old.items) }
    ensures room { vec_len out.old + length (ended (start_line (Request method.now uri.now))) ≤ vec_capacity out.old
        → IsOk result }
    ensures full { OnErr result
        (vec_capacity out.old < vec_len out.old + length (ended (start_line (Request method.now uri.now)))) }
    ensures capacity { vec_capacity out.old ≤ vec_capacity out.new }
{
    append_pieces(out, &[method, b" ", uri, b" SIP/2.0\r\n"])
}

/// The digits of a status.
fn digits_of(status: u16) -> [u8; 3]
    requires { status < 1000 }
    ensures { result ≡ status_text status }
{
    [
        b'0' + (status / 100) as u8,
        b'0' + (status / 10 % 10) as u8,
        b'0' + (status % 10) as u8,
    ]
}

/// Appends a status line with its end, or nothing (RFC 3261 section 7.2).
///
/// # Errors
///
/// Only where the growth of `out` is refused; `out` is then unchanged.
pub fn append_status_line<B: Allocator>(
    out: &mut Vec<u8, B>,
    status: u16,
    reason: &[u8],
) -> Result<(), AllocError>
    requires { status < 1000 }
    ensures ok { OnOk result
        (out.new.items ≡ out.old.items ++ ended (start_line (Response status reason.now))) }
    ensures err { OnErr result (out.new.items ≡ out.old.items) }
    ensures room { vec_len out.old + length (ended (start_line (Response status reason.now))) ≤ vec_capacity out.old
        → IsOk result }
    ensures full { OnErr result
        (vec_capacity out.old < vec_len out.old + length (ended (start_line (Response status reason.now)))) }
    ensures capacity { vec_capacity out.old ≤ vec_capacity out.new }
{
    let digits = digits_of(status);
    append_pieces(out, &[b"SIP/2.0 ", &digits, b" ", reason, b"\r\n"])
}

/// Appends a header line with its end, or nothing (RFC 3261 section 7.3).
///
/// # Errors
///
/// Only where the growth of `out` is refused; `out` is then unchanged.
fn append_header<B: Allocator>(
    out: &mut Vec<u8, B>,
    name: &[u8],
    value: &[u8],
) -> Result<(), AllocError>
    ensures ok { OnOk result
        (out.new.items ≡ out.old.items ++ header_text (record { name = name.now; value = value.now })) }
    ensures err { OnErr result (out.new.items ≡ out.old.items) }
    ensures room { vec_len out.old + length (header_text (record { name = name.now; value = value.now })) ≤ vec_capacity out.old
        → IsOk result }
    ensures full { OnErr result
        (vec_capacity out.old < vec_len out.old + length (header_text (record { name = name.now; value = value.now }))) }
    ensures capacity { vec_capacity out.old ≤ vec_capacity out.new }
{
    append_pieces(out, &[name, b": ", value, b"\r\n"])
}

fn append_start<B: Allocator>(out: &mut Vec<u8, B>, start: StartLine<'_>) -> Result<(), AllocError>
    requires { is_start (view_start start) ≡ true }
    ensures ok { OnOk result
        (out.new.items ≡ out.old.items ++ ended (start_line (view_start start.entry))) }
    ensures err { OnErr result (out.new.items ≡ out.old.items) }
    ensures full { OnErr result
        (vec_capacity out.old < vec_len out.old + length (ended (start_line (view_start start.entry)))) }
    ensures capacity { vec_capacity out.old ≤ vec_capacity out.new }
{
    match start {
        StartLine::Request { method, uri } => append_request_line(out, method, uri),
        StartLine::Response { status, reason } => append_status_line(out, status, reason),
    }
}

fn append_lines<B: Allocator>(
    out: &mut Vec<u8, B>,
    headers: HeaderLines<'_>,
) -> Result<(), AllocError>
    ensures ok { OnOk result
        (out.new.items ≡ out.old.items ++ flat_map header_text (views headers.entry)) }
    ensures begins { take (vec_len out.old) out.new.items ≡ out.old.items }
    ensures full { OnErr result
        (vec_capacity out.old < vec_len out.old + length (flat_map header_text (views headers.entry))) }
    ensures capacity { vec_capacity out.old ≤ vec_capacity out.new }
{
    for header in headers {
        append_header(out, header.name, header.value)?;
    }
    Ok(())
}

/// Appends header lines with their ends in order, or nothing.
///
/// # Errors
///
/// Only where the growth of `out` is refused; `out` is then unchanged.
fn append_headers<B: Allocator>(
    out: &mut Vec<u8, B>,
    headers: HeaderLines<'_>,
) -> Result<(), AllocError>
    ensures ok { OnOk result
        (out.new.items ≡ out.old.items ++ flat_map header_text (views headers.entry)) }
    ensures err { OnErr result (out.new.items ≡ out.old.items) }
    ensures room { vec_len out.old + length (flat_map header_text (views headers.entry)) ≤ vec_capacity out.old
        → IsOk result }
    ensures full { OnErr result
        (vec_capacity out.old < vec_len out.old + length (flat_map header_text (views headers.entry))) }
    ensures capacity { vec_capacity out.old ≤ vec_capacity out.new }
{
    out.reserve(headers_len(headers))?;
    let before = out.len();
    let done = append_lines(out, headers);
    whole_or_nothing(out, before, done)
}

fn append_parts<B: Allocator>(
    out: &mut Vec<u8, B>,
    start: StartLine<'_>,
    headers: HeaderLines<'_>,
    body: &[u8],
) -> Result<(), AllocError>
    requires { is_start (view_start start) ≡ true }
    ensures ok { OnOk result
        (out.new.items
        ≡ out.old.items
        ++ spelling (record { start = view_start start.entry; headers = views headers.entry; body = body.now })) }
    ensures begins { take (vec_len out.old) out.new.items ≡ out.old.items }
    ensures full { OnErr result
        (vec_capacity out.old
        < vec_len out.old
        + length (spelling (record { start = view_start start.entry; headers = views headers.entry; body = body.now }))) }
{
    append_start(out, start)?;
    append_headers(out, headers)?;
    append_pieces(out, &[b"\r\n", body])
}

/// Appends a message of these parts, or nothing; `out` grows once at most.
pub fn append_message<B: Allocator>(
    out: &mut Vec<u8, B>,
    start: StartLine<'_>,
    headers: HeaderLines<'_>,
    body: &[u8],
) -> Result<(), AllocError>
    requires { is_start (view_start start) ≡ true }
    ensures ok { OnOk result
        (out.new.items
        ≡ out.old.items
        ++ spelling (record { start = view_start start.entry; headers = views headers.entry; body = body.now })) }
    ensures err { OnErr result (out.new.items ≡ out.old.items) }
    ensures full { OnErr result
        (vec_capacity out.old
        < vec_len out.old
        + length (spelling (record { start = view_start start.entry; headers = views headers.entry; body = body.now }))) }
{
    out.reserve(message_len(start, headers, body))?;
    let before = out.len();
    let done = append_parts(out, start, headers, body);
    whole_or_nothing(out, before, done)
}

/// How many bytes a request line is with its end.
pub fn request_line_len(method: &[u8], uri: &[u8]) -> usize
    ensures { result ≡ saturated (length (ended (start_line (Request method.now uri.now)))) }
{
    pieces_len(&[method, b" ", uri, b" SIP/2.0\r\n"])
}

/// How many bytes a status line with this reason is with its end.
pub fn status_line_len(reason: &[u8]) -> usize
    ensures { (status : ℕ) → result ≡ saturated (length (ended (start_line (Response status reason.now)))) }
{
    pieces_len(&[b"SIP/2.0 200 ", reason, b"\r\n"])
}

/// How many bytes a header line is with its end.
fn header_len(name: &[u8], value: &[u8]) -> usize
    ensures { result ≡ saturated (length (header_text (record { name = name.now; value = value.now }))) }
{
    pieces_len(&[name, b": ", value, b"\r\n"])
}

/// How many bytes header lines are with their ends.
fn headers_len(headers: HeaderLines<'_>) -> usize
    ensures { result ≡ saturated (length (flat_map header_text (views headers.entry))) }
{
    let mut len = 0usize;
    for header in headers {
        len = len.saturating_add(header_len(header.name, header.value));
    }
    len
}

fn start_len(start: StartLine<'_>) -> usize
    ensures { result ≡ saturated (length (ended (start_line (view_start start.entry)))) }
{
    match start {
        StartLine::Request { method, uri } => request_line_len(method, uri),
        StartLine::Response { reason, .. } => status_line_len(reason),
    }
}

/// How many bytes a message of these parts is.
fn message_len(start: StartLine<'_>, headers: HeaderLines<'_>, body: &[u8]) -> usize
    ensures { result
        ≡ saturated (length (spelling (record { start = view_start start.entry; headers = views headers.entry; body = body.now }))) }
{
    start_len(start)
        .saturating_add(headers_len(headers))
        .saturating_add(pieces_len(&[b"\r\n", body]))
}
