//! Messages that are written straight to a text: a start line, header lines and a body.

ghost use Rattle.std.specs.Prelude.{◌≡◌, ◌+◌, ◌++◌, ◌≤◌, ◌<◌, length, OnErr, OnOk, take, vec_capacity, vec_len};
ghost use Rattle.sip_lex.specs.Line.{ended};
ghost use Rattle.sip_text.specs.Text.{spelling, start_line};
ghost use Rattle.sip_lex.specs.Texts.{saturated};
ghost use Rattle.sip_build.specs.inner.HeaderRuns.{IsFront, made_of, start_of, tail_text};

use crate::runs::{HeaderRun, append_tail, tail_len};
use sip_lex::whole_or_nothing;
use sip_text::{append_request_line, append_status_line, request_line_len, status_line_len};
use std::alloc::{AllocError, Allocator};

/// The start line of a message that is written.
#[derive(Clone, Copy)]
pub(crate) enum Front<'a> {
    /// A method and a Request-URI.
    Request(&'a [u8], &'a [u8]),
    /// A status and its reason.
    Response(u16, &'a [u8]),
}

/// Appends a start line with its end.
fn append_front<B: Allocator>(out: &mut Vec<u8, B>, front: Front<'_>) -> Result<(), AllocError>
    requires { IsFront front }
    ensures ok { OnOk result
        (out.new.items ≡ out.old.items ++ ended (start_line (start_of front.entry))) }
    ensures begins { take (vec_len out.old) out.new.items ≡ out.old.items }
    ensures full { OnErr result
        (vec_capacity out.old < vec_len out.old + length (ended (start_line (start_of front.entry)))) }
    ensures capacity { vec_capacity out.old ≤ vec_capacity out.new }
{
    match front {
        Front::Request(method, uri) => append_request_line(out, method, uri),
        Front::Response(status, reason) => append_status_line(out, status, reason),
    }
}

/// How many bytes a start line is with its end.
fn front_len(front: Front<'_>) -> usize
    ensures { result ≡ saturated (length (ended (start_line (start_of front.entry)))) }
{
    match front {
        Front::Request(method, uri) => request_line_len(method, uri),
        Front::Response(_, reason) => status_line_len(reason),
    }
}

/// Appends the message, of whose bytes that many stand behind the start line, or a part of it.
fn append_parts<A: Allocator, B: Allocator>(
    out: &mut Vec<u8, B>,
    front: Front<'_>,
    runs: &[HeaderRun<'_, A>],
    body: &[u8],
    tail: usize,
) -> Result<(), AllocError>
    requires front { IsFront front }
    requires tail { tail ≡ saturated (length (tail_text runs.now body.now)) }
    ensures ok { OnOk result
        (out.new.items ≡ out.old.items ++ spelling (made_of front.entry runs.now body.now)) }
    ensures begins { take (vec_len out.old) out.new.items ≡ out.old.items }
    ensures full { OnErr result
        (vec_capacity out.old < vec_len out.old + length (spelling (made_of front.entry runs.now body.now))) }
{
    append_front(out, front)?;
    append_tail(out, runs, body, tail)
}

/// Appends the message of these parts, or nothing; `out` grows once at most, before anything is written.
pub(crate) fn append_made<A: Allocator, B: Allocator>(
    out: &mut Vec<u8, B>,
    front: Front<'_>,
    runs: &[HeaderRun<'_, A>],
    body: &[u8],
) -> Result<(), AllocError>
    requires { IsFront front }
    ensures ok { OnOk result
        (out.new.items ≡ out.old.items ++ spelling (made_of front.entry runs.now body.now)) }
    ensures err { OnErr result (out.new.items ≡ out.old.items) }
    ensures full { OnErr result
        (vec_capacity out.old < vec_len out.old + length (spelling (made_of front.entry runs.now body.now))) }
{
    let tail = tail_len(runs, body);
    out.reserve(front_len(front).saturating_add(tail))?;
    let before = out.len();
    let done = append_parts(out, front, runs, body, tail);
    whole_or_nothing(out, before, done)
}
