//! Requests that are written straight to a text for a target: a request line with the target's URI, the proxy's
//! own Via line, header lines and a body.

ghost use Rattle.std.specs.Prelude.{◌≡◌, ◌+◌, ◌++◌, ◌≤◌, length, IsOk, OnErr, OnOk, take, vec_capacity, vec_len};
ghost use Rattle.sip_lex.specs.Line.{ended};
ghost use Rattle.sip_text.specs.Text.{Request, spelling, start_line};
ghost use Rattle.sip_lex.specs.Texts.{saturated};
ghost use Rattle.sip_uri.specs.Uri.{request_uri};
ghost use Rattle.sip_build.specs.inner.HeaderRuns.{tail_text};
ghost use Rattle.sip_build.specs.inner.ToTarget.{request_to};

use crate::own_line::append_own_via;
use crate::parts::ask_for_lines;
use crate::runs::{HeaderRun, append_tail, tail_len};
use sip_branch::BranchName;
use sip_lex::whole_or_nothing;
use sip_uri::SipUri;
use sip_via::Own;
use std::alloc::{AllocError, Allocator};

/// Appends the request line of a request to a target, or a part of it.
fn append_request_line<A: Allocator + Clone, B: Allocator>(
    out: &mut Vec<u8, B>,
    method: &[u8],
    target: &SipUri<A>,
) -> Result<(), AllocError>
    ensures ok { OnOk result
        (out.new.items ≡ out.old.items ++ ended (start_line (Request method.now (request_uri target.now)))) }
    ensures begins { take (vec_len out.old) out.new.items ≡ out.old.items }
    ensures room { vec_len out.old + length (ended (start_line (Request method.now (request_uri target.now)))) ≤ vec_capacity out.old
        → IsOk result }
    ensures capacity { vec_capacity out.old ≤ vec_capacity out.new }
{
    out.extend_from_slice(method)?;
    out.push(b' ')?;
    target.request_uri(out)?;
    out.extend_from_slice(b" SIP/2.0\r\n")?;
    Ok(())
}

/// Appends the request, of whose bytes that many stand behind the Via line, or a part of it.
fn append_parts<A: Allocator + Clone, B: Allocator>(
    out: &mut Vec<u8, B>,
    method: &[u8],
    target: &SipUri<A>,
    own: Own,
    branch: &BranchName,
    runs: &[HeaderRun<'_, A>],
    body: &[u8],
    tail: usize,
) -> Result<(), AllocError>
    requires { tail ≡ saturated (length (tail_text runs.now body.now)) }
    ensures ok { OnOk result
        (out.new.items ≡ out.old.items ++ spelling (request_to method.now target.now own branch.now runs.now body.now)) }
    ensures begins { take (vec_len out.old) out.new.items ≡ out.old.items }
    ensures room { vec_len out.old + length (spelling (request_to method.now target.now own branch.now runs.now body.now)) ≤ vec_capacity out.old
        → IsOk result }
{
    append_request_line(out, method, target)?;
    append_own_via(out, own, branch)?;
    append_tail(out, runs, body, tail)
}

/// Appends the request of these parts to a target, or nothing. Where `out` has not the room of what has a known length,
/// it is asked for at once.
pub(crate) fn append_to_target<A: Allocator + Clone, B: Allocator>(
    out: &mut Vec<u8, B>,
    method: &[u8],
    target: &SipUri<A>,
    own: Own,
    branch: &BranchName,
    runs: &[HeaderRun<'_, A>],
    body: &[u8],
) -> Result<(), AllocError>
    ensures ok { OnOk result
        (out.new.items ≡ out.old.items ++ spelling (request_to method.now target.now own branch.now runs.now body.now)) }
    ensures err { OnErr result (out.new.items ≡ out.old.items) }
    ensures room { vec_len out.old + length (spelling (request_to method.now target.now own branch.now runs.now body.now)) ≤ vec_capacity out.old
        → IsOk result }
{
    let tail = tail_len(runs, body);
    ask_for_lines(out, tail)?;
    let before = out.len();
    let done = append_parts(out, method, target, own, branch, runs, body, tail);
    whole_or_nothing(out, before, done)
}
