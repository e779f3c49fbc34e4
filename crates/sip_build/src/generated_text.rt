//! The proxy's own responses, straight as text.

ghost use Rattle.std.specs.Prelude.{◌≡◌, ◌+◌, ◌++◌, ◌≤◌, codes, length, map, true, IsOk, OnErr, OnOk, vec_capacity, vec_len};
ghost use Rattle.std.specs.List.{list_all};
ghost use Rattle.sip_text.specs.Message.{is_header};
ghost use Rattle.sip_text.specs.Seen.{view_lines};
ghost use Rattle.sip_text.specs.Text.{spelling};
ghost use Rattle.sip_route.specs.Lines.{first_line};
ghost use Rattle.sip_build.specs.Generated.{generated_of, gets_tag, tagged, to_lines, unsupported_lines};
ghost use Rattle.sip_build.specs.inner.HeaderRuns.{all_lines, lines_of};
ghost use Rattle.sip_build.specs.OwnTag.{own_tag};

use crate::made_text::{Front, append_made};
use crate::responses::{OwnStatus, has_tag_added};
use crate::runs::{HeaderRun, Pick};
use crate::tag::own_tag;
use sip_route::first_header;
use sip_text::{HeaderLine, Message};
use std::alloc::{AllocError, Allocator};

/// The first header line of that name as it stands.
fn first_run<'a, A: Allocator>(message: &'a Message<A>, name: &[u8]) -> HeaderRun<'a, A>
    ensures { lines_of result ≡ first_line name.now message.now }
{
    match first_header(message, name) {
        None => HeaderRun::NoLine,
        Some(line) => HeaderRun::Line(line.name, line.value),
    }
}

/// The first To line with that tag behind it.
fn tagged_run<'a, A: Allocator>(message: &'a Message<A>, tag: &'a [u8]) -> HeaderRun<'a, A>
    ensures { lines_of result ≡ map (tagged tag.now) (first_line (codes "to") message.now) }
{
    match first_header(message, b"to") {
        None => HeaderRun::NoLine,
        Some(line) => HeaderRun::Joined(line.name, line.value, b";tag=", tag),
    }
}

/// The proxy's own tag, where a response of that status has it added. It is not made for any other.
fn tag_if_added<A: Allocator>(message: &Message<A>, status: OwnStatus) -> [u8; 18]
    ensures { gets_tag status message.now ≡ true → result ≡ own_tag message.now }
{
    if has_tag_added(status, message) {
        own_tag(message)
    } else {
        [0; 18]
    }
}

/// The first To line, with the proxy's own tag where the response has it added.
fn to_run<'a, A: Allocator>(
    message: &'a Message<A>,
    status: OwnStatus,
    tag: &'a [u8],
) -> HeaderRun<'a, A>
    requires { gets_tag status message.now ≡ true → tag.now ≡ own_tag message.now }
    ensures { lines_of result ≡ to_lines status message.now }
{
    if has_tag_added(status, message) {
        tagged_run(message, tag)
    } else {
        first_run(message, b"to")
    }
}

/// What a 420 says that isn't understood.
fn unsupported_run<A: Allocator>(message: &Message<A>, status: OwnStatus) -> HeaderRun<'_, A>
    ensures { lines_of result ≡ unsupported_lines status message.now }
{
    match status {
        OwnStatus::BadExtension => HeaderRun::Picked(
            message.headers(),
            Pick::Renamed(b"proxy-require", b"Unsupported"),
        ),
        _ => HeaderRun::NoLine,
    }
}

/// The header lines of a response of the proxy's own.
fn generated_runs<'a, A: Allocator>(
    message: &'a Message<A>,
    status: OwnStatus,
    tag: &'a [u8],
    further: &'a [HeaderLine<'a>],
) -> [HeaderRun<'a, A>; 8]
    requires { gets_tag status message.now ≡ true → tag.now ≡ own_tag message.now }
    ensures { all_lines result ≡ (generated_of message.now status (view_lines further.now)).headers }
{
    [
        HeaderRun::Picked(message.headers(), Pick::Named(b"via")),
        first_run(message, b"from"),
        to_run(message, status, tag),
        first_run(message, b"call-id"),
        first_run(message, b"cseq"),
        unsupported_run(message, status),
        HeaderRun::Further(further),
        HeaderRun::Line(b"Content-Length", b"0"),
    ]
}

/// Appends the proxy's own response of that status to a request (RFC 3261 section 8.2.6): the Via lines and the first
/// From, To, Call-ID and CSeq lines as they stand in the request, with the own tag added to a To without a tag, but for a
/// 100; for a 420 one Unsupported line for each Proxy-Require line; and the further lines before the Content-Length, as the
/// Timestamp of a 100, the challenges of a 401 or a 407, or the Retry-After of a 503.
///
/// # Errors
///
/// Only where the growth of `out`, by as many bytes as the text has, is refused; `out` is then
/// unchanged.
pub fn write_own_response<A: Allocator, B: Allocator>(
    message: &Message<A>,
    status: OwnStatus,
    further: &[HeaderLine<'_>],
    out: &mut Vec<u8, B>,
) -> Result<(), AllocError>
    requires { list_all is_header (view_lines further.now) ≡ true }
    ensures ok { OnOk result
        (out.new.items ≡ out.old.items ++ spelling (generated_of message.now status (view_lines further.now))) }
    ensures err { OnErr result (out.new.items ≡ out.old.items) }
    ensures room { vec_len out.old + length (spelling (generated_of message.now status (view_lines further.now))) ≤ vec_capacity out.old
        → IsOk result }
{
    let tag = tag_if_added(message, status);
    let runs = generated_runs(message, status, &tag, further);
    append_made(
        out,
        Front::Response(status.code(), status.reason()),
        &runs,
        b"",
    )
}
