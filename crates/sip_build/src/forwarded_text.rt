//! Requests as they go to a target, straight as text.

ghost use Rattle.std.specs.Prelude.{◌≡◌, ◌+◌, ◌-◌, ◌≤◌, ◌++◌, IfSome, IsOk, IsTrue, OnErr, OnOk, length, true, vec_capacity, vec_len};
ghost use Rattle.std.specs.Fmt.{decimal};
ghost use Rattle.std.specs.Option.{option_copied};
ghost use Rattle.sip_lex.specs.Number.{number};
ghost use Rattle.sip_text.specs.Message.{is_value};
ghost use Rattle.sip_text.specs.Name.{first_value};
ghost use Rattle.sip_text.specs.Seen.{views};
ghost use Rattle.sip_text.specs.Text.{Request, spelling};
ghost use Rattle.sip_uri.specs.Uri.{Uri, request_uri};
ghost use Rattle.sip_via.specs.Edits.{place_of};
ghost use Rattle.sip_build.specs.Forwarding.{forwarded, hops_lowered, is_request, record_route_lines, to_target};
ghost use Rattle.sip_build.specs.inner.Forwarding.{hops_left};
ghost use Rattle.sip_build.specs.inner.HeaderRuns.{all_lines};
ghost use Rattle.sip_route.specs.Hops.{IsHops, hops_name};

use crate::runs::{HeaderRun, kept_run, run_if_any};
use crate::to_target::append_to_target;
use itoa::Buffer;
use sip_branch::BranchName;
use sip_lex::read_number;
use sip_text::{HeaderLines, Message, StartLine};
use sip_uri::SipUri;
use sip_via::{Own, header_index};
use std::alloc::{AllocError, Allocator};

const MAX_FORWARDS: &[u8] = b"max-forwards";

/// The method of a request.
fn method_of<A: Allocator>(message: &Message<A>) -> &[u8]
    requires { is_request message.now.start ≡ true }
    ensures { (u : Uri) → to_target message.now.start u ≡ Request result.now (request_uri u) }
{
    match message.start() {
        StartLine::Request { method, .. } => method,
        StartLine::Response { .. } => unreachable!(),
    }
}

/// One hop fewer than a Max-Forwards value allows.
fn one_fewer(value: &[u8]) -> u64
    requires { IsHops value.now }
    ensures { result ≡ number value.now - 1 }
{
    read_number(value, 255).unwrap_or(1) - 1
}

/// The value of the header line at the place of the first Max-Forwards line, if there is one.
fn value_at(headers: HeaderLines<'_>, place: usize) -> Option<&[u8]>
    requires place { place ≡ place_of hops_name (views headers) }
    requires within { place ≤ length (views headers) }
    ensures { option_copied result ≡ first_value hops_name (views headers.entry) }
{
    let (_, back) = headers.split_at(place);
    match back.split_first() {
        None => None,
        Some((line, _)) => Some(line.value),
    }
}

/// The hops that a request goes on with: one fewer than its first Max-Forwards value allows, or the seventy that
/// it begins with.
fn hops_left(first: Option<&[u8]>) -> u64
    requires { IfSome (option_copied first) IsHops }
    ensures { result ≡ hops_left (option_copied first.entry) }
{
    match first {
        None => 70,
        Some(value) => one_fewer(value),
    }
}

/// A Record-Route line of that value, if there is one, and the header lines with these hops in the first Max-Forwards line, or in
/// a line before them where there is none.
fn lowered_runs<'a, A: Allocator>(
    headers: HeaderLines<'a>,
    place: usize,
    hops: &'a [u8],
    recorded: Option<&'a [u8]>,
) -> [HeaderRun<'a, A>; 4]
    requires place { place ≡ place_of hops_name (views headers) }
    requires within { place ≤ length (views headers) }
    requires hops { hops.now ≡ decimal (hops_left (first_value hops_name (views headers))) }
    ensures { all_lines result
        ≡ record_route_lines (option_copied recorded.entry) ++ hops_lowered (views headers.entry) (first_value hops_name (views headers.entry)) }
{
    let record_route = run_if_any(b"Record-Route", recorded);
    let (front, back) = headers.split_at(place);
    let Some((header, after)) = back.split_first() else {
        let seventy = HeaderRun::Line(b"Max-Forwards", hops);
        let headers = kept_run(headers);
        return [record_route, seventy, headers, HeaderRun::NoLine];
    };
    let lowered = HeaderRun::Line(header.name, hops);
    let front = kept_run(front);
    [record_route, front, lowered, kept_run(after)]
}

/// Appends the request as it goes to a target (RFC 3261 section 16.6): its Request-URI is the target's, the proxy's own
/// Via stands first, with that branch, behind it a Record-Route line of the value `recorded`, if there is one, by which the
/// proxy stays on the path of the dialog (step 4), and the first Max-Forwards is lowered by one. A request without one gets
/// `Max-Forwards: 70` behind these.
///
/// # Errors
///
/// Only where `out` lacks room for the text and its growth is refused; `out` is then unchanged.
pub fn write_forwarded<A: Allocator + Clone, B: Allocator>(
    message: &Message<A>,
    target: &SipUri<A>,
    own: Own,
    branch: &BranchName,
    recorded: Option<&[u8]>,
    out: &mut Vec<u8, B>,
) -> Result<(), AllocError>
    requires request { is_request message.now.start ≡ true }
    requires hops { IfSome (first_value hops_name message.now.headers) IsHops }
    requires recorded { IfSome (option_copied recorded) (λ value. IsTrue (is_value value)) }
    ensures ok { OnOk result
        (out.new.items ≡ out.old.items ++ spelling (forwarded message.now target.now own branch.now (option_copied recorded.entry))) }
    ensures err { OnErr result (out.new.items ≡ out.old.items) }
    ensures room { vec_len out.old + length (spelling (forwarded message.now target.now own branch.now (option_copied recorded.entry))) ≤ vec_capacity out.old
        → IsOk result }
{
    let headers = message.headers();
    let place = header_index(headers, MAX_FORWARDS);
    let mut buffer = Buffer::new();
    let hops = buffer
        .format(hops_left(value_at(headers, place)))
        .as_bytes();
    let runs = lowered_runs(headers, place, hops, recorded);
    let method = method_of(message);
    append_to_target(out, method, target, own, branch, &runs, message.body())
}
