//! The ACK for a failure and the CANCEL of a request that was forwarded, straight as text.

ghost use Rattle.std.specs.Prelude.{◌≡◌, ℕ, ◌+◌, ◌++◌, ◌∷◌, ◌≤◌, List, Option, codes, length, true, IsOk, OnErr, OnOk, vec_capacity, vec_len, IfSome};
ghost use Rattle.std.specs.List.{list_all};
ghost use Rattle.std.specs.Option.{option_copied};
ghost use Rattle.sip_lex.specs.Number.{begins_with_zero};
ghost use Rattle.sip_text.specs.Message.{is_header};
ghost use Rattle.sip_text.specs.Name.{first_value, values_of};
ghost use Rattle.sip_text.specs.Seen.{view_lines, views};
ghost use Rattle.sip_text.specs.Text.{spelling};
ghost use Rattle.sip_uri.specs.Uri.{Uri};
ghost use Rattle.sip_branch.specs.declared.branch.BranchName.{BranchName};
ghost use Rattle.sip_via.specs.declared.own.Own.{Own};
ghost use Rattle.sip_branch.specs.BranchText.{IsBranch};
ghost use Rattle.sip_via.specs.Edits.{line};
ghost use Rattle.sip_via.specs.OwnVia.{IsOwn, own_via};
ghost use Rattle.sip_route.specs.Loop.{cseq_number};
ghost use Rattle.sip_build.specs.Forwarding.{forwarded, is_request};
ghost use Rattle.sip_build.specs.inner.HeaderRuns.{all_lines};
ghost use Rattle.sip_build.specs.Requests.{ack_of, along_to, cancel_of};

use crate::law::{ack_of_a_forwarded_request, cancel_of_a_forwarded_request};
use crate::runs::{HeaderRun, Pick};
use crate::to_target::append_to_target;
use itoa::Buffer;
use sip_branch::BranchName;
use sip_lex::cut_at_space;
use sip_route::first_value;
use sip_text::{HeaderLine, HeaderLines, Message};
use sip_uri::SipUri;
use sip_via::Own;
use std::alloc::{AllocError, Allocator};

/// Shows that the numbers of the proxy's address are bounded.
fn fact_own(own: Own)
    ensures { IsOwn own }
{}

/// Shows that the numbers of a branch are bounded.
fn fact_branch(name: BranchName)
    ensures { IsBranch name }
{}

/// The value of the first Route line, if there is one.
fn first_route<A: Allocator>(message: &Message<A>) -> Option<&[u8]>
    ensures { option_copied result ≡ first_value (codes "route") message.now.headers }
{
    message.values(b"route").next()
}

/// The header lines, or none of them where none is a Route line.
fn with_routes<A: Allocator>(message: &Message<A>) -> HeaderLines<'_>
    ensures { values_of (codes "route") (views result) ≡ values_of (codes "route") message.now.headers }
{
    if first_route(message).is_none() {
        return HeaderLines::none();
    }
    message.headers()
}

/// Whether digits have a zero in front.
fn begins_with_zero(digits: &[u8]) -> bool
    ensures { result ≡ begins_with_zero digits.now }
{
    match digits {
        [b'0', ..] => true,
        _ => false,
    }
}

/// The number of the CSeq as it stands there, unless it has a zero in front.
fn plain_number<A: Allocator>(message: &Message<A>) -> Option<&[u8]>
    ensures { IfSome result (λ digits. digits.now ≡ cseq_number message.now) }
{
    message.is_message();
    let (digits, _) = cut_at_space(first_value(message, b"cseq"));
    if begins_with_zero(digits) {
        return None;
    }
    Some(digits)
}

/// The number of the CSeq in decimal.
fn number_of<'a, A: Allocator>(message: &'a Message<A>, buffer: &'a mut Buffer) -> &'a [u8]
    ensures { result.now ≡ cseq_number message.now }
{
    match plain_number(message) {
        Some(digits) => digits,
        None => buffer.format(message.cseq().number).as_bytes(),
    }
}

/// The header lines behind the Via line of a request of that method on the way of one that went to a
/// target, whose CSeq has that number, with more lines before the Content-Length.
fn runs_behind_via<'a, A: Allocator>(
    method: &'a [u8],
    message: &'a Message<A>,
    to: &'a [u8],
    number: &'a [u8],
    more: &'a [HeaderLine<'a>],
) -> [HeaderRun<'a, A>; 8]
    requires { number.now ≡ cseq_number message.now }
    ensures { (target : Uri) (own : Own) (branch : BranchName)
        → line (codes "Via") (own_via own branch) ∷ all_lines result
        ≡ (along_to method.now message.now target own branch to.now (view_lines more.now)).headers }
{
    [
        HeaderRun::SeventyHops,
        HeaderRun::Picked(with_routes(message), Pick::Renamed(b"route", b"Route")),
        HeaderRun::From(first_value(message, b"from")),
        HeaderRun::To(to),
        HeaderRun::CallId(message.call_id()),
        HeaderRun::Joined(b"CSeq", number, b" ", method),
        HeaderRun::Further(more),
        HeaderRun::NoBody,
    ]
}

/// Appends a request of that method on the way of one that went to a target, with more lines, or nothing.
fn append_to_same_hop<A: Allocator + Clone, B: Allocator>(
    out: &mut Vec<u8, B>,
    method: &[u8],
    message: &Message<A>,
    target: &SipUri<A>,
    own: Own,
    branch: &BranchName,
    to: &[u8],
    more: &[HeaderLine<'_>],
) -> Result<(), AllocError>
    ensures ok { OnOk result
        (out.new.items ≡ out.old.items ++ spelling (along_to method.now message.now target.now own branch.now to.now (view_lines more.now))) }
    ensures err { OnErr result (out.new.items ≡ out.old.items) }
    ensures room { vec_len out.old + length (spelling (along_to method.now message.now target.now own branch.now to.now (view_lines more.now))) ≤ vec_capacity out.old
        → IsOk result }
{
    let mut buffer = Buffer::new();
    let number = number_of(message, &mut buffer);
    let runs = runs_behind_via(method, message, to, number, more);
    append_to_target(out, method, target, own, branch, &runs, b"")
}

/// Appends the ACK for a response of 300 to 699 to a request that went to a target (RFC 3261 section 17.1.1.3): on the way
/// of the request as it went, with its top Via value alone, its Route values, its From, its Call-ID and the number of its
/// CSeq, and with the To of the response.
///
/// # Errors
///
/// Only where `out` lacks room for the text and its growth is refused; `out` is then unchanged.
pub fn write_forwarded_ack<A: Allocator + Clone, B: Allocator>(
    message: &Message<A>,
    target: &SipUri<A>,
    own: Own,
    branch: &BranchName,
    response: &Message<A>,
    out: &mut Vec<u8, B>,
) -> Result<(), AllocError>
    requires { is_request message.now.start ≡ true }
    ensures ok { OnOk result ((recorded : Option (List ℕ))
        → out.new.items ≡ out.old.items ++ spelling (ack_of (forwarded message.now target.now own branch.now recorded) response.now)) }
    ensures err { OnErr result (out.new.items ≡ out.old.items) }
    ensures room { (recorded : Option (List ℕ))
        → vec_len out.old + length (spelling (ack_of (forwarded message.now target.now own branch.now recorded) response.now)) ≤ vec_capacity out.old
        → IsOk result }
{
    fact_own(own);
    fact_branch(*branch);
    ack_of_a_forwarded_request();
    let to = first_value(response, b"to");
    append_to_same_hop(out, b"ACK", message, target, own, branch, to, &[])
}

/// Appends the CANCEL of a request that went to a target (RFC 3261 section 9.1): on the way of the request as it went, with
/// its top Via value alone, its Route values, its From, its To, its Call-ID and the number of its CSeq, and, before the
/// Content-Length, lines that say why it is sent (RFC 3326).
///
/// # Errors
///
/// Only where `out` lacks room for the text and its growth is refused; `out` is then unchanged.
pub fn write_forwarded_cancel<A: Allocator + Clone, B: Allocator>(
    message: &Message<A>,
    target: &SipUri<A>,
    own: Own,
    branch: &BranchName,
    reasons: &[HeaderLine<'_>],
    out: &mut Vec<u8, B>,
) -> Result<(), AllocError>
    requires request { is_request message.now.start ≡ true }
    requires reasons { list_all is_header (view_lines reasons.now) ≡ true }
    ensures ok { OnOk result ((recorded : Option (List ℕ))
        → out.new.items ≡ out.old.items ++ spelling (cancel_of (forwarded message.now target.now own branch.now recorded) (view_lines reasons.now))) }
    ensures err { OnErr result (out.new.items ≡ out.old.items) }
    ensures room { (recorded : Option (List ℕ))
        → vec_len out.old + length (spelling (cancel_of (forwarded message.now target.now own branch.now recorded) (view_lines reasons.now))) ≤ vec_capacity out.old
        → IsOk result }
{
    fact_own(own);
    fact_branch(*branch);
    cancel_of_a_forwarded_request();
    let to = first_value(message, b"to");
    append_to_same_hop(out, b"CANCEL", message, target, own, branch, to, reasons)
}
