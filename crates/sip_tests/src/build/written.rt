//! Responses that are written straight to a text, against those that are built and then written.
ghost use Rattle.std.specs.Prelude.{◌≡◌, true};
ghost use Rattle.std.specs.List.{list_all};
ghost use Rattle.sip_build.specs.SeenKept.{seen_kept};
ghost use Rattle.sip_build.specs.Upward.{AreKept, is_challenge};

use crate::behind::{begins, if_built, is_as_it_began, is_behind};
use crate::build::responses::{STATUSES, answer_to};
use crate::build::upstream::{ALONE, ASKED, MOVED, of_proxy, of_server};
use crate::bytes::is;
use crate::holds::holds;
use crate::messages::{REQUEST, ROUTED, message_of};
use crate::rows::holds_in_row;
use bumpalo::Bump;
use fork_rank::Challenge;
use sip_build::{
    OwnStatus, ack_of_a_forwarded_request, cancel_of_a_forwarded_request, write_forwarded_response,
    write_own_response,
};
use sip_builders::{
    forwarding_puts_the_own_via_first, own_via_is_read, upward, upward_loses_the_top_via,
};
use sip_text::Message;
use sip_via::BuildFault;
use std::alloc::Global;

/// Whether the answer of this status to a request is written as it is built.
fn is_answered_so(alloc: Global, request: &Message<Global>, status: OwnStatus) -> bool {
    let mut out = Vec::new(alloc);
    begins(&mut out)
        && write_own_response(request, status, &[], &mut out).is_ok()
        && is_behind(alloc, &out, answer_to(alloc, request, status))
}

fn answers_so(alloc: Global, lines: &[&[u8]], status: OwnStatus) -> bool {
    match message_of(alloc, lines) {
        Some(request) => is_answered_so(alloc, &request, status),
        None => false,
    }
}

#[test]
fn answers_are_written_as_they_are_built(rt: HostRuntime) {
    let alloc = rt.alloc();
    for (row, (status, _)) in STATUSES.iter().enumerate() {
        holds_in_row(
            &rt,
            answers_so(alloc, &REQUEST, *status),
            "an answer to a request",
            row,
        );
        holds_in_row(
            &rt,
            answers_so(alloc, &ROUTED, *status),
            "an answer to a request with fields for proxies",
            row,
        );
    }
}

#[test]
fn laws_of_forwarded_requests(_rt: HostRuntime) {
    forwarding_puts_the_own_via_first();
    own_via_is_read();
    ack_of_a_forwarded_request();
    cancel_of_a_forwarded_request();
}

/// Whether a response goes upstream with these contacts and challenges as it is built.
fn goes_so(
    alloc: Global,
    response: &Message<Global>,
    kept: Option<&[&[u8]]>,
    challenges: &[Challenge<Global>],
) -> bool
    requires kept { AreKept (seen_kept kept) }
    requires challenges { list_all is_challenge challenges.now ≡ true }
{
    let mut out = Vec::new(alloc);
    begins(&mut out)
        && write_forwarded_response(response, kept, challenges, &mut out).is_ok()
        && is_behind(
            alloc,
            &out,
            if_built(upward(alloc, response, kept, challenges)),
        )
}

/// Contacts that take the place of those of a response.
const OTHERS: [&[u8]; 2] = [b"<sip:d@192.0.2.7>", b"<sip:e@192.0.2.8>;q=0.1"];

/// Whether it does, with the contacts that it had, with others and with none.
fn goes_each_way(
    alloc: Global,
    response: &Message<Global>,
    challenges: &[Challenge<Global>],
) -> bool
    requires { list_all is_challenge challenges.now ≡ true }
{
    goes_so(alloc, response, None, challenges)
        && goes_so(alloc, response, Some(&OTHERS), challenges)
        && goes_so(alloc, response, Some(&[]), challenges)
}

fn goes_so_with(alloc: Global, lines: &[&[u8]], challenges: &[Challenge<Global>]) -> bool
    requires { list_all is_challenge challenges.now ≡ true }
{
    match message_of(alloc, lines) {
        Some(response) => goes_each_way(alloc, &response, challenges),
        None => false,
    }
}

fn goes_so_with_challenges(alloc: Global, lines: &[&[u8]]) -> bool {
    match (of_proxy(alloc), of_server(alloc)) {
        (Some(proxy), Some(server)) => goes_so_with(alloc, lines, &[proxy, server]),
        _ => false,
    }
}

#[test]
fn responses_are_written_as_they_are_built(rt: HostRuntime) {
    upward_loses_the_top_via();
    let alloc = rt.alloc();
    let mut sooner = MOVED;
    sooner[1] = b"m: <sip:a@192.0.2.5>";
    sooner[3] = b"Via: SIP/2.0/UDP 192.0.2.9:5060;branch=z9hG4bK1";
    for (row, lines) in [MOVED, sooner].iter().enumerate() {
        holds_in_row(&rt, goes_so_with(alloc, lines, &[]), "a 302", row);
        holds_in_row(
            &rt,
            goes_so_with_challenges(alloc, lines),
            "a 302 with challenges",
            row,
        );
    }
    holds(
        &rt,
        goes_so_with_challenges(alloc, &ASKED),
        "a 401 whose Via values stand in one line",
    );
}

/// Whether a response is refused as one with one Via value alone, and nothing is written.
fn is_the_last(alloc: Global, response: &Message<Global>) -> bool {
    let mut out = Vec::new(alloc);
    begins(&mut out)
        && matches!(
            write_forwarded_response(response, None, &[], &mut out),
            Err(BuildFault::LastVia)
        )
        && is_as_it_began(&out)
}

/// Whether a response with one Via value is refused, and nothing is written.
fn is_refused(alloc: Global) -> bool {
    match message_of(alloc, &ALONE) {
        Some(response) => is_the_last(alloc, &response),
        None => false,
    }
}

#[test]
fn nothing_is_written_of_what_was_for_the_proxy(rt: HostRuntime) {
    let alloc = rt.alloc();
    holds(
        &rt,
        is_refused(alloc),
        "a response with one Via value is a LastVia",
    );
}

/// What stands in the text, so that its first chunk has no room for more.
const BEFORE: [u8; 440] = [120; 440];

/// Whether all that is written of them to a text is refused.
fn are_refused(
    request: &Message<Global>,
    response: &Message<Global>,
    out: &mut Vec<u8, &Bump<Global>>,
) -> bool {
    let answered = write_own_response(request, OwnStatus::BadExtension, &[], out).is_ok();
    let upwards = write_forwarded_response(response, None, &[], out).is_ok();
    !answered && !upwards
}

/// Whether all that is written of them where no more memory is granted is refused, and the text is as it was.
fn keeps_its_text(alloc: Global, request: &Message<Global>, response: &Message<Global>) -> bool {
    let bump = Bump::new(alloc);
    let mut out = Vec::new(&bump);
    let begun = out.extend_from_slice(&BEFORE).is_ok();
    bump.set_allocation_limit(Some(bump.allocated_bytes()));
    begun && are_refused(request, response, &mut out) && is(&out, &BEFORE)
}

fn stays_as_it_was(alloc: Global) -> bool {
    match (message_of(alloc, &REQUEST), message_of(alloc, &MOVED)) {
        (Some(request), Some(response)) => keeps_its_text(alloc, &request, &response),
        _ => false,
    }
}

#[test]
fn refused_memory_changes_nothing(rt: HostRuntime) {
    let alloc = rt.alloc();
    holds(
        &rt,
        stays_as_it_was(alloc),
        "nothing is written where memory is refused",
    );
}
