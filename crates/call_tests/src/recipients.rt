//! Which transaction of a call a message is for.
ghost use Rattle.std.specs.Prelude.{◌≡◌};
ghost use Rattle.call_state.specs.Kinds.{is_response};

use crate::holds::holds;
use crate::requests::{opened, sent_to, setup_of};
use call_messages::lines::text_of;
use call_state::{CallState, MatchedTransaction, match_request, match_response, match_transaction};
use proxy_config::Setup;
use sip_route::has_key;
use sip_text::{Message, StartLine};
use sip_via::own_branch;
use std::alloc::Global;
use std::process::Abort;

/// A setup with two locations of one user.
pub const SETUP: &[u8] = b"own 192.0.2.9 5060\ninstance 7\ndomain example.com\n\
location bob 1000 sip:bob@192.0.2.4\nlocation bob 1000 sip:bob@192.0.2.5\n";

/// The Via line of the caller.
pub const CALLER: &[u8] = b"v: SIP/2.0/UDP 192.0.2.1:5060;branch=z9hG4bKa";

/// The key of a request of the caller's.
pub const KEY: &[u8] = b"192.0.2.1:5060 z9hG4bKa";

/// That of the first branch.
pub const FIRST: &[u8] =
    b"Via: SIP/2.0/UDP 192.0.2.9:5060;branch=z9hG4bK8c31e71e0ddbf1a0e56f5f0279990857.7.3.0";

/// That of the second.
pub const SECOND: &[u8] =
    b"Via: SIP/2.0/UDP 192.0.2.9:5060;branch=z9hG4bK8c31e71e0ddbf1a0e56f5f0279990857.7.3.1";

pub const INVITE: &[u8] = b"INVITE sip:bob@example.com SIP/2.0";

pub const INVITING: &[u8] = b"CSeq: 1 INVITE";

pub const CANCELLING: &[u8] = b"CSeq: 1 CANCEL";

pub const RINGING: &[u8] = b"SIP/2.0 180 Ringing";

pub const OKAY: &[u8] = b"SIP/2.0 200 OK";

/// A message by its start line, its Via lines, of which the second may be another header, and its CSeq line.
pub fn message_of(
    alloc: Global,
    start: &[u8],
    vias: (&[u8], &[u8]),
    cseq: &[u8],
) -> Option<Message<Global>> {
    let lines: [&[u8]; 8] = [
        start,
        vias.0,
        vias.1,
        b"f: <sip:alice@example.com>;tag=1",
        b"t: <sip:bob@example.com>",
        b"i: c1",
        cseq,
        b"",
    ];
    let text = text_of(alloc, &lines)?;
    crate::requests::read_message(alloc, &text)
}

/// A line that is none of Via.
pub const NO_VIA: &[u8] = b"Subject: x";

/// The call that the INVITE opens, to the two branches of a setup.
fn invited_by(alloc: Global, setup: &Setup<Global>) -> Option<CallState> {
    let invite = message_of(alloc, INVITE, (CALLER, NO_VIA), INVITING)?;
    match opened(alloc, setup, invite) {
        Some(Ok(state)) => Some(state),
        Some(Err(_)) | None => None,
    }
}

/// That of the setup with two locations.
fn invited(alloc: Global) -> Option<CallState> {
    let setup = setup_of(alloc, SETUP)?;
    invited_by(alloc, &setup)
}

/// The same call, whose request was sent to the first branch.
fn called(alloc: Global) -> Option<CallState> {
    let mut state = invited(alloc)?;
    if sent_to(&mut state, 0).is_some() {
        Some(state)
    } else {
        None
    }
}

/// Whether the CANCEL of the first branch is sent.
fn cancels(state: &mut CallState) -> bool {
    state.is_sent(0) && state.send_cancel(0, 20).is_ok()
}

/// The same call, whose first branch was sent a CANCEL, too.
fn cancelled(alloc: Global) -> Option<CallState> {
    let mut state = called(alloc)?;
    if cancels(&mut state) {
        Some(state)
    } else {
        None
    }
}

/// Start line, Via lines and CSeq line of a message, and the transaction of the call that it is for, if there is one.
type Addressed = (
    &'static [u8],
    (&'static [u8], &'static [u8]),
    &'static [u8],
    Option<MatchedTransaction>,
);

/// Whether a message is a response.
pub(crate) fn is_response(message: &Message<Global>) -> bool
    ensures { result ≡ is_response message.now.start }
{
    match message.start() {
        StartLine::Request { .. } => false,
        StartLine::Response { .. } => true,
    }
}

/// What a response is for by the branch that its top Via value names, if it is a response and that names one of the proxy's.
#[tactic(auto, using(crate::proofs::ReadBranch::read_so))]
fn by_branch(state: &CallState, response: &Message<Global>) -> Option<MatchedTransaction> {
    if !is_response(response) {
        return None;
    }
    match own_branch(response, state.opened().own()) {
        Some(branch) => match_response(state, response, branch),
        None => None,
    }
}

/// What a request of the caller's is for by its key, if it is one.
fn by_key(state: &CallState, request: &Message<Global>) -> Option<MatchedTransaction> {
    if is_response(request) || !has_key(request, KEY) {
        return None;
    }
    match_request(state, request, KEY)
}

/// What a message is for by what was read of its top Via value before.
fn by_via(state: &CallState, message: &Message<Global>) -> Option<MatchedTransaction> {
    if is_response(message) {
        by_branch(state, message)
    } else {
        by_key(state, message)
    }
}

/// Whether a message is for this transaction, as it stands and by what was read of its top Via value.
fn is_message_for(
    state: &CallState,
    message: &Message<Global>,
    wanted: Option<MatchedTransaction>,
) -> bool {
    match_transaction(state, message) == wanted && by_via(state, message) == wanted
}

/// Whether a message is for what it is to be for.
fn is_for(alloc: Global, state: &CallState, message: &Addressed) -> bool {
    match message_of(alloc, message.0, message.1, message.2) {
        Some(read) => is_message_for(state, &read, message.3),
        None => false,
    }
}

/// Checks that each of these messages is.
fn check(rt: &impl Abort, alloc: Global, state: &CallState, messages: &[Addressed], what: &str) {
    for message in messages {
        holds(rt, is_for(alloc, state, message), what);
    }
}

// ---- requests

const REQUESTS: &[Addressed] = &[
    (
        INVITE,
        (CALLER, NO_VIA),
        INVITING,
        Some(MatchedTransaction::Server),
    ),
    (
        INVITE,
        (b"Via: SIP/2.0/UDP 192.0.2.1;rport;branch=z9hG4bKa", NO_VIA),
        INVITING,
        Some(MatchedTransaction::Server),
    ),
    (
        b"ACK sip:bob@example.com SIP/2.0",
        (CALLER, NO_VIA),
        b"CSeq: 1 ACK",
        Some(MatchedTransaction::ServerAck),
    ),
    (
        b"CANCEL sip:bob@example.com SIP/2.0",
        (CALLER, NO_VIA),
        CANCELLING,
        Some(MatchedTransaction::ServerCancel),
    ),
    (
        b"OPTIONS sip:bob@example.com SIP/2.0",
        (CALLER, NO_VIA),
        b"CSeq: 1 OPTIONS",
        None,
    ),
    (
        INVITE,
        (b"v: SIP/2.0/UDP 192.0.2.1:5060;branch=z9hG4bKb", NO_VIA),
        INVITING,
        None,
    ),
    (
        INVITE,
        (b"v: SIP/2.0/UDP 192.0.2.1:5060;branch=z9hG4bKA", NO_VIA),
        INVITING,
        None,
    ),
    (
        INVITE,
        (b"v: SIP/2.0/UDP 192.0.2.1:5061;branch=z9hG4bKa", NO_VIA),
        INVITING,
        None,
    ),
    (
        INVITE,
        (b"v: SIP/2.0/UDP 192.0.2.2:5060;branch=z9hG4bKa", NO_VIA),
        INVITING,
        None,
    ),
    (
        INVITE,
        (b"v: SIP/2.0/UDP 192.0.2.1:5060", NO_VIA),
        INVITING,
        None,
    ),
    (
        b"CANCEL sip:bob@example.com SIP/2.0",
        (FIRST, NO_VIA),
        CANCELLING,
        None,
    ),
];

#[test]
fn the_caller_is_known_by_its_branch(rt: HostRuntime) {
    let alloc = rt.alloc();
    match called(alloc) {
        Some(state) => check(&rt, alloc, &state, REQUESTS, "what a request is for"),
        None => holds(&rt, false, "an INVITE opens a call"),
    }
}

// ---- responses

/// Responses to a branch that was sent its request and a CANCEL.
const RESPONSES: &[Addressed] = &[
    (
        RINGING,
        (FIRST, CALLER),
        INVITING,
        Some(MatchedTransaction::Client(0)),
    ),
    (
        OKAY,
        (FIRST, CALLER),
        INVITING,
        Some(MatchedTransaction::Client(0)),
    ),
    (
        OKAY,
        (FIRST, CALLER),
        CANCELLING,
        Some(MatchedTransaction::CancelClient(0)),
    ),
    (
        OKAY,
        (FIRST, NO_VIA),
        CANCELLING,
        Some(MatchedTransaction::CancelClient(0)),
    ),
    (
        RINGING,
        (
            b"v: SIP/2.0/UDP 192.0.2.9;branch=z9hG4bK8c31e71e0ddbf1a0e56f5f0279990857.7.3.0, SIP/2.0/UDP 192.0.2.1",
            NO_VIA,
        ),
        INVITING,
        Some(MatchedTransaction::Client(0)),
    ),
    (RINGING, (CALLER, FIRST), INVITING, None),
];

#[test]
fn a_branch_is_known_by_its_name(rt: HostRuntime) {
    let alloc = rt.alloc();
    match cancelled(alloc) {
        Some(state) => check(&rt, alloc, &state, RESPONSES, "what a response is for"),
        None => holds(&rt, false, "a CANCEL is sent"),
    }
}

/// 180s that are for no branch of a call which sent no CANCEL.
const STRAYS: &[Addressed] = &[
    (RINGING, (FIRST, NO_VIA), INVITING, None),
    (RINGING, (FIRST, CALLER), b"CSeq: 1 OPTIONS", None),
    (RINGING, (FIRST, CALLER), CANCELLING, None),
    (RINGING, (SECOND, CALLER), INVITING, None),
    (
        RINGING,
        (
            b"v: SIP/2.0/UDP 192.0.2.9:5060;branch=z9hG4bK8c31e71e0ddbf1a0e56f5f0279990857.7.3.5",
            CALLER,
        ),
        INVITING,
        None,
    ),
    (
        RINGING,
        (
            b"v: SIP/2.0/UDP 192.0.2.9:5060;branch=z9hG4bK8c31e71e0ddbf1a0e56f5f0279990857.7.4.0",
            CALLER,
        ),
        INVITING,
        None,
    ),
    (
        RINGING,
        (
            b"v: SIP/2.0/UDP 192.0.2.9:5060;branch=z9hG4bK8c31e71e0ddbf1a0e56f5f0279990857.8.3.0",
            CALLER,
        ),
        INVITING,
        None,
    ),
    (
        RINGING,
        (
            b"v: SIP/2.0/UDP 192.0.2.9:5060;branch=z9hG4bK8c31e71e0ddbf1a0e56f5f0279990858.7.3.0",
            CALLER,
        ),
        INVITING,
        None,
    ),
    (
        RINGING,
        (
            b"v: SIP/2.0/UDP 192.0.2.8:5060;branch=z9hG4bK8c31e71e0ddbf1a0e56f5f0279990857.7.3.0",
            CALLER,
        ),
        INVITING,
        None,
    ),
    (
        RINGING,
        (
            b"v: SIP/2.0/UDP 192.0.2.9:5061;branch=z9hG4bK8c31e71e0ddbf1a0e56f5f0279990857.7.3.0",
            CALLER,
        ),
        INVITING,
        None,
    ),
];

#[test]
fn a_stray_response_is_for_no_branch(rt: HostRuntime) {
    let alloc = rt.alloc();
    match called(alloc) {
        Some(state) => check(
            &rt,
            alloc,
            &state,
            STRAYS,
            "a response that is for no branch",
        ),
        None => holds(&rt, false, "an INVITE opens a call"),
    }
}
