//! The state of a call: what each of its public calls sends, and where it leaves the branches.
ghost use Rattle.std.specs.Prelude.{◌≡◌, IfOk, IfSome, IsTrue};
ghost use Rattle.sip_text.specs.Name.{first_value};
ghost use Rattle.sip_route.specs.Hops.{IsHops, hops_name};
ghost use Rattle.call_model.specs.Behind.{KeepsAnswers};
ghost use Rattle.call_model.specs.Sound.{IsSound};

use crate::holds::holds;
use call_branch::{Destination, OpenedRequest, Opening, is_redirection, response_status};
use call_caller::PendingResponse;
use call_messages::lines::text_of;
use call_model::{
    Cause, Datagram, Step, Taken, TriedContacts, branches_keep_their_answers, calls_stay_sound,
};
use call_state::CallState;
use fork_book::Book;
use fork_context::{Kind, Target};
use fork_rank::Rules;
use sip_lex::read_number;
use sip_text::{Message, StartLine};
use sip_uri::{Hop, SipUri, Transport};
use sip_via::Own;
use std::alloc::{AllocError, Global};

/// The proxy's own address.
pub(crate) const OWN: Own = Own {
    addr: [192, 0, 2, 9],
    port: 5060,
    transport: Transport::Udp,
};

/// Where the answers go.
pub(crate) const CALLER: Hop = Hop {
    addr: [192, 0, 2, 1],
    port: 40_000,
    transport: Transport::Udp,
};

/// Where the request of the first branch goes.
pub(crate) const FIRST: Hop = Hop {
    addr: [192, 0, 2, 4],
    port: 5060,
    transport: Transport::Udp,
};

/// Where that of the second goes.
pub(crate) const SECOND: Hop = Hop {
    addr: [192, 0, 2, 5],
    port: 5062,
    transport: Transport::Udp,
};

// The lines of a request that was marked with its source.
pub(crate) const VIA: &[u8] =
    b"v: SIP/2.0/UDP 192.0.2.1:5060;branch=z9hG4bKa;rport=40000;received=192.0.2.1";

pub(crate) const FROM: &[u8] = b"f: <sip:alice@example.com>;tag=1";

pub(crate) const TO: &[u8] = b"t: <sip:bob@example.com>";

pub(crate) const CALL_ID: &[u8] = b"i: c1";

pub(crate) const CSEQ: &[u8] = b"CSeq: 1 INVITE";

pub(crate) const LENGTH: &[u8] = b"l: 0";

/// An INVITE, marked with its source.
pub(crate) const INVITE: [&[u8]; 9] = [
    b"INVITE sip:bob@example.com SIP/2.0",
    VIA,
    b"Max-Forwards: 70",
    FROM,
    TO,
    CALL_ID,
    CSEQ,
    LENGTH,
    b"",
];

/// An OPTIONS request, marked so.
const OPTIONS: [&[u8]; 9] = [
    b"OPTIONS sip:bob@example.com SIP/2.0",
    VIA,
    b"Max-Forwards: 70",
    FROM,
    TO,
    CALL_ID,
    b"CSeq: 1 OPTIONS",
    LENGTH,
    b"",
];

/// The Via line of the first branch.
pub(crate) const FIRST_VIA: &[u8] =
    b"Via: SIP/2.0/UDP 192.0.2.9:5060;branch=z9hG4bK8c31e71e0ddbf1a0e56f5f0279990857.7.3.0";

/// That of the second.
pub(crate) const SECOND_VIA: &[u8] =
    b"Via: SIP/2.0/UDP 192.0.2.9:5060;branch=z9hG4bK8c31e71e0ddbf1a0e56f5f0279990857.7.3.1";

/// The 100 to the INVITE.
pub(crate) const TRYING: [&[u8]; 8] = [
    b"SIP/2.0 100 Trying",
    VIA,
    FROM,
    TO,
    CALL_ID,
    CSEQ,
    b"Content-Length: 0",
    b"",
];

/// The INVITE as it goes to the first target.
pub(crate) const TO_FIRST: [&[u8]; 10] = [
    b"INVITE sip:bob@192.0.2.4 SIP/2.0",
    FIRST_VIA,
    VIA,
    b"Max-Forwards: 69",
    FROM,
    TO,
    CALL_ID,
    CSEQ,
    LENGTH,
    b"",
];

/// The INVITE as it goes to the second.
pub(crate) const TO_SECOND: [&[u8]; 10] = [
    b"INVITE sip:bob@192.0.2.5:5062 SIP/2.0",
    SECOND_VIA,
    VIA,
    b"Max-Forwards: 69",
    FROM,
    TO,
    CALL_ID,
    CSEQ,
    LENGTH,
    b"",
];

/// The OPTIONS request as it goes to the second.
const OPTIONS_TO_SECOND: [&[u8]; 10] = [
    b"OPTIONS sip:bob@192.0.2.5:5062 SIP/2.0",
    SECOND_VIA,
    VIA,
    b"Max-Forwards: 69",
    FROM,
    TO,
    CALL_ID,
    b"CSeq: 1 OPTIONS",
    LENGTH,
    b"",
];

/// The 180 of the first branch.
pub(crate) const RINGING: [&[u8]; 9] = [
    b"SIP/2.0 180 Ringing",
    FIRST_VIA,
    VIA,
    FROM,
    b"t: <sip:bob@example.com>;tag=9",
    CALL_ID,
    CSEQ,
    LENGTH,
    b"",
];

/// The 180 as it goes up.
const RINGING_UP: [&[u8]; 8] = [
    b"SIP/2.0 180 Ringing",
    VIA,
    FROM,
    b"t: <sip:bob@example.com>;tag=9",
    CALL_ID,
    CSEQ,
    LENGTH,
    b"",
];

/// The 404 of the first branch.
pub(crate) const NOT_FOUND: [&[u8]; 9] = [
    b"SIP/2.0 404 Not Found",
    FIRST_VIA,
    VIA,
    FROM,
    b"t: <sip:bob@example.com>;tag=9",
    CALL_ID,
    CSEQ,
    LENGTH,
    b"",
];

/// The ACK for it.
pub(crate) const ACK: [&[u8]; 9] = [
    b"ACK sip:bob@192.0.2.4 SIP/2.0",
    FIRST_VIA,
    b"Max-Forwards: 70",
    b"From: <sip:alice@example.com>;tag=1",
    b"To: <sip:bob@example.com>;tag=9",
    b"Call-ID: c1",
    b"CSeq: 1 ACK",
    b"Content-Length: 0",
    b"",
];

/// The CANCEL of the first branch.
pub(crate) const CANCEL_FIRST: [&[u8]; 9] = [
    b"CANCEL sip:bob@192.0.2.4 SIP/2.0",
    FIRST_VIA,
    b"Max-Forwards: 70",
    b"From: <sip:alice@example.com>;tag=1",
    b"To: <sip:bob@example.com>",
    b"Call-ID: c1",
    b"CSeq: 1 CANCEL",
    b"Content-Length: 0",
    b"",
];

/// The caller's CANCEL, marked with its source.
const CANCEL: [&[u8]; 9] = [
    b"CANCEL sip:bob@example.com SIP/2.0",
    VIA,
    b"Max-Forwards: 70",
    FROM,
    TO,
    CALL_ID,
    b"CSeq: 1 CANCEL",
    LENGTH,
    b"",
];

// ---- how the parts begin

pub(crate) use crate::requests::message_of;

/// Whether a value is one to three digits of 1 to 255.
fn are_hops(value: &[u8]) -> bool
    ensures { IsTrue result → IsHops value.now }
{
    match read_number(value, 255) {
        None => false,
        Some(hops) => hops >= 1 && value.len() <= 3,
    }
}

/// Whether the first Max-Forwards, if there is one, is such a value.
fn has_hops(message: &Message<Global>) -> bool
    ensures { IsTrue result → IfSome (first_value hops_name message.now.headers) IsHops }
{
    match message.values(b"max-forwards").next() {
        None => true,
        Some(value) => are_hops(value),
    }
}

/// What the call of a request is opened with.
fn fixed_by(request: Message<Global>) -> Option<OpenedRequest> {
    if !has_hops(&request) {
        return None;
    }
    match request.start() {
        StartLine::Request { .. } => Some(OpenedRequest::new(Opening {
            number: 3,
            own: OWN,
            instance: 7,
            request,
            caller: CALLER,
            route: None,
            tried: TriedContacts::OverUdp,
            record_route: None,
            stream_record_route: None,
            stamps: false,
            reasons: true,
            ring: 181_000,
            large: false,
        })),
        StartLine::Response { .. } => None,
    }
}

/// What the call of the request of these lines is opened with.
pub(crate) fn opened_of(alloc: Global, lines: &[&[u8]]) -> Option<OpenedRequest> {
    fixed_by(message_of(alloc, lines)?)
}

/// Puts a target of this key behind others, and says whether there was memory for it.
fn add_target(alloc: Global, targets: &mut Vec<Target>, key: &[u8]) -> bool {
    match Vec::from_slice(alloc, key) {
        Ok(key) => targets.push(Target::new(key, 1000)).is_ok(),
        Err(_) => false,
    }
}

/// The two targets, which are tried at once.
fn targets_of(alloc: Global) -> Option<Vec<Target>> {
    let mut targets = Vec::new(alloc);
    if add_target(alloc, &mut targets, b"a") && add_target(alloc, &mut targets, b"b") {
        Some(targets)
    } else {
        None
    }
}

/// Puts the destination to this URI behind others, and says whether the URI can be read and there was memory for it.
fn add_destination(
    alloc: Global,
    destinations: &mut Vec<Destination>,
    uri: &[u8],
    hop: Hop,
) -> bool {
    match SipUri::read(alloc, uri) {
        Ok(uri) => destinations
            .push(Destination::new(uri, hop, 181_000))
            .is_ok(),
        Err(_) => false,
    }
}

/// Where their requests go.
fn destinations_of(alloc: Global) -> Option<Vec<Destination>> {
    let mut destinations = Vec::new(alloc);
    if add_destination(alloc, &mut destinations, b"sip:bob@192.0.2.4", FIRST)
        && add_destination(alloc, &mut destinations, b"sip:bob@192.0.2.5:5062", SECOND)
    {
        Some(destinations)
    } else {
        None
    }
}

/// The state of a call that begins to these targets, which is sound.
fn begun_to(
    alloc: Global,
    opened: OpenedRequest,
    targets: Vec<Target>,
    destinations: Vec<Destination>,
) -> Result<CallState, AllocError>
    ensures sound { IfOk result IsSound }
    ensures answers { IfOk result KeepsAnswers }
{
    calls_stay_sound();
    branches_keep_their_answers();
    let kind = opened.kind();
    let Ok(book) = Book::new(alloc, kind, Rules::usual(), targets) else {
        return Err(AllocError);
    };
    if usize::from(book.context().count()) != destinations.len() {
        return Err(AllocError);
    }
    CallState::begin(alloc, opened, book, destinations, 0)
}

/// The parts of the call of the request of these lines to the two targets.
pub(crate) fn begun(alloc: Global, lines: &[&[u8]]) -> Option<CallState>
    ensures sound { IfSome result IsSound }
    ensures answers { IfSome result KeepsAnswers }
{
    let opened = opened_of(alloc, lines)?;
    let targets = targets_of(alloc)?;
    let destinations = destinations_of(alloc)?;
    match begun_to(alloc, opened, targets, destinations) {
        Ok(state) => Some(state),
        Err(_) => None,
    }
}

// ---- what is done with them

/// Whether a datagram is of this cause, goes there, and spells these lines.
pub(crate) fn is_sent_as(
    alloc: Global,
    sent: &Datagram,
    to: Hop,
    cause: Cause,
    lines: &[&[u8]],
) -> bool {
    match text_of(alloc, lines) {
        None => false,
        Some(text) => sent.to == to && sent.cause == cause && *sent.bytes == *text,
    }
}

/// Whether a step sends such a datagram.
pub(crate) fn step_sends(
    alloc: Global,
    step: &Step,
    to: Hop,
    cause: Cause,
    lines: &[&[u8]],
) -> bool {
    match step {
        Step::Send(sent) => is_sent_as(alloc, sent, to, cause, lines),
        Step::Did | Step::Idle => false,
    }
}

/// Whether the request to target n is sent there, as these lines.
pub(crate) fn sends_request(
    alloc: Global,
    state: &mut CallState,
    n: u16,
    to: Hop,
    lines: &[&[u8]],
) -> bool {
    if n >= state.book().context().count() {
        return false;
    }
    match state.send_request(n, 0) {
        Ok(sent) => is_sent_as(alloc, &sent, to, Cause::Request(n), lines),
        Err(_) => false,
    }
}

/// Whether the CANCEL of the first branch is sent as these lines.
pub(crate) fn sends_cancel(alloc: Global, state: &mut CallState, lines: &[&[u8]]) -> bool {
    if !state.is_sent(0) {
        return false;
    }
    match state.send_cancel(0, 20) {
        Ok(sent) => is_sent_as(alloc, &sent, FIRST, Cause::Cancel(0), lines),
        Err(_) => false,
    }
}

/// Whether the ACK of the first branch is sent as these lines.
pub(crate) fn sends_ack(alloc: Global, state: &mut CallState, lines: &[&[u8]]) -> bool {
    if !state.branch_view(0).ack_owed {
        return false;
    }
    let sent = state.send_ack(0);
    is_sent_as(alloc, &sent, FIRST, Cause::Ack(0), lines)
}

/// What comes of a response to the first branch.
fn taken_from(state: &mut CallState, response: Message<Global>, now: u64) -> Option<Taken> {
    let status = response_status(&response);
    if !state.is_sent(0) || status < 100 || status > 699 {
        return None;
    }
    state.respond(0, status, response, now).ok()
}

/// Whether the response of these lines to the first branch is taken so.
fn takes(alloc: Global, state: &mut CallState, now: u64, lines: &[&[u8]], taken: Taken) -> bool {
    match message_of(alloc, lines) {
        None => false,
        Some(response) => taken_from(state, response, now) == Some(taken),
    }
}

/// Whether a tick of the CANCEL's transaction sends these lines.
fn ticks_cancel(alloc: Global, state: &mut CallState, now: u64, lines: &[&[u8]]) -> bool {
    if !state.is_cancel_sent(0) {
        return false;
    }
    match state.tick_cancel(0, now) {
        Ok(step) => step_sends(alloc, &step, FIRST, Cause::Cancel(0), lines),
        Err(_) => false,
    }
}

/// Whether a step does something that sends nothing.
pub(crate) fn is_silent(step: &Step) -> bool {
    match step {
        Step::Did => true,
        Step::Send(_) | Step::Idle => false,
    }
}

/// Whether a tick of the server transaction sends nothing.
pub(crate) fn ticks_server(state: &mut CallState, now: u64) -> bool {
    match state.tick_server(now) {
        Ok(step) => is_silent(&step),
        Err(_) => false,
    }
}

// ---- what is owed

/// The second answer that is owed, if there is one.
fn second_owed(state: &CallState) -> Option<PendingResponse<'_>> {
    let owed = state.owed();
    if owed.is_empty() {
        return None;
    }
    owed.rest().first()
}

/// Whether the second answer that is owed is the 200 to a CANCEL from the caller.
fn owes_cancel_ok(state: &CallState) -> bool {
    match second_owed(state) {
        Some(PendingResponse::CancelOk(_, to)) => to == CALLER,
        _ => false,
    }
}

/// The first answer that is owed, if there is one.
fn first_owed(state: &CallState) -> Option<PendingResponse<'_>> {
    state.owed().first()
}

/// Whether the first answer that is owed is the 100 to the INVITE.
fn owes_trying(state: &CallState) -> bool {
    match first_owed(state) {
        Some(PendingResponse::Trying) => true,
        _ => false,
    }
}

/// Whether the second answer that is owed is what was sent last.
fn owes_again(state: &CallState) -> bool {
    match second_owed(state) {
        Some(PendingResponse::Again) => true,
        _ => false,
    }
}

/// Whether the second answer that is owed is a response of this status that goes up.
fn passes(state: &CallState, status: u16) -> bool {
    match second_owed(state) {
        Some(PendingResponse::Passed(response)) => response_status(response) == status,
        _ => false,
    }
}

/// Whether the answer that is owed first is sent as these lines; it is the first of a call that is sound.
fn sends_owed(alloc: Global, state: &mut CallState, lines: &[&[u8]]) -> bool
    requires sound { IsSound state.old }
    requires answers { KeepsAnswers state.old }
{
    if state.owed().is_empty() {
        return false;
    }
    match state.send_next_response(0) {
        Ok(step) => step_sends(alloc, &step, CALLER, Cause::Answer, lines),
        Err(_) => false,
    }
}

/// What comes of the caller's CANCEL.
fn cancelled_by(alloc: Global, state: &mut CallState) -> Option<Taken>
    requires sound { IsSound state.old }
{
    let cancel = message_of(alloc, &CANCEL)?;
    state.take_cancel(cancel, CALLER).ok()
}

// ---- the tests

#[test]
fn a_call_begins(rt: HostRuntime) {
    let alloc = rt.alloc();
    let Some(mut state) = begun(alloc, &INVITE) else {
        return holds(&rt, false, "an INVITE begins");
    };
    holds(&rt, state.opened().number() == 3, "its number");
    state.set_number(4);
    holds(&rt, state.opened().number() == 4, "its later number");
    holds(&rt, state.opened().kind() == Kind::Invite, "its kind");
    holds(
        &rt,
        response_status(state.opened().request()) == 0,
        "its request",
    );
    holds(&rt, is_redirection(399), "a 399 is a redirection");
    holds(&rt, state.book().history().is_empty(), "nothing was posted");
    holds(&rt, state.owed().len() == 1, "one answer is owed");
    holds(&rt, owes_trying(&state), "the 100 is owed");
    holds(&rt, !state.is_sent(0), "no request was sent");
    holds(&rt, state.is_open(0), "a branch is open");
    holds(&rt, state.branch_view(1).timer_c_runs, "timer C runs");
    holds(
        &rt,
        !state.branch_view(0).cancelled,
        "no branch is cancelled",
    );
}

#[test]
fn the_100_is_sent(rt: HostRuntime) {
    let alloc = rt.alloc();
    let Some(mut state) = begun(alloc, &INVITE) else {
        return holds(&rt, false, "an INVITE begins");
    };
    holds(
        &rt,
        sends_owed(alloc, &mut state, &TRYING),
        "the 100 is sent",
    );
    holds(&rt, state.owed().is_empty(), "nothing more is owed");
}

#[test]
fn a_failure_is_acknowledged(rt: HostRuntime) {
    let alloc = rt.alloc();
    let Some(mut state) = begun(alloc, &INVITE) else {
        return holds(&rt, false, "an INVITE begins");
    };
    holds(
        &rt,
        sends_request(alloc, &mut state, 0, FIRST, &TO_FIRST),
        "the request to the first target",
    );
    holds(
        &rt,
        sends_request(alloc, &mut state, 1, SECOND, &TO_SECOND),
        "the request to the second",
    );
    holds(
        &rt,
        takes(alloc, &mut state, 10, &RINGING, Taken::Posted(0)),
        "a 180 is posted",
    );
    holds(&rt, passes(&state, 180), "the 180 goes up");
    holds(
        &rt,
        takes(alloc, &mut state, 20, &NOT_FOUND, Taken::Posted(1)),
        "a 404 is posted",
    );
    holds(&rt, !state.is_open(0), "the branch has ended");
    holds(&rt, sends_ack(alloc, &mut state, &ACK), "the ACK is sent");
    holds(&rt, !state.branch_view(0).ack_owed, "no ACK is owed");
    holds(
        &rt,
        takes(alloc, &mut state, 30, &NOT_FOUND, Taken::Absorbed),
        "the 404 again is absorbed",
    );
    holds(
        &rt,
        sends_ack(alloc, &mut state, &ACK),
        "the ACK is sent again",
    );
}

#[test]
fn a_cancel_is_sent(rt: HostRuntime) {
    let alloc = rt.alloc();
    let Some(mut state) = begun(alloc, &INVITE) else {
        return holds(&rt, false, "an INVITE begins");
    };
    holds(
        &rt,
        sends_request(alloc, &mut state, 0, FIRST, &TO_FIRST),
        "the request to the first target",
    );
    holds(
        &rt,
        sends_cancel(alloc, &mut state, &CANCEL_FIRST),
        "the CANCEL of the branch",
    );
    holds(&rt, state.is_cancel_sent(0), "the CANCEL was sent");
    holds(
        &rt,
        ticks_cancel(alloc, &mut state, 520, &CANCEL_FIRST),
        "the CANCEL is sent again after 500 ms",
    );
    if state.is_cancel_sent(0) {
        state.take_cancel_response(0, 200, 600);
    }
    holds(
        &rt,
        !ticks_cancel(alloc, &mut state, 1520, &CANCEL_FIRST),
        "an answered CANCEL is not sent again",
    );
}

#[test]
fn an_options_call_is_sent(rt: HostRuntime) {
    let alloc = rt.alloc();
    let Some(mut state) = begun(alloc, &OPTIONS) else {
        return holds(&rt, false, "an OPTIONS begins");
    };
    holds(&rt, state.opened().kind() == Kind::Other, "its kind");
    holds(&rt, state.owed().is_empty(), "no 100 is owed");
    holds(
        &rt,
        sends_request(alloc, &mut state, 1, SECOND, &OPTIONS_TO_SECOND),
        "the request to the second target",
    );
    holds(&rt, state.take_request(5).is_ok(), "the request again");
    holds(&rt, state.owed().is_empty(), "it is absorbed");
    holds(&rt, ticks_server(&mut state, 10), "nothing is sent again");
}

#[test]
fn the_caller_cancels(rt: HostRuntime) {
    let alloc = rt.alloc();
    let Some(mut state) = begun(alloc, &INVITE) else {
        return holds(&rt, false, "an INVITE begins");
    };
    holds(
        &rt,
        cancelled_by(alloc, &mut state) == Some(Taken::Posted(0)),
        "a CANCEL is posted",
    );
    holds(&rt, owes_cancel_ok(&state), "a 200 to it is owed");
    holds(&rt, state.book().context().closed(), "no branch starts");
    holds(
        &rt,
        !state.branch_view(0).cancelled,
        "a branch that has not rung waits",
    );
}

#[test]
fn an_answer_could_not_be_sent(rt: HostRuntime) {
    let alloc = rt.alloc();
    let Some(mut state) = begun(alloc, &INVITE) else {
        return holds(&rt, false, "an INVITE begins");
    };
    holds(&rt, state.failed(Cause::Answer, 5).is_ok(), "it is told");
    holds(&rt, state.owed().len() == 1, "the 100 is still owed");
    state.take_ack(6);
    holds(&rt, state.take_request(7).is_ok(), "the INVITE again");
    holds(
        &rt,
        state.owed().len() == 2,
        "the last answer is owed again",
    );
}

#[test]
fn more_than_four_answers_are_owed(rt: HostRuntime) {
    let alloc = rt.alloc();
    let Some(mut state) = begun(alloc, &INVITE) else {
        return holds(&rt, false, "an INVITE begins");
    };
    for now in 1..6 {
        holds(&rt, state.take_request(now).is_ok(), "the INVITE again");
    }
    holds(&rt, state.owed().len() == 6, "each is owed an answer");
    holds(&rt, owes_trying(&state), "the 100 first");
    holds(&rt, owes_again(&state), "then the last answer again");
}
