//! What comes of a branch: its timers, and the responses that bring contacts or challenges.
ghost use Rattle.call_model.specs.Behind.{KeepsAnswers};
ghost use Rattle.call_model.specs.Sound.{IsSound};

use crate::holds::holds;
use crate::state::{
    CALL_ID, CALLER, CANCEL_FIRST, CSEQ, FIRST, FIRST_VIA, FROM, INVITE, LENGTH, RINGING, SECOND,
    SECOND_VIA, TO, TO_FIRST, TO_SECOND, TRYING, VIA, begun, is_sent_as, is_silent, message_of,
    sends_cancel, step_sends,
};
use call_branch::response_status;
use call_model::{Cause, Datagram, Step, Taken, branches_keep_their_answers, calls_stay_sound};
use call_state::CallState;
use sip_text::Message;
use sip_uri::{Hop, Transport};
use sip_via::has_second_via;
use std::alloc::Global;

/// The To field of a response.
const TO_TAGGED: &[u8] = b"t: <sip:bob@example.com>;tag=9";

/// Where the request to the first contact goes.
const THIRD: Hop = Hop {
    addr: [192, 0, 2, 6],
    port: 5060,
    transport: Transport::Udp,
};

/// Where that to the second goes.
const FOURTH: Hop = Hop {
    addr: [192, 0, 2, 7],
    port: 5070,
    transport: Transport::Udp,
};

/// A 302 of the first branch with two contacts that may be tried, behind one that may not.
pub(crate) const MOVED: [&[u8]; 10] = [
    b"SIP/2.0 302 Moved Temporarily",
    FIRST_VIA,
    VIA,
    FROM,
    TO_TAGGED,
    CALL_ID,
    CSEQ,
    b"m: <tel:+1>, <sip:bob@192.0.2.6>, <sip:bob@192.0.2.7:5070>",
    LENGTH,
    b"",
];

/// The same with two contacts, the second of which is to be tried first.
const MOVED_BY_Q: [&[u8]; 10] = [
    b"SIP/2.0 302 Moved Temporarily",
    FIRST_VIA,
    VIA,
    FROM,
    TO_TAGGED,
    CALL_ID,
    CSEQ,
    b"Contact: <sip:bob@192.0.2.6>;q=0.5, <sip:bob@192.0.2.7:5070>",
    LENGTH,
    b"",
];

/// The same with a Contact value that cannot be read.
const MOVED_UNREADABLY: [&[u8]; 10] = [
    b"SIP/2.0 302 Moved Temporarily",
    FIRST_VIA,
    VIA,
    FROM,
    TO_TAGGED,
    CALL_ID,
    CSEQ,
    b"Contact: <sip:bob@192.0.2.6",
    LENGTH,
    b"",
];

/// The Via line of the third branch.
const THIRD_VIA: &[u8] =
    b"Via: SIP/2.0/UDP 192.0.2.9:5060;branch=z9hG4bK8c31e71e0ddbf1a0e56f5f0279990857.7.3.2";

/// That of the fourth.
const FOURTH_VIA: &[u8] =
    b"Via: SIP/2.0/UDP 192.0.2.9:5060;branch=z9hG4bK8c31e71e0ddbf1a0e56f5f0279990857.7.3.3";

/// The INVITE as it goes to the first contact.
const TO_THIRD: [&[u8]; 10] = [
    b"INVITE sip:bob@192.0.2.6 SIP/2.0",
    THIRD_VIA,
    VIA,
    b"Max-Forwards: 69",
    FROM,
    TO,
    CALL_ID,
    CSEQ,
    LENGTH,
    b"",
];

/// The INVITE as it goes to the second.
const TO_FOURTH: [&[u8]; 10] = [
    b"INVITE sip:bob@192.0.2.7:5070 SIP/2.0",
    FOURTH_VIA,
    VIA,
    b"Max-Forwards: 69",
    FROM,
    TO,
    CALL_ID,
    CSEQ,
    LENGTH,
    b"",
];

/// The INVITE as it goes to the second where that is tried first.
const TO_FOURTH_FIRST: [&[u8]; 10] = [
    b"INVITE sip:bob@192.0.2.7:5070 SIP/2.0",
    THIRD_VIA,
    VIA,
    b"Max-Forwards: 69",
    FROM,
    TO,
    CALL_ID,
    CSEQ,
    LENGTH,
    b"",
];

/// A challenge of the first target.
const CHALLENGE: &[u8] = b"WWW-Authenticate: Digest realm=\"a\", nonce=\"1\"";

/// One of a proxy before the second.
const PROXY_CHALLENGE: &[u8] = b"Proxy-Authenticate: Digest realm=\"b\", nonce=\"2\"";

/// The 401 of the first branch.
pub(crate) const UNAUTHORIZED: [&[u8]; 10] = [
    b"SIP/2.0 401 Unauthorized",
    FIRST_VIA,
    VIA,
    FROM,
    TO_TAGGED,
    CALL_ID,
    CSEQ,
    CHALLENGE,
    LENGTH,
    b"",
];

/// The 407 of the second.
pub(crate) const PROXY_UNAUTHORIZED: [&[u8]; 10] = [
    b"SIP/2.0 407 Proxy Authentication Required",
    SECOND_VIA,
    VIA,
    FROM,
    TO_TAGGED,
    CALL_ID,
    CSEQ,
    PROXY_CHALLENGE,
    LENGTH,
    b"",
];

/// The 401 as it goes up, with the challenges of both.
pub(crate) const UNAUTHORIZED_UP: [&[u8]; 10] = [
    b"SIP/2.0 401 Unauthorized",
    VIA,
    FROM,
    TO_TAGGED,
    CALL_ID,
    CSEQ,
    CHALLENGE,
    LENGTH,
    PROXY_CHALLENGE,
    b"",
];

// ---- what is done with a call that stays sound

/// Sends the request to target n, where that is owed.
fn sent_to(state: &mut CallState, n: u16) -> Option<Datagram>
    requires sound { IsSound state.old }
    requires answers { KeepsAnswers state.old }
    ensures sound { IsSound state.new }
    ensures answers { KeepsAnswers state.new }
{
    calls_stay_sound();
    branches_keep_their_answers();
    if n >= state.book().context().count() {
        return None;
    }
    if !state.is_trying(n) {
        return None;
    }
    if state.is_sent(n) {
        return None;
    }
    match state.send_request(n, 0) {
        Ok(sent) => Some(sent),
        Err(_) => None,
    }
}

/// Whether the request to target n is sent there, as these lines.
pub(crate) fn starts(alloc: Global, state: &mut CallState, n: u16, to: Hop, lines: &[&[u8]]) -> bool
    requires sound { IsSound state.old }
    requires answers { KeepsAnswers state.old }
    ensures sound { IsSound state.new }
    ensures answers { KeepsAnswers state.new }
{
    match sent_to(state, n) {
        None => false,
        Some(sent) => is_sent_as(alloc, &sent, to, Cause::Request(n), lines),
    }
}

/// What comes of a response to branch n.
fn taken_from(state: &mut CallState, n: u16, now: u64, response: Message<Global>) -> Option<Taken>
    requires sound { IsSound state.old }
    requires answers { KeepsAnswers state.old }
    ensures sound { IsSound state.new }
    ensures answers { KeepsAnswers state.new }
{
    calls_stay_sound();
    branches_keep_their_answers();
    response.is_message();
    let status = response_status(&response);
    if !state.is_sent(n) || status < 100 || status > 699 {
        return None;
    }
    if !has_second_via(&response) {
        return None;
    }
    match state.respond(n, status, response, now) {
        Ok(taken) => Some(taken),
        Err(_) => None,
    }
}

/// What comes of the response of these lines to branch n.
pub(crate) fn taken_by(
    alloc: Global,
    state: &mut CallState,
    n: u16,
    now: u64,
    lines: &[&[u8]],
) -> Option<Taken>
    requires sound { IsSound state.old }
    requires answers { KeepsAnswers state.old }
    ensures sound { IsSound state.new }
    ensures answers { KeepsAnswers state.new }
{
    match message_of(alloc, lines) {
        None => None,
        Some(response) => taken_from(state, n, now, response),
    }
}

/// The step by which the answer that is owed first is sent.
fn answered(state: &mut CallState) -> Option<Step>
    requires sound { IsSound state.old }
    requires answers { KeepsAnswers state.old }
    ensures sound { IsSound state.new }
    ensures answers { KeepsAnswers state.new }
{
    calls_stay_sound();
    branches_keep_their_answers();
    if state.owed().is_empty() {
        return None;
    }
    match state.send_next_response(0) {
        Ok(step) => Some(step),
        Err(_) => None,
    }
}

/// Whether it is sent as these lines.
pub(crate) fn answers(alloc: Global, state: &mut CallState, lines: &[&[u8]]) -> bool
    requires sound { IsSound state.old }
    requires answers { KeepsAnswers state.old }
    ensures sound { IsSound state.new }
    ensures answers { KeepsAnswers state.new }
{
    match answered(state) {
        None => false,
        Some(step) => step_sends(alloc, &step, CALLER, Cause::Answer, lines),
    }
}

// ---- timers

/// What comes of a tick of the client transaction of the first branch.
fn ticked(state: &mut CallState, now: u64) -> Option<Step>
    requires { IsSound state.old }
{
    if !state.is_sent(0) {
        return None;
    }
    match state.tick_client(0, now) {
        Ok(step) => Some(step),
        Err(_) => None,
    }
}

/// Whether a tick sends the request of the first branch as these lines.
fn sends_again(alloc: Global, state: &mut CallState, now: u64, lines: &[&[u8]]) -> bool
    requires { IsSound state.old }
{
    match ticked(state, now) {
        None => false,
        Some(step) => step_sends(alloc, &step, FIRST, Cause::Request(0), lines),
    }
}

/// Whether a tick of the first branch sends nothing.
fn ticks_silently(state: &mut CallState, now: u64) -> bool
    requires { IsSound state.old }
{
    match ticked(state, now) {
        Some(step) => is_silent(&step),
        None => false,
    }
}

/// Whether timer C of the first branch fires at this moment.
fn fires_timer_c(state: &mut CallState, now: u64) -> bool
    requires { IsSound state.old }
{
    let branch = state.branch_view(0);
    let Some(at) = branch.timer_c_due else {
        return false;
    };
    if at > now || !branch.timer_c_runs {
        return false;
    }
    state.fire_timer_c(0, now).is_ok()
}

/// Whether the first branch is given up.
fn gives_up(state: &mut CallState, now: u64) -> bool {
    if !state.is_sent(0) || !state.branch_view(0).cancelled {
        return false;
    }
    state.give_up(0, now).is_ok()
}

/// Whether the first branch has one contact left, which is this text.
fn leaves(state: &CallState, text: &[u8]) -> bool {
    match state.book().context().left(0) {
        Some([offer]) => offer.text() == text,
        _ => false,
    }
}

// ---- the tests

#[test]
fn a_request_is_sent_again(rt: HostRuntime) {
    let alloc = rt.alloc();
    let Some(mut state) = begun(alloc, &INVITE) else {
        return holds(&rt, false, "an INVITE begins");
    };
    holds(
        &rt,
        starts(alloc, &mut state, 0, FIRST, &TO_FIRST),
        "the request to the first target",
    );
    holds(
        &rt,
        sends_again(alloc, &mut state, 500, &TO_FIRST),
        "it is sent again after 500 ms",
    );
}

#[test]
fn a_branch_times_out(rt: HostRuntime) {
    let alloc = rt.alloc();
    let Some(mut state) = begun(alloc, &INVITE) else {
        return holds(&rt, false, "an INVITE begins");
    };
    holds(
        &rt,
        starts(alloc, &mut state, 0, FIRST, &TO_FIRST),
        "the request to the first target",
    );
    holds(
        &rt,
        ticks_silently(&mut state, 32_000),
        "nothing is sent after 32 seconds",
    );
    holds(&rt, !state.is_open(0), "the branch has ended");
    holds(&rt, state.is_open(1), "the other goes on");
}

#[test]
fn timer_c_ends_a_silent_branch(rt: HostRuntime) {
    let alloc = rt.alloc();
    let Some(mut state) = begun(alloc, &INVITE) else {
        return holds(&rt, false, "an INVITE begins");
    };
    holds(
        &rt,
        starts(alloc, &mut state, 0, FIRST, &TO_FIRST),
        "the request to the first target",
    );
    holds(
        &rt,
        state.branch_view(0).timer_c_due == Some(181_000),
        "timer C runs for more than three minutes",
    );
    holds(&rt, fires_timer_c(&mut state, 181_000), "timer C fires");
    holds(&rt, !state.is_open(0), "the branch has ended");
}

#[test]
fn a_branch_that_has_rung_is_given_up(rt: HostRuntime) {
    let alloc = rt.alloc();
    let Some(mut state) = begun(alloc, &INVITE) else {
        return holds(&rt, false, "an INVITE begins");
    };
    holds(
        &rt,
        starts(alloc, &mut state, 0, FIRST, &TO_FIRST),
        "the request to the first target",
    );
    holds(
        &rt,
        taken_by(alloc, &mut state, 0, 10, &RINGING) == Some(Taken::Posted(0)),
        "a 180 is posted",
    );
    holds(
        &rt,
        state.branch_view(0).timer_c_due == Some(181_010),
        "timer C is set again",
    );
    holds(&rt, fires_timer_c(&mut state, 181_010), "timer C fires");
    holds(
        &rt,
        state.branch_view(0).cancelled,
        "the branch is cancelled",
    );
    holds(
        &rt,
        sends_cancel(alloc, &mut state, &CANCEL_FIRST),
        "the CANCEL of the branch",
    );
    holds(&rt, gives_up(&mut state, 32_020), "it is given up");
    holds(&rt, !state.is_open(0), "the branch has ended");
}

#[test]
fn contacts_become_targets(rt: HostRuntime) {
    let alloc = rt.alloc();
    let Some(mut state) = begun(alloc, &INVITE) else {
        return holds(&rt, false, "an INVITE begins");
    };
    holds(
        &rt,
        starts(alloc, &mut state, 0, FIRST, &TO_FIRST),
        "the request to the first target",
    );
    holds(
        &rt,
        taken_by(alloc, &mut state, 0, 10, &MOVED) == Some(Taken::Posted(0)),
        "a 302 is posted",
    );
    holds(&rt, state.book().context().count() == 4, "two targets more");
    holds(
        &rt,
        leaves(&state, b"<tel:+1>"),
        "the contact that may not be tried is left",
    );
    holds(
        &rt,
        starts(alloc, &mut state, 2, THIRD, &TO_THIRD),
        "the request to the first contact",
    );
    holds(
        &rt,
        starts(alloc, &mut state, 3, FOURTH, &TO_FOURTH),
        "the request to the second",
    );
}

#[test]
fn a_target_has_the_destination_of_its_contact(rt: HostRuntime) {
    let alloc = rt.alloc();
    let Some(mut state) = begun(alloc, &INVITE) else {
        return holds(&rt, false, "an INVITE begins");
    };
    holds(
        &rt,
        starts(alloc, &mut state, 0, FIRST, &TO_FIRST),
        "the request to the first target",
    );
    holds(
        &rt,
        taken_by(alloc, &mut state, 0, 10, &MOVED_BY_Q) == Some(Taken::Posted(0)),
        "a 302 is posted",
    );
    holds(
        &rt,
        starts(alloc, &mut state, 2, FOURTH, &TO_FOURTH_FIRST),
        "the request to the contact of the higher q",
    );
    holds(&rt, !state.is_trying(3), "the other waits");
}

#[test]
fn a_contact_that_cannot_be_read_is_left(rt: HostRuntime) {
    let alloc = rt.alloc();
    let Some(mut state) = begun(alloc, &INVITE) else {
        return holds(&rt, false, "an INVITE begins");
    };
    holds(
        &rt,
        starts(alloc, &mut state, 0, FIRST, &TO_FIRST),
        "the request to the first target",
    );
    holds(
        &rt,
        taken_by(alloc, &mut state, 0, 10, &MOVED_UNREADABLY) == Some(Taken::Posted(0)),
        "a 302 is posted",
    );
    holds(&rt, state.book().context().count() == 2, "no target more");
    holds(
        &rt,
        leaves(&state, b"<sip:bob@192.0.2.6"),
        "the value is left",
    );
}

#[test]
fn challenges_go_up_together(rt: HostRuntime) {
    let alloc = rt.alloc();
    let Some(mut state) = begun(alloc, &INVITE) else {
        return holds(&rt, false, "an INVITE begins");
    };
    holds(&rt, answers(alloc, &mut state, &TRYING), "the 100 is sent");
    holds(
        &rt,
        starts(alloc, &mut state, 0, FIRST, &TO_FIRST),
        "the request to the first target",
    );
    holds(
        &rt,
        starts(alloc, &mut state, 1, SECOND, &TO_SECOND),
        "the request to the second",
    );
    holds(
        &rt,
        taken_by(alloc, &mut state, 0, 10, &UNAUTHORIZED) == Some(Taken::Posted(0)),
        "a 401 is posted",
    );
    holds(
        &rt,
        taken_by(alloc, &mut state, 1, 20, &PROXY_UNAUTHORIZED) == Some(Taken::Posted(1)),
        "a 407 is posted",
    );
    holds(
        &rt,
        answers(alloc, &mut state, &UNAUTHORIZED_UP),
        "the 401 goes up with the challenges of both",
    );
}
