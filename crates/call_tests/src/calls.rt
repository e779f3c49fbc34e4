//! A call from its request on.
use crate::holds::holds;
use crate::recipients::{
    CALLER, CANCELLING, FIRST, INVITE, INVITING, KEY, NO_VIA, OKAY, RINGING, SECOND, SETUP,
    is_response, message_of,
};
use crate::requests::{SOURCE, opening_of, setup_of};
use call_table::{Pending, Shelf};
use fork_call::{
    Call, Cause, Datagram, PendingCall, Setup, Step, TakeFault, Taken, is_openable, prepare_read,
};
use sip_route::has_key;
use sip_text::Message;
use sip_uri::{Hop, Transport};
use sip_via::{TopVia, own_branch};
use std::alloc::Global;
use std::process::Abort;
use std::sync::Wait;

/// The call that the INVITE opens as number 3, to the two branches of a setup.
fn opened_by(alloc: Global, setup: &Setup<Global>) -> Option<Call> {
    let invite = message_of(alloc, INVITE, (CALLER, NO_VIA), INVITING)?;
    if !is_openable(&invite) {
        return None;
    }
    match Call::open(alloc, setup, 3, invite, SOURCE, 0) {
        Ok(call) => Some(call),
        Err(_) => None,
    }
}

/// That of the setup with two locations.
fn opened(alloc: Global) -> Option<Call> {
    let setup = setup_of(alloc, SETUP)?;
    opened_by(alloc, &setup)
}

/// What the INVITE opens, before it has its number.
fn prepared_by(alloc: Global, setup: &Setup<Global>) -> Option<PendingCall> {
    let invite = message_of(alloc, INVITE, (CALLER, NO_VIA), INVITING)?;
    if !is_openable(&invite) {
        return None;
    }
    match PendingCall::new(setup, opening_of(alloc, invite)) {
        Ok(prepared) => Some(prepared),
        Err(_) => None,
    }
}

/// That of the setup with two locations.
fn prepared(alloc: Global) -> Option<PendingCall> {
    let setup = setup_of(alloc, SETUP)?;
    prepared_by(alloc, &setup)
}

/// The same under number 3.
fn numbered(alloc: Global) -> Option<Call> {
    match prepared(alloc) {
        Some(prepared) => Some(prepared.numbered(3)),
        None => None,
    }
}

// ---- what a call sends

/// The datagram that the next pump sends, if it sends one.
fn next_sent(call: &mut Call, now: u64) -> Option<Datagram> {
    match call.pump(now) {
        Ok(Step::Send(datagram)) => Some(datagram),
        Ok(Step::Did | Step::Idle) | Err(_) => None,
    }
}

/// What it is sent for.
fn next_cause(call: &mut Call, now: u64) -> Option<Cause> {
    match next_sent(call, now) {
        Some(datagram) => Some(datagram.cause),
        None => None,
    }
}

/// Whether the next pumps send for these causes, one after another.
fn sends_for(call: &mut Call, now: u64, causes: &[Cause]) -> bool {
    let mut well = true;
    for cause in causes {
        well = well && next_cause(call, now) == Some(*cause);
    }
    well
}

/// Whether nothing is due.
fn is_idle(call: &mut Call, now: u64) -> bool {
    match call.pump(now) {
        Ok(Step::Idle) => true,
        Ok(Step::Did | Step::Send(_)) | Err(_) => false,
    }
}

// ---- a history

/// What a call does, or what happens to it, and what comes of it.
#[derive(Clone, Copy)]
enum Turn {
    /// It has this number.
    HasNumber(u64),
    /// Something is due at this moment, and nothing before.
    IsDue(u64),
    /// It sends for these causes, one after another.
    Sends(&'static [Cause]),
    /// Nothing is due.
    Rests,
    /// A message by its start line, its Via lines and its CSeq line is taken so.
    Takes(&'static [u8], (&'static [u8], &'static [u8]), &'static [u8], Result<Taken, TakeFault>),
    /// Such a response is taken so, whose branch was read before.
    Answers(&'static [u8], (&'static [u8], &'static [u8]), &'static [u8], Result<Taken, TakeFault>),
    /// Such a request of the caller's is taken so, of whose top Via value was read before.
    Asks(&'static [u8], (&'static [u8], &'static [u8]), &'static [u8], Result<Taken, TakeFault>),
    /// A datagram of this cause could not be sent.
    Fails(Cause),
    /// So many events were posted.
    HasPosted(usize),
    /// It is not over.
    GoesOn,
    /// A branch is waited for until that moment.
    WaitsFor(u16, Option<u64>),
    /// The transaction of the caller wants a tick then.
    ServerIsDue(Option<u64>),
}

/// A moment in milliseconds, what happens then, and what that shows.
type Moment = (u64, Turn, &'static str);

/// Whether such a message is taken so.
fn takes(
    alloc: Global,
    call: &mut Call,
    now: u64,
    start: &[u8],
    vias: (&[u8], &[u8]),
    cseq: &[u8],
    wanted: Result<Taken, TakeFault>,
) -> bool {
    match message_of(alloc, start, vias, cseq) {
        Some(message) => call.take(message, SOURCE, now) == wanted,
        None => false,
    }
}

/// What comes of such a response, by the branch that its top Via value names.
#[tactic(auto, using(crate::proofs::ReadBranch::read_so))]
fn answered(
    alloc: Global,
    call: &mut Call,
    now: u64,
    start: &[u8],
    vias: (&[u8], &[u8]),
    cseq: &[u8],
) -> Option<Result<Taken, TakeFault>> {
    let response = message_of(alloc, start, vias, cseq)?;
    if !is_response(&response) {
        return None;
    }
    match own_branch(&response, call.own()) {
        Some(branch) => Some(call.take_response(response, branch, SOURCE, now)),
        None => None,
    }
}

/// What comes of such a request, by its key and by what was read of its top Via value.
fn asked(
    alloc: Global,
    call: &mut Call,
    now: u64,
    start: &[u8],
    vias: (&[u8], &[u8]),
    cseq: &[u8],
) -> Option<Result<Taken, TakeFault>> {
    let request = message_of(alloc, start, vias, cseq)?;
    if is_response(&request) || !has_key(&request, KEY) {
        return None;
    }
    match TopVia::of(&alloc, &request, SOURCE) {
        Ok(top) => Some(call.take_request(request, KEY, &top, SOURCE, now)),
        Err(_) => None,
    }
}

/// Whether a turn goes as it is told.
fn goes(alloc: Global, call: &mut Call, now: u64, turn: Turn) -> bool {
    match turn {
        Turn::HasNumber(number) => call.number() == number,
        Turn::IsDue(at) => call.due() == Some(at),
        Turn::Sends(causes) => sends_for(call, now, causes),
        Turn::Rests => is_idle(call, now),
        Turn::Takes(start, vias, cseq, wanted) => {
            takes(alloc, call, now, start, vias, cseq, wanted)
        }
        Turn::Answers(start, vias, cseq, wanted) => {
            answered(alloc, call, now, start, vias, cseq) == Some(wanted)
        }
        Turn::Asks(start, vias, cseq, wanted) => {
            asked(alloc, call, now, start, vias, cseq) == Some(wanted)
        }
        Turn::Fails(cause) => call.failed(cause, now).is_ok(),
        Turn::HasPosted(count) => call.book().history().len() == count,
        Turn::GoesOn => !call.over(),
        Turn::WaitsFor(n, until) => call.waits_until(n) == until,
        Turn::ServerIsDue(at) => call.server_due() == at,
    }
}

/// Checks that each turn of the call goes as it is told.
fn check(rt: &impl Abort, alloc: Global, history: &[Moment]) {
    match opened(alloc) {
        Some(mut call) => {
            for (now, turn, what) in history {
                holds(rt, goes(alloc, &mut call, *now, *turn), *what);
            }
        }
        None => holds(rt, false, "the call opens"),
    }
}

/// What a call sends first.
const FIRST_SENT: &[Cause] = &[Cause::Answer, Cause::Request(0), Cause::Request(1)];

const SENDING: &[Moment] = &[
    (0, Turn::HasNumber(3), "its number"),
    (0, Turn::IsDue(0), "the 100 is owed"),
    (0, Turn::Sends(FIRST_SENT), "the 100 and the requests"),
    (0, Turn::Rests, "nothing more"),
    (0, Turn::IsDue(500), "timer A is next"),
    (
        0,
        Turn::ServerIsDue(None),
        "the caller waits, and no timer runs for it",
    ),
    (
        0,
        Turn::WaitsFor(0, Some(181_000)),
        "timer C runs since the request was sent",
    ),
    (
        500,
        Turn::Sends(&[Cause::Request(0), Cause::Request(1)]),
        "both again",
    ),
    (500, Turn::GoesOn, "it is not over"),
];

#[test]
fn a_call_sends_what_is_due(rt: HostRuntime) {
    check(&rt, rt.alloc(), SENDING);
}

const TAKING: &[Moment] = &[
    (0, Turn::Sends(FIRST_SENT), "the first datagrams"),
    (
        20,
        Turn::Takes(RINGING, (FIRST, CALLER), INVITING, Ok(Taken::Posted(0))),
        "the first rings",
    ),
    (20, Turn::Sends(&[Cause::Answer]), "that goes up"),
    (
        20,
        Turn::Takes(OKAY, (SECOND, CALLER), INVITING, Ok(Taken::Posted(1))),
        "the second accepts",
    ),
    (
        20,
        Turn::Sends(&[Cause::Answer, Cause::Cancel(0)]),
        "the 200 goes up, the first is cancelled",
    ),
    (
        20,
        Turn::Takes(OKAY, (SECOND, CALLER), INVITING, Ok(Taken::Posted(2))),
        "the 200 comes again",
    ),
    (
        20,
        Turn::Answers(OKAY, (SECOND, CALLER), INVITING, Ok(Taken::Posted(3))),
        "and again, its branch being known",
    ),
    (
        20,
        Turn::Answers(OKAY, (OTHER, CALLER), INVITING, Err(TakeFault::Stray)),
        "the 200 of another call, its branch being known",
    ),
    (20, Turn::HasPosted(4), "four events"),
    (
        20,
        Turn::WaitsFor(0, Some(32_020)),
        "the first, which was cancelled, is given up then",
    ),
    (20, Turn::WaitsFor(1, None), "the second has ended"),
    (
        20,
        Turn::ServerIsDue(Some(32_020)),
        "timer L runs since the 200 went up",
    ),
];

#[test]
fn a_call_takes_its_messages(rt: HostRuntime) {
    check(&rt, rt.alloc(), TAKING);
}

/// The Via line of the first branch of another call.
const OTHER: &[u8] =
    b"Via: SIP/2.0/UDP 192.0.2.9:5060;branch=z9hG4bK8c31e71e0ddbf1a0e56f5f0279990857.7.4.0";

const TELLING: &[Moment] = &[
    (0, Turn::Sends(FIRST_SENT), "the first datagrams"),
    (
        20,
        Turn::Takes(RINGING, (OTHER, CALLER), INVITING, Err(TakeFault::Stray)),
        "a response to another call",
    ),
    (
        20,
        Turn::Fails(Cause::Request(0)),
        "the first request was lost",
    ),
    (20, Turn::HasPosted(1), "its branch has ended"),
    (
        20,
        Turn::Takes(
            b"CANCEL sip:bob@example.com SIP/2.0",
            (CALLER, NO_VIA),
            CANCELLING,
            Ok(Taken::Posted(1)),
        ),
        "the caller cancels",
    ),
    (20, Turn::Sends(&[Cause::CancelOk]), "the 200 to the CANCEL"),
    (
        20,
        Turn::Asks(
            b"CANCEL sip:bob@example.com SIP/2.0",
            (CALLER, NO_VIA),
            CANCELLING,
            Ok(Taken::Absorbed),
        ),
        "it comes again, and was read before",
    ),
    (20, Turn::Sends(&[Cause::CancelOk]), "the 200 to that"),
];

#[test]
fn a_call_tells_strays_and_failures(rt: HostRuntime) {
    check(&rt, rt.alloc(), TELLING);
}

// ---- a call that is prepared before it has its number

/// Where the answers to the caller go, whose Via value asks for no other port.
const ANSWERED: Hop = Hop {
    addr: [192, 0, 2, 1],
    port: 5060,
    transport: Transport::Udp,
};

/// Whether the next datagram of a call is this one, its cause apart.
fn sends_like(call: &mut Call, wanted: &Datagram) -> bool {
    match next_sent(call, 0) {
        Some(sent) => sent.to == wanted.to && sent.bytes == wanted.bytes,
        None => false,
    }
}

/// Whether the next datagrams of two calls are the same.
fn send_alike(one: &mut Call, other: &mut Call) -> bool {
    match next_sent(one, 0) {
        Some(sent) => sends_like(other, &sent),
        None => false,
    }
}

/// Whether so many of them are.
fn always_send_alike(one: &mut Call, other: &mut Call, count: u32) -> bool {
    let mut well = true;
    for _ in 0..count {
        well = well && send_alike(one, other);
    }
    well
}

/// Whether a call begins as that does which opens.
fn begins_alike(alloc: Global, other: &mut Call) -> bool {
    match opened(alloc) {
        Some(mut call) => always_send_alike(&mut call, other, 3),
        None => false,
    }
}

#[test]
fn a_prepared_call_is_the_one_that_opens(rt: HostRuntime) {
    let alloc = rt.alloc();
    match numbered(alloc) {
        Some(mut call) => {
            holds(&rt, call.number() == 3, "the number that it got");
            holds(&rt, call.caller() == ANSWERED, "where the answers go");
            holds(
                &rt,
                begins_alike(alloc, &mut call),
                "the 100 and the requests",
            );
        }
        None => holds(&rt, false, "both open"),
    }
}

/// What the INVITE opens with a setup, of whose top Via value was read before.
fn prepared_read(alloc: Global, setup: &Setup<Global>) -> Option<PendingCall> {
    let invite = message_of(alloc, INVITE, (CALLER, NO_VIA), INVITING)?;
    if !is_openable(&invite) {
        return None;
    }
    let opening = opening_of(alloc, invite);
    let Ok(top) = TopVia::of(&alloc, &opening.request, opening.source) else {
        return None;
    };
    match PendingCall::new_read(setup, None, opening, &top) {
        Ok(prepared) => Some(prepared),
        Err(_) => None,
    }
}

/// Whether what the INVITE opens gives that back where it is not kept.
fn is_given_back(alloc: Global) -> bool {
    let Some(setup) = setup_of(alloc, SETUP) else {
        return false;
    };
    match prepared_read(alloc, &setup) {
        Some(prepared) => prepared.into_request().is_invite(),
        None => false,
    }
}

/// Whether what the INVITE is prepared as names the URI that it came for, and opens a call with a setup.
fn opens_as_prepared(alloc: Global, setup: &Setup<Global>, invite: Message<Global>) -> bool {
    if !is_openable(&invite) {
        return false;
    }
    let opening = opening_of(alloc, invite);
    let Ok(top) = TopVia::of(&alloc, &opening.request, opening.source) else {
        return false;
    };
    let Ok(prepared) = prepare_read(setup, opening, &top) else {
        return false;
    };
    let named = prepared.uri().user() == Some(b"bob".as_slice())
        && prepared.source() == SOURCE
        && prepared.caller() == ANSWERED
        && prepared.request().is_invite();
    match PendingCall::of(setup, None, alloc, prepared) {
        Ok(call) => named && call.into_request().is_invite(),
        Err(_) => false,
    }
}

/// The same of the setup with two locations.
fn opens_in_two_steps(alloc: Global) -> Option<bool> {
    let setup = setup_of(alloc, SETUP)?;
    let invite = message_of(alloc, INVITE, (CALLER, NO_VIA), INVITING)?;
    Some(opens_as_prepared(alloc, &setup, invite))
}

#[test]
fn a_call_opens_as_its_request_was_prepared(rt: HostRuntime) {
    let well = opens_in_two_steps(rt.alloc()) == Some(true);
    holds(&rt, well, "in two steps");
}

#[test]
fn a_call_that_is_not_kept_gives_its_request_back(rt: HostRuntime) {
    holds(&rt, is_given_back(rt.alloc()), "its INVITE");
}

/// Whether what the INVITE opens becomes the first call of a shelf, under a key that then is taken.
fn is_put<R: Wait>(rt: &R, alloc: Global) -> bool {
    let Ok(shelf) = Shelf::<Call>::new(alloc) else {
        return false;
    };
    match (prepared(alloc), Vec::from_slice(alloc, b"a")) {
        (Some(prepared), Ok(key)) => {
            shelf.put_pending(rt, key, prepared).ok() == Some(0) && shelf.keyed(rt, b"a") == Some(0)
        }
        _ => false,
    }
}

#[test]
fn a_prepared_call_is_put_on_a_shelf(rt: HostRuntime) {
    holds(&rt, is_put(&rt, rt.alloc()), "the first call");
}
