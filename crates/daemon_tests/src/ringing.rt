//! For how long telephones ring, what those are told that stop, and what an operator sees of it.
use crate::holds::holds;
use crate::played::{Moment, PLAIN, Played, Turn, plays_by};
use crate::texts::{
    BOB, CALLER, CANCEL, CAROL, CAROL_AFTERWARDS, CAROL_ELSEWHERE, INVITE, Request,
};
use std::alloc::Global;
use std::sync::Wait;
use std::time::Clock;

/// Each telephone rings for 15 seconds at most.
const FIFTEEN: &[u8] =
    b"# carol's telephones\nown 192.0.2.9 5060\ninstance 7\ndomain example.com\nring 15\n\ntrust 192.0.2.0/24\nlocation carol 1000 sip:carol@192.0.2.5\nlocation carol 500 sip:carol@192.0.2.6\n";

/// The same, where the second one alone has the time of the line `ring`.
const FIRST_ALONE: &[u8] =
    b"own 192.0.2.9 5060\ninstance 7\ndomain example.com\nring 60\ntrust 192.0.2.0/24\nlocation carol 1000 sip:carol@192.0.2.5 15\nlocation carol 500 sip:carol@192.0.2.6\n";

/// An INVITE to carol, whose second telephone is called behind the first one.
const TO_CAROL: Request = Request {
    uri: "sip:carol@example.com",
    ..INVITE
};

const REASON: &str = "\r\nReason:";

/// The first telephone rings and says so again: it is cancelled at 15 seconds, without a Reason, and behind its answer the second one is called.
const GROUPS: &[Moment] = &[
    (500, Turn::Asks(TO_CAROL)),
    (500, Turn::Sends(CALLER, "SIP/2.0 100 ", "one")),
    (500, Turn::Sends(CAROL, "INVITE ", "one")),
    (
        500,
        Turn::Told(
            0,
            "0 0 192.0.2.1:5060 INVITE carol calling waiting\nno more\n",
        ),
    ),
    (
        1_500,
        Turn::Answers(CAROL, "INVITE", "one", "SIP/2.0 180 Ringing"),
    ),
    (1_500, Turn::Sends(CALLER, "SIP/2.0 180 ", "one")),
    (
        10_500,
        Turn::Answers(CAROL, "INVITE", "one", "SIP/2.0 180 Ringing"),
    ),
    (10_500, Turn::Sends(CALLER, "SIP/2.0 180 ", "one")),
    (
        12_500,
        Turn::ToldOf(
            0,
            "0 12000 192.0.2.1:5060 INVITE carol proceeding waiting\ntarget 0 proceeding since 1000 left 3000 sip:carol@192.0.2.5\ntarget 1 waiting since - left - sip:carol@192.0.2.6\n",
        ),
    ),
    (15_499, Turn::Ticks),
    (15_499, Turn::SendsNothing),
    (15_500, Turn::Ticks),
    (15_500, Turn::Sends(CAROL, "CANCEL ", "one")),
    (15_500, Turn::Lacks(REASON)),
    (15_500, Turn::SendsNothing),
    (16_000, Turn::Ticks),
    (16_000, Turn::Sends(CAROL, "CANCEL ", "one")),
    (
        16_000,
        Turn::ToldOf(
            0,
            "0 15500 192.0.2.1:5060 INVITE carol cancelled waiting\ntarget 0 cancelled since 15000 left 31500 sip:carol@192.0.2.5\ntarget 1 waiting since - left - sip:carol@192.0.2.6\n",
        ),
    ),
    (
        16_020,
        Turn::Answers(CAROL, "CANCEL", "one", "SIP/2.0 200 OK"),
    ),
    (
        16_020,
        Turn::Answers(CAROL, "INVITE", "one", "SIP/2.0 487 Request Terminated"),
    ),
    (16_020, Turn::Sends(CAROL, "ACK ", "one")),
    (16_020, Turn::Sends(CAROL_AFTERWARDS, "INVITE ", "one")),
    (16_020, Turn::SendsNothing),
    (
        16_020,
        Turn::Told(
            0,
            "0 15520 192.0.2.1:5060 INVITE carol 487 calling\nno more\n",
        ),
    ),
    (
        17_500,
        Turn::Answers(CAROL_AFTERWARDS, "INVITE", "one", "SIP/2.0 200 OK"),
    ),
    (17_500, Turn::Sends(CALLER, "SIP/2.0 200 ", "one")),
    (17_500, Turn::Told(0, "no more\n")),
    (
        17_500,
        Turn::ToldOf(
            0,
            "0 17000 192.0.2.1:5060 INVITE carol 487 answered\ntarget 0 487 since 15520 left - sip:carol@192.0.2.5\ntarget 1 answered since 17000 left - sip:carol@192.0.2.6\n",
        ),
    ),
    (17_500, Turn::ToldOf(1, "unknown call 1\n")),
    (50_000, Turn::Passes(17_500)),
    (50_000, Turn::Keeps(0, 1)),
    (
        50_000,
        Turn::Writes(
            "0 INVITE sip:carol@example.com from <sip:alice@example.com>;tag=1 call-id one answered\ntarget 0 rang 180 at 1000, rang 180 at 10000, timed out at 15000, cancelled at 15000, 487 at 15520\ntarget 1 answered 200 at 17000\n",
        ),
    ),
    (50_000, Turn::ToldOf(0, "unknown call 0\n")),
];

/// The same telephones for five seconds each, but for the first one's sixty.
const FIVE: &[u8] =
    b"own 192.0.2.9 5060\ninstance 7\ndomain example.com\nring 5\ntrust 192.0.2.0/24\nlocation carol 1000 sip:carol@192.0.2.5 60\nlocation carol 500 sip:carol@192.0.2.6\n";

/// A second call to carol.
const AGAIN: Request = Request {
    call: "again",
    ..TO_CAROL
};

/// The configuration is read anew while the first telephone rings. That call goes on as it was opened; in the next one the first telephone answers with
/// another contact, which rings for as long as the new `ring` says, and not as the line of the first one.
const READ_ANEW: &[Moment] = &[
    (0, Turn::Asks(TO_CAROL)),
    (
        10,
        Turn::Answers(CAROL, "INVITE", "one", "SIP/2.0 180 Ringing"),
    ),
    (1_000, Turn::Reloads(FIVE, Ok(()))),
    (2_000, Turn::Asks(AGAIN)),
    (
        2_010,
        Turn::Answers(
            CAROL,
            "INVITE",
            "again",
            "SIP/2.0 302 Moved Temporarily\r\nContact: <sip:carol@192.0.2.7>",
        ),
    ),
    (2_010, Turn::Skips),
    (
        2_020,
        Turn::Answers(CAROL_ELSEWHERE, "INVITE", "again", "SIP/2.0 180 Ringing"),
    ),
    (2_020, Turn::Sends(CALLER, "SIP/2.0 180 ", "again")),
    (7_009, Turn::Ticks),
    (7_009, Turn::SendsNothing),
    (7_010, Turn::Ticks),
    (7_010, Turn::Sends(CAROL_ELSEWHERE, "CANCEL ", "again")),
    (7_010, Turn::Lacks(REASON)),
    (7_010, Turn::SendsNothing),
    (
        7_020,
        Turn::Answers(CAROL_ELSEWHERE, "CANCEL", "again", "SIP/2.0 200 OK"),
    ),
    (
        7_020,
        Turn::Answers(
            CAROL_ELSEWHERE,
            "INVITE",
            "again",
            "SIP/2.0 487 Request Terminated",
        ),
    ),
    (7_020, Turn::Sends(CAROL_AFTERWARDS, "INVITE ", "again")),
    (7_020, Turn::Sends(CAROL_ELSEWHERE, "ACK ", "again")),
    (
        7_030,
        Turn::Answers(CAROL_AFTERWARDS, "INVITE", "again", "SIP/2.0 200 OK"),
    ),
    (7_030, Turn::Sends(CALLER, "SIP/2.0 200 ", "again")),
    (14_999, Turn::Ticks),
    (14_999, Turn::SendsNothing),
    (15_000, Turn::Ticks),
    (15_000, Turn::Sends(CAROL, "CANCEL ", "one")),
    (15_000, Turn::SendsNothing),
];

/// Two telephones of bob, which are called at once.
const TWO: &[u8] =
    b"own 192.0.2.9 5060\ninstance 7\ndomain example.com\ntrust 192.0.2.0/24\nlocation bob 1000 sip:bob@192.0.2.4\nlocation bob 1000 sip:bob@192.0.2.5\n";

/// Both ring.
const RINGING: [Moment; 7] = [
    (0, Turn::Asks(INVITE)),
    (0, Turn::Sends(CALLER, "SIP/2.0 100 ", "one")),
    (0, Turn::Sends(BOB, "INVITE ", "one")),
    (0, Turn::Sends(CAROL, "INVITE ", "one")),
    (
        10,
        Turn::Answers(BOB, "INVITE", "one", "SIP/2.0 180 Ringing"),
    ),
    (
        10,
        Turn::Answers(CAROL, "INVITE", "one", "SIP/2.0 180 Ringing"),
    ),
    (10, Turn::Skips),
];

const ELSEWHERE: &str =
    "\r\nReason: SIP;cause=200;text=\"Call completed elsewhere\"\r\nContent-Length: 0\r\n";

/// One answers: the other one is told so.
const ANSWERED: [Moment; 4] = [
    (20, Turn::Answers(BOB, "INVITE", "one", "SIP/2.0 200 OK")),
    (20, Turn::Sends(CALLER, "SIP/2.0 200 ", "one")),
    (20, Turn::Sends(CAROL, "CANCEL ", "one")),
    (20, Turn::Has(ELSEWHERE)),
];

/// The caller's CANCEL with this line.
const REASONED: Request = Request {
    lines: "Reason: SIP;cause=487;text=\"x\"\r\n",
    ..CANCEL
};

/// The caller gives up and says why: both are told that, and nothing else.
const GIVEN_UP: [Moment; 7] = [
    (20, Turn::Asks(REASONED)),
    (20, Turn::Sends(CALLER, "SIP/2.0 200 ", "one")),
    (20, Turn::Sends(BOB, "CANCEL ", "one")),
    (
        20,
        Turn::Has("\r\nReason: SIP;cause=487;text=\"x\"\r\nContent-Length: 0\r\n"),
    ),
    (20, Turn::Sends(CAROL, "CANCEL ", "one")),
    (
        20,
        Turn::Has("\r\nReason: SIP;cause=487;text=\"x\"\r\nContent-Length: 0\r\n"),
    ),
    (20, Turn::Lacks("elsewhere")),
];

/// The caller gives up without a word: no Reason is given.
const GIVEN_UP_SILENTLY: [Moment; 6] = [
    (20, Turn::Asks(CANCEL)),
    (20, Turn::Sends(CALLER, "SIP/2.0 200 ", "one")),
    (20, Turn::Sends(BOB, "CANCEL ", "one")),
    (20, Turn::Lacks(REASON)),
    (20, Turn::Sends(CAROL, "CANCEL ", "one")),
    (20, Turn::Lacks(REASON)),
];

/// One declines for all: the other one is told with which status.
const DECLINED: [Moment; 4] = [
    (
        20,
        Turn::Answers(BOB, "INVITE", "one", "SIP/2.0 603 Decline"),
    ),
    (20, Turn::Sends(BOB, "ACK ", "one")),
    (20, Turn::Sends(CAROL, "CANCEL ", "one")),
    (
        20,
        Turn::Has("\r\nReason: SIP;cause=603\r\nContent-Length: 0\r\n"),
    ),
];

/// Whether a call to two telephones that ring goes on so.
fn ends_so<R: Wait + Clock>(rt: &R, alloc: Global, end: &[Moment]) -> bool {
    match Played::new(alloc, alloc, TWO, PLAIN) {
        Some(mut played) => {
            played.played(rt, &RINGING) == RINGING.len() && played.played(rt, end) == end.len()
        }
        None => false,
    }
}

#[test]
fn a_telephone_rings_for_so_long_and_the_next_is_called(rt: HostRuntime) {
    plays_by(&rt, rt.alloc(), FIFTEEN, PLAIN, GROUPS, "two groups");
    plays_by(
        &rt,
        rt.alloc(),
        FIRST_ALONE,
        PLAIN,
        GROUPS,
        "a time of its own",
    );
    plays_by(
        &rt,
        rt.alloc(),
        FIFTEEN,
        PLAIN,
        READ_ANEW,
        "read anew, and a contact",
    );
}

#[test]
fn who_stops_ringing_is_told_why(rt: HostRuntime) {
    let ends: [(&[Moment], &str); 4] = [
        (&ANSWERED, "another answered"),
        (&GIVEN_UP, "the caller gave up, and said why"),
        (&GIVEN_UP_SILENTLY, "the caller gave up"),
        (&DECLINED, "another declined"),
    ];
    for (end, what) in ends {
        holds(&rt, ends_so(&rt, rt.alloc(), end), what);
    }
}
