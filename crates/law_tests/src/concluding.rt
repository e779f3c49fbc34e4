//! Calls from their opening to their last answer, by calls alone, as programs make them; the laws of runs say of each that what came
//! to be owed was paid in order, that one final answer went up, and that each datagram is right. So what the contracts promise is
//! what the laws ask for.
ghost use Rattle.std.specs.Prelude.{◌≡◌, true};
ghost use Rattle.fork_call.specs.Opening.{IsOpenable};
ghost use Rattle.law_tests.specs.Played.{EndsRight, HasEnded, IsPlayed, PlayedCallsEndRight};

use crate::playing::{Coming, come, holds, is_carried, is_ended, open, pump_to, read_message};
use crate::port::Awaiting;
use call_messages::Sent;
use call_messages::one_target::{
    ACK_SENT, CALLER, FAULT_UP, INVITE, INVITE_SENT, NOT_FOUND, NOT_FOUND_UP, RINGING, RINGING_UP,
    SETUP, TARGET, TRYING,
};
use fork_call::{
    Call, Port, Setup, calls_have_stages, each_datagram_is_right, each_success_goes_up,
    is_openable, one_final_answer_goes_up, opened_calls_pay_in_order,
};
use sip_text::Message;
use std::alloc::Global;

/// What the laws of runs say of each call that is played from its opening to its end.
///
/// A law over the definitions, with nothing to run.
fn played_calls_end_right()
    ensures { PlayedCallsEndRight }
{
    calls_have_stages();
    opened_calls_pay_in_order();
    one_final_answer_goes_up();
    each_success_goes_up();
    each_datagram_is_right();
}

/// Plays an INVITE that is answered 180 and then 404, by what comes and is carried, and says whether the call has ended.
fn is_answered<P: Port>(alloc: Global, call: &mut Call, port: &mut P) -> bool
    ensures played { IsPlayed call.old call.new }
    ensures ended { result ≡ true → HasEnded call.new }
{
    let ringing: Coming = (20, TARGET, RINGING);
    let not_found: Coming = (30, TARGET, NOT_FOUND);
    is_carried(call, port, 0);
    come(alloc, call, port, ringing);
    come(alloc, call, port, not_found);
    is_ended(call, port, 60)
}

/// Plays an INVITE whose request is lost as it is sent, by one pump after another, and says whether the call has ended.
fn is_lost<P: Port>(call: &mut Call, port: &mut P) -> bool
    ensures played { IsPlayed call.old call.new }
    ensures ended { result ≡ true → HasEnded call.new }
{
    pump_to(call, port, 0);
    pump_to(call, port, 0);
    pump_to(call, port, 0);
    is_ended(call, port, 0)
}

/// Whether the call that a request opens ends right where the request is answered, or where it is lost.
fn ends_right<P: Port>(
    alloc: Global,
    setup: &Setup<Global>,
    request: Message<Global>,
    port: &mut P,
    lost: bool,
) -> bool
    requires { IsOpenable request.start }
    ensures { result ≡ true → EndsRight setup.now request CALLER }
{
    played_calls_end_right();
    let Some(mut call) = open(alloc, setup, request) else {
        return false;
    };
    if lost {
        is_lost(&mut call, port)
    } else {
        is_answered(alloc, &mut call, port)
    }
}

/// What the call sends whose INVITE is answered.
const ANSWERED: &[&Sent] = &[&TRYING, &INVITE_SENT, &RINGING_UP, &NOT_FOUND_UP, &ACK_SENT];

/// What the call sends whose INVITE is lost.
const LOST: &[&Sent] = &[&TRYING, &INVITE_SENT, &FAULT_UP];

/// Whether the call of the INVITE ends right, and sends this.
fn is_right(alloc: Global, wanted: &'static [&'static Sent], lost: Option<u32>) -> bool {
    let mut port = Awaiting::new(wanted, lost);
    match (Setup::read(alloc, SETUP), read_message(alloc, INVITE)) {
        (Ok(setup), Some(request)) => {
            is_openable(&request)
                && ends_right(alloc, &setup, request, &mut port, lost.is_some())
                && port.is_content()
        }
        _ => false,
    }
}

#[test]
fn the_laws_conclude_of_a_call(rt: HostRuntime) {
    holds(
        &rt,
        is_right(rt.alloc(), ANSWERED, None),
        "an INVITE that is answered 180 and 404",
    );
    holds(
        &rt,
        is_right(rt.alloc(), LOST, Some(1)),
        "an INVITE that is lost",
    );
}
