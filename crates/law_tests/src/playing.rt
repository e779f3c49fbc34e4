//! Calls on a call, as programs make them: what their contracts promise is a run of answers, as the laws take it.
ghost use Rattle.std.specs.Prelude.{◌≡◌, false, true, IfSome};
ghost use Rattle.call_model.specs.Due.{IsIdle};
ghost use Rattle.fork_call.specs.Opening.{IsOpenable, Opens};
ghost use Rattle.law_tests.specs.Played.{HasEnded, IsPlayed};

use call_messages::one_target::CALLER;
use fork_call::{Call, Cause, Datagram, Port, Setup, Step, carry};
use sip_text::Message;
use sip_uri::Hop;
use std::alloc::Global;
use std::process::Abort;

/// A message that comes at this moment from this hop.
pub type Coming = (u64, Hop, &'static [u8]);

/// Ends the test where this does not hold.
pub fn holds(rt: &impl Abort, well: bool, what: &str) {
    assert!(rt; well, "{what}");
}

/// The message that a text spells.
pub fn read_message(alloc: Global, text: &[u8]) -> Option<Message<Global>> {
    match Message::read(alloc, text) {
        Ok(message) => Some(message),
        Err(_) => None,
    }
}

/// The call that a request of the caller opens.
pub fn open(alloc: Global, setup: &Setup<Global>, request: Message<Global>) -> Option<Call>
    requires { IsOpenable request.start }
    ensures { IfSome result (Opens setup.now 3 request CALLER) }
{
    match Call::open(alloc, setup, 3, request, CALLER, 0) {
        Ok(call) => Some(call),
        Err(_) => None,
    }
}

/// Gives a call a message.
fn take(call: &mut Call, message: Message<Global>, from: Hop, now: u64)
    ensures { IsPlayed call.old call.new }
{
    message.is_message();
    let _taken = call.take(message, from, now);
}

/// What a step sends.
fn sent_by(step: Step<Global>) -> Option<Datagram<Global>> {
    match step {
        Step::Send(datagram) => Some(datagram),
        Step::Did => None,
        Step::Idle => None,
    }
}

/// Does one thing that is due of a call, and answers what is to be sent then.
fn pump(call: &mut Call, now: u64) -> Option<Datagram<Global>>
    ensures { IsPlayed call.old call.new }
{
    match call.pump(now) {
        Ok(step) => sent_by(step),
        Err(_) => None,
    }
}

/// Tells a call of a datagram that could not be sent.
fn fail(call: &mut Call, cause: Cause, now: u64)
    ensures { IsPlayed call.old call.new }
{
    let _told = call.failed(cause, now);
}

/// Carries what a call has to send, and says whether nothing is due then.
pub fn is_carried<P: Port>(call: &mut Call, port: &mut P, now: u64) -> bool
    ensures played { IsPlayed call.old call.new }
    ensures idle { result ≡ true → IsIdle call.new now }
{
    match carry(call, port, now) {
        Ok(carried) => !carried.more,
        Err(_) => false,
    }
}

/// Gives a call the message of a text, if it is one, and carries what the call then has to send.
#[tactic(auto, using(crate::proofs::Played::not_played))]
pub fn come<P: Port>(alloc: Global, call: &mut Call, port: &mut P, coming: Coming)
    ensures { IsPlayed call.old call.new }
{
    let (now, from, text) = coming;
    let Some(message) = read_message(alloc, text) else {
        return;
    };
    take(call, message, from, now);
    is_carried(call, port, now);
}

/// Pumps a call once, hands the port what is to be sent, and tells the call where that is lost.
pub fn pump_to<P: Port>(call: &mut Call, port: &mut P, now: u64)
    ensures { IsPlayed call.old call.new }
{
    let Some(datagram) = pump(call, now) else {
        return;
    };
    if port.send(&datagram) {
        return;
    }
    fail(call, datagram.cause, now);
}

/// Whether a call has ended of which nothing is due: every branch has, none with a 2xx.
fn is_end(idle: bool, finished: bool, succeeded: bool) -> bool
    ensures idle { result ≡ true → idle ≡ true }
    ensures finished { result ≡ true → finished ≡ true }
    ensures failed { result ≡ true → succeeded ≡ false }
{
    idle && finished && !succeeded
}

/// Carries what a call still has to send, and says whether it has ended then: every branch has, none with a 2xx, and nothing is
/// owed.
pub fn is_ended<P: Port>(call: &mut Call, port: &mut P, now: u64) -> bool
    ensures played { IsPlayed call.old call.new }
    ensures ended { result ≡ true → HasEnded call.new }
{
    let idle = is_carried(call, port, now);
    let context = call.book().context();
    is_end(idle, context.finished(), context.succeeded())
}
