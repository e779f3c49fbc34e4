//! What holds of every call.
ghost use Rattle.fork_call.specs.Answered.{EachDatagramIsRight, EachSuccessGoesUp, OneFinalAnswerGoesUp, OpenedCallsPayInOrder};
ghost use Rattle.fork_call.specs.Naming.{DestinationsLeadToTargets, OwnAnswersAreToTheRequest, RequestsNameTheirTargets};
ghost use Rattle.fork_call.specs.Refused.{OneFaultHolds};
ghost use Rattle.fork_call.specs.Runs.{CallsHaveStages};

use call_laws::calls_pay_in_order;
use sip_build::{stripping_keeps_answers, stripping_keeps_timestamps};

/// Any list of calls on a call, each as its contract says, is a run of the relation of calls: of `take`, `pump`, `failed` and
/// `carry`, which makes many steps, and of those that were refused. The law gives its stages: each turn, with the call that it
/// led to. Each turn has the moment of its call, and for a message the transaction that it belongs to; each posts at most one
/// event, which then stands last in the book with its reply; and what the turns send is what `carry` handed to its ports and
/// `pump` gave, in that order (RFC 3261 sections 16 and 17).
///
/// A law over the definitions, with nothing to run.
#[tactic(auto, using(crate::proofs::Running::calls_have_stages))]
pub fn calls_have_stages()
    ensures { CallsHaveStages }
{}

/// In each run of a call that opened, what comes to be owed to its caller is paid once, in the order in which it came to be owed,
/// or is still owed. The final answer to an INVITE is never dropped, that to another request only where an answer could not be
/// sent before (RFC 3261 sections 16.7 and 17.2).
///
/// A law over the definitions, with nothing to run.
pub fn opened_calls_pay_in_order()
    ensures { OpenedCallsPayInOrder }
{
    calls_pay_in_order();
}

/// In each run of a call that opened, once every branch has ended, none with a 2xx, and nothing is owed to its caller any more,
/// one final answer was handed to the caller's transaction, and no other: the choice of the fork, made of the very response that
/// came from the branch and was posted as the event that stored its answer, with the contacts left and the challenges that are
/// due, or a generated 408, or a generated 500 for a 503 (RFC 3261 section 16.7 steps 4 to 9).
///
/// A law over the definitions, with nothing to run.
pub fn one_final_answer_goes_up()
    ensures { OneFinalAnswerGoesUp }
{
    call_laws::one_final_answer_goes_up();
}

/// In each run of a call that opened for an INVITE, each 2xx that a branch answers, and that is posted, comes to be owed to the
/// caller by that turn. Once nothing is owed any more it was paid, at its place in the order in which all came to be owed: sent
/// with its own bytes behind the proxy's Via value, or dropped since the caller's transaction had ended (RFC 3261 sections
/// 13.3.1.4 and 16.7 step 5, RFC 6026 section 7.1).
///
/// A law over the definitions, with nothing to run.
pub fn each_success_goes_up()
    ensures { EachSuccessGoesUp }
{
    call_laws::each_success_goes_up();
}

/// What a call that opened generates is generated of the request that came, as it was marked with its source. Each target that it
/// began with is sent to by the hop of that target, and a request that goes there names the Request-URI of the target as that was
/// given (RFC 3261 sections 8.2.6, 16.4, 16.5, 16.6 and 18.2.1).
///
/// A law over the definitions, with nothing to run.
pub fn datagrams_go_back_to_the_request()
    ensures answers { OwnAnswersAreToTheRequest }
    ensures requests { RequestsNameTheirTargets }
    ensures targets { DestinationsLeadToTargets }
{
    stripping_keeps_answers();
    stripping_keeps_timestamps();
}

/// In each run of a call that opened, each datagram that is sent is what its cause says, of that very run: a request to a branch
/// or its CANCEL is the one that was sent before, where one was; a request to a target that the call began with names that target
/// and goes to its hop; a CANCEL says what closed the table in this run; an ACK answers a failure that came from the branch and
/// that none answered before; a 200 to a CANCEL is made of a CANCEL that came; and what the caller is answered is the answer that
/// was sent last, the 100 of the proxy, a response that came from a branch and was posted, or the final answer by the choice of
/// the fork (RFC 3261 sections 8.2.6, 9.1, 16.6, 16.7, 17.1.1.3 and 17.2, RFC 3326).
///
/// A law over the definitions, with nothing to run.
pub fn each_datagram_is_right()
    ensures { EachDatagramIsRight }
{
    call_laws::each_datagram_is_right();
    datagrams_go_back_to_the_request();
}

/// A request that opens no call has one fault: where one holds that has a name, no call opens, and no other such fault holds. So
/// [`Call::open`](crate::Call::open) answers that fault then, or that the allocator refused (RFC 3261 sections 16.3 to 16.6).
///
/// A law over the definitions, with nothing to run.
#[tactic(auto, using(crate::proofs::Refused::one_fault_holds))]
pub fn one_fault_holds()
    ensures { OneFaultHolds }
{}
