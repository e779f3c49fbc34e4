//! What holds of every call over whole runs.
ghost use Rattle.call_laws.specs.Answers.{CallsPayInOrder, OneFinalAnswerGoesUp};
ghost use Rattle.call_laws.specs.EachDatagram.{EachDatagramIsRight};
ghost use Rattle.call_laws.specs.Right.{BegunStands, StepsStand};
ghost use Rattle.call_laws.specs.Sending.{WhatIsSentIsRight};
ghost use Rattle.call_laws.specs.Successes.{EachSuccessGoesUp};

use call_model::{
    branches_keep_their_answers, branches_keep_what_they_send, calls_know_what_closed_them,
    calls_stay_sound, parts_go_on, repeats_are_the_same,
};
use fork_model::{branches_go_on, exactly_one_final, rows_keep_their_numbers};

/// What a call keeps to be sent is right as it begins to its targets, and each step of a sound call keeps it so: what
/// each branch sends again is as it was made, the branch with the best stored answer keeps the response that was posted
/// at its arrival, each failure that is kept and each ACK that is owed comes from a response that came to that branch,
/// and each 200 that is owed from a CANCEL that came. The finals of its log are those that were handed to its caller's
/// transaction and those that are still owed, and until one was handed, in a call without a 2xx, the transaction waits
/// for it. Where it may send an answer again, one was sent (RFC 3261 sections 9.1, 16.6, 16.7, 17.1.1.3 and 17.2).
///
/// A law over the definitions, with nothing to run.
pub fn calls_send_right()
    ensures begun { BegunStands }
    ensures kept { StepsStand }
{
    branches_keep_what_they_send();
    branches_keep_their_answers();
    branches_go_on();
}

/// Each datagram of a call that keeps what is right, as [`calls_send_right`] has it, is what its cause says, and goes
/// where the cause says: an ACK answers a failure that came from the branch, a 200 to a CANCEL is made of a CANCEL that
/// came, and what is sent to the caller again was sent before (RFC 3261 sections 8.2.6, 9.1, 16.6, 16.7, 17.1.1.3 and
/// 17.2).
///
/// A law over the definitions, with nothing to run.
#[tactic(auto, using(crate::proofs::Sending::sent_right))]
pub fn what_is_sent_is_right()
    ensures { WhatIsSentIsRight }
{}

/// What a call comes to owe to its caller is paid once, in the order in which it came to be owed, or is still owed: a
/// 100 is the generated one, a provisional response and a 2xx go up as they came, a 200 to a CANCEL goes where that
/// CANCEL is answered, and the final answer is sent. An answer that the server transaction is handed and does not send
/// is dropped: the final answer to an INVITE never is, the final answer to another request only where an answer could
/// not be sent before, and a 2xx to an INVITE only once the transaction has ended (RFC 3261 sections 16.7 and 17.2).
///
/// A law over the definitions, with nothing to run.
pub fn calls_pay_in_order()
    ensures { CallsPayInOrder }
{
    calls_send_right();
    calls_stay_sound();
    exactly_one_final();
}

/// Once every branch of a call has ended, none with a 2xx, and nothing is owed to its caller any more, one final answer
/// was handed to the caller's transaction, and no other: the choice of the fork. Where the choice is a branch whose
/// answer came, the final answer is the very response that came from this branch, and was posted as the event that
/// stored its answer, as it goes up, with the contacts left and the challenges that are due; where the answer of the
/// branch was assumed, or none is stored, it is a generated 408; where all that is stored is 503, a generated 500 (RFC
/// 3261 section 16.7 steps 4 to 9).
///
/// A law over the definitions, with nothing to run.
pub fn one_final_answer_goes_up()
    ensures { OneFinalAnswerGoesUp }
{
    calls_send_right();
    calls_stay_sound();
    exactly_one_final();
}

/// Each 2xx that a branch of an INVITE answers, and that is posted, comes to be owed to the caller by that turn, whichever
/// branch it is of and however many came before it. Once nothing is owed any more it was paid, at its place in the order in
/// which all came to be owed: it was sent with its own bytes behind the proxy's Via value, or it was dropped since the caller's
/// transaction had ended (RFC 3261 sections 13.3.1.4 and 16.7 step 5, RFC 6026 section 7.1).
///
/// A law over the definitions, with nothing to run.
pub fn each_success_goes_up()
    ensures { EachSuccessGoesUp }
{
    calls_pay_in_order();
    calls_stay_sound();
    branches_go_on();
}

/// Each datagram that a run of a call sends, from the beginning of the call on, is what its cause says, of that very run. The
/// request to a branch and its CANCEL are those that were sent before, where one was; the CANCEL has the Reason lines of what
/// closed the table in this run, and none where timer C had fired for the branch when it was made. An ACK answers a failure that
/// came from the branch and was not answered by one before, and a 200 to a CANCEL a CANCEL that came. What the caller is answered
/// is the answer that was sent last, the 100 of the proxy, a response that came from a branch and was posted, or the final
/// answer by the choice of the fork (RFC 3261 sections 8.2.6, 9.1, 16.6, 16.7, 17.1.1.3 and 17.2, RFC 3326).
///
/// A law over the definitions, with nothing to run.
pub fn each_datagram_is_right()
    ensures { EachDatagramIsRight }
{
    calls_send_right();
    what_is_sent_is_right();
    calls_stay_sound();
    calls_know_what_closed_them();
    branches_keep_what_they_send();
    repeats_are_the_same();
    parts_go_on();
    exactly_one_final();
    rows_keep_their_numbers();
    branches_go_on();
}
