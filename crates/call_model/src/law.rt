//! What holds of every call.
ghost use Rattle.call_model.specs.Again.{LastAnswerIsKept, RepeatsAreTheSame};
ghost use Rattle.call_model.specs.Behind.{BegunKeepsAnswers, FirstsStayOrCome, StepsKeepAnswers};
ghost use Rattle.call_model.specs.ClosedBy.{BegunKnowsClosing, ClosingStaysOrComes, StepsKnowClosing};
ghost use Rattle.call_model.specs.Datagrams.{BegunIsBuilt, StepsKeepBuilt};
ghost use Rattle.call_model.specs.Fitting.{CancelsAreTaken, FaultsAreTaken, GivingsUpAreTaken, TimeoutsAreTaken, TimerCsAreTaken};
ghost use Rattle.call_model.specs.Longest.{ShorterTimesStay, UsualTimesStart, UsualTimesStartAgain};
ghost use Rattle.call_model.specs.Parts.{FiringsEndOrCancel, StepsKeepParts};
ghost use Rattle.call_model.specs.Sound.{BegunIsSound, StepsKeepSound};

use fork_model::{
    branches_go_on, finished_stays, open_branches_take_events, others_stay_open,
    rows_keep_their_numbers, stored_answers_came,
};
use sip_text::header_values_are_values;

/// A branch keeps what its timers send again, its request and its CANCEL, as they were made: so a call begins, and no
/// step changes it (RFC 3261 sections 9.1, 16.6 and 17.1.1.2).
///
/// A law over the definitions, with nothing to run.
pub fn branches_keep_what_they_send()
    ensures begun { BegunIsBuilt }
    ensures kept { StepsKeepBuilt }
{}

/// What a call sends again is what it sent first: whatever happens to the call, all requests that it sends to a branch
/// are one datagram, byte for byte and to one hop, and so are all CANCELs; and what it keeps to send to its caller
/// again is the answer that it sent last (RFC 3261 sections 9.1, 17.1.1.2, 17.1.2.2 and 17.2).
///
/// A law over the definitions, with nothing to run.
pub fn repeats_are_the_same()
    ensures branches { RepeatsAreTheSame }
    ensures caller { LastAnswerIsKept }
{}

/// A call is sound as it begins to its targets, and each step keeps it so, where what a branch is given is a message with
/// another Via value behind the proxy's own: a branch whose transaction waits has not ended, an INVITE alone has timer C,
/// and what is kept for the caller can go up (RFC 3261 sections 16.7, 16.8 and 17.1).
///
/// A law over the definitions, with nothing to run.
pub fn calls_stay_sound()
    ensures begun { BegunIsSound }
    ensures kept { StepsKeepSound }
{
    stored_answers_came();
    rows_keep_their_numbers();
    finished_stays();
    others_stay_open();
    header_values_are_values();
}

/// The failure that the first branch keeps, which may go up as the final answer, is the response behind its stored
/// answer: where no stored answer ranks before that of a branch, and that answer came from it, then the response that
/// the branch keeps was posted as the event at the arrival of the answer. So it is as a call begins, and each step of a
/// sound call keeps it so; and where such a branch was not first before the step, with the same answer stored and the
/// same response kept, then by this step the response that the branch keeps came to it and was posted as that event
/// (RFC 3261 section 16.7 steps 4 to 6).
///
/// A law over the definitions, with nothing to run.
pub fn branches_keep_their_answers()
    ensures begun { BegunKeepsAnswers }
    ensures kept { StepsKeepAnswers }
    ensures firsts { FirstsStayOrCome }
{
    stored_answers_came();
    branches_go_on();
    rows_keep_their_numbers();
}

/// The events that a call posts by itself are always taken: each fits the table as it stands, so that it changes it, and the
/// book refuses none, however many events it holds. Those are a timeout of a branch's transaction, a datagram that could not
/// be sent, timer C, the end of the wait for a cancelled branch, and the caller's CANCEL where it is posted. So a timer that
/// fires is refused for want of memory alone (RFC 3261 sections 9.1, 9.2, 16.8, 16.9 and 17.1).
///
/// A law over the definitions, with nothing to run.
pub fn own_events_are_taken()
    ensures timeouts { TimeoutsAreTaken }
    ensures faults { FaultsAreTaken }
    ensures timer_c { TimerCsAreTaken }
    ensures give_up { GivingsUpAreTaken }
    ensures cancel { CancelsAreTaken }
{
    open_branches_take_events();
}

/// A call knows what closed its table as soon as the table is closed, and not before: so it is as a call begins, and each
/// step of a sound call keeps it so. A step leaves what closed the table, or by it the table is closed: by a 2xx that came to
/// a branch and is posted, by a 6xx, with its status, or by the caller's CANCEL, with its Reason lines (RFC 3261 sections 16.7
/// steps 5 and 10 and 16.10, RFC 3326).
///
/// A law over the definitions, with nothing to run.
pub fn calls_know_what_closed_them()
    ensures begun { BegunKnowsClosing }
    ensures kept { StepsKnowClosing }
    ensures by { ClosingStaysOrComes }
{
    rows_keep_their_numbers();
}

/// Where a branch is waited for as long as timer C is to run, timer C is that of RFC 3261: it starts when an INVITE is sent,
/// and anew with each provisional response but a 100. Where it is waited for less long, nothing prolongs that: timer C stays as
/// it was set when the request was sent, until it fires (sections 16.6 step 11, 16.7 step 2 and 16.8).
///
/// A law over the definitions, with nothing to run.
pub fn shorter_times_stay()
    ensures usual { UsualTimesStart }
    ensures again { UsualTimesStartAgain }
    ensures stay { ShorterTimesStay }
{}

/// What a step leaves of each branch: a CANCEL that was sent is kept, and one is sent where it is owed, once; timer C that has
/// fired does not run again; and a branch whose request is sent has no CANCEL yet, and timer C where it is an INVITE. Timer C
/// that fires for a branch of a sound call ends the branch, or leaves it without timer C (RFC 3261 sections 9.1 and 16.6 to
/// 16.8).
///
/// A law over the definitions, with nothing to run.
pub fn parts_go_on()
    ensures kept { StepsKeepParts }
    ensures fired { FiringsEndOrCancel }
{}
