//! What holds of every history of a fork.
ghost use Rattle.fork_model.specs.ExactlyOne.{OpeningIsUnfinished, ExactlyOneFinal, NoFinalBefore, NoFinalBesideSuccess, FinalAtTheEnd, FinalAtTheEndAlone, RowsStay, NothingFinalFollows, StandsByItsHistory, OutcomesAreReplies, ExactlyOneFinalOfContext, NoFinalBeforeOfContext, NoFinalBesideSuccessOfContext, RowsOfContextStay, NothingFinalFollowsOfContext};

/// With at least one target the opening table has a branch that has not ended (RFC 3261 section 16.6).
///
/// A law over the definitions, with nothing to run.
pub fn opening_is_unfinished()
    ensures { OpeningIsUnfinished }
{}

/// Once every branch has ended and no 2xx came, exactly one final answer has gone up, and it is the choice of the
/// table (RFC 3261 section 16.7 steps 5, 6 and 10).
///
/// A law over the definitions, with nothing to run. It holds for every list of targets but the empty one, whatever
/// the rules, and for every history of answers, timeouts, faults and cancels, strays among them. While a branch has
/// not ended nothing final goes up, nor where a 2xx came.
pub fn exactly_one_final()
    ensures exactly_one { ExactlyOneFinal }
    ensures none_before { NoFinalBefore }
    ensures none_beside_success { NoFinalBesideSuccess }
{}

/// The final answer goes up with the event that ends the last branch where no 2xx came, and with no other (RFC 3261
/// section 16.7 steps 5 and 6).
///
/// A law over the definitions, with nothing to run. It holds at any table: an event that ends the last branch brings
/// neither a provisional answer nor a 2xx of its own, so the final answer is never kept back.
pub fn final_at_the_end()
    ensures at_the_end { FinalAtTheEnd }
    ensures alone { FinalAtTheEndAlone }
{}

/// Once every branch has ended, whatever follows leaves the rows as they are, and nothing final goes up again (RFC
/// 3261 section 16.7 step 10).
///
/// A law over the definitions, with nothing to run. So the answer that went up stays the choice of the table.
pub fn finished_stays()
    ensures rows_stay { RowsStay }
    ensures none_follows { NothingFinalFollows }
{}

/// A context that refuses strays past its limit answers exactly one final answer too: what it refused is no part of
/// its history (RFC 3261 section 16.7). Nothing final goes up before every branch has ended, nor where a 2xx came, and
/// nothing final follows.
///
/// A law over the definitions, with nothing to run. Behind it stands that a context is where the history of the events
/// that it took leads, and that what it answers are the replies to these.
pub fn exactly_one_final_of_context()
    ensures stands_by_history { StandsByItsHistory }
    ensures replies { OutcomesAreReplies }
    ensures exactly_one { ExactlyOneFinalOfContext }
    ensures none_before { NoFinalBeforeOfContext }
    ensures none_beside_success { NoFinalBesideSuccessOfContext }
    ensures rows_stay { RowsOfContextStay }
    ensures none_follows { NothingFinalFollowsOfContext }
{}
