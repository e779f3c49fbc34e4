//! What holds of a call that is over.
ghost use Rattle.call_laws.specs.Quiet.{OverCallsAreQuiet, OverCallsHaveNothingDue, QuietCallsStayQuiet};

use fork_model::finished_stays;

/// A call that is over, since every branch has ended, every transaction is over and nothing is owed, has nothing due at any
/// moment. Whatever it is given from then on, it is over after, but for the 200s that it owes to the CANCELs that came: a
/// repeated request, an ACK and a response are absorbed, a CANCEL is owed its 200 and may stand in the log, where it moves no
/// branch and hands nothing up, a datagram that could not be sent changes nothing, and all that a pump sends is such a 200. So a
/// call that is over may be forgotten: but for those 200s, no datagram that it would have sent is lost (RFC 3261 sections 9.2
/// and 17).
///
/// A law over the definitions, with nothing to run.
pub fn calls_that_are_over_are_quiet()
    ensures over { OverCallsAreQuiet }
    ensures due { OverCallsHaveNothingDue }
    ensures stay { QuietCallsStayQuiet }
{
    finished_stays();
}
