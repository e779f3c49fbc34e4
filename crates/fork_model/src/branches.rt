//! What a branch that is open still takes, and what the events of others do to it.
ghost use Rattle.fork_model.specs.OpenBranches.{EventsFitOrStray, FittingEventsAreTaken, OthersAreLeft, OthersStayOpen};

/// An open branch takes an answer, a timeout and a transport error; in an INVITE it takes timer C until its CANCEL is
/// sent, and from then on the end of the wait for its answer. An INVITE takes the caller's CANCEL as long as it is not
/// closed. Each of these changes the table, so that none is ever refused as one event too many; and besides the first
/// provisional of a branch, nothing else changes it (RFC 3261 sections 16.7 to 16.10).
///
/// A law over the definitions, with nothing to run.
pub fn open_branches_take_events()
    ensures exact { EventsFitOrStray }
    ensures never_refused { FittingEventsAreTaken }
{}

/// An event leaves the branches open that it does not name: a 2xx, a 6xx or the caller's CANCEL may have the CANCEL of a
/// branch sent that has rung, and the branch goes on until it is answered or given up (RFC 3261 sections 9.1, 16.7 step 10
/// and 16.10). A branch that waits may be tried, or be left for good; one that has ended keeps its end.
///
/// A law over the definitions, with nothing to run.
pub fn others_stay_open()
    ensures exact { OthersAreLeft }
    ensures stay { OthersStayOpen }
{}
