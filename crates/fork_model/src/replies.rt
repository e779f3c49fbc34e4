//! What is answered to an event is determined.
ghost use Rattle.fork_model.specs.OneReply.{HistoryOfArrivals, SomeChoice, OneChoice, SomeReply, OneReply, OneOutcome};
ghost use Rattle.fork_model.specs.OneHistory.{OneHistory};

/// In every history the stored answers arrived apart, each by an event of its own (RFC 3261 section 16.7 step 5).
///
/// A law over the definitions, with nothing to run.
pub fn arrivals_differ()
    ensures { HistoryOfArrivals }
{}

/// Each table has a choice, and that of a history has one alone (RFC 3261 section 16.7 step 6).
///
/// A law over the definitions, with nothing to run: "the best response" of a fork is one response.
pub fn each_history_has_one_choice()
    ensures some { SomeChoice }
    ensures one { OneChoice }
{}

/// Each event has a reply at each table, and in a history one alone (RFC 3261 section 16.7). So has each event that is
/// offered to a context: it is refused, or answered in one way; and so have all events of a history.
///
/// A law over the definitions, with nothing to run: what a caller sees follows from the history.
pub fn each_event_has_one_reply()
    ensures some { SomeReply }
    ensures one { OneReply }
    ensures of_context { OneOutcome }
    ensures of_history { OneHistory }
{}
