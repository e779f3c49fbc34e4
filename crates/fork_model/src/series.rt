//! Groups of targets are tried one after the other.
ghost use Rattle.fork_model.specs.Series.{OpeningIsInSeries, EventsKeepSeries, AnEventStartsOneGroup, OneGroupStartsAtATime, GroupsStartWhole};

/// In the opening table, and after each event, every group that waits waits for a row that has not ended (RFC 3261
/// section 16.6).
///
/// A law over the definitions, with nothing to run.
pub fn groups_wait_in_series()
    ensures at_first { OpeningIsInSeries }
    ensures by_event { EventsKeepSeries }
{}

/// An event starts one group at most, whatever has happened to the fork before (RFC 3261 section 16.6).
///
/// A law over the definitions, with nothing to run.
pub fn one_group_starts_at_a_time()
    ensures by_event { AnEventStartsOneGroup }
    ensures always { OneGroupStartsAtATime }
{}

/// The rows of one group start together (RFC 3261 section 16.6).
///
/// A law over the definitions, with nothing to run.
pub fn groups_start_whole()
    ensures { GroupsStartWhole }
{}
