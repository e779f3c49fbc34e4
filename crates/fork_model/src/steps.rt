//! What every event leaves as it was, and how far a fork can go.
ghost use Rattle.fork_model.specs.Steps.{RowsKeepTheirNumbers, RowsAlwaysKeepTheirNumbers, BranchesGoOn, BranchesAlwaysGoOn, EventsMakeProgress, NoEventUndoesProgress, SettlingKeepsProgress, ProgressIsBounded, TargetsAreBounded, EachTargetHasARow, PositionsAreBounded, TakenIsBounded};

/// An event adds targets at most: each row stays under its number, the same target under the same parent in the same
/// group, and a closed table stays closed (RFC 3261 sections 16.5 and 16.7 step 4).
///
/// A law over the definitions, with nothing to run. It holds of one event and of any number of them.
pub fn rows_keep_their_numbers()
    ensures by_event { RowsKeepTheirNumbers }
    ensures always { RowsAlwaysKeepTheirNumbers }
{}

/// No event takes a branch back: one that has started never waits again, and one that has ended keeps its end, the
/// answer stored with it included (RFC 3261 section 16.7 steps 5 and 6).
///
/// A law over the definitions, with nothing to run. It holds of one event and of any number of them.
pub fn branches_go_on()
    ensures by_event { BranchesGoOn }
    ensures always { BranchesAlwaysGoOn }
{}

/// An event that is no stray moves a table on by a step at least; nothing takes it back, settling included, and it
/// goes on for four steps a target and one for its closing at most.
///
/// A law over the definitions, with nothing to run. So a fork ends, whatever happens to it.
pub fn events_make_progress()
    ensures by_event { EventsMakeProgress }
    ensures never_undone { NoEventUndoesProgress }
    ensures by_settling { SettlingKeepsProgress }
    ensures bounded { ProgressIsBounded }
{}

/// A table opens with a row for each initial target, and no event brings it past the 256 that may be tried for one
/// request, where it was not past them before (RFC 3261 sections 16.6 and 16.7 step 4).
///
/// A law over the definitions, with nothing to run.
pub fn targets_are_bounded()
    ensures at_first { EachTargetHasARow }
    ensures by_event { TargetsAreBounded }
{}

/// What a context has taken is bounded by its progress, and so by a number, however many events are offered to it.
///
/// A law over the definitions, with nothing to run. So a position fits any integer of 16 bits or more.
pub fn positions_are_bounded()
    ensures by_event { PositionsAreBounded }
    ensures always { TakenIsBounded }
{}
