//! What it means that a listing is right.
ghost use Rattle.fork_listing.specs.Meaning.{RightTellsTheChoice, AcceptedTellsTheChoice, TheChoiceIsFirst};
ghost use Rattle.fork_listing.specs.Spelled.{ReadExactly, RefusedByFirst};
ghost use Rattle.fork_listing.specs.One.{OneRanking, OneListing};
ghost use Rattle.fork_listing.specs.Accepted.{AcceptedTextsAreRight, RightTextsAreAccepted, ListingsAreRight};

/// Where `check` accepts a text, the answers listed are exactly those stored, each ranks before those behind it, and the
/// last line tells the answer that none stored ranks before, or a 500 in place of a 503, or a 408 where nothing is stored
/// (RFC 3261 section 16.7 step 6); and the first rank line tells of that same answer.
///
/// A law over the definitions, with nothing to run.
#[tactic(auto, using(crate::proofs::Meanings::right_tells, crate::proofs::Meanings::accepted_tells))]
pub fn accepted_listing_tells_the_choice()
    ensures right { RightTellsTheChoice }
    ensures accepted { AcceptedTellsTheChoice }
{}

/// A listing is read of exactly the text that spells it: what is spelled is read, and nothing else. Any other text is
/// refused by the number of its first line that is not of the form due in its place.
///
/// A law over the definitions, with nothing to run.
pub fn listing_is_read_exactly()
    ensures exactly { ReadExactly }
    ensures refused { RefusedByFirst }
{}

/// `check` accepts exactly the texts of right listings, want of memory aside.
///
/// A law over the definitions, with nothing to run.
pub fn right_texts_are_accepted()
    ensures accepted { AcceptedTextsAreRight }
    ensures right { RightTextsAreAccepted }
{}

/// Whatever has happened to a fork, its listing is right, so that `check` accepts it (RFC 3261 sections 16.5 to 16.7).
///
/// A law over the definitions, with nothing to run.
pub fn listings_of_forks_are_right()
    ensures { ListingsAreRight }
{}

/// All that a fork has stored, in order of rank, begins with the answer that goes up; where nothing is stored there is no
/// rank line (RFC 3261 section 16.7 step 6).
///
/// A law over the definitions, with nothing to run.
pub fn the_choice_is_listed_first()
    ensures { TheChoiceIsFirst }
{}

/// A fork that is done without a 2xx has one listing: what it has stored stands in one order of rank (RFC 3261 section
/// 16.7 step 6).
///
/// A law over the definitions, with nothing to run.
pub fn a_fork_has_one_listing()
    ensures ranking { OneRanking }
    ensures listing { OneListing }
{}
