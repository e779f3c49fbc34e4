//! Which texts are scripts, and that what the program prints is determined.
ghost use Rattle.fork_program.specs.Grammar.{ReadAlike, ReadExactly, RefusedByFirst, SpelledOnce};
ghost use Rattle.fork_program.specs.One.{OneReplay};
ghost use Rattle.fork_program.specs.RightListing.{ReplaysEndInRightListings, RightListingsAreShort, RightListingsAreAnsweredYes};

use fork_listing::{
    accepted_listing_tells_the_choice, listings_of_forks_are_right, right_texts_are_accepted,
    the_choice_is_listed_first,
};
use fork_model::order_is_strict_and_total;

/// A script is read of exactly the texts that spell it: what is spelled is read, and nothing else. Any other text is
/// refused by exactly its first malformed line: some script begins with the lines before it, none with that line behind
/// them; a line that is missing has the number that it would have.
///
/// A law over the definitions, with nothing to run.
pub fn script_is_read_exactly()
    ensures exactly { ReadExactly }
    ensures refused { RefusedByFirst }
{}

/// Two texts are read as one script exactly where they say the same: a rule may be left out of one and written as the usual
/// one in the other, and the contacts of an answer may stand otherwise among its challenges. Each text is spelled in one
/// way.
///
/// A law over the definitions, with nothing to run.
pub fn texts_of_one_script_say_the_same()
    ensures alike { ReadAlike }
    ensures once { SpelledOnce }
{}

/// A script has one replay: the replies to its events follow from them, and so does how its fork stands at the end, with
/// the listing of a fork that is done (RFC 3261 section 16.7).
///
/// A law over the definitions, with nothing to run.
pub fn a_script_has_one_replay()
    ensures { OneReplay }
{}

/// Where the fork of a script is done without a 2xx, what a replay prints from its line `fork` on is a right listing, not too long
/// to be checked; and where such a text is checked, the answer is `yes`, with the status 0 (RFC 3261 section 16.7 steps 5
/// and 6).
///
/// A law over the definitions, with nothing to run.
pub fn replays_are_answered_yes()
    ensures right { ReplaysEndInRightListings }
    ensures short { RightListingsAreShort }
    ensures answered { RightListingsAreAnsweredYes }
{
    order_is_strict_and_total();
    the_choice_is_listed_first();
    accepted_listing_tells_the_choice();
    listings_of_forks_are_right();
    right_texts_are_accepted();
}
