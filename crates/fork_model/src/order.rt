//! The order of stored answers.
ghost use Rattle.fork_model.specs.StrictOrder.{Irreflexive, Transitive, TotalOnArrivals, Decided, BeforeTheRest, IrreflexiveOnRanks, TransitiveOnRanks, TotalOnRanks};

/// The order of stored answers is strict and total on arrivals, whatever the rules (RFC 3261 section 16.7 step 6).
///
/// A law over the definitions, with nothing to run. Each event has an arrival of its own, so of all answers stored in
/// a table exactly one is the first. The same holds of ranks, whichever rules gave them: of two that differ one goes
/// before the other.
pub fn order_is_strict_and_total()
    ensures irreflexive { Irreflexive }
    ensures transitive { Transitive }
    ensures total { TotalOnArrivals }
    ensures ranks_irreflexive { IrreflexiveOnRanks }
    ensures ranks_transitive { TransitiveOnRanks }
    ensures ranks_total { TotalOnRanks }
{}

/// Of two stored answers one can tell whether the first goes before the second, and what goes before a kept answer
/// goes before each that does not (RFC 3261 section 16.7 step 6).
///
/// A law over the definitions, with nothing to run: what a search for the first answer, one by one, rests on.
pub fn first_can_be_kept()
    ensures decided { Decided }
    ensures before_the_rest { BeforeTheRest }
{}
