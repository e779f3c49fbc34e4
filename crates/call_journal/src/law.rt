//! What a reader of a journal may rely on.
ghost use Rattle.std.specs.Prelude.{◌≡◌, ◌<◌, ◌^◌, ℕ, List, false, true};
ghost use Rattle.sip_lex.specs.Cut.{Lacks};
ghost use Rattle.fork_model.specs.Core.{Core};
ghost use Rattle.fork_model.specs.Choice.{IsFirst};
ghost use Rattle.fork_model.specs.Rank.{Score};
ghost use Rattle.fork_model.specs.Table.{Row, Rules, is_finished, is_succeeded};
ghost use Rattle.fork_context.specs.Led.{IsLedTo};
ghost use Rattle.call_journal.specs.declared.head.CallRecord.{CallRecord};
ghost use Rattle.call_journal.specs.declared.notes.Note.{Note};
ghost use Rattle.call_journal.specs.Block.{IsBlock, IsFailedBlock};
ghost use Rattle.call_journal.specs.Head.{head_text};
ghost use Rattle.call_journal.specs.Why.{ReasonsAreRight};

use fork_listing::listings_of_forks_are_right;
use fork_model::targets_are_bounded;

/// No text of a caller's ends a line or makes a word of its own.
pub fn heads_are_lines()
    ensures { (h : CallRecord) → h.time < 2 ^ 64 → h.number < 2 ^ 64 → Lacks 10 (head_text h) }
{}

/// A call that failed is listed so that a check accepts it, behind a line that ends with the words that say why, and the lines of what its
/// targets did.
pub fn failed_calls_are_listed_right()
    ensures { (h : CallRecord) (core : Core) (notes : List Note) (text : List ℕ) → IsLedTo core → is_finished core.table.rows ≡ true → is_succeeded core.table.rows ≡ false
        → IsBlock h core.table notes text → IsFailedBlock h notes text }
{
    listings_of_forks_are_right();
    targets_are_bounded();
}

/// What each reason says: an answer that is the only one of its class is of a lower class than all others, one that is the only
/// one of its part of the class is of a lower part than all others of the class, and of its part none came earlier (RFC 3261
/// section 16.7 step 6).
pub fn reasons_are_right()
    ensures { (rules : Rules) (rows : List Row) (n : ℕ) (score : Score) → IsFirst rules rows n score → ReasonsAreRight rules rows n score }
{}
