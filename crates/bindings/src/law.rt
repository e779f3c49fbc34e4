//! What holds of the bindings of a user after any history of requests.
ghost use Rattle.std.specs.Prelude.{◌≡◌, ◌≤◌, ◌↔◌, ℕ, List, length, true};
ghost use Rattle.bindings.specs.Bindings.{Binding, Register, is_there, there};
ghost use Rattle.bindings.specs.History.{Attempt, Differ, EachPair, IsIn, IsRun, Stands, bindings_after, kept, taken};

/// Whatever REGISTER requests a user's bindings are given, one after another, what they are is the fold of those that were taken: one that
/// was refused, for want of memory too, has left no trace.
///
/// A law over the definitions, with nothing to run.
pub fn what_is_kept_is_the_fold()
    ensures { (run : List Attempt) → IsRun run → kept run ≡ bindings_after (taken run) }
{}

/// At each moment exactly those bindings are there that a request which was taken asked for, before their end, unless a later one that was
/// taken came at or after their end or took them away (RFC 3261 section 10.3).
///
/// A law over the definitions, with nothing to run.
pub fn those_that_stand_are_there()
    ensures { (history : List Register) (moment : ℕ) (binding : Binding) → IsIn binding (there moment (bindings_after history))
        ↔ (Stands history binding × (is_there moment binding ≡ true)) }
{}

/// No two bindings that one request made name the same binding.
///
/// A law over the definitions, with nothing to run.
pub fn those_of_one_request_differ()
    ensures { (history : List Register) → EachPair Differ (bindings_after history) }
{}

/// No user has more than sixteen bindings.
///
/// A law over the definitions, with nothing to run.
pub fn they_are_sixteen_at_most()
    ensures { (history : List Register) → length (bindings_after history) ≤ 16 }
{}
