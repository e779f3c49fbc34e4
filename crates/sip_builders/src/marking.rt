//! What marking does to the Via values of a message, as laws of its definition: functions that do nothing, called for what they
//! ensure.

ghost use Rattle.std.specs.Prelude.{◌≡◌, ◌∷◌, Ok, drop, true};
ghost use Rattle.sip_text.specs.Text.{MessageText};
ghost use Rattle.sip_uri.specs.declared.hop.Hop.{Hop};
ghost use Rattle.sip_via.specs.Received.{IsSource, marked, marked_value};
ghost use Rattle.sip_via.specs.TopVia.{top_value, via_values};
ghost use Rattle.sip_via.specs.ViaParts.{branch_of, is_via, via_of};

/// Marking changes the top Via value alone among the Via values (RFC 3261 section 18.2.1).
pub fn marking_changes_the_top_value()
    ensures { (m n : MessageText) → (source : Hop) → IsSource source → marked m source ≡ Ok n
        → via_values n ≡ marked_value source (top_value m) ∷ drop 1 (via_values m) }
{}

/// The top Via value of a marked message is read again.
pub fn marked_value_is_read()
    ensures { (m n : MessageText) → (source : Hop) → IsSource source → marked m source ≡ Ok n
        → is_via (top_value n) ≡ true }
{}

/// The top Via value of a marked message names the host, the port and the branch that it named before, so it is
/// matched to the same transaction (RFC 3261 section 17.2.3).
pub fn marking_keeps_the_sender()
    ensures host { (m n : MessageText) → (source : Hop) → IsSource source → marked m source ≡ Ok n
        → (via_of (top_value n)).host ≡ (via_of (top_value m)).host }
    ensures port { (m n : MessageText) → (source : Hop) → IsSource source → marked m source ≡ Ok n
        → (via_of (top_value n)).port ≡ (via_of (top_value m)).port }
    ensures branch { (m n : MessageText) → (source : Hop) → IsSource source → marked m source ≡ Ok n
        → branch_of (via_of (top_value n)) ≡ branch_of (via_of (top_value m)) }
{}
