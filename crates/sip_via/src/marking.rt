//! What marking does to a message, as laws of its definition: functions that do nothing, called for what they ensure.

ghost use Rattle.std.specs.Prelude.{◌≡◌, Err, IsOk, List, Ok, codes, false, true, ℕ};
ghost use Rattle.sip_text.specs.Name.{same_name, values_of};
ghost use Rattle.sip_text.specs.Text.{MessageText};
ghost use Rattle.sip_uri.specs.declared.hop.Hop.{Hop};
ghost use Rattle.sip_via.specs.declared.own.ViaFault.TheVariants.{BadVia};
ghost use Rattle.sip_via.specs.Received.{marked};
ghost use Rattle.sip_via.specs.TopVia.{top_value};
ghost use Rattle.sip_via.specs.ViaParts.{is_via};

/// A message is marked where its top Via value can be read, and refused as a `BadVia` elsewhere.
pub fn readable_is_marked()
    ensures marked { (m : MessageText) → (source : Hop) → is_via (top_value m) ≡ true → IsOk (marked m source) }
    ensures refused { (m : MessageText) → (source : Hop) → is_via (top_value m) ≡ false
        → marked m source ≡ Err BadVia }
{}

/// Marking leaves the start line, the body and the values of every other name as they were.
pub fn marking_keeps_the_rest()
    ensures start { (m n : MessageText) → (source : Hop) → marked m source ≡ Ok n → n.start ≡ m.start }
    ensures body { (m n : MessageText) → (source : Hop) → marked m source ≡ Ok n → n.body ≡ m.body }
    ensures others { (m n : MessageText) → (source : Hop) → marked m source ≡ Ok n → (name : List ℕ)
        → same_name (codes "via") name ≡ false → values_of name n.headers ≡ values_of name m.headers }
{}
