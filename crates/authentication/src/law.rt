//! Laws of admission.
ghost use Rattle.std.specs.Prelude.{◌≡◌, false};
ghost use Rattle.sip_text.specs.Text.{MessageText};
ghost use Rattle.authentication.specs.declared.decision.Arrival.{Arrival};
ghost use Rattle.authentication.specs.declared.decision.Rule.{Rule};
ghost use Rattle.authentication.specs.Decision.{Admission, Decision, IsDecision, MayOpen, Opens};

/// A request is opened from a source that is not trusted only where it belongs to a dialog that went by the proxy, where credentials came
/// with it that are right, and it is from their user or anonymous, or where strangers are served, and it is for a user of the domain who has
/// a place. So nobody who is not trusted and has no password gets a request sent to anywhere else.
///
/// A law over the definitions, with nothing to run.
pub fn strangers_open_nothing_else()
    ensures { (admission : Admission) (arrival : Arrival) (m : MessageText) (decision : Decision) (rule : Rule)
        → IsDecision admission arrival m decision → decision ≡ Opens rule → arrival.trusted ≡ false → MayOpen admission arrival m rule }
{}

/// A request is decided in one way alone: of the rows, in their order, one holds.
///
/// A law over the definitions, with nothing to run.
pub fn requests_are_decided_in_one_way()
    ensures { (admission : Admission) (arrival : Arrival) (m : MessageText) (decision other : Decision)
        → IsDecision admission arrival m decision → IsDecision admission arrival m other → decision ≡ other }
{}
