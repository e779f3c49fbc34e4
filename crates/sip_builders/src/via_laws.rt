//! What a message that is built has of the Via values of the one that it is built from.

ghost use Rattle.std.specs.Prelude.{◌≡◌, ◌<◌, ◌≤◌, ◌∷◌, ℕ, drop, true, List, Option};
ghost use Rattle.fork_model.specs.Table as table;
ghost use Rattle.sip_text.specs.Text.{MessageText};
ghost use Rattle.sip_uri.specs.Uri.{Uri};
ghost use Rattle.sip_branch.specs.declared.branch.BranchName.{BranchName};
ghost use Rattle.sip_via.specs.declared.own.Own.{Own};
ghost use Rattle.sip_branch.specs.BranchText.{IsBranch};
ghost use Rattle.sip_via.specs.OwnPass.{IsOwnBranch};
ghost use Rattle.sip_via.specs.OwnVia.{IsOwn, own_via};
ghost use Rattle.sip_via.specs.TopVia.{has_second, via_values};
ghost use Rattle.sip_build.specs.Forwarding.{forwarded};
ghost use Rattle.sip_build.specs.Upward.{upward_of};

/// Of the Via values of a response, in all its lines, the first alone is gone where it goes upstream (RFC 3261
/// section 16.7 step 3).
pub fn upward_loses_the_top_via()
    ensures { (m : MessageText) (kept : Option (List (List ℕ))) (challenges : List table.Challenge)
        → has_second (via_values m) ≡ true → via_values (upward_of m kept challenges) ≡ drop 1 (via_values m) }
{}

/// The Via values of a request, in all its lines, stand behind the proxy's own where it goes to a target (RFC 3261
/// section 16.6 step 8).
pub fn forwarding_puts_the_own_via_first()
    ensures { (m : MessageText) (target : Uri) (own : Own) (branch : BranchName) (recorded : Option (List ℕ)) → IsOwn own → IsBranch branch
        → via_values (forwarded m target own branch recorded) ≡ own_via own branch ∷ via_values m }
{}

/// The proxy's own Via value is read, and names the proxy's address, its port and the branch that was written, so a
/// response finds its target by it (RFC 3261 sections 16.7 step 1 and 18.1.2).
pub fn own_via_is_read()
    ensures { (own : Own) (branch : BranchName) → IsOwn own → IsBranch branch → 0 < own.port → own.port ≤ 65535
        → IsOwnBranch own (own_via own branch) branch }
{}
