//! What the messages that are built have to do with one another.

ghost use Rattle.std.specs.Prelude.{◌≡◌, ℕ, List, [], Option, codes, true};
ghost use Rattle.sip_text.specs.Text.{HeaderText, MessageText};
ghost use Rattle.sip_uri.specs.Uri.{Uri};
ghost use Rattle.sip_branch.specs.declared.branch.BranchName.{BranchName};
ghost use Rattle.sip_via.specs.declared.own.Own.{Own};
ghost use Rattle.sip_branch.specs.BranchText.{IsBranch};
ghost use Rattle.sip_via.specs.OwnVia.{IsOwn};
ghost use Rattle.sip_route.specs.Routes.{stripped};
ghost use Rattle.sip_build.specs.declared.responses.OwnStatus.{OwnStatus};
ghost use Rattle.sip_build.specs.Forwarding.{forwarded, is_request};
ghost use Rattle.sip_build.specs.Generated.{generated_of, timestamp_lines};
ghost use Rattle.sip_build.specs.Requests.{ack_of, along_to, cancel_of, to_value};

/// A response of the proxy's own to a request whose first Route value was taken away is the one to the
/// request as it came, so the request may be kept in that form alone (RFC 3261 sections 8.2.6 and 16.4).
pub fn stripping_keeps_answers()
    ensures { (m : MessageText) (own : Own) (status : OwnStatus) (further : List HeaderText)
        → generated_of (stripped m own) status further ≡ generated_of m status further }
{}

/// So is the Timestamp that a 100 takes from it (RFC 3261 section 8.2.6.1).
pub fn stripping_keeps_timestamps()
    ensures { (m : MessageText) (own : Own) → timestamp_lines (stripped m own) ≡ timestamp_lines m }
{}

/// The ACK for a failure of a request that was forwarded is told by the request that came in, its target and the
/// branch, and so no request has to be kept in the form that was sent (RFC 3261 section 17.1.1.3).
pub fn ack_of_a_forwarded_request()
    ensures { (m response : MessageText) (target : Uri) (own : Own) (branch : BranchName) (recorded : Option (List ℕ))
        → is_request m.start ≡ true → IsOwn own → IsBranch branch
        → ack_of (forwarded m target own branch recorded) response
        ≡ along_to (codes "ACK") m target own branch (to_value response) [] }
{}

/// The CANCEL of a request that was forwarded is told by the same parts, and has the To of the request (RFC 3261
/// section 9.1).
pub fn cancel_of_a_forwarded_request()
    ensures { (m : MessageText) (target : Uri) (own : Own) (branch : BranchName) (recorded : Option (List ℕ)) (reasons : List HeaderText)
        → is_request m.start ≡ true → IsOwn own → IsBranch branch
        → cancel_of (forwarded m target own branch recorded) reasons
        ≡ along_to (codes "CANCEL") m target own branch (to_value m) reasons }
{}
