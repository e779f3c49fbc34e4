//! Laws of taking the proxy's own Route value away, and of the keys of requests.

ghost use Rattle.std.specs.Prelude.{◌≡◌, ◌≢◌, ℕ, false, List, None, map};
ghost use Rattle.sip_lex.specs.Bytes.{trim};
ghost use Rattle.sip_route.specs.Hops.{hops_name};
ghost use Rattle.sip_route.specs.RequestKey.{IsSameSender, via_key};
ghost use Rattle.sip_route.specs.RouteValues.{route_values, without_own};
ghost use Rattle.sip_route.specs.Routes.{route_name, stripped};
ghost use Rattle.sip_text.specs.Name.{first_value, same_name, values_of};
ghost use Rattle.sip_text.specs.Text.{MessageText};
ghost use Rattle.sip_via.specs.declared.own.Own.{Own};
ghost use Rattle.sip_via.specs.ViaGrammar.{IsVia};
ghost use Rattle.sip_via.specs.ViaParts.{ViaText};

/// What a request is without its first Route value, where that leads to the proxy (RFC 3261 section
/// 16.4): start line and body are as before, and so are the values of each other header field,
/// Max-Forwards among them; of the Route values, in all its lines, the first is gone where it leads to
/// the proxy, and no other. Space round a value does not count.
pub fn stripping_keeps_the_rest()
    ensures start { (m : MessageText) (own : Own) → (stripped m own).start ≡ m.start }
    ensures body { (m : MessageText) (own : Own) → (stripped m own).body ≡ m.body }
    ensures others { (m : MessageText) (own : Own) (name : List ℕ) → same_name route_name name ≡ false
        → values_of name (stripped m own).headers ≡ values_of name m.headers }
    ensures hops { (m : MessageText) (own : Own)
        → first_value hops_name (stripped m own).headers ≡ first_value hops_name m.headers }
    ensures routes { (m : MessageText) (own : Own)
        → map trim (route_values (stripped m own)) ≡ map trim (without_own own (route_values m)) }
{}

/// The key of a request tells who sent it and its branch (RFC 3261 section 17.2.3): two Via values have
/// one key exactly where they name the same host, in any case, the same port and the same branch. Where
/// a value names no branch it has no key.
pub fn keys_tell_senders()
    ensures same { (text other : List ℕ) (a b : ViaText) → IsVia text a → IsVia other b → via_key a ≢ None
        → via_key a ≡ via_key b → IsSameSender a b }
    ensures key { (a b : ViaText) → IsSameSender a b → via_key a ≡ via_key b }
{}
