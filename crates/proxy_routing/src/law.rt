//! Laws of taking the proxy's own Route values and the credentials for its realm away.
ghost use Rattle.std.specs.Prelude.{◌≡◌, ℕ, codes, drop, false, List, map, Ok, Option, true};
ghost use Rattle.sip_lex.specs.Bytes.{trim};
ghost use Rattle.sip_text.specs.Name.{first_value, same_name, values_of};
ghost use Rattle.sip_text.specs.Text.{MessageText};
ghost use Rattle.sip_uri.specs.declared.hop.Hop.{Hop};
ghost use Rattle.sip_via.specs.ReadTop.{IsTopOf, ReadTop, reply_if_read};
ghost use Rattle.sip_via.specs.Received.{marked, reply_of};
ghost use Rattle.sip_via.specs.TopVia.{top_value};
ghost use Rattle.sip_via.specs.ViaParts.{via_of};
ghost use Rattle.sip_route.specs.Hops.{hops_name};
ghost use Rattle.sip_route.specs.Routes.{route_name};
ghost use Rattle.sip_route.specs.RouteValues.{first_route, route_values};
ghost use Rattle.proxy_config.specs.Setup.{Setup, route_of};
ghost use Rattle.proxy_routing.specs.Admission.{IsPrepared};
ghost use Rattle.proxy_routing.specs.OwnCredentials.{IsWithoutOwnCredentials};
ghost use Rattle.proxy_routing.specs.OwnRoutes.{leads_home, without_own_routes};

use sip_route::stripping_keeps_the_rest;

/// What a request is without the Route values at its front that the proxy takes away (RFC 3261 section 16.4): start line and
/// body are as before, and so are the values of each other header field, Max-Forwards among them; of the Route values, in
/// all its lines, some at the front are gone, and no other, where space round a value does not count. Where the proxy is a
/// service the first Route value that is left does not lead to the proxy, so no request goes to the proxy itself by one.
///
/// A law over the definitions, with nothing to run.
pub fn taking_own_routes_keeps_the_rest()
    ensures start { (setup : Setup) (m : MessageText) → (without_own_routes setup m).start ≡ m.start }
    ensures body { (setup : Setup) (m : MessageText) → (without_own_routes setup m).body ≡ m.body }
    ensures others { (setup : Setup) (m : MessageText) (name : List ℕ) → same_name route_name name ≡ false
        → values_of name (without_own_routes setup m).headers ≡ values_of name m.headers }
    ensures hops { (setup : Setup) (m : MessageText)
        → first_value hops_name (without_own_routes setup m).headers ≡ first_value hops_name m.headers }
    ensures routes { (setup : Setup) (m : MessageText)
        → (n : ℕ) × (map trim (route_values (without_own_routes setup m)) ≡ drop n (map trim (route_values m))) }
    ensures first { (setup : Setup) (m : MessageText) → setup.for_service ≡ true
        → leads_home setup.own (route_of setup) (first_route (without_own_routes setup m)) ≡ false }
{
    stripping_keeps_the_rest();
}

/// What a request is without the credentials for a realm (RFC 3261 section 22.3): it is determined, start line and body are as
/// before, and so are the values of each header field but Proxy-Authorization, Max-Forwards and Route among them.
///
/// A law over the definitions, with nothing to run.
pub fn taking_credentials_keeps_the_rest()
    ensures one { (realm : Option (List ℕ)) (m a b : MessageText) → IsWithoutOwnCredentials realm m a → IsWithoutOwnCredentials realm m b → a ≡ b }
    ensures start { (realm : Option (List ℕ)) (m request : MessageText) → IsWithoutOwnCredentials realm m request → request.start ≡ m.start }
    ensures body { (realm : Option (List ℕ)) (m request : MessageText) → IsWithoutOwnCredentials realm m request → request.body ≡ m.body }
    ensures others { (realm : Option (List ℕ)) (m request : MessageText) (name : List ℕ) → IsWithoutOwnCredentials realm m request
        → same_name (codes "proxy-authorization") name ≡ false → values_of name request.headers ≡ values_of name m.headers }
    ensures hops { (realm : Option (List ℕ)) (m request : MessageText) → IsWithoutOwnCredentials realm m request
        → first_value hops_name request.headers ≡ first_value hops_name m.headers }
{}

/// Where the response to a request goes, by what was read of its top Via value as it came (RFC 3261 section 18.2.2): where the request
/// says it once it has its source, and as it is prepared, since neither a Route value nor credentials are Via values.
///
/// A law over the definitions, with nothing to run.
pub fn what_was_read_tells_the_reply()
    ensures marked { (m with_source : MessageText) (source : Hop) (top : Option ReadTop) → IsTopOf m source top → marked m source ≡ Ok with_source
        → reply_if_read top source ≡ reply_of (via_of (top_value with_source)) source }
    ensures prepared { (setup : Setup) (m request : MessageText) (source : Hop) (top : Option ReadTop) → IsTopOf m source top → IsPrepared setup m source request
        → reply_if_read top source ≡ reply_of (via_of (top_value request)) source }
{
    taking_own_routes_keeps_the_rest();
    taking_credentials_keeps_the_rest();
}
