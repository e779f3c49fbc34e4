//! The Route value that names the proxy.

ghost use Rattle.std.specs.Prelude.{◌≡◌, Some};
ghost use Rattle.std.specs.Option.{option_copied};
ghost use Rattle.sip_route.specs.Routes.{bracketed, hop_at_text, is_own, names_own};

use sip_lex::{Shelter, cut_at, cut_outside};
use sip_uri::{Hop, read_hop};
use sip_via::Own;

/// The name of the field, in lower case.
pub(crate) const ROUTE: &[u8] = b"route";

/// What stands in the first angle brackets outside quotes.
pub(crate) fn bracketed(value: &[u8]) -> Option<&[u8]>
    ensures { option_copied result ≡ bracketed value.now }
{
    let (text, rest) = cut_at(cut_outside(value, b'<', Shelter::Quotes).1?, b'>');
    rest?;
    Some(text)
}

/// Where a request to the URI of a Route value is sent, if it has a SIP URI with a next hop.
pub(crate) fn hop_of(value: &[u8]) -> Option<Hop>
    ensures { result ≡ hop_at_text (bracketed value.now) }
{
    read_hop(bracketed(value)?)
}

/// Whether a hop leads to the proxy itself: to its address and port, over whatever transport (RFC 3261 section 16.4).
pub fn is_own(own: Own, hop: Option<Hop>) -> bool
    ensures { result ≡ is_own own hop }
{
    match hop {
        None => false,
        Some(hop) => hop.addr == own.addr && hop.port == own.port,
    }
}

/// Whether the URI of a Route value, in its angle brackets, leads to the proxy itself (RFC 3261 section 16.4). A value without
/// angle brackets leads nowhere.
pub fn leads_to_proxy(own: Own, value: &[u8]) -> bool
    ensures { result ≡ names_own own value.now }
{
    is_own(own, hop_of(value))
}
