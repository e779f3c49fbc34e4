//! What a text says of the URI that it spells, without memory.

ghost use Rattle.std.specs.Prelude.{◌≡◌, ◌↔◌, IfOk, IfErr, None, Ok, Err, drop};
ghost use Rattle.sip_uri.specs.Fault.{fault_if_refused};
ghost use Rattle.sip_uri.specs.Grammar.{IsUri, IsUriText};
ghost use Rattle.sip_uri.specs.Hop.{hop_if_read, hop_of};
ghost use Rattle.sip_uri.specs.Reading.{parts_of, read_uri, uri_of};
ghost use Rattle.sip_uri.specs.inner.Seen.{parts};
ghost use Rattle.sip_uri.specs.Uri.{Uri, spelling};

use crate::checks::{begins_with_sip, first_fault};
use crate::cut::{UriParts, cut_body};
use crate::fault::UriFault;
use crate::hop::Hop;
use crate::next::hop_of;

/// The parts of the URI that a text spells, or its first fault.
pub(crate) fn cut_uri(text: &[u8]) -> Result<UriParts<'_>, UriFault>
    ensures parts { IfOk result (λ cut. parts cut ≡ parts_of (drop 4 text.now)) }
    ensures found { IfOk result (λ _. read_uri text.now ≡ Ok (uri_of text.now)) }
    ensures refused { IfErr result (λ fault. read_uri text.now ≡ Err fault) }
{
    if !begins_with_sip(text) {
        return Err(UriFault::NotSip);
    }
    let cut = cut_body(&text[4..]);
    if let Some(fault) = first_fault(text, &cut) {
        return Err(fault);
    }
    Ok(cut)
}

/// Why a text is no SIP URI: the fault that `SipUri::read` names, found without memory. `None` where
/// the text is a SIP URI (RFC 3261 section 19.1.1). Never `NoMemory`.
pub fn uri_fault(text: &[u8]) -> Option<UriFault>
    ensures exact { result ≡ fault_if_refused (read_uri text.now) }
    ensures none { (result ≡ None) ↔ IsUriText text.now }
{
    cut_uri(text).err()
}

/// Where a request to the URI that a text spells is sent (RFC 3261 section 16.6), found without
/// memory: the `next_hop` of that URI. `None` where the text is no SIP URI, or one without a next hop.
pub fn read_hop(text: &[u8]) -> Option<Hop>
    ensures exact { result ≡ hop_if_read (read_uri text.now) }
    ensures hop { (u : Uri) → IsUri u → text.now ≡ spelling u → result ≡ hop_of u }
{
    match cut_uri(text) {
        Ok(cut) => hop_of(&cut),
        Err(_) => None,
    }
}
