//! The transport that the URI of a contact asks for.
ghost use Rattle.std.specs.Prelude.{◌≡◌};
ghost use Rattle.std.specs.List.{list_all};
ghost use Rattle.std.specs.Option.{option_copied};
ghost use Rattle.sip_uri.specs.Hop.{is_word, word_of};
ghost use Rattle.sip_uri.specs.Reading.{uri_of};
ghost use Rattle.registrar.specs.Contact.{is_over, transport_of};

use authentication::{UriParams, is_uri_param};
use sip_lex::cut_at;
use sip_uri::Transport;

/// The word of a transport in a URI (RFC 3261 section 19.1.1).
fn word_of(transport: Transport) -> &'static [u8]
    ensures { result.now ≡ word_of transport }
{
    match transport {
        Transport::Udp => b"udp",
        Transport::Tcp | Transport::Back(_) => b"tcp",
    }
}

/// Whether a value is the word of a transport, in any case.
fn is_word(transport: Transport, value: Option<&[u8]>) -> bool
    ensures { result ≡ is_word transport (option_copied value.entry) }
{
    match value {
        None => false,
        Some(value) => value.eq_ignore_ascii_case(word_of(transport)),
    }
}

/// Whether a parameter of a URI asks for this transport, or for none.
fn is_over(transport: Transport, param: &[u8]) -> bool
    ensures { result ≡ is_over transport param.now }
{
    !is_uri_param(param, b"transport") || is_word(transport, cut_at(param, b'=').1)
}

/// Whether each parameter of a URI asks for this transport, or for none.
fn all_over(transport: Transport, address: &[u8]) -> bool
    ensures { result ≡ list_all (is_over transport) (uri_of address.now).params }
{
    let mut params = UriParams::of(address);
    while let Some(param) = params.next() {
        if !is_over(transport, param) {
            return false;
        }
    }
    true
}

/// The transport that a URI asks for, UDP where it asks for none; nothing where the proxy has it not.
pub(crate) fn transport_of(streams: bool, address: &[u8]) -> Option<Transport>
    ensures { result ≡ transport_of streams (uri_of address.now).params }
{
    if all_over(Transport::Udp, address) {
        Some(Transport::Udp)
    } else if streams && all_over(Transport::Tcp, address) {
        Some(Transport::Tcp)
    } else {
        None
    }
}
