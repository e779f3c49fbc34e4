//! Where a request to a URI is sent.

ghost use Rattle.std.specs.Prelude.{◌≡◌, IsTrue};
ghost use Rattle.std.specs.List.{list_all};
ghost use Rattle.std.specs.Option.{option_copied};
ghost use Rattle.sip_lex.specs.Pieces.{pieces, pieces_behind};
ghost use Rattle.sip_uri.specs.Hop.{allows, by_transport, is_word, port_number, word_of};
ghost use Rattle.sip_uri.specs.inner.Hop.{parts_hop};
ghost use Rattle.sip_uri.specs.Reading.{is_port_if_any};
ghost use Rattle.sip_uri.specs.inner.Seen.{parts};

use crate::cut::UriParts;
use crate::hop::{Hop, Transport};
use crate::host::{read_address, read_port};
use sip_lex::cut_at;

/// The port of SIP over UDP and TCP where a URI names none (RFC 3261 section 19.1.2).
const DEFAULT_PORT: u16 = 5060;

/// The word of a transport in a URI (RFC 3261 section 19.1.1).
fn word_of(transport: Transport) -> &'static [u8]
    ensures { result.now ≡ word_of transport }
{
    match transport {
        Transport::Udp => b"udp",
        Transport::Tcp | Transport::Back(_) => b"tcp",
    }
}

/// Whether a value is the word of a transport, in any case.
fn is_word(transport: Transport, value: Option<&[u8]>) -> bool
    ensures { result ≡ is_word transport (option_copied value.entry) }
{
    match value {
        None => false,
        Some(value) => value.eq_ignore_ascii_case(word_of(transport)),
    }
}

/// Whether a parameter leaves a transport to the host itself.
fn allows(transport: Transport, param: &[u8]) -> bool
    ensures { result ≡ allows transport param.now }
{
    let (name, value) = cut_at(param, b'=');
    if name.eq_ignore_ascii_case(b"maddr") {
        return false;
    }
    !name.eq_ignore_ascii_case(b"transport") || is_word(transport, value)
}

fn all_allow(transport: Transport, params: &[u8]) -> bool
    ensures { result ≡ list_all (allows transport) (pieces 59 params.now) }
{
    params
        .split(|byte| *byte == b';')
        .all(|param| allows(transport, param))
}

fn allow_if_any(transport: Transport, params: Option<&[u8]>) -> bool
    ensures { result ≡ list_all (allows transport) (pieces_behind 59 (option_copied params.entry)) }
{
    match params {
        None => true,
        Some(params) => all_allow(transport, params),
    }
}

/// The transport that the parameters leave.
fn transport_of(params: Option<&[u8]>) -> Option<Transport>
    ensures { result ≡ by_transport (pieces_behind 59 (option_copied params.entry)) }
{
    if allow_if_any(Transport::Udp, params) {
        Some(Transport::Udp)
    } else if allow_if_any(Transport::Tcp, params) {
        Some(Transport::Tcp)
    } else {
        None
    }
}

fn port_number(port: Option<&[u8]>) -> u16
    requires { IsTrue (is_port_if_any (option_copied port)) }
    ensures { result ≡ port_number (option_copied port.entry) }
{
    match port {
        None => DEFAULT_PORT,
        Some(digits) => read_port(digits).unwrap_or(DEFAULT_PORT),
    }
}

/// The address and port of a URI with these parts, where a message may be sent there.
pub(crate) fn hop_of(cut: &UriParts<'_>) -> Option<Hop>
    requires { IsTrue (is_port_if_any (parts cut.now).port) }
    ensures { result ≡ parts_hop (parts cut.now) }
{
    let transport = transport_of(cut.params)?;
    let addr = read_address(cut.host)?;
    Some(Hop {
        addr,
        port: port_number(cut.port),
        transport,
    })
}
