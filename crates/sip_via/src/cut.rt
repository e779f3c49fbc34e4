//! Cutting a text into the parts of a Via value.

ghost use Rattle.std.specs.Prelude.{◌≡◌, IfSome, IfNone, false, true};
ghost use Rattle.std.specs.Option.{option_copied};
ghost use Rattle.sip_via.specs.inner.SeenParts.{seen_parts};
ghost use Rattle.sip_via.specs.inner.SentParts.{sent_parts};
ghost use Rattle.sip_via.specs.ViaParts.{are_parts, is_port_if_any, is_trimmed, is_via, parts_of, port_and_params, port_if_any};

use crate::params::are_params;
use sip_lex::{cut_at, cut_at_space, cut_near, is_token, trim, trim_end, trim_start};
use sip_uri::{cut_host, is_host, read_port};

/// The parts of a value, as they stand in the text.
#[derive(Clone, Copy)]
pub(crate) struct ViaParts<'a> {
    pub protocol: &'a [u8],
    pub version: &'a [u8],
    pub transport: &'a [u8],
    pub host: &'a [u8],
    pub port: Option<&'a [u8]>,
    pub params: Option<&'a [u8]>,
}

/// The port and the parameters in what stands behind the host.
fn port_and_params(tail: &[u8]) -> (Option<&[u8]>, Option<&[u8]>)
    ensures port { option_copied result.0 ≡ (port_and_params tail.now).0 }
    ensures params { option_copied result.1 ≡ (port_and_params tail.now).1 }
{
    match tail {
        [] => (None, None),
        [b':', rest @ ..] => {
            let (port, params) = cut_near(rest, b';');
            (Some(trim(port)), params)
        }
        [b';', rest @ ..] => (None, Some(rest)),
        _ => (Some(b""), None),
    }
}

/// The parts of a value whose protocol, version and transport are known, by what stands behind these.
fn cut_sent<'a>(
    protocol: &'a [u8],
    version: &'a [u8],
    transport: &'a [u8],
    text: &'a [u8],
) -> ViaParts<'a>
    ensures { seen_parts result ≡ sent_parts protocol.now version.now transport.now text.now }
{
    let (host, tail) = cut_host(trim_start(text));
    let (port, params) = port_and_params(tail);
    ViaParts {
        protocol,
        version,
        transport,
        host: trim_end(host),
        port,
        params,
    }
}

/// Cuts a text of any spelling.
#[tactic(auto, unfolding(crate::specs::ViaParts::parts_of))]
fn cut_spelled(text: &[u8]) -> ViaParts<'_>
    ensures { seen_parts result ≡ parts_of text.now }
{
    let (protocol, rest) = cut_at(text, b'/');
    let (version, rest) = cut_at(rest.unwrap_or(b""), b'/');
    let (transport, rest) = cut_at_space(trim_start(rest.unwrap_or(b"")));
    cut_sent(
        trim_end(protocol),
        trim(version),
        transport,
        rest.unwrap_or(b""),
    )
}

/// Cuts any text into the parts that a Via value would have. Most values are spelled in one way up to the transport.
pub(crate) fn cut_value(text: &[u8]) -> ViaParts<'_>
    ensures { seen_parts result ≡ parts_of text.now }
{
    match text.strip_prefix(b"SIP/2.0/UDP ") {
        Some(rest) => cut_sent(b"SIP", b"2.0", b"UDP", rest),
        None => cut_spelled(text),
    }
}

fn is_port_if_any(port: Option<&[u8]>) -> bool
    ensures { result ≡ is_port_if_any (option_copied port.entry) }
{
    match port {
        None => true,
        Some(digits) => read_port(digits).is_some(),
    }
}

/// Whether the parts are those of a Via value.
#[tactic(auto, unfolding(crate::specs::ViaParts::are_parts))]
pub(crate) fn are_parts(cut: &ViaParts<'_>) -> bool
    ensures { result ≡ are_parts (seen_parts cut.now) }
{
    cut.protocol.eq_ignore_ascii_case(b"sip")
        && cut.version == b"2.0".as_slice()
        && is_token(cut.transport)
        && is_host(cut.host)
        && is_port_if_any(cut.port)
        && are_params(cut.params)
}

/// Whether no space stands at the ends of a text.
pub(crate) fn is_trimmed(text: &[u8]) -> bool
    ensures { result ≡ is_trimmed text.now }
{
    trim(text).len() == text.len()
}

/// The parts of a Via value (RFC 3261 section 20.42); `None` where the text is none.
pub(crate) fn cut_via(text: &[u8]) -> Option<ViaParts<'_>>
    ensures found { IfSome result
        (λ cut. (is_via text.now ≡ true) × (seen_parts cut ≡ parts_of text.now)) }
    ensures none { IfNone result (is_via text.now ≡ false) }
{
    if !is_trimmed(text) {
        return None;
    }
    let cut = cut_value(text);
    if !are_parts(&cut) {
        return None;
    }
    Some(cut)
}

/// The number of a port, if there is one.
pub(crate) fn port_if_any(port: Option<&[u8]>) -> Option<u16>
    ensures { result ≡ port_if_any (option_copied port.entry) }
{
    read_port(port?)
}
