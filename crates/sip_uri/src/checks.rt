//! Which texts and parts are those of a URI.

ghost use Rattle.std.specs.Prelude.{◌≡◌, ◌&&◌};
ghost use Rattle.std.specs.List.{list_all};
ghost use Rattle.std.specs.Option.{option_copied};
ghost use Rattle.sip_lex.specs.Pieces.{pieces};
ghost use Rattle.sip_uri.specs.inner.Checked.{are_bytes_if_any, are_params_if_any, are_texts, is_user_if_any, named_fault, part_fault};
ghost use Rattle.sip_uri.specs.Grammar.{is_uri_byte};
ghost use Rattle.sip_uri.specs.inner.Progress.{is_whole, progress_after};
ghost use Rattle.sip_uri.specs.Reading.{is_param, is_port_if_any, is_sip};
ghost use Rattle.sip_uri.specs.inner.Seen.{parts};

use crate::cut::UriParts;
use crate::fault::UriFault;
use crate::host::{is_host, read_port};

pub(crate) fn begins_with_sip(text: &[u8]) -> bool
    ensures { result ≡ is_sip text.now }
{
    match text {
        [s, i, p, b':', ..] => {
            s.to_ascii_lowercase() == b's'
                && i.to_ascii_lowercase() == b'i'
                && p.to_ascii_lowercase() == b'p'
        }
        _ => false,
    }
}

/// Whether a byte may stand in a URI: printed ASCII but `<`, `>` and `"`.
pub(crate) fn is_uri_byte(byte: u8) -> bool
    ensures { result ≡ is_uri_byte byte }
{
    33 <= byte && byte <= 126 && byte != b'<' && byte != b'>' && byte != b'"'
}

pub(crate) fn are_uri_bytes(text: &[u8]) -> bool
    ensures { result ≡ list_all is_uri_byte text.now }
{
    text.iter().all(|byte| is_uri_byte(*byte))
}

/// How much of a parameter was read.
#[derive(Clone, Copy)]
enum Progress {
    /// Nothing of it.
    Begun,
    /// A name.
    Named,
    /// A name and `=`.
    Valueless,
    /// A name, `=` and a value.
    Valued,
    /// What is no parameter.
    Broken,
}

impl Progress {
    /// The progress behind one more byte, of which `;` begins the next parameter.
    fn after(self, byte: u8) -> Progress
        ensures { result ≡ progress_after self byte }
    {
        if !is_uri_byte(byte) {
            return Progress::Broken;
        }
        match (self, byte) {
            (Progress::Named | Progress::Valued, b';') => Progress::Begun,
            (Progress::Begun | Progress::Valueless, b';') => Progress::Broken,
            (Progress::Begun, b'=') | (Progress::Broken, _) => Progress::Broken,
            (Progress::Named, b'=') => Progress::Valueless,
            (Progress::Begun | Progress::Named, _) => Progress::Named,
            (Progress::Valueless | Progress::Valued, _) => Progress::Valued,
        }
    }

    fn is_whole(self) -> bool
        ensures { result ≡ is_whole self }
    {
        match self {
            Progress::Named | Progress::Valued => true,
            Progress::Begun | Progress::Valueless | Progress::Broken => false,
        }
    }
}

/// Whether a text is parameters with `;` between them, and each byte one of a URI.
fn are_params(text: &[u8]) -> bool
    ensures { result ≡ (list_all is_param (pieces 59 text.now) && list_all is_uri_byte text.now) }
{
    let mut progress = Progress::Begun;
    for byte in text {
        progress = progress.after(*byte);
    }
    progress.is_whole()
}

fn are_params_if_any(params: Option<&[u8]>) -> bool
    ensures { result ≡ are_params_if_any (option_copied params.entry) }
{
    match params {
        None => true,
        Some(params) => are_params(params),
    }
}

fn is_user_if_any(user: Option<&[u8]>) -> bool
    ensures { result ≡ is_user_if_any (option_copied user.entry) }
{
    match user {
        None => true,
        Some(user) => !user.is_empty() && are_uri_bytes(user),
    }
}

fn are_bytes_if_any(part: Option<&[u8]>) -> bool
    ensures { result ≡ are_bytes_if_any (option_copied part.entry) }
{
    match part {
        None => true,
        Some(bytes) => are_uri_bytes(bytes),
    }
}

fn is_port_if_any(port: Option<&[u8]>) -> bool
    ensures { result ≡ is_port_if_any (option_copied port.entry) }
{
    match port {
        None => true,
        Some(digits) => read_port(digits).is_some(),
    }
}

fn are_texts(cut: &UriParts<'_>) -> bool
    ensures { result ≡ are_texts (parts cut.now) }
{
    is_user_if_any(cut.user) && are_params_if_any(cut.params) && are_bytes_if_any(cut.headers)
}

/// The first part with a fault: the host, then the port, then user, parameters and headers.
///
/// Each byte is tested with its part, so parts without a fault have no other bytes.
#[tactic(auto, unfolding(crate::specs::inner::Checked::part_fault))]
fn part_fault(cut: &UriParts<'_>) -> Option<UriFault>
    ensures { result ≡ part_fault (parts cut.now) }
{
    if !is_host(cut.host) {
        return Some(UriFault::BadHost);
    }
    if !is_port_if_any(cut.port) {
        return Some(UriFault::BadPort);
    }
    if !are_texts(cut) {
        return Some(UriFault::BadText);
    }
    None
}

/// The first fault of a text that was cut so. Only a text with a fault is looked at once more: a byte
/// that stands in no URI counts before a fault of the host or the port.
pub(crate) fn first_fault(text: &[u8], cut: &UriParts<'_>) -> Option<UriFault>
    ensures { result ≡ named_fault text.now (part_fault (parts cut.now)) }
{
    let fault = part_fault(cut)?;
    if are_uri_bytes(text) {
        Some(fault)
    } else {
        Some(UriFault::BadText)
    }
}
