//! The lines of a service's configuration.
ghost use Rattle.std.specs.Prelude.{◌≡◌, ℕ, List, option_and_then};
ghost use Rattle.std.specs.List.{list_all};
ghost use Rattle.std.specs.Option.{option_map};
ghost use Rattle.sip_lex.specs.Cut.{Lacks, cut, is};
ghost use Rattle.sip_lex.specs.Number.{plain_number_within};
ghost use Rattle.fork_rank.specs.Field.{number_before, number_from, seen_before};
ghost use Rattle.proxy_config.specs.LineView as setup_view;
ghost use Rattle.service_config.specs.Kind.{kind_of, setup_kind};
ghost use Rattle.service_config.specs.Line.{are_expirations, is_realm, is_realm_byte, most_expiration, most_ring, says_nothing};
ghost use Rattle.service_config.specs.inner.LineReading.{location_cut, location_in, net_at, net_if, read_cut, read_expirations, read_line, read_net, read_own, read_plain, read_worded, realm_cut, word_of};
ghost use Rattle.service_config.specs.inner.LineView.{line_of, reading_in, seen_location};

use crate::expirations::Expirations;
use crate::kind::LineKind;
use crate::net::{Net, address_number, block};
use fork_rank::{read_small_number, read_small_number_before};
use proxy_config::{SetupLine, read_octets};
use sip_digest::Algorithms;
use sip_lex::{cut_at, read_plain_number};

/// A q is in thousandths, and at most one.
const MOST_Q: u16 = 1000;

/// A branch rings for so many seconds at most (RFC 3261 section 16.6 step 11).
const MOST_RING: u16 = 181;

/// A binding is there for a week at most, in seconds.
const MOST_EXPIRATION: u64 = 604_800;

/// How many bits an address has.
const MOST_BITS: u64 = 32;

/// The word that begins a line: one of a service, or another.
#[derive(Clone, Copy, Debug, PartialEq, Eq)]
pub(crate) enum SettingsWord {
    Ring,
    Realm,
    Expires,
    Trust,
    Gateway,
    OfSetup,
}

/// What a line says that no text of a setup has so; texts are lent by the configuration. A location has its user, its q, its URI and
/// for how many seconds it rings; a gateway its q and its URI.
#[derive(Clone, Copy, Debug)]
pub(crate) enum SettingsLine<'a> {
    Ring(u16),
    Large,
    Realm(&'a [u8], Option<Algorithms>),
    Expires(Expirations),
    Strangers,
    Trust(Net),
    Gateway(u16, &'a [u8]),
    Location(&'a [u8], u16, &'a [u8], Option<u16>),
    Comment(&'a [u8]),
}

/// What was read of a line.
#[derive(Clone, Copy, Debug)]
pub(crate) enum LineReading<'a> {
    /// Such a line.
    Own(SettingsLine<'a>),
    /// It is read as a line of a setup.
    OfSetup,
}

/// The kind of a line of a setup.
pub(crate) fn setup_kind(line: &SetupLine<'_>) -> LineKind
    ensures { result ≡ setup_kind (setup_view.line_of line.now) }
{
    match line {
        SetupLine::Own(_) => LineKind::Own,
        SetupLine::Instance(_) => LineKind::Instance,
        SetupLine::Domain(_) => LineKind::Domain,
        SetupLine::Prefer(_) => LineKind::Prefer,
        SetupLine::Depth(_) => LineKind::Depth,
        SetupLine::Location(_, _, _) => LineKind::Location,
    }
}

/// The user, the q and what stands behind them, where a line of a setup is that of a location.
pub(crate) fn location_in<'a>(line: &SetupLine<'a>) -> Option<(&'a [u8], u16, &'a [u8])>
    ensures { seen_location result ≡ location_in (setup_view.line_of line.now) }
{
    match line {
        SetupLine::Location(user, q, rest) => Some((*user, *q, *rest)),
        _ => None,
    }
}

impl SettingsLine<'_> {
    /// The kind of a line; `None` where it says nothing.
    pub(crate) fn kind(&self) -> Option<LineKind>
        ensures { result ≡ kind_of (line_of self.now) }
    {
        match self {
            SettingsLine::Ring(_) => Some(LineKind::Ring),
            SettingsLine::Large => Some(LineKind::Large),
            SettingsLine::Realm(_, _) => Some(LineKind::Realm),
            SettingsLine::Expires(_) => Some(LineKind::Expires),
            SettingsLine::Strangers => Some(LineKind::Strangers),
            SettingsLine::Trust(_) => Some(LineKind::Trust),
            SettingsLine::Gateway(_, _) => Some(LineKind::Gateway),
            SettingsLine::Location(_, _, _, _) => Some(LineKind::Location),
            SettingsLine::Comment(_) => None,
        }
    }
}

// ---- ring

fn read_ring(digits: &[u8]) -> Option<u16>
    ensures { result ≡ number_from 1 most_ring digits.now }
{
    match read_small_number(digits, MOST_RING) {
        None | Some(0) => None,
        Some(seconds) => Some(seconds),
    }
}

// ---- realm

fn is_realm_byte(byte: u8) -> bool
    ensures { result ≡ is_realm_byte byte }
{
    33 <= byte && byte <= 126 && !(byte == b'"' || byte == b'\\')
}

fn are_realm_bytes(bytes: &[u8]) -> bool
    ensures { result ≡ list_all is_realm_byte bytes.now }
{
    bytes.iter().all(|byte| is_realm_byte(*byte))
}

/// Whether a text may be a realm: 1 to 64 visible bytes without `"` and `\`.
pub fn is_realm(text: &[u8]) -> bool
    ensures { result ≡ is_realm text.now }
{
    1 <= text.len() && text.len() <= 64 && are_realm_bytes(text)
}

fn read_realm(text: &[u8]) -> Option<SettingsLine<'_>>
    ensures { option_map line_of result ≡ realm_cut (cut (is 32) text.now) }
{
    let (realm, names) = cut_at(text, b' ');
    if !is_realm(realm) {
        return None;
    }
    match names {
        None => Some(SettingsLine::Realm(realm, None)),
        Some(names) => Some(SettingsLine::Realm(realm, Some(Algorithms::named(names)?))),
    }
}

// ---- expires

fn read_expiration(digits: &[u8]) -> Option<u32>
    ensures { result ≡ plain_number_within most_expiration digits.now }
{
    let seconds = read_plain_number(digits, MOST_EXPIRATION)?;
    Some(seconds as u32)
}

/// A time, and what stands behind the space after it.
fn expiration_before(text: &[u8]) -> Option<(u32, &[u8])>
    ensures { seen_before result ≡ number_before most_expiration text.now }
{
    match cut_at(text, b' ') {
        (_, None) => None,
        (digits, Some(rest)) => Some((read_expiration(digits)?, rest)),
    }
}

fn are_expirations(least: u32, usual: u32, most: u32) -> bool
    ensures { result ≡ are_expirations least usual most }
{
    1 <= least && least <= usual && usual <= most
}

fn read_expirations(text: &[u8]) -> Option<Expirations>
    ensures { result ≡ read_expirations text.now }
{
    let (least, rest) = expiration_before(text)?;
    let (usual, rest) = expiration_before(rest)?;
    let most = read_expiration(rest)?;
    if are_expirations(least, usual, most) {
        Some(Expirations { least, usual, most })
    } else {
        None
    }
}

// ---- trust

/// The net of these first bits, where all bits behind them are 0.
fn net_if(addr: [u8; 4], bits: u8) -> Option<Net>
    ensures { result ≡ net_if addr bits }
{
    if address_number(addr) % block(bits) == 0 {
        Some(Net { addr, bits })
    } else {
        None
    }
}

fn net_at(addr: [u8; 4], digits: &[u8]) -> Option<Net>
    ensures { result ≡ net_at digits.now addr }
{
    let bits = read_plain_number(digits, MOST_BITS)?;
    net_if(addr, bits as u8)
}

/// The net that `A.B.C.D/N` spells: N is at most 32, no number has leading zeros, and all bits behind the first N are 0 (RFC 4632 section 3.1).
pub fn read_net(text: &[u8]) -> Option<Net>
    ensures { result ≡ read_net text.now }
{
    match cut_at(text, b'/') {
        (_, None) => None,
        (addr, Some(digits)) => net_at(read_octets(addr)?, digits),
    }
}

// ---- location

/// A location whose URI may have the seconds for which it rings behind it.
pub(crate) fn cut_location<'a>(user: &'a [u8], q: u16, rest: &'a [u8]) -> Option<SettingsLine<'a>>
    ensures { option_map line_of result ≡ location_cut user.now q (cut (is 32) rest.now) }
{
    match cut_at(rest, b' ') {
        (uri, None) => Some(SettingsLine::Location(user, q, uri, None)),
        (uri, Some(digits)) => Some(SettingsLine::Location(user, q, uri, Some(read_ring(digits)?))),
    }
}

// ---- a line

fn word_of(text: &[u8]) -> SettingsWord
    ensures { result ≡ word_of text.now }
{
    if text == b"ring".as_slice() {
        SettingsWord::Ring
    } else if text == b"realm".as_slice() {
        SettingsWord::Realm
    } else if text == b"expires".as_slice() {
        SettingsWord::Expires
    } else if text == b"trust".as_slice() {
        SettingsWord::Trust
    } else if text == b"gateway".as_slice() {
        SettingsWord::Gateway
    } else {
        SettingsWord::OfSetup
    }
}

/// What stands behind one of the words of a service and a space.
fn read_own(rest: &[u8], word: SettingsWord) -> Option<SettingsLine<'_>>
    ensures { option_map line_of result ≡ read_own rest.now word }
{
    match word {
        SettingsWord::Ring => Some(SettingsLine::Ring(read_ring(rest)?)),
        SettingsWord::Realm => read_realm(rest),
        SettingsWord::Expires => Some(SettingsLine::Expires(read_expirations(rest)?)),
        SettingsWord::Trust => Some(SettingsLine::Trust(read_net(rest)?)),
        SettingsWord::Gateway => {
            let (q, uri) = read_small_number_before(rest, MOST_Q)?;
            Some(SettingsLine::Gateway(q, uri))
        }
        SettingsWord::OfSetup => None,
    }
}

/// What a line says by its word, and what stands behind the word and a space.
fn read_worded(rest: &[u8], word: SettingsWord) -> Option<LineReading<'_>>
    ensures { (text : List ℕ) → option_and_then (reading_in text) result ≡ read_worded text rest.now word }
{
    match word {
        SettingsWord::OfSetup => Some(LineReading::OfSetup),
        _ => Some(LineReading::Own(read_own(rest, word)?)),
    }
}

fn read_cut(text: &[u8]) -> Option<LineReading<'_>>
    ensures { option_and_then (reading_in text.now) result ≡ read_cut text.now (cut (is 32) text.now) }
{
    match cut_at(text, b' ') {
        (_, None) => None,
        (word, Some(rest)) => read_worded(rest, word_of(word)),
    }
}

/// Whether a line says nothing: it is empty, or begins with `#`.
fn says_nothing(text: &[u8]) -> bool
    ensures { result ≡ says_nothing text.now }
{
    matches!(text, [] | [b'#', ..])
}

fn read_plain(text: &[u8]) -> Option<LineReading<'_>>
    ensures { option_and_then (reading_in text.now) result ≡ read_plain text.now }
{
    if says_nothing(text) {
        return Some(LineReading::Own(SettingsLine::Comment(text)));
    }
    if text == b"strangers".as_slice() {
        return Some(LineReading::Own(SettingsLine::Strangers));
    }
    if text == b"large tcp".as_slice() {
        return Some(LineReading::Own(SettingsLine::Large));
    }
    read_cut(text)
}

/// What a text is read as; `None` where it spells no line.
pub(crate) fn read_line(text: &[u8]) -> Option<LineReading<'_>>
    requires { Lacks 10 text.now }
    ensures { option_and_then (reading_in text.now) result ≡ read_line text.now }
{
    read_plain(text)
}
