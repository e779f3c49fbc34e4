//! The lines of a configuration.
ghost use Rattle.std.specs.Prelude.{◌≡◌};
ghost use Rattle.std.specs.Option.{option_map};
ghost use Rattle.std.specs.List.{list_all};
ghost use Rattle.sip_lex.specs.Cut.{cut, is};
ghost use Rattle.sip_lex.specs.Number.{plain_number_within};
ghost use Rattle.fork_rank.specs.Field.{number_from, seen_before};
ghost use Rattle.proxy_config.specs.Line.{is_user, is_visible, most_instance, most_port};
ghost use Rattle.proxy_config.specs.LineReading.{octet_before, own_cut, read_octets, read_own, read_location, read_rest, read_line, word_of};
ghost use Rattle.proxy_config.specs.LineView.{line_of};

use fork_rank::{
    Depth, Preferred, read_depth, read_preferred, read_small_number, read_small_number_before,
};
use sip_lex::{cut_at, read_plain_number};
use sip_uri::is_host;
use sip_via::Own;

/// A q is in thousandths, and at most one.
const MOST_Q: u16 = 1000;

/// The address of no host (RFC 1122 section 3.2.1.3): no answer could come back to it.
const NO_HOST: [u8; 4] = [0; 4];

/// The word that begins a line.
#[derive(Clone, Copy, Debug, PartialEq, Eq)]
pub enum SetupWord {
    Own,
    Instance,
    Domain,
    Prefer,
    Depth,
    Location,
}

/// What a line says; texts are lent by the configuration. A location has its user, its q and its URI.
#[derive(Clone, Copy, Debug)]
pub enum SetupLine<'a> {
    Own(Own),
    Instance(u32),
    Domain(&'a [u8]),
    Prefer(Preferred),
    Depth(Depth),
    Location(&'a [u8], u16, &'a [u8]),
}

fn word_of(text: &[u8]) -> Option<SetupWord>
    ensures { result ≡ word_of text.now }
{
    if text == b"own".as_slice() {
        Some(SetupWord::Own)
    } else if text == b"instance".as_slice() {
        Some(SetupWord::Instance)
    } else if text == b"domain".as_slice() {
        Some(SetupWord::Domain)
    } else if text == b"prefer".as_slice() {
        Some(SetupWord::Prefer)
    } else if text == b"depth".as_slice() {
        Some(SetupWord::Depth)
    } else if text == b"location".as_slice() {
        Some(SetupWord::Location)
    } else {
        None
    }
}

fn read_octet(digits: &[u8]) -> Option<u8>
    ensures { result ≡ plain_number_within 255 digits.now }
{
    let n = read_plain_number(digits, 255)?;
    Some(n as u8)
}

/// A number of an address, and what stands behind the dot after it.
fn octet_before(text: &[u8]) -> Option<(u8, &[u8])>
    ensures { seen_before result ≡ octet_before text.now }
{
    match cut_at(text, b'.') {
        (_, None) => None,
        (digits, Some(rest)) => Some((read_octet(digits)?, rest)),
    }
}

/// An IPv4 address in dotted form: four numbers of at most 255, without leading zeros.
pub fn read_octets(text: &[u8]) -> Option<[u8; 4]>
    ensures { result ≡ read_octets text.now }
{
    let (a, rest) = octet_before(text)?;
    let (b, rest) = octet_before(rest)?;
    let (c, rest) = octet_before(rest)?;
    let d = read_octet(rest)?;
    Some([a, b, c, d])
}

fn read_port(digits: &[u8]) -> Option<u16>
    ensures { result ≡ number_from 1 most_port digits.now }
{
    match read_small_number(digits, u16::MAX) {
        None | Some(0) => None,
        Some(port) => Some(port),
    }
}

/// The address of a host and a port with this mark between them, as the line of the own address has them: an IPv4 address in dotted form, but
/// not 0.0.0.0, to which no answer could come back, and a port of at least 1, without leading zeros.
pub fn read_address(text: &[u8], mark: u8) -> Option<Own>
    ensures { result ≡ own_cut (cut (is mark) text.now) }
{
    match cut_at(text, mark) {
        (_, None) => None,
        (addr, Some(port)) => {
            let addr = read_octets(addr)?;
            if addr.as_slice() == NO_HOST.as_slice() {
                return None;
            }
            let port = read_port(port)?;
            Some(Own::over_udp(addr, port))
        }
    }
}

/// The address of a host, and a port.
fn read_own(text: &[u8]) -> Option<Own>
    ensures { result ≡ read_own text.now }
{
    read_address(text, b' ')
}

fn read_instance(digits: &[u8]) -> Option<u32>
    ensures { result ≡ plain_number_within most_instance digits.now }
{
    let n = read_plain_number(digits, u64::from(u32::MAX))?;
    Some(n as u32)
}

fn are_visible(bytes: &[u8]) -> bool
    ensures { result ≡ list_all is_visible bytes.now }
{
    bytes.iter().all(|&byte| 33 <= byte && byte <= 126)
}

fn is_user(user: &[u8]) -> bool
    ensures { result ≡ is_user user.now }
{
    1 <= user.len() && are_visible(user)
}

/// A user, a q and what is to be a URI.
fn read_location(text: &[u8]) -> Option<SetupLine<'_>>
    ensures { option_map line_of result ≡ read_location text.now }
{
    match cut_at(text, b' ') {
        (_, None) => None,
        (user, Some(rest)) => {
            if !is_user(user) {
                return None;
            }
            let (q, uri) = read_small_number_before(rest, MOST_Q)?;
            Some(SetupLine::Location(user, q, uri))
        }
    }
}

/// What stands behind a word and its space.
fn read_rest(word: SetupWord, rest: &[u8]) -> Option<SetupLine<'_>>
    ensures { option_map line_of result ≡ read_rest word rest.now }
{
    match word {
        SetupWord::Own => Some(SetupLine::Own(read_own(rest)?)),
        SetupWord::Instance => Some(SetupLine::Instance(read_instance(rest)?)),
        SetupWord::Domain => {
            if is_host(rest) {
                Some(SetupLine::Domain(rest))
            } else {
                None
            }
        }
        SetupWord::Prefer => Some(SetupLine::Prefer(read_preferred(rest)?)),
        SetupWord::Depth => Some(SetupLine::Depth(read_depth(rest)?)),
        SetupWord::Location => read_location(rest),
    }
}

/// The line that a text spells; `None` where it spells none.
pub fn read_setup_line(line: &[u8]) -> Option<SetupLine<'_>>
    ensures { option_map line_of result ≡ read_line line.now }
{
    match cut_at(line, b' ') {
        (_, None) => None,
        (word, Some(rest)) => read_rest(word_of(word)?, rest),
    }
}
