//! The lines of a script.
ghost use Rattle.std.specs.Prelude.{◌≡◌, IfSome, Some};
ghost use Rattle.std.specs.Option.{option_map, option_copied};
ghost use Rattle.std.specs.List.{list_all};
ghost use Rattle.fork_rank.specs.KindView.{kind_of};
ghost use Rattle.fork_rank.specs.Field.{number_from, seen_before};
ghost use Rattle.fork_program.specs.Line as spec;
ghost use Rattle.fork_program.specs.Line.{is_visible, is_printable, is_name, is_text};
ghost use Rattle.fork_program.specs.inner.Line.{IsSpelledBy};
ghost use Rattle.fork_program.specs.Reading.{word_of, read_kind, read_named, read_texted, read_asker, read_challenge, read_rest, read_worded, read_line};
ghost use Rattle.fork_program.specs.inner.LineView.{line_of};

use fork_context::Kind;
use fork_rank::{
    Depth, Preferred, RingStatus, Status, read_depth, read_preferred, read_small_number,
    read_small_number_before,
};
use sip_lex::cut_at;

/// A q is in thousandths, and at most one.
const MOST_Q: u16 = 1000;

/// The word that begins a line.
#[derive(Clone, Copy, Debug, PartialEq, Eq)]
pub enum ScriptWord {
    Kind,
    Prefer,
    Depth,
    Target,
    Ring,
    Answer,
    Timeout,
    Fault,
    TimerC,
    GiveUp,
    Cancel,
    Contact,
    Other,
    Challenge,
}

/// What a line says; names and texts are lent by the script. The contacts and the challenges of an answer stand on
/// the lines behind it: `Contact` may be tried, `Other` may not; a `Challenge` is a value of Proxy-Authenticate where
/// `proxy`, else of WWW-Authenticate.
#[derive(Clone, Copy, Debug)]
pub enum ScriptLine<'a> {
    Kind(Kind),
    Prefer(Preferred),
    Depth(Depth),
    Target(u16, &'a [u8]),
    Ring(u16, RingStatus),
    Answer(u16, Status),
    Timeout(u16),
    Fault(u16),
    TimerC(u16),
    GiveUp(u16),
    Cancel,
    Contact(u16, &'a [u8]),
    Other(u16, &'a [u8]),
    Challenge { proxy: bool, value: &'a [u8] },
}

fn word_of(text: &[u8]) -> Option<ScriptWord>
    ensures { result ≡ word_of text.now }
{
    if text == b"kind".as_slice() {
        Some(ScriptWord::Kind)
    } else if text == b"prefer".as_slice() {
        Some(ScriptWord::Prefer)
    } else if text == b"depth".as_slice() {
        Some(ScriptWord::Depth)
    } else if text == b"target".as_slice() {
        Some(ScriptWord::Target)
    } else if text == b"ring".as_slice() {
        Some(ScriptWord::Ring)
    } else if text == b"answer".as_slice() {
        Some(ScriptWord::Answer)
    } else if text == b"timeout".as_slice() {
        Some(ScriptWord::Timeout)
    } else if text == b"fault".as_slice() {
        Some(ScriptWord::Fault)
    } else if text == b"timerc".as_slice() {
        Some(ScriptWord::TimerC)
    } else if text == b"giveup".as_slice() {
        Some(ScriptWord::GiveUp)
    } else if text == b"cancel".as_slice() {
        Some(ScriptWord::Cancel)
    } else if text == b"contact".as_slice() {
        Some(ScriptWord::Contact)
    } else if text == b"other".as_slice() {
        Some(ScriptWord::Other)
    } else if text == b"challenge".as_slice() {
        Some(ScriptWord::Challenge)
    } else {
        None
    }
}

fn read_kind(text: &[u8]) -> Option<Kind>
    ensures { option_map kind_of result ≡ read_kind text.now }
{
    if text == b"INVITE".as_slice() {
        Some(Kind::Invite)
    } else if text == b"OTHER".as_slice() {
        Some(Kind::Other)
    } else {
        None
    }
}

fn read_ring(digits: &[u8]) -> Option<RingStatus>
    ensures { result ≡ number_from 100 199 digits.now }
{
    RingStatus::of(read_small_number(digits, 199)?)
}

fn read_status(digits: &[u8]) -> Option<Status>
    ensures { result ≡ number_from 200 699 digits.now }
{
    Status::of(read_small_number(digits, 699)?)
}

fn are_visible(bytes: &[u8]) -> bool
    ensures { result ≡ list_all is_visible bytes.now }
{
    bytes.iter().all(|&byte| 33 <= byte && byte <= 126)
}

fn are_printable(bytes: &[u8]) -> bool
    ensures { result ≡ list_all is_printable bytes.now }
{
    bytes.iter().all(|&byte| 32 <= byte && byte <= 126)
}

fn is_name(name: &[u8]) -> bool
    ensures { result ≡ is_name name.now }
{
    1 <= name.len() && name.len() <= 64 && are_visible(name)
}

fn is_text(text: &[u8]) -> bool
    ensures { result ≡ is_text text.now }
{
    1 <= text.len() && are_printable(text)
}

/// A q and a name.
fn read_named(text: &[u8]) -> Option<(u16, &[u8])>
    ensures { seen_before result ≡ read_named text.now }
{
    let (q, name) = read_small_number_before(text, MOST_Q)?;
    if is_name(name) { Some((q, name)) } else { None }
}

/// A q and a text.
fn read_texted(text: &[u8]) -> Option<(u16, &[u8])>
    ensures { seen_before result ≡ read_texted text.now }
{
    let (q, other) = read_small_number_before(text, MOST_Q)?;
    if is_text(other) {
        Some((q, other))
    } else {
        None
    }
}

/// Whose challenge a line is about: false for a server's (`W`), true for a proxy's (`P`), `None` for any other text.
fn read_asker(text: &[u8]) -> Option<bool>
    ensures { result ≡ read_asker text.now }
{
    if text == b"W".as_slice() {
        Some(false)
    } else if text == b"P".as_slice() {
        Some(true)
    } else {
        None
    }
}

/// The line of a challenge: whose it is, and its value.
fn read_challenge(text: &[u8]) -> Option<ScriptLine<'_>>
    ensures { option_map line_of result ≡ read_challenge text.now }
{
    match cut_at(text, b' ') {
        (_, None) => None,
        (asker, Some(value)) => {
            let proxy = read_asker(asker)?;
            if is_text(value) {
                Some(ScriptLine::Challenge { proxy, value })
            } else {
                None
            }
        }
    }
}

/// What stands behind a word and its space.
fn read_rest(word: ScriptWord, rest: &[u8]) -> Option<ScriptLine<'_>>
    ensures { option_map line_of result ≡ read_rest word rest.now }
{
    match word {
        ScriptWord::Kind => Some(ScriptLine::Kind(read_kind(rest)?)),
        ScriptWord::Prefer => Some(ScriptLine::Prefer(read_preferred(rest)?)),
        ScriptWord::Depth => Some(ScriptLine::Depth(read_depth(rest)?)),
        ScriptWord::Target => {
            let (q, name) = read_named(rest)?;
            Some(ScriptLine::Target(q, name))
        }
        ScriptWord::Ring => {
            let (n, status) = read_small_number_before(rest, u16::MAX)?;
            Some(ScriptLine::Ring(n, read_ring(status)?))
        }
        ScriptWord::Answer => {
            let (n, status) = read_small_number_before(rest, u16::MAX)?;
            Some(ScriptLine::Answer(n, read_status(status)?))
        }
        ScriptWord::Timeout => Some(ScriptLine::Timeout(read_small_number(rest, u16::MAX)?)),
        ScriptWord::Fault => Some(ScriptLine::Fault(read_small_number(rest, u16::MAX)?)),
        ScriptWord::TimerC => Some(ScriptLine::TimerC(read_small_number(rest, u16::MAX)?)),
        ScriptWord::GiveUp => Some(ScriptLine::GiveUp(read_small_number(rest, u16::MAX)?)),
        ScriptWord::Contact => {
            let (q, name) = read_named(rest)?;
            Some(ScriptLine::Contact(q, name))
        }
        ScriptWord::Other => {
            let (q, text) = read_texted(rest)?;
            Some(ScriptLine::Other(q, text))
        }
        ScriptWord::Challenge => read_challenge(rest),
        ScriptWord::Cancel => None,
    }
}

/// What stands behind a word, if anything.
fn read_worded<'a>(word: ScriptWord, rest: Option<&'a [u8]>) -> Option<ScriptLine<'a>>
    ensures { option_map line_of result ≡ read_worded word (option_copied rest.entry) }
{
    match (word, rest) {
        (ScriptWord::Cancel, None) => Some(ScriptLine::Cancel),
        (_, None) => None,
        (_, Some(rest)) => read_rest(word, rest),
    }
}

/// The line that a text spells.
fn line_at(line: &[u8]) -> Option<ScriptLine<'_>>
    ensures { option_map line_of result ≡ read_line line.now }
{
    let (word, rest) = cut_at(line, b' ');
    read_worded(word_of(word)?, rest)
}

/// The line that a text spells; `None` where it spells none. Words are separated by one space, and numbers have no
/// leading zero.
pub fn read_script_line(line: &[u8]) -> Option<ScriptLine<'_>>
    ensures value { option_map line_of result ≡ read_line line.now }
    // What is read is the spelling of a line, and each spelling of a line is read.
    ensures found { IfSome (option_map line_of result) (IsSpelledBy line.now) }
    ensures only { (spelled : spec.Line) → IsSpelledBy line.now spelled → option_map line_of result ≡ Some spelled }
{
    line_at(line)
}
