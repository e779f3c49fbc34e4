//! The lines of a listing.
ghost use Rattle.std.specs.Prelude.{◌≡◌};
ghost use Rattle.std.specs.Option.{option_map};
ghost use Rattle.sip_lex.specs.Number.{plain_number_within};
ghost use Rattle.fork_rank.specs.Field.{before, seen_before};
ghost use Rattle.fork_listing.specs.Line.{most_arrival};
ghost use Rattle.fork_listing.specs.Reading.{word_of, read_version, read_status, read_parent, may_be_assumed, stored_as, read_stored, read_end, read_count, read_target, read_ranked, read_final, read_rest, read_line};
ghost use Rattle.fork_listing.specs.inner.LineView.{line_of};

use fork_rank::{
    Depth, MOST_TARGETS, Preferred, Status, read_depth, read_preferred, read_small_number,
    read_small_number_before,
};
use fork_tree::End;
use sip_lex::{cut_at, read_plain_number};

/// A q is in thousandths, and at most one.
const MOST_Q: u16 = 1000;

/// How many targets a listing of the first two versions has at most.
const MOST_EARLY_TARGETS: u16 = 64;

/// How a listing is written: the second version adds the preferred statuses, the third the depth.
#[derive(Clone, Copy, Debug, PartialEq, Eq)]
pub enum Version {
    First,
    Second,
    Third,
}

/// A branch: its number, the number of the branch it stands under (None: an initial target), its q in thousandths, and
/// how it ended, other than with a 2xx.
#[derive(Clone, Copy, Debug, PartialEq, Eq)]
pub struct ListedTarget {
    pub number: u16,
    pub parent: Option<u16>,
    pub q: u16,
    pub end: End,
}

/// A stored answer, in its order among them.
#[derive(Clone, Copy, Debug, PartialEq, Eq)]
pub struct Ranked {
    pub status: Status,
    pub number: u16,
    pub arrival: u32,
}

/// The answer that went up, and the branch that it came from.
#[derive(Clone, Copy, Debug, PartialEq, Eq)]
pub struct Final {
    pub status: Status,
    pub number: Option<u16>,
}

/// What a line says.
#[derive(Clone, Copy, Debug)]
pub enum ListingLine {
    Fork(Version, u16),
    Prefer(Preferred),
    Depth(Depth),
    Target(ListedTarget),
    Rank(Ranked),
    Final(Final),
}

/// The word that begins a line.
#[derive(Clone, Copy, Debug, PartialEq, Eq)]
pub enum ListingWord {
    Fork,
    Prefer,
    Depth,
    Target,
    Rank,
    Final,
}

fn word_of(text: &[u8]) -> Option<ListingWord>
    ensures { result ≡ word_of text.now }
{
    if text == b"fork".as_slice() {
        Some(ListingWord::Fork)
    } else if text == b"prefer".as_slice() {
        Some(ListingWord::Prefer)
    } else if text == b"depth".as_slice() {
        Some(ListingWord::Depth)
    } else if text == b"target".as_slice() {
        Some(ListingWord::Target)
    } else if text == b"rank".as_slice() {
        Some(ListingWord::Rank)
    } else if text == b"final".as_slice() {
        Some(ListingWord::Final)
    } else {
        None
    }
}

fn read_arrival(digits: &[u8]) -> Option<u32>
    ensures { result ≡ plain_number_within most_arrival digits.now }
{
    let n = read_plain_number(digits, u64::from(u32::MAX))?;
    Some(n as u32)
}

fn read_arrival_before(text: &[u8]) -> Option<(u32, &[u8])>
    ensures { seen_before result ≡ before (plain_number_within most_arrival) text.now }
{
    match cut_at(text, b' ') {
        (_, None) => None,
        (digits, Some(rest)) => Some((read_arrival(digits)?, rest)),
    }
}

/// A status that may be stored or go up: a 2xx is neither.
fn read_status(digits: &[u8]) -> Option<Status>
    ensures { result ≡ read_status digits.now }
{
    let n = read_small_number(digits, 699)?;
    if n >= 300 { Status::of(n) } else { None }
}

fn read_status_before(text: &[u8]) -> Option<(Status, &[u8])>
    ensures { seen_before result ≡ before read_status text.now }
{
    match cut_at(text, b' ') {
        (_, None) => None,
        (digits, Some(rest)) => Some((read_status(digits)?, rest)),
    }
}

/// A branch's number, or `-` for none.
fn read_parent(text: &[u8]) -> Option<Option<u16>>
    ensures { result ≡ read_parent text.now }
{
    if text == b"-".as_slice() {
        Some(None)
    } else {
        Some(Some(read_small_number(text, u16::MAX)?))
    }
}

fn read_parent_before(text: &[u8]) -> Option<(Option<u16>, &[u8])>
    ensures { seen_before result ≡ before read_parent text.now }
{
    match cut_at(text, b' ') {
        (_, None) => None,
        (parent, Some(rest)) => Some((read_parent(parent)?, rest)),
    }
}

fn read_version(text: &[u8]) -> Option<Version>
    ensures { result ≡ read_version text.now }
{
    if text == b"1".as_slice() {
        Some(Version::First)
    } else if text == b"2".as_slice() {
        Some(Version::Second)
    } else if text == b"3".as_slice() {
        Some(Version::Third)
    } else {
        None
    }
}

fn read_version_before(text: &[u8]) -> Option<(Version, &[u8])>
    ensures { seen_before result ≡ before read_version text.now }
{
    match cut_at(text, b' ') {
        (_, None) => None,
        (version, Some(rest)) => Some((read_version(version)?, rest)),
    }
}

/// How many targets a listing has.
fn read_count(version: Version, digits: &[u8]) -> Option<u16>
    ensures { result ≡ read_count version digits.now }
{
    let most = match version {
        Version::First | Version::Second => MOST_EARLY_TARGETS,
        Version::Third => MOST_TARGETS,
    };
    let count = read_small_number(digits, most)?;
    if count >= 1 { Some(count) } else { None }
}

/// An answer that is assumed is a 408 or a 503.
fn may_be_assumed(status: Status) -> bool
    ensures { result ≡ may_be_assumed status }
{
    status.code() == 408 || status.code() == 503
}

fn stored_as(status: Status, arrival: u32, how: &[u8]) -> Option<End>
    ensures { result ≡ stored_as status arrival how.now }
{
    if how == b"received".as_slice() {
        Some(End::Stored {
            status,
            arrival,
            received: true,
        })
    } else if how == b"assumed".as_slice() && may_be_assumed(status) {
        Some(End::Stored {
            status,
            arrival,
            received: false,
        })
    } else {
        None
    }
}

fn read_stored(text: &[u8]) -> Option<End>
    ensures { result ≡ read_stored text.now }
{
    match read_status_before(text) {
        None => None,
        Some((status, rest)) => {
            let (arrival, how) = read_arrival_before(rest)?;
            stored_as(status, arrival, how)
        }
    }
}

fn read_end(text: &[u8]) -> Option<End>
    ensures { result ≡ read_end text.now }
{
    let (word, rest) = cut_at(text, b' ');
    match rest {
        None => {
            if word == b"never".as_slice() {
                Some(End::Never)
            } else {
                None
            }
        }
        Some(rest) => {
            if word == b"stored".as_slice() {
                read_stored(rest)
            } else if word == b"taken".as_slice() {
                Some(End::Taken {
                    arrival: read_arrival(rest)?,
                })
            } else if word == b"silent".as_slice() {
                Some(End::Silent {
                    arrival: read_arrival(rest)?,
                })
            } else {
                None
            }
        }
    }
}

fn read_target(text: &[u8]) -> Option<ListedTarget>
    ensures { result ≡ read_target text.now }
{
    let (number, rest) = read_small_number_before(text, u16::MAX)?;
    let (parent, rest) = read_parent_before(rest)?;
    let (q, rest) = read_small_number_before(rest, MOST_Q)?;
    let end = read_end(rest)?;
    Some(ListedTarget {
        number,
        parent,
        q,
        end,
    })
}

fn read_ranked(text: &[u8]) -> Option<Ranked>
    ensures { result ≡ read_ranked text.now }
{
    match read_status_before(text) {
        None => None,
        Some((status, rest)) => {
            let (number, rest) = read_small_number_before(rest, u16::MAX)?;
            let arrival = read_arrival(rest)?;
            Some(Ranked {
                status,
                number,
                arrival,
            })
        }
    }
}

fn read_final(text: &[u8]) -> Option<Final>
    ensures { result ≡ read_final text.now }
{
    match read_status_before(text) {
        None => None,
        Some((status, rest)) => {
            let number = read_parent(rest)?;
            Some(Final { status, number })
        }
    }
}

/// What stands behind a word and its space.
fn read_rest(word: ListingWord, rest: &[u8]) -> Option<ListingLine>
    ensures { option_map line_of result ≡ read_rest word rest.now }
{
    match word {
        ListingWord::Fork => {
            let (version, count) = read_version_before(rest)?;
            Some(ListingLine::Fork(version, read_count(version, count)?))
        }
        ListingWord::Prefer => Some(ListingLine::Prefer(read_preferred(rest)?)),
        ListingWord::Depth => Some(ListingLine::Depth(read_depth(rest)?)),
        ListingWord::Target => Some(ListingLine::Target(read_target(rest)?)),
        ListingWord::Rank => Some(ListingLine::Rank(read_ranked(rest)?)),
        ListingWord::Final => Some(ListingLine::Final(read_final(rest)?)),
    }
}

/// What a line says; `None` where it has no form of a line of a listing.
pub fn read_listing_line(text: &[u8]) -> Option<ListingLine>
    ensures { option_map line_of result ≡ read_line text.now }
{
    match cut_at(text, b' ') {
        (_, None) => None,
        (word, Some(rest)) => read_rest(word_of(word)?, rest),
    }
}
