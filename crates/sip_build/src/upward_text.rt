//! Responses as they go upstream, straight as text.

ghost use Rattle.std.specs.Prelude.{◌≡◌, ◌+◌, ◌++◌, ◌≤◌, Ok, codes, length, map, true, IfErr, IsOk, OnErr, OnOk, vec_capacity, vec_len};
ghost use Rattle.std.specs.List.{list_all};
ghost use Rattle.std.specs.Option.{option_copied};
ghost use Rattle.sip_text.specs.Message.{is_start};
ghost use Rattle.sip_text.specs.Name.{first_value};
ghost use Rattle.sip_text.specs.Seen.{view_start, views};
ghost use Rattle.sip_text.specs.Text.{spelling};
ghost use Rattle.sip_via.specs.Edits.{replaced};
ghost use Rattle.sip_via.specs.TopVia.{has_second, via_values};
ghost use Rattle.sip_build.specs.Exchanged.{exchanged};
ghost use Rattle.sip_build.specs.inner.HeaderRuns.{IsFront, all_lines, lines_of, start_of};
ghost use Rattle.sip_build.specs.SeenKept.{seen_kept, texts};
ghost use Rattle.sip_build.specs.Upward.{AreKept, challenge_line, contact_lines, is_challenge, others_of, refusal, upward, upward_headers, upward_of};

use crate::made_text::{Front, append_made};
use crate::runs::{HeaderRun, Pick, kept_run, run_if_any};
use fork_rank::Challenge;
use sip_lex::{Shelter, cut_outside, trim};
use sip_text::{HeaderLines, Message, StartLine};
use sip_via::{BuildFault, has_second_via, header_index};
use std::alloc::{AllocError, Allocator};

const VIA: &[u8] = b"via";

const CONTACT: &[u8] = b"contact";

/// What the first Via line holds behind its first value, if it holds more.
fn others_of<A: Allocator>(message: &Message<A>) -> Option<&[u8]>
    ensures { option_copied result ≡ others_of (first_value (codes "via") message.now.headers) }
{
    match message.values(VIA).next() {
        None => None,
        Some(line) => match cut_outside(line, b',', Shelter::Quotes).1 {
            None => None,
            Some(others) => Some(trim(others)),
        },
    }
}

/// The header lines, the first Via line with another value, or left out, and a line for each challenge.
fn replaced_runs<'a, A: Allocator>(
    headers: HeaderLines<'a>,
    others: Option<&'a [u8]>,
    challenges: &'a [Challenge<A>],
) -> [HeaderRun<'a, A>; 6]
    ensures { all_lines result
        ≡ replaced (codes "via") (option_copied others.entry) (views headers.entry) ++ map challenge_line challenges.now }
{
    let (front, back) = headers.split_at(header_index(headers, VIA));
    let front = kept_run(front);
    let last = HeaderRun::Challenges(challenges);
    let Some((top, after)) = back.split_first() else {
        return [
            front,
            last,
            HeaderRun::NoLine,
            HeaderRun::NoLine,
            HeaderRun::NoLine,
            HeaderRun::NoLine,
        ];
    };
    let top = run_if_any(top.name, others);
    [
        front,
        top,
        kept_run(after),
        last,
        HeaderRun::NoLine,
        HeaderRun::NoLine,
    ]
}

/// The header lines, a Contact line for each kept text in the place of all of theirs.
fn exchanged_runs<'a, A: Allocator>(
    headers: HeaderLines<'a>,
    kept: &'a [&'a [u8]],
) -> (HeaderRun<'a, A>, HeaderRun<'a, A>, HeaderRun<'a, A>)
    ensures { lines_of result.0 ++ (lines_of result.1 ++ lines_of result.2)
        ≡ exchanged (codes "contact") (contact_lines (texts kept.now)) (views headers.entry) }
{
    let (front, back) = headers.split_at(header_index(headers, CONTACT));
    let others = HeaderRun::Picked(back, Pick::Others(CONTACT));
    (kept_run(front), HeaderRun::Contacts(kept), others)
}

/// The header lines with the contacts exchanged, and with another value in the first Via line, or
/// without it, and a line for each challenge.
fn kept_runs<'a, A: Allocator>(
    headers: HeaderLines<'a>,
    others: Option<&'a [u8]>,
    kept: &'a [&'a [u8]],
    challenges: &'a [Challenge<A>],
) -> [HeaderRun<'a, A>; 6]
    ensures { all_lines result
        ≡ exchanged (codes "contact") (contact_lines (texts kept.now)) (replaced (codes "via") (option_copied others.entry) (views headers.entry))
        ++ map challenge_line challenges.now }
{
    let (front, back) = headers.split_at(header_index(headers, VIA));
    let last = HeaderRun::Challenges(challenges);
    let Some((top, after)) = back.split_first() else {
        let (first, contacts, rest) = exchanged_runs(front, kept);
        return [
            first,
            contacts,
            rest,
            last,
            HeaderRun::NoLine,
            HeaderRun::NoLine,
        ];
    };
    let top = run_if_any(top.name, others);
    if header_index(front, CONTACT) < front.len() {
        let (first, contacts, rest) = exchanged_runs(front, kept);
        let after = HeaderRun::Picked(after, Pick::Others(CONTACT));
        [first, contacts, rest, top, after, last]
    } else {
        let (first, contacts, rest) = exchanged_runs(after, kept);
        [kept_run(front), top, first, contacts, rest, last]
    }
}

/// The header lines of the response as it goes upstream.
fn upward_runs<'a, A: Allocator>(
    message: &'a Message<A>,
    kept: Option<&'a [&'a [u8]]>,
    challenges: &'a [Challenge<A>],
) -> [HeaderRun<'a, A>; 6]
    ensures { all_lines result ≡ upward_headers message.now.headers (seen_kept kept.entry) challenges.now }
{
    let others = others_of(message);
    match kept {
        None => replaced_runs(message.headers(), others, challenges),
        Some(kept) => kept_runs(message.headers(), others, kept, challenges),
    }
}

/// A start line as it is written.
fn front_of(start: StartLine<'_>) -> Front<'_>
    requires { is_start (view_start start) ≡ true }
    ensures start { start_of result ≡ view_start start.entry }
    ensures fits { IsFront result }
{
    match start {
        StartLine::Request { method, uri } => Front::Request(method, uri),
        StartLine::Response { status, reason } => Front::Response(status, reason),
    }
}

/// Appends the response as it goes upstream, where a second Via value is there.
fn append_upward<A: Allocator, B: Allocator>(
    out: &mut Vec<u8, B>,
    message: &Message<A>,
    kept: Option<&[&[u8]]>,
    challenges: &[Challenge<A>],
) -> Result<(), AllocError>
    ensures ok { OnOk result
        (out.new.items ≡ out.old.items ++ spelling (upward_of message.now (seen_kept kept.entry) challenges.now)) }
    ensures err { OnErr result (out.new.items ≡ out.old.items) }
    ensures room { vec_len out.old + length (spelling (upward_of message.now (seen_kept kept.entry) challenges.now)) ≤ vec_capacity out.old
        → IsOk result }
{
    message.is_message();
    let front = front_of(message.start());
    let runs = upward_runs(message, kept, challenges);
    append_made(out, front, &runs, message.body())
}

/// Appends the response as it goes upstream (RFC 3261 section 16.7 steps 3, 7 and 9): without its top Via value, whose
/// line goes where the value was alone there. With `kept`, one Contact line for each of these texts stands in the place
/// of all Contact lines, where the first stood or else at the end. The challenges follow last, a line for each.
///
/// # Errors
///
/// `LastVia` where no other Via value is there, and there alone; else `NoMemory`, only where the growth
/// of `out`, by as many bytes as the text has, is refused. `out` is then unchanged.
pub fn write_forwarded_response<A: Allocator, B: Allocator>(
    message: &Message<A>,
    kept: Option<&[&[u8]]>,
    challenges: &[Challenge<A>],
    out: &mut Vec<u8, B>,
) -> Result<(), BuildFault>
    requires kept { AreKept (seen_kept kept) }
    requires challenges { list_all is_challenge challenges.now ≡ true }
    ensures built { OnOk result
        (upward message.now (seen_kept kept.entry) challenges.now ≡ Ok (upward_of message.now (seen_kept kept.entry) challenges.now)) }
    ensures ok { OnOk result
        (out.new.items ≡ out.old.items ++ spelling (upward_of message.now (seen_kept kept.entry) challenges.now)) }
    ensures fault { IfErr result (λ fault. fault ≡ refusal message.now) }
    ensures err { OnErr result (out.new.items ≡ out.old.items) }
    ensures room { has_second (via_values message.now) ≡ true
        → vec_len out.old + length (spelling (upward_of message.now (seen_kept kept.entry) challenges.now)) ≤ vec_capacity out.old
        → IsOk result }
{
    if !has_second_via(message) {
        return Err(BuildFault::LastVia);
    }
    Ok(append_upward(out, message, kept, challenges)?)
}
