//! What the header lines of a message that is written are made of.

ghost use Rattle.std.specs.Prelude.{◌≡◌, ◌+◌, ◌++◌, ◌≤◌, ◌<◌, List, ℕ, codes, length, OnErr, OnOk, take, vec_capacity, vec_len};
ghost use Rattle.std.specs.Borrow.{Bor};
ghost use Rattle.std.specs.List.{flat_map};
ghost use Rattle.std.specs.Option.{option_copied};
ghost use Rattle.sip_text.specs.Seen.{view_line, views};
ghost use Rattle.sip_text.specs.Text.{header_text};
ghost use Rattle.sip_lex.specs.Texts.{saturated};
ghost use Rattle.sip_via.specs.Edits.{line, line_if_any};
ghost use Rattle.sip_build.specs.inner.HeaderRuns.{lines_of, picked, picked_name, tail_text, under};
ghost use Rattle.sip_build.specs.inner.Placed.{Placed};
ghost use Rattle.sip_build.specs.inner.Texts.{lines_text};
ghost use Rattle.sip_build.specs.Upward.{challenge_line};

use crate::challenges::challenge_name;
use crate::place::{place, place_line, place_pieces};
use crate::run_lens::runs_len;
use crate::spelled_lines::SpelledLines;
use fork_rank::Challenge;
use sip_lex::pieces_len;
use sip_text::{HeaderLine, HeaderLines};
use std::alloc::{AllocError, Allocator};

/// Which header lines are written, and under which name.
#[derive(Clone, Copy)]
pub(crate) enum Pick<'a> {
    /// Those of that name, as they stand.
    Named(&'a [u8]),
    /// Those of other names, as they stand.
    Others(&'a [u8]),
    /// Those of the first name, under the second.
    Renamed(&'a [u8], &'a [u8]),
}

/// Header lines of a message that is written.
#[derive(Drop)]
pub(crate) enum HeaderRun<'a, A: Allocator> {
    /// No line.
    NoLine,
    /// Lines as they stand.
    Kept(HeaderLines<'a>),
    /// The same, where their message has them as they are written.
    Spelled(SpelledLines<'a>),
    /// Some of these lines.
    Picked(HeaderLines<'a>, Pick<'a>),
    /// A line of that name and value.
    Line(&'a [u8], &'a [u8]),
    /// A line of that name; its value is the three texts one behind the other.
    Joined(&'a [u8], &'a [u8], &'a [u8], &'a [u8]),
    /// A Contact line for each text.
    Contacts(&'a [&'a [u8]]),
    /// A line for each challenge.
    Challenges(&'a [Challenge<A>]),
    /// Lines beside those that are always there.
    Further(&'a [HeaderLine<'a>]),
    /// A Max-Forwards line of seventy hops.
    SeventyHops,
    /// A Content-Length line of a message that has no body.
    NoBody,
    /// A From line of that value.
    From(&'a [u8]),
    /// A To line of that value.
    To(&'a [u8]),
    /// A Call-ID line of that value.
    CallId(&'a [u8]),
}

/// A line of that name, if there is a value for it.
pub(crate) fn run_if_any<'a, A: Allocator>(
    name: &'a [u8],
    value: Option<&'a [u8]>,
) -> HeaderRun<'a, A>
    ensures { lines_of result ≡ line_if_any name.now (option_copied value.entry) }
{
    match value {
        None => HeaderRun::NoLine,
        Some(value) => HeaderRun::Line(name, value),
    }
}

/// The lines as they stand. The text that spells them is looked for in their message, once.
pub(crate) fn kept_run<'a, A: Allocator>(headers: HeaderLines<'a>) -> HeaderRun<'a, A>
    ensures { lines_of result ≡ views headers.entry }
{
    match headers.as_written() {
        Some(text) => HeaderRun::Spelled(SpelledLines {
            lines: headers,
            text,
        }),
        None => HeaderRun::Kept(headers),
    }
}

/// The name that a header line is written under, if it is written.
pub(crate) fn picked_name<'a>(line: HeaderLine<'a>, pick: Pick<'a>) -> Option<&'a [u8]>
    ensures { option_copied result ≡ picked_name pick.entry (view_line line.entry) }
{
    match pick {
        Pick::Named(name) => line.is_named(name).then_some(line.name),
        Pick::Others(name) => (!line.is_named(name)).then_some(line.name),
        Pick::Renamed(name, other) => line.is_named(name).then_some(other),
    }
}

/// Writes a header line under that name, if it has one.
fn place_under(out: &mut [u8], at: usize, value: &[u8], name: Option<&[u8]>) -> usize
    requires { at + length (lines_text (under value.now (option_copied name))) ≤ length out.old }
    ensures { Placed out.old out.new at (lines_text (under value.now (option_copied name.entry))) result }
{
    match name {
        None => at,
        Some(name) => place_line(out, at, name, value),
    }
}

/// Writes the header lines.
fn place_headers(out: &mut [u8], at: usize, headers: HeaderLines<'_>) -> usize
    requires { at + length (lines_text (views headers)) ≤ length out.old }
    ensures { Placed out.old out.new at (lines_text (views headers.entry)) result }
{
    let mut end = at;
    for line in headers {
        end = place_line(out, end, line.name, line.value);
    }
    end
}

/// Writes those of the header lines that are picked.
fn place_picked(out: &mut [u8], at: usize, headers: HeaderLines<'_>, pick: Pick<'_>) -> usize
    requires { at + length (flat_map (λ h. lines_text (picked pick h)) (views headers)) ≤ length out.old }
    ensures { Placed out.old out.new at (flat_map (λ h. lines_text (picked pick.entry h)) (views headers.entry)) result }
{
    let mut end = at;
    for line in headers {
        end = place_under(out, end, line.value, picked_name(line, pick));
    }
    end
}

/// Writes a Contact line for each text.
fn place_contacts(out: &mut [u8], at: usize, kept: &[&[u8]]) -> usize
    requires { at + length (flat_map (λ (t : Bor (List ℕ)). header_text (line (codes "Contact") t.now)) kept.now) ≤ length out.old }
    ensures { Placed out.old out.new at (flat_map (λ (t : Bor (List ℕ)). header_text (line (codes "Contact") t.now)) kept.now) result }
{
    let mut end = at;
    for text in kept {
        end = place_line(out, end, b"Contact", text);
    }
    end
}

/// Writes a line for each challenge.
fn place_challenges<A: Allocator>(out: &mut [u8], at: usize, challenges: &[Challenge<A>]) -> usize
    requires { at + length (flat_map (λ c. header_text (challenge_line c)) challenges.now) ≤ length out.old }
    ensures { Placed out.old out.new at (flat_map (λ c. header_text (challenge_line c)) challenges.now) result }
{
    let mut end = at;
    for challenge in challenges {
        let name = challenge_name(challenge.proxy());
        end = place_line(out, end, name, challenge.value());
    }
    end
}

/// Writes the further lines.
fn place_further(out: &mut [u8], at: usize, lines: &[HeaderLine<'_>]) -> usize
    requires { at + length (flat_map (λ f. header_text (view_line f)) lines.now) ≤ length out.old }
    ensures { Placed out.old out.new at (flat_map (λ f. header_text (view_line f)) lines.now) result }
{
    let mut end = at;
    for line in lines {
        end = place_line(out, end, line.name, line.value);
    }
    end
}

/// Writes the header lines of a run.
fn place_run<A: Allocator>(out: &mut [u8], at: usize, run: &HeaderRun<'_, A>) -> usize
    requires { at + length (lines_text (lines_of run.now)) ≤ length out.old }
    ensures { Placed out.old out.new at (lines_text (lines_of run.now)) result }
{
    match run {
        HeaderRun::NoLine => at,
        HeaderRun::Kept(headers) => place_headers(out, at, *headers),
        HeaderRun::Spelled(spelled) => place(out, at, spelled.text),
        HeaderRun::Picked(headers, pick) => place_picked(out, at, *headers, *pick),
        HeaderRun::Line(name, value) => place_line(out, at, name, value),
        HeaderRun::Joined(name, a, b, c) => place_pieces(out, at, &[name, b": ", a, b, c, b"\r\n"]),
        HeaderRun::Contacts(kept) => place_contacts(out, at, kept),
        HeaderRun::Challenges(challenges) => place_challenges(out, at, challenges),
        HeaderRun::Further(lines) => place_further(out, at, lines),
        HeaderRun::SeventyHops => place(out, at, b"Max-Forwards: 70\r\n"),
        HeaderRun::NoBody => place(out, at, b"Content-Length: 0\r\n"),
        HeaderRun::From(value) => place_line(out, at, b"From", value),
        HeaderRun::To(value) => place_line(out, at, b"To", value),
        HeaderRun::CallId(value) => place_line(out, at, b"Call-ID", value),
    }
}

/// Writes the header lines of each run in order.
fn place_runs<A: Allocator>(out: &mut [u8], at: usize, runs: &[HeaderRun<'_, A>]) -> usize
    requires { at + length (flat_map (λ g. lines_text (lines_of g)) runs.now) ≤ length out.old }
    ensures { Placed out.old out.new at (flat_map (λ g. lines_text (lines_of g)) runs.now) result }
{
    let mut end = at;
    for run in runs {
        end = place_run(out, end, run);
    }
    end
}

/// Writes the header lines of the runs, the empty line and the body.
fn place_tail<A: Allocator>(
    out: &mut [u8],
    at: usize,
    runs: &[HeaderRun<'_, A>],
    body: &[u8],
) -> usize
    requires { at + length (tail_text runs.now body.now) ≤ length out.old }
    ensures { Placed out.old out.new at (tail_text runs.now body.now) result }
{
    let end = place_runs(out, at, runs);
    place_pieces(out, end, &[b"\r\n", body])
}

/// How many bytes the header lines of the runs, the empty line and the body are.
pub(crate) fn tail_len<A: Allocator>(runs: &[HeaderRun<'_, A>], body: &[u8]) -> usize
    ensures { result ≡ saturated (length (tail_text runs.now body.now)) }
{
    runs_len(runs).saturating_add(pieces_len(&[b"\r\n", body]))
}

/// Appends that many bytes, which are written over, or a part of them.
fn append_blank<B: Allocator>(out: &mut Vec<u8, B>, len: usize) -> Result<(), AllocError>
    ensures len { OnOk result (vec_len out.new ≡ vec_len out.old + len) }
    ensures begins { take (vec_len out.old) out.new.items ≡ out.old.items }
    ensures full { OnErr result (vec_capacity out.old < vec_len out.old + len) }
{
    out.reserve(len)?;
    let blank = [0; 1024];
    let mut left = len;
    while left > 1024 {
        out.extend_from_slice(&blank)?;
        left -= 1024;
    }
    out.extend_from_slice(&blank[..left])
}

/// Appends the header lines of the runs, the empty line and the body, which are that many bytes, or
/// a part of them; `out` grows once at most.
pub(crate) fn append_tail<A: Allocator, B: Allocator>(
    out: &mut Vec<u8, B>,
    runs: &[HeaderRun<'_, A>],
    body: &[u8],
    len: usize,
) -> Result<(), AllocError>
    requires { len ≡ saturated (length (tail_text runs.now body.now)) }
    ensures ok { OnOk result (out.new.items ≡ out.old.items ++ tail_text runs.now body.now) }
    ensures begins { take (vec_len out.old) out.new.items ≡ out.old.items }
    ensures full { OnErr result
        (vec_capacity out.old < vec_len out.old + length (tail_text runs.now body.now)) }
{
    let before = out.len();
    append_blank(out, len)?;
    let _end = place_tail(out, before, runs, body);
    Ok(())
}
