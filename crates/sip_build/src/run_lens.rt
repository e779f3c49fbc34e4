//! How many bytes the header lines of a message that is written take.

ghost use Rattle.std.specs.Prelude.{◌≡◌, List, ℕ, codes, length};
ghost use Rattle.std.specs.Borrow.{Bor};
ghost use Rattle.std.specs.List.{flat_map};
ghost use Rattle.std.specs.Option.{option_copied};
ghost use Rattle.sip_text.specs.Seen.{view_line, views};
ghost use Rattle.sip_text.specs.Text.{header_text};
ghost use Rattle.sip_lex.specs.Texts.{saturated};
ghost use Rattle.sip_via.specs.Edits.{line};
ghost use Rattle.sip_build.specs.inner.HeaderRuns.{lines_of, picked, under};
ghost use Rattle.sip_build.specs.inner.Texts.{lines_text};
ghost use Rattle.sip_build.specs.Upward.{challenge_line};

use crate::challenges::challenge_name;
use crate::runs::{HeaderRun, Pick, picked_name};
use fork_rank::Challenge;
use sip_lex::pieces_len;
use sip_text::{HeaderLine, HeaderLines};
use std::alloc::Allocator;

/// How many bytes a header line is.
fn line_len(name: &[u8], value: &[u8]) -> usize
    ensures { result ≡ saturated (length (header_text (line name.now value.now))) }
{
    name.len().saturating_add(value.len()).saturating_add(4)
}

/// How many bytes the header lines are.
fn kept_len(headers: HeaderLines<'_>) -> usize
    ensures { result ≡ saturated (length (lines_text (views headers.entry))) }
{
    let mut len = 0usize;
    for line in headers {
        len = len.saturating_add(line_len(line.name, line.value));
    }
    len
}

/// How many bytes a header line under that name is, if it has one.
fn under_len(value: &[u8], name: Option<&[u8]>) -> usize
    ensures { result ≡ saturated (length (lines_text (under value.now (option_copied name.entry)))) }
{
    match name {
        None => 0,
        Some(name) => line_len(name, value),
    }
}

/// How many bytes those of the header lines are that are picked.
fn picked_len(headers: HeaderLines<'_>, pick: Pick<'_>) -> usize
    ensures { result
        ≡ saturated (length (flat_map (λ h. lines_text (picked pick.entry h)) (views headers.entry))) }
{
    let mut len = 0usize;
    for line in headers {
        len = len.saturating_add(under_len(line.value, picked_name(line, pick)));
    }
    len
}

/// How many bytes a Contact line for each text is.
fn contacts_len(kept: &[&[u8]]) -> usize
    ensures { result
        ≡ saturated (length (flat_map (λ (t : Bor (List ℕ)). header_text (line (codes "Contact") t.now)) kept.now)) }
{
    let mut len = 0usize;
    for text in kept {
        len = len.saturating_add(line_len(b"Contact", text));
    }
    len
}

/// How many bytes a line for each challenge is.
fn challenges_len<A: Allocator>(challenges: &[Challenge<A>]) -> usize
    ensures { result
        ≡ saturated (length (flat_map (λ c. header_text (challenge_line c)) challenges.now)) }
{
    let mut len = 0usize;
    for challenge in challenges {
        let name = challenge_name(challenge.proxy());
        len = len.saturating_add(line_len(name, challenge.value()));
    }
    len
}

/// How many bytes the further lines are.
fn further_len(lines: &[HeaderLine<'_>]) -> usize
    ensures { result
        ≡ saturated (length (flat_map (λ f. header_text (view_line f)) lines.now)) }
{
    let mut len = 0usize;
    for line in lines {
        len = len.saturating_add(line_len(line.name, line.value));
    }
    len
}

/// How many bytes the header lines of a run are.
fn run_len<A: Allocator>(run: &HeaderRun<'_, A>) -> usize
    ensures { result ≡ saturated (length (lines_text (lines_of run.now))) }
{
    match run {
        HeaderRun::NoLine => 0,
        HeaderRun::Kept(headers) => kept_len(*headers),
        HeaderRun::Spelled(spelled) => spelled.text.len(),
        HeaderRun::Picked(headers, pick) => picked_len(*headers, *pick),
        HeaderRun::Line(name, value) => line_len(name, value),
        HeaderRun::Joined(name, a, b, c) => pieces_len(&[name, b": ", a, b, c, b"\r\n"]),
        HeaderRun::Contacts(kept) => contacts_len(kept),
        HeaderRun::Challenges(challenges) => challenges_len(challenges),
        HeaderRun::Further(lines) => further_len(lines),
        HeaderRun::SeventyHops => 18,
        HeaderRun::NoBody => 19,
        HeaderRun::From(value) => line_len(b"From", value),
        HeaderRun::To(value) => line_len(b"To", value),
        HeaderRun::CallId(value) => line_len(b"Call-ID", value),
    }
}

/// How many bytes the header lines of each run are.
pub(crate) fn runs_len<A: Allocator>(runs: &[HeaderRun<'_, A>]) -> usize
    ensures { result
        ≡ saturated (length (flat_map (λ g. lines_text (lines_of g)) runs.now)) }
{
    let mut len = 0usize;
    for run in runs {
        len = len.saturating_add(run_len(run));
    }
    len
}
