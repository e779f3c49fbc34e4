//! The top Via value of a request, read once: the line that it will stand in, marked with the request's source, where the response
//! goes, and whose the request is.

ghost use Rattle.std.specs.Prelude.{◌≡◌, ◌≤◌, IfOk, Ok, OnErr, option_map, true};
ghost use Rattle.std.specs.Option.{option_copied};
ghost use Rattle.sip_via.specs.ReadTop.{IsTopOf, begins_with_cookie, has_cookie, reply_if_read};
ghost use Rattle.sip_via.specs.Received.{IsSource, line_marked};
ghost use Rattle.sip_via.specs.Sender.{seen_sender, sender_if_read};
ghost use Rattle.sip_via.specs.inner.CutLines.{IsCutLine};
ghost use Rattle.sip_via.specs.inner.Replies.{reply_unmarked};
ghost use Rattle.sip_via.specs.inner.SeenTop.{line_text};
ghost use Rattle.sip_via.specs.TopVia.{top_value};
ghost use Rattle.sip_via.specs.ViaParts.{branch_of, is_via, read_via, via_of};

use crate::first_line::{CutLine, cut_line, grown_line, short_line, via_line};
use crate::reply::reply_hop_unmarked;
use crate::sender::{Sender, sender_in};
use sip_lex::Short;
use sip_text::Message;
use sip_uri::Hop;
use std::alloc::{AllocError, Allocator};
use std::marker::Model;

/// A Via line with its first value marked: most are short.
#[derive(Drop)]
enum MarkedLine<A: Allocator> {
    Placed(Short),
    Grown(Vec<u8, A>),
}

/// What is read of a top Via value that is one.
#[derive(Drop)]
struct MarkedTop<A: Allocator> {
    line: MarkedLine<A>,
    reply: Hop,
    cookie: bool,
}

/// What the top Via value of a request says that came from somewhere, if it can be read: the first Via line as it stands once the
/// request is marked with its source, where the response goes, and whether the branch begins as RFC 3261 has it (RFC 3261 sections
/// 8.1.1.7, 18.2.1 and 18.2.2). It is read before the request is handed on, so that nobody cuts the value again.
#[derive(Drop)]
pub struct TopVia<A: Allocator> {
    read: Option<MarkedTop<A>>,
}

impl<A: Allocator> Model for TopVia<A> {
    ghost use Rattle.std.specs.Prelude.{Option, option_map};
    ghost use Rattle.sip_via.specs.ReadTop.{ReadTop};
    ghost use Rattle.sip_via.specs.inner.SeenTop.{seen_top};

    ghost Value = { Option ReadTop };

    ghost view = { λ t. option_map seen_top t.read };
}

/// Shows that the numbers of a hop are bounded.
fn fact_hop(source: Hop)
    ensures bounded { IsSource source }
    ensures port { source.port ≤ 65535 }
{}

/// Whether a branch begins with the cookie (RFC 3261 section 8.1.1.7).
fn begins_with_cookie(branch: Option<&[u8]>) -> bool
    ensures { result ≡ begins_with_cookie (option_copied branch.entry) }
{
    match branch {
        None => false,
        Some(branch) => branch.starts_with(b"z9hG4bK"),
    }
}

/// The line with its first value marked.
fn marked_of<A: Allocator>(
    alloc: A,
    whole: &[u8],
    line: &CutLine<'_>,
    source: Hop,
) -> Result<MarkedLine<A>, AllocError>
    requires { IsCutLine line.now whole.now }
    ensures { IfOk result (λ marked. line_marked source whole.now ≡ Ok (line_text marked)) }
{
    match short_line(line, source) {
        Some(text) => Ok(MarkedLine::Placed(text)),
        None => Ok(MarkedLine::Grown(grown_line(alloc, whole, line, source)?)),
    }
}

/// The text of the line.
fn text_of<A: Allocator>(line: &MarkedLine<A>) -> &[u8]
    ensures { result.now ≡ line_text line.now }
{
    match line {
        MarkedLine::Placed(text) => text.as_slice(),
        MarkedLine::Grown(text) => text,
    }
}

/// What is read of a request that came from `source`: its top Via value is cut once, for all that the request is asked for by it. With
/// it its sender, where that value is one, by which the request is looked for (RFC 3261 section 17.2.3).
///
/// # Errors
///
/// Only where the allocator refuses; the top Via value is one then.
#[tactic(auto, using(crate::proofs::laws::ReadTop::read_by, crate::proofs::laws::ReadTop::sender_told, crate::proofs::laws::ReadTop::not_read, crate::proofs::laws::ReadTop::no_sender, crate::proofs::laws::ReadTop::reads))]
pub fn read_top<'a, A: Allocator + Clone>(
    alloc: &A,
    message: &'a Message<A>,
    source: Hop,
) -> Result<(TopVia<A>, Option<Sender<'a>>), AllocError>
    ensures top { IfOk result (λ read. IsTopOf message.now source read.0) }
    ensures sender { IfOk result (λ read. option_map seen_sender read.1 ≡ sender_if_read (read_via (top_value message.now))) }
    ensures refused { OnErr result (is_via (top_value message.now) ≡ true) }
{
    fact_hop(source);
    let whole = via_line(message);
    let Some(line) = cut_line(whole) else {
        return Ok((TopVia { read: None }, None));
    };
    let sender = sender_in(&line.cut);
    let marked = marked_of(alloc.clone()?, whole, &line, source)?;
    let reply = reply_hop_unmarked(&line.cut, source);
    let cookie = begins_with_cookie(sender.branch);
    let read = MarkedTop {
        line: marked,
        reply,
        cookie,
    };
    Ok((TopVia { read: Some(read) }, Some(sender)))
}

impl<A: Allocator + Clone> TopVia<A> {
    ghost use Rattle.std.specs.Prelude.{◌≡◌, IfOk, OnErr, true};
    ghost use Rattle.sip_via.specs.ReadTop.{IsTopOf};
    ghost use Rattle.sip_via.specs.TopVia.{top_value};
    ghost use Rattle.sip_via.specs.ViaParts.{is_via};

    /// What is read of a request that came from `source`, as [`read_top`] reads it.
    ///
    /// # Errors
    ///
    /// Only where the allocator refuses; the top Via value is one then.
    pub fn of(alloc: &A, message: &Message<A>, source: Hop) -> Result<TopVia<A>, AllocError>
        ensures top { IfOk result (IsTopOf message.now source) }
        ensures refused { OnErr result (is_via (top_value message.now) ≡ true) }
    {
        match read_top(alloc, message, source) {
            Ok((top, _)) => Ok(top),
            Err(AllocError) => Err(AllocError),
        }
    }
}

impl<A: Allocator> TopVia<A> {
    /// The first Via line with the source in it, where the value is one.
    pub(crate) fn line(&self) -> Option<&[u8]>
        ensures { option_copied result ≡ option_map (λ top. top.line) self.now }
    {
        match &self.read {
            None => None,
            Some(top) => Some(text_of(&top.line)),
        }
    }

    /// Where the response goes (RFC 3261 section 18.2.2, RFC 3581 section 4): as [`crate::reply_hop_of`] says it of the request with its
    /// source; back to where the request came from, `source`, where the value is none.
    pub fn reply_hop(&self, source: Hop) -> Hop
        ensures { result ≡ reply_if_read self.now source }
    {
        match &self.read {
            None => source,
            Some(top) => top.reply,
        }
    }

    /// Whether the value is one, and its branch begins as RFC 3261 has it (section 8.1.1.7).
    pub fn has_cookie(&self) -> bool
        ensures { result ≡ has_cookie self.now }
    {
        match &self.read {
            None => false,
            Some(top) => top.cookie,
        }
    }
}
