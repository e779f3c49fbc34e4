//! Why the answer that went up did, in words.
ghost use Rattle.std.specs.Prelude.{◌≡◌, ◌++◌, codes, length, slice_get, IfOk, OnOk};
ghost use Rattle.std.specs.Option.{option_and_then, option_to_list};
ghost use Rattle.context_values.specs.ReplyView.{choice_of};
ghost use Rattle.call_journal.specs.Why.{answer_text, arrival_words, class_words, is_alike, is_assumed, others_text, part_words, ranked_alike, reason, same_class, several_text, source_text, source_words, stored_status, stored_statuses, target_at, why_text};

use crate::head::append_shown;
use fork_context::{Choice, Context, End, State};
use fork_listing::status_at;
use fork_rank::{Rules, StatusClass, append, rank_class, rank_part};
use sip_lex::append_decimal;
use std::alloc::{AllocError, Allocator};

/// Whether two statuses rank alike, but for their arrivals.
fn is_alike(rules: &Rules, other: u16, status: u16) -> bool
    ensures { result ≡ is_alike rules.now other status }
{
    rank_class(other) == rank_class(status) && rank_part(rules, other) == rank_part(rules, status)
}

/// How many are of the class of a status.
fn same_class(statuses: &[u16], status: u16) -> usize
    ensures { result ≡ same_class statuses.now status }
{
    statuses
        .iter()
        .filter(|other| rank_class(**other) == rank_class(status))
        .count()
}

/// How many rank as a status does, but for their arrivals.
fn ranked_alike(rules: &Rules, statuses: &[u16], status: u16) -> usize
    ensures { result ≡ ranked_alike rules.now statuses.now status }
{
    statuses
        .iter()
        .filter(|other| is_alike(rules, **other, status))
        .count()
}

/// Of a status that is the only one of its class.
fn class_words(status: u16) -> &'static [u8]
    ensures { result.now ≡ class_words status }
{
    match StatusClass::of(status) {
        StatusClass::GlobalFailure => b"6xx before all others",
        _ => b"lowest class",
    }
}

/// Of a status that is the only one of its part of a class.
fn part_words(status: u16) -> &'static [u8]
    ensures { result.now ≡ part_words status }
{
    match StatusClass::of(status) {
        StatusClass::ServerError | StatusClass::GlobalFailure => b"before 503 among 5xx",
        _ => b"preferred among 4xx",
    }
}

/// Of a status that came first of its part of a class.
fn arrival_words(rules: &Rules, status: u16) -> &'static [u8]
    ensures { result.now ≡ arrival_words rules.now status }
{
    match StatusClass::of(status) {
        StatusClass::GlobalFailure => b"earliest among 6xx",
        StatusClass::ServerError if status == 503 => b"earliest among 503",
        StatusClass::ServerError => b"earliest among 5xx other than 503",
        StatusClass::ClientError if rules.prefers(status) => b"earliest among preferred 4xx",
        StatusClass::ClientError => b"earliest among 4xx",
        _ => b"earliest among 3xx",
    }
}

/// What sets a status apart from all that are stored, itself among them.
fn reason(rules: &Rules, statuses: &[u16], status: u16) -> &'static [u8]
    ensures { result.now ≡ reason rules.now statuses.now status }
{
    if statuses.len() <= 1 {
        b"the only answer"
    } else if same_class(statuses, status) <= 1 {
        class_words(status)
    } else if ranked_alike(rules, statuses, status) <= 1 {
        part_words(status)
    } else {
        arrival_words(rules, status)
    }
}

/// The status of the answer that row n has stored.
fn stored_status<A: Allocator + Clone>(context: &Context<A>, n: u16) -> Option<u16>
    ensures { result ≡ option_and_then stored_status (slice_get context.now.table.rows n) }
{
    match context.look(n) {
        Some(view) => match &view.row.state {
            State::Ended(End::Stored { status, .. }) => Some(status.code()),
            _ => None,
        },
        None => None,
    }
}

/// Adds the status of the answer that row n has stored, if it has one.
fn push_stored<A: Allocator + Clone>(
    statuses: &mut Vec<u16, A>,
    context: &Context<A>,
    n: u16,
) -> Result<(), AllocError>
    ensures { OnOk result (statuses.new.items ≡ statuses.old.items ++ option_to_list (option_and_then stored_status (slice_get context.now.table.rows n))) }
{
    match stored_status(context, n) {
        Some(status) => Ok(statuses.push(status)?),
        None => Ok(()),
    }
}

/// The statuses of all stored answers.
fn stored_statuses<A: Allocator + Clone>(
    alloc: A,
    context: &Context<A>,
) -> Result<Vec<u16, A>, AllocError>
    ensures { IfOk result (λ statuses. statuses.items ≡ stored_statuses context.now.table.rows) }
{
    let mut statuses = Vec::new(alloc);
    for n in 0..context.count() {
        push_stored(&mut statuses, context, n)?;
    }
    Ok(statuses)
}

/// Whether the answer that row n has stored did not come, but was assumed by the proxy.
fn is_assumed<A: Allocator + Clone>(context: &Context<A>, n: u16) -> bool
    ensures { result ≡ is_assumed (slice_get context.now.table.rows n) }
{
    match context.look(n) {
        Some(view) => match &view.row.state {
            State::Ended(End::Stored { received, .. }) => !*received,
            _ => false,
        },
        None => false,
    }
}

/// Before the target of an answer, which came from there or was assumed.
fn source_words(assumed: bool) -> &'static [u8]
    ensures { result.now ≡ source_words assumed }
{
    if assumed {
        b" assumed for sip:"
    } else {
        b" from sip:"
    }
}

/// The target of row n, as targets are compared.
fn target_of<A: Allocator + Clone>(context: &Context<A>, n: u16) -> &[u8]
    ensures { result.now ≡ target_at context.now.table.rows n }
{
    context.key(n).unwrap_or(b"")
}

/// Appends whose answer row n has stored.
fn append_source<A: Allocator + Clone>(
    out: &mut Vec<u8, A>,
    context: &Context<A>,
    n: u16,
) -> Result<(), AllocError>
    ensures { OnOk result (out.new.items ≡ out.old.items ++ source_text context.now.table.rows n) }
{
    append(out, source_words(is_assumed(context, n)))?;
    append_shown(out, target_of(context, n))
}

/// Appends how many others are stored, of which there are several.
fn append_several<A: Allocator>(out: &mut Vec<u8, A>, others: u64) -> Result<(), AllocError>
    ensures { OnOk result (out.new.items ≡ out.old.items ++ several_text others) }
{
    append(out, b", ")?;
    append_decimal(out, others)?;
    append(out, b" others stored")
}

/// Appends how many others are stored, where this many are in all.
fn append_others<A: Allocator>(out: &mut Vec<u8, A>, stored: usize) -> Result<(), AllocError>
    ensures { OnOk result (out.new.items ≡ out.old.items ++ others_text stored) }
{
    if stored <= 1 {
        return Ok(());
    }
    if stored == 2 {
        return append(out, b", 1 other stored");
    }
    append_several(out, (stored - 1) as u64)
}

/// Appends what sets a status apart from all that are stored, and how many others those are.
fn append_reason<A: Allocator>(
    out: &mut Vec<u8, A>,
    rules: &Rules,
    statuses: &[u16],
    status: u16,
) -> Result<(), AllocError>
    ensures { OnOk result (out.new.items ≡ out.old.items ++ (reason rules.now statuses.now status ++ others_text (length statuses.now))) }
{
    append(out, reason(rules, statuses, status))?;
    append_others(out, statuses.len())
}

/// Appends whose answer row n has stored, and why it ranks first.
fn append_answer<A: Allocator + Clone>(
    out: &mut Vec<u8, A>,
    context: &Context<A>,
    n: u16,
) -> Result<(), AllocError>
    ensures { OnOk result (out.new.items ≡ out.old.items ++ answer_text context.now.table n) }
{
    let alloc = out.allocator().clone()?;
    let statuses = stored_statuses(alloc, context)?;
    append_source(out, context, n)?;
    append(out, b", ")?;
    append_reason(out, &context.rules(), &statuses, status_at(context, n))
}

/// Appends the same of a 503, in whose place a 500 went up.
fn append_503<A: Allocator + Clone>(
    out: &mut Vec<u8, A>,
    context: &Context<A>,
    n: u16,
) -> Result<(), AllocError>
    ensures { OnOk result (out.new.items ≡ out.old.items ++ (codes " in place of 503" ++ answer_text context.now.table n)) }
{
    append(out, b" in place of 503")?;
    append_answer(out, context, n)
}

/// Appends why this choice was made, behind the status that went up.
pub(crate) fn append_why<A: Allocator + Clone>(
    out: &mut Vec<u8, A>,
    context: &Context<A>,
    choice: Choice,
) -> Result<(), AllocError>
    ensures { OnOk result (out.new.items ≡ out.old.items ++ why_text context.now.table (choice_of choice)) }
{
    match choice {
        Choice::Stored(n) => append_answer(out, context, n),
        Choice::Only503(n) => append_503(out, context, n),
        Choice::NoAnswer408 => append(out, b", no answer stored"),
    }
}
