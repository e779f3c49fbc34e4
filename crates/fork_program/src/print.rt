//! The texts that a replay prints.
ghost use Rattle.std.specs.Prelude.{◌≡◌, ◌++◌, Some, codes, OnOk, OnErr, [], slice_get, not, IfOk};
ghost use Rattle.std.specs.Fmt.{decimal};
ghost use Rattle.fork_model.specs.Table.{is_ended, is_trying, is_row};
ghost use Rattle.fork_model.specs.Choice as spec_choice;
ghost use Rattle.fork_model.specs.Challenges.{challenge_list};
ghost use Rattle.fork_model.specs.Chosen.{IsChosen};
ghost use Rattle.context_values.specs.ReplyView.{choice_of, up_of};
ghost use Rattle.fork_program.specs.Replay.{tried, opening_text, final_text, up_text, reply_text, branches_left, field_name, added_text, added_lines, EndsWith};
ghost use Rattle.fork_rank.specs.RuleLines.{ended};

use fork_context::{Choice, Context, Reply, State, Up};
use fork_listing::{ListFault, listing, status_at};
use fork_rank::{Challenge, append, append_list};
use sip_lex::append_decimal;
use std::alloc::{AllocError, Allocator};

/// Appends a word and a number.
fn append_numbered<A: Allocator>(
    text: &mut Vec<u8, A>,
    word: &[u8],
    n: u16,
) -> Result<(), AllocError>
    ensures { OnOk result (text.new.items ≡ text.old.items ++ (word.now ++ decimal n)) }
{
    append(text, word)?;
    append_decimal(text, u64::from(n))
}

/// Appends the final answer of a choice.
fn append_final<A: Allocator + Clone>(
    text: &mut Vec<u8, A>,
    context: &Context<A>,
    choice: Choice,
) -> Result<(), AllocError>
    ensures { OnOk result (text.new.items ≡ text.old.items ++ final_text context.now.table.rows (choice_of choice)) }
{
    match choice {
        Choice::Stored(n) => {
            append_numbered(text, b"final ", status_at(context, n))?;
            append_numbered(text, b" ", n)
        }
        Choice::Only503(n) => append_numbered(text, b"final 500 ", n),
        Choice::NoAnswer408 => append(text, b"final 408 -"),
    }
}

fn append_up<A: Allocator + Clone>(
    text: &mut Vec<u8, A>,
    context: &Context<A>,
    up: Up,
) -> Result<(), AllocError>
    ensures { OnOk result (text.new.items ≡ text.old.items ++ up_text context.now.table.rows (up_of up)) }
{
    match up {
        Up::Nothing => append(text, b"-"),
        Up::Provisional(n) => append_numbered(text, b"provisional ", n),
        Up::Success(n) => append_numbered(text, b"success ", n),
        Up::Final(choice) => append_final(text, context, choice),
    }
}

/// The line of the reply to an event, by the context after it.
fn reply_line<A: Allocator + Clone>(
    alloc: A,
    context: &Context<A>,
    reply: &Reply<A>,
) -> Result<Vec<u8, A>, AllocError>
    ensures { IfOk result (λ line. line.items ≡ ended (reply_text context.now.table.rows reply.now)) }
{
    let mut line = Vec::new(alloc);
    append_decimal(&mut line, u64::from(reply.at()))?;
    append(&mut line, b" start ")?;
    append_list(&mut line, reply.started())?;
    append(&mut line, b" cancel ")?;
    append_list(&mut line, reply.cancelled())?;
    append(&mut line, b" up ")?;
    append_up(&mut line, context, reply.up())?;
    append(&mut line, b"\n")?;
    Ok(line)
}

/// Appends a line that is ended by LF: the reply to an event, by the context after it.
///
/// # Errors
///
/// Want of memory; then the text is as it was.
pub fn append_reply<A: Allocator + Clone>(
    text: &mut Vec<u8, A>,
    context: &Context<A>,
    reply: &Reply<A>,
) -> Result<(), AllocError>
    ensures appended { OnOk result (text.new.items ≡ text.old.items ++ ended (reply_text context.now.table.rows reply.now)) }
    ensures err { OnErr result (text.new.items ≡ text.old.items) }
{
    let line = reply_line(text.allocator().clone()?, context, reply)?;
    text.extend_from_slice(&line)
}

/// Appends the line of an event that is refused, as the context has taken as many as it may.
///
/// # Errors
///
/// Want of memory.
pub fn append_full<A: Allocator>(text: &mut Vec<u8, A>) -> Result<(), AllocError>
    ensures { OnOk result (text.new.items ≡ text.old.items ++ ended (codes "full")) }
{
    append(text, b"full\n")
}

/// Whether row n is tried and has not rung.
fn is_tried<A: Allocator + Clone>(context: &Context<A>, n: u16) -> bool
    ensures { result ≡ is_row is_trying (slice_get context.now.table.rows n) }
{
    match context.look(n) {
        Some(view) => view.row.state == State::Trying,
        None => false,
    }
}

/// Whether row n has not ended.
fn is_left<A: Allocator + Clone>(context: &Context<A>, n: u16) -> bool
    ensures { result ≡ is_row (λ state. not (is_ended state)) (slice_get context.now.table.rows n) }
{
    match context.look(n) {
        Some(view) => !matches!(view.row.state, State::Ended(_)),
        None => false,
    }
}

/// The rows that are tried, by number.
fn tried<A: Allocator + Clone>(alloc: A, context: &Context<A>) -> Result<Vec<u16, A>, AllocError>
    ensures { IfOk result (λ numbers. numbers.items ≡ tried context.now.table.rows) }
{
    let mut numbers = Vec::new(alloc);
    for n in 0..context.count() {
        if is_tried(context, n) {
            numbers.push(n)?;
        }
    }
    Ok(numbers)
}

/// How many rows have not ended.
fn branches_left<A: Allocator + Clone>(context: &Context<A>) -> u16
    ensures { result ≡ branches_left context.now.table.rows }
{
    let mut left = 0;
    for n in 0..context.count() {
        if is_left(context, n) {
            left += 1;
        }
    }
    left
}

/// The first line: the rows that are tried at once.
fn opening_line<A: Allocator + Clone>(
    alloc: A,
    context: &Context<A>,
) -> Result<Vec<u8, A>, AllocError>
    ensures { IfOk result (λ line. line.items ≡ ended (opening_text context.now.table)) }
{
    let mut line = Vec::new(alloc.clone()?);
    append(&mut line, b"opening start ")?;
    append_list(&mut line, &tried(alloc, context)?)?;
    append(&mut line, b"\n")?;
    Ok(line)
}

/// Appends the first line: the rows that are tried at once.
///
/// # Errors
///
/// Want of memory; then the text is as it was.
pub fn append_opening<A: Allocator + Clone>(
    alloc: A,
    text: &mut Vec<u8, A>,
    context: &Context<A>,
) -> Result<(), AllocError>
    ensures appended { OnOk result (text.new.items ≡ text.old.items ++ ended (opening_text context.now.table)) }
    ensures err { OnErr result (text.new.items ≡ text.old.items) }
{
    let line = opening_line(alloc, context)?;
    text.extend_from_slice(&line)
}

/// Appends the line of a fork some of whose branches have not ended.
fn append_unfinished<A: Allocator + Clone>(
    text: &mut Vec<u8, A>,
    context: &Context<A>,
) -> Result<(), AllocError>
    ensures { OnOk result (text.new.items ≡ text.old.items ++ ended (codes "unfinished " ++ decimal (branches_left context.now.table.rows))) }
{
    append_numbered(text, b"unfinished ", branches_left(context))?;
    append(text, b"\n")
}

/// The header field that a challenge is a value of.
fn field_name(proxy: bool) -> &'static [u8]
    ensures { result.now ≡ field_name proxy }
{
    if proxy {
        b"Proxy-Authenticate"
    } else {
        b"WWW-Authenticate"
    }
}

/// Appends the line of a challenge that is added to the final answer.
fn append_challenge<A: Allocator>(
    text: &mut Vec<u8, A>,
    challenge: &Challenge<A>,
) -> Result<(), AllocError>
    ensures { OnOk result (text.new.items ≡ text.old.items ++ ended (added_text challenge.now)) }
{
    append(text, b"add ")?;
    append(text, field_name(challenge.proxy()))?;
    append(text, b": ")?;
    append(text, challenge.value())?;
    append(text, b"\n")
}

/// Appends a line for each challenge.
fn append_challenges<A: Allocator>(
    text: &mut Vec<u8, A>,
    challenges: &[Challenge<A>],
) -> Result<(), AllocError>
    ensures { OnOk result (text.new.items ≡ text.old.items ++ added_lines challenges.now) }
{
    for challenge in challenges {
        append_challenge(text, challenge)?;
    }
    Ok(())
}

/// Appends a line for each challenge that goes up beside those of the chosen answer.
fn append_added<A: Allocator + Clone>(
    alloc: A,
    text: &mut Vec<u8, A>,
    context: &Context<A>,
) -> Result<(), AllocError>
    // The challenges are those of the one choice that is due.
    ensures { (choice : spec_choice.Choice) → IsChosen context.now.table (Some choice) → OnOk result (text.new.items ≡ text.old.items ++ added_lines (challenge_list context.now.table.rows choice)) }
{
    let mut added = Vec::new(alloc);
    context.challenges(&mut added)?;
    append_challenges(text, &added)
}

/// Appends how a fork stands whose final answer has gone up: what was added to it, and the listing.
fn append_listed<A: Allocator + Clone>(
    alloc: A,
    text: &mut Vec<u8, A>,
    context: &Context<A>,
    listed: &[u8],
) -> Result<(), AllocError>
    // The challenges are those of the one choice that is due.
    ensures { (choice : spec_choice.Choice) → IsChosen context.now.table (Some choice) → OnOk result (text.new.items ≡ text.old.items ++ (added_lines (challenge_list context.now.table.rows choice) ++ listed.now)) }
{
    append_added(alloc, text, context)?;
    append(text, listed)
}

/// Appends how the fork stands.
fn append_lines<A: Allocator + Clone>(
    alloc: A,
    text: &mut Vec<u8, A>,
    context: &Context<A>,
) -> Result<(), AllocError>
    ensures { OnOk result (EndsWith context.now.table text.old.items text.new.items) }
{
    let mut listed = Vec::new(alloc.clone()?);
    match listing(context, &mut listed) {
        Ok(()) => append_listed(alloc, text, context, &listed),
        Err(ListFault::Succeeded) => append(text, b"succeeded\n"),
        Err(ListFault::NotFinished) => append_unfinished(text, context),
        Err(ListFault::NoMemory) => Err(AllocError),
    }
}

/// The last lines: how the fork stands.
fn ending<A: Allocator + Clone>(alloc: A, context: &Context<A>) -> Result<Vec<u8, A>, AllocError>
    ensures { IfOk result (λ lines. EndsWith context.now.table [] lines.items) }
{
    let mut lines = Vec::new(alloc.clone()?);
    append_lines(alloc, &mut lines, context)?;
    Ok(lines)
}

/// Appends the last lines: how the fork stands. A listing among them is one that a check accepts.
///
/// # Errors
///
/// Want of memory; then the text is as it was.
pub fn append_ending<A: Allocator + Clone>(
    alloc: A,
    text: &mut Vec<u8, A>,
    context: &Context<A>,
) -> Result<(), AllocError>
    ensures appended { OnOk result (EndsWith context.now.table text.old.items text.new.items) }
    ensures err { OnErr result (text.new.items ≡ text.old.items) }
{
    let lines = ending(alloc, context)?;
    text.extend_from_slice(&lines)
}
