//! The whole block of a call.
ghost use Rattle.std.specs.Prelude.{◌≡◌, ◌++◌, IfOk, OnErr, OnOk};
ghost use Rattle.call_journal.specs.Block.{Ends, IsBlock, Journals};

use crate::head::{CallRecord, append_head};
use crate::notes::{Note, append_targets};
use crate::why::append_why;
use fork_context::Context;
use fork_listing::listing;
use fork_rank::append;
use sip_lex::append_decimal;
use std::alloc::{AllocError, Allocator};

/// Appends how a call ended, and what its targets did: it was answered, it is still open, or it failed, with the status that went up, why
/// that did, and, behind what its targets did, its listing.
fn append_end<A: Allocator + Clone>(
    out: &mut Vec<u8, A>,
    context: &Context<A>,
    notes: &[Note],
) -> Result<(), AllocError>
    ensures { OnOk result (Ends context.now.table notes.now out.old.items out.new.items) }
{
    if context.succeeded() {
        append(out, b" answered\n")?;
        append_targets(out, context.count(), notes)?;
        return Ok(());
    }
    let Some((choice, status)) = context.choice_with_status() else {
        append(out, b" open\n")?;
        append_targets(out, context.count(), notes)?;
        return Ok(());
    };
    append(out, b" failed ")?;
    append_decimal(out, u64::from(status))?;
    append_why(out, context, choice)?;
    append(out, b"\n")?;
    append_targets(out, context.count(), notes)?;
    match listing(context, out) {
        Ok(()) => Ok(()),
        Err(_) => Err(AllocError),
    }
}

/// The block of a call.
fn block_of<A: Allocator + Clone>(
    alloc: A,
    head: &CallRecord<'_>,
    context: &Context<A>,
    notes: &[Note],
) -> Result<Vec<u8, A>, AllocError>
    ensures { IfOk result (λ text. IsBlock head.now context.now.table notes.now text.items) }
{
    let mut text = Vec::new(alloc);
    append_head(&mut text, head)?;
    append_end(&mut text, context, notes)?;
    Ok(text)
}

/// Appends the block of a call: the line that says which call it was and how it ended; a line for each target of which there are notes,
/// by number; and the listing of one that failed (see [`listing`]). Of one that failed the first line also says which answer went up and why: the target that it came from, by the key of
/// its row, which is that of a SIP URI behind `sip:` (see [`Context::key`]); what sets it apart from all other stored answers; and
/// how many those are (RFC 3261 section 16.7 step 6). One that is cut off by the end of the proxy is said to be open.
///
/// # Errors
///
/// Only where the allocator refuses; `out` is then as it was.
pub fn append_call<A: Allocator + Clone>(
    out: &mut Vec<u8, A>,
    head: &CallRecord<'_>,
    context: &Context<A>,
    notes: &[Note],
) -> Result<(), AllocError>
    ensures ok { OnOk result (Journals head.now context.now.table notes.now out.old.items out.new.items) }
    ensures err { OnErr result (out.new.items ≡ out.old.items) }
{
    let alloc = out.allocator().clone()?;
    let block = block_of(alloc, head, context, notes)?;
    out.extend_from_slice(&block)
}
