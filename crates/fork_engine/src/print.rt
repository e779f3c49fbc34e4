//! The lines of a history that workers have posted.
ghost use Rattle.std.specs.Prelude.{◌≡◌, ◌<◌, ◌^◌, ◌++◌, length, OnOk};
ghost use Rattle.fork_rank.specs.RuleLines.{ended};
ghost use Rattle.fork_engine.specs.Run.{post_text, posts_text};

use fork_book::Book;
use fork_context::{Context, Reply};
use fork_model::{final_at_the_end, finished_stays};
use fork_program::append_reply;
use fork_rank::append;
use sip_lex::append_decimal;
use std::alloc::{AllocError, Allocator};

/// Appends the line of an event: the number of the worker that posted it, and the reply to it.
fn append_post<A: Allocator + Clone>(
    text: &mut Vec<u8, A>,
    context: &Context<A>,
    worker: u8,
    reply: &Reply<A>,
) -> Result<(), AllocError>
    ensures { OnOk result (text.new.items ≡ text.old.items ++ ended (post_text context.now.table.rows worker reply.now)) }
{
    append_decimal(text, u64::from(worker))?;
    append(text, b": ")?;
    append_reply(text, context, reply)
}

/// Appends a line for each event of a history. The rows at its end serve each: only the final answer is told by the rows
/// after its event, and from then on they stay.
pub(crate) fn append_posts<A: Allocator + Clone>(
    text: &mut Vec<u8, A>,
    book: &Book<A>,
) -> Result<(), AllocError>
    requires { length book.now.history < 2 ^ 32 }
    ensures { OnOk result (text.new.items ≡ text.old.items ++ posts_text book.now.opening 0 book.now.history book.now.replies) }
{
    final_at_the_end();
    finished_stays();
    let context = book.context();
    let mut at = 0u32;
    for post in book.history() {
        if let Some(reply) = book.reply(at) {
            append_post(text, context, post.tag(), reply)?;
        }
        at += 1;
    }
    Ok(())
}
