//! Responses as they go upstream.

ghost use Rattle.std.specs.Prelude.{◌≡◌, Ok, IfErr, IfOk, true};
ghost use Rattle.std.specs.List.{list_all};
ghost use Rattle.sip_build.specs.SeenKept.{seen_kept};
ghost use Rattle.sip_build.specs.Upward.{AreKept, is_challenge, refusal, upward};

use crate::written::read_written;
use fork_rank::Challenge;
use sip_build::write_forwarded_response;
use sip_text::Message;
use sip_via::{BuildFault, has_second_via};
use std::alloc::Allocator;

/// The response as it goes upstream (RFC 3261 section 16.7 steps 3, 7 and 9): without its top Via
/// value, whose line goes where the value was alone there. With `kept`, one Contact line for each of
/// these texts stands in the place of all Contact lines, where the first stood or else at the end.
/// The challenges follow last, a line for each.
///
/// # Errors
///
/// `LastVia` where no other Via value is there, and there alone; else `NoMemory`.
pub fn upward<A: Allocator + Clone>(
    alloc: A,
    message: &Message<A>,
    kept: Option<&[&[u8]]>,
    challenges: &[Challenge<A>],
) -> Result<Message<A>, BuildFault>
    requires kept { AreKept (seen_kept kept) }
    requires challenges { list_all is_challenge challenges.now ≡ true }
    ensures ok { IfOk result (λ made. upward message.now (seen_kept kept.entry) challenges.now ≡ Ok made) }
    ensures err { IfErr result (λ fault. fault ≡ refusal message.now) }
{
    if !has_second_via(message) {
        return Err(BuildFault::LastVia);
    }
    message.is_message();
    let mut text = Vec::new(alloc.clone()?);
    write_forwarded_response(message, kept, challenges, &mut text)?;
    Ok(read_written(alloc, &text)?)
}
