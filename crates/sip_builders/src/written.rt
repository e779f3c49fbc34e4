//! Messages that are read of what was written.

ghost use Rattle.std.specs.Prelude.{◌≡◌, IfOk};
ghost use Rattle.sip_text.specs.Message.{IsMessage};
ghost use Rattle.sip_text.specs.Text.{MessageText, spelling};
ghost use Rattle.sip_builders.specs.Written.{IsWritten};

use sip_text::{Message, ReadFault, round_trip};
use std::alloc::{AllocError, Allocator};

/// The message that is written as that text.
///
/// # Errors
///
/// Only where the allocator refuses.
pub(crate) fn read_written<A: Allocator + Clone>(
    alloc: A,
    text: &[u8],
) -> Result<Message<A>, AllocError>
    requires { IsWritten text.now }
    ensures { (m : MessageText) → IsMessage m → text.now ≡ spelling m → IfOk result (λ made. made ≡ m) }
{
    round_trip();
    match Message::read(alloc, text) {
        Ok(message) => Ok(message),
        Err(fault) => match fault {
            ReadFault::NoMemory => Err(AllocError),
            _ => unreachable!(),
        },
    }
}

/// A copy of a message.
///
/// # Errors
///
/// Only where the allocator refuses.
pub(crate) fn copy_of<A: Allocator + Clone>(
    alloc: A,
    message: &Message<A>,
) -> Result<Message<A>, AllocError>
    ensures { IfOk result (λ copy. copy ≡ message.now) }
{
    message.is_message();
    let mut text = Vec::new(alloc.clone()?);
    message.write(&mut text)?;
    read_written(alloc, &text)
}
