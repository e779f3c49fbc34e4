//! Marking where a request came from.

ghost use Rattle.std.specs.Prelude.{◌≡◌, IfErr, IfOk, Ok};
ghost use Rattle.sip_text.specs.Message.{IsMessage};
ghost use Rattle.sip_via.specs.ReadTop.{IsTopOf};
ghost use Rattle.sip_via.specs.Received.{IsSource, marked, with_via_line};
ghost use Rattle.sip_via.specs.ViaFaults.{refusal};

use crate::edits::header_index;
use crate::own::ViaFault;
use crate::top::TopVia;
use crate::values::VIA;
use sip_text::Message;
use sip_uri::Hop;
use std::alloc::{AllocError, Allocator};

/// Shows that the numbers of a hop are bounded.
fn fact_source(source: Hop)
    ensures { IsSource source }
{}

/// A message that was not marked, as it was, and why.
#[derive(Drop)]
pub struct ReceivedFault<A: Allocator> {
    pub message: Message<A>,
    pub fault: ViaFault,
}

/// The message with another value in its first Via line, which is put where the old one stands. Few values are put into a message
/// behind that, and the request that opens a call is kept: so it gives back the memory in which nothing stands.
fn with_via_line<A: Allocator>(
    mut message: Message<A>,
    line: &[u8],
) -> Result<Message<A>, ReceivedFault<A>>
    requires { IsMessage (with_via_line message line.now) }
    ensures ok { IfOk result (λ m. m ≡ with_via_line message line.now) }
    ensures err { IfErr result (λ unmarked. unmarked.message ≡ message) }
    ensures memory { IfErr result (λ unmarked. unmarked.fault ≡ ViaFault.NoMemory) }
{
    let place = header_index(message.headers(), VIA);
    if place >= message.headers().len() {
        return Ok(message);
    }
    match message.set_value(place, line) {
        Ok(()) => {
            message.shrink();
            Ok(message)
        }
        Err(_) => Err(ReceivedFault {
            message,
            fault: ViaFault::NoMemory,
        }),
    }
}

/// The request with its source in the top Via value, of which this was read (RFC 3261 section 18.2.1, RFC 3581 section 4): as
/// [`add_received`] makes it, and the value is not read again.
///
/// # Errors
///
/// Those of [`add_received`].
#[tactic(auto, using(crate::proofs::laws::ReadTop::line_marks, crate::proofs::laws::ReadTop::none_marks))]
pub fn add_source<A: Allocator>(
    message: Message<A>,
    source: Hop,
    top: &TopVia<A>,
) -> Result<Message<A>, ReceivedFault<A>>
    requires { IsTopOf message source top.now }
    ensures ok { IfOk result (λ m. marked message source ≡ Ok m) }
    ensures err { IfErr result (λ unmarked. unmarked.message ≡ message) }
    ensures refused { IfErr result (λ unmarked. unmarked.fault ≡ refusal (marked message source)) }
{
    message.is_message();
    fact_source(source);
    match top.line() {
        Some(line) => with_via_line(message, line),
        None => Err(ReceivedFault {
            message,
            fault: ViaFault::BadVia,
        }),
    }
}

/// The request with its source in the top Via value (RFC 3261 section 18.2.1, RFC 3581 section 4), made of the request
/// itself: the first Via line is put in where it stands, and nothing else changes. Where that line is of at most 256 bytes
/// then, more memory is asked for only where the message's text has no room for it. At the end the allocator is asked for
/// smaller blocks for the message's text and its places: where it refuses one, the greater one stays.
///
/// A `received` that is there is dropped; each `rport` without a value gets the source's port; and `received` is added
/// where such an `rport` was there or the host isn't the source's address. All else is as it was.
///
/// # Errors
///
/// The request as it was, with `BadVia` where the top value can't be read; then with `NoMemory`.
pub fn add_received<A: Allocator + Clone>(
    alloc: A,
    message: Message<A>,
    source: Hop,
) -> Result<Message<A>, ReceivedFault<A>>
    ensures ok { IfOk result (λ m. marked message source ≡ Ok m) }
    ensures err { IfErr result (λ unmarked. unmarked.message ≡ message) }
    ensures refused { IfErr result (λ unmarked. unmarked.fault ≡ refusal (marked message source)) }
{
    match TopVia::of(&alloc, &message, source) {
        Ok(top) => add_source(message, source, &top),
        Err(AllocError) => Err(ReceivedFault {
            message,
            fault: ViaFault::NoMemory,
        }),
    }
}
