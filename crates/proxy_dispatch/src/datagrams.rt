//! Datagrams that a proxy receives.
ghost use Rattle.std.specs.Prelude.{◌≡◌, IfOk, List, OnErr, Option};
ghost use Rattle.call_model.specs.Built as built;
ghost use Rattle.sip_text.specs.Fault.{fault_seen};
ghost use Rattle.sip_text.specs.Reading.{Short};
ghost use Rattle.proxy_dispatch.specs.Becomes.{Becomes, FaultBecomes, MessageBecomes};
ghost use Rattle.proxy_dispatch.specs.Looks.{Look, shown, ShowsAll};
ghost use Rattle.proxy_dispatch.specs.inner.Becomes.{ToldBecomes};
ghost use Rattle.proxy_dispatch.specs.Sent.{IsHanded};
ghost use Rattle.proxy_dispatch.specs.inner.Sent.{seen_sent};

use crate::admission::Admission;
use crate::answers::answered;
use crate::calls::SharedCalls;
use crate::outcome::Outcome;
use crate::purpose::{is_answered, purpose_of};
use crate::received::{Received, ReceivedMessage};
use crate::requests::requested;
use crate::responses::responded;
use fork_call::{Datagram, Port, Setup};
use sip_build::OwnStatus;
use sip_text::{Message, ReadFault, faults_are_of_the_text};
use sip_uri::Hop;
use sip_via::TopVia;
use std::alloc::{AllocError, Allocator};
use std::sync::Wait;

/// What became of a datagram.
#[derive(Clone, Copy, PartialEq, Eq, Debug)]
pub enum Handled {
    /// The datagram cannot be read, or no call takes it.
    Dropped,
    /// The datagram is an ACK for an answer of the proxy's own (RFC 3261 section 17.2.1).
    Absorbed,
    /// The request was answered with this status, and no call was opened.
    Answered(u16),
    /// The request would have opened a call, was not admitted, and was answered 503 with Retry-After.
    TurnedAway,
    /// The datagram is an ACK for an answer that went up, and was sent on (RFC 3261 section 16.11).
    Forwarded,
    /// The request opened no call, and another answers it, or nobody.
    Left,
    /// The request opened the call of this number.
    Opened(u64),
    /// The call of this number took the message.
    Delivered(u64),
}

/// What becomes of a message.
fn of_message<A: Allocator + Clone, N: Admission<A>, R: Wait>(
    rt: &R,
    table: &mut SharedCalls<'_, A>,
    setup: &Setup<A>,
    admission: &N,
    received: ReceivedMessage<A>,
) -> Result<Outcome<A>, AllocError>
    ensures { IfOk result (λ outcome. (looks : List Look) × ShowsAll shown table.old looks table.new
        × MessageBecomes (N.serving admission.now) setup.now received.message received.source received.now
        looks outcome.handled (seen_sent outcome.datagram)) }
{
    match purpose_of(&received.message) {
        None => responded(
            rt,
            table,
            setup,
            received.message,
            received.source,
            received.now,
        ),
        Some(purpose) => requested(rt, table, setup, admission, received, purpose),
    }
}

/// What becomes of a message whose body is cut short: a request is answered 400, but for an ACK (RFC 3261 section 18.3).
fn of_head<A: Allocator + Clone>(
    alloc: A,
    head: Message<A>,
    source: Hop,
) -> Result<Outcome<A>, AllocError>
    ensures { IfOk result (λ outcome. FaultBecomes (Short head) source outcome.handled (seen_sent outcome.datagram)) }
{
    if is_answered(purpose_of(&head)) {
        let top = TopVia::of(&alloc, &head, source)?;
        answered(alloc, head, source, &top, OwnStatus::BadRequest)
    } else {
        Ok(Outcome::silent(Handled::Dropped))
    }
}

/// What becomes of a text that is no message.
fn of_fault<A: Allocator + Clone>(
    alloc: A,
    fault: ReadFault<A>,
    source: Hop,
) -> Result<Outcome<A>, AllocError>
    ensures { IfOk result (λ outcome. ToldBecomes (fault_seen fault) source outcome.handled (seen_sent outcome.datagram)) }
{
    match fault {
        ReadFault::ShortBody(head) => of_head(alloc, head, source),
        ReadFault::NoMemory => Err(AllocError),
        ReadFault::StartLine
        | ReadFault::HeaderLine
        | ReadFault::Missing(_)
        | ReadFault::Version
        | ReadFault::Status
        | ReadFault::CSeq
        | ReadFault::Length => Ok(Outcome::silent(Handled::Dropped)),
    }
}

/// Hands the datagram to the port, if there is one to send.
fn hand<A: Allocator, P: Port>(port: &mut P, sent: &Option<Datagram<A>>)
    ensures { IsHanded P.sends port.old (seen_sent sent.now) port.new }
{
    if let Some(datagram) = sent {
        port.send(datagram);
    }
}

/// Handles a message that was received (RFC 3261 sections 16.2, 16.7, 16.11, 17.1.3, 17.2.3 and 18): the call that it belongs to
/// takes it, or it opens one, or it is answered, sent on or dropped without one. An answer or an ACK that cannot be sent is lost, as
/// on the way. Nothing else is handed to the port: what a call then has to send is for `carry`. A call that is opened has its memory
/// from `received.alloc`.
///
/// A response is given to the call that its top Via value names, a request to the call that has its key. A CANCEL is answered 481,
/// and a request opens a call, only where the look at its key found none.
///
/// `admission` is asked where a request would open a call, as no call has its key, and for nothing else. A request that it does
/// not admit is answered 503 with Retry-After (section 21.5.4). One that it admits is answered 200 where the setup is that of a
/// service and the request is an OPTIONS to the proxy itself (section 11.2). Where one that it admits opens no call, for
/// whichever cause, want of memory too, it is told.
///
/// # Errors
///
/// Only where the allocator refuses; no call has changed then, none was opened, and nothing was sent.
pub fn handle_message<A: Allocator + Clone, N: Admission<A>, P: Port, R: Wait>(
    rt: &R,
    table: &mut SharedCalls<'_, A>,
    setup: &Setup<A>,
    admission: &N,
    received: ReceivedMessage<A>,
    port: &mut P,
) -> Result<Handled, AllocError>
    ensures became { IfOk result (λ handled.
        (looks : List Look)
        × (sent : Option built.Datagram)
        × ShowsAll shown table.old looks table.new
        × MessageBecomes (N.serving admission.now) setup.now received.message received.source received.now looks handled sent
        × IsHanded P.sends port.old sent port.new) }
    ensures err { OnErr result (port.new ≡ port.old) }
{
    let outcome = of_message(rt, table, setup, admission, received)?;
    hand(port, &outcome.datagram);
    Ok(outcome.handled)
}

/// Handles a datagram that was received: it is read, once, and handled as `handle_message` says. Of a datagram that is no message, a
/// request whose body is cut short is answered 400 (RFC 3261 section 18.3), and all else is dropped.
///
/// # Errors
///
/// Only where the allocator refuses; no call has changed then, none was opened, and nothing was sent.
pub fn handle<A: Allocator + Clone, N: Admission<A>, P: Port, R: Wait>(
    rt: &R,
    alloc: A,
    table: &mut SharedCalls<'_, A>,
    setup: &Setup<A>,
    admission: &N,
    received: Received<'_>,
    port: &mut P,
) -> Result<Handled, AllocError>
    ensures became { IfOk result (λ handled.
        (looks : List Look)
        × (sent : Option built.Datagram)
        × ShowsAll shown table.old looks table.new
        × Becomes (N.serving admission.now) setup.now received.entry.bytes.now received.entry.source received.entry.now looks handled sent
        × IsHanded P.sends port.old sent port.new) }
    ensures err { OnErr result (port.new ≡ port.old) }
{
    faults_are_of_the_text();
    let Received { bytes, source, now } = received;
    match Message::read(alloc.clone()?, bytes) {
        Ok(message) => handle_message(
            rt,
            table,
            setup,
            admission,
            ReceivedMessage {
                alloc,
                message,
                source,
                now,
            },
            port,
        ),
        Err(fault) => {
            let outcome = of_fault(alloc, fault, source)?;
            hand(port, &outcome.datagram);
            Ok(outcome.handled)
        }
    }
}
