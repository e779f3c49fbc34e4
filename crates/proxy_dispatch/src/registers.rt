//! REGISTERs for the domain, which the registrar answers (RFC 3261 section 10.3).
ghost use Rattle.std.specs.Prelude.{◌≡◌, [], IfOk, Ok};
ghost use Rattle.sip_text.specs.Text.{MessageText};
ghost use Rattle.sip_via.specs.ReadTop.{IsTopOf};
ghost use Rattle.sip_via.specs.Received.{marked, reply_of};
ghost use Rattle.sip_via.specs.TopVia.{top_value};
ghost use Rattle.sip_via.specs.ViaParts.{via_of};
ghost use Rattle.proxy_routing.specs.Admission.{asks_extension, has_via};
ghost use Rattle.proxy_dispatch.specs.Becomes.{MarkedBecomes, RegisteringBecomes};
ghost use Rattle.proxy_dispatch.specs.inner.Sent.{seen_sent};

use crate::admission::Admission;
use crate::answers::{answered, marked_answer};
use crate::datagrams::Handled;
use crate::outcome::Outcome;
use crate::received::ReadRequest;
use fork_call::Setup;
use proxy_routing::{asks_extension, what_was_read_tells_the_reply};
use sip_build::OwnStatus;
use sip_text::Message;
use sip_uri::Hop;
use sip_via::{ViaFault, add_source};
use std::alloc::{AllocError, Allocator};
use std::sync::Wait;

/// What becomes of a REGISTER that has its source, and whose answer goes to this hop.
fn of_registrar<A: Allocator + Clone, N: Admission<A>, R: Wait>(
    rt: &R,
    setup: &Setup<A>,
    admission: &N,
    alloc: A,
    request: &Message<A>,
    source: Hop,
    to: Hop,
    now: u64,
) -> Result<Outcome<A>, AllocError>
    requires { to ≡ reply_of (via_of (top_value request.now)) source }
    ensures { (m : MessageText) → marked m source ≡ Ok request.now
        → IfOk result (λ outcome. MarkedBecomes (Ok request.now) (N.serving admission.now) setup.now m source now [] outcome.handled (seen_sent outcome.datagram)) }
{
    match admission.registers(rt, &alloc, setup, request, source, now)? {
        Some(answer) => marked_answer(alloc, request, to, &answer),
        None => Ok(Outcome::silent(Handled::Left)),
    }
}

/// What becomes of a REGISTER for the domain whose top Via value can be read, and that asks for no extension.
fn asked<A: Allocator + Clone, N: Admission<A>, R: Wait>(
    rt: &R,
    setup: &Setup<A>,
    admission: &N,
    received: ReadRequest<A>,
) -> Result<Outcome<A>, AllocError>
    requires { IsTopOf received.message received.source received.top }
    ensures { IfOk result (λ outcome. MarkedBecomes (marked received.message received.source) (N.serving admission.now) setup.now
        received.message received.source received.now [] outcome.handled (seen_sent outcome.datagram)) }
{
    what_was_read_tells_the_reply();
    let ReadRequest {
        alloc,
        message,
        top,
        source,
        now,
    } = received;
    match add_source(message, source, &top) {
        Ok(request) => {
            let to = top.reply_hop(source);
            of_registrar(rt, setup, admission, alloc, &request, source, to, now)
        }
        Err(unmarked) => match unmarked.fault {
            ViaFault::BadVia => answered(
                alloc,
                unmarked.message,
                source,
                &top,
                OwnStatus::BadRequest,
            ),
            ViaFault::NoMemory => Err(AllocError),
        },
    }
}

/// What becomes of a REGISTER for the domain: where its top Via value cannot be read, or it asks the proxy for an extension, it is
/// answered by that; any other is the registrar's (RFC 3261 sections 10.3 and 16.3).
pub(crate) fn registered<A: Allocator + Clone, N: Admission<A>, R: Wait>(
    rt: &R,
    setup: &Setup<A>,
    admission: &N,
    received: ReadRequest<A>,
) -> Result<Outcome<A>, AllocError>
    requires { IsTopOf received.message received.source received.top }
    ensures { IfOk result (λ outcome. RegisteringBecomes (has_via received.message) (asks_extension received.message) (N.serving admission.now)
        setup.now received.message received.source received.now [] outcome.handled (seen_sent outcome.datagram)) }
{
    if !received.top.has_cookie() {
        return answered(
            received.alloc,
            received.message,
            received.source,
            &received.top,
            OwnStatus::BadRequest,
        );
    }
    if asks_extension(&received.message) {
        return answered(
            received.alloc,
            received.message,
            received.source,
            &received.top,
            OwnStatus::BadExtension,
        );
    }
    asked(rt, setup, admission, received)
}
