//! A message that was handed to a connection and did not go out.
ghost use Rattle.std.specs.Prelude.{◌≡◌};
ghost use Rattle.proxy_service.specs.Handling.{sent_as};

use crate::service::Service;
use call_model::Cause;
use fork_call::{Call, Port};
use sip_text::{Message, Method};
use sip_via::own_branch;
use std::alloc::Allocator;
use std::sync::Wait;
use std::time::Clock;

/// Why a request of this method was sent to a target: it is the request, the CANCEL or the ACK of a branch.
fn sent_as(method: Method, target: u16) -> Cause
    ensures { result ≡ sent_as method target }
{
    match method {
        Method::Ack => Cause::Ack(target),
        Method::Cancel => Cause::Cancel(target),
        Method::Invite | Method::Options | Method::Other => Cause::Request(target),
    }
}

/// Tells a call that a message with this cause could not be sent, and says whether there was memory for that.
#[tactic(auto, using(crate::proofs::KeptNumbers::fails_keep_number))]
fn tell_failed<A: Allocator + Clone>(call: &mut Call<A>, cause: Cause, now: u64) -> bool
    ensures { call.new.opened.number ≡ call.old.opened.number }
{
    call.failed(cause, now).is_ok()
}

impl<A: Allocator + Copy> Service<A> {
    /// The call and the cause of a message of this run of the proxy; None where it is a response, or cannot be read.
    fn sent_for(&self, bytes: &[u8]) -> Option<(u64, Cause)> {
        let identity = self.settings.terms.identity;
        let message = Message::read(self.alloc, bytes).ok()?;
        let method = message.known_method()?;
        let branch = own_branch(&message, identity.own)?;
        if branch.instance != identity.instance {
            return None;
        }
        Some((branch.context, sent_as(method, branch.target)))
    }

    /// Tells the call of a request that it could not be sent (RFC 3261 sections 8.1.3.1, 16.9 and 17.1.4), as the connection that it waited at
    /// has failed, and carries the call. False where the message is no request of a call: a response, which may go by another connection.
    pub fn fail_unsent<R: Wait + Clock, P: Port>(
        &self,
        rt: &R,
        port: &mut P,
        bytes: &[u8],
        now: u64,
    ) -> bool {
        let Some((number, cause)) = self.sent_for(bytes) else {
            return false;
        };
        let calls = &self.calls;
        let _ = calls
            .shelf
            .with(rt, number, |call| tell_failed(call, cause, now));
        calls.carry(rt, port, number, &self.visit(now));
        true
    }
}
