//! Datagrams that go out while a call is carried: whether an answer to its caller is among them, and CANCELs.
ghost use Rattle.std.specs.Prelude.{◌≡◌};
ghost use Rattle.proxy_service.specs.Handling.{SendsNoting, cancelled_by, is_answer};

use crate::targets::TargetSet;
use fork_call::{Cause, Datagram, Port};
use std::alloc::Allocator;

/// A port that notes whether an answer went out to a caller, and to which targets a CANCEL did; its sends are those of the port behind it.
#[derive(Drop)]
pub(crate) struct AnswerPort<'a, P> {
    /// Where the datagrams go.
    pub(crate) port: &'a mut P,
    /// Whether an answer went out: a 200 to a CANCEL is none.
    pub(crate) has_answered: bool,
    /// The targets to which a CANCEL went; None where that is not noted.
    pub(crate) cancels: Option<TargetSet>,
}

/// The target to which a datagram with this cause is a CANCEL.
fn cancelled_by(cause: Cause) -> Option<u16>
    ensures { result ≡ cancelled_by cause }
{
    match cause {
        Cause::Cancel(n) => Some(n),
        Cause::Answer | Cause::CancelOk | Cause::Request(_) | Cause::Ack(_) => None,
    }
}

/// Whether a datagram with this cause is an answer to the request that opened a call.
fn is_answer(cause: Cause) -> bool
    ensures { result ≡ is_answer cause }
{
    match cause {
        Cause::Answer => true,
        Cause::CancelOk | Cause::Request(_) | Cause::Cancel(_) | Cause::Ack(_) => false,
    }
}

/// Notes a datagram with this cause that went out, if it is a CANCEL and that is noted.
fn note_cancel(cancels: &mut Option<TargetSet>, cause: Cause) {
    let Some(n) = cancelled_by(cause) else {
        return;
    };
    if let Some(targets) = cancels {
        targets.add(n);
    }
}

impl<P: Port> Port for AnswerPort<'_, P> {
    ghost count = { λ answers. P.count answers.port.now };

    ghost sends = { λ old datagram went new. SendsNoting P.sends old.port.now old.has_answered datagram went new.port.now new.has_answered };

    fn send<A: Allocator>(&mut self, datagram: &Datagram<A>) -> bool {
        let went = self.port.send(datagram);
        self.has_answered = self.has_answered || (went && is_answer(datagram.cause));
        if went {
            note_cancel(&mut self.cancels, datagram.cause);
        }
        went
    }

    fn failures(&self) -> u64 {
        self.port.failures()
    }
}
