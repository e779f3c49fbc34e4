//! A request that opens no call, and what the law says of its fault.
ghost use Rattle.std.specs.Prelude.{◌≡◌, ◌≢◌, IfSome};
ghost use Rattle.fork_call.specs.Opening.{IsOpenable};
ghost use Rattle.fork_call.specs.Refused.{HoldsAlone};

use crate::playing::{holds, read_message};
use crate::texts::INVITE_AT_ITS_END;
use call_messages::one_target::{CALLER, SETUP};
use fork_call::{Call, RequestRejection, Setup, is_openable, one_fault_holds};
use sip_text::Message;
use std::alloc::Global;

/// The fault for which a request opens no call: where it is not want of memory, it holds alone.
fn fault_of(
    alloc: Global,
    setup: &Setup<Global>,
    request: Message<Global>,
) -> Option<RequestRejection>
    requires { IsOpenable request.start }
    ensures { IfSome result (λ fault. fault ≢ RequestRejection.NoMemory → HoldsAlone setup.now request CALLER fault) }
{
    one_fault_holds();
    match Call::open(alloc, setup, 3, request, CALLER, 0) {
        Ok(_) => None,
        Err(fault) => Some(fault),
    }
}

/// Whether a request that may be sent no further is refused for that.
fn is_refused(alloc: Global) -> bool {
    match (
        Setup::read(alloc, SETUP),
        read_message(alloc, INVITE_AT_ITS_END),
    ) {
        (Ok(setup), Some(request)) => {
            is_openable(&request)
                && fault_of(alloc, &setup, request) == Some(RequestRejection::Hops)
        }
        _ => false,
    }
}

#[test]
fn a_fault_holds_alone(rt: HostRuntime) {
    holds(&rt, is_refused(rt.alloc()), "an INVITE with Max-Forwards 0");
}
