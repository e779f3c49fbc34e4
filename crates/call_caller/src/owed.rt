//! The answers that come to be owed to a caller.
ghost use Rattle.std.specs.Prelude.{◌≡◌, IfOk};
ghost use Rattle.fork_rank.specs.KindView as kinds;
ghost use Rattle.context_values.specs.ReplyView.{up_of};
ghost use Rattle.call_model.specs.Posting.{owed_by, passed};
ghost use Rattle.call_caller.specs.Queue.{owed_in};
ghost use Rattle.call_model.specs.Server as server;
ghost use Rattle.call_model.specs.Take.{again_if};

use crate::queue::{OwedAnswer, ResponseQueue};
use fork_context::{Kind, Up};
use sip_text::Message;
use std::alloc::{AllocError, Allocator};

/// What is owed to the caller of a request of this kind as its call opens.
///
/// # Errors
///
/// Only where the allocator refuses.
pub fn initial_queue<A: Allocator>(alloc: A, kind: Kind) -> Result<ResponseQueue<A>, AllocError>
    ensures { IfOk result (λ owed. owed.items ≡ server.first_owed (kinds.kind_of kind)) }
{
    match kind {
        Kind::Invite => {
            let mut owed = ResponseQueue::with_room(alloc, 1)?;
            owed.enqueue(OwedAnswer::Trying);
            Ok(owed)
        }
        Kind::Other => ResponseQueue::with_room(alloc, 0),
    }
}

/// The answer that comes to be owed to the caller by what goes up; `response` is the response of a branch, where that
/// goes up.
pub fn response_for<A: Allocator>(up: Up, response: Option<Message<A>>) -> Option<OwedAnswer<A>>
    ensures { owed_in result ≡ owed_by (up_of up) response }
{
    match up {
        Up::Nothing => None,
        Up::Provisional(_) | Up::Success(_) => passed(response),
        Up::Final(choice) => Some(OwedAnswer::Final(choice)),
    }
}

fn passed<A: Allocator>(response: Option<Message<A>>) -> Option<OwedAnswer<A>>
    ensures { owed_in result ≡ passed response }
{
    match response {
        Some(response) => Some(OwedAnswer::Passed(response)),
        None => None,
    }
}

/// The answer that was sent last, to be sent again where the server transaction sends it.
pub fn resend_if<A: Allocator>(sends: bool) -> Option<OwedAnswer<A>>
    ensures { owed_in result ≡ again_if sends }
{
    if sends { Some(OwedAnswer::Again) } else { None }
}
