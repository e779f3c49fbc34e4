//! A copy of a request without the Route value that names the proxy.

ghost use Rattle.std.specs.Prelude.{Ok};
ghost use Rattle.sip_route.specs.Routes.{stripped};
ghost use Rattle.sip_builders.specs.Builds.{Builds};

use crate::written::copy_of;
use sip_route::strip;
use sip_text::Message;
use sip_via::{BuildFault, Own};
use std::alloc::Allocator;

/// The request without its first Route value, where the URI of that leads to the proxy itself (RFC
/// 3261 section 16.4). The line goes with its last value. A Route value counts only with its URI in
/// angle brackets.
///
/// # Errors
///
/// Only `NoMemory`.
pub fn strip_route<A: Allocator + Clone>(
    alloc: A,
    message: &Message<A>,
    own: Own,
) -> Result<Message<A>, BuildFault>
    ensures { Builds (λ m. m) result (Ok (stripped message.now own)) }
{
    Ok(strip(copy_of(alloc, message)?, own))
}
