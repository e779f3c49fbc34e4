//! What a request must have to be forwarded.
ghost use Rattle.std.specs.Prelude.{IfSome, IsTrue};
ghost use Rattle.sip_text.specs.Name.{first_value};
ghost use Rattle.sip_route.specs.Hops.{IsHops, MayPass, hops_name};

use crate::sources::Alloc;
use sip_route::{MaxForwards, max_forwards};
use sip_text::Message;

/// Whether a request that says this of hops may be forwarded.
fn lets_pass(hops: MaxForwards) -> bool
    ensures { IsTrue result → MayPass hops }
{
    match hops {
        MaxForwards::Unsaid => true,
        MaxForwards::Said(more) => more >= 1,
        MaxForwards::Wrong => false,
    }
}

/// Whether the request may be forwarded once more.
pub fn has_hops(message: &Message<Alloc<'_>>) -> bool
    ensures { IsTrue result → IfSome (first_value hops_name message.now.headers) IsHops }
{
    let hops = max_forwards(message);
    lets_pass(hops)
}
