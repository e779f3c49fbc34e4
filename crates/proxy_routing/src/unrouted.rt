//! Requests that are not routed.
ghost use Rattle.std.specs.Prelude.{◌≡◌};
ghost use Rattle.proxy_routing.specs.Unrouted.{fault_of};

use crate::fault::RequestRejection;
use sip_text::Message;
use std::alloc::{AllocError, Allocator};

/// Why a request is not routed.
#[derive(Drop)]
pub enum Unrouted<A: Allocator> {
    /// For this cause, which is none of memory. The request is given back as far as it was prepared, so that it can be answered.
    Rejected(RequestRejection, Message<A>),
    /// The allocator refused.
    NoMemory,
}

impl<A: Allocator> Unrouted<A> {
    /// The cause alone.
    pub fn fault(self) -> RequestRejection
        ensures { result ≡ fault_of self }
    {
        match self {
            Unrouted::Rejected(fault, _) => fault,
            Unrouted::NoMemory => RequestRejection::NoMemory,
        }
    }
}

impl<A: Allocator> From<AllocError> for Unrouted<A> {
    ghost use Rattle.proxy_routing.specs.declared.unrouted.Unrouted.TheVariants as unrouted;

    ghost from_gives = { λ _ e. e ≡ unrouted.NoMemory };

    fn from(_e: AllocError) -> Unrouted<A> {
        Unrouted::NoMemory
    }
}
