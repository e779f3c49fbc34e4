//! What comes of a datagram, before anything is sent.
ghost use Rattle.std.specs.Prelude.{◌≡◌, None};

use crate::datagrams::Handled;
use fork_call::Datagram;
use std::alloc::Allocator;

/// What becomes of a datagram, and what is sent for it at once.
#[derive(Drop)]
pub(crate) struct Outcome<A: Allocator> {
    pub(crate) handled: Handled,
    pub(crate) datagram: Option<Datagram<A>>,
}

impl<A: Allocator> Outcome<A> {
    /// What becomes of a datagram for which nothing is sent at once.
    pub(crate) fn silent(handled: Handled) -> Outcome<A>
        ensures handled { result.handled ≡ handled }
        ensures silent { result.datagram ≡ None }
    {
        Outcome {
            handled,
            datagram: None,
        }
    }

    /// What becomes of a datagram for which `datagram` is sent at once.
    pub(crate) fn sends(handled: Handled, datagram: Datagram<A>) -> Outcome<A>
        ensures handled { result.handled ≡ handled }
        ensures sends { result.datagram ≡ Some datagram }
    {
        Outcome {
            handled,
            datagram: Some(datagram),
        }
    }
}
