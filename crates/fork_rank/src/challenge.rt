//! What a 401 or a 407 asks for.
ghost use Rattle.std.specs.Prelude.{◌≡◌, IfOk};

use std::alloc::{AllocError, Allocator, Global};
use std::marker::Model;

/// One challenge: the value of a Proxy-Authenticate header field where `proxy`, else of a WWW-Authenticate
/// (RFC 3261 sections 20.27 and 20.44).
#[derive(Drop)]
pub struct Challenge<A: Allocator = Global> {
    proxy: bool,
    value: Vec<u8, A>,
}

impl<A: Allocator> Model for Challenge<A> {
    ghost use Rattle.fork_model.specs.Table as table;

    ghost Value = { table.Challenge };

    ghost view = { λ c. record { proxy = c.proxy; value = c.value.items } };
}

impl<A: Allocator> Challenge<A> {
    /// A challenge of a proxy, or of a server.
    pub fn new(proxy: bool, value: Vec<u8, A>) -> Self
        ensures { result ≡ record { proxy = proxy; value = value.items } }
    {
        Challenge { proxy, value }
    }

    /// Whether the challenge is a proxy's.
    pub fn proxy(&self) -> bool
        ensures { result ≡ self.now.proxy }
    {
        self.proxy
    }

    /// The header field's value, unmodified.
    pub fn value(&self) -> &[u8]
        ensures { result.now ≡ self.now.value }
    {
        &self.value
    }

    /// An equal challenge in memory of its own; the only error is want of memory.
    pub fn copy(&self, alloc: &A) -> Result<Self, AllocError>
    where
        A: Clone,
        ensures { IfOk result (λ c. c ≡ self.now) }
    {
        Ok(Challenge {
            proxy: self.proxy,
            value: self.value.to_vec(alloc.clone()?)?,
        })
    }
}
