//! The bindings of a user that are there at a moment.
ghost use Rattle.std.specs.Prelude.{◌≡◌, List, IfOk};
ghost use Rattle.bindings.specs.Bindings.{Binding, there};

use crate::table::BindingTable;
use bindings::UserBindings;
use std::alloc::{AllocError, Allocator};
use std::sync::Wait;

impl<A: Allocator + Clone> BindingTable<UserBindings<A>, A> {
    /// Copies of the bindings of a user that are there at a moment, in their order.
    ///
    /// # Errors
    ///
    /// Only where the allocator refuses.
    pub fn there<R: Wait>(
        &self,
        rt: &R,
        user: &[u8],
        moment: u64,
    ) -> Result<UserBindings<A>, AllocError>
        ensures { IfOk result (λ copies. (held : List Binding) × (copies ≡ there moment held)) }
    {
        let alloc = self.alloc.clone()?;
        let users = self.shard(user).read(rt);
        match users.of(user) {
            Some(held) => held.copied(alloc, moment),
            None => Ok(UserBindings::new(alloc)),
        }
    }
}
