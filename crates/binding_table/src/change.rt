//! A change of what a user has that is prepared and not made.
ghost use Rattle.std.specs.Prelude.{◌≡◌};

use std::alloc::{Allocator, Global};
use std::marker::Model;

/// What a change makes of what a user has, while it is not made: until it is, by `BindingTable::commit`, or given up, by
/// `BindingTable::give_up`, no other change of this user is prepared. One that is let go without either leaves the user so.
#[derive(Drop)]
pub struct PreparedChange<T, A: Allocator = Global> {
    user: Vec<u8, A>,
    bindings: T,
    /// For how many more room is taken.
    reserved: u64,
}

impl<T, A: Allocator> Model for PreparedChange<T, A> {
    ghost use Rattle.binding_table.specs.Changes.{Prepared};

    ghost Value = { Prepared T };

    ghost view = { λ c. record { user = c.user.items; bindings = c.bindings; reserved = c.reserved } };
}

impl<T, A: Allocator> PreparedChange<T, A> {
    pub(crate) fn new(user: Vec<u8, A>, bindings: T, reserved: u64) -> PreparedChange<T, A>
        ensures { result ≡ record { user = user.items; bindings = bindings; reserved = reserved } }
    {
        PreparedChange {
            user,
            bindings,
            reserved,
        }
    }

    /// Whose change it is.
    pub fn user(&self) -> &[u8]
        ensures { result.now ≡ self.now.user }
    {
        &self.user
    }

    /// What the user has once the change is made.
    pub fn bindings(&self) -> &T
        ensures { result.now ≡ self.now.bindings }
    {
        &self.bindings
    }

    /// For how many more room is taken.
    pub(crate) fn reserved(&self) -> u64
        ensures { result ≡ self.now.reserved }
    {
        self.reserved
    }

    pub(crate) fn into_parts(self) -> (Vec<u8, A>, T)
        ensures user { result.0.items ≡ self.user }
        ensures bindings { result.1 ≡ self.bindings }
    {
        let PreparedChange {
            user,
            bindings,
            reserved: _,
        } = self;
        (user, bindings)
    }
}
