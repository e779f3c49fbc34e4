//! Where bindings are kept that are to survive a service.
use bindings::UserBindings;
use std::alloc::{Allocator, Global};

/// What a user has from now on.
#[derive(Clone, Copy)]
pub struct Change<'a, A: Allocator = Global> {
    pub user: &'a [u8],
    pub bindings: &'a UserBindings<A>,
}

/// What was kept of a user.
#[derive(Drop)]
pub struct KeptUser<A: Allocator = Global> {
    pub user: Vec<u8, A>,
    pub bindings: UserBindings<A>,
}

/// What was kept: a secret of the service, and what each user had, who stands there once.
#[derive(Drop)]
pub struct Kept<A: Allocator = Global> {
    pub secret: [u8; 32],
    pub users: Vec<KeptUser<A>, A>,
}

/// Why nothing is kept, in words for an operator.
#[derive(Clone, Copy, Debug, PartialEq, Eq)]
pub struct KeepFault(pub &'static str);

/// Where bindings are kept. No clause says what a disk has: that what was kept is what is loaded is shown by tests.
pub trait Keeper {
    /// All that was kept.
    ///
    /// # Errors
    ///
    /// It cannot be read, or memory was refused.
    fn load(&mut self, alloc: Global) -> Result<Kept, KeepFault>;

    /// Keeps what these users have from now on, in the place of what was kept of each: all of it, or nothing. Of two of one user the later
    /// one counts.
    ///
    /// # Errors
    ///
    /// It was not kept.
    fn store(&mut self, changes: &[Change<'_>]) -> Result<(), KeepFault>;
}
