//! A change of what is bound to a user, prepared by what a request makes of it.
ghost use Rattle.std.specs.Prelude.{◌≡◌, List, IfOk, IfSome, option_map};
ghost use Rattle.binding_table.specs.Changes.{bindings_of};
ghost use Rattle.bindings.specs.Bindings.{Binding};
ghost use Rattle.service_decisions.specs.SeenRegistered.{IsApart};

use authentication::OwnAnswer;
use binding_table::{BindingTable, ChangeFault, PreparedChange};
use bindings::UserBindings;
use std::alloc::{AllocError, Allocator};
use std::sync::Wait;

/// New bindings and the answer apart from one another, as a table takes them: no new bindings where memory was refused.
pub(crate) type Apart<A> = (Option<UserBindings<A>>, Result<OwnAnswer<A>, AllocError>);

/// A change that is prepared, if one is, and the answer.
type Prepared<A> = (
    Option<PreparedChange<UserBindings<A>, A>>,
    Result<OwnAnswer<A>, AllocError>,
);

/// What a request makes of the bindings of its user. It is a trait, since nothing is known of what a closure returns that holds something
/// with a lifetime.
pub(crate) trait Makes<A: Allocator + Clone> {
    ghost use Rattle.registrar.specs.Asking.{Registration};
    ghost use Rattle.service_decisions.specs.SeenRegistered.{IsApart};
    ghost use Rattle.service_decisions.specs.Serving.{Serving};

    /// The service that it comes to.
    ghost serving: { Self → Serving };

    /// What it asks for.
    ghost registration: { Self → Registration };

    fn made(&self, held: &UserBindings<A>) -> Apart<A>
        ensures { IsApart (Self.serving self.now) (Self.registration self.now) held.now result.0 result.1 };
}

/// Prepares the change of what this user has that a request makes.
///
/// # Errors
///
/// As those of `BindingTable::prepare`.
pub(crate) fn prepared<R: Wait, A: Allocator + Clone, M: Makes<A>>(
    rt: &R,
    table: &BindingTable<UserBindings<A>, A>,
    user: &[u8],
    request: &M,
) -> Result<Prepared<A>, ChangeFault>
    ensures made { IfOk result (λ made. (held : List Binding)
        × IsApart (M.serving request.now) (M.registration request.now) held (option_map bindings_of made.0) made.1) }
    ensures user { IfOk result (λ made. IfSome made.0 (λ change. change.user ≡ user.now)) }
{
    table.prepare(
        rt,
        user,
        |held: &UserBindings<A>| -> Apart<A>
            ensures { IsApart (M.serving request.entry.now) (M.registration request.entry.now) held.now result.0 result.1 }
        { request.made(held) },
    )
}
