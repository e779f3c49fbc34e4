//! A request that is opened, by what is bound to the user who counts for it.
ghost use Rattle.std.specs.Prelude.{◌≡◌, List, IfOk};
ghost use Rattle.bindings.specs.Bindings.{Binding};
ghost use Rattle.proxy_dispatch.specs.Admitting as dispatch;
ghost use Rattle.proxy_dispatch.specs.SeenDecision.{seen_decision};

use binding_table::BindingTable;
use bindings::UserBindings;
use proxy_dispatch::Decision;
use std::alloc::{AllocError, Allocator};
use std::sync::Wait;

/// By which setup a request is opened, where so much is bound to its user. It is a trait, since nothing is known of what a closure returns that
/// holds something with a lifetime.
pub(crate) trait OpensBy<A: Allocator + Clone> {
    ghost use Rattle.std.specs.Prelude.{List};
    ghost use Rattle.bindings.specs.Bindings.{Binding};
    ghost use Rattle.proxy_config.specs.Setup as proxy;
    ghost use Rattle.proxy_dispatch.specs.Admitting as dispatch;
    ghost use Rattle.proxy_dispatch.specs.SeenDecision.{seen_decision};

    /// The setup that stands.
    ghost standing: { Self → proxy.Setup };

    /// The setup by which it is opened.
    ghost setup: { Self → List Binding → proxy.Setup };

    fn decision(&self, held: &UserBindings<A>) -> Result<Decision<A>, AllocError>
        ensures { IfOk result (λ decision. seen_decision (Self.standing self.now) decision ≡ dispatch.Opens (Self.setup self.now held.now)) };
}

/// What becomes of a request whose user this is. The bindings are looked at where they are kept, and nobody changes them meanwhile: so none
/// is copied but into the setup.
///
/// # Errors
///
/// Only where the allocator refuses.
pub(crate) fn decision_by<R: Wait, A: Allocator + Clone, O: OpensBy<A>>(
    rt: &R,
    table: &BindingTable<UserBindings<A>, A>,
    alloc: &A,
    user: &[u8],
    request: &O,
) -> Result<Decision<A>, AllocError>
    ensures { IfOk result (λ decision. (held : List Binding) × (seen_decision (O.standing request.now) decision ≡ dispatch.Opens (O.setup request.now held))) }
{
    let looked = table.look(
        rt,
        user,
        |held: &UserBindings<A>| -> Result<Decision<A>, AllocError>
            ensures { IfOk result (λ decision. seen_decision (O.standing request.entry.now) decision ≡ dispatch.Opens (O.setup request.entry.now held.now)) }
        { request.decision(held) },
    );
    if let Some(looked) = looked {
        let decision = looked?;
        return Ok(decision);
    }
    let none = UserBindings::new(alloc.clone()?);
    let decision = request.decision(&none)?;
    Ok(decision)
}
