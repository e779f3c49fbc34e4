//! Whether a request passed this proxy before.

ghost use Rattle.std.specs.Prelude.{◌↔◌, IsTrue};
ghost use Rattle.std.specs.List.{Any};
ghost use Rattle.sip_route.specs.LoopTest.{IsLoop};
ghost use Rattle.sip_route.specs.inner.LoopTest.{IsOwnValue};
ghost use Rattle.sip_via.specs.OwnPass.{IsOwnPass};
ghost use Rattle.sip_via.specs.TopVia.{via_values};

use crate::loops::loop_key;
use sip_text::Message;
use sip_via::{Own, ViaValues, own_branch_of};
use std::alloc::Allocator;

/// Whether a Via value is one that this proxy put.
fn is_own_value(value: &[u8], own: Own) -> bool
    ensures { IsTrue result ↔ IsOwnValue own value.now }
{
    match own_branch_of(value, own) {
        None => false,
        Some(_) => true,
    }
}

/// Whether a Via value is one that this proxy put, with that key.
fn is_own_pass(value: &[u8], own: Own, key: &[u8; 16]) -> bool
    ensures { IsTrue result ↔ IsOwnPass own key.now value.now }
{
    match own_branch_of(value, own) {
        None => false,
        Some(name) => name.key == *key,
    }
}

/// Whether this proxy put one of the Via values.
fn has_own_value<A: Allocator>(message: &Message<A>, own: Own) -> bool
    ensures { IsTrue result ↔ Any (λ value. IsOwnValue own value) (via_values message.now) }
{
    let mut values = ViaValues::of(message);
    while let Some(value) = values.next() {
        if is_own_value(value, own) {
            return true;
        }
    }
    false
}

/// Whether this proxy put one of the Via values with that key.
fn has_own_pass<A: Allocator>(message: &Message<A>, own: Own, key: &[u8; 16]) -> bool
    ensures { IsTrue result ↔ Any (λ value. IsOwnPass own key.now value) (via_values message.now) }
{
    let mut values = ViaValues::of(message);
    while let Some(value) = values.next() {
        if is_own_pass(value, own, key) {
            return true;
        }
    }
    false
}

/// Whether a request passed this proxy before, routed as it is now (RFC 3261 section 16.3 step 4):
/// one of its Via values has the proxy's address as host, its port (5060 where it names none), and a
/// branch of the proxy's own with the loop key of the request, as `forward` puts it there (section
/// 16.6 step 8). A Via value that cannot be read is passed over. A request that comes again with
/// another route, as one that spirals, has another key.
///
/// The caller has taken the proxy's own Route value away.
pub fn is_loop<A: Allocator>(message: &Message<A>, own: Own) -> bool
    ensures { IsTrue result ↔ IsLoop message.now own }
{
    has_own_value(message, own) && has_own_pass(message, own, &loop_key(message))
}
