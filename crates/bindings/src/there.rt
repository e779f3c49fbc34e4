//! The bindings that are there at a moment.
ghost use Rattle.std.specs.Prelude.{◌≡◌, [], ◌∷◌, IfNone, IfSome};
ghost use Rattle.bindings.specs.Bindings.{there};

use crate::binding::Binding;
use std::alloc::{Allocator, Global};
use std::marker::Model;

/// The first binding that is there at a moment, and the bindings behind it.
fn split_there<A: Allocator>(
    moment: u64,
    bindings: &[Binding<A>],
) -> Option<(&Binding<A>, &[Binding<A>])>
    ensures found { IfSome result (λ p. there moment bindings.now ≡ p.0.now ∷ there moment p.1.now) }
    ensures none { IfNone result (there moment bindings.now ≡ []) }
{
    let mut rest = bindings;
    while let Some((binding, after)) = rest.split_first() {
        if binding.is_there(moment) {
            return Some((binding, after));
        }
        rest = after;
    }
    None
}

/// The bindings of a user that are there at a moment, in their order.
#[derive(Drop)]
pub struct BindingsAt<'a, A: Allocator = Global> {
    moment: u64,
    bindings: &'a [Binding<A>],
}

impl<'a, A: Allocator> Model for BindingsAt<'a, A> {
    ghost use Rattle.std.specs.Prelude.{List};
    ghost use Rattle.bindings.specs.Bindings as spec;

    ghost Value = { List spec.Binding };

    ghost view = { λ b. spec.there b.moment b.bindings.now };
}

impl<'a, A: Allocator> BindingsAt<'a, A> {
    pub(crate) fn new(moment: u64, bindings: &'a [Binding<A>]) -> BindingsAt<'a, A>
        ensures { result ≡ there moment bindings.now }
    {
        BindingsAt { moment, bindings }
    }
}

impl<'a, A: Allocator> Iterator for BindingsAt<'a, A> {
    ghost use Rattle.std.specs.Iterator.{YieldsFirstBy, item_count};

    type Item = &'a Binding<A>;

    ghost next_gives = { YieldsFirstBy (λ b. b.now) (λ bs. bs) };

    ghost remaining = { item_count (λ bs. bs) };

    fn next(&mut self) -> Option<&'a Binding<A>> {
        let (binding, rest) = split_there(self.moment, self.bindings)?;
        self.bindings = rest;
        Some(binding)
    }

    fn size_hint(&self) -> (usize, Option<usize>) {
        (0, None)
    }
}
