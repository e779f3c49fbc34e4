//! Lists of bindings and of contacts: what a request finds in them.
ghost use Rattle.std.specs.Prelude.{◌≡◌, not};
ghost use Rattle.std.specs.List.{list_any};
ghost use Rattle.bindings.specs.Bindings.{there};
ghost use Rattle.bindings.specs.Registering.{are_apart, asks_the_same, comes_late, is_as_new, is_brief, is_late, is_repeat, refusal, star_is_wrong};
ghost use Rattle.bindings.specs.Seen.{all_asked_of, asked_of, id_of, register_of};

use crate::binding::Binding;
use crate::refusal::RegisterRefusal;
use crate::request::{RegisterContact, RegisterRequest};
use std::alloc::Allocator;

/// As many bindings as a user may have, and contacts a request.
pub(crate) const MOST: usize = 16;

/// Whether the request made one of these bindings that is there: then it comes again.
pub(crate) fn is_repeat<A: Allocator>(
    request: &RegisterRequest<'_>,
    bindings: &[Binding<A>],
) -> bool
    ensures { result ≡ is_repeat (register_of request.now) bindings.now }
{
    bindings.iter().any(|binding| binding.has_made(request))
}

/// Whether `*` stands beside a contact, or without an Expires of 0.
fn star_is_wrong(request: &RegisterRequest<'_>) -> bool
    ensures { result ≡ star_is_wrong request.now.star (all_asked_of request.now.contacts.now) }
{
    match request.star {
        None => false,
        Some(time) => !(time == 0 && request.contacts.is_empty()),
    }
}

/// Whether a contact names the same binding as one of others.
fn stands_among(asked: &RegisterContact<'_>, others: &[RegisterContact<'_>]) -> bool
    ensures { result ≡ list_any (λ other. asks_the_same (asked_of asked.now) (asked_of other)) others.now }
{
    others.iter().any(|other| asked.asks_the_same(other))
}

/// Whether two contacts name the same binding.
fn has_twice(contacts: &[RegisterContact<'_>]) -> bool
    ensures { result ≡ not (are_apart (all_asked_of contacts.now)) }
{
    let Some((first, others)) = contacts.split_first() else {
        return false;
    };
    if stands_among(first, others) {
        return true;
    }
    has_twice(others)
}

/// Whether a contact is to be bound for too few seconds.
fn is_too_brief(least: u32, contacts: &[RegisterContact<'_>]) -> bool
    ensures { result ≡ list_any (λ asked. is_brief least (asked_of asked)) contacts.now }
{
    contacts.iter().any(|asked| asked.is_brief(least))
}

/// Whether the first binding that a contact names, of those that are there, is as new as the request.
fn comes_late<A: Allocator>(
    request: &RegisterRequest<'_>,
    bindings: &[Binding<A>],
    asked: &RegisterContact<'_>,
) -> bool
    ensures { result ≡ comes_late (id_of request.now) (there request.now.at bindings.now) (asked_of asked.now) }
{
    let mut rest = bindings;
    while let Some((binding, after)) = rest.split_first() {
        rest = after;
        if !binding.is_there(request.at) {
            continue;
        }
        if binding.is_named(&asked.parts) {
            return binding.is_as_new(request);
        }
    }
    false
}

/// Whether a contact comes late.
fn one_comes_late<A: Allocator>(
    request: &RegisterRequest<'_>,
    bindings: &[Binding<A>],
    contacts: &[RegisterContact<'_>],
) -> bool
    ensures { result ≡ list_any (λ asked. comes_late (id_of request.now) (there request.now.at bindings.now) (asked_of asked)) contacts.now }
{
    contacts
        .iter()
        .any(|asked| comes_late(request, bindings, asked))
}

/// Whether a binding that is there is as new as the request.
fn one_is_as_new<A: Allocator>(request: &RegisterRequest<'_>, bindings: &[Binding<A>]) -> bool
    ensures { result ≡ list_any (is_as_new (id_of request.now)) (there request.now.at bindings.now) }
{
    bindings
        .iter()
        .filter(|binding| binding.is_there(request.at))
        .any(|binding| binding.is_as_new(request))
}

/// Whether a binding that the request names, of those that are there, is as new as the request.
#[tactic(auto, using(crate::proofs::Steps::any_mapped))]
fn is_late<A: Allocator>(request: &RegisterRequest<'_>, bindings: &[Binding<A>]) -> bool
    ensures { result ≡ is_late (register_of request.now) (there request.now.at bindings.now) }
{
    match request.star {
        Some(_) => one_is_as_new(request, bindings),
        None => one_comes_late(request, bindings, request.contacts),
    }
}

/// Why a request changes nothing, where these are the bindings.
pub(crate) fn refusal<A: Allocator>(
    request: &RegisterRequest<'_>,
    bindings: &[Binding<A>],
) -> Option<RegisterRefusal>
    ensures { result ≡ refusal (register_of request.now) (there request.now.at bindings.now) }
{
    if star_is_wrong(request) {
        return Some(RegisterRefusal::Star);
    }
    if request.contacts.len() > MOST {
        return Some(RegisterRefusal::TooMany);
    }
    if has_twice(request.contacts) {
        return Some(RegisterRefusal::Twice);
    }
    if is_too_brief(request.least, request.contacts) {
        return Some(RegisterRefusal::TooBrief);
    }
    if is_late(request, bindings) {
        return Some(RegisterRefusal::OutOfOrder);
    }
    None
}
