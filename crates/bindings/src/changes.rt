//! How a request changes a list of bindings.
ghost use Rattle.std.specs.Prelude.{◌≡◌, ◌≤◌, ◌<◌, ◌+◌, fold, map, position, length, IfOk, IfSome, vec_capacity, vec_len};
ghost use Rattle.bindings.specs.Bindings.{after_binding, at_most, binding_of, ends_first, first_end, goes, is_of_another, is_there, names, put, sooner, sooner_if, there, without_first};
ghost use Rattle.bindings.specs.Seen.{all_asked_of, asked_of, contact_of, id_of, register_of};

use crate::binding::Binding;
use crate::contact::ContactParts;
use crate::lists::MOST;
use crate::request::RegisterRequest;
use crate::there::BindingsAt;
use std::alloc::{AllocError, Allocator};

/// The bindings that the contacts of a request ask for, in order.
pub(crate) fn made<A: Allocator + Clone>(
    alloc: A,
    request: &RegisterRequest<'_>,
) -> Result<Vec<Binding<A>, A>, AllocError>
    ensures { IfOk result (λ v. v.items ≡ map (λ asked. binding_of (register_of request.now) (asked_of asked)) request.now.contacts.now) }
{
    let mut made = Vec::new(alloc.clone()?);
    for asked in request.contacts {
        let binding = Binding::of(alloc.clone()?, request, asked)?;
        made.push(binding)?;
    }
    Ok(made)
}

/// Copies of the bindings that are there at a moment, in their order, with room for so many more.
pub(crate) fn copied_there<A: Allocator + Clone>(
    alloc: A,
    moment: u64,
    bindings: &[Binding<A>],
    more: usize,
) -> Result<Vec<Binding<A>, A>, AllocError>
    ensures items { IfOk result (λ v. v.items ≡ there moment bindings.now) }
    ensures room { IfOk result (λ v. vec_len v + more ≤ vec_capacity v) }
{
    let mut copies = Vec::new(alloc.clone()?);
    let mut rest = BindingsAt::new(moment, bindings);
    while let Some(binding) = rest.next() {
        copies.push(binding.copied(alloc.clone()?)?)?;
    }
    copies.reserve(more)?;
    Ok(copies)
}

/// Lets go the bindings that have ended.
pub(crate) fn keep_there<A: Allocator>(moment: u64, bindings: &mut Vec<Binding<A>, A>)
    ensures items { bindings.new.items ≡ there moment bindings.old.items }
    ensures len { vec_len bindings.new ≤ vec_len bindings.old }
    ensures capacity { vec_capacity bindings.new ≡ vec_capacity bindings.old }
{
    bindings.retain(|binding| binding.is_there(moment));
}

/// Where the first binding stands that a contact names.
fn place_named<A: Allocator>(contact: &ContactParts<'_>, bindings: &[Binding<A>]) -> Option<usize>
    ensures place { result ≡ position (names (contact_of contact.now)) bindings.now }
    ensures within { IfSome result (λ i. i < length bindings.now) }
{
    bindings
        .iter()
        .position(|binding| binding.is_named(contact))
}

/// Puts a binding in the place of the first that its contact names, or behind all others.
fn put<A: Allocator>(new: Binding<A>, bindings: &mut Vec<Binding<A>, A>)
    requires { vec_len bindings.old < vec_capacity bindings.old }
    ensures items { bindings.new.items ≡ put new bindings.old.items }
    ensures len { vec_len bindings.new ≤ vec_len bindings.old + 1 }
    ensures capacity { vec_capacity bindings.new ≡ vec_capacity bindings.old }
{
    match place_named(&new.contact(), bindings) {
        Some(place) => bindings[place] = new,
        None => bindings.push_reserved(new),
    }
}

/// Takes away the first binding that a contact names.
fn take_away<A: Allocator>(contact: &ContactParts<'_>, bindings: &mut Vec<Binding<A>, A>)
    ensures items { bindings.new.items ≡ without_first (names (contact_of contact.now)) bindings.old.items }
    ensures len { vec_len bindings.new ≤ vec_len bindings.old }
    ensures capacity { vec_capacity bindings.new ≡ vec_capacity bindings.old }
{
    if let Some(place) = place_named(contact, bindings) {
        let _ = bindings.remove(place);
    }
}

/// What the contact of a binding does to the others.
fn take_in<A: Allocator>(moment: u64, new: Binding<A>, bindings: &mut Vec<Binding<A>, A>)
    requires { vec_len bindings.old < vec_capacity bindings.old }
    ensures items { bindings.new.items ≡ after_binding moment bindings.old.items new }
    ensures len { vec_len bindings.new ≤ vec_len bindings.old + 1 }
    ensures capacity { vec_capacity bindings.new ≡ vec_capacity bindings.old }
{
    if new.is_there(moment) {
        put(new, bindings);
    } else {
        take_away(&new.contact(), bindings);
    }
}

/// The same for each of several, in order.
pub(crate) fn take_all_in<A: Allocator>(
    moment: u64,
    made: Vec<Binding<A>, A>,
    bindings: &mut Vec<Binding<A>, A>,
)
    requires { vec_len bindings.old + vec_len made ≤ vec_capacity bindings.old }
    ensures { bindings.new.items ≡ fold (after_binding moment) bindings.old.items made.items }
{
    for new in made {
        take_in(moment, new, bindings);
    }
}

/// The sooner of a moment and another one that may be there.
fn sooner(soonest: Option<u64>, moment: u64) -> Option<u64>
    ensures { result ≡ sooner soonest moment }
{
    match soonest {
        None => Some(moment),
        Some(other) => Some(other.min(moment)),
    }
}

/// The sooner of the two where the second counts.
fn sooner_if(counts: bool, soonest: Option<u64>, moment: u64) -> Option<u64>
    ensures { result ≡ sooner_if counts soonest moment }
{
    if counts {
        sooner(soonest, moment)
    } else {
        soonest
    }
}

/// When the first of those ends that are there at a moment.
pub(crate) fn first_end_at<A: Allocator>(moment: u64, bindings: &[Binding<A>]) -> Option<u64>
    ensures { result ≡ first_end (is_there moment) bindings.now }
{
    bindings.iter().fold(None, |soonest, binding| {
        sooner_if(binding.is_there(moment), soonest, binding.ends())
    })
}

/// When the first of those ends that other requests made.
fn first_end_of_others<A: Allocator>(
    request: &RegisterRequest<'_>,
    bindings: &[Binding<A>],
) -> Option<u64>
    ensures { result ≡ first_end (is_of_another (id_of request.now)) bindings.now }
{
    bindings.iter().fold(None, |soonest, binding| {
        sooner_if(!binding.is_by(request), soonest, binding.ends())
    })
}

/// Where the first of those stands that other requests made and that end at a moment.
fn place_ending<A: Allocator>(
    request: &RegisterRequest<'_>,
    moment: u64,
    bindings: &[Binding<A>],
) -> Option<usize>
    ensures place { result ≡ position (ends_first (id_of request.now) (Some moment)) bindings.now }
    ensures within { IfSome result (λ i. i < length bindings.now) }
{
    bindings
        .iter()
        .position(|binding| binding.ends_for_another(request, moment))
}

/// Lets go the first in order of those that end first, of those that other requests made.
fn let_one_go<A: Allocator>(request: &RegisterRequest<'_>, bindings: &mut Vec<Binding<A>, A>)
    ensures { bindings.new.items ≡ without_first (goes (id_of request.now) bindings.old.items) bindings.old.items }
{
    let Some(end) = first_end_of_others(request, bindings) else {
        return;
    };
    if let Some(place) = place_ending(request, end, bindings) {
        let _ = bindings.remove(place);
    }
}

/// Lets those go that are more than a user may have.
pub(crate) fn let_go<A: Allocator>(request: &RegisterRequest<'_>, bindings: &mut Vec<Binding<A>, A>)
    ensures { bindings.new.items ≡ at_most (id_of request.now) bindings.old.items }
{
    for _ in MOST..bindings.len() {
        let_one_go(request, bindings);
    }
}
