//! Equality of what events hold. Each function would stand better in the crate of its type, beside `copy`.
ghost use Rattle.std.specs.Prelude.{◌≡◌, ◌↔◌, IsTrue};
ghost use Rattle.context_values.specs.EventView.{event_of};

use fork_context::{Answer, Event, Offer, Target};
use fork_rank::Challenge;
use std::alloc::Allocator;

/// Whether two contacts are equal.
pub(crate) fn is_same_offer<A: Allocator>(one: &Offer<A>, other: &Offer<A>) -> bool
    ensures { IsTrue result ↔ (one.now ≡ other.now) }
{
    let keys = match (one.key(), other.key()) {
        (Some(a), Some(b)) => a == b,
        (None, None) => true,
        _ => false,
    };
    keys && one.text() == other.text() && one.q() == other.q()
}

/// Whether two challenges are equal.
pub(crate) fn is_same_challenge<A: Allocator>(one: &Challenge<A>, other: &Challenge<A>) -> bool
    ensures { IsTrue result ↔ (one.now ≡ other.now) }
{
    one.proxy() == other.proxy() && one.value() == other.value()
}

/// Whether two lists of contacts are equal.
pub(crate) fn are_same_offers<A: Allocator>(ones: &[Offer<A>], others: &[Offer<A>]) -> bool
    ensures { IsTrue result ↔ (ones.now ≡ others.now) }
{
    match (ones.split_first(), others.split_first()) {
        (None, None) => true,
        (Some((one, ones)), Some((other, others))) => is_same_offer(one, other)
            && are_same_offers(ones, others),
        _ => false,
    }
}

/// Whether two lists of challenges are equal.
pub(crate) fn are_same_challenges<A: Allocator>(
    ones: &[Challenge<A>],
    others: &[Challenge<A>],
) -> bool
    ensures { IsTrue result ↔ (ones.now ≡ others.now) }
{
    match (ones.split_first(), others.split_first()) {
        (None, None) => true,
        (Some((one, ones)), Some((other, others))) => is_same_challenge(one, other)
            && are_same_challenges(ones, others),
        _ => false,
    }
}

/// Whether two answers are equal.
pub(crate) fn is_same_answer<A: Allocator>(one: &Answer<A>, other: &Answer<A>) -> bool
    ensures { IsTrue result ↔ (one.now ≡ other.now) }
{
    one.status() == other.status()
        && are_same_offers(one.offers(), other.offers())
        && are_same_challenges(one.challenges(), other.challenges())
}

/// Whether two events are equal.
pub fn is_same_event<A: Allocator>(one: &Event<A>, other: &Event<A>) -> bool
    ensures { IsTrue result ↔ (event_of one.now ≡ event_of other.now) }
{
    match (one, other) {
        (Event::Ring(n, status), Event::Ring(m, other)) => n == m && status == other,
        (Event::Answer(n, answer), Event::Answer(m, other)) => n == m
            && is_same_answer(answer, other),
        (Event::Timeout(n), Event::Timeout(m)) => n == m,
        (Event::Fault(n), Event::Fault(m)) => n == m,
        (Event::TimerC(n), Event::TimerC(m)) => n == m,
        (Event::GiveUp(n), Event::GiveUp(m)) => n == m,
        (Event::Cancel, Event::Cancel) => true,
        _ => false,
    }
}

/// Whether two targets are equal.
pub(crate) fn is_same_target<A: Allocator>(one: &Target<A>, other: &Target<A>) -> bool
    ensures { IsTrue result ↔ (one.now ≡ other.now) }
{
    one.q() == other.q() && one.key() == other.key()
}

/// Whether two lists of targets are equal.
pub fn are_same_targets<A: Allocator>(ones: &[Target<A>], others: &[Target<A>]) -> bool
    ensures { IsTrue result ↔ (ones.now ≡ others.now) }
{
    match (ones.split_first(), others.split_first()) {
        (None, None) => true,
        (Some((one, ones)), Some((other, others))) => is_same_target(one, other)
            && are_same_targets(ones, others),
        _ => false,
    }
}
