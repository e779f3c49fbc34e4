//! Equal values in memory of their own. Each function's only error is want of memory.
ghost use Rattle.std.specs.Prelude.{◌≡◌, ℕ, IfOk, IsErr};

use crate::event::{Answer, Event, Target};
use crate::offer::Offer;
use fork_rank::Challenge;
use std::alloc::{AllocError, Allocator};

impl<A: Allocator + Clone> Target<A> {
    /// An equal target; the only error is want of memory.
    pub fn copy(&self, alloc: &A) -> Result<Self, AllocError>
        ensures { IfOk result (λ target. target ≡ self.now) }
    {
        Ok(Target {
            key: self.key.to_vec(alloc.clone()?)?,
            q: self.q,
        })
    }
}

/// Equal targets, in their order.
pub fn copied_targets<A: Allocator + Clone>(
    alloc: &A,
    targets: &[Target<A>],
) -> Result<Vec<Target<A>, A>, AllocError>
    ensures { IfOk result (λ copies. copies.items ≡ targets.now) }
{
    let mut copies = Vec::new(alloc.clone()?);
    for target in targets {
        copies.push(target.copy(alloc)?)?;
    }
    Ok(copies)
}

impl<A: Allocator + Clone> Offer<A> {
    /// An equal contact; the only error is want of memory.
    pub fn copy(&self, alloc: &A) -> Result<Self, AllocError>
        ensures { IfOk result (λ offer. offer ≡ self.now) }
    {
        let key = match &self.key {
            Some(key) => Some(key.to_vec(alloc.clone()?)?),
            None => None,
        };
        Ok(Offer {
            text: self.text.to_vec(alloc.clone()?)?,
            q: self.q,
            key,
        })
    }
}

/// Equal contacts, in their order.
pub fn copied_offers<A: Allocator + Clone>(
    alloc: &A,
    offers: &[Offer<A>],
) -> Result<Vec<Offer<A>, A>, AllocError>
    ensures { IfOk result (λ copies. copies.items ≡ offers.now) }
{
    let mut copies = Vec::new(alloc.clone()?);
    for offer in offers {
        copies.push(offer.copy(alloc)?)?;
    }
    Ok(copies)
}

/// Equal challenges, in their order.
pub fn copied_challenges<A: Allocator + Clone>(
    alloc: &A,
    challenges: &[Challenge<A>],
) -> Result<Vec<Challenge<A>, A>, AllocError>
    ensures { IfOk result (λ copies. copies.items ≡ challenges.now) }
{
    let mut copies = Vec::new(alloc.clone()?);
    for challenge in challenges {
        copies.push(challenge.copy(alloc)?)?;
    }
    Ok(copies)
}

impl<A: Allocator + Clone> Answer<A> {
    /// An equal answer; the only error is want of memory.
    pub fn copy(&self, alloc: &A) -> Result<Self, AllocError>
        ensures { IfOk result (λ answer. answer ≡ self.now) }
    {
        Ok(Answer {
            status: self.status,
            offers: copied_offers(alloc, &self.offers)?,
            challenges: copied_challenges(alloc, &self.challenges)?,
        })
    }
}

impl<A: Allocator + Clone> Event<A> {
    ghost use Rattle.fork_model.specs.Event as spec;
    ghost use Rattle.fork_model.specs.Event.{FinalAnswer};
    ghost use Rattle.context_values.specs.EventView.{event_of};

    /// An equal event; the only error is want of memory, which an answer alone asks for.
    pub fn copy(&self, alloc: &A) -> Result<Self, AllocError>
        ensures equal { IfOk result (λ event. event_of event ≡ event_of self.now) }
        ensures asked { IsErr result → (n : ℕ) × (answer : FinalAnswer) × (event_of self.now ≡ spec.Answer n answer) }
    {
        Ok(match self {
            Event::Ring(n, status) => Event::Ring(*n, *status),
            Event::Answer(n, answer) => Event::Answer(*n, answer.copy(alloc)?),
            Event::Timeout(n) => Event::Timeout(*n),
            Event::Fault(n) => Event::Fault(*n),
            Event::TimerC(n) => Event::TimerC(*n),
            Event::GiveUp(n) => Event::GiveUp(*n),
            Event::Cancel => Event::Cancel,
        })
    }
}
