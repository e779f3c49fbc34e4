//! What may happen to a fork.
ghost use Rattle.std.specs.Prelude.{◌≡◌, ◌≤◌, ◌++◌, ◌∷◌, [], IfErr, OnOk, OnErr};
ghost use Rattle.std.specs.List.{AllByRecursion};
ghost use Rattle.fork_model.specs.Range.{most_q, IsOfferInRange, IsAnswerInRange, IsEventInRange};
ghost use Rattle.context_values.specs.EventView.{event_of};

use crate::offer::Offer;
use fork_rank::{Challenge, RingStatus, Status};
use std::alloc::{AllocFailed, Allocator, Global};
use std::marker::Model;

/// Where a request may be sent. Two targets are the same where their keys are equal; q is in thousandths,
/// 0 to 1000 (RFC 3261 section 16.5).
#[derive(Drop)]
#[derive_where(Debug)]
pub struct Target<A: Allocator = Global> {
    pub(crate) key: Vec<u8, A>,
    pub(crate) q: u16,
}

impl<A: Allocator> Model for Target<A> {
    ghost use Rattle.std.specs.Prelude.{◌≤◌};
    ghost use Rattle.fork_model.specs.History as spec;
    ghost use Rattle.fork_model.specs.Range.{most_q};

    ghost Value = { spec.Target };

    ghost view = { λ t. record { key = t.key.items; q = t.q } };

    ghost invariant = { λ t. t.q ≤ most_q };
}

impl<A: Allocator> Target<A> {
    /// The target of this key, tried at this q, 0 to 1000.
    pub fn new(key: Vec<u8, A>, q: u16) -> Self
        requires { q ≤ most_q }
        ensures { result ≡ record { key = key.items; q = q } }
    {
        Target { key, q }
    }

    /// What identifies it.
    pub fn key(&self) -> &[u8]
        ensures { result.now ≡ self.now.key }
    {
        &self.key
    }

    /// Its q in thousandths, 0 to 1000.
    pub fn q(&self) -> u16
        ensures value { result ≡ self.now.q }
        ensures range { result ≤ most_q }
    {
        self.q
    }
}

/// A final response, with what the fork needs of it: its contacts, which count where it is a 3xx, and its
/// challenges, which count where it is a 401 or a 407.
#[derive(Drop)]
#[derive_where(Debug)]
pub struct Answer<A: Allocator = Global> {
    pub(crate) status: Status,
    pub(crate) offers: Vec<Offer<A>, A>,
    #[derive_where(skip)]
    pub(crate) challenges: Vec<Challenge<A>, A>,
}

impl<A: Allocator> Model for Answer<A> {
    ghost use Rattle.fork_model.specs.Event as spec;
    ghost use Rattle.fork_model.specs.Range.{IsAnswerInRange};

    ghost Value = { spec.FinalAnswer };

    ghost view = { λ a. record { status = a.status; offers = a.offers.items; challenges = a.challenges.items } };

    ghost invariant = { λ a. IsAnswerInRange (record { status = a.status; offers = a.offers.items; challenges = a.challenges.items }) };
}

/// Reads the q of each contact, which is at most 1000.
fn read_each_q<A: Allocator>(offers: &[Offer<A>])
    ensures { AllByRecursion IsOfferInRange offers.now }
{
    for offer in offers {
        let _q = offer.q();
    }
}

impl<A: Allocator> Answer<A> {
    /// The answer of this status, with these contacts and challenges in the order of the message.
    pub fn new(status: Status, offers: Vec<Offer<A>, A>, challenges: Vec<Challenge<A>, A>) -> Self
        ensures { result ≡ record { status = status; offers = offers.items; challenges = challenges.items } }
    {
        // what is known of the parts is kept of the whole
        read_each_q(&offers);
        let _code = status.code();
        Answer {
            status,
            offers,
            challenges,
        }
    }

    /// Adds a contact behind the others.
    ///
    /// # Errors
    ///
    /// Only where the allocator refuses; then the answer is as it was, and the contact comes back.
    pub fn push_offer(&mut self, offer: Offer<A>) -> Result<(), AllocFailed<Offer<A>>>
        ensures ok { OnOk result (self.new ≡ record self.old { offers = self.old.offers ++ offer ∷ [] }) }
        ensures returned { IfErr result (λ refused. refused.value ≡ offer) }
        ensures err { OnErr result (self.new ≡ self.old) }
    {
        let _q = offer.q();
        self.offers.push(offer)
    }

    /// Adds a challenge behind the others.
    ///
    /// # Errors
    ///
    /// Only where the allocator refuses; then the answer is as it was, and the challenge comes back.
    pub fn push_challenge(
        &mut self,
        challenge: Challenge<A>,
    ) -> Result<(), AllocFailed<Challenge<A>>>
        ensures ok { OnOk result (self.new ≡ record self.old { challenges = self.old.challenges ++ challenge ∷ [] }) }
        ensures returned { IfErr result (λ refused. refused.value ≡ challenge) }
        ensures err { OnErr result (self.new ≡ self.old) }
    {
        self.challenges.push(challenge)
    }

    /// Its contacts, in the order of the message.
    pub fn offers(&self) -> &[Offer<A>]
        ensures { result.now ≡ self.now.offers }
    {
        &self.offers
    }

    /// Its challenges, in the order of the message.
    pub fn challenges(&self) -> &[Challenge<A>]
        ensures { result.now ≡ self.now.challenges }
    {
        &self.challenges
    }

    /// Its status.
    pub fn status(&self) -> Status
        ensures value { result ≡ self.now.status }
        ensures range { IsAnswerInRange self.now }
    {
        self.status
    }
}

/// What may happen to a fork; the number names a row (RFC 3261 sections 9 and 16.7 to 16.10).
#[derive(Drop)]
#[derive_where(Debug)]
pub enum Event<A: Allocator = Global> {
    /// A provisional response came from the branch.
    Ring(u16, RingStatus),
    /// A final response came from the branch.
    Answer(u16, Answer<A>),
    /// The branch's client transaction has had no final response in time.
    Timeout(u16),
    /// The branch's request could not be sent.
    Fault(u16),
    /// The branch's timer C fired.
    TimerC(u16),
    /// The wait for a final response of a cancelled branch is over.
    GiveUp(u16),
    /// The caller cancels its request.
    Cancel,
}

impl<A: Allocator> Event<A> {
    /// Reads what is in range of it: the status of an answer, and the q of each contact.
    pub fn read_range(&self)
        ensures { IsEventInRange (event_of self.now) }
    {
        if let Event::Answer(_, answer) = self {
            let _status = answer.status();
        }
    }
}
