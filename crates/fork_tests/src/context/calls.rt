//! Calls that no history shows: refusals, and the parts of answers and contacts.
use crate::bytes::{copy_of, is};
use crate::context::happening::{
    Aim, answer, context, key_of, offer, pushes_offer, targets, text_of,
};
use crate::context::play::{Told, comes, leaves};
use crate::holds::{holds, holds_at};
use fork_context::{Answer, Choice, Context, Event, Kind, NewFault, Offer, PostError, Target, Up};
use fork_rank::Rules;
use std::alloc::Global;
use std::process::Abort;

/// Why a context of these targets is refused; nothing where it is made.
fn fault_with(alloc: Global, targets: Vec<Target>) -> Option<NewFault> {
    match Context::new(alloc, Kind::Invite, Rules::usual(), targets) {
        Ok(_) => None,
        Err(fault) => Some(fault),
    }
}

/// Why a context of the targets of these numbers is refused; nothing where it is made.
fn fault_of(alloc: Global, list: &[Aim]) -> Option<NewFault> {
    match targets(alloc, list) {
        Some(targets) => fault_with(alloc, targets),
        None => None,
    }
}

#[test]
fn faults_come_in_their_order(rt: HostRuntime) {
    let none = fault_of(rt.alloc(), &[]);
    holds(
        &rt,
        none == Some(NewFault::NoTargets),
        "a context without a target is refused",
    );
    let twice = fault_of(rt.alloc(), &[(1, 1000), (2, 500), (1, 300)]);
    holds(
        &rt,
        twice == Some(NewFault::Twice),
        "a context with one key twice is refused",
    );
    let many: [Aim; 257] = [(1, 1000); 257];
    let many = fault_of(rt.alloc(), &many);
    holds(
        &rt,
        many == Some(NewFault::TooMany),
        "a context with 257 targets is refused, whatever their keys",
    );
}

/// Whether a time-out of a row that is not there would be refused.
fn is_full(fork: &Context) -> bool {
    fork.is_full(&Event::Timeout(1))
}

/// The position of a time-out of a row that is not there; nothing where it is refused.
fn stray_at(fork: &mut Context) -> Option<u32> {
    match fork.post(Event::Timeout(1)) {
        Ok(reply) => Some(reply.at()),
        Err(_) => None,
    }
}

/// Whether a time-out of a row that is not there is refused and comes back.
fn comes_back(fork: &mut Context) -> bool {
    matches!(
        fork.post(Event::Timeout(1)),
        Err(PostError::Full(Event::Timeout(1)))
    )
}

/// Checks that 4,096 events that change nothing are taken, and no more.
fn take_strays(rt: &impl Abort, fork: &mut Context) {
    for at in 0..4096u32 {
        holds_at(
            rt,
            !is_full(fork),
            "one more stray can be taken",
            at as usize,
        );
        holds_at(
            rt,
            stray_at(fork) == Some(at),
            "a stray is taken",
            at as usize,
        );
    }
    holds(rt, is_full(fork), "4,096 strays are enough");
    holds(rt, comes_back(fork), "the next stray comes back");
}

/// Whether this answer is taken after 4,096 events, and goes up as the only one.
fn goes_up(fork: &mut Context, answer: Answer) -> bool {
    let told = Told {
        at: 4096,
        started: (0, 0),
        cancelled: None,
        up: Up::Final(Choice::Stored(0)),
    };
    comes(fork, Event::Answer(0, answer), told)
}

/// Whether a 404 is taken after 4,096 events, and goes up as the only one.
fn a_404_goes_up(alloc: Global, fork: &mut Context) -> bool {
    match answer(alloc, 404) {
        Some(answer) => goes_up(fork, answer),
        None => false,
    }
}

/// Checks that strays are refused at last, and what changes something is not.
fn refuses_strays(rt: &(impl Abort + AllocGlobal), fork: &mut Context) {
    take_strays(rt, fork);
    holds(
        rt,
        a_404_goes_up(rt.alloc(), fork),
        "an event that changes something is taken all the same",
    );
}

#[test]
fn strays_are_refused_at_last(rt: HostRuntime) {
    match context(rt.alloc(), Kind::Other, &[(1, 1000)]) {
        Some(mut fork) => refuses_strays(&rt, &mut fork),
        None => holds(&rt, false, "the context is made"),
    }
}

/// The target of number 7, tried at q 0.3.
fn target(alloc: Global) -> Option<Target> {
    match copy_of(alloc, &key_of(7)) {
        Some(key) => Some(Target::new(key, 300)),
        None => None,
    }
}

/// Checks the parts of that target.
fn tells_its_parts(rt: &impl Abort, target: &Target) {
    holds(rt, is(target.key(), &key_of(7)), "a target has its key");
    holds(rt, target.q() == 300, "a target has its q");
}

#[test]
fn a_target_tells_its_parts(rt: HostRuntime) {
    match target(rt.alloc()) {
        Some(target) => tells_its_parts(&rt, &target),
        None => holds(&rt, false, "the target is made"),
    }
}

/// The copy of a contact.
fn copy_of_offer(alloc: Global, offer: &Offer) -> Option<Offer> {
    match offer.copy(&alloc) {
        Ok(copy) => Some(copy),
        Err(_) => None,
    }
}

/// The copy of a contact that cannot be tried.
fn copied_contact(alloc: Global) -> Option<Offer> {
    match offer(alloc, (2, false)) {
        Some(offer) => copy_of_offer(alloc, &offer),
        None => None,
    }
}

/// Whether this is the key of the contact.
fn has_key(offer: &Offer, number: u16) -> bool {
    match offer.key() {
        Some(key) => is(key, &key_of(number)),
        None => false,
    }
}

/// Whether a contact is there, and has this key.
fn has_key_if_any(offer: Option<Offer>, number: u16) -> bool {
    match offer {
        Some(offer) => has_key(&offer, number),
        None => false,
    }
}

#[test]
fn a_contact_that_can_be_tried_has_a_key(rt: HostRuntime) {
    let well = has_key_if_any(offer(rt.alloc(), (7, true)), 7);
    holds(&rt, well, "the contact has its key");
}

/// Checks the parts of that copy.
fn copy_tells_its_parts(rt: &impl Abort, offer: &Offer) {
    holds(
        rt,
        is(offer.text(), &text_of(2)),
        "the copy of a contact has its text",
    );
    holds(rt, offer.q() == 1000, "the copy of a contact has its q");
    holds(
        rt,
        offer.key().is_none(),
        "the copy of a contact that cannot be tried has no key",
    );
}

#[test]
fn a_contact_tells_its_parts(rt: HostRuntime) {
    match copied_contact(rt.alloc()) {
        Some(offer) => copy_tells_its_parts(&rt, &offer),
        None => holds(&rt, false, "the contact is copied"),
    }
}

/// The answer with that contact.
fn with_the_contact(alloc: Global, mut answer: Answer) -> Option<Answer> {
    if pushes_offer(&mut answer, copied_contact(alloc)) {
        Some(answer)
    } else {
        None
    }
}

/// A 302 with that contact.
fn redirection(alloc: Global) -> Option<Answer> {
    match answer(alloc, 302) {
        Some(answer) => with_the_contact(alloc, answer),
        None => None,
    }
}

/// The copy of an answer.
fn copy_of_answer(alloc: Global, answer: &Answer) -> Option<Answer> {
    match answer.copy(&alloc) {
        Ok(copy) => Some(copy),
        Err(_) => None,
    }
}

/// A copy of that 302.
fn copied_redirection(alloc: Global) -> Option<Answer> {
    match redirection(alloc) {
        Some(answer) => copy_of_answer(alloc, &answer),
        None => None,
    }
}

/// Whether the contact is left once this answer has come.
fn leaves_its_contact(fork: &mut Context, answer: Answer) -> bool {
    fork.post(Event::Answer(0, answer)).is_ok() && leaves(fork, 0, Some(2))
}

/// Whether it is once a copy of that answer has come.
fn copy_leaves_its_contact(alloc: Global, fork: &mut Context) -> bool {
    match copied_redirection(alloc) {
        Some(answer) => leaves_its_contact(fork, answer),
        None => false,
    }
}

/// Checks the parts of that 302.
fn takes_contacts(rt: &impl Abort, answer: &Answer) {
    holds(
        rt,
        answer.status().code() == 302,
        "an answer has its status",
    );
    holds(
        rt,
        answer.offers().len() == 1,
        "an answer has the contact that it was given",
    );
    holds(
        rt,
        answer.challenges().is_empty(),
        "an answer has no challenge at first",
    );
}

#[test]
fn an_answer_takes_contacts(rt: HostRuntime) {
    match redirection(rt.alloc()) {
        Some(answer) => takes_contacts(&rt, &answer),
        None => holds(&rt, false, "the answer is made"),
    }
}

/// Whether the copy of an answer leaves its contact, in a context of one target.
fn copy_is_left(alloc: Global) -> bool {
    match context(alloc, Kind::Invite, &[(1, 1000)]) {
        Some(mut fork) => copy_leaves_its_contact(alloc, &mut fork),
        None => false,
    }
}

#[test]
fn the_copy_of_an_answer_leaves_its_contact(rt: HostRuntime) {
    holds(
        &rt,
        copy_is_left(rt.alloc()),
        "the contact of a copied answer is left",
    );
}
