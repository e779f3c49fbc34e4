//! What happens to a context, as data, and the contexts that it happens to.
use crate::bytes::copy_of;
use fork_context::{Answer, Challenge, Context, Event, Kind, Offer, Target};
use fork_rank::{RingStatus, Rules, Status};
use std::alloc::Global;

/// A contact at q 1: the number that it names, and whether it can be tried.
pub type Contact = (u16, bool);

/// A target: the number that is its key, and its q in thousandths.
pub type Aim = (u16, u16);

/// What may happen; the first number is the row's.
#[derive(Clone, Copy)]
pub enum Happening {
    /// A provisional answer of this status comes.
    Rings(u16, u16),
    /// A final answer of this status comes, without contacts and challenges.
    Answers(u16, u16),
    /// A 302 comes with the history's contacts.
    Redirects(u16),
    /// A 401 or a 407 comes with so many challenges from this digit on, each of the kind that goes with the status.
    Asks(u16, u16, u8, u8),
    TimesOut(u16),
    Fails(u16),
    TimerC(u16),
    GivesUp(u16),
    Cancel,
}

/// The key of this number.
pub fn key_of(number: u16) -> [u8; 2] {
    number.to_be_bytes()
}

/// The text of the contact of this number.
pub fn text_of(number: u16) -> [u8; 8] {
    let [high, low] = key_of(number);
    [b'<', b's', b'i', b'p', b':', high, low, b'>']
}

/// A contact of this text at q 1, with the number for its key.
fn offer_to_try(alloc: Global, text: Vec<u8>, number: u16) -> Option<Offer> {
    match copy_of(alloc, &key_of(number)) {
        Some(key) => Some(Offer::new(text, 1000, Some(key))),
        None => None,
    }
}

/// The contact as an answer has it, with a key where it can be tried.
pub fn offer(alloc: Global, contact: Contact) -> Option<Offer> {
    let (number, can_be_tried) = contact;
    match copy_of(alloc, &text_of(number)) {
        Some(text) if can_be_tried => offer_to_try(alloc, text, number),
        Some(text) => Some(Offer::new(text, 1000, None)),
        None => None,
    }
}

/// A final answer of this status without contacts and challenges.
pub fn answer(alloc: Global, code: u16) -> Option<Answer> {
    match Status::of(code) {
        Some(status) => Some(Answer::new(status, Vec::new(alloc), Vec::new(alloc))),
        None => None,
    }
}

/// Adds a contact, if one is there; whether there was memory for it.
pub fn pushes_offer(answer: &mut Answer, offer: Option<Offer>) -> bool {
    match offer {
        Some(offer) => answer.push_offer(offer).is_ok(),
        None => false,
    }
}

/// Adds these contacts; whether there was memory for them.
fn pushes_contacts(alloc: Global, answer: &mut Answer, contacts: &[Contact]) -> bool {
    for &contact in contacts {
        if !pushes_offer(answer, offer(alloc, contact)) {
            return false;
        }
    }
    true
}

/// The answer with these contacts.
fn with_contacts(alloc: Global, mut answer: Answer, contacts: &[Contact]) -> Option<Answer> {
    if pushes_contacts(alloc, &mut answer, contacts) {
        Some(answer)
    } else {
        None
    }
}

/// A 302 with these contacts.
pub fn redirection(alloc: Global, contacts: &[Contact]) -> Option<Answer> {
    match answer(alloc, 302) {
        Some(answer) => with_contacts(alloc, answer, contacts),
        None => None,
    }
}

/// Adds a challenge of this digit; whether there was memory for it.
fn pushes_challenge(alloc: Global, answer: &mut Answer, of_proxy: bool, digit: u8) -> bool {
    match copy_of(alloc, &[digit]) {
        Some(value) => answer
            .push_challenge(Challenge::new(of_proxy, value))
            .is_ok(),
        None => false,
    }
}

/// Adds so many challenges from this digit on, of a proxy where the status is 407; whether there was memory for them.
fn pushes_challenges(alloc: Global, answer: &mut Answer, first: u8, count: u8) -> bool {
    let of_proxy = answer.status().code() == 407;
    for n in 0..count {
        if !pushes_challenge(alloc, answer, of_proxy, first.saturating_add(n)) {
            return false;
        }
    }
    true
}

/// The answer with these challenges.
fn with_challenges(alloc: Global, mut answer: Answer, first: u8, count: u8) -> Option<Answer> {
    if pushes_challenges(alloc, &mut answer, first, count) {
        Some(answer)
    } else {
        None
    }
}

/// A 401 or a 407 with so many challenges from this digit on.
pub fn demand(alloc: Global, code: u16, first: u8, count: u8) -> Option<Answer> {
    match answer(alloc, code) {
        Some(answer) => with_challenges(alloc, answer, first, count),
        None => None,
    }
}

/// The event of what happens, where it is no final answer.
fn plain_event(happening: Happening) -> Option<Event> {
    Some(match happening {
        Happening::Rings(n, code) => Event::Ring(n, RingStatus::of(code)?),
        Happening::TimesOut(n) => Event::Timeout(n),
        Happening::Fails(n) => Event::Fault(n),
        Happening::TimerC(n) => Event::TimerC(n),
        Happening::GivesUp(n) => Event::GiveUp(n),
        Happening::Cancel => Event::Cancel,
        _ => return None,
    })
}

/// The event of a final answer, if one is there.
fn answered(n: u16, answer: Option<Answer>) -> Option<Event> {
    match answer {
        Some(answer) => Some(Event::Answer(n, answer)),
        None => None,
    }
}

/// The event of what happens; a redirection has these contacts.
pub fn event(alloc: Global, happening: Happening, contacts: &[Contact]) -> Option<Event> {
    match happening {
        Happening::Answers(n, code) => answered(n, answer(alloc, code)),
        Happening::Redirects(n) => answered(n, redirection(alloc, contacts)),
        Happening::Asks(n, code, first, count) => answered(n, demand(alloc, code, first, count)),
        happening => plain_event(happening),
    }
}

/// Adds the target of this number; whether there was memory for it.
fn pushes_target(alloc: Global, targets: &mut Vec<Target>, number: u16, q: u16) -> bool {
    match copy_of(alloc, &key_of(number)) {
        Some(key) => targets.push(Target::new(key, q.min(1000))).is_ok(),
        None => false,
    }
}

/// Adds the targets of these numbers; whether there was memory for them.
fn pushes_targets(alloc: Global, targets: &mut Vec<Target>, list: &[Aim]) -> bool {
    for &(number, q) in list {
        if !pushes_target(alloc, targets, number, q) {
            return false;
        }
    }
    true
}

/// The targets of these numbers, each tried at its q.
pub fn targets(alloc: Global, list: &[Aim]) -> Option<Vec<Target>> {
    let mut targets = Vec::new(alloc);
    if pushes_targets(alloc, &mut targets, list) {
        Some(targets)
    } else {
        None
    }
}

/// The context of a request to these targets, under these rules, if it is made.
fn made(alloc: Global, kind: Kind, rules: Rules, targets: Vec<Target>) -> Option<Context> {
    match Context::new(alloc, kind, rules, targets) {
        Ok(context) => Some(context),
        Err(_) => None,
    }
}

/// The context of a request to these targets, under these rules.
pub fn context_under(alloc: Global, kind: Kind, rules: Rules, list: &[Aim]) -> Option<Context> {
    match targets(alloc, list) {
        Some(targets) => made(alloc, kind, rules, targets),
        None => None,
    }
}

/// The context of a request to these targets, under the usual rules.
pub fn context(alloc: Global, kind: Kind, list: &[Aim]) -> Option<Context> {
    context_under(alloc, kind, Rules::usual(), list)
}
